//! Texts that are cut.

use sms_alphabet::{Coded, Coding, Units};
use std::alloc::Global;
use std::process::Abort;

// What a call gives where it can be had.
pub fn had<T: Drop, E: Drop>(rt: &impl Abort, got: Result<T, E>) -> T {
    let Ok(it) = got else { panic!(rt; "no memory") };
    it
}

// `total` units: letters, with a pair at `place` where there is room for one.
fn units_with_pair(
    rt: &impl Abort,
    alloc: Global,
    (letter, first, second): (u16, u16, u16),
    total: usize,
    place: usize,
) -> Vec<u16> {
    let mut units = had(rt, Vec::with_capacity(alloc, total));
    for index in 0..total {
        let unit = if index == place {
            first
        } else if index > 0 && index - 1 == place {
            second
        } else {
            letter
        };
        had(rt, units.push(unit));
    }
    units
}

// A text of these units.
pub fn text_with_pair(
    rt: &impl Abort,
    alloc: Global,
    coding: Coding,
    total: usize,
    place: usize,
) -> Coded {
    let kinds = match coding {
        Coding::Gsm => (0x61, 0x1B, 0x65),
        Coding::Ucs2 => (0x0436, 0xD83D, 0xDE00),
    };
    let units = units_with_pair(rt, alloc, kinds, total, place);
    Coded {
        coding,
        units: Units::new(units),
    }
}

// Letters alone.
pub fn letters(rt: &impl Abort, alloc: Global, total: usize) -> Coded {
    text_with_pair(rt, alloc, Coding::Gsm, total, total)
}

// A text of as many pairs.
pub fn pairs_of(
    rt: &impl Abort,
    alloc: Global,
    coding: Coding,
    (first, second): (u16, u16),
    pairs: usize,
) -> Coded {
    let mut units = Vec::new(alloc);
    for _ in 0..pairs {
        had(rt, units.push(first));
        had(rt, units.push(second));
    }
    Coded {
        coding,
        units: Units::new(units),
    }
}
