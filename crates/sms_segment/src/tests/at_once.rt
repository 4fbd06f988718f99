//! Texts that one short message carries.

use super::same;
use super::texts::had;
use crate::{ShortMessage, short_message_of};
use std::alloc::Global;
use std::process::Abort;

// A character, how often it stands in the text, and where one short message carries that its
// `data_coding` and the character's octets.
type Row = (char, usize, Option<(u8, &'static [u8])>);

const AT_ONCE: [Row; 11] = [
    ('a', 0, Some((0x00, b"\x61"))),
    ('a', 160, Some((0x00, b"\x61"))),
    ('a', 161, None),
    ('@', 160, Some((0x00, b"\x00"))),
    ('é', 160, Some((0x00, b"\x05"))),
    ('€', 80, Some((0x00, b"\x1b\x65"))),
    ('€', 81, None),
    ('ж', 70, Some((0x08, b"\x04\x36"))),
    ('ж', 71, None),
    ('😀', 35, Some((0x08, b"\xd8\x3d\xde\x00"))),
    ('😀', 36, None),
];

// So many of the character.
fn text_of(rt: &impl Abort, alloc: Global, c: char, count: usize) -> String {
    let mut text = String::new(alloc);
    for _ in 0..count {
        had(rt, text.push(c));
    }
    text
}

fn octets_of(rt: &impl Abort, alloc: Global, octets: &[u8], count: usize) -> Vec<u8> {
    let mut all = Vec::new(alloc);
    for _ in 0..count {
        had(rt, all.extend_from_slice(octets));
    }
    all
}

fn want_at_once(rt: &impl Abort, alloc: Global, (c, count, wanted): Row) {
    let text = text_of(rt, alloc, c, count);
    let found = had(rt, short_message_of(alloc, text.as_str()));
    let wanted = match wanted {
        Some((data_coding, octets)) => Some(ShortMessage {
            data_coding,
            octets: octets_of(rt, alloc, octets, count),
        }),
        None => None,
    };
    same(rt, found, wanted);
}

#[test]
fn one_short_message_carries_a_short_text(rt: HostRuntime) {
    for row in &AT_ONCE {
        want_at_once(&rt, rt.alloc(), *row);
    }
}
