//! Tariffs and what they charge, by worked rows.

use super::{had, same, want_text};
use sms_book::{Rate, Tariff, TariffError};
use std::alloc::Global;
use std::process::Abort;

fn push_rate(rt: &impl Abort, alloc: Global, rates: &mut Vec<Rate>, prefix: &str, credits: u32) {
    let prefix = had(rt, String::from_str(alloc, prefix));
    had(rt, rates.push(Rate { prefix, credits }));
}

fn rates_of(rt: &impl Abort, alloc: Global, rates: &[(&str, u32)]) -> Vec<Rate> {
    let mut list = Vec::new(alloc);
    for (prefix, credits) in rates {
        push_rate(rt, alloc, &mut list, prefix, *credits);
    }
    list
}

fn tariff_of(rt: &impl Abort, alloc: Global, rates: &[(&str, u32)]) -> Result<Tariff, TariffError> {
    let list = rates_of(rt, alloc, rates);
    Tariff::new(alloc, list.as_slice())
}

// A segment to this destination costs so many credits.
fn want_cost(rt: &impl Abort, tariff: &Tariff, destination: &str, credits: u32) {
    same(rt, tariff.cost(destination), credits);
}

// By these rates one segment to each of these destinations costs so many credits.
fn want_costs(rt: &impl Abort, alloc: Global, rates: &[(&str, u32)], costs: &[(&str, u32)]) {
    let tariff = had(rt, tariff_of(rt, alloc, rates));
    for (destination, credits) in costs {
        want_cost(rt, &tariff, destination, *credits);
    }
}

// What one segment costs to each of these destinations.
const COSTS: &[(&str, u32)] = &[
    ("+447700900123", 5),
    ("447700900123", 5),
    ("4477", 5),
    ("4420", 3),
    ("447", 3),
    ("44", 3),
    ("4", 2),
    ("33", 2),
    ("+", 2),
    ("", 2),
    // One leading + is left out, and no other.
    ("++4477", 2),
    ("44+77", 3),
];

#[test]
fn the_longest_prefix_costs(rt: HostRuntime) {
    want_costs(&rt, rt.alloc(), &[("44", 3), ("4477", 5), ("", 2)], COSTS);
}

// Without a rate that fits a segment costs one credit.
#[test]
fn no_prefix_costs_one(rt: HostRuntime) {
    let costs = &[("33", 1), ("+4", 1), ("", 1)];
    want_costs(&rt, rt.alloc(), &[("4477", 5), ("44", 3)], costs);
}

#[test]
fn no_rate_costs_one(rt: HostRuntime) {
    want_costs(&rt, rt.alloc(), &[], &[("+447700900123", 1)]);
}

// Prefixes that begin with others, and some between them.
const NESTED: &[(&str, u32)] = &[
    ("447911", 7),
    ("45", 8),
    ("4", 2),
    ("4481", 9),
    ("4479", 5),
    ("44", 3),
];

const NESTED_COSTS: &[(&str, u32)] = &[
    ("+447911", 7),
    ("+4479110", 7),
    // The last prefix before it begins as it does, but is no prefix of it.
    ("+447912", 5),
    ("+4480", 3),
    ("+46", 2),
    ("+5", 1),
    // No prefix is before it.
    ("+3", 1),
];

#[test]
fn a_prefix_begins_with_another(rt: HostRuntime) {
    want_costs(&rt, rt.alloc(), NESTED, NESTED_COSTS);
}

// A rate of 20 digits, and of one.
const LONG: &[(&str, u32)] = &[("01234567890123456789", 1_000), ("0", 2)];

const LONG_COSTS: &[(&str, u32)] = &[
    ("01234567890123456789", 1_000),
    ("+0123456789012345678999", 1_000),
    ("0123456789012345678", 2),
];

// A prefix has at most 20 digits, and a destination may have more.
#[test]
fn a_prefix_has_20_digits(rt: HostRuntime) {
    want_costs(&rt, rt.alloc(), LONG, LONG_COSTS);
}

// These rates are refused so, or make a tariff.
fn want_refusal(
    rt: &impl Abort,
    alloc: Global,
    rates: &[(&str, u32)],
    wanted: Option<TariffError>,
) {
    same(rt, tariff_of(rt, alloc, rates).err(), wanted);
}

// Rates, and why they make no tariff.
const REFUSED: [(&[(&str, u32)], Option<TariffError>); 10] = [
    (
        &[("44", 3), ("44", 3)],
        Some(TariffError::Duplicate {
            first: 0,
            second: 1,
        }),
    ),
    (&[("4a", 3)], Some(TariffError::BadPrefix { place: 0 })),
    (&[("44", 0)], Some(TariffError::BadCredits { place: 0 })),
    (&[("44", 1_001)], Some(TariffError::BadCredits { place: 0 })),
    (
        &[("44", 1), ("+44", 1)],
        Some(TariffError::BadPrefix { place: 1 }),
    ),
    (
        &[("012345678901234567890", 1)],
        Some(TariffError::BadPrefix { place: 0 }),
    ),
    // Of one rate the prefix comes first, then the credits; of two the earlier one.
    (&[("4a", 0)], Some(TariffError::BadPrefix { place: 0 })),
    (
        &[("44", 1), ("44", 0), ("4a", 1)],
        Some(TariffError::BadCredits { place: 1 }),
    ),
    (
        &[("", 1), ("1", 1), ("", 2), ("x", 0)],
        Some(TariffError::Duplicate {
            first: 0,
            second: 2,
        }),
    ),
    (&[("44", 1), ("4", 1_000)], None),
];

#[test]
fn rates_are_refused(rt: HostRuntime) {
    for (rates, wanted) in REFUSED {
        want_refusal(&rt, rt.alloc(), rates, wanted);
    }
}

// Too many rates come before any fault of a single one.
#[test]
fn at_most_a_thousand_rates(rt: HostRuntime) {
    let many = [("x", 0); 1_001];
    want_refusal(&rt, rt.alloc(), &many, Some(TariffError::TooMany));
    want_refusal(
        &rt,
        rt.alloc(),
        &many[1..],
        Some(TariffError::BadPrefix { place: 0 }),
    );
}

// A rate whose prefix is this number.
fn push_number(rt: &impl Abort, alloc: Global, rates: &mut Vec<Rate>, number: u32, credits: u32) {
    let prefix = had(rt, format!(in alloc; "{number}"));
    had(rt, rates.push(Rate { prefix, credits }));
}

// A segment to this number costs so many credits.
fn want_number(rt: &impl Abort, alloc: Global, tariff: &Tariff, number: u32, credits: u32) {
    let destination = had(rt, format!(in alloc; "+{number}"));
    same(rt, tariff.cost(destination.as_str()), credits);
}

// A rate of each number below 1,000, which costs one credit more.
fn thousand_rates(rt: &impl Abort, alloc: Global) -> Vec<Rate> {
    let mut rates = Vec::new(alloc);
    for n in 0..1_000u32 {
        let number = n * 7 % 1_000;
        push_number(rt, alloc, &mut rates, number, 1 + number);
    }
    rates
}

// The largest tariff, whose rates come in no order of their prefixes.
#[test]
fn a_thousand_rates(rt: HostRuntime) {
    let rates = thousand_rates(&rt, rt.alloc());
    let tariff = had(&rt, Tariff::new(rt.alloc(), rates.as_slice()));
    for number in 0..1_000u32 {
        want_number(&rt, rt.alloc(), &tariff, number, 1 + number);
    }
    want_cost(&rt, &tariff, "9990", 1_000);
}

// Each refusal of rates, with its places.
const TEXTS: [(TariffError, &str); 5] = [
    (TariffError::TooMany, "a tariff has at most 1000 rates"),
    (
        TariffError::BadPrefix { place: 2 },
        "the prefix of rate 2 is not 0 to 20 digits",
    ),
    (
        TariffError::BadCredits { place: 3 },
        "the credits of rate 3 are not 1 to 1000",
    ),
    (
        TariffError::Duplicate {
            first: 4,
            second: 5,
        },
        "rates 4 and 5 have the same prefix",
    ),
    (TariffError::OutOfMemory, "out of memory"),
];

#[test]
fn refusals_of_rates_say_their_places(rt: HostRuntime) {
    for (fault, text) in TEXTS {
        want_text(&rt, rt.alloc(), fault, text);
    }
}
