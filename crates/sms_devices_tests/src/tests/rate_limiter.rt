//! How many requests the gate lets pass in a second, by a clock that is set by hand.

use super::loopback::no_journal;
use super::paper::{ManualClock, Nowhere, limits, no_progress};
use super::same::same;
use sms_devices::{Outboxes, SendGate};
use sms_worker::Gate;

// How many requests a worker sends as long as it is ready.
fn sends<G: Gate>(gate: &G, worker: usize) -> u32 {
    let mut count = 0u32;
    for number in 0..1_000 {
        if !gate.ready(worker) {
            return count;
        }
        if gate.sending(worker, number, 0, 0) {
            count = count.saturating_add(1);
        }
    }
    count
}

/// At most the rate's requests of each bind pass in any second, whichever of its workers sends them, and no
/// more at once than those of a fiftieth of a second.
#[test]
fn passes_the_rate_in_a_second(rt: HostRuntime) {
    let outboxes = Outboxes::new(&rt, no_journal(), 2);
    let clock = ManualClock::new(5_000);
    let progress = no_progress(&Nowhere, &clock);
    let wanted = limits(Some(200), None);
    let gate = SendGate::new(rt.alloc(), &outboxes, &clock, &progress, wanted);
    // The time, the worker, and for how many requests it is ready: four at once, and 197 in 1,010 ms.
    let steps: [(u64, usize, u32); 10] = [
        (5_000, 0, 4),
        (5_000, 1, 0),
        (5_000, 2, 4),
        (5_005, 1, 0),
        (5_006, 1, 1),
        (5_006, 0, 0),
        (5_022, 0, 3),
        (5_026, 1, 1),
        (9_000, 1, 4),
        (9_000, 3, 4),
    ];
    for (ms, worker, wanted) in steps {
        clock.set(ms);
        same(&rt, sends(&gate, worker), wanted);
    }
    let slowest = limits(Some(1), None);
    let slow = SendGate::new(rt.alloc(), &outboxes, &clock, &progress, slowest);
    for (ms, wanted) in [(9_000, 1), (9_999, 0), (10_009, 0), (10_010, 1)] {
        clock.set(ms);
        same(&rt, sends(&slow, 0), wanted);
    }
}

// How many requests two workers of a bind send within `ms` milliseconds, which pass one by one.
fn sends_in<G: Gate>(clock: &ManualClock, gate: &G, from: u64, ms: u64) -> u32 {
    let mut count = 0u32;
    for now in from..from.saturating_add(ms) {
        clock.set(now);
        count = count.saturating_add(sends(gate, (now % 2) as usize));
    }
    count
}

/// In a second after a pause at most the rate's requests pass, and nearly as many in each second after it.
#[test]
fn passes_no_more_in_any_second(rt: HostRuntime) {
    let outboxes = Outboxes::new(&rt, no_journal(), 2);
    for (rate, least) in [
        (1, 0),
        (2, 1),
        (20, 19),
        (100, 97),
        (1_000, 970),
        (25_000, 24_250),
    ] {
        let clock = ManualClock::new(7_000);
        let progress = no_progress(&Nowhere, &clock);
        let wanted = limits(Some(rate), None);
        let gate = SendGate::new(rt.alloc(), &outboxes, &clock, &progress, wanted);
        for second in [7_000, 8_001, 9_002] {
            let count = sends_in(&clock, &gate, second, 1_001);
            assert!(rt; count <= rate);
            assert!(rt; count >= least);
        }
    }
}

/// A worker that was ready and sent nothing stays ready for the rest of its turn. Then its permit goes back and
/// another worker gets it. A permit that is used late lets no more requests through.
#[test]
fn takes_unused_permits_back(rt: HostRuntime) {
    let outboxes = Outboxes::new(&rt, no_journal(), 2);
    let clock = ManualClock::new(0);
    let progress = no_progress(&Nowhere, &clock);
    let wanted = limits(Some(100), None);
    let gate = SendGate::new(rt.alloc(), &outboxes, &clock, &progress, wanted);
    for _turn in 0..5 {
        assert!(rt; gate.ready(0));
    }
    same(&rt, sends(&gate, 1), 1);
    gate.see(0, &[], 0);
    same(&rt, sends(&gate, 1), 1);
    same(&rt, sends(&gate, 0), 0);
    clock.set(1_000);
    assert!(rt; gate.ready(0));
    assert!(rt; gate.ready(1));
    clock.set(2_000);
    assert!(rt; gate.sending(0, 1, 0, 0));
    assert!(rt; gate.sending(1, 1, 0, 0));
    same(&rt, sends(&gate, 0), 0);
}

/// Without a rate every worker is ready.
#[test]
fn passes_all_without_a_rate(rt: HostRuntime) {
    let outboxes = Outboxes::new(&rt, no_journal(), 1);
    let clock = ManualClock::new(0);
    let progress = no_progress(&Nowhere, &clock);
    let wanted = limits(None, None);
    let gate = SendGate::new(rt.alloc(), &outboxes, &clock, &progress, wanted);
    same(&rt, sends(&gate, 0), 1_000);
}
