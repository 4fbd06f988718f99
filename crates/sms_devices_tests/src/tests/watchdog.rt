//! When a bind that gives no answers is given up.

use super::loopback::{connected, expect_nothing, expect_octets, no_journal};
use super::paper::{ManualClock, Nowhere, limits, no_progress};
use sms_devices::{Outboxes, SendGate};
use sms_pdu::{MessageId, Reply};
use sms_worker::Gate;
use std::process::Abort;

// A worker sends a request, and its turn ends.
fn send<G: Gate>(rt: &impl Abort, gate: &G, worker: usize) {
    assert!(rt; gate.ready(worker));
    assert!(rt; gate.sending(worker, 1, 0, 0));
    gate.see(worker, &[], 1);
}

// An answer comes to a worker.
fn answer<G: Gate>(gate: &G, worker: usize) {
    let reply = Reply {
        number: 1,
        status: 0,
        nack: false,
        id: MessageId::empty(),
    };
    gate.heard(worker, &reply);
}

/// A bind is given up once three requests of its workers went out after the last answer and the answer to the
/// last of them is overdue. An answer to any of its workers starts the count anew. The other bind goes on.
#[test]
fn gives_up_a_silent_bind(rt: HostRuntime) {
    let outboxes = Outboxes::new(&rt, no_journal(), 2);
    let (mut first, _one, _far) = connected(&rt, &outboxes, 0, None);
    let (mut second, _two, _further) = connected(&rt, &outboxes, 1, None);
    let clock = ManualClock::new(1_000);
    let progress = no_progress(&Nowhere, &clock);
    let wanted = limits(None, Some(3));
    let gate = SendGate::new(rt.alloc(), &outboxes, &clock, &progress, wanted);
    send(&rt, &gate, 2);
    send(&rt, &gate, 3);
    answer(&gate, 2);
    send(&rt, &gate, 3);
    send(&rt, &gate, 2);
    send(&rt, &gate, 0);
    clock.set(1_600);
    send(&rt, &gate, 3);
    clock.set(2_000);
    send(&rt, &gate, 2);
    gate.see(1, &[], 1);
    clock.set(2_099);
    gate.see(2, &[], 4);
    expect_nothing(&rt, &mut second);
    clock.set(2_100);
    gate.see(2, &[], 4);
    expect_octets(&rt, &mut second, 0);
    expect_nothing(&rt, &mut first);
}

/// Without a limit no bind is given up.
#[test]
fn gives_up_no_bind(rt: HostRuntime) {
    let outboxes = Outboxes::new(&rt, no_journal(), 1);
    let (mut reader, _writer, _far) = connected(&rt, &outboxes, 0, None);
    let clock = ManualClock::new(0);
    let progress = no_progress(&Nowhere, &clock);
    let wanted = limits(None, None);
    let gate = SendGate::new(rt.alloc(), &outboxes, &clock, &progress, wanted);
    send(&rt, &gate, 0);
    clock.set(1 << 60);
    send(&rt, &gate, 0);
    expect_nothing(&rt, &mut reader);
}
