//! Why there is no connection: each bind keeps its own reason, that of its last dial.

use super::loopback::{dial_to, listening, no_journal};
use super::same::same;
use sms_devices::{LineSettings, LoopDial, Outboxes, TcpDial, Unconnected};
use sms_driver::Dial;
use std::fs::File;
use std::process::Abort;

// There is no connection, for this reason.
fn expect_none<T: Drop>(
    rt: &impl Abort,
    ends: Option<T>,
    reason: Unconnected,
    expected: Unconnected,
) {
    assert!(rt; ends.is_none());
    same(rt, reason, expected);
}

/// Hosts, ports, milliseconds to connect, and why there is no connection: nobody listens at the port, there is no such
/// host (RFC 6761 6.4), the address is a broadcast address, or no time is left.
const UNCONNECTED: [(&str, u16, Option<u32>, Unconnected); 8] = [
    ("127.0.0.1", 1, None, Unconnected::Refused),
    ("127.0.0.1", 1, Some(10_000), Unconnected::Refused),
    ("nothing.invalid", 1, None, Unconnected::Unresolved),
    ("nothing.invalid", 1, Some(10_000), Unconnected::Unresolved),
    ("127.255.255.255", 1, None, Unconnected::Unreachable),
    ("127.255.255.255", 1, Some(10_000), Unconnected::Unreachable),
    ("127.0.0.1", 1, Some(0), Unconnected::TimedOut),
    ("localhost", 1, None, Unconnected::Refused),
];

/// The system's error for an address or a name gives the reason of the bind that was dialled for.
#[test]
fn gives_the_reason_of_no_connection(rt: HostRuntime) {
    let outboxes = Outboxes::new(&rt, no_journal(), 1);
    for (host, port, connect_ms, expected) in &UNCONNECTED {
        let dial = TcpDial {
            host,
            ..dial_to(&rt, &outboxes, *port, *connect_ms)
        };
        let ends = dial.dial(3);
        expect_none(&rt, ends, outboxes.reason(3).why, *expected);
    }
}

/// Each bind has a reason of its own, and a connection that is made leaves those of the others.
#[test]
fn keeps_the_reason_of_each_bind(rt: HostRuntime) {
    let outboxes = Outboxes::new(&rt, no_journal(), 1);
    let (_listener, open) = listening(&rt);
    let hosts = [
        ("127.0.0.1", 1u16),
        ("nothing.invalid", 1),
        ("127.0.0.1", open),
        ("127.255.255.255", 1),
    ];
    for (bind, (host, port)) in hosts.into_iter().enumerate() {
        let dial = TcpDial {
            host,
            ..dial_to(&rt, &outboxes, port, Some(10_000))
        };
        let ends = dial.dial(bind as u32);
        same(&rt, ends.is_some(), bind == 2);
    }
    same(&rt, outboxes.reason(0).why, Unconnected::Refused);
    same(&rt, outboxes.reason(1).why, Unconnected::Unresolved);
    same(&rt, outboxes.reason(3).why, Unconnected::Unreachable);
    same(&rt, outboxes.reason(4).why, Unconnected::Other);
}

/// A test centre without a script can't be started, which isn't a fault of the network.
#[test]
fn gives_another_reason_if_no_centre_is_started(rt: HostRuntime) {
    let outboxes = Outboxes::new(&rt, no_journal(), 1);
    let (listener, _port) = listening(&rt);
    let dial = LoopDial {
        rt: &rt,
        alloc: rt.alloc(),
        outboxes: &outboxes,
        round: 1,
        connect_ms: Some(0),
        listener: &listener,
        bind_status: 0,
        answers: &[],
        lines: LineSettings::<File>::none(),
    };
    let late = dial.dial(0);
    expect_none(&rt, late, outboxes.reason(0).why, Unconnected::TimedOut);
    let dial = LoopDial {
        connect_ms: None,
        ..dial
    };
    let unserved = dial.dial(0);
    expect_none(&rt, unserved, outboxes.reason(0).why, Unconnected::Other);
}
