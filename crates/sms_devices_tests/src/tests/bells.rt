//! Whom the reader of a bind wakes, over connections to a listener of the test's own. Bind 0 has the
//! workers 0 and 1, bind 1 the workers 2 and 3.

use super::loopback::{connected, expect_nothing, no_journal, put};
use super::paper::{ManualClock, Nowhere, limits, no_progress};
use super::same::same;
use sms_devices::{Outboxes, Parking, SendGate, StopSigns};
use sms_worker::{Gate, Pause};
use std::fs::File;
use std::io::{Read, Write};
use std::net::TcpStream;
use std::process::Abort;
use std::sync::Wait;
use std::time;
use std::time::Instant;

/// The octets of a submit_sm_resp for the request 7 (SMPP 3.4 4.4.2).
const ANSWER: [u8; 18] = [0, 0, 0, 18, 0x80, 0, 0, 4, 0, 0, 0, 0, 0, 0, 0, 7, b'm', 0];

/// A generic_nack of the request 8 (SMPP 3.4 4.3.1).
const NACK: [u8; 16] = [0, 0, 0, 16, 0x80, 0, 0, 0, 0, 0, 0, 3, 0, 0, 0, 8];

/// An enquire_link of the message centre (SMPP 3.4 4.11).
const ENQUIRE: [u8; 16] = [0, 0, 0, 16, 0, 0, 0, 0x15, 0, 0, 0, 0, 0, 0, 0, 7];

/// A header whose command_length is too small.
const BAD: [u8; 16] = [0, 0, 0, 15, 0x80, 0, 0, 4, 0, 0, 0, 0, 0, 0, 0, 7];

// For how many milliseconds a worker waited that asked for `ms`.
fn waited<R: time::Clock, P: Pause>(rt: &R, parking: &P, worker: usize, ms: u32) -> u64 {
    let Ok(begun) = Instant::now(rt) else {
        return 0;
    };
    parking.wait(worker, ms, 0);
    match begun.elapsed(rt) {
        Ok(passed) => u64::try_from(passed.as_millis()).unwrap_or(u64::MAX),
        Err(_) => 0,
    }
}

// Which of the workers 0, 1 and 2 were woken since they last waited.
fn expect_woken<R: time::Clock + Abort, P: Pause>(rt: &R, parking: &P, expected: [bool; 3]) {
    for worker in 0..3usize {
        if expected[worker] {
            assert!(rt; waited(rt, parking, worker, 20_000) < 10_000);
        } else {
            assert!(rt; waited(rt, parking, worker, 20) >= 20);
        }
    }
}

// The octets come in, in one piece, and the reader asks for more once it has them.
fn receive<R: Abort>(rt: &R, far: &mut TcpStream, reader: &mut impl Read, octets: &[u8]) {
    put(rt, far, octets);
    let mut piece = [0u8; 64];
    match reader.read(&mut piece) {
        Ok(count) => same(rt, count, octets.len()),
        Err(_) => panic!(rt; "nothing came"),
    }
    expect_nothing(rt, reader);
}

// The same, octet by octet.
fn receive_singly<R: Abort>(rt: &R, far: &mut TcpStream, reader: &mut impl Read, octets: &[u8]) {
    put(rt, far, octets);
    let mut one = [0u8; 1];
    for _octet in octets {
        assert!(rt; reader.read_exact(&mut one).is_ok());
    }
    expect_nothing(rt, reader);
}

// A worker sends the request with this number, through a gate of its own: the owners of numbers are kept beside it.
fn send<R: AllocGlobal + Wait + time::Clock + StopSigns + Abort>(
    rt: &R,
    outboxes: &Outboxes<'_, R, File>,
    worker: usize,
    number: u32,
) {
    let clock = ManualClock::new(0);
    let progress = no_progress(&Nowhere, &clock);
    let gate = SendGate::new(rt.alloc(), outboxes, &clock, &progress, limits(None, None));
    assert!(rt; gate.sending(worker, number, 0, 0));
}

/// An answer wakes only the worker whose request it answers, once all of it has come and the reader asks for
/// more. A request of the message centre wakes nobody. If it isn't known whose request is answered, since
/// another number took its place or nobody sent it, all workers of the bind are woken.
#[test]
fn wakes_whom_an_answer_is_for(rt: HostRuntime) {
    let outboxes = Outboxes::new(&rt, no_journal(), 2);
    let (mut reader, _writer, mut far) = connected(&rt, &outboxes, 0, None);
    let parking = Parking {
        rt: &rt,
        outboxes: &outboxes,
    };
    send(&rt, &outboxes, 1, 7);
    send(&rt, &outboxes, 3, 8);
    receive(&rt, &mut far, &mut reader, &ANSWER[..17]);
    expect_woken(&rt, &parking, [false, false, false]);
    receive(&rt, &mut far, &mut reader, &ANSWER[17..]);
    expect_woken(&rt, &parking, [false, true, false]);
    receive(&rt, &mut far, &mut reader, &ANSWER);
    expect_woken(&rt, &parking, [false, true, false]);
    receive_singly(&rt, &mut far, &mut reader, &ANSWER);
    expect_woken(&rt, &parking, [false, true, false]);
    receive(&rt, &mut far, &mut reader, &ENQUIRE);
    expect_woken(&rt, &parking, [false, false, false]);
    receive(&rt, &mut far, &mut reader, &NACK);
    expect_woken(&rt, &parking, [true, true, false]);
    send(&rt, &outboxes, 0, 8);
    receive(&rt, &mut far, &mut reader, &NACK);
    expect_woken(&rt, &parking, [true, false, false]);
    send(&rt, &outboxes, 0, 263);
    receive(&rt, &mut far, &mut reader, &ANSWER);
    expect_woken(&rt, &parking, [true, true, false]);
}

/// What comes after a bad command_length wakes all workers of the bind. A write that fails and the reader's end
/// do too.
#[test]
fn wakes_all_where_a_line_goes_down(rt: HostRuntime) {
    let outboxes = Outboxes::new(&rt, no_journal(), 2);
    let (mut reader, mut writer, mut far) = connected(&rt, &outboxes, 0, None);
    let parking = Parking {
        rt: &rt,
        outboxes: &outboxes,
    };
    receive(&rt, &mut far, &mut reader, &BAD);
    expect_woken(&rt, &parking, [true, true, false]);
    receive(&rt, &mut far, &mut reader, &[0]);
    expect_woken(&rt, &parking, [true, true, false]);
    outboxes.give_up(0);
    assert!(rt; writer.write(b"one").is_err());
    expect_woken(&rt, &parking, [true, true, false]);
    drop(reader);
    expect_woken(&rt, &parking, [true, true, false]);
}
