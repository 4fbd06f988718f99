//! How a bind ends when the journal has failed.

use super::loopback::{connected, expect_nothing, expect_octets};
use super::paper::{ManualClock, Nowhere, PaperFile, Sheet, limits, no_progress};
use super::same::same;
use sms_devices::{Journal, Outboxes, SendGate};
use sms_journal::Note;
use sms_pdu::{MessageId, Reply};
use sms_worker::Gate;
use std::fs::OpenFile;
use std::io::Write;
use std::process::Abort;
use std::sync::Wait;
use std::time::Clock;

/// The header of a submit_sm (SMPP 3.4 4.4.1), and an enquire_link (4.11).
const REQUEST: [u8; 16] = [0, 0, 0, 16, 0, 0, 0, 4, 0, 0, 0, 0, 0, 0, 0, 1];

const ENQUIRE: [u8; 16] = [0, 0, 0, 16, 0, 0, 0, 0x15, 0, 0, 0, 0, 0, 0, 0, 2];

// An answer comes to a worker's request.
fn answer<G: Gate>(gate: &G, worker: usize) {
    let reply = Reply {
        number: 1,
        status: 0,
        nack: false,
        id: MessageId::empty(),
    };
    gate.heard(worker, &reply);
}

// The journal fails: its file has little room.
fn fail<R: Wait + Clock + Abort, F: Write + OpenFile>(rt: &R, journal: &Journal<F>) {
    for message in 1..9 {
        let _noted = journal.note(rt, &Note::Begun(message));
    }
    assert!(rt; !journal.let_out(rt));
    assert!(rt; journal.has_failed());
}

/// Once the journal has failed nothing goes out. A connection is given up as soon as all requests that went out
/// are answered. If there are none it is given up at once, whatever waits.
#[test]
fn waits_for_the_answers_that_can_come(rt: HostRuntime) {
    let sheet = Sheet::blank(rt.alloc());
    let file = PaperFile::new(&rt, &sheet, 30, true);
    let journal = Journal::new(rt.alloc(), file, false);
    let outboxes = Outboxes::new(&rt, Some(&journal), 1);
    let (mut first, mut one, mut far) = connected(&rt, &outboxes, 0, None);
    let (mut second, mut two, _far) = connected(&rt, &outboxes, 1, None);
    let clock = ManualClock::new(0);
    let progress = no_progress(&Nowhere, &clock);
    let wanted = limits(None, None);
    let gate = SendGate::new(rt.alloc(), &outboxes, &clock, &progress, wanted);
    assert!(rt; one.write_all(&REQUEST).is_ok());
    assert!(rt; one.write_all(&REQUEST).is_ok());
    assert!(rt; one.write_all(&ENQUIRE).is_ok());
    outboxes.flush();
    expect_octets(&rt, &mut far, 48);
    assert!(rt; one.write_all(&REQUEST).is_ok());
    assert!(rt; two.write_all(&REQUEST).is_ok());
    assert!(rt; two.write_all(&ENQUIRE).is_ok());
    fail(&rt, &journal);
    expect_octets(&rt, &mut second, 0);
    for _answer in 0..2 {
        expect_nothing(&rt, &mut first);
        answer(&gate, 0);
    }
    expect_octets(&rt, &mut first, 0);
    expect_octets(&rt, &mut far, 0);
}

/// The answers to the requests that went out to make room for another are waited for, and the answer to that
/// other request isn't.
#[test]
fn waits_for_what_made_room(rt: HostRuntime) {
    let sheet = Sheet::blank(rt.alloc());
    let file = PaperFile::new(&rt, &sheet, 30, true);
    let journal = Journal::new(rt.alloc(), file, false);
    let outboxes = Outboxes::new(&rt, Some(&journal), 1);
    let (mut reader, mut writer, _far) = connected(&rt, &outboxes, 0, None);
    let clock = ManualClock::new(0);
    let progress = no_progress(&Nowhere, &clock);
    let wanted = limits(None, None);
    let gate = SendGate::new(rt.alloc(), &outboxes, &clock, &progress, wanted);
    for _request in 0..513 {
        assert!(rt; writer.write_all(&REQUEST).is_ok());
    }
    fail(&rt, &journal);
    for _answer in 0..511 {
        answer(&gate, 0);
    }
    expect_nothing(&rt, &mut reader);
    answer(&gate, 0);
    expect_octets(&rt, &mut reader, 0);
}
