//! How long a worker stays for receipts behind its last message. None comes here.

use super::loopback::{connected, no_journal};
use super::paper::{ManualClock, Nowhere, PaperFile, Sheet, limits, no_progress};
use sms_bind::{Receipt, Wire};
use sms_devices::{Journal, Outboxes, SendGate, Stay, StopSigns};
use sms_inbox::Ids;
use sms_journal::Note;
use sms_pdu::{Frame, Tap, is_frame, reply_of};
use sms_worker::{
    Attempt, Attempts, Gate, MessageEnd, MessageResult, Outcome, SegmentEnd, Segments,
};
use std::alloc::{AllocError, Global};
use std::fs::OpenFile;
use std::io::Write;
use std::process::Abort;
use std::sync::Wait;
use std::test::Fail;
use std::time::{Clock, Instant};

/// An enquire_link (SMPP 3.4 4.11), and the answer to a submit_sm whose message has the id 7 (4.4.2).
const ENQUIRE: [u8; 16] = [0, 0, 0, 16, 0, 0, 0, 0x15, 0, 0, 0, 0, 0, 0, 0, 1];

const ANSWER: [u8; 18] = [0, 0, 0, 18, 0x80, 0, 0, 4, 0, 0, 0, 0, 0, 0, 0, 1, b'7', 0];

// Evidence that a frame was sent.
fn receipt(alloc: Global) -> Result<Receipt, Fail> {
    let octets = Vec::from_slice(alloc, &ENQUIRE)?;
    if !is_frame(octets.as_slice()) {
        return Err("no frame".into());
    }
    let mut wire = Wire::new(Tap::new(Vec::new(alloc)));
    match wire.send(Frame::new(octets)) {
        Ok(receipt) => Ok(receipt),
        Err(_) => Err(Fail::from(AllocError)),
    }
}

// A message of one part that was answered, and has this outcome.
fn answered(alloc: Global, outcome: Outcome) -> Result<Vec<MessageEnd>, Fail> {
    let mut attempts = Vec::new(alloc);
    attempts.push(Attempt {
        number: 1,
        sent: receipt(alloc)?,
        reply: reply_of(&ANSWER),
    })?;
    let mut segments = Vec::new(alloc);
    segments.push(SegmentEnd {
        cost: 1,
        attempts: Attempts::new(attempts),
        outcome,
    })?;
    let mut ends = Vec::new(alloc);
    ends.push(MessageEnd {
        index: 0,
        result: MessageResult::Sent(Segments::new(segments)),
    })?;
    Ok(ends)
}

// For how many milliseconds a worker stays that may stay so long.
fn stayed<R: AllocGlobal + Wait + Clock + StopSigns + Abort, F: Write + OpenFile>(
    rt: &R,
    outboxes: &Outboxes<'_, R, F>,
    ms: u64,
    ends: &[MessageEnd],
) -> u128 {
    let stay = Stay::new(rt.alloc(), Ids::Same, ms);
    let clock = ManualClock::new(0);
    let progress = no_progress(&Nowhere, &clock);
    let wanted = limits(None, None);
    let gate = SendGate::new(rt.alloc(), outboxes, &clock, &progress, wanted).staying(Some(&stay));
    let Ok(begun) = Instant::now(rt) else {
        panic!(rt; "no clock")
    };
    gate.see_last(0, ends);
    match begun.elapsed(rt) {
        Ok(passed) => passed.as_millis(),
        Err(_) => panic!(rt; "no clock"),
    }
}

/// A worker stays for a part that was charged as long as is asked, and for no other.
#[test]
fn stays_for_what_was_charged(rt: HostRuntime) -> Result<(), Fail> {
    let alloc = rt.alloc();
    let outboxes = Outboxes::new(&rt, no_journal(), 1);
    let charged = answered(alloc, Outcome::Charged)?;
    let passed = stayed(&rt, &outboxes, 300, charged.as_slice());
    assert!(rt; passed >= 300 && passed < 10_000);
    for outcome in [Outcome::Refused, Outcome::Unanswered, Outcome::Unsent] {
        let ends = answered(alloc, outcome)?;
        assert!(rt; stayed(&rt, &outboxes, 20_000, ends.as_slice()) < 10_000);
    }
    Ok(())
}

/// A worker stays no longer than its bind is up. In a further round it is up again.
#[test]
fn stays_no_longer_than_its_bind(rt: HostRuntime) -> Result<(), Fail> {
    let outboxes = Outboxes::new(&rt, no_journal(), 1);
    let (reader, _writer, _far) = connected(&rt, &outboxes, 0, None);
    let charged = answered(rt.alloc(), Outcome::Charged)?;
    drop(reader);
    assert!(rt; stayed(&rt, &outboxes, 20_000, charged.as_slice()) < 10_000);
    outboxes.renew();
    assert!(rt; stayed(&rt, &outboxes, 300, charged.as_slice()) >= 300);
    Ok(())
}

/// Before a worker waits the last notes are let out. Once the journal has failed it waits no longer.
#[test]
fn lets_the_last_notes_out(rt: HostRuntime) -> Result<(), Fail> {
    let alloc = rt.alloc();
    let sheet = Sheet::blank(alloc);
    let file = PaperFile::new(&rt, &sheet, 60, true);
    let journal = Journal::new(alloc, file, false);
    let outboxes = Outboxes::new(&rt, Some(&journal), 1);
    let charged = answered(alloc, Outcome::Charged)?;
    assert!(rt; journal.note(&rt, &Note::Begun(7)));
    assert!(rt; stayed(&rt, &outboxes, 300, charged.as_slice()) >= 300);
    assert!(rt; !sheet.take(&rt, alloc).is_empty());
    for message in 1..9 {
        let _noted = journal.note(&rt, &Note::Begun(message));
    }
    assert!(rt; stayed(&rt, &outboxes, 20_000, charged.as_slice()) < 10_000);
    assert!(rt; journal.has_failed());
    Ok(())
}
