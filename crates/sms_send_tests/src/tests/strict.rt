//! The exit statuses of sendings, strict and not, by the result of each message.

use super::same::same;
use sms_send::status_of;
use sms_worker::{
    Attempts, MessageEnd, MessageRefusal, MessageResult, Outcome, SegmentEnd, Segments,
};
use std::alloc::{AllocError, Global};
use std::process::Abort;
use std::test::Fail;

/// The results of messages, a letter each: charged, refused by the centre, unanswered, not sent, or refused for
/// no Account, no credit (p), a bad Destination, a Too long text, a lost Bind or lack of Memory. And the
/// status of such a sending, and with `--strict`.
const STATUSES: [(&str, u8, u8); 22] = [
    ("", 0, 0),
    ("c", 0, 0),
    ("cr", 0, 5),
    ("r", 0, 5),
    ("n", 0, 5),
    ("ca", 0, 5),
    ("pc", 0, 5),
    ("d", 0, 5),
    ("t", 0, 5),
    ("capdt", 0, 5),
    ("ccc", 0, 0),
    ("du", 4, 4),
    ("ru", 4, 4),
    ("b", 0, 5),
    ("m", 0, 5),
    ("cb", 0, 5),
    ("bc", 0, 5),
    ("dmc", 0, 5),
    ("u", 4, 4),
    ("ub", 4, 4),
    ("bu", 4, 4),
    ("mcu", 4, 4),
];

// A message of one part, of which this became.
fn sent(alloc: Global, outcome: Outcome) -> Result<MessageResult, AllocError> {
    let mut parts = Vec::new(alloc);
    parts.push(SegmentEnd {
        cost: 1,
        attempts: Attempts::new(Vec::new(alloc)),
        outcome,
    })?;
    Ok(MessageResult::Sent(Segments::new(parts)))
}

// The refusal of a letter.
fn refusal_of(letter: char) -> MessageRefusal {
    match letter {
        'a' => MessageRefusal::NoAccount,
        'p' => MessageRefusal::NoCredit,
        'd' => MessageRefusal::BadAddress,
        't' => MessageRefusal::TooLong,
        'b' => MessageRefusal::BindClosed,
        _ => MessageRefusal::OutOfMemory,
    }
}

// What became of the message of a letter.
fn result_of(alloc: Global, letter: char) -> Result<MessageResult, AllocError> {
    match letter {
        'c' => sent(alloc, Outcome::Charged),
        'r' => sent(alloc, Outcome::Refused),
        'u' => sent(alloc, Outcome::Unanswered),
        'n' => sent(alloc, Outcome::Unsent),
        _ => Ok(MessageResult::Refused(refusal_of(letter))),
    }
}

// The ends of these messages.
fn ends_of(alloc: Global, letters: &str) -> Result<Vec<MessageEnd>, AllocError> {
    let mut ends = Vec::new(alloc);
    for letter in letters.chars() {
        let result = result_of(alloc, letter)?;
        ends.push(MessageEnd { index: 0, result })?;
    }
    Ok(ends)
}

// The statuses of a sending with these ends.
fn want_statuses(rt: &impl Abort, letters: &str, ends: &[MessageEnd], wanted: (u8, u8)) {
    let statuses = (status_of(ends, false), status_of(ends, true));
    same(rt, (letters, statuses), (letters, wanted));
}

#[test]
fn tells_what_was_not_sent_whole(rt: HostRuntime) -> Result<(), Fail> {
    for (letters, plain, strict) in &STATUSES {
        let ends = ends_of(rt.alloc(), letters)?;
        want_statuses(&rt, letters, ends.as_slice(), (*plain, *strict));
    }
    Ok(())
}
