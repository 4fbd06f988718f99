//! How long a sending stays behind its last message: until the receipts of its parts are there.

ghost use Rattle.std.specs.Prelude.{◌≡◌};

use sms_inbox::{Finals, Ids};
use sms_message::{MessageResult, Outcome, SegmentEnd};
use sms_worker::MessageEnd;
use std::alloc::Global;
use std::sync::atomic::{AtomicBool, Ordering};
use std::sync::{Mutex, Wait};

/// What is waited for behind the last message: a final receipt of each part that was charged.
#[derive(Drop)]
pub struct Stay {
    /// For how many milliseconds.
    ms: u64,
    finals: Mutex<Finals>,
    /// Whether no receipt is heard any more.
    is_ended: AtomicBool,
}

impl Stay {
    /// For so long. Ids in receipts are spelled so.
    pub fn new(alloc: Global, ids: Ids, ms: u64) -> Stay {
        Stay {
            ms,
            finals: Mutex::new(Finals::new(alloc, ids)),
            is_ended: AtomicBool::new(false),
        }
    }

    /// For how many milliseconds it is waited.
    pub(crate) fn ms(&self) -> u64
        ensures { result ≡ self.now.ms }
    {
        self.ms
    }

    /// Hears the receipts among the whole frames at the front of these octets. One for which memory is refused is waited for to
    /// the end.
    pub(crate) fn hear<R: Wait>(&self, rt: &R, octets: &[u8]) {
        let _heard = self.finals.lock(rt).hear(octets);
    }

    /// No receipt is heard any more, so that none is waited for.
    pub(crate) fn end(&self) {
        self.is_ended.store(true, Ordering::SeqCst);
    }

    /// Whether no receipt is heard any more.
    pub(crate) fn is_ended(&self) -> bool {
        self.is_ended.load(Ordering::SeqCst)
    }

    /// The place of the first of these, from this one on, with a charged part of which no final receipt came; how many they are,
    /// if there is none.
    pub(crate) fn first_left<R: Wait>(&self, rt: &R, ends: &[MessageEnd], from: usize) -> usize {
        for place in from..ends.len() {
            if !self.is_over(rt, &ends[place]) {
                return place;
            }
        }
        ends.len()
    }

    /// Whether a final receipt came of each part of the message that was charged.
    fn is_over<R: Wait>(&self, rt: &R, end: &MessageEnd) -> bool {
        match &end.result {
            MessageResult::Sent(segments) => {
                are_over(&self.finals.lock(rt), segments.as_slice())
            }
            MessageResult::Refused(_) => true,
        }
    }
}

/// Whether a final receipt came of each of these parts that was charged.
fn are_over<S>(finals: &Finals, segments: &[SegmentEnd<S>]) -> bool {
    for segment in segments {
        if !is_part_over(finals, segment) {
            return false;
        }
    }
    true
}

fn is_part_over<S>(finals: &Finals, segment: &SegmentEnd<S>) -> bool {
    if segment.outcome != Outcome::Charged {
        return true;
    }
    match segment.attempts.as_slice().last() {
        Some(attempt) => match &attempt.reply {
            Some(reply) => finals.has(reply.id.as_slice()),
            None => true,
        },
        None => true,
    }
}
