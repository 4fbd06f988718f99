//! Why a worker didn't send what it didn't send: its refusals, and the reasons that it lists.

use super::{Done, same};
use sms_worker::{GiveUpReason, MessageRefusal, MessageResult, UnsentReason};
use std::process::Abort;
use std::sync::Wait;

// Which kind of reason is listed at a place, and of which part of which message.
#[derive(Clone, Copy, Debug, PartialEq, Eq)]
pub enum Why {
    Numbers,
    Memory,
    Gate,
    Line,
    Other,
    Message,
}

fn why_of(reason: &UnsentReason) -> (Why, u64, usize) {
    match reason {
        UnsentReason::Message(_) => (Why::Message, 0, 0),
        UnsentReason::Part(part) => {
            let kind = match &part.why {
                GiveUpReason::Numbers(_) => Why::Numbers,
                GiveUpReason::Memory(_) => Why::Memory,
                GiveUpReason::Gate(_) => Why::Gate,
                GiveUpReason::Line(_) => Why::Line,
                GiveUpReason::Kept(_) => Why::Other,
                GiveUpReason::Done(_) => Why::Other,
            };
            (kind, part.message, part.part)
        }
    }
}

// The reasons that are listed are these, in this order.
pub fn want_reasons(rt: &(impl Abort + Wait), done: &Done, want: &[(Why, u64, usize)]) {
    let listed = done.reasons.as_slice();
    same(rt, listed.len(), want.len());
    for (reason, want) in listed.iter().zip(want.iter()) {
        same(rt, why_of(reason), *want);
    }
}

// Why the message was refused; none of one that was sent, or has no end.
fn refusal_of(done: &Done, place: usize) -> Option<MessageRefusal> {
    if let Some(end) = done.ends.get(place) {
        if let MessageResult::Refused(refusal) = &end.result {
            return Some(*refusal);
        }
    }
    None
}

pub fn want_refused(rt: &impl Abort, done: &Done, place: usize, wanted: MessageRefusal) {
    same(rt, (place, refusal_of(done, place)), (place, Some(wanted)));
}
