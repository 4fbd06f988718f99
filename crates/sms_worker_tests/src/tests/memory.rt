//! Memory that is refused, one allocation a run (`tools/refuse-memory`): the call is refused whole, or each
//! message has its end, and the row is what the ends add up to.

use super::sums::sums;
use super::{
    Case, Done, OK, PLAIN, THROTTLED, message, messages_of, push_message, row_of, same, try_run,
};
use sms_worker::{Message, MessageEnd, MessageRefusal, MessageResult};
use std::alloc::{AllocError, Global};
use std::process::Abort;

// Whether the message was sent, or refused for lack of memory.
fn is_named(end: &MessageEnd) -> bool {
    match &end.result {
        MessageResult::Sent(segments) => segments.len() > 0,
        MessageResult::Refused(refusal) => *refusal == MessageRefusal::OutOfMemory,
    }
}

fn want_agreement(rt: &impl Abort, done: &Done, messages: usize, credits: u64) {
    same(rt, done.ends.len(), messages);
    for end in &done.ends {
        assert!(rt; is_named(end));
    }
    let (reserved, charged, returned) = sums(done.ends.as_slice());
    let free = credits.saturating_sub(reserved).saturating_sub(charged);
    same(rt, row_of(done), (free, reserved, charged, returned));
}

// One of two parts, one in UCS2, and one to another prefix.
fn three_messages(alloc: Global) -> Result<Vec<Message>, AllocError> {
    let mut messages = Vec::new(alloc);
    push_message(alloc, &mut messages, 7, Some(0), "447700900123", 161)?;
    let text = String::from_str(alloc, "\u{436}")?;
    messages.push(message(alloc, 8, Some(0), "447700900123", text)?)?;
    push_message(alloc, &mut messages, 9, Some(0), "+46700", 1)?;
    Ok(messages)
}

#[test]
fn memory_of_a_worker(rt: HostRuntime) {
    let alloc = rt.alloc();
    let Ok(messages) = three_messages(alloc) else {
        return;
    };
    let case = Case {
        credits: 8,
        ..PLAIN
    };
    if let Some(done) = try_run(&rt, alloc, case, messages) {
        want_agreement(&rt, &done, 3, 8);
    }
}

// A segment that is sent again, and one that is tried in vain.
#[test]
fn memory_of_a_retry(rt: HostRuntime) {
    let alloc = rt.alloc();
    let Ok(messages) = messages_of(alloc, 2) else {
        return;
    };
    let case = Case {
        attempts: 2,
        answers: &[THROTTLED, THROTTLED, OK, THROTTLED],
        ..PLAIN
    };
    if let Some(done) = try_run(&rt, alloc, case, messages) {
        want_agreement(&rt, &done, 2, 3);
    }
}
