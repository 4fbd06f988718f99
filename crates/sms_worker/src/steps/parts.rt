//! The parts of a message and their ends so far: what takes memory when it is begun.

ghost use Rattle.std.specs.Prelude.{◌≡◌, All, IfErr, IfOk, IfSome, OnOk, length};
ghost use Rattle.sms_message.specs.Admission.{IsNotCut, IsShort};
ghost use Rattle.sms_message.specs.Submits.{coded_text, message_parts};
ghost use Rattle.sms_segment.specs.Message.{IsTooLong, parts_of};
ghost use Rattle.sms_segment.specs.Part.{HasSeptets};
ghost use Rattle.sms_segment.specs.declared.place.Reference.{Reference as TheReference};
ghost use Rattle.sms_worker.specs.Begins.{IsNoParts, ready};
ghost use Rattle.sms_worker.specs.PendingState.{pending_of};

use crate::ends::{Attempts, SegmentEnd};
use crate::state::pending::PendingParts;
use sms_message::{Message, MessageRefusal, Outcome, Rules, UserData, cut_message};
use sms_segment::laws::the_parts_tell_what_is_too_long;
use sms_segment::short_message_of;
use std::alloc::{AllocError, Global};

/// Evidence that memory was refused for the message with this index: for its parts, or for the ends of these.
#[derive(Clone, Copy, Debug, PartialEq, Eq)]
pub struct NoMessageMemory {
    message: u64,
}

/// Why a message has no parts that could be sent.
#[derive(Clone, Copy, Debug, PartialEq, Eq)]
pub enum NoParts {
    /// It would take more parts than a header can count.
    TooLong,
    /// Memory was refused for it.
    Memory(NoMessageMemory),
}

/// Memory was refused for this message.
fn refused_for(message: &Message) -> NoMessageMemory
    ensures { result.message ≡ message.now.index }
{
    NoMessageMemory {
        message: message.index,
    }
}

/// Why a message that isn't cut has no parts.
fn not_cut(_rules: &Rules, message: &Message, refusal: MessageRefusal) -> NoParts
    requires { IsNotCut _rules.now message.now refusal }
    ensures { IsNoParts _rules.now message.now result }
{
    match refusal {
        MessageRefusal::TooLong => NoParts::TooLong,
        _ => NoParts::Memory(refused_for(message)),
    }
}

/// The pending parts of a message that is cut.
fn pending_cut(alloc: Global, rules: &Rules, message: &Message) -> Result<PendingParts, NoParts>
    ensures pending { IfOk result (λ pending. pending ≡ pending_of (message_parts rules.now message.now)) }
    ensures short { OnOk result (IsShort rules.now message.now) }
    ensures none { IfErr result (IsNoParts rules.now message.now) }
{
    let parts = match cut_message(alloc, rules, message) {
        Ok(parts) => parts,
        Err(refusal) => return Err(not_cut(rules, message, refusal)),
    };
    match PendingParts::of(alloc, parts.as_slice()) {
        Ok(pending) => Ok(pending),
        Err(_) => Err(NoParts::Memory(refused_for(message))),
    }
}

/// The pending part of a message that one short message can carry, made straight from the characters of its
/// text. `None` for a message of more parts.
fn pending_at_once(alloc: Global, message: &Message) -> Result<Option<PendingParts>, AllocError>
    ensures pending { IfOk result (λ found. IfSome found (λ pending. (reference : TheReference) → pending ≡ pending_of (parts_of (coded_text message.now) reference))) }
    ensures short { IfOk result (λ found. IfSome found (λ pending. (reference : TheReference) → ¬ IsTooLong (coded_text message.now) reference)) }
{
    let one = match short_message_of(alloc, message.text.as_str()) {
        Ok(Some(one)) => one,
        Ok(None) => return Ok(None),
        Err(no_memory) => return Err(no_memory),
    };
    the_parts_tell_what_is_too_long();
    match PendingParts::of_one(alloc, UserData::of_one(one)) {
        Ok(pending) => Ok(Some(pending)),
        Err(no_memory) => Err(no_memory),
    }
}

/// The pending parts of a message. It is cut only where one short message can't carry it.
pub fn pending_for(alloc: Global, rules: &Rules, message: &Message) -> Result<PendingParts, NoParts>
    ensures pending { IfOk result (λ pending. pending ≡ pending_of (message_parts rules.now message.now)) }
    ensures short { OnOk result (IsShort rules.now message.now) }
    ensures none { IfErr result (IsNoParts rules.now message.now) }
{
    match pending_at_once(alloc, message) {
        Ok(Some(pending)) => Ok(pending),
        Ok(None) => pending_cut(alloc, rules, message),
        Err(_) => Err(NoParts::Memory(refused_for(message))),
    }
}

/// The ends of `count` segments that wait to be sent.
fn waiting_ends(alloc: Global, count: usize, cost: u32) -> Result<Vec<SegmentEnd>, AllocError>
    ensures { IfOk result (λ ends. ends.items ≡ ready cost count) }
{
    let mut ends = Vec::with_capacity(alloc, count)?;
    for _ in 0..count {
        ends.push_reserved(SegmentEnd {
            cost,
            attempts: Attempts::new(Vec::new(alloc)),
            outcome: Outcome::Unanswered,
        });
    }
    Ok(ends)
}

/// The ends of the parts of a message, which wait to be sent.
pub fn ends_for(
    alloc: Global,
    message: &Message,
    count: usize,
    cost: u32,
) -> Result<Vec<SegmentEnd>, NoMessageMemory>
    ensures ends { IfOk result (λ ends. ends.items ≡ ready cost count) }
    ensures message { IfErr result (λ no. no.message ≡ message.now.index) }
{
    match waiting_ends(alloc, count, cost) {
        Ok(ends) => Ok(ends),
        Err(_) => Err(refused_for(message)),
    }
}
