//! The end of each message by a run's notes: what the run would have reported if every connection had
//! dropped just after the last of them. The notes are the only evidence of what was sent.

ghost use Rattle.std.specs.Prelude.{◌≡◌, ℕ, ◌+◌, ◌++◌, None, Some, IfOk, OnOk, flat_map, slice_get, length};
ghost use Rattle.std.specs.List.{AllZip};
ghost use Rattle.sms_core.specs.Replies.{outcome_of};
ghost use Rattle.sms_message.specs.Ends.{phase_of};
ghost use Rattle.sms_message.specs.Admission.{IsShort};
ghost use Rattle.sms_message.specs.Submits.{message_parts};
ghost use Rattle.sms_message.specs.declared.ends.SegmentEnd.{SegmentEnd as TheSegmentEnd};
ghost use Rattle.sms_journal.specs.Index.{AreFates, AreSorted, attempts_by};
ghost use Rattle.sms_journal.specs.Recovered.{start_of, listed, attempts_of, answers_of, IsRecoveredSegment, IsRecoveredResult, IsRecoveredEnd};

use crate::notes::dense_map::DenseMap;
use crate::notes::fates::{fate, fates};
use crate::notes::grouping::{PartRequest, groups, others_of};
use crate::notes::note::Note;
use crate::notes::starts::starts_of;
use sms_core::is_charge;
use sms_files::memory::{self, NoMemory};
use sms_message::{
    Attempt, Attempts, Message, MessageEnd, MessageRefusal, MessageResult, Outcome, Rules,
    SegmentEnd, Segments, part_cost,
};
use sms_pdu::Reply;
use std::alloc::Global;
use std::collections::HashMap;

/// What the end of a message is recovered from.
#[derive(Clone, Copy)]
struct Evidence<'a> {
    rules: &'a Rules,
    /// The notes of the run.
    notes: &'a [Note],
    /// What became of their requests.
    fates: &'a HashMap<u32, DenseMap<Option<Reply>>>,
    /// How the message was begun.
    start: Option<Option<MessageRefusal>>,
    /// The requests for it.
    first: Option<PartRequest>,
    others: &'a [PartRequest],
    message: &'a Message,
}

/// The attempt for a part that a request is, if it is for this part.
fn attempt_by(
    notes: &[Note],
    fates: &HashMap<u32, DenseMap<Option<Reply>>>,
    part: usize,
    sent: PartRequest,
) -> Option<Attempt<()>>
    requires { AreFates notes.now fates.now }
    ensures { listed result ≡ attempts_by notes.now part sent }
{
    if usize::from(sent.part) != part {
        return None;
    }
    let number = sent.request.number;
    match fate(notes, fates, sent.request.worker, number) {
        None => Some(Attempt {
            number,
            sent: (),
            reply: None,
        }),
        Some(None) => None,
        Some(Some(reply)) => Some(Attempt {
            number,
            sent: (),
            reply: Some(reply),
        }),
    }
}

/// Adds that attempt to those before it.
fn add_attempt(
    attempts: &mut Vec<Attempt<()>>,
    notes: &[Note],
    fates: &HashMap<u32, DenseMap<Option<Reply>>>,
    part: usize,
    sent: PartRequest,
) -> Result<(), NoMemory>
    requires { AreFates notes.now fates.now }
    ensures { OnOk result (attempts.new.items ≡ attempts.old.items ++ attempts_by notes.now part sent) }
{
    if let Some(attempt) = attempt_by(notes, fates, part, sent) {
        memory::push(attempts, attempt)?;
    }
    Ok(())
}

/// The attempts for a part by the first request for its message.
fn first_attempts(
    alloc: Global,
    evidence: &Evidence,
    part: usize,
) -> Result<Vec<Attempt<()>>, NoMemory>
    requires { AreFates evidence.now.notes.now evidence.now.fates.now }
    ensures { IfOk result (λ attempts. attempts.items ≡ flat_map (attempts_by evidence.now.notes.now part) (listed evidence.now.first)) }
{
    // Most parts have one attempt.
    let mut attempts = memory::list_for(alloc, &[part])?;
    let Some(first) = evidence.first else {
        return Ok(attempts);
    };
    add_attempt(&mut attempts, evidence.notes, evidence.fates, part, first)?;
    Ok(attempts)
}

/// The attempts for a part, in the order of the requests for its message.
fn attempts(alloc: Global, evidence: &Evidence, part: usize) -> Result<Vec<Attempt<()>>, NoMemory>
    requires { AreSorted evidence.now.notes.now evidence.now.fates.now evidence.now.start evidence.now.first evidence.now.others.now evidence.now.message.now.index }
    ensures { IfOk result (λ attempts. attempts.items ≡ attempts_of evidence.now.notes.now evidence.now.message.now.index part) }
{
    let mut attempts = first_attempts(alloc, evidence, part)?;
    for sent in evidence.others {
        add_attempt(&mut attempts, evidence.notes, evidence.fates, part, *sent)?;
    }
    Ok(attempts)
}

/// The outcome of attempts: that of the last.
fn outcome(attempts: &[Attempt<()>]) -> Outcome
    ensures { outcome_of (answers_of attempts.now) ≡ phase_of result }
{
    match attempts.last() {
        None => Outcome::Unsent,
        Some(last) => match last.reply {
            None => Outcome::Unanswered,
            Some(reply) => {
                if is_charge(reply.status, reply.nack) {
                    Outcome::Charged
                } else {
                    Outcome::Refused
                }
            }
        },
    }
}

/// The end of the part with this number, from 1.
fn segment_end(alloc: Global, evidence: &Evidence, part: usize) -> Result<SegmentEnd<()>, NoMemory>
    requires { AreSorted evidence.now.notes.now evidence.now.fates.now evidence.now.start evidence.now.first evidence.now.others.now evidence.now.message.now.index }
    ensures { IfOk result (λ s. IsRecoveredSegment evidence.now.rules.now evidence.now.notes.now evidence.now.message.now part s) }
{
    let cost = part_cost(&evidence.rules.tariff, evidence.message);
    let attempts = attempts(alloc, evidence, part)?;
    let outcome = outcome(attempts.as_slice());
    let attempts = Attempts::new(attempts);
    Ok(SegmentEnd {
        cost,
        attempts,
        outcome,
    })
}

/// The ends of the first `count` parts.
fn segment_ends(
    alloc: Global,
    evidence: &Evidence,
    count: u8,
) -> Result<Vec<SegmentEnd<()>>, NoMemory>
    requires { AreSorted evidence.now.notes.now evidence.now.fates.now evidence.now.start evidence.now.first evidence.now.others.now evidence.now.message.now.index }
    ensures count { IfOk result (λ parts. length parts.items ≡ count) }
    ensures each { IfOk result (λ parts. (p : ℕ) (s : TheSegmentEnd (Unit {0})) → slice_get parts.items p ≡ Some s → IsRecoveredSegment evidence.now.rules.now evidence.now.notes.now evidence.now.message.now (p + 1) s) }
{
    // Most messages have one part.
    let mut parts = memory::list_for(alloc, &[count])?;
    for place in 0..usize::from(count) {
        memory::push(&mut parts, segment_end(alloc, evidence, place + 1)?)?;
    }
    Ok(parts)
}

/// The result of a message that was begun and has `count` parts.
fn begun_result(
    alloc: Global,
    evidence: &Evidence,
    count: u8,
) -> Result<MessageResult<()>, NoMemory>
    requires sorted { AreSorted evidence.now.notes.now evidence.now.fates.now evidence.now.start evidence.now.first evidence.now.others.now evidence.now.message.now.index }
    requires begun { start_of evidence.now.notes.now evidence.now.message.now.index ≡ Some None }
    requires short { IsShort evidence.now.rules.now evidence.now.message.now }
    requires count { count ≡ length (message_parts evidence.now.rules.now evidence.now.message.now) }
    ensures { IfOk result (λ r. IsRecoveredResult evidence.now.rules.now evidence.now.notes.now evidence.now.message.now r) }
{
    let parts = segment_ends(alloc, evidence, count)?;
    Ok(MessageResult::Sent(Segments::new(parts)))
}

/// The result of a message. One that no note begins was not sent when the last connection dropped.
fn message_result(alloc: Global, evidence: &Evidence) -> Result<MessageResult<()>, NoMemory>
    requires { AreSorted evidence.now.notes.now evidence.now.fates.now evidence.now.start evidence.now.first evidence.now.others.now evidence.now.message.now.index }
    ensures { IfOk result (λ r. IsRecoveredResult evidence.now.rules.now evidence.now.notes.now evidence.now.message.now r) }
{
    let message = evidence.message;
    match evidence.start {
        None => Ok(MessageResult::Refused(MessageRefusal::BindClosed)),
        Some(Some(refusal)) => Ok(MessageResult::Refused(refusal)),
        Some(None) => match memory::count_parts(alloc, evidence.rules.long_reference, message)? {
            Some(count) => begun_result(alloc, evidence, count),
            None => Ok(MessageResult::Refused(MessageRefusal::TooLong)),
        },
    }
}

/// The end of a message.
fn message_end(alloc: Global, evidence: &Evidence) -> Result<MessageEnd<()>, NoMemory>
    requires { AreSorted evidence.now.notes.now evidence.now.fates.now evidence.now.start evidence.now.first evidence.now.others.now evidence.now.message.now.index }
    ensures { IfOk result (λ e. IsRecoveredEnd evidence.now.rules.now evidence.now.notes.now evidence.now.message.now e) }
{
    let result = message_result(alloc, evidence)?;
    Ok(MessageEnd {
        index: evidence.message.index,
        result,
    })
}

/// What a run of these messages would have reported if every connection had dropped just after the last of
/// these notes: an end for each message, in their order. The time grows with the number of messages and of
/// notes. The one error is refused memory.
pub fn recover(
    alloc: Global,
    messages: &[Message],
    rules: &Rules,
    notes: &[Note],
) -> Result<Vec<MessageEnd<()>>, NoMemory>
    ensures { IfOk result (λ ends. AllZip (IsRecoveredEnd rules.now notes.now) messages.now ends.items) }
{
    let fates = fates(alloc, notes)?;
    let starts = starts_of(alloc, notes)?;
    let groups = groups(alloc, notes)?;
    let mut ends = memory::list_for(alloc, messages)?;
    for message in messages {
        let evidence = Evidence {
            rules,
            notes,
            fates: &fates,
            start: starts.get(message.index),
            first: groups.firsts.get(message.index),
            others: others_of(&groups.others, message.index),
            message,
        };
        memory::push(&mut ends, message_end(alloc, &evidence)?)?;
    }
    Ok(ends)
}
