//! The parts that a run charged, and what became of them by the records of an inbox.

ghost use Rattle.std.specs.Prelude.{◌≡◌, ◌++◌, IfOk, OnOk, string_bytes};
ghost use Rattle.sms_journal.specs.Bill.{last_reply as reply_to_last};
ghost use Rattle.sms_send.specs.Delivered.{answered_part, charged_from, charged_of, charged_parts as parts_charged, part_by, printed};

use sms_inbox::{ChargedPart, Ids, Record, WritesTime, delivered_text};
use sms_journal::{JournaledRun, last_reply, write_told};
use sms_message::{MessageEnd, MessageResult, Outcome, SegmentEnd};
use sms_pdu::Reply;
use std::alloc::{AllocError, Global};

/// Writes times as a bill does.
#[derive(Drop)]
struct Calendar {
    _made: (),
}

impl WritesTime for Calendar {
    ghost use Rattle.sms_journal.specs.Instants.{told_text};

    ghost time_text = { λ _ time. told_text time };

    fn write_time(&self, text: &mut String, time: u64) -> Result<(), AllocError> {
        match write_told(text, time) {
            Ok(()) => Ok(()),
            Err(_refused) => Err(AllocError),
        }
    }
}

/// Adds a part by the answer that charged it.
fn add_answered(
    parts: &mut Vec<ChargedPart>,
    message: u64,
    part: usize,
    reply: Option<Reply>,
) -> Result<(), AllocError>
    ensures { OnOk result (parts.new.items ≡ parts.old.items ++ answered_part message part reply) }
{
    match reply {
        Some(reply) => {
            let id = reply.id;
            parts.push(ChargedPart { message, part, id })?;
            Ok(())
        }
        None => Ok(()),
    }
}

/// Adds the part with this number of a message, if it was charged.
fn add_part(
    parts: &mut Vec<ChargedPart>,
    message: u64,
    part: usize,
    segment: &SegmentEnd<()>,
) -> Result<(), AllocError>
    ensures { OnOk result (parts.new.items ≡ parts.old.items ++ part_by segment.now.outcome message part (reply_to_last segment.now.attempts)) }
{
    match segment.outcome {
        Outcome::Charged => {
            let reply = last_reply(segment.attempts.as_slice());
            add_answered(parts, message, part, reply)
        }
        Outcome::Refused | Outcome::Unanswered | Outcome::Unsent => Ok(()),
    }
}

/// Adds those of a message.
fn add_parts(
    parts: &mut Vec<ChargedPart>,
    message: u64,
    segments: &[SegmentEnd<()>],
) -> Result<(), AllocError>
    ensures { OnOk result (parts.new.items ≡ parts.old.items ++ charged_from message 1 segments.now) }
{
    for (place, segment) in segments.iter().enumerate() {
        add_part(parts, message, place + 1, segment)?;
    }
    Ok(())
}

/// Adds those by what became of a message.
fn add_end(parts: &mut Vec<ChargedPart>, end: &MessageEnd<()>) -> Result<(), AllocError>
    ensures { OnOk result (parts.new.items ≡ parts.old.items ++ charged_of end.now) }
{
    match &end.result {
        MessageResult::Sent(segments) => add_parts(parts, end.index, segments.as_slice()),
        MessageResult::Refused(_) => Ok(()),
    }
}

/// The parts that were charged, in the order of the messages and of their parts.
fn charged_parts(alloc: Global, ends: &[MessageEnd<()>]) -> Result<Vec<ChargedPart>, AllocError>
    ensures { IfOk result (λ parts. parts.items ≡ parts_charged ends.now) }
{
    let mut parts = Vec::new(alloc);
    for end in ends {
        add_end(&mut parts, end)?;
    }
    Ok(parts)
}

/// What is printed of a run by these records.
pub(crate) fn printed_text(
    alloc: Global,
    ids: Ids,
    run: &JournaledRun,
    records: &[Record],
) -> Result<String, AllocError>
    ensures { IfOk result (λ text. string_bytes text ≡ printed ids records.now run.now) }
{
    let parts = charged_parts(alloc, run.ends.as_slice())?;
    let calendar = Calendar { _made: () };
    delivered_text(alloc, &calendar, ids, records, parts.as_slice())
}
