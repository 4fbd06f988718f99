//! What a record of a decisions file says.

ghost use Rattle.std.specs.Prelude.{◌≡◌, IfOk, Some, slice_get};
ghost use Rattle.csv.specs.Records.{fields_of};
ghost use Rattle.sms_files.specs.Fields.{number_at};
ghost use Rattle.sms_message.specs.Ends.{segments_in};
ghost use Rattle.sms_journal.specs.Decided.{cost_in_doubt, decided_by as decided_by_fields, decided_in as says, decision_said, doubted as doubted_part, fate_in as fate_said, fate_named as named, is_decision_header, payer_in, payer_of as pays};

use crate::recovery::JournaledRun;
use crate::rest::is_field;
use csv::ByteRecord;
use sms_book::Opening;
use sms_core::decimal_of;
use sms_files::memory::NoMemory;
use sms_ledger::{Decision, Fate, Name, Run, RunAccount};
use sms_message::{Message, MessageEnd, MessageResult, Outcome, SegmentEnd};
use std::alloc::Global;

/// What a person decided of a part.
#[derive(Clone, Copy, Debug, PartialEq, Eq)]
pub(crate) struct Decided {
    /// The message's index.
    pub(crate) message: u64,
    /// The part's number, from 1.
    pub(crate) part: u8,
    pub(crate) fate: Fate,
}

/// Whether the record is the header.
pub(crate) fn is_header(record: &ByteRecord) -> bool
    ensures { result ≡ is_decision_header (fields_of «record».now) }
{
    record.len() == 3
        && is_field(record, 0, b"message")
        && is_field(record, 1, b"part")
        && is_field(record, 2, b"fate")
}

fn fate_named(word: &[u8]) -> Option<Fate>
    ensures { result ≡ named word.now }
{
    if word == b"delivered".as_slice() {
        return Some(Fate::Delivered);
    }
    if word == b"lost".as_slice() {
        return Some(Fate::Lost);
    }
    None
}

/// The index of the message that a record names.
fn message_in(record: &ByteRecord) -> Option<u64>
    ensures { result ≡ number_at 0xFFFF_FFFF_FFFF_FFFF (fields_of «record».now) 0 }
{
    decimal_of(record.get(0)?, u64::MAX)
}

/// The number of the part that it names.
fn part_in(record: &ByteRecord) -> Option<u8>
    ensures { result ≡ number_at 255 (fields_of «record».now) 1 }
{
    let number = decimal_of(record.get(1)?, 255)?;
    Some(number as u8)
}

/// What it says became of that.
fn fate_in(record: &ByteRecord) -> Option<Fate>
    ensures { result ≡ fate_said (fields_of «record».now) }
{
    fate_named(record.get(2)?)
}

/// What its fields say.
fn decided_by(record: &ByteRecord) -> Option<Decided>
    ensures { result ≡ decided_by_fields (fields_of «record».now) }
{
    let message = message_in(record)?;
    let part = part_in(record)?;
    let fate = fate_in(record)?;
    Some(Decided {
        message,
        part,
        fate,
    })
}

/// What a record says, if it is one of a decision.
fn decided_in(record: &ByteRecord) -> Option<Decided>
    ensures { result ≡ says (fields_of «record».now) }
{
    if record.len() != 3 {
        return None;
    }
    decided_by(record)
}

/// What a part costs, if it is in doubt.
fn cost_of(part: &SegmentEnd<()>) -> Option<u32>
    ensures { result ≡ cost_in_doubt (Some part.now) }
{
    match part.outcome {
        Outcome::Unanswered => Some(part.cost),
        Outcome::Charged | Outcome::Refused | Outcome::Unsent => None,
    }
}

/// What the part in a place of a message costs that is in doubt; none where it has no such part, or it isn't.
fn cost_at(end: &MessageEnd<()>, place: usize) -> Option<u32>
    ensures { result ≡ cost_in_doubt (slice_get (segments_in end.now.result) place) }
{
    let MessageResult::Sent(parts) = &end.result else {
        return None;
    };
    match parts.as_slice().get(place) {
        Some(part) => cost_of(part),
        None => None,
    }
}

/// What a part of a run costs that is in doubt; none where the run has no such part, or it isn't.
fn doubted(ends: &[MessageEnd<()>], message: u64, part: u8) -> Option<u32>
    ensures { result ≡ doubted_part ends.now message part }
{
    if part == 0 {
        return None;
    }
    match ends.get(message as usize) {
        Some(end) => cost_at(end, usize::from(part - 1)),
        None => None,
    }
}

/// The name in the ledger of the account that a message is of.
fn name_for(
    alloc: Global,
    openings: &[Opening],
    message: &Message,
) -> Result<Option<Name>, NoMemory>
    ensures { IfOk result (λ name. name ≡ payer_in openings.now message.now) }
{
    let Some(account) = message.account else {
        return Ok(None);
    };
    match openings.get(account) {
        Some(opening) => Name::of(alloc, opening.name.as_bytes()),
        None => Ok(None),
    }
}

/// The name in the ledger of the account that pays for a message of a run.
fn payer_of(alloc: Global, run: &JournaledRun, message: u64) -> Result<Option<Name>, NoMemory>
    ensures { IfOk result (λ name. name ≡ pays run.now message) }
{
    match run.messages.as_slice().get(message as usize) {
        Some(message) => name_for(alloc, run.openings.as_slice(), message),
        None => Ok(None),
    }
}

/// The decision of a run, of this name in the ledger, that a record says, if it is one of a part in doubt.
pub(crate) fn decision_of(
    alloc: Global,
    run: &JournaledRun,
    name: &Run,
    record: &ByteRecord,
) -> Result<Option<Decision>, NoMemory>
    ensures { IfOk result (λ decision. decision ≡ decision_said run.now name.now (fields_of «record».now)) }
{
    let Some(decided) = decided_in(record) else {
        return Ok(None);
    };
    let Some(cost) = doubted(run.ends.as_slice(), decided.message, decided.part) else {
        return Ok(None);
    };
    let Some(account) = payer_of(alloc, run, decided.message)? else {
        return Ok(None);
    };
    let of = RunAccount {
        run: name.copy(alloc)?,
        account,
    };
    Ok(Some(Decision {
        of,
        message: decided.message,
        part: decided.part,
        cost: u64::from(cost),
        fate: decided.fate,
    }))
}
