//! The lines of a report: those of messages, those of accounts, and the two headers.

ghost use Rattle.std.specs.Prelude.{◌≡◌, string_bytes};
ghost use Rattle.csv.specs.Records.{field_at, fields_of};
ghost use Rattle.sms_files.specs.Rows.{field_is};
ghost use Rattle.sms_journal.specs.RecordLines.{account_in, amount_in, are_visible as they_are_visible, ending_in as ending_said, fits as they_fit, has_ended as it_has_ended, is_amount as amount_is, is_header, is_id, is_left as stays, is_statement_header, line_in, line_with as line_said, number_in, status_in as status_said};

use csv::ByteRecord;
use sms_book::Opening;
use sms_core::{ESME_ROK, Row, decimal_of};
use sms_message::{MessageRefusal, Outcome, outcome_named, refusal_named};

/// What a line says of a part, or of a message that was refused as a whole.
#[derive(Clone, Copy, Debug, PartialEq, Eq)]
pub(crate) enum Ending {
    Part(Outcome),
    Message(MessageRefusal),
}

/// A line of a message.
#[derive(Clone, Copy, Debug, PartialEq, Eq)]
pub(crate) struct Line {
    /// The message's index.
    pub(crate) message: u32,
    /// The part's number from 1, or 0 of a message that was refused as a whole.
    pub(crate) part: u32,
    /// How often it was sent.
    pub(crate) attempts: u32,
    /// The command_status of the last attempt's answer.
    pub(crate) status: Option<u32>,
    pub(crate) ending: Ending,
}

/// The number in the record's field at a place.
fn number_at(record: &ByteRecord, place: usize) -> Option<u32>
    ensures { result ≡ number_in (fields_of «record».now) place }
{
    let number = decimal_of(record.get(place)?, u64::from(u32::MAX))?;
    Some(number as u32)
}

/// The amount of credits in the record's field at a place.
fn amount_at(record: &ByteRecord, place: usize) -> Option<u64>
    ensures { result ≡ amount_in (fields_of «record».now) place }
{
    decimal_of(record.get(place)?, u64::MAX)
}

fn ending_in(word: &[u8]) -> Option<Ending>
    ensures { result ≡ ending_said word.now }
{
    match outcome_named(word) {
        Some(outcome) => Some(Ending::Part(outcome)),
        None => match refusal_named(word) {
            Some(refusal) => Some(Ending::Message(refusal)),
            None => None,
        },
    }
}

/// The command_status of the last attempt's answer, where there is one; none where the field is no status.
fn status_in(record: &ByteRecord) -> Option<Option<u32>>
    ensures { result ≡ status_said (fields_of «record».now) }
{
    let field = record.get(4)?;
    if field.is_empty() {
        return Some(None);
    }
    let status = decimal_of(field, u64::from(u32::MAX))?;
    Some(Some(status as u32))
}

/// Whether all octets are visible.
fn are_visible(id: &[u8]) -> bool
    ensures { result ≡ they_are_visible id.now }
{
    for octet in id {
        if *octet < 0x21 || *octet > 0x7E {
            return false;
        }
    }
    true
}

/// Whether the record has a message_id as it is shown, and none without an answer.
fn has_id(record: &ByteRecord, status: Option<u32>) -> bool
    ensures { result ≡ is_id status (field_at (fields_of «record».now) 5) }
{
    let Some(id) = record.get(5) else {
        return false;
    };
    match status {
        None => id.is_empty(),
        Some(_) => id.len() <= 64 && are_visible(id),
    }
}

/// Whether a part that was sent so often, the last time with this answer, came to this.
fn has_ended(attempts: u32, status: Option<u32>, outcome: Outcome) -> bool
    ensures { result ≡ it_has_ended attempts status outcome }
{
    match status {
        None => match outcome {
            Outcome::Unanswered => attempts >= 1,
            Outcome::Unsent => attempts == 0,
            Outcome::Charged | Outcome::Refused => false,
        },
        Some(status) => match outcome {
            Outcome::Charged => attempts >= 1 && status == ESME_ROK,
            Outcome::Refused => attempts >= 1,
            Outcome::Unanswered | Outcome::Unsent => false,
        },
    }
}

/// Whether the part's number, its attempts and its last answer fit the outcome.
fn fits(part: u32, attempts: u32, status: Option<u32>, ending: Ending) -> bool
    ensures { result ≡ they_fit part attempts status ending }
{
    match ending {
        Ending::Part(outcome) => part >= 1 && has_ended(attempts, status, outcome),
        Ending::Message(_) => status.is_none() && part == 0 && attempts == 0,
    }
}

/// What the record says behind its last answer.
fn line_with(record: &ByteRecord, status: Option<u32>) -> Option<Line>
    ensures { result ≡ line_said (fields_of «record».now) status }
{
    if !has_id(record, status) {
        return None;
    }
    let message = number_at(record, 0)?;
    let part = number_at(record, 1)?;
    let attempts = number_at(record, 2)?;
    let ending = ending_in(record.get(3)?)?;
    if !fits(part, attempts, status, ending) {
        return None;
    }
    Some(Line {
        message,
        part,
        attempts,
        status,
        ending,
    })
}

/// What the record says, where it is a line of a message.
pub(crate) fn line_of(record: &ByteRecord) -> Option<Line>
    ensures { result ≡ line_in (fields_of «record».now) }
{
    if record.len() != 6 {
        return None;
    }
    match status_in(record) {
        Some(status) => line_with(record, status),
        None => None,
    }
}

/// Whether the line's message, or its part, was not sent and may be sent by another run.
pub(crate) fn is_left(line: &Line) -> bool
    ensures { result ≡ stays line.now }
{
    match line.ending {
        Ending::Part(Outcome::Unsent) => line.attempts == 0,
        Ending::Part(_) => false,
        Ending::Message(MessageRefusal::NoCredit)
        | Ending::Message(MessageRefusal::BindClosed)
        | Ending::Message(MessageRefusal::OutOfMemory) => true,
        Ending::Message(_) => false,
    }
}

/// Whether the record's field at a place is this one.
pub(crate) fn is_field(record: &ByteRecord, place: usize, name: &[u8]) -> bool
    ensures { result ≡ field_is (fields_of «record».now) place name.now }
{
    match record.get(place) {
        Some(field) => field == name,
        None => false,
    }
}

/// Whether the record is the report's first.
pub(crate) fn is_report_header(record: &ByteRecord) -> bool
    ensures { result ≡ is_header (fields_of «record».now) }
{
    record.len() == 6
        && is_field(record, 0, b"message")
        && is_field(record, 1, b"part")
        && is_field(record, 2, b"attempts")
        && is_field(record, 3, b"outcome")
        && is_field(record, 4, b"status")
        && is_field(record, 5, b"id")
}

/// Whether the record is the statement's first.
pub(crate) fn is_accounts_header(record: &ByteRecord) -> bool
    ensures { result ≡ is_statement_header (fields_of «record».now) }
{
    record.len() == 6
        && is_field(record, 0, b"account")
        && is_field(record, 1, b"topped")
        && is_field(record, 2, b"free")
        && is_field(record, 3, b"reserved")
        && is_field(record, 4, b"charged")
        && is_field(record, 5, b"returned")
}

/// Whether the record's field at a place is this amount.
fn is_amount(record: &ByteRecord, place: usize, credits: u64) -> bool
    ensures { result ≡ amount_is (amount_in (fields_of «record».now) place) credits }
{
    match amount_at(record, place) {
        Some(amount) => amount == credits,
        None => false,
    }
}

/// Whether the record is this row of this account.
pub(crate) fn is_account(record: &ByteRecord, opening: &Opening, row: &Row) -> bool
    ensures { result ≡ account_in (string_bytes opening.now.name) row.now (fields_of «record».now) }
{
    record.len() == 6
        && is_field(record, 0, opening.name.as_bytes())
        && is_amount(record, 1, row.topped)
        && is_amount(record, 2, row.free)
        && is_amount(record, 3, row.reserved)
        && is_amount(record, 4, row.charged)
        && is_amount(record, 5, row.returned)
}

/// The free credits in an account's row.
pub(crate) fn free_of(record: &ByteRecord) -> Option<u64>
    ensures { result ≡ amount_in (fields_of «record».now) 2 }
{
    amount_at(record, 2)
}
