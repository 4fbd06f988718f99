//! The line of a part.

ghost use Rattle.std.specs.Prelude.{◌≡◌, ◌++◌, IfOk, OnOk, map, string_bytes, take};
ghost use Rattle.sms_files.specs.Report.{is_unanswered as stays_unanswered, shown_id, shown_octet};
ghost use Rattle.sms_journal.specs.Bill.{account_name as name_of_account, billed_part, doubted_fields, ended_fields, last_reply as reply_to_last, line_in, next_field, part_text, ref_end, ref_of as ref_in, reply_fields};

use crate::bill::instants::write_moment;
use crate::bill::listing::{Columns, Listing};
use crate::bill::moments::Moments;
use sms_book::Opening;
use sms_files::memory::{self, NoMemory};
use sms_files::write_field;
use sms_message::{Attempt, Message, Outcome, SegmentEnd, outcome_name};
use sms_pdu::{MessageId, Reply};
use std::alloc::Global;

/// A comma, and the field after it.
fn write_next(text: &mut String, field: &str) -> Result<(), NoMemory>
    ensures { OnOk result (string_bytes text.new ≡ string_bytes text.old ++ next_field field.now) }
{
    memory::append(text, ",")?;
    write_field(text, field)
}

/// The octets of a message_id, with `?` for each that isn't a printable ASCII character or is a space.
fn shown(alloc: Global, id: &[u8]) -> Result<String, NoMemory>
    ensures { IfOk result (λ shown. string_bytes shown ≡ shown_id id.now) }
{
    let mut shown = String::new(alloc);
    for octet in id {
        if *octet >= 0x21 && *octet <= 0x7E {
            memory::append_char(&mut shown, char::from(*octet))?;
        } else {
            memory::append_char(&mut shown, '?')?;
        }
    }
    Ok(shown)
}

fn write_id(alloc: Global, text: &mut String, id: &MessageId) -> Result<(), NoMemory>
    ensures { OnOk result (string_bytes text.new ≡ string_bytes text.old ++ next_field (shown_id id.now)) }
{
    let shown = shown(alloc, id.as_slice())?;
    write_next(text, shown.as_str())
}

/// The answer to the last attempt.
pub fn last_reply(attempts: &[Attempt<()>]) -> Option<Reply>
    ensures { result ≡ reply_to_last attempts.now }
{
    match attempts.last() {
        Some(attempt) => attempt.reply,
        None => None,
    }
}

/// The status and the message_id of an answer; both empty where there is none.
fn write_reply(alloc: Global, text: &mut String, reply: &Option<Reply>) -> Result<(), NoMemory>
    ensures { OnOk result (string_bytes text.new ≡ string_bytes text.old ++ reply_fields reply.now) }
{
    match reply {
        None => memory::append(text, ",,"),
        Some(reply) => {
            memory::append_number(text, ",", u64::from(reply.status))?;
            write_id(alloc, text, &reply.id)
        }
    }
}

/// The name of an account.
fn account_name<'a>(openings: &'a [Opening], account: Option<usize>) -> &'a str
    ensures { result.now ≡ name_of_account openings.now account }
{
    match account {
        Some(place) => match openings.get(place) {
            Some(opening) => opening.name.as_str(),
            None => "",
        },
        None => "",
    }
}

/// Which part it is, who pays, and where it goes.
fn write_part(
    text: &mut String,
    openings: &[Opening],
    message: &Message,
    part: usize,
    segment: &SegmentEnd<()>,
    moments: Moments,
) -> Result<(), NoMemory>
    ensures { OnOk result (string_bytes text.new ≡ string_bytes text.old ++ part_text (billed_part openings.now message.now part segment.now moments)) }
{
    memory::append_number(text, "", message.index)?;
    memory::append_number(text, ",", part as u64)?;
    write_next(text, account_name(openings, message.account))?;
    write_next(text, message.source.as_str())?;
    write_next(text, message.dest.as_str())
}

/// Which part it is, what it costs, and what became of it.
fn write_ended(
    alloc: Global,
    text: &mut String,
    openings: &[Opening],
    message: &Message,
    part: usize,
    segment: &SegmentEnd<()>,
    moments: Moments,
) -> Result<(), NoMemory>
    ensures { OnOk result (string_bytes text.new ≡ string_bytes text.old ++ part_text (billed_part openings.now message.now part segment.now moments) ++ ended_fields (billed_part openings.now message.now part segment.now moments)) }
{
    write_part(text, openings, message, part, segment, moments)?;
    memory::append_number(text, ",", u64::from(segment.cost))?;
    memory::append(text, ",")?;
    memory::append(text, outcome_name(segment.outcome))?;
    write_reply(alloc, text, &last_reply(segment.attempts.as_slice()))?;
    write_moment(text, moments.sent)?;
    write_moment(text, moments.heard)
}

/// Which part it is, what it costs, when it was sent, and what it says.
fn write_doubted(
    text: &mut String,
    openings: &[Opening],
    message: &Message,
    part: usize,
    segment: &SegmentEnd<()>,
    moments: Moments,
) -> Result<(), NoMemory>
    ensures { OnOk result (string_bytes text.new ≡ string_bytes text.old ++ part_text (billed_part openings.now message.now part segment.now moments) ++ doubted_fields (billed_part openings.now message.now part segment.now moments)) }
{
    write_part(text, openings, message, part, segment, moments)?;
    memory::append_number(text, ",", u64::from(segment.cost))?;
    write_moment(text, moments.sent)?;
    write_next(text, message.text.as_str())
}

fn is_unanswered(outcome: Outcome) -> bool
    ensures { result ≡ stays_unanswered outcome }
{
    match outcome {
        Outcome::Unanswered => true,
        Outcome::Charged | Outcome::Refused | Outcome::Unsent => false,
    }
}

/// The reference of the message with this index, and none where there is none.
pub(crate) fn ref_of(refs: &[String], index: u64) -> &str
    ensures { result.now ≡ ref_in refs.now index }
{
    match refs.get(index as usize) {
        Some(reference) => reference.as_str(),
        None => "",
    }
}

/// The reference of a message, and the end of the line.
fn write_ref(text: &mut String, refs: &[String], index: u64) -> Result<(), NoMemory>
    ensures { OnOk result (string_bytes text.new ≡ string_bytes text.old ++ ref_end refs.now index) }
{
    write_next(text, ref_of(refs, index))?;
    memory::append(text, "\n")
}

/// The line of a part, where this listing has one.
pub(crate) fn write_line(
    alloc: Global,
    text: &mut String,
    listing: Columns<'_>,
    openings: &[Opening],
    message: &Message,
    part: usize,
    segment: &SegmentEnd<()>,
    moments: Moments,
) -> Result<(), NoMemory>
    ensures { OnOk result (string_bytes text.new ≡ string_bytes text.old ++ line_in listing.entry (billed_part openings.now message.now part segment.now moments)) }
{
    match listing {
        Columns::Usual(Listing::Bill) => {
            write_ended(alloc, text, openings, message, part, segment, moments)?;
            memory::append(text, "\n")
        }
        Columns::WithRefs(Listing::Bill, refs) => {
            write_ended(alloc, text, openings, message, part, segment, moments)?;
            write_ref(text, refs, message.index)
        }
        Columns::Usual(Listing::Doubtful) => {
            if !is_unanswered(segment.outcome) {
                return Ok(());
            }
            write_doubted(text, openings, message, part, segment, moments)?;
            memory::append(text, "\n")
        }
        Columns::WithRefs(Listing::Doubtful, refs) => {
            if !is_unanswered(segment.outcome) {
                return Ok(());
            }
            write_doubted(text, openings, message, part, segment, moments)?;
            write_ref(text, refs, message.index)
        }
    }
}
