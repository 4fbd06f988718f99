//! What the sender prints: a line for each segment, and the statement of the accounts.

ghost use Rattle.std.specs.Prelude.{◌≡◌, ◌⊎◌, ◌++◌, IfErr, IfOk, OnOk, string_bytes};
ghost use Rattle.std.specs.Io.KnownBytes.{Appends};
ghost use Rattle.sms_files.specs.Output.{WritesFront, output_failed};
ghost use Rattle.sms_files.specs.Report.{amount_text, amounts_text, answer_text, end_text, end_texts, field_text, head_text, last_text, needs_quotes as wants_quotes, quoted, refused_text, report_header, report_of, row_text, row_texts, segment_text, segment_texts, shown_id, statement_header};
ghost use Rattle.sms_files.specs.declared.report.fault.OutputFault.TheVariants.{OutOfMemory};

use crate::memory::{NoMemory, append, append_char, append_number, text_of};
use crate::report::fault::OutputFault;
use crate::report::output::write_out;
use sms_book::{Opening, Statement};
use sms_core::Row;
use sms_message::{
    Attempt, MessageEnd, MessageRefusal, MessageResult, Outcome, SegmentEnd, outcome_name,
    refusal_name,
};
use sms_pdu::{MessageId, Reply};
use std::alloc::Global;
use std::io;

/// What is printed of a message_id: its octets, with `?` for each that isn't a printable ASCII
/// character or is a space.
fn shown_text(alloc: Global, id: &[u8]) -> Result<String, NoMemory>
    ensures { IfOk result (λ shown. string_bytes shown ≡ shown_id id.now) }
{
    let mut shown = String::new(alloc);
    for octet in id {
        if *octet >= 0x21 && *octet <= 0x7E {
            append_char(&mut shown, char::from(*octet))?;
        } else {
            append_char(&mut shown, '?')?;
        }
    }
    Ok(shown)
}

/// Writes a field with each quote twice.
fn write_quoted(text: &mut String, field: &str) -> Result<(), NoMemory>
    ensures { OnOk result (string_bytes text.new ≡ string_bytes text.old ++ quoted field.now) }
{
    for c in field.chars() {
        if c == '"' {
            append(text, "\"\"")?;
        } else {
            append_char(text, c)?;
        }
    }
    Ok(())
}

/// Whether the field has a comma, a quote or a line's end, so that it stands in quotes (RFC 4180 2).
pub fn needs_quotes(field: &[u8]) -> bool
    ensures { result ≡ wants_quotes field.now }
{
    for octet in field {
        if *octet == b',' || *octet == b'"' || *octet == b'\n' || *octet == b'\r' {
            return true;
        }
    }
    false
}

/// A field of CSV: as it stands, or in quotes where it has a comma, a quote or a line's end.
pub fn write_field(text: &mut String, field: &str) -> Result<(), NoMemory>
    ensures { OnOk result (string_bytes text.new ≡ string_bytes text.old ++ field_text field.now) }
{
    if !needs_quotes(field.as_bytes()) {
        return append(text, field);
    }
    append(text, "\"")?;
    write_quoted(text, field)?;
    append(text, "\"")
}

/// A message_id.
fn write_id(alloc: Global, text: &mut String, id: &MessageId) -> Result<(), NoMemory>
    ensures { OnOk result (string_bytes text.new ≡ string_bytes text.old ++ field_text (shown_id id.now)) }
{
    let shown = shown_text(alloc, id.as_slice())?;
    write_field(text, shown.as_str())
}

/// The status and the message_id of the last attempt's reply; both empty where it has none.
fn write_last<S>(alloc: Global, text: &mut String, attempts: &[Attempt<S>]) -> Result<(), NoMemory>
    ensures { OnOk result (string_bytes text.new ≡ string_bytes text.old ++ last_text attempts.now) }
{
    match attempts.last() {
        Some(attempt) => write_answer(alloc, text, &attempt.reply),
        None => append(text, ",\n"),
    }
}

/// The status and the message_id of a reply, and the end of the line.
pub fn write_answer(alloc: Global, text: &mut String, reply: &Option<Reply>) -> Result<(), NoMemory>
    ensures { OnOk result (string_bytes text.new ≡ string_bytes text.old ++ answer_text reply.now) }
{
    match reply {
        None => append(text, ",\n"),
        Some(reply) => {
            append_number(text, "", u64::from(reply.status))?;
            append(text, ",")?;
            write_id(alloc, text, &reply.id)?;
            append(text, "\n")
        }
    }
}

/// What stands before the last reply in a segment's line: the message's index, the segment's number
/// from 1, how often it was tried, and what became of it.
pub fn write_head(
    text: &mut String,
    index: u64,
    part: usize,
    tries: usize,
    outcome: Outcome,
) -> Result<(), NoMemory>
    ensures { OnOk result (string_bytes text.new ≡ string_bytes text.old ++ head_text index part tries outcome) }
{
    let name = outcome_name(outcome);
    append_number(text, "", index)?;
    append_number(text, ",", part as u64)?;
    append_number(text, ",", tries as u64)?;
    append(text, ",")?;
    append(text, name)?;
    append(text, ",")
}

/// The line of the segment of a message with this number, from 1.
fn write_segment<S>(
    alloc: Global,
    text: &mut String,
    index: u64,
    part: usize,
    segment: &SegmentEnd<S>,
) -> Result<(), NoMemory>
    ensures { OnOk result (string_bytes text.new ≡ string_bytes text.old ++ segment_text index part segment.now) }
{
    let attempts = segment.attempts.as_slice();
    write_head(text, index, part, attempts.len(), segment.outcome)?;
    write_last(alloc, text, attempts)
}

/// A line for each segment.
fn write_segments<S>(
    alloc: Global,
    text: &mut String,
    index: u64,
    segments: &[SegmentEnd<S>],
) -> Result<(), NoMemory>
    ensures { OnOk result (string_bytes text.new ≡ string_bytes text.old ++ segment_texts index 1 segments.now) }
{
    for (place, segment) in segments.iter().enumerate() {
        write_segment(alloc, text, index, place + 1, segment)?;
    }
    Ok(())
}

/// The line of a message that was refused as a whole.
pub fn write_refused(text: &mut String, index: u64, refusal: MessageRefusal) -> Result<(), NoMemory>
    ensures { OnOk result (string_bytes text.new ≡ string_bytes text.old ++ refused_text index refusal) }
{
    let name = refusal_name(refusal);
    append_number(text, "", index)?;
    append(text, ",0,0,")?;
    append(text, name)?;
    append(text, ",,\n")
}

/// The lines of a message.
fn write_end<S>(alloc: Global, text: &mut String, end: &MessageEnd<S>) -> Result<(), NoMemory>
    ensures { OnOk result (string_bytes text.new ≡ string_bytes text.old ++ end_text end.now) }
{
    match &end.result {
        MessageResult::Sent(segments) => {
            write_segments(alloc, text, end.index, segments.as_slice())
        }
        MessageResult::Refused(refusal) => write_refused(text, end.index, *refusal),
    }
}

/// The lines of all messages.
fn write_ends<S>(alloc: Global, text: &mut String, ends: &[MessageEnd<S>]) -> Result<(), NoMemory>
    ensures { OnOk result (string_bytes text.new ≡ string_bytes text.old ++ end_texts ends.now) }
{
    for end in ends {
        write_end(alloc, text, end)?;
    }
    Ok(())
}

/// A comma and the amount after it.
fn write_amount(text: &mut String, amount: u64) -> Result<(), NoMemory>
    ensures { OnOk result (string_bytes text.new ≡ string_bytes text.old ++ amount_text amount) }
{
    append_number(text, ",", amount)
}

/// The amounts of a row, and the end of the line.
fn write_amounts(text: &mut String, row: &Row) -> Result<(), NoMemory>
    ensures { OnOk result (string_bytes text.new ≡ string_bytes text.old ++ amounts_text row.now) }
{
    write_amount(text, row.topped)?;
    write_amount(text, row.free)?;
    write_amount(text, row.reserved)?;
    write_amount(text, row.charged)?;
    write_amount(text, row.returned)?;
    append(text, "\n")
}

/// The line of an account in the statement.
fn write_row(text: &mut String, opening: &Opening, row: &Row) -> Result<(), NoMemory>
    ensures { OnOk result (string_bytes text.new ≡ string_bytes text.old ++ row_text opening.now row.now) }
{
    write_field(text, opening.name.as_str())?;
    write_amounts(text, row)
}

/// A line for each account that has a row.
fn write_rows(text: &mut String, openings: &[Opening], rows: &[Row]) -> Result<(), NoMemory>
    ensures { OnOk result (string_bytes text.new ≡ string_bytes text.old ++ row_texts openings.now rows.now) }
{
    for place in 0..openings.len().min(rows.len()) {
        write_row(text, &openings[place], &rows[place])?;
    }
    Ok(())
}

/// The text of a report that has its first line.
pub fn begin_report(alloc: Global) -> Result<String, NoMemory>
    ensures { IfOk result (λ text. string_bytes text ≡ report_header) }
{
    text_of(alloc, "message,part,attempts,outcome,status,id\n")
}

/// The statement: its first line, and a line for each account that has a row.
pub fn write_statement(
    text: &mut String,
    openings: &[Opening],
    rows: &[Row],
) -> Result<(), NoMemory>
    ensures { OnOk result (string_bytes text.new ≡ string_bytes text.old ++ statement_header ++ row_texts openings.now rows.now) }
{
    append(text, "account,topped,free,reserved,charged,returned\n")?;
    write_rows(text, openings, rows)
}

/// What is printed of what became of the messages, and of the accounts.
pub fn report_text<S>(
    alloc: Global,
    openings: &[Opening],
    ends: &[MessageEnd<S>],
    rows: &[Row],
) -> Result<String, NoMemory>
    ensures { IfOk result (λ text. string_bytes text ≡ report_of openings.now ends.now rows.now) }
{
    let mut text = begin_report(alloc)?;
    write_ends(alloc, &mut text, ends)?;
    write_statement(&mut text, openings, rows)?;
    Ok(text)
}

/// Prints what became of the messages, and of the accounts. The text is formed whole before its
/// first octet is written, so nothing is written where memory is refused.
pub fn write_rows_report<S, W: io::Write>(
    alloc: Global,
    openings: &[Opening],
    ends: &[MessageEnd<S>],
    rows: &[Row],
    output: &mut W,
) -> Result<(), OutputFault>
    ensures written { OnOk result (Appends (W.contents output.old) (W.contents output.new) (report_of openings.now ends.now rows.now)) }
    ensures failed { IfErr result (λ fault. (fault ≡ output_failed) ⊎ (fault ≡ OutOfMemory tt)) }

    // Where the output failed, the text was written only in part, and otherwise not at all.
    ensures front { IfErr result (λ fault. fault ≡ output_failed → WritesFront (W.contents output.old) (W.contents output.new) (report_of openings.now ends.now rows.now)) }
    ensures quiet { IfErr result (λ fault. fault ≡ OutOfMemory tt → output.new ≡ output.old) }
{
    let text = report_text(alloc, openings, ends, rows)?;
    write_out(output, text.as_bytes())
}

/// The same of a statement.
pub fn write_report_of<S, W: io::Write>(
    alloc: Global,
    openings: &[Opening],
    ends: &[MessageEnd<S>],
    statement: &Statement,
    output: &mut W,
) -> Result<(), OutputFault>
    ensures written { OnOk result (Appends (W.contents output.old) (W.contents output.new) (report_of openings.now ends.now statement.now)) }
    ensures failed { IfErr result (λ fault. (fault ≡ output_failed) ⊎ (fault ≡ OutOfMemory tt)) }
    ensures front { IfErr result (λ fault. fault ≡ output_failed → WritesFront (W.contents output.old) (W.contents output.new) (report_of openings.now ends.now statement.now)) }
    ensures quiet { IfErr result (λ fault. fault ≡ OutOfMemory tt → output.new ≡ output.old) }
{
    write_rows_report(alloc, openings, ends, statement.rows(), output)
}
