//! The detail lines of records.

use crate::faults::context::{JobNames, text_of};
use crate::faults::details::short::ShortOctets;
use crate::faults::details::shown::Shown;
use sms_files::{Flaw, RecordFlaw, Source};
use std::alloc::AllocError;
use std::fmt::Write as _;

/// What the first record of a source should be.
fn first_text(source: Source) -> &'static str {
    match source {
        Source::Schedule => "world,ACCOUNTS,LIMIT,ATTEMPTS, of 1 to 64, 1 to 64 and 1 to 10",
        Source::Messages => "account,source,destination,text",
        Source::Accounts => "account,credits",
        Source::Tariff => "prefix,credits",
    }
}

/// What each later record of a source should be.
fn later_text(source: Source) -> &'static str {
    match source {
        Source::Schedule => {
            "one of 1000000 events at the most: topup,ACCOUNT,AMOUNT or reserve,REQUEST,ACCOUNT,COST or claim,WORKER,SLOT or post,WORKER,SLOT,REQUEST or respond,NUMBER,STATUS,NACK or settle,WORKER,SLOT or expire,WORKER,SLOT or discard,REQUEST or release,WORKER,SLOT"
        }
        Source::Messages =>
            "one of 100000 messages at the most: ACCOUNT,SOURCE,DESTINATION,TEXT in UTF-8",
        Source::Accounts => {
            "one of 1 to 64 accounts: a name that none before it has, and 0 to 1099511627776 credits"
        }
        Source::Tariff => {
            "one of 1000 rates at the most: a prefix of 0 to 20 digits that none before it has, and 1 to 1000 credits"
        }
    }
}

/// What the record of a source should be, where it stands at this place, from 1.
fn record_text(source: Source, place: usize) -> &'static str {
    if place <= 1 {
        first_text(source)
    } else {
        later_text(source)
    }
}

/// The name of a field of a source, by its number, from 1; none where it has none.
fn field_name(source: Source, number: usize) -> Option<&'static str> {
    match (source, number) {
        (Source::Messages, 1) | (Source::Accounts, 1) => Some("account"),
        (Source::Messages, 2) => Some("source"),
        (Source::Messages, 3) => Some("destination"),
        (Source::Messages, 4) => Some("text"),
        (Source::Accounts, 2) | (Source::Tariff, 2) => Some("credits"),
        (Source::Tariff, 1) => Some("prefix"),
        _ => None,
    }
}

/// The numbers that a field of a source may be.
fn number_text(source: Source) -> &'static str {
    match source {
        Source::Accounts => "a whole number from 0 to 1099511627776",
        Source::Tariff => "a whole number from 1 to 1000",
        Source::Schedule | Source::Messages => "no such number may stand here",
    }
}

/// Writes where a record stands: its file, and its line where that is known.
fn write_place(
    text: &mut String,
    names: &JobNames,
    source: Source,
    line: Option<u64>,
) -> Result<(), AllocError> {
    match names.of_source(source) {
        Some(name) => {
            let name = Shown(name);
            write!(text, "{name}")?;
        }
        None => text.push_str("standard input")?,
    }
    match line {
        Some(line) => write!(text, " line {line}"),
        None => Ok(()),
    }
}

/// Writes a field by its name and its value, and what it should be.
fn write_field(
    text: &mut String,
    source: Source,
    number: usize,
    value: &[u8],
    wanted: &str,
) -> Result<(), AllocError> {
    let value = ShortOctets(value);
    match field_name(source, number) {
        Some(name) => write!(text, ", {name} \"{value}\": {wanted}"),
        None => write!(text, ", field {number} \"{value}\": {wanted}"),
    }
}

/// Writes that an earlier record has the same first field.
fn write_taken(
    text: &mut String,
    source: Source,
    earlier: usize,
    value: &[u8],
) -> Result<(), AllocError> {
    write_field(text, source, 1, value, "record ")?;
    write!(text, "{earlier} has it, too")
}

/// Writes what a record should be, after a line that has said what it is.
fn write_wanted(text: &mut String, source: Source, place: usize) -> Result<(), AllocError> {
    let wanted = record_text(source, place);
    write!(text, "\nit should be {wanted}")
}

/// Whether octets begin as a text in UTF-16 does.
fn is_utf16(octets: &[u8]) -> bool {
    octets.starts_with(b"\xff\xfe") || octets.starts_with(b"\xfe\xff")
}

/// Whether the fields of a record seem to be separated by semicolons or tabs.
fn has_other_separators(octets: &[u8]) -> bool {
    !octets.contains(&b',') && (octets.contains(&b';') || octets.contains(&b'\t'))
}

/// Writes what stands in place of a header, and what that may come from.
fn write_header(text: &mut String, source: Source, value: &[u8]) -> Result<(), AllocError> {
    let header = ShortOctets(value);
    write!(text, ": it is \"{header}\"")?;
    write_wanted(text, source, 1)?;
    if is_utf16(value) {
        return text.push_str("\nit is UTF-16: save it as UTF-8");
    }
    if has_other_separators(value) {
        return text.push_str("\nfields are separated by commas");
    }
    Ok(())
}

/// Writes how many fields a record has, and what it should be.
fn write_width(
    text: &mut String,
    source: Source,
    place: usize,
    fields: usize,
    value: &[u8],
) -> Result<(), AllocError> {
    let record = ShortOctets(value);
    write!(text, ": it has {fields} fields: \"{record}\"")?;
    write_wanted(text, source, place)
}

/// Writes that no record begins as one does, and what it should be.
fn write_word(
    text: &mut String,
    source: Source,
    place: usize,
    value: &[u8],
) -> Result<(), AllocError> {
    write_field(text, source, 1, value, "no record begins so")?;
    write_wanted(text, source, place)
}

/// Writes what is wrong with a record, and what it should be where that doesn't say it.
fn write_flaw(
    text: &mut String,
    source: Source,
    place: usize,
    record: &RecordFlaw,
) -> Result<(), AllocError> {
    let value = record.value.as_slice();
    match record.flaw {
        Flaw::Missing => {
            text.push_str(": there is no such record")?;
            write_wanted(text, source, place)
        }
        Flaw::Header => write_header(text, source, value),
        Flaw::OneTooMany => {
            text.push_str(": it is one too many")?;
            write_wanted(text, source, place)
        }
        Flaw::Fields(fields) => write_width(text, source, place, fields, value),
        Flaw::NotText(number) => write_field(text, source, number, value, "it is no UTF-8"),
        Flaw::NotNumber(number) => { write_field(text, source, number, value, number_text(source)) }
        Flaw::NotDigits(number) => {
            write_field(text, source, number, value, "it should be 0 to 20 digits")
        }
        Flaw::Word => write_word(text, source, place, value),
        Flaw::Taken(earlier) => write_taken(text, source, earlier, value),
        Flaw::OpenQuote => {
            text.push_str(": its quote is open: it goes on to the end of the file")
        }
    }
}

/// Writes where the record of a source stands, at this place, from 1, and what is wrong with it.
pub(crate) fn write_record(
    text: &mut String,
    names: &JobNames,
    source: Source,
    place: usize,
    record: &RecordFlaw,
) -> Result<(), AllocError> {
    write_place(text, names, source, record.line)?;
    write_flaw(text, source, place, record)
}

/// Writes the name of a file before what is wrong in it; nothing where the name isn't known.
fn write_name(text: &mut String, name: &Option<String>) -> Result<(), AllocError> {
    match text_of(name) {
        Some(name) => {
            let name = Shown(name);
            write!(text, "{name}: ")
        }
        None => Ok(()),
    }
}

/// Writes what the record of a journal should be.
pub(crate) fn write_note(
    text: &mut String,
    name: &Option<String>,
    place: usize,
) -> Result<(), AllocError> {
    write_name(text, name)?;
    text.push_str(if place <= 1 {
        "it should be journal,1 and the SHA-256 digests of this config and its files"
    } else {
        "it should be what a run of this config and its files can have noted there"
    })
}

/// Writes what the record of a report should be.
pub(crate) fn write_report_record(
    text: &mut String,
    name: &Option<String>,
    place: usize,
) -> Result<(), AllocError> {
    write_name(text, name)?;
    text.push_str(if place <= 1 {
        "it should be message,part,attempts,outcome,status,id"
    } else {
        "it should be what a run of this config and its files can have reported there"
    })
}
