//! The messages file and the accounts file of what is left, as the program reads them.

ghost use Rattle.std.specs.Prelude.{◌≡◌, ◌++◌, Bool, IfOk, OnOk, decimal, drop, map, option_copied, slice_get};
ghost use Rattle.csv.specs.Records.{fields_of};
ghost use Rattle.sms_files.specs.Report.{field_text, quoted};
ghost use Rattle.sms_journal.specs.RecordLines.{amount_in};
ghost use Rattle.sms_journal.specs.Rest.{account_text, account_texts, credits_text, field_or, left_text, left_texts, line_end, next_text, record_text, rest_accounts_of, rest_header, rest_of, rows_in};

use crate::bill::ref_of;
use crate::rest::left::left_by;
use crate::rest::report_line::free_of;
use csv::ByteRecord;
use sms_book::Opening;
use sms_files::memory::{self, NoMemory};
use sms_files::needs_quotes;
use std::alloc::Global;

/// Adds octets.
fn push_all(text: &mut Vec<u8>, octets: &[u8]) -> Result<(), NoMemory>
    ensures { OnOk result (text.new.items ≡ text.old.items ++ octets.now) }
{
    memory::append_octets(text, octets)
}

/// Adds a field with each quote twice.
fn push_quoted(text: &mut Vec<u8>, field: &[u8]) -> Result<(), NoMemory>
    ensures { OnOk result (text.new.items ≡ text.old.items ++ quoted field.now) }
{
    for octet in field {
        if *octet == b'"' {
            push_all(text, b"\"\"")?;
        } else {
            memory::push(text, *octet)?;
        }
    }
    Ok(())
}

/// Adds a field of CSV.
pub(crate) fn push_field(text: &mut Vec<u8>, field: &[u8]) -> Result<(), NoMemory>
    ensures { OnOk result (text.new.items ≡ text.old.items ++ field_text field.now) }
{
    if !needs_quotes(field) {
        return push_all(text, field);
    }
    push_all(text, b"\"")?;
    push_quoted(text, field)?;
    push_all(text, b"\"")
}

/// Adds the record's field at a place.
pub(crate) fn push_field_at(
    text: &mut Vec<u8>,
    record: &ByteRecord,
    place: usize,
) -> Result<(), NoMemory>
    ensures { OnOk result (text.new.items ≡ text.old.items ++ field_text (field_or (fields_of «record».now) place)) }
{
    match record.get(place) {
        Some(field) => push_field(text, field),
        None => push_field(text, b""),
    }
}

/// Adds a comma and the field after it.
pub(crate) fn push_next(
    text: &mut Vec<u8>,
    record: &ByteRecord,
    place: usize,
) -> Result<(), NoMemory>
    ensures { OnOk result (text.new.items ≡ text.old.items ++ next_text (fields_of «record».now) place) }
{
    push_all(text, b",")?;
    push_field_at(text, record, place)
}

/// Adds the end of the line of the message with this index, with its reference before it, where messages have references.
fn push_end(text: &mut Vec<u8>, refs: Option<&[String]>, index: usize) -> Result<(), NoMemory>
    ensures { OnOk result (text.new.items ≡ text.old.items ++ line_end (option_copied refs.entry) index) }
{
    match refs {
        Some(refs) => {
            push_all(text, b",")?;
            push_field(text, ref_of(refs, index as u64).as_bytes())?;
            push_all(text, b"\n")
        }
        None => push_all(text, b"\n"),
    }
}

/// Adds the record of the message with this index.
fn push_record(
    text: &mut Vec<u8>,
    refs: Option<&[String]>,
    index: usize,
    record: &ByteRecord,
) -> Result<(), NoMemory>
    ensures { OnOk result (text.new.items ≡ text.old.items ++ record_text (option_copied refs.entry) index (fields_of «record».now)) }
{
    push_field_at(text, record, 0)?;
    push_next(text, record, 1)?;
    push_next(text, record, 2)?;
    push_next(text, record, 3)?;
    push_end(text, refs, index)
}

/// Adds the record of the message with this index where the message is left.
fn push_left(
    text: &mut Vec<u8>,
    refs: Option<&[String]>,
    index: usize,
    left: bool,
    record: &ByteRecord,
) -> Result<(), NoMemory>
    ensures { OnOk result (text.new.items ≡ text.old.items ++ left_text (option_copied refs.entry) index left (fields_of «record».now)) }
{
    if left {
        push_record(text, refs, index, record)
    } else {
        Ok(())
    }
}

/// The flag at a place.
fn flag_at(left: &[bool], place: usize) -> bool
    ensures { (flag : Bool) → slice_get left.now place ≡ Some flag → result ≡ flag }
{
    match left.get(place) {
        Some(flag) => *flag,
        None => false,
    }
}

/// Adds the records of those messages that are left.
fn push_all_left(
    alloc: Global,
    text: &mut Vec<u8>,
    refs: Option<&[String]>,
    report: &[ByteRecord],
    messages: &[ByteRecord],
) -> Result<(), NoMemory>
    ensures { OnOk result (text.new.items ≡ text.old.items ++ left_texts (option_copied refs.entry) (map fields_of report.now) 0 (map fields_of messages.now)) }
{
    let left = left_by(alloc, messages.len(), report)?;
    for place in 0..messages.len() {
        let flag = flag_at(left.as_slice(), place);
        push_left(text, refs, place, flag, &messages[place])?;
    }
    Ok(())
}

/// The records after the first.
pub(crate) fn behind_first(records: &[ByteRecord]) -> &[ByteRecord]
    ensures { map fields_of result.now ≡ drop 1 (map fields_of records.now) }
{
    if records.is_empty() {
        records
    } else {
        &records[1..]
    }
}

/// The header of the messages file of what is left.
fn header_for(refs: Option<&[String]>) -> &'static str
    ensures { result.now ≡ rest_header (option_copied refs.entry) }
{
    match refs {
        Some(_) => "account,source,destination,text,ref\n",
        None => "account,source,destination,text\n",
    }
}

/// The messages file of the messages that are left.
pub fn rest_text(
    alloc: Global,
    refs: Option<&[String]>,
    report: &[ByteRecord],
    messages: &[ByteRecord],
) -> Result<Vec<u8>, NoMemory>
    ensures { IfOk result (λ text. text.items ≡ rest_of (option_copied refs.entry) (map fields_of report.now) (map fields_of messages.now)) }
{
    let mut text = Vec::new(alloc);
    push_all(&mut text, header_for(refs).as_bytes())?;
    push_all_left(alloc, &mut text, refs, report, behind_first(messages))?;
    Ok(text)
}

/// Adds a number in decimal digits.
pub(crate) fn push_number(alloc: Global, text: &mut Vec<u8>, number: u64) -> Result<(), NoMemory>
    ensures { OnOk result (text.new.items ≡ text.old.items ++ decimal number) }
{
    let mut digits = String::new(alloc);
    memory::append_number(&mut digits, "", number)?;
    push_all(text, digits.as_bytes())
}

/// Adds the free credits of an account's row.
fn push_free(alloc: Global, text: &mut Vec<u8>, row: &ByteRecord) -> Result<(), NoMemory>
    ensures { OnOk result (text.new.items ≡ text.old.items ++ credits_text (amount_in (fields_of «row».now) 2)) }
{
    match free_of(row) {
        Some(credits) => push_number(alloc, text, credits),
        None => Ok(()),
    }
}

/// Adds the record of an account, by its row.
fn push_account(
    alloc: Global,
    text: &mut Vec<u8>,
    opening: &Opening,
    row: &ByteRecord,
) -> Result<(), NoMemory>
    ensures { OnOk result (text.new.items ≡ text.old.items ++ account_text opening.now (fields_of «row».now)) }
{
    push_field(text, opening.name.as_bytes())?;
    push_all(text, b",")?;
    push_free(alloc, text, row)?;
    push_all(text, b"\n")
}

/// Adds the records of all accounts that have a row.
fn push_accounts(
    alloc: Global,
    text: &mut Vec<u8>,
    openings: &[Opening],
    rows: &[ByteRecord],
) -> Result<(), NoMemory>
    ensures { OnOk result (text.new.items ≡ text.old.items ++ account_texts openings.now (map fields_of rows.now)) }
{
    for place in 0..openings.len().min(rows.len()) {
        push_account(alloc, text, &openings[place], &rows[place])?;
    }
    Ok(())
}

/// The rows of `accounts` accounts at a report's end.
fn rows_of(report: &[ByteRecord], accounts: usize) -> &[ByteRecord]
    ensures { map fields_of result.now ≡ rows_in accounts (map fields_of report.now) }
{
    let lines = report.len().saturating_sub(accounts);
    &report[lines..]
}

/// The accounts file for them.
pub fn accounts_text(
    alloc: Global,
    openings: &[Opening],
    report: &[ByteRecord],
) -> Result<Vec<u8>, NoMemory>
    ensures { IfOk result (λ text. text.items ≡ rest_accounts_of openings.now (map fields_of report.now)) }
{
    let mut text = Vec::new(alloc);
    push_all(&mut text, b"account,credits\n")?;
    push_accounts(alloc, &mut text, openings, rows_of(report, openings.len()))?;
    Ok(text)
}
