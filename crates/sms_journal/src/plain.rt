//! Files as they are read where messages have references: a messages file of five columns, `ref` the last of them, is
//! read without that column, and each other file as it stands. What may not stand in a messages file with
//! references may not stand in what is left of it either, in the same record.

ghost use Rattle.std.specs.Prelude.{◌≡◌, ◌++◌, ◌-◌, ◌∷◌, ◌<◌, ◌+◌, ◌==◌, ◌&&◌, [], IfOk, OnOk, codes, length, map};
ghost use Rattle.csv.specs.Records.{fields_of};
ghost use Rattle.sms_files.specs.Fields.{records_of};
ghost use Rattle.sms_journal.specs.PlainFiles.{IsPlainBy, IsPlainOf, heading_of as heading_in, line_with, nexts_from, plain_lines, width_of as width_in};
ghost use Rattle.sms_journal.specs.declared.plain.Heading.TheVariants.{WithRefs};

pub mod laws;

use crate::rest::{behind_first, push_field_at, push_next, read_all, records_in};
use csv::ByteRecord;
use sms_files::ends_quoted;
use sms_files::memory::{self, NoMemory};
use sms_files::refs::{has_reference, is_plain_header, is_refs_header};
use std::alloc::Global;

/// How many fields a message has.
const FIELDS: usize = 4;

/// What the first record of a file is.
#[derive(Clone, Copy, Debug, PartialEq, Eq)]
pub enum Heading {
    /// The header of a messages file with references.
    WithRefs,
    /// The header of one without.
    Plain,
    /// Another record, or none.
    Other,
}

/// What this first record of a file is.
fn heading_by(record: &ByteRecord) -> Heading
    ensures { result ≡ heading_in (fields_of «record».now ∷ []) }
{
    if is_refs_header(record) {
        Heading::WithRefs
    } else if is_plain_header(record) {
        Heading::Plain
    } else {
        Heading::Other
    }
}

/// What the first record of a file is. No more of it is read.
fn heading_of(alloc: Global, octets: &[u8]) -> Result<Heading, NoMemory>
    ensures { IfOk result (λ heading. heading ≡ heading_in (records_of octets.now)) }
{
    let mut reader = read_all(alloc, octets);
    let mut record = ByteRecord::new(alloc);
    if memory::next_of(&mut reader, &mut record)? {
        Ok(heading_by(&record))
    } else {
        Ok(Heading::Other)
    }
}

/// How many fields are left of a record, whose quote is left open or not.
fn width_of(record: &ByteRecord, quoted: bool) -> usize
    ensures { result ≡ width_in quoted (fields_of «record».now) }
{
    if has_reference(record) && !quoted {
        FIELDS
    } else if record.len() <= FIELDS {
        FIELDS - 1
    } else {
        record.len()
    }
}

/// Adds the fields of a record up to this number, without the first.
fn push_nexts(text: &mut Vec<u8>, record: &ByteRecord, width: usize) -> Result<(), NoMemory>
    ensures { OnOk result (text.new.items ≡ text.old.items ++ nexts_from (fields_of «record».now) 1 (width - 1)) }
{
    for place in 1..width {
        push_next(text, record, place)?;
    }
    Ok(())
}

/// Adds so many first fields of a record as a line.
fn push_line(text: &mut Vec<u8>, record: &ByteRecord, width: usize) -> Result<(), NoMemory>
    ensures { OnOk result (text.new.items ≡ text.old.items ++ line_with width (fields_of «record».now)) }
{
    push_field_at(text, record, 0)?;
    push_nexts(text, record, width)?;
    memory::append_octets(text, b"\n")
}

/// Whether the quote of the record at a place is left open, where that of the last is or isn't.
fn is_open_at(rows: &[ByteRecord], place: usize, quoted: bool) -> bool
    requires { place < length rows.now }
    ensures { result ≡ (quoted && (place + 1 == length rows.now)) }
{
    quoted && place + 1 == rows.len()
}

/// Adds what is left of the records behind a header; the quote of the last is left open or not.
fn push_lines(text: &mut Vec<u8>, rows: &[ByteRecord], quoted: bool) -> Result<(), NoMemory>
    ensures { OnOk result (text.new.items ≡ text.old.items ++ plain_lines quoted (map fields_of rows.now)) }
{
    for place in 0..rows.len() {
        let record = &rows[place];
        let width = width_of(record, is_open_at(rows, place, quoted));
        push_line(text, record, width)?;
    }
    Ok(())
}

/// What is left of a messages file with references.
fn without_refs(alloc: Global, octets: &[u8]) -> Result<Vec<u8>, NoMemory>
    ensures { IfOk result (λ plain. IsPlainBy WithRefs octets.now plain.items) }
{
    let records = records_in(alloc, octets)?;
    let mut text = Vec::new(alloc);
    memory::append_octets(&mut text, b"account,source,destination,text\n")?;
    let rows = behind_first(records.as_slice());
    push_lines(&mut text, rows, ends_quoted(octets))?;
    Ok(text)
}

/// A header of references alone.
fn refs_header(alloc: Global) -> Result<Vec<u8>, NoMemory>
    ensures { IfOk result (λ text. text.items ≡ codes "account,source,destination,text,ref\n") }
{
    let mut text = Vec::new(alloc);
    memory::append_octets(&mut text, b"account,source,destination,text,ref\n")?;
    Ok(text)
}

/// What is left of a file.
pub fn plain_of(alloc: Global, octets: Vec<u8>) -> Result<Vec<u8>, NoMemory>
    ensures { IfOk result (λ plain. IsPlainOf octets.items plain.items) }
{
    match heading_of(alloc, octets.as_slice())? {
        Heading::WithRefs => without_refs(alloc, octets.as_slice()),
        Heading::Plain => refs_header(alloc),
        Heading::Other => Ok(octets),
    }
}
