//! What a fault says of a record: its flaw, its line, and the beginning of the value at fault.

ghost use Rattle.std.specs.Prelude.{◌≡◌};
ghost use Rattle.sms_files.specs.Records.{IsBadRecord};

use crate::fault::{InputFault, Source};
use crate::flaw::Flaw;
use crate::tables::csv_file::CsvFile;
use csv::{ByteRecord, Reader};
use std::alloc::Global;
use std::io::Read;

/// What is wrong with a record, and where it stands in its file.
#[derive(Debug, Drop)]
pub struct RecordFlaw {
    /// What is wrong with it.
    pub flaw: Flaw,
    /// The line on which it begins, from 1; of an open quote, the line of the quote. None where only all
    /// rates of a tariff together show the flaw.
    pub line: Option<u64>,
    /// The first octets of the field at fault, at most 160, and so 40 characters of a longer text. Where no
    /// single field is at fault: of the record, its fields joined by commas. They may be no UTF-8. Empty
    /// where there is no record, or no memory for them.
    pub value: Vec<u8>,
}

/// How many octets of a value are kept at the most: no fewer than 40 characters.
const MOST_KEPT: usize = 160;

/// Appends an octet to what is kept of a value, if there is room and memory for it.
pub fn keep_octet(value: &mut Vec<u8>, octet: u8) {
    if value.len() < MOST_KEPT {
        match value.push(octet) {
            Ok(()) => {}
            Err(_no_memory) => {}
        }
    }
}

/// Appends octets in the same way.
pub fn keep_octets(value: &mut Vec<u8>, octets: &[u8]) {
    for octet in octets {
        keep_octet(value, *octet);
    }
}

/// The beginning of the field at a place, from 0.
fn field_kept(alloc: Global, record: &ByteRecord, place: usize) -> Vec<u8> {
    let mut value = Vec::new(alloc);
    match record.get(place) {
        Some(field) => keep_octets(&mut value, field),
        None => {}
    }
    value
}

/// The beginning of a record, its fields joined by commas.
fn record_kept(alloc: Global, record: &ByteRecord) -> Vec<u8> {
    let mut value = Vec::new(alloc);
    for place in 0..record.len() {
        if place > 0 {
            keep_octet(&mut value, b',');
        }
        match record.get(place) {
            Some(field) => keep_octets(&mut value, field),
            None => {}
        }
    }
    value
}

/// The beginning of what is at fault in a record with this flaw.
fn value_kept(alloc: Global, record: &ByteRecord, flaw: Flaw) -> Vec<u8> {
    match flaw {
        Flaw::NotText(number) | Flaw::NotNumber(number) | Flaw::NotDigits(number) => {
            field_kept(alloc, record, number.saturating_sub(1))
        }
        Flaw::Word | Flaw::Taken(_) => field_kept(alloc, record, 0),
        Flaw::Missing => Vec::new(alloc),
        Flaw::Header | Flaw::OneTooMany | Flaw::Fields(_) | Flaw::OpenQuote => {
            record_kept(alloc, record)
        }
    }
}

/// How many line ends stand within the fields of a record.
fn lines_within(record: &ByteRecord) -> u64 {
    let mut lines = 0u64;
    for place in 0..record.len() {
        match record.get(place) {
            Some(field) => lines = lines.saturating_add(lines_in(field)),
            None => {}
        }
    }
    lines
}

/// How many line ends there are.
fn lines_in(octets: &[u8]) -> u64 {
    let mut lines = 0u64;
    for octet in octets {
        if *octet == b'\n' {
            lines = lines.saturating_add(1);
        }
    }
    lines
}

/// Whether the lines of a file end in a carriage return and a line feed, by where a reader stands that has
/// read the first record. It ends a record at the carriage return, and passes the line feed with the next.
pub fn has_returns<R: Read>(reader: &Reader<CsvFile<R>>) -> bool {
    reader.position().line() == 1
}

/// The line on which the record begins that a reader has just read.
pub fn line_of<R: Read>(reader: &Reader<CsvFile<R>>, record: &ByteRecord, returns: bool) -> u64 {
    let after = reader
        .position()
        .line()
        .saturating_sub(lines_within(record));
    if returns {
        return after;
    }
    let before = match record.position() {
        Some(position) => position.line(),
        None => 1,
    };
    // Empty lines before the record count as read with it, and so does its own line end. The last record of
    // a file may have none.
    let read = reader.position().byte();
    if reader.get_ref().stops_within_line(read) {
        return after;
    }
    before.max(after.saturating_sub(1))
}

/// The fault of a record with this flaw that begins on this line.
pub fn bad_record(
    alloc: Global,
    source: Source,
    place: usize,
    flaw: Flaw,
    record: &ByteRecord,
    line: u64,
) -> InputFault
    ensures { IsBadRecord source place flaw result }
{
    let value = value_kept(alloc, record, flaw);
    let line = Some(line);
    InputFault::BadRecord(source, place, RecordFlaw { flaw, line, value })
}

/// The fault of a record that a file lacks.
pub fn missing_record(alloc: Global, source: Source, place: usize) -> InputFault
    ensures { IsBadRecord source place Flaw.Missing result }
{
    let value = Vec::new(alloc);
    let (flaw, line) = (Flaw::Missing, None);
    InputFault::BadRecord(source, place, RecordFlaw { flaw, line, value })
}
