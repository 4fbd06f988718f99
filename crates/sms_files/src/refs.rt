//! A messages file with a fifth column, `ref`: the sender's own reference of each message. All that is sent, kept
//! and compared is of the file without that column, so it is taken off where the file is read.

ghost use Rattle.std.specs.Prelude.{◌≡◌, ◌==◌, ◌&&◌, ◌++◌, flat_map, is_some, length, map, IfErr, IfOk, OnOk, string_bytes};
ghost use Rattle.csv.specs.Records.{fields_of};
ghost use Rattle.sms_files.specs.Fields.{records_of, text_in};
ghost use Rattle.sms_files.specs.Messages.{is_header as heads_messages};
ghost use Rattle.sms_files.specs.Records.{TellsRecords};
ghost use Rattle.sms_files.specs.Refs.{AreRefFieldsOf, HasRefFields, IsTakenFrom, is_refs_header as heads_refs, plain_line, plain_text as text_without, record_of_row, refs_fault, refs_flaw};
ghost use Rattle.sms_files.specs.declared.fault.Source.TheVariants.{Messages};

use crate::fault::{InputFault, Source};
use crate::flaw::Flaw;
use crate::memory::{NoMemory, append, list_for, push, text_of};
use crate::report::write_field;
use crate::tables::{
    FromRecord, Headed, MOST_MESSAGES, MessageText, RowFault, is_field, read_rows, text_at,
};
use csv::ByteRecord;
use std::alloc::Global;

/// How many fields each record of the file has.
const FIELDS: usize = 5;

/// The fields of a message's record and its reference, as they stand in the file.
#[derive(Clone, Copy, Debug)]
pub struct RefFields<'a> {
    /// The name of the account that pays for it.
    pub account: &'a str,
    /// The address that it comes from.
    pub source: &'a str,
    /// The address that it goes to.
    pub destination: &'a str,
    /// What it says.
    pub text: &'a str,
    /// The sender's own reference of it.
    pub reference: &'a str,
}

/// What a message's record says, and its reference.
#[derive(Debug, Drop)]
pub struct RefRow {
    /// The name of the account that pays for it.
    pub account: String,
    /// The address that it comes from.
    pub source: String,
    /// The address that it goes to.
    pub destination: String,
    /// What it says.
    pub text: String,
    /// The sender's own reference of it.
    pub reference: String,
}

impl FromRecord for RefRow {
    ghost flaw = { refs_flaw };

    ghost Says = { HasRefFields };

    fn from_record(alloc: Global, record: &ByteRecord) -> Result<RefRow, RowFault> {
        match ref_fields(record) {
            Err(flaw) => Err(RowFault::Flawed(flaw)),
            Ok(fields) => {
                let account = text_of(alloc, fields.account)?;
                let source = text_of(alloc, fields.source)?;
                let destination = text_of(alloc, fields.destination)?;
                let text = text_of(alloc, fields.text)?;
                let reference = text_of(alloc, fields.reference)?;
                Ok(RefRow {
                    account,
                    source,
                    destination,
                    text,
                    reference,
                })
            }
        }
    }
}

impl Headed for RefRow {
    ghost is_header = { heads_refs };

    fn is_header(record: &ByteRecord) -> bool {
        record.len() == FIELDS
            && is_field(record, 0, b"account")
            && is_field(record, 1, b"source")
            && is_field(record, 2, b"destination")
            && is_field(record, 3, b"text")
            && is_field(record, 4, b"ref")
    }
}

/// Whether a record is the header of a messages file with references.
pub fn is_refs_header(record: &ByteRecord) -> bool
    ensures { result ≡ heads_refs (fields_of «record».now) }
{
    RefRow::is_header(record)
}

/// Whether a record is the header of a messages file without them.
pub fn is_plain_header(record: &ByteRecord) -> bool
    ensures { result ≡ heads_messages (fields_of «record».now) }
{
    MessageText::is_header(record)
}

/// Whether a record has as many fields as a message with its reference, and a text in the last.
pub fn has_reference(record: &ByteRecord) -> bool
    ensures { result ≡ (length (fields_of «record».now) == 5 && is_some (text_in (fields_of «record».now) 4)) }
{
    if record.len() != FIELDS {
        return false;
    }
    match text_at(record, 4) {
        Ok(_reference) => true,
        Err(_flaw) => false,
    }
}

/// The fields of a message's record with its reference, which are five of text; or its flaw.
fn ref_fields<'a>(record: &'a ByteRecord) -> Result<RefFields<'a>, Flaw>
    ensures { AreRefFieldsOf (fields_of «record».now) result }
{
    if record.len() != FIELDS {
        return Err(Flaw::Fields(record.len()));
    }
    let account = match text_at(record, 0) {
        Ok(account) => account,
        Err(flaw) => return Err(flaw),
    };
    let source = match text_at(record, 1) {
        Ok(source) => source,
        Err(flaw) => return Err(flaw),
    };
    let destination = match text_at(record, 2) {
        Ok(destination) => destination,
        Err(flaw) => return Err(flaw),
    };
    let text = match text_at(record, 3) {
        Ok(text) => text,
        Err(flaw) => return Err(flaw),
    };
    let reference = match text_at(record, 4) {
        Ok(reference) => reference,
        Err(flaw) => return Err(flaw),
    };
    Ok(RefFields {
        account,
        source,
        destination,
        text,
        reference,
    })
}

/// A messages file that had a fifth column.
#[derive(Debug, Drop)]
pub struct TakenRefs {
    /// The file without that column. Each field is in quotes where it has to be, and each line ends in a line feed.
    pub plain: Vec<u8>,
    /// What stood in the column: the reference of each message, by its index.
    pub refs: Vec<String>,
}

/// Takes the fifth column off a messages file. The file is read to its end, to its first faulty record, or to one
/// past the 100,000 messages that it may have; the fault names that record of the file as it was given.
pub fn take_refs(alloc: Global, octets: &[u8]) -> Result<TakenRefs, InputFault>
    ensures taken { IfOk result (IsTakenFrom octets.now) }
    ensures faulty { IfErr result (TellsRecords Messages (refs_fault (records_of octets.now))) }
{
    let rows: Vec<RefRow> = read_rows(alloc, octets, Source::Messages, MOST_MESSAGES)?;
    let plain = plain_of(alloc, rows.as_slice())?;
    let refs = refs_of(alloc, rows)?;
    Ok(TakenRefs {
        plain: plain.into_bytes(),
        refs,
    })
}

/// The messages file of these rows without their references.
fn plain_of(alloc: Global, rows: &[RefRow]) -> Result<String, NoMemory>
    ensures { IfOk result (λ text. string_bytes text ≡ text_without (map record_of_row rows.now)) }
{
    let mut text = text_of(alloc, "account,source,destination,text\n")?;
    write_rows(&mut text, rows)?;
    Ok(text)
}

/// The lines of these rows.
fn write_rows(text: &mut String, rows: &[RefRow]) -> Result<(), NoMemory>
    ensures { OnOk result (string_bytes text.new ≡ string_bytes text.old ++ flat_map (λ row. plain_line (record_of_row row)) rows.now) }
{
    for row in rows {
        write_row(text, row)?;
    }
    Ok(())
}

/// The line of a row.
fn write_row(text: &mut String, row: &RefRow) -> Result<(), NoMemory>
    ensures { OnOk result (string_bytes text.new ≡ string_bytes text.old ++ plain_line (record_of_row row.now)) }
{
    write_field(text, row.account.as_str())?;
    append(text, ",")?;
    write_field(text, row.source.as_str())?;
    append(text, ",")?;
    write_field(text, row.destination.as_str())?;
    append(text, ",")?;
    write_field(text, row.text.as_str())?;
    append(text, "\n")
}

/// The references of these rows.
fn refs_of(alloc: Global, rows: Vec<RefRow>) -> Result<Vec<String>, NoMemory>
    ensures { IfOk result (λ refs. map string_bytes refs.items ≡ map (λ row. string_bytes row.reference) rows.items) }
{
    let mut refs = list_for(alloc, rows.as_slice())?;
    for row in rows {
        push(&mut refs, reference_of(row))?;
    }
    Ok(refs)
}

/// The reference of a row.
fn reference_of(row: RefRow) -> String
    ensures { result ≡ row.reference }
{
    row.reference
}
