//! Messages files: a header, and a record for each message.

ghost use Rattle.std.specs.Prelude.{IfErr, IfOk, IfSome};
ghost use Rattle.csv.specs.Records.{fields_of};
ghost use Rattle.sms_files.specs.Fields.{records_of};
ghost use Rattle.sms_files.specs.Messages.{AreFieldsOf, AreTexts, HasText, is_header as header_is, message_flaw, messages_fault};
ghost use Rattle.sms_files.specs.Records.{TellsRecords};
ghost use Rattle.sms_files.specs.declared.fault.Source.TheVariants.{Messages};

use crate::fault::{InputFault, Source};
use crate::flaw::Flaw;
use crate::memory::text_of;
use crate::tables::field::text_at;
use crate::tables::records::{FromRecord, RowFault};
use crate::tables::rows::{Headed, is_field, read_rows};
use csv::ByteRecord;
use std::alloc::Global;
use std::io::Read;

/// How many messages a file has at the most.
pub const MOST_MESSAGES: usize = 100_000;

/// How many fields each record of the file has.
const FIELDS: usize = 4;

/// The fields of a message's record, as they stand in the file.
#[derive(Clone, Copy, Debug)]
pub struct MessageFields<'a> {
    /// The name of the account that pays for it.
    pub account: &'a str,
    /// The address that it comes from.
    pub source: &'a str,
    /// The address that it goes to.
    pub destination: &'a str,
    /// What it says.
    pub text: &'a str,
}

/// The text of a message, which is all that is kept of its record where nothing is sent.
#[derive(Debug, Drop)]
pub struct MessageText {
    /// What the message says.
    pub text: String,
}

impl FromRecord for MessageText {
    ghost flaw = { message_flaw };

    ghost Says = { HasText };

    fn from_record(alloc: Global, record: &ByteRecord) -> Result<MessageText, RowFault> {
        match message_fields(record) {
            Err(flaw) => Err(RowFault::Flawed(flaw)),
            Ok(fields) => {
                let text = text_of(alloc, fields.text)?;
                Ok(MessageText { text })
            }
        }
    }
}

impl Headed for MessageText {
    ghost is_header = { header_is };

    fn is_header(record: &ByteRecord) -> bool {
        record.len() == FIELDS
            && is_field(record, 0, b"account")
            && is_field(record, 1, b"source")
            && is_field(record, 2, b"destination")
            && is_field(record, 3, b"text")
    }
}

/// The fields of a message's record, which are four of text; or its flaw.
pub fn message_fields<'a>(record: &'a ByteRecord) -> Result<MessageFields<'a>, Flaw>
    ensures { AreFieldsOf (fields_of «record».now) result }
{
    if record.len() != FIELDS {
        return Err(Flaw::Fields(record.len()));
    }
    let account = match text_at(record, 0) {
        Ok(account) => account,
        Err(flaw) => return Err(flaw),
    };
    let source = match text_at(record, 1) {
        Ok(source) => source,
        Err(flaw) => return Err(flaw),
    };
    let destination = match text_at(record, 2) {
        Ok(destination) => destination,
        Err(flaw) => return Err(flaw),
    };
    let text = match text_at(record, 3) {
        Ok(text) => text,
        Err(flaw) => return Err(flaw),
    };
    Ok(MessageFields {
        account,
        source,
        destination,
        text,
    })
}

/// Reads the texts of a messages file of at most 100,000 messages, and no more of it: accounts and
/// addresses aren't looked at. The fault is the first faulty record; `Unreadable` where the reader fails.
pub fn read_texts<R: Read + Drop>(alloc: Global, input: R) -> Result<Vec<MessageText>, InputFault>
    ensures texts { IfOk result (λ texts. IfSome (R.remaining input) (λ bytes. AreTexts (records_of bytes) texts.items)) }
    ensures faulty { IfErr result (λ fault. IfSome (R.remaining input) (λ bytes. TellsRecords Messages (messages_fault (records_of bytes)) fault)) }
{
    read_rows(alloc, input, Source::Messages, MOST_MESSAGES)
}
