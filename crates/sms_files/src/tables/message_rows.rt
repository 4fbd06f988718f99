//! The messages that are sent: each row of the messages file with its index and its account.

ghost use Rattle.std.specs.Prelude.{◌≡◌, IfErr, IfOk, IfSome, string_bytes};
ghost use Rattle.sms_book.specs.Openings.{names_of};
ghost use Rattle.sms_files.specs.Fields.{records_of};
ghost use Rattle.sms_files.specs.Messages.{is_header as header_is, message_flaw, messages_fault};
ghost use Rattle.sms_files.specs.Records.{TellsRecords};
ghost use Rattle.sms_files.specs.MessageRows.{AreMessages, AreSaid, HasFields, place_of as place_in};

use crate::fault::{InputFault, Source};
use crate::memory::{NoMemory, list_for, push, text_of};
use crate::tables::messages::{MOST_MESSAGES, MessageText, message_fields};
use crate::tables::records::{FromRecord, RowFault};
use crate::tables::rows::{Headed, read_rows};
use csv::ByteRecord;
use sms_book::Opening;
use sms_message::Message;
use std::alloc::Global;
use std::io::Read;

/// What a message's record says.
#[derive(Debug, Drop)]
pub struct MessageRow {
    /// The name of the account that pays for it.
    pub account: String,
    /// The address that it comes from.
    pub source: String,
    /// The address that it goes to.
    pub destination: String,
    /// What it says.
    pub text: String,
}

impl FromRecord for MessageRow {
    ghost flaw = { message_flaw };

    ghost Says = { HasFields };

    fn from_record(alloc: Global, record: &ByteRecord) -> Result<MessageRow, RowFault> {
        match message_fields(record) {
            Err(flaw) => Err(RowFault::Flawed(flaw)),
            Ok(fields) => {
                let account = text_of(alloc, fields.account)?;
                let source = text_of(alloc, fields.source)?;
                let destination = text_of(alloc, fields.destination)?;
                let text = text_of(alloc, fields.text)?;
                Ok(MessageRow {
                    account,
                    source,
                    destination,
                    text,
                })
            }
        }
    }
}

impl Headed for MessageRow {
    ghost is_header = { header_is };

    fn is_header(record: &ByteRecord) -> bool {
        MessageText::is_header(record)
    }
}

/// The place of the account with this name.
fn place_of(openings: &[Opening], name: &str) -> Option<usize>
    ensures { result ≡ place_in name.now (names_of openings.now) }
{
    for place in 0..openings.len() {
        if openings[place].name.as_str() == name {
            return Some(place);
        }
    }
    None
}

/// The messages of a file, which count from 0, each with the place of its account.
pub fn read_messages<R: Read + Drop>(
    alloc: Global,
    input: R,
    openings: &[Opening],
) -> Result<Vec<Message>, InputFault>
    ensures messages { IfOk result (λ messages. IfSome (R.remaining input) (λ bytes. AreMessages (names_of openings.now) (records_of bytes) messages.items)) }
    ensures faulty { IfErr result (λ fault. IfSome (R.remaining input) (λ bytes. TellsRecords Source.Messages (messages_fault (records_of bytes)) fault)) }
{
    let rows: Vec<MessageRow> = read_rows(alloc, input, Source::Messages, MOST_MESSAGES)?;
    Ok(addressed(alloc, rows, openings)?)
}

/// The messages of these rows.
fn addressed(
    alloc: Global,
    rows: Vec<MessageRow>,
    openings: &[Opening],
) -> Result<Vec<Message>, NoMemory>
    ensures { IfOk result (λ messages. AreSaid (names_of openings.now) 0 rows.items messages.items) }
{
    let mut messages = list_for(alloc, rows.as_slice())?;
    for row in rows {
        let index = messages.len() as u64;
        push(&mut messages, message_from(row, index, openings))?;
    }
    Ok(messages)
}

/// The message of a row, with this index.
fn message_from(row: MessageRow, index: u64, openings: &[Opening]) -> Message
    ensures { (result.index ≡ index) × (result.account ≡ place_in (string_bytes row.account) (names_of openings.now)) × (result.source ≡ row.source) × (result.dest ≡ row.destination) × (result.text ≡ row.text) }
{
    Message {
        index,
        account: place_of(openings, row.account.as_str()),
        source: row.source,
        dest: row.destination,
        text: row.text,
    }
}
