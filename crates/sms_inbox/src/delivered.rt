//! What became of each part that was charged, by the receipts of an inbox.

ghost use Rattle.std.specs.Prelude.{◌≡◌, ◌++◌, ℕ, List, IfOk, OnOk, None, option_copied, string_bytes};
ghost use Rattle.std.specs.HashMap.{get_by_text};
ghost use Rattle.sms_inbox.specs.Delivered.{HaveOctets, delivered_text as text_of_delivered, found, hear, hear_all, heard_field, is_keyed, is_over as ends, part_field, row_text};
ghost use Rattle.sms_inbox.specs.Ids.{answer_key as key_of_answer, receipt_key as key_of_receipt};
ghost use Rattle.sms_inbox.specs.Escape.{AreOctets};

use crate::escape::are_octets;
use crate::ids::{Ids, answer_key, receipt_key};
use crate::line::{write_field, write_number};
use crate::record::Record;
use crate::state::is_final;
use sms_pdu::MessageId;
use std::alloc::{AllocError, Global};
use std::collections::HashMap;
use std::fmt::Write;

/// The header of the table.
const HEADER: &str = "message,part,id,state,error,heard\n";

/// A part that was charged, and the id by which the centre answered it.
#[derive(Clone, Copy, Debug)]
pub struct ChargedPart {
    /// The message, from 0.
    pub message: u64,
    /// Its part, from 1.
    pub part: usize,
    pub id: MessageId,
}

/// How a time is written.
pub trait WritesTime {
    ghost use Rattle.std.specs.Prelude.{◌≡◌, ◌++◌, ℕ, List, OnOk, string_bytes};

    /// What is written of a time in milliseconds since 1970 UTC.
    ghost time_text: { Self → ℕ → List ℕ };

    fn write_time(&self, text: &mut String, time: u64) -> Result<(), AllocError>
        ensures { OnOk result (string_bytes text.new ≡ string_bytes text.old ++ time_text self.now time) };
}

/// Of each id the receipt that counts, by the id's key.
type Heard<'a> = HashMap<String, &'a Record>;

/// Whether nothing else can become of the message.
fn is_over(heard: Option<&Record>) -> bool
    ensures { result ≡ ends (option_copied heard.entry) }
{
    match heard {
        Some(record) => is_final(record.state.as_slice()),
        None => false,
    }
}

/// The record that is kept at a key.
fn record_at<'a>(heard: &Heard<'a>, key: &str) -> Option<&'a Record>
    ensures { option_copied result ≡ option_copied (get_by_text heard.now key.now) }
{
    heard.get(key).copied()
}

/// Hears a record, if it is of a message.
fn hear_one<'a>(
    heard: &mut Heard<'a>,
    alloc: Global,
    ids: Ids,
    r: &'a Record,
) -> Result<(), AllocError>
    ensures { OnOk result ((q : List ℕ) → option_copied (get_by_text heard.new q) ≡ hear (is_keyed q (key_of_receipt ids r.now.id)) (option_copied (get_by_text heard.old q)) r.now) }
{
    let Some(key) = receipt_key(alloc, ids, r.id.as_slice())? else {
        return Ok(());
    };
    if is_over(record_at(heard, key.as_str())) {
        return Ok(());
    }
    heard.insert(key, r)?;
    Ok(())
}

/// Of each key the record that counts.
fn hear_records<'a>(alloc: Global, ids: Ids, records: &'a [Record]) -> Result<Heard<'a>, AllocError>
    ensures heard { IfOk result (λ heard. (q : List ℕ) → option_copied (get_by_text heard q) ≡ hear_all (λ r. is_keyed q (key_of_receipt ids r.id)) None records.now) }
    ensures octets { OnOk result (HaveOctets records.now) }
{
    let mut heard = HashMap::new(alloc);
    for record in records {
        are_octets(record.id.as_slice());
        hear_one(&mut heard, alloc, ids, record)?;
    }
    Ok(heard)
}

/// The record that counts of the message that was answered by this id.
fn heard_of<'a>(
    heard: &Heard<'a>,
    alloc: Global,
    ids: Ids,
    id: &[u8],
) -> Result<Option<&'a Record>, AllocError>
    ensures found { IfOk result (λ r. option_copied r ≡ found (key_of_answer ids id.now) (λ q. option_copied (get_by_text heard.now q))) }
    ensures octets { AreOctets id.now }
{
    are_octets(id);
    match answer_key(alloc, ids, id)? {
        Some(key) => Ok(record_at(heard, key.as_str())),
        None => Ok(None),
    }
}

/// Message, part and id.
fn write_part(text: &mut String, part: &ChargedPart) -> Result<(), AllocError>
    ensures { OnOk result (string_bytes text.new ≡ string_bytes text.old ++ part_field part.now) }
{
    let message = part.message;
    write!(text, "{message}")?;
    write_number(text, part.part as u64)?;
    write_field(text, part.id.as_slice())
}

/// State, error and when it was heard. All are empty where nothing was.
fn write_heard<T: WritesTime>(
    text: &mut String,
    times: &T,
    heard: Option<&Record>,
) -> Result<(), AllocError>
    ensures { OnOk result (string_bytes text.new ≡ string_bytes text.old ++ heard_field (T.time_text times.now) (option_copied heard.entry)) }
{
    let Some(record) = heard else {
        return text.push_str(",,,");
    };
    write_field(text, record.state.as_slice())?;
    write_field(text, record.error.as_slice())?;
    text.push_str(",")?;
    times.write_time(text, record.time)
}

fn write_row<T: WritesTime>(
    text: &mut String,
    times: &T,
    part: &ChargedPart,
    heard: Option<&Record>,
) -> Result<(), AllocError>
    ensures { OnOk result (string_bytes text.new ≡ string_bytes text.old ++ row_text (T.time_text times.now) (option_copied heard.entry) part.now) }
{
    write_part(text, part)?;
    write_heard(text, times, heard)?;
    text.push_str("\n")
}

/// What became of parts that were charged, as CSV without quotes: the header `message,part,id,state,error,heard`, and a record for
/// each part. Of the records of an inbox the first counts that has a final state and the part's id, else the last that has its id.
/// Takes the time of a look-up for each.
pub fn delivered_text<T: WritesTime>(
    alloc: Global,
    times: &T,
    ids: Ids,
    records: &[Record],
    parts: &[ChargedPart],
) -> Result<String, AllocError>
    ensures { IfOk result (λ text. string_bytes text ≡ text_of_delivered (T.time_text times.now) ids records.now parts.now) }
{
    let heard = hear_records(alloc, ids, records)?;
    let mut text = String::from_str(alloc, HEADER)?;
    for part in parts {
        let found = heard_of(&heard, alloc, ids, part.id.as_slice())?;
        write_row(&mut text, times, part, found)?;
    }
    Ok(text)
}
