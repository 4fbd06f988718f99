//! The line of each note.

ghost use Rattle.std.specs.Prelude.{◌≡◌, ◌++◌, OnOk, string_bytes};
ghost use Rattle.sms_journal.specs.declared.notes.note.Note.TheVariants.{Begun, End, Heard, Refused, Round, Sent, Unsent};
ghost use Rattle.sms_journal.specs.Text.{flag as flag_of, id_octet, id_text, is_plain as plain, note_text, number_field};

use crate::notes::{Note, RequestId};
use crate::text::header::write_hex_octet;
use sms_files::memory::{self, NoMemory};
use sms_message::{MessageRefusal, refusal_name};
use sms_pdu::{MessageId, Reply};

/// A comma and the number after it.
fn write_number(text: &mut String, number: u64) -> Result<(), NoMemory>
    ensures { OnOk result (string_bytes text.new ≡ string_bytes text.old ++ number_field number) }
{
    memory::append_number(text, ",", number)
}

fn flag(value: bool) -> u64
    ensures { result ≡ flag_of value }
{
    if value { 1 } else { 0 }
}

/// Whether an octet of a message_id stands for itself.
fn is_plain(octet: u8) -> bool
    ensures { result ≡ plain octet }
{
    (octet >= 0x21 && octet <= 0x7E) && octet != 0x22 && octet != 0x25 && octet != 0x2C
}

/// An octet of a message_id.
fn write_id_octet(text: &mut String, octet: u8) -> Result<(), NoMemory>
    ensures { OnOk result (string_bytes text.new ≡ string_bytes text.old ++ id_octet octet) }
{
    if is_plain(octet) {
        return memory::append_char(text, char::from(octet));
    }
    memory::append(text, "%")?;
    write_hex_octet(text, octet)
}

/// The octets of a message_id.
fn write_id_octets(text: &mut String, octets: &[u8]) -> Result<(), NoMemory>
    ensures { OnOk result (string_bytes text.new ≡ string_bytes text.old ++ id_text octets.now) }
{
    for octet in octets {
        write_id_octet(text, *octet)?;
    }
    Ok(())
}

/// A message_id.
fn write_id(text: &mut String, id: &MessageId) -> Result<(), NoMemory>
    ensures { OnOk result (string_bytes text.new ≡ string_bytes text.old ++ id_text id.now) }
{
    write_id_octets(text, id.as_slice())
}

/// The word of a note and its time.
fn write_head(text: &mut String, word: &str, time: u64) -> Result<(), NoMemory>
    ensures { OnOk result (string_bytes text.new ≡ string_bytes text.old ++ word.now ++ number_field time) }
{
    memory::append(text, word)?;
    write_number(text, time)
}

/// Two numbers.
fn write_pair(text: &mut String, first: u32, second: u32) -> Result<(), NoMemory>
    ensures { OnOk result (string_bytes text.new ≡ string_bytes text.old ++ number_field first ++ number_field second) }
{
    write_number(text, u64::from(first))?;
    write_number(text, u64::from(second))
}

fn write_sent(
    text: &mut String,
    time: u64,
    request: RequestId,
    message: u64,
    part: u8,
) -> Result<(), NoMemory>
    ensures { OnOk result (string_bytes text.new ≡ string_bytes text.old ++ note_text time (Sent request message part)) }
{
    write_head(text, "sent", time)?;
    write_pair(text, request.worker, request.number)?;
    write_number(text, message)?;
    write_number(text, u64::from(part))?;
    memory::append(text, "\n")
}

fn write_unsent(text: &mut String, time: u64, request: RequestId) -> Result<(), NoMemory>
    ensures { OnOk result (string_bytes text.new ≡ string_bytes text.old ++ note_text time (Unsent request)) }
{
    write_head(text, "unsent", time)?;
    write_pair(text, request.worker, request.number)?;
    memory::append(text, "\n")
}

fn write_heard(text: &mut String, time: u64, by: u32, reply: &Reply) -> Result<(), NoMemory>
    ensures { OnOk result (string_bytes text.new ≡ string_bytes text.old ++ note_text time (Heard by reply.now)) }
{
    write_head(text, "heard", time)?;
    write_pair(text, by, reply.number)?;
    write_number(text, u64::from(reply.status))?;
    write_number(text, flag(reply.nack))?;
    memory::append(text, ",")?;
    write_id(text, &reply.id)?;
    memory::append(text, "\n")
}

fn write_begun(text: &mut String, time: u64, message: u64) -> Result<(), NoMemory>
    ensures { OnOk result (string_bytes text.new ≡ string_bytes text.old ++ note_text time (Begun message)) }
{
    write_head(text, "begun", time)?;
    write_number(text, message)?;
    memory::append(text, "\n")
}

fn write_refused(
    text: &mut String,
    time: u64,
    message: u64,
    refusal: MessageRefusal,
) -> Result<(), NoMemory>
    ensures { OnOk result (string_bytes text.new ≡ string_bytes text.old ++ note_text time (Refused message refusal)) }
{
    write_head(text, "refused", time)?;
    write_number(text, message)?;
    memory::append(text, ",")?;
    memory::append(text, refusal_name(refusal))?;
    memory::append(text, "\n")
}

fn write_end(text: &mut String, time: u64, status: u8) -> Result<(), NoMemory>
    ensures { OnOk result (string_bytes text.new ≡ string_bytes text.old ++ note_text time (End status)) }
{
    write_head(text, "end", time)?;
    write_number(text, u64::from(status))?;
    memory::append(text, "\n")
}

fn write_round(
    text: &mut String,
    time: u64,
    number: u32,
    binds: u32,
    workers: u32,
) -> Result<(), NoMemory>
    ensures { OnOk result (string_bytes text.new ≡ string_bytes text.old ++ note_text time (Round number binds workers)) }
{
    write_head(text, "round", time)?;
    write_number(text, u64::from(number))?;
    write_pair(text, binds, workers)?;
    memory::append(text, "\n")
}

/// Writes the line of a note that is made at this time, in milliseconds since 1970 UTC, or 0 where
/// it isn't known.
pub fn write_note(text: &mut String, time: u64, note: &Note) -> Result<(), NoMemory>
    ensures { OnOk result (string_bytes text.new ≡ string_bytes text.old ++ note_text time note.now) }
{
    match note {
        Note::Begun(message) => write_begun(text, time, *message),
        Note::Sent(request, message, part) => write_sent(text, time, *request, *message, *part),
        Note::Unsent(request) => write_unsent(text, time, *request),
        Note::Heard(by, reply) => write_heard(text, time, *by, reply),
        Note::Refused(message, refusal) => write_refused(text, time, *message, *refusal),
        Note::End(status) => write_end(text, time, *status),
        Note::Round(number, binds, workers) => write_round(text, time, *number, *binds, *workers),
    }
}
