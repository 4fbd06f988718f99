//! The fields of a note's line.

ghost use Rattle.std.specs.Prelude.{◌≡◌, ◌≤◌, ℕ, List, ◌∷◌, ◌++◌, IfOk, OnOk, length};
ghost use Rattle.sms_journal.specs.Reading.{behind_field, begun_in as begun_said, digit_in as digit_said, end_at as first_end, end_in as end_said, field_in, flag_in as flag_said, heard_in as heard_said, id_in as id_said, is_end as ends, kind_in as kind_said, note_in as note_said, octets_in, refused_in as refused_said, round_in as round_said, sent_in as sent_said, time_in as time_said, u32_in as u32_said, u64_in as u64_said, u8_in as u8_said, unsent_in as unsent_said};
ghost use Rattle.sms_journal.specs.declared.text.note_fields.Escape.TheVariants.{Plain};

use crate::notes::{Note, RequestId};
use sms_core::decimal_of;
use sms_files::memory::{self, NoMemory};
use sms_message::refusal_named;
use sms_pdu::{MessageId, Reply, reply_of};

/// Whether a field ends here.
fn is_end(octet: u8) -> bool
    ensures { result ≡ ends octet }
{
    octet == b',' || octet == b'\n'
}

/// Where the first field ends.
fn end_at(text: &[u8]) -> usize
    ensures place { result ≡ first_end text.now }
    ensures within { result ≤ length text.now }
{
    let mut at = 0;
    while at < text.len() && !is_end(text[at]) {
        at += 1;
    }
    at
}

/// The first field, and what stands after its end.
#[tactic(auto, unfolding(crate::specs::Reading::field_in, crate::specs::Reading::behind_field))]
pub(crate) fn cut(text: &[u8]) -> (&[u8], &[u8])
    ensures field { result.0.now ≡ field_in text.now }
    ensures behind { result.1.now ≡ behind_field text.now }
{
    let at = end_at(text);
    if at < text.len() {
        (&text[..at], &text[at + 1..])
    } else {
        (text, &text[at..])
    }
}

#[tactic(auto, unfolding(crate::specs::Reading::u64_in))]
pub(crate) fn u64_in(field: &[u8]) -> Option<u64>
    ensures { result ≡ u64_said field.now }
{
    decimal_of(field, u64::MAX)
}

#[tactic(auto, unfolding(crate::specs::Reading::u32_in))]
pub(crate) fn u32_in(field: &[u8]) -> Option<u32>
    ensures { result ≡ u32_said field.now }
{
    match decimal_of(field, u64::from(u32::MAX)) {
        Some(number) => Some(number as u32),
        None => None,
    }
}

#[tactic(auto, unfolding(crate::specs::Reading::u8_in))]
fn u8_in(field: &[u8]) -> Option<u8>
    ensures { result ≡ u8_said field.now }
{
    match decimal_of(field, u64::from(u8::MAX)) {
        Some(number) => Some(number as u8),
        None => None,
    }
}

pub(crate) fn flag_in(field: &[u8]) -> bool
    ensures { result ≡ flag_said field.now }
{
    field == b"1".as_slice()
}

/// How much of an escaped octet was read.
#[derive(Clone, Copy)]
pub(crate) enum Escape {
    Plain,
    /// The percent.
    First,
    /// The percent and the greater digit.
    Second(u8),
}

/// A hexadecimal digit's value. (Another octet's is never used.)
pub(crate) fn digit_in(octet: u8) -> u8
    ensures value { result ≡ digit_said octet }
    ensures small { result ≤ 15 }
{
    let value = if octet < 97 {
        octet.saturating_sub(48)
    } else {
        octet - 87
    };
    value % 16
}

/// Adds the octet that the field's next octet completes, if it completes one.
fn add_octet(out: &mut Vec<u8>, escape: Escape, octet: u8) -> Result<Escape, NoMemory>
    ensures { IfOk result (λ next. (rest : List ℕ) → out.new.items ++ octets_in next rest ≡ out.old.items ++ octets_in escape (octet ∷ rest)) }
{
    match escape {
        Escape::Plain => {
            if octet == b'%' {
                return Ok(Escape::First);
            }
            memory::push(out, octet)?;
            Ok(Escape::Plain)
        }
        Escape::First => Ok(Escape::Second(digit_in(octet))),
        Escape::Second(digit) => {
            memory::push(out, digit % 16 * 16 + digit_in(octet))?;
            Ok(Escape::Plain)
        }
    }
}

/// Adds the octets that these stand for.
fn add_octets(out: &mut Vec<u8>, field: &[u8]) -> Result<(), NoMemory>
    ensures { OnOk result (out.new.items ≡ out.old.items ++ octets_in Plain field.now) }
{
    let mut escape = Escape::Plain;
    for octet in field {
        escape = add_octet(out, escape, *octet)?;
    }
    Ok(())
}

/// The header of a submit_sm_resp (SMPP 3.4 4.4.2).
const SUBMIT_SM_RESP: [u8; 16] = [0, 0, 0, 0, 0x80, 0, 0, 4, 0, 0, 0, 0, 0, 0, 0, 0];

/// A message_id. (It is made as the answer makes it that it was read from. The room is for that.)
#[tactic(auto, unfolding(crate::specs::Reading::id_in))]
fn id_in(room: &mut Vec<u8>, field: &[u8]) -> Result<MessageId, NoMemory>
    ensures { IfOk result (λ id. id ≡ id_said field.now) }
{
    room.clear();
    memory::append_octets(room, SUBMIT_SM_RESP.as_slice())?;
    add_octets(room, field)?;
    memory::push(room, 0)?;
    match reply_of(room.as_slice()) {
        Some(reply) => Ok(reply.id),
        None => Ok(MessageId::empty()),
    }
}

fn begun_in(text: &[u8]) -> Option<Note>
    ensures { result ≡ begun_said text.now }
{
    let (message, _rest) = cut(text);
    Some(Note::Begun(u64_in(message)?))
}

fn sent_in(text: &[u8]) -> Option<Note>
    ensures { result ≡ sent_said text.now }
{
    let (worker, rest) = cut(text);
    let (number, rest) = cut(rest);
    let (message, rest) = cut(rest);
    let (part, _rest) = cut(rest);
    let worker = u32_in(worker)?;
    let number = u32_in(number)?;
    let message = u64_in(message)?;
    let part = u8_in(part)?;
    Some(Note::Sent(RequestId { worker, number }, message, part))
}

fn unsent_in(text: &[u8]) -> Option<Note>
    ensures { result ≡ unsent_said text.now }
{
    let (worker, rest) = cut(text);
    let (number, _rest) = cut(rest);
    let worker = u32_in(worker)?;
    let number = u32_in(number)?;
    Some(Note::Unsent(RequestId { worker, number }))
}

fn heard_in(room: &mut Vec<u8>, text: &[u8]) -> Result<Option<Note>, NoMemory>
    ensures { IfOk result (λ note. note ≡ heard_said text.now) }
{
    let (worker, rest) = cut(text);
    let (number, rest) = cut(rest);
    let (status, rest) = cut(rest);
    let (nack, rest) = cut(rest);
    let (id, _rest) = cut(rest);
    let id = id_in(room, id)?;
    let Some(worker) = u32_in(worker) else {
        return Ok(None);
    };
    let Some(number) = u32_in(number) else {
        return Ok(None);
    };
    let Some(status) = u32_in(status) else {
        return Ok(None);
    };
    let nack = flag_in(nack);
    let reply = Reply {
        number,
        status,
        nack,
        id,
    };
    Ok(Some(Note::Heard(worker, reply)))
}

fn refused_in(text: &[u8]) -> Option<Note>
    ensures { result ≡ refused_said text.now }
{
    let (message, rest) = cut(text);
    let (word, _rest) = cut(rest);
    let message = u64_in(message)?;
    let refusal = refusal_named(word)?;
    Some(Note::Refused(message, refusal))
}

fn end_in(text: &[u8]) -> Option<Note>
    ensures { result ≡ end_said text.now }
{
    let (status, _rest) = cut(text);
    Some(Note::End(u8_in(status)?))
}

fn round_in(text: &[u8]) -> Option<Note>
    ensures { result ≡ round_said text.now }
{
    let (number, rest) = cut(text);
    let (binds, rest) = cut(rest);
    let (workers, _rest) = cut(rest);
    let number = u32_in(number)?;
    let binds = u32_in(binds)?;
    let workers = u32_in(workers)?;
    Some(Note::Round(number, binds, workers))
}

/// A note by its word, and what stands after its time.
fn kind_in(room: &mut Vec<u8>, word: &[u8], text: &[u8]) -> Result<Option<Note>, NoMemory>
    ensures { IfOk result (λ note. note ≡ kind_said word.now text.now) }
{
    if word == b"sent".as_slice() {
        return Ok(sent_in(text));
    }
    if word == b"heard".as_slice() {
        return heard_in(room, text);
    }
    if word == b"begun".as_slice() {
        return Ok(begun_in(text));
    }
    if word == b"refused".as_slice() {
        return Ok(refused_in(text));
    }
    if word == b"unsent".as_slice() {
        return Ok(unsent_in(text));
    }
    if word == b"end".as_slice() {
        return Ok(end_in(text));
    }
    if word == b"round".as_slice() {
        return Ok(round_in(text));
    }
    Ok(None)
}

/// The time in a line.
#[tactic(auto, unfolding(crate::specs::Reading::time_in))]
pub(crate) fn time_in(line: &[u8]) -> Option<u64>
    ensures { result ≡ time_said line.now }
{
    let (_word, rest) = cut(line);
    let (time, _rest) = cut(rest);
    u64_in(time)
}

/// The note of a line, if it is the line of one.
#[tactic(auto, unfolding(crate::specs::Reading::note_in))]
pub(crate) fn note_in(room: &mut Vec<u8>, line: &[u8]) -> Result<Option<Note>, NoMemory>
    ensures { IfOk result (λ note. note ≡ note_said line.now) }
{
    let (word, rest) = cut(line);
    let (_time, rest) = cut(rest);
    kind_in(room, word, rest)
}
