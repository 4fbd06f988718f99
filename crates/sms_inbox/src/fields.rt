//! The fields of a record's line.

ghost use Rattle.std.specs.Prelude.{◌≡◌, ◌≤◌, IfOk, IfSome, length};
ghost use Rattle.sms_inbox.specs.Escape.{AreOctets, octets_in as octets_said};
ghost use Rattle.sms_inbox.specs.Record.{IsRecord};
ghost use Rattle.sms_inbox.specs.declared.escape.Escape.TheVariants.{Plain};
ghost use Rattle.sms_inbox.specs.Fields.{behind_field, behind_head, end_at as first_end, field_in, head_in, head_texts, is_end as ends, numbers_in as numbers_said, record_in as record_said, said_in, said_texts, u64_in as u64_said, u8_in as u8_said};

use crate::escape::{are_octets, octets_in};
use crate::record::Record;
use sms_core::decimal_of;
use sms_pdu::Octets;
use std::alloc::{AllocError, Global};

/// Whether a field ends here.
fn is_end(octet: u8) -> bool
    ensures { result ≡ ends octet }
{
    octet == b',' || octet == b'\n'
}

/// Where the first field ends.
fn end_at(text: &[u8]) -> usize
    ensures place { result ≡ first_end text.now }
    ensures within { result ≤ length text.now }
{
    let mut at = 0;
    while at < text.len() && !is_end(text[at]) {
        at += 1;
    }
    at
}

/// The first field, and what stands after its end.
#[tactic(auto, unfolding(crate::specs::Fields::field_in, crate::specs::Fields::behind_field))]
fn cut(text: &[u8]) -> (&[u8], &[u8])
    ensures field { result.0.now ≡ field_in text.now }
    ensures behind { result.1.now ≡ behind_field text.now }
{
    let at = end_at(text);
    if at < text.len() {
        (&text[..at], &text[at + 1..])
    } else {
        (text, &text[at..])
    }
}

#[tactic(auto, unfolding(crate::specs::Fields::u64_in))]
fn u64_in(field: &[u8]) -> Option<u64>
    ensures { result ≡ u64_said field.now }
{
    decimal_of(field, u64::MAX)
}

#[tactic(auto, unfolding(crate::specs::Fields::u8_in))]
fn u8_in(field: &[u8]) -> Option<u8>
    ensures { result ≡ u8_said field.now }
{
    match decimal_of(field, u64::from(u8::MAX)) {
        Some(number) => Some(number as u8),
        None => None,
    }
}

/// The fields that say when, where, from whom and to whom.
#[derive(Clone, Copy)]
struct HeadFields<'a> {
    time: &'a [u8],
    bind: &'a [u8],
    source: &'a [u8],
    destination: &'a [u8],
    esm_class: &'a [u8],
}

/// The fields of a receipt, and the text.
#[derive(Clone, Copy)]
struct SaidFields<'a> {
    id: &'a [u8],
    state: &'a [u8],
    error: &'a [u8],
    text: &'a [u8],
}

/// The numbers of a record.
#[derive(Clone, Copy)]
struct Numbers {
    time: u64,
    bind: u8,
    esm_class: u8,
}

fn cut_head(line: &[u8]) -> (HeadFields<'_>, &[u8])
    ensures fields { head_texts result.0 ≡ head_in line.now }
    ensures behind { result.1.now ≡ behind_head line.now }
{
    let (_word, rest) = cut(line);
    let (time, rest) = cut(rest);
    let (bind, rest) = cut(rest);
    let (source, rest) = cut(rest);
    let (destination, rest) = cut(rest);
    let (esm_class, rest) = cut(rest);
    let head = HeadFields {
        time,
        bind,
        source,
        destination,
        esm_class,
    };
    (head, rest)
}

fn cut_said(text: &[u8]) -> SaidFields<'_>
    ensures { said_texts result ≡ said_in text.now }
{
    let (id, rest) = cut(text);
    let (state, rest) = cut(rest);
    let (error, rest) = cut(rest);
    let (text, _rest) = cut(rest);
    SaidFields {
        id,
        state,
        error,
        text,
    }
}

fn numbers_in(head: &HeadFields<'_>) -> Option<Numbers>
    ensures { result ≡ numbers_said (head_texts head.now) }
{
    let time = u64_in(head.time)?;
    let bind = u8_in(head.bind)?;
    let esm_class = u8_in(head.esm_class)?;
    Some(Numbers {
        time,
        bind,
        esm_class,
    })
}

fn octets_of(alloc: Global, field: &[u8]) -> Result<Octets, AllocError>
    ensures value { IfOk result (λ octets. octets ≡ octets_said Plain field.now) }
    ensures octets { IfOk result (λ octets. AreOctets octets) }
{
    let octets = Octets::new(octets_in(alloc, field)?);
    are_octets(octets.as_slice());
    Ok(octets)
}

/// The record of a line, if it is the line of one.
pub(crate) fn record_in(alloc: Global, line: &[u8]) -> Result<Option<Record>, AllocError>
    ensures value { IfOk result (λ r. r ≡ record_said line.now) }
    ensures good { IfOk result (λ r. IfSome r IsRecord) }
{
    let (head, rest) = cut_head(line);
    let said = cut_said(rest);
    let Some(numbers) = numbers_in(&head) else {
        return Ok(None);
    };
    Ok(Some(Record {
        time: numbers.time,
        bind: numbers.bind,
        source: octets_of(alloc, head.source)?,
        destination: octets_of(alloc, head.destination)?,
        esm_class: numbers.esm_class,
        id: octets_of(alloc, said.id)?,
        state: octets_of(alloc, said.state)?,
        error: octets_of(alloc, said.error)?,
        text: octets_of(alloc, said.text)?,
    }))
}
