//! The fields of an entry's line.

ghost use Rattle.std.specs.Prelude.{◌≡◌, ◌+◌, ◌≤◌, ℕ, IfOk, OnOk, drop, length};
ghost use Rattle.sms_ledger.specs.Reading.{behind_field, decided_in as decided_said, end_at as first_end, fate_in as fate_said, field_in, is_end as ends, kind_in as kind_said, paid_in as paid_said, pair_in as pair_said, part_in as part_said, reference_in as reference_said, returned_in as returned_said, taken_in as taken_said, u64_in as u64_said, u8_in as u8_said};

use crate::entry::{Decision, Entry, Fate, Payment, Statement, Taking};
use crate::name::{Name, Run, RunAccount};
use sms_core::decimal_of;
use sms_files::memory::NoMemory;
use std::alloc::Global;

/// Whether a field ends here.
fn is_end(octet: u8) -> bool
    ensures { result ≡ ends octet }
{
    octet == b',' || octet == b'\n'
}

/// How many octets at the front are letters, digits and others behind the comma, which end no field.
fn inner_front(text: &[u8]) -> usize
    ensures within { result ≤ length text.now }
    ensures place { first_end text.now ≡ result + first_end (drop result text.now) }
{
    let mut at = 0;
    while at < text.len() && text[at] > b',' {
        at += 1;
    }
    at
}

/// Where the first field ends.
fn end_at(text: &[u8]) -> usize
    ensures place { result ≡ first_end text.now }
    ensures within { result ≤ length text.now }
{
    let mut at = inner_front(text);
    while at < text.len() && !is_end(text[at]) {
        at += 1;
    }
    at
}

/// The first field, and what stands after its end.
#[tactic(auto, unfolding(crate::specs::Reading::field_in, crate::specs::Reading::behind_field))]
fn cut(text: &[u8]) -> (&[u8], &[u8])
    ensures field { result.0.now ≡ field_in text.now }
    ensures behind { result.1.now ≡ behind_field text.now }
{
    let at = end_at(text);
    if at < text.len() {
        (&text[..at], &text[at + 1..])
    } else {
        (text, &text[at..])
    }
}

#[tactic(auto, unfolding(crate::specs::Reading::u64_in))]
pub(crate) fn u64_in(field: &[u8]) -> Option<u64>
    ensures { result ≡ u64_said field.now }
{
    decimal_of(field, u64::MAX)
}

#[tactic(auto, unfolding(crate::specs::Reading::u8_in))]
fn u8_in(field: &[u8]) -> Option<u8>
    ensures { result ≡ u8_said field.now }
{
    match decimal_of(field, u64::from(u8::MAX)) {
        Some(number) => Some(number as u8),
        None => None,
    }
}

/// A run and an account, of the fields of their names.
fn pair_in(alloc: Global, run: &[u8], account: &[u8]) -> Result<Option<RunAccount>, NoMemory>
    ensures { IfOk result (λ of. of ≡ pair_said run.now account.now) }
{
    let Some(run) = Run::read(alloc, run)? else {
        return Ok(None);
    };
    let Some(account) = Name::read(alloc, account)? else {
        return Ok(None);
    };
    Ok(Some(RunAccount { run, account }))
}

/// A payment's reference. An empty field is none.
fn reference_in(alloc: Global, field: &[u8]) -> Result<Option<Option<Name>>, NoMemory>
    ensures { IfOk result (λ reference. reference ≡ reference_said field.now) }
{
    if field.is_empty() {
        return Ok(Some(None));
    }
    match Name::read(alloc, field)? {
        Some(name) => Ok(Some(Some(name))),
        None => Ok(None),
    }
}

fn fate_in(field: &[u8]) -> Option<Fate>
    ensures { result ≡ fate_said field.now }
{
    if field == b"delivered".as_slice() {
        return Some(Fate::Delivered);
    }
    if field == b"lost".as_slice() {
        return Some(Fate::Lost);
    }
    None
}

fn paid_in(alloc: Global, text: &[u8]) -> Result<Option<Entry>, NoMemory>
    ensures { IfOk result (λ entry. entry ≡ paid_said text.now) }
{
    let (account, rest) = cut(text);
    let (credits, rest) = cut(rest);
    let (reference, _rest) = cut(rest);
    let Some(account) = Name::read(alloc, account)? else {
        return Ok(None);
    };
    let Some(credits) = u64_in(credits) else {
        return Ok(None);
    };
    let Some(reference) = reference_in(alloc, reference)? else {
        return Ok(None);
    };
    Ok(Some(Entry::Paid(Payment {
        account,
        credits,
        reference,
    })))
}

fn taken_in(alloc: Global, text: &[u8]) -> Result<Option<Entry>, NoMemory>
    ensures { IfOk result (λ entry. entry ≡ taken_said text.now) }
{
    let (run, rest) = cut(text);
    let (account, rest) = cut(rest);
    let (credits, _rest) = cut(rest);
    let Some(of) = pair_in(alloc, run, account)? else {
        return Ok(None);
    };
    let Some(credits) = u64_in(credits) else {
        return Ok(None);
    };
    Ok(Some(Entry::Taken(Taking { of, credits })))
}

fn returned_in(alloc: Global, text: &[u8]) -> Result<Option<Entry>, NoMemory>
    ensures { IfOk result (λ entry. entry ≡ returned_said text.now) }
{
    let (run, rest) = cut(text);
    let (account, rest) = cut(rest);
    let (free, rest) = cut(rest);
    let (doubt, rest) = cut(rest);
    let (spent, _rest) = cut(rest);
    let Some(of) = pair_in(alloc, run, account)? else {
        return Ok(None);
    };
    let Some(free) = u64_in(free) else {
        return Ok(None);
    };
    let Some(doubt) = u64_in(doubt) else {
        return Ok(None);
    };
    let Some(spent) = u64_in(spent) else {
        return Ok(None);
    };
    Ok(Some(Entry::Returned(Statement {
        of,
        free,
        doubt,
        spent,
    })))
}

/// The fields of a part and its cost.
#[derive(Clone, Copy)]
struct PartFields {
    message: u64,
    part: u8,
    cost: u64,
    fate: Fate,
}

fn part_in(message: &[u8], part: &[u8], cost: &[u8], fate: &[u8]) -> Option<PartFields>
    ensures { result ≡ part_said message.now part.now cost.now fate.now }
{
    let message = u64_in(message)?;
    let part = u8_in(part)?;
    let cost = u64_in(cost)?;
    let fate = fate_in(fate)?;
    Some(PartFields {
        message,
        part,
        cost,
        fate,
    })
}

fn decided_in(alloc: Global, text: &[u8]) -> Result<Option<Entry>, NoMemory>
    ensures { IfOk result (λ entry. entry ≡ decided_said text.now) }
{
    let (run, rest) = cut(text);
    let (message, rest) = cut(rest);
    let (part, rest) = cut(rest);
    let (account, rest) = cut(rest);
    let (cost, rest) = cut(rest);
    let (fate, _rest) = cut(rest);
    let Some(of) = pair_in(alloc, run, account)? else {
        return Ok(None);
    };
    let Some(fields) = part_in(message, part, cost, fate) else {
        return Ok(None);
    };
    Ok(Some(Entry::Decided(Decision {
        of,
        message: fields.message,
        part: fields.part,
        cost: fields.cost,
        fate: fields.fate,
    })))
}

/// An entry by its word, and what stands after its time.
pub(crate) fn kind_in(alloc: Global, word: &[u8], text: &[u8]) -> Result<Option<Entry>, NoMemory>
    ensures { IfOk result (λ entry. entry ≡ kind_said word.now text.now) }
{
    if word == b"paid".as_slice() {
        return paid_in(alloc, text);
    }
    if word == b"taken".as_slice() {
        return taken_in(alloc, text);
    }
    if word == b"back".as_slice() {
        return returned_in(alloc, text);
    }
    if word == b"decided".as_slice() {
        return decided_in(alloc, text);
    }
    Ok(None)
}

/// A line's word and time, and what stands behind them.
#[derive(Clone, Copy)]
pub(crate) struct Head<'a> {
    pub(crate) word: &'a [u8],
    pub(crate) time: &'a [u8],
    pub(crate) rest: &'a [u8],
}

/// The head of a line.
pub(crate) fn head_in(line: &[u8]) -> Head<'_>
    ensures word { result.word.now ≡ field_in line.now }
    ensures time { result.time.now ≡ field_in (behind_field line.now) }
    ensures rest { result.rest.now ≡ behind_field (behind_field line.now) }
{
    let (word, rest) = cut(line);
    let (time, rest) = cut(rest);
    Head { word, time, rest }
}
