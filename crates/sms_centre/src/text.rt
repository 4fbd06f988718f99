//! The texts of a script: which treatment each spells.

ghost use Rattle.std.specs.Prelude.{◌≡◌, ◌≤◌, length};
ghost use Rattle.std.specs.Option.{option_copied};
ghost use Rattle.sms_centre.specs.Texts.{treatment_of as said_by, number as number_in, late as late_in, space_at as first_space, texts, made_by as row_of, alone as stands_alone, number_behind as number_after, late_behind as late_after};

use crate::treatment::Treatment;
use sms_core::decimal_of;

/// The treatment that a text spells: a word alone, or a word, a space and what stands after it.
pub(crate) fn treatment_of(text: &[u8]) -> Option<Treatment>
    ensures { result ≡ said_by text.now }
{
    let at = space_at(text);
    let behind = if at < text.len() {
        Some(&text[at + 1..])
    } else {
        None
    };
    made_by(&text[..at], behind)
}

/// The texts by their words, in the order of the definitions' table.
fn made_by(word: &[u8], behind: Option<&[u8]>) -> Option<Treatment>
    ensures { result ≡ row_of texts word.now (option_copied behind.entry) }
{
    if word == b"status".as_slice() {
        return Some(Treatment::Status(number_behind(behind)?));
    }
    if word == b"nack".as_slice() {
        return Some(Treatment::Nack(number_behind(behind)?));
    }
    if word == b"twice".as_slice() {
        return Some(Treatment::Twice(number_behind(behind)?));
    }
    if word == b"stray".as_slice() {
        return Some(Treatment::Stray(number_behind(behind)?));
    }
    if word == b"late".as_slice() {
        return late_behind(behind);
    }
    if word == b"silent".as_slice() {
        return alone(Treatment::Silent, behind);
    }
    if word == b"unbind".as_slice() {
        return alone(Treatment::Unbind, behind);
    }
    if word == b"deliver".as_slice() {
        return alone(Treatment::Deliver, behind);
    }
    if word == b"cut".as_slice() {
        return alone(Treatment::Cut, behind);
    }
    if word == b"huge".as_slice() {
        return alone(Treatment::Huge, behind);
    }
    None
}

/// A treatment whose word stands alone.
fn alone(treatment: Treatment, behind: Option<&[u8]>) -> Option<Treatment>
    ensures { result ≡ stands_alone treatment (option_copied behind.entry) }
{
    match behind {
        Some(_rest) => None,
        None => Some(treatment),
    }
}

/// The number that stands after a word.
fn number_behind(behind: Option<&[u8]>) -> Option<u32>
    ensures { result ≡ number_after (option_copied behind.entry) }
{
    match behind {
        Some(rest) => number(rest),
        None => None,
    }
}

/// The two numbers that stand after a word.
fn late_behind(behind: Option<&[u8]>) -> Option<Treatment>
    ensures { result ≡ late_after (option_copied behind.entry) }
{
    match behind {
        Some(rest) => late(rest),
        None => None,
    }
}

/// A number below 2^32.
fn number(rest: &[u8]) -> Option<u32>
    ensures { result ≡ number_in rest.now }
{
    match decimal_of(rest, u64::from(u32::MAX)) {
        Some(number) => Some(number as u32),
        None => None,
    }
}

/// How many submit_sm later, and with which status.
fn late(rest: &[u8]) -> Option<Treatment>
    ensures { result ≡ late_in rest.now }
{
    let at = space_at(rest);
    let after = number(&rest[..at])?;
    if after == 0 {
        return None;
    }
    let second = if at < rest.len() { at + 1 } else { at };
    let status = number(&rest[second..])?;
    Some(Treatment::Late { after, status })
}

/// The place of the first space, or the length.
fn space_at(text: &[u8]) -> usize
    ensures place { result ≡ first_space text.now }
    ensures within { result ≤ length text.now }
{
    for at in 0..text.len() {
        if text[at] == b' ' {
            return at;
        }
    }
    text.len()
}
