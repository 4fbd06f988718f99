//! Octets that are spelled by characters.

ghost use Rattle.std.specs.Prelude.{◌≡◌, ◌++◌, IfOk, OnOk, string_bytes, ◌*◌, ◌+◌, ◌<◌, ◌≤◌, ℕ, List, ◌∷◌, true, false, drop, length};
ghost use Rattle.sms_ledger.specs.Names.{hex_digit as digit_of, octet_text, octets_text, digit_in as digit_said, is_escaped as escaped, is_hex as hex, is_plain as plain};
ghost use Rattle.sms_ledger.specs.declared.escape.Escape.TheVariants.{Plain};

use sms_files::memory::{self, NoMemory};
use std::alloc::Global;

/// What of an octet's escape was read.
#[derive(Clone, Copy)]
pub(crate) enum Escape {
    Plain,
    /// The percent.
    First,
    /// The percent and the greater digit.
    Second(u8),
    /// What spells no octet.
    Wrong,
}

/// Whether the octet stands for itself.
fn is_plain(octet: u8) -> bool
    ensures { result ≡ plain octet }
{
    (octet >= 0x21 && octet <= 0x7E) && octet != 0x22 && octet != 0x25 && octet != 0x2C
}

pub(crate) fn is_hex(octet: u8) -> bool
    ensures { result ≡ hex octet }
{
    (octet >= 48 && octet <= 57) || (octet >= 97 && octet <= 102)
}

/// A hexadecimal digit's value.
fn digit_in(octet: u8) -> u8
    ensures value { result ≡ digit_said octet }
    ensures small { result ≤ 15 }
{
    let value = if octet < 97 {
        octet.saturating_sub(48)
    } else {
        octet - 87
    };
    value % 16
}

/// Whether the octet of two digits stands for itself.
fn is_plain_value(great: u8, small: u8) -> bool
    requires { small ≤ 15 }
    ensures { result ≡ plain (great * 16 + small) }
{
    great <= 15 && is_plain(great * 16 + small)
}

/// What is read with the next character.
fn next(escape: Escape, octet: u8) -> Escape
    ensures { (rest : List ℕ) → escaped result rest ≡ escaped escape (octet ∷ rest) }
{
    match escape {
        Escape::Plain => {
            if octet == b'%' {
                return Escape::First;
            }
            if is_plain(octet) {
                Escape::Plain
            } else {
                Escape::Wrong
            }
        }
        Escape::First => {
            if is_hex(octet) {
                Escape::Second(digit_in(octet))
            } else {
                Escape::Wrong
            }
        }
        Escape::Second(digit) => {
            if is_hex(octet) && !is_plain_value(digit, digit_in(octet)) {
                Escape::Plain
            } else {
                Escape::Wrong
            }
        }
        Escape::Wrong => Escape::Wrong,
    }
}

/// How many octets at the front are letters, digits and others behind the comma that stand for themselves.
fn plain_front(text: &[u8]) -> usize
    ensures within { result ≤ length text.now }
    ensures rest { escaped Plain (drop result text.now) ≡ escaped Plain text.now }
{
    let mut at = 0;
    while at < text.len() && text[at] > b',' && text[at] <= b'~' {
        at += 1;
    }
    at
}

/// Whether the text spells octets.
pub(crate) fn is_escaped(text: &[u8]) -> bool
    ensures { result ≡ escaped Plain text.now }
{
    let mut escape = Escape::Plain;
    let rest = &text[plain_front(text)..];
    for octet in rest {
        escape = next(escape, *octet);
    }
    matches!(escape, Escape::Plain)
}

/// A hexadecimal digit.
fn hex_digit(value: u8) -> u8
    requires { value < 16 }
    ensures digit { result ≡ digit_of value }
    ensures ascii { result < 128 }
{
    if value < 10 { 48 + value } else { 87 + value }
}

/// Writes the spelling of an octet.
fn write_octet(text: &mut String, octet: u8) -> Result<(), NoMemory>
    ensures { OnOk result (string_bytes text.new ≡ string_bytes text.old ++ octet_text octet) }
{
    if is_plain(octet) {
        return memory::append_char(text, char::from(octet));
    }
    memory::append(text, "%")?;
    memory::append_char(text, char::from(hex_digit(octet / 16)))?;
    memory::append_char(text, char::from(hex_digit(octet % 16)))
}

/// The spelling of octets.
pub(crate) fn spelled(alloc: Global, octets: &[u8]) -> Result<String, NoMemory>
    ensures { IfOk result (λ text. string_bytes text ≡ octets_text octets.now) }
{
    let mut text = String::new(alloc);
    for octet in octets {
        write_octet(&mut text, *octet)?;
    }
    Ok(text)
}
