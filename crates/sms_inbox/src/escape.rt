//! Octets that are spelled by characters, as a journal spells a message_id.

ghost use Rattle.std.specs.Prelude.{◌≡◌, ◌++◌, ◌*◌, ◌+◌, ◌<◌, ◌≤◌, ◌∷◌, [], IfOk, OnOk, length, take, string_bytes};
ghost use Rattle.sms_inbox.specs.Escape.{AreOctets, digit_in as digit_said, hex_digit as digit_of, is_plain as plain, octet_text, octets_in as octets_said, octets_text};
ghost use Rattle.sms_inbox.specs.declared.escape.Escape.TheVariants.{Plain};

use std::alloc::{AllocError, Global};

/// That these are octets is known of any slice.
pub(crate) fn are_octets(octets: &[u8])
    ensures { AreOctets octets.now }
{}

/// What of an octet's escape was read.
#[derive(Clone, Copy)]
pub(crate) enum Escape {
    Plain,
    /// The percent.
    First,
    /// The percent and the greater digit.
    Second(u8),
}

/// Whether the octet stands for itself.
fn is_plain(octet: u8) -> bool
    ensures { result ≡ plain octet }
{
    (octet >= 0x21 && octet <= 0x7E) && octet != 0x22 && octet != 0x25 && octet != 0x2C
}

/// A hexadecimal digit.
fn hex_digit(value: u8) -> u8
    requires { value < 16 }
    ensures digit { result ≡ digit_of value }
    ensures ascii { result < 128 }
{
    if value < 10 { 48 + value } else { 87 + value }
}

/// A hexadecimal digit's value.
fn digit_in(octet: u8) -> u8
    ensures value { result ≡ digit_said octet }
    ensures small { result ≤ 15 }
{
    let value = if octet < 97 {
        octet.saturating_sub(48)
    } else {
        octet - 87
    };
    value % 16
}

fn push_ascii(text: &mut String, octet: u8) -> Result<(), AllocError>
    requires { octet < 128 }
    ensures { OnOk result (string_bytes text.new ≡ string_bytes text.old ++ octet ∷ []) }
{
    text.push(char::from(octet))
}

/// Writes the spelling of an octet.
fn write_octet(text: &mut String, octet: u8) -> Result<(), AllocError>
    ensures { OnOk result (string_bytes text.new ≡ string_bytes text.old ++ octet_text octet) }
{
    if is_plain(octet) {
        return push_ascii(text, octet);
    }
    text.push_str("%")?;
    push_ascii(text, hex_digit(octet / 16))?;
    push_ascii(text, hex_digit(octet % 16))
}

/// Writes the spelling of each octet in turn.
fn write_each(text: &mut String, octets: &[u8]) -> Result<(), AllocError>
    ensures { OnOk result (string_bytes text.new ≡ string_bytes text.old ++ octets_text octets.now) }
{
    for octet in octets {
        write_octet(text, *octet)?;
    }
    Ok(())
}

/// Stores an octet behind the first n.
fn store(buffer: &mut [u8], n: usize, octet: u8)
    requires { n < length buffer.old }
    ensures stored { take (n + 1) buffer.new ≡ take n buffer.old ++ octet ∷ [] }
    ensures room { length buffer.new ≡ length buffer.old }
{
    buffer[n] = octet;
}

/// Stores the spelling of an octet behind the first n. Gives how many there are then.
fn store_spelled(buffer: &mut [u8], n: usize, octet: u8) -> usize
    requires { n + 3 ≤ length buffer.old }
    ensures stored { take result buffer.new ≡ take n buffer.old ++ octet_text octet }
    ensures count { result ≤ n + 3 }
    ensures room { length buffer.new ≡ length buffer.old }
{
    if is_plain(octet) {
        store(buffer, n, octet);
        return n + 1;
    }
    store(buffer, n, b'%');
    store(buffer, n + 1, hex_digit(octet / 16));
    store(buffer, n + 2, hex_digit(octet % 16));
    n + 3
}

/// Stores the spelling of octets. Gives how many octets it has.
fn store_all(buffer: &mut [u8], octets: &[u8]) -> usize
    requires { 3 * length octets.now ≤ length buffer.old }
    ensures stored { take result buffer.new ≡ octets_text octets.now }
    ensures count { result ≤ length buffer.new }
{
    let mut n = 0;
    for octet in octets {
        n = store_spelled(buffer, n, *octet);
    }
    n
}

/// Writes the spelling of few octets, all together.
fn write_piece(text: &mut String, octets: &[u8]) -> Result<(), AllocError>
    requires { length octets.now ≤ 64 }
    ensures { OnOk result (string_bytes text.new ≡ string_bytes text.old ++ octets_text octets.now) }
{
    let mut buffer = [0u8; 192];
    let n = store_all(&mut buffer, octets);
    match str::from_utf8(&buffer[..n]) {
        Ok(spelled) => text.push_str(spelled),
        // (never: a spelling is ASCII)
        Err(_others) => write_each(text, octets),
    }
}

/// Writes the spelling of octets.
pub(crate) fn write_octets(text: &mut String, octets: &[u8]) -> Result<(), AllocError>
    ensures { OnOk result (string_bytes text.new ≡ string_bytes text.old ++ octets_text octets.now) }
{
    let mut left = octets;
    while left.len() > 64 {
        let (piece, rest) = left.split_at(64);
        write_piece(text, piece)?;
        left = rest;
    }
    write_piece(text, left)
}

/// The octets that a text spells.
pub(crate) fn octets_in(alloc: Global, text: &[u8]) -> Result<Vec<u8>, AllocError>
    ensures { IfOk result (λ octets. octets.items ≡ octets_said Plain text.now) }
{
    let mut octets = Vec::new(alloc);
    let mut escape = Escape::Plain;
    for c in text {
        escape = match escape {
            Escape::Plain => {
                if *c == b'%' {
                    Escape::First
                } else {
                    octets.push(*c)?;
                    Escape::Plain
                }
            }
            Escape::First => Escape::Second(digit_in(*c)),
            Escape::Second(digit) => {
                octets.push(digit % 16 * 16 + digit_in(*c))?;
                Escape::Plain
            }
        };
    }
    Ok(octets)
}
