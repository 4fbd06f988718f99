//! Ids of messages, as an answer and a receipt have them.

ghost use Rattle.std.specs.Prelude.{◌≡◌, ◌≤◌, ◌<◌, IfOk, option_map, string_bytes};
ghost use Rattle.std.specs.Char.{digit_value};
ghost use Rattle.sms_inbox.specs.Ids.{answer_key as key_of_answer, number_in as number_said, number_key as key_of_number, octets_key as key_of_octets, receipt_key as key_of_receipt};

use crate::escape::write_octets;
use std::alloc::{AllocError, Global};
use std::fmt::Write;

/// How the id in a receipt is spelled that the answer to the submit_sm has.
#[derive(Clone, Copy, Debug, PartialEq, Eq)]
pub enum Ids {
    /// By the same octets.
    Same,
    /// The answer has a number in hexadecimal digits, and the receipt in decimal ones.
    HexDec,
    /// The other way round.
    DecHex,
}

/// A digit's value: 36 where it is no letter and no digit.
fn digit_of(c: u8) -> u64
    ensures value { result ≡ digit_value c }
    ensures small { result ≤ 36 }
{
    match c {
        b'0'..=b'9' => u64::from(c - b'0'),
        b'A'..=b'Z' => u64::from(c - b'A') + 10,
        b'a'..=b'z' => u64::from(c - b'a') + 10,
        _ => 36,
    }
}

/// The number below 2^64 that the digits write.
fn number_in(radix: u64, digits: &[u8]) -> Option<u64>
    requires { 1 ≤ radix }
    ensures { result ≡ number_said radix digits.now }
{
    if digits.is_empty() {
        return None;
    }
    let mut number: u64 = 0;
    for c in digits {
        let digit = digit_of(*c);
        if digit >= radix {
            return None;
        }
        number = number.checked_mul(radix)?.checked_add(digit)?;
    }
    Some(number)
}

/// The key of an id that is any octets.
fn octets_key(alloc: Global, id: &[u8]) -> Result<Option<String>, AllocError>
    ensures { IfOk result (λ key. option_map string_bytes key ≡ key_of_octets id.now) }
{
    if id.is_empty() {
        return Ok(None);
    }
    let mut key = String::new(alloc);
    write_octets(&mut key, id)?;
    Ok(Some(key))
}

/// The key of an id that is a number.
fn number_key(alloc: Global, radix: u64, id: &[u8]) -> Result<Option<String>, AllocError>
    requires { 1 ≤ radix }
    ensures { IfOk result (λ key. option_map string_bytes key ≡ key_of_number radix id.now) }
{
    let Some(number) = number_in(radix, id) else {
        return Ok(None);
    };
    let mut key = String::new(alloc);
    write!(&mut key, "{number}")?;
    Ok(Some(key))
}

/// By what an answer's id is found. Two ids are of one message where their keys are the same.
pub(crate) fn answer_key(alloc: Global, ids: Ids, id: &[u8]) -> Result<Option<String>, AllocError>
    ensures { IfOk result (λ key. option_map string_bytes key ≡ key_of_answer ids id.now) }
{
    match ids {
        Ids::Same => octets_key(alloc, id),
        Ids::HexDec => number_key(alloc, 16, id),
        Ids::DecHex => number_key(alloc, 10, id),
    }
}

/// By what a receipt's id is found.
pub(crate) fn receipt_key(alloc: Global, ids: Ids, id: &[u8]) -> Result<Option<String>, AllocError>
    ensures { IfOk result (λ key. option_map string_bytes key ≡ key_of_receipt ids id.now) }
{
    match ids {
        Ids::Same => octets_key(alloc, id),
        Ids::HexDec => number_key(alloc, 10, id),
        Ids::DecHex => number_key(alloc, 16, id),
    }
}
