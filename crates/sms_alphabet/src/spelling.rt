//! From a text to its units.

ghost use Rattle.std.specs.Prelude.{◌≡◌, ◌↔◌, IfOk, IsSome, IsTrue, Some};
ghost use Rattle.std.specs.List.{list_all};
ghost use Rattle.std.specs.Str.{chars};
ghost use Rattle.sms_alphabet.specs.Alphabet.{is_plain};
ghost use Rattle.sms_alphabet.specs.Spelling.{IsCodable, IsLawful, Spells, chosen, gsm_spelling, ucs2_spelling};
ghost use Rattle.sms_alphabet.specs.Writing.{items_of};

use crate::alphabet::{Code, ESCAPE, code_of, is_plain, plain_code};
use crate::coded::{Coded, Coding};
use crate::units::Units;
use std::alloc::{AllocError, Global};

/// The codes of the text's characters in the default alphabet, in order, one a septet and one an
/// octet of the result: one code for a character of the alphabet itself, and the escape and a code
/// for one of the extension table (3GPP TS 23.038 6.2.1, 6.2.1.1). `None` where a character has no
/// code.
pub fn septets(alloc: Global, text: &str) -> Result<Option<Vec<u8>>, AllocError>
    ensures codes { IfOk result (λ codes. items_of codes ≡ gsm_spelling (chars text.now)) }
    ensures codable { IfOk result (λ codes. IsSome codes ↔ IsCodable (chars text.now)) }
{
    if !are_plain(text.as_bytes()) {
        return mixed_septets(alloc, text);
    }
    match plain_septets(alloc, text.as_bytes()) {
        Ok(codes) => Ok(Some(codes)),
        Err(no_memory) => Err(no_memory),
    }
}

/// The same for a text of any characters, one by one.
fn mixed_septets(alloc: Global, text: &str) -> Result<Option<Vec<u8>>, AllocError>
    ensures codes { IfOk result (λ codes. items_of codes ≡ gsm_spelling (chars text.now)) }
    ensures codable { IfOk result (λ codes. IsSome codes ↔ IsCodable (chars text.now)) }
{
    let mut codes = Vec::with_capacity(alloc, text.len())?;
    for c in text.chars() {
        match code_of(c) {
            Some(Code::Basic(code)) => codes.push(code)?,
            Some(Code::Extension(code)) => {
                codes.push(ESCAPE)?;
                codes.push(code)?;
            }
            None => return Ok(None),
        }
    }
    Ok(Some(codes))
}

/// Whether each octet is an ASCII character with a code of the default alphabet.
fn are_plain(text: &[u8]) -> bool
    ensures { result ≡ list_all is_plain text.now }
{
    let mut plain = true;
    for octet in text {
        plain = plain & is_plain(*octet);
    }
    plain
}

/// The codes of a text of such characters.
fn plain_septets(alloc: Global, text: &[u8]) -> Result<Vec<u8>, AllocError>
    requires { IsTrue (list_all is_plain text.now) }
    ensures { IfOk result (λ codes. Some codes.items ≡ gsm_spelling (chars text.now)) }
{
    let mut codes = Vec::with_capacity(alloc, text.len())?;
    for octet in text {
        codes.push_reserved(plain_code(*octet));
    }
    Ok(codes)
}

/// The UTF-16 code units of the text, in order (3GPP TS 23.038 6.2.3).
pub fn ucs2(alloc: Global, text: &str) -> Result<Vec<u16>, AllocError>
    ensures { IfOk result (λ units. units.items ≡ ucs2_spelling (chars text.now)) }
{
    let mut units = Vec::with_capacity(alloc, text.len())?;
    for unit in text.encode_utf16() {
        units.push(unit)?;
    }
    Ok(units)
}

/// The text in the default alphabet where each of its characters has a code there, and otherwise
/// in UCS2.
pub fn choose(alloc: Global, text: &str) -> Result<Coded, AllocError>
    ensures chosen { IfOk result (λ coded. coded ≡ chosen (chars text.now)) }
    ensures codable { IfOk result (λ coded. (coded.coding ≡ Coding.Gsm) ↔ IsCodable (chars text.now)) }
    ensures spelled { IfOk result (λ coded. Spells coded (chars text.now)) }
    ensures lawful { IfOk result (λ coded. IsLawful coded) }
{
    match septets(alloc, text)? {
        Some(codes) => Ok(Coded {
            coding: Coding::Gsm,
            units: Units::new(units_of(alloc, codes.as_slice())?),
        }),
        None => Ok(Coded {
            coding: Coding::Ucs2,
            units: Units::new(ucs2(alloc, text)?),
        }),
    }
}

/// The codes as units, which have room for UTF-16 too.
fn units_of(alloc: Global, codes: &[u8]) -> Result<Vec<u16>, AllocError>
    ensures { IfOk result (λ units. units.items ≡ codes.now) }
{
    let mut units = Vec::with_capacity(alloc, codes.len())?;
    for code in codes {
        units.push_reserved(u16::from(*code));
    }
    Ok(units)
}
