//! From units back to their text.

ghost use Rattle.std.specs.Prelude.{◌≡◌, ◌≢◌, ◌↔◌, ℕ, List, IfOk, IfSome, IfNone, IsOk, string_bytes};
ghost use Rattle.std.specs.Str.{chars};
ghost use Rattle.sms_alphabet.specs.Spelling.{IsLawful, Spells};
ghost use Rattle.sms_alphabet.specs.Reading.{IsReading, BeginsWith};

use crate::alphabet::{ESCAPE, basic_character, extension_character};
use crate::coded::{Coded, Coding};
use std::alloc::{AllocError, Global};
use thiserror::Error;

/// Why units give no text.
#[derive(Clone, Copy, Debug, PartialEq, Eq, Error)]
pub enum TextError {
    /// No text has this spelling: a Gsm unit is above 127, the escape isn't followed by a code of
    /// the extension table, or a surrogate isn't paired.
    #[error("the units spell no text")]
    NotText,
    #[error("out of memory")]
    OutOfMemory,
}

impl From<AllocError> for TextError {
    ghost use Rattle.std.specs.Prelude.{◌≡◌};
    ghost use Rattle.sms_alphabet.specs.declared.reading.TextError.TheVariants.{OutOfMemory};

    ghost from_gives = { λ _ error. error ≡ OutOfMemory };

    fn from(_: AllocError) -> TextError {
        TextError::OutOfMemory
    }
}

/// The text that the units spell in their coding. There is one at most.
pub fn text_of(alloc: Global, coded: &Coded) -> Result<String, TextError>
    ensures spelled { IfOk result (λ text. Spells coded.now (chars (string_bytes text))) }
    ensures not_text { result ≡ Err TextError.NotText → ¬ IsLawful coded.now }
    ensures exact { result ≢ Err TextError.OutOfMemory → (IsOk result ↔ IsLawful coded.now) }
{
    let units = coded.units.as_slice();
    match coded.coding {
        Coding::Gsm => gsm_text(alloc, units),
        Coding::Ucs2 => ucs2_text(alloc, units),
    }
}

fn ucs2_text(alloc: Global, units: &[u16]) -> Result<String, TextError>
    ensures { IsReading Coding.Ucs2 units.now result }
{
    match String::from_utf16(alloc, units)? {
        Ok(text) => Ok(text),
        Err(_) => Err(TextError::NotText),
    }
}

fn gsm_text(alloc: Global, codes: &[u16]) -> Result<String, TextError>
    ensures { IsReading Coding.Gsm codes.now result }
{
    let mut text = String::with_capacity(alloc, codes.len())?;
    let mut rest = codes;
    while let Some((c, after)) = first_character(rest) {
        text.push(c)?;
        rest = after;
    }
    if rest.is_empty() {
        Ok(text)
    } else {
        Err(TextError::NotText)
    }
}

/// The character that the codes begin with, and the codes after it.
fn first_character(codes: &[u16]) -> Option<(char, &[u16])>
    ensures first { IfSome result (λ found. BeginsWith codes.now found.0 found.1.now) }
    ensures none { IfNone result ((c : ℕ) (rest : List ℕ) → ¬ BeginsWith codes.now c rest) }
{
    let (first, rest) = codes.split_first()?;
    if *first != u16::from(ESCAPE) {
        return Some((basic_character(*first)?, rest));
    }
    let (second, rest) = rest.split_first()?;
    Some((extension_character(*second)?, rest))
}
