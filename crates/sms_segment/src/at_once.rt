//! A text that one short message carries, from its characters to octets.

ghost use Rattle.std.specs.Prelude.{◌≡◌, ◌∷◌, [], ◌↔◌, IfOk, IfSome, IsSome, length};
ghost use Rattle.std.specs.Str.{chars};
ghost use Rattle.sms_alphabet.specs.Spelling.{chosen, ucs2_spelling};
ghost use Rattle.sms_segment.specs.declared.place.Reference.{Reference as TheReference};
ghost use Rattle.sms_segment.specs.Message.{parts_of, whole};
ghost use Rattle.sms_segment.specs.Part.{data_coding, short_message};
ghost use Rattle.sms_segment.specs.AtOnce.{IsShortMessageOf, gsm, utf16};

use crate::limits::single_limit;
use crate::part::{data_coding, push_big_endian};
use sms_alphabet::{Coding, septets, ucs2};
use std::alloc::{AllocError, Global};

/// What one short message carries of a text that needs no more. Its `esm_class` is 0, since it has no header.
#[derive(Debug, Drop, PartialEq, Eq)]
pub struct ShortMessage {
    /// The `data_coding` (SMPP 3.4 5.2.19): 0x00 for the default alphabet, 0x08 for UCS2.
    pub data_coding: u8,
    /// Each septet in an octet of its own, or each UTF-16 unit in two, the high one first.
    pub octets: Vec<u8>,
}

/// The short message of a text that one can carry: what [`choose`](sms_alphabet::choose), [`cut`](crate::cut)
/// and [`short_message`](crate::Part::short_message) come to, without what stands between them. `None` is a
/// text of more parts. The list has room for its octets alone.
pub fn short_message_of(alloc: Global, text: &str) -> Result<Option<ShortMessage>, AllocError>
    // It is there exactly where the text is sent as one part, whatever reference several would have.
    ensures one { IfOk result (λ found. (reference : TheReference) → IsSome found ↔ (length (parts_of (chosen (chars text.now)) reference) ≡ 1)) }

    // It is that part's, which has the whole text and no place.
    ensures part { IfOk result (λ found. IfSome found (λ s. (reference : TheReference) → parts_of (chosen (chars text.now)) reference ≡ whole (chosen (chars text.now)) ∷ [])) }
    ensures octets { IfOk result (λ found. IfSome found (λ s. s.octets.items ≡ short_message (whole (chosen (chars text.now))))) }
    ensures coding { IfOk result (λ found. IfSome found (λ s. s.data_coding ≡ data_coding (chosen (chars text.now)).coding)) }
{
    match found(alloc, text) {
        Ok(found) => Ok(found),
        Err(no_memory) => Err(no_memory),
    }
}

fn found(alloc: Global, text: &str) -> Result<Option<ShortMessage>, AllocError>
    ensures { IfOk result (λ found. IsShortMessageOf (chosen (chars text.now)) found) }
{
    match septets(alloc, text) {
        Ok(Some(codes)) => Ok(in_septets(codes)),
        Ok(None) => in_ucs2(alloc, text),
        Err(no_memory) => Err(no_memory),
    }
}

/// The short message with these septets.
fn in_septets(codes: Vec<u8>) -> Option<ShortMessage>
    ensures { IsShortMessageOf (gsm codes.items) result }
{
    if codes.len() > single_limit(Coding::Gsm) {
        return None;
    }
    let mut codes = codes;
    codes.shrink_to_fit();
    Some(ShortMessage {
        data_coding: data_coding(Coding::Gsm),
        octets: codes,
    })
}

/// The short message with the UTF-16 units of this text.
fn in_ucs2(alloc: Global, text: &str) -> Result<Option<ShortMessage>, AllocError>
    ensures { IfOk result (λ found. IsShortMessageOf (utf16 (ucs2_spelling (chars text.now))) found) }
{
    let units = ucs2(alloc, text)?;
    if units.len() > single_limit(Coding::Ucs2) {
        return Ok(None);
    }
    let mut octets = Vec::with_capacity(alloc, units.len() * 2)?;
    push_big_endian(&mut octets, units.as_slice())?;
    Ok(Some(ShortMessage {
        data_coding: data_coding(Coding::Ucs2),
        octets,
    }))
}
