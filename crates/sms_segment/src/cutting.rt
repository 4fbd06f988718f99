//! Cutting a text into the parts that short messages carry.

ghost use Rattle.std.specs.Prelude.{◌≡◌, ◌≤◌, ◌<◌, ◌∷◌, [], ◌↔◌, IfOk, IfSome, IsErrOf, IsNone, length};
ghost use Rattle.sms_segment.specs.Limits.{part_limit};
ghost use Rattle.sms_segment.specs.Message.{IsFullyCut, IsLeast, IsTooLong, full_parts, numbered_parts, parts_of, whole};
ghost use Rattle.sms_segment.specs.declared.cutting.CutError.TheVariants.{OutOfMemory};

use crate::front::front_len;
use crate::limits::{part_limit, single_limit};
use crate::part::Part;
use crate::place::{Place, Reference};
use sms_alphabet::{Coded, Coding, Units};
use std::alloc::{AllocError, Global};
use thiserror::Error;

/// Why a text cannot be cut.
#[derive(Debug, Drop, PartialEq, Eq, Error)]
pub enum CutError {
    /// It needs more parts than the 255 that a header can count.
    #[error("the text needs more than 255 parts")]
    TooLong,
    #[error("out of memory")]
    OutOfMemory,
}

impl From<AllocError> for CutError {
    ghost from_gives = { λ _ error. error ≡ OutOfMemory };

    fn from(_: AllocError) -> CutError {
        CutError::OutOfMemory
    }
}

/// Cuts a text into as few parts as there can be: as many units in each part as fit, without
/// parting an escape from its code or a high surrogate from its low one. A text that one short
/// message can carry is one part without a place.
pub fn cut(alloc: Global, text: &Coded, reference: Reference) -> Result<Vec<Part>, CutError>
    // The first group of each part does not fit into the part before, and each part has its place.
    ensures full { IfOk result (λ parts. IsFullyCut text.now reference parts.items) }

    // No cutting has fewer parts.
    ensures least { IfOk result (λ parts. IsLeast text.now reference parts.items) }

    // There is one part at least, and no more than a header can count.
    ensures some { IfOk result (λ parts. 0 < length parts.items) }
    ensures countable { IfOk result (λ parts. length parts.items ≤ 255) }

    // The parts are these.
    ensures exact { IfOk result (λ parts. parts.items ≡ parts_of text.now reference) }

    // Each cutting has more parts than a header can count.
    ensures too_long { IsErrOf result CutError.TooLong ↔ IsTooLong text.now reference }
{
    if text.units.len() <= single_limit(text.coding) {
        return Ok(whole_text(alloc, text)?);
    }
    let limit = part_limit(reference, text.coding);
    match part_count(text.coding, text.units.as_slice(), limit) {
        None => Err(CutError::TooLong),
        Some(count) => Ok(numbered_parts(alloc, text, reference, count)?),
    }
}

/// How many parts [`cut`] makes of a text, without making them; none where a header can't count them.
pub fn parts_in(text: &Coded, reference: Reference) -> Option<u8>
    ensures count { IfSome result (λ count. count ≡ length (parts_of text.now reference)) }
    ensures some { IfSome result (λ count. 0 < count) }
    ensures none { IsNone result ↔ IsTooLong text.now reference }
{
    if single_limit(text.coding) >= text.units.len() {
        return Some(1);
    }
    let limit = part_limit(reference, text.coding);
    match part_count(text.coding, text.units.as_slice(), limit) {
        Some(count) => Some(count),
        None => None,
    }
}

fn whole_text(alloc: Global, text: &Coded) -> Result<Vec<Part>, AllocError>
    ensures { IfOk result (λ parts. parts.items ≡ whole text.now ∷ []) }
{
    let units = Units::new(Vec::from_slice(alloc, text.units.as_slice())?);
    let mut parts = Vec::with_capacity(alloc, 1)?;
    parts.push(Part {
        coding: text.coding,
        place: None,
        units,
    })?;
    Ok(parts)
}

/// How many parts there are, where a header can count them. Nothing is copied yet, and of a text
/// that is too long no more than its first 255 parts are looked at.
fn part_count(coding: Coding, units: &[u16], limit: usize) -> Option<u8>
    requires { 2 ≤ limit }
    ensures count { IfSome result (λ count. count ≡ length (full_parts coding limit units.now)) }
    ensures none { IsNone result ↔ (255 < length (full_parts coding limit units.now)) }
{
    let mut rest = units;
    let mut count: u8 = 0;
    while !rest.is_empty() {
        if count == u8::MAX {
            return None;
        }
        (_, rest) = rest.split_at(front_len(coding, rest, limit));
        count += 1;
    }
    Some(count)
}

/// The parts of a text that has as many.
fn numbered_parts(
    alloc: Global,
    text: &Coded,
    reference: Reference,
    count: u8,
) -> Result<Vec<Part>, AllocError>
    requires { length (full_parts text.now.coding (part_limit reference text.now.coding) text.now.units)
        ≡ count }
    ensures { IfOk result (λ parts. parts.items ≡ numbered_parts text.now reference count) }
{
    let limit = part_limit(reference, text.coding);
    let mut parts = Vec::with_capacity(alloc, usize::from(count))?;
    let mut rest = text.units.as_slice();
    for before in 0..count {
        let (front, back) = rest.split_at(front_len(text.coding, rest, limit));
        let place = Place {
            reference,
            count,
            number: before + 1,
        };
        parts.push(Part {
            coding: text.coding,
            place: Some(place),
            units: Units::new(Vec::from_slice(alloc, front)?),
        })?;
        rest = back;
    }
    Ok(parts)
}
