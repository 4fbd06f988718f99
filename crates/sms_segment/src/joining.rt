//! Joining the parts of a message.

ghost use Rattle.std.specs.Prelude.{◌≡◌, ◌≤◌, ◌<◌, ◌↔◌, All, IfOk, IfSome, IsErrOf, IsNone, IsTrue, length, min};
ghost use Rattle.std.specs.List.{flat_map};
ghost use Rattle.sms_segment.specs.Joining.{IsJoined, IsSeries, IsWhole, StandsAt};
ghost use Rattle.sms_segment.specs.declared.joining.JoinError.TheVariants.{OutOfMemory};

use crate::part::Part;
use crate::place::Reference;
use sms_alphabet::{Coded, Coding, Units};
use std::alloc::{AllocError, Global};
use thiserror::Error;

/// Why parts cannot be joined.
#[derive(Debug, Drop, PartialEq, Eq, Error)]
pub enum JoinError {
    /// They are not all parts of one message, in order.
    #[error("the parts are not one whole message")]
    NotWhole,
    #[error("out of memory")]
    OutOfMemory,
}

impl From<AllocError> for JoinError {
    ghost from_gives = { λ _ error. error ≡ OutOfMemory };

    fn from(_: AllocError) -> JoinError {
        JoinError::OutOfMemory
    }
}

/// The text of its parts: of one part without a place, or of all parts of one message in order,
/// with one reference, one coding, their count, and the numbers from 1.
pub fn join(alloc: Global, parts: &[Part]) -> Result<Coded, JoinError>
    ensures whole { IfOk result (λ _. IsWhole parts.now) }
    ensures joined { IfOk result (IsJoined parts.now) }
    ensures not_whole { IsErrOf result JoinError.NotWhole ↔ ¬ IsWhole parts.now }
{
    match coding_of(parts) {
        None => Err(JoinError::NotWhole),
        Some(coding) => Ok(Coded {
            coding,
            units: Units::new(joined_units(alloc, parts)?),
        }),
    }
}

/// The one coding of the parts, if they are a whole message.
fn coding_of(parts: &[Part]) -> Option<Coding>
    ensures whole { IfSome result (λ _. IsWhole parts.now) }
    ensures coding { IfSome result (λ coding. All (λ part. part.coding ≡ coding) parts.now) }
    ensures none { IsNone result ↔ ¬ IsWhole parts.now }
{
    let first = parts.first()?;
    let whole = match first.place {
        None => parts.len() == 1,
        Some(place) => is_series(place.reference, first.coding, parts),
    };
    if whole { Some(first.coding) } else { None }
}

/// Whether the parts have places of one message, in order.
fn is_series(reference: Reference, coding: Coding, parts: &[Part]) -> bool
    requires { 0 < length parts.now }
    ensures { IsTrue result ↔ IsSeries reference coding parts.now }
{
    for (index, part) in parts.iter().enumerate() {
        if !stands_at(reference, coding, parts.len(), index + 1, part) {
            return false;
        }
    }
    true
}

fn stands_at(reference: Reference, coding: Coding, count: usize, number: usize, part: &Part) -> bool
    ensures { IsTrue result ↔ StandsAt reference coding count number part.now }
{
    match part.place {
        None => false,
        Some(place) => {
            part.coding == coding
                && place.reference == reference
                && usize::from(place.count) == count
                && usize::from(place.number) == number
        }
    }
}

fn joined_units(alloc: Global, parts: &[Part]) -> Result<Vec<u16>, AllocError>
    ensures { IfOk result (λ units. units.items ≡ flat_map (λ part. part.units) parts.now) }
{
    let mut units = Vec::with_capacity(alloc, unit_count(parts))?;
    for part in parts {
        units.extend_from_slice(part.units.as_slice())?;
    }
    Ok(units)
}

/// How many units the parts have, or the most that a `usize` can say.
fn unit_count(parts: &[Part]) -> usize
    ensures { result ≡ min (length (flat_map (λ part. part.units) parts.now)) usize.MAX }
{
    let mut count: usize = 0;
    for part in parts {
        count = count.saturating_add(part.units.len());
    }
    count
}
