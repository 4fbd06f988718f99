//! How much of a text the next part takes.

ghost use Rattle.std.specs.Prelude.{◌≡◌, ◌≤◌, ◌<◌, ◌&&◌, length, take, slice_index};
ghost use Rattle.sms_segment.specs.Group.{closes, opens};
ghost use Rattle.sms_segment.specs.Front.{IsFront, is_open};

use sms_alphabet::{Coding, ESCAPE};

/// How many of the units the next part takes: as many as the limit allows without parting a pair.
pub(crate) fn front_len(coding: Coding, units: &[u16], limit: usize) -> usize
    requires { 2 ≤ limit }
    ensures { IsFront coding limit units.now result }
{
    if units.len() <= limit {
        return units.len();
    }
    if parts_pair(coding, units, limit) {
        limit - 1
    } else {
        limit
    }
}

/// Whether a cut before `units[at]` parts an escape from its code, or a high from a low surrogate.
fn parts_pair(coding: Coding, units: &[u16], at: usize) -> bool
    requires positive { 0 < at }
    requires inside { at < length units.now }
    ensures { result ≡ (is_open coding (take at units.now) && closes coding (slice_index units.now at)) }
{
    match coding {
        Coding::Gsm => ends_in_escape(&units[..at]),
        Coding::Ucs2 => is_high_surrogate(units[at - 1]) && is_low_surrogate(units[at]),
    }
}

/// Whether the last code is an escape that is not itself the code after an escape. Two escapes in a
/// row are in no spelling of a text, so there the loop ends at once.
fn ends_in_escape(codes: &[u16]) -> bool
    ensures { result ≡ is_open Coding.Gsm codes.now }
{
    let mut open = false;
    let mut start = codes.len();
    while start > 0 && codes[start - 1] == u16::from(ESCAPE) {
        start -= 1;
        open = !open;
    }
    open
}

fn is_high_surrogate(unit: u16) -> bool
    ensures { result ≡ opens Coding.Ucs2 unit }
{
    0xD800 <= unit && unit < 0xDC00
}

fn is_low_surrogate(unit: u16) -> bool
    ensures { result ≡ closes Coding.Ucs2 unit }
{
    0xDC00 <= unit && unit < 0xE000
}
