//! How many units fit into the 140 octets of user data (3GPP TS 23.040 9.2.3.24): septets or
//! UTF-16 units, without a header, or behind one of 6 octets (a reference of 8 bits) or 7 (of 16).

ghost use Rattle.std.specs.Prelude.{◌≡◌};
ghost use Rattle.sms_segment.specs.Limits.{single_limit, part_limit};

use crate::place::Reference;
use sms_alphabet::Coding;

/// The most units of a text that is sent whole, without a header.
pub(crate) fn single_limit(coding: Coding) -> usize
    ensures { result ≡ single_limit coding }
{
    match coding {
        Coding::Gsm => 160,
        Coding::Ucs2 => 70,
    }
}

/// The most units of a part behind a header with this kind of reference.
pub(crate) fn part_limit(reference: Reference, coding: Coding) -> usize
    ensures { result ≡ part_limit reference coding }
{
    match (reference, coding) {
        (Reference::Short(_), Coding::Gsm) => 153,
        (Reference::Short(_), Coding::Ucs2) => 67,
        (Reference::Long(_), Coding::Gsm) => 152,
        (Reference::Long(_), Coding::Ucs2) => 66,
    }
}
