//! One short message of a text.

ghost use Rattle.std.specs.Prelude.{◌≡◌, ◌≤◌, ◌++◌, All, IfOk, OnOk, List, ℕ, length, min};
ghost use Rattle.std.specs.List.{flat_map};
ghost use Rattle.sms_segment.specs.Part.{HasSeptets, data_coding, esm_class, header, header_of, octets_of, short_message};

use crate::place::{Place, Reference};
use sms_alphabet::{Coding, Units};
use std::alloc::{AllocError, Global};

/// A part of a coded text, or the whole of it: what one short message carries.
#[derive(Debug, Drop, PartialEq, Eq)]
pub struct Part {
    pub coding: Coding,
    /// Where the part stands in its message, if that has several.
    pub place: Option<Place>,
    pub units: Units,
}

impl Part {
    /// The octets of `short_message`: the header, where the part has a place (3GPP TS 23.040
    /// 9.2.3.24.1 and 9.2.3.24.8), and then each septet in an octet of its own, or each UTF-16 unit in two, the
    /// high one first. It fails where memory runs out.
    pub fn short_message(&self, alloc: Global) -> Result<Vec<u8>, AllocError>
        requires { HasSeptets self.now }
        ensures { IfOk result (λ octets. octets.items ≡ short_message self.now) }
    {
        let mut octets = Vec::with_capacity(alloc, self.octet_count())?;
        if let Some(place) = self.place {
            push_header(&mut octets, place)?;
        }
        match self.coding {
            Coding::Gsm => push_septets(&mut octets, self.units.as_slice())?,
            Coding::Ucs2 => push_big_endian(&mut octets, self.units.as_slice())?,
        }
        Ok(octets)
    }

    /// As many as `short_message` has, or the most that a `usize` can say.
    fn octet_count(&self) -> usize
        ensures { result ≡ min (length (short_message self.now)) usize.MAX }
    {
        let unit_octets = match self.coding {
            Coding::Gsm => self.units.len(),
            Coding::Ucs2 => self.units.len().saturating_mul(2),
        };
        header_len(self.place).saturating_add(unit_octets)
    }

    /// The `esm_class` (SMPP 3.4 5.2.12): 0x40, a header is in the user data, or 0.
    pub fn esm_class(&self) -> u8
        ensures { result ≡ esm_class self.now.place }
    {
        if self.place.is_some() { 0x40 } else { 0x00 }
    }

    /// The `data_coding` (SMPP 3.4 5.2.19): 0x00 for the default alphabet, 0x08 for UCS2.
    pub fn data_coding(&self) -> u8
        ensures { result ≡ data_coding self.now.coding }
    {
        data_coding(self.coding)
    }
}

/// The `data_coding` of a coding.
pub(crate) fn data_coding(coding: Coding) -> u8
    ensures { result ≡ data_coding coding }
{
    match coding {
        Coding::Gsm => 0x00,
        Coding::Ucs2 => 0x08,
    }
}

/// How many octets the header has, its length octet among them.
fn header_len(place: Option<Place>) -> usize
    ensures { result ≡ length (header_of place) }
{
    let Some(place) = place else {
        return 0;
    };
    match place.reference {
        Reference::Short(_) => 6,
        Reference::Long(_) => 7,
    }
}

fn push_header(octets: &mut Vec<u8>, place: Place) -> Result<(), AllocError>
    ensures { OnOk result (octets.new.items ≡ octets.old.items ++ header place.reference place.count place.number) }
{
    match place.reference {
        Reference::Short(reference) => {
            octets.extend_from_slice(&[0x05, 0x00, 0x03, reference, place.count, place.number])?;
        }
        Reference::Long(reference) => {
            let [high, low] = reference.to_be_bytes();
            octets.extend_from_slice(&[0x06, 0x08, 0x04, high, low, place.count, place.number])?;
        }
    }
    Ok(())
}

fn push_septets(octets: &mut Vec<u8>, units: &[u16]) -> Result<(), AllocError>
    requires { All (λ unit. unit ≤ 127) units.now }
    ensures { OnOk result (octets.new.items ≡ octets.old.items ++ flat_map (octets_of Coding.Gsm) units.now) }
{
    octets.reserve(units.len())?;
    for unit in units {
        octets.push_reserved(*unit as u8);
    }
    Ok(())
}

pub(crate) fn push_big_endian(octets: &mut Vec<u8>, units: &[u16]) -> Result<(), AllocError>
    ensures { OnOk result (octets.new.items ≡ octets.old.items ++ flat_map (octets_of Coding.Ucs2) units.now) }
{
    for unit in units {
        octets.extend_from_slice(&unit.to_be_bytes())?;
    }
    Ok(())
}
