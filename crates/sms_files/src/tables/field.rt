//! What stands in the fields of a file's records: numbers and text.

ghost use Rattle.std.specs.Prelude.{◌≡◌, ◌≤◌, ◌+◌, None, Some, MatchResult};
ghost use Rattle.csv.specs.Records.{fields_of};
ghost use Rattle.sms_files.specs.FieldFlaws.{number_read};
ghost use Rattle.sms_files.specs.Fields.{text_in};

use crate::flaw::Flaw;
use csv::ByteRecord;
use sms_core::decimal_of;
use std::str;

/// The number in the record's field at a place, from 0.
pub fn number_at(record: &ByteRecord, place: usize, most: u64) -> Result<u64, Flaw>
    requires { place ≤ 3 }
    ensures { result ≡ number_read most (fields_of «record».now) place }
{
    match record.get(place) {
        Some(field) => match decimal_of(field, most) {
            Some(number) => Ok(number),
            None => Err(Flaw::NotNumber(place + 1)),
        },
        None => Err(Flaw::NotNumber(place + 1)),
    }
}

/// The same, of a number below 2^32.
pub fn u32_at(record: &ByteRecord, place: usize) -> Result<u32, Flaw>
    requires { place ≤ 3 }
    ensures { result ≡ number_read u32.MAX (fields_of «record».now) place }
{
    match number_at(record, place, u64::from(u32::MAX)) {
        Ok(number) => Ok(number as u32),
        Err(flaw) => Err(flaw),
    }
}

/// The text in the record's field at a place, from 0.
pub fn text_at<'a>(record: &'a ByteRecord, place: usize) -> Result<&'a str, Flaw>
    requires { place ≤ 4 }
    ensures { MatchResult result (λ text. text_in (fields_of «record».now) place ≡ Some text.now)
        (λ flaw. (text_in (fields_of «record».now) place ≡ None) × (flaw ≡ Flaw.NotText (place + 1))) }
{
    match record.get(place) {
        Some(field) => match str::from_utf8(field) {
            Ok(text) => Ok(text),
            Err(_) => Err(Flaw::NotText(place + 1)),
        },
        None => Err(Flaw::NotText(place + 1)),
    }
}
