//! Tariff files: a header, and a record for each rate with its prefix and its credits.

ghost use Rattle.std.specs.Prelude.{◌≡◌, ◌≤◌, ℕ, ◌+◌, ◌⊎◌, IfErr, IfOk, IfSome, MatchResult, Some};
ghost use Rattle.csv.specs.Records.{fields_of};
ghost use Rattle.sms_book.specs.Tariffs.{IsTariff, Refuses, prices_of};
ghost use Rattle.sms_files.specs.Fields.{records_of};
ghost use Rattle.sms_files.specs.Rates.{IsNoTariff, IsRate, IsTariffFile, SaysRate, TellsPrices, TellsTariff, is_rates_header, rate_flaw, trouble_of as trouble_in};
ghost use Rattle.sms_files.specs.Records.{IsBadRecord};

use crate::fault::{InputFault, Source};
use crate::flaw::Flaw;
use crate::memory::{NoTariff, make_tariff, text_of};
use crate::tables::field::{text_at, u32_at};
use crate::tables::record_flaw::{RecordFlaw, keep_octets};
use crate::tables::records::{FromRecord, RowFault};
use crate::tables::rows::{Headed, is_pair, read_rows};
use csv::ByteRecord;
use sms_book::{Rate, Tariff, TariffError};
use std::alloc::Global;
use std::fmt::Write;
use std::io::Read;

/// How many rates a file has at the most.
pub const MOST_RATES: usize = 1_000;

/// How many fields each record of the file has.
const FIELDS: usize = 2;

impl FromRecord for Rate {
    ghost flaw = { rate_flaw };

    ghost Says = { SaysRate };

    fn from_record(alloc: Global, record: &ByteRecord) -> Result<Rate, RowFault> {
        match rate_of(record) {
            Err(flaw) => Err(RowFault::Flawed(flaw)),
            Ok((prefix, credits)) => {
                let prefix = text_of(alloc, prefix)?;
                Ok(Rate { prefix, credits })
            }
        }
    }
}

impl Headed for Rate {
    ghost is_header = { is_rates_header };

    fn is_header(record: &ByteRecord) -> bool {
        is_pair(record, "prefix", "credits")
    }
}

/// The prefix and the credits of a rate's record; or its flaw.
fn rate_of<'a>(record: &'a ByteRecord) -> Result<(&'a str, u32), Flaw>
    ensures { MatchResult result (λ rate. IsRate (fields_of «record».now) rate.0.now rate.1) (λ flaw. rate_flaw (fields_of «record».now) ≡ Some flaw) }
{
    if record.len() != FIELDS {
        return Err(Flaw::Fields(record.len()));
    }
    match text_at(record, 0) {
        Ok(prefix) => match u32_at(record, 1) {
            Ok(credits) => Ok((prefix, credits)),
            Err(flaw) => Err(flaw),
        },
        Err(flaw) => Err(flaw),
    }
}

/// The tariff of a file. The first record that isn't a rate's or is past the limit is reported before the
/// first rate that no tariff takes.
pub fn read_tariff<R: Read + Drop>(alloc: Global, input: R) -> Result<Tariff, InputFault>
    ensures tariff { IfOk result (λ tariff. IfSome (R.remaining input) (λ bytes. IsTariffFile (records_of bytes) tariff)) }
    ensures faulty { IfErr result (λ fault. IfSome (R.remaining input) (λ bytes. TellsTariff (records_of bytes) fault)) }
{
    match read_rows(alloc, input, Source::Tariff, MOST_RATES) {
        Ok(rates) => made_of(alloc, rates),
        Err(fault) => Err(fault),
    }
}

/// The tariff of rates that were read.
fn made_of(alloc: Global, rates: Vec<Rate>) -> Result<Tariff, InputFault>
    ensures tariff { IfOk result (λ tariff. (tariff ≡ prices_of rates.items) × IsTariff tariff) }
    ensures refused { IfErr result (TellsPrices (prices_of rates.items)) }
{
    tariff_of(alloc, rates.as_slice())
}

/// The tariff of these rates; or the fault of the first that no tariff takes beside those before it.
pub fn tariff_of(alloc: Global, rates: &[Rate]) -> Result<Tariff, InputFault>
    ensures tariff { IfOk result (λ tariff. (tariff ≡ prices_of rates.now) × IsTariff tariff) }
    ensures refused { IfErr result (TellsPrices (prices_of rates.now)) }
{
    match make_tariff(alloc, rates) {
        Ok(tariff) => Ok(tariff),
        Err(why) => Err(fault_of(alloc, rates, why)),
    }
}

/// The fault of rates of which no tariff is made, by why it isn't.
fn fault_of(alloc: Global, rates: &[Rate], why: NoTariff) -> InputFault
    requires { IsNoTariff (prices_of rates.now) why }
    ensures { TellsPrices (prices_of rates.now) result }
{
    match why {
        NoTariff::Refused(error) => refused_of(alloc, rates, error),
        NoTariff::OutOfMemory(no) => InputFault::OutOfMemory(no),
    }
}

/// The fault of rates that are no tariff.
fn refused_of(alloc: Global, rates: &[Rate], error: TariffError) -> InputFault
    requires { Refuses (prices_of rates.now) error }
    ensures { TellsPrices (prices_of rates.now) result }
{
    match trouble_of(error) {
        Some((place, flaw)) => bad_rate(alloc, rates, place, flaw),
        None => unreachable!(),
    }
}

/// The place of the rate that no tariff takes, and its flaw; none where memory was refused.
fn trouble_of(error: TariffError) -> Option<(usize, Flaw)>
    requires { (first second : ℕ) → error ≡ TariffError.Duplicate first second → first ≤ 1_000 }
    ensures { result ≡ trouble_in error }
{
    match error {
        TariffError::TooMany => Some((MOST_RATES, Flaw::OneTooMany)),
        TariffError::BadPrefix { place } => Some((place, Flaw::NotDigits(1))),
        TariffError::BadCredits { place } => Some((place, Flaw::NotNumber(2))),
        TariffError::Duplicate { first, second } => Some((second, Flaw::Taken(first + 2))),
        TariffError::OutOfMemory => None,
    }
}

/// The fault of the rate at this place. The header comes before the rates, and records count from 1.
fn bad_rate(alloc: Global, rates: &[Rate], place: usize, flaw: Flaw) -> InputFault
    requires { place ≤ 1_000 }
    ensures { IsBadRecord Source.Tariff (place + 2) flaw result }
{
    let value = value_of(alloc, rates, place, flaw);
    let line = None;
    InputFault::BadRecord(Source::Tariff, place + 2, RecordFlaw { flaw, line, value })
}

/// What is at fault in the rate at this place: its prefix, or its credits where they are no good number.
fn value_of(alloc: Global, rates: &[Rate], place: usize, flaw: Flaw) -> Vec<u8> {
    let mut value = Vec::new(alloc);
    if place < rates.len() {
        match flaw {
            Flaw::NotNumber(_) => keep_number(alloc, &mut value, rates[place].credits),
            _ => keep_octets(&mut value, rates[place].prefix.as_bytes()),
        }
    }
    value
}

/// Appends a number in digits, if there is memory for it.
fn keep_number(alloc: Global, value: &mut Vec<u8>, number: u32) {
    let mut text = String::new(alloc);
    match write!(text, "{number}") {
        Ok(()) => keep_octets(value, text.as_bytes()),
        Err(_no_memory) => {}
    }
}
