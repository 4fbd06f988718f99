//! A rate of a tariff, and whether it is good beside those before it.

ghost use Rattle.std.specs.Prelude.{◌<◌, length, IfErr, OnOk, IsTrue, ◌↔◌};
ghost use Rattle.sms_book.specs.Tariffs.{prices_of, IsPrefix, IsGoodAt, IsTariff, IsFault, Refuses};

use crate::error::TariffError;
use crate::limits::{MOST_DIGITS, MOST_RATES};
use crate::named::{Named, first_like};
use sms_core::LARGEST_COST;

/// What a segment costs whose destination begins with this prefix: 0 to 20 digits, and 1 to 1,000
/// credits.
#[derive(Debug, Drop)]
pub struct Rate {
    pub prefix: String,
    pub credits: u32,
}

impl Named for Rate {
    ghost use Rattle.std.specs.Prelude.{string_bytes};

    ghost name = { λ r. string_bytes r.prefix };

    fn name(&self) -> &str {
        self.prefix.as_str()
    }
}

/// Looks through the rates, place by place, for the first fault.
pub(crate) fn check_rates(rates: &[Rate]) -> Result<(), TariffError>
    ensures good { OnOk result (IsTariff (prices_of rates.now)) }
    ensures refused { IfErr result (λ e. Refuses (prices_of rates.now) e) }
{
    if rates.len() > MOST_RATES {
        return Err(TariffError::TooMany);
    }
    for place in 0..rates.len() {
        if let Err(fault) = check_rate(rates, place) {
            return Err(fault);
        }
    }
    Ok(())
}

/// Whether the rate at this place is good beside those before it.
fn check_rate(rates: &[Rate], place: usize) -> Result<(), TariffError>
    requires { place < length rates.now }
    ensures good { OnOk result (IsGoodAt (prices_of rates.now) place) }
    ensures refused { IfErr result (λ e. IsFault (prices_of rates.now) place e) }
{
    let rate = &rates[place];
    if !is_prefix(rate.prefix.as_bytes()) {
        return Err(TariffError::BadPrefix { place });
    }
    if rate.credits < 1 || rate.credits > LARGEST_COST {
        return Err(TariffError::BadCredits { place });
    }
    match first_like(rates, place) {
        Some(first) => Err(TariffError::Duplicate {
            first,
            second: place,
        }),
        None => Ok(()),
    }
}

/// Whether these octets are a prefix: at most 20 digits.
fn is_prefix(octets: &[u8]) -> bool
    ensures { IsTrue result ↔ IsPrefix octets.now }
{
    octets.len() <= MOST_DIGITS && octets.iter().all(|octet| octet.is_ascii_digit())
}
