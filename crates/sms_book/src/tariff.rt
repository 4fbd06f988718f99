//! What a segment costs, by the prefix of its destination.

ghost use Rattle.std.specs.Prelude.{◌≡◌, ℕ, ◌<◌, ◌≤◌, ◌↔◌, length, slice_index, IfOk, IfErr, IsErrOf, IfSome, IsNone};
ghost use Rattle.sms_core.specs.Limits.{largest_cost};
ghost use Rattle.sms_book.specs.Limits.{most_rates};
ghost use Rattle.sms_book.specs.Openings.{HaveOneName};
ghost use Rattle.sms_book.specs.Tariffs.{prices_of, price_at, prefixes, digits_of, cost_of, IsPrefix, IsCredits, IsTariff, IsReached, IsLongest, Begins};
ghost use Rattle.sms_book.specs.Indexes.{IsIndex, IsFound, IsRoom, IsShared, TariffStands};
ghost use Rattle.sms_book.specs.declared.error.TariffError.TheVariants.{TooMany, BadPrefix, BadCredits, Duplicate};

use crate::error::TariffError;
use crate::limits::MOST_DIGITS;
use crate::rate::{Rate, check_rates};
use std::alloc::{AllocError, Global};
use std::cmp::Ordering;
use std::marker::Model;

/// Rates by prefix. Contracts see them as they were given.
#[derive(Drop)]
pub struct Tariff {
    pub(crate) rates: Vec<Rate>,
    // The rates' places in the order of their prefixes.
    order: Vec<usize>,
}

impl Model for Tariff {
    ghost use Rattle.std.specs.Prelude.{List};
    ghost use Rattle.sms_book.specs.Tariffs.{Price, prices_of};
    ghost use Rattle.sms_book.specs.Indexes.{TariffStands};

    ghost Value = { List Price };

    ghost view = { λ t. prices_of t.rates.items };

    ghost invariant = { λ t. TariffStands (prices_of t.rates.items) t.order.items };
}

impl Tariff {
    /// The tariff of these rates. `TooMany` comes first, above 1,000 rates; then, place by place,
    /// `BadPrefix` (not 0 to 20 digits), `BadCredits` (not 1 to 1,000) and `Duplicate` (an earlier
    /// rate has the prefix). Memory is asked for once all rates are good.
    pub fn new(alloc: Global, rates: &[Rate]) -> Result<Tariff, TariffError>
        ensures many { IsErrOf result TooMany ↔ (most_rates < length rates.now) }
        ensures prefix { (place : ℕ) → IsErrOf result (BadPrefix place) ↔ (IsReached (prices_of rates.now) place × ¬ (IsPrefix (price_at (prices_of rates.now) place).prefix)) }
        ensures credits { (place : ℕ) → IsErrOf result (BadCredits place) ↔ (IsReached (prices_of rates.now) place × IsPrefix (price_at (prices_of rates.now) place).prefix × ¬ (IsCredits (price_at (prices_of rates.now) place).credits)) }
        ensures double { (first second : ℕ) → IsErrOf result (Duplicate first second) ↔ (IsReached (prices_of rates.now) second × IsPrefix (price_at (prices_of rates.now) second).prefix × IsCredits (price_at (prices_of rates.now) second).credits × HaveOneName (prefixes (prices_of rates.now)) first second) }
        ensures good { IfOk result (λ t. (t ≡ prices_of rates.now) × IsTariff t) }
    {
        if let Err(fault) = check_rates(rates) {
            return Err(fault);
        }
        match kept(alloc, rates) {
            Ok(tariff) => Ok(tariff),
            Err(_no_memory) => Err(TariffError::OutOfMemory),
        }
    }

    /// What a segment to this destination costs, whose leading `+` is left out: the credits of the
    /// rate with the longest prefix of it, and 1 where there is none.
    pub fn cost(&self, destination: &str) -> u32
        ensures is { result ≡ cost_of self.now destination.now }
        ensures bounds { (1 ≤ result) × (result ≤ largest_cost) }
    {
        let digits = without_plus(destination.as_bytes());
        match longest_rate(self.rates.as_slice(), self.order.as_slice(), digits) {
            Some(place) => self.rates[place].credits,
            None => 1,
        }
    }
}

/// The digits of an address, without its leading `+`.
pub fn without_plus(address: &[u8]) -> &[u8]
    ensures { result.now ≡ digits_of address.now }
{
    match address.split_first() {
        Some((first, rest)) if *first == b'+' => rest,
        _ => address,
    }
}

/// The place of the rate with the longest prefix with which these digits begin.
fn longest_rate(rates: &[Rate], order: &[usize], digits: &[u8]) -> Option<usize>
    requires { TariffStands (prices_of rates.now) order.now }
    ensures found { IfSome result (λ place. IsLongest (prices_of rates.now) digits.now place) }
    ensures none { IsNone result → (place : ℕ) → place < length rates.now → ¬ (Begins digits.now (price_at (prices_of rates.now) place).prefix) }
{
    if rates.is_empty() {
        return None;
    }
    let mut most = digits.len().min(MOST_DIGITS);
    loop {
        let at = match seek(rates, order, &digits[..most]) {
            Ok(place) => return Some(place),
            Err(at) => at,
        };
        if at == 0 {
            return None;
        }
        // Of the prefixes before these digits the last begins with each that they begin with.
        let last = order[at - 1];
        let prefix = rates[last].prefix.as_bytes();
        let same = shared(prefix, &digits[..most]);
        if same == prefix.len() {
            return Some(last);
        }
        most = same;
    }
}

/// How many octets at the front of a prefix and of digits are the same.
fn shared(prefix: &[u8], digits: &[u8]) -> usize
    ensures { IsShared prefix.now digits.now result }
{
    let most = prefix.len().min(digits.len());
    for place in 0..most {
        if prefix[place] != digits[place] {
            return place;
        }
    }
    most
}

/// The place of the rate with this prefix, by halving; where there is none, where it would stand
/// among the places in order.
fn seek(rates: &[Rate], order: &[usize], prefix: &[u8]) -> Result<usize, usize>
    requires { (n : ℕ) × (n ≤ length rates.now) × IsIndex (prices_of rates.now) order.now n }
    ensures found { IfOk result (λ place. IsFound (prices_of rates.now) order.now prefix.now place) }
    ensures room { IfErr result (λ at. IsRoom (prices_of rates.now) order.now prefix.now at) }
{
    let mut low = 0;
    let mut high = order.len();
    while low < high {
        let middle = low + (high - low) / 2;
        match rates[order[middle]].prefix.as_bytes().cmp(prefix) {
            Ordering::Less => low = middle + 1,
            Ordering::Greater => high = middle,
            Ordering::Equal => return Ok(order[middle]),
        }
    }
    Err(low)
}

/// The tariff of these rates, which are good.
fn kept(alloc: Global, rates: &[Rate]) -> Result<Tariff, AllocError>
    requires { IsTariff (prices_of rates.now) }
    ensures { IfOk result (λ t. t ≡ prices_of rates.now) }
{
    let order = index_of(alloc, rates)?;
    let mut copies = Vec::with_capacity(alloc, rates.len())?;
    for rate in rates {
        copies.push_reserved(Rate {
            prefix: String::from_str(alloc, rate.prefix.as_str())?,
            credits: rate.credits,
        });
    }
    Ok(Tariff {
        rates: copies,
        order,
    })
}

/// The places of these rates in the order of their prefixes.
fn index_of(alloc: Global, rates: &[Rate]) -> Result<Vec<usize>, AllocError>
    requires { IsTariff (prices_of rates.now) }
    ensures { IfOk result (λ v. IsIndex (prices_of rates.now) v.items (length rates.now)) }
{
    let mut order = Vec::new(alloc);
    for place in 0..rates.len() {
        match seek(rates, order.as_slice(), rates[place].prefix.as_bytes()) {
            Err(at) => order.insert(at, place)?,
            // No earlier rate has this one's prefix.
            Ok(_) => unreachable!(),
        }
    }
    Ok(order)
}
