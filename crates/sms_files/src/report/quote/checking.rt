//! The checks of a message.

ghost use Rattle.std.specs.Prelude.{◌≡◌, ◌≤◌, ◌*◌, IfOk};
ghost use Rattle.sms_files.specs.Quotes.{IsChecked, IsCounted, IsQuoteOf};

use crate::memory::{NoMemory, count_parts};
use crate::report::quote::quote::{Quote, Verdict};
use sms_book::Tariff;
use sms_message::{Message, has_addresses, is_known, part_cost};
use std::alloc::Global;

/// A message that isn't cut.
fn uncut(verdict: Verdict) -> Quote
    ensures { result ≡ record { verdict = verdict; parts = 0; cost = 0 } }
{
    Quote {
        verdict,
        parts: 0,
        cost: 0,
    }
}

/// What this number of parts costs.
fn cost_for(parts: u8, price: u32) -> u64
    requires { 1 ≤ price }
    ensures is { result ≡ parts * price }
    ensures more { parts ≤ result }
{
    u64::from(parts) * u64::from(price)
}

/// The quote of a message whose account has credits enough.
fn checked(
    alloc: Global,
    accounts: usize,
    long: bool,
    tariff: &Tariff,
    message: &Message,
) -> Result<Quote, NoMemory>
    ensures checked { IfOk result (λ q. IsChecked accounts long tariff.now message.now q) }
    ensures counted { IfOk result IsCounted }
{
    if !is_known(message.account, accounts) {
        return Ok(uncut(Verdict::NoAccount));
    }
    if !has_addresses(message) {
        return Ok(uncut(Verdict::BadAddress));
    }
    let Some(parts) = count_parts(alloc, long, message)? else {
        return Ok(uncut(Verdict::TooLong));
    };
    let price = part_cost(tariff, message);
    Ok(Quote {
        verdict: Verdict::Passes,
        parts: u64::from(parts),
        cost: cost_for(parts, price),
    })
}

/// The quote of a message whose account has `free` credits left.
pub(crate) fn quote_of(
    alloc: Global,
    accounts: usize,
    long: bool,
    tariff: &Tariff,
    free: u64,
    message: &Message,
) -> Result<Quote, NoMemory>
    ensures quote { IfOk result (λ q. IsQuoteOf accounts long tariff.now free message.now q) }
    ensures counted { IfOk result IsCounted }
{
    let quote = checked(alloc, accounts, long, tariff, message)?;
    if quote.verdict == Verdict::Passes && quote.cost > free {
        return Ok(Quote {
            verdict: Verdict::NoCredit,
            parts: quote.parts,
            cost: quote.cost,
        });
    }
    Ok(quote)
}
