//! What the messages of each account take.

ghost use Rattle.std.specs.Prelude.{◌≡◌, ℕ, IfOk, length, slice_get, Some};
ghost use Rattle.sms_files.specs.Totals.{FitIn, Fits, IsGrown, cost_at, left_in, more, nothing};
ghost use Rattle.sms_files.specs.Quotes.{credits_at};
ghost use Rattle.sms_files.specs.declared.report.quote.total.Total.{Total as TheTotal};

use crate::memory::{NoMemory, push};
use crate::report::quote::quote::{Quote, Verdict};
use sms_book::Opening;
use std::alloc::Global;

/// How many messages of an account pass, their parts, and their cost in credits.
#[derive(Clone, Copy, Debug, PartialEq, Eq)]
pub(crate) struct Total {
    pub(crate) messages: u64,
    pub(crate) parts: u64,
    pub(crate) cost: u64,
}

/// Those of this number of accounts before any message.
pub(crate) fn no_totals(alloc: Global, accounts: usize) -> Result<Vec<Total>, NoMemory>
    ensures count { IfOk result (λ totals. length totals.items ≡ accounts) }
    ensures each { IfOk result (λ totals. (i : ℕ) (t : TheTotal) → slice_get totals.items i ≡ Some t → t ≡ nothing) }
{
    let mut totals = Vec::new(alloc);
    for _ in 0..accounts {
        push(
            &mut totals,
            Total {
                messages: 0,
                parts: 0,
                cost: 0,
            },
        )?;
    }
    Ok(totals)
}

/// With a message that passes, of an account that has these credits.
fn with_message(credits: u64, total: Total, quote: Quote) -> Total
    requires { Fits credits quote total }
    ensures { result ≡ more total quote }
{
    Total {
        messages: total.messages + 1,
        parts: total.parts + quote.parts,
        cost: total.cost + quote.cost,
    }
}

/// The total at a place.
fn total_at(totals: &[Total], place: usize) -> Option<Total>
    ensures { result ≡ slice_get totals.now place }
{
    totals.get(place).copied()
}

/// The credits of the account at a place; nothing where there is none.
fn credits_of(openings: &[Opening], place: usize) -> u64
    ensures { result ≡ credits_at openings.now place }
{
    match openings.get(place) {
        Some(opening) => opening.credits,
        None => 0,
    }
}

/// What the messages of the account at a place cost so far.
fn cost_of(totals: &[Total], place: usize) -> u64
    ensures { result ≡ cost_at totals.now place }
{
    match total_at(totals, place) {
        Some(total) => total.cost,
        None => 0,
    }
}

/// What is left of the credits of an account.
pub(crate) fn left_of(openings: &[Opening], totals: &[Total], account: Option<usize>) -> u64
    ensures { result ≡ left_in openings.now totals.now account }
{
    match account {
        None => 0,
        Some(place) => credits_of(openings, place).saturating_sub(cost_of(totals, place)),
    }
}

/// Counts a message of an account, where it passes.
pub(crate) fn count(
    openings: &[Opening],
    totals: &mut Vec<Total>,
    account: Option<usize>,
    quote: Quote,
)
    requires { FitIn openings.now account quote totals.old.items }
    ensures length { length totals.new.items ≡ length totals.old.items }
    ensures grown { (i : ℕ) → IsGrown i account quote (slice_get totals.old.items i) (slice_get totals.new.items i) }
{
    if quote.verdict != Verdict::Passes {
        return;
    }
    let Some(place) = account else {
        return;
    };
    let Some(total) = total_at(totals.as_slice(), place) else {
        return;
    };
    totals[place] = with_message(credits_of(openings, place), total, quote);
}
