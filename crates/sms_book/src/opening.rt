//! The accounts with which a book opens.

ghost use Rattle.std.specs.Prelude.{◌≡◌, ◌≢◌, ◌⊎◌, ℕ, ◌+◌, ◌^◌, ◌<◌, ◌≤◌, ◌↔◌, length, slice_index, slice_index_or, IfOk, IfSome, IsErrOf, IsNone, IsSome, IsTrue};
ghost use Rattle.sms_book.specs.Openings.{names_of, credits_of, GoodCount, HaveOneName, IsFirstDouble, NoDouble, AllSmall};
ghost use Rattle.sms_book.specs.declared.error.BookError.TheVariants.{BadCount, Duplicate, AmountTooLarge, NoAccount, NoCredit};

use crate::blank::{Blank, make_blank};
use crate::error::BookError;
use crate::limits::MOST_WORKERS;
use crate::named::{Named, first_like};
use sms_core::{MOST_ACCOUNTS, MOST_TOPPED};
use std::alloc::{AllocError, Global};

/// An account as its book opens: its name, and the credits that it begins with.
#[derive(Debug, Drop)]
pub struct Opening {
    pub name: String,
    pub credits: u64,
}

impl Named for Opening {
    ghost use Rattle.std.specs.Prelude.{string_bytes};

    ghost name = { λ o. string_bytes o.name };

    fn name(&self) -> &str {
        self.name.as_str()
    }
}

/// The first two places with one name.
fn first_double(openings: &[Opening]) -> Option<(usize, usize)>
    ensures found { IfSome result (λ p. IsFirstDouble (names_of openings.now) p.0 p.1) }
    ensures none { IsNone result → NoDouble (names_of openings.now) }
{
    for second in 0..openings.len() {
        if let Some(first) = first_like(openings, second) {
            return Some((first, second));
        }
    }
    None
}

fn are_small(openings: &[Opening]) -> bool
    ensures { IsTrue result ↔ AllSmall (credits_of openings.now) }
{
    for opening in openings {
        if opening.credits > MOST_TOPPED {
            return false;
        }
    }
    true
}

/// Each account's credits, in their places.
fn credits_in(alloc: Global, openings: &[Opening]) -> Result<Vec<u64>, AllocError>
    ensures { IfOk result (λ v. v.items ≡ credits_of openings.now) }
{
    let mut credits = Vec::with_capacity(alloc, openings.len())?;
    for opening in openings {
        credits.push_reserved(opening.credits);
    }
    Ok(credits)
}

/// A book with these accounts, not yet open, for so many workers. An account is its place in the
/// list. `BadCount` comes first, then `Duplicate` with the first place whose name an earlier one
/// has, then `AmountTooLarge` where one begins with more than 2^40 credits.
pub fn open_book(alloc: Global, openings: &[Opening], workers: usize) -> Result<Blank, BookError>
    ensures count { IsErrOf result BadCount ↔ ¬ (GoodCount openings.now workers) }
    ensures double { (first second : ℕ) → IsErrOf result (Duplicate first second) ↔ (GoodCount openings.now workers × IsFirstDouble (names_of openings.now) first second) }
    ensures large { IsErrOf result AmountTooLarge ↔ (GoodCount openings.now workers × NoDouble (names_of openings.now) × ¬ (AllSmall (credits_of openings.now))) }
    ensures others { (result ≢ Err NoAccount) × ((free needed : ℕ) → result ≢ Err (NoCredit free needed)) }
    ensures good { IfOk result (λ b. GoodCount openings.now workers × NoDouble (names_of openings.now) × AllSmall (credits_of openings.now)) }
    ensures blank { IfOk result (λ b. (b.credits ≡ credits_of openings.now) × (b.book.accounts ≡ length openings.now) × (b.book.workers ≡ workers)) }
    ensures name { IfOk result (λ b. b.book.opening ≡ credits_of openings.now) }
{
    let accounts = openings.len();
    let most = MOST_ACCOUNTS as usize;
    if accounts == 0 || accounts > most || workers == 0 || workers > MOST_WORKERS {
        return Err(BookError::BadCount);
    }
    if let Some((first, second)) = first_double(openings) {
        return Err(BookError::Duplicate { first, second });
    }
    if !are_small(openings) {
        return Err(BookError::AmountTooLarge);
    }
    let Ok(credits) = credits_in(alloc, openings) else {
        return Err(BookError::OutOfMemory);
    };
    let Ok(blank) = make_blank(alloc, credits, workers) else {
        return Err(BookError::OutOfMemory);
    };
    Ok(blank)
}
