//! The cashier's share of a book.

ghost use Rattle.std.specs.Prelude.{◌≡◌, length};

use crate::name::BookName;
use crate::rule::View;
use atomic_table::Badge;
use std::marker::{Model, PhantomData};

/// Whether a book is sealed.
pub trait Sealing {
    ghost use Rattle.std.specs.Prelude.{Bool};

    ghost sealed: { Bool };
}

/// A book whose accounts may be topped up.
#[derive(Drop)]
pub struct Unsealed;

impl Sealing for Unsealed {
    ghost use Rattle.std.specs.Prelude.{false};

    ghost sealed = { false };
}

/// A book whose accounts keep the top-ups that they begin with: its till tops nothing up.
#[derive(Drop)]
pub struct Sealed;

impl Sealing for Sealed {
    ghost use Rattle.std.specs.Prelude.{true};

    ghost sealed = { true };
}

/// The cashier's share of the book of that name, through which accounts are topped up; that of a
/// sealed book tops nothing up, and `gather` alone takes it. Contracts see the credits that went
/// through it, by account, the opening credits among them.
#[derive(Drop)]
pub struct Till<N: BookName, S: Sealing = Unsealed> {
    pub(crate) topped: Vec<u64>,
    pub(crate) seat: Badge<View>,
    pub(crate) of: PhantomData<N>,
    pub(crate) sealing: PhantomData<S>,
}

impl<N: BookName, S: Sealing> Model for Till<N, S> {
    ghost use Rattle.std.specs.Prelude.{ℕ, List};
    ghost use Rattle.sms_book.specs.Standing.{TillStands};

    ghost Value = { List ℕ };

    ghost view = { λ t. t.topped.items };

    ghost invariant = { λ t. TillStands S.sealed N.book t.seat.table_id t.seat.views t.topped.items };
}

impl<N: BookName, S: Sealing> Till<N, S> {
    /// How many accounts the book has.
    #[inline(always)]
    pub(crate) fn accounts(&self) -> usize
        ensures { (result ≡ length self.now) × (result ≡ N.book.accounts) }
    {
        self.topped.len()
    }
}
