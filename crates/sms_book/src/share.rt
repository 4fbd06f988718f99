//! A worker's share of a book.

ghost use Rattle.std.specs.Prelude.{◌≡◌, length};
ghost use Rattle.sms_book.specs.Portions.{amounts_at};

use crate::amounts::Amounts;
use crate::name::BookName;
use crate::rule::View;
use atomic_table::Badge;
use std::marker::{Model, PhantomData};

/// What one worker moved in the book of that name. Contracts see its number in the book, which no
/// other share of it has, and its amounts by account.
#[derive(Drop)]
pub struct Shares<N: BookName> {
    pub(crate) amounts: Vec<Amounts>,
    pub(crate) seat: Badge<View>,
    pub(crate) of: PhantomData<N>,
}

impl<N: BookName> Model for Shares<N> {
    ghost use Rattle.sms_book.specs.Shares.{Share, number_of};
    ghost use Rattle.sms_book.specs.Standing.{ShareStands};

    ghost Value = { Share };

    ghost view = { λ s. record { number = number_of s.seat.views; amounts = s.amounts.items } };

    ghost invariant = { λ s. ShareStands N.book s.seat.table_id s.seat.views s.amounts.items };
}

impl<N: BookName> Shares<N> {
    /// How many accounts the book has.
    pub fn accounts(&self) -> usize
        ensures share { result ≡ length self.now.amounts }
        ensures book { result ≡ N.book.accounts }
    {
        self.amounts.len()
    }

    /// The credits of an account that this share holds reserved; 0 where there is no such account.
    pub fn reserved(&self, account: usize) -> u64
        ensures { result ≡ (amounts_at self.now.amounts account).reserved }
    {
        match self.amounts.get(account) {
            Some(amounts) => amounts.reserved,
            None => 0,
        }
    }
}
