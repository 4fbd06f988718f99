//! A ledger in memory, to which entries are booked.

ghost use Rattle.std.specs.Prelude.{◌≡◌, ◌+◌, IfErr, IfOk, IfSome, OnOk, filter, map};
ghost use Rattle.sms_ledger.specs.Books.{IsBooked, IsRefused, is_out, nothing, stand_of};
ghost use Rattle.sms_ledger.specs.Kept.{IsSound, state_of};

use crate::booking::{decide, give_back, pay, stand_in, take};
use crate::books::Books;
use crate::entry::{Entry, Row, Stake, Stand};
use crate::name::{Name, RunAccount};
use crate::refusal::Refusal;
use crate::rows::row_in;
use sms_files::memory::{self, NoMemory};
use std::alloc::Global;
use std::collections::HashMap;

/// A ledger's books.
#[derive(Drop)]
pub struct Ledger {
    pub(crate) books: Books,
    ghost sound: { IsSound books },
}

impl Ledger {
    /// A ledger without entries.
    pub fn new(alloc: Global) -> Ledger
        ensures { state_of result.books ≡ nothing }
    {
        let books = Books {
            rows: HashMap::new(alloc),
            opened: Vec::new(alloc),
            taken: Vec::new(alloc),
            places: HashMap::new(alloc),
            payments: HashMap::new(alloc),
            parts: HashMap::new(alloc),
        };
        Ledger { books }
    }

    /// Books an entry, if it may follow those before it. Where memory is refused the books still balance,
    /// but an entry may be booked in part: drop the ledger and append nothing.
    pub fn book(&mut self, alloc: Global, entry: &Entry) -> Result<(), Refusal>
        ensures ok { OnOk result (IsBooked entry.now (state_of self.old.books) (state_of self.new.books)) }
        ensures err { IfErr result (IsRefused entry.now (state_of self.old.books) (state_of self.new.books)) }
    {
        match entry {
            Entry::Paid(p) => pay(&mut self.books, alloc, p.copy(alloc)?),
            Entry::Taken(t) => take(&mut self.books, alloc, t),
            Entry::Returned(b) => give_back(&mut self.books, alloc, b),
            Entry::Decided(d) => decide(&mut self.books, alloc, d),
        }
    }

    /// The same of an entry that nobody needs afterwards, so that a payment's names aren't copied.
    pub(crate) fn enter(&mut self, alloc: Global, entry: Entry) -> Result<(), Refusal>
        ensures ok { OnOk result (IsBooked entry (state_of self.old.books) (state_of self.new.books)) }
        ensures err { IfErr result (IsRefused entry (state_of self.old.books) (state_of self.new.books)) }
    {
        match entry {
            Entry::Paid(p) => pay(&mut self.books, alloc, p),
            other => self.book(alloc, &other),
        }
    }

    /// Where an account's credits are, if it is opened.
    pub fn row(&self, account: &Name) -> Option<Row>
        ensures row { result ≡ (state_of self.now.books).accounts account.now }
        ensures balance { IfSome result (λ row. row.paid ≡ row.free + row.out + row.doubt + row.spent) }
    {
        row_in(&self.books.rows, account)
    }

    /// The accounts, in the order in which they were opened.
    pub fn accounts(&self) -> &[Name]
        ensures { result.now ≡ (state_of self.now.books).opened }
    {
        self.books.opened.as_slice()
    }

    /// What each run took of each account, in the order in which it was taken.
    pub fn stakes(&self) -> &[Stake]
        ensures { result.now ≡ (state_of self.now.books).stakes }
    {
        self.books.taken.as_slice()
    }

    /// How what a run took of an account stands, if it took some.
    pub fn stand(&self, alloc: Global, of: &RunAccount) -> Result<Option<Stand>, NoMemory>
        ensures { IfOk result (λ stand. stand ≡ stand_of of.now.run of.now.account (state_of self.now.books)) }
    {
        stand_in(&self.books, alloc, of)
    }

    /// What runs have out, whose statements aren't booked.
    pub fn open_stakes(&self, alloc: Global) -> Result<Vec<&Stake>, NoMemory>
        ensures { IfOk result (λ stakes. map (λ stake. stake.now) stakes.items ≡ filter is_out (state_of self.now.books).stakes) }
    {
        let mut open = Vec::new(alloc);
        for stake in self.books.taken.as_slice() {
            if let Stand::Out(_) = stake.stand {
                memory::push(&mut open, stake)?;
            }
        }
        Ok(open)
    }
}
