//! What a command books, and the lines of it that are appended to the ledger's file.

ghost use Rattle.std.specs.Prelude.{◌≡◌, ◌++◌, IfErr, IfOk, MatchOption, OnOk, string_bytes};
ghost use Rattle.sms_ledger.specs.Kept.{state_of};
ghost use Rattle.sms_ledger.specs.Posting.{ArePosted, IsKnown, IsStopped, IsToppedUp, Refuses, is_deposit, is_known as known, returns_of, return_of, taking_of, takings_of};

use crate::entry::{Deposit, Entry, Payment, Stand, Statement, Taking};
use crate::ledger::Ledger;
use crate::name::{Name, Run, RunAccount};
use crate::refusal::Refusal;
use crate::rows::payment_of;
use crate::text::write_entry;
use sms_core::Row as RunRow;
use sms_files::memory::{self, NoMemory};
use std::alloc::Global;

/// Whether a payment is the one that was booked.
fn is_same(p: &Payment, deposit: &Deposit) -> bool
    ensures { result ≡ is_deposit p.now deposit.now }
{
    deposit.account.as_str() == p.account.as_str() && deposit.credits == p.credits
}

impl Ledger {
    /// Whether the same payment, by its reference, is booked.
    fn is_known(&self, p: &Payment) -> bool
        ensures { result ≡ known p.now (state_of self.now.books) }
    {
        match payment_of(&self.books.payments, &p.reference) {
            Some(deposit) => is_same(p, deposit),
            None => false,
        }
    }

    /// Books a top-up that is made at this time, in milliseconds since 1970 UTC, and answers its line. A
    /// payment that is booked, with its reference, account and credits, isn't booked again: there is no
    /// line. Where a refusal is answered append nothing; where memory is refused drop the ledger too.
    pub fn top_up(
        &mut self,
        alloc: Global,
        time: u64,
        payment: Payment,
    ) -> Result<Option<String>, Refusal>
        ensures ok { IfOk result (λ line. MatchOption line (IsKnown payment (state_of self.old.books) (state_of self.new.books)) (λ text. IsToppedUp time payment (state_of self.old.books) (state_of self.new.books) (string_bytes text))) }
        ensures err { IfErr result (Refuses payment (state_of self.old.books) (state_of self.new.books)) }
    {
        if self.is_known(&payment) {
            return Ok(None);
        }
        let entry = Entry::Paid(payment);
        self.book(alloc, &entry)?;
        let mut text = String::new(alloc);
        write_entry(&mut text, time, &entry)?;
        Ok(Some(text))
    }

    /// Books entries that are made at this time, in milliseconds since 1970 UTC, one after another, and
    /// answers their lines: all of them, or the first refusal. Then some may be booked: drop the ledger and
    /// append nothing.
    pub fn post(&mut self, alloc: Global, time: u64, entries: &[Entry]) -> Result<String, Refusal>
        ensures ok { IfOk result (λ text. ArePosted time entries.now (state_of self.old.books) (state_of self.new.books) (string_bytes text)) }
        ensures err { IfErr result (IsStopped entries.now (state_of self.old.books)) }
    {
        let mut text = String::new(alloc);
        for entry in entries {
            if let Err(refusal) = self.book(alloc, entry) {
                return Err(refusal);
            }
            write_entry(&mut text, time, entry)?;
        }
        Ok(text)
    }

    /// The entries by which a run takes all free credits of accounts, which should be distinct. Of an account that isn't
    /// opened or has none it takes nothing.
    pub fn takings(
        &self,
        alloc: Global,
        run: &Run,
        accounts: &[Name],
    ) -> Result<Vec<Entry>, NoMemory>
        ensures { IfOk result (λ entries. entries.items ≡ takings_of run.now (state_of self.now.books) accounts.now) }
    {
        let mut entries = Vec::new(alloc);
        for account in accounts {
            self.add_taking(&mut entries, alloc, run, account)?;
        }
        Ok(entries)
    }

    fn add_taking(
        &self,
        entries: &mut Vec<Entry>,
        alloc: Global,
        run: &Run,
        account: &Name,
    ) -> Result<(), NoMemory>
        ensures { OnOk result (entries.new.items ≡ entries.old.items ++ taking_of run.now (state_of self.now.books) account.now) }
    {
        let Some(row) = self.row(account) else {
            return Ok(());
        };
        if row.free == 0 {
            return Ok(());
        }
        let of = RunAccount::of(alloc, run, account)?;
        let taking = Taking {
            of,
            credits: row.free,
        };
        memory::push(entries, Entry::Taken(taking))
    }

    /// The entries by which a run's statement is booked, of its accounts and their rows: for each account of
    /// which the run has credits out, what is free, reserved (in doubt) and charged (spent).
    pub fn returns(
        &self,
        alloc: Global,
        run: &Run,
        accounts: &[Name],
        rows: &[RunRow],
    ) -> Result<Vec<Entry>, NoMemory>
        ensures { IfOk result (λ entries. entries.items ≡ returns_of run.now (state_of self.now.books) accounts.now rows.now) }
    {
        let mut entries = Vec::new(alloc);
        let mut place = 0;
        for account in accounts {
            let Some(row) = rows.get(place) else {
                return Ok(entries);
            };
            self.add_return(&mut entries, alloc, run, account, row)?;
            place += 1;
        }
        Ok(entries)
    }

    fn add_return(
        &self,
        entries: &mut Vec<Entry>,
        alloc: Global,
        run: &Run,
        account: &Name,
        row: &RunRow,
    ) -> Result<(), NoMemory>
        ensures { OnOk result (entries.new.items ≡ entries.old.items ++ return_of run.now (state_of self.now.books) account.now row.now) }
    {
        let of = RunAccount::of(alloc, run, account)?;
        let Some(Stand::Out(_taken)) = self.stand(alloc, &of)? else {
            return Ok(());
        };
        let statement = Statement {
            of,
            free: row.free,
            doubt: row.reserved,
            spent: row.charged,
        };
        memory::push(entries, Entry::Returned(statement))
    }
}
