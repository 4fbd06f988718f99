//! Where the credits of all accounts are, as a table.

ghost use Rattle.std.specs.Prelude.{◌≡◌, ◌++◌, IfOk, OnOk, string_bytes};
ghost use Rattle.sms_ledger.specs.Kept.{IsSound, state_of};
ghost use Rattle.sms_ledger.specs.Balance.{account_text as text_of_account, balance_line, balance_text as text_of_balance, numbers_text};

use crate::booking::row_or_none;
use crate::books::Books;
use crate::entry::Row;
use crate::ledger::Ledger;
use crate::name::Name;
use crate::text::write_number;
use sms_files::memory::{self, NoMemory};
use std::alloc::Global;

/// The header of the balance.
const HEADER: &str = "account,paid,free,out,doubt,spent\n";

fn write_numbers(text: &mut String, row: Row) -> Result<(), NoMemory>
    ensures { OnOk result (string_bytes text.new ≡ string_bytes text.old ++ numbers_text row) }
{
    write_number(text, row.paid)?;
    write_number(text, row.free)?;
    write_number(text, row.out)?;
    write_number(text, row.doubt)?;
    write_number(text, row.spent)?;
    memory::append(text, "\n")
}

fn write_balance(text: &mut String, books: &Books, account: &Name) -> Result<(), NoMemory>
    requires { IsSound books.now }
    ensures { OnOk result (string_bytes text.new ≡ string_bytes text.old ++ balance_line (state_of books.now) account.now) }
{
    memory::append(text, account.as_str())?;
    write_numbers(text, row_or_none(books, account))
}

impl Ledger {
    /// The balance: CSV without quotes, with the header `account,paid,free,out,doubt,spent` and a record for
    /// each account, in the order in which they were opened.
    pub fn balance_text(&self, alloc: Global) -> Result<String, NoMemory>
        ensures { IfOk result (λ text. string_bytes text ≡ text_of_balance (state_of self.now.books)) }
    {
        let mut text = memory::text_of(alloc, HEADER)?;
        for account in self.books.opened.as_slice() {
            write_balance(&mut text, &self.books, account)?;
        }
        Ok(text)
    }

    /// The balance of one account alone: the header and its record.
    pub fn account_text(&self, alloc: Global, account: &Name) -> Result<String, NoMemory>
        ensures { IfOk result (λ text. string_bytes text ≡ text_of_account (state_of self.now.books) account.now) }
    {
        let mut text = memory::text_of(alloc, HEADER)?;
        write_balance(&mut text, &self.books, account)?;
        Ok(text)
    }
}
