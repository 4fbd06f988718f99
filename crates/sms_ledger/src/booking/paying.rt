//! Payments.

ghost use Rattle.std.specs.Prelude.{◌≡◌, ℕ, List, IfErr, OnErr, OnOk};
ghost use Rattle.sms_ledger.specs.declared.entry.Entry.TheVariants.{Paid};
ghost use Rattle.sms_ledger.specs.Books.{IsBooked, IsRefused, with_opened};
ghost use Rattle.sms_ledger.specs.Kept.{IsSound, set_at, state_of};
ghost use Rattle.std.specs.HashMap.{get_by_text};

use crate::booking::row_or_none;
use crate::books::Books;
use crate::entry::{Payment, Row};
use crate::name::Name;
use crate::refusal::Refusal;
use crate::rows::{change_row, keep_payment, payment_of, put_row};
use sms_files::memory::{self, NoMemory};
use std::alloc::Global;
use std::collections::HashMap;

/// The most that is paid for an account in all: 2^40.
const MOST: u64 = 0x100_0000_0000;

/// Gives an account this row. One that has none is opened.
fn give_row(
    opened: &mut Vec<Name>,
    rows: &mut HashMap<String, Row>,
    alloc: Global,
    name: &Name,
    row: Row,
) -> Result<(), NoMemory>
    ensures opened { OnOk result (opened.new.items ≡ with_opened name.now (get_by_text rows.old name.now) opened.old.items) }
    ensures ok { OnOk result ((q : List ℕ) → get_by_text rows.new q ≡ set_at name.now row (λ p. get_by_text rows.old p) q) }
    ensures err { OnErr result ((q : List ℕ) → get_by_text rows.new q ≡ get_by_text rows.old q) }
{
    if change_row(rows, name, row) {
        return Ok(());
    }
    let copy = name.copy(alloc)?;
    memory::push(opened, copy)?;
    put_row(rows, alloc, name, row)
}

/// Books a payment.
pub(crate) fn pay(books: &mut Books, alloc: Global, p: Payment) -> Result<(), Refusal>
    requires { IsSound books.old }
    ensures ok { OnOk result (IsBooked (Paid p) (state_of books.old) (state_of books.new)) }
    ensures err { IfErr result (IsRefused (Paid p) (state_of books.old) (state_of books.new)) }
    ensures sound { IsSound books.new }
{
    if p.credits == 0 {
        return Err(Refusal::NothingPaid);
    }
    if payment_of(&books.payments, &p.reference).is_some() {
        return Err(Refusal::PaidBefore);
    }
    let row = row_or_none(books, &p.account);
    if p.credits > MOST || row.paid > MOST - p.credits {
        return Err(Refusal::TooMuch);
    }
    let paid_row = Row {
        paid: row.paid + p.credits,
        free: row.free + p.credits,
        out: row.out,
        doubt: row.doubt,
        spent: row.spent,
    };
    give_row(
        &mut books.opened,
        &mut books.rows,
        alloc,
        &p.account,
        paid_row,
    )?;
    keep_payment(&mut books.payments, p)?;
    Ok(())
}
