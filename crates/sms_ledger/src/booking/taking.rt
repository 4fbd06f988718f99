//! What runs take.

ghost use Rattle.std.specs.Prelude.{◌≡◌, IfErr, OnOk};
ghost use Rattle.sms_ledger.specs.declared.entry.Entry.TheVariants.{Taken};
ghost use Rattle.sms_ledger.specs.Books.{IsBooked, IsRefused};
ghost use Rattle.sms_ledger.specs.Kept.{IsSound, state_of};

use crate::booking::stakes::add_stake;
use crate::books::Books;
use crate::entry::{Row, Taking};
use crate::refusal::Refusal;
use crate::rows::{change_row, place_in, row_in};
use std::alloc::Global;

/// Books what a run takes.
pub(crate) fn take(books: &mut Books, alloc: Global, t: &Taking) -> Result<(), Refusal>
    requires { IsSound books.old }
    ensures ok { OnOk result (IsBooked (Taken t.now) (state_of books.old) (state_of books.new)) }
    ensures err { IfErr result (IsRefused (Taken t.now) (state_of books.old) (state_of books.new)) }
    ensures sound { IsSound books.new }
{
    let Some(row) = row_in(&books.rows, &t.of.account) else {
        return Err(Refusal::NoAccount);
    };
    if place_in(&books.places, alloc, &t.of)?.is_some() {
        return Err(Refusal::TakenBefore);
    }
    if t.credits > row.free {
        return Err(Refusal::NoCredit);
    }
    let less = Row {
        paid: row.paid,
        free: row.free - t.credits,
        out: row.out + t.credits,
        doubt: row.doubt,
        spent: row.spent,
    };
    add_stake(&mut books.taken, &mut books.places, alloc, t)?;
    change_row(&mut books.rows, &t.of.account, less);
    Ok(())
}
