//! What runs give back.

ghost use Rattle.std.specs.Prelude.{◌≡◌, ◌+◌, IfErr, OnOk};
ghost use Rattle.sms_ledger.specs.declared.entry.Entry.TheVariants.{Returned};
ghost use Rattle.sms_ledger.specs.Books.{IsBooked, IsRefused};
ghost use Rattle.sms_ledger.specs.Kept.{IsSound, state_of};

use crate::booking::covered_row;
use crate::booking::stakes::{set_stand, stand_at};
use crate::books::Books;
use crate::entry::{Row, Stand, Statement};
use crate::refusal::Refusal;
use crate::rows::{change_row, place_in};
use std::alloc::Global;

/// The sum of a statement.
fn sum_of(free: u64, doubt: u64, spent: u64) -> u128
    ensures { result ≡ free + doubt + spent }
{
    u128::from(free) + u128::from(doubt) + u128::from(spent)
}

/// Books a run's statement.
pub(crate) fn give_back(books: &mut Books, alloc: Global, b: &Statement) -> Result<(), Refusal>
    requires { IsSound books.old }
    ensures ok { OnOk result (IsBooked (Returned b.now) (state_of books.old) (state_of books.new)) }
    ensures err { IfErr result (IsRefused (Returned b.now) (state_of books.old) (state_of books.new)) }
    ensures sound { IsSound books.new }
{
    let Some(place) = place_in(&books.places, alloc, &b.of)? else {
        return Err(Refusal::NotTaken);
    };
    let stand = stand_at(&books.taken, place, &b.of);
    let Stand::Out(taken) = stand else {
        return Err(Refusal::BackBefore);
    };
    if sum_of(b.free, b.doubt, b.spent) != u128::from(taken) {
        return Err(Refusal::Unequal);
    }
    let row = covered_row(books, &b.of, stand);
    let back = Row {
        paid: row.paid,
        free: row.free + b.free,
        out: row.out - taken,
        doubt: row.doubt + b.doubt,
        spent: row.spent + b.spent,
    };
    change_row(&mut books.rows, &b.of.account, back);
    set_stand(&mut books.taken, place, &b.of, Stand::Back(b.doubt));
    Ok(())
}
