//! What an entry makes of the books.

mod deciding;
mod paying;
mod returning;
mod stakes;
mod taking;

ghost use Rattle.std.specs.Prelude.{◌≡◌, ◌+◌, ◌≤◌, Some};
ghost use Rattle.sms_ledger.specs.Books.{doubt_of, out_of, row_at, stand_of};
ghost use Rattle.sms_ledger.specs.Kept.{IsSound, state_of};

use crate::books::Books;
use crate::entry::{Row, Stand};
use crate::name::{Name, RunAccount};
use crate::rows::row_in;
pub(crate) use deciding::decide;
pub(crate) use paying::pay;
pub(crate) use returning::give_back;
pub(crate) use stakes::stand_in;
pub(crate) use taking::take;

/// The row of an account for which nothing is paid.
const NO_ROW: Row = Row {
    paid: 0,
    free: 0,
    out: 0,
    doubt: 0,
    spent: 0,
};

/// The row of an account, or of one for which nothing is paid.
pub(crate) fn row_or_none(books: &Books, name: &Name) -> Row
    requires { IsSound books.now }
    ensures row { result ≡ row_at name.now (state_of books.now) }
    ensures free { result.free ≤ result.paid }
{
    match row_in(&books.rows, name) {
        Some(row) => row,
        None => NO_ROW,
    }
}

/// The row of an account of which a run has a stake.
fn covered_row(books: &Books, of: &RunAccount, stand: Stand) -> Row
    requires sound { IsSound books.now }
    requires stands { stand_of of.now.run of.now.account (state_of books.now) ≡ Some stand }
    ensures row { result ≡ row_at of.now.account (state_of books.now) }
    ensures balance { result.paid ≡ result.free + result.out + result.doubt + result.spent }
    ensures outs { out_of stand ≤ result.out }
    ensures doubts { doubt_of stand ≤ result.doubt }
{
    match row_in(&books.rows, &of.account) {
        Some(row) => row,
        None => NO_ROW,
    }
}
