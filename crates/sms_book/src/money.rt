//! What a worker does with an account's credits: the row and the share after it.

ghost use Rattle.std.specs.Prelude.{◌≡◌};
ghost use Rattle.sms_book.specs.Money.{CanMove, FitsMove, moved_row, moved_amounts};

use crate::amounts::Amounts;
use sms_core::Row;

/// What a worker does with credits of an account.
#[derive(Clone, Copy)]
pub enum Move {
    Reserve,
    Charge,
    GiveBack,
}

/// The account's row after the move.
pub fn row_after(row: Row, what: Move, n: u64) -> Row
    requires { CanMove what n row }
    ensures { result ≡ moved_row what n row }
{
    match what {
        Move::Reserve => Row {
            free: row.free - n,
            reserved: row.reserved + n,
            ..row
        },
        Move::Charge => Row {
            reserved: row.reserved - n,
            charged: row.charged + n,
            ..row
        },
        Move::GiveBack => Row {
            free: row.free + n,
            reserved: row.reserved - n,
            returned: row.returned + n,
            ..row
        },
    }
}

/// What the share has of the account after the move.
pub fn amounts_after(had: Amounts, what: Move, n: u64) -> Amounts
    requires { FitsMove what n had }
    ensures { result ≡ moved_amounts what n had }
{
    match what {
        Move::Reserve => Amounts {
            reserved: had.reserved + n,
            ..had
        },
        Move::Charge => Amounts {
            reserved: had.reserved - n,
            charged: had.charged + n,
            ..had
        },
        Move::GiveBack => Amounts {
            reserved: had.reserved - n,
            returned: had.returned + n,
            ..had
        },
    }
}
