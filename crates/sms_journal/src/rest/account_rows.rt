//! The rows of accounts, as the lines of a report make them.

ghost use Rattle.std.specs.Prelude.{◌≡◌, [], IfOk, List, slice_get};
ghost use Rattle.sms_book.specs.declared.opening.Opening.{Opening as TheOpening};
ghost use Rattle.sms_core.specs.Rows.{Entry, IsBalanced};
ghost use Rattle.sms_message.specs.Ends.{phase_of};
ghost use Rattle.sms_journal.specs.Stages.{AreRowsOf, IsAdded, entry_of, grown, opened as opened_with};

use sms_book::Opening;
use sms_core::Row;
use sms_files::memory::{self, NoMemory};
use sms_message::Outcome;
use std::alloc::Global;

/// The row of an account of which no part is known.
fn opened(opening: &Opening) -> Row
    ensures { result ≡ opened_with opening.now.credits }
{
    Row {
        topped: opening.credits,
        free: opening.credits,
        reserved: 0,
        charged: 0,
        returned: 0,
    }
}

/// The rows of accounts of which no part is known.
pub(crate) fn rows_of(alloc: Global, openings: &[Opening]) -> Result<Vec<Row>, NoMemory>
    ensures { IfOk result (λ rows. AreRowsOf openings.now [] rows.items) }
{
    let mut rows = Vec::new(alloc);
    for opening in openings {
        memory::push(&mut rows, opened(opening))?;
    }
    Ok(rows)
}

/// The row with a part of this cost that came to this; none where the account lacks the credits for it.
fn with_part(row: Row, cost: u64, outcome: Outcome) -> Option<Row>
    ensures { IsBalanced row → result ≡ grown (phase_of outcome) cost row }
{
    match outcome {
        Outcome::Charged => Some(Row {
            free: row.free.checked_sub(cost)?,
            charged: row.charged.checked_add(cost)?,
            ..row
        }),
        Outcome::Unanswered => Some(Row {
            free: row.free.checked_sub(cost)?,
            reserved: row.reserved.checked_add(cost)?,
            ..row
        }),
        Outcome::Refused | Outcome::Unsent => Some(Row {
            returned: row.returned.checked_add(cost)?,
            ..row
        }),
    }
}

/// The row at a place.
pub(crate) fn row_at(rows: &[Row], place: usize) -> Option<Row>
    ensures { result ≡ slice_get rows.now place }
{
    rows.get(place).copied()
}

/// Adds a part of an account to its row, and says whether the account has the credits for it.
pub(crate) fn add_part(rows: &mut Vec<Row>, account: usize, cost: u32, outcome: Outcome) -> bool
    ensures { (openings : List TheOpening) (entries : List Entry) → AreRowsOf openings entries rows.old.items
        → IsAdded openings entries (entry_of account cost outcome) result rows.new.items }
{
    let Some(row) = row_at(rows.as_slice(), account) else {
        return false;
    };
    let Some(grown) = with_part(row, u64::from(cost), outcome) else {
        return false;
    };
    rows[account] = grown;
    true
}
