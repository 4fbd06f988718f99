//! The credits that a run leaves for a further round, and the accounts' rows after it.

ghost use Rattle.std.specs.Prelude.{◌≡◌, IfOk, length, string_bytes};
ghost use Rattle.sms_book.specs.Openings.{credits_of, names_of};
ghost use Rattle.sms_journal.specs.Left.{free_in};
ghost use Rattle.sms_journal.specs.Over.{row_over, rows_over};

use sms_book::Opening;
use sms_core::Row;
use std::alloc::{AllocError, Global};

/// An account as a further round opens it.
fn opening_left(alloc: Global, opening: &Opening, row: &Row) -> Result<Opening, AllocError>
    ensures name { IfOk result (λ left. string_bytes left.name ≡ string_bytes opening.now.name) }
    ensures credits { IfOk result (λ left. left.credits ≡ row.now.free) }
{
    let name = String::from_str(alloc, opening.name.as_str())?;
    Ok(Opening {
        name,
        credits: row.free,
    })
}

/// The accounts as a further round opens them: with the credits that are free in their rows.
pub fn openings_left(
    alloc: Global,
    openings: &[Opening],
    rows: &[Row],
) -> Result<Vec<Opening>, AllocError>
    requires each { length rows.now ≡ length openings.now }
    ensures names { IfOk result (λ left. names_of left.items ≡ names_of openings.now) }
    ensures credits { IfOk result (λ left. credits_of left.items ≡ free_in rows.now) }
{
    let mut left = Vec::with_capacity(alloc, openings.len())?;
    for place in 0..openings.len() {
        let opening = opening_left(alloc, &openings[place], &rows[place])?;
        left.push(opening)?;
    }
    Ok(left)
}

/// The row of an account after a further round with this row. A sum past 64 bits is the greatest number.
fn with_row(row: &Row, later: &Row) -> Row
    ensures { result ≡ row_over row.now later.now }
{
    Row {
        topped: row.topped,
        free: later.free,
        reserved: row.reserved.saturating_add(later.reserved),
        charged: row.charged.saturating_add(later.charged),
        returned: row.returned.saturating_add(later.returned),
    }
}

/// Makes of the accounts' rows those after a further round with these rows.
pub fn add_rows(rows: &mut Vec<Row>, later: &[Row])
    ensures { rows.new.items ≡ rows_over rows.old.items later.now }
{
    for place in 0..rows.len().min(later.len()) {
        let row = with_row(&rows[place], &later[place]);
        rows[place] = row;
    }
}
