//! What is kept of a sending for the ledger that its accounts are of.

ghost use Rattle.std.specs.Prelude.{◌≡◌, IfOk, IfSome, true};
ghost use Rattle.sms_journal.specs.Left.{count_left as left_count};
ghost use Rattle.sms_send.specs.Kept.{HasPrinted};

use crate::faults::fault::Fault;
use sms_book::Statement;
use sms_core::Row;
use sms_files::memory::{self, NoMemory};
use sms_journal::further::count_left;
use sms_message::MessageEnd;
use std::alloc::Global;

/// The statement of a sending, and how many messages it leaves for a further round.
#[derive(Drop)]
pub struct Kept {
    pub rows: Vec<Row>,
    pub left: usize,
}

/// A copy of rows.
pub(crate) fn rows_of(alloc: Global, rows: &[Row]) -> Result<Vec<Row>, NoMemory>
    ensures { IfOk result (λ copy. copy.items ≡ rows.now) }
{
    let mut copy = Vec::new(alloc);
    for row in rows {
        memory::push(&mut copy, *row)?;
    }
    Ok(copy)
}

/// Whether a report was printed, or its output failed.
pub(crate) fn is_printing(printed: &Result<u8, Fault>) -> bool
    ensures { result ≡ true → HasPrinted printed.now }
{
    match printed {
        Ok(_) | Err(Fault::Output(_)) => true,
        Err(_) => false,
    }
}

/// What is kept of a sending with these ends and this statement, of which the report was printed so; none where it wasn't, and where
/// memory is refused.
pub(crate) fn kept_of<S>(
    alloc: Global,
    ends: &[MessageEnd<S>],
    statement: &Statement,
    printed: &Result<u8, Fault>,
) -> Option<Kept>
    ensures rows { IfSome result (λ kept. (kept.rows.items ≡ statement.now) × (kept.left ≡ left_count ends.now)) }
    ensures printed { IfSome result (λ kept. HasPrinted printed.now) }
{
    if !is_printing(printed) {
        return None;
    }
    match rows_of(alloc, statement.rows()) {
        Ok(rows) => Some(Kept {
            rows,
            left: count_left(ends),
        }),
        Err(_memory) => None,
    }
}
