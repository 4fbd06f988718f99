//! What became of parts in doubt.

ghost use Rattle.std.specs.Prelude.{◌≡◌, ◌+◌, ◌≤◌, IfErr, OnOk};
ghost use Rattle.sms_ledger.specs.declared.entry.Entry.TheVariants.{Decided};
ghost use Rattle.sms_ledger.specs.Books.{IsBooked, IsRefused, settle};
ghost use Rattle.sms_ledger.specs.Kept.{IsSound, state_of};

use crate::booking::covered_row;
use crate::booking::stakes::{set_stand, stand_at};
use crate::books::Books;
use crate::entry::{Decision, Fate, Row, Stand};
use crate::refusal::Refusal;
use crate::rows::{change_row, keep_fate, part_key, place_in};
use std::alloc::Global;

/// The row once so much of its doubt is decided.
fn settled(row: Row, fate: Fate, cost: u64) -> Row
    requires doubt { cost ≤ row.doubt }
    requires balance { row.paid ≡ row.free + row.out + row.doubt + row.spent }
    ensures { result ≡ settle fate cost row }
{
    let doubt = row.doubt - cost;
    match fate {
        Fate::Delivered => Row {
            paid: row.paid,
            free: row.free,
            out: row.out,
            doubt,
            spent: row.spent + cost,
        },
        Fate::Lost => Row {
            paid: row.paid,
            free: row.free + cost,
            out: row.out,
            doubt,
            spent: row.spent,
        },
    }
}

/// Books what became of a part in doubt.
pub(crate) fn decide(books: &mut Books, alloc: Global, d: &Decision) -> Result<(), Refusal>
    requires { IsSound books.old }
    ensures ok { OnOk result (IsBooked (Decided d.now) (state_of books.old) (state_of books.new)) }
    ensures err { IfErr result (IsRefused (Decided d.now) (state_of books.old) (state_of books.new)) }
    ensures sound { IsSound books.new }
{
    let key = part_key(alloc, d)?;
    if books.parts.contains_key(key.as_str()) {
        return Err(Refusal::DecidedBefore);
    }
    let Some(place) = place_in(&books.places, alloc, &d.of)? else {
        return Err(Refusal::NotTaken);
    };
    let stand = stand_at(&books.taken, place, &d.of);
    let Stand::Back(doubt) = stand else {
        return Err(Refusal::NotBack);
    };
    if d.cost > doubt {
        return Err(Refusal::NoDoubt);
    }
    keep_fate(&mut books.parts, key, d.fate)?;
    let row = settled(covered_row(books, &d.of, stand), d.fate, d.cost);
    change_row(&mut books.rows, &d.of.account, row);
    set_stand(&mut books.taken, place, &d.of, Stand::Back(doubt - d.cost));
    Ok(())
}
