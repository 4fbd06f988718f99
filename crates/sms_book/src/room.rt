//! The memory that the opening of a book takes, all of it made before anything moves.

ghost use Rattle.std.specs.Prelude.{◌≡◌, ◌≤◌, [], length, map, replicate, IfOk, vec_capacity};
ghost use Rattle.sms_book.specs.Portions.{no_amounts};
ghost use Rattle.sms_book.specs.Openings.{opening_row};

use crate::amounts::Amounts;
use crate::name::BookName;
use crate::share::Shares;
use sms_core::Row;
use std::alloc::{AllocError, Global};

/// The rows of a new book, the amounts of each worker's share, and room for the shares.
#[derive(Drop)]
pub struct Room<N: BookName> {
    pub rows: Vec<Row>,
    pub amounts: Vec<Vec<Amounts>>,
    pub shares: Vec<Shares<N>>,
}

/// The room for a book with these opening credits and so many workers.
pub fn room_for<N: BookName>(
    alloc: Global,
    credits: &[u64],
    workers: usize,
) -> Result<Room<N>, AllocError>
    ensures rows { IfOk result (λ r. r.rows.items ≡ map opening_row credits.now) }
    ensures amounts { IfOk result (λ r. map (λ a. a.items) r.amounts.items ≡ replicate workers (replicate (length credits.now) no_amounts)) }
    ensures shares { IfOk result (λ r. (r.shares.items ≡ []) × (workers ≤ vec_capacity r.shares)) }
{
    Ok(Room {
        rows: opening_rows(alloc, credits)?,
        amounts: amounts_for(alloc, credits.len(), workers)?,
        shares: Vec::with_capacity(alloc, workers)?,
    })
}

fn opening_rows(alloc: Global, credits: &[u64]) -> Result<Vec<Row>, AllocError>
    ensures { IfOk result (λ v. v.items ≡ map opening_row credits.now) }
{
    let mut rows = Vec::with_capacity(alloc, credits.len())?;
    for topped in credits {
        rows.push_reserved(Row {
            topped: *topped,
            free: *topped,
            reserved: 0,
            charged: 0,
            returned: 0,
        });
    }
    Ok(rows)
}

fn amounts_for(
    alloc: Global,
    accounts: usize,
    workers: usize,
) -> Result<Vec<Vec<Amounts>>, AllocError>
    ensures { IfOk result (λ v. map (λ a. a.items) v.items ≡ replicate workers (replicate accounts no_amounts)) }
{
    let mut all = Vec::with_capacity(alloc, workers)?;
    for _ in 0..workers {
        all.push_reserved(blank_amounts(alloc, accounts)?);
    }
    Ok(all)
}

fn blank_amounts(alloc: Global, accounts: usize) -> Result<Vec<Amounts>, AllocError>
    ensures { IfOk result (λ v. v.items ≡ replicate accounts no_amounts) }
{
    let none = Amounts {
        reserved: 0,
        charged: 0,
        returned: 0,
    };
    vec![in alloc; none; accounts]
}
