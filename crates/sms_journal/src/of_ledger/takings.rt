//! What a run takes of a ledger for its accounts.

ghost use Rattle.std.specs.Prelude.{◌≡◌, ◌++◌, ◌==◌, ◌||◌, [], ℕ, List, IfOk, MatchOption, OnOk};
ghost use Rattle.sms_journal.specs.Stages.{AreRowsOf};
ghost use Rattle.sms_ledger.specs.InMemory.{state_in};
ghost use Rattle.sms_journal.specs.OfLedger.{HaveNames, are_out as are_all_out, is_out_with as is_this_out, ledger_name as name_there, taking_for, takings_for as all_takings};

use crate::rest::rows_of;
use sms_book::Opening;
use sms_core::Row;
use sms_files::memory::{self, NoMemory};
use sms_ledger::{Entry, Ledger, Name, Run, RunAccount, Stand, Taking};
use std::alloc::Global;

/// The name of an account in a ledger, if it can have one there.
fn ledger_name(alloc: Global, opening: &Opening) -> Result<Option<Name>, NoMemory>
    ensures { IfOk result (λ name. name ≡ name_there opening.now) }
{
    Name::of(alloc, opening.name.as_bytes())
}

/// The names of accounts in a ledger, each in its place; none where one can't have a name there.
pub fn ledger_names(alloc: Global, openings: &[Opening]) -> Result<Option<Vec<Name>>, NoMemory>
    ensures { IfOk result (λ names. MatchOption names ((names : List (List ℕ)) → ¬ HaveNames openings.now names) (λ names. HaveNames openings.now names.items)) }
{
    let mut names = Vec::new(alloc);
    for opening in openings {
        let Some(name) = ledger_name(alloc, opening)? else {
            return Ok(None);
        };
        memory::push(&mut names, name)?;
    }
    Ok(Some(names))
}

/// Adds what a run takes of an account that opens with these credits.
fn add_taking(
    entries: &mut Vec<Entry>,
    alloc: Global,
    run: &Run,
    name: &Name,
    credits: u64,
) -> Result<(), NoMemory>
    ensures { OnOk result (entries.new.items ≡ entries.old.items ++ taking_for run.now name.now credits) }
{
    if credits == 0 {
        return Ok(());
    }
    let of = RunAccount::of(alloc, run, name)?;
    memory::push(entries, Entry::Taken(Taking { of, credits }))
}

/// The entries by which a run takes what its accounts open with, by their names in the ledger. Of an account without credits it
/// takes nothing.
pub fn takings_for(
    alloc: Global,
    run: &Run,
    names: &[Name],
    openings: &[Opening],
) -> Result<Vec<Entry>, NoMemory>
    ensures { IfOk result (λ entries. entries.items ≡ all_takings run.now names.now openings.now) }
{
    let mut entries = Vec::new(alloc);
    let mut place = 0;
    for name in names {
        let Some(opening) = openings.get(place) else {
            return Ok(entries);
        };
        add_taking(&mut entries, alloc, run, name, opening.credits)?;
        place += 1;
    }
    Ok(entries)
}

/// Whether exactly so much is out.
fn is_out_with(credits: u64, stand: Option<Stand>) -> bool
    ensures { result ≡ is_this_out credits stand }
{
    match stand {
        Some(Stand::Out(taken)) => taken == credits,
        Some(Stand::Back(_)) | None => false,
    }
}

/// Whether all that a run took of an account which opened with so much is out. Of one without credits it took nothing.
fn has_out(credits: u64, stand: Option<Stand>) -> bool
    ensures { result ≡ (credits == 0 || is_this_out credits stand) }
{
    credits == 0 || is_out_with(credits, stand)
}

/// Whether all that the accounts of a run opened with is out with it, by their names in the ledger: its statement isn't booked,
/// and may be.
pub fn are_out(
    alloc: Global,
    ledger: &Ledger,
    run: &Run,
    names: &[Name],
    openings: &[Opening],
) -> Result<bool, NoMemory>
    ensures { IfOk result (λ out. out ≡ are_all_out run.now (state_in ledger.now) names.now openings.now) }
{
    let mut place = 0;
    for name in names {
        let Some(opening) = openings.get(place) else {
            return Ok(true);
        };
        let of = RunAccount::of(alloc, run, name)?;
        let stand = ledger.stand(alloc, &of)?;
        if !has_out(opening.credits, stand) {
            return Ok(false);
        }
        place += 1;
    }
    Ok(true)
}

/// The rows of accounts of which nothing was used.
pub fn opened_rows(alloc: Global, openings: &[Opening]) -> Result<Vec<Row>, NoMemory>
    ensures { IfOk result (λ rows. AreRowsOf openings.now [] rows.items) }
{
    rows_of(alloc, openings)
}
