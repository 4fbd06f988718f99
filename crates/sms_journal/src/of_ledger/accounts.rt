//! The accounts file of a run of a ledger.

ghost use Rattle.std.specs.Prelude.{◌≡◌, ◌++◌, ◌∷◌, ◌||◌, ℕ, List, IfOk, OnOk, Some, filter, flat_map, is_some, map};
ghost use Rattle.csv.specs.Records.{fields_of};
ghost use Rattle.sms_files.specs.Accounts.{name_in as first_field};
ghost use Rattle.sms_files.specs.Fields.{records_of};
ghost use Rattle.sms_ledger.specs.InMemory.{state_in};
ghost use Rattle.sms_journal.specs.OfLedger.{account_line, accounts_in, distinct, free_line};
ghost use Rattle.sms_journal.specs.Payers.{is_unseen};
ghost use Rattle.std.specs.HashMap.{get_by_text};
ghost use Rattle.std.specs.Str.{bytes_eq};

use crate::rest::{behind_first, push_field, push_number, records_in};
use csv::ByteRecord;
use sms_files::memory::{self, NoMemory};
use sms_ledger::{Ledger, Name, Row};
use std::alloc::Global;
use std::collections::HashMap;

/// The names of accounts that have their record, as they stand in the ledger.
type Seen = HashMap<String, bool>;

/// The first field of a record.
fn payer_in(record: &ByteRecord) -> &[u8]
    ensures { result.now ≡ first_field (fields_of «record».now) }
{
    match record.get(0) {
        Some(name) => name,
        None => b"".as_slice(),
    }
}

/// Adds the record of an account with what is free of it.
fn push_account(alloc: Global, text: &mut Vec<u8>, name: &[u8], row: Row) -> Result<(), NoMemory>
    ensures { OnOk result (text.new.items ≡ text.old.items ++ free_line name.now (Some row)) }
{
    push_field(text, name)?;
    memory::append_octets(text, b",")?;
    push_number(alloc, text, row.free)?;
    memory::append_octets(text, b"\n")
}

/// Keeps that an account has its record.
fn keep_seen(seen: &mut Seen, alloc: Global, name: &Name) -> Result<(), NoMemory>
    ensures { OnOk result ((q : List ℕ) → is_some (get_by_text seen.new q) ≡ (bytes_eq name.now q || is_some (get_by_text seen.old q))) }
{
    let key = memory::text_of(alloc, name.as_str())?;
    memory::insert(seen, key, true)?;
    Ok(())
}

/// Adds the record of an account that a message names, where the ledger has it and it isn't there yet.
fn add_payer(
    alloc: Global,
    text: &mut Vec<u8>,
    seen: &mut Seen,
    ledger: &Ledger,
    name: &[u8],
) -> Result<(), NoMemory>
    ensures { OnOk result ((names : List (List ℕ)) →
        text.new.items ++ flat_map (account_line (state_in ledger.now)) (filter (is_unseen (λ q. is_some (get_by_text seen.new q))) (distinct names))
        ≡ text.old.items ++ flat_map (account_line (state_in ledger.now)) (filter (is_unseen (λ q. is_some (get_by_text seen.old q))) (distinct (name.now ∷ names)))) }
{
    let Some(there) = Name::of(alloc, name)? else {
        return Ok(());
    };
    if seen.contains_key(there.as_str()) {
        return Ok(());
    }
    let Some(row) = ledger.row(&there) else {
        return Ok(());
    };
    push_account(alloc, text, name, row)?;
    keep_seen(seen, alloc, &there)
}

/// Adds the records of the accounts that these records of a messages file name, in their order.
fn add_payers(
    alloc: Global,
    text: &mut Vec<u8>,
    seen: &mut Seen,
    ledger: &Ledger,
    records: &[ByteRecord],
) -> Result<(), NoMemory>
    ensures { OnOk result (text.new.items ≡ text.old.items
        ++ flat_map (account_line (state_in ledger.now)) (filter (is_unseen (λ q. is_some (get_by_text seen.old q))) (distinct (map first_field (map fields_of records.now))))) }
{
    for record in records {
        add_payer(alloc, text, seen, ledger, payer_in(record))?;
    }
    Ok(())
}

/// The accounts file of a run over a messages file with these octets: all accounts that its messages name and that the ledger
/// has, in the order in which they are named first, with all that is free of them.
pub fn accounts_of(alloc: Global, ledger: &Ledger, messages: &[u8]) -> Result<Vec<u8>, NoMemory>
    ensures { IfOk result (λ text. text.items ≡ accounts_in (state_in ledger.now) (records_of messages.now)) }
{
    let records = records_in(alloc, messages)?;
    let mut text = Vec::new(alloc);
    memory::append_octets(&mut text, b"account,credits\n")?;
    let mut seen = HashMap::new(alloc);
    let payers = behind_first(records.as_slice());
    add_payers(alloc, &mut text, &mut seen, ledger, payers)?;
    Ok(text)
}
