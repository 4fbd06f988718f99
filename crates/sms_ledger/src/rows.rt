//! Rows, places, payments and parts, found by names.

ghost use Rattle.std.specs.Prelude.{◌≡◌, ◌++◌, ℕ, List, Some, None, IfOk, OnErr, OnOk, if◌then◌else◌, is_some, length, option_copied, option_map, string_bytes};
ghost use Rattle.std.specs.Str.{bytes_eq};
ghost use Rattle.std.specs.HashMap.{get_by_text};
ghost use Rattle.sms_ledger.specs.Books.{part_name, payment_in, with_payment};
ghost use Rattle.sms_ledger.specs.Kept.{set_at};

use crate::entry::{Decision, Deposit, Fate, Payment, Row};
use crate::name::{Name, RunAccount};
use sms_files::memory::{self, NoMemory};
use std::alloc::Global;
use std::collections::HashMap;

/// The row of an account.
pub(crate) fn row_in(rows: &HashMap<String, Row>, name: &Name) -> Option<Row>
    ensures { result ≡ get_by_text rows.now name.now }
{
    rows.get(name.as_str()).copied()
}

/// Changes or adds the row of an account.
pub(crate) fn put_row(
    rows: &mut HashMap<String, Row>,
    alloc: Global,
    name: &Name,
    row: Row,
) -> Result<(), NoMemory>
    ensures ok { OnOk result ((q : List ℕ) → get_by_text rows.new q ≡ set_at name.now row (λ p. get_by_text rows.old p) q) }
    ensures err { OnErr result ((q : List ℕ) → get_by_text rows.new q ≡ get_by_text rows.old q) }
{
    let key = memory::text_of(alloc, name.as_str())?;
    memory::insert(rows, key, row)?;
    Ok(())
}

/// Changes the row of an account that has one, and says whether it has.
pub(crate) fn change_row(rows: &mut HashMap<String, Row>, name: &Name, row: Row) -> bool
    ensures found { result ≡ is_some (get_by_text rows.old name.now) }
    ensures row { (q : List ℕ) → get_by_text rows.new q ≡ (if bytes_eq name.now q then option_map (λ _. row) (get_by_text rows.old q) else get_by_text rows.old q) }
{
    match rows.get_mut(name.as_str()) {
        Some(place) => {
            *place = row;
            true
        }
        None => false,
    }
}

/// Both names in one.
pub(crate) fn key_of(alloc: Global, of: &RunAccount) -> Result<String, NoMemory>
    ensures key { IfOk result (λ key. string_bytes key ≡ of.now.run ++ of.now.account) }
    ensures long { length of.now.run ≡ 32 }
{
    let mut key = memory::text_of(alloc, of.run.as_str())?;
    memory::append(&mut key, of.account.as_str())?;
    Ok(key)
}

/// Where the stake of a run and an account stands.
pub(crate) fn place_in(
    places: &HashMap<String, usize>,
    alloc: Global,
    of: &RunAccount,
) -> Result<Option<usize>, NoMemory>
    ensures place { IfOk result (λ place. place ≡ get_by_text places.now (of.now.run ++ of.now.account)) }
    ensures long { length of.now.run ≡ 32 }
{
    let key = key_of(alloc, of)?;
    Ok(places.get(key.as_str()).copied())
}

/// The payment with this reference.
pub(crate) fn payment_of<'a>(
    payments: &'a HashMap<String, Deposit>,
    reference: &Option<Name>,
) -> Option<&'a Deposit>
    ensures { option_copied result ≡ payment_in reference.now (λ q. get_by_text payments.now q) }
{
    match reference {
        Some(name) => payments.get(name.as_str()),
        None => None,
    }
}

/// Keeps a payment by its reference, if it has one.
pub(crate) fn keep_payment(
    payments: &mut HashMap<String, Deposit>,
    p: Payment,
) -> Result<(), NoMemory>
    ensures ok { OnOk result ((q : List ℕ) → get_by_text payments.new q ≡ with_payment p.reference (record { account = p.account; credits = p.credits }) (λ k. get_by_text payments.old k) q) }
{
    let Payment {
        account,
        credits,
        reference,
    } = p;
    let Some(reference) = reference else {
        return Ok(());
    };
    let deposit = Deposit { account, credits };
    memory::insert(payments, reference.into_text(), deposit)?;
    Ok(())
}

/// The name of the part that a decision is of.
pub(crate) fn part_key(alloc: Global, d: &Decision) -> Result<String, NoMemory>
    ensures { IfOk result (λ key. string_bytes key ≡ part_name d.now.of.run d.now.message d.now.part) }
{
    let mut key = memory::text_of(alloc, d.of.run.as_str())?;
    memory::append_number(&mut key, ",", d.message)?;
    memory::append_number(&mut key, ",", u64::from(d.part))?;
    Ok(key)
}

/// Keeps the fate of a part by its name.
pub(crate) fn keep_fate(
    parts: &mut HashMap<String, Fate>,
    key: String,
    fate: Fate,
) -> Result<(), NoMemory>
    ensures ok { OnOk result ((q : List ℕ) → get_by_text parts.new q ≡ set_at (string_bytes key) fate (λ k. get_by_text parts.old k) q) }
    ensures err { OnErr result ((q : List ℕ) → get_by_text parts.new q ≡ get_by_text parts.old q) }
{
    memory::insert(parts, key, fate)?;
    Ok(())
}
