//! The lines of entries.

ghost use Rattle.std.specs.Prelude.{◌≡◌, ◌++◌, OnOk, string_bytes};
ghost use Rattle.sms_ledger.specs.declared.entry.Entry.TheVariants.{Decided, Paid, Returned, Taken};
ghost use Rattle.sms_ledger.specs.Text.{entry_text, fate_word as word_of_fate, name_field, number_field, pair_field, reference_field};

use crate::entry::{Decision, Entry, Fate, Payment, Statement, Taking};
use crate::name::{Name, RunAccount};
use sms_files::memory::{self, NoMemory};

/// A comma and the number after it.
pub(crate) fn write_number(text: &mut String, number: u64) -> Result<(), NoMemory>
    ensures { OnOk result (string_bytes text.new ≡ string_bytes text.old ++ number_field number) }
{
    memory::append_number(text, ",", number)
}

/// A comma and the name after it.
fn write_name(text: &mut String, name: &str) -> Result<(), NoMemory>
    ensures { OnOk result (string_bytes text.new ≡ string_bytes text.old ++ name_field name.now) }
{
    memory::append(text, ",")?;
    memory::append(text, name)
}

fn write_reference(text: &mut String, reference: &Option<Name>) -> Result<(), NoMemory>
    ensures { OnOk result (string_bytes text.new ≡ string_bytes text.old ++ reference_field reference.now) }
{
    match reference {
        Some(name) => write_name(text, name.as_str()),
        None => memory::append(text, ","),
    }
}

/// A run and an account.
fn write_pair(text: &mut String, of: &RunAccount) -> Result<(), NoMemory>
    ensures { OnOk result (string_bytes text.new ≡ string_bytes text.old ++ pair_field of.now) }
{
    write_name(text, of.run.as_str())?;
    write_name(text, of.account.as_str())
}

/// The word of an entry and its time.
fn write_head(text: &mut String, word: &str, time: u64) -> Result<(), NoMemory>
    ensures { OnOk result (string_bytes text.new ≡ string_bytes text.old ++ word.now ++ number_field time) }
{
    memory::append(text, word)?;
    write_number(text, time)
}

fn write_paid(text: &mut String, time: u64, p: &Payment) -> Result<(), NoMemory>
    ensures { OnOk result (string_bytes text.new ≡ string_bytes text.old ++ entry_text time (Paid p.now)) }
{
    write_head(text, "paid", time)?;
    write_name(text, p.account.as_str())?;
    write_number(text, p.credits)?;
    write_reference(text, &p.reference)?;
    memory::append(text, "\n")
}

fn write_taken(text: &mut String, time: u64, t: &Taking) -> Result<(), NoMemory>
    ensures { OnOk result (string_bytes text.new ≡ string_bytes text.old ++ entry_text time (Taken t.now)) }
{
    write_head(text, "taken", time)?;
    write_pair(text, &t.of)?;
    write_number(text, t.credits)?;
    memory::append(text, "\n")
}

fn write_returned(text: &mut String, time: u64, b: &Statement) -> Result<(), NoMemory>
    ensures { OnOk result (string_bytes text.new ≡ string_bytes text.old ++ entry_text time (Returned b.now)) }
{
    write_head(text, "back", time)?;
    write_pair(text, &b.of)?;
    write_number(text, b.free)?;
    write_number(text, b.doubt)?;
    write_number(text, b.spent)?;
    memory::append(text, "\n")
}

/// The word of a fate.
fn fate_word(fate: Fate) -> &'static str
    ensures { result.now ≡ word_of_fate fate }
{
    match fate {
        Fate::Delivered => "delivered",
        Fate::Lost => "lost",
    }
}

pub(crate) fn write_decided(text: &mut String, time: u64, d: &Decision) -> Result<(), NoMemory>
    ensures { OnOk result (string_bytes text.new ≡ string_bytes text.old ++ entry_text time (Decided d.now)) }
{
    write_head(text, "decided", time)?;
    write_name(text, d.of.run.as_str())?;
    write_number(text, d.message)?;
    write_number(text, u64::from(d.part))?;
    write_name(text, d.of.account.as_str())?;
    write_number(text, d.cost)?;
    write_name(text, fate_word(d.fate))?;
    memory::append(text, "\n")
}

/// Writes the line of an entry that is made at this time, in milliseconds since 1970 UTC.
pub fn write_entry(text: &mut String, time: u64, entry: &Entry) -> Result<(), NoMemory>
    ensures { OnOk result (string_bytes text.new ≡ string_bytes text.old ++ entry_text time entry.now) }
{
    match entry {
        Entry::Paid(p) => write_paid(text, time, p),
        Entry::Taken(t) => write_taken(text, time, t),
        Entry::Returned(b) => write_returned(text, time, b),
        Entry::Decided(d) => write_decided(text, time, d),
    }
}
