//! Entries that are booked in a ledger's file for a run.

ghost use Rattle.std.specs.Prelude.{◌≡◌, ◌⊎◌, IfErr, IfOk, OnOk, String, string_bytes};
ghost use Rattle.std.specs.declared.alloc.Global.{Global as InHeap};
ghost use Rattle.sms_ledger.specs.Books.{State as TheState};
ghost use Rattle.sms_ledger.specs.Decisions.{undecided};
ghost use Rattle.sms_ledger.specs.InMemory.{state_in};
ghost use Rattle.sms_ledger.specs.Posting.{ArePosted, returns_of};
ghost use Rattle.sms_send.specs.Faults.{fault_of_booking, fault_of_opening as opening_fault};
ghost use Rattle.sms_send.specs.LedgerJobs.{LacksNamed};
ghost use Rattle.sms_send.specs.LedgerRuns.{FailsPosting, FailsToStand, Posts, RefusesAt, StandBehind};
ghost use Rattle.sms_send.specs.declared.faults.fault.Fault.TheVariants.{OutOfMemory};

use crate::faults::fault::Fault;
use crate::jobs::ledger_job::{ReadLedger, fault_of_opening, put_line, read_ledger};
use sms_core::Row;
use sms_devices::{HeldFile, LedgerFailure, LedgerFiles};
use sms_ledger::{Decision, Entry, Ledger, Name, Refusal, Run};
use std::alloc::Global;

/// The fault of an entry that a ledger refuses.
pub(crate) fn fault_of_entry(refusal: Refusal) -> Fault
    ensures { result ≡ fault_of_booking refusal }
{
    match refusal {
        Refusal::OutOfMemory(_) => Fault::OutOfMemory,
        cause => Fault::Booking(cause),
    }
}

/// The fault of a ledger's file of this name that can't be had.
pub(crate) fn lost<R: AllocGlobal>(rt: &R, name: &str, why: LedgerFailure) -> Fault
    ensures { (result ≡ OutOfMemory) ⊎ ((text : String InHeap) × (string_bytes text ≡ name.now) × (result ≡ opening_fault text why)) }
{
    match String::from_str(rt.alloc(), name) {
        Ok(name) => fault_of_opening(name, why),
        Err(_memory) => Fault::OutOfMemory,
    }
}

/// The ledger's file of this name, which has to be there, to append to it. Nobody else has it until it is closed.
pub(crate) fn join_ledger<R: AllocGlobal + LedgerFiles>(
    rt: &R,
    name: &str,
) -> Result<R::LedgerFile, Fault>
    ensures held { IfOk result (R.holds_ledger rt.now name.now) }
    ensures refused { IfErr result (LacksNamed (R.lacks_ledger rt.now) name.now) }
{
    match rt.view_ledger(name) {
        Ok(file) => file.close(),
        Err(why) => return Err(lost(rt, name, why)),
    }
    match rt.open_ledger(name) {
        Ok(file) => Ok(file),
        Err(why) => Err(lost(rt, name, why)),
    }
}

/// Books entries that are made at this time in a ledger in memory, and gives their lines.
#[tactic(auto, using(crate::proofs::Posting::stopped))]
pub(crate) fn post_lines(
    alloc: Global,
    time: u64,
    ledger: &mut Ledger,
    entries: &[Entry],
) -> Result<String, Fault>
    ensures posted { IfOk result (λ lines. ArePosted time entries.now (state_in ledger.old) (state_in ledger.new) (string_bytes lines)) }
    ensures refused { IfErr result (RefusesAt entries.now (state_in ledger.old)) }
{
    match ledger.post(alloc, time, entries) {
        Ok(lines) => Ok(lines),
        Err(refusal) => Err(fault_of_entry(refusal)),
    }
}

/// Appends lines to a file of which these octets were read, if there are any, and makes durable what stands there.
#[tactic(auto, using(crate::proofs::Posting::no_lines, crate::proofs::Posting::some_lines, crate::proofs::Posting::untaken_none, crate::proofs::Posting::untaken_some))]
pub(crate) fn put_lines<F: HeldFile>(
    alloc: Global,
    file: &mut F,
    octets: &[u8],
    lines: String,
) -> Result<(), Fault>
    ensures stand { OnOk result (StandBehind octets.now (F.octets file.old) (F.octets file.new) (string_bytes lines)) }
    ensures durable { OnOk result (F.stored file.new ≡ F.octets file.new) }
    ensures failed { IfErr result (FailsToStand F.errs octets.now (F.octets file.old) (F.octets file.new) (string_bytes lines)) }
    ensures same { F.opening file.new ≡ F.opening file.old }
{
    if lines.as_str().is_empty() {
        put_line(alloc, file, octets, None)
    } else {
        put_line(alloc, file, octets, Some(lines))
    }
}

/// The same, and gives a copy of the lines.
fn put_copied<F: HeldFile>(
    alloc: Global,
    file: &mut F,
    octets: &[u8],
    lines: String,
) -> Result<String, Fault>
    ensures copy { IfOk result (λ copy. string_bytes copy ≡ string_bytes lines) }
    ensures stand { OnOk result (StandBehind octets.now (F.octets file.old) (F.octets file.new) (string_bytes lines)) }
    ensures durable { OnOk result (F.stored file.new ≡ F.octets file.new) }
    ensures failed { IfErr result (FailsToStand F.errs octets.now (F.octets file.old) (F.octets file.new) (string_bytes lines)) }
    ensures same { F.opening file.new ≡ F.opening file.old }
{
    let copy = match String::from_str(alloc, lines.as_str()) {
        Ok(copy) => copy,
        Err(_memory) => return Err(Fault::OutOfMemory),
    };
    match put_lines(alloc, file, octets, lines) {
        Ok(()) => Ok(copy),
        Err(fault) => {
            drop(copy);
            Err(fault)
        }
    }
}

/// Books in a file that is held what a run gives back of its accounts, by their names in the ledger and their rows. Gives the lines
/// of that; none of what is back already.
pub(crate) fn give_back<F: HeldFile>(
    alloc: Global,
    time: u64,
    file: &mut F,
    run: &Run,
    names: &[Name],
    rows: &[Row],
) -> Result<String, Fault>
    ensures back { IfOk result (λ lines. (s : TheState) × (t : TheState) × Posts F.octets F.stored (λ s. returns_of run.now s names.now rows.now) file.old file.new s t (string_bytes lines)) }
    ensures failed { IfErr result (FailsPosting F.errs F.octets (λ s. returns_of run.now s names.now rows.now) file.old file.new) }
    ensures same { F.opening file.new ≡ F.opening file.old }
{
    let ReadLedger { octets, mut ledger } = match read_ledger(alloc, file) {
        Ok(read) => read,
        Err(fault) => return Err(fault),
    };
    let posted = post_back(alloc, time, &mut ledger, run, names, rows);
    drop(ledger);
    match posted {
        Ok(lines) => put_copied(alloc, file, octets.as_slice(), lines),
        Err(fault) => Err(fault),
    }
}

/// The same in a ledger in memory.
fn post_back(
    alloc: Global,
    time: u64,
    ledger: &mut Ledger,
    run: &Run,
    names: &[Name],
    rows: &[Row],
) -> Result<String, Fault>
    ensures posted { IfOk result (λ lines. ArePosted time (returns_of run.now (state_in ledger.old) names.now rows.now) (state_in ledger.old) (state_in ledger.new) (string_bytes lines)) }
    ensures refused { IfErr result (RefusesAt (returns_of run.now (state_in ledger.old) names.now rows.now) (state_in ledger.old)) }
{
    match ledger.returns(alloc, run, names, rows) {
        Ok(entries) => post_lines(alloc, time, ledger, entries.as_slice()),
        Err(_memory) => Err(Fault::OutOfMemory),
    }
}

/// Books in a file that is held what was decided of parts in doubt, and gives the lines of that; none of what is decided already.
pub(crate) fn decide_in<F: HeldFile>(
    alloc: Global,
    time: u64,
    file: &mut F,
    decisions: &[Decision],
) -> Result<String, Fault>
    ensures decided { IfOk result (λ lines. (s : TheState) × (t : TheState) × Posts F.octets F.stored (undecided decisions.now) file.old file.new s t (string_bytes lines)) }
    ensures failed { IfErr result (FailsPosting F.errs F.octets (undecided decisions.now) file.old file.new) }
    ensures same { F.opening file.new ≡ F.opening file.old }
{
    let ReadLedger { octets, mut ledger } = match read_ledger(alloc, file) {
        Ok(read) => read,
        Err(fault) => return Err(fault),
    };
    let posted = ledger.decide_parts(alloc, time, decisions);
    drop(ledger);
    match posted {
        Ok(lines) => put_copied(alloc, file, octets.as_slice(), lines),
        Err(refusal) => Err(fault_of_entry(refusal)),
    }
}
