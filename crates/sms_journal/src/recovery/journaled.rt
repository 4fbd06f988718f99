//! The report of a run's notes, printed.

ghost use Rattle.std.specs.Prelude.{◌≡◌, ◌≢◌, ◌⊎◌, ◌+◌, ◌<◌, ℕ, IfErr, IfOk, IsErrOf, OnOk, length};
ghost use Rattle.std.specs.Io.KnownBytes.{Appends};
ghost use Rattle.std.specs.List.{AllZip};
ghost use Rattle.sms_journal.specs.Going.{IsCurrent, IsLastRound};
ghost use Rattle.sms_journal.specs.Rounds.{IsFirstRunFault, IsRunEnd, IsRunJournal};
ghost use Rattle.sms_journal.specs.Sums.{AreCovered};
ghost use Rattle.sms_journal.specs.Recovering.{AreRecoveredRows, IsFaultOfNotes, IsFaultOfRecovery, IsFaultOfReport, IsRecovered, Recovers};
ghost use Rattle.sms_journal.specs.Files.{IsCut};
ghost use Rattle.sms_files.specs.Report.{report_of, ends_status};
ghost use Rattle.sms_journal.specs.Faults.{IsOfNotes, out_of_memory, output_failed};
ghost use Rattle.sms_journal.specs.declared.error.JournalError.TheVariants.{BadNote};
ghost use Rattle.sms_journal.specs.declared.recovery.fault.RecoveryFault.TheVariants.{Journal, Overdrawn};

use crate::error::JournalError;
use crate::notes::{
    LastRound, Note, RunSize, check_front, check_last, recover_rounds, recovered_rows,
};
use crate::recovery::fault::RecoveryFault;
use sms_book::Opening;
use sms_core::Row;
use sms_files::memory::NoMemory;
use sms_files::{OutputFault, exit_status_of, write_rows_report};
use sms_message::{Message, MessageEnd, Rules};
use std::alloc::Global;
use std::io::Write;
use std::thread;
use std::thread::Threads;

/// The fault of the note at this place: its record is counted from 1, and the header is one.
fn fault_at(notes: &[Note], place: usize) -> RecoveryFault
    ensures { place < length notes.now → result ≡ Journal (place + 2) }
{
    RecoveryFault::Journal(place.min(notes.len()) + 2)
}

/// Checks that a run of these messages can have noted this, and gives their ends. These are recovered beside the check of
/// all but the last notes, which rests on them.
fn checked_ends<R: AllocGlobal + Threads>(
    rt: &R,
    rules: &Rules,
    size: RunSize,
    messages: &[Message],
    notes: &[Note],
) -> Result<Vec<MessageEnd<()>>, JournalError>
    ensures ends { IfOk result (λ ends. AllZip (IsRunEnd rules.now notes.now) messages.now ends.items) }
    ensures lawful { OnOk result (IsRunJournal rules.now size messages.now notes.now) }
    ensures faulty { (k : ℕ) → IsErrOf result (BadNote k) → IsFirstRunFault rules.now size messages.now notes.now k }
    ensures kinds { IfErr result IsOfNotes }
{
    let alloc = rt.alloc();
    let (front, ends) = thread::join(
        rt,
        || -> Result<LastRound, JournalError>
            ensures last { IfOk result (IsLastRound rules.entry.now messages.entry.now notes.entry.now) }
            ensures current { IfOk result (λ last. IsCurrent rules.entry.now size messages.entry.now notes.entry.now last.going) }
            ensures faulty { (k : ℕ) → IsErrOf result (BadNote k) → IsFirstRunFault rules.entry.now size messages.entry.now notes.entry.now k }
            ensures kinds { IfErr result IsOfNotes }
        { check_front(alloc, messages, rules, size, notes) },
        || -> Result<Vec<MessageEnd<()>>, NoMemory>
            ensures { IfOk result (λ ends. AllZip (IsRunEnd rules.entry.now notes.entry.now) messages.entry.now ends.items) }
        { recover_rounds(alloc, messages, rules, notes) },
    );
    let last = match front {
        Ok(last) => last,
        Err(error) => {
            drop(ends);
            return Err(error);
        }
    };
    let ends = match ends {
        Ok(ends) => ends,
        Err(refused) => {
            drop(last);
            return Err(JournalError::OutOfMemory(refused));
        }
    };
    match check_last(alloc, messages, rules, &last, notes, ends.as_slice()) {
        Ok(()) => Ok(ends),
        Err(error) => {
            drop(ends);
            Err(error)
        }
    }
}

/// The ends of the messages by notes that a run of them can have written.
fn ends_by<R: AllocGlobal + Threads>(
    rt: &R,
    rules: &Rules,
    size: RunSize,
    messages: &[Message],
    notes: &[Note],
) -> Result<Vec<MessageEnd<()>>, RecoveryFault>
    ensures ends { IfOk result (λ ends. AllZip (IsRunEnd rules.now notes.now) messages.now ends.items) }
    ensures lawful { OnOk result (IsRunJournal rules.now size messages.now notes.now) }
    ensures refused { IfErr result (IsFaultOfNotes rules.now size messages.now notes.now) }
{
    match checked_ends(rt, rules, size, messages, notes) {
        Ok(ends) => Ok(ends),
        Err(error) => match error {
            JournalError::BadNote(place) => Err(fault_at(notes, place)),
            JournalError::OutOfMemory(refused) => Err(RecoveryFault::OutOfMemory(refused)),
            _ => unreachable!(),
        },
    }
}

/// The statement's rows.
fn rows_of(
    alloc: Global,
    openings: &[Opening],
    messages: &[Message],
    ends: &[MessageEnd<()>],
) -> Result<Vec<Row>, RecoveryFault>
    ensures rows { IfOk result (λ rows. AreRecoveredRows openings.now messages.now ends.now rows.items) }
    ensures refused { IfErr result (λ fault. (fault ≡ out_of_memory) ⊎ ((fault ≡ Overdrawn) × ¬ AreCovered openings.now messages.now ends.now)) }
{
    match recovered_rows(alloc, openings, messages, ends) {
        Ok(rows) => Ok(rows),
        Err(error) => match error {
            JournalError::Overdrawn => Err(RecoveryFault::Overdrawn),
            JournalError::OutOfMemory(refused) => Err(RecoveryFault::OutOfMemory(refused)),
            _ => unreachable!(),
        },
    }
}

/// Prints the report, and returns its exit status.
fn print_report<W: Write>(
    alloc: Global,
    openings: &[Opening],
    ends: &[MessageEnd<()>],
    rows: &[Row],
    output: &mut W,
) -> Result<u8, RecoveryFault>
    ensures printed { IfOk result (λ status. Appends (W.contents output.old) (W.contents output.new) (report_of openings.now ends.now rows.now) × (status ≡ ends_status ends.now)) }
    ensures refused { IfErr result (IsCut (report_of openings.now ends.now rows.now) (W.contents output.old) (W.contents output.new)) }
    ensures quiet { IfErr result (λ fault. fault ≢ output_failed → output.new ≡ output.old) }
{
    match write_rows_report(alloc, openings, ends, rows, output) {
        Ok(()) => Ok(exit_status_of(ends)),
        Err(fault) => match fault {
            OutputFault::Output(unwritten) => Err(RecoveryFault::Output(unwritten)),
            OutputFault::OutOfMemory(refused) => Err(RecoveryFault::OutOfMemory(refused)),
        },
    }
}

/// What the run of these messages, whose first round has this size, would have reported if every connection had
/// dropped just after the last of these notes: the end of each message, and the row of each account.
pub fn reported<R: AllocGlobal + Threads>(
    rt: &R,
    rules: &Rules,
    size: RunSize,
    openings: &[Opening],
    messages: &[Message],
    notes: &[Note],
) -> Result<(Vec<MessageEnd<()>>, Vec<Row>), RecoveryFault>
    ensures is { IfOk result (λ found. IsRecovered rules.now size openings.now messages.now notes.now found.0.items found.1.items) }
    ensures refused { IfErr result (IsFaultOfReport rules.now size openings.now messages.now notes.now) }
{
    let ends = match ends_by(rt, rules, size, messages, notes) {
        Ok(ends) => ends,
        Err(fault) => return Err(fault),
    };
    match rows_of(rt.alloc(), openings, messages, ends.as_slice()) {
        Ok(rows) => Ok((ends, rows)),
        Err(fault) => {
            drop(ends);
            Err(fault)
        }
    }
}

/// Prints that report, and returns the exit status that the run would have had.
pub fn recover_notes<R: AllocGlobal + Threads, W: Write>(
    rt: &R,
    rules: &Rules,
    size: RunSize,
    openings: &[Opening],
    messages: &[Message],
    notes: &[Note],
    output: &mut W,
) -> Result<u8, RecoveryFault>
    ensures recovered { IfOk result (Recovers rules.now size openings.now messages.now notes.now (W.contents output.old) (W.contents output.new)) }
    ensures refused { IfErr result (IsFaultOfRecovery rules.now size openings.now messages.now notes.now (W.contents output.old) (W.contents output.new)) }
    ensures quiet { IfErr result (λ fault. fault ≢ output_failed → output.new ≡ output.old) }
{
    match reported(rt, rules, size, openings, messages, notes) {
        Ok((ends, rows)) => print_report(
            rt.alloc(),
            openings,
            ends.as_slice(),
            rows.as_slice(),
            output,
        ),
        Err(fault) => Err(fault),
    }
}
