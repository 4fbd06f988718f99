//! The report of a run, from its files and its journal.

ghost use Rattle.std.specs.Prelude.{◌≡◌, ◌≢◌, IfErr, IfOk, length, option_copied};
ghost use Rattle.sms_journal.specs.Ahead.{IsReadAhead};
ghost use Rattle.sms_journal.specs.Lines.{IsJournalText};
ghost use Rattle.sms_journal.specs.Recovering.{IsTaken, RecoversInput, RecoversJournal, IsFaultOfInput, IsFaultOfJournal, IsFaultOfText, sized};
ghost use Rattle.sms_journal.specs.Faults.{output_failed};

use crate::error::JournalError;
use crate::notes::{Note, RunSize};
use crate::recovery::fault::RecoveryFault;
use crate::recovery::journaled::recover_notes;
use crate::recovery::reading::{RunRead, read_beside};
use crate::text::{FileTies, JournalKind, JournalNotes, LinesRead, notes_of};
use sms_book::Opening;
use sms_files::memory::NoMemory;
use sms_files::{Config, Input, Limits, rules_of};
use std::alloc::Global;
use std::io::Write;
use std::thread::Threads;

/// What was recovered.
#[derive(Clone, Copy, Debug, PartialEq, Eq)]
pub struct Recovered {
    /// The exit status that the run would have had.
    pub status: u8,
    pub kind: JournalKind,
}

/// The notes of a run of these files, or of a trial where `trial` allows one, of whose journal this was read.
pub(crate) fn notes_in(
    alloc: Global,
    files: &FileTies,
    journal: &[u8],
    ahead: Result<Option<LinesRead>, NoMemory>,
    trial: bool,
) -> Result<JournalNotes, RecoveryFault>
    requires { IfOk ahead (IsReadAhead journal.now) }
    ensures notes { IfOk result (λ read. IsJournalText files.now journal.now read.kind read.first read.notes.items × IsTaken trial read.kind) }
    ensures refused { IfErr result (IsFaultOfText files.now trial journal.now) }
{
    match notes_of(alloc, journal, files, ahead) {
        Ok(read) => {
            if read.kind == JournalKind::Trial && !trial {
                return Err(RecoveryFault::Trial);
            }
            Ok(read)
        }
        Err(error) => match error {
            JournalError::BadRecord(record) => Err(RecoveryFault::Journal(record)),
            JournalError::OtherFiles(file) => Err(RecoveryFault::OtherFiles(file)),
            JournalError::OutOfMemory(refused) => Err(RecoveryFault::OutOfMemory(refused)),
            JournalError::BadNote(_) | JournalError::Overdrawn => unreachable!(),
        },
    }
}

/// How large the first round of a run with these accounts is: as its journal's first line says, or as its config does.
pub(crate) fn size_by(openings: &[Opening], limits: Limits, first: Option<(u32, u32)>) -> RunSize
    ensures { result ≡ sized (length openings.now) limits first }
{
    let (binds, workers) = match first {
        Some(first) => first,
        None => (limits.binds, limits.workers),
    };
    RunSize {
        accounts: openings.len(),
        binds,
        workers,
    }
}

/// Prints what a run of this input would have reported if every connection had dropped just after the last
/// of these notes, and returns its exit status.
fn recover_input<R: AllocGlobal + Threads, W: Write>(
    rt: &R,
    input: Input,
    first: Option<(u32, u32)>,
    notes: &[Note],
    output: &mut W,
) -> Result<u8, RecoveryFault>
    ensures recovered { IfOk result (RecoversInput input first notes.now (W.contents output.old) (W.contents output.new)) }
    ensures refused { IfErr result (IsFaultOfInput input first notes.now (W.contents output.old) (W.contents output.new)) }
    ensures quiet { IfErr result (λ fault. fault ≢ output_failed → output.new ≡ output.old) }
{
    let (config, openings, messages, tariff) = input.into_parts();
    let Config {
        limits,
        retry,
        flags,
        fields,
        ..
    } = config;
    let rules = rules_of(retry, limits, flags, fields, tariff, 0);
    let accounts = openings.as_slice();
    let size = size_by(accounts, limits, first);
    recover_notes(
        rt,
        &rules,
        size,
        accounts,
        messages.as_slice(),
        notes,
        output,
    )
}

/// Prints the report that the run of these files would have printed if every connection had dropped just after
/// the last complete record of its journal, and returns the exit status that it would have had: 4 where a part
/// is unanswered, else 0. The report is formed whole before its first octet is written. The journal of a trial
/// is refused unless `trial` allows it.
pub fn run_recover<R: AllocGlobal + Threads, W: Write>(
    rt: &R,
    config: &[u8],
    accounts: &[u8],
    messages: &[u8],
    tariff: Option<&[u8]>,
    journal: &[u8],
    trial: bool,
    output: &mut W,
) -> Result<Recovered, RecoveryFault>
    ensures recovered { IfOk result (RecoversJournal config.now accounts.now messages.now (option_copied tariff.entry) journal.now trial (W.contents output.old) (W.contents output.new)) }
    ensures refused { IfErr result (IsFaultOfJournal config.now accounts.now messages.now (option_copied tariff.entry) journal.now trial (W.contents output.old) (W.contents output.new)) }
    ensures quiet { IfErr result (λ fault. fault ≢ output_failed → output.new ≡ output.old) }
{
    let alloc = rt.alloc();
    let run = match read_beside(rt, alloc, config, accounts, messages, tariff, journal) {
        Ok(run) => run,
        Err(fault) => return Err(fault),
    };
    let RunRead {
        input,
        files,
        ahead,
    } = run;
    let read = match notes_in(alloc, &files, journal, ahead, trial) {
        Ok(read) => read,
        Err(fault) => {
            drop(input);
            return Err(fault);
        }
    };
    match recover_input(rt, input, read.first, read.notes.as_slice(), output) {
        Ok(status) => Ok(Recovered {
            status,
            kind: read.kind,
        }),
        Err(fault) => Err(fault),
    }
}
