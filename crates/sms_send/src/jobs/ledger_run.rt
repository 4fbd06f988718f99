//! A run of a ledger, by its journal.

ghost use Rattle.std.specs.Prelude.{◌⊎◌, IfErr, IfOk, string_bytes};
ghost use Rattle.sms_journal.specs.OfLedger.{HaveNames};
ghost use Rattle.sms_send.specs.LedgerJobs.{FailsLedgerRun, FailsLedgerRunBy, FailsReadingJournal, IsCutFile, IsOfCutFile, IsLedgerRun, IsLedgerRunBy, LacksNames};

use crate::args::ledger_run_args::SettleArgs;
use crate::faults::context::JobContext;
use crate::faults::fault::Fault;
use crate::faults::ledger_run::LedgerRunFlaw;
use crate::files::opened::{InputFiles, octets_of};
use crate::files::run_files::{RunFiles, read_run};
use crate::jobs::resume_job::noted_run;
use sms_book::Opening;
use sms_journal::JournaledRun;
use sms_journal::of_ledger::{RunText, ledger_names, run_text};
use sms_ledger::{Name, Refusal, Run};
use std::alloc::Global;
use std::thread::Threads;

/// What the journal of a run of a ledger says.
#[derive(Drop)]
pub(crate) struct LedgerRun {
    /// Its name in the ledger.
    pub(crate) name: Run,
    /// The names of its accounts there.
    pub(crate) accounts: Vec<Name>,
    pub(crate) run: JournaledRun,
}

/// The names of accounts in a ledger. One that can't have a name there is an account that the ledger doesn't have.
pub(crate) fn names_of(alloc: Global, openings: &[Opening]) -> Result<Vec<Name>, Fault>
    ensures names { IfOk result (λ names. HaveNames openings.now names.items) }
    ensures refused { IfErr result (LacksNames openings.now) }
{
    match ledger_names(alloc, openings) {
        Ok(Some(names)) => Ok(names),
        Ok(None) => Err(Fault::Booking(Refusal::NoAccount)),
        Err(_memory) => Err(Fault::OutOfMemory),
    }
}

/// What the journal says of a run or a trial of a ledger, by files that were read and a config of this name.
pub(crate) fn ledger_run_of<R: AllocGlobal + Threads>(
    rt: &R,
    config: &str,
    files: &RunFiles,
    strict: bool,
) -> Result<LedgerRun, Fault>
    ensures run { IfOk result (IsLedgerRun files.now) }
    ensures refused { IfErr result (FailsLedgerRun strict files.now) }
{
    let Some(name) = &files.run else {
        return Err(Fault::LedgerRun(LedgerRunFlaw::NoLedger));
    };
    let name = match name.copy(rt.alloc()) {
        Ok(name) => name,
        Err(_memory) => return Err(Fault::OutOfMemory),
    };
    let run = match noted_run(rt, config, files, strict) {
        Ok(run) => run,
        Err(fault) => {
            drop(name);
            return Err(fault);
        }
    };
    match names_of(rt.alloc(), run.openings.as_slice()) {
        Ok(accounts) => Ok(LedgerRun {
            name,
            accounts,
            run,
        }),
        Err(fault) => {
            drop(name);
            drop(run);
            Err(fault)
        }
    }
}

/// What the journal says of the run of a ledger that is named so.
pub(crate) fn read_ledger_run<R: AllocGlobal + InputFiles + Threads>(
    rt: &R,
    context: &mut JobContext,
    order: &SettleArgs,
) -> Result<LedgerRun, Fault>
    ensures run { IfOk result (IsLedgerRunBy (R.finds rt.now) (string_bytes order.now.config) (string_bytes order.now.journal)) }
    ensures refused { IfErr result (FailsLedgerRunBy (R.finds rt.now) (string_bytes order.now.config) (string_bytes order.now.journal)) }
{
    let config = match String::from_str(rt.alloc(), order.config.as_str()) {
        Ok(config) => config,
        Err(_memory) => return Err(Fault::OutOfMemory),
    };
    let journal = match String::from_str(rt.alloc(), order.journal.as_str()) {
        Ok(journal) => journal,
        Err(_memory) => {
            drop(config);
            return Err(Fault::OutOfMemory);
        }
    };
    match read_run(rt, context, config, journal) {
        Ok(files) => ledger_run_of(rt, order.config.as_str(), &files, false),
        Err(fault) => Err(fault),
    }
}

/// Whether the journal of this name is a truncated head: its run ended before it took anything.
pub(crate) fn is_cut<R: AllocGlobal + InputFiles>(rt: &R, journal: &str) -> Result<bool, Fault>
    ensures cut { IfOk result (IsCutFile (R.finds rt.now) journal.now) }
    ensures refused { IfErr result (FailsReadingJournal (R.finds rt.now) journal.now) }
{
    let name = match String::from_str(rt.alloc(), journal) {
        Ok(name) => name,
        Err(_memory) => return Err(Fault::OutOfMemory),
    };
    let octets = match octets_of(rt, name) {
        Ok(octets) => octets,
        Err(fault) => return Err(fault),
    };
    match run_text(rt.alloc(), octets.as_slice()) {
        Ok(RunText::Cut) => Ok(true),
        Ok(RunText::Whole(_) | RunText::Other) => Ok(false),
        Err(_memory) => Err(Fault::OutOfMemory),
    }
}

/// Refuses a run whose journal is a truncated head: it took nothing.
pub(crate) fn check_taken<R: AllocGlobal + InputFiles>(rt: &R, journal: &str) -> Result<(), Fault>
    ensures refused { IfErr result (λ fault. FailsReadingJournal (R.finds rt.now) journal.now fault ⊎ IsOfCutFile (R.finds rt.now) journal.now fault) }
{
    match is_cut(rt, journal) {
        Ok(true) => Err(Fault::LedgerRun(LedgerRunFlaw::NotOut)),
        Ok(false) => Ok(()),
        Err(fault) => Err(fault),
    }
}
