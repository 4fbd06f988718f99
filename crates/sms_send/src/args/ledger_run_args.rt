//! What the arguments of the subcommands ask for that run on a ledger.

ghost use Rattle.std.specs.Prelude.{◌≡◌, None, IfErr, IfOk, is_some, true};
ghost use Rattle.clap.specs.Words.{found_of, rows_of};
ghost use Rattle.sms_send.specs.CommandLine.{AreRefusedSettle, AsksFor, AsksToSettle, IsRefused, RefusesFor};
ghost use Rattle.sms_send.specs.Faults.{IsWords};
ghost use Rattle.sms_send.specs.declared.args.job.Job.TheVariants.{SendOn};
ghost use Rattle.sms_send.specs.declared.args.job.Subcommand.TheVariants.{Decide, Loop, Resume, Send, Settle};

use crate::args::job::{Job, resume_args_of, send_args_of};
use crate::args::run_args::names_of;
use crate::args::send_args::SendArgs;
use crate::args::values::{is_given, text_given, text_if_given};
use crate::faults::argument_error::ArgumentError;
use crate::faults::fault::Fault;
use crate::sending::target::TargetKind;
use clap::ArgMatches;
use std::alloc::Global;

/// The files of a run of a ledger as the command line names them.
#[derive(Debug, Drop)]
pub struct SettleArgs {
    /// The name of the ledger's file.
    pub ledger: String,
    /// The name of the config of the run.
    pub config: String,
    /// The name of its journal.
    pub journal: String,
    /// Whether the messages have a column `ref`.
    pub refs: bool,
}

/// What was decided of its parts in doubt as the command line asks to book it.
#[derive(Debug, Drop)]
pub struct DecideArgs {
    /// The files of the run.
    pub run: SettleArgs,
    /// The name of the decisions file.
    pub decisions: String,
}

/// The job of `loop`. On a ledger it needs a journal.
pub(crate) fn loop_job_of(alloc: Global, found: &ArgMatches<'_>) -> Result<Job, Fault>
    ensures job { IfOk result (AsksFor Loop (rows_of (found_of found.now))) }
    ensures refused { IfErr result (RefusesFor (IsRefused Loop (rows_of (found_of found.now)))) }
{
    let order = match send_args_of(alloc, found) {
        Ok(order) => order,
        Err(fault) => return Err(fault),
    };
    match text_if_given(alloc, found, "ledger") {
        Ok(None) => Ok(Job::Loop(order)),
        Ok(Some(ledger)) => send_on(TargetKind::Loopback, ledger, order),
        Err(fault) => {
            drop(order);
            Err(fault)
        }
    }
}

/// The job of `send`. On a ledger it needs a journal.
pub(crate) fn send_job_of(alloc: Global, found: &ArgMatches<'_>) -> Result<Job, Fault>
    ensures job { IfOk result (AsksFor Send (rows_of (found_of found.now))) }
    ensures refused { IfErr result (RefusesFor (IsRefused Send (rows_of (found_of found.now)))) }
{
    let order = match send_args_of(alloc, found) {
        Ok(order) => order,
        Err(fault) => return Err(fault),
    };
    match text_if_given(alloc, found, "ledger") {
        Ok(None) => Ok(Job::Send(order)),
        Ok(Some(ledger)) => send_on(TargetKind::Remote, ledger, order),
        Err(fault) => {
            drop(order);
            Err(fault)
        }
    }
}

/// The job of a sending to such a centre on the ledger of this name, where it has a journal.
fn send_on(kind: TargetKind, ledger: String, order: SendArgs) -> Result<Job, Fault>
    ensures job { IfOk result (λ job. (job ≡ SendOn kind ledger order) × (is_some order.journal ≡ true)) }
    ensures refused { IfErr result (λ fault. IsWords fault × (order.journal ≡ None)) }
{
    if order.journal.is_some() {
        return Ok(Job::SendOn(kind, ledger, order));
    }
    drop(order);
    drop(ledger);
    Err(Fault::Words(ArgumentError::LedgerAlone))
}

/// The job of `resume`.
pub(crate) fn resume_job_of(alloc: Global, found: &ArgMatches<'_>) -> Result<Job, Fault>
    ensures job { IfOk result (AsksFor Resume (rows_of (found_of found.now))) }
    ensures refused { IfErr result (RefusesFor (IsRefused Resume (rows_of (found_of found.now)))) }
{
    let order = match resume_args_of(alloc, found) {
        Ok(order) => order,
        Err(fault) => return Err(fault),
    };
    match text_if_given(alloc, found, "ledger") {
        Ok(None) => Ok(Job::Resume(order)),
        Ok(Some(ledger)) => Ok(Job::ResumeOn(ledger, order)),
        Err(fault) => {
            drop(order);
            Err(fault)
        }
    }
}

/// The names of the ledger's file, of the config and of the journal.
fn settle_args_of(alloc: Global, found: &ArgMatches<'_>) -> Result<SettleArgs, Fault>
    ensures names { IfOk result (AsksToSettle (rows_of (found_of found.now))) }
    ensures refused { IfErr result (RefusesFor (AreRefusedSettle (rows_of (found_of found.now)))) }
{
    let (config, journal) = match names_of(alloc, found, "journal") {
        Ok(names) => names,
        Err(fault) => return Err(fault),
    };
    match text_given(alloc, found, "ledger") {
        Ok(ledger) => Ok(SettleArgs {
            ledger,
            config,
            journal,
            refs: is_given(found, "refs"),
        }),
        Err(fault) => {
            drop(config);
            drop(journal);
            Err(fault)
        }
    }
}

/// The job of `settle`.
pub(crate) fn settle_job_of(alloc: Global, found: &ArgMatches<'_>) -> Result<Job, Fault>
    ensures job { IfOk result (AsksFor Settle (rows_of (found_of found.now))) }
    ensures refused { IfErr result (RefusesFor (IsRefused Settle (rows_of (found_of found.now)))) }
{
    match settle_args_of(alloc, found) {
        Ok(order) => Ok(Job::Settle(order)),
        Err(fault) => Err(fault),
    }
}

/// The job of `decide`.
pub(crate) fn decide_job_of(alloc: Global, found: &ArgMatches<'_>) -> Result<Job, Fault>
    ensures job { IfOk result (AsksFor Decide (rows_of (found_of found.now))) }
    ensures refused { IfErr result (RefusesFor (IsRefused Decide (rows_of (found_of found.now)))) }
{
    let run = match settle_args_of(alloc, found) {
        Ok(run) => run,
        Err(fault) => return Err(fault),
    };
    match text_given(alloc, found, "decisions") {
        Ok(decisions) => Ok(Job::Decide(DecideArgs { run, decisions })),
        Err(fault) => {
            drop(run);
            Err(fault)
        }
    }
}
