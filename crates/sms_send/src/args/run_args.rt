//! What the arguments of the subcommands over a run that was sent ask for.

ghost use Rattle.std.specs.Prelude.{IfErr, IfOk, codes};
ghost use Rattle.clap.specs.Words.{found_of, rows_of};
ghost use Rattle.sms_send.specs.CommandLine.{AsksFor, AsksForRest, AsksToAudit, AsksToList, AsksToRecover, HasNames, IsRefused, LacksName, RefusesFor};
ghost use Rattle.sms_send.specs.declared.args.job.Subcommand.TheVariants.{Audit, Bill, Doubtful, Recover, Rest};

use crate::args::job::Job;
use crate::args::send_args::{AuditArgs, ListArgs, RecoverArgs, RestArgs};
use crate::args::values::{is_given, text_given};
use crate::faults::fault::Fault;
use clap::ArgMatches;
use sms_journal::Listing;
use std::alloc::Global;

/// The job of `recover`.
pub fn recover_job_of(alloc: Global, found: &ArgMatches<'_>) -> Result<Job, Fault>
    ensures job { IfOk result (AsksFor Recover (rows_of (found_of found.now))) }
    ensures refused { IfErr result (RefusesFor (IsRefused Recover (rows_of (found_of found.now)))) }
{
    match recover_args_of(alloc, found) {
        Ok(order) => Ok(Job::Recover(order)),
        Err(fault) => Err(fault),
    }
}

/// What `recover` is asked for.
fn recover_args_of(alloc: Global, found: &ArgMatches<'_>) -> Result<RecoverArgs, Fault>
    ensures order { IfOk result (AsksToRecover (rows_of (found_of found.now))) }
    ensures refused { IfErr result (RefusesFor (LacksName (codes "journal") (rows_of (found_of found.now)))) }
{
    match names_of(alloc, found, "journal") {
        Ok((config, journal)) => Ok(RecoverArgs {
            config,
            journal,
            trial: is_given(found, "trial"),
            refs: is_given(found, "refs"),
        }),
        Err(fault) => Err(fault),
    }
}

/// The job of `rest`.
pub fn rest_job_of(alloc: Global, found: &ArgMatches<'_>) -> Result<Job, Fault>
    ensures job { IfOk result (AsksFor Rest (rows_of (found_of found.now))) }
    ensures refused { IfErr result (RefusesFor (IsRefused Rest (rows_of (found_of found.now)))) }
{
    match rest_args_of(alloc, found) {
        Ok(order) => Ok(Job::Rest(order)),
        Err(fault) => Err(fault),
    }
}

/// What `rest` is asked for.
fn rest_args_of(alloc: Global, found: &ArgMatches<'_>) -> Result<RestArgs, Fault>
    ensures order { IfOk result (AsksForRest (rows_of (found_of found.now))) }
    ensures refused { IfErr result (RefusesFor (LacksName (codes "report") (rows_of (found_of found.now)))) }
{
    match names_of(alloc, found, "report") {
        Ok((config, report)) => Ok(RestArgs {
            config,
            report,
            accounts: is_given(found, "accounts"),
            refs: is_given(found, "refs"),
        }),
        Err(fault) => Err(fault),
    }
}

/// The job of `bill`.
pub fn bill_job_of(alloc: Global, found: &ArgMatches<'_>) -> Result<Job, Fault>
    ensures job { IfOk result (AsksFor Bill (rows_of (found_of found.now))) }
    ensures refused { IfErr result (RefusesFor (IsRefused Bill (rows_of (found_of found.now)))) }
{
    match list_args_of(alloc, found, Listing::Bill) {
        Ok(order) => Ok(Job::List(order)),
        Err(fault) => Err(fault),
    }
}

/// The job of `doubtful`.
pub fn doubtful_job_of(alloc: Global, found: &ArgMatches<'_>) -> Result<Job, Fault>
    ensures job { IfOk result (AsksFor Doubtful (rows_of (found_of found.now))) }
    ensures refused { IfErr result (RefusesFor (IsRefused Doubtful (rows_of (found_of found.now)))) }
{
    match list_args_of(alloc, found, Listing::Doubtful) {
        Ok(order) => Ok(Job::List(order)),
        Err(fault) => Err(fault),
    }
}

/// What `bill` or `doubtful` is asked for.
fn list_args_of(alloc: Global, found: &ArgMatches<'_>, listing: Listing) -> Result<ListArgs, Fault>
    ensures order { IfOk result (AsksToList listing (rows_of (found_of found.now))) }
    ensures refused { IfErr result (RefusesFor (LacksName (codes "journal") (rows_of (found_of found.now)))) }
{
    match names_of(alloc, found, "journal") {
        Ok((config, journal)) => Ok(ListArgs {
            config,
            journal,
            listing,
            refs: is_given(found, "refs"),
        }),
        Err(fault) => Err(fault),
    }
}

/// The job of `audit`.
pub fn audit_job_of(alloc: Global, found: &ArgMatches<'_>) -> Result<Job, Fault>
    ensures job { IfOk result (AsksFor Audit (rows_of (found_of found.now))) }
    ensures refused { IfErr result (RefusesFor (IsRefused Audit (rows_of (found_of found.now)))) }
{
    match audit_args_of(alloc, found) {
        Ok(order) => Ok(Job::Audit(order)),
        Err(fault) => Err(fault),
    }
}

/// What `audit` is asked for.
fn audit_args_of(alloc: Global, found: &ArgMatches<'_>) -> Result<AuditArgs, Fault>
    ensures order { IfOk result (AsksToAudit (rows_of (found_of found.now))) }
    ensures refused { IfErr result (RefusesFor (LacksName (codes "report") (rows_of (found_of found.now)))) }
{
    match names_of(alloc, found, "report") {
        Ok((config, report)) => Ok(AuditArgs {
            config,
            report,
            refs: is_given(found, "refs"),
        }),
        Err(fault) => Err(fault),
    }
}

/// The names of the config and of the file of this other option.
pub(crate) fn names_of(
    alloc: Global,
    found: &ArgMatches<'_>,
    other: &str,
) -> Result<(String, String), Fault>
    ensures names { IfOk result (λ names. HasNames other.now (rows_of (found_of found.now)) names.0 names.1) }
    ensures refused { IfErr result (RefusesFor (LacksName other.now (rows_of (found_of found.now)))) }
{
    let config = match text_given(alloc, found, "config") {
        Ok(config) => config,
        Err(fault) => return Err(fault),
    };
    match text_given(alloc, found, other) {
        Ok(name) => Ok((config, name)),
        Err(fault) => {
            drop(config);
            Err(fault)
        }
    }
}
