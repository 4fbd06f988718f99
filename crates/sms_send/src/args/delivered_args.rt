//! What the arguments of `delivered` ask for.

ghost use Rattle.std.specs.Prelude.{◌≡◌, IfErr, IfOk, codes};
ghost use Rattle.clap.specs.Words.{first_of, found_of, rows_of};
ghost use Rattle.sms_send.specs.CommandLine.{AsksFor, IsRefused, RefusesFor, is_set};
ghost use Rattle.sms_send.specs.DeliveredWords.{AreIds, AreNoIds, AsksForDelivered, LacksDelivered};
ghost use Rattle.sms_send.specs.declared.args.job.Subcommand.TheVariants.{Delivered};

use crate::args::job::Job;
use crate::args::run_args::names_of;
use crate::args::values::{is_given, text_given, text_if_given};
use crate::faults::argument_error::ArgumentError;
use crate::faults::fault::Fault;
use clap::ArgMatches;
use sms_inbox::Ids;
use std::alloc::Global;

/// What became of a run's parts as the command line asks for it.
#[derive(Debug, Drop)]
pub struct DeliveredArgs {
    /// The name of the config of the run.
    pub config: String,
    /// The name of its journal.
    pub journal: String,
    /// The name of its inbox.
    pub inbox: String,
    /// How the ids in receipts are spelled.
    pub ids: Ids,
    /// Whether the messages have a column `ref`.
    pub refs: bool,
}

/// The job of `delivered`.
pub fn delivered_job_of(alloc: Global, found: &ArgMatches<'_>) -> Result<Job, Fault>
    ensures job { IfOk result (AsksFor Delivered (rows_of (found_of found.now))) }
    ensures refused { IfErr result (RefusesFor (IsRefused Delivered (rows_of (found_of found.now)))) }
{
    match delivered_args_of(alloc, found) {
        Ok(order) => Ok(Job::Delivered(order)),
        Err(fault) => Err(fault),
    }
}

/// What `delivered` is asked for.
fn delivered_args_of(alloc: Global, found: &ArgMatches<'_>) -> Result<DeliveredArgs, Fault>
    ensures order { IfOk result (AsksForDelivered (rows_of (found_of found.now))) }
    ensures refs { IfOk result (λ order. is_set (first_of (codes "refs") (rows_of (found_of found.now))) ≡ order.refs) }
    ensures refused { IfErr result (RefusesFor (LacksDelivered (rows_of (found_of found.now)))) }
{
    let ids = match ids_of(alloc, found) {
        Ok(ids) => ids,
        Err(fault) => return Err(fault),
    };
    let (config, journal) = match names_of(alloc, found, "journal") {
        Ok(names) => names,
        Err(fault) => return Err(fault),
    };
    match text_given(alloc, found, "inbox") {
        Ok(inbox) => Ok(DeliveredArgs {
            config,
            journal,
            inbox,
            ids,
            refs: is_given(found, "refs"),
        }),
        Err(fault) => {
            drop(config);
            drop(journal);
            Err(fault)
        }
    }
}

/// How the ids in receipts are spelled: by the same octets where nothing is said.
pub(crate) fn ids_of(alloc: Global, found: &ArgMatches<'_>) -> Result<Ids, Fault>
    ensures ids { IfOk result (AreIds (rows_of (found_of found.now))) }
    ensures refused { IfErr result (RefusesFor (AreNoIds (rows_of (found_of found.now)))) }
{
    let said = match text_if_given(alloc, found, "ids") {
        Ok(Some(said)) => said,
        Ok(None) => return Ok(Ids::Same),
        Err(fault) => return Err(fault),
    };
    if said.as_str() == "hex-dec" {
        Ok(Ids::HexDec)
    } else if said.as_str() == "dec-hex" {
        Ok(Ids::DecHex)
    } else {
        Err(Fault::Words(ArgumentError::Ids))
    }
}
