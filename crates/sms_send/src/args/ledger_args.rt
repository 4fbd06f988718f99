//! What the arguments of the subcommands over a ledger ask for.

ghost use Rattle.std.specs.Prelude.{◌≡◌, None, Some, IfErr, IfOk, codes, string_bytes};
ghost use Rattle.clap.specs.Words.{first_of, found_of, rows_of};
ghost use Rattle.sms_send.specs.CommandLine.{AreRefusedTopUp, AsksFor, AsksToTopUp, IsRefused, RefusesFor, IsNoPayment, IsPaymentOf, credits_in as credits_said, name_given as name_asked, reference_in};
ghost use Rattle.sms_send.specs.declared.faults.fault.Fault.TheVariants.{OutOfMemory};
ghost use Rattle.sms_send.specs.declared.args.job.Subcommand.TheVariants.{Balance, TopUp};

use crate::args::job::Job;
use crate::args::values::{is_given, text_given, text_if_given};
use crate::faults::argument_error::ArgumentError;
use crate::faults::fault::Fault;
use clap::ArgMatches;
use sms_core::decimal_of;
use sms_ledger::{Name, Payment};
use std::alloc::Global;

/// The most credits that are paid at once, and for an account in all.
const MOST_CREDITS: u64 = 0x100_0000_0000;

/// A top-up as the command line asks for it.
#[derive(Debug, Drop)]
pub struct TopUpArgs {
    /// The name of the ledger's file. It is made if it isn't there.
    pub ledger: String,
    /// Whether it is a ledger of trials.
    pub trial: bool,
    /// What is paid.
    pub payment: Payment,
}

/// The job of `topup`.
pub fn top_up_job_of(alloc: Global, found: &ArgMatches<'_>) -> Result<Job, Fault>
    ensures job { IfOk result (AsksFor TopUp (rows_of (found_of found.now))) }
    ensures refused { IfErr result (RefusesFor (IsRefused TopUp (rows_of (found_of found.now)))) }
{
    match top_up_args_of(alloc, found) {
        Ok(order) => Ok(Job::TopUp(order)),
        Err(fault) => Err(fault),
    }
}

/// The job of `balance`.
pub fn balance_job_of(alloc: Global, found: &ArgMatches<'_>) -> Result<Job, Fault>
    ensures job { IfOk result (AsksFor Balance (rows_of (found_of found.now))) }
    ensures refused { IfErr result (RefusesFor (IsRefused Balance (rows_of (found_of found.now)))) }
{
    match text_given(alloc, found, "ledger") {
        Ok(ledger) => Ok(Job::Balance(ledger)),
        Err(fault) => Err(fault),
    }
}

/// What `topup` is asked for.
fn top_up_args_of(alloc: Global, found: &ArgMatches<'_>) -> Result<TopUpArgs, Fault>
    ensures order { IfOk result (AsksToTopUp (rows_of (found_of found.now))) }
    ensures refused { IfErr result (RefusesFor (AreRefusedTopUp (rows_of (found_of found.now)))) }
{
    let payment = match payment_given(alloc, found) {
        Ok(payment) => payment,
        Err(fault) => return Err(fault),
    };
    match text_given(alloc, found, "ledger") {
        Ok(ledger) => Ok(TopUpArgs {
            ledger,
            trial: is_given(found, "trial"),
            payment,
        }),
        Err(fault) => {
            drop(payment);
            Err(fault)
        }
    }
}

/// The payment of a top-up.
fn payment_given(alloc: Global, found: &ArgMatches<'_>) -> Result<Payment, Fault>
    ensures payment { IfOk result (IsPaymentOf (rows_of (found_of found.now))) }
    ensures refused { IfErr result (RefusesFor (IsNoPayment (rows_of (found_of found.now)))) }
{
    let credits = match credits_given(alloc, found) {
        Ok(credits) => credits,
        Err(fault) => return Err(fault),
    };
    let reference = match reference_given(alloc, found) {
        Ok(reference) => reference,
        Err(fault) => return Err(fault),
    };
    match account_given(alloc, found) {
        Ok(account) => Ok(Payment {
            account,
            credits,
            reference,
        }),
        Err(fault) => {
            drop(reference);
            Err(fault)
        }
    }
}

/// The credits that are paid: a whole number from 1 on.
fn credits_given(alloc: Global, found: &ArgMatches<'_>) -> Result<u64, Fault>
    ensures credits { IfOk result (λ credits. credits_said (first_of (codes "CREDITS") (rows_of (found_of found.now))) ≡ Some credits) }
    ensures refused { IfErr result (RefusesFor (credits_said (first_of (codes "CREDITS") (rows_of (found_of found.now))) ≡ None)) }
{
    let text = match text_given(alloc, found, "CREDITS") {
        Ok(text) => text,
        Err(fault) => return Err(fault),
    };
    let credits = credits_in(text.as_str());
    drop(text);
    match credits {
        Some(credits) => Ok(credits),
        None => Err(Fault::Words(ArgumentError::Credits)),
    }
}

/// The credits that a text spells.
fn credits_in(text: &str) -> Option<u64>
    ensures { result ≡ credits_said (Some text.now) }
{
    match decimal_of(text.as_bytes(), MOST_CREDITS) {
        Some(credits) if credits >= 1 => Some(credits),
        _ => None,
    }
}

/// The name that a text spells.
fn name_in(alloc: Global, text: String) -> Result<Option<Name>, Fault>
    ensures name { IfOk result (λ name. name ≡ name_asked (Some (string_bytes text))) }
    ensures memory { IfErr result (λ fault. fault ≡ OutOfMemory) }
{
    match Name::of(alloc, text.as_str().as_bytes()) {
        Ok(name) => Ok(name),
        Err(_memory) => Err(Fault::OutOfMemory),
    }
}

/// The account that is paid for.
fn account_given(alloc: Global, found: &ArgMatches<'_>) -> Result<Name, Fault>
    ensures account { IfOk result (λ name. name_asked (first_of (codes "ACCOUNT") (rows_of (found_of found.now))) ≡ Some name) }
    ensures refused { IfErr result (RefusesFor (name_asked (first_of (codes "ACCOUNT") (rows_of (found_of found.now))) ≡ None)) }
{
    let text = match text_given(alloc, found, "ACCOUNT") {
        Ok(text) => text,
        Err(fault) => return Err(fault),
    };
    match name_in(alloc, text) {
        Ok(Some(name)) => Ok(name),
        Ok(None) => Err(Fault::Words(ArgumentError::Account)),
        Err(fault) => Err(fault),
    }
}

/// The payment's own name, where it is given one.
fn reference_given(alloc: Global, found: &ArgMatches<'_>) -> Result<Option<Name>, Fault>
    ensures reference { IfOk result (λ name. reference_in (first_of (codes "ref") (rows_of (found_of found.now))) ≡ Some name) }
    ensures refused { IfErr result (RefusesFor (reference_in (first_of (codes "ref") (rows_of (found_of found.now))) ≡ None)) }
{
    let text = match text_if_given(alloc, found, "ref") {
        Ok(Some(text)) => text,
        Ok(None) => return Ok(None),
        Err(fault) => return Err(fault),
    };
    match name_in(alloc, text) {
        Ok(Some(name)) => Ok(Some(name)),
        Ok(None) => Err(Fault::Words(ArgumentError::Reference)),
        Err(fault) => Err(fault),
    }
}
