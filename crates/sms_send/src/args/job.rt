//! What the command line asks for.

ghost use Rattle.std.specs.Prelude.{◌≡◌, [], None, Some, IfErr, IfOk, OnOk, codes, map, string_bytes};
ghost use Rattle.clap.specs.Words.{first_of, found_of, rows_of, subcommand_rows_of};
ghost use Rattle.sms_send.specs.CommandLine.{AreRefusedResumeArgs, AsksFor, AsksToNote, AsksToResume, AsksToSend, IsJob, IsRefused, AreRefusedArgs, IsWrongSync, RefusesFor, RefusesMatch, RefusesWords, refusals_of, subcommand_in};
ghost use Rattle.sms_send.specs.Lines.{AsksForLines, IsWrongLine};
ghost use Rattle.sms_send.specs.declared.args.job.Subcommand.TheVariants.{Plan, Quote};
ghost use Rattle.sms_send.specs.Words.{bytes_of, file_named, subcommand_named as named};

use crate::args::command_line::command_line;
use crate::args::delivered_args::{DeliveredArgs, delivered_job_of};
use crate::args::ledger_args::{TopUpArgs, balance_job_of, top_up_job_of};
use crate::args::ledger_run_args::{
    DecideArgs, SettleArgs, decide_job_of, loop_job_of, resume_job_of, send_job_of, settle_job_of,
};
use crate::args::line_args::lines_of;
use crate::args::pace::pace_of;
use crate::args::parser_fault::fault_of;
use crate::args::run_args::{
    audit_job_of, bill_job_of, doubtful_job_of, names_of, recover_job_of, rest_job_of,
};
use crate::args::send_args::{
    AuditArgs, JournalFile, LineArgs, ListArgs, RecoverArgs, RestArgs, ResumeArgs, SendArgs,
};
use crate::args::values::{is_given, text_given, text_if_given};
use crate::faults::argument_error::ArgumentError;
use crate::faults::fault::Fault;
use crate::sending::target::TargetKind;
use clap::ArgMatches;
use std::alloc::Global;

/// What the program is asked to do.
#[derive(Debug, Drop)]
pub enum Job {
    /// To replay the schedule in the file of this name, or that of the standard input.
    Replay(Option<String>),
    /// To plan the messages in the file of this name; with references of 16 bits where the first is true, of messages
    /// with a column `ref` where the second is.
    Plan(String, bool, bool),
    /// To print what a sending by the config of this name would come to; where the first is true, with details, of
    /// messages with a column `ref` where the second is.
    Quote(String, bool, bool),
    /// To send through a test centre in the same process.
    Loop(SendArgs),
    /// The same to the message centre that the config names.
    Send(SendArgs),
    /// To go on with a run in a further round, by its journal.
    Resume(ResumeArgs),
    /// To ask the run whose journal has this name to stop, and to wait for its end.
    Stop(String),
    /// To print what a run would have reported, by its journal.
    Recover(RecoverArgs),
    /// To print what a run did not send at all, by its report.
    Rest(RestArgs),
    /// To print what is listed of a run, by its journal.
    List(ListArgs),
    /// To print a run, by its report, as a run of the model.
    Audit(AuditArgs),
    /// To book a payment in a ledger.
    TopUp(TopUpArgs),
    /// To print where the credits of the ledger in the file of this name are.
    Balance(String),
    /// To send to such a centre with the credits of the ledger of this name.
    SendOn(TargetKind, String, SendArgs),
    /// To go on with a run that has credits of the ledger of this name.
    ResumeOn(String, ResumeArgs),
    /// To give back to a ledger what a run has of it, by its journal.
    Settle(SettleArgs),
    /// To book in a ledger what was decided of parts in doubt.
    Decide(DecideArgs),
    /// To print what became of a run's parts, by its inbox.
    Delivered(DeliveredArgs),
}

/// What the first word asks for.
#[derive(Clone, Copy, Debug, PartialEq, Eq)]
enum Subcommand {
    Replay,
    Plan,
    Quote,
    Loop,
    Send,
    Resume,
    Stop,
    Recover,
    Rest,
    Bill,
    Doubtful,
    Audit,
    TopUp,
    Balance,
    Settle,
    Decide,
    Delivered,
}

/// The job that the words after the program's name ask for.
pub fn job_of(alloc: Global, words: &[String]) -> Result<Job, Fault>
    ensures job { IfOk result (IsJob (subcommand_in (map string_bytes words.now))) }
    ensures taken { OnOk result (refusals_of (map string_bytes words.now) ≡ []) }
    ensures refused { IfErr result (RefusesWords (map string_bytes words.now)) }
{
    match command_line(alloc)?.try_get_matches_from(words) {
        Ok(matches) => job_in(alloc, &matches),
        Err(error) => Err(fault_of(alloc, &error)),
    }
}

/// The job of the subcommand that the parser met, and without one to replay standard input.
fn job_in(alloc: Global, matches: &ArgMatches<'_>) -> Result<Job, Fault>
    ensures job { IfOk result (IsJob (subcommand_rows_of matches.now)) }
    ensures refused { IfErr result (RefusesMatch (subcommand_rows_of matches.now)) }
{
    let Some((name, found)) = matches.subcommand() else {
        return Ok(Job::Replay(None));
    };
    job_named(alloc, name, found)
}

/// The job of the subcommand of this name with its matches. The parser knows no other.
fn job_named(alloc: Global, name: &str, found: &ArgMatches<'_>) -> Result<Job, Fault>
    ensures job { IfOk result (IsJob (Some (name.now, rows_of (found_of found.now)))) }
    ensures refused { IfErr result (RefusesMatch (Some (name.now, rows_of (found_of found.now)))) }
{
    match subcommand_named(name) {
        Some(subcommand) => job_asked(alloc, subcommand, found),
        None => Err(Fault::Words(ArgumentError::Missing)),
    }
}

/// The subcommand of this name.
fn subcommand_named(name: &str) -> Option<Subcommand>
    ensures { result ≡ named name.now }
{
    if name == "replay" {
        Some(Subcommand::Replay)
    } else if name == "plan" {
        Some(Subcommand::Plan)
    } else if name == "quote" {
        Some(Subcommand::Quote)
    } else if name == "loop" {
        Some(Subcommand::Loop)
    } else if name == "send" {
        Some(Subcommand::Send)
    } else if name == "resume" {
        Some(Subcommand::Resume)
    } else if name == "stop" {
        Some(Subcommand::Stop)
    } else if name == "recover" {
        Some(Subcommand::Recover)
    } else if name == "rest" {
        Some(Subcommand::Rest)
    } else if name == "bill" {
        Some(Subcommand::Bill)
    } else if name == "doubtful" {
        Some(Subcommand::Doubtful)
    } else if name == "audit" {
        Some(Subcommand::Audit)
    } else if name == "topup" {
        Some(Subcommand::TopUp)
    } else if name == "balance" {
        Some(Subcommand::Balance)
    } else if name == "settle" {
        Some(Subcommand::Settle)
    } else if name == "decide" {
        Some(Subcommand::Decide)
    } else if name == "delivered" {
        Some(Subcommand::Delivered)
    } else {
        None
    }
}

/// The job of a subcommand with its matches. The parser requires its file; one that is missing is
/// refused all the same.
fn job_asked(alloc: Global, subcommand: Subcommand, found: &ArgMatches<'_>) -> Result<Job, Fault>
    ensures job { IfOk result (AsksFor subcommand (rows_of (found_of found.now))) }
    ensures refused { IfErr result (RefusesFor (IsRefused subcommand (rows_of (found_of found.now)))) }
{
    match subcommand {
        Subcommand::Replay => match text_given(alloc, found, "FILE") {
            Ok(file) => Ok(Job::Replay(file_of(file))),
            Err(fault) => Err(fault),
        },
        Subcommand::Plan => plan_job_of(alloc, found),
        Subcommand::Quote => quote_job_of(alloc, found),
        Subcommand::Loop => loop_job_of(alloc, found),
        Subcommand::Send => send_job_of(alloc, found),
        Subcommand::Resume => resume_job_of(alloc, found),
        Subcommand::Stop => match text_given(alloc, found, "journal") {
            Ok(journal) => Ok(Job::Stop(journal)),
            Err(fault) => Err(fault),
        },
        Subcommand::Recover => recover_job_of(alloc, found),
        Subcommand::Rest => rest_job_of(alloc, found),
        Subcommand::Bill => bill_job_of(alloc, found),
        Subcommand::Doubtful => doubtful_job_of(alloc, found),
        Subcommand::Audit => audit_job_of(alloc, found),
        Subcommand::TopUp => top_up_job_of(alloc, found),
        Subcommand::Balance => balance_job_of(alloc, found),
        Subcommand::Settle => settle_job_of(alloc, found),
        Subcommand::Decide => decide_job_of(alloc, found),
        Subcommand::Delivered => delivered_job_of(alloc, found),
    }
}

/// The job of `plan`.
fn plan_job_of(alloc: Global, found: &ArgMatches<'_>) -> Result<Job, Fault>
    ensures job { IfOk result (AsksFor Plan (rows_of (found_of found.now))) }
    ensures refused { IfErr result (RefusesFor (IsRefused Plan (rows_of (found_of found.now)))) }
{
    let (long, refs) = (is_given(found, "long"), is_given(found, "refs"));
    match text_given(alloc, found, "messages") {
        Ok(messages) => Ok(Job::Plan(messages, long, refs)),
        Err(fault) => Err(fault),
    }
}

/// The job of `quote`.
fn quote_job_of(alloc: Global, found: &ArgMatches<'_>) -> Result<Job, Fault>
    ensures job { IfOk result (AsksFor Quote (rows_of (found_of found.now))) }
    ensures refused { IfErr result (RefusesFor (IsRefused Quote (rows_of (found_of found.now)))) }
{
    let (verbose, refs) = (is_given(found, "verbose"), is_given(found, "refs"));
    match text_given(alloc, found, "config") {
        Ok(config) => Ok(Job::Quote(config, verbose, refs)),
        Err(fault) => Err(fault),
    }
}

/// What `loop` or `send` is asked for.
pub(crate) fn send_args_of(alloc: Global, found: &ArgMatches<'_>) -> Result<SendArgs, Fault>
    ensures order { IfOk result (AsksToSend (rows_of (found_of found.now))) }
    ensures refused { IfErr result (RefusesFor (AreRefusedArgs (rows_of (found_of found.now)))) }
{
    let (throttle, again) = match pace_of(found) {
        Ok(pace) => pace,
        Err(fault) => return Err(fault),
    };
    let journal = match journal_of(alloc, found) {
        Ok(journal) => journal,
        Err(fault) => return Err(fault),
    };
    let (fields, lines) = match fields_and_lines(alloc, found) {
        Ok(both) => both,
        Err(fault) => {
            drop(journal);
            return Err(fault);
        }
    };
    match text_given(alloc, found, "config") {
        Ok(config) => Ok(SendArgs {
            config,
            fields,
            quiet: is_given(found, "quiet"),
            verbose: is_given(found, "verbose"),
            journal,
            throttle,
            again,
            lines,
            strict: is_given(found, "strict"),
            refs: is_given(found, "refs"),
        }),
        Err(fault) => {
            drop(journal);
            drop(fields);
            drop(lines);
            Err(fault)
        }
    }
}

/// What `resume` is asked for.
pub(crate) fn resume_args_of(alloc: Global, found: &ArgMatches<'_>) -> Result<ResumeArgs, Fault>
    ensures order { IfOk result (AsksToResume (rows_of (found_of found.now))) }
    ensures refused { IfErr result (RefusesFor (AreRefusedResumeArgs (rows_of (found_of found.now)))) }
{
    let (throttle, again) = match pace_of(found) {
        Ok(pace) => pace,
        Err(fault) => return Err(fault),
    };
    let (quiet, verbose) = (is_given(found, "quiet"), is_given(found, "verbose"));
    let (sync, strict) = (is_given(found, "sync"), is_given(found, "strict"));
    let refs = is_given(found, "refs");
    let (fields, lines) = match fields_and_lines(alloc, found) {
        Ok(both) => both,
        Err(fault) => return Err(fault),
    };
    match names_of(alloc, found, "journal") {
        Ok((config, name)) => Ok(ResumeArgs {
            config,
            fields,
            quiet,
            verbose,
            journal: JournalFile { name, sync },
            throttle,
            again,
            lines,
            strict,
            refs,
        }),
        Err(fault) => {
            drop(fields);
            drop(lines);
            Err(fault)
        }
    }
}

/// The fields that are asked for, and what is asked of the lines.
fn fields_and_lines(
    alloc: Global,
    found: &ArgMatches<'_>,
) -> Result<(Option<String>, LineArgs), Fault>
    ensures fields { IfOk result (λ both. first_of (codes "fields") (rows_of (found_of found.now)) ≡ bytes_of both.0) }
    ensures lines { IfOk result (λ both. AsksForLines (rows_of (found_of found.now)) both.1) }
    ensures refused { IfErr result (RefusesFor (IsWrongLine (rows_of (found_of found.now)))) }
{
    let fields = match text_if_given(alloc, found, "fields") {
        Ok(fields) => fields,
        Err(fault) => return Err(fault),
    };
    match lines_of(alloc, found) {
        Ok(lines) => Ok((fields, lines)),
        Err(fault) => {
            drop(fields);
            Err(fault)
        }
    }
}

/// The journal that is asked for. That the disk has it can't be asked of none.
fn journal_of(alloc: Global, found: &ArgMatches<'_>) -> Result<Option<JournalFile>, Fault>
    ensures journal { IfOk result (AsksToNote (rows_of (found_of found.now))) }
    ensures refused { IfErr result (RefusesFor (IsWrongSync (rows_of (found_of found.now)))) }
{
    let sync = is_given(found, "sync");
    match text_if_given(alloc, found, "journal") {
        Ok(Some(name)) => Ok(Some(JournalFile { name, sync })),
        Ok(None) if sync => Err(Fault::Words(ArgumentError::SyncAlone)),
        Ok(None) => Ok(None),
        Err(fault) => Err(fault),
    }
}

/// The file of this name; `-` is standard input, which is none.
fn file_of(name: String) -> Option<String>
    ensures { bytes_of result ≡ file_named (string_bytes name) }
{
    if name.as_str() == "-" {
        None
    } else {
        Some(name)
    }
}
