//! The subcommands over a run that was sent, as the parser knows them.

ghost use Rattle.std.specs.Prelude.{IfOk};
ghost use Rattle.sms_send.specs.CommandLine.{IsLine, audit_line, bill_line, doubtful_line, list_line, recover_line, rest_line};

use crate::args::command_line::{
    file_option, flag, refs_flag, subcommand, verbose_flag, with_argument,
};
use clap::Command;
use std::alloc::{AllocError, Global};

/// The subcommand `recover`.
pub(crate) fn recover_command<'a>(alloc: Global) -> Result<Command<'a>, AllocError>
    ensures { IfOk result (IsLine recover_line) }
{
    let config = file_option(alloc, "config", "The config of the run");
    let journal = file_option(alloc, "journal", "The journal of the run");
    let trial = flag(
        alloc,
        "trial",
        "Prints the report of a trial, a journal of loop, too",
    );
    let begun = subcommand(
        alloc,
        "recover",
        "Prints the report of a run that was interrupted, from its journal",
    );
    let configured = with_argument(Ok(begun), config);
    let noted = with_argument(configured, journal);
    let tried = with_argument(noted, trial);
    let referred = with_argument(tried, refs_flag(alloc));
    with_argument(referred, verbose_flag(alloc))
}

/// The subcommand `rest`.
pub(crate) fn rest_command<'a>(alloc: Global) -> Result<Command<'a>, AllocError>
    ensures { IfOk result (IsLine rest_line) }
{
    let config = file_option(alloc, "config", "The config of the run");
    let report = file_option(alloc, "report", "The report of the run");
    let accounts = flag(
        alloc,
        "accounts",
        "Prints the accounts with the credits that they have left, instead of the messages",
    );
    let begun = subcommand(
        alloc,
        "rest",
        "Prints the messages of which a run sent nothing, from its report",
    );
    let configured = with_argument(Ok(begun), config);
    let reported = with_argument(configured, report);
    let counted = with_argument(reported, accounts);
    let referred = with_argument(counted, refs_flag(alloc));
    with_argument(referred, verbose_flag(alloc))
}

/// A subcommand of this name over a run's journal.
fn list_command<'a>(alloc: Global, name: &'a str, about: &'a str) -> Result<Command<'a>, AllocError>
    ensures { IfOk result (IsLine (list_line name.now)) }
{
    let config = file_option(alloc, "config", "The config of the run");
    let journal = file_option(alloc, "journal", "The journal of the run");
    let begun = subcommand(alloc, name, about);
    let configured = with_argument(Ok(begun), config);
    let noted = with_argument(configured, journal);
    let referred = with_argument(noted, refs_flag(alloc));
    with_argument(referred, verbose_flag(alloc))
}

/// The subcommand `bill`.
pub(crate) fn bill_command<'a>(alloc: Global) -> Result<Command<'a>, AllocError>
    ensures { IfOk result (IsLine bill_line) }
{
    list_command(
        alloc,
        "bill",
        "Prints each part of a run with its account, cost, outcome and times, from its journal",
    )
}

/// The subcommand `doubtful`.
pub(crate) fn doubtful_command<'a>(alloc: Global) -> Result<Command<'a>, AllocError>
    ensures { IfOk result (IsLine doubtful_line) }
{
    list_command(
        alloc,
        "doubtful",
        "Prints the parts of a run that had no answer, with their texts, from its journal",
    )
}

/// The subcommand `audit`.
pub(crate) fn audit_command<'a>(alloc: Global) -> Result<Command<'a>, AllocError>
    ensures { IfOk result (IsLine audit_line) }
{
    let config = file_option(alloc, "config", "The config of the run");
    let report = file_option(alloc, "report", "The report of the run");
    let begun = subcommand(
        alloc,
        "audit",
        "Prints a run, by its report, as a schedule of the model; replay of it ends with the rows of the report",
    );
    let configured = with_argument(Ok(begun), config);
    let reported = with_argument(configured, report);
    let referred = with_argument(reported, refs_flag(alloc));
    with_argument(referred, verbose_flag(alloc))
}
