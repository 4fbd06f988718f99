//! The subcommands over a run of a ledger, as the parser knows them.

ghost use Rattle.std.specs.Prelude.{IfOk};
ghost use Rattle.clap.specs.Words.{App, with_rule};
ghost use Rattle.sms_send.specs.CommandLine.{IsLine, decide_line, ledger_rule, run_rules, settle_line, with_rules};

use crate::args::command_line::{
    file_option, refs_flag, subcommand, value_option, verbose_flag, with_argument,
};
use clap::Command;
use std::alloc::{AllocError, Global};

/// A sending with the option of its ledger.
pub(crate) fn with_ledger<'a>(
    alloc: Global,
    command: Result<Command<'a>, AllocError>,
) -> Result<Command<'a>, AllocError>
    ensures { (line : App) → IfOk command.entry (IsLine line) → IfOk result (IsLine (with_rule line ledger_rule)) }
{
    let ledger = value_option(
        alloc,
        "ledger",
        "FILE",
        "The ledger that has the accounts, in place of the config's accounts file",
    );
    with_argument(command, ledger)
}

/// The subcommand with the files of a run.
fn with_run<'a>(
    alloc: Global,
    command: Result<Command<'a>, AllocError>,
) -> Result<Command<'a>, AllocError>
    ensures { (line : App) → IfOk command.entry (IsLine line) → IfOk result (IsLine (with_rules line run_rules)) }
{
    let ledger = file_option(alloc, "ledger", "The ledger");
    let config = file_option(alloc, "config", "The config of the run");
    let journal = file_option(alloc, "journal", "The journal of the run");
    let filed = with_argument(command, ledger);
    let configured = with_argument(filed, config);
    let noted = with_argument(configured, journal);
    with_argument(noted, refs_flag(alloc))
}

/// The subcommand `settle`.
pub(crate) fn settle_command<'a>(alloc: Global) -> Result<Command<'a>, AllocError>
    ensures { IfOk result (IsLine settle_line) }
{
    let begun = subcommand(
        alloc,
        "settle",
        "Gives back to a ledger what a run that ended has out, by its journal, and prints what was booked",
    );
    let named = with_run(alloc, Ok(begun));
    with_argument(named, verbose_flag(alloc))
}

/// The subcommand `decide`.
pub(crate) fn decide_command<'a>(alloc: Global) -> Result<Command<'a>, AllocError>
    ensures { IfOk result (IsLine decide_line) }
{
    let decisions = file_option(alloc, "decisions", "What was found out of parts in doubt");
    let begun = subcommand(
        alloc,
        "decide",
        "Books in a ledger which parts in doubt of a run were delivered and which were lost, and prints what was booked",
    );
    let named = with_run(alloc, Ok(begun));
    let decided = with_argument(named, decisions);
    with_argument(decided, verbose_flag(alloc))
}
