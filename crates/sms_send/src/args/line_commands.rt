//! The options of a sending's lines, and the subcommand `delivered`, as the parser knows them.

ghost use Rattle.std.specs.Prelude.{◌≡◌, IfOk, codes, false};
ghost use Rattle.clap.specs.Words.{App, rule_of};
ghost use Rattle.sms_send.specs.CommandLine.{IsLine, delivered_line, with_rules};
ghost use Rattle.sms_send.specs.Lines.{line_rules};
ghost use Rattle.sms_send.specs.Rules.{value_rule};

use crate::args::command_line::{
    file_option, refs_flag, subcommand, value_option, verbose_flag, with_argument,
};
use clap::{Arg, Command};
use std::alloc::{AllocError, Global};

/// The command with the options of its lines too.
pub(crate) fn with_lines<'a>(
    alloc: Global,
    command: Result<Command<'a>, AllocError>,
) -> Result<Command<'a>, AllocError>
    ensures { (line : App) → IfOk command.entry (IsLine line) → IfOk result (IsLine (with_rules line line_rules)) }
{
    let inbox = value_option(
        alloc,
        "inbox",
        "FILE",
        "Keeps what the message centre says in this file: receipts, and messages of somebody",
    );
    let enquire = value_option(
        alloc,
        "enquire",
        "S",
        "Asks a line on which nothing came for S seconds whether it is alive, 1 to 3600",
    );
    let stay = value_option(
        alloc,
        "stay",
        "S",
        "Stays up to S seconds behind the last message, until each part has its receipt, 1 to 86400",
    );
    let kept = with_argument(command, inbox);
    let asked = with_argument(kept, enquire);
    let stayed = with_argument(asked, stay);
    with_argument(stayed, ids_option(alloc))
}

/// The option that says how ids in receipts are spelled.
fn ids_option<'a>(alloc: Global) -> Arg<'a>
    ensures rule { rule_of result ≡ value_rule (codes "ids") }
    ensures local { result.global ≡ false }
{
    value_option(
        alloc,
        "ids",
        "HOW",
        "hex-dec where the answers have ids in hexadecimal digits and the receipts in decimal ones, dec-hex the other way round",
    )
}

/// The subcommand `delivered`.
pub(crate) fn delivered_command<'a>(alloc: Global) -> Result<Command<'a>, AllocError>
    ensures { IfOk result (IsLine delivered_line) }
{
    let config = file_option(alloc, "config", "The config of the run");
    let journal = file_option(alloc, "journal", "The journal of the run");
    let inbox = file_option(alloc, "inbox", "The inbox of the run");
    let begun = subcommand(
        alloc,
        "delivered",
        "Prints what became of each part that was charged, by the receipts in an inbox",
    );
    let configured = with_argument(Ok(begun), config);
    let noted = with_argument(configured, journal);
    let kept = with_argument(noted, inbox);
    let spelled = with_argument(kept, ids_option(alloc));
    let referred = with_argument(spelled, refs_flag(alloc));
    with_argument(referred, verbose_flag(alloc))
}
