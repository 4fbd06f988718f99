//! The command line, as the parser knows it.

ghost use Rattle.std.specs.Prelude.{◌≡◌, false, IfOk, IsOkAnd};
ghost use Rattle.clap.specs.Words.{AddsSubcommand, App, Rule, app_of, new_app, rule_of, with_rule};
ghost use Rattle.sms_send.specs.CommandLine.{IsLine, command_line as words_allowed, throttle_rules, again_rules, config_rules, plan_line, program_line, quote_line, refs_rule, replay_line, resume_line, sender_line, sending_rules, stop_line, verbose_rule, with_rules};
ghost use Rattle.sms_send.specs.Rules.{file_rule, flag_rule, name_rule, value_rule};

use crate::args::ledger_commands::{balance_command, topup_command};
use crate::args::ledger_run_commands::{decide_command, settle_command, with_ledger};
use crate::args::line_commands::{delivered_command, with_lines};
use crate::args::run_commands::{
    audit_command, bill_command, doubtful_command, recover_command, rest_command,
};
use clap::{Arg, ArgAction, Command};
use std::alloc::{AllocError, Global};

/// The program's name, as its help and version have it.
const NAME: &str = "sms-send";

/// The program's version.
const VERSION: &str = "0.1.0";

/// The command line, as the parser takes it.
pub fn command_line<'a>(alloc: Global) -> Result<Command<'a>, AllocError>
    ensures { IfOk result (λ command. app_of command ≡ words_allowed) }
{
    let program = program_command(alloc)?;
    let replaying = with_subcommand(program, replay_command(alloc))?;
    let planning = with_subcommand(replaying, plan_command(alloc))?;
    let quoting = with_subcommand(planning, quote_command(alloc))?;
    let looping = sender_command(
        alloc,
        "loop",
        "Sends the messages that the config names through a test centre in this process, and prints a report",
    );
    let either = with_subcommand(quoting, with_ledger(alloc, looping))?;
    let sending = sender_command(
        alloc,
        "send",
        "Sends the messages that the config names to its message centre, and prints a report",
    );
    let both = with_subcommand(either, with_ledger(alloc, sending))?;
    let going_on = with_subcommand(both, resume_command(alloc))?;
    let stopping = with_subcommand(going_on, stop_command(alloc))?;
    let recovering = with_subcommand(stopping, recover_command(alloc))?;
    let left = with_subcommand(recovering, rest_command(alloc))?;
    let billing = with_subcommand(left, bill_command(alloc))?;
    let doubting = with_subcommand(billing, doubtful_command(alloc))?;
    let auditing = with_subcommand(doubting, audit_command(alloc))?;
    let paying = with_subcommand(auditing, topup_command(alloc))?;
    let balancing = with_subcommand(paying, balance_command(alloc))?;
    let settling = with_subcommand(balancing, settle_command(alloc))?;
    let deciding = with_subcommand(settling, decide_command(alloc))?;
    with_subcommand(deciding, delivered_command(alloc))
}

/// The command with this subcommand too, where there was memory for both.
//
// What dies here is dropped by a call: behind a `?` each of its parts would die on a way of its own,
// which the prover goes through.
fn with_subcommand<'a>(
    command: Command<'a>,
    subcommand: Result<Command<'a>, AllocError>,
) -> Result<Command<'a>, AllocError>
    ensures { IfOk result (λ r. IsOkAnd subcommand.entry (λ s. AddsSubcommand command.entry s r)) }
{
    match subcommand {
        Ok(subcommand) => command.subcommand(subcommand),
        Err(error) => {
            drop(command);
            Err(error)
        }
    }
}

/// The program before its subcommands.
fn program_command<'a>(alloc: Global) -> Result<Command<'a>, AllocError>
    ensures { IfOk result (λ command. app_of command ≡ program_line) }
{
    Command::new(alloc, NAME)
        .about(
            "Sends prepaid short messages over SMPP 3.4; without arguments it replays the schedule on standard input",
        )
        .version(VERSION)
        .no_binary_name(true)
        .bin_name(NAME)
}

/// The flag that every subcommand has.
pub(crate) fn verbose_flag<'a>(alloc: Global) -> Arg<'a>
    ensures rule { rule_of result ≡ verbose_rule }
    ensures local { result.global ≡ false }
{
    flag(
        alloc,
        "verbose",
        "Prints details of a fault on standard error",
    )
}

/// The flag of messages that have references.
pub(crate) fn refs_flag<'a>(alloc: Global) -> Arg<'a>
    ensures rule { rule_of result ≡ refs_rule }
    ensures local { result.global ≡ false }
{
    flag(
        alloc,
        "refs",
        "The messages file has a last column ref, the sender's own reference of each message",
    )
}

/// The subcommand `replay`.
fn replay_command<'a>(alloc: Global) -> Result<Command<'a>, AllocError>
    ensures { IfOk result (IsLine replay_line) }
{
    let begun = subcommand(
        alloc,
        "replay",
        "Replays a schedule of events and prints the result of each",
    );
    let named = with_argument(
        Ok(begun),
        name_argument(alloc, "FILE", "The schedule; - is standard input"),
    );
    with_argument(named, verbose_flag(alloc))
}

/// The subcommand `plan`.
fn plan_command<'a>(alloc: Global) -> Result<Command<'a>, AllocError>
    ensures { IfOk result (IsLine plan_line) }
{
    let messages = file_option(alloc, "messages", "The messages file");
    let long = flag(
        alloc,
        "long",
        "Splits long texts with references of 16 bits in place of 8",
    );
    let begun = subcommand(
        alloc,
        "plan",
        "Prints how the text of each message is encoded and split into parts",
    );
    let filed = with_argument(Ok(begun), messages);
    let longer = with_argument(filed, long);
    let referred = with_argument(longer, refs_flag(alloc));
    with_argument(referred, verbose_flag(alloc))
}

/// The subcommand `quote`.
fn quote_command<'a>(alloc: Global) -> Result<Command<'a>, AllocError>
    ensures { IfOk result (IsLine quote_line) }
{
    let config = file_option(alloc, "config", "The config of the sending");
    let begun = subcommand(
        alloc,
        "quote",
        "Prints what the messages that the config names would cost, and which would be refused; sends nothing",
    );
    let configured = with_argument(Ok(begun), config);
    let referred = with_argument(configured, refs_flag(alloc));
    with_argument(referred, verbose_flag(alloc))
}

/// The subcommand `resume`.
fn resume_command<'a>(alloc: Global) -> Result<Command<'a>, AllocError>
    ensures { IfOk result (IsLine resume_line) }
{
    let begun = subcommand(
        alloc,
        "resume",
        "Sends what a run has not begun yet, by its journal, and prints the report of the whole run",
    );
    let journal = file_option(
        alloc,
        "journal",
        "The journal of the run, which goes on in it",
    );
    let quieted = with_config(alloc, Ok(begun));
    let noted = with_argument(quieted, journal);
    with_ledger(alloc, with_sending(alloc, noted))
}

/// The subcommand `stop`.
fn stop_command<'a>(alloc: Global) -> Result<Command<'a>, AllocError>
    ensures { IfOk result (IsLine stop_line) }
{
    let journal = file_option(alloc, "journal", "The journal of the run");
    let begun = subcommand(
        alloc,
        "stop",
        "Asks a run to begin no further message, and waits for its end",
    );
    let noted = with_argument(Ok(begun), journal);
    with_argument(noted, verbose_flag(alloc))
}

/// The subcommand `loop` or `send`.
fn sender_command<'a>(
    alloc: Global,
    name: &'a str,
    about: &'a str,
) -> Result<Command<'a>, AllocError>
    ensures { IfOk result (IsLine (sender_line name.now)) }
{
    let journal = value_option(
        alloc,
        "journal",
        "FILE",
        "Writes a journal of what is sent and received to this new file",
    );
    let quieted = with_config(alloc, Ok(subcommand(alloc, name, about)));
    let noted = with_argument(quieted, journal);
    with_sending(alloc, noted)
}

/// The command with the options that each sending has before its journal.
fn with_config<'a>(
    alloc: Global,
    command: Result<Command<'a>, AllocError>,
) -> Result<Command<'a>, AllocError>
    ensures { (line : App) → IfOk command.entry (IsLine line) → IfOk result (IsLine (with_rules line config_rules)) }
{
    let config = file_option(alloc, "config", "The config, which names the other files");
    let quiet = flag(
        alloc,
        "quiet",
        "Prints nothing but faults on standard error",
    );
    let fields = value_option(
        alloc,
        "fields",
        "FILE",
        "What else each request says, as TOML: its validity, its priority and more",
    );
    let configured = with_argument(command, config);
    let fielded = with_argument(configured, fields);
    with_argument(fielded, quiet)
}

/// The command with the options that each sending has behind its journal.
fn with_sending<'a>(
    alloc: Global,
    command: Result<Command<'a>, AllocError>,
) -> Result<Command<'a>, AllocError>
    ensures { (line : App) → IfOk command.entry (IsLine line) → IfOk result (IsLine (with_rules line sending_rules)) }
{
    let sync = flag(
        alloc,
        "sync",
        "Sends nothing that is not on the disk in the journal",
    );
    let strict = flag(
        alloc,
        "strict",
        "Ends with status 5 if a message was not sent whole and no part is unanswered",
    );
    let synced = with_argument(command, sync);
    let stricter = with_argument(synced, strict);
    let referred = with_argument(stricter, refs_flag(alloc));
    let told = with_argument(referred, verbose_flag(alloc));
    let throttled = with_throttle(alloc, told);
    let rounds = with_again(alloc, throttled);
    with_lines(alloc, rounds)
}

/// The command with the options of its further rounds too.
fn with_again<'a>(
    alloc: Global,
    command: Result<Command<'a>, AllocError>,
) -> Result<Command<'a>, AllocError>
    ensures { (line : App) → IfOk command.entry (IsLine line) → IfOk result (IsLine (with_rules line again_rules)) }
{
    let again = value_option(
        alloc,
        "again",
        "N",
        "Goes on in at most N further rounds while messages are left, 1 to 1000000",
    );
    let wait = value_option(
        alloc,
        "again-ms",
        "N",
        "Waits so many milliseconds before each of them, 1 to 600000; 1000 without the option",
    );
    let rounds = with_argument(command, again);
    with_argument(rounds, wait)
}

/// The command with the options of its pace too.
fn with_throttle<'a>(
    alloc: Global,
    command: Result<Command<'a>, AllocError>,
) -> Result<Command<'a>, AllocError>
    ensures { (line : App) → IfOk command.entry (IsLine line) → IfOk result (IsLine (with_rules line throttle_rules)) }
{
    let connect = value_option(
        alloc,
        "connect-ms",
        "N",
        "The most milliseconds to connect and to bind, 1 to 600000",
    );
    let rate = value_option(
        alloc,
        "rate",
        "N",
        "The most requests that a bind sends in any second, 1 to 100000",
    );
    let stop = value_option(
        alloc,
        "stop-after",
        "N",
        "Gives a bind up after so many unanswered requests in a row, 1 to 1000000",
    );
    let connected = with_argument(command, connect);
    let rated = with_argument(connected, rate);
    with_argument(rated, stop)
}

/// A subcommand before its arguments.
pub(crate) fn subcommand<'a>(alloc: Global, name: &'a str, about: &'a str) -> Command<'a>
    ensures { IsLine (new_app name.now) result }
{
    Command::new(alloc, name).about(about)
}

/// The command with this argument too, where there was memory for both.
pub(crate) fn with_argument<'a>(
    command: Result<Command<'a>, AllocError>,
    argument: Arg<'a>,
) -> Result<Command<'a>, AllocError>
    requires local { argument.global ≡ false }
    ensures { (line : App) → (rule : Rule) → rule_of argument.entry ≡ rule → IfOk command.entry (IsLine line) → IfOk result (IsLine (with_rule line rule)) }
{
    match command {
        Ok(command) => command.arg(argument),
        Err(error) => {
            drop(argument);
            Err(error)
        }
    }
}

/// A word that has to be given.
pub(crate) fn name_argument<'a>(alloc: Global, name: &'a str, help: &'a str) -> Arg<'a>
    ensures rule { rule_of result ≡ name_rule name.now }
    ensures local { result.global ≡ false }
{
    Arg::new(alloc, name).required(true).help(help)
}

/// An option that has to be given a file.
pub(crate) fn file_option<'a>(alloc: Global, name: &'a str, help: &'a str) -> Arg<'a>
    ensures rule { rule_of result ≡ file_rule name.now }
    ensures local { result.global ≡ false }
{
    Arg::new(alloc, name)
        .long(name)
        .value_name("FILE")
        .required(true)
        .help(help)
}

/// An option that may be given a value.
pub(crate) fn value_option<'a>(
    alloc: Global,
    name: &'a str,
    value: &'a str,
    help: &'a str,
) -> Arg<'a>
    ensures rule { rule_of result ≡ value_rule name.now }
    ensures local { result.global ≡ false }
{
    Arg::new(alloc, name)
        .long(name)
        .value_name(value)
        .help(help)
}

/// An option that is given or not.
pub(crate) fn flag<'a>(alloc: Global, name: &'a str, help: &'a str) -> Arg<'a>
    ensures rule { rule_of result ≡ flag_rule name.now }
    ensures local { result.global ≡ false }
{
    Arg::new(alloc, name)
        .long(name)
        .action(ArgAction::SetTrue)
        .help(help)
}
