//! The subcommands over a ledger, as the parser knows them.

ghost use Rattle.std.specs.Prelude.{IfOk};
ghost use Rattle.sms_send.specs.CommandLine.{IsLine, balance_line, topup_line};

use crate::args::command_line::{
    file_option, flag, name_argument, subcommand, value_option, verbose_flag, with_argument,
};
use clap::Command;
use std::alloc::{AllocError, Global};

/// The subcommand `topup`.
pub(crate) fn topup_command<'a>(alloc: Global) -> Result<Command<'a>, AllocError>
    ensures { IfOk result (IsLine topup_line) }
{
    let ledger = file_option(alloc, "ledger", "The ledger; it is made if it is not there");
    let account = name_argument(alloc, "ACCOUNT", "The account that is paid for");
    let credits = name_argument(alloc, "CREDITS", "The credits that are paid, 1 to 2^40");
    let reference = value_option(
        alloc,
        "ref",
        "REF",
        "The payment's own name, by which it is booked once however often this is typed",
    );
    let trial = flag(
        alloc,
        "trial",
        "The ledger is one of trials, for loop alone",
    );
    let begun = subcommand(
        alloc,
        "topup",
        "Books a payment of an account in a ledger, and prints the account's balance",
    );
    let filed = with_argument(Ok(begun), ledger);
    let named = with_argument(filed, account);
    let counted = with_argument(named, credits);
    let referred = with_argument(counted, reference);
    let tried = with_argument(referred, trial);
    with_argument(tried, verbose_flag(alloc))
}

/// The subcommand `balance`.
pub(crate) fn balance_command<'a>(alloc: Global) -> Result<Command<'a>, AllocError>
    ensures { IfOk result (IsLine balance_line) }
{
    let ledger = file_option(alloc, "ledger", "The ledger");
    let begun = subcommand(
        alloc,
        "balance",
        "Prints where the credits of each account of a ledger are",
    );
    let filed = with_argument(Ok(begun), ledger);
    with_argument(filed, verbose_flag(alloc))
}
