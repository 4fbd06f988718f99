//! The files of a run.

ghost use Rattle.std.specs.Prelude.{IfErr, IfOk, option_copied};
ghost use Rattle.sms_journal.specs.Files.{Reads, IsFaultOfFiles};

use crate::recovery::fault::RecoveryFault;
use sms_files::{Input, read_input};
use std::alloc::Global;

/// Reads a run's files from their octets.
pub fn input_of(
    alloc: Global,
    config: &[u8],
    accounts: &[u8],
    messages: &[u8],
    tariff: Option<&[u8]>,
) -> Result<Input, RecoveryFault>
    ensures read { IfOk result (Reads config.now accounts.now messages.now (option_copied tariff.entry)) }
    ensures refused { IfErr result (IsFaultOfFiles config.now accounts.now messages.now (option_copied tariff.entry)) }
{
    match read_input(alloc, config, accounts, messages, tariff) {
        Ok(input) => Ok(input),
        Err(fault) => Err(RecoveryFault::Input(fault)),
    }
}
