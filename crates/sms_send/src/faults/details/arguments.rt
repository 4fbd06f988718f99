//! The detail lines of arguments that are refused.

use crate::faults::argument_error::{ArgumentError, NumberOption};
use std::alloc::AllocError;

/// Writes why the arguments are refused.
pub(crate) fn write_argument_error(
    text: &mut String,
    error: &ArgumentError,
) -> Result<(), AllocError> {
    text.push_str(match error {
        ArgumentError::Parser(message) => message.as_str(),
        ArgumentError::NotUtf8 => "an argument isn't UTF-8",
        ArgumentError::Missing => "an argument is missing",
        ArgumentError::Number(option) => range_of(*option),
        ArgumentError::SyncAlone => "--sync needs --journal FILE",
        ArgumentError::AgainMsAlone => "--again-ms needs --again N",
        ArgumentError::Account => "ACCOUNT is a name of 1 to 192 characters",
        ArgumentError::Credits => "CREDITS is a whole number from 1 to 1099511627776",
        ArgumentError::Reference => "--ref takes a name of 1 to 192 characters",
        ArgumentError::LedgerAlone => "--ledger needs --journal FILE",
        ArgumentError::Ids => "--ids takes hex-dec or dec-hex",
        ArgumentError::StayAlone => "--stay needs --inbox FILE",
        ArgumentError::IdsAlone => "--ids needs --stay S",
    })
}

/// The numbers that an option takes.
fn range_of(option: NumberOption) -> &'static str {
    match option {
        NumberOption::ConnectMs => "--connect-ms takes a whole number from 1 to 600000",
        NumberOption::Rate => "--rate takes a whole number from 1 to 100000",
        NumberOption::StopAfter => "--stop-after takes a whole number from 1 to 1000000",
        NumberOption::Again => "--again takes a whole number from 1 to 1000000",
        NumberOption::AgainMs => "--again-ms takes a whole number from 1 to 600000",
        NumberOption::Enquire => "--enquire takes a whole number from 1 to 3600",
        NumberOption::Stay => "--stay takes a whole number from 1 to 86400",
    }
}
