//! The detail lines of ledgers that can't be used, and of payments that they refuse.

use crate::faults::context::{JobNames, text_of};
use crate::faults::details::journal::writing_text;
use crate::faults::details::shown::Shown;
use crate::faults::fault::Fault;
use crate::faults::ledger_run::Unsettled;
use sms_devices::{JournalFailure, LedgerFailure};
use sms_ledger::Refusal;
use std::alloc::AllocError;
use std::fmt::Write as _;
use std::io::ErrorKind;

/// Writes the detail lines of a ledger's fault, without a line end behind the last. The other faults have a fixed line, or
/// none.
pub(crate) fn write_ledger_lines(
    text: &mut String,
    names: &JobNames,
    fault: &Fault,
) -> Result<(), AllocError> {
    match fault {
        Fault::LedgerFile(_, kind) => text.push_str(opening_text(*kind)),
        Fault::Ledger(why) => write_failure(text, *why),
        Fault::BadEntry(_, cause) => write_bad_entry(text, text_of(&names.ledger), cause),
        Fault::Payment(cause) | Fault::Booking(cause) => write_refusal(text, *cause),
        Fault::BadDecision(_) => {
            text.push_str("it decides of no part of the run that is in doubt; nothing was booked")
        }
        Fault::Unsettled(why) => write_unsettled(text, *why),
        _ => Ok(()),
    }
}

/// Why a ledger's file can't be opened or made, by the system's error.
fn opening_text(kind: ErrorKind) -> &'static str {
    match kind {
        ErrorKind::NotFound => "there is no such file or folder",
        ErrorKind::NotADirectory => "a part of its path is no folder",
        ErrorKind::IsADirectory => "it is no file, but a folder",
        ErrorKind::PermissionDenied => "this user isn't permitted to open it so",
        ErrorKind::ReadOnlyFilesystem => "its file system is read-only",
        ErrorKind::StorageFull => "no space left on the device",
        ErrorKind::QuotaExceeded => "this user's disk quota is used up",
        _ => "the system could not open it",
    }
}

/// Writes why a ledger's file can't be used, and whether the payment may be booked.
fn write_failure(text: &mut String, why: LedgerFailure) -> Result<(), AllocError> {
    match why {
        LedgerFailure::Unopened(kind) => text.push_str(opening_text(kind)),
        LedgerFailure::NoFile => text.push_str("it is no regular file"),
        LedgerFailure::OtherKind => text.push_str(
            "loop takes credits of a ledger that topup --trial began, and what is sent those of another",
        ),
        LedgerFailure::Locked => {
            text.push_str("other programs have held it for 10 seconds; nothing was booked")
        }
        LedgerFailure::Unread(_) => {
            text.push_str("it can't be locked or read to its end; nothing was booked")
        }
        LedgerFailure::Unwritten(kind) => {
            let why = writing_text(JournalFailure::of(kind));
            write!(text, "{why}; nothing was booked")
        }
        LedgerFailure::Torn(kind) => {
            let why = writing_text(JournalFailure::of(kind));
            write!(text, "{why}; balance says whether the payment was booked")
        }
        LedgerFailure::OutOfMemory(_) => text.push_str("memory was refused; nothing was booked"),
    }
}

/// Writes why a run's statement wasn't booked, and what books it.
fn write_unsettled(text: &mut String, why: Unsettled) -> Result<(), AllocError> {
    match why {
        Unsettled::File(kind) => text.push_str(opening_text(kind))?,
        Unsettled::Use(why) => write_failure(text, why)?,
        Unsettled::Record(place, _) => write!(text, "record {place} of the ledger is faulty")?,
        Unsettled::Refused(cause) => write!(text, "{cause}")?,
        Unsettled::OutOfMemory => text.push_str("memory was refused")?,
    }
    text.push_str(
        "\nthe report is right, but the credits of the run are out still: settle brings them back",
    )
}

/// Writes what is wrong with a record of a ledger of this name.
fn write_bad_entry(
    text: &mut String,
    name: Option<&str>,
    cause: &Option<Refusal>,
) -> Result<(), AllocError> {
    if let Some(name) = name {
        let name = Shown(name);
        write!(text, "{name}: ")?;
    }
    match cause {
        Some(cause) => write!(text, "{cause}"),
        None => text.push_str("no entry of a ledger is written so"),
    }
}

/// Writes why a ledger refuses a payment.
fn write_refusal(text: &mut String, cause: Refusal) -> Result<(), AllocError> {
    write!(text, "{cause}; nothing was booked")
}
