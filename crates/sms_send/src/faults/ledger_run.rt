//! What is wrong with a run and a ledger.

ghost use Rattle.std.specs.Prelude.{◌≡◌};
ghost use Rattle.sms_send.specs.Faults.{unsettled_by};

use crate::faults::fault::Fault;
use sms_devices::LedgerFailure;
use sms_ledger::Refusal;
use std::io::ErrorKind;

/// Why a run isn't one of the ledger that is asked for.
#[derive(Clone, Copy, Debug, PartialEq, Eq)]
pub enum LedgerRunFlaw {
    /// Its accounts are those of an accounts file.
    NoLedger,
    /// They are those of a ledger, which isn't named.
    OfLedger,
    /// What it took isn't out with it: its statement is booked, or it took nothing.
    NotOut,
}

/// Why a run's statement wasn't booked behind its report. Its credits are out still.
#[derive(Clone, Copy, Debug, PartialEq, Eq)]
pub enum Unsettled {
    /// The ledger's file can't be opened.
    File(ErrorKind),
    /// It can't be used.
    Use(LedgerFailure),
    /// The record of it, counted from 1, is faulty.
    Record(usize, Option<Refusal>),
    /// It refuses the statement.
    Refused(Refusal),
    OutOfMemory,
}

/// The fault of a statement that wasn't booked, by the fault of booking.
pub(crate) fn why_unsettled(fault: &Fault) -> Unsettled
    ensures { result ≡ unsettled_by fault.now }
{
    match fault {
        Fault::LedgerFile(_, kind) => Unsettled::File(*kind),
        Fault::Ledger(why) => Unsettled::Use(*why),
        Fault::BadEntry(place, cause) => Unsettled::Record(*place, *cause),
        Fault::Booking(cause) => Unsettled::Refused(*cause),
        _ => Unsettled::OutOfMemory,
    }
}
