//! What standard error has of a sending beside its fault.

ghost use Rattle.std.specs.Prelude.{◌≡◌};
ghost use Rattle.sms_send.specs.Remarks.{remarks_by};

use crate::faults::context::is_at_length;
use sms_devices::Telling;

/// What standard error has of a sending beside its fault.
#[derive(Clone, Copy, Debug, PartialEq, Eq)]
pub struct Remarks {
    /// How it goes, and what it came to.
    pub telling: Telling,
    /// Whether it has the details too: why messages were not sent.
    pub at_length: bool,
    /// Whether it is a trial.
    pub trial: bool,
}

impl Remarks {
    /// What is printed where quiet is asked for, or details, on a terminal or elsewhere, where details of each
    /// sending may be wanted, of a trial or a run.
    pub fn new(quiet: bool, verbose: bool, terminal: bool, details: bool, trial: bool) -> Remarks
        ensures { result ≡ remarks_by quiet verbose terminal details trial }
    {
        Remarks {
            telling: Telling::new(quiet, terminal),
            at_length: !quiet && is_at_length(details, verbose),
            trial,
        }
    }
}
