//! Why a decisions file can't be used.

use sms_files::memory::NoMemory;
use thiserror::Error;

/// Why a decisions file can't be used.
#[derive(Clone, Copy, Debug, PartialEq, Eq, Error)]
pub enum DecisionFault {
    /// The record at this place, from 1, isn't the header, or says nothing of a part of the run that is in doubt.
    #[error("decisions record {0}")]
    Record(usize),
    /// Memory was refused.
    #[error("out of memory")]
    OutOfMemory(NoMemory),
}

impl From<NoMemory> for DecisionFault {
    ghost use Rattle.std.specs.Prelude.{◌≡◌};
    ghost use Rattle.sms_journal.specs.declared.decisions.fault.DecisionFault.TheVariants.{OutOfMemory};

    ghost from_gives = { λ refused f. f ≡ OutOfMemory refused };

    fn from(refused: NoMemory) -> DecisionFault {
        DecisionFault::OutOfMemory(refused)
    }
}
