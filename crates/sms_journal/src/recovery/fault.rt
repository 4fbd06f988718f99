//! Why nothing is recovered.

use crate::text::RunFile;
use sms_files::memory::NoMemory;
use sms_files::{InputFault, OutputFault, Unwritten};

/// Why there is no report of a journal, or nothing left of a report.
#[derive(Debug, Drop, thiserror::Error)]
pub enum RecoveryFault {
    /// One of the run's files can't be used.
    #[error("input")]
    Input(InputFault),
    /// The journal's record, counted from 1, isn't one that the run can have written there.
    #[error("journal record {0}")]
    Journal(usize),
    /// The journal is of other files, of which this is the first that differs.
    #[error("journal record 1")]
    OtherFiles(RunFile),
    /// The journal is that of a trial, and a run's was asked for.
    #[error("journal of a trial")]
    Trial,
    /// By the journal more is reserved and charged than an account had.
    #[error("journal")]
    Overdrawn,
    /// The report's record, counted from 1, isn't one of a report of the run's messages and accounts.
    #[error("report record {0}")]
    Report(usize),
    /// The output failed.
    #[error("output")]
    Output(Unwritten),
    /// Memory was refused.
    #[error("out of memory")]
    OutOfMemory(NoMemory),
}

impl From<NoMemory> for RecoveryFault {
    ghost use Rattle.std.specs.Prelude.{◌≡◌};
    ghost use Rattle.sms_journal.specs.declared.recovery.fault.RecoveryFault.TheVariants.{OutOfMemory};

    ghost from_gives = { λ refused f. f ≡ OutOfMemory refused };

    fn from(refused: NoMemory) -> RecoveryFault {
        RecoveryFault::OutOfMemory(refused)
    }
}

impl From<OutputFault> for RecoveryFault {
    ghost use Rattle.std.specs.Prelude.{◌≡◌};
    ghost use Rattle.sms_journal.specs.Faults.{fault_of_output};

    ghost from_gives = { λ f recovered. recovered ≡ fault_of_output f };

    fn from(fault: OutputFault) -> RecoveryFault {
        match fault {
            OutputFault::Output(unwritten) => RecoveryFault::Output(unwritten),
            OutputFault::OutOfMemory(refused) => RecoveryFault::OutOfMemory(refused),
        }
    }
}
