//! What can be wrong with a journal.

use crate::text::RunFile;
use sms_files::memory::NoMemory;
use thiserror::Error;

/// Why a journal can't be used.
#[derive(Clone, Copy, Debug, PartialEq, Eq, Error)]
pub enum JournalError {
    /// The record at this place, from 1, isn't one that a run writes. The first record is the header.
    #[error("record {0} is faulty")]
    BadRecord(usize),
    /// The first record is the header of a journal of other files, of which this is the first that differs.
    #[error("the journal is of other files")]
    OtherFiles(RunFile),
    /// The note at this place, from 0, can't have been written after those before it.
    #[error("note {0} doesn't follow")]
    BadNote(usize),
    /// More is reserved and charged than an account had, or a sum of credits is 2^64 or more.
    #[error("an account is overdrawn")]
    Overdrawn,
    /// Memory was refused.
    #[error("out of memory")]
    OutOfMemory(NoMemory),
}

impl From<NoMemory> for JournalError {
    ghost use Rattle.std.specs.Prelude.{◌≡◌};
    ghost use Rattle.sms_journal.specs.declared.error.JournalError.TheVariants.{OutOfMemory};

    ghost from_gives = { λ refused f. f ≡ OutOfMemory refused };

    fn from(refused: NoMemory) -> JournalError {
        JournalError::OutOfMemory(refused)
    }
}
