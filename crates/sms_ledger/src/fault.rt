//! What can be wrong with a ledger's octets.

use crate::refusal::Refusal;
use sms_files::memory::NoMemory;
use thiserror::Error;

/// Why octets are no ledger. Records count from 1, the header.
#[derive(Clone, Copy, Debug, PartialEq, Eq, Error)]
pub enum Fault {
    /// The record at this place isn't as an entry is written.
    #[error("record {0} is faulty")]
    Unreadable(usize),
    /// Its entry can't follow those before it.
    #[error("record {0}: {1}")]
    Refused(usize, Refusal),
    /// Memory was refused.
    #[error("out of memory")]
    Memory(NoMemory),
}

impl From<NoMemory> for Fault {
    ghost use Rattle.std.specs.Prelude.{◌≡◌};
    ghost use Rattle.sms_ledger.specs.declared.fault.Fault.TheVariants.{Memory};

    ghost from_gives = { λ refused f. f ≡ Memory refused };

    fn from(refused: NoMemory) -> Fault {
        Fault::Memory(refused)
    }
}
