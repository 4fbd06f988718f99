//! What can be wrong with an inbox's octets.

use std::alloc::AllocError;
use thiserror::Error;

/// Why octets are no inbox. Records count from 1.
#[derive(Clone, Copy, Debug, PartialEq, Eq, Error)]
pub enum Fault {
    /// The line at this place isn't as a record is written.
    #[error("record {0} is faulty")]
    Unreadable(usize),
    /// Memory was refused.
    #[error("out of memory")]
    OutOfMemory,
}

impl From<AllocError> for Fault {
    ghost use Rattle.std.specs.Prelude.{◌≡◌};
    ghost use Rattle.sms_inbox.specs.declared.fault.Fault.TheVariants.{OutOfMemory};

    ghost from_gives = { λ refused f. f ≡ OutOfMemory };

    fn from(_refused: AllocError) -> Fault {
        Fault::OutOfMemory
    }
}
