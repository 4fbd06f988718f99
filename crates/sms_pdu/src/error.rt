//! Why a PDU can't be read or written.

ghost use Rattle.std.specs.Prelude.{◌≡◌};
ghost use Rattle.sms_pdu.specs.declared.error.PduError.TheVariants.{OutOfMemory};

use crate::field::Field;
use std::alloc::{AllocError, AllocFailed};

/// Why a PDU can't be read or written: the first fault from left to right.
#[derive(Clone, Copy, Debug, PartialEq, Eq, thiserror::Error)]
pub enum PduError {
    /// Fewer octets than a header has.
    #[error("the PDU has fewer than 16 octets")]
    Short,
    /// The command_length isn't the number of octets, or is above 70,000.
    #[error("the command_length is not the number of octets, or is above 70000")]
    BadLength,
    /// No body is known for the command_id.
    #[error("the command_id is not known")]
    UnknownCommand,
    /// A field that is cut, or holds what it must not.
    #[error("the field {field:?} is malformed")]
    Malformed { field: Field },
    /// A field that is longer than its maximum.
    #[error("the field {field:?} is too long")]
    TooLong { field: Field },
    /// Memory was refused.
    #[error("out of memory")]
    OutOfMemory,
}

impl From<AllocError> for PduError {
    ghost from_gives = { λ _ e. e ≡ OutOfMemory };

    fn from(_e: AllocError) -> PduError {
        PduError::OutOfMemory
    }
}

impl<T: Drop> From<AllocFailed<T>> for PduError {
    ghost from_gives = { λ _ e. e ≡ OutOfMemory };

    fn from(_e: AllocFailed<T>) -> PduError {
        PduError::OutOfMemory
    }
}
