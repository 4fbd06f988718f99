//! Why a sending ends without a statement.

use sms_book::BookError;
use sms_pdu::DeviceError;
use std::alloc::AllocError;

/// Why a bind failed, where it wasn't refused.
#[derive(Clone, Copy, Debug, PartialEq, Eq, thiserror::Error)]
pub enum BindFailure {
    /// There was no connection.
    #[error("there was no connection")]
    NoConnection,
    /// The input ended before an answer was whole.
    #[error("the connection ended before an answer")]
    Closed,
    /// What came is no answer to a bind.
    #[error("what came was no answer to a bind")]
    NotSmpp,
    /// A read failed, or gave nothing too often.
    #[error("the answer could not be read")]
    Read(DeviceError),
    /// A write failed.
    #[error("the bind could not be written")]
    Write(DeviceError),
}

/// Why a sending has no result. Binds are counted from 0. Nothing was sent.
#[derive(Clone, Copy, Debug, PartialEq, Eq, thiserror::Error)]
pub enum SendFault {
    /// The bind was refused with this command_status; nothing was sent.
    #[error("bind {0} was refused with status {1}")]
    BindRefused(u32, u32),
    /// The bind failed before it was answered; nothing was sent.
    #[error("bind {0} failed: {1}")]
    BindFailed(u32, BindFailure),
    /// A thread was refused; nothing was sent.
    #[error("a thread could not be started")]
    ThreadRefused,
    /// No book can be opened with these accounts for this many workers; nothing was sent.
    #[error("no book was opened: {0}")]
    BookRefused(BookError),
    /// Memory was refused before the first message; nothing was sent.
    #[error("out of memory")]
    OutOfMemory,
}

impl From<AllocError> for SendFault {
    ghost use Rattle.std.specs.Prelude.{◌≡◌};
    ghost use Rattle.sms_driver.specs.declared.fault.SendFault.TheVariants.{OutOfMemory};

    ghost from_gives = { λ _ f. f ≡ OutOfMemory };

    fn from(_e: AllocError) -> SendFault {
        SendFault::OutOfMemory
    }
}
