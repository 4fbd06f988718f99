//! Why a text isn't written.

use crate::memory::NoMemory;
use crate::report::unwritten::Unwritten;

/// Why a text isn't written whole.
#[derive(Debug, Drop, thiserror::Error)]
pub enum OutputFault {
    /// The output failed.
    #[error("output")]
    Output(Unwritten),
    /// Memory was refused before the first octet was written.
    #[error("out of memory")]
    OutOfMemory(NoMemory),
}

impl From<NoMemory> for OutputFault {
    ghost use Rattle.std.specs.Prelude.{◌≡◌};
    ghost use Rattle.sms_files.specs.declared.report.fault.OutputFault.TheVariants.{OutOfMemory};

    ghost from_gives = { λ _ f. f ≡ OutOfMemory tt };

    fn from(no: NoMemory) -> OutputFault {
        OutputFault::OutOfMemory(no)
    }
}
