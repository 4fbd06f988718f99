//! Why no schedule is printed.

use crate::recovery::RecoveryFault;
use sms_files::memory::NoMemory;

/// Why there is no schedule of a sending.
#[derive(Debug, Drop, thiserror::Error)]
pub enum AuditFault {
    /// The files, the report or the journal, or the output can't be used. A record of a report is also faulty where
    /// its part costs more than its account was opened with.
    #[error("run")]
    Run(RecoveryFault),
    /// The schedule has more events than `replay` takes.
    #[error("schedule")]
    TooLong,
}

impl From<NoMemory> for AuditFault {
    ghost use Rattle.std.specs.Prelude.{◌≡◌};
    ghost use Rattle.sms_journal.specs.declared.audit.fault.AuditFault.TheVariants.{Run};
    ghost use Rattle.sms_journal.specs.declared.recovery.fault.RecoveryFault.TheVariants.{OutOfMemory};

    ghost from_gives = { λ refused f. f ≡ Run (OutOfMemory refused) };

    fn from(refused: NoMemory) -> AuditFault {
        AuditFault::Run(RecoveryFault::OutOfMemory(refused))
    }
}

impl From<RecoveryFault> for AuditFault {
    ghost use Rattle.std.specs.Prelude.{◌≡◌};
    ghost use Rattle.sms_journal.specs.declared.audit.fault.AuditFault.TheVariants.{Run};

    ghost from_gives = { λ fault f. f ≡ Run fault };

    fn from(fault: RecoveryFault) -> AuditFault {
        AuditFault::Run(fault)
    }
}
