//! Why an entry can't follow those before it.

use sms_files::memory::NoMemory;
use thiserror::Error;

/// Why an entry can't follow.
#[derive(Clone, Copy, Debug, PartialEq, Eq, Error)]
pub enum Refusal {
    #[error("no credits are paid")]
    NothingPaid,
    #[error("a payment with this reference is booked")]
    PaidBefore,
    #[error("more than 2^40 credits would be paid for the account")]
    TooMuch,
    #[error("nothing was paid for the account")]
    NoAccount,
    #[error("the account has fewer free credits")]
    NoCredit,
    #[error("the run took credits of the account before")]
    TakenBefore,
    #[error("the run took nothing of the account")]
    NotTaken,
    #[error("the run's statement of the account is booked")]
    BackBefore,
    #[error("the run's statement of the account isn't booked")]
    NotBack,
    #[error("the statement's sum isn't what the run took")]
    Unequal,
    #[error("the part is decided")]
    DecidedBefore,
    #[error("fewer credits are in doubt")]
    NoDoubt,
    /// Memory was refused.
    #[error("out of memory")]
    OutOfMemory(NoMemory),
}

impl From<NoMemory> for Refusal {
    ghost use Rattle.std.specs.Prelude.{◌≡◌};
    ghost use Rattle.sms_ledger.specs.declared.refusal.Refusal.TheVariants.{OutOfMemory};

    ghost from_gives = { λ refused f. f ≡ OutOfMemory refused };

    fn from(refused: NoMemory) -> Refusal {
        Refusal::OutOfMemory(refused)
    }
}
