//! The row of an account, and what the moves of a request's credits make of it.

ghost use Rattle.std.specs.Prelude.{◌≡◌, ◌+◌, ◌^◌, ◌<◌, ◌≤◌};
ghost use Rattle.sms_core.specs.RowMoves.{row_after};

use crate::request::Phase;

/// An account's credits: what was topped up, and where it stands. `returned` counts what came back
/// from reserved to free.
#[derive(Clone, Copy, Debug, PartialEq, Eq)]
pub struct Row {
    pub topped: u64,
    pub free: u64,
    pub reserved: u64,
    pub charged: u64,
    pub returned: u64,
}

impl Row {
    /// Moves the reserved credits of a request as its phase says.
    pub(crate) fn move_credits(&mut self, phase: Phase, cost: u64)
        requires reserved { cost ≤ self.old.reserved }
        requires fits { self.old.free + self.old.charged + cost < 2 ^ 64 }
        requires returned { self.old.returned + cost < 2 ^ 64 }
        ensures { self.new ≡ row_after phase cost self.old }
    {
        match phase {
            Phase::Ready | Phase::Open | Phase::Unanswered => {}
            Phase::Charged => {
                self.reserved -= cost;
                self.charged += cost;
            }
            Phase::Refused | Phase::Unsent => {
                self.reserved -= cost;
                self.free += cost;
                self.returned += cost;
            }
        }
    }
}
