//! Why a call has nothing left to do.

ghost use Rattle.std.specs.Prelude.{◌≡◌, ◌⊎◌, ◌↔◌, None, Some, IsSome, IsTrue, false, length};
ghost use Rattle.sms_worker.specs.RunState.{HasNothingToSend};
ghost use Rattle.sms_worker.specs.declared.steps.call_end.CallEnd.TheVariants.{Closed};

use crate::state::worker_start::WorkerStart;
use crate::state::worker_state::WorkerState;
use sms_bind::LogName;
use sms_book::BookName;

/// Evidence that nothing was left to send when no request was open.
#[derive(Clone, Copy, Debug, PartialEq, Eq)]
pub struct NothingLeft {
    open: usize,
}

/// Why nothing is left to do.
#[derive(Clone, Copy, Debug, PartialEq, Eq)]
pub enum CallEnd {
    /// The bind is closed for the worker.
    Closed,
    /// All was sent, and has its answer or waits for none.
    NothingLeft(NothingLeft),
}

impl<N: BookName + LogName, C: WorkerStart> WorkerState<'_, N, C> {
    /// Why nothing is left to do, if that is so: nothing is open, and where the line isn't down nothing is to be
    /// sent.
    pub(crate) fn call_end(&self, down: bool) -> Option<CallEnd>
        requires down { IsTrue down → IsTrue self.now.closed }
        ensures exact { IsSome result ↔ ((length self.now.opened ≡ 0) × (IsTrue down ⊎ HasNothingToSend C.start.messages self.now)) }
        ensures closed { result ≡ Some Closed → IsTrue self.now.closed }
    {
        let open = self.opened.len();
        if open > 0 {
            return None;
        }
        if down {
            return Some(CallEnd::Closed);
        }
        if !self.queues.is_empty() || self.has_more() {
            return None;
        }
        Some(CallEnd::NothingLeft(NothingLeft { open }))
    }
}
