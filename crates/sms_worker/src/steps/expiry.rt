//! Giving up requests that wait too long for their answers.

ghost use Rattle.std.specs.Prelude.{◌≡◌, ◌+◌, ◌<◌, false, true, length};
ghost use Rattle.sms_worker.specs.Expiry.{Expires, ExpiresAt};

use crate::entry::context::WorkerContext;
use crate::state::worker_start::WorkerStart;
use crate::state::worker_state::WorkerState;
use crate::steps::answered::Answered;
use crate::steps::timestamp::Timestamp;
use crate::steps::waits::is_overdue;
use sms_bind::LogName;
use sms_book::BookName;
use std::io::Write;
use std::sync::Wait;

impl<N: BookName + LogName, C: WorkerStart> WorkerState<'_, N, C> {
    // Expires requests that are open for too long at this time, or all of them if the line is down. Returns whether
    // any expired, and how many were found answered.
    pub(crate) fn expire<W: Write, G, K, R: Wait>(
        &mut self,
        context: &WorkerContext<N, W, G, K, R>,
        now: Timestamp,
        down: bool,
    ) -> (bool, Answered)
        requires window { context.now.window.now ≡ C.start.seat.window }
        requires rules { context.now.rules.now ≡ C.start.rules }
        ensures replies { self.new.replies ≡ self.old.replies }
        ensures expires { Expires C.start.rules.answer_ms now.at_ms down result.0 result.1.count self.old self.new }
    {
        let limit = u64::from(context.rules.answer_ms);
        let mut answered = Answered::none();
        let mut any = false;
        for _look in 0u32..64 {
            let i = answered.count();
            if i >= self.opened.len() {
                return (any, answered);
            }
            let open = self.opened[i];
            if !down && !is_overdue(open.since.ms(), now.ms(), limit) {
                return (any, answered);
            }
            if self.expire_at(context, &mut answered) {
                any = true;
            }
        }
        (any, answered)
    }

    // Expires the first open request not yet found answered. One that is answered stays open: its answer is in
    // the ring.
    fn expire_at<W: Write, G, K, R: Wait>(
        &mut self,
        context: &WorkerContext<N, W, G, K, R>,
        answered: &mut Answered,
    ) -> bool
        requires window { context.now.window.now ≡ C.start.seat.window }
        requires waits { answered.old.count < length self.old.opened }
        requires bound { answered.old.count < 64 }
        ensures replies { self.new.replies ≡ self.old.replies }
        ensures expired { result ≡ true → ExpiresAt answered.old.count self.old self.new × (answered.new.count ≡ answered.old.count) }
        ensures left { result ≡ false → (self.new ≡ self.old) × (answered.new.count ≡ answered.old.count + 1) }
    {
        let i = answered.count();
        let open = self.opened[i];
        if !answered.expire(&context.line.slots, context.rt, open) {
            return false;
        }
        self.close(context, i);
        self.forget(context.alloc, open.place);
        true
    }
}
