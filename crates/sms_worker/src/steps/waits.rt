//! How long requests have waited, and how long a worker that has nothing to do may.

ghost use Rattle.std.specs.Prelude.{◌≡◌, ◌≤◌, ◌-◌, ◌↔◌, IsTrue};
ghost use Rattle.sms_worker.specs.Waits.{answer_in, IsQuiet, IsQuietAt};

use crate::state::open::Open;
use crate::state::worker_start::WorkerStart;
use crate::state::worker_state::WorkerState;
use crate::steps::timestamp::Timestamp;
use sms_bind::LogName;
use sms_book::BookName;
use sms_message::Rules;

/// Whether a request that was sent at `since_ms` has waited for `limit_ms` or longer.
pub(crate) fn is_overdue(since_ms: u64, now_ms: u64, limit_ms: u64) -> bool
    ensures { IsTrue result ↔ (limit_ms ≤ now_ms - since_ms) }
{
    now_ms.saturating_sub(since_ms) >= limit_ms
}

/// How many milliseconds are left until a request sent at `since_ms` has waited for `limit_ms`.
fn time_left(since_ms: u64, now_ms: u64, limit_ms: u64) -> u64
    ensures { result ≡ limit_ms - (now_ms - since_ms) }
{
    limit_ms.saturating_sub(now_ms.saturating_sub(since_ms))
}

/// How long it is until the first of these requests, which stand in the order in which they were sent,
/// has waited for too long.
fn answer_in(opened: &[Open], answer_ms: u32, now_ms: u64) -> u64
    ensures { result ≡ answer_in answer_ms now_ms opened.now }
{
    match opened.first() {
        Some(open) => time_left(open.since.ms(), now_ms, u64::from(answer_ms)),
        None => u64::MAX,
    }
}

impl<N: BookName + LogName, C: WorkerStart> WorkerState<'_, N, C> {
    // For how many milliseconds from `now_ms` on the clock alone gives nothing to do.
    fn quiet_at(&self, rules: &Rules, now_ms: u64) -> u64
        ensures { IsQuietAt C.start.messages rules.now self.now now_ms result }
    {
        let answer_in = answer_in(self.opened.as_slice(), rules.answer_ms, now_ms);
        if self.opened.len() >= rules.depth as usize {
            return answer_in;
        }
        if self.has_more() {
            return 0;
        }
        answer_in.min(self.queues.due_in(self.pending.as_slice(), now_ms))
    }

    /// For how many milliseconds from `now` on the clock alone gives nothing to do, after a turn that did nothing: 0
    /// if a request could be started or an answer is on its way.
    pub(crate) fn quiet_ms(&self, rules: &Rules, now: Timestamp, down: bool) -> u64
        ensures { IsQuiet C.start.messages rules.now down self.now now.at_ms result }
    {
        if down {
            return 0;
        }
        self.quiet_at(rules, now.ms())
    }
}
