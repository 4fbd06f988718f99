//! Starting what is to be sent: which segment's turn it is, and a step for it.

ghost use Rattle.std.specs.Prelude.{◌≡◌, ℕ, ◌+◌, ◌-◌, ◌^◌, ◌<◌, ◌↔◌, None, Some, IfSome, IsTrue, false, length, min};
ghost use Rattle.sms_worker.specs.declared.state.open.SegmentPlace.{SegmentPlace};
ghost use Rattle.sms_worker.specs.Queues.{IsFirstDue, IsTaken, NoneIsDue};
ghost use Rattle.sms_worker.specs.Rising.{HasNext, HasTurn, IsNext, IsThere, WasSent};
ghost use Rattle.sms_worker.specs.declared.steps.starting.Source.TheVariants.{Queue, Next};
ghost use Rattle.sms_worker.specs.Sweeps.{SettledTo};
ghost use Rattle.sms_worker.specs.Turns.{IsStep, Starts};

use crate::devices::{Clock, Gate};
use crate::entry::context::WorkerContext;
use crate::state::open::SegmentPlace;
use crate::state::worker_start::WorkerStart;
use crate::state::worker_state::WorkerState;
use crate::steps::attempt::TrySend;
use crate::steps::retry_later::RetryLater;
use crate::steps::timestamp::Timestamp;
use sms_bind::LogName;
use sms_book::BookName;
use std::io::Write;
use std::sync::Wait;

/// How many starts a turn makes at most. The rest is left to the next turn, which follows at once.
const MOST_STARTS: u32 = 65_536;

/// Why a step started nothing.
#[derive(Clone, Copy, Debug, PartialEq, Eq)]
enum Idle {
    /// The line is down, and a segment is to be sent.
    Closed,
    /// Nothing is to be sent, and all messages are begun.
    AllBegun,
    /// The segment whose turn it is can't be sent now.
    Waits(RetryLater),
}

/// What a step of starting did.
#[derive(Clone, Copy, Debug, PartialEq, Eq)]
enum Started {
    One,
    /// Nothing, for this reason.
    Nothing(Idle),
}

/// Where a segment to send was found.
#[derive(Clone, Copy, Debug, PartialEq, Eq)]
enum Source {
    /// It is the first of this queue.
    Queue(usize),
    /// It is the next of the last message.
    Next,
}

/// Picks what to send first: a retry goes before a part that wasn't sent yet.
fn first_of(
    retry: Option<(SegmentPlace, usize)>,
    next: Option<SegmentPlace>,
) -> Option<(SegmentPlace, Source)>
    ensures retry { IfSome retry (λ r. result ≡ Some (r.0, Queue r.1)) }
    ensures next { retry ≡ None → IfSome next (λ p. result ≡ Some (p, Next)) }
    ensures none { (result ≡ None) ↔ ((retry ≡ None) × (next ≡ None)) }
{
    if let Some((place, queue)) = retry {
        return Some((place, Source::Queue(queue)));
    }
    match next {
        Some(place) => Some((place, Source::Next)),
        None => None,
    }
}

impl<N: BookName + LogName, C: WorkerStart> WorkerState<'_, N, C> {
    // The segment of the last message that is to be sent next.
    pub(crate) fn next_part(&self) -> Option<SegmentPlace>
        ensures next { IfSome result (IsNext self.now.ends self.now.next) }
        ensures exists { IfSome result (IsThere self.now.ends) }
        ensures none { result ≡ None → ¬ HasNext self.now.ends self.now.next }
    {
        let begun = self.tally.ends().len();
        if begun == 0 || self.next >= self.count(begun - 1) {
            return None;
        }
        Some(SegmentPlace {
            message: begun - 1,
            part: self.next,
        })
    }

    // Where to look for a segment to send: a retry that is due, else the next of the last message.
    fn next_place(&self, now_ms: u64) -> Option<(SegmentPlace, Source)>
        ensures turn { IfSome result (λ r. HasTurn self.now.ends self.now.next r.0) }
        ensures retry { (place : SegmentPlace) (k : ℕ) → result ≡ Some (place, Queue k) → IsFirstDue self.now.pending self.now.queues now_ms place k }
        ensures fresh { (place : SegmentPlace) → result ≡ Some (place, Next) → NoneIsDue self.now.pending self.now.queues now_ms × (IsNext self.now.ends self.now.next place × IsThere self.now.ends place) }
        ensures none { result ≡ None → NoneIsDue self.now.pending self.now.queues now_ms × (¬ HasNext self.now.ends self.now.next) }
    {
        first_of(self.due_retry(now_ms), self.next_part())
    }

    // The segment that is due to be sent again before all others, and its queue.
    fn due_retry(&self, now_ms: u64) -> Option<(SegmentPlace, usize)>
        ensures sent { IfSome result (λ r. WasSent self.now.ends r.0) }
        ensures due { IfSome result (λ r. IsFirstDue self.now.pending self.now.queues now_ms r.0 r.1) }
        ensures none { result ≡ None → NoneIsDue self.now.pending self.now.queues now_ms }
    {
        let queue = self.queues.due(self.pending.as_slice(), now_ms)?;
        let place = self.queues.first(queue)?;
        Some((place, queue))
    }

    // The segment from this source was tried: moves its queue, or the next part, on by one.
    fn advance(&mut self, source: Source)
        ensures unchanged { (self.new.replies ≡ self.old.replies) × (self.new.ends ≡ self.old.ends) × (self.new.pending ≡ self.old.pending) }
        ensures next { source ≡ Next → (self.new.next ≡ min (self.old.next + 1) (2 ^ 64 - 1)) × (self.new.queues ≡ self.old.queues) }
        ensures taken { (k : ℕ) → source ≡ Queue k → (self.new.next ≡ self.old.next) × IsTaken self.old.pending k self.old.queues self.new.queues }
    {
        match source {
            Source::Queue(queue) => self.queues.pop(self.pending.as_slice(), queue),
            Source::Next => self.next = self.next.saturating_add(1),
        }
    }

    // Starts an attempt, or begins a message. If the line is down by now the message is refused, and waiting
    // segments are left to the next turn, which gives them up.
    fn start_one<W: Write, G: Gate, K: Clock, R: Wait>(
        &mut self,
        context: &WorkerContext<N, W, G, K, R>,
        now: Timestamp,
    ) -> Started
        requires window { context.now.window.now ≡ C.start.seat.window }
        requires rules { context.now.rules.now ≡ C.start.rules }
        requires bound { length self.old.opened < C.start.rules.depth }
        ensures replies { self.new.replies ≡ self.old.replies }
        ensures step { IsStep C.start now.at_ms result self.old self.new }
    {
        let closed = self.sees_closed();
        let now_ms = now.ms();
        let Some((place, source)) = self.next_place(now_ms) else {
            if self.begin(context) {
                return Started::One;
            }
            return Started::Nothing(Idle::AllBegun);
        };
        if closed {
            return Started::Nothing(Idle::Closed);
        }
        let Some(tried) = self.attempt(context, place) else {
            self.advance(source);
            return Started::One;
        };
        match tried {
            TrySend::Sent(_) => {
                self.advance(source);
                Started::One
            }
            TrySend::Retry(held) => Started::Nothing(Idle::Waits(held)),
            TrySend::GiveUp(why) => {
                self.advance(source);
                self.give_up(context, place, Some(why));
                Started::One
            }
        }
    }

    // Starts attempts while fewer than `depth` are open. Where the line is down all that wait are given up.
    pub(crate) fn start_all<W: Write, G: Gate, K: Clock, R: Wait>(
        &mut self,
        context: &WorkerContext<N, W, G, K, R>,
        down: bool,
    ) -> bool
        requires window { context.now.window.now ≡ C.start.seat.window }
        requires rules { context.now.rules.now ≡ C.start.rules }
        requires down { IsTrue down → IsTrue self.old.closed }
        ensures replies { self.new.replies ≡ self.old.replies }
        ensures starts { down ≡ false → Starts C.start result self.old self.new }
        ensures swept { IsTrue down → SettledTo C.start.rules.policy.attempts (length self.new.ends) 0 self.new.ends }
        ensures closed { IsTrue down → self.new.closed ≡ self.old.closed }
    {
        if down {
            self.sweep(context, None);
            return false;
        }
        let now = Timestamp::of(context.clock);
        let depth = context.rules.depth as usize;
        let mut any = false;
        for _start in 0..MOST_STARTS {
            if self.opened.len() >= depth {
                return any;
            }
            match self.start_one(context, now) {
                Started::One => any = true,
                Started::Nothing(_) => return any,
            }
        }
        any
    }
}
