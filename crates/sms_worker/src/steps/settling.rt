//! Steps on one segment of a run: an answer, an attempt, the end.

ghost use Rattle.std.specs.Prelude.{◌≡◌, ◌≢◌, ℕ, ◌+◌, ◌-◌, ◌≤◌, ◌<◌, ◌⊎◌, ◌||◌, ◌++◌, ◌∷◌, [], true, false, IsTrue, Some, None, IfSome, OnSome, length, slice_get};
ghost use Rattle.sms_worker.specs.Types.{MessageEnd, SegmentEnd};
ghost use Rattle.sms_message.specs.declared.ends.MessageRefusal.TheVariants.{BindClosed};
ghost use Rattle.sms_message.specs.declared.ends.MessageResult.TheVariants.{Refused};
ghost use Rattle.sms_session.specs.Decisions.{decided};
ghost use Rattle.sms_session.specs.declared.policy.Decision.TheVariants.{Charge, Refuse, RetryAfter};
ghost use Rattle.sms_message.specs.Ends.{put, segment_at};
ghost use Rattle.sms_message.specs.declared.ends.Outcome.TheVariants.{Unanswered};
ghost use Rattle.sms_message.specs.declared.message.Message.{Message as TheMessage};
ghost use Rattle.sms_worker.specs.Expiry.{without_open};
ghost use Rattle.sms_worker.specs.Queues.{WaitsLast, due_after, last_in};
ghost use Rattle.sms_worker.specs.Rising.{HasTurn, WasSent};
ghost use Rattle.sms_worker.specs.Steps.{ExpectsAt, SettlesTo, settled_to, outcome_after};
ghost use Rattle.sms_worker.specs.Sweeps.{SweptAt, InPlace};
ghost use Rattle.sms_worker.specs.PendingState.{LeavesPending, changed, settled_one};
ghost use Rattle.sms_worker.specs.Told.{HeardSince};
ghost use Rattle.sms_message.specs.Results.{IsSettled};
ghost use Rattle.sms_worker.specs.Turns.{IsOver, IsTry};
ghost use Rattle.sms_worker.specs.Reasons.{Lists};
ghost use Rattle.sms_worker.specs.declared.state.reasons.UnsentReason.TheVariants.{Message, Part};
ghost use Rattle.sms_worker.specs.declared.steps.give_up.GiveUpReason.{GiveUpReason as TheReason};
ghost use Rattle.sms_worker.specs.declared.steps.parts.NoMessageMemory.{NoMessageMemory as TheEvidence};

use crate::devices::{Clock, Gate};
use crate::ends::{Attempts, MessageEnd, MessageResult, SegmentEnd};
use crate::entry::context::WorkerContext;
use crate::state::open::SegmentPlace;
use crate::state::pending::settle_part;
use crate::state::reasons::{Reasons, UnsentPart, UnsentReason};
use crate::state::segment::{answer, given_up, is_waiting};
use crate::state::tally::Tally;
use crate::state::worker_start::WorkerStart;
use crate::state::worker_state::WorkerState;
use crate::steps::attempt::{TrySend, start};
use crate::steps::begin::{begun, permission};
use crate::steps::give_up::{GiveUpReason, kept};
use crate::steps::parts::NoMessageMemory;
use crate::steps::timestamp::Timestamp;
use sms_bind::LogName;
use sms_book::{Book, BookName};
use sms_message::Outcome;
use sms_pdu::Reply;
use sms_session::Decision;
use std::alloc::Global;
use std::io::Write;
use std::sync::{Mutex, Wait};

/// The outcome of a segment after this decision about its answer.
fn outcome_of(decision: Decision) -> Outcome
    ensures { result ≡ outcome_after decision }
{
    match decision {
        Decision::Charge => Outcome::Charged,
        Decision::Refuse => Outcome::Refused,
        Decision::RetryAfter(_) => Outcome::Unanswered,
    }
}

/// Puts a segment end in its place. Where it has its outcome its credits move, in the same holding of the book's
/// lock; without an answer they stay reserved.
fn settle<N: BookName, R: Wait, C: WorkerStart>(
    rt: &R,
    book: &Mutex<Book<N>>,
    tally: &mut Tally<N, C>,
    place: SegmentPlace,
    account: Option<usize>,
    segment: SegmentEnd,
)
    requires message { (m : TheMessage) × (slice_get C.start.messages place.message ≡ Some m) × (m.account ≡ account) }
    requires known { (a : ℕ) → account ≡ Some a → a < length tally.old.share.amounts }
    requires waits { (s : SegmentEnd) × (segment_at tally.old.ends place.message place.part ≡ Some s) × (s.outcome ≡ Unanswered) × (segment.cost ≡ s.cost) × (0 < s.cost) }
    ensures { tally.new ≡ record tally.old { share = settled_to segment.outcome account segment.cost tally.old.share; ends = put tally.old.ends place.message place.part segment } }
{
    if segment.outcome == Outcome::Unanswered {
        tally.give(place, segment);
        return;
    }
    tally.settle(&mut book.lock(rt), place, account, segment);
}

/// Lists why a part of the message with this index is given up; where the bind is closed there is no other reason.
fn list_part(reasons: &mut Reasons, message: u64, part: usize, why: Option<GiveUpReason>)
    ensures none { why ≡ None → reasons.new ≡ reasons.old }
    ensures some { (reason : TheReason) → why ≡ Some reason → Lists (Part (record { message = message; part = part; why = reason })) reasons.old reasons.new }
{
    if let Some(why) = why {
        reasons.list(UnsentReason::Part(UnsentPart { message, part, why }));
    }
}

/// Lists the evidence that memory was refused for a message.
fn list_message(reasons: &mut Reasons, no_memory: Option<NoMessageMemory>)
    ensures none { no_memory ≡ None → reasons.new ≡ reasons.old }
    ensures some { (evidence : TheEvidence) → no_memory ≡ Some evidence → Lists (Message evidence) reasons.old reasons.new }
{
    if let Some(no_memory) = no_memory {
        reasons.list(UnsentReason::Message(no_memory));
    }
}

/// Reports to the gate that a message is begun, or refused.
fn report_fate<G: Gate>(gate: &G, worker: usize, end: &MessageEnd) {
    match &end.result {
        MessageResult::Sent(_) => gate.begun(worker, end.index),
        MessageResult::Refused(why) => gate.refused(worker, end.index, *why),
    }
}

impl<N: BookName + LogName, C: WorkerStart> WorkerState<'_, N, C> {
    /// Gives up the segment at the place if it waits, and drops its part. Without a reason the bind is closed.
    pub(crate) fn give_up<W: Write, G, K, R: Wait>(
        &mut self,
        context: &WorkerContext<N, W, G, K, R>,
        place: SegmentPlace,
        why: Option<GiveUpReason>,
    )
        requires why { why ≡ None → IsTrue self.old.closed }
        ensures replies { self.new.replies ≡ self.old.replies }
        ensures swept { SweptAt C.start.rules.policy.attempts place.message place.part self.old.ends self.new.ends }
        ensures in_place { InPlace self.old.ends self.new.ends }
        ensures length { length self.new.ends ≡ length self.old.ends }
        ensures left { (self.new.queues ≡ self.old.queues) × (self.new.next ≡ self.old.next) }
        ensures pending { LeavesPending place.message self.old.pending self.new.pending }
        ensures closed { self.new.closed ≡ self.old.closed }
    {
        if self.end_waiting(context, place, why) {
            self.forget(context.alloc, place);
        }
    }

    /// Counts a segment of the message as settled: its part is no longer needed.
    pub(crate) fn forget(&mut self, alloc: Global, place: SegmentPlace)
        ensures { self.new ≡ record self.old { pending = changed settled_one self.old.pending place.message } }
    {
        settle_part(alloc, &mut self.pending, place);
    }

    /// Acts on the decision about an answer just received: the segment waits for its next attempt, counted from
    /// the time that is returned, or it is settled.
    pub(crate) fn follow<K: Clock>(
        &mut self,
        alloc: Global,
        clock: &K,
        place: SegmentPlace,
        attempts: usize,
        decision: Decision,
    ) -> Option<Timestamp>
        requires sent { WasSent self.old.ends place }
        ensures unchanged { (self.new.replies ≡ self.old.replies) × (self.new.ends ≡ self.old.ends) }
        ensures waits { (ms : ℕ) → decision ≡ RetryAfter ms → 1 ≤ attempts → attempts ≤ 10 → last_in self.new.queues (attempts - 1) ≡ Some place }
        ensures opened { self.new.opened ≡ self.old.opened }
        ensures closed { self.new.closed ≡ self.old.closed }
        ensures due { IfSome result (λ at. (ms : ℕ) × (decision ≡ RetryAfter ms) × (1 ≤ attempts → attempts ≤ 10 → WaitsLast self.old.pending self.old.queues (attempts - 1) (record { place = place; due_ms = due_after at.at_ms ms }) self.new.pending self.new.queues)) }
        ensures apart { (k : ℕ) → k + 1 ≢ attempts → slice_get self.new.queues k ≡ slice_get self.old.queues k }
        ensures settled { (decision ≡ Charge) ⊎ (decision ≡ Refuse) → self.new ≡ record self.old { pending = changed settled_one self.old.pending place.message } }
        ensures over { result ≡ None → (decision ≡ Charge) ⊎ (decision ≡ Refuse) }
    {
        match decision {
            Decision::RetryAfter(ms) => {
                let now = Timestamp::of(clock);
                let now_ms = now.ms();
                let due_ms = now_ms.saturating_add(u64::from(ms));
                self.queues.push(&mut self.pending, attempts, place, due_ms);
                Some(now)
            }
            Decision::Charge => {
                self.forget(alloc, place);
                None
            }
            Decision::Refuse => {
                self.forget(alloc, place);
                None
            }
        }
    }

    /// Gives up the segment at the place if it waits, and lists the reason. Returns whether it did.
    fn end_waiting<W: Write, G, K, R: Wait>(
        &mut self,
        context: &WorkerContext<N, W, G, K, R>,
        place: SegmentPlace,
        why: Option<GiveUpReason>,
    ) -> bool
        requires why { why ≡ None → IsTrue self.old.closed }
        ensures replies { self.new.replies ≡ self.old.replies }
        ensures swept { SweptAt C.start.rules.policy.attempts place.message place.part self.old.ends self.new.ends }
        ensures in_place { InPlace self.old.ends self.new.ends }
        ensures length { length self.new.ends ≡ length self.old.ends }
        ensures left { (self.new.queues ≡ self.old.queues) × (self.new.next ≡ self.old.next) }
        ensures pending { self.new.pending ≡ self.old.pending }
        ensures closed { self.new.closed ≡ self.old.closed }
    {
        if place.message >= self.messages.len() {
            return false;
        }
        let message = &self.messages[place.message];
        let account = message.account;
        let index = message.index;
        let Some(segment) = self.tally.take(context.alloc, place) else {
            return false;
        };
        if !is_waiting(&segment) {
            self.tally.give(place, segment);
            return false;
        }
        let segment = given_up(segment);
        list_part(&mut self.reasons, index, place.part, why);
        settle(
            context.rt,
            context.book,
            &mut self.tally,
            place,
            account,
            segment,
        );
        true
    }

    /// Records an answer at the place, and moves the credits by it. Returns how many attempts the segment has
    /// now, and the decision.
    pub(crate) fn settle_answer<W: Write, G, K: Clock, R: Wait>(
        &mut self,
        context: &WorkerContext<N, W, G, K, R>,
        place: SegmentPlace,
        reply: Reply,
    ) -> Option<(usize, Decision)>
        requires rules { context.now.rules.now ≡ C.start.rules }
        requires replies { HeardSince (length C.start.received) self.old.replies reply }
        requires was_sent { WasSent self.old.ends place }
        ensures replies { self.new.replies ≡ self.old.replies }
        ensures sent { OnSome result (WasSent self.new.ends place) }
        ensures settled { IfSome result (λ r. SettlesTo self.old.ends place r.0 r.1 self.new.ends) }
        ensures decided { IfSome result (λ r. r.1 ≡ decided reply r.0 C.start.rules.policy.attempts C.start.rules.policy.base_ms) }
        ensures none { result ≡ None → self.new.ends ≡ self.old.ends }
        ensures unasked { result ≡ None → ¬ ExpectsAt self.old.ends place reply }
        ensures only { self.new ≡ record self.old { ends = self.new.ends } }
    {
        let message = &self.messages[place.message];
        let account = message.account;
        let Some(segment) = self.tally.take(context.alloc, place) else {
            unreachable!()
        };
        let (segment, decision) = answer(segment, reply, &context.rules.policy);
        let decision = match decision {
            Some(decision) => decision,
            None => {
                self.tally.give(place, segment);
                return None;
            }
        };
        let SegmentEnd { cost, attempts, .. } = segment;
        let count = attempts.as_slice().len();
        let outcome = outcome_of(decision);
        let segment = SegmentEnd {
            cost,
            attempts,
            outcome,
        };
        settle(
            context.rt,
            context.book,
            &mut self.tally,
            place,
            account,
            segment,
        );
        Some((count, decision))
    }

    /// Tries to send the segment at the place, whose turn it is. `None` where there is none that waits.
    pub(crate) fn attempt<W: Write, G: Gate, K: Clock, R: Wait>(
        &mut self,
        context: &WorkerContext<N, W, G, K, R>,
        place: SegmentPlace,
    ) -> Option<TrySend>
        requires window { context.now.window.now ≡ C.start.seat.window }
        requires rules { context.now.rules.now ≡ C.start.rules }
        requires turn { HasTurn self.old.ends self.old.next place }
        requires bound { length self.old.opened < C.start.rules.depth }
        ensures replies { self.new.replies ≡ self.old.replies }
        ensures tried { IfSome result (λ tried. IsTry tried place self.old self.new) }
        ensures over { result ≡ None → (self.new ≡ self.old) × IsOver C.start.rules.policy.attempts place self.old.ends }
    {
        let message = &self.messages[place.message];
        let user_data = match kept(&self.pending[place.message], place.part) {
            Ok(user_data) => user_data,
            Err(no) => return Some(TrySend::GiveUp(GiveUpReason::Kept(no))),
        };
        let Some(segment) = self.tally.take(context.alloc, place) else {
            return None;
        };
        if !is_waiting(&segment) {
            self.tally.give(place, segment);
            return None;
        }
        let SegmentEnd {
            cost,
            attempts,
            outcome,
        } = segment;
        let mut attempts = attempts.into_vec();
        let tried = start(
            context,
            &mut self.seat,
            &mut self.requests,
            &mut self.opened,
            place,
            message,
            user_data,
            &mut attempts,
        );
        let segment = SegmentEnd {
            cost,
            attempts: Attempts::new(attempts),
            outcome,
        };
        self.tally.give(place, segment);
        Some(tried)
    }

    /// Releases the slot of an open request, which is open no more.
    pub(crate) fn close<W: Write, G, K, R>(
        &mut self,
        context: &WorkerContext<N, W, G, K, R>,
        i: usize,
    )
        requires window { context.now.window.now ≡ C.start.seat.window }
        requires waits { i < length self.old.opened }
        ensures replies { self.new.replies ≡ self.old.replies }
        ensures ends { self.new.ends ≡ self.old.ends }
        ensures only { self.new ≡ without_open i self.old }
    {
        let open = self.opened.remove(i);
        context.window.release(&mut self.seat, open.slot);
    }

    /// Begins the next message, if there is one and the gate permits it. It is refused where the bind is closed, or
    /// the gate lets no further message begin.
    pub(crate) fn begin<W: Write, G: Gate, K, R: Wait>(
        &mut self,
        context: &WorkerContext<N, W, G, K, R>,
    ) -> bool
        requires rules { context.now.rules.now ≡ C.start.rules }
        ensures replies { self.new.replies ≡ self.old.replies }
        ensures all { result ≡ false → length self.new.ends ≡ length C.start.messages }
        ensures closed { (end : MessageEnd) → self.new.ends ≡ self.old.ends ++ end ∷ [] → end.result ≡ Refused BindClosed → IsTrue (self.old.closed || self.new.stopped) }
        ensures stopped { IsTrue self.old.stopped → IsTrue self.new.stopped }
        ensures more { result ≡ true → (length self.new.ends ≡ length self.old.ends + 1) × (length self.new.ends ≤ length C.start.messages) }
        ensures next { result ≡ true → (self.new.queues ≡ self.old.queues) × (self.new.next ≡ 0) }
        ensures none { result ≡ false → self.new ≡ self.old }
        ensures stays { self.new.closed ≡ self.old.closed }
    {
        let place = self.tally.ends().len();
        if place >= self.messages.len() {
            return false;
        }
        let message = &self.messages[place];
        let permit = permission(
            &self.closed,
            &mut self.stop,
            context.gate,
            context.worker,
            message,
        );
        let (pending, no_memory) = begun(
            context.rt,
            context.alloc,
            context.book,
            context.rules,
            &mut self.tally,
            permit,
            message,
        );
        list_message(&mut self.reasons, no_memory);
        report_fate(context.gate, context.worker, &self.tally.ends()[place]);
        self.pending.push_reserved(pending);
        self.next = 0;
        true
    }
}
