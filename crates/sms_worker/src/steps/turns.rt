//! The turns of a call, and its end.

ghost use Rattle.std.specs.Prelude.{◌≡◌, ℕ, ◌+◌, ◌<◌, ◌⊎◌, ◌↔◌, None, IfSome, IsTrue, true, false, length, slice_get};
ghost use Rattle.rtrb.specs.Ring.{known_items, received, SameConsumer};
ghost use Rattle.sms_worker.specs.Types.{SegmentEnd};
ghost use Rattle.sms_message.specs.Ends.{segment_at, segments_in};
ghost use Rattle.sms_worker.specs.Replies.{HasDrained};
ghost use Rattle.sms_worker.specs.RunState.{HasMore, HasNothingToSend};
ghost use Rattle.sms_worker.specs.Sweeps.{SettledTo};
ghost use Rattle.sms_worker.specs.Turn.{TakesTurns};
ghost use Rattle.sms_worker.specs.declared.steps.call_end.CallEnd.TheVariants.{Closed};

use crate::devices::{Clock, Gate, Pause};
use crate::ends::MessageResult;
use crate::entry::context::WorkerContext;
use crate::state::open::SegmentPlace;
use crate::state::worker_start::WorkerStart;
use crate::state::worker_state::WorkerState;
use crate::steps::call_end::{CallEnd, NothingLeft};
use crate::steps::give_up::GiveUpReason;
use crate::steps::timestamp::Timestamp;
use crate::steps::turn::TurnsTaken;
use rtrb::Consumer;
use sms_bind::LogName;
use sms_book::BookName;
use sms_pdu::Reply;
use std::io::Write;
use std::sync::Wait;

/// The evidence that nothing was left to send when a call ended; none where the bind is closed.
fn nothing_left(end: CallEnd) -> Option<NothingLeft>
    ensures { result ≡ None → end ≡ Closed }
{
    match end {
        CallEnd::Closed => None,
        CallEnd::NothingLeft(nothing) => Some(nothing),
    }
}

/// Why a part that waits then is given up.
fn reason_at_end(nothing: Option<NothingLeft>) -> Option<GiveUpReason>
    ensures { result ≡ None → nothing ≡ None }
{
    match nothing {
        None => None,
        Some(nothing) => Some(GiveUpReason::Done(nothing)),
    }
}

impl<N: BookName + LogName, C: WorkerStart> WorkerState<'_, N, C> {
    // How many segments a message has.
    pub(crate) fn count(&self, message: usize) -> usize
        ensures within { (q : ℕ) (s : SegmentEnd) → segment_at self.now.ends message q ≡ Some s → q < result }
        ensures exact { IfSome (slice_get self.now.ends message) (λ e. result ≡ length (segments_in e.result)) }
        ensures none { slice_get self.now.ends message ≡ None → result ≡ 0 }
    {
        let ends = self.tally.ends();
        if message >= ends.len() {
            return 0;
        }
        let end = &ends[message];
        match &end.result {
            MessageResult::Sent(segments) => segments.len(),
            MessageResult::Refused(_) => 0,
        }
    }

    // Whether the line is down now, or was seen down before.
    pub(crate) fn sees_closed(&mut self) -> bool
        ensures is { result ≡ self.new.closed }
        ensures stays { IsTrue self.old.closed → IsTrue self.new.closed }
        ensures unchanged { (self.new.replies ≡ self.old.replies) × (self.new.ends ≡ self.old.ends) }
        ensures only { self.new ≡ record self.old { closed = self.new.closed } }
    {
        self.closed.look()
    }

    // All turns are used up: from now on the line counts as down.
    fn close_line(&mut self, taken: TurnsTaken)
        requires all { taken.count ≡ C.start.rules.turns }
        ensures closed { IsTrue self.new.closed }
        ensures unchanged { (self.new.replies ≡ self.old.replies) × (self.new.ends ≡ self.old.ends) }
        ensures only { self.new ≡ record self.old { closed = true } }
    {
        self.closed.turns_are_over(taken);
    }

    // Whether a part of the last message, or a message, was not tried yet.
    pub(crate) fn has_more(&self) -> bool
        ensures { IsTrue result ↔ HasMore C.start.messages self.now }
    {
        self.next_part().is_some() || self.tally.ends().len() < self.messages.len()
    }

    // Takes turns until nothing is left to do, at most as many as the rules say. After the last one the line
    // counts as down. Returns why the call ends.
    pub(crate) fn take_turns<W: Write, G: Gate, K: Clock, P: Pause, R: Wait>(
        &mut self,
        context: &WorkerContext<N, W, G, K, R>,
        pause: &P,
        consumer: &mut Consumer<Reply>,
    ) -> CallEnd
        requires window { context.now.window.now ≡ C.start.seat.window }
        requires rules { context.now.rules.now ≡ C.start.rules }
        requires replies { self.old.replies ≡ received consumer.old }
        ensures ring { SameConsumer consumer.old consumer.new }
        ensures replies { self.new.replies ≡ received consumer.new }
        ensures turns { TakesTurns C.start self.old self.new }
        ensures closed { result ≡ Closed → IsTrue self.new.closed }
    {
        let mut taken = TurnsTaken::none();
        for _turn in 0..context.rules.turns {
            match self.turn(context, pause, consumer, taken) {
                Ok(more) => taken = more,
                Err(end) => return end,
            }
        }
        self.close_line(taken);
        CallEnd::Closed
    }

    // Gives up all segments of a message that wait, since the bind is closed or nothing is left to send.
    fn sweep_message<W: Write, G, K, R: Wait>(
        &mut self,
        context: &WorkerContext<N, W, G, K, R>,
        message: usize,
        nothing: Option<NothingLeft>,
    )
        requires why { nothing ≡ None → IsTrue self.old.closed }
        requires before { SettledTo C.start.rules.policy.attempts message 0 self.old.ends }
        ensures replies { self.new.replies ≡ self.old.replies }
        ensures length { length self.new.ends ≡ length self.old.ends }
        ensures after { SettledTo C.start.rules.policy.attempts (message + 1) 0 self.new.ends }
        ensures closed { self.new.closed ≡ self.old.closed }
    {
        let count = self.count(message);
        for part in 0..count {
            self.give_up(
                context,
                SegmentPlace { message, part },
                reason_at_end(nothing),
            );
        }
    }

    // Ends the call as on a line that is down: open requests expire, or are settled by the answers that came;
    // messages not yet begun are refused, and waiting segments are given up.
    pub(crate) fn finish<W: Write, G: Gate, K: Clock, R: Wait>(
        &mut self,
        context: &WorkerContext<N, W, G, K, R>,
        consumer: &mut Consumer<Reply>,
        end: CallEnd,
    )
        requires end { end ≡ Closed → IsTrue self.old.closed }
        requires window { context.now.window.now ≡ C.start.seat.window }
        requires rules { context.now.rules.now ≡ C.start.rules }
        requires replies { self.old.replies ≡ received consumer.old }
        ensures ring { SameConsumer consumer.old consumer.new }
        ensures replies { self.new.replies ≡ received consumer.new }
        ensures drained { HasDrained (length self.old.replies) (known_items consumer.new) (received consumer.new) }
        ensures all { length self.new.ends ≡ length C.start.messages }
        ensures settled { SettledTo C.start.rules.policy.attempts (length C.start.messages) 0 self.new.ends }
    {
        self.expire(context, Timestamp::of(context.clock), true);
        self.take_replies(context, consumer);
        self.refuse_rest(context);
        self.sweep(context, nothing_left(end));
    }

    fn refuse_rest<W: Write, G: Gate, K, R: Wait>(&mut self, context: &WorkerContext<N, W, G, K, R>)
        requires rules { context.now.rules.now ≡ C.start.rules }
        ensures replies { self.new.replies ≡ self.old.replies }
        ensures all { length self.new.ends ≡ length C.start.messages }
        ensures closed { self.new.closed ≡ self.old.closed }
    {
        while self.begin(context) {}
    }

    // Gives up all segments that wait, since the bind is closed or nothing is left to send.
    pub(crate) fn sweep<W: Write, G, K, R: Wait>(
        &mut self,
        context: &WorkerContext<N, W, G, K, R>,
        nothing: Option<NothingLeft>,
    )
        requires why { nothing ≡ None → IsTrue self.old.closed }
        ensures replies { self.new.replies ≡ self.old.replies }
        ensures length { length self.new.ends ≡ length self.old.ends }
        ensures settled { SettledTo C.start.rules.policy.attempts (length self.old.ends) 0 self.new.ends }
        ensures closed { self.new.closed ≡ self.old.closed }
    {
        let begun = self.tally.ends().len();
        for message in 0..begun {
            self.sweep_message(context, message, nothing);
        }
    }
}
