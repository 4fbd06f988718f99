//! Taking the answers that the ring shows.

ghost use Rattle.std.specs.Prelude.{◌≡◌, ◌==◌, ◌<◌, ◌∷◌, ◌++◌, [], length, position, IfSome};
ghost use Rattle.rtrb.specs.Ring.{known_items, received, SameConsumer};
ghost use Rattle.sms_pdu.specs.declared.reply.Reply.{Reply};
ghost use Rattle.sms_worker.specs.Replies.{AllApplied, IsApplied, WasDrained};
ghost use Rattle.sms_worker.specs.RunState.{NewlyWait};
ghost use Rattle.sms_worker.specs.Told.{HeardSince};

use crate::devices::{Clock, Gate};
use crate::entry::context::WorkerContext;
use crate::state::open::Open;
use crate::state::worker_start::WorkerStart;
use crate::state::worker_state::WorkerState;
use crate::steps::ring::{RingEmpty, next};
use crate::steps::timestamp::Timestamp;
use rtrb::Consumer;
use sms_bind::LogName;
use sms_book::BookName;
use sms_pdu::Reply;
use sms_slot::NotAnswered;
use std::io::Write;
use std::snapshot::Snapshot;
use std::sync::Wait;

/// Where the open request with this number is: the first, where there are more. Few are open, and
/// mostly the one that waits for longest is answered next.
fn find(opened: &[Open], number: u32) -> Option<usize>
    ensures within { IfSome result (λ place. place < length opened.now) }
    ensures exact { result ≡ position (λ o. o.number == number) opened.now }
{
    opened.iter().position(|open| open.number == number)
}

/// Why no open request took a reply.
#[derive(Clone, Copy, Debug, PartialEq, Eq)]
pub enum Dropped {
    /// None has its number.
    NoneOpen,
    /// The slot of the first request with its number had no answer to it.
    NotAnswered(NotAnswered),
    /// The last attempt of that request's segment doesn't wait for it.
    NotAwaited,
}

/// What came of a reply.
#[derive(Clone, Copy, Debug, PartialEq, Eq)]
pub enum ReplyOutcome {
    /// No open request took it, for this reason.
    Dropped(Dropped),
    /// Its segment is settled.
    Settled,
    /// Its segment is to be sent again, so long after this time as was decided.
    Retried(Timestamp),
}

impl<N: BookName + LogName, C: WorkerStart> WorkerState<'_, N, C> {
    /// Notes what the consumer has received after one more pop.
    fn note(&mut self, consumer: &Consumer<Reply>)
        requires more { (reply : Reply) × (received consumer.now ≡ self.old.replies ++ reply ∷ []) }
        ensures only { self.new ≡ record self.old { replies = received consumer.now } }
        ensures replies { self.new.replies ≡ received consumer.now }
        ensures since { (reply : Reply) → received consumer.now ≡ self.old.replies ++ reply ∷ [] → HeardSince (length C.start.received) self.new.replies reply }
    {
        self.replies = Snapshot::of(consumer);
    }

    /// Applies the reply to the open request with its number; without such a request it is dropped. The slot is
    /// answered by then, since the answer was put into the ring while the slot was locked.
    fn apply_reply<W: Write, G: Gate, K: Clock, R: Wait>(
        &mut self,
        context: &WorkerContext<N, W, G, K, R>,
        reply: Reply,
    ) -> ReplyOutcome
        requires window { context.now.window.now ≡ C.start.seat.window }
        requires rules { context.now.rules.now ≡ C.start.rules }
        requires replies { HeardSince (length C.start.received) self.old.replies reply }
        ensures replies { self.new.replies ≡ self.old.replies }
        ensures waits { NewlyWait self.old.ends self.new }
        ensures applied { IsApplied C.start.rules reply result self.old self.new }
        ensures closed { self.new.closed ≡ self.old.closed }
    {
        let Some(i) = find(self.opened.as_slice(), reply.number) else {
            return ReplyOutcome::Dropped(Dropped::NoneOpen);
        };
        let open = self.opened[i];
        if let Err(no) = context
            .line
            .slots
            .take_answer(context.rt, open.slot, open.number)
        {
            return ReplyOutcome::Dropped(Dropped::NotAnswered(no));
        }
        context.gate.heard(context.worker, &reply);
        self.close(context, i);
        match self.settle_answer(context, open.place, reply) {
            Some((attempts, decision)) => {
                let clock = context.clock;
                match self.follow(context.alloc, clock, open.place, attempts, decision) {
                    Some(now) => ReplyOutcome::Retried(now),
                    None => ReplyOutcome::Settled,
                }
            }
            None => ReplyOutcome::Dropped(Dropped::NotAwaited),
        }
    }

    /// Takes the replies out of the ring, at most as many as it has room for. Returns whether there were any, and the
    /// evidence that the ring was found empty behind them.
    pub(crate) fn take_replies<W: Write, G: Gate, K: Clock, R: Wait>(
        &mut self,
        context: &WorkerContext<N, W, G, K, R>,
        consumer: &mut Consumer<Reply>,
    ) -> (bool, Option<RingEmpty>)
        requires window { context.now.window.now ≡ C.start.seat.window }
        requires rules { context.now.rules.now ≡ C.start.rules }
        requires replies { self.old.replies ≡ received consumer.old }
        ensures ring { SameConsumer consumer.old consumer.new }
        ensures replies { self.new.replies ≡ received consumer.new }
        ensures applied { AllApplied C.start.rules result.0 self.old self.new }
        ensures drained { WasDrained (length self.old.replies) result.1 (known_items consumer.new) (received consumer.new) }
        ensures closed { self.new.closed ≡ self.old.closed }
    {
        let mut any = false;
        for pop in 0u32..64 {
            let reply = match next(consumer, pop) {
                Ok(reply) => reply,
                Err(empty) => return (any, Some(empty)),
            };
            any = true;
            self.take_reply(context, consumer, reply);
        }
        (any, None)
    }

    /// Notes a reply that was popped, and applies it to its request.
    fn take_reply<W: Write, G: Gate, K: Clock, R: Wait>(
        &mut self,
        context: &WorkerContext<N, W, G, K, R>,
        consumer: &Consumer<Reply>,
        reply: Reply,
    ) -> ReplyOutcome
        requires window { context.now.window.now ≡ C.start.seat.window }
        requires rules { context.now.rules.now ≡ C.start.rules }
        requires replies { received consumer.now ≡ self.old.replies ++ reply ∷ [] }
        ensures replies { self.new.replies ≡ received consumer.now }
        ensures applied { IsApplied C.start.rules reply result self.old self.new }
        ensures closed { self.new.closed ≡ self.old.closed }
    {
        self.note(consumer);
        self.apply_reply(context, reply)
    }
}
