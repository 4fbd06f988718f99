//! One turn of a call, and how many were taken.

ghost use Rattle.std.specs.Prelude.{◌≡◌, ◌+◌, ◌<◌, IfErr, IfOk, IsTrue, true, false, length};
ghost use Rattle.rtrb.specs.Ring.{known_items, received, SameConsumer};
ghost use Rattle.sms_worker.specs.Replies.{HasDrained};
ghost use Rattle.sms_worker.specs.Turn.{TakesTurn};
ghost use Rattle.sms_worker.specs.declared.steps.call_end.CallEnd.TheVariants.{Closed};

use crate::devices::{Clock, Gate, Pause};
use crate::entry::context::WorkerContext;
use crate::state::worker_start::WorkerStart;
use crate::state::worker_state::WorkerState;
use crate::steps::call_end::CallEnd;
use crate::steps::timestamp::Timestamp;
use rtrb::Consumer;
use sms_bind::LogName;
use sms_book::BookName;
use sms_pdu::Reply;
use std::io::Write;
use std::sync::Wait;

/// How many turns of a call were taken, one behind the other. Only a turn that is taken counts.
#[derive(Clone, Copy, Debug, PartialEq, Eq)]
pub struct TurnsTaken {
    count: u64,
}

impl TurnsTaken {
    /// None was taken yet.
    pub fn none() -> TurnsTaken
        ensures { result.count ≡ 0 }
    {
        TurnsTaken { count: 0 }
    }

    /// How many there are.
    pub fn count(self) -> u64
        ensures { result ≡ self.count }
    {
        self.count
    }
}

impl<N: BookName + LogName, C: WorkerStart> WorkerState<'_, N, C> {
    /// Takes one turn more: applies the replies that came, lets requests expire, and starts what is to be sent.
    /// Where it finds nothing to do it pauses, and where nothing is left to do the call ends with it.
    pub(crate) fn turn<W: Write, G: Gate, K: Clock, P: Pause, R: Wait>(
        &mut self,
        context: &WorkerContext<N, W, G, K, R>,
        pause: &P,
        consumer: &mut Consumer<Reply>,
        taken: TurnsTaken,
    ) -> Result<TurnsTaken, CallEnd>
        requires window { context.now.window.now ≡ C.start.seat.window }
        requires rules { context.now.rules.now ≡ C.start.rules }
        requires replies { self.old.replies ≡ received consumer.old }
        requires few { taken.count < C.start.rules.turns }
        ensures ring { SameConsumer consumer.old consumer.new }
        ensures replies { self.new.replies ≡ received consumer.new }
        ensures drained { HasDrained (length self.old.replies) (known_items consumer.new) (received consumer.new) }
        ensures more { IfOk result (λ all. (all.count ≡ taken.count + 1) × TakesTurn C.start true self.old self.new) }
        ensures last { IfErr result (λ end. TakesTurn C.start false self.old self.new) }
        ensures closed { IfErr result (λ end. end ≡ Closed → IsTrue self.new.closed) }
    {
        let (replies, _empty) = self.take_replies(context, consumer);
        let down = self.sees_closed();
        let (expired, _answered) = self.expire(context, Timestamp::of(context.clock), down);
        let started = self.start_all(context, down);
        context
            .gate
            .see(context.worker, self.tally.ends(), self.opened.len());
        if !replies && !expired && !started {
            if let Some(end) = self.call_end(down) {
                return Err(end);
            }
            let quiet_ms = self.quiet_ms(context.rules, Timestamp::of(context.clock), down);
            pause.wait(context.worker, 1, quiet_ms);
        }
        Ok(TurnsTaken {
            count: taken.count + 1,
        })
    }
}
