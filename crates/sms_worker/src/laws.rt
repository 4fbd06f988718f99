//! Laws of what workers hand back, for every call.

ghost use Rattle.std.specs.Prelude.{◌≡◌};
ghost use mathlib.Core.List.{IsPrefix};
ghost use Rattle.std.specs.List.{AllZip};
ghost use Rattle.rtrb.specs.Ring.{sent, received, IsPair};
ghost use Rattle.sms_worker.specs.Laws.{ChargesAreAnswered};
ghost use Rattle.sms_worker.specs.Tally.{AreSums};
ghost use Rattle.sms_worker.specs.Rests.{ChargesRestOnFrames, HasReceived};
ghost use Rattle.sms_worker.specs.Events.{
  ClaimIsEvent,
  SendingIsEvent,
  AnswerIsEvent,
  DecisionIsEvent,
  ExpiryIsEvent,
  GivingUpIsEvent,
  ReleaseIsEvent,
  LeavingIsNoEvent,
};

use crate::state::tally::Tally;
use crate::state::worker_start::WorkerStart;
use rtrb::{Consumer, Producer};
use sms_book::BookName;
use sms_pdu::Reply;
use std::collections::VecDeque;

/// Each charge rests on an answer that the worker received in the call: a submit_sm_resp with
/// `ESME_ROK` and its attempt's number.
pub fn charges_are_answered()
    ensures { ChargesAreAnswered }
{}

/// Of any worker's share and the ends of its messages, as they are whenever the book's lock is free: since the call
/// began the share has grown by the sums over these ends. Whatever changes the share, or a cost or an outcome
/// among the ends, is passed the locked book, and hands both back so.
pub fn a_share_is_its_sums<N: BookName, C: WorkerStart>(tally: &Tally<N, C>)
    ensures { AreSums C.start tally.now.share tally.now.ends }
{
    let _ends = tally.ends();
}

/// What a worker received is a beginning of what the reader of answers handed to it, in order.
pub fn received_is_prefix(producer: &mut Producer<Reply>, consumer: &mut Consumer<Reply>)
    requires { IsPair producer.old consumer.old }
    ensures prefix { IsPrefix (received consumer.new) (sent producer.new) }
    ensures unchanged { (received consumer.new ≡ received consumer.old) × (sent producer.new ≡ sent producer.old) }
    ensures pair { IsPair producer.new consumer.new }
{
    let _seen = consumer.slots_beside(producer);
}

// `received_is_prefix` of one ring, both of whose ends are consumed.
fn meet(producer: Producer<Reply>, consumer: Consumer<Reply>)
    requires { IsPair producer consumer }
    ensures { HasReceived producer consumer }
{
    let mut producer = producer;
    let mut consumer = consumer;
    received_is_prefix(&mut producer, &mut consumer);
}

/// The same of the ends of each ring.
pub fn received_are_prefixes(producers: Vec<Producer<Reply>>, consumers: Vec<Consumer<Reply>>)
    requires { AllZip IsPair producers.items consumers.items }
    ensures { AllZip HasReceived producers.items consumers.items }
{
    let mut consumers = VecDeque::from(consumers);
    for producer in producers {
        let Some(consumer) = consumers.pop_front() else {
            unreachable!()
        };
        meet(producer, consumer);
    }
}

/// Each charge of a bind's workers rests on a frame that the bind's reader read: a submit_sm_resp with
/// `ESME_ROK` and the number of the charge's last attempt. No two charges rest on one frame. The
/// producers are those that the reader gave back, and the consumers those of the workers, ring by
/// ring; what `read_loop` and `run_worker` promised of them is taken from their contracts.
pub fn charges_rest_on_frames(producers: Vec<Producer<Reply>>, consumers: Vec<Consumer<Reply>>)
    requires { AllZip IsPair producers.items consumers.items }
    ensures { ChargesRestOnFrames producers.items consumers.items }
{
    received_are_prefixes(producers, consumers);
}

/// The changes of one attempt are the core's events: a claim of its slot is a Claim, its draw, its
/// post and its place in the list are a Post, its answer is a Respond, what the answer decides is a
/// Settle, an end of the wait an Expire, giving a segment up a Discard, and a release a Release. Each
/// event is allowed, and the worker's state represents the world after it as it did the world before. A
/// segment that is left without its answer at the end of a call, although its slot is answered, is no event.
pub fn an_attempt_is_events()
    ensures claims { ClaimIsEvent }
    ensures sends { SendingIsEvent }
    ensures answers { AnswerIsEvent }
    ensures decides { DecisionIsEvent }
    ensures expires { ExpiryIsEvent }
    ensures gives_up { GivingUpIsEvent }
    ensures releases { ReleaseIsEvent }
    ensures leaves { LeavingIsNoEvent }
{}
