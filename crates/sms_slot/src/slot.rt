//! One slot, and how a request passes through it.

ghost use Rattle.std.specs.Prelude.{◌≡◌, ◌↔◌, ℕ, true, false, length, map, IsOk, OnOk, OnErr, IfErr, MatchResult, if◌then◌else◌};
ghost use Rattle.std.specs.List.{AllZip};
ghost use Rattle.rtrb.specs.Ring.{sent, known_free, SameProducer};
ghost use Rattle.sms_slot.specs.Rings.{pushed_to, place_of, HasRing, Room};
ghost use Rattle.sms_slot.specs.declared.slot.SlotDelivery.TheVariants.{Matched, Overrun, Unknown};

use rtrb::Producer;
use sms_pdu::Reply;

/// A slot of the window, shared by the worker that holds it and the reader of answers.
#[derive(Clone, Copy, Debug, PartialEq, Eq)]
pub enum Slot {
    /// No request waits.
    Empty,
    /// The request with this sequence number was sent by the worker, and has no answer yet.
    Waiting { worker: usize, number: u32 },
    /// The worker's ring took the answer, and the worker has not taken the slot back.
    Answered { worker: usize, number: u32 },
}

/// Why a request can't be posted.
#[derive(Clone, Copy, Debug, PartialEq, Eq, thiserror::Error)]
pub enum SlotError {
    #[error("the slot is not empty")]
    Busy,
}

/// What a slot did with an answer.
#[derive(Clone, Copy, Debug, PartialEq, Eq)]
pub enum SlotDelivery {
    /// It is for this worker, whose ring took it.
    Matched { worker: usize },
    /// It is for this worker, which has no ring in the list, or a full one. The answer is dropped, and
    /// the request waits on.
    Overrun { worker: usize },
    /// No request with this number waits here.
    Unknown,
}

/// What a slot returns to a worker that asks for its answer.
#[derive(Clone, Copy, Debug, PartialEq, Eq)]
pub enum Taken {
    /// The worker's ring has the answer, and the slot is empty.
    Got,
    /// The request with this number waits still.
    NotYet,
    /// The slot has no request with this number.
    Unknown,
}

/// Evidence that a slot had no answer for a number, and what its state was. Only `Slot::take_answer` makes one.
#[derive(Clone, Copy, Debug, PartialEq, Eq)]
pub struct NoAnswer {
    number: u32,
    was: Slot,
}

/// The result of giving up a request.
#[derive(Clone, Copy, Debug, PartialEq, Eq)]
pub enum Expired {
    /// The slot is empty, and a later answer will be unknown.
    Done,
    /// The answer came first, and has to be taken.
    Answered,
    /// The slot has no request with this number.
    Unknown,
}

impl Slot {
    ghost use Rattle.sms_core.specs.Marks.{opened};
    ghost use Rattle.sms_slot.specs.Slot.{IsAnswered, LacksAnswer, MarkChanges, MarkForbids, Answers, AnswersMark, Takes, TakesMark, Expires, ExpiresMark};
    ghost use Rattle.sms_slot.specs.declared.slot.Slot.TheVariants.{Empty, Waiting};

    /// Lets a request wait in an empty slot. `worker` is the place of the worker's ring in the list
    /// that the reader of answers has.
    pub fn post(&mut self, worker: usize, number: u32) -> Result<(), SlotError>
        ensures empty { IsOk result ↔ (self.old ≡ Empty) }
        ensures waiting { OnOk result (self.new ≡ Waiting worker number) }
        ensures busy { OnErr result (self.new ≡ self.old) }
        ensures mark { (request : ℕ) → MatchResult result (λ _. MarkChanges (opened request number) self.old self.new) (λ _. MarkForbids (opened request number) self.old) }
    {
        match *self {
            Slot::Empty => {
                *self = Slot::Waiting { worker, number };
                Ok(())
            }
            Slot::Waiting { .. } | Slot::Answered { .. } => Err(SlotError::Busy),
        }
    }

    /// Delivers an answer. It belongs here where a request with its number waits, and goes into the
    /// ring of the worker whose request it is.
    #[tactic(auto, using(crate::proofs::Rings::same_rings))]
    pub fn answer(&mut self, reply: Reply, producers: &mut [Producer<Reply>]) -> SlotDelivery
        ensures slot { Answers reply self.old result self.new }
        ensures mark { AnswersMark reply self.old result self.new }
        ensures rings { AllZip SameProducer producers.old producers.new }
        ensures sent { map sent producers.new ≡ pushed_to (map sent producers.old) reply (place_of result) }
        ensures ring { HasRing result (length producers.old) }
        ensures room { Room result (map known_free producers.old) (map known_free producers.new) }
        ensures unknown { result ≡ Unknown → producers.new ≡ producers.old }
    {
        match *self {
            Slot::Waiting { worker, number } if number == reply.number => {
                if !push_reply(producers, worker, reply) {
                    return SlotDelivery::Overrun { worker };
                }
                *self = Slot::Answered { worker, number };
                SlotDelivery::Matched { worker }
            }
            Slot::Empty | Slot::Waiting { .. } | Slot::Answered { .. } => SlotDelivery::Unknown,
        }
    }

    /// Empties the slot of the request with this number, where its answer has come.
    pub fn take(&mut self, number: u32) -> Taken
        ensures slot { Takes number self.old result self.new }
        ensures mark { TakesMark self.old result self.new }
    {
        match *self {
            Slot::Answered { number: asked, .. } if asked == number => {
                *self = Slot::Empty;
                Taken::Got
            }
            Slot::Waiting { number: asked, .. } if asked == number => Taken::NotYet,
            Slot::Empty | Slot::Waiting { .. } | Slot::Answered { .. } => Taken::Unknown,
        }
    }

    /// As `take`, with the slot's state as the error where the answer hasn't come.
    pub fn take_answer(&mut self, number: u32) -> Result<(), NoAnswer>
        ensures got { OnOk result (IsAnswered number self.old × (self.new ≡ Empty)) }
        ensures none { OnErr result ((¬ IsAnswered number self.old) × (self.new ≡ self.old)) }
        ensures was { IfErr result (λ e. (e.number ≡ number) × (e.was ≡ self.old)) }
        ensures lacks { IfErr result (LacksAnswer number) }
    {
        let was = *self;
        match self.take(number) {
            Taken::Got => Ok(()),
            Taken::NotYet => Err(NoAnswer { number, was }),
            Taken::Unknown => Err(NoAnswer { number, was }),
        }
    }

    /// Gives up the request with this number, where it waits still.
    pub fn expire(&mut self, number: u32) -> Expired
        ensures slot { Expires number self.old result self.new }
        ensures mark { ExpiresMark self.old result self.new }
    {
        match *self {
            Slot::Waiting { number: asked, .. } if asked == number => {
                *self = Slot::Empty;
                Expired::Done
            }
            Slot::Answered { number: asked, .. } if asked == number => Expired::Answered,
            Slot::Empty | Slot::Waiting { .. } | Slot::Answered { .. } => Expired::Unknown,
        }
    }
}

/// Pushes an answer into the ring at a place: true where there is such a ring and it took the answer.
fn push_reply(producers: &mut [Producer<Reply>], place: usize, reply: Reply) -> bool
    ensures rings { AllZip SameProducer producers.old producers.new }
    ensures sent { map sent producers.new ≡ pushed_to (map sent producers.old) reply (if result then Some place else None) }
    ensures ring { result ≡ true → HasRing (Matched place) (length producers.old) }
    ensures taken { result ≡ true → Room (Matched place) (map known_free producers.old) (map known_free producers.new) }
    ensures given_back { result ≡ false → Room (Overrun place) (map known_free producers.old) (map known_free producers.new) }
{
    if place >= producers.len() {
        return false;
    }
    let producer = &mut producers[place];
    match producer.push(reply) {
        Ok(()) => true,
        Err(_) => false,
    }
}
