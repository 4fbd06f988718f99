//! How many frames came in, by outcome.

ghost use Rattle.std.specs.Prelude.{◌≡◌, ◌+◌, ◌<◌, ◌^◌};
ghost use Rattle.sms_bind.specs.Deeds.{tally, no_counts, with_answer, with_reply, IsWithin};

use crate::outcome::{FrameOutcome, Written};
use sms_pdu::{DELIVER_SM_RESP, GENERIC_NACK};
use sms_session::Response;
use sms_slot::Delivery;

/// How many frames were handled, by outcome.
#[derive(Clone, Copy, Debug, PartialEq, Eq)]
pub(crate) struct Counts {
    pub frames: u64,
    pub answered: u64,
    pub unknown: u64,
    pub overrun: u64,
    pub delivered: u64,
    pub noted: u64,
    pub nacked: u64,
    pub unreplied: u64,
}

impl Counts {
    /// All counts 0.
    pub fn new() -> Counts
        ensures { result ≡ no_counts }
    {
        Counts {
            frames: 0,
            answered: 0,
            unknown: 0,
            overrun: 0,
            delivered: 0,
            noted: 0,
            nacked: 0,
            unreplied: 0,
        }
    }

    /// Counts a frame with this outcome.
    pub fn add(&mut self, outcome: &FrameOutcome)
        requires within { IsWithin self.old }
        requires room { self.old.frames + 1 < 2 ^ 64 }
        ensures tally { self.new ≡ tally self.old outcome.now }
        ensures within { IsWithin self.new }
        ensures frames { self.new.frames ≡ self.old.frames + 1 }
    {
        self.frames += 1;
        match outcome {
            FrameOutcome::Answer { reply: _, delivery } => self.add_answer(*delivery),
            FrameOutcome::Replied { response, written } => self.add_response(response, written),
            FrameOutcome::Noted => self.noted += 1,
            FrameOutcome::Closed => {}
        }
    }

    /// Counts an answer.
    fn add_answer(&mut self, delivery: Delivery)
        requires { (self.old.answered + 1 < 2 ^ 64) × (self.old.unknown + 1 < 2 ^ 64) × (self.old.overrun + 1 < 2 ^ 64) }
        ensures { self.new ≡ with_answer self.old delivery }
    {
        match delivery {
            Delivery::Found { slot: _, worker: _ } => self.answered += 1,
            Delivery::Overrun { slot: _, worker: _ } => self.overrun += 1,
            Delivery::Unknown => self.unknown += 1,
        }
    }

    /// Counts a response. A request whose response is a deliver_sm_resp is a deliver_sm.
    fn add_response(&mut self, response: &Response, written: &Written)
        requires { (self.old.delivered + 1 < 2 ^ 64) × (self.old.nacked + 1 < 2 ^ 64) × (self.old.unreplied + 1 < 2 ^ 64) }
        ensures { self.new ≡ with_reply self.old response.now written.now }
    {
        if response.command == DELIVER_SM_RESP {
            self.delivered += 1;
        }
        match written {
            Written::Sent(_receipt) => {
                if response.command == GENERIC_NACK {
                    self.nacked += 1;
                }
            }
            Written::NoMemory(_no) => self.unreplied += 1,
            Written::Broken(_no) => {}
        }
    }
}
