//! Open requests whose slots were found answered.

ghost use Rattle.std.specs.Prelude.{◌≡◌, ◌+◌, ◌<◌, false, true};
ghost use Rattle.sms_core.specs.Limits.{most_slots};

use crate::state::open::Open;
use sms_slot::{Expired, SlotRow};
use std::sync::Wait;

/// How many open requests were found answered, whose answers are on their way. Only a look at the slot of one
/// counts it.
#[derive(Clone, Copy, Debug, PartialEq, Eq)]
pub struct Answered {
    count: usize,
}

impl Answered {
    /// No request was looked at.
    pub fn none() -> Answered
        ensures { result.count ≡ 0 }
    {
        Answered { count: 0 }
    }

    /// How many there are.
    pub fn count(&self) -> usize
        ensures { result ≡ self.now.count }
    {
        self.count
    }

    /// Expires the slot of an open request. False where it is answered: that counts.
    pub fn expire<R: Wait>(&mut self, slots: &SlotRow, rt: &R, request: Open) -> bool
        requires slot { request.slot < most_slots }
        requires bound { self.old.count < 64 }
        ensures expired { result ≡ true → self.new.count ≡ self.old.count }
        ensures answered { result ≡ false → self.new.count ≡ self.old.count + 1 }
    {
        if slots.expire(rt, request.slot, request.number) == Expired::Answered {
            self.count += 1;
            return false;
        }
        true
    }
}
