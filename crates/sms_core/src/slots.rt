//! The table of a window's slots.

ghost use Rattle.std.specs.Prelude.{◌≡◌, ◌≢◌, ◌==◌, ◌<◌, ℕ, not, nat_lt, [], is_some, length, IfSome, replicate, slice_get, slice_index_or, slice_set};
ghost use Rattle.std.specs.Bool.{OnTrue, OnFalse};
ghost use Rattle.sms_core.specs.Holds.{holders_of, Claims, Releases};
ghost use Rattle.sms_core.specs.Limits.{most_slots};
ghost use Rattle.sms_core.specs.Slots.{Answers, worker_in, mark_in, is_of};
ghost use Rattle.sms_core.specs.State.{find_holder, times_held};
ghost use Rattle.sms_core.specs.Steps.{some_waits_for};

use crate::limits::MOST_SLOTS;
use crate::mark::Mark;
use std::marker::Model;

const SLOTS: usize = MOST_SLOTS as usize;

/// A slot: nobody has it, or a worker has it and uses it so.
#[derive(Clone, Copy, Debug, PartialEq, Eq)]
pub(crate) enum Slot {
    Free,
    Held { worker: u32, mark: Mark },
}

impl Slot {
    fn worker(self) -> Option<u32>
        ensures { result ≡ worker_in self }
    {
        match self {
            Slot::Free => None,
            Slot::Held { worker, .. } => Some(worker),
        }
    }

    fn mark(self) -> Mark
        ensures { result ≡ mark_in self }
    {
        match self {
            Slot::Free => Mark::Empty,
            Slot::Held { mark, .. } => mark,
        }
    }

    /// The same slot, used otherwise.
    fn with_mark(self, mark: Mark) -> Slot
        requires { self ≢ Slot.Free }
        ensures worker { worker_in result ≡ worker_in self }
        ensures mark { mark_in result ≡ mark }
    {
        match self {
            Slot::Free => unreachable!(),
            Slot::Held { worker, .. } => Slot::Held { worker, mark },
        }
    }
}

#[derive(Debug, Drop)]
pub(crate) struct Slots {
    slots: [Slot; SLOTS],
}

impl Model for Slots {
    ghost use Rattle.std.specs.Prelude.{◌≡◌, length, map};
    ghost use Rattle.sms_core.specs.Limits.{most_slots};
    ghost use Rattle.sms_core.specs.Slots.{Table, pairs_from, worker_in, mark_in};

    ghost Value = { Table };

    ghost view = { λ s. record { holds = pairs_from 0 (map worker_in s.slots); marks = map mark_in s.slots } };

    ghost invariant = { λ s. length s.slots ≡ most_slots };
}

impl Slots {
    /// Slots that nobody has.
    pub(crate) fn new() -> Slots
        ensures holds { result.holds ≡ [] }
        ensures marks { result.marks ≡ replicate most_slots Mark.Empty }
    {
        Slots {
            slots: [Slot::Free; SLOTS],
        }
    }

    /// The slot of this number. Beyond the window's table nobody has one.
    fn slot(&self, slot: u32) -> Slot
        ensures holder { worker_in result ≡ find_holder slot self.now.holds }
        ensures held { is_some (worker_in result) ≡ nat_lt 0 (holders_of slot self.now.holds) }
        ensures worker { (worker : ℕ) → not (times_held worker slot self.now.holds == 0) ≡ is_of worker result }
        ensures mark { mark_in result ≡ slice_index_or self.now.marks slot Mark.Empty }
    {
        if slot < MOST_SLOTS {
            self.slots[slot as usize]
        } else {
            Slot::Free
        }
    }

    /// The worker that has the slot.
    pub(crate) fn holder(&self, slot: u32) -> Option<u32>
        ensures { result ≡ find_holder slot self.now.holds }
    {
        self.slot(slot).worker()
    }

    pub(crate) fn is_held(&self, slot: u32) -> bool
        ensures { result ≡ nat_lt 0 (holders_of slot self.now.holds) }
    {
        self.slot(slot).worker().is_some()
    }

    pub(crate) fn is_holder(&self, worker: u32, slot: u32) -> bool
        ensures this { result ≡ not (times_held worker slot self.now.holds == 0) }
        ensures held { OnTrue result (holders_of slot self.now.holds ≢ 0) }
    {
        match self.slot(slot) {
            Slot::Free => false,
            Slot::Held { worker: holder, .. } => holder == worker,
        }
    }

    pub(crate) fn mark(&self, slot: u32) -> Mark
        ensures { result ≡ slice_index_or self.now.marks slot Mark.Empty }
    {
        self.slot(slot).mark()
    }

    /// Gives a free slot to a worker.
    pub(crate) fn claim(&mut self, worker: u32, slot: u32)
        requires inside { slot < most_slots }
        requires free { holders_of slot self.old.holds ≡ 0 }
        ensures holds { Claims self.old.holds worker slot self.new.holds }
        ensures marks { self.new.marks ≡ self.old.marks }
        ensures empty { slice_index_or self.old.marks slot Mark.Empty ≡ Mark.Empty }
    {
        self.slots[slot as usize] = Slot::Held {
            worker,
            mark: Mark::Empty,
        };
    }

    /// Takes an empty slot from its worker.
    pub(crate) fn release(&mut self, worker: u32, slot: u32)
        requires held { times_held worker slot self.old.holds ≢ 0 }
        requires empty { slice_index_or self.old.marks slot Mark.Empty ≡ Mark.Empty }
        ensures holds { Releases self.old.holds worker slot self.new.holds }
        ensures marks { self.new.marks ≡ self.old.marks }
    {
        self.slots[slot as usize] = Slot::Free;
    }

    /// Marks a slot that somebody has.
    pub(crate) fn set_mark(&mut self, slot: u32, mark: Mark)
        requires { holders_of slot self.old.holds ≢ 0 }
        ensures holds { self.new.holds ≡ self.old.holds }
        ensures marks { self.new.marks ≡ slice_set self.old.marks slot mark }
        ensures inside { slot < length self.old.marks }
    {
        self.slots[slot as usize] = self.slots[slot as usize].with_mark(mark);
    }

    /// The first slot that waits for the number, and its request.
    fn waiting(&self, number: u32) -> Option<(u32, u32)>
        ensures exists { is_some result ≡ some_waits_for number self.now.marks }
        ensures open { IfSome result (λ p. slice_get self.now.marks p.0 ≡ Some (Mark.Open p.1 number)) }
        ensures held { IfSome result (λ p. holders_of p.0 self.now.holds ≢ 0) }
    {
        for slot in 0..MOST_SLOTS {
            if let Mark::Open {
                request,
                number: waiting,
            } = self.slots[slot as usize].mark()
            {
                if waiting == number {
                    return Some((slot, request));
                }
            }
        }
        None
    }

    /// Hands an answer to the slot that waits for its number, if there is one.
    pub(crate) fn answer(&mut self, number: u32, status: u32, nack: bool) -> bool
        ensures found { result ≡ some_waits_for number self.old.marks }
        ensures answered { OnTrue result (Answers self.old number status nack self.new) }
        ensures unknown { OnFalse result (self.new ≡ self.old) }
    {
        let Some((slot, request)) = self.waiting(number) else {
            return false;
        };
        let replied = Mark::Replied {
            request,
            number,
            status,
            nack,
        };
        self.set_mark(slot, replied);
        true
    }
}
