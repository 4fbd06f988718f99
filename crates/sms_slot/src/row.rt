//! The slots of one bind, each behind a lock of its own.

ghost use Rattle.std.specs.Prelude.{◌≡◌, ◌<◌, IfErr, vec_len};
ghost use Rattle.sms_core.specs.Limits.{most_slots};
ghost use Rattle.sms_slot.specs.Row.{IsDelivered};
ghost use Rattle.sms_slot.specs.Slot.{IsNotAnswered};

use crate::slot::{Expired, NoAnswer, Slot, SlotDelivery, SlotError, Taken};
use rtrb::Producer;
use sms_core::MOST_SLOTS;
use sms_pdu::Reply;
use std::alloc::{AllocError, Global};
use std::sync::atomic::{AtomicU32, Ordering};
use std::sync::{Mutex, Wait};

/// The 64 slots of a bind. A call takes one slot's lock at a time, and waits for it. A slot's state when
/// its lock is taken is whatever the last holder of the lock left there, so no clause describes it.
#[derive(Drop)]
pub struct SlotRow {
    slots: Vec<Mutex<Slot>>,
    /// The number that was posted last in each slot. `post` alone writes it, while it holds the slot's
    /// lock and before its caller can send the request: an answer to a request that waits finds its
    /// number here, since nothing else can be posted in that slot until the request is gone from it.
    /// So a slot that has another number here need not be locked. A request that was answered or given
    /// up leaves its number here, but its slot no longer waits for it.
    numbers: Vec<AtomicU32>,
    ghost all: { vec_len slots ≡ most_slots },
    ghost each: { vec_len numbers ≡ most_slots },
}

/// Whether an answer was delivered.
#[derive(Clone, Copy, Debug, PartialEq, Eq)]
pub enum Delivery {
    /// The slot's request waited for it, and the worker's ring took it.
    Found { slot: u32, worker: usize },
    /// The slot's request still waits for it: the worker has no ring in the list, or a full one.
    Overrun { slot: u32, worker: usize },
    /// No slot had a request that waited for this number when it was looked at.
    Unknown,
}

/// Evidence that a slot had no answer for a number, and what its state was. Only `SlotRow::take_answer` makes
/// one.
#[derive(Clone, Copy, Debug, PartialEq, Eq)]
pub struct NotAnswered {
    slot: u32,
    none: NoAnswer,
}

impl SlotRow {
    /// 64 empty slots.
    pub fn new(alloc: Global) -> Result<SlotRow, AllocError> {
        let mut slots = Vec::with_capacity(alloc, MOST_SLOTS as usize)?;
        let mut numbers = Vec::with_capacity(alloc, MOST_SLOTS as usize)?;
        for _ in 0..MOST_SLOTS {
            slots.push_reserved(Mutex::new(Slot::Empty));
            numbers.push_reserved(AtomicU32::new(0));
        }
        Ok(SlotRow { slots, numbers })
    }

    /// `Slot::post` of this slot.
    pub fn post<R: Wait>(
        &self,
        rt: &R,
        slot: u32,
        worker: usize,
        number: u32,
    ) -> Result<(), SlotError>
        requires slot { slot < most_slots }
    {
        let mut kept = self.slots[slot as usize].lock(rt);
        kept.post(worker, number)?;
        self.numbers[slot as usize].store(number, Ordering::SeqCst);
        Ok(())
    }

    /// `Slot::take` of this slot.
    pub fn take<R: Wait>(&self, rt: &R, slot: u32, number: u32) -> Taken
        requires slot { slot < most_slots }
    {
        let mut kept = self.slots[slot as usize].lock(rt);
        kept.take(number)
    }

    /// `Slot::take_answer` of this slot. The error has the slot's state while it was locked.
    pub fn take_answer<R: Wait>(&self, rt: &R, slot: u32, number: u32) -> Result<(), NotAnswered>
        requires slot { slot < most_slots }
        ensures none { IfErr result (IsNotAnswered slot number) }
    {
        let mut kept = self.slots[slot as usize].lock(rt);
        match kept.take_answer(number) {
            Ok(()) => Ok(()),
            Err(none) => Err(NotAnswered { slot, none }),
        }
    }

    /// `Slot::expire` of this slot.
    pub fn expire<R: Wait>(&self, rt: &R, slot: u32, number: u32) -> Expired
        requires slot { slot < most_slots }
    {
        let mut kept = self.slots[slot as usize].lock(rt);
        kept.expire(number)
    }

    /// `Slot::answer` of the first slot, from slot 0 on, that waits for the answer's number. The
    /// answer goes into the ring while that slot is locked, and no slot is locked in which that number
    /// wasn't posted.
    #[tactic(auto, using(crate::proofs::Rings::same_rings))]
    pub fn answer<R: Wait>(
        &self,
        rt: &R,
        reply: Reply,
        producers: &mut [Producer<Reply>],
    ) -> Delivery
        ensures { IsDelivered reply producers.old producers.new result }
    {
        for slot in 0..MOST_SLOTS {
            match self.answer_at(rt, slot, &reply, producers) {
                Delivery::Unknown => {}
                found => return found,
            }
        }
        Delivery::Unknown
    }

    /// As `answer`, but this slot is looked at first. Answers mostly come in the order of their slots,
    /// so whoever names the slot behind that of the last answer finds most of them at once.
    pub fn answer_near<R: Wait>(
        &self,
        rt: &R,
        first: u32,
        reply: Reply,
        producers: &mut [Producer<Reply>],
    ) -> Delivery
        ensures { IsDelivered reply producers.old producers.new result }
    {
        match self.answer_at(rt, first % MOST_SLOTS, &reply, producers) {
            Delivery::Unknown => self.answer(rt, reply, producers),
            found => found,
        }
    }

    /// `Slot::answer` of this slot, which is locked only where the answer's number was posted in it.
    #[tactic(auto, using(crate::proofs::Rings::same_rings))]
    fn answer_at<R: Wait>(
        &self,
        rt: &R,
        slot: u32,
        reply: &Reply,
        producers: &mut [Producer<Reply>],
    ) -> Delivery
        requires slot { slot < most_slots }
        ensures { IsDelivered reply.now producers.old producers.new result }
    {
        if self.numbers[slot as usize].load(Ordering::SeqCst) != reply.number {
            return Delivery::Unknown;
        }
        let mut kept = self.slots[slot as usize].lock(rt);
        match kept.answer(*reply, producers) {
            SlotDelivery::Matched { worker } => Delivery::Found { slot, worker },
            SlotDelivery::Overrun { worker } => Delivery::Overrun { slot, worker },
            SlotDelivery::Unknown => Delivery::Unknown,
        }
    }
}
