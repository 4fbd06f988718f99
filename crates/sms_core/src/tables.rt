//! A world as it is computed: running balances, requests and a table of slots.

ghost use Rattle.std.specs.Prelude.{◌≡◌, ◌+◌, ◌≤◌, [], IfOk, OnErr, OnOk, count_by, length, vec_capacity, if◌then◌else◌};
ghost use Rattle.sms_core.specs.Histories.{Runs};
ghost use Rattle.sms_core.specs.Steps.{Steps, phase_after};
ghost use Rattle.sms_core.specs.State.{AreLimits, new_world};
ghost use Rattle.sms_core.specs.Tables.{state_of, IsSound, takes_memory, TakesMemory};

use crate::event::{Cause, Event, Step};
use crate::ledger::Ledger;
use crate::limits::{LARGEST_COST, MOST_TOPPED, TOP_NUMBER};
use crate::mark::Mark;
use crate::reply::{is_charge, is_retry};
use crate::request::Phase;
use crate::slots::Slots;
use std::alloc::{AllocError, Global};

#[derive(Debug, Drop)]
pub(crate) struct Tables {
    pub(crate) limit: u32,
    pub(crate) next: u32,
    pub(crate) ledger: Ledger,
    pub(crate) slots: Slots,
}

/// What becomes of a request that was sent so often and has this answer.
fn phase_after(most: u32, status: u32, nack: bool, made: u32) -> Phase
    ensures { result ≡ phase_after most status nack made }
{
    if is_charge(status, nack) {
        Phase::Charged
    } else if is_retry(status, nack) && made < most {
        Phase::Ready
    } else {
        Phase::Refused
    }
}

impl Tables {
    pub(crate) fn new(
        alloc: Global,
        accounts: u32,
        limit: u32,
        attempts: u32,
    ) -> Result<Tables, AllocError>
        requires { AreLimits accounts limit attempts }
        ensures world { IfOk result (λ t. state_of t ≡ new_world accounts limit attempts) }
        ensures sound { IfOk result (λ t. IsSound t) }
    {
        Ok(Tables {
            limit,
            next: 1,
            ledger: Ledger::new(alloc, accounts, attempts)?,
            slots: Slots::new(),
        })
    }

    /// Makes room for more requests.
    pub(crate) fn make_room(&mut self, additional: usize) -> Result<(), AllocError>
        requires { IsSound self.old }
        ensures state { state_of self.new ≡ state_of self.old }
        ensures sound { IsSound self.new }
        ensures room { OnOk result (additional ≤ self.new.ledger.room) }
    {
        self.ledger.make_room(additional)
    }

    fn top_up(&mut self, account: u32, amount: u64) -> Step
        requires { IsSound self.old }
        ensures step { Steps (state_of self.old) (Event.TopUp account amount) result (state_of self.new) }
        ensures sound { IsSound self.new }
        ensures room { self.new.ledger.room ≡ self.old.ledger.room }
    {
        let Some(row) = self.ledger.row(account) else {
            return Step::Ignored(Cause::NoAccount);
        };
        if amount > MOST_TOPPED - row.topped {
            return Step::Ignored(Cause::AmountTooLarge);
        }
        self.ledger.top_up(account, amount);
        Step::Done
    }

    fn reserve(&mut self, request: u32, account: u32, cost: u32) -> Result<Step, AllocError>
        requires { IsSound self.old }
        ensures step { IfOk result (λ answer. Steps (state_of self.old) (Event.Reserve request account cost) answer (state_of self.new)) }
        ensures err { OnErr result (state_of self.new ≡ state_of self.old) }
        ensures sound { IsSound self.new }
        ensures room { OnOk result (self.old.ledger.room ≤ self.new.ledger.room + 1) }
        ensures full { OnErr result (self.old.ledger.room ≡ 0) }
    {
        let Some(row) = self.ledger.row(account) else {
            return Ok(Step::Ignored(Cause::NoAccount));
        };
        let Some(gap) = self.ledger.gap(request) else {
            return Ok(Step::Ignored(Cause::RequestKnown));
        };
        if cost == 0 || cost > LARGEST_COST {
            return Ok(Step::Ignored(Cause::BadCost));
        }
        if row.free < u64::from(cost) {
            return Ok(Step::Ignored(Cause::NoCredit));
        }
        self.ledger.reserve(gap, account, cost)?;
        Ok(Step::Done)
    }

    fn claim(&mut self, worker: u32, slot: u32) -> Step
        requires { IsSound self.old }
        ensures step { Steps (state_of self.old) (Event.Claim worker slot) result (state_of self.new) }
        ensures sound { IsSound self.new }
        ensures room { self.new.ledger.room ≡ self.old.ledger.room }
    {
        if slot >= self.limit || self.slots.is_held(slot) {
            return Step::Ignored(Cause::SlotHeld);
        }
        self.slots.claim(worker, slot);
        Step::Done
    }

    fn post(&mut self, worker: u32, slot: u32, request: u32) -> Step
        requires { IsSound self.old }
        ensures step { Steps (state_of self.old) (Event.Post worker slot request) result (state_of self.new) }
        ensures sound { IsSound self.new }
        ensures room { self.new.ledger.room ≡ self.old.ledger.room }
    {
        if !self.slots.is_holder(worker, slot) {
            return Step::Ignored(Cause::NotHolder);
        }
        if self.slots.mark(slot) != Mark::Empty {
            return Step::Ignored(Cause::SlotBusy);
        }
        let Some((place, found)) = self.ledger.ready(request) else {
            return Step::Ignored(Cause::NoRequest);
        };
        if self.next > TOP_NUMBER {
            return Step::Ignored(Cause::NumbersUsedUp);
        }
        self.ledger
            .advance(place, found, found.state.attempts + 1, Phase::Open);
        self.slots.set_mark(
            slot,
            Mark::Open {
                request,
                number: self.next,
            },
        );
        self.next += 1;
        Step::Done
    }

    fn respond(&mut self, number: u32, status: u32, nack: bool) -> Step
        requires { IsSound self.old }
        ensures step { Steps (state_of self.old) (Event.Respond number status nack) result (state_of self.new) }
        ensures sound { IsSound self.new }
        ensures room { self.new.ledger.room ≡ self.old.ledger.room }
    {
        if self.slots.answer(number, status, nack) {
            Step::Done
        } else {
            Step::Ignored(Cause::UnknownNumber)
        }
    }

    fn settle(&mut self, worker: u32, slot: u32) -> Step
        requires { IsSound self.old }
        ensures step { Steps (state_of self.old) (Event.Settle worker slot) result (state_of self.new) }
        ensures sound { IsSound self.new }
        ensures room { self.new.ledger.room ≡ self.old.ledger.room }
    {
        if !self.slots.is_holder(worker, slot) {
            return Step::Ignored(Cause::NotHolder);
        }
        match self.slots.mark(slot) {
            Mark::Empty => Step::Ignored(Cause::NotOpen),
            Mark::Open { .. } => Step::Ignored(Cause::NoReply),
            Mark::Replied {
                request,
                status,
                nack,
                ..
            } => {
                let (place, found) = self.ledger.waiting(request);
                let made = found.state.attempts;
                let phase = phase_after(self.ledger.attempts(), status, nack, made);
                self.ledger.advance(place, found, made, phase);
                self.slots.set_mark(slot, Mark::Empty);
                Step::Done
            }
        }
    }

    fn expire(&mut self, worker: u32, slot: u32) -> Step
        requires { IsSound self.old }
        ensures step { Steps (state_of self.old) (Event.Expire worker slot) result (state_of self.new) }
        ensures sound { IsSound self.new }
        ensures room { self.new.ledger.room ≡ self.old.ledger.room }
    {
        if !self.slots.is_holder(worker, slot) {
            return Step::Ignored(Cause::NotHolder);
        }
        match self.slots.mark(slot) {
            Mark::Open { request, .. } => {
                let (place, found) = self.ledger.waiting(request);
                self.ledger
                    .advance(place, found, found.state.attempts, Phase::Unanswered);
                self.slots.set_mark(slot, Mark::Empty);
                Step::Done
            }
            Mark::Empty | Mark::Replied { .. } => Step::Ignored(Cause::NotOpen),
        }
    }

    fn discard(&mut self, request: u32) -> Step
        requires { IsSound self.old }
        ensures step { Steps (state_of self.old) (Event.Discard request) result (state_of self.new) }
        ensures sound { IsSound self.new }
        ensures room { self.new.ledger.room ≡ self.old.ledger.room }
    {
        let Some((place, found)) = self.ledger.ready(request) else {
            return Step::Ignored(Cause::NoRequest);
        };
        let made = found.state.attempts;
        let phase = if made == 0 {
            Phase::Unsent
        } else {
            Phase::Refused
        };
        self.ledger.advance(place, found, made, phase);
        Step::Done
    }

    fn release(&mut self, worker: u32, slot: u32) -> Step
        requires { IsSound self.old }
        ensures step { Steps (state_of self.old) (Event.Release worker slot) result (state_of self.new) }
        ensures sound { IsSound self.new }
        ensures room { self.new.ledger.room ≡ self.old.ledger.room }
    {
        if !self.slots.is_holder(worker, slot) {
            return Step::Ignored(Cause::NotHolder);
        }
        if self.slots.mark(slot) != Mark::Empty {
            return Step::Ignored(Cause::SlotBusy);
        }
        self.slots.release(worker, slot);
        Step::Done
    }

    pub(crate) fn step(&mut self, event: Event) -> Result<Step, AllocError>
        requires { IsSound self.old }
        ensures step { IfOk result (λ answer. Steps (state_of self.old) event answer (state_of self.new)) }
        ensures err { OnErr result (state_of self.new ≡ state_of self.old) }
        ensures memory { OnErr result (TakesMemory event) }
        ensures sound { IsSound self.new }
        ensures room { OnOk result (self.old.ledger.room ≤ self.new.ledger.room + (if takes_memory event then 1 else 0)) }
        ensures full { OnErr result (self.old.ledger.room ≡ 0) }
    {
        match event {
            Event::TopUp { account, amount } => Ok(self.top_up(account, amount)),
            Event::Reserve {
                request,
                account,
                cost,
            } => self.reserve(request, account, cost),
            Event::Claim { worker, slot } => Ok(self.claim(worker, slot)),
            Event::Post {
                worker,
                slot,
                request,
            } => Ok(self.post(worker, slot, request)),
            Event::Respond {
                number,
                status,
                nack,
            } => Ok(self.respond(number, status, nack)),
            Event::Settle { worker, slot } => Ok(self.settle(worker, slot)),
            Event::Expire { worker, slot } => Ok(self.expire(worker, slot)),
            Event::Discard { request } => Ok(self.discard(request)),
            Event::Release { worker, slot } => Ok(self.release(worker, slot)),
        }
    }

    /// Steps through the events, where there is room for what they add.
    pub(crate) fn run(&mut self, events: &[Event], mut answers: Vec<Step>) -> Vec<Step>
        requires sound { IsSound self.old }
        requires none { answers.items ≡ [] }
        requires answers_fit { length events.now ≤ vec_capacity answers }
        requires requests_fit { count_by takes_memory events.now ≤ self.old.ledger.room }
        ensures runs { Runs (state_of self.old) events.now result.items (state_of self.new) }
        ensures sound { IsSound self.new }
    {
        for event in events {
            let answer = match self.step(*event) {
                Ok(answer) => answer,
                Err(_) => unreachable!(),
            };
            match answers.push(answer) {
                Ok(()) => {}
                Err(_) => unreachable!(),
            }
        }
        answers
    }
}
