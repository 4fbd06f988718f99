//! The world of a windowed, prepaid sender, which events change.

ghost use Rattle.std.specs.Prelude.{◌≡◌, ◌↔◌, ◌≤◌, Err, IfOk, IsErrOf, IsTrue, OnErr, OnOk, count_by, length};
ghost use Rattle.sms_core.specs.Histories.{Runs};
ghost use Rattle.sms_core.specs.State.{AreLimits, new_world, rows, holder_of, request_of};
ghost use Rattle.sms_core.specs.Steps.{Steps};
ghost use Rattle.sms_core.specs.Tables.{takes_memory, TakesMemory};

use crate::event::{Event, Step};
use crate::limits::{MOST_ACCOUNTS, MOST_ATTEMPTS, MOST_SLOTS};
use crate::request::{Request, RequestState};
use crate::row::Row;
use crate::tables::Tables;
use std::alloc::{AllocError, Global};
use std::marker::Model;

/// Why a world can't be made.
#[derive(Debug, Drop, thiserror::Error)]
pub enum CoreError {
    /// Accounts, slots or attempts are none or too many.
    #[error("accounts, slots or attempts are out of range")]
    BadLimit,
    #[error("out of memory")]
    OutOfMemory,
}

/// Accounts, requests, slots and sequence numbers, as events have left them.
#[derive(Debug, Drop)]
pub struct World {
    alloc: Global,
    tables: Tables,
}

impl Model for World {
    ghost use Rattle.sms_core.specs.State.{State};
    ghost use Rattle.sms_core.specs.Tables.{state_of, IsSound};

    ghost Value = { State };

    ghost view = { λ w. state_of w.tables };

    ghost invariant = { λ w. IsSound w.tables };
}

fn are_limits(accounts: u32, limit: u32, attempts: u32) -> bool
    ensures { IsTrue result ↔ AreLimits accounts limit attempts }
{
    1 <= accounts
        && accounts <= MOST_ACCOUNTS
        && 1 <= limit
        && limit <= MOST_SLOTS
        && 1 <= attempts
        && attempts <= MOST_ATTEMPTS
}

/// How many of the events may need memory.
fn reserves_in(events: &[Event]) -> usize
    ensures { result ≡ count_by takes_memory events.now }
{
    let mut count = 0;
    for event in events {
        if let Event::Reserve { .. } = event {
            count += 1;
        }
    }
    count
}

impl World {
    /// A world without credits, requests or held slots, whose next sequence number is 1. It has 1
    /// to 64 accounts, a window of 1 to 64 slots, and lets a request be sent 1 to 10 times.
    pub fn new(alloc: Global, accounts: u32, limit: u32, attempts: u32) -> Result<World, CoreError>
        ensures made { IfOk result (λ w. w ≡ new_world accounts limit attempts) }
        ensures limits { OnOk result (AreLimits accounts limit attempts) }
        ensures refused { IsErrOf result CoreError.BadLimit ↔ ¬ AreLimits accounts limit attempts }
        ensures memory { IsErrOf result CoreError.OutOfMemory → AreLimits accounts limit attempts }
    {
        if !are_limits(accounts, limit, attempts) {
            return Err(CoreError::BadLimit);
        }
        match Tables::new(alloc, accounts, limit, attempts) {
            Ok(tables) => Ok(World { alloc, tables }),
            Err(_) => Err(CoreError::OutOfMemory),
        }
    }

    /// Lets one event happen, and says what became of it. Only a `Reserve` takes memory.
    pub fn step(&mut self, event: Event) -> Result<Step, AllocError>
        ensures step { IfOk result (λ answer. Steps self.old event answer self.new) }
        ensures err { OnErr result (self.new ≡ self.old) }
        ensures memory { OnErr result (TakesMemory event) }
    {
        self.tables.step(event)
    }

    /// Lets the events happen in turn, and says what became of each. All memory is taken first:
    /// without it nothing happens.
    pub fn run(&mut self, events: &[Event]) -> Result<Vec<Step>, AllocError>
        ensures runs { IfOk result (λ answers. Runs self.old events.now answers.items self.new) }
        ensures err { OnErr result (self.new ≡ self.old) }
    {
        let answers = Vec::with_capacity(self.alloc, events.len())?;
        self.tables.make_room(reserves_in(events))?;
        Ok(self.tables.run(events, answers))
    }

    /// How many accounts there are.
    pub fn accounts(&self) -> usize
        ensures all { result ≡ length self.now.topped }
        ensures bound { result ≤ MOST_ACCOUNTS }
    {
        self.tables.ledger.accounts()
    }

    /// The balance of an account.
    pub fn row(&self, account: u32) -> Option<Row>
        ensures { result ≡ rows self.now account }
    {
        self.tables.ledger.row(account)
    }

    /// The worker that has a slot.
    pub fn holder(&self, slot: u32) -> Option<u32>
        ensures { result ≡ holder_of self.now slot }
    {
        self.tables.slots.holder(slot)
    }

    /// The request of this name.
    pub fn request(&self, id: u32) -> Option<RequestState>
        ensures { result ≡ request_of self.now id }
    {
        self.tables.ledger.find(id)
    }

    /// All requests in order of reservation.
    pub fn requests(&self) -> &[Request]
        ensures { result.now ≡ self.now.requests }
    {
        self.tables.ledger.requests()
    }

    /// The next sequence number.
    pub fn next(&self) -> u64
        ensures { result ≡ self.now.next }
    {
        u64::from(self.tables.next)
    }
}
