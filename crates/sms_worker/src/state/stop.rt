//! Whether a worker may begin messages: the gate's permission, and its refusal.

ghost use Rattle.std.specs.Prelude.{◌≡◌, ◌↔◌, ℕ, IfErr, IfOk, IfSome, IsTrue, None, Some, false, slice_get};
ghost use Rattle.sms_worker.specs.Closing.{IsRefusedOf};

use crate::devices::Gate;
use crate::state::worker_start::WorkerStart;
use sms_message::Message;
use std::marker::{Model, PhantomData};

/// Evidence that the gate let the message with this index begin.
#[derive(Clone, Copy, Debug, PartialEq, Eq)]
pub struct MayBegin {
    message: u64,
}

/// Evidence that the gate lets no further message begin: it refused the one with this index.
#[derive(Clone, Copy, Debug, PartialEq, Eq)]
pub struct NotBegun {
    message: u64,
}

/// Asks the gate whether the message with this index may be begun.
fn may_begin<G: Gate>(gate: &G, worker: usize, message: u64) -> Result<MayBegin, NotBegun>
    ensures may { IfOk result (λ may. may.message ≡ message) }
    ensures refused { IfErr result (λ no. no.message ≡ message) }
{
    if gate.may_begin(worker, message) {
        return Ok(MayBegin { message });
    }
    Err(NotBegun { message })
}

/// Whether the gate lets a worker begin no further message. It stays so for the first refusal. Contracts see
/// whether it is.
#[derive(Drop)]
pub struct Stop<C: WorkerStart> {
    by: Option<NotBegun>,
    of: PhantomData<C>,
}

impl<C: WorkerStart> Model for Stop<C> {
    ghost use Rattle.std.specs.Prelude.{Bool, is_some};
    ghost use Rattle.sms_worker.specs.Closing.{IsRefusedOf};

    ghost Value = { Bool };

    ghost view = { λ s. is_some s.by };

    ghost invariant = { λ s. IsRefusedOf C.start.messages s.by };
}

impl<C: WorkerStart> Stop<C> {
    /// The gate wasn't asked yet.
    pub fn not_yet() -> Stop<C>
        ensures { result ≡ false }
    {
        Stop {
            by: None,
            of: PhantomData,
        }
    }

    /// Asks the gate for its permission to begin the message, unless it refused one before.
    pub fn ask<G: Gate>(&mut self, gate: &G, worker: usize, message: &Message) -> Option<MayBegin>
        requires given { (k : ℕ) × (slice_get C.start.messages k ≡ Some message.now) }
        ensures may { IfSome result (λ may. may.message ≡ message.now.index) }
        ensures none { result ≡ None → IsTrue self.new }
        ensures some { IsTrue self.new → result ≡ None }
        ensures stays { IsTrue self.old → IsTrue self.new }
    {
        if self.by.is_some() {
            return None;
        }
        match may_begin(gate, worker, message.index) {
            Ok(may) => Some(may),
            Err(no) => {
                self.by = Some(no);
                None
            }
        }
    }

    /// The refusal, if there was one.
    pub fn into_refusal(self) -> Option<NotBegun>
        ensures none { result ≡ None → self ≡ false }
        ensures of { IsRefusedOf C.start.messages result }
    {
        let Stop { by, of: _ } = self;
        by
    }
}
