//! The events of the model, what each is answered, and the causes for which one is ignored.

/// What may happen to accounts, requests, slots and numbers. Each value of each field has a
/// meaning.
#[derive(Clone, Copy, Debug, PartialEq, Eq)]
pub enum Event {
    /// An account gets credits.
    TopUp {
        account: u32,
        amount: u64,
    },
    /// A request sets credits of its account aside.
    Reserve {
        request: u32,
        account: u32,
        cost: u32,
    },
    /// A worker takes a slot.
    Claim {
        worker: u32,
        slot: u32,
    },
    /// A worker sends a request through a slot, with the next sequence number.
    Post {
        worker: u32,
        slot: u32,
        request: u32,
    },
    /// An answer with this sequence number comes in: a submit_sm_resp, or a generic_nack where
    /// `nack` is set.
    Respond {
        number: u32,
        status: u32,
        nack: bool,
    },
    /// A worker takes the answer of its slot, and the request is charged, tried again or refused.
    Settle {
        worker: u32,
        slot: u32,
    },
    /// A worker no longer waits for the answer of its slot.
    Expire {
        worker: u32,
        slot: u32,
    },
    /// A request that is not sent (again) gives its credits back.
    Discard {
        request: u32,
    },
    /// A worker gives a slot back.
    Release {
        worker: u32,
        slot: u32,
    },
}

/// What became of an event.
#[derive(Clone, Copy, Debug, PartialEq, Eq)]
pub enum Step {
    /// It had its effect.
    Done,
    /// It changed nothing, for this cause.
    Ignored(Cause),
}

/// Why an event was ignored.
#[derive(Clone, Copy, Debug, PartialEq, Eq)]
pub enum Cause {
    /// There is no such account.
    NoAccount,
    /// The account has fewer free credits than the request costs.
    NoCredit,
    /// The slot is held, or lies beyond the window.
    SlotHeld,
    /// The worker does not hold the slot.
    NotHolder,
    /// The slot waits for an answer or has one.
    SlotBusy,
    /// There is no such request, or it is not ready to be sent.
    NoRequest,
    /// The slot has no request that waits.
    NotOpen,
    /// No open slot has the sequence number.
    UnknownNumber,
    /// Every sequence number has been drawn.
    NumbersUsedUp,
    /// The account's top-ups would exceed their limit.
    AmountTooLarge,
    /// The request is known already.
    RequestKnown,
    /// The cost is out of range.
    BadCost,
    /// The slot's request has no answer yet.
    NoReply,
}
