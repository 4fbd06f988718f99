//! The outcome of a frame that came in.

ghost use Rattle.std.specs.Prelude.{◌≡◌, ◌≢◌, Some};
ghost use Rattle.sms_bind.specs.Deeds.{cause_after};
ghost use Rattle.sms_bind.specs.declared.ending.ReaderCause.TheVariants.{OutOfMemory};

use crate::ending::ReaderCause;
use crate::wire::Receipt;
use crate::writing::{NoMemory, WireBroken};
use sms_pdu::Reply;
use sms_session::{Response, State};
use sms_slot::Delivery;

/// Whether a response was written.
#[derive(Drop)]
pub(crate) enum Written {
    /// The wire took it whole.
    Sent(Receipt),
    /// Out of memory: it could not be encoded.
    NoMemory(NoMemory),
    /// The wire was broken, or broke while it was written.
    Broken(WireBroken),
}

/// The outcome of one frame.
#[derive(Drop)]
pub(crate) enum FrameOutcome {
    /// It is an answer; `delivery` says whether a slot waited for it and its ring took it.
    Answer {
        reply: Reply,
        delivery: Delivery,
    },
    /// It is a request, and this is its response.
    Replied {
        response: Response,
        written: Written,
    },
    /// It was counted; the table asks for nothing else.
    Noted,
    /// It closed the session.
    Closed,
}

/// Why the reader ends after this outcome, if it does: the wire is broken, or the session is closed.
pub(crate) fn cause_of(outcome: &FrameOutcome, state: State) -> Option<ReaderCause>
    ensures after { result ≡ cause_after outcome.now state }
    ensures not_out_of_memory { result ≢ Some OutOfMemory }
{
    if let FrameOutcome::Replied {
        response: _,
        written: Written::Broken(_),
    } = *outcome
    {
        return Some(ReaderCause::WriteFault);
    }
    match state {
        State::Closed => Some(ReaderCause::Unbound),
        State::BoundTx | State::BoundTrx => None,
    }
}
