//! How a worker works.

ghost use Rattle.std.specs.Prelude.{◌≤◌};
ghost use Rattle.sms_core.specs.Limits.{most_slots};
ghost use Rattle.sms_message.specs.Limits.{most_turns};

use crate::fields::Fields;
use sms_book::Tariff;
use sms_session::Policy;

/// The rules that all workers of a run share.
#[derive(Drop)]
pub struct Rules {
    pub policy: Policy,
    /// How many requests a worker may have open at once, 1 to 64: a window has no more slots.
    pub depth: u32,
    /// How many milliseconds a request waits for its answer.
    pub answer_ms: u32,
    /// How many turns a worker takes, at most 2^40.
    pub turns: u64,
    /// Whether a delivery receipt is asked for.
    pub receipts: bool,
    /// What a segment costs, by its destination.
    pub tariff: Tariff,
    /// Whether the references of concatenated messages have 16 bits.
    pub long_reference: bool,
    /// What else the submit_sm of a segment says.
    pub fields: Fields,
    pub ghost bounded: { turns ≤ most_turns },
    pub ghost some_open: { 1 ≤ depth },
    pub ghost few_open: { depth ≤ most_slots },
}
