//! Messages, the rules that they are sent by, the checks that admit them, and what became of them.

#![tactic(auto)]

mod address;
mod admission;
mod ends;
mod fields;
pub mod laws;
mod message;
mod names;
mod rules;
mod submit;
mod user_data;

pub use address::{AddressRef, destination, good_destination, good_source, source};
pub use admission::{cut_message, has_addresses, is_known, part_cost, part_count, reference_for};
pub use ends::{
    Attempt, Attempts, MessageEnd, MessageRefusal, MessageResult, Outcome, SegmentEnd, Segments,
};
pub use fields::Fields;
pub use message::Message;
pub use names::{outcome_name, outcome_named, refusal_name, refusal_named};
pub use rules::Rules;
pub use submit::submit_of;
pub use user_data::UserData;
