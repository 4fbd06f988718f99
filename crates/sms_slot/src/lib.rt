//! The slots of a bind in which requests wait for their answers, and the rings that carry the answers
//! to the workers. An answer finds its request by the sequence number alone (SMPP 3.4 3.2).

#![tactic(auto)]

mod row;
mod slot;
#[cfg(test)]
mod tests;

pub use row::{Delivery, NotAnswered, SlotRow};
pub use slot::{Expired, NoAnswer, Slot, SlotDelivery, SlotError, Taken};
