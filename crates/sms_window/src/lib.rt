//! The window of a bind: 64 slots in one shared word and the next sequence number in another, which
//! threads step on without a lock. A thread steps through a seat of its own.

#![tactic(auto)]

pub mod error;
pub mod laws;
pub mod outcome;
pub mod rule;
pub mod seat;
#[cfg(test)]
mod tests;
pub mod view;
pub mod window;

pub use error::WindowError;
pub use outcome::{Claim, Closed, Draw};
pub use seat::WindowSeat;
pub use window::Window;
