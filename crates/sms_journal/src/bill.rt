//! What a business bills from, and what a person has to decide: a record of each part of a run's messages, by
//! its files and its journal.

mod calendar;
mod instants;
pub mod laws;
mod lines;
mod listing;
mod moments;
mod parts;
mod printing;
mod run;

pub use instants::write_told;
pub use listing::{Columns, Listing};
pub use parts::last_reply;
pub(crate) use parts::ref_of;
pub use run::run_listing;
