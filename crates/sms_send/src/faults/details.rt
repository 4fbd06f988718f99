//! The detail lines of a fault: why it arose, what was expected in place of what was found, and what to do next.
//! `lines` has the table of all faults. The texts are written from the types of the crates in which a fault arises.

pub mod arguments;
pub mod bind;
pub mod file;
pub mod files_read;
pub mod journal;
pub mod key;
pub mod ledger;
pub mod lines;
pub mod mode;
pub mod record;
pub mod short;
pub mod shown;
pub mod status;
pub mod unsent;
