//! What a message centre says: the deliver_sm of a sending, kept in a file, a record a line, and what became of each part by them.
//!
//! Its text is CSV without quotes, append-only. A last line without its line feed was cut, and doesn't count. Each record is
//!
//! `received,TIME,BIND,SOURCE,DESTINATION,ESM_CLASS,ID,STATE,ERROR,TEXT`
//!
//! TIME is in milliseconds since 1970 UTC, and BIND counts from 0. ID, STATE and ERROR are those of a delivery receipt, by its optional
//! parameters or its text (SMPP 3.4 Appendix B), and empty in a message of somebody. Octets are spelled as in a journal.

#![tactic(auto)]

mod arrivals;
mod delivered;
mod escape;
mod fault;
mod fields;
mod file;
mod finals;
mod ids;
pub mod laws;
mod line;
mod lines;
mod parameters;
mod receipt;
mod record;
mod state;
#[cfg(test)]
mod tests;
mod words;

pub use delivered::{ChargedPart, WritesTime, delivered_text};
pub use fault::Fault;
pub use file::{InboxFile, Kept, Unkept};
pub use finals::Finals;
pub use ids::Ids;
pub use line::write_record;
pub use lines::{read_inbox, whole_len};
pub use receipt::{ErrorRef, Receipt, receipt_of};
pub use record::{Record, RecordRef, received};
pub use state::is_final;
