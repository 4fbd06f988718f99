//! The file of a ledger, which any number of programs read and append to.
//!
//! The file's lock stands over reading, booking and appending: who opens the file takes the lock, and it ends
//! with the file. Two that append without it could write an entry that every later reader refuses.

mod appending;
mod failure;
mod files;
mod held_file;
mod kind;

pub use appending::append_text;
pub use failure::LedgerFailure;
pub use files::LedgerFiles;
pub use held_file::{HeldFile, LedgerText};
pub use kind::LedgerKind;
