//! The journal of a run: what is noted of each message and each request before it can have an
//! effect, and what a run would report if every connection had dropped just after the last note.

#![tactic(auto)]

pub mod audit;
pub mod bill;
mod decisions;
mod error;
pub mod further;
pub mod laws;
mod notes;
pub mod of_ledger;
pub mod plain;
pub mod recovery;
pub mod rest;
mod text;

pub use audit::{AuditFault, run_audit};
pub use bill::{Columns, Listing, last_reply, run_listing, write_told};
pub use decisions::{DecisionFault, decisions_in};
pub use error::JournalError;
pub use notes::{
    Note, RequestId, RunSize, check_notes, check_rounds, recover, recover_rounds, recovered_rows,
};
pub use plain::{Heading, plain_of};
pub use recovery::{JournaledRun, Recovered, RecoveryFault, read_run, run_recover};
pub use rest::{run_rest, run_rest_accounts};
pub use text::{
    ConfigTie, Digests, FileTies, JournalKind, JournalNotes, ReportKeys, RunFile, digests_of,
    keys_of, read_notes, write_header, write_note,
};
