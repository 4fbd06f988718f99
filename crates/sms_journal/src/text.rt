//! The text of a journal: a header with the digests of the run's files, and a line for each note.

mod digests;
mod header;
mod header_fields;
mod note_fields;
mod note_line;
mod reader;

pub use digests::{FileTies, RunFile, digests_of, keys_of};
pub(crate) use header::write_hex;
pub use header::{ConfigTie, Digests, JournalKind, ReportKeys, write_header};
pub(crate) use header_fields::behind;
pub(crate) use note_fields::{cut, time_in, u64_in};
pub use note_line::write_note;
pub use reader::{JournalNotes, read_notes};
pub(crate) use reader::{LinesRead, feed_at, notes_of, read_ahead, read_line};
