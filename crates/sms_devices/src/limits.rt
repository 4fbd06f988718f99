//! The limits that several modules need.

/// The most binds of a run. All of them together have at most `sms_book::MOST_WORKERS` workers.
pub(crate) const MOST_BINDS: usize = 4;

/// How many octets the header of a frame has, which are the fewest of a frame (SMPP 3.4 3.2).
pub(crate) const HEADER_OCTETS: u32 = 16;
