//! Receipts of several centres, inboxes read from octets, and what became of parts.

mod delivering;
mod finals;
mod keeping;
mod reading;
mod receipts;

use crate::{Record, read_inbox};
use std::alloc::Global;
use std::fmt::Debug;
use std::process::Abort;

/// Whether both are the same. What differs stands in the message.
fn same<T: PartialEq + Debug + Drop>(rt: &impl Abort, one: T, other: T) {
    assert_eq!(rt; one, other);
}

/// The records of these octets.
fn records_of(rt: &impl Abort, alloc: Global, text: &[u8]) -> Vec<Record> {
    let Ok(records) = read_inbox(alloc, text) else {
        panic!(rt; "the octets are no inbox");
    };
    records
}
