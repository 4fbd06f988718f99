//! The first line of a journal, for the tests.

use sms_journal::{Digests, JournalKind, write_header};
use std::alloc::{AllocError, Global};

/// The header of a journal of this kind, of files with these digests.
pub fn head_of(alloc: Global, kind: JournalKind, digests: &Digests) -> Result<String, AllocError> {
    let mut text = String::new(alloc);
    match write_header(&mut text, kind, digests) {
        Ok(()) => Ok(text),
        Err(_refused) => Err(AllocError),
    }
}
