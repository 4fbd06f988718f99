//! What faults say.

use super::same::same;
use sms_book::BookError;
use sms_driver::{BindFailure, SendFault};
use std::test::Fail;

// A fault, and its words.
const WORDS: [(SendFault, &str); 4] = [
    (
        SendFault::BindFailed(1, BindFailure::NoConnection),
        "bind 1 failed: there was no connection",
    ),
    (
        SendFault::BindFailed(0, BindFailure::Closed),
        "bind 0 failed: the connection ended before an answer",
    ),
    (SendFault::ThreadRefused, "a thread could not be started"),
    (
        SendFault::BookRefused(BookError::Duplicate {
            first: 0,
            second: 2,
        }),
        "no book was opened: accounts 0 and 2 have the same name",
    ),
];

#[test]
fn a_fault_says_what_happened(rt: HostRuntime) -> Result<(), Fail> {
    for (fault, words) in &WORDS {
        let told = format!(in rt.alloc(); "{fault}")?;
        same(&rt, told.as_str(), *words);
    }
    Ok(())
}
