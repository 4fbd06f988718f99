//! The result of an unbind.

use crate::ending::skipped::SkipReason;
use sms_bind::Receipt;

/// The result of a bind's unbind (SMPP 3.4 4.2.1).
#[derive(Drop)]
pub enum UnbindResult {
    /// It was not tried yet.
    Idle,
    /// The unbind was written whole.
    Sent(Receipt),
    /// Its write failed; some of its first octets may have been written.
    Failed(Receipt),
    /// No unbind was written.
    Skipped(SkipReason),
}
