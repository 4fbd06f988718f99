//! The text of a fault, for the tests.

use sms_journal::RecoveryFault;
use std::alloc::{AllocError, Global};
use std::test::Fail;

/// The text of a fault. Where memory is refused, the test itself fails.
pub fn fault_text(alloc: Global, fault: RecoveryFault) -> Result<String, Fail> {
    match fault {
        RecoveryFault::OutOfMemory(_) => Err(Fail::from(AllocError)),
        RecoveryFault::Input(fault) => Ok(fault.to_string(alloc)?),
        fault => Ok(fault.to_string(alloc)?),
    }
}
