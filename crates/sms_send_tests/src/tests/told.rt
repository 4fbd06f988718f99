//! What is reported of a fault, for the tests.

use sms_send::Fault;
use std::alloc::{AllocError, Global};
use std::test::Fail;

/// The fault's text. Lack of memory is the test's own.
pub fn told_of(alloc: Global, fault: Fault) -> Result<String, Fail> {
    match fault {
        Fault::OutOfMemory | Fault::Unreported(_) => Err(Fail::from(AllocError)),
        fault => Ok(fault.to_string(alloc)?),
    }
}
