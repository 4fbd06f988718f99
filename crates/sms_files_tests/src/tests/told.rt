//! What is told of a fault, for the tests.

use sms_files::InputFault;
use std::alloc::{AllocError, Global};
use std::test::Fail;

/// The fault's text. Lack of memory is the test's own.
pub fn told_of(alloc: Global, fault: InputFault) -> Result<String, Fail> {
    match fault {
        InputFault::OutOfMemory(_) => Err(Fail::from(AllocError)),
        fault => Ok(fault.to_string(alloc)?),
    }
}
