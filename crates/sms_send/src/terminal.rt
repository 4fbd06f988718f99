//! What is written to standard error.

pub mod standard_error;
pub mod written;
