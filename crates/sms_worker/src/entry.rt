//! How a worker is made ready and run.

pub mod context;
pub mod ready;
pub mod work;
