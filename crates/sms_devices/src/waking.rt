//! How workers wait for answers, and how the reader of a bind wakes them.

mod bell;
mod headers;
mod incoming;
mod owners;
mod parking;
mod wakes;
mod waking_reader;

pub use bell::Bells;
pub use incoming::Incoming;
pub use parking::Parking;
pub use waking_reader::WakingReader;
