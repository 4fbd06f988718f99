//! What a worker has while it runs.

pub mod closing;
pub mod open;
pub mod pending;
pub mod places;
pub mod queue;
pub mod reasons;
pub mod segment;
pub mod stop;
pub mod tally;
pub mod worker_start;
pub mod worker_state;
