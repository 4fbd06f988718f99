//! The report and the statement of a run that was cut off, from its journal. They are formed whole before
//! the first octet is written.

mod fault;
mod files;
mod journaled;
pub mod laws;
mod reading;
mod recovering;
mod resuming;

pub use fault::RecoveryFault;
pub(crate) use files::input_of;
pub use recovering::{Recovered, run_recover};
pub use resuming::{JournaledRun, read_run};
