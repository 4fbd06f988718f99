//! A sending as a run of the model: the schedule by which the model's requests become the parts that were sent, printed
//! for `replay`.

mod fault;
pub mod laws;
mod lines;
mod part;
mod run;
mod schedule;
mod told;

pub use fault::AuditFault;
pub use part::{Answer, Answers, SentPart};
pub use run::run_audit;
