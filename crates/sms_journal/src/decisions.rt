//! What a person decided of parts in doubt: a decisions file, and the decisions of a run that it says.

mod fault;
mod reading;
mod said;

pub use fault::DecisionFault;
pub use reading::decisions_in;
