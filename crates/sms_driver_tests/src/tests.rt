//! Whole sendings over pipes in memory, each refusal before one, why each bind's reader ended, and what faults say.

mod causes;
mod driving;
mod faults;
mod same;
mod sending;
mod starting;
mod unbinding;
