//! The sender over all binds. Messages are dealt out to workers, each in a thread of its own; their
//! ends come back in order, with the statement of one book.
//!
//! `drive_all` dials and binds each bind, seats its workers and its reader, runs them, unbinds, and
//! closes the windows. A `Dial` supplies the connections.
//!
//! `binding` makes the binds, `threads` starts and joins the threads, and `ending` unbinds, closes the
//! windows and makes the result. `run` calls them in this order.

#![tactic(auto)]

mod bind_end;
mod binding;
mod dealing;
mod driver;
mod ending;
mod fault;
mod run;
mod settings;
mod start;
mod start_gate;
mod threads;

pub use bind_end::{BindClosing, BindEnd, DownBy, ReaderOutcome};
pub use binding::binds::{BindParts, Binds, DriverSeat, SharedBind, WorkerSeat};
pub use binding::following::Following;
pub use binding::{BindSettings, Dial};
pub use dealing::{deal, merged};
pub use driver::drive_all;
pub use ending::Sending;
pub use ending::skipped::{AllDrawn, NoFrame, NoneDrawn, SkipReason, WasDown, WireBroken};
pub use ending::unbind::{UnboundBehind, roll_back_if_failed, unbind_all, unbind_and_wait};
pub use ending::unbind_result::UnbindResult;
pub use fault::{BindFailure, SendFault};
pub use settings::{Devices, RunSettings};
pub use start::{Start, StartPhase};
pub use start_gate::{Command, StartGate, Trigger};
