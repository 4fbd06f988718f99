//! One worker of a bind: it cuts its messages into segments, reserves their credits, sends them
//! through slots of the window, and settles each by its answer.

#![tactic(auto)]

mod devices;
mod ends;
mod entry;
pub mod laws;
mod state;
mod steps;

pub use devices::{Clock, Gate, Pause};
pub use ends::{Attempt, Attempts, MessageEnd, MessageResult, SegmentEnd, Segments};
pub use entry::context::RunContext;
pub use entry::ready::ReadyWorker;
pub use entry::work::{Worker, WorkerEnd, run_worker};
pub use sms_message::{Fields, Message, MessageRefusal, Outcome, Rules};
pub use state::closing::ClosedBy;
pub use state::reasons::{Reasons, Unlisted, UnsentPart, UnsentReason};
pub use state::stop::NotBegun;
pub use steps::attempt::{Number, draw};
pub use steps::call_end::NothingLeft;
pub use steps::give_up::{
    GiveUpReason, NoMemory, NotHanded, NotPassed, NothingKept, SlotBusy, WireBroken,
};
pub use steps::parts::NoMessageMemory;
pub use steps::retry_later::AllDrawn;
pub use steps::turn::TurnsTaken;
