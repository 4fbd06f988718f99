//! The devices that a run of the program uses.
//!
//! - `transport`: the connections of binds over TCP, and what waits to be written to them;
//! - `waking`: how workers wait for answers, and how a bind's reader wakes them;
//! - `gate`: what is asked before a request goes out: rate, journal, watchdog;
//! - `journal`: the journal's way to its file;
//! - `stay`: what is waited for behind the last message;
//! - `inbox`: what the message centre says on its way to its file, and the watch over lines that idle;
//! - `ledger`: a ledger's file, held while it is read and appended to;
//! - `terminal`: standard streams, and the progress that a person sees;
//! - `clock`: the time of a run.

#![tactic(auto)]

mod clock;
mod gate;
mod host;
mod inbox;
mod journal;
mod ledger;
mod limits;
mod places;
mod stay;
mod terminal;
mod transport;
mod waking;

pub use clock::Ticks;
pub use gate::{GateLimits, RunGate, SendGate};
pub use host::Host;
pub use inbox::{EnquireTimes, Inbox, LineDevice, LineSettings};
pub use journal::{
    Journal, JournalFailure, JournalFiles, MadeFile, Origin, StopSigns, Unmade, stop_sign, unix_ms,
};
pub use ledger::{HeldFile, LedgerFailure, LedgerFiles, LedgerKind, LedgerText, append_text};
pub use stay::Stay;
pub use terminal::{
    Notice, Notices, Pen, Progress, Screen, TakesNotices, Telling, Terminal, is_verbose, stand_ins,
};
pub use transport::{
    Connects, Deadline, Guarded, LoopDial, Opening, Outbox, OutboxWriter, Outboxes, Reason,
    RoundBind, TcpDial, Unconnected,
};
pub use waking::{Bells, Incoming, Parking, WakingReader};
