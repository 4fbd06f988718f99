//! One bind: its wire, how its session is bound, and the reader of what comes in on it (SMPP 3.4
//! chapter 2, 4.1).

#![tactic(auto)]

mod binding;
mod bound;
mod context;
mod counts;
mod device;
mod down;
mod ending;
mod follower;
mod line;
mod log;
mod logged;
mod outcome;
mod reader;
mod reader_state;
mod reads;
mod replying;
mod stream;
mod turns;
mod wire;
mod writing;

pub use binding::{BindFault, bind};
pub use bound::Bound;
pub use context::ReaderContext;
pub use device::{Keeping, Kept, Look, ReaderDevice, Unkept};
pub use down::{Down, DownBefore, DownCause, DownMark, ReaderLeave};
pub use ending::{ReaderCause, ReaderEnd};
pub use line::{Line, StopSeen};
pub use log::{BlankLog, LogKeeper, LogName, Requests, SettledLog};
pub use logged::LoggedWire;
pub use reader::{EnquiryNumber, ReaderBegin, read_loop, read_loop_with};
pub use reads::{Plain, ReadsBind};
pub use sms_session::Settings;
pub use stream::Arrived;
pub use wire::{Receipt, Wire, WireFault};
