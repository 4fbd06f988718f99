//! What the reader and the workers of a bind share.

ghost use Rattle.std.specs.Prelude.{◌≡◌};

use crate::down::{DownMark, ReaderLeave};
use crate::log::LogName;
use crate::logged::LoggedWire;
use sms_slot::SlotRow;
use std::io::Write;
use std::sync::Mutex;
use std::sync::atomic::{AtomicBool, Ordering};

/// Evidence that a line was seen to be stopped. Only `Line::stopped` makes it, from a look that found `stop` set.
#[derive(Clone, Copy, Debug, PartialEq, Eq)]
pub struct StopSeen {
    _seen: (),
}

/// What the reader and the workers of a bind share. The wire behind its lock and the value of `stop` are
/// whatever was left there last, so no clause describes them; a `Down` is evidence that the line is down.
#[derive(Drop)]
pub struct Line<N: LogName, W: Write> {
    /// The requests that wait for their answers.
    pub slots: SlotRow,
    /// The wire. One frame is written each time its lock is held.
    pub wire: Mutex<LoggedWire<N, W>>,
    /// Whether the line is down (no more answers will come), and why.
    pub down: DownMark,
    /// Set to make the reader end before its next turn.
    pub stop: AtomicBool,
}

impl<N: LogName, W: Write> Line<N, W> {
    /// A line that is neither down nor stopped, and its reader's permission to mark it down.
    pub fn new(slots: SlotRow, wire: LoggedWire<N, W>) -> (Line<N, W>, ReaderLeave)
        ensures slots { result.0.slots ≡ slots }
    {
        let (down, leave) = DownMark::new();
        let line = Line {
            slots,
            wire: Mutex::new(wire),
            down,
            stop: AtomicBool::new(false),
        };
        (line, leave)
    }

    /// Evidence that the line was stopped, if it is seen to be now.
    pub fn stopped(&self) -> Option<StopSeen> {
        if self.stop.load(Ordering::SeqCst) {
            return Some(StopSeen { _seen: () });
        }
        None
    }
}
