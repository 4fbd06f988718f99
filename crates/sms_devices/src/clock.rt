//! The clock of a run.

ghost use Rattle.std.specs.Prelude.{◌≡◌, None};

mod steady;

use crate::clock::steady::Steady;
use sms_worker::Clock;
use std::sync::atomic::{AtomicU64, Ordering};
use std::sync::{Mutex, Wait};
use std::time;
use std::time::Instant;

/// Shows how many milliseconds have passed since it was made, except while the process was stopped (`Steady`). The
/// outboxes have it, since the readers of their connections read it at least every 100 ms.
#[derive(Drop)]
pub struct Ticks<'r, R> {
    rt: &'r R,
    // None if the system's clock can't be read: then no time passes.
    start: Option<Instant>,
    steady: Mutex<Steady>,
    /// The last reading of the system's clock, and what this clock showed then. Most readings need no more.
    seen_ms: AtomicU64,
    shown_ms: AtomicU64,
}

impl<'r, R: Wait + time::Clock> Ticks<'r, R> {
    /// A clock that begins at 0.
    pub(crate) fn new(rt: &'r R) -> Ticks<'r, R> {
        Ticks {
            rt,
            start: Instant::now(rt).ok(),
            steady: Mutex::new(Steady::new()),
            seen_ms: AtomicU64::new(0),
            shown_ms: AtomicU64::new(0),
        }
    }

    /// The milliseconds since the start by the system's clock, if it can be read.
    fn at_ms(&self) -> Option<u64>
        ensures stopped { self.now.start ≡ None → result ≡ None }
    {
        match self.start {
            Some(start) => match start.elapsed(self.rt) {
                Ok(passed) => Some(u64::try_from(passed.as_millis()).unwrap_or(u64::MAX)),
                Err(_unread) => None,
            },
            None => None,
        }
    }

    /// What the clock shows at this time.
    fn read(&self, at_ms: u64) -> u64 {
        if self.seen_ms.load(Ordering::SeqCst) == at_ms {
            return self.shown_ms.load(Ordering::SeqCst);
        }
        let mut steady = self.steady.lock(self.rt);
        let shown = steady.read(at_ms);
        self.shown_ms.store(shown, Ordering::SeqCst);
        self.seen_ms.store(at_ms, Ordering::SeqCst);
        shown
    }

    /// Says that the process has run since the last reading, however long that is ago.
    pub(crate) fn go_on(&self) {
        if let Some(at_ms) = self.at_ms() {
            self.steady.lock(self.rt).pass(at_ms);
        }
    }
}

impl<'r, R: Wait + time::Clock> Clock for Ticks<'r, R> {
    fn now_ms(&self) -> u64
        ensures stopped { self.now.start ≡ None → result ≡ 0 }
    {
        match self.at_ms() {
            Some(at_ms) => self.read(at_ms),
            None => 0,
        }
    }
}
