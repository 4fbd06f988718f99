//! The stop sign of a run: a file beside its journal. Another process makes it, to ask that the run begin no further
//! message. No signal reaches the program.

ghost use Rattle.std.specs.Prelude.{◌≡◌, ◌++◌, None, Some, IfOk, codes, false, string_bytes};

use std::alloc::{AllocError, Global};
use std::fs;
use std::sync::atomic::{AtomicBool, AtomicU64, Ordering};

/// How many milliseconds lie between two looks for a stop sign.
pub(crate) const LOOK_MS: u64 = 200;

/// The name of the stop sign of the run whose journal has this name.
pub fn stop_sign(alloc: Global, journal: &str) -> Result<String, AllocError>
    ensures { IfOk result (λ sign. string_bytes sign ≡ journal.now ++ codes ".stop") }
{
    let mut sign = String::from_str(alloc, journal)?;
    sign.push_str(".stop")?;
    Ok(sign)
}

/// Finds stop signs.
pub trait StopSigns {
    /// Whether the stop sign of this name is there. False if that can't be found out.
    fn has_stop_sign(&self, _sign: &str) -> bool {
        false
    }
}

impl StopSigns for HostRuntime {
    fn has_stop_sign(&self, sign: &str) -> bool {
        fs::exists(self, sign).unwrap_or(false)
    }
}

/// Looks for the stop sign of a run.
#[derive(Drop)]
pub(crate) struct StopWatch {
    /// The name of the sign; None where the run can't be asked to stop.
    sign: Option<String>,
    /// When it is looked for again, by the clock of the run.
    next_ms: AtomicU64,
    /// Whether it was seen.
    is_seen: AtomicBool,
}

impl StopWatch {
    /// Looks for the sign of this name, and for none without a name.
    pub(crate) fn new(sign: Option<String>) -> StopWatch
        ensures { result.sign ≡ sign }
    {
        StopWatch {
            sign,
            next_ms: AtomicU64::new(0),
            is_seen: AtomicBool::new(false),
        }
    }

    /// Whether the sign was seen by this time of the run's clock. It is looked for once in `LOOK_MS` at the most.
    pub(crate) fn is_seen<R: StopSigns>(&self, rt: &R, now_ms: u64) -> bool
        ensures unasked { self.now.sign ≡ None → result ≡ false }
    {
        let Some(sign) = &self.sign else {
            return false;
        };
        if self.is_seen.load(Ordering::SeqCst) {
            return true;
        }
        if now_ms < self.next_ms.load(Ordering::SeqCst) {
            return false;
        }
        self.next_ms
            .store(now_ms.saturating_add(LOOK_MS), Ordering::SeqCst);
        let is_there = rt.has_stop_sign(sign.as_str());
        if is_there {
            self.is_seen.store(true, Ordering::SeqCst);
        }
        is_there
    }
}
