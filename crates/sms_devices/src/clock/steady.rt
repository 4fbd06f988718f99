//! A clock that stands still while the process is stopped.
//!
//! A process may be stopped (SIGSTOP, a machine that is suspended), and what comes in meanwhile waits in the system.
//! When it goes on, more time has passed at once than between any two readings of a process that runs. That time
//! doesn't count. The clock stands still for a little longer, so that the answers that wait are read before their
//! requests time out.

ghost use Rattle.std.specs.Prelude.{◌≡◌, ◌≤◌, ◌<◌, ◌+◌, ◌-◌, ◌^◌, ℕ};
ghost use Rattle.sms_devices.specs.Steady.{passed_to, read_at, stood_at};
ghost use Rattle.sms_devices.specs.declared.clock.steady.Steady.{Steady};

/// More milliseconds than this pass between two readings only if the process was stopped.
const STOP_MS: u64 = 1_000;

/// How many milliseconds the clock stands still once the process goes on.
const STAND_MS: u64 = 300;

/// A clock that shows the time of the system's clock without the stops of the process.
#[derive(Clone, Copy, Debug, PartialEq, Eq)]
pub struct Steady {
    /// The system's time at the last reading.
    seen_ms: u64,
    /// Until when it stands still, by the system's time.
    stands_ms: u64,
    /// What it shows.
    shown_ms: u64,
}

impl Steady {
    /// A clock at 0, at the system's time 0.
    pub(crate) fn new() -> Steady
        ensures { result ≡ record { seen_ms = 0; stands_ms = 0; shown_ms = 0 } }
    {
        Steady {
            seen_ms: 0,
            stands_ms: 0,
            shown_ms: 0,
        }
    }

    /// What it shows at this time of the system.
    pub(crate) fn read(&mut self, at_ms: u64) -> u64
        ensures read { self.new ≡ read_at self.old at_ms }
        ensures shown { result ≡ self.new.shown_ms }
    {
        if at_ms.saturating_sub(self.seen_ms) > STOP_MS {
            self.stand(at_ms);
        } else {
            self.pass(at_ms);
        }
        self.shown_ms
    }

    /// The process goes on after a stop.
    fn stand(&mut self, at_ms: u64)
        ensures { self.new ≡ stood_at self.old at_ms }
    {
        self.seen_ms = at_ms;
        self.stands_ms = at_ms.saturating_add(STAND_MS);
    }

    /// Time passes while the process runs, however long it is since the last reading.
    pub(crate) fn pass(&mut self, at_ms: u64)
        ensures { self.new ≡ passed_to self.old at_ms }
    {
        let from = self.seen_ms.max(self.stands_ms);
        let passed = at_ms.saturating_sub(from);
        self.shown_ms = self.shown_ms.saturating_add(passed);
        self.seen_ms = self.seen_ms.max(at_ms);
    }
}

/// It never goes back, and never faster than the system's clock. A stop doesn't count, nor do 300 ms after it.
pub fn the_clock_is_steady()
    ensures onward { (clock : Steady) (at : ℕ) → clock.shown_ms ≤ 2 ^ 64 - 1 → clock.shown_ms ≤ (read_at clock at).shown_ms }
    ensures slower { (clock : Steady) (at : ℕ) → (read_at clock at).shown_ms ≤ clock.shown_ms + (at - clock.seen_ms) }
    ensures stops { (clock : Steady) (at later : ℕ) → clock.shown_ms ≤ 2 ^ 64 - 1 → clock.seen_ms + 1000 < at → later ≤ at + 300 → later ≤ 2 ^ 64 - 1 → (read_at (read_at clock at) later).shown_ms ≡ clock.shown_ms }
{}
