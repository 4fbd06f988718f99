//! Times that were read from the clock of a run.

ghost use Rattle.std.specs.Prelude.{◌≡◌};

use sms_worker::Clock;

/// A time that was read from the clock of a run. Only a look at the clock gives one.
#[derive(Clone, Copy, Debug, PartialEq, Eq)]
pub struct Timestamp {
    at_ms: u64,
}

impl Timestamp {
    /// The time now.
    pub fn of<K: Clock>(clock: &K) -> Timestamp {
        Timestamp {
            at_ms: clock.now_ms(),
        }
    }

    /// The milliseconds of it.
    pub fn ms(self) -> u64
        ensures { result ≡ self.at_ms }
    {
        self.at_ms
    }
}
