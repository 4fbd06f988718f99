//! The pauses of workers and of the driver, which a bell ends early.

ghost use Rattle.std.specs.Prelude.{◌≡◌, ◌≤◌, ◌↔◌, IsTrue};
ghost use Rattle.sms_devices.specs.Rests.{rest_ms};

use crate::transport::Outboxes;
use sms_worker::Pause;
use std::fs::OpenFile;
use std::io;
use std::io::Write;
use std::sync::Wait;
use std::time::{Clock, Instant};

/// How many milliseconds a worker waits at most. The progress that a person sees is renewed meanwhile.
const MOST_REST_MS: u64 = 100;

/// From how many microseconds on a wait is long: then the answers come in bursts, or seldom.
const LONG_REST_US: u128 = 1_000;

/// How long a worker waits that asked for `ms`, and has nothing to do by the clock for `most`.
fn rest_ms(ms: u32, most: u64, rings_for_all: bool) -> u64
    ensures { result ≡ rest_ms ms most rings_for_all }
{
    let least = u64::from(ms);
    if rings_for_all {
        most.min(MOST_REST_MS).max(least)
    } else {
        least
    }
}

/// Whether a wait of this many microseconds was long.
fn is_long(us: u128) -> bool
    ensures { IsTrue result ↔ (1000 ≤ us) }
{
    us >= LONG_REST_US
}

/// Whether a wait that began then was long. It wasn't if the clock can't be read.
fn was_long<R: Clock>(rt: &R, begun: &io::Result<Instant>) -> bool {
    let Ok(begun) = begun else {
        return false;
    };
    match begun.elapsed(rt) {
        Ok(passed) => is_long(passed.as_micros()),
        Err(_unread) => false,
    }
}

/// A pause that a bell ends early. Before a thread waits, it writes what waits in the outboxes.
#[derive(Drop)]
pub struct Parking<'r, 'j, R: Wait, F: Write + OpenFile> {
    pub rt: &'j R,
    pub outboxes: &'r Outboxes<'j, R, F>,
}

impl<'r, 'j, R: Wait + Clock, F: Write + OpenFile> Pause for Parking<'r, 'j, R, F> {
    /// The driver's pause.
    fn pause(&self, ms: u32) {
        self.outboxes.flush();
        let bells = self.outboxes.bells();
        bells.wait_as_driver(self.rt, u64::from(ms));
    }

    fn wait(&self, worker: usize, ms: u32, most: u64) {
        let bells = self.outboxes.bells();
        let bind = bells.bind_of(worker);
        self.outboxes.flush_bind(bind);
        let ms = rest_ms(ms, most, bells.rings_for_all(bind));
        let begun = Instant::now(self.rt);
        bells.wait(self.rt, worker, ms);
        self.outboxes.begin(bind, was_long(self.rt, &begun));
    }
}
