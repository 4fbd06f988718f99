//! Where the connections of a run's rounds come from: each round has a dial of its own.

use sms_devices::{Connects, LoopDial, TcpDial};
use sms_driver::Dial;
use std::fs::OpenFile;
use std::io::Write;
use std::time::Clock;

/// A dial that makes those of further rounds, to the same centre.
pub trait RoundDial: Dial + Drop {
    ghost use Rattle.std.specs.Prelude.{◌≡◌, ℕ};

    // What dials for the round with this number.
    ghost of_round: { Self → ℕ → Self };

    /// Dials for the round with this number. The first of a run is 1.
    fn in_round(&self, round: u64) -> Self
        ensures { result ≡ of_round self.now round };
}

impl<
    'r,
    'j,
    R: Connects + Clock + Sync,
    F: Write + OpenFile + Send + Drop,
    I: Write + OpenFile + Send + Drop,
> RoundDial for TcpDial<'r, 'j, R, F, I> {
    ghost of_round = { λ d n. record d { round = n } };

    fn in_round(&self, round: u64) -> TcpDial<'r, 'j, R, F, I> {
        TcpDial {
            rt: self.rt,
            alloc: self.alloc,
            outboxes: self.outboxes,
            round,
            connect_ms: self.connect_ms,
            host: self.host,
            port: self.port,
            lines: self.lines.another(),
        }
    }
}

impl<
    'r,
    'j,
    R: Connects + Clock + Sync,
    F: Write + OpenFile + Send + Drop,
    I: Write + OpenFile + Send + Drop,
> RoundDial for LoopDial<'r, 'j, R, F, I> {
    ghost of_round = { λ d n. record d { round = n } };

    fn in_round(&self, round: u64) -> LoopDial<'r, 'j, R, F, I> {
        LoopDial {
            rt: self.rt,
            alloc: self.alloc,
            outboxes: self.outboxes,
            round,
            connect_ms: self.connect_ms,
            listener: self.listener,
            bind_status: self.bind_status,
            answers: self.answers,
            lines: self.lines.another(),
        }
    }
}
