//! Until when a connection has to stand and its bind has to be answered (SMPP 3.4 4.1).

ghost use Rattle.std.specs.Prelude.{◌≡◌, None, false, true};
ghost use Rattle.sms_devices.specs.Openings.{is_whole_frame, seen_all, seen_one};

use std::time::{Clock, Duration, Instant};

/// How many octets of a frame are its length (SMPP 3.4 3.2).
const LENGTH_OCTETS: u64 = 4;

/// The end of a wait.
#[derive(Clone, Copy, Debug)]
pub struct Deadline {
    begun: Instant,
    most: Duration,
}

impl Deadline {
    /// The time this many milliseconds from now. None if the clock can't be read.
    pub(crate) fn new<R: Clock>(rt: &R, ms: u32) -> Option<Deadline> {
        let begun = Instant::now(rt).ok()?;
        Some(Deadline {
            begun,
            most: Duration::from_millis(u64::from(ms)),
        })
    }

    /// The time that is left: nothing once it is past, or if the clock can't be read.
    pub(crate) fn left<R: Clock>(&self, rt: &R) -> Duration {
        match self.begun.elapsed(rt) {
            Ok(passed) => self.most.saturating_sub(passed),
            Err(_unread) => Duration::ZERO,
        }
    }
}

/// How much has come of a connection's first frame, which is the answer to the bind.
#[derive(Debug, Drop)]
pub struct Opening {
    /// Until when it has to be whole.
    deadline: Option<Deadline>,
    /// How many octets have come.
    seen: u64,
    /// Its command_length, as far as it has come.
    length: u64,
}

impl Opening {
    /// Nothing has come.
    pub(crate) fn new(deadline: Option<Deadline>) -> Opening
        ensures { result ≡ record { deadline = deadline; seen = 0; length = 0 } }
    {
        Opening {
            deadline,
            seen: 0,
            length: 0,
        }
    }

    /// Whether the whole frame has come.
    pub(crate) fn is_whole(&self) -> bool
        ensures { result ≡ is_whole_frame self.now }
    {
        self.seen >= LENGTH_OCTETS && self.seen >= self.length
    }

    /// Whether the frame isn't whole, and the deadline is past.
    pub(crate) fn is_late<R: Clock>(&self, rt: &R) -> bool
        ensures endless { self.now.deadline ≡ None → result ≡ false }
        ensures whole { is_whole_frame self.now ≡ true → result ≡ false }
    {
        match &self.deadline {
            Some(deadline) => !self.is_whole() && deadline.left(rt).is_zero(),
            None => false,
        }
    }

    /// Counts octets that came.
    pub(crate) fn see(&mut self, octets: &[u8])
        ensures { self.new ≡ seen_all octets.now self.old }
    {
        for octet in octets {
            self.see_one(*octet);
        }
    }

    /// Counts one octet that came.
    fn see_one(&mut self, octet: u8)
        ensures { self.new ≡ seen_one self.old octet }
    {
        if self.seen < LENGTH_OCTETS {
            self.length = self
                .length
                .saturating_mul(256)
                .saturating_add(u64::from(octet));
        }
        self.seen = self.seen.saturating_add(1);
    }
}
