//! How many requests went out on a bind since the last answer.

ghost use Rattle.std.specs.Prelude.{◌≡◌, ◌≤◌, ◌<◌, ◌+◌, ◌-◌, ◌&&◌, nat_le};

/// When a bind is given up.
#[derive(Clone, Copy, Debug, PartialEq, Eq)]
pub struct SilenceLimit {
    /// After how many requests without an answer.
    pub most: u32,
    /// How many milliseconds an answer is waited for.
    pub answer_ms: u32,
}

/// The requests of a bind since the last answer, counted up to a limit.
#[derive(Clone, Copy, Debug, PartialEq, Eq)]
pub struct Silence {
    /// How many requests went out.
    sent: u32,
    /// When the last of these did.
    sent_ms: u64,
}

impl Silence {
    /// Nothing went out.
    pub fn new() -> Silence
        ensures { result ≡ record { sent = 0; sent_ms = 0 } }
    {
        Silence {
            sent: 0,
            sent_ms: 0,
        }
    }

    /// A request goes out at this time. Those beyond the limit aren't counted.
    pub fn send(&mut self, limit: SilenceLimit, now_ms: u64)
        ensures counted { self.old.sent < limit.most → self.new ≡ record { sent = self.old.sent + 1; sent_ms = now_ms } }
        ensures at_most { limit.most ≤ self.old.sent → self.new ≡ self.old }
    {
        if self.sent < limit.most {
            self.sent += 1;
            self.sent_ms = now_ms;
        }
    }

    /// An answer came: the count starts anew.
    pub fn answer(&mut self)
        ensures { self.new ≡ record { sent = 0; sent_ms = self.old.sent_ms } }
    {
        self.sent = 0;
    }

    /// Whether as many requests as the limit went out without an answer, and the last of them was waited for.
    pub fn is_too_long(&self, limit: SilenceLimit, now_ms: u64) -> bool
        ensures { result ≡ (nat_le limit.most self.now.sent && nat_le limit.answer_ms (now_ms - self.now.sent_ms)) }
    {
        self.sent >= limit.most && now_ms.saturating_sub(self.sent_ms) >= u64::from(limit.answer_ms)
    }
}
