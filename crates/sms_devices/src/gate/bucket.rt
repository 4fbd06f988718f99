//! A bucket that limits the requests of a bind in any second.
//!
//! The bucket fills at a steady rate, up to its depth. What comes in a second, and what may be there at its start,
//! are together no more than the limit. A request gets a permit before it is sent, and takes its share of the level
//! when it is sent: a permit that is used late lets no more requests through.

ghost use Rattle.std.specs.Prelude.{◌≡◌, ◌≤◌, ◌<◌, ◌+◌, ℕ, List};
ghost use Rattle.sms_devices.specs.Buckets.{Asked, after_all, can_lend, full, given_back, lent_at, level_at, rate_for, room_for, sends, sent_at};
ghost use Rattle.sms_devices.specs.declared.gate.bucket.Bucket.{Bucket};

/// What a request takes from the level. A rate of one adds one each millisecond.
const REQUEST: u64 = 1_010;

/// How many requests may go out at once after a pause, if at most `most` may in a second: those of a fiftieth of a
/// second, but at least one.
fn room_for(most: u32) -> u32
    ensures { result ≡ room_for most }
{
    (most / 50).max(1)
}

/// How fast a bind may send.
#[derive(Clone, Copy, Debug, PartialEq, Eq)]
pub struct Rate {
    /// How many requests come in 1,010 ms.
    rate: u32,
    /// How many requests may be saved up.
    depth: u32,
}

impl Rate {
    /// The rate of at most `most` requests in a second.
    pub fn new(most: u32) -> Rate
        ensures { result ≡ rate_for most }
    {
        let depth = room_for(most);
        Rate {
            rate: most.saturating_sub(depth).saturating_add(1),
            depth,
        }
    }
}

/// What has come at a steady rate and isn't used yet. What exceeds the rate's depth is lost.
#[derive(Clone, Copy, Debug, PartialEq, Eq)]
pub struct Bucket {
    /// What is saved up, in 1,010ths of a request.
    level: u64,
    /// The time of that level, in milliseconds.
    at_ms: u64,
    /// How many permits are given out and not used yet.
    lent: u64,
}

impl Bucket {
    /// A full bucket of this rate.
    pub fn full(rate: Rate, now_ms: u64) -> Bucket
        ensures { result ≡ full rate now_ms }
    {
        Bucket {
            level: u64::from(rate.depth) * REQUEST,
            at_ms: now_ms,
            lent: 0,
        }
    }

    /// The level at this time. If the clock goes back it stands still.
    fn level_at(&self, rate: Rate, now_ms: u64) -> u64
        ensures { result ≡ level_at rate self.now now_ms }
    {
        let passed = now_ms.saturating_sub(self.at_ms);
        let come = passed.saturating_mul(u64::from(rate.rate));
        let most = u64::from(rate.depth) * REQUEST;
        self.level.saturating_add(come).min(most)
    }

    /// Gives a permit for a request. False if the level isn't high enough yet.
    pub fn lend(&mut self, rate: Rate, now_ms: u64) -> bool
        ensures granted { result ≡ can_lend rate self.old now_ms }
        ensures lent { self.new ≡ lent_at rate self.old now_ms }
    {
        let level = self.level_at(rate, now_ms);
        if self.lent >= level / REQUEST {
            return false;
        }
        self.level = level;
        self.at_ms = self.at_ms.max(now_ms);
        self.lent += 1;
        true
    }

    /// A request with a permit is sent.
    pub fn send(&mut self, rate: Rate, now_ms: u64)
        ensures { self.new ≡ sent_at rate self.old now_ms }
    {
        self.level = self.level_at(rate, now_ms).saturating_sub(REQUEST);
        self.at_ms = self.at_ms.max(now_ms);
        self.lent = self.lent.saturating_sub(1);
    }

    /// A permit comes back unused.
    pub fn take_back(&mut self)
        ensures { self.new ≡ given_back self.old }
    {
        self.lent = self.lent.saturating_sub(1);
    }
}

/// Whatever is asked of a bucket for `most` requests in a second, and when: from any request on that is sent, no more
/// than `most` are sent, itself included, until more than 1,009 ms have passed.
pub fn no_more_go_in_any_second()
    ensures { (most begun now : ℕ) → 1 ≤ most → (before later : List Asked) → let r = rate_for most in (b : Bucket) → b ≡ after_all r before (full r begun) → 0 < b.lent → (after_all r later (sent_at r b now)).at_ms ≤ (sent_at r b now).at_ms + 1009 → 1 + sends r later (sent_at r b now) ≤ most }
{}
