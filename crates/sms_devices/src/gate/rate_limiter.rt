//! At most a given number of requests of each bind in any second.

ghost use Rattle.std.specs.Prelude.{◌≡◌, IfSome, MatchOption, false, option_copied, true};
ghost use Rattle.sms_devices.specs.Limiters.{Allows, Returns, bucket_of};
ghost use Rattle.sms_devices.specs.Buckets.{rate_for};

use crate::gate::bucket::{Bucket, Rate};
use crate::gate::parts::LimitsRate;
use crate::gate::timestamp::Timestamp;
use crate::places::{PerBind, WorkerPlace};
use sms_book::MOST_WORKERS;
use std::array;
use std::sync::atomic::{AtomicBool, Ordering};
use std::sync::{Mutex, Wait};

/// The bucket of a bind, which its workers share.
pub trait SharedBucket {
    ghost use Rattle.std.specs.Prelude.{ℕ, Bool, ⊤};
    ghost use Rattle.sms_devices.specs.declared.gate.bucket.Rate.{Rate};
    ghost use Rattle.sms_devices.specs.declared.gate.timestamp.Timestamp.{Timestamp};

    // Whether it gave a permit; that a request was sent; that a permit came back.
    ghost lends: { Self → Rate → Timestamp → Bool → Type 0 } = { λ _ _ _ _. ⊤ };

    ghost sends: { Self → Rate → Timestamp → Type 0 } = { λ _ _ _. ⊤ };

    ghost gets_back: { Self → Type 0 } = { λ _. ⊤ };

    /// Gives a permit for a request. False if the level isn't high enough yet.
    fn lend<R: Wait>(&self, rt: &R, rate: Rate, now: Timestamp) -> bool
        ensures { lends self.now rate now result };

    /// A request with a permit is sent.
    fn send<R: Wait>(&self, rt: &R, rate: Rate, now: Timestamp)
        ensures { sends self.now rate now };

    /// A permit comes back unused.
    fn take_back<R: Wait>(&self, rt: &R)
        ensures { gets_back self.now };
}

impl SharedBucket for Mutex<Bucket> {
    fn lend<R: Wait>(&self, rt: &R, rate: Rate, now: Timestamp) -> bool {
        self.lock(rt).lend(rate, now.ms())
    }

    fn send<R: Wait>(&self, rt: &R, rate: Rate, now: Timestamp) {
        self.lock(rt).send(rate, now.ms());
    }

    fn take_back<R: Wait>(&self, rt: &R) {
        self.lock(rt).take_back();
    }
}

/// Which workers have a permit. There are at most `MOST_WORKERS`.
pub trait KeepsPermits {
    ghost use Rattle.std.specs.Prelude.{ℕ, Bool, ⊤};

    // Whether a worker was found to have one; that it has one from now on, or has none; whether one was taken from it.
    ghost finds: { Self → ℕ → Bool → Type 0 } = { λ _ _ _. ⊤ };

    ghost sets: { Self → ℕ → Bool → Type 0 } = { λ _ _ _. ⊤ };

    ghost takes: { Self → ℕ → Bool → Type 0 } = { λ _ _ _. ⊤ };

    /// Whether the worker has a permit.
    fn has(&self, worker: usize) -> bool
        ensures { finds self.now worker result };

    /// Keeps whether the worker has a permit.
    fn set(&self, worker: usize, has: bool)
        ensures { sets self.now worker has };

    /// Takes the worker's permit. False if it has none.
    fn take(&self, worker: usize) -> bool
        ensures { takes self.now worker result };
}

/// A flag for each worker.
#[derive(Drop)]
pub struct PermitFlags {
    flags: [AtomicBool; MOST_WORKERS],
}

impl PermitFlags {
    /// No worker has a permit.
    pub(crate) fn new() -> PermitFlags {
        PermitFlags {
            flags: array::from_fn(|_| AtomicBool::new(false)),
        }
    }
}

impl KeepsPermits for PermitFlags {
    fn has(&self, worker: usize) -> bool {
        match self.flags.get(worker) {
            Some(flag) => flag.load(Ordering::SeqCst),
            None => false,
        }
    }

    fn set(&self, worker: usize, has: bool) {
        if let Some(flag) = self.flags.get(worker) {
            flag.store(has, Ordering::SeqCst);
        }
    }

    fn take(&self, worker: usize) -> bool {
        match self.flags.get(worker) {
            Some(flag) => flag.swap(false, Ordering::SeqCst),
            None => false,
        }
    }
}

/// A bucket for each bind, and a permit for each worker. A worker gets its permit when it is ready, uses it
/// when it sends, and gives it back at the end of its turn if it sent nothing.
#[derive(Drop)]
pub struct RateLimiter<'j, R, B, P> {
    rt: &'j R,
    /// What the buckets fill at. It stands beside their locks, so that contracts know it.
    rate: Rate,
    buckets: PerBind<B>,
    permits: P,
}

impl<'j, R: Wait> RateLimiter<'j, R, Mutex<Bucket>, PermitFlags> {
    /// Lets at most `most` requests of each bind go out in any second. No worker has a permit.
    pub(crate) fn new(
        rt: &'j R,
        most: u32,
        now: Timestamp,
    ) -> RateLimiter<'j, R, Mutex<Bucket>, PermitFlags>
        ensures { result.rate ≡ rate_for most }
    {
        let rate = Rate::new(most);
        let full = Bucket::full(rate, now.ms());
        RateLimiter {
            rt,
            rate,
            buckets: PerBind {
                first: Mutex::new(full),
                second: Mutex::new(full),
                third: Mutex::new(full),
                fourth: Mutex::new(full),
            },
            permits: PermitFlags::new(),
        }
    }
}

impl<'j, R, B, P> RateLimiter<'j, R, B, P> {
    /// The bucket of the worker's bind; None beyond the last bind or worker.
    fn bucket_of(&self, place: WorkerPlace) -> Option<&B>
        ensures { option_copied result ≡ bucket_of self.now place }
    {
        if place.worker() >= MOST_WORKERS {
            return None;
        }
        self.buckets.of(place)
    }
}

impl<'j, R: Wait, B: SharedBucket, P: KeepsPermits> LimitsRate for RateLimiter<'j, R, B, P> {
    ghost permits = { λ s place now answer. MatchOption (bucket_of s place) (answer ≡ false) (λ b. Allows (P.finds s.permits place.worker) (P.sets s.permits place.worker) (B.lends b s.rate now) answer) };

    ghost counts = { λ s place now. IfSome (bucket_of s place) (λ b. P.sets s.permits place.worker false × B.sends b s.rate now) };

    ghost returns = { λ s place. IfSome (bucket_of s place) (λ b. Returns (P.takes s.permits place.worker) (B.gets_back b)) };

    fn permit(&self, place: WorkerPlace, now: Timestamp) -> bool {
        let Some(bucket) = self.bucket_of(place) else {
            return false;
        };
        if self.permits.has(place.worker()) {
            return true;
        }
        let is_lent = bucket.lend(self.rt, self.rate, now);
        self.permits.set(place.worker(), is_lent);
        is_lent
    }

    fn count(&self, place: WorkerPlace, now: Timestamp) {
        if let Some(bucket) = self.bucket_of(place) {
            self.permits.set(place.worker(), false);
            bucket.send(self.rt, self.rate, now);
        }
    }

    fn take_back(&self, place: WorkerPlace) {
        if let Some(bucket) = self.bucket_of(place) {
            if self.permits.take(place.worker()) {
                bucket.take_back(self.rt);
            }
        }
    }
}
