//! A bell for each worker and for the driver, by which pauses end early.
//!
//! No wake-up is missed:
//!
//! - What a worker waits for is there before its bell rings. An answer is in the worker's ring when the
//!   bind's reader asks for octets again. The line is down when the reader ends.
//! - A ring is kept under the bell's lock until a wait of the worker ends. The worker looks at its ring of
//!   answers, and whether the line is down, between two waits. So a ring after that look ends the next
//!   wait, at once if it came before the wait began.
//! - After a failed write the worker that wrote takes the line down, and rings before it does. So nobody
//!   waits long at such a bind: `rings_for_all` is false there. A worker that looked before that is rung
//!   after it.

ghost use Rattle.std.specs.Prelude.{◌≡◌, nat_lt};
ghost use Rattle.std.specs.Option.{is_some};
ghost use Rattle.sms_devices.specs.Places.{bind_of, place_of};

use crate::limits::MOST_BINDS;
use crate::places::WorkerPlace;
use crate::waking::owners::Owners;
use sms_book::MOST_WORKERS;
use std::array;
use std::sync::atomic::{AtomicBool, Ordering};
use std::sync::{Condvar, Mutex, Wait};
use std::time::{Clock, Duration};

/// A bell that ends the waits of one thread.
#[derive(Drop)]
struct Bell {
    /// Whether it rang since a wait ended.
    has_rung: Mutex<bool>,
    sound: Condvar,
}

impl Bell {
    /// A bell that has not rung.
    fn new() -> Bell {
        Bell {
            has_rung: Mutex::new(false),
            sound: Condvar::new(),
        }
    }

    /// Ends the wait. If none lasts, it ends the next one.
    fn ring<R: Wait>(&self, rt: &R) {
        let mut has_rung = self.has_rung.lock(rt);
        *has_rung = true;
        drop(has_rung);
        self.sound.notify_one();
    }

    /// Waits until the bell rings, but no longer than this. It doesn't wait at all if the bell rang since
    /// the last wait ended.
    fn wait<R: Wait + Clock>(&self, rt: &R, ms: u64) {
        let mut has_rung = self.has_rung.lock(rt);
        if *has_rung {
            *has_rung = false;
            return;
        }
        let most = Duration::from_millis(ms);
        let (mut has_rung, _waited) = self.sound.wait_timeout(rt, has_rung, most);
        *has_rung = false;
    }
}

/// The bells of all workers and of the driver, and the owners of each bind's numbers.
#[derive(Drop)]
pub struct Bells {
    /// How many workers each bind has.
    workers: u32,
    of_workers: [Bell; MOST_WORKERS],
    of_driver: Bell,
    /// Whether a write to the bind's connection failed, or its reader has ended.
    has_failed: [AtomicBool; MOST_BINDS],
    owners: [Owners; MOST_BINDS],
}

impl Bells {
    /// Bells that have not rung, of binds with this many workers each.
    pub fn new(workers: u32) -> Bells
        ensures { result.workers ≡ workers }
    {
        Bells {
            workers,
            of_workers: array::from_fn(|_| Bell::new()),
            of_driver: Bell::new(),
            has_failed: array::from_fn(|_| AtomicBool::new(false)),
            owners: array::from_fn(|_| Owners::new()),
        }
    }

    /// Where the worker with this number stands.
    pub fn place_of(&self, worker: usize) -> WorkerPlace
        ensures { result ≡ place_of self.now.workers worker }
    {
        WorkerPlace::new(self.workers, worker)
    }

    /// The bind of a worker.
    pub fn bind_of(&self, worker: usize) -> usize
        ensures { result ≡ bind_of self.now.workers worker }
    {
        self.place_of(worker).bind()
    }

    /// The owners of this bind's numbers; None beyond the last bind.
    pub fn owners(&self, bind: usize) -> Option<&Owners>
        ensures { is_some result ≡ nat_lt bind 4 }
    {
        self.owners.get(bind)
    }

    /// Rings the bell of a worker.
    pub fn ring_worker<R: Wait>(&self, rt: &R, worker: usize) {
        if let Some(bell) = self.of_workers.get(worker) {
            bell.ring(rt);
        }
    }

    /// Rings the bells of a bind's workers, and the driver's.
    pub fn ring_bind<R: Wait>(&self, rt: &R, bind: usize) {
        for worker in 0..MOST_WORKERS {
            if self.bind_of(worker) == bind {
                self.ring_worker(rt, worker);
            }
        }
        self.of_driver.ring(rt);
    }

    /// A write to the bind's connection failed, and the thread that wrote takes the line down next; or its reader has ended.
    pub fn fail<R: Wait>(&self, rt: &R, bind: usize) {
        if let Some(has_failed) = self.has_failed.get(bind) {
            has_failed.store(true, Ordering::SeqCst);
        }
        self.ring_bind(rt, bind);
    }

    /// The binds are made anew: no write failed yet, and no reader has ended.
    pub(crate) fn renew(&self) {
        for has_failed in &self.has_failed {
            has_failed.store(false, Ordering::SeqCst);
        }
    }

    /// Whether a bell rings for everything that a worker of the bind waits for, except what is due by the
    /// clock. False once a write failed or the bind's reader has ended, and beyond the last bind.
    pub(crate) fn rings_for_all(&self, bind: usize) -> bool {
        match self.has_failed.get(bind) {
            Some(has_failed) => !has_failed.load(Ordering::SeqCst),
            None => false,
        }
    }

    /// Waits until the worker's bell rings, but no longer than this.
    pub(crate) fn wait<R: Wait + Clock>(&self, rt: &R, worker: usize, ms: u64) {
        match self.of_workers.get(worker) {
            Some(bell) => bell.wait(rt, ms),
            None => self.of_driver.wait(rt, ms),
        }
    }

    /// Waits until the driver's bell rings, but no longer than this.
    pub(crate) fn wait_as_driver<R: Wait + Clock>(&self, rt: &R, ms: u64) {
        self.of_driver.wait(rt, ms);
    }
}
