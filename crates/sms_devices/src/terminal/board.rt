//! How far all workers of a run are.

ghost use Rattle.std.specs.Prelude.{◌≡◌, ◌≤◌, false};

use sms_book::MOST_WORKERS;
use sms_files::{Tally, tally_of};
use sms_worker::MessageEnd;
use std::array;
use std::sync::atomic::{AtomicU64, Ordering};

/// How many milliseconds the line on a terminal stays as it is.
const RENEWAL_MS: u64 = 200;

/// Whether it is time, by the time at which it next is. Of several threads that ask only one gets `true`.
fn is_due(due_ms: &AtomicU64, now_ms: u64) -> bool {
    let due = due_ms.load(Ordering::SeqCst);
    let next = now_ms.saturating_add(RENEWAL_MS);
    now_ms >= due
        && due_ms
            .compare_exchange(due, next, Ordering::SeqCst, Ordering::SeqCst)
            .is_ok()
}

/// How far a worker is, and when its tally is taken again.
#[derive(Drop)]
struct WorkerProgress {
    due_ms: AtomicU64,
    charged: AtomicU64,
    refused: AtomicU64,
    unanswered: AtomicU64,
}

impl WorkerProgress {
    fn new() -> WorkerProgress {
        WorkerProgress {
            due_ms: AtomicU64::new(0),
            charged: AtomicU64::new(0),
            refused: AtomicU64::new(0),
            unanswered: AtomicU64::new(0),
        }
    }

    fn put(&self, tally: &Tally) {
        self.charged.store(tally.charged, Ordering::SeqCst);
        self.refused.store(tally.refused, Ordering::SeqCst);
        self.unanswered.store(tally.unanswered, Ordering::SeqCst);
    }

    fn get(&self) -> Tally {
        Tally {
            charged: self.charged.load(Ordering::SeqCst),
            refused: self.refused.load(Ordering::SeqCst),
            unanswered: self.unanswered.load(Ordering::SeqCst),
        }
    }
}

/// How far all workers are.
#[derive(Drop)]
pub(crate) struct ProgressBoard {
    places: [WorkerProgress; MOST_WORKERS],
    /// What the rounds before came to.
    before: WorkerProgress,
    /// When the total is shown next.
    due_ms: AtomicU64,
}

impl ProgressBoard {
    /// No worker has begun.
    pub(crate) fn new(begun_ms: u64) -> ProgressBoard {
        ProgressBoard {
            places: array::from_fn(|_| WorkerProgress::new()),
            before: WorkerProgress::new(),
            due_ms: AtomicU64::new(begun_ms.saturating_add(RENEWAL_MS)),
        }
    }

    /// Takes a worker's tally, if it is time to. Whether this thread is to show the total then.
    pub(crate) fn update(
        &self,
        worker: usize,
        ends: &[MessageEnd],
        open: usize,
        now_ms: u64,
    ) -> bool
        ensures beyond { 32 ≤ worker → result ≡ false }
    {
        if worker >= MOST_WORKERS {
            return false;
        }
        let place = &self.places[worker];
        if !is_due(&place.due_ms, now_ms) {
            return false;
        }
        place.put(&tally_of(ends, open));
        is_due(&self.due_ms, now_ms)
    }

    /// Takes a worker's last tally.
    pub(crate) fn update_last(&self, worker: usize, ends: &[MessageEnd]) {
        if worker < MOST_WORKERS {
            let place = &self.places[worker];
            place.put(&tally_of(ends, 0));
        }
    }

    /// A further round begins, before which so many messages have ended. No worker has begun in it.
    pub(crate) fn renew(&self, ended: &Tally) {
        let before = self.before.get();
        self.before.put(&before.with(ended));
        for place in &self.places {
            place.put(&Tally::none());
        }
    }

    /// The tally of all workers, and of the rounds before.
    pub(crate) fn total(&self) -> Tally {
        let mut tally = self.before.get();
        for place in &self.places {
            tally = tally.with(&place.get());
        }
        tally
    }
}
