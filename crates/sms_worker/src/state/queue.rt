//! The segments that wait to be sent again, in the order in which their times come.

ghost use Rattle.std.specs.Prelude.{◌≡◌, ◌≢◌, ◌≤◌, ◌+◌, ◌-◌, ◌⊎◌, ◌&&◌, ◌++◌, ◌∷◌, [], ℕ, List, map, Some, true, IfNone, IfSome, is_none, slice_get, vec_len, vec_capacity};
ghost use Rattle.std.specs.List.{list_all};
ghost use Rattle.sms_worker.specs.declared.state.open.SegmentPlace.{SegmentPlace};
ghost use Rattle.sms_worker.specs.Queues.{Waiting, appended, first_in, first_place, IsAway, IsDue, IsKept, IsOutside, last_in, later, NoneIsDue, sooner_of, SpellsAt, with_last, without_first};
ghost use Rattle.sms_worker.specs.PendingState.{PendingState, data_in, pending_at, link_of, relinked};
ghost use Rattle.sms_worker.specs.Waits.{IsDueIn};

use crate::state::open::SegmentPlace;
use crate::state::pending::{Link, NO_LINK, PendingParts};

/// How many attempts a segment has at most.
const MOST_ATTEMPTS: usize = 10;

/// The segments with one count of attempts. Their wait is one number, so that the one that came
/// first is due first. Each is linked to the next.
#[derive(Clone, Copy, Debug, PartialEq, Eq)]
struct Queue {
    first: Option<SegmentPlace>,
    last: Option<SegmentPlace>,
}

/// A queue for each count of attempts. That takes no memory, so no segment is lost.
#[derive(Clone, Copy, Debug, PartialEq, Eq)]
pub struct Queues {
    all: [Queue; MOST_ATTEMPTS],
}

/// A queue, and when its first segment is due.
#[derive(Clone, Copy, Debug, PartialEq, Eq)]
struct Head {
    queue: usize,
    due_ms: u64,
}

/// The earlier of the best head so far and one more. An entry that isn't due yet counts as absent.
fn sooner(best: Option<Head>, head: Head, now_ms: u64) -> Option<Head>
    ensures { result ≡ sooner_of now_ms best head }
{
    match best {
        Some(before) => {
            if head.due_ms < before.due_ms {
                return Some(head);
            }
            Some(before)
        }
        None => {
            if head.due_ms <= now_ms {
                return Some(head);
            }
            None
        }
    }
}

/// The link of the segment at a place.
fn link_at(pending: &[PendingParts], place: SegmentPlace) -> Link
    ensures { result ≡ link_of (pending_at pending.now place) }
{
    if place.message < pending.len() {
        return pending[place.message].link(place.part);
    }
    NO_LINK
}

/// Gives the segment at a place another link.
fn set_link_at(pending: &mut Vec<PendingParts>, place: SegmentPlace, link: Link)
    ensures linked { pending.new.items ≡ relinked pending.old.items place link }
    ensures room { (vec_len pending.new ≡ vec_len pending.old) × (vec_capacity pending.new ≡ vec_capacity pending.old) }
{
    if place.message >= pending.len() {
        return;
    }
    let kept = &mut pending[place.message];
    kept.set_link(place.part, link);
}

/// Links a segment after the last of a queue, if there is one.
fn link_behind(
    pending: &mut Vec<PendingParts>,
    last: Option<SegmentPlace>,
    place: SegmentPlace,
    due_ms: u64,
)
    ensures linked { pending.new.items ≡ appended pending.old.items last place due_ms }
    ensures room { (vec_len pending.new ≡ vec_len pending.old) × (vec_capacity pending.new ≡ vec_capacity pending.old) }
{
    set_link_at(pending, place, Link { due_ms, next: None });
    if let Some(last) = last {
        let due_ms = link_at(pending.as_slice(), last).due_ms;
        let next = Some(place);
        set_link_at(pending, last, Link { due_ms, next });
    }
}

impl Queue {
    /// The queue with a segment appended.
    fn with(self, place: SegmentPlace) -> Queue
        ensures { result ≡ with_last self place }
    {
        let first = match self.last {
            Some(_) => self.first,
            None => Some(place),
        };
        let last = Some(place);
        Queue { first, last }
    }

    /// The queue without its first segment.
    fn without_first(self, pending: &[PendingParts]) -> Queue
        ensures { result ≡ without_first pending.now self.first self.last }
    {
        let Some(first) = self.first else {
            return self;
        };
        let first = link_at(pending, first).next;
        let last = match first {
            Some(_) => self.last,
            None => None,
        };
        Queue { first, last }
    }
}

impl Queues {
    /// No segment waits.
    pub fn none() -> Queues
        ensures { list_all (λ q. is_none q.first && is_none q.last) result.all ≡ true }
    {
        let none = Queue {
            first: None,
            last: None,
        };
        Queues {
            all: [none; MOST_ATTEMPTS],
        }
    }

    /// Whether no segment waits.
    pub fn is_empty(&self) -> bool
        ensures { result ≡ list_all (λ q. is_none q.first) self.now.all }
    {
        self.all.iter().all(|queue| queue.first.is_none())
    }

    /// Queues a segment until `due_ms`, after those with the same number of attempts.
    pub fn push(
        &mut self,
        pending: &mut Vec<PendingParts>,
        attempts: usize,
        place: SegmentPlace,
        due_ms: u64,
    )
        ensures waits { 1 ≤ attempts → attempts ≤ 10 → (ws : List Waiting) → SpellsAt pending.old.items self.old.all (attempts - 1) ws → IsKept pending.old.items place → IsOutside place ws → SpellsAt pending.new.items self.new.all (attempts - 1) (ws ++ record { place = place; due_ms = due_ms } ∷ []) }
        ensures apart { (k : ℕ) (ws : List Waiting) → k + 1 ≢ attempts → SpellsAt pending.old.items self.old.all k ws → IsOutside place ws → IsAway (last_in self.old.all (attempts - 1)) ws → SpellsAt pending.new.items self.new.all k ws }
        ensures unchanged { map data_in pending.new.items ≡ map data_in pending.old.items }
        ensures room { (vec_len pending.new ≡ vec_len pending.old) × (vec_capacity pending.new ≡ vec_capacity pending.old) }
        ensures last { 1 ≤ attempts → attempts ≤ 10 → last_in self.new.all (attempts - 1) ≡ Some place }
        ensures others { (k : ℕ) → k + 1 ≢ attempts → slice_get self.new.all k ≡ slice_get self.old.all k }
        // Neither a queue nor a link names another segment than before, but this one.
        ensures heads { (k : ℕ) (named : SegmentPlace) → first_in self.new.all k ≡ Some named → (named ≡ place) ⊎ (first_in self.old.all k ≡ Some named) }
        ensures links { (from named : SegmentPlace) → (link_of (pending_at pending.new.items from)).next ≡ Some named → (named ≡ place) ⊎ ((link_of (pending_at pending.old.items from)).next ≡ Some named) }
    {
        if attempts < 1 || attempts > MOST_ATTEMPTS {
            return;
        }
        let queue = self.all[attempts - 1];
        link_behind(pending, queue.last, place, due_ms);
        self.all[attempts - 1] = queue.with(place);
    }

    /// The queue whose first segment is due earliest, if its time has come.
    pub fn due(&self, pending: &[PendingParts], now_ms: u64) -> Option<usize>
        ensures first { IfSome result (λ k. IsDue pending.now self.now.all now_ms k) }
        ensures none { IfNone result (NoneIsDue pending.now self.now.all now_ms) }
    {
        let mut best = None;
        for queue in 0..MOST_ATTEMPTS {
            if let Some(first) = self.all[queue].first {
                let due_ms = link_at(pending, first).due_ms;
                best = sooner(best, Head { queue, due_ms }, now_ms);
            }
        }
        match best {
            Some(head) => Some(head.queue),
            None => None,
        }
    }

    /// How many milliseconds it is until the earliest queued segment is due; `u64::MAX` if none waits.
    pub fn due_in(&self, pending: &[PendingParts], now_ms: u64) -> u64
        ensures { IsDueIn pending.now self.now.all now_ms result }
    {
        let mut least = u64::MAX;
        for queue in 0..MOST_ATTEMPTS {
            if let Some(first) = self.all[queue].first {
                let due_ms = link_at(pending, first).due_ms;
                least = least.min(due_ms.saturating_sub(now_ms));
            }
        }
        least
    }

    /// The first segment of a queue.
    pub fn first(&self, queue: usize) -> Option<SegmentPlace>
        ensures first { result ≡ first_in self.now.all queue }
        ensures waits { (pending : List PendingState) (ws : List Waiting) → SpellsAt pending self.now.all queue ws → result ≡ first_place ws }
    {
        if queue < MOST_ATTEMPTS {
            return self.all[queue].first;
        }
        None
    }

    /// Takes the first segment of a queue out.
    pub fn pop(&mut self, pending: &[PendingParts], queue: usize)
        ensures waits { (ws : List Waiting) → SpellsAt pending.now self.old.all queue ws → SpellsAt pending.now self.new.all queue (later ws) }
        ensures others { (k : ℕ) → k ≢ queue → slice_get self.new.all k ≡ slice_get self.old.all k }
        ensures heads { (k : ℕ) (named : SegmentPlace) → first_in self.new.all k ≡ Some named → (first_in self.old.all k ≡ Some named) ⊎ ((from : SegmentPlace) × ((link_of (pending_at pending.now from)).next ≡ Some named)) }
    {
        if queue >= MOST_ATTEMPTS {
            return;
        }
        self.all[queue] = self.all[queue].without_first(pending);
    }
}
