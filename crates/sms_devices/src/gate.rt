//! The gate of a run: what each worker asks before it sends a request, and what it reports.

ghost use Rattle.std.specs.Prelude.{◌≡◌, ◌≤◌, Bool, IfSome, MatchOption, None, Some, true};
ghost use Rattle.sms_journal.specs.declared.notes.note.Note.TheVariants.{Begun, Heard, Refused};
ghost use Rattle.sms_devices.specs.Gates.{LimitsTo, StopsAfter};
ghost use Rattle.sms_devices.specs.Journals.{HasRoom, request_note, unsent_note};
ghost use Rattle.sms_devices.specs.Places.{place_of};
ghost use Rattle.sms_devices.specs.declared.gate.timestamp.Timestamp.{Timestamp};

mod arena_warmup;
mod bucket;
mod notes;
mod parts;
mod rate_limiter;
mod silence;
mod timestamp;
mod watchdog;

use crate::gate::arena_warmup::warm_up;
use crate::gate::bucket::Bucket;
pub(crate) use crate::gate::notes::make_note;
use crate::gate::notes::{note_of_reply, note_of_request, note_of_unsent};
pub(crate) use crate::gate::parts::Connections;
use crate::gate::parts::{FindsSilence, LimitsRate};
use crate::gate::rate_limiter::{PermitFlags, RateLimiter};
use crate::gate::silence::{Silence, SilenceLimit};
pub(crate) use crate::gate::timestamp::Timestamp;
use crate::gate::watchdog::Watchdog;
use crate::places::WorkerPlace;
use crate::stay::Stay;
use crate::terminal::{Progress, TakesNotices};
use crate::transport::Outboxes;
use sms_journal::Note;
use sms_pdu::Reply;
use sms_worker::{Clock, Gate, MessageEnd, MessageRefusal};
use std::alloc::Global;
use std::fs::OpenFile;
use std::io::{Eprint, Write};
use std::sync::{Mutex, Wait};
use std::time;

/// How fast a run sends, and when it gives a bind up.
#[derive(Clone, Copy, Debug, PartialEq, Eq)]
pub struct GateLimits {
    /// How many milliseconds an answer is waited for.
    pub answer_ms: u32,
    /// How many requests each bind sends in any second at most; None is without a limit.
    pub rate: Option<u32>,
    /// After how many requests without an answer a bind is given up; None is never.
    pub stop_after: Option<u32>,
}

/// The gate of a run. Its parts are asked in this order:
///
/// - Before a slot is claimed (`ready`) the rate limiter may refuse. The worker asks again in its next turn.
/// - Once the frame is made (`pass`) nothing refuses.
/// - Before the first octet can go out (`sending`):
///   1. the bells keep whose request the number is, so that the answer wakes that worker alone;
///   2. the journal notes the request. If it can't, the request is refused, and neither of the next two
///      counts it;
///   3. the watchdog counts the request;
///   4. the rate limiter takes the worker's permit.
/// - When an answer comes (`heard`), before it moves credits: the journal notes it, the outbox counts it as
///   answered, and the watchdog starts its count anew.
/// - Before a message begins (`may_begin`) it may be refused, since the run was asked to stop.
/// - A message that begins, a message that is refused, and a request that wasn't sent after all are noted
///   in the journal. Some of the messages that begin get memory for those that follow.
/// - At the end of its messages (`see_last`) a worker stays for their receipts, if that is asked for.
/// - At the end of a turn (`see`) a person sees how far the run is, the watchdog gives the bind up if it has
///   been silent for too long, and the rate limiter takes an unused permit back.
#[derive(Drop)]
pub struct SendGate<'r, S, N, K, C, L, W> {
    alloc: Global,
    connections: &'r C,
    clock: &'r K,
    progress: &'r Progress<'r, S, N, K>,
    rate_limiter: Option<L>,
    watchdog: Option<W>,
    /// What is waited for behind the last message, if anything is.
    stay: Option<&'r Stay>,
}

/// The gate over the outboxes of a run.
pub type RunGate<'r, 'j, S, N, K, R, F> = SendGate<
    'r,
    S,
    N,
    K,
    Outboxes<'j, R, F>,
    RateLimiter<'j, R, Mutex<Bucket>, PermitFlags>,
    Watchdog<'j, R, Mutex<Silence>>,
>;

impl<'r, 'j, S, N, K: Clock, R: Wait, F: Write + OpenFile> RunGate<'r, 'j, S, N, K, R, F> {
    /// The gate of a run that begins.
    pub fn new(
        alloc: Global,
        outboxes: &'r Outboxes<'j, R, F>,
        clock: &'r K,
        progress: &'r Progress<'r, S, N, K>,
        limits: GateLimits,
    ) -> RunGate<'r, 'j, S, N, K, R, F>
        ensures rate { LimitsTo limits.rate result.rate_limiter }
        ensures stop { StopsAfter limits.stop_after limits.answer_ms result.watchdog }
    {
        let rate_limiter = match limits.rate {
            Some(most) => {
                let now = Timestamp::of(clock);
                Some(RateLimiter::new(outboxes.rt(), most, now))
            }
            None => None,
        };
        let watchdog = match limits.stop_after {
            Some(most) => {
                let answer_ms = limits.answer_ms;
                let limit = SilenceLimit { most, answer_ms };
                Some(Watchdog::new(outboxes.rt(), limit))
            }
            None => None,
        };
        SendGate {
            alloc,
            connections: outboxes,
            clock,
            progress,
            rate_limiter,
            watchdog,
            stay: None,
        }
    }

    /// The same, at which a worker stays for this behind its last message, if there is anything to wait for.
    pub fn staying(self, stay: Option<&'r Stay>) -> RunGate<'r, 'j, S, N, K, R, F>
        ensures limits { (result.rate_limiter ≡ self.entry.rate_limiter) × (result.watchdog ≡ self.entry.watchdog) }
    {
        SendGate { stay, ..self }
    }

    /// The binds are made anew for a further round. The rate holds over all rounds.
    pub fn renew(&self) {
        if let Some(watchdog) = &self.watchdog {
            watchdog.renew();
        }
    }
}

impl<'r, S, N, K: Clock, C: Connections, L: LimitsRate, W: FindsSilence> SendGate<
    'r,
    S,
    N,
    K,
    C,
    L,
    W,
> {
    /// A request of the worker goes out: the watchdog counts it, and the worker's permit is used.
    fn count_request(&self, place: WorkerPlace)
        ensures counted { IfSome self.now.watchdog (λ w. (now : Timestamp) × W.counts w place now) }
        ensures used { IfSome self.now.rate_limiter (λ l. (now : Timestamp) × L.counts l place now) }
    {
        if let Some(watchdog) = &self.watchdog {
            watchdog.count(place, Timestamp::of(self.clock));
        }
        if let Some(rate_limiter) = &self.rate_limiter {
            rate_limiter.count(place, Timestamp::of(self.clock));
        }
    }

    /// Gives the worker's bind up if it has been silent for too long.
    fn watch(&self, place: WorkerPlace)
        ensures { IfSome self.now.watchdog (λ w. (now : Timestamp) × (found : Bool) × W.finds w place now found × (found ≡ true → C.gives_up self.now.connections.now place)) }
    {
        if let Some(watchdog) = &self.watchdog {
            if watchdog.is_silent(place, Timestamp::of(self.clock)) {
                self.connections.give_up(place);
            }
        }
    }

    /// Takes the worker's permit back if it didn't use it.
    fn take_back(&self, place: WorkerPlace)
        ensures { IfSome self.now.rate_limiter (λ l. L.returns l place) }
    {
        if let Some(rate_limiter) = &self.rate_limiter {
            rate_limiter.take_back(place);
        }
    }
}

impl<'r, S: Eprint, N: TakesNotices, K: Clock, C: Connections, L: LimitsRate, W: FindsSilence> Gate
    for SendGate<'r, S, N, K, C, L, W> {
    fn ready(&self, worker: usize) -> bool
        ensures { MatchOption self.now.rate_limiter (result ≡ true) (λ l. (now : Timestamp) × L.permits l (place_of (C.workers self.now.connections.now) worker) now result) }
    {
        match &self.rate_limiter {
            Some(rate_limiter) => {
                let place = self.connections.place_of(worker);
                rate_limiter.permit(place, Timestamp::of(self.clock))
            }
            None => true,
        }
    }

    fn may_begin(&self, _worker: usize, _message: u64) -> bool
        ensures { C.lets_begin self.now.connections.now result }
    {
        self.connections.may_begin()
    }

    fn pass(&self, _worker: usize, _number: u32) -> bool
        ensures { result ≡ true }
    {
        true
    }

    fn sending(&self, worker: usize, number: u32, message: u64, part: usize) -> bool
        ensures owner { C.keeps self.now.connections.now (place_of (C.workers self.now.connections.now) worker) number }
        ensures noted { HasRoom worker part → C.notes self.now.connections.now (Some (request_note worker number message part)) result }
        ensures unnoted { ¬ HasRoom worker part → C.notes self.now.connections.now None result }
        ensures counted { result ≡ true → IfSome self.now.watchdog (λ w. (now : Timestamp) × W.counts w (place_of (C.workers self.now.connections.now) worker) now) }
        ensures used { result ≡ true → IfSome self.now.rate_limiter (λ l. (now : Timestamp) × L.counts l (place_of (C.workers self.now.connections.now) worker) now) }
    {
        let place = self.connections.place_of(worker);
        self.connections.keep_owner(place, number);
        let note = note_of_request(worker, number, message, part);
        let is_noted = self.connections.note(note);
        if is_noted {
            self.count_request(place);
        }
        is_noted
    }

    fn unsent(&self, worker: usize, number: u32)
        ensures { worker ≤ 4294967295 → (made : Bool) × C.notes self.now.connections.now (Some (unsent_note worker number)) made }
    {
        let _noted = self.connections.note(note_of_unsent(worker, number));
    }

    fn heard(&self, worker: usize, reply: &Reply)
        ensures noted { worker ≤ 4294967295 → (made : Bool) × C.notes self.now.connections.now (Some (Heard worker reply.now)) made }
        ensures answered { C.answers self.now.connections.now (place_of (C.workers self.now.connections.now) worker) }
        ensures watched { IfSome self.now.watchdog (λ w. W.ends w (place_of (C.workers self.now.connections.now) worker)) }
    {
        let _noted = self.connections.note(note_of_reply(worker, reply));
        let place = self.connections.place_of(worker);
        self.connections.count_answer(place);
        if let Some(watchdog) = &self.watchdog {
            watchdog.answer(place);
        }
    }

    fn begun(&self, _worker: usize, message: u64)
        ensures { (made : Bool) × C.notes self.now.connections.now (Some (Begun message)) made }
    {
        warm_up(self.alloc, message);
        let _noted = self.connections.note(Some(Note::Begun(message)));
    }

    fn refused(&self, _worker: usize, message: u64, why: MessageRefusal)
        ensures { (made : Bool) × C.notes self.now.connections.now (Some (Refused message why)) made }
    {
        let _noted = self.connections.note(Some(Note::Refused(message, why)));
    }

    fn see(&self, worker: usize, ends: &[MessageEnd], open: usize)
        ensures watched { let place = place_of (C.workers self.now.connections.now) worker in IfSome self.now.watchdog (λ w. (now : Timestamp) × (found : Bool) × W.finds w place now found × (found ≡ true → C.gives_up self.now.connections.now place)) }
        ensures returned { IfSome self.now.rate_limiter (λ l. L.returns l (place_of (C.workers self.now.connections.now) worker)) }
    {
        self.progress.see(worker, ends, open);
        let place = self.connections.place_of(worker);
        self.watch(place);
        self.take_back(place);
    }

    fn see_last(&self, worker: usize, ends: &[MessageEnd])
        ensures { IfSome self.now.rate_limiter (λ l. L.returns l (place_of (C.workers self.now.connections.now) worker)) }
    {
        self.progress.see_last(worker, ends);
        self.take_back(self.connections.place_of(worker));
        if let Some(stay) = self.stay {
            self.connections.stay(worker, stay, ends);
        }
    }
}
