//! When a bind is given up to which requests go out and no answer comes.

ghost use Rattle.std.specs.Prelude.{◌≡◌, IfSome, MatchOption, false};
ghost use Rattle.sms_devices.specs.Places.{of_bind};

use crate::gate::parts::FindsSilence;
use crate::gate::silence::{Silence, SilenceLimit};
use crate::gate::timestamp::Timestamp;
use crate::places::{PerBind, WorkerPlace};
use std::sync::{Mutex, Wait};

/// The requests of a bind since the last answer, which its workers count together.
pub trait SharedSilence {
    ghost use Rattle.std.specs.Prelude.{Bool, ⊤};
    ghost use Rattle.sms_devices.specs.declared.gate.silence.SilenceLimit.{SilenceLimit};
    ghost use Rattle.sms_devices.specs.declared.gate.timestamp.Timestamp.{Timestamp};

    // That a request was counted; that an answer came; whether it is too long.
    ghost counts: { Self → SilenceLimit → Timestamp → Type 0 } = { λ _ _ _. ⊤ };

    ghost ends: { Self → Type 0 } = { λ _. ⊤ };

    ghost finds: { Self → SilenceLimit → Timestamp → Bool → Type 0 } = { λ _ _ _ _. ⊤ };

    /// A request goes out.
    fn send<R: Wait>(&self, rt: &R, limit: SilenceLimit, now: Timestamp)
        ensures { counts self.now limit now };

    /// An answer came.
    fn answer<R: Wait>(&self, rt: &R)
        ensures { ends self.now };

    /// Whether as many requests as the limit went out without an answer, and the last of them was waited for.
    fn is_too_long<R: Wait>(&self, rt: &R, limit: SilenceLimit, now: Timestamp) -> bool
        ensures { finds self.now limit now result };
}

impl SharedSilence for Mutex<Silence> {
    fn send<R: Wait>(&self, rt: &R, limit: SilenceLimit, now: Timestamp) {
        self.lock(rt).send(limit, now.ms());
    }

    fn answer<R: Wait>(&self, rt: &R) {
        self.lock(rt).answer();
    }

    fn is_too_long<R: Wait>(&self, rt: &R, limit: SilenceLimit, now: Timestamp) -> bool {
        self.lock(rt).is_too_long(limit, now.ms())
    }
}

/// For each bind the requests since the last answer.
#[derive(Drop)]
pub struct Watchdog<'j, R, C> {
    rt: &'j R,
    /// It stands beside the locks, so that contracts know it.
    limit: SilenceLimit,
    silences: PerBind<C>,
}

impl<'j, R: Wait> Watchdog<'j, R, Mutex<Silence>> {
    /// Finds a bind silent by this limit. Nothing went out yet.
    pub(crate) fn new(rt: &'j R, limit: SilenceLimit) -> Watchdog<'j, R, Mutex<Silence>>
        ensures { result.limit ≡ limit }
    {
        Watchdog {
            rt,
            limit,
            silences: PerBind {
                first: Mutex::new(Silence::new()),
                second: Mutex::new(Silence::new()),
                third: Mutex::new(Silence::new()),
                fourth: Mutex::new(Silence::new()),
            },
        }
    }
}

impl<'j, R: Wait, C: SharedSilence> Watchdog<'j, R, C> {
    /// The binds are made anew: no bind is silent.
    pub(crate) fn renew(&self)
        ensures { C.ends self.now.silences.first × C.ends self.now.silences.second × C.ends self.now.silences.third × C.ends self.now.silences.fourth }
    {
        self.silences.first.answer(self.rt);
        self.silences.second.answer(self.rt);
        self.silences.third.answer(self.rt);
        self.silences.fourth.answer(self.rt);
    }
}

impl<'j, R: Wait, C: SharedSilence> FindsSilence for Watchdog<'j, R, C> {
    ghost counts = { λ s place now. IfSome (of_bind s.silences place.bind) (λ c. C.counts c s.limit now) };

    ghost ends = { λ s place. IfSome (of_bind s.silences place.bind) (λ c. C.ends c) };

    ghost finds = { λ s place now found. MatchOption (of_bind s.silences place.bind) (found ≡ false) (λ c. C.finds c s.limit now found) };

    fn count(&self, place: WorkerPlace, now: Timestamp) {
        if let Some(silence) = self.silences.of(place) {
            silence.send(self.rt, self.limit, now);
        }
    }

    fn answer(&self, place: WorkerPlace) {
        if let Some(silence) = self.silences.of(place) {
            silence.answer(self.rt);
        }
    }

    fn is_silent(&self, place: WorkerPlace, now: Timestamp) -> bool {
        match self.silences.of(place) {
            Some(silence) => silence.is_too_long(self.rt, self.limit, now),
            None => false,
        }
    }
}
