//! Whom the reader of a bind wakes: the workers whose answers came in (SMPP 3.4 4.3.1, 4.4.2).

ghost use Rattle.std.specs.Prelude.{◌≡◌, ℕ, ◌<◌, ◌≤◌, ◌++◌, ◌∷◌, ◌⊎◌, List, None, IfSome, false, length, take, slice_set};
ghost use Rattle.std.specs.List.{slice_index_or};
ghost use Rattle.sms_pdu.specs.Frame.{IsFrame, IsRest};
ghost use Rattle.sms_pdu.specs.Header.{header_at_front};
ghost use Rattle.sms_devices.specs.Headers.{after_octet, after_octets, events_in, events_of};
ghost use Rattle.sms_devices.specs.declared.waking.headers.FrameEvent.{FrameEvent};
ghost use Rattle.sms_devices.specs.declared.waking.wakes.Wake.{Wake};
ghost use Rattle.sms_devices.specs.declared.waking.wakes.Wakes.{Wakes};
ghost use Rattle.sms_devices.specs.Wakes.{Concerns, Includes, Scanned, Woke, and_this, nobody, wake_by, wake_for};

use crate::waking::bell::Bells;
use crate::waking::headers::Headers;
use crate::waking::owners::{Owners, owner_in};
use sms_book::MOST_WORKERS;
use sms_pdu::{FIRST_RESPONSE, GENERIC_NACK, Header, SUBMIT_SM_RESP, first_frame, frame_header};
use std::sync::Wait;

/// Whom something that came in wakes.
#[derive(Clone, Copy, Debug, PartialEq, Eq)]
pub enum Wake {
    Nobody,
    /// The worker with this number.
    Worker(u8),
    /// All workers of the bind.
    All,
}

/// Whom a frame with this header wakes, if this word stands in its number's place.
pub(crate) fn wake_by(header: &Header, word: u64) -> Wake
    ensures { result ≡ wake_by header.now word }
{
    match header.command {
        SUBMIT_SM_RESP | GENERIC_NACK => match owner_in(word, header.number) {
            Some(worker) => Wake::Worker(worker),
            None => Wake::All,
        },
        FIRST_RESPONSE.. => Wake::All,
        _ => Wake::Nobody,
    }
}

/// The workers that are to be woken by what has come in on a bind.
#[derive(Debug, Drop)]
pub struct Wakes {
    all: bool,
    workers: [bool; MOST_WORKERS],
}

impl Wakes {
    /// Nobody is to be woken.
    pub fn new() -> Wakes
        ensures { result ≡ nobody }
    {
        Wakes {
            all: false,
            workers: [false; MOST_WORKERS],
        }
    }

    /// Adds whom this wakes.
    pub fn add(&mut self, wake: Wake)
        ensures { self.new ≡ and_this self.old wake }
    {
        match wake {
            Wake::Nobody => {}
            Wake::Worker(worker) => {
                if usize::from(worker) < MOST_WORKERS {
                    self.workers[usize::from(worker)] = true;
                }
            }
            Wake::All => self.all = true,
        }
    }

    /// Adds whom the frames wake that end in these octets.
    pub fn see(&mut self, owners: &Owners, headers: &mut Headers, octets: &[u8])
        ensures headers { headers.new ≡ after_octets headers.old octets.now }
        ensures woken { Woke (events_in headers.old octets.now) self.old self.new }
    {
        let mut rest = octets;
        while !rest.is_empty() {
            rest = self.see_some(owners, headers, rest);
        }
    }

    /// Looks at the whole frame at the front of the octets, or at one octet if there is none. Gives the
    /// octets after it.
    fn see_some<'a>(&mut self, owners: &Owners, headers: &mut Headers, octets: &'a [u8]) -> &'a [u8]
        ensures scanned { Scanned octets.now result.now headers.old headers.new self.old self.new }
        ensures fewer { 0 < length octets.now → length result.now < length octets.now }
    {
        if headers.is_between() {
            if let Some((length, header)) = whole_frame(octets) {
                self.add(owners.wake_of(&header));
                return &octets[length..];
            }
        }
        let Some((octet, after)) = octets.split_first() else {
            return octets;
        };
        self.see_one(owners, headers, *octet);
        after
    }

    /// Looks at one octet.
    fn see_one(&mut self, owners: &Owners, headers: &mut Headers, octet: u8)
        ensures headers { headers.new ≡ (after_octet headers.old octet).0 }
        ensures woken { Woke (events_of (after_octet headers.old octet).1) self.old self.new }
    {
        let event = headers.see(octet);
        self.add(owners.wake_for(event));
    }

    /// Wakes them all: nobody is to be woken any more.
    pub fn ring<R: Wait>(&mut self, rt: &R, bells: &Bells, bind: usize)
        ensures { self.new ≡ nobody }
    {
        if self.take_all() {
            bells.ring_bind(rt, bind);
        }
        for worker in 0..MOST_WORKERS {
            if self.take_worker(worker) {
                bells.ring_worker(rt, worker);
            }
        }
    }

    /// Whether all workers of the bind were to be woken. They no longer are.
    fn take_all(&mut self) -> bool
        ensures before { result ≡ self.old.all }
        ensures left { self.new ≡ record { all = false; workers = self.old.workers } }
    {
        let was = self.all;
        self.all = false;
        was
    }

    /// Whether this worker was to be woken. It no longer is.
    fn take_worker(&mut self, worker: usize) -> bool
        requires { worker < 32 }
        ensures before { result ≡ slice_index_or self.old.workers worker false }
        ensures left { self.new ≡ record { all = self.old.all; workers = slice_set self.old.workers worker false } }
    {
        let was = self.workers[worker];
        self.workers[worker] = false;
        was
    }
}

/// Every event adds whom it wakes, whoever was to be woken still is, and nobody else is added.
pub fn nobody_is_forgotten()
    ensures woken { (ps qs : List FrameEvent) (p : FrameEvent) (old new : Wakes) → length old.workers ≡ 32 → Woke (ps ++ p ∷ qs) old new → (word : ℕ) × Includes new (wake_for p word) }
    ensures kept { (ps : List FrameEvent) (old new : Wakes) (wake : Wake) → length old.workers ≡ 32 → Woke ps old new → Includes old wake → Includes new wake }
    ensures none_else { (ps : List FrameEvent) (old new : Wakes) (wake : Wake) → Woke ps old new → Includes new wake → Includes old wake ⊎ Concerns ps wake }
{}

/// The length and the header of the frame at the front of these octets, if all of it is there.
fn whole_frame(octets: &[u8]) -> Option<(usize, Header)>
    ensures frame { IfSome result (λ f. (f.0 ≤ length octets.now) × IsFrame (take f.0 octets.now) × (f.1 ≡ header_at_front octets.now)) }
    ensures rest { result ≡ None → IsRest octets.now }
{
    match first_frame(octets) {
        Some(length) => Some((length, frame_header(octets))),
        None => None,
    }
}
