//! Which worker's request each sequence_number of a bind is.

ghost use Rattle.std.specs.Prelude.{◌≡◌, ℕ, ◌-◌, ◌<◌, ◌==◌, ◌^◌, None, Some, if◌then◌else◌};
ghost use Rattle.sms_devices.specs.Wakes.{owner_in, wake_by, wake_for, word_of};

use crate::waking::headers::FrameEvent;
use crate::waking::wakes::{Wake, wake_by};
use sms_pdu::Header;
use std::array;
use std::sync::atomic::{AtomicU64, Ordering};

/// How many numbers are kept at once: many times more than the requests that a bind has open.
const PLACES: usize = 256;

/// The lowest octet of a word is the worker. The others are the number.
const NUMBER: u64 = 256;

/// The word that says whose request the number is.
fn word_of(number: u32, worker: u8) -> u64
    ensures { result ≡ word_of number worker }
{
    u64::from(number) * NUMBER + u64::from(worker)
}

/// Whose request the number is by this word; None if the word is about another number.
pub(crate) fn owner_in(word: u64, number: u32) -> Option<u8>
    ensures { result ≡ owner_in word number }
{
    if word / NUMBER == u64::from(number) {
        Some((word % NUMBER) as u8)
    } else {
        None
    }
}

/// A word is about its own number and no other, and the first words are about none.
pub fn a_word_speaks_of_its_number()
    ensures owner { (number other worker : ℕ) → worker < 256 → owner_in (word_of number worker) other ≡ (if number == other then Some worker else None) }
    ensures none { (number : ℕ) → number < 2 ^ 32 → owner_in (2 ^ 64 - 1) number ≡ None }
{}

/// Whose request each of a bind's last numbers is. Numbers that share a place push each other out, so an
/// owner may be unknown, but never wrong.
#[derive(Drop)]
pub struct Owners {
    words: [AtomicU64; PLACES],
}

impl Owners {
    /// No number has an owner.
    pub fn new() -> Owners {
        Owners {
            words: array::from_fn(|_| AtomicU64::new(u64::MAX)),
        }
    }

    /// Keeps that the request with this number, which goes out next, is a worker's.
    pub fn put(&self, number: u32, worker: usize) {
        if let Ok(worker) = u8::try_from(worker) {
            let place = &self.words[number as usize % PLACES];
            place.store(word_of(number, worker), Ordering::SeqCst);
        }
    }

    /// Whom a frame with this header wakes.
    pub fn wake_of(&self, header: &Header) -> Wake
        // The word is what stands in the number's place.
        ensures { (word : ℕ) × (result ≡ wake_by header.now word) }
    {
        let place = &self.words[header.number as usize % PLACES];
        wake_by(header, place.load(Ordering::SeqCst))
    }

    /// Whom an event wakes.
    pub(crate) fn wake_for(&self, event: FrameEvent) -> Wake
        ensures { (word : ℕ) × (result ≡ wake_for event word) }
    {
        match event {
            FrameEvent::Part => Wake::Nobody,
            FrameEvent::Frame(header) => self.wake_of(&header),
            FrameEvent::Bad => Wake::All,
        }
    }
}
