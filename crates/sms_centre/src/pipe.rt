//! A stream in memory between two threads, or within one.

ghost use Rattle.std.specs.Prelude.{◌≡◌, ◌≢◌, ◌≤◌, ◌<◌, ◌-◌, ◌↔◌, [], length, take, min, true, false, None, IfSome, IfNone};
ghost use Rattle.std.specs.Io.{ReadsAtMost, WritesAtMost};
ghost use Rattle.std.specs.Io.KnownBytes.{ReadConsumes, WriteAppends};
ghost use Rattle.sms_centre.specs.Rings.{holds_more, holds_less};

use crate::ring::Ring;
use std::alloc::{AllocError, Global};
use std::io::{Error, ErrorKind, Read, Write};
use std::sync::{Mutex, Wait};
use std::time::{Clock, Duration};
use std::{io, thread};

/// How often a read of an empty pipe looks again.
const LOOKS: u32 = 100;

/// How many milliseconds lie between two looks.
const APART: u64 = 1;

/// What a pipe's lock guards.
#[derive(Drop)]
struct Held {
    ring: Ring,
    closed: bool,
}

impl Held {
    /// Takes what is there and fits; or no octets, where none will come; or `None`, where some may.
    fn take(&mut self, buf: &mut [u8]) -> Option<usize>
        ensures fit { IfSome result (λ n. n ≡ min (length self.old.ring.octets) (length buf.old)) }
        ensures taken { IfSome result (λ n. (take n buf.new ≡ take n self.old.ring.octets) × (self.new.ring ≡ holds_less self.old.ring n)) }
        ensures none { (result ≡ None) ↔ ((self.old.ring.octets ≡ []) × (self.old.closed ≡ false)) }
        ensures unchanged { result ≡ None → self.new ≡ self.old }
        ensures closed { self.new.closed ≡ self.old.closed }
        ensures bound { IfSome result (λ n. n ≤ length buf.new) }
    {
        if self.ring.is_empty() && !self.closed {
            return None;
        }
        Some(self.ring.take(buf))
    }

    /// Keeps what fits, and answers how much.
    fn put(&mut self, buf: &[u8]) -> usize
        ensures fit { result ≡ min (self.old.ring.room - length self.old.ring.octets) (length buf.now) }
        ensures put { self.new.ring ≡ holds_more self.old.ring (take result buf.now) }
        ensures closed { self.new.closed ≡ self.old.closed }
        ensures bound { result ≤ length buf.now }
    {
        self.ring.put(buf)
    }
}

/// A locked ring of octets. What it holds is whatever the threads that share it have left there, so
/// it tells no bytes.
#[derive(Drop)]
pub struct Pipe {
    held: Mutex<Held>,
}

impl Pipe {
    /// A pipe that holds at most this number of octets, whose room is made here.
    pub fn new(alloc: Global, room: usize) -> Result<Pipe, AllocError> {
        let ring = Ring::new(alloc, room)?;
        Ok(Pipe {
            held: Mutex::new(Held {
                ring,
                closed: false,
            }),
        })
    }

    /// Nothing more will be written: a read gives what is left, and then the end.
    pub fn close<S: Wait>(&self, rt: &S) {
        self.held.lock(rt).closed = true;
    }

    /// An end of the pipe, to read from or to write to.
    pub fn end<'a, S>(&'a self, rt: &'a S) -> PipeEnd<'a, S> {
        PipeEnd { pipe: self, rt }
    }
}

/// A reader or a writer of a pipe. A read of an empty pipe looks again 100 times, 1 ms apart, and
/// fails as WouldBlock then. A write takes what fits, and fails where nothing does.
#[derive(Drop)]
pub struct PipeEnd<'a, S> {
    pipe: &'a Pipe,
    rt: &'a S,
}

impl<'a, S: Wait + Clock> Read for PipeEnd<'a, S> {
    ghost remaining = { λ _. None };

    fn read(&mut self, buf: &mut [u8]) -> io::Result<usize>
        ensures bound { ReadsAtMost result buf.new }
        ensures bytes { ReadConsumes None None result buf.new }
    {
        for _look in 0..LOOKS {
            if let Some(n) = self.pipe.held.lock(self.rt).take(buf) {
                return Ok(n);
            }
            thread::sleep(self.rt, Duration::from_millis(APART));
        }
        match self.pipe.held.lock(self.rt).take(buf) {
            Some(n) => Ok(n),
            None => Err(Error::from(ErrorKind::WouldBlock)),
        }
    }
}

impl<'a, S: Wait + Clock> Write for PipeEnd<'a, S> {
    ghost contents = { λ _. None };

    fn write(&mut self, buf: &[u8]) -> io::Result<usize>
        ensures bound { WritesAtMost result buf.now }
        ensures bytes { WriteAppends None None result buf.now }
    {
        let taken = self.pipe.held.lock(self.rt).put(buf);
        if taken == 0 && !buf.is_empty() {
            return Err(Error::from(ErrorKind::WriteZero));
        }
        Ok(taken)
    }

    fn flush(&mut self) -> io::Result<()> {
        Ok(())
    }
}
