//! Devices in memory: a file with little room, a connection, clocks that stand still or are set by hand, and a
//! standard error that drops what it is given.

use sms_devices::{GateLimits, Notice, Progress, StopSigns, TakesNotices, Telling};
use std::alloc::Global;
use std::env::{Env, FillError};
use std::fmt::Display;
use std::fs::{Metadata, OpenFile};
use std::io::{Eprint, Error, ErrorKind, Write};
use std::sync::atomic::{AtomicU32, AtomicU64, Ordering};
use std::sync::{Mutex, Wait};
use std::time::{Clock, Duration};
use std::{io, mem};

/// The time at which a clock of the tests stands still, in milliseconds since 1970.
pub const STILL_MS: u64 = 1_700_000_000_123;

/// A clock that stands still, or can't be read.
#[derive(Drop)]
pub struct Still<'r, R> {
    pub rt: &'r R,
    pub can_be_read: bool,
}

impl<'r, R: Wait> Wait for Still<'r, R> {}

impl<'r, R> StopSigns for Still<'r, R> {}

impl<'r, R> Clock for Still<'r, R> {
    fn monotonic(&self) -> io::Result<Duration> {
        self.since_1970()
    }

    fn since_1970(&self) -> io::Result<Duration> {
        if self.can_be_read {
            Ok(Duration::from_millis(STILL_MS))
        } else {
            Err(Error::from(ErrorKind::Unsupported))
        }
    }
}

/// The system's clock, which is set by hand.
#[derive(Drop)]
pub struct SetClock<'r, R> {
    pub rt: &'r R,
    pub ms: AtomicU64,
}

impl<R: Wait> Wait for SetClock<'_, R> {}

impl<R> Clock for SetClock<'_, R> {
    fn monotonic(&self) -> io::Result<Duration> {
        Ok(Duration::from_millis(self.ms.load(Ordering::SeqCst)))
    }

    fn since_1970(&self) -> io::Result<Duration> {
        self.monotonic()
    }
}

/// What a file took, and how often that was made durable.
#[derive(Drop)]
pub struct Sheet {
    octets: Mutex<Vec<u8>>,
    syncs: AtomicU32,
}

impl Sheet {
    pub fn blank(alloc: Global) -> Sheet {
        Sheet {
            octets: Mutex::new(Vec::new(alloc)),
            syncs: AtomicU32::new(0),
        }
    }

    /// What was written since the last call.
    pub fn take<R: Wait>(&self, rt: &R, alloc: Global) -> Vec<u8> {
        let mut octets = self.octets.lock(rt);
        mem::replace(&mut *octets, Vec::new(alloc))
    }

    pub fn syncs(&self) -> u32 {
        self.syncs.load(Ordering::SeqCst)
    }
}

/// A file that takes `room` octets and then fails. `syncs` is whether it can be made durable.
#[derive(Drop)]
pub struct PaperFile<'r, R> {
    pub rt: &'r R,
    pub sheet: &'r Sheet,
    pub room: usize,
    pub syncs: bool,
    /// With what kind of error it fails.
    pub kind: ErrorKind,
}

impl<'r, R> PaperFile<'r, R> {
    /// A file that writes to this sheet, and fails once it is full.
    pub fn new(rt: &'r R, sheet: &'r Sheet, room: usize, syncs: bool) -> PaperFile<'r, R> {
        PaperFile {
            rt,
            sheet,
            room,
            syncs,
            kind: ErrorKind::StorageFull,
        }
    }
}

impl<'r, R: Wait> Write for PaperFile<'r, R> {
    fn write(&mut self, buf: &[u8]) -> io::Result<usize> {
        let taken = buf.len().min(self.room);
        if taken == 0 {
            return Err(Error::from(self.kind));
        }
        let mut octets = self.sheet.octets.lock(self.rt);
        octets.extend_from_slice(&buf[..taken])?;
        self.room -= taken;
        Ok(taken)
    }

    fn flush(&mut self) -> io::Result<()> {
        Ok(())
    }
}

impl<'r, R> OpenFile for PaperFile<'r, R> {
    fn metadata(&self) -> io::Result<Metadata> {
        Err(Error::from(ErrorKind::Unsupported))
    }

    fn set_len(&self, _size: u64) -> io::Result<()> {
        Err(Error::from(ErrorKind::Unsupported))
    }

    fn sync_all(&self) -> io::Result<()> {
        Err(Error::from(ErrorKind::Unsupported))
    }

    fn sync_data(&self) -> io::Result<()> {
        self.sheet.syncs.fetch_add(1, Ordering::SeqCst);
        if self.syncs {
            Ok(())
        } else {
            Err(Error::from(self.kind))
        }
    }
}

/// An environment with one variable.
#[derive(Drop)]
pub struct PaperEnv<'v> {
    pub name: &'v str,
    pub value: &'v str,
}

impl Env for PaperEnv<'_> {
    fn arg(&self, _place: usize, _buf: &mut [u8]) -> Result<usize, FillError> {
        Err(FillError::NotPresent)
    }

    fn var(&self, name: &str, buf: &mut [u8]) -> Result<usize, FillError> {
        if name != self.name {
            return Err(FillError::NotPresent);
        }
        let value = self.value.as_bytes();
        if value.len() > buf.len() {
            return Err(FillError::TooLong);
        }
        buf[..value.len()].copy_from_slice(value);
        Ok(value.len())
    }

    fn var_at(&self, _place: usize, _buf: &mut [u8]) -> Result<usize, FillError> {
        Err(FillError::NotPresent)
    }
}

/// A connection that keeps what is written to it.
#[derive(Drop)]
pub struct Line {
    pub octets: Vec<u8>,
}

impl Write for Line {
    fn write(&mut self, buf: &[u8]) -> io::Result<usize> {
        self.octets.extend_from_slice(buf)?;
        Ok(buf.len())
    }

    fn flush(&mut self) -> io::Result<()> {
        Ok(())
    }
}

/// A standard error that drops what it is given.
#[derive(Clone, Copy, Drop)]
pub struct Nowhere;

impl Eprint for Nowhere {
    fn eprint<D: Display + Drop>(&self, value: D) -> io::Result<()> {
        drop(value);
        Ok(())
    }

    fn eprintln<D: Display + Drop>(&self, value: D) -> io::Result<()> {
        drop(value);
        Ok(())
    }
}

impl TakesNotices for Nowhere {
    fn tell(&self, _notice: Notice) -> bool {
        false
    }

    fn settle(&self) -> bool {
        true
    }
}

/// The progress of a run that shows none.
pub fn no_progress<'r, K: sms_worker::Clock>(
    screen: &'r Nowhere,
    clock: &'r K,
) -> Progress<'r, Nowhere, Nowhere, K> {
    Progress::new(screen, Nowhere, clock, Telling::Nothing, 0, false)
}

/// The limits of a gate that waits 500 ms for an answer.
pub fn limits(rate: Option<u32>, stop_after: Option<u32>) -> GateLimits {
    GateLimits {
        answer_ms: 500,
        rate,
        stop_after,
    }
}

/// A clock of the sending that is set by hand.
#[derive(Drop)]
pub struct ManualClock {
    ms: AtomicU64,
}

impl ManualClock {
    pub fn new(ms: u64) -> ManualClock {
        ManualClock {
            ms: AtomicU64::new(ms),
        }
    }

    pub fn set(&self, ms: u64) {
        self.ms.store(ms, Ordering::SeqCst);
    }
}

impl sms_worker::Clock for ManualClock {
    fn now_ms(&self) -> u64 {
        self.ms.load(Ordering::SeqCst)
    }
}
