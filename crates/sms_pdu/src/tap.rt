//! Readers and writers whose errors are counted.

ghost use Rattle.std.specs.Prelude.{◌≡◌, ◌<◌, ◌≤◌, length, MatchResult, IfOk, OnOk, OnErr};
ghost use Rattle.std.specs.Io.{ReadsAtMost, WritesAtMost};
ghost use Rattle.std.specs.Io.KnownBytes.{Appends, Keeps, ReadConsumes, WriteAppends};
ghost use Rattle.std.specs.IoError.{error_kind};
ghost use Rattle.sms_pdu.specs.Devices.{device, faults_of, failures_of};
ghost use Rattle.sms_pdu.specs.Faults.{Counts, IsCounted, failures_after};
ghost use Rattle.sms_pdu.specs.Streams.{FewerAppended};

use crate::turn::gave_nothing;
use crate::writing::write_octets;
use std::io;
use std::io::{Error, ErrorKind, Read, Write};

/// A reader or a writer with the number of errors that it answered, and of those among them that say
/// more than that nothing came. Each number stays at its greatest value.
#[derive(Drop)]
pub struct Tap<T> {
    inner: T,
    faults: u64,
    failures: u64,
}

impl<T> Tap<T> {
    /// A device that has answered no error.
    pub fn new(inner: T) -> Tap<T>
        ensures inner { device result ≡ inner }
        ensures faults { faults_of result ≡ 0 }
        ensures failures { failures_of result ≡ 0 }
    {
        Tap {
            inner,
            faults: 0,
            failures: 0,
        }
    }

    /// How many errors it answered.
    pub fn faults(&self) -> u64
        ensures { result ≡ faults_of self.now }
    {
        self.faults
    }

    /// How many of them were of another kind than WouldBlock, TimedOut and Interrupted.
    pub fn failures(&self) -> u64
        ensures { result ≡ failures_of self.now }
    {
        self.failures
    }

    /// The device again, and its counts are forgotten.
    pub fn into_inner(self) -> T
        ensures { result ≡ device self }
    {
        self.inner
    }

    /// Counts one error more.
    fn count(&mut self, e: &Error)
        ensures inner { device self.new ≡ device self.old }
        ensures faults { Counts (faults_of self.old) (faults_of self.new) }
        ensures counted { IsCounted (faults_of self.old) (faults_of self.new) }
        ensures grows { faults_of self.old ≤ faults_of self.new }
        ensures failures { failures_of self.new ≡ failures_after (error_kind e.now) (failures_of self.old) }
    {
        self.faults = self.faults.saturating_add(1);
        if !gave_nothing(e) {
            self.failures = self.failures.saturating_add(1);
        }
    }
}

impl<R: Read> Read for Tap<R> {
    ghost remaining = { λ t. R.remaining (device t) };

    fn read(&mut self, buf: &mut [u8]) -> io::Result<usize>
        ensures bound { ReadsAtMost result buf.new }
        ensures bytes { ReadConsumes (R.remaining (device self.old)) (R.remaining (device self.new)) result buf.new }
        ensures faults { MatchResult result (λ _. faults_of self.new ≡ faults_of self.old) (λ _. Counts (faults_of self.old) (faults_of self.new)) }
        ensures counted { OnErr result (IsCounted (faults_of self.old) (faults_of self.new)) }
        ensures grows { faults_of self.old ≤ faults_of self.new }
        ensures failures { MatchResult result (λ _. failures_of self.new ≡ failures_of self.old) (λ e. failures_of self.new ≡ failures_after (error_kind e) (failures_of self.old)) }
    {
        match self.inner.read(buf) {
            Ok(n) => Ok(n),
            Err(e) => {
                self.count(&e);
                Err(e)
            }
        }
    }
}

impl<W: Write> Write for Tap<W> {
    ghost contents = { λ t. W.contents (device t) };

    fn write(&mut self, buf: &[u8]) -> io::Result<usize>
        ensures bound { WritesAtMost result buf.now }
        ensures bytes { WriteAppends (W.contents (device self.old)) (W.contents (device self.new)) result buf.now }
        ensures some { IfOk result (λ n. 0 < length buf.now → 0 < n) }
        ensures faults { MatchResult result (λ _. faults_of self.new ≡ faults_of self.old) (λ _. Counts (faults_of self.old) (faults_of self.new)) }
        ensures failures { MatchResult result (λ _. failures_of self.new ≡ failures_of self.old) (λ e. failures_of self.new ≡ failures_after (error_kind e) (failures_of self.old)) }
        ensures counted { OnErr result (IsCounted (faults_of self.old) (faults_of self.new)) }
    {
        match self.inner.write(buf) {
            Ok(0) if !buf.is_empty() => {
                let e = Error::from(ErrorKind::WriteZero);
                self.count(&e);
                Err(e)
            }
            Ok(n) => Ok(n),
            Err(e) => {
                self.count(&e);
                Err(e)
            }
        }
    }

    fn flush(&mut self) -> io::Result<()>
        ensures bytes { Keeps (W.contents (device self.old)) (W.contents (device self.new)) }
        ensures faults { MatchResult result (λ _. faults_of self.new ≡ faults_of self.old) (λ _. Counts (faults_of self.old) (faults_of self.new)) }
        ensures failures { MatchResult result (λ _. failures_of self.new ≡ failures_of self.old) (λ e. failures_of self.new ≡ failures_after (error_kind e) (failures_of self.old)) }
    {
        match self.inner.flush() {
            Ok(()) => Ok(()),
            Err(e) => {
                self.count(&e);
                Err(e)
            }
        }
    }
}

impl<W: Write> Tap<W> {
    /// Writes all bytes, in as many writes as it takes, up to the first that fails; then not all are
    /// written. That counts as one error.
    pub fn put(&mut self, bytes: &[u8]) -> io::Result<()>
        ensures all { OnOk result (Appends (W.contents (device self.old)) (W.contents (device self.new)) bytes.now) }
        ensures some { OnErr result (FewerAppended (W.contents (device self.old)) (W.contents (device self.new)) bytes.now) }
        ensures faults { MatchResult result (λ _. faults_of self.new ≡ faults_of self.old) (λ _. Counts (faults_of self.old) (faults_of self.new)) }
        ensures failures { MatchResult result (λ _. failures_of self.new ≡ failures_of self.old) (λ e. failures_of self.new ≡ failures_after (error_kind e) (failures_of self.old)) }
        ensures counted { OnErr result (IsCounted (faults_of self.old) (faults_of self.new)) }
    {
        match write_octets(&mut self.inner, bytes) {
            Ok(()) => Ok(()),
            Err(e) => {
                self.count(&e);
                Err(e)
            }
        }
    }
}
