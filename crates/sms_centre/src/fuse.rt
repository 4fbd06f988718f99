//! A device that fails after a number of octets.

ghost use Rattle.std.specs.Prelude.{◌≡◌, ◌+◌, MatchResult, IsErr};
ghost use Rattle.std.specs.Io.{ReadsAtMost, WritesAtMost};
ghost use Rattle.std.specs.Io.KnownBytes.{Keeps, ReadConsumes, WriteAppends};
ghost use Rattle.sms_centre.specs.Fuses.{device, octets_left};

use std::io;
use std::io::{Error, ErrorKind, Read, Write};

/// A reader or a writer that passes a number of octets, and then fails.
#[derive(Drop)]
pub struct Fuse<T> {
    inner: T,
    left: u64,
}

impl<T> Fuse<T> {
    /// A device that fails after this number of octets.
    pub fn new(inner: T, octets: u64) -> Fuse<T>
        ensures inner { device result ≡ inner }
        ensures left { octets_left result ≡ octets }
    {
        Fuse {
            inner,
            left: octets,
        }
    }
}

impl<R: Read> Read for Fuse<R> {
    ghost remaining = { λ f. R.remaining (device f) };

    fn read(&mut self, buf: &mut [u8]) -> io::Result<usize>
        ensures bound { ReadsAtMost result buf.new }
        ensures bytes { ReadConsumes (R.remaining (device self.old)) (R.remaining (device self.new)) result buf.new }
        ensures left { MatchResult result (λ n. octets_left self.new + n ≡ octets_left self.old) (λ _. octets_left self.new ≡ octets_left self.old) }
        ensures spent { octets_left self.old ≡ 0 → IsErr result }
    {
        if self.left == 0 {
            return Err(Error::from(ErrorKind::Other));
        }
        let most = self.left.min(buf.len() as u64) as usize;
        let n = self.inner.read(&mut buf[..most])?;
        self.left -= n as u64;
        Ok(n)
    }
}

impl<W: Write> Write for Fuse<W> {
    ghost contents = { λ f. W.contents (device f) };

    fn write(&mut self, buf: &[u8]) -> io::Result<usize>
        ensures bound { WritesAtMost result buf.now }
        ensures bytes { WriteAppends (W.contents (device self.old)) (W.contents (device self.new)) result buf.now }
        ensures left { MatchResult result (λ n. octets_left self.new + n ≡ octets_left self.old) (λ _. octets_left self.new ≡ octets_left self.old) }
        ensures spent { octets_left self.old ≡ 0 → IsErr result }
    {
        if self.left == 0 {
            return Err(Error::from(ErrorKind::Other));
        }
        let most = self.left.min(buf.len() as u64) as usize;
        let n = self.inner.write(&buf[..most])?;
        self.left -= n as u64;
        Ok(n)
    }

    fn flush(&mut self) -> io::Result<()>
        ensures bytes { Keeps (W.contents (device self.old)) (W.contents (device self.new)) }
        ensures left { octets_left self.new ≡ octets_left self.old }
    {
        self.inner.flush()
    }
}
