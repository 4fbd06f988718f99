//! The buffered writer of one connection.

ghost use Rattle.std.specs.Prelude.{◌≡◌, ◌+◌, ◌<◌, ◌≤◌, [], IfOk, IfSome, false, if◌then◌else◌, is_err, length, min, true};
ghost use Rattle.std.specs.Io.{WritesAtMost};
ghost use Rattle.std.specs.Io.KnownBytes.{Keeps, WriteAppends};
ghost use Rattle.sms_devices.specs.Outboxes.{put_in, waiting_in};

use crate::transport::guarded::Shut;
use crate::transport::room::Room;
use std::alloc::Global;
use std::io;
use std::io::{BufWriter, Error, ErrorKind, Write};
use std::net::Shutdown;

/// How many octets may wait once a full buffer had to be written: twice as many as before, but no more than there is
/// room for.
fn next_waiting(waiting: usize, most: usize) -> usize
    ensures { result ≡ min (waiting + waiting) most }
{
    waiting.saturating_add(waiting).min(most)
}

/// A connection's writer with its buffer. Once a write has failed it takes nothing more, and what is in
/// the buffer is lost.
#[derive(Drop)]
pub(crate) struct Buffered<W: Write + Shut + Drop> {
    writer: BufWriter<W>,
    room: Room,
    /// How many octets wait at most now: a buffer with this many is written before more is put into it.
    most_waiting: usize,
    is_broken: bool,
}

impl<W: Write + Shut + Drop> Buffered<W> {
    /// An empty buffer with this room before a connection. None if memory runs out.
    pub(crate) fn new(alloc: Global, connection: W, room: Room) -> Option<Buffered<W>>
        ensures empty { IfSome result (λ b. waiting_in b ≡ []) }
        ensures unbroken { IfSome result (λ b. b.is_broken ≡ false) }
        ensures room { IfSome result (λ b. b.room ≡ room) }
        ensures most { IfSome result (λ b. b.most_waiting ≡ room.first) }
    {
        match BufWriter::with_capacity(alloc, room.most, connection) {
            Ok(writer) => Some(Buffered {
                writer,
                room,
                most_waiting: room.first,
                is_broken: false,
            }),
            Err(_refused) => None,
        }
    }

    /// Puts octets into the buffer, and writes what has no room in it. After a failure it takes nothing.
    pub(crate) fn put(&mut self, octets: &[u8]) -> io::Result<usize>
        ensures bound { WritesAtMost result octets.now }
        // What was written and what waits after it is what was put, in order.
        ensures bytes { WriteAppends (put_in W.contents self.old) (put_in W.contents self.new) result octets.now }
        ensures broken { self.new.is_broken ≡ is_err result }
        ensures ignored { self.old.is_broken ≡ true → self.new ≡ self.old }
    {
        if self.is_broken {
            return Err(Error::from(ErrorKind::BrokenPipe));
        }
        let put = match self.make_room() {
            Ok(()) => self.writer.write(octets),
            Err(error) => Err(error),
        };
        if put.is_err() {
            self.give_up(Shutdown::Write);
        }
        put
    }

    /// Starts a burst. After a long pause fewer octets may wait at first; otherwise the whole buffer is used.
    pub(crate) fn begin(&mut self, waited_long: bool)
        ensures waiting { self.new.most_waiting ≡ (if waited_long then self.old.room.first else self.old.room.most) }
        ensures unchanged { (self.new.writer ≡ self.old.writer) × (self.new.is_broken ≡ self.old.is_broken) × (self.new.room ≡ self.old.room) }
    {
        self.most_waiting = if waited_long {
            self.room.first
        } else {
            self.room.most
        };
    }

    /// Makes room for more octets: if as many wait as may, they are written, and twice as many may wait from
    /// then on.
    fn make_room(&mut self) -> io::Result<()>
        ensures bytes { Keeps (put_in W.contents self.old) (put_in W.contents self.new) }
        ensures unchanged { (self.new.is_broken ≡ self.old.is_broken) × (self.new.room ≡ self.old.room) }
        ensures kept { length (waiting_in self.old) < self.old.most_waiting → self.new ≡ self.old }
        ensures written { self.old.most_waiting ≤ length (waiting_in self.old) → IfOk result (λ _. waiting_in self.new ≡ []) }
        ensures more { self.old.most_waiting ≤ length (waiting_in self.old) → IfOk result (λ _. self.new.most_waiting ≡ min (self.old.most_waiting + self.old.most_waiting) self.old.room.most) }
    {
        if self.writer.buffer().len() >= self.most_waiting {
            self.writer.flush()?;
            self.most_waiting = next_waiting(self.most_waiting, self.room.most);
        }
        Ok(())
    }

    /// Writes what waits.
    pub(crate) fn flush(&mut self)
        ensures bytes { Keeps (put_in W.contents self.old) (put_in W.contents self.new) }
        ensures emptied { self.new.is_broken ≡ false → waiting_in self.new ≡ [] }
        ensures ignored { self.old.is_broken ≡ true → self.new ≡ self.old }
    {
        if self.is_broken {
            return;
        }
        if self.writer.flush().is_err() {
            self.give_up(Shutdown::Write);
        }
    }

    /// How many octets wait.
    pub(crate) fn waiting(&self) -> usize {
        self.writer.buffer().len()
    }

    /// Shuts the connection down, for writing or for both ways. Nothing is written to it any more, not
    /// even what still waits when the outbox is dropped.
    pub(crate) fn give_up(&mut self, how: Shutdown)
        ensures writer { self.new.writer ≡ self.old.writer }
        ensures broken { self.new.is_broken ≡ true }
    {
        self.is_broken = true;
        self.writer.get_ref().shut(how);
    }
}
