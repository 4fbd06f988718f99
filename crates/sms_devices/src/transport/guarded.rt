//! A connection to which nothing is written before all notes of the run's journal are in its file.

ghost use Rattle.std.specs.Prelude.{◌≡◌, IsErr, false};
ghost use Rattle.std.specs.Io.{WritesAtMost};
ghost use Rattle.std.specs.Io.KnownBytes.{Keeps, WriteAppends};

use crate::journal::{Journal, let_out_of};
use std::fs::OpenFile;
use std::io;
use std::io::{Error, ErrorKind, Write};
use std::net::{Shutdown, TcpStream};
use std::sync::Wait;

/// A connection guarded by the journal of a run: before each write all notes are written to the journal's
/// file. A run without a journal writes at once.
#[derive(Drop)]
pub struct Guarded<'j, W, R, F> {
    pub connection: W,
    pub rt: &'j R,
    pub journal: Option<&'j Journal<F>>,
}

/// Writes to the connection once the notes are written. If they couldn't be, nothing is written.
fn write_noted<W: Write>(is_let_out: bool, connection: &mut W, octets: &[u8]) -> io::Result<usize>
    ensures bound { WritesAtMost result octets.now }
    ensures bytes { WriteAppends (W.contents connection.old) (W.contents connection.new) result octets.now }
    ensures refused { is_let_out ≡ false → IsErr result }
    ensures kept { is_let_out ≡ false → connection.new ≡ connection.old }
{
    if is_let_out {
        connection.write(octets)
    } else {
        Err(Error::from(ErrorKind::Other))
    }
}

impl<'j, W: Write, R: Wait, F: Write + OpenFile> Write for Guarded<'j, W, R, F> {
    ghost contents = { λ g. W.contents g.connection };

    fn write(&mut self, buf: &[u8]) -> io::Result<usize>
        ensures bound { WritesAtMost result buf.now }
        ensures bytes { WriteAppends (W.contents self.old.connection) (W.contents self.new.connection) result buf.now }
    {
        let is_let_out = let_out_of(self.rt, self.journal);
        write_noted(is_let_out, &mut self.connection, buf)
    }

    fn flush(&mut self) -> io::Result<()>
        ensures bytes { Keeps (W.contents self.old.connection) (W.contents self.new.connection) }
    {
        self.connection.flush()
    }
}

/// A connection that can be shut down.
pub(crate) trait Shut {
    fn shut(&self, how: Shutdown);
}

impl Shut for TcpStream {
    fn shut(&self, how: Shutdown) {
        let _shut = self.shutdown(how);
    }
}

impl<'j, W: Shut, R, F> Shut for Guarded<'j, W, R, F> {
    fn shut(&self, how: Shutdown) {
        self.connection.shut(how);
    }
}
