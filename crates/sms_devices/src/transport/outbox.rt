//! What the wire of a bind has written and its connection has not taken yet. The requests of a turn go
//! out together, not by a write each.

ghost use Rattle.std.specs.Prelude.{◌≡◌, ⊤};
ghost use Rattle.std.specs.Io.{WritesAtMost};
ghost use Rattle.std.specs.Result.{result_ok};
ghost use Rattle.sms_devices.specs.Outboxes.{PutsInto};

use crate::journal::waits_for;
use crate::transport::buffered::Buffered;
use crate::transport::connecting::Unconnected;
use crate::transport::guarded::{Guarded, Shut};
use crate::transport::requests::Requests;
use crate::transport::room::room_before;
use std::alloc::Global;
use std::fs::OpenFile;
use std::io;
use std::io::{Error, ErrorKind, Write};
use std::net::{Shutdown, TcpStream};
use std::sync::{Mutex, Wait};

/// What the writer of a bind puts frames into.
pub trait TakesFrames<R> {
    ghost use Rattle.std.specs.Prelude.{ℕ, List, Result, ⊤};
    ghost use Rattle.std.specs.Io.{WritesAtMost};
    ghost use Rattle.std.specs.declared.io.Error.{Error};

    // What became of octets that were put.
    ghost puts: { Self → List ℕ → Result ℕ Error → Type 0 } = { λ _ _ _. ⊤ };

    /// Puts the octets of a frame. It is an error if there is no connection, or if a write to it failed, now or before.
    fn put(&self, rt: &R, octets: &[u8]) -> io::Result<usize>
        ensures bound { WritesAtMost result octets.now }
        ensures put { puts self.now octets.now result };

    /// Writes what waits. If another thread uses the outbox, it is left to that thread.
    fn write_out(&self);
}

/// Puts the octets of a frame into the buffer of a connection, if there is one, and counts the bind's requests.
fn put_into<W: Write + Shut + Drop>(
    connection: &mut Option<Buffered<W>>,
    requests: &Requests,
    octets: &[u8],
) -> io::Result<usize>
    ensures bound { WritesAtMost result octets.now }
    ensures put { PutsInto W.contents octets.now connection.old connection.new result }
{
    match connection.as_mut() {
        Some(open) => {
            let before = open.waiting();
            let put = open.put(octets);
            match &put {
                Ok(_count) => requests.put(octets, before, open.waiting()),
                Err(_broken) => requests.flush(before, open.waiting()),
            }
            put
        }
        None => Err(Error::from(ErrorKind::NotConnected)),
    }
}

/// The outbox of one bind. It has no connection until one is made.
#[derive(Drop)]
pub struct Outbox<'j, R: Wait, F: Write + OpenFile> {
    /// The buffered connection, once there is one. The writer of the bind puts frames into it.
    connection: Mutex<Option<Buffered<Guarded<'j, TcpStream, R, F>>>>,
    requests: Requests,
    /// Why there is no connection, if the last attempt to make one failed.
    unconnected: Mutex<Unconnected>,
}

impl<'j, R: Wait, F: Write + OpenFile> Outbox<'j, R, F> {
    /// An outbox without a connection.
    pub(crate) fn new() -> Outbox<'j, R, F> {
        Outbox {
            connection: Mutex::new(None),
            requests: Requests::new(),
            unconnected: Mutex::new(Unconnected::Other),
        }
    }

    /// Buffers what is written to this connection from now on. None if memory runs out.
    pub fn open(&self, alloc: Global, connection: Guarded<'j, TcpStream, R, F>) -> Option<()> {
        let rt = connection.rt;
        let room = room_before(waits_for(connection.journal));
        let buffered = Buffered::new(alloc, connection, room)?;
        *self.connection.lock(rt) = Some(buffered);
        Some(())
    }

    /// The connection's ends, if it was made. If it wasn't, the reason is kept.
    pub fn dialled<T: Drop>(&self, rt: &R, ends: Result<T, Unconnected>) -> Option<T>
        ensures { result ≡ result_ok ends }
    {
        match ends {
            Ok(ends) => Some(ends),
            Err(why) => {
                *self.unconnected.lock(rt) = why;
                None
            }
        }
    }

    /// Why there is no connection, if the last attempt to make one failed.
    pub(crate) fn reason(&self, rt: &R) -> Unconnected {
        *self.unconnected.lock(rt)
    }

    /// Lets go of the connection, if there is one, before the bind is made anew.
    pub(crate) fn renew(&self, rt: &R) {
        *self.connection.lock(rt) = None;
        self.requests.renew();
    }

    /// One of the bind's requests was answered.
    pub(crate) fn answer(&self) {
        self.requests.answer();
    }

    /// Gives the connection up if every request is answered that may have gone out. It is for a connection
    /// to which nothing is written any more. Does nothing while another thread uses the outbox: the next
    /// call looks again.
    pub(crate) fn give_up_answered(&self) {
        if let Some(mut connection) = self.connection.try_lock() {
            if let Some(open) = connection.as_mut() {
                if self.requests.are_answered() {
                    open.give_up(Shutdown::Both);
                }
            }
        }
    }

    /// Gives the connection up: nothing is written to it or read from it any more, and the bind's line
    /// goes down.
    pub(crate) fn give_up(&self, rt: &R) {
        if let Some(open) = self.connection.lock(rt).as_mut() {
            open.give_up(Shutdown::Both);
        }
    }

    /// Starts a burst after a pause, a long one or not. Does nothing while another thread uses the outbox.
    pub(crate) fn begin(&self, waited_long: bool) {
        if let Some(mut connection) = self.connection.try_lock() {
            if let Some(open) = connection.as_mut() {
                open.begin(waited_long);
            }
        }
    }

    /// Writes what waits. If another thread uses the outbox, it is left to that thread.
    pub fn flush(&self) {
        if let Some(mut connection) = self.connection.try_lock() {
            if let Some(open) = connection.as_mut() {
                let before = open.waiting();
                open.flush();
                self.requests.flush(before, open.waiting());
            }
        }
    }
}

impl<'j, R: Wait, F: Write + OpenFile> TakesFrames<R> for Outbox<'j, R, F> {
    fn put(&self, rt: &R, octets: &[u8]) -> io::Result<usize> {
        put_into(&mut *self.connection.lock(rt), &self.requests, octets)
    }

    fn write_out(&self) {
        self.flush();
    }
}
