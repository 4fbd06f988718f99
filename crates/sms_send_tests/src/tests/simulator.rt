//! A message centre in memory, for the tests: it answers within each write, and time goes on only
//! while nobody has anything to do, so that a sending never hangs on how fast its threads are.

ghost use Rattle.std.specs.Prelude.{◌≤◌, length, IfSome};

use sms_bind::Plain;
use sms_centre::{Centre, Fuse, Script};
use sms_driver::Dial;
use sms_pdu::{Frame, Framer, UNBIND, UNBIND_RESP, drop_front};
use sms_worker::{Clock, Pause};
use std::alloc::{AllocError, Global};
use std::io::{Error, ErrorKind, Read, Write};
use std::sync::{Mutex, Wait};
use std::{io, thread};

/// How many connections there are at most.
const CONNECTIONS: usize = 2;

/// The length of a PDU without a body. What is shorter is cut, and nothing comes behind it.
const SHORTEST: usize = 16;

/// One connection, as the centre sees it.
#[derive(Drop)]
struct Connection {
    centre: Centre,
    framer: Framer,
    /// All that was written to it.
    heard: Vec<u8>,
    /// What is said and isn't read yet.
    said: Vec<u8>,
    /// Whether the centre has hung up.
    closed: bool,
    /// Whether a read came in vain since the last write.
    idle: bool,
    /// Whether the sender let go of an end of it, so that nobody reads it any more.
    left: bool,
}

impl Connection {
    /// Answers the frames that these octets end.
    fn hear(&mut self, alloc: Global, octets: &[u8]) -> Result<(), AllocError> {
        self.idle = false;
        self.heard.extend_from_slice(octets)?;
        for frame in self.framer.feed(octets)?.frames.into_vec() {
            if !self.closed {
                self.answer(alloc, &frame)?;
            }
        }
        Ok(())
    }

    fn answer(&mut self, alloc: Global, frame: &Frame) -> Result<(), AllocError> {
        for piece in self.centre.answer(alloc, frame)? {
            self.said.extend_from_slice(piece.as_slice())?;
            self.closed = self.closed || piece.as_slice().len() < SHORTEST;
        }
        let command = frame.header().command;
        self.closed = self.closed || command == UNBIND || command == UNBIND_RESP;
        Ok(())
    }

    /// Whether all that was said is read, and what was read is worked, or nobody will.
    fn is_at_rest(&self) -> bool {
        self.idle || self.left || (self.closed && self.said.is_empty())
    }

    /// Gives what is said, as much as fits; no octets at the end; `None` where there is nothing yet.
    fn give(&mut self, buf: &mut [u8]) -> Option<usize>
        ensures { IfSome result (λ n. n ≤ length buf.new) }
    {
        let count = self.said.len().min(buf.len());
        buf[..count].copy_from_slice(&self.said[..count]);
        drop_front(&mut self.said, count);
        self.idle = count == 0;
        if count == 0 && !self.closed {
            return None;
        }
        Some(count)
    }
}

/// What stands behind the lock.
#[derive(Drop)]
struct State {
    connections: Vec<Connection>,
    now_ms: u64,
}

impl State {
    /// What is written to a connection. A centre that has no memory hangs up.
    fn hear(&mut self, alloc: Global, place: usize, octets: &[u8]) {
        if let Some(connection) = self.connections.get_mut(place) {
            if connection.hear(alloc, octets).is_err() {
                connection.closed = true;
            }
        }
    }

    fn give(&mut self, place: usize, buf: &mut [u8]) -> Option<usize>
        ensures { IfSome result (λ n. n ≤ length buf.new) }
    {
        match self.connections.get_mut(place) {
            Some(connection) => connection.give(buf),
            None => Some(0),
        }
    }

    fn leave(&mut self, place: usize) {
        if let Some(connection) = self.connections.get_mut(place) {
            connection.left = true;
        }
    }

    /// Lets time pass, unless some octets are still to be read or worked.
    fn pass_time(&mut self, ms: u32) -> bool {
        for connection in self.connections.as_slice() {
            if !connection.is_at_rest() {
                return false;
            }
        }
        self.now_ms = self.now_ms.saturating_add(u64::from(ms));
        true
    }
}

/// The centre, with a script for each connection.
#[derive(Drop)]
pub struct Simulator {
    state: Mutex<State>,
}

impl Simulator {
    /// A centre that does as these texts of a script say.
    pub fn new(
        alloc: Global,
        bind_status: u32,
        answers: &[String],
    ) -> Result<Simulator, AllocError> {
        let mut connections = Vec::new(alloc);
        for _connection in 0..CONNECTIONS {
            let Ok(script) = Script::of(alloc, bind_status, answers) else {
                return Err(AllocError);
            };
            connections.push(Connection {
                centre: Centre::new(alloc, script)?,
                framer: Framer::new(alloc),
                heard: Vec::new(alloc),
                said: Vec::new(alloc),
                closed: false,
                idle: true,
                left: false,
            })?;
        }
        let state = State {
            connections,
            now_ms: 0,
        };
        Ok(Simulator {
            state: Mutex::new(state),
        })
    }

    /// The octets that came on the first connection.
    pub fn into_heard(self, alloc: Global) -> Vec<u8> {
        let State { connections, .. } = self.state.into_inner();
        match connections.into_iter().next() {
            Some(Connection { heard, .. }) => heard,
            None => Vec::new(alloc),
        }
    }
}

/// An end of a connection, which is left once the end is let go.
pub struct Near<'a, S: Wait> {
    rt: &'a S,
    alloc: Global,
    simulator: &'a Simulator,
    place: usize,
}

impl<'a, S: Wait> Drop for Near<'a, S> {
    fn drop(self) {
        let Near {
            rt,
            alloc: _,
            simulator,
            place,
        } = self;
        simulator.state.lock(rt).leave(place);
    }
}

impl<'a, S: Wait> Read for Near<'a, S> {
    fn read(&mut self, buf: &mut [u8]) -> io::Result<usize> {
        match self.simulator.state.lock(self.rt).give(self.place, buf) {
            Some(count) => Ok(count),
            None => {
                thread::yield_now();
                Err(Error::from(ErrorKind::WouldBlock))
            }
        }
    }
}

impl<'a, S: Wait> Write for Near<'a, S> {
    fn write(&mut self, buf: &[u8]) -> io::Result<usize> {
        self.simulator
            .state
            .lock(self.rt)
            .hear(self.alloc, self.place, buf);
        Ok(buf.len())
    }

    fn flush(&mut self) -> io::Result<()> {
        Ok(())
    }
}

/// What a sender needs beside it: connections that fail after so many octets, the clock and the
/// pause.
#[derive(Drop)]
pub struct Beside<'a, S> {
    pub rt: &'a S,
    pub alloc: Global,
    pub simulator: &'a Simulator,
    /// How many octets a connection's reader gives.
    pub reads: u64,
    /// How many octets its writer takes.
    pub writes: u64,
}

impl<'a, S: Wait> Beside<'a, S> {
    fn near(&self, bind: u32) -> Near<'a, S> {
        Near {
            rt: self.rt,
            alloc: self.alloc,
            simulator: self.simulator,
            place: bind as usize,
        }
    }
}

impl<'a, S: Wait + Sync> Dial for Beside<'a, S> {
    type Reader = Plain<Fuse<Near<'a, S>>>;

    type Writer = Fuse<Near<'a, S>>;

    fn dial(&self, bind: u32) -> Option<(Plain<Fuse<Near<'a, S>>>, Fuse<Near<'a, S>>)> {
        let input = Fuse::new(self.near(bind), self.reads);
        let writer = Fuse::new(self.near(bind), self.writes);
        Some((Plain { input }, writer))
    }
}

impl<'a, S: Wait> Clock for Beside<'a, S> {
    fn now_ms(&self) -> u64 {
        self.simulator.state.lock(self.rt).now_ms
    }
}

impl<'a, S: Wait> Pause for Beside<'a, S> {
    fn pause(&self, ms: u32) {
        if !self.simulator.state.lock(self.rt).pass_time(ms) {
            thread::yield_now();
        }
    }
}
