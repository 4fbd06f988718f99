//! How the connections of binds are made.

use crate::transport::connecting::{Unconnected, connect};
use crate::transport::guarded::Guarded;
use crate::transport::opening::Deadline;
use crate::transport::outboxes::Outboxes;
use crate::transport::serving::serve_own;
use std::alloc::Global;
use std::fs::OpenFile;
use std::io::{Read, Write};
use std::net::{Ipv4Addr, Net, TcpListener, TcpStream};
use std::sync::Wait;
use std::thread::Threads;
use std::time::{Clock, Duration};

/// How many milliseconds a read waits for octets.
const READ_MS: u64 = 100;

/// A bind of one of a run's rounds.
#[derive(Clone, Copy, Debug, PartialEq, Eq)]
pub struct RoundBind {
    /// The round's number; the first of a run is 1.
    pub round: u64,
    /// The bind's number, counted from 0.
    pub bind: u32,
}

/// Makes connections. Before a connection is written to, all notes of the run's journal are written, if it has one.
pub trait Connects: Wait {
    ghost use Rattle.std.specs.Prelude.{◌≡◌, ℕ, Bool, List, Option, None, IfOk, map, string_bytes};
    ghost use Rattle.sms_devices.specs.Centres.{CentreAt};
    ghost use Rattle.sms_devices.specs.Centres.CentreAt.{Named, Own};
    ghost use Rattle.sms_devices.specs.Outboxes.{has_journal};

    /// The reading end of a connection.
    type Incoming: Read + Send + Drop;

    // The octets that a connection to this centre will give, in a run with a journal or without, in the round with this
    // number, for the bind with that one, if they are known.
    ghost tells: { Self → CentreAt → Bool → ℕ → ℕ → Option (List ℕ) } = { λ _ _ _ _ _. None };

    /// A listener on a free port of the loopback interface.
    fn listen(&self) -> Option<TcpListener>;

    /// A new connection to the message centre at a port of a host, or why there is none. It is waited for until the
    /// deadline, if there is one.
    fn reach<'j, F: Write + OpenFile>(
        &self,
        outboxes: &Outboxes<'j, Self, F>,
        place: RoundBind,
        host: &str,
        port: u16,
        deadline: Option<Deadline>,
    ) -> Result<(Self::Incoming, Guarded<'j, TcpStream, Self, F>), Unconnected>
        ensures octets { IfOk result (λ ends. Self.Incoming.remaining ends.0 ≡ tells self.now (Named host.now port) (has_journal outboxes.now) place.round place.bind) };

    /// A new connection through the listener to a test centre with this script, or why there is none. The centre is
    /// started for this connection, in a thread of its own.
    fn reach_own<'j, F: Write + OpenFile>(
        &self,
        alloc: Global,
        outboxes: &Outboxes<'j, Self, F>,
        place: RoundBind,
        listener: &TcpListener,
        bind_status: u32,
        answers: &[String],
        deadline: Option<Deadline>,
    ) -> Result<(Self::Incoming, Guarded<'j, TcpStream, Self, F>), Unconnected>
        ensures octets { IfOk result (λ ends. Self.Incoming.remaining ends.0 ≡ tells self.now (Own bind_status (map string_bytes answers.now)) (has_journal outboxes.now) place.round place.bind) };
}

impl<R: Net<Stream = TcpStream, Listener = TcpListener> + Threads + Clock + Wait> Connects for R {
    type Incoming = TcpStream;

    fn listen(&self) -> Option<TcpListener> {
        TcpListener::bind(self, (Ipv4Addr::LOCALHOST, 0u16)).ok()
    }

    fn reach<'j, F: Write + OpenFile>(
        &self,
        outboxes: &Outboxes<'j, R, F>,
        _place: RoundBind,
        host: &str,
        port: u16,
        deadline: Option<Deadline>,
    ) -> Result<(TcpStream, Guarded<'j, TcpStream, R, F>), Unconnected> {
        let stream = connect(self, (host, port), deadline)?;
        set_up(outboxes, stream).ok_or(Unconnected::Other)
    }

    fn reach_own<'j, F: Write + OpenFile>(
        &self,
        alloc: Global,
        outboxes: &Outboxes<'j, R, F>,
        _place: RoundBind,
        listener: &TcpListener,
        bind_status: u32,
        answers: &[String],
        deadline: Option<Deadline>,
    ) -> Result<(TcpStream, Guarded<'j, TcpStream, R, F>), Unconnected> {
        let Ok(address) = listener.local_addr() else {
            return Err(Unconnected::Other);
        };
        let near = connect(self, address, deadline)?;
        serve_own(self, alloc, listener, &near, bind_status, answers).ok_or(Unconnected::Other)?;
        set_up(outboxes, near).ok_or(Unconnected::Other)
    }
}

/// The reading end and the writing end of a stream. What is written isn't delayed to be joined with more. A read
/// waits for 100 ms at most. If the connection takes nothing, a write waits as long as the outboxes allow.
fn set_up<'j, R: Wait, F: Write + OpenFile>(
    outboxes: &Outboxes<'j, R, F>,
    stream: TcpStream,
) -> Option<(TcpStream, Guarded<'j, TcpStream, R, F>)> {
    stream.set_nodelay(true).ok()?;
    stream
        .set_read_timeout(Some(Duration::from_millis(READ_MS)))
        .ok()?;
    stream.set_write_timeout(outboxes.patience()).ok()?;
    let incoming = stream.try_clone().ok()?;
    Some((incoming, outboxes.guard(stream)))
}
