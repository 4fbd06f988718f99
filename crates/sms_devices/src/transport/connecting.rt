//! How a connection is made, and why there is none.

ghost use Rattle.std.specs.Prelude.{◌≡◌, List, IfErr, IsErrAnd, ⊤};
ghost use Rattle.std.specs.IoError.{error_kind};
ghost use Rattle.std.specs.Iterator.{Drains, IsFinite};
ghost use Rattle.std.specs.declared.net.SocketAddr.{SocketAddr};
ghost use Rattle.sms_devices.specs.Connecting.{IsLastReason, name_reason, reason_of};

use crate::transport::opening::Deadline;
use std::io;
use std::io::{Error, ErrorKind};
use std::net::{Net, SocketAddr, TcpStream, ToSocketAddrs};
use std::time::Clock;

/// Why there is no connection.
#[derive(Clone, Copy, Debug, PartialEq, Eq)]
pub enum Unconnected {
    /// It was refused: nobody accepts connections at this port.
    Refused,
    /// The name of the host could not be resolved.
    Unresolved,
    /// It took longer than allowed, or than the system waits.
    TimedOut,
    /// There is no route to the host or its network.
    Unreachable,
    /// Anything else. It may be this machine: it has no descriptor, port or memory left, or the program's own
    /// test centre could not be started.
    Other,
}

/// Why a bind has no connection.
#[derive(Clone, Copy, Debug, PartialEq, Eq)]
pub struct Reason {
    /// The bind's number, counted from 0.
    pub bind: u32,
    pub why: Unconnected,
}

/// The reason that an error of this kind gives, when an address is connected to.
fn reason_of(kind: ErrorKind) -> Unconnected
    ensures { result ≡ reason_of kind }
{
    match kind {
        ErrorKind::ConnectionRefused => Unconnected::Refused,
        ErrorKind::TimedOut => Unconnected::TimedOut,
        ErrorKind::HostUnreachable | ErrorKind::NetworkUnreachable | ErrorKind::NetworkDown =>
            Unconnected::Unreachable,
        _ => Unconnected::Other,
    }
}

/// The reason that an error gives, when a host's name is resolved.
fn name_reason(error: &Error) -> Unconnected
    ensures { result ≡ name_reason error.now }
{
    match error.raw_os_error() {
        Some(_number) => reason_of(error.kind()),
        None => match error.kind() {
            ErrorKind::OutOfMemory => Unconnected::Other,
            _ => Unconnected::Unresolved,
        },
    }
}

/// The connection to an address, or why there is none.
fn answer_of<T: Drop>(asked: io::Result<T>) -> Result<T, Unconnected>
    ensures { IfErr result (λ why. IsErrAnd asked (λ error. why ≡ reason_of (error_kind error))) }
{
    match asked {
        Ok(stream) => Ok(stream),
        Err(error) => Err(reason_of(error.kind())),
    }
}

/// A way to connect to an address.
trait Asks {
    ghost use Rattle.sms_devices.specs.declared.transport.connecting.Unconnected.{Unconnected};

    /// The connection.
    type Stream: Drop;

    /// The reasons that an address may give, if it doesn't connect.
    ghost says: { Self → SocketAddr → Unconnected → Type 0 };

    /// The connection to an address.
    fn ask(&self, address: SocketAddr) -> Result<Self::Stream, Unconnected>
        ensures { IfErr result (says self.now address) };
}

/// The connection to the first of these addresses that connects. If none does, the reason that the last gives.
fn first_of<K: Asks, I: Iterator<Item = SocketAddr> + Drop>(
    asks: &K,
    addresses: I,
) -> Result<K::Stream, Unconnected>
    requires can { I.can_next addresses }
    requires ends { IsFinite (I.remaining addresses) }
    ensures { IfErr result (λ why. (asked : List SocketAddr) × Drains I.next_gives addresses asked × IsLastReason (K.says asks.now) asked why) }
{
    let mut last = Unconnected::Unresolved;
    for address in addresses {
        match asks.ask(address) {
            Ok(stream) => return Ok(stream),
            Err(why) => last = why,
        }
    }
    Err(last)
}

/// Connects over TCP, until a deadline if there is one.
#[derive(Drop)]
struct OverTcp<'r, R> {
    rt: &'r R,
    deadline: Option<Deadline>,
}

impl<'r, R: Net<Stream = TcpStream> + Clock> Asks for OverTcp<'r, R> {
    type Stream = TcpStream;

    ghost says = { λ _ _ _. ⊤ };

    fn ask(&self, address: SocketAddr) -> Result<TcpStream, Unconnected> {
        let Some(deadline) = self.deadline else {
            return answer_of(TcpStream::connect(self.rt, address));
        };
        let left = deadline.left(self.rt);
        if left.is_zero() {
            return Err(Unconnected::TimedOut);
        }
        answer_of(TcpStream::connect_timeout(self.rt, &address, left))
    }
}

/// Connects to the first of the addresses that accepts.
pub(crate) fn connect<R: Net<Stream = TcpStream> + Clock, A: ToSocketAddrs>(
    rt: &R,
    addresses: A,
    deadline: Option<Deadline>,
) -> Result<TcpStream, Unconnected> {
    match addresses.to_socket_addrs(rt) {
        Ok(found) => first_of(&OverTcp { rt, deadline }, found),
        Err(error) => Err(name_reason(&error)),
    }
}
