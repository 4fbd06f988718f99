//! The program's own test centres, each for one connection.

use sms_centre::{Script, serve};
use sms_pdu::Tap;
use std::alloc::Global;
use std::net::{SocketAddr, TcpListener, TcpStream};
use std::thread;
use std::thread::Threads;

/// How many turns a test centre takes.
const CENTRE_TURNS: u64 = 1 << 40;

/// How many others may connect to a test centre before its own sender.
const MOST_STRANGERS: u32 = 1 << 20;

/// Starts a test centre at the other end of a connection that was made to this listener.
pub(crate) fn serve_own<R: Threads>(
    rt: &R,
    alloc: Global,
    listener: &TcpListener,
    near: &TcpStream,
    bind_status: u32,
    answers: &[String],
) -> Option<()> {
    let far = accept_from(listener, near.local_addr().ok()?)?;
    let script = Script::of(alloc, bind_status, answers).ok()?;
    start_centre(rt, alloc, far, script)
}

/// The connection that comes from this address. Any other connection is closed.
fn accept_from(listener: &TcpListener, near: SocketAddr) -> Option<TcpStream> {
    for _ in 0..MOST_STRANGERS {
        let (far, from) = listener.accept().ok()?;
        if from == near {
            return Some(far);
        }
    }
    None
}

/// Serves the connection to its end, in a thread of its own.
fn start_centre<R: Threads>(
    rt: &R,
    alloc: Global,
    stream: TcpStream,
    script: Script,
) -> Option<()> {
    stream.set_nodelay(true).ok()?;
    let mut reader = Tap::new(stream.try_clone().ok()?);
    let mut writer = Tap::new(stream);
    let centre = move || {
        let _end = serve(alloc, &mut reader, &mut writer, script, CENTRE_TURNS);
    };
    match thread::spawn(rt, centre) {
        Ok(_running) => Some(()),
        Err(_refused) => None,
    }
}
