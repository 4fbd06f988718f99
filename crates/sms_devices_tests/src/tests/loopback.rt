//! Connections of binds to a listener of the test's own, on the loopback interface.

use super::same::same;
use sms_devices::{
    Connects, Journal, LineSettings, Outbox, OutboxWriter, Outboxes, TcpDial, WakingReader,
};
use sms_driver::Dial;
use std::fs::{File, OpenFile};
use std::io::{Read, Write};
use std::net::{IpAddr, Ipv4Addr, TcpListener, TcpStream};
use std::process::Abort;
use std::sync::Wait;
use std::time::{Clock, Duration};

// A run without a journal.
pub fn no_journal() -> Option<&'static Journal<File>> {
    None
}

/// A listener, which this machine alone reaches, and its port.
pub fn listening(rt: &(impl Connects + Abort)) -> (TcpListener, u16) {
    let Some(listener) = rt.listen() else {
        panic!(rt; "no listener")
    };
    match listener.local_addr() {
        Ok(address) => {
            assert!(rt; address.ip() == IpAddr::V4(Ipv4Addr::LOCALHOST));
            (listener, address.port())
        }
        Err(_) => panic!(rt; "no address"),
    }
}

/// What dials to a port of this machine. To connect and to bind may take so many milliseconds, if there is a limit.
pub fn dial_to<'r, 'j, R: AllocGlobal + Wait, F: Write + OpenFile>(
    rt: &'j R,
    outboxes: &'r Outboxes<'j, R, F>,
    port: u16,
    connect_ms: Option<u32>,
) -> TcpDial<'r, 'j, R, F, File> {
    TcpDial {
        rt,
        alloc: rt.alloc(),
        outboxes,
        round: 1,
        connect_ms,
        host: "127.0.0.1",
        port,
        lines: LineSettings::none(),
    }
}

/// The other end of the next connection to the listener. A read from it fails after five seconds.
pub fn accepted(rt: &impl Abort, listener: &TcpListener) -> TcpStream {
    let Ok((far, _from)) = listener.accept() else {
        panic!(rt; "no connection")
    };
    match far.set_read_timeout(Some(Duration::from_secs(5))) {
        Ok(()) => far,
        Err(_) => panic!(rt; "no option"),
    }
}

/// The reader and the writer of a bind that was dialled for, and the other end of its connection.
pub fn connected<
    'r,
    'j,
    R: Connects + AllocGlobal + Clock + Sync + Abort,
    F: Write + OpenFile + Send + Drop,
>(
    rt: &'j R,
    outboxes: &'r Outboxes<'j, R, F>,
    bind: u32,
    connect_ms: Option<u32>,
) -> (
    WakingReader<'r, 'j, R::Incoming, R, F, File>,
    OutboxWriter<'r, 'j, R, Outbox<'j, R, F>>,
    TcpStream,
) {
    let (listener, port) = listening(rt);
    let dial = dial_to(rt, outboxes, port, connect_ms);
    let Some((reader, writer)) = dial.dial(bind) else {
        panic!(rt; "no connection")
    };
    let far = accepted(rt, &listener);
    (reader, writer, far)
}

/// Writes the octets.
pub fn put(rt: &impl Abort, writer: &mut impl Write, octets: &[u8]) {
    if writer.write_all(octets).is_err() {
        panic!(rt; "not written")
    }
}

/// The next read gives this many octets.
pub fn expect_octets(rt: &impl Abort, reader: &mut impl Read, expected: usize) {
    let mut octets = [0u8; 9_000];
    match reader.read(&mut octets) {
        Ok(count) => same(rt, count, expected),
        Err(_) => panic!(rt; "nothing came"),
    }
}

/// The next read gives nothing.
pub fn expect_nothing(rt: &impl Abort, reader: &mut impl Read) {
    let mut octets = [0u8; 8];
    assert!(rt; reader.read(&mut octets).is_err());
}
