//! Connections over TCP to a listener of the test's own: how they are set up, what goes out before a thread
//! waits, and which sender a test centre serves.

use super::loopback::{
    connected, dial_to, expect_nothing, expect_octets, listening, no_journal, put,
};
use super::paper::{PaperFile, Sheet};
use super::same::same;
use sms_devices::{Journal, LineSettings, LoopDial, Outboxes, Parking};
use sms_driver::Dial;
use sms_worker::Pause;
use std::fs::File;
use std::io::{Read, Write};
use std::net::{Ipv4Addr, TcpStream};
use std::process::Abort;
use std::thread;
use std::time::{Duration, Instant};

// The stream is set up as it has to be. Its writes wait this long.
fn expect_set_up(rt: &impl Abort, stream: &TcpStream, patience: Option<Duration>) {
    match stream.nodelay() {
        Ok(nodelay) => assert!(rt; nodelay),
        Err(_) => panic!(rt; "no option"),
    }
    match stream.read_timeout() {
        Ok(most) => same(rt, most, Some(Duration::from_millis(100))),
        Err(_) => panic!(rt; "no option"),
    }
    match stream.write_timeout() {
        Ok(most) => same(rt, most, patience),
        Err(_) => panic!(rt; "no option"),
    }
}

/// On the connection of each bind no octet waits for others in the system, a read waits for 100 ms at
/// most, and a write as long as the outboxes allowed when the connection was made. There are four binds.
#[test]
fn sets_up_each_connection(rt: HostRuntime) {
    let outboxes = Outboxes::new(&rt, no_journal(), 1);
    let (_listener, port) = listening(&rt);
    let dial = dial_to(&rt, &outboxes, port, None);
    for (bind, patience) in [(0u32, 0u32), (1, 600_000), (2, 5_000), (3, 1_000)] {
        outboxes.set_patience(patience);
        let expected = match patience {
            0 => None,
            ms => Some(Duration::from_millis(u64::from(ms))),
        };
        match dial.dial(bind) {
            Some((reader, _writer)) => expect_set_up(&rt, &reader.inner, expected),
            None => panic!(rt; "no connection"),
        }
    }
    assert!(rt; dial.dial(4).is_none());
}

// The next read gives these octets.
fn expect(rt: &impl Abort, far: &mut TcpStream, expected: &[u8]) {
    let mut octets = [0u8; 8];
    match far.read(&mut octets) {
        Ok(count) if count <= 8 => same(rt, &octets[..count], expected),
        _ => panic!(rt; "nothing came"),
    }
}

/// What was written goes out when the reader asks for octets. A pause sends what waits too.
#[test]
fn writes_before_it_reads(rt: HostRuntime) {
    let outboxes = Outboxes::new(&rt, no_journal(), 1);
    let (mut reader, mut writer, mut far) = connected(&rt, &outboxes, 0, None);
    put(&rt, &mut writer, b"one");
    expect_nothing(&rt, &mut reader);
    expect(&rt, &mut far, b"one");
    let parking = Parking {
        rt: &rt,
        outboxes: &outboxes,
    };
    put(&rt, &mut writer, b"two");
    parking.pause(1);
    expect(&rt, &mut far, b"two");
}

// Puts 512 octets this many times, and nothing goes out.
fn holds(rt: &impl Abort, writer: &mut impl Write, far: &mut TcpStream, puts: u32) {
    for _put in 0..puts {
        put(rt, writer, &[7u8; 512]);
    }
    expect_nothing(rt, far);
}

/// What is put waits until there are 8,192 octets of it, and goes out in one piece. After a long wait it
/// goes out at 1,024 octets, then at twice as many each time.
#[test]
fn keeps_8192_octets(rt: HostRuntime) {
    let outboxes = Outboxes::new(&rt, no_journal(), 1);
    let (_reader, mut writer, mut far) = connected(&rt, &outboxes, 0, None);
    assert!(rt; far.set_nonblocking(true).is_ok());
    let parking = Parking {
        rt: &rt,
        outboxes: &outboxes,
    };
    outboxes.begin(0, false);
    holds(&rt, &mut writer, &mut far, 16);
    put(&rt, &mut writer, &[8u8; 512]);
    expect_octets(&rt, &mut far, 8_192);
    parking.wait(0, 5, 0);
    expect_octets(&rt, &mut far, 512);
    holds(&rt, &mut writer, &mut far, 2);
    for (expected, puts) in [(1_024, 4), (2_048, 8), (4_096, 16), (8_192, 16)] {
        put(&rt, &mut writer, &[8u8; 512]);
        expect_octets(&rt, &mut far, expected);
        holds(&rt, &mut writer, &mut far, puts - 1);
    }
}

/// In a run whose journal is synced four times as many octets wait, at once and after a long wait.
#[test]
fn keeps_32768_octets_before_a_disk(rt: HostRuntime) {
    let alloc = rt.alloc();
    let sheet = Sheet::blank(alloc);
    let file = PaperFile::new(&rt, &sheet, 1, true);
    let journal = Journal::new(alloc, file, true);
    let outboxes = Outboxes::new(&rt, Some(&journal), 1);
    let (_reader, mut writer, mut far) = connected(&rt, &outboxes, 0, None);
    assert!(rt; far.set_nonblocking(true).is_ok());
    for waited_long in [false, true] {
        outboxes.begin(0, waited_long);
        for _put in 0..64 {
            assert!(rt; writer.write_all(&[7u8; 512]).is_ok());
        }
        expect_nothing(&rt, &mut far);
        outboxes.flush_bind(0);
        for piece in [9_000, 9_000, 9_000, 5_768] {
            expect_octets(&rt, &mut far, piece);
        }
    }
}

/// A reader that ends rings too: a pause after it ends at once.
#[test]
fn rings_at_its_end(rt: HostRuntime) {
    let outboxes = Outboxes::new(&rt, no_journal(), 1);
    let (reader, _writer, _far) = connected(&rt, &outboxes, 0, None);
    drop(reader);
    let parking = Parking {
        rt: &rt,
        outboxes: &outboxes,
    };
    let Ok(begun) = Instant::now(&rt) else {
        panic!(rt; "no clock")
    };
    parking.pause(20_000);
    match begun.elapsed(&rt) {
        Ok(passed) => assert!(rt; passed < Duration::from_secs(10)),
        Err(_) => panic!(rt; "no clock"),
    }
}

/// Octets of an enquire_link, and of its answer (SMPP 3.4 4.11).
const ENQUIRE: [u8; 16] = [0, 0, 0, 16, 0, 0, 0, 0x15, 0, 0, 0, 0, 0, 0, 0, 1];

const ALIVE: [u8; 16] = [0, 0, 0, 16, 0x80, 0, 0, 0x15, 0, 0, 0, 0, 0, 0, 0, 1];

/// A test centre serves the connection that was dialled to it. It closes a connection that came before.
#[test]
fn serves_its_own_sender(rt: HostRuntime) {
    let outboxes = Outboxes::new(&rt, no_journal(), 1);
    let (listener, port) = listening(&rt);
    let Ok(mut stranger) = TcpStream::connect(&rt, (Ipv4Addr::LOCALHOST, port)) else {
        panic!(rt; "no connection")
    };
    let answers = [answering(&rt)];
    let dial = LoopDial {
        rt: &rt,
        alloc: rt.alloc(),
        outboxes: &outboxes,
        round: 1,
        connect_ms: None,
        listener: &listener,
        bind_status: 0,
        answers: &answers,
        lines: LineSettings::<File>::none(),
    };
    let Some((mut reader, mut writer)) = dial.dial(0) else {
        panic!(rt; "no connection")
    };
    put(&rt, &mut writer, &ENQUIRE);
    let mut octets = [0u8; 16];
    match reader.read_exact(&mut octets) {
        Ok(()) => same(&rt, octets, ALIVE),
        Err(_) => panic!(rt; "no answer"),
    }
    match stranger.read(&mut octets) {
        Ok(count) => same(&rt, count, 0),
        Err(_) => panic!(rt; "not closed"),
    }
}

// The text of a script that answers with ESME_ROK.
fn answering(rt: &(impl AllocGlobal + Abort)) -> String {
    match String::from_str(rt.alloc(), "status 0") {
        Ok(text) => text,
        Err(_) => panic!(rt; "no memory"),
    }
}

/// A bind with a deadline: until its first frame is whole, a read after the deadline fails, whether octets come
/// or not. After that frame the deadline doesn't matter.
#[test]
fn waits_for_the_bind_until_its_deadline(rt: HostRuntime) {
    let outboxes = Outboxes::new(&rt, no_journal(), 1);
    let (mut late, _one, mut to_late) = connected(&rt, &outboxes, 0, Some(300));
    let (mut bound, _two, mut to_bound) = connected(&rt, &outboxes, 1, Some(300));
    put(&rt, &mut to_late, &ALIVE[..15]);
    put(&rt, &mut to_bound, &ALIVE);
    let mut octets = [0u8; 8];
    for _piece in 0..2 {
        assert!(rt; late.read(&mut octets).is_ok());
        assert!(rt; bound.read(&mut octets).is_ok());
    }
    thread::sleep(&rt, Duration::from_millis(400));
    put(&rt, &mut to_late, &ALIVE[15..]);
    put(&rt, &mut to_bound, &ENQUIRE);
    assert!(rt; late.read(&mut octets).is_err());
    assert!(rt; bound.read(&mut octets).is_ok());
}
