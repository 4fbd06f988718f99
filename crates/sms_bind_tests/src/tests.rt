//! A wire, and a bind over devices in memory.

ghost use Rattle.std.specs.Prelude.{◌≡◌, false};
ghost use Rattle.sms_bind.specs.Wires.{is_broken};

use sms_bind::{BindFault, BlankLog, Bound, Settings, Wire, WireFault, bind};
use sms_pdu::{Field, Frame, Mode, Octets, PduError, Tap, is_frame};
use sms_session::State;
use std::alloc::Global;
use std::fmt::Debug;
use std::io;
use std::io::{Error, ErrorKind, Read, Write};
use std::process::Abort;
use std::test::Fail;

mod early;
mod faults;
mod following;
mod keeping;
mod log;
mod memory;
mod reader;

// Both are the same. A test that compares by a call has a short proof: what is printed where they
// differ stands here alone.
fn same<T: PartialEq + Debug + Drop>(rt: &impl Abort, got: T, wanted: T) {
    assert_eq!(rt; got, wanted);
}

// bind_transmitter number 1 of `esme` with the password `pw` and no system_type.
const BIND: &[u8; 29] =
    b"\x00\x00\x00\x1d\x00\x00\x00\x02\x00\x00\x00\x00\x00\x00\x00\x01esme\x00pw\x00\x00\x34\x00\x00\x00";

// Its response, from `TEST`, with the parameter sc_interface_version.
const ACCEPTED: &[u8; 26] =
    b"\x00\x00\x00\x1a\x80\x00\x00\x02\x00\x00\x00\x00\x00\x00\x00\x01TEST\x00\x02\x10\x00\x01\x34";

const ENQUIRE_LINK: &[u8; 16] = b"\x00\x00\x00\x10\x00\x00\x00\x15\x00\x00\x00\x00\x00\x00\x00\x02";

// Gives nothing so often, then octets, and then the end or an error.
#[derive(Drop)]
struct Source<'a> {
    idle: u32,
    octets: &'a [u8],
    fails: bool,
}

impl Read for Source<'_> {
    fn read(&mut self, buf: &mut [u8]) -> io::Result<usize> {
        if self.idle > 0 {
            self.idle -= 1;
            return Err(Error::from(ErrorKind::WouldBlock));
        }
        if self.fails && self.octets.is_empty() {
            return Err(Error::from(ErrorKind::Other));
        }
        self.octets.read(buf)
    }
}

// Takes this many octets, and then none or fails.
#[derive(Drop)]
struct Sink {
    room: usize,
    octets: Vec<u8>,
    fails: bool,
}

impl Write for Sink {
    fn write(&mut self, buf: &[u8]) -> io::Result<usize> {
        let taken = buf.len().min(self.room);
        if taken == 0 && self.fails {
            return Err(Error::from(ErrorKind::Other));
        }
        if self.octets.extend_from_slice(&buf[..taken]).is_err() {
            return Err(Error::from(ErrorKind::OutOfMemory));
        }
        self.room -= taken;
        Ok(taken)
    }

    fn flush(&mut self) -> io::Result<()> {
        Ok(())
    }
}

fn string_of(alloc: Global, octets: &[u8]) -> Result<Octets, PduError> {
    match Octets::copy(alloc, octets) {
        Ok(copy) => Ok(copy),
        Err(_e) => Err(PduError::OutOfMemory),
    }
}

fn settings_of(alloc: Global, mode: Mode, name: &[u8]) -> Result<Settings, PduError> {
    let system_id = string_of(alloc, name)?;
    let password = string_of(alloc, b"pw")?;
    made_of(mode, system_id, password, Octets::new(Vec::new(alloc)))
}

// What settings are made of these, or why none are.
fn made_of(
    mode: Mode,
    system_id: Octets,
    password: Octets,
    system_type: Octets,
) -> Result<Settings, PduError> {
    Settings::new(mode, system_id, password, system_type)
}

// A wire that takes this many octets, which go after these, and then fails.
fn wire_to(room: usize, octets: Vec<u8>) -> Wire<Sink>
    ensures { is_broken result ≡ false }
{
    Wire::new(Tap::new(Sink {
        room,
        octets,
        fails: true,
    }))
}

// A log that has no name yet.
fn blank_log(rt: &impl Abort, alloc: Global) -> BlankLog {
    let Ok(log) = BlankLog::new(alloc) else {
        panic!(rt; "no log")
    };
    log
}

// Binds with number 1 over these devices.
fn bound_over<R: Read, W: Write>(
    alloc: Global,
    reader: &mut Tap<R>,
    wire: &mut Wire<W>,
    settings: &Settings,
) -> Result<Bound, BindFault> {
    bind(alloc, reader, wire, settings, 1)
}

fn source_of(idle: u32, octets: &[u8], fails: bool) -> Tap<Source<'_>> {
    Tap::new(Source {
        idle,
        octets,
        fails,
    })
}

// Binds as a transmitter over this input.
fn bound_by(
    rt: &impl Abort,
    alloc: Global,
    mut reader: Tap<Source<'_>>,
) -> Result<Bound, BindFault> {
    let Ok(settings) = settings_of(alloc, Mode::Transmitter, b"esme") else {
        panic!(rt; "no settings")
    };
    let mut wire = Wire::new(Tap::new(Vec::<u8>::new(alloc)));
    bound_over(alloc, &mut reader, &mut wire, &settings)
}

fn frame(alloc: Global, octets: &[u8]) -> Result<Frame, Fail> {
    if !is_frame(octets) {
        return Err("no frame".into());
    }
    match Vec::from_slice(alloc, octets) {
        Ok(copy) => Ok(Frame::new(copy)),
        Err(e) => Err(e.into()),
    }
}

#[test]
fn refuses_settings(rt: HostRuntime) {
    let long = settings_of(rt.alloc(), Mode::Transmitter, b"sixteen letters!");
    same(
        &rt,
        long.err(),
        Some(PduError::TooLong {
            field: Field::SystemId,
        }),
    );
    let cut = settings_of(rt.alloc(), Mode::Transceiver, b"es\x00me");
    same(
        &rt,
        cut.err(),
        Some(PduError::Malformed {
            field: Field::SystemId,
        }),
    );
}

// The device took 10 octets of the enquire_link, and its one fault was counted.
fn want_ten_octets(rt: &impl Abort, wire: Wire<Sink>) {
    let tap = wire.into_tap();
    same(rt, tap.faults(), 1);
    let sink = tap.into_inner();
    same(rt, sink.octets.as_slice(), &ENQUIRE_LINK[..10]);
}

// The first frame breaks a wire that takes 10 octets, and the second one is not written.
fn want_broken(rt: &impl Abort, mut wire: Wire<Sink>, first: Frame, second: Frame) {
    assert!(rt; !wire.broken());
    let Err(WireFault::Write(_receipt)) = wire.send(first) else {
        panic!(rt; "no write fault")
    };
    assert!(rt; wire.broken());
    let Err(WireFault::Broken) = wire.send(second) else {
        panic!(rt; "not broken")
    };
    want_ten_octets(rt, wire);
}

#[test]
fn a_broken_wire_writes_nothing_more(rt: HostRuntime) -> Result<(), Fail> {
    let alloc = rt.alloc();
    for fails in [false, true] {
        let first = frame(alloc, ENQUIRE_LINK)?;
        let second = frame(alloc, ENQUIRE_LINK)?;
        let sink = Sink {
            room: 10,
            octets: Vec::new(alloc),
            fails,
        };
        want_broken(&rt, Wire::new(Tap::new(sink)), first, second);
    }
    Ok(())
}

// What a transmitter keeps of its answer, an enquire_link, and 15 octets of another one.
fn want_kept(rt: &impl Abort, bound: Bound) {
    same(rt, bound.session.state(), State::BoundTx);
    same(rt, bound.frames.as_slice().len(), 1);
    same(rt, bound.framer.rest(), &ENQUIRE_LINK[..15]);
}

// A transmitter that reads this writes its bind.
fn want_bound(rt: &impl Abort, alloc: Global, stream: &[u8]) {
    let Ok(settings) = settings_of(alloc, Mode::Transmitter, b"esme") else {
        panic!(rt; "no settings")
    };
    let mut reader = Tap::new(stream);
    let mut wire = Wire::new(Tap::new(Vec::<u8>::new(alloc)));
    let Ok(bound) = bound_over(alloc, &mut reader, &mut wire, &settings) else {
        panic!(rt; "not bound")
    };
    want_kept(rt, bound);
    let written = wire.into_tap().into_inner();
    same(rt, written.as_slice(), BIND.as_slice());
}

#[test]
fn a_bind_and_its_answer(rt: HostRuntime) -> Result<(), Fail> {
    let mut stream = Vec::from_slice(rt.alloc(), ACCEPTED)?;
    stream.extend_from_slice(ENQUIRE_LINK)?;
    stream.extend_from_slice(&ENQUIRE_LINK[..15])?;
    want_bound(&rt, rt.alloc(), stream.as_slice());
    Ok(())
}

// What an answer that doesn't bind comes to.
#[test]
fn answers_that_refuse(rt: HostRuntime) -> Result<(), Fail> {
    let cases = [
        (
            b"\x00\x00\x00\x10\x80\x00\x00\x02\x00\x00\x00\x0e\x00\x00\x00\x01".as_slice(),
            BindFault::Refused(14),
        ),
        (
            b"\x00\x00\x00\x10\x80\x00\x00\x00\x00\x00\x00\x03\x00\x00\x00\x01".as_slice(),
            BindFault::Refused(3),
        ),
        (ENQUIRE_LINK.as_slice(), BindFault::NotSmpp),
        (b"\x00\x00\x00\x0f".as_slice(), BindFault::NotSmpp),
        (b"".as_slice(), BindFault::Closed),
        (b"\x00\x00\x00\x10\x80".as_slice(), BindFault::Closed),
    ];
    for (octets, wanted) in cases {
        let reader = source_of(0, octets, false);
        let result = bound_by(&rt, rt.alloc(), reader);
        same(&rt, result.err(), Some(wanted));
    }
    let failing = source_of(0, &[], true);
    same(
        &rt,
        bound_by(&rt, rt.alloc(), failing).err(),
        Some(BindFault::Read),
    );
    Ok(())
}

// 599 reads may give nothing, and the 600th is a fault; after them an end is an end and a failure a failure.
#[test]
fn reads_that_give_nothing(rt: HostRuntime) -> Result<(), Fail> {
    let patient = source_of(599, ACCEPTED, false);
    assert!(rt; bound_by(&rt, rt.alloc(), patient).is_ok());
    let cases = [
        (600, ACCEPTED.as_slice(), false, BindFault::Read),
        (599, b"".as_slice(), false, BindFault::Closed),
        (599, b"".as_slice(), true, BindFault::Read),
    ];
    for (idle, octets, fails, wanted) in cases {
        let reader = source_of(idle, octets, fails);
        same(&rt, bound_by(&rt, rt.alloc(), reader).err(), Some(wanted));
    }
    Ok(())
}
