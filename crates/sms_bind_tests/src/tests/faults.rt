//! Reads and writes that fail at each octet of what is read and written.

ghost use Rattle.std.specs.Prelude.{◌≡◌, None};

use super::reader::{bound_as, counts, line_of, read_from, ring_of, want_written};
use super::{
    ACCEPTED, BIND, Sink, blank_log, bound_by, bound_over, same, settings_of, source_of, wire_to,
};
use sms_bind::{BindFault, BlankLog, LogName, ReaderCause, Settings, Wire};
use sms_pdu::Mode;
use std::alloc::Global;
use std::marker::Brand;
use std::process::Abort;
use std::sync::Wait;
use std::test::Fail;

// An enquire_link, an answer, a deliver_sm, another answer and an unbind.
pub(crate) const STREAM: &[u8; 80] =
    b"\x00\x00\x00\x10\x00\x00\x00\x15\x00\x00\x00\x00\x00\x00\x00\x02\x00\x00\x00\x10\x80\x00\x00\x04\x00\x00\x00\x00\x00\x00\x00\x01\x00\x00\x00\x10\x00\x00\x00\x05\x00\x00\x00\x00\x00\x00\x00\x07\x00\x00\x00\x10\x80\x00\x00\x04\x00\x00\x00\x00\x00\x00\x00\x02\x00\x00\x00\x10\x00\x00\x00\x06\x00\x00\x00\x00\x00\x00\x00\x03";

// The responses to its three requests.
pub(crate) const RESPONSES: &[u8; 49] =
    b"\x00\x00\x00\x10\x80\x00\x00\x15\x00\x00\x00\x00\x00\x00\x00\x02\x00\x00\x00\x11\x80\x00\x00\x05\x00\x00\x00\x00\x00\x00\x00\x07\x00\x00\x00\x00\x10\x80\x00\x00\x06\x00\x00\x00\x00\x00\x00\x00\x03";

// A command_id that no PDU has, and a command_length of 15.
const STRANGE: &[u8; 20] =
    b"\x00\x00\x00\x10\x00\x00\x01\x03\x00\x00\x00\x00\x00\x00\x00\x09\x00\x00\x00\x0f";

// A generic_nack for each.
const NACKS: &[u8; 32] =
    b"\x00\x00\x00\x10\x80\x00\x00\x00\x00\x00\x00\x03\x00\x00\x00\x09\x00\x00\x00\x10\x80\x00\x00\x00\x00\x00\x00\x02\x00\x00\x00\x00";

// The bind's answer ends, or the reader fails, at each of its octets.
#[test]
fn an_answer_that_is_cut_at_each_octet(rt: HostRuntime) {
    for octets in 0..27usize {
        for fails in [false, true] {
            let result = bound_by(
                &rt,
                rt.alloc(),
                source_of(0, &ACCEPTED[..octets.min(26)], fails),
            );
            let fault = match fails {
                false => BindFault::Closed,
                true => BindFault::Read,
            };
            let wanted = match octets {
                26 => None,
                _ => Some(fault),
            };
            same(&rt, result.err(), wanted);
        }
    }
}

// These first octets of the bind were taken, and a device that took no more failed once.
fn want_taken(rt: &impl Abort, wire: Wire<Sink>, octets: usize) {
    let whole = octets == 29;
    same(rt, wire.broken(), !whole);
    let tap = wire.into_tap();
    same(rt, tap.faults(), if whole { 0 } else { 1 });
    same(
        rt,
        tap.into_inner().octets.as_slice(),
        &BIND[..octets.min(29)],
    );
}

// A bind over a writer with room for this many octets.
fn want_cut(rt: &impl Abort, alloc: Global, settings: &Settings, room: usize) {
    let mut reader = source_of(0, ACCEPTED, false);
    let mut wire = wire_to(room, Vec::new(alloc));
    let result = bound_over(alloc, &mut reader, &mut wire, settings);
    let whole = room == 29;
    assert!(rt;
        match result {
            Ok(_bound) => whole,
            Err(fault) => !whole && fault == BindFault::Write,
        }
    );
    same(rt, reader.into_inner().octets.is_empty(), whole);
    want_taken(rt, wire, room);
}

// The writer fails at each octet of the bind. Then nothing is read.
#[test]
fn a_bind_that_is_cut_at_each_octet(rt: HostRuntime) -> Result<(), Fail> {
    let alloc = rt.alloc();
    let Ok(settings) = settings_of(alloc, Mode::Transmitter, b"esme") else {
        panic!(rt; "no settings")
    };
    for room in 0..30usize {
        want_cut(&rt, alloc, &settings, room);
    }
    Ok(())
}

// Reads a prefix of STREAM, over a writer with this room, and expects this cause, these numbers of
// answers and of delivery receipts, and this many octets of responses.
fn want_end<N: LogName, S: Abort + Wait>(
    rt: &S,
    alloc: Global,
    log: BlankLog,
    octets: usize,
    room: usize,
    wanted: (ReaderCause, u64, u64, usize),
) -> Result<(), Fail>
    requires { (log ≡ N.log) × (N.settings ≡ None) }
{
    let (cause, answered, delivered, written) = wanted;
    let (line, leave) = line_of::<N, S>(rt, alloc, log, room, 2);
    let (producers, mut consumer) = ring_of(alloc, 64)?;
    let source = source_of(0, &STREAM[..octets.min(80)], true);
    let bound = bound_as(rt, alloc, Mode::Transceiver);
    let end = read_from(rt, alloc, source, bound, producers, &line, leave);
    same(rt, end.cause, cause);
    same(rt, counts(&end), [answered, 0, 0, delivered, 0, 0, 0]);
    for _ in 0..answered {
        assert!(rt; consumer.pop().is_ok());
    }
    assert!(rt; consumer.pop().is_err());
    want_written(rt, line, &RESPONSES[..written.min(49)]);
    Ok(())
}

// The reader fails at each octet: the frames that were whole before are handled, and nothing else.
#[test]
fn a_reader_that_fails_at_each_octet(rt: HostRuntime) -> Result<(), Fail> {
    for octets in 0..81usize {
        let wanted = match octets / 16 {
            0 => (ReaderCause::ReadFault, 0, 0, 0),
            1 => (ReaderCause::ReadFault, 0, 0, 16),
            2 => (ReaderCause::ReadFault, 1, 0, 16),
            3 => (ReaderCause::ReadFault, 1, 1, 33),
            4 => (ReaderCause::ReadFault, 2, 1, 33),
            _ => (ReaderCause::Unbound, 2, 1, 49),
        };
        let alloc = rt.alloc();
        want_end::<Brand, _>(&rt, alloc, blank_log(&rt, alloc), octets, 1000, wanted)?;
    }
    Ok(())
}

// The writer fails at each octet of the responses: what came before is handed on, and what was taken
// is out.
#[test]
fn a_writer_that_fails_at_each_octet(rt: HostRuntime) -> Result<(), Fail> {
    for room in 0..50usize {
        let wanted = match room {
            0..16 => (ReaderCause::WriteFault, 0, 0, room),
            16..33 => (ReaderCause::WriteFault, 1, 1, room),
            33..49 => (ReaderCause::WriteFault, 2, 1, room),
            _ => (ReaderCause::Unbound, 2, 1, 49),
        };
        let alloc = rt.alloc();
        want_end::<Brand, _>(&rt, alloc, blank_log(&rt, alloc), 80, room, wanted)?;
    }
    Ok(())
}

// A generic_nack over a wire with this room.
fn want_nack<N: LogName, S: Abort + Wait>(
    rt: &S,
    alloc: Global,
    log: BlankLog,
    room: usize,
    wanted: (ReaderCause, u64),
)
    requires { (log ≡ N.log) × (N.settings ≡ None) }
{
    let (cause, nacked) = wanted;
    let (line, leave) = line_of::<N, S>(rt, alloc, log, room, 0);
    let source = source_of(0, STRANGE, true);
    let bound = bound_as(rt, alloc, Mode::Transceiver);
    let end = read_from(rt, alloc, source, bound, Vec::new(alloc), &line, leave);
    same(rt, end.cause, cause);
    same(rt, counts(&end), [0, 0, 0, 0, 0, nacked, 0]);
    want_written(rt, line, &NACKS[..room.min(32)]);
}

// The same of generic_nack. A bad length ends the reader, whether or not the nack can be written.
#[test]
fn a_nack_that_is_cut_at_each_octet(rt: HostRuntime) -> Result<(), Fail> {
    let alloc = rt.alloc();
    for room in 0..33usize {
        let wanted = match room {
            0..16 => (ReaderCause::WriteFault, 0),
            _ => (ReaderCause::Lost, 1),
        };
        want_nack::<Brand, _>(&rt, alloc, blank_log(&rt, alloc), room, wanted);
    }
    Ok(())
}
