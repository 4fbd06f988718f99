//! Memory that is refused, one allocation after another: `tools/refuse-memory` runs each of these once
//! for each of its allocations, and where memory is refused before the call that is tested, it ends
//! there.

ghost use Rattle.std.specs.Prelude.{◌≡◌, false, IfOk, None};
ghost use Rattle.sms_bind.specs.Wires.{is_broken};

use super::faults::{RESPONSES, STREAM};
use super::reader::{bound_as, counts};
use super::{ACCEPTED, BIND, Sink, bound_over, same, settings_of, source_of, wire_to};
use rtrb::RingBuffer;
use sms_bind::{BindFault, BlankLog, Line, LogName, ReaderCause, Wire, read_loop};
use sms_pdu::Mode;
use sms_session::State;
use sms_slot::SlotRow;
use sms_window::Window;
use std::alloc::{AllocError, Global};
use std::marker::Brand;
use std::process::Abort;
use std::sync::Wait;

// A wire that needs no memory for its first 100 octets.
fn wire_of(alloc: Global) -> Result<Wire<Sink>, AllocError>
    ensures { IfOk result (λ wire. is_broken wire ≡ false) }
{
    match Vec::with_capacity(alloc, 100) {
        Ok(octets) => Ok(wire_to(100, octets)),
        Err(_full) => Err(AllocError),
    }
}

// The bind is written whole, or it isn't begun; nothing but memory is named.
#[test]
fn memory_of_a_bind(rt: HostRuntime) {
    let alloc = rt.alloc();
    let Ok(settings) = settings_of(alloc, Mode::Transmitter, b"esme") else {
        return;
    };
    let Ok(mut wire) = wire_of(alloc) else {
        return;
    };
    let mut reader = source_of(0, ACCEPTED, true);
    let result = bound_over(alloc, &mut reader, &mut wire, &settings);
    same(&rt, (reader.faults(), wire.broken()), (0, false));
    let is_read = reader.into_inner().octets.is_empty();
    let written = wire.into_tap().into_inner().octets;
    same(
        &rt,
        written.as_slice(),
        if is_read {
            BIND.as_slice()
        } else {
            b"".as_slice()
        },
    );
    match result {
        Ok(bound) => same(
            &rt,
            (bound.session.state(), is_read),
            (State::BoundTx, true),
        ),
        Err(fault) => same(&rt, fault, BindFault::OutOfMemory),
    }
}

// The counts of a reader that ended so, and whether as many octets of responses were written: both answers
// and the note were handled, and at most one of the three responses wasn't written; or nothing was handled.
fn all_or_nothing(cause: ReaderCause, unreplied: u64, written: usize) -> ([u64; 7], bool) {
    match (cause, unreplied) {
        (ReaderCause::Unbound, 0) => ([2, 0, 0, 1, 0, 0, 0], written == 49),
        (ReaderCause::Unbound, _) => ([2, 0, 0, 1, 0, 0, 1], written == 33 || written == 32),
        _ => (
            [0, 0, 0, 0, 0, 0, 0],
            cause == ReaderCause::OutOfMemory && written == 0,
        ),
    }
}

fn want_all_or_nothing(rt: &impl Abort, cause: ReaderCause, said: [u64; 7], written: &[u8]) {
    let (wanted, is_long) = all_or_nothing(cause, said[6], written.len());
    same(rt, said, wanted);
    assert!(rt; is_long);
    assert!(rt; written.len() < 49 || written == RESPONSES.as_slice());
}

// All is handled but for one response, or nothing is; the ring and the seat come back.
#[test]
fn memory_of_a_reader(rt: HostRuntime) {
    let alloc = rt.alloc();
    if let Ok(log) = BlankLog::new(alloc) {
        reader_in_memory::<Brand, _>(&rt, alloc, log);
    }
}

fn reader_in_memory<N: LogName, S: Abort + Wait>(rt: &S, alloc: Global, log: BlankLog)
    requires { (log ≡ N.log) × (N.settings ≡ None) }
{
    let Ok(mut keeper) = log.open::<N>(alloc) else {
        return;
    };
    let (Ok(slots), Ok(wire)) = (SlotRow::new(alloc), wire_of(alloc)) else {
        return;
    };
    let Ok(wire) = keeper.wire(wire) else {
        return;
    };
    assert!(rt; slots.post(rt, 0, 0, 1).is_ok() && slots.post(rt, 1, 0, 2).is_ok());
    let (line, leave) = Line::new(slots, wire);
    let Ok((producer, mut consumer)) = RingBuffer::new(alloc, 64) else {
        return;
    };
    let Ok((window, seat)) = Window::make(alloc, 4) else {
        return;
    };
    let Ok(mut producers) = Vec::with_capacity(alloc, 1) else {
        return;
    };
    producers.push_reserved(producer);
    let bound = bound_as(rt, alloc, Mode::Transceiver);
    let mut reader = source_of(0, STREAM, true);
    let (end, down) = read_loop(
        rt,
        alloc,
        &mut reader,
        bound,
        producers,
        &line,
        &window,
        seat,
        leave,
        Some(4),
        10,
    );
    assert!(rt; down.is_ok());
    drop(down);
    same(rt, end.producers.len(), 1);
    same(
        rt,
        consumer.pop().is_ok() && consumer.pop().is_ok(),
        end.answered == 2,
    );
    assert!(rt; consumer.pop().is_err());
    let Line {
        slots: _,
        wire,
        down: _,
        stop: _,
    } = line;
    let written = wire.into_inner().into_wire().into_tap().into_inner().octets;
    want_all_or_nothing(rt, end.cause, counts(&end), &written);
    same(rt, window.close(end.seat).held, 0xFFFF_FFFF_FFFF_FFF0);
}
