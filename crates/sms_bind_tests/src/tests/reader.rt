//! The reader of a bind over devices in memory.

ghost use Rattle.std.specs.Prelude.{◌≡◌, ◌≤◌, None};
ghost use Rattle.sms_bind.specs.Downs.{IsDownAt};
ghost use Rattle.sms_core.specs.Limits.{most_slots};

use super::{ACCEPTED, Sink, Source, blank_log, bound_by, same, source_of, wire_to};
use rtrb::{Consumer, Producer, RingBuffer};
use sms_bind::{
    BlankLog, Bound, Down, DownCause, Line, LogName, ReaderCause, ReaderEnd, ReaderLeave, read_loop,
};
use sms_pdu::{
    BIND_TRANSCEIVER_RESP, BIND_TRANSMITTER_RESP, Framer, Frames, Header, Mode, Reply, Tap,
};
use sms_session::Opened;
use sms_slot::SlotRow;
use sms_window::Window;
use std::alloc::Global;
use std::marker::Brand;
use std::process::Abort;
use std::sync::Wait;
use std::sync::atomic::Ordering;
use std::test::Fail;

// A session that was just bound, and nothing read beyond the answer.
pub(crate) fn bound_as(rt: &impl Abort, alloc: Global, mode: Mode) -> Bound {
    let command = match mode {
        Mode::Transmitter => BIND_TRANSMITTER_RESP,
        Mode::Transceiver => BIND_TRANSCEIVER_RESP,
    };
    let header = Header {
        length: 16,
        command,
        status: 0,
        number: 1,
    };
    let Ok(session) = Opened::new(mode).bound(&header) else {
        panic!(rt; "not bound")
    };
    Bound {
        session,
        framer: Framer::new(alloc),
        frames: Frames::none(alloc),
    }
}

// A wire of this log with room for this many octets, and this many slots that wait for the answers from 1 on.
pub(crate) fn line_of<N: LogName, S: Abort + Wait>(
    rt: &S,
    alloc: Global,
    log: BlankLog,
    room: usize,
    waiting: u32,
) -> (Line<N, Sink>, ReaderLeave)
    requires name { (log ≡ N.log) × (N.settings ≡ None) }
    requires few { waiting ≤ most_slots }
{
    let Ok(mut keeper) = log.open::<N>(alloc) else {
        panic!(rt; "no keeper")
    };
    let Ok(wire) = keeper.wire(wire_to(room, Vec::new(alloc))) else {
        panic!(rt; "no log of a wire")
    };
    let Ok(slots) = SlotRow::new(alloc) else {
        panic!(rt; "no row")
    };
    for slot in 0..waiting {
        same(rt, slots.post(rt, slot, 0, slot + 1), Ok(()));
    }
    let (line, leave) = Line::new(slots, wire);
    assert!(rt; line.down.look().is_none());
    assert!(rt; !line.stop.load(Ordering::SeqCst));
    (line, leave)
}

// A ring of this room, for the one worker.
pub(crate) fn ring_of(
    alloc: Global,
    room: usize,
) -> Result<(Vec<Producer<Reply>>, Consumer<Reply>), Fail> {
    match (RingBuffer::new(alloc, room), Vec::with_capacity(alloc, 1)) {
        (Ok((producer, consumer)), Ok(mut producers)) => {
            producers.push_reserved(producer);
            Ok((producers, consumer))
        }
        _ => Err("no ring".into()),
    }
}

// Reads in 10 turns, and follows nothing.
pub(crate) fn read_from<N: LogName, S: Abort + Wait>(
    rt: &S,
    alloc: Global,
    source: Tap<Source<'_>>,
    bound: Bound,
    producers: Vec<Producer<Reply>>,
    line: &Line<N, Sink>,
    leave: ReaderLeave,
) -> ReaderEnd {
    let mut reader = source;
    let Ok((window, seat)) = Window::make(alloc, 4) else {
        panic!(rt; "no window")
    };
    let (end, down) = read_loop(
        rt,
        alloc,
        &mut reader,
        bound,
        producers,
        line,
        &window,
        seat,
        leave,
        None,
        10,
    );
    match &down {
        Ok(down) => want_down(rt, line, down, DownCause::Reader(end.cause)),
        Err(before) => want_down(rt, line, before.down(), DownCause::Write),
    }
    end
}

// The line is down for this cause, for all that look at it.
pub(crate) fn want_down<'l, N: LogName>(
    rt: &impl Abort,
    line: &'l Line<N, Sink>,
    down: &Down<'l>,
    wanted: DownCause,
)
    requires { IsDownAt line.now.down down.now }
{
    let Some(seen) = line.down.look() else {
        panic!(rt; "not down")
    };
    same(rt, line.down.cause(down), wanted);
    same(rt, line.down.cause(&seen), wanted);
}

pub(crate) fn counts(end: &ReaderEnd) -> [u64; 7] {
    [
        end.answered,
        end.unknown,
        end.overrun,
        end.delivered,
        end.noted,
        end.nacked,
        end.unreplied,
    ]
}

// What stands in the line at the end: it is down, and these octets were written.
pub(crate) fn want_written<N: LogName>(rt: &impl Abort, line: Line<N, Sink>, wanted: &[u8]) {
    assert!(rt; line.down.look().is_some());
    let Line {
        slots: _,
        wire,
        down: _,
        stop: _,
    } = line;
    let sink = wire.into_inner().into_wire().into_tap().into_inner();
    same(rt, sink.octets.as_slice(), wanted);
}

// Reads a stream: its cause, its counts, and what is written.
fn want_stream<N: LogName, S: Abort + Wait>(
    rt: &S,
    alloc: Global,
    log: BlankLog,
    octets: &[u8],
    expected: (ReaderCause, [u64; 7], &[u8]),
) -> Result<(), Fail>
    requires { (log ≡ N.log) × (N.settings ≡ None) }
{
    let (cause, wanted, written) = expected;
    let (line, leave) = line_of::<N, S>(rt, alloc, log, 1000, 1);
    let (producers, mut consumer) = ring_of(alloc, 64)?;
    let bound = bound_as(rt, alloc, Mode::Transceiver);
    let source = source_of(0, octets, false);
    let end = read_from(rt, alloc, source, bound, producers, &line, leave);
    same(rt, end.cause, cause);
    same(rt, counts(&end), wanted);
    same(rt, consumer.pop().is_ok(), end.answered == 1);
    assert!(rt; consumer.pop().is_err());
    want_written(rt, line, written);
    Ok(())
}

// Streams and what comes of them.
#[test]
fn streams_that_are_read(rt: HostRuntime) -> Result<(), Fail> {
    let cases = [
        // A deliver_sm, an alert_notification, and a command_id that no PDU has.
        (
            b"\x00\x00\x00\x10\x00\x00\x00\x05\x00\x00\x00\x00\x00\x00\x00\x07\x00\x00\x00\x10\x00\x00\x01\x02\x00\x00\x00\x00\x00\x00\x00\x08\x00\x00\x00\x10\x00\x00\x01\x03\x00\x00\x00\x00\x00\x00\x00\x09".as_slice(),
            ReaderCause::Ended,
            [0, 0, 0, 1, 1, 1, 0],
            b"\x00\x00\x00\x11\x80\x00\x00\x05\x00\x00\x00\x00\x00\x00\x00\x07\x00\x00\x00\x00\x10\x80\x00\x00\x00\x00\x00\x00\x03\x00\x00\x00\x09".as_slice(),
        ),
        // An enquire_link, and a command_length of 15.
        (
            b"\x00\x00\x00\x10\x00\x00\x00\x15\x00\x00\x00\x00\x00\x00\x00\x02\x00\x00\x00\x0f".as_slice(),
            ReaderCause::Lost,
            [0, 0, 0, 0, 0, 0, 0],
            b"\x00\x00\x00\x10\x80\x00\x00\x15\x00\x00\x00\x00\x00\x00\x00\x02\x00\x00\x00\x10\x80\x00\x00\x00\x00\x00\x00\x02\x00\x00\x00\x00".as_slice(),
        ),
        // An unbind, and an alert_notification that comes too late.
        (
            b"\x00\x00\x00\x10\x00\x00\x00\x06\x00\x00\x00\x00\x00\x00\x00\x03\x00\x00\x00\x10\x00\x00\x01\x02\x00\x00\x00\x00\x00\x00\x00\x08".as_slice(),
            ReaderCause::Unbound,
            [0, 0, 0, 0, 0, 0, 0],
            b"\x00\x00\x00\x10\x80\x00\x00\x06\x00\x00\x00\x00\x00\x00\x00\x03".as_slice(),
        ),
        // The response to an unbind.
        (
            b"\x00\x00\x00\x10\x80\x00\x00\x06\x00\x00\x00\x00\x00\x00\x00\x03".as_slice(),
            ReaderCause::Unbound,
            [0, 0, 0, 0, 0, 0, 0],
            b"".as_slice(),
        ),
        // The same answer twice, and generic_nacks of requests that weren't sent; a frame that is cut.
        (
            b"\x00\x00\x00\x10\x80\x00\x00\x04\x00\x00\x00\x00\x00\x00\x00\x01\x00\x00\x00\x10\x80\x00\x00\x04\x00\x00\x00\x00\x00\x00\x00\x01\x00\x00\x00\x10\x80\x00\x00\x00\x00\x00\x00\x03\x00\x00\x00\x00\x00\x00\x00\x10\x80\x00\x00\x00\x00\x00\x00\x03\x00\x00\x00\x4d\x00\x00\x00\x10".as_slice(),
            ReaderCause::Ended,
            [1, 3, 0, 0, 0, 0, 0],
            b"".as_slice(),
        ),
    ];
    for (octets, cause, wanted, written) in cases {
        let alloc = rt.alloc();
        let log = blank_log(&rt, alloc);
        want_stream::<Brand, _>(&rt, alloc, log, octets, (cause, wanted, written))?;
    }
    Ok(())
}

// Binds as a transmitter over the answer and these octets after it.
fn bound_with(rt: &impl Abort, alloc: Global, behind: &[u8]) -> Bound {
    let Ok(mut stream) = Vec::from_slice(alloc, ACCEPTED) else {
        panic!(rt; "no memory")
    };
    assert!(rt; stream.extend_from_slice(behind).is_ok());
    let Ok(bound) = bound_by(rt, alloc, source_of(0, stream.as_slice(), false)) else {
        panic!(rt; "not bound")
    };
    bound
}

// Reads on after what came with the bind's answer.
fn want_rest<N: LogName, S: Abort + Wait>(
    rt: &S,
    alloc: Global,
    log: BlankLog,
    behind: &[u8],
    wanted: (ReaderCause, u64, &[u8]),
)
    requires { (log ≡ N.log) × (N.settings ≡ None) }
{
    let (cause, delivered, written) = wanted;
    let bound = bound_with(rt, alloc, behind);
    let (line, leave) = line_of::<N, S>(rt, alloc, log, 1000, 0);
    let later = source_of(3, b"\x00\x00\x00\x00\x00\x00\x09", false);
    let end = read_from(rt, alloc, later, bound, Vec::new(alloc), &line, leave);
    same(rt, end.cause, cause);
    same(rt, counts(&end), [0, 0, 0, delivered, 0, 0, 0]);
    want_written(rt, line, written);
}

// What was read with the bind's answer is handled first; a transmitter is sent no deliver_sm.
#[test]
fn what_came_with_the_answer(rt: HostRuntime) -> Result<(), Fail> {
    let cases = [
        (
            b"\x00\x00\x00\x10\x00\x00\x00\x15\x00\x00\x00\x00\x00\x00\x00\x02\x00\x00\x00\x10\x00\x00\x00\x05\x00".as_slice(),
            ReaderCause::Ended,
            1,
            b"\x00\x00\x00\x10\x80\x00\x00\x15\x00\x00\x00\x00\x00\x00\x00\x02\x00\x00\x00\x11\x80\x00\x00\x05\x00\x00\x00\x04\x00\x00\x00\x09\x00".as_slice(),
        ),
        (
            b"\x00\x00\x00\x0f".as_slice(),
            ReaderCause::Lost,
            0,
            b"\x00\x00\x00\x10\x80\x00\x00\x00\x00\x00\x00\x02\x00\x00\x00\x00".as_slice(),
        ),
    ];
    for (behind, cause, delivered, written) in cases {
        let alloc = rt.alloc();
        let log = blank_log(&rt, alloc);
        want_rest::<Brand, _>(&rt, alloc, log, behind, (cause, delivered, written));
    }
    Ok(())
}

// Two answers of a worker with these rings.
fn want_counts<N: LogName, S: Abort + Wait>(
    rt: &S,
    alloc: Global,
    log: BlankLog,
    producers: Vec<Producer<Reply>>,
    wanted: [u64; 7],
)
    requires { (log ≡ N.log) × (N.settings ≡ None) }
{
    let octets =
        b"\x00\x00\x00\x10\x80\x00\x00\x04\x00\x00\x00\x00\x00\x00\x00\x01\x00\x00\x00\x10\x80\x00\x00\x04\x00\x00\x00\x00\x00\x00\x00\x02";
    let (line, leave) = line_of::<N, S>(rt, alloc, log, 0, 2);
    let bound = bound_as(rt, alloc, Mode::Transceiver);
    let source = source_of(0, octets, false);
    let end = read_from(rt, alloc, source, bound, producers, &line, leave);
    same(rt, counts(&end), wanted);
}

// An answer whose worker has no ring, or one without room.
#[test]
fn answers_that_overrun(rt: HostRuntime) -> Result<(), Fail> {
    let alloc = rt.alloc();
    let log = blank_log(&rt, alloc);
    want_counts::<Brand, _>(&rt, alloc, log, Vec::new(alloc), [0, 0, 2, 0, 0, 0, 0]);
    let (producers, _consumer) = ring_of(alloc, 1)?;
    let log = blank_log(&rt, alloc);
    want_counts::<Brand, _>(&rt, alloc, log, producers, [1, 0, 1, 0, 0, 0, 0]);
    Ok(())
}

// The answer to each of these requests.
fn answers_to(alloc: Global, numbers: &[u8]) -> Result<Vec<u8>, Fail> {
    let mut octets = Vec::new(alloc);
    for number in numbers {
        octets.extend_from_slice(&[0, 0, 0, 16, 0x80, 0, 0, 4, 0, 0, 0, 0, 0, 0, 0, *number])?;
    }
    Ok(octets)
}

// The ring has the answers to these requests, and nothing else.
fn want_numbers(rt: &impl Abort, consumer: &mut Consumer<Reply>, wanted: &[u32]) {
    for number in wanted {
        same(
            rt,
            consumer.pop().ok().map(|reply| reply.number),
            Some(*number),
        );
    }
    assert!(rt; consumer.pop().is_err());
}

// Five requests of three workers: the second one's ring has room for one answer, and the third one has
// no ring. Each answer goes to its own worker, or is counted as what it is.
#[test]
fn answers_of_several_workers(rt: HostRuntime) -> Result<(), Fail> {
    let alloc = rt.alloc();
    several_workers::<Brand, _>(&rt, alloc, blank_log(&rt, alloc))
}

fn several_workers<N: LogName, S: Abort + Wait>(
    rt: &S,
    alloc: Global,
    log: BlankLog,
) -> Result<(), Fail>
    requires { (log ≡ N.log) × (N.settings ≡ None) }
{
    let (line, leave) = line_of::<N, S>(rt, alloc, log, 0, 0);
    for (slot, worker) in [(0, 1), (1, 0), (2, 2), (3, 1), (4, 0)] {
        same(rt, line.slots.post(rt, slot, worker, slot + 1), Ok(()));
    }
    let (mut producers, mut first) = ring_of(alloc, 64)?;
    let (others, mut second) = ring_of(alloc, 1)?;
    for producer in others {
        producers.push(producer)?;
    }
    let octets = answers_to(alloc, &[5, 1, 3, 9, 4, 2, 1])?;
    let source = source_of(0, octets.as_slice(), false);
    let bound = bound_as(rt, alloc, Mode::Transceiver);
    let end = read_from(rt, alloc, source, bound, producers, &line, leave);
    same(rt, counts(&end), [3, 2, 2, 0, 0, 0, 0]);
    want_numbers(rt, &mut first, &[5, 2]);
    want_numbers(rt, &mut second, &[1]);
    Ok(())
}
