//! Readers that end before their input does, and the cause for which the line is down.

ghost use Rattle.std.specs.Prelude.{◌≡◌, true, None};
ghost use Rattle.sms_bind.specs.Wires.{is_broken};

use super::reader::{bound_as, line_of, read_from, want_down, want_written};
use super::{ENQUIRE_LINK, Sink, blank_log, frame, same, source_of, wire_to};
use sms_bind::{BlankLog, DownCause, Line, LogName, ReaderCause, ReaderLeave, Wire};
use sms_pdu::Mode;
use std::alloc::Global;
use std::marker::Brand;
use std::process::Abort;
use std::sync::Wait;
use std::sync::atomic::Ordering;
use std::test::Fail;

const ENQUIRE_LINK_RESP: &[u8; 16] =
    b"\x00\x00\x00\x10\x80\x00\x00\x15\x00\x00\x00\x00\x00\x00\x00\x02";

// A reader over a wire with this room and a source that gives nothing so often, which may be stopped: no
// cause is wanted then but that.
fn want_early<N: LogName, S: Abort + Wait>(
    rt: &S,
    alloc: Global,
    log: BlankLog,
    given: (usize, u32, bool),
    wanted: (Option<ReaderCause>, u64),
)
    requires { (log ≡ N.log) × (N.settings ≡ None) }
{
    let (room, idle, stop) = given;
    let (cause, errors) = wanted;
    let (line, leave) = line_of::<N, S>(rt, alloc, log, room, 0);
    line.stop.store(stop, Ordering::SeqCst);
    let bound = bound_as(rt, alloc, Mode::Transmitter);
    let source = source_of(idle, ENQUIRE_LINK, true);
    let end = read_from(rt, alloc, source, bound, Vec::new(alloc), &line, leave);
    want_cause(rt, end.cause, cause);
    same(rt, end.errors, errors);
    let written: &[u8] = match end.cause {
        ReaderCause::WriteFault => &ENQUIRE_LINK_RESP[..10],
        ReaderCause::ReadFault => ENQUIRE_LINK_RESP.as_slice(),
        _ => b"",
    };
    want_written(rt, line, written);
}

// None: the reader was stopped.
fn want_cause<S: Abort>(rt: &S, cause: ReaderCause, wanted: Option<ReaderCause>) {
    match wanted {
        Some(wanted) => same(rt, cause, wanted),
        None => want_stop(rt, cause),
    }
}

fn want_stop<S: Abort>(rt: &S, cause: ReaderCause) {
    match cause {
        ReaderCause::Stopped(_seen) => (),
        _ => panic!(rt; "not stopped"),
    }
}

// A wire that breaks, a reader that fails, a line that is stopped, and turns that are used up.
#[test]
fn readers_that_end_early(rt: HostRuntime) -> Result<(), Fail> {
    let cases = [
        (10, 0, false, Some(ReaderCause::WriteFault), 0),
        (1000, 3, false, Some(ReaderCause::ReadFault), 4),
        (1000, 10, false, Some(ReaderCause::Turns), 10),
        (1000, 0, true, None, 0),
    ];
    for (room, idle, stop, cause, errors) in cases {
        let alloc = rt.alloc();
        let log = blank_log(&rt, alloc);
        want_early::<Brand, _>(&rt, alloc, log, (room, idle, stop), (cause, errors));
    }
    Ok(())
}

// The first cause stands: that of a wire that breaks, and not of the reader that ends after it.
#[test]
fn the_first_cause_stands(rt: HostRuntime) -> Result<(), Fail> {
    let alloc = rt.alloc();
    first_cause::<Brand, _>(&rt, alloc, blank_log(&rt, alloc))
}

fn first_cause<N: LogName, S: Abort + Wait>(
    rt: &S,
    alloc: Global,
    log: BlankLog,
) -> Result<(), Fail>
    requires { (log ≡ N.log) × (N.settings ≡ None) }
{
    let (line, leave) = line_of::<N, S>(rt, alloc, log, 0, 0);
    let mut broken = wire_to(0, Vec::new(alloc));
    drop(broken.send(frame(alloc, ENQUIRE_LINK)?));
    if !broken.broken() {
        return Err("it isn't broken".into());
    }
    want_first(rt, alloc, &line, leave, &broken);
    Ok(())
}

// The wire marks the line down, and then its reader ends.
fn want_first<N: LogName, S: Abort + Wait>(
    rt: &S,
    alloc: Global,
    line: &Line<N, Sink>,
    leave: ReaderLeave,
    broken: &Wire<Sink>,
)
    requires { is_broken broken.now ≡ true }
{
    let Ok(down) = line.down.write_failed(rt, broken) else {
        panic!(rt; "down before")
    };
    want_down(rt, line, &down, DownCause::Write);
    let bound = bound_as(rt, alloc, Mode::Transmitter);
    let source = source_of(0, b"", false);
    let end = read_from(rt, alloc, source, bound, Vec::new(alloc), line, leave);
    same(rt, end.cause, ReaderCause::Ended);
    want_down(rt, line, &down, DownCause::Write);
}
