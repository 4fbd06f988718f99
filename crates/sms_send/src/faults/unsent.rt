//! What is printed of the messages that a sending didn't send.

ghost use Rattle.std.specs.Prelude.{◌≡◌, ◌<◌, length};
ghost use Rattle.sms_send.specs.Unsent.{is_bind_closed as is_closed, is_kept_by, is_of_bind as stands_in, kept_by_memory, unsent_from, without_memory};

use crate::args::send_args::Throttle;
use crate::faults::details::unsent::{Ender, UnsentLine, closing_text};
use crate::terminal::standard_error::write_beside;
use sms_devices::Screen;
use sms_driver::BindEnd;
use sms_worker::{MessageEnd, MessageRefusal, MessageResult};
use std::io::Eprint;
use std::thread::Threads;
use std::time::Clock;

/// What may have ended connections, where a journal has failed, and where binds are given up without answers.
fn ender_of(has_failed: bool, gives_up: bool) -> Ender {
    if has_failed {
        Ender::Journal
    } else if gives_up {
        Ender::Silence
    } else {
        Ender::Nothing
    }
}

/// Whether a message was refused since its bind was closed.
fn is_bind_closed(end: &MessageEnd) -> bool
    ensures { result ≡ is_closed end.now.result }
{
    match &end.result {
        MessageResult::Refused(MessageRefusal::BindClosed) => true,
        MessageResult::Refused(_) | MessageResult::Sent(_) => false,
    }
}

/// Whether a message was refused since memory was.
fn is_without_memory(end: &MessageEnd) -> bool
    ensures { result ≡ kept_by_memory end.now.result }
{
    match &end.result {
        MessageResult::Refused(MessageRefusal::OutOfMemory) => true,
        MessageResult::Refused(_) | MessageResult::Sent(_) => false,
    }
}

/// Whether the message at a place is one of a bind's: they are dealt out to all workers in turn, and
/// each bind has as many.
fn is_of_bind(place: usize, workers: usize, binds: usize, bind: usize) -> bool
    ensures { result ≡ stands_in workers binds bind place }
{
    workers > 0 && binds > 0 && place / workers % binds == bind
}

/// Whether the message at a place is one of a bind's, and was refused since that was closed.
fn is_kept_by_bind(
    place: usize,
    end: &MessageEnd,
    workers: usize,
    binds: usize,
    bind: usize,
) -> bool
    ensures { result ≡ is_kept_by workers binds bind place end.now }
{
    is_of_bind(place, workers, binds, bind) && is_bind_closed(end)
}

/// How many messages of a bind were refused since it was closed.
fn unsent_of(ends: &[MessageEnd], workers: usize, binds: usize, bind: usize) -> usize
    ensures { result ≡ unsent_from workers binds bind 0 ends.now }
{
    let mut count = 0;
    for (place, end) in ends.iter().enumerate() {
        if is_kept_by_bind(place, end, workers, binds, bind) {
            count += 1;
        }
    }
    count
}

/// How many messages were refused since memory was.
fn unsent_for_memory(ends: &[MessageEnd]) -> usize
    ensures { result ≡ without_memory ends.now }
{
    let mut count = 0;
    for end in ends {
        if is_without_memory(end) {
            count += 1;
        }
    }
    count
}

/// Prints the line, where there are some.
fn write_line<R: AllocGlobal + Threads + Clock + Eprint + Screen>(rt: &R, line: UnsentLine) {
    if line.count > 0 {
        write_beside(rt, &line);
    }
}

/// What there is to say of the messages of a bind that were not sent since it was closed.
fn line_of_bind(ends: &[MessageEnd], binds: &[BindEnd], bind: usize, ender: Ender) -> UnsentLine
    requires { bind < length binds.now }
{
    let end = &binds[bind];
    UnsentLine {
        count: unsent_of(ends, end.workers(), binds.len(), bind),
        bind: Some(bind),
        why: closing_text(end, ender),
    }
}

/// What there is to say of those that were not sent since memory was refused.
fn line_of_memory(ends: &[MessageEnd]) -> UnsentLine {
    UnsentLine {
        count: unsent_for_memory(ends),
        bind: None,
        why: "memory was refused",
    }
}

/// What there is to say of messages that were not sent: of the first bind that was closed to some, or else of those for
/// which memory was refused.
pub(crate) fn first_unsent(
    ends: &[MessageEnd],
    binds: &[BindEnd],
    throttle: Throttle,
    has_failed: bool,
) -> UnsentLine {
    let ender = ender_of(has_failed, throttle.stop_after.is_some());
    for bind in 0..binds.len() {
        let line = line_of_bind(ends, binds, bind, ender);
        if line.count > 0 {
            return line;
        }
    }
    line_of_memory(ends)
}

/// At length, prints of each bind how many of its messages were not sent since it was closed, and why it
/// was; and how many were not sent since memory was refused. The journal may have failed.
pub fn report_unsent<R: AllocGlobal + Threads + Clock + Eprint + Screen>(
    rt: &R,
    ends: &[MessageEnd],
    binds: &[BindEnd],
    at_length: bool,
    throttle: Throttle,
    has_failed: bool,
) {
    if !at_length {
        return;
    }
    let ender = ender_of(has_failed, throttle.stop_after.is_some());
    for bind in 0..binds.len() {
        write_line(rt, line_of_bind(ends, binds, bind, ender));
    }
    write_line(rt, line_of_memory(ends));
}
