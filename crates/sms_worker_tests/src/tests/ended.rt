//! What becomes of messages that can't be sent, or not any more.

use super::why::{Why, want_reasons, want_refused};
use super::{
    Case, Done, OK, PLAIN, SILENT, THROTTLED, letters, message, messages_of, push_message, run,
    same, want_row, want_sent,
};
use sms_bind::DownCause;
use sms_worker::{ClosedBy, Message, MessageRefusal, Outcome};
use std::alloc::{AllocError, Global};
use std::process::Abort;
use std::sync::Wait;
use std::test::Fail;

#[test]
fn a_line_that_goes_down_ends_all(rt: HostRuntime) -> Result<(), Fail> {
    let alloc = rt.alloc();
    let case = Case {
        credits: 5,
        depth: 3,
        answers: &[SILENT],
        down_at: 1,
        ..PLAIN
    };
    let done = run(&rt, alloc, case, messages_of(alloc, 5)?);
    for place in 0..3 {
        want_sent(&rt, &done, place, &[(1, Outcome::Unanswered)]);
    }
    for place in 3..5 {
        want_refused(&rt, &done, place, MessageRefusal::BindClosed);
    }
    same(&rt, done.closed, Some(ClosedBy::Down(DownCause::Write)));
    want_row(&rt, &done, (2, 3, 0, 0));
    Ok(())
}

// A retry that waits when the line goes down is refused by its last answer, and what is open and
// answered then is taken.
#[test]
fn a_line_that_goes_down_takes_what_is_answered(rt: HostRuntime) -> Result<(), Fail> {
    let alloc = rt.alloc();
    let case = Case {
        answers: &[THROTTLED, OK],
        depth: 2,
        down_at: 1,
        ..PLAIN
    };
    let done = run(&rt, alloc, case, messages_of(alloc, 2)?);
    want_sent(&rt, &done, 0, &[(1, Outcome::Refused)]);
    want_sent(&rt, &done, 1, &[(1, Outcome::Charged)]);
    want_row(&rt, &done, (2, 0, 1, 1));
    Ok(())
}

#[test]
fn numbers_are_used_up(rt: HostRuntime) -> Result<(), Fail> {
    let alloc = rt.alloc();
    let done = run(
        &rt,
        alloc,
        Case {
            first: 0x7FFF_FFFF,
            ..PLAIN
        },
        messages_of(alloc, 3)?,
    );
    want_sent(&rt, &done, 0, &[(1, Outcome::Charged)]);
    want_sent(&rt, &done, 1, &[(0, Outcome::Unsent)]);
    want_sent(&rt, &done, 2, &[(0, Outcome::Unsent)]);
    want_reasons(&rt, &done, &[(Why::Numbers, 1, 0), (Why::Numbers, 2, 0)]);
    want_row(&rt, &done, (2, 0, 1, 2));
    Ok(())
}

// One message more, of one letter and from another source.
fn push_from(
    alloc: Global,
    messages: &mut Vec<Message>,
    index: u64,
    source: &str,
) -> Result<(), AllocError> {
    let mut from = message(alloc, index, Some(0), "447700900123", letters(alloc, 1)?)?;
    from.source = String::from_str(alloc, source)?;
    messages.push(from)?;
    Ok(())
}

// Messages without a good account or a good destination.
fn push_unknown(alloc: Global, messages: &mut Vec<Message>) -> Result<(), AllocError> {
    push_message(alloc, messages, 0, None, "abc", 1)?;
    push_message(alloc, messages, 1, Some(1), "447700900123", 1)?;
    push_message(alloc, messages, 2, Some(0), "abc", 1)?;
    push_message(alloc, messages, 3, Some(0), "+", 1)
}

// Messages that are too long or cost too much.
fn push_large(alloc: Global, messages: &mut Vec<Message>) -> Result<(), AllocError> {
    push_message(alloc, messages, 4, Some(0), "447700900123", 39_016)?;
    push_message(alloc, messages, 5, Some(0), "447700900123", 460)?;
    push_message(alloc, messages, 6, Some(0), "46700", 1)
}

fn want_all_refused(rt: &impl Abort, done: &Done) {
    let wanted = [
        MessageRefusal::NoAccount,
        MessageRefusal::NoAccount,
        MessageRefusal::BadAddress,
        MessageRefusal::BadAddress,
        MessageRefusal::TooLong,
        MessageRefusal::NoCredit,
        MessageRefusal::NoCredit,
        MessageRefusal::BadAddress,
    ];
    for place in 0..wanted.len() {
        want_refused(rt, done, place, wanted[place]);
    }
}

// Where the line is down from the start.
fn want_closed(rt: &(impl Abort + Wait), alloc: Global) -> Result<(), Fail> {
    let case = Case {
        down: true,
        ..PLAIN
    };
    let done = run(rt, alloc, case, messages_of(alloc, 1)?);
    want_refused(rt, &done, 0, MessageRefusal::BindClosed);
    Ok(())
}

#[test]
fn messages_are_refused(rt: HostRuntime) -> Result<(), Fail> {
    let alloc = rt.alloc();
    let mut messages = Vec::new(alloc);
    push_unknown(alloc, &mut messages)?;
    push_large(alloc, &mut messages)?;
    push_from(alloc, &mut messages, 7, "TwelveLetter")?;
    push_from(alloc, &mut messages, 8, "")?;
    let done = run(&rt, alloc, PLAIN, messages);
    want_all_refused(&rt, &done);
    same(&rt, done.closed, None);
    want_sent(&rt, &done, 8, &[(1, Outcome::Charged)]);
    want_row(&rt, &done, (2, 0, 1, 0));
    want_closed(&rt, alloc)
}

// Whether the gate let no further message begin.
fn is_stopped(closed: Option<ClosedBy>) -> bool {
    match closed {
        Some(ClosedBy::Stopped(_)) => true,
        _ => false,
    }
}

// What was begun is sent to its end, also what is to be sent again; and the rest is refused.
#[test]
fn a_stop_ends_what_was_begun(rt: HostRuntime) -> Result<(), Fail> {
    let alloc = rt.alloc();
    let case = Case {
        credits: 5,
        depth: 2,
        answers: &[THROTTLED, OK],
        begins_to: 2,
        ..PLAIN
    };
    let done = run(&rt, alloc, case, messages_of(alloc, 4)?);
    want_sent(&rt, &done, 0, &[(2, Outcome::Charged)]);
    want_sent(&rt, &done, 1, &[(1, Outcome::Charged)]);
    want_refused(&rt, &done, 2, MessageRefusal::BindClosed);
    want_refused(&rt, &done, 3, MessageRefusal::BindClosed);
    same(&rt, is_stopped(done.closed), true);
    want_reasons(&rt, &done, &[]);
    want_row(&rt, &done, (3, 0, 2, 0));
    Ok(())
}

// A line that goes down behind a stop gives up what is to be sent again, and is the cause.
#[test]
fn a_line_may_go_down_behind_a_stop(rt: HostRuntime) -> Result<(), Fail> {
    let alloc = rt.alloc();
    let case = Case {
        depth: 1,
        answers: &[THROTTLED],
        down_at: 2,
        begins_to: 1,
        ..PLAIN
    };
    let done = run(&rt, alloc, case, messages_of(alloc, 2)?);
    want_sent(&rt, &done, 0, &[(1, Outcome::Refused)]);
    want_refused(&rt, &done, 1, MessageRefusal::BindClosed);
    same(&rt, done.closed, Some(ClosedBy::Down(DownCause::Write)));
    want_row(&rt, &done, (3, 0, 0, 1));
    Ok(())
}

// The attempt whose frame was begun is made; no later one is.
#[test]
fn a_broken_wire_ends_the_line(rt: HostRuntime) -> Result<(), Fail> {
    let alloc = rt.alloc();
    let done = run(
        &rt,
        alloc,
        Case {
            room: 60,
            depth: 1,
            ..PLAIN
        },
        messages_of(alloc, 3)?,
    );
    want_sent(&rt, &done, 0, &[(1, Outcome::Charged)]);
    want_sent(&rt, &done, 1, &[(1, Outcome::Unanswered)]);
    want_refused(&rt, &done, 2, MessageRefusal::BindClosed);
    same(&rt, done.closed, Some(ClosedBy::Down(DownCause::Write)));
    want_row(&rt, &done, (1, 1, 1, 0));
    Ok(())
}

// Where the writer takes so many octets of five messages of one part: so many requests were begun to be
// written when it failed, and the messages behind them are refused in the same turn.
fn want_closed_behind(
    rt: &(impl Abort + Wait),
    alloc: Global,
    room: u64,
    open: usize,
    row: (u64, u64, u64, u64),
) -> Result<(), Fail> {
    let case = Case {
        room,
        credits: 9,
        depth: 8,
        ..PLAIN
    };
    let done = run(rt, alloc, case, messages_of(alloc, 5)?);
    for place in 0..open {
        want_sent(rt, &done, place, &[(1, Outcome::Unanswered)]);
    }
    for place in open..5 {
        want_refused(rt, &done, place, MessageRefusal::BindClosed);
    }
    want_row(rt, &done, row);
    Ok(())
}

#[test]
fn a_write_that_fails_closes_what_was_not_begun(rt: HostRuntime) -> Result<(), Fail> {
    let alloc = rt.alloc();
    want_closed_behind(&rt, alloc, 30, 1, (8, 1, 0, 0))?;
    want_closed_behind(&rt, alloc, 60, 2, (7, 2, 0, 0))
}

// The parts behind the one that was written in vain are unsent, and the next message is refused.
#[test]
fn a_write_that_fails_leaves_later_parts_unsent(rt: HostRuntime) -> Result<(), Fail> {
    let alloc = rt.alloc();
    let mut messages = Vec::new(alloc);
    push_message(alloc, &mut messages, 0, Some(0), "447700900123", 306)?;
    push_message(alloc, &mut messages, 1, Some(0), "447700900123", 1)?;
    let done = run(&rt, alloc, Case { room: 30, ..PLAIN }, messages);
    want_sent(
        &rt,
        &done,
        0,
        &[(1, Outcome::Unanswered), (0, Outcome::Unsent)],
    );
    want_refused(&rt, &done, 1, MessageRefusal::BindClosed);
    want_reasons(&rt, &done, &[]);
    want_row(&rt, &done, (2, 1, 0, 1));
    Ok(())
}
