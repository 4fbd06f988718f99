//! What becomes of a segment by its answers, and what it costs.

use super::{
    Case, Done, OK, PLAIN, SILENT, THROTTLED, attempt_of, messages_of, push_message, run, same,
    segments_of, want_row, want_sent,
};
use sms_worker::Outcome;
use std::process::Abort;
use std::test::Fail;

#[test]
fn both_parts_are_charged(rt: HostRuntime) -> Result<(), Fail> {
    let alloc = rt.alloc();
    let mut messages = Vec::new(alloc);
    push_message(alloc, &mut messages, 7, Some(0), "447700900123", 161)?;
    let done = run(&rt, alloc, PLAIN, messages);
    want_sent(
        &rt,
        &done,
        0,
        &[(1, Outcome::Charged), (1, Outcome::Charged)],
    );
    want_row(&rt, &done, (1, 0, 2, 0));
    Ok(())
}

#[test]
fn a_throttled_segment_is_sent_again(rt: HostRuntime) -> Result<(), Fail> {
    let alloc = rt.alloc();
    let case = Case {
        answers: &[THROTTLED, THROTTLED, OK],
        ..PLAIN
    };
    let done = run(&rt, alloc, case, messages_of(alloc, 1)?);
    want_sent(&rt, &done, 0, &[(3, Outcome::Charged)]);
    want_row(&rt, &done, (2, 0, 1, 0));
    let done = run(
        &rt,
        alloc,
        Case {
            attempts: 2,
            ..case
        },
        messages_of(alloc, 1)?,
    );
    want_sent(&rt, &done, 0, &[(2, Outcome::Refused)]);
    want_row(&rt, &done, (3, 0, 0, 1));
    Ok(())
}

// Many wait to be sent again at once, in the order of their times.
#[test]
fn many_throttled_messages_are_charged(rt: HostRuntime) -> Result<(), Fail> {
    let alloc = rt.alloc();
    let throttled = [THROTTLED; 40];
    let mut answers = Vec::from_slice(alloc, &throttled)?;
    answers.push(OK)?;
    let case = Case {
        credits: 30,
        depth: 8,
        answers: answers.as_slice(),
        ..PLAIN
    };
    let done = run(
        &rt,
        alloc,
        Case {
            attempts: 4,
            ..case
        },
        messages_of(alloc, 30)?,
    );
    for place in 0..30 {
        let segments = segments_of(&done, place);
        let charged = segments
            .iter()
            .all(|segment| segment.outcome == Outcome::Charged);
        same(&rt, (place, segments.len(), charged), (place, 1, true));
    }
    want_row(&rt, &done, (0, 0, 30, 0));
    Ok(())
}

#[test]
fn without_an_answer_credits_stay_reserved(rt: HostRuntime) -> Result<(), Fail> {
    let alloc = rt.alloc();
    let case = Case {
        answers: &[SILENT],
        answer_ms: 50,
        ..PLAIN
    };
    let done = run(&rt, alloc, case, messages_of(alloc, 1)?);
    want_sent(&rt, &done, 0, &[(1, Outcome::Unanswered)]);
    want_row(&rt, &done, (2, 1, 0, 0));
    Ok(())
}

#[test]
fn a_segment_costs_what_its_prefix_says(rt: HostRuntime) -> Result<(), Fail> {
    let alloc = rt.alloc();
    let mut messages = Vec::new(alloc);
    push_message(alloc, &mut messages, 0, Some(0), "+46700000000", 161)?;
    let done = run(
        &rt,
        alloc,
        Case {
            credits: 12,
            ..PLAIN
        },
        messages,
    );
    want_sent(
        &rt,
        &done,
        0,
        &[(1, Outcome::Charged), (1, Outcome::Charged)],
    );
    want_row(&rt, &done, (2, 0, 10, 0));
    Ok(())
}

fn want_number(rt: &impl Abort, done: &Done, place: usize, attempt: usize, wanted: usize) {
    let number = attempt_of(done, place, attempt).map(|attempt| attempt.number as usize);
    same(rt, number, Some(wanted));
}

// A pause takes 10 ms, in which the open request is answered, and a retry waits for 100. Until then new
// messages are begun, in their order, and once its time has come the retry goes before the next.
#[test]
fn a_retry_that_is_due_comes_first(rt: HostRuntime) -> Result<(), Fail> {
    let alloc = rt.alloc();
    let case = Case {
        credits: 15,
        depth: 1,
        answers: &[THROTTLED, OK],
        ..PLAIN
    };
    let done = run(&rt, alloc, case, messages_of(alloc, 15)?);
    want_number(&rt, &done, 0, 0, 1);
    for place in 1..11usize {
        want_number(&rt, &done, place, 0, place + 1);
    }
    want_number(&rt, &done, 0, 1, 12);
    for place in 11..15usize {
        want_number(&rt, &done, place, 0, place + 2);
    }
    want_row(&rt, &done, (0, 0, 15, 0));
    Ok(())
}
