//! For how long a worker that has nothing to do says that nothing comes due, and how it takes turns.

use super::notes::Note;
use super::why::want_refused;
use super::{
    Case, Done, OK, PLAIN, SILENT, THROTTLED, messages_of, run, same, want_row, want_sent,
};
use sms_worker::{ClosedBy, MessageRefusal, Outcome};
use std::alloc::Global;
use std::process::Abort;
use std::sync::Wait;
use std::test::Fail;

// Each pause was asked for 1 ms, and these were the times beside that.
fn want_waits(rt: &impl Abort, done: &Done, wanted: &[u64]) {
    let mut count = 0usize;
    for note in &done.notes {
        if let Note::Waited(ms, most) = note {
            same(rt, (count, *ms), (count, 1));
            same(
                rt,
                (count, Some(*most)),
                (count, wanted.get(count).copied()),
            );
            count = count.saturating_add(1);
        }
    }
    same(rt, count, wanted.len());
}

// A pause takes 10 ms.
fn want_waits_of(
    rt: &(impl Abort + Wait),
    alloc: Global,
    case: Case<'_>,
    messages: u64,
    wanted: &[u64],
) -> Result<Done, Fail> {
    let done = run(rt, alloc, case, messages_of(alloc, messages)?);
    want_waits(rt, &done, wanted);
    Ok(done)
}

const UNTIL_EXPIRED: [u64; 5] = [50, 40, 30, 20, 10];

// Whatever the clock shows when it begins.
#[test]
fn waits_until_a_request_expires(rt: HostRuntime) -> Result<(), Fail> {
    let alloc = rt.alloc();
    for begins_ms in [0, 1 << 40] {
        let case = Case {
            answers: &[SILENT],
            answer_ms: 50,
            begins_ms,
            ..PLAIN
        };
        let done = want_waits_of(&rt, alloc, case, 1, &UNTIL_EXPIRED)?;
        want_sent(&rt, &done, 0, &[(1, Outcome::Unanswered)]);
    }
    Ok(())
}

const UNTIL_RETRIED: [u64; 12] = [60_000, 100, 90, 80, 70, 60, 50, 40, 30, 20, 10, 60_000];

#[test]
fn waits_until_a_segment_is_sent_again(rt: HostRuntime) -> Result<(), Fail> {
    let case = Case {
        answers: &[THROTTLED, OK],
        turns: 40,
        ..PLAIN
    };
    let done = want_waits_of(&rt, rt.alloc(), case, 1, &UNTIL_RETRIED)?;
    want_sent(&rt, &done, 0, &[(2, Outcome::Charged)]);
    Ok(())
}

const UNTIL_THE_FIRST_OF_BOTH: [u64; 12] = [70, 60, 50, 40, 30, 20, 10, 40, 30, 20, 10, 70];

#[test]
fn waits_until_the_first_of_both(rt: HostRuntime) -> Result<(), Fail> {
    let case = Case {
        answers: &[THROTTLED, SILENT, OK],
        answer_ms: 70,
        ..PLAIN
    };
    let done = want_waits_of(&rt, rt.alloc(), case, 2, &UNTIL_THE_FIRST_OF_BOTH)?;
    want_sent(&rt, &done, 0, &[(2, Outcome::Charged)]);
    want_sent(&rt, &done, 1, &[(1, Outcome::Unanswered)]);
    Ok(())
}

const WITH_A_RETRY_DUE: [u64; 12] = [100, 100, 90, 80, 70, 60, 50, 40, 30, 20, 10, 100];

// While as many are open as may be, a segment that is to be sent again can't be sent.
#[test]
fn waits_for_no_retry_while_all_are_open(rt: HostRuntime) -> Result<(), Fail> {
    let case = Case {
        answers: &[THROTTLED, SILENT, OK],
        answer_ms: 100,
        base_ms: 50,
        depth: 1,
        ..PLAIN
    };
    let done = want_waits_of(&rt, rt.alloc(), case, 2, &WITH_A_RETRY_DUE)?;
    want_sent(&rt, &done, 0, &[(2, Outcome::Charged)]);
    want_sent(&rt, &done, 1, &[(1, Outcome::Unanswered)]);
    Ok(())
}

const OF_TWO_RETRIES: [u64; 13] = [
    60_000, 60_000, 90, 80, 70, 60, 50, 40, 30, 20, 10, 60_000, 60_000,
];

// Both were tried once, and the second to wait doesn't delay the first.
#[test]
fn two_retries_have_times_of_their_own(rt: HostRuntime) -> Result<(), Fail> {
    let case = Case {
        answers: &[THROTTLED, THROTTLED, OK],
        depth: 1,
        ..PLAIN
    };
    let done = want_waits_of(&rt, rt.alloc(), case, 2, &OF_TWO_RETRIES)?;
    want_sent(&rt, &done, 0, &[(2, Outcome::Charged)]);
    want_sent(&rt, &done, 1, &[(2, Outcome::Charged)]);
    Ok(())
}

const OF_TWO_OPEN: [u64; 6] = [50, 40, 30, 20, 10, 10];

// Of two requests that are open the one that was sent first expires first.
#[test]
fn waits_for_the_first_of_two_requests(rt: HostRuntime) -> Result<(), Fail> {
    let case = Case {
        answers: &[SILENT, OK, SILENT],
        answer_ms: 50,
        depth: 2,
        ..PLAIN
    };
    let done = want_waits_of(&rt, rt.alloc(), case, 3, &OF_TWO_OPEN)?;
    want_row(&rt, &done, (0, 2, 1, 0));
    Ok(())
}

// From 0, 10, 110, 120, 130, 230, 240 and 320 ms on.
const OF_TWO_QUEUES: [u64; 33] = [
    100, 100, 90, 80, 70, 60, 50, 40, 30, 20, 10, 100, 100, 100, 90, 80, 70, 60, 50, 40, 30, 20,
    10, 100, 80, 70, 60, 50, 40, 30, 20, 10, 100,
];

// The first message is refused for now twice, and waits for 200 ms then; the last waits for 100 ms.
#[test]
fn waits_for_the_first_of_two_queues(rt: HostRuntime) -> Result<(), Fail> {
    let case = Case {
        answers: &[THROTTLED, SILENT, THROTTLED, THROTTLED, OK],
        answer_ms: 100,
        depth: 1,
        ..PLAIN
    };
    let done = want_waits_of(&rt, rt.alloc(), case, 3, &OF_TWO_QUEUES)?;
    want_sent(&rt, &done, 0, &[(3, Outcome::Charged)]);
    want_sent(&rt, &done, 1, &[(1, Outcome::Unanswered)]);
    want_sent(&rt, &done, 2, &[(2, Outcome::Charged)]);
    Ok(())
}

#[test]
fn waits_for_the_gate(rt: HostRuntime) -> Result<(), Fail> {
    let case = Case {
        ready_at: 3,
        ..PLAIN
    };
    let done = want_waits_of(&rt, rt.alloc(), case, 1, &[0, 0, 0, 60_000])?;
    want_sent(&rt, &done, 0, &[(1, Outcome::Charged)]);
    Ok(())
}

#[test]
fn waits_for_a_slot(rt: HostRuntime) -> Result<(), Fail> {
    let case = Case { window: 2, ..PLAIN };
    let done = want_waits_of(&rt, rt.alloc(), case, 3, &[0, 60_000])?;
    for place in 0..3 {
        want_sent(&rt, &done, place, &[(1, Outcome::Charged)]);
    }
    want_row(&rt, &done, (0, 0, 3, 0));
    Ok(())
}

// How many turns were taken when they were over.
fn turns_of(closed: Option<ClosedBy>) -> Option<u64> {
    match closed {
        Some(ClosedBy::Turns(taken)) => Some(taken.count()),
        _ => None,
    }
}

// The first turn sends, the others wait, and behind the last what is open has no answer.
#[test]
fn takes_as_many_turns_as_it_may(rt: HostRuntime) -> Result<(), Fail> {
    let case = Case {
        answers: &[SILENT],
        depth: 1,
        turns: 3,
        ..PLAIN
    };
    let done = want_waits_of(&rt, rt.alloc(), case, 2, &[60_000, 59_990])?;
    want_sent(&rt, &done, 0, &[(1, Outcome::Unanswered)]);
    want_refused(&rt, &done, 1, MessageRefusal::BindClosed);
    same(&rt, turns_of(done.closed), Some(3));
    want_row(&rt, &done, (2, 1, 0, 0));
    Ok(())
}

// The answer comes when the turn has heard, and looks at the clock for what waited too long.
#[test]
fn an_answer_at_the_last_moment_is_taken(rt: HostRuntime) -> Result<(), Fail> {
    let case = Case {
        answer_ms: 50,
        late_ms: 50,
        ..PLAIN
    };
    let done = want_waits_of(&rt, rt.alloc(), case, 1, &[50, 40, 30, 20, 10, 0])?;
    want_sent(&rt, &done, 0, &[(1, Outcome::Charged)]);
    want_row(&rt, &done, (2, 0, 1, 0));
    Ok(())
}
