//! Runs whose ends are compared with the credits that moved.

ghost use Rattle.std.specs.Prelude.{◌≡◌, None};

use super::beside::{Beside, line_with_fuse};
use super::notes::Log;
use super::{
    Case, Done, OK, PLAIN, SILENT, THROTTLED, book_of, had, messages_of, push_message, rings_of,
    row_of, rules_of, run, same, seats_of, sends, want_row, want_sent, wires_of,
};
use sms_bind::{BlankLog, LogName};
use sms_book::{Blank, BookName};
use sms_worker::{MessageEnd, MessageRefusal, MessageResult, Outcome, Rules, Worker};
use std::alloc::Global;
use std::marker::Brand;
use std::process::Abort;
use std::sync::Wait;
use std::test::Fail;

// What the ends say of the credits: reserved, charged, returned.
pub fn sums(ends: &[MessageEnd]) -> (u64, u64, u64) {
    let mut reserved = 0u64;
    let mut charged = 0u64;
    let mut returned = 0u64;
    for end in ends {
        if let MessageResult::Sent(segments) = &end.result {
            for segment in segments.as_slice() {
                let cost = u64::from(segment.cost);
                match segment.outcome {
                    Outcome::Unanswered => reserved = reserved.wrapping_add(cost),
                    Outcome::Charged => charged = charged.wrapping_add(cost),
                    Outcome::Refused => returned = returned.wrapping_add(cost),
                    Outcome::Unsent => returned = returned.wrapping_add(cost),
                }
            }
        }
    }
    (reserved, charged, returned)
}

// The row is what the ends add up to, where the writer takes so many octets.
fn want_balance(rt: &(impl Abort + Wait), alloc: Global, room: u64) -> Result<(), Fail> {
    let case = Case {
        room,
        attempts: 2,
        answers: &[THROTTLED, OK],
        ..PLAIN
    };
    let done = run(rt, alloc, case, messages_of(alloc, 2)?);
    let row = done.row;
    same(
        rt,
        (room, (row.reserved, row.charged, row.returned)),
        (room, sums(done.ends.as_slice())),
    );
    let taken = row.reserved.wrapping_add(row.charged);
    same(rt, (room, row.free.wrapping_add(taken)), (room, 3));
    Ok(())
}

// Wherever the writer fails, the row is what the ends add up to.
#[test]
fn a_wire_may_fail_at_any_octet(rt: HostRuntime) -> Result<(), Fail> {
    let alloc = rt.alloc();
    for room in 0..110u64 {
        want_balance(&rt, alloc, room)?;
    }
    Ok(())
}

// A text of 305 letters, whose parts have references of this kind.
fn want_parts(
    rt: &(impl Abort + Wait),
    alloc: Global,
    long_reference: bool,
    wanted: &[(usize, Outcome)],
    row: (u64, u64, u64, u64),
) -> Result<(), Fail> {
    let mut messages = Vec::new(alloc);
    push_message(alloc, &mut messages, 70_000, Some(0), "447700900123", 305)?;
    let case = Case {
        long_reference,
        ..PLAIN
    };
    let done = run(rt, alloc, case, messages);
    want_sent(rt, &done, 0, wanted);
    want_row(rt, &done, row);
    Ok(())
}

// A long reference leaves room for 152 letters in a part, a short one for 153.
#[test]
fn long_references_take_more_parts(rt: HostRuntime) -> Result<(), Fail> {
    let alloc = rt.alloc();
    let one = (1, Outcome::Charged);
    want_parts(&rt, alloc, false, &[one, one], (1, 0, 2, 0))?;
    want_parts(&rt, alloc, true, &[one, one, one], (0, 0, 3, 0))
}

// Two workers of one bind, one after the other, each with one message: what came of the first, and of
// both.
fn two_work<N: BookName + LogName, R: Abort + Wait>(
    rt: &R,
    alloc: Global,
    blank: Blank,
    wires: BlankLog,
    rules: &Rules,
    case: Case<'_>,
) -> (Done, Done)
    requires { (blank.book ≡ N.book) × (wires ≡ N.log) × (N.settings ≡ None) }
{
    let (window, one, other, _keeper) = had(rt, seats_of(rt, alloc, case.first));
    let log = Log::new(alloc);
    let (producers, consumer, other_consumer) = had(rt, rings_of(alloc));
    let made = had(rt, line_with_fuse::<N>(alloc, wires, case.room, &log));
    let (line, requests, other_requests) = made;
    let beside = Beside::new(rt, alloc, &line, producers, case, &log);
    let (book, _till, mut all) = had(rt, blank.open::<N>(alloc).ok());
    let shares = had(rt, all.pop());
    let other_shares = had(rt, all.pop());
    let its = had(rt, messages_of(alloc, 1).ok());
    let others = had(rt, messages_of(alloc, 1).ok());
    let worker = Worker {
        index: 0,
        place: 0,
        seat: one,
        shares,
        consumer,
        requests,
    };
    let first = sends(
        rt, alloc, worker, its, &line, &window, &book, rules, &beside, &log,
    );
    let worker = Worker {
        index: 1,
        place: 1,
        seat: other,
        shares: other_shares,
        consumer: other_consumer,
        requests: other_requests,
    };
    let second = sends(
        rt, alloc, worker, others, &line, &window, &book, rules, &beside, &log,
    );
    let first = had(rt, first);
    (first, had(rt, second))
}

fn two_run(rt: &(impl Abort + Wait), alloc: Global, case: Case<'_>) -> (Done, Done) {
    let rules = had(rt, rules_of(alloc, case));
    let blank = had(rt, book_of(alloc, case.credits, 2));
    let wires = wires_of(rt, alloc);
    two_work::<Brand, _>(rt, alloc, blank, wires, &rules, case)
}

// Whether the one message was sent and came to this.
pub fn came_to(ends: &[MessageEnd], outcome: Outcome) -> bool {
    match ends.get(0) {
        Some(end) => match &end.result {
            MessageResult::Sent(segments) => segments
                .as_slice()
                .iter()
                .all(|segment| segment.outcome == outcome),
            MessageResult::Refused(_) => false,
        },
        None => false,
    }
}

// Whether the one message was refused for lack of credits.
pub fn had_no_credit(ends: &[MessageEnd]) -> bool {
    match ends.get(0) {
        Some(end) => match &end.result {
            MessageResult::Sent(_) => false,
            MessageResult::Refused(refusal) => *refusal == MessageRefusal::NoCredit,
        },
        None => false,
    }
}

// The first worker gets the last credit. It is free again for the second where the first message is
// refused, and not where it has no answer.
#[test]
fn two_workers_have_one_credit(rt: HostRuntime) {
    let alloc = rt.alloc();
    let rows: [(&[u32], Outcome, Option<Outcome>, (u64, u64, u64, u64)); 3] = [
        (&[OK], Outcome::Charged, None, (0, 0, 1, 0)),
        (
            &[8, OK],
            Outcome::Refused,
            Some(Outcome::Charged),
            (0, 0, 1, 1),
        ),
        (&[SILENT], Outcome::Unanswered, None, (0, 1, 0, 0)),
    ];
    for (answers, first, second, row) in rows {
        let case = Case {
            credits: 1,
            answer_ms: 50,
            answers,
            ..PLAIN
        };
        let (one, other) = two_run(&rt, alloc, case);
        same(
            &rt,
            (first, came_to(one.ends.as_slice(), first)),
            (first, true),
        );
        match second {
            Some(outcome) => same(
                &rt,
                (first, came_to(other.ends.as_slice(), outcome)),
                (first, true),
            ),
            None => same(
                &rt,
                (first, had_no_credit(other.ends.as_slice())),
                (first, true),
            ),
        }
        same(&rt, (first, row_of(&other)), (first, row));
    }
}
