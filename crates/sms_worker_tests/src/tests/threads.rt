//! Two workers at once, each on a thread of its own, and the bind's reader with the message centre on
//! a third.

ghost use Rattle.std.specs.Prelude.{◌≡◌, None};

use super::beside::Together;
use super::centre::{Centre, Way, line_to_centre, reads};
use super::sums::{came_to, had_no_credit, sums};
use super::{
    Case, OK, PLAIN, THROTTLED, book_of, had, messages_of, rings_of, rules_of, same, seats_of,
    wires_of,
};
use rtrb::Producer;
use sms_bind::{BlankLog, Line, LogName, ReaderCause, ReaderEnd, ReaderLeave};
use sms_book::{Blank, Book, BookName, Shares, Till, gather};
use sms_core::Row;
use sms_pdu::Reply;
use sms_window::{Window, WindowSeat};
use sms_worker::{
    Message, MessageEnd, MessageResult, Outcome, Rules, Worker, WorkerEnd, run_worker,
};
use std::alloc::Global;
use std::marker::Brand;
use std::process::Abort;
use std::sync::atomic::Ordering;
use std::sync::{Mutex, Wait};
use std::thread;
use std::thread::Threads;

/// How a run over threads goes.
#[derive(Clone, Copy)]
struct Threaded<'a> {
    case: Case<'a>,
    /// How many octets the centre says before it hangs up, and whether a read fails then.
    left: u64,
    fails: bool,
    /// How many messages each of the two workers has.
    messages: (u64, u64),
    /// Whether the workers work at once, or the second after the first.
    at_once: bool,
    /// How often each looks at the gate for the other; 0 is no gate.
    held: u32,
}

const FAR: Threaded<'static> = Threaded {
    case: Case {
        base_ms: 0,
        ..PLAIN
    },
    left: 1 << 40,
    fails: false,
    messages: (1, 1),
    at_once: true,
    held: 0,
};

/// What came of it.
#[derive(Drop)]
struct Came {
    first: Vec<MessageEnd>,
    second: Vec<MessageEnd>,
    row: Row,
    end: ReaderEnd,
}

fn one_works<N: BookName + LogName>(
    rt: &impl Wait,
    alloc: Global,
    worker: Worker<N>,
    messages: Vec<Message>,
    line: &Line<N, Way>,
    window: &Window,
    book: &Mutex<Book<N>>,
    rules: &Rules,
    beside: &Together,
) -> Option<WorkerEnd<N>>
    requires same_window { worker.seat.window ≡ window.now }
{
    match run_worker(
        rt, alloc, worker, messages, line, window, book, rules, beside, beside, beside,
    ) {
        Ok((end, _seen)) => Some(end),
        Err(_) => None,
    }
}

/// Both workers' ends, where memory was there.
type Both<N> = (Option<WorkerEnd<N>>, Option<WorkerEnd<N>>);

// Both work, at once or the second after the first, and then the reader is to end.
fn both_work<N: BookName + LogName + Send + Sync, S: Threads + Wait + Sync>(
    rt: &S,
    alloc: Global,
    one: Worker<N>,
    other: Worker<N>,
    its: Vec<Message>,
    others: Vec<Message>,
    line: &Line<N, Way>,
    window: &Window,
    book: &Mutex<Book<N>>,
    rules: &Rules,
    beside: &Together,
    at_once: bool,
) -> Both<N>
    requires first { one.seat.window ≡ window.now }
    requires second { other.seat.window ≡ window.now }
{
    let ends = if at_once {
        thread::join(
            rt,
            || -> Option<WorkerEnd<N>>
                requires { one.seat.window ≡ window.now }
            { one_works(rt, alloc, one, its, line, window, book, rules, beside) },
            || -> Option<WorkerEnd<N>>
                requires { other.seat.window ≡ window.now }
            { one_works(rt, alloc, other, others, line, window, book, rules, beside) },
        )
    } else {
        let first = one_works(rt, alloc, one, its, line, window, book, rules, beside);
        let second = one_works(rt, alloc, other, others, line, window, book, rules, beside);
        (first, second)
    };
    line.stop.store(true, Ordering::SeqCst);
    ends
}

// Both work while the reader reads.
fn all_work<N: BookName + LogName + Send + Sync, S: Threads + Wait + Sync>(
    rt: &S,
    alloc: Global,
    one: Worker<N>,
    other: Worker<N>,
    its: Vec<Message>,
    others: Vec<Message>,
    line: &Line<N, Way>,
    window: &Window,
    book: &Mutex<Book<N>>,
    rules: &Rules,
    beside: &Together,
    at_once: bool,
    centre: Centre,
    producers: Vec<Producer<Reply>>,
    keeper: WindowSeat,
    leave: ReaderLeave,
) -> (Both<N>, Option<ReaderEnd>)
    requires first { one.seat.window ≡ window.now }
    requires second { other.seat.window ≡ window.now }
    requires reader { keeper.window ≡ window.now }
{
    thread::join(
        rt,
        || -> Both<N>
            requires { (one.seat.window ≡ window.now) × (other.seat.window ≡ window.now) }
        {
            both_work(
                rt, alloc, one, other, its, others, line, window, book, rules, beside, at_once,
            )
        },
        || -> Option<ReaderEnd>
            requires { keeper.window ≡ window.now }
        { reads(rt, alloc, centre, producers, line, window, keeper, leave) },
    )
}

// The row of the account, by the shares of both.
fn gathered<N: BookName + LogName>(
    alloc: Global,
    book: Mutex<Book<N>>,
    till: Till<N>,
    first: Shares<N>,
    second: Shares<N>,
) -> Option<Row> {
    let mut shares = Vec::new(alloc);
    shares.push(first).ok()?;
    shares.push(second).ok()?;
    let statement = gather(book.into_inner(), till, shares).ok()?;
    statement.rows().first().copied()
}

// What came of both workers and of the reader, with the row that the shares add up to.
fn came_of<N: BookName + LogName>(
    rt: &impl Abort,
    alloc: Global,
    book: Mutex<Book<N>>,
    till: Till<N>,
    ends: Both<N>,
    end: Option<ReaderEnd>,
) -> Came {
    let (first, second) = ends;
    let first = had(rt, first);
    let second = had(rt, second);
    let end = had(rt, end);
    let row = had(rt, gathered(alloc, book, till, first.shares, second.shares));
    Came {
        row,
        first: first.ends,
        second: second.ends,
        end,
    }
}

fn work_together<N: BookName + LogName + Send + Sync, R: Abort + Threads + Wait + Sync>(
    rt: &R,
    alloc: Global,
    blank: Blank,
    wires: BlankLog,
    rules: &Rules,
    threaded: Threaded<'_>,
) -> Came
    requires { (blank.book ≡ N.book) × (wires ≡ N.log) × (N.settings ≡ None) }
{
    let its = had(rt, messages_of(alloc, threaded.messages.0).ok());
    let others = had(rt, messages_of(alloc, threaded.messages.1).ok());
    let statuses = had(rt, Vec::from_slice(alloc, threaded.case.answers).ok());
    let (window, seat, other_seat, keeper) = had(rt, seats_of(rt, alloc, threaded.case.first));
    let (made, leave, asked) = had(rt, line_to_centre::<N>(alloc, wires));
    let (line, requests, other_requests) = made;
    let (producers, consumer, other_consumer) = had(rt, rings_of(alloc));
    let (book, till, mut all) = had(rt, blank.open::<N>(alloc).ok());
    let shares = had(rt, all.pop());
    let other_shares = had(rt, all.pop());
    let one = Worker {
        index: 0,
        place: 0,
        seat,
        shares,
        consumer,
        requests,
    };
    let other = Worker {
        index: 1,
        place: 1,
        seat: other_seat,
        shares: other_shares,
        consumer: other_consumer,
        requests: other_requests,
    };
    let beside = Together::new(threaded.held);
    let centre = Centre::new(asked, statuses, threaded.left, threaded.fails);
    let (ends, end) = all_work(
        rt,
        alloc,
        one,
        other,
        its,
        others,
        &line,
        &window,
        &book,
        rules,
        &beside,
        threaded.at_once,
        centre,
        producers,
        keeper,
        leave,
    );
    came_of(rt, alloc, book, till, ends, end)
}

fn go(rt: &(impl Abort + Threads + Wait + Sync), alloc: Global, threaded: Threaded<'_>) -> Came {
    let rules = had(rt, rules_of(alloc, threaded.case));
    let blank = had(rt, book_of(alloc, threaded.case.credits, 2));
    let wires = wires_of(rt, alloc);
    work_together::<Brand, _>(rt, alloc, blank, wires, &rules, threaded)
}

// The ends of both add up to the row, and each answer that was handed on is an attempt's.
fn want_agreement(rt: &impl Abort, came: &Came, credits: u64, what: u64) {
    let (reserved, charged, returned) = sums(came.first.as_slice());
    let (more_reserved, more_charged, more_returned) = sums(came.second.as_slice());
    let row = came.row;
    let wanted = (
        what,
        reserved.wrapping_add(more_reserved),
        charged.wrapping_add(more_charged),
        returned.wrapping_add(more_returned),
    );
    let found = (what, row.reserved, row.charged, row.returned);
    same(rt, found, wanted);
    let taken = row.reserved.wrapping_add(row.charged);
    same(rt, (what, row.free.wrapping_add(taken)), (what, credits));
    let heard = replies(came.first.as_slice()).wrapping_add(replies(came.second.as_slice()));
    same(rt, (what, heard), (what, came.end.answered));
}

// How many attempts have an answer.
fn replies(ends: &[MessageEnd]) -> u64 {
    let mut count = 0u64;
    for end in ends {
        if let MessageResult::Sent(segments) = &end.result {
            for segment in segments.as_slice() {
                for attempt in segment.attempts.as_slice() {
                    count = count.wrapping_add(u64::from(attempt.reply.is_some()));
                }
            }
        }
    }
    count
}

// Neither goes on before the other has come to the gate, so both are charged only at once: the second
// after the first, the first waits in vain.
#[test]
fn two_workers_work_at_once(rt: HostRuntime) {
    let held = 1_000_000_000;
    let came = go(&rt, rt.alloc(), Threaded { held, ..FAR });
    assert!(&rt; came_to(came.first.as_slice(), Outcome::Charged));
    assert!(&rt; came_to(came.second.as_slice(), Outcome::Charged));
    want_agreement(&rt, &came, 3, 0);
    let in_turn = Threaded {
        held: 20,
        at_once: false,
        ..FAR
    };
    let came = go(&rt, rt.alloc(), in_turn);
    assert!(&rt; came_to(came.first.as_slice(), Outcome::Unsent));
    assert!(&rt; came_to(came.second.as_slice(), Outcome::Charged));
    want_agreement(&rt, &came, 3, 1);
}

// Whichever gets it, the other has none.
#[test]
fn one_gets_the_last_credit(rt: HostRuntime) {
    let threaded = Threaded {
        case: Case {
            credits: 1,
            ..FAR.case
        },
        ..FAR
    };
    for round in 0..20u64 {
        let came = go(&rt, rt.alloc(), threaded);
        let first = came_to(came.first.as_slice(), Outcome::Charged);
        let second = came_to(came.second.as_slice(), Outcome::Charged);
        assert!(&rt; first != second, "round {round}");
        let none = if first {
            had_no_credit(came.second.as_slice())
        } else {
            had_no_credit(came.first.as_slice())
        };
        assert!(&rt; none, "round {round}");
        want_agreement(&rt, &came, 1, round);
    }
}

// All of many messages are charged, some at the second or third try.
#[test]
fn a_centre_answers_two_workers(rt: HostRuntime) {
    let threaded = Threaded {
        case: Case {
            credits: 400,
            answers: &[THROTTLED, OK, OK, THROTTLED, THROTTLED, OK],
            ..FAR.case
        },
        messages: (200, 200),
        ..FAR
    };
    let came = go(&rt, rt.alloc(), threaded);
    want_agreement(&rt, &came, 400, 0);
    assert_eq!(&rt; (came.row.charged, came.end.answered), (400, 403));
    let ReaderCause::Stopped(_seen) = came.end.cause else {
        panic!(&rt; "not stopped")
    };
}

// Wherever the reader ends, by the end of its input or by a fault: what it handed on is recorded, and no
// credit is lost.
#[test]
fn the_reader_may_go_at_any_octet(rt: HostRuntime) {
    let case = Case {
        attempts: 2,
        answers: &[THROTTLED, OK, 8, OK],
        ..FAR.case
    };
    for fails in [false, true] {
        for left in 0..70u64 {
            let threaded = Threaded {
                case,
                left,
                fails,
                messages: (2, 1),
                ..FAR
            };
            let came = go(&rt, rt.alloc(), threaded);
            want_agreement(&rt, &came, 3, left);
            assert!(&rt; came.end.answered <= left / 17, "octet {left}");
        }
    }
}
