//! How answers are heard: as a generic_nack, as a wait ends, by a clock that began long ago, and not at
//! all.

ghost use Rattle.std.specs.Prelude.{◌≡◌, IfSome, None};

use super::beside::{Beside, Fuse, line_with_fuse};
use super::centre::answer_of;
use super::notes::Log;
use super::{
    Case, Done, OK, PLAIN, THROTTLED, attempt_of, book_of, had, messages_of, row_of, rules_of,
    same, want_row, want_sent, wires_of,
};
use rtrb::{Consumer, Producer, RingBuffer};
use sms_bind::{BlankLog, Line, LogName};
use sms_book::{Blank, Book, BookName};
use sms_core::Row;
use sms_pdu::{GENERIC_NACK, Reply, reply_of};
use sms_window::Window;
use sms_worker::{
    Clock, Gate, Message, MessageEnd, Outcome, Pause, Reasons, Rules, Worker, WorkerEnd, run_worker,
};
use std::alloc::Global;
use std::cell::{Cell, RefCell};
use std::io::Write;
use std::marker::Brand;
use std::process::Abort;
use std::sync::{Mutex, Wait};
use std::test::Fail;

/// How the answer comes to what was asked, and what the clock shows.
#[derive(Clone, Copy)]
struct Coming {
    status: u32,
    nack: bool,
    /// It comes in this pause; 0 is never.
    pause: u32,
    /// It comes only as the clock is read after that pause.
    as_read: bool,
    /// What the clock shows first, and how far each pause takes it, in milliseconds.
    begins: u64,
    step: u64,
}

const SOON: Coming = Coming {
    status: OK,
    nack: false,
    pause: 1,
    as_read: false,
    begins: 0,
    step: 10,
};

/// What stands beside a worker whose answers come so.
#[derive(Drop)]
struct Slow<'a, N: LogName, R, W: Write> {
    rt: &'a R,
    line: &'a Line<N, W>,
    producers: RefCell<Vec<Producer<Reply>>>,
    asked: RefCell<Vec<u32>>,
    coming: Coming,
    pauses: Cell<u32>,
    /// The answers come as the clock is read next.
    read_next: Cell<bool>,
}

impl<N: LogName, R, W: Write> Gate for Slow<'_, N, R, W> {
    fn pass(&self, _worker: usize, number: u32) -> bool {
        match self.asked.try_borrow_mut() {
            Ok(mut asked) => asked.push(number).is_ok(),
            Err(_) => false,
        }
    }
}

impl<N: LogName, R: Wait, W: Write> Clock for Slow<'_, N, R, W> {
    fn now_ms(&self) -> u64 {
        if self.read_next.get() {
            self.read_next.set(false);
            self.answer_all();
        }
        let gone = u64::from(self.pauses.get()).wrapping_mul(self.coming.step);
        self.coming.begins.wrapping_add(gone)
    }
}

impl<N: LogName, R: Wait, W: Write> Pause for Slow<'_, N, R, W> {
    fn pause(&self, _ms: u32) {
        self.pauses.set(self.pauses.get().wrapping_add(1));
        if self.pauses.get() != self.coming.pause {
            return;
        }
        if self.coming.as_read {
            self.read_next.set(true);
            return;
        }
        self.answer_all();
    }
}

impl<N: LogName, R: Wait, W: Write> Slow<'_, N, R, W> {
    // All that was asked is answered.
    fn answer_all(&self) {
        if let Ok(mut asked) = self.asked.try_borrow_mut() {
            for number in asked.as_slice() {
                self.answer(*number);
            }
            asked.clear();
        }
    }

    fn answer(&self, number: u32) {
        let status = self.coming.status;
        let reply = if self.coming.nack {
            reply_of(&nack_of(status, number))
        } else {
            reply_of(&answer_of(status, number))
        };
        let Some(reply) = reply else {
            return;
        };
        if let Ok(mut producers) = self.producers.try_borrow_mut() {
            let _found = self
                .line
                .slots
                .answer(self.rt, reply, producers.as_mut_slice());
        }
    }
}

/// A generic_nack.
fn nack_of(status: u32, number: u32) -> [u8; 16] {
    let c = GENERIC_NACK.to_be_bytes();
    let s = status.to_be_bytes();
    let n = number.to_be_bytes();
    [
        0, 0, 0, 16, c[0], c[1], c[2], c[3], s[0], s[1], s[2], s[3], n[0], n[1], n[2], n[3],
    ]
}

// A ring, and its one end in a list as the reader has it.
fn ring_of(alloc: Global) -> Option<(Vec<Producer<Reply>>, Consumer<Reply>)> {
    let (producer, consumer) = RingBuffer::new(alloc, 64).ok()?;
    let mut producers = Vec::new(alloc);
    producers.push(producer).ok()?;
    Some((producers, consumer))
}

// What came of a call whose notes nobody reads.
fn done_with(alloc: Global, ends: Vec<MessageEnd>, reasons: Reasons, row: Row) -> Done {
    Done {
        ends,
        closed: None,
        reasons,
        row,
        notes: Vec::new(alloc),
    }
}

// What becomes of one message, and after how many pauses.
fn works<N: BookName + LogName, R: Abort + Wait>(
    rt: &R,
    alloc: Global,
    blank: Blank,
    wires: BlankLog,
    rules: &Rules,
    coming: Coming,
) -> Option<(Done, u32)>
    requires { (blank.book ≡ N.book) × (wires ≡ N.log) × (N.settings ≡ None) }
{
    let (window, seat) = Window::make_from(alloc, 64, 1).ok()?;
    let (producers, consumer) = ring_of(alloc)?;
    let log = Log::new(alloc);
    let (line, requests, _others) = line_with_fuse::<N>(alloc, wires, 1 << 40, &log)?;
    let beside = Slow {
        rt,
        line: &line,
        producers: RefCell::new(producers),
        asked: RefCell::new(Vec::new(alloc)),
        coming,
        pauses: Cell::new(0),
        read_next: Cell::new(false),
    };
    let Ok((book, _till, mut all)) = blank.open::<N>(alloc) else {
        return None;
    };
    let worker = Worker {
        index: 0,
        place: 0,
        seat,
        shares: all.pop()?,
        consumer,
        requests,
    };
    let mut end = end_of(rt, alloc, worker, &line, &window, &book, rules, &beside)?;
    let row = book.lock(rt).look(&mut end.shares, 0)?;
    Some((
        done_with(alloc, end.ends, end.reasons, row),
        beside.pauses.get(),
    ))
}

fn comes(rt: &(impl Abort + Wait), alloc: Global, answer_ms: u32, coming: Coming) -> (Done, u32) {
    let case = Case { answer_ms, ..PLAIN };
    let rules = had(rt, rules_of(alloc, case));
    let blank = had(rt, book_of(alloc, case.credits, 1));
    let wires = wires_of(rt, alloc);
    had(
        rt,
        works::<Brand, _>(rt, alloc, blank, wires, &rules, coming),
    )
}

// Whatever its status, a generic_nack refuses the segment at once.
#[test]
fn a_generic_nack_refuses(rt: HostRuntime) {
    for status in [OK, THROTTLED, 3] {
        let coming = Coming {
            status,
            nack: true,
            ..SOON
        };
        let (done, _pauses) = comes(&rt, rt.alloc(), 60_000, coming);
        want_sent(&rt, &done, 0, &[(1, Outcome::Refused)]);
        want_row(&rt, &done, (3, 0, 0, 1));
        same(&rt, nacked(&done), true);
    }
}

// Whether the first attempt was answered by a generic_nack.
fn nacked(done: &Done) -> bool {
    match attempt_of(done, 0, 0) {
        Some(attempt) => attempt.reply.is_some_and(|reply| reply.nack),
        None => false,
    }
}

// The answers were looked for in vain, the wait is over by then, and the answer comes before the request
// is given up: it is left open, and heard in the next turn.
#[test]
fn an_answer_that_comes_as_the_wait_ends_is_heard(rt: HostRuntime) {
    let coming = Coming {
        as_read: true,
        step: 100_000,
        ..SOON
    };
    let (done, pauses) = comes(&rt, rt.alloc(), 60_000, coming);
    want_sent(&rt, &done, 0, &[(1, Outcome::Charged)]);
    want_row(&rt, &done, (2, 0, 1, 0));
    same(&rt, pauses, 2);
}

// A request waits from when it was sent, whatever the clock shows then: an answer within the wait is heard,
// and without one it is given up as the wait is over.
#[test]
fn a_wait_begins_with_the_request(rt: HostRuntime) {
    for begins in [0, 49, 1 << 40] {
        let coming = Coming {
            begins,
            pause: 4,
            ..SOON
        };
        let (done, pauses) = comes(&rt, rt.alloc(), 50, coming);
        want_sent(&rt, &done, 0, &[(1, Outcome::Charged)]);
        same(&rt, (begins, pauses), (begins, 4));
        let (done, pauses) = comes(&rt, rt.alloc(), 50, Coming { pause: 0, ..coming });
        want_sent(&rt, &done, 0, &[(1, Outcome::Unanswered)]);
        want_row(&rt, &done, (2, 1, 0, 0));
        same(&rt, (begins, pauses), (begins, 5));
    }
}

// What a call leaves. Nothing where memory is refused.
fn end_of<N: BookName + LogName, B: Gate + Clock + Pause, R: Wait>(
    rt: &R,
    alloc: Global,
    worker: Worker<N>,
    line: &Line<N, Fuse<'_>>,
    window: &Window,
    book: &Mutex<Book<N>>,
    rules: &Rules,
    beside: &B,
) -> Option<WorkerEnd<N>>
    requires { worker.seat.window ≡ window.now }
    ensures { IfSome result (λ end. end.seat.window ≡ window.now) }
{
    let messages = messages_of(alloc, 1).ok()?;
    match run_worker(
        rt, alloc, worker, messages, line, window, book, rules, beside, beside, beside,
    ) {
        Ok((end, _seen)) => Some(end),
        Err(_) => None,
    }
}

// One message is sent, and the answers come into these rings.
fn one_call<N: BookName + LogName, R: Wait>(
    rt: &R,
    alloc: Global,
    worker: Worker<N>,
    line: &Line<N, Fuse<'_>>,
    window: &Window,
    book: &Mutex<Book<N>>,
    rules: &Rules,
    case: Case<'_>,
    producers: Vec<Producer<Reply>>,
    log: &Log,
) -> Option<WorkerEnd<N>>
    requires { worker.seat.window ≡ window.now }
    ensures { IfSome result (λ end. end.seat.window ≡ window.now) }
{
    let beside = Beside::new(rt, alloc, line, producers, case, log);
    end_of(rt, alloc, worker, line, window, book, rules, &beside)
}

// Two calls of one worker. In the first its answers go into a ring that it doesn't have.
fn two_calls<N: BookName + LogName, R: Wait>(
    rt: &R,
    alloc: Global,
    blank: Blank,
    wires: BlankLog,
    rules: &Rules,
    case: Case<'_>,
) -> Option<((Vec<MessageEnd>, Reasons), Done)>
    requires { (blank.book ≡ N.book) × (wires ≡ N.log) × (N.settings ≡ None) }
{
    let (window, seat) = Window::make_from(alloc, 1, 1).ok()?;
    let (producers, consumer) = ring_of(alloc)?;
    let (strays, _unread) = ring_of(alloc)?;
    let log = Log::new(alloc);
    let (line, requests, _others) = line_with_fuse::<N>(alloc, wires, 1 << 40, &log)?;
    let Ok((book, _till, mut all)) = blank.open::<N>(alloc) else {
        return None;
    };
    let worker = Worker {
        index: 0,
        place: 0,
        seat,
        shares: all.pop()?,
        consumer,
        requests,
    };
    let end = one_call(
        rt, alloc, worker, &line, &window, &book, rules, case, strays, &log,
    )?;
    let unheard = (end.ends, end.reasons);
    let worker = Worker {
        index: 0,
        place: 0,
        seat: end.seat,
        shares: end.shares,
        consumer: end.consumer,
        requests: end.requests,
    };
    let mut end = one_call(
        rt, alloc, worker, &line, &window, &book, rules, case, producers, &log,
    )?;
    let row = book.lock(rt).look(&mut end.shares, 0)?;
    Some((unheard, done_with(alloc, end.ends, end.reasons, row)))
}

// A slot that is answered at the end of a call, where the ring shows no answer, is empty then and the
// seat has it no more: the window has one slot, and the next call sends with it.
#[test]
fn a_slot_that_is_left_answered_is_released(rt: HostRuntime) {
    let alloc = rt.alloc();
    let mut rules = had(&rt, rules_of(alloc, PLAIN));
    let blank = had(&rt, book_of(alloc, 3, 1));
    rules.turns = 5;
    let wires = wires_of(&rt, alloc);
    let calls = two_calls::<Brand, _>(&rt, alloc, blank, wires, &rules, PLAIN);
    let (unheard, done) = had(&rt, calls);
    let row = done.row;
    let (ends, reasons) = unheard;
    let before = done_with(alloc, ends, reasons, row);
    want_sent(&rt, &before, 0, &[(1, Outcome::Unanswered)]);
    want_sent(&rt, &done, 0, &[(1, Outcome::Charged)]);
    same(&rt, row_of(&done), (1, 1, 1, 0));
}
