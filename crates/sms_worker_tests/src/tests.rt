//! A worker whose answers come while it pauses, on one thread: what becomes of its messages.

ghost use Rattle.std.specs.Prelude.{◌≡◌, IfSome, None};

use self::beside::{Beside, down_if, line_with_fuse, window_of};
use self::notes::{Log, Note, want_told};
use rtrb::{Consumer, Producer, RingBuffer};
use sms_bind::{BlankLog, Line, LogName};
use sms_book::{Blank, Book, BookName, Opening, Rate, Tariff, open_book};
use sms_core::Row;
use sms_pdu::Reply;
use sms_session::Policy;
use sms_window::{Window, WindowSeat};
use sms_worker::{
    Attempt, Clock, ClosedBy, Fields, Gate, Message, MessageEnd, MessageResult, Outcome, Pause,
    Reasons, Rules, SegmentEnd, Worker, run_worker,
};
use std::alloc::{AllocError, Global};
use std::fmt::Debug;
use std::io::Write;
use std::marker::Brand;
use std::process::Abort;
use std::sync::{Mutex, Wait};

mod answered;
mod beside;
mod centre;
mod ended;
mod heard;
mod memory;
mod notes;
mod ready;
mod sums;
mod threads;
mod told;
mod waits;
mod why;

// Both are the same. What is printed where they differ stands here alone, and not in each test's proof.
fn same<T: PartialEq + Debug + Drop>(rt: &impl Abort, got: T, wanted: T) {
    assert_eq!(rt; got, wanted);
}

// What is there. What can't be had ends the test, and nothing is dropped on that way.
fn had<T>(rt: &impl Abort, found: Option<T>) -> T
    ensures { found ≡ Some result }
{
    match found {
        Some(it) => it,
        None => panic!(rt; "not to be had"),
    }
}

/// A request that gets no answer.
const SILENT: u32 = 0xFFFF_FFFF;

const OK: u32 = 0;

const THROTTLED: u32 = 0x58;

/// A request that is answered by a generic_nack with status 0.
const NACK: u32 = 0xFFFF_FFFE;

/// How the worker works, and what is answered.
#[derive(Clone, Copy)]
struct Case<'a> {
    credits: u64,
    attempts: u32,
    depth: u32,
    answer_ms: u32,
    /// How many turns the worker takes.
    turns: u64,
    /// How many slots the window has.
    window: u32,
    /// How long a segment waits after its first attempt, in milliseconds.
    base_ms: u32,
    /// The first sequence number.
    first: u32,
    /// What the clock shows at first.
    begins_ms: u64,
    /// Answers come when the clock is looked at and shows so much; 0 is at each pause.
    late_ms: u64,
    down: bool,
    /// The line goes down at this pause; 0 is never.
    down_at: u32,
    /// The gate isn't ready before this pause.
    ready_at: u32,
    /// The gate doesn't let this number be sent; 0 is none.
    stops_at: u32,
    /// The gate lets no message begin of this index or a higher one.
    begins_to: u64,
    /// How many octets the writer takes.
    room: u64,
    long_reference: bool,
    /// The statuses of the answers in turn, and then the last one again.
    answers: &'a [u32],
}

const PLAIN: Case<'static> = Case {
    credits: 3,
    attempts: 3,
    depth: 8,
    answer_ms: 60_000,
    turns: 1 << 40,
    window: 64,
    base_ms: 100,
    first: 1,
    begins_ms: 0,
    late_ms: 0,
    down: false,
    down_at: 0,
    ready_at: 0,
    stops_at: 0,
    begins_to: 1 << 40,
    room: 1 << 40,
    long_reference: false,
    answers: &[OK],
};

/// What came of a call.
#[derive(Drop)]
struct Done {
    ends: Vec<MessageEnd>,
    closed: Option<ClosedBy>,
    /// Why parts and messages were not sent.
    reasons: Reasons,
    row: Row,
    /// What was told meanwhile; nothing where memory was refused for it.
    notes: Vec<Note>,
}

fn message(
    alloc: Global,
    index: u64,
    account: Option<usize>,
    dest: &str,
    text: String,
) -> Result<Message, AllocError> {
    Ok(Message {
        index,
        account,
        source: String::from_str(alloc, "12345")?,
        dest: String::from_str(alloc, dest)?,
        text,
    })
}

// As many letters `a`.
fn letters(alloc: Global, count: usize) -> Result<String, AllocError> {
    let mut text = String::new(alloc);
    for _ in 0..count {
        text.push('a')?;
    }
    Ok(text)
}

// One message more, of so many letters.
fn push_message(
    alloc: Global,
    messages: &mut Vec<Message>,
    index: u64,
    account: Option<usize>,
    dest: &str,
    count: usize,
) -> Result<(), AllocError> {
    let text = letters(alloc, count)?;
    messages.push(message(alloc, index, account, dest, text)?)?;
    Ok(())
}

// As many messages of one part.
fn messages_of(alloc: Global, count: u64) -> Result<Vec<Message>, AllocError> {
    let mut messages = Vec::new(alloc);
    for index in 0..count {
        push_message(alloc, &mut messages, index, Some(0), "+447700900123", 1)?;
    }
    Ok(messages)
}

// How the worker works. A destination that begins with 46 costs 5 credits. None where memory is refused.
fn rules_of(alloc: Global, case: Case<'_>) -> Option<Rules> {
    if case.turns > 1 << 40 || case.depth < 1 || case.depth > 64 {
        return None;
    }
    let prefix = String::from_str(alloc, "46").ok()?;
    let rates = [Rate { prefix, credits: 5 }];
    let tariff = Tariff::new(alloc, rates.as_slice()).ok()?;
    Some(Rules {
        policy: Policy::new(case.attempts, case.base_ms).ok()?,
        depth: case.depth,
        answer_ms: case.answer_ms,
        turns: case.turns,
        receipts: false,
        tariff,
        long_reference: case.long_reference,
        fields: Fields::none(alloc),
    })
}

// A book with one account and so many workers.
fn book_of(alloc: Global, credits: u64, workers: usize) -> Option<Blank> {
    let openings = [Opening {
        name: String::from_str(alloc, "main").ok()?,
        credits,
    }];
    open_book(alloc, openings.as_slice(), workers).ok()
}

// A log of wires without a name yet.
fn wires_of(rt: &impl Abort, alloc: Global) -> BlankLog {
    let Ok(wires) = BlankLog::new(alloc) else {
        panic!(rt; "no log")
    };
    wires
}

// A window, and seats of it for two workers and for what stands beside them.
fn seats_of(
    rt: &impl Abort,
    alloc: Global,
    first: u32,
) -> Option<(Window, WindowSeat, WindowSeat, WindowSeat)>
    ensures { IfSome result (λ r. (r.1.window ≡ r.0) × (r.2.window ≡ r.0) × (r.3.window ≡ r.0)) }
{
    let (window, mut keeper) = Window::make_from(alloc, 64, first).ok()?;
    assert!(rt; keeper.can_split());
    let one = window.split(&mut keeper);
    assert!(rt; keeper.can_split());
    let other = window.split(&mut keeper);
    Some((window, one, other, keeper))
}

/// The rings of two workers: what the reader has of them, and what each worker has.
type Rings = (Vec<Producer<Reply>>, Consumer<Reply>, Consumer<Reply>);

fn rings_of(alloc: Global) -> Option<Rings> {
    let mut producers = Vec::new(alloc);
    let (producer, consumer) = RingBuffer::new(alloc, 64).ok()?;
    producers.push(producer).ok()?;
    let (producer, other_consumer) = RingBuffer::new(alloc, 64).ok()?;
    producers.push(producer).ok()?;
    Some((producers, consumer, other_consumer))
}

// What was told is what the ends say, where memory was there for it.
fn notes_of(rt: &impl Abort, alloc: Global, log: &Log, ends: &[MessageEnd]) -> Vec<Note> {
    match log.take(alloc) {
        Some(notes) => {
            want_told(rt, notes.as_slice(), ends);
            notes
        }
        None => Vec::new(alloc),
    }
}

// Sends the messages. Where the call is refused, all was handed back.
fn sends<N: BookName + LogName, W: Write, B: Gate + Clock + Pause, R: Abort + Wait>(
    rt: &R,
    alloc: Global,
    worker: Worker<N>,
    messages: Vec<Message>,
    line: &Line<N, W>,
    window: &Window,
    book: &Mutex<Book<N>>,
    rules: &Rules,
    beside: &B,
    log: &Log,
) -> Option<Done>
    requires { worker.seat.window ≡ window.now }
{
    let count = messages.len();
    match run_worker(
        rt, alloc, worker, messages, line, window, book, rules, beside, beside, beside,
    ) {
        Ok((mut end, _seen)) => {
            let row = book.lock(rt).look(&mut end.shares, 0)?;
            let notes = notes_of(rt, alloc, log, end.ends.as_slice());
            Some(Done {
                ends: end.ends,
                closed: end.closed,
                reasons: end.reasons,
                row,
                notes,
            })
        }
        Err((_refused, _worker, messages)) => {
            same(rt, messages.len(), count);
            None
        }
    }
}

fn works<N: BookName + LogName, R: Abort + Wait>(
    rt: &R,
    alloc: Global,
    blank: Blank,
    wires: BlankLog,
    rules: &Rules,
    case: Case<'_>,
    messages: Vec<Message>,
) -> Option<Done>
    requires { (blank.book ≡ N.book) × (wires ≡ N.log) × (N.settings ≡ None) }
{
    let (window, seat) = window_of(alloc, case)?;
    let (producer, consumer) = RingBuffer::new(alloc, 64).ok()?;
    let mut producers = Vec::new(alloc);
    producers.push(producer).ok()?;
    let log = Log::new(alloc);
    let (line, requests, _others) = line_with_fuse::<N>(alloc, wires, case.room, &log)?;
    down_if(rt, alloc, &line.down, case.down);
    let beside = Beside::new(rt, alloc, &line, producers, case, &log);
    let Ok((book, _till, mut all)) = blank.open::<N>(alloc) else {
        return None;
    };
    let worker = Worker {
        index: 0,
        place: 0,
        seat,
        shares: all.pop()?,
        consumer,
        requests,
    };
    sends(
        rt, alloc, worker, messages, &line, &window, &book, rules, &beside, &log,
    )
}

// What becomes of the messages; none where memory is refused.
fn try_run(
    rt: &(impl Abort + Wait),
    alloc: Global,
    case: Case<'_>,
    messages: Vec<Message>,
) -> Option<Done> {
    let rules = rules_of(alloc, case)?;
    let blank = book_of(alloc, case.credits, 1)?;
    let wires = BlankLog::new(alloc).ok()?;
    works::<Brand, _>(rt, alloc, blank, wires, &rules, case, messages)
}

fn run(rt: &(impl Abort + Wait), alloc: Global, case: Case<'_>, messages: Vec<Message>) -> Done {
    had(rt, try_run(rt, alloc, case, messages))
}

// The segments of a message that was sent; none of one that was refused, or has no end.
fn segments_of(done: &Done, place: usize) -> &[SegmentEnd] {
    if let Some(end) = done.ends.get(place) {
        if let MessageResult::Sent(segments) = &end.result {
            return segments.as_slice();
        }
    }
    &[]
}

// An attempt of the message's first part.
fn attempt_of(done: &Done, place: usize, attempt: usize) -> Option<&Attempt> {
    segments_of(done, place)
        .first()?
        .attempts
        .as_slice()
        .get(attempt)
}

// The message's segments, each with the count of its attempts and its outcome.
fn want_sent(rt: &impl Abort, done: &Done, place: usize, wanted: &[(usize, Outcome)]) {
    let segments = segments_of(done, place);
    same(rt, (place, segments.len()), (place, wanted.len()));
    for i in 0..wanted.len() {
        if let Some(segment) = segments.get(i) {
            same(
                rt,
                (place, (segment.attempts.as_slice().len(), segment.outcome)),
                (place, wanted[i]),
            );
        }
    }
}

// The account's credits: free, reserved, charged, returned.
fn row_of(done: &Done) -> (u64, u64, u64, u64) {
    let row = done.row;
    (row.free, row.reserved, row.charged, row.returned)
}

// What was told, from first to last.
fn want_notes(rt: &impl Abort, done: &Done, wanted: &[Note]) {
    for place in 0..wanted.len() {
        same(
            rt,
            (place, done.notes.get(place).map(|note| note.key())),
            (place, Some(wanted[place].key())),
        );
    }
    same(rt, done.notes.len(), wanted.len());
}

fn want_row(rt: &impl Abort, done: &Done, wanted: (u64, u64, u64, u64)) {
    same(rt, row_of(done), wanted);
}
