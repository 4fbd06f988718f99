//! What a gate is told, and what it may refuse.

ghost use Rattle.std.specs.Prelude.{◌≡◌, IfSome, None};
ghost use Rattle.sms_bind.specs.Frames.{IsResponse};
ghost use Rattle.sms_bind.specs.Keepings.{IsAcknowledgement};

use super::beside::{Beside, line_with_fuse};
use super::notes::{Log, Note};
use super::why::{Why, want_reasons};
use super::{
    Case, Done, NACK, OK, PLAIN, THROTTLED, book_of, had, messages_of, push_message, rings_of,
    rules_of, run, seats_of, sends, want_notes, want_row, want_sent, wires_of,
};
use sms_bind::{BlankLog, Line, LogName};
use sms_book::{Blank, Book, BookName, Shares};
use sms_pdu::{BodyRef, DELIVER_SM_RESP, Frame, PduRef, Reply, encode_into};
use sms_worker::{Clock, Gate, MessageRefusal, Outcome, Pause, Rules, Worker};
use std::alloc::Global;
use std::cell::RefCell;
use std::io::Write;
use std::marker::Brand;
use std::process::Abort;
use std::sync::{Mutex, Wait};
use std::test::Fail;

const OF_THREE_PARTS: [Note; 12] = [
    Note::Begun(7),
    Note::Sending(1, 7, 0),
    Note::Written(1),
    Note::Sending(2, 7, 1),
    Note::Written(2),
    Note::Begun(9),
    Note::Sending(3, 9, 0),
    Note::Written(3),
    Note::Waited(1, 60_000),
    Note::Heard(1, 8),
    Note::Heard(2, 0),
    Note::Heard(3, 0),
];

// A message is told by its index, which isn't its place here.
#[test]
fn parts_are_told_by_index_and_place(rt: HostRuntime) -> Result<(), Fail> {
    let alloc = rt.alloc();
    let mut messages = Vec::new(alloc);
    push_message(alloc, &mut messages, 7, Some(0), "447700900123", 161)?;
    push_message(alloc, &mut messages, 9, Some(0), "447700900123", 1)?;
    let case = Case {
        answers: &[8, OK],
        ..PLAIN
    };
    let done = run(&rt, alloc, case, messages);
    want_sent(
        &rt,
        &done,
        0,
        &[(1, Outcome::Refused), (1, Outcome::Charged)],
    );
    want_notes(&rt, &done, &OF_THREE_PARTS);
    Ok(())
}

const WITH_DEPTH_ONE: [Note; 9] = [
    Note::Begun(7),
    Note::Sending(1, 7, 0),
    Note::Written(1),
    Note::Waited(1, 60_000),
    Note::Heard(1, 0),
    Note::Sending(2, 7, 1),
    Note::Written(2),
    Note::Waited(1, 60_000),
    Note::Heard(2, 0),
];

// The second part is sent when the first is settled, by the generic_nack too.
#[test]
fn parts_are_sent_in_turn(rt: HostRuntime) -> Result<(), Fail> {
    let alloc = rt.alloc();
    for (answers, outcome) in [(&[OK], Outcome::Charged), (&[NACK], Outcome::Refused)] {
        let mut messages = Vec::new(alloc);
        push_message(alloc, &mut messages, 7, Some(0), "447700900123", 161)?;
        let case = Case {
            depth: 1,
            answers,
            ..PLAIN
        };
        let done = run(&rt, alloc, case, messages);
        want_sent(&rt, &done, 0, &[(1, outcome), (1, outcome)]);
        want_notes(&rt, &done, &WITH_DEPTH_ONE);
    }
    Ok(())
}

const WITHOUT_THE_FIRST: [Note; 6] = [
    Note::Begun(0),
    Note::Begun(1),
    Note::Sending(2, 1, 0),
    Note::Written(2),
    Note::Waited(1, 60_000),
    Note::Heard(2, 0),
];

#[test]
fn what_may_not_be_sent_is_given_up(rt: HostRuntime) -> Result<(), Fail> {
    let alloc = rt.alloc();
    let case = Case {
        stops_at: 1,
        ..PLAIN
    };
    let done = run(&rt, alloc, case, messages_of(alloc, 2)?);
    want_sent(&rt, &done, 0, &[(0, Outcome::Unsent)]);
    want_sent(&rt, &done, 1, &[(1, Outcome::Charged)]);
    want_reasons(&rt, &done, &[(Why::Gate, 0, 0)]);
    want_row(&rt, &done, (2, 0, 1, 1));
    want_notes(&rt, &done, &WITHOUT_THE_FIRST);
    Ok(())
}

const WITH_A_LINE_DOWN: [Note; 4] = [
    Note::Begun(0),
    Note::Sending(1, 0, 0),
    Note::Written(1),
    Note::Refused(1, MessageRefusal::BindClosed),
];

// Behind the write that failed no part is tried.
#[test]
fn no_number_is_drawn_on_a_line_that_is_down(rt: HostRuntime) -> Result<(), Fail> {
    let alloc = rt.alloc();
    let mut messages = Vec::new(alloc);
    push_message(alloc, &mut messages, 0, Some(0), "447700900123", 306)?;
    push_message(alloc, &mut messages, 1, Some(0), "447700900123", 1)?;
    let done = run(&rt, alloc, Case { room: 30, ..PLAIN }, messages);
    want_sent(
        &rt,
        &done,
        0,
        &[(1, Outcome::Unanswered), (0, Outcome::Unsent)],
    );
    want_row(&rt, &done, (2, 1, 0, 1));
    want_notes(&rt, &done, &WITH_A_LINE_DOWN);
    Ok(())
}

/// What comes between the gate and the wire.
#[derive(Clone, Copy, Debug, PartialEq, Eq)]
enum Trouble {
    Nothing,
    /// The worker's first slot isn't empty.
    BusySlot,
    /// A write fails, and nobody marks the line down.
    BrokenWire,
}

// A frame that no worker sends.
fn link_response(alloc: Global) -> Option<Frame>
    ensures response { IfSome result IsResponse }
    ensures other { IfSome result (λ frame. ¬ IsAcknowledgement frame) }
{
    let pdu = PduRef {
        status: 0,
        number: 99,
        body: BodyRef::EnquireLinkResp,
    };
    let mut octets = Vec::new(alloc);
    if encode_into(&mut octets, &pdu).is_err() {
        return None;
    }
    let frame = Frame::new(octets);
    let command = frame.header().command;
    if command < 0x8000_0000 || command == DELIVER_SM_RESP {
        return None;
    }
    Some(frame)
}

/// A gate that also looks at the account whenever it is told of a message or of a reply, and makes
/// trouble.
#[derive(Drop)]
struct Watching<'a, N: BookName + LogName, R, W: Write> {
    beside: &'a Beside<'a, N, R, W>,
    rt: &'a R,
    alloc: Global,
    line: &'a Line<N, W>,
    book: &'a Mutex<Book<N>>,
    shares: RefCell<Shares<N>>,
    log: &'a Log,
    trouble: Trouble,
}

impl<N: BookName + LogName, R: Wait, W: Write> Watching<'_, N, R, W> {
    fn look(&self) {
        if let Ok(mut shares) = self.shares.try_borrow_mut() {
            if let Some(row) = self.book.lock(self.rt).look(&mut shares, 0) {
                self.log.note(Note::Credits(row.free, row.reserved, row.charged, row.returned));
            }
        }
    }

    fn make_trouble(&self) {
        match self.trouble {
            Trouble::Nothing => {}
            Trouble::BusySlot => {
                let _posted = self.line.slots.post(self.rt, 0, 0, 99);
            }
            Trouble::BrokenWire => {
                if let Some(frame) = link_response(self.alloc) {
                    let _sent = self.line.wire.lock(self.rt).respond(frame);
                }
            }
        }
    }
}

impl<N: BookName + LogName, R: Wait, W: Write> Gate for Watching<'_, N, R, W> {
    fn pass(&self, worker: usize, number: u32) -> bool {
        self.beside.pass(worker, number)
    }

    fn sending(&self, worker: usize, number: u32, message: u64, part: usize) -> bool {
        self.make_trouble();
        self.beside.sending(worker, number, message, part)
    }

    fn unsent(&self, worker: usize, number: u32) {
        self.beside.unsent(worker, number);
    }

    fn heard(&self, worker: usize, reply: &Reply) {
        self.beside.heard(worker, reply);
        self.look();
    }

    fn begun(&self, worker: usize, message: u64) {
        self.beside.begun(worker, message);
        self.look();
    }

    fn refused(&self, worker: usize, message: u64, why: MessageRefusal) {
        self.beside.refused(worker, message, why);
        self.look();
    }
}

impl<N: BookName + LogName, R: Wait, W: Write> Clock for Watching<'_, N, R, W> {
    fn now_ms(&self) -> u64 {
        self.beside.now_ms()
    }
}

impl<N: BookName + LogName, R: Wait, W: Write> Pause for Watching<'_, N, R, W> {
    fn pause(&self, ms: u32) {
        self.beside.pause(ms);
    }
}

fn works_watched<N: BookName + LogName, R: Abort + Wait>(
    rt: &R,
    alloc: Global,
    blank: Blank,
    wires: BlankLog,
    rules: &Rules,
    case: Case<'_>,
    messages: u64,
    trouble: Trouble,
) -> Option<Done>
    requires { (blank.book ≡ N.book) × (wires ≡ N.log) × (N.settings ≡ None) }
{
    let (window, seat, _other, _keeper) = seats_of(rt, alloc, case.first)?;
    let (producers, consumer, _other_consumer) = rings_of(alloc)?;
    let log = Log::new(alloc);
    let (line, requests, _others) = line_with_fuse::<N>(alloc, wires, case.room, &log)?;
    let beside = Beside::new(rt, alloc, &line, producers, case, &log);
    let Ok((book, _till, mut all)) = blank.open::<N>(alloc) else {
        return None;
    };
    let looks = all.pop()?;
    let worker = Worker {
        index: 0,
        place: 0,
        seat,
        shares: all.pop()?,
        consumer,
        requests,
    };
    let watching = Watching {
        beside: &beside,
        rt,
        alloc,
        line: &line,
        book: &book,
        shares: RefCell::new(looks),
        log: &log,
        trouble,
    };
    let messages = messages_of(alloc, messages).ok()?;
    sends(
        rt, alloc, worker, messages, &line, &window, &book, rules, &watching, &log,
    )
}

fn run_watched(
    rt: &(impl Abort + Wait),
    alloc: Global,
    case: Case<'_>,
    messages: u64,
    trouble: Trouble,
) -> Done {
    let rules = had(rt, rules_of(alloc, case));
    let blank = had(rt, book_of(alloc, case.credits, 2));
    let wires = wires_of(rt, alloc);
    had(
        rt,
        works_watched::<Brand, _>(rt, alloc, blank, wires, &rules, case, messages, trouble),
    )
}

const WITH_CREDITS: [Note; 18] = [
    Note::Begun(0),
    Note::Credits(1, 1, 0, 0),
    Note::Sending(1, 0, 0),
    Note::Written(1),
    Note::Begun(1),
    Note::Credits(0, 2, 0, 0),
    Note::Sending(2, 1, 0),
    Note::Written(2),
    Note::Refused(2, MessageRefusal::NoCredit),
    Note::Credits(0, 2, 0, 0),
    Note::Heard(1, OK),
    Note::Credits(0, 2, 0, 0),
    Note::Heard(2, THROTTLED),
    Note::Credits(0, 1, 1, 0),
    Note::Sending(3, 1, 0),
    Note::Written(3),
    Note::Heard(3, 8),
    Note::Credits(0, 1, 1, 0),
];

// A message is told once its credits are reserved, and a reply before it moves any.
#[test]
fn credits_move_between_what_is_told(rt: HostRuntime) {
    let alloc = rt.alloc();
    let case = Case {
        credits: 2,
        answers: &[OK, THROTTLED, 8],
        ..PLAIN
    };
    let done = run_watched(&rt, alloc, case, 3, Trouble::Nothing);
    want_row(&rt, &done, (1, 0, 1, 1));
    want_notes(&rt, &done, &WITH_CREDITS);
}

const NOT_HANDED_ON: [Note; 4] = [
    Note::Begun(0),
    Note::Credits(2, 1, 0, 0),
    Note::Sending(1, 0, 0),
    Note::Unsent(1),
];

// The slot is taken, or the wire broke, between the gate and the wire: the number is told again.
#[test]
fn what_is_not_handed_to_the_wire_is_told(rt: HostRuntime) {
    let alloc = rt.alloc();
    for trouble in [Trouble::BusySlot, Trouble::BrokenWire] {
        let case = Case { room: 0, ..PLAIN };
        let done = run_watched(&rt, alloc, case, 1, trouble);
        want_sent(&rt, &done, 0, &[(0, Outcome::Unsent)]);
        want_row(&rt, &done, (3, 0, 0, 1));
        want_notes(&rt, &done, &NOT_HANDED_ON);
    }
}
