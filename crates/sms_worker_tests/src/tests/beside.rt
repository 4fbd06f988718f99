//! What stands beside a worker that runs alone: its writer, and what answers it while it pauses. And
//! what stands beside two that run at once.

ghost use Rattle.std.specs.Prelude.{◌≡◌, IfSome, None};

use super::centre::{answer_of, nack_of, status_of};
use super::notes::{Log, Note};
use super::{Case, NACK, SILENT};
use rtrb::Producer;
use sms_bind::{BlankLog, DownMark, Line, LogName, Requests, Wire};
use sms_pdu::{BodyRef, Frame, PduRef, Reply, SUBMIT_SM, Tap, encode_into, header_of, reply_of};
use sms_slot::SlotRow;
use sms_window::{Window, WindowSeat};
use sms_worker::{Clock, Gate, MessageRefusal, Pause};
use std::alloc::Global;
use std::cell::{Cell, RefCell};
use std::io::Write;
use std::sync::Wait;
use std::sync::atomic::{AtomicBool, Ordering};
use std::{io, thread};

/// A writer that takes so many octets and then fails. It notes each submit_sm that comes to it.
#[derive(Drop)]
pub struct Fuse<'a> {
    left: u64,
    log: &'a Log,
}

impl Fuse<'_> {
    // What comes first of a frame is the whole of it.
    fn see(&self, buf: &[u8]) {
        if let Some(header) = header_of(buf) {
            if header.command == SUBMIT_SM && header.length as usize == buf.len() {
                self.log.note(Note::Written(header.number));
            }
        }
    }
}

impl Write for Fuse<'_> {
    fn write(&mut self, buf: &[u8]) -> io::Result<usize> {
        self.see(buf);
        let count = buf.len().min(self.left as usize);
        if count == 0 {
            return Err(io::Error::from(io::ErrorKind::BrokenPipe));
        }
        self.left = self.left.saturating_sub(count as u64);
        Ok(count)
    }

    fn flush(&mut self) -> io::Result<()> {
        Ok(())
    }
}

/// A line, and what two workers sent on its wire: nothing yet.
pub type LineOf<N, W> = (Line<N, W>, Requests<N>, Requests<N>);

/// A line of this log of wires, whose writer takes so many octets.
pub fn line_with_fuse<N: LogName>(
    alloc: Global,
    wires: BlankLog,
    room: u64,
    log: &Log,
) -> Option<LineOf<N, Fuse<'_>>>
    requires { (wires ≡ N.log) × (N.settings ≡ None) }
{
    let Ok(mut keeper) = wires.open::<N>(alloc) else {
        return None;
    };
    let fuse = Fuse { left: room, log };
    let Ok(wire) = keeper.wire(Wire::new(Tap::new(fuse))) else {
        return None;
    };
    let Ok(slots) = SlotRow::new(alloc) else {
        return None;
    };
    let (line, _leave) = Line::new(slots, wire);
    let one = keeper.thread();
    let other = keeper.thread();
    Some((line, one, other))
}

// Takes nothing.
#[derive(Drop)]
struct Shut;

impl Write for Shut {
    fn write(&mut self, _buf: &[u8]) -> io::Result<usize> {
        Err(io::Error::from(io::ErrorKind::BrokenPipe))
    }

    fn flush(&mut self) -> io::Result<()> {
        Ok(())
    }
}

/// Marks a line down, as one that found a broken wire.
pub fn bring_down(rt: &impl Wait, alloc: Global, mark: &DownMark) {
    let pdu = PduRef {
        status: 0,
        number: 1,
        body: BodyRef::EnquireLink,
    };
    let mut octets = Vec::new(alloc);
    if encode_into(&mut octets, &pdu).is_err() {
        return;
    }
    let mut wire = Wire::new(Tap::new(Shut));
    drop(wire.send(Frame::new(octets)));
    if wire.broken() {
        drop(mark.write_failed(rt, &wire));
    }
}

/// Marks the line down, where that is said.
pub fn down_if(rt: &impl Wait, alloc: Global, mark: &DownMark, down: bool) {
    if down {
        bring_down(rt, alloc, mark);
    }
}

/// The window of a case, and the seat of its one worker.
pub fn window_of(alloc: Global, case: Case<'_>) -> Option<(Window, WindowSeat)>
    ensures { IfSome result (λ w. w.1.window ≡ w.0) }
{
    Window::make_from(alloc, case.window, case.first).ok()
}

/// What stands beside the worker: a gate that remembers the numbers that pass and notes all that it is
/// told, a clock that goes on at each pause, and a pause in which the answers come.
#[derive(Drop)]
pub struct Beside<'a, N: LogName, R, W: Write> {
    rt: &'a R,
    alloc: Global,
    line: &'a Line<N, W>,
    producers: RefCell<Vec<Producer<Reply>>>,
    asked: RefCell<Vec<u32>>,
    answers: &'a [u32],
    answered: Cell<usize>,
    now: Cell<u64>,
    late_ms: u64,
    pauses: Cell<u32>,
    down_at: u32,
    ready_at: u32,
    stops_at: u32,
    begins_to: u64,
    log: &'a Log,
}

impl<'a, N: LogName, R, W: Write> Beside<'a, N, R, W> {
    /// Beside the workers of this line, whose rings these are.
    pub fn new(
        rt: &'a R,
        alloc: Global,
        line: &'a Line<N, W>,
        producers: Vec<Producer<Reply>>,
        case: Case<'a>,
        log: &'a Log,
    ) -> Beside<'a, N, R, W> {
        Beside {
            rt,
            alloc,
            line,
            producers: RefCell::new(producers),
            asked: RefCell::new(Vec::new(alloc)),
            answers: case.answers,
            answered: Cell::new(0),
            now: Cell::new(case.begins_ms),
            late_ms: case.late_ms,
            pauses: Cell::new(0),
            down_at: case.down_at,
            ready_at: case.ready_at,
            stops_at: case.stops_at,
            begins_to: case.begins_to,
            log,
        }
    }
}

impl<N: LogName, R, W: Write> Gate for Beside<'_, N, R, W> {
    fn pass(&self, _worker: usize, number: u32) -> bool {
        match self.asked.try_borrow_mut() {
            Ok(mut asked) => asked.push(number).is_ok(),
            Err(_) => false,
        }
    }

    fn ready(&self, _worker: usize) -> bool {
        self.pauses.get() >= self.ready_at
    }

    fn may_begin(&self, _worker: usize, message: u64) -> bool {
        message < self.begins_to
    }

    fn sending(&self, _worker: usize, number: u32, message: u64, part: usize) -> bool {
        if number == self.stops_at {
            return false;
        }
        self.log.note(Note::Sending(number, message, part));
        true
    }

    fn unsent(&self, _worker: usize, number: u32) {
        self.log.note(Note::Unsent(number));
    }

    fn heard(&self, _worker: usize, reply: &Reply) {
        self.log.note(Note::Heard(reply.number, reply.status));
    }

    fn begun(&self, _worker: usize, message: u64) {
        self.log.note(Note::Begun(message));
    }

    fn refused(&self, _worker: usize, message: u64, why: MessageRefusal) {
        self.log.note(Note::Refused(message, why));
    }
}

impl<N: LogName, R: Wait, W: Write> Clock for Beside<'_, N, R, W> {
    fn now_ms(&self) -> u64 {
        if self.late_ms != 0 && self.now.get() >= self.late_ms {
            self.answer_all();
        }
        self.now.get()
    }
}

impl<N: LogName, R: Wait, W: Write> Pause for Beside<'_, N, R, W> {
    fn pause(&self, _ms: u32) {
        self.now.set(self.now.get().wrapping_add(10));
        self.pauses.set(self.pauses.get().wrapping_add(1));
        if self.late_ms == 0 {
            self.answer_all();
        }
        if self.pauses.get() == self.down_at {
            bring_down(self.rt, self.alloc, &self.line.down);
        }
    }

    fn wait(&self, _worker: usize, ms: u32, most: u64) {
        self.log.note(Note::Waited(ms, most));
        self.pause(ms);
    }
}

impl<N: LogName, R: Wait, W: Write> Beside<'_, N, R, W> {
    // Answers what was asked.
    fn answer_all(&self) {
        if let Ok(mut asked) = self.asked.try_borrow_mut() {
            for number in asked.as_slice() {
                self.answer(*number);
            }
            asked.clear();
        }
    }

    // The next answer, for this number.
    fn answer(&self, number: u32) {
        let Some(status) = status_of(self.answers, self.answered.get()) else {
            return;
        };
        self.answered.set(self.answered.get().wrapping_add(1));
        if status == SILENT {
            return;
        }
        let reply = if status == NACK {
            reply_of(&nack_of(number))
        } else {
            reply_of(&answer_of(status, number))
        };
        let Some(reply) = reply else {
            return;
        };
        if let Ok(mut producers) = self.producers.try_borrow_mut() {
            let _found = self
                .line
                .slots
                .answer(self.rt, reply, producers.as_mut_slice());
        }
    }
}

/// What stands beside the workers: a clock that stands, so that nothing expires, and a gate that holds the
/// first request of each until the other has one.
#[derive(Drop)]
pub struct Together {
    held: u32,
    came: [AtomicBool; 2],
}

impl Together {
    /// A gate at which each looks so often for the other; 0 is no gate.
    pub fn new(held: u32) -> Together {
        Together {
            held,
            came: [AtomicBool::new(false), AtomicBool::new(false)],
        }
    }
}

impl Gate for Together {
    fn pass(&self, worker: usize, _number: u32) -> bool {
        match worker {
            0 => self.came[0].store(true, Ordering::SeqCst),
            _ => self.came[1].store(true, Ordering::SeqCst),
        }
        for _ in 0..self.held {
            if self.came[0].load(Ordering::SeqCst) && self.came[1].load(Ordering::SeqCst) {
                return true;
            }
            thread::yield_now();
        }
        self.held == 0
    }
}

impl Clock for Together {
    fn now_ms(&self) -> u64 {
        0
    }
}

impl Pause for Together {
    fn pause(&self, _ms: u32) {
        thread::yield_now();
    }
}
