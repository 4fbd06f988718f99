//! The reader of a bind.

ghost use Rattle.std.specs.Prelude.{◌≡◌, ◌≢◌, ◌≤◌, ◌^◌, ◌++◌, map, false, IfSome};
ghost use Rattle.std.specs.List.{concat, AllZip};
ghost use Rattle.rtrb.specs.Ring.{sent, known_free, SameProducer};
ghost use Rattle.sms_core.specs.Limits.{most_slots};
ghost use Rattle.sms_pdu.specs.Devices.{device as tapped};
ghost use Rattle.sms_bind.specs.Follows.{HoldsBack, most_held, held_none};
ghost use Rattle.sms_bind.specs.Downs.{IsMarkedAtEnd};
ghost use Rattle.sms_bind.specs.Devices.{IsQuiet, number_of};
ghost use Rattle.sms_bind.specs.Ends.{HandsOn, LeavesRoom};
ghost use Rattle.sms_bind.specs.Turns.{ReadUntil};
ghost use Rattle.sms_bind.specs.declared.ending.ReaderCause.TheVariants.{Silent};

use crate::bound::Bound;
use crate::context::ReaderContext;
use crate::counts::Counts;
use crate::device::{Keeping, Look, ReaderDevice};
use crate::down::{Down, DownBefore, ReaderLeave};
use crate::ending::{ReaderCause, ReaderEnd};
use crate::follower::Follower;
use crate::line::Line;
use crate::log::LogName;
use crate::reader_state::ReaderState;
use crate::stream::Arrived;
use crate::wire::Receipt;
use rtrb::Producer;
use sms_pdu::{Reply, Tap};
use sms_window::{Window, WindowSeat};
use std::alloc::Global;
use std::io::{Read, Write};
use std::sync::Wait;

/// What a bind's reader begins with.
#[derive(Drop)]
pub struct ReaderBegin {
    pub bound: Bound,
    /// The rings of the bind's workers.
    pub producers: Vec<Producer<Reply>>,
    pub seat: WindowSeat,
    /// The window's limit where it follows throttling.
    pub follow: Option<u32>,
    /// The sequence_number by which it asks whether the line is alive: its bind's own, which no other request has.
    pub number: u32,
}

/// The sequence_number by which a reader asks whether its line is alive: its bind's own, which no other request of the session
/// has. It is made only where a reader begins.
#[derive(Clone, Copy, Debug)]
pub struct EnquiryNumber {
    number: u32,
}

impl EnquiryNumber {
    /// The number.
    pub fn get(self) -> u32
        ensures { result ≡ number_of self }
    {
        self.number
    }
}

/// No inbox and no watch.
#[derive(Drop)]
struct NoDevice {
    _made: (),
}

impl ReaderDevice for NoDevice {
    ghost use Rattle.std.specs.Prelude.{None, false};

    ghost keeps = { λ _. false };

    ghost kept = { λ _. 0 };

    ghost watch = { λ _. None };

    fn keeps(&self) -> bool {
        false
    }

    fn keep<'a>(&mut self, _arrived: Arrived<'a>) -> Keeping<'a> {
        Keeping::Unasked
    }

    fn heard(&mut self) {}

    fn look(&self) -> (u64, Look) {
        (0, Look::Wait(u64::MAX))
    }

    fn asked(&mut self, _now: u64, _sent: &Receipt) {}
}

/// Reads what comes in on a bind for at most `turns` turns, handles each frame by the session's table,
/// and pushes each answer into the ring of the worker whose request waits for it. One turn reads at most
/// 65,536 octets. When it returns the line is down: Ok where this call marked it down, Err where it was
/// down before. Where `follow` is the window's limit, fewer requests are let through while the message
/// centre throttles.
pub fn read_loop<'l, N: LogName, R: Read, W: Write, S: Wait>(
    rt: &S,
    alloc: Global,
    reader: &mut Tap<R>,
    bound: Bound,
    producers: Vec<Producer<Reply>>,
    line: &'l Line<N, W>,
    window: &Window,
    seat: WindowSeat,
    leave: ReaderLeave,
    follow: Option<u32>,
    turns: u64,
) -> (ReaderEnd, Result<Down<'l>, DownBefore<'l>>)
    requires turns { turns ≤ 2 ^ 40 }
    requires same_window { seat.window ≡ window.now }
    requires limit { IfSome follow (λ limit. (1 ≤ limit) × (limit ≤ most_slots)) }
    ensures answers { HandsOn false bound.session (concat bound.frames ++ bound.framer) (R.remaining (tapped reader.old)) (R.remaining (tapped reader.new)) (map sent producers.items) (map sent result.0.producers.items) (held_none seat (most_held follow)) result.0 }
    ensures room { LeavesRoom (map sent producers.items) (map sent result.0.producers.items) (map known_free producers.items) (map known_free result.0.producers.items) result.0 }
    ensures rings { AllZip SameProducer producers.items result.0.producers.items }
    ensures seat { HoldsBack (most_held follow) seat.view result.0.seat.view }
    ensures window { result.0.seat.window ≡ seat.window }
    ensures read { ReadUntil R.remaining turns result.0.errors result.0.cause reader.old reader.new }
    // Nobody watches over it.
    ensures loud { result.0.cause ≢ Silent }
    // The line is down: it was marked once the reader had ended, for this cause, if it wasn't down before.
    ensures down { IsMarkedAtEnd line.now.down result.0.cause result.1 }
{
    let context = ReaderContext {
        rt,
        alloc,
        line,
        window,
    };
    let begin = ReaderBegin {
        bound,
        producers,
        seat,
        follow,
        number: 0,
    };
    let mut none = NoDevice { _made: () };
    let end = read_all(&context, &mut none, reader, begin, turns);
    let down = line.down.reader_ended(rt, leave, end.cause);
    (end, down)
}

/// Reads as `read_loop` does, with a device: each deliver_sm is kept before it is acknowledged, if the device keeps them, and
/// refused for a time where it can't be; and the line is asked and given up where the device's watch says so.
pub fn read_loop_with<'l, N: LogName, R: Read, W: Write, S: Wait, D: ReaderDevice>(
    context: &ReaderContext<'l, N, W, S>,
    device: &mut D,
    reader: &mut Tap<R>,
    begin: ReaderBegin,
    leave: ReaderLeave,
    turns: u64,
) -> (ReaderEnd, Result<Down<'l>, DownBefore<'l>>)
    requires turns { turns ≤ 2 ^ 40 }
    requires same_window { begin.seat.window ≡ context.now.window.now }
    requires limit { IfSome begin.follow (λ limit. (1 ≤ limit) × (limit ≤ most_slots)) }
    ensures answers { HandsOn (D.keeps device.old) begin.bound.session (concat begin.bound.frames ++ begin.bound.framer) (R.remaining (tapped reader.old)) (R.remaining (tapped reader.new)) (map sent begin.producers.items) (map sent result.0.producers.items) (held_none begin.seat (most_held begin.follow)) result.0 }
    ensures room { LeavesRoom (map sent begin.producers.items) (map sent result.0.producers.items) (map known_free begin.producers.items) (map known_free result.0.producers.items) result.0 }
    ensures rings { AllZip SameProducer begin.producers.items result.0.producers.items }
    ensures seat { HoldsBack (most_held begin.follow) begin.seat.view result.0.seat.view }
    ensures window { result.0.seat.window ≡ begin.seat.window }
    ensures read { ReadUntil R.remaining turns result.0.errors result.0.cause reader.old reader.new }
    ensures silent { result.0.cause ≡ Silent → IsQuiet (D.watch device.new) }
    ensures down { IsMarkedAtEnd context.now.line.now.down result.0.cause result.1 }
{
    let end = read_all(context, device, reader, begin, turns);
    let down = context.line.down.reader_ended(context.rt, leave, end.cause);
    (end, down)
}

/// Reads as `read_loop_with` does, which marks the line down at its end.
fn read_all<N: LogName, R: Read, W: Write, S: Wait, D: ReaderDevice>(
    context: &ReaderContext<N, W, S>,
    device: &mut D,
    reader: &mut Tap<R>,
    begin: ReaderBegin,
    turns: u64,
) -> ReaderEnd
    requires turns { turns ≤ 2 ^ 40 }
    requires same_window { begin.seat.window ≡ context.now.window.now }
    requires limit { IfSome begin.follow (λ limit. (1 ≤ limit) × (limit ≤ most_slots)) }
    ensures answers { HandsOn (D.keeps device.old) begin.bound.session (concat begin.bound.frames ++ begin.bound.framer) (R.remaining (tapped reader.old)) (R.remaining (tapped reader.new)) (map sent begin.producers.items) (map sent result.producers.items) (held_none begin.seat (most_held begin.follow)) result }
    ensures room { LeavesRoom (map sent begin.producers.items) (map sent result.producers.items) (map known_free begin.producers.items) (map known_free result.producers.items) result }
    ensures rings { AllZip SameProducer begin.producers.items result.producers.items }
    ensures seat { HoldsBack (most_held begin.follow) begin.seat.view result.seat.view }
    ensures window { result.seat.window ≡ begin.seat.window }
    ensures read { ReadUntil R.remaining turns result.errors result.cause reader.old reader.new }
    ensures silent { result.cause ≡ Silent → IsQuiet (D.watch device.new) }
{
    let ReaderBegin {
        bound,
        producers,
        seat,
        follow,
        number,
    } = begin;
    let follower = match Follower::new(context.alloc, seat, most_of(follow)) {
        Ok(follower) => follower,
        Err((_e, seat)) => {
            return ended(producers, seat, Counts::new(), 0, ReaderCause::OutOfMemory);
        }
    };
    let Bound {
        session,
        framer,
        frames,
    } = bound;
    let mut reader_state = ReaderState {
        session,
        producers,
        counts: Counts::new(),
        follower,
        keeps: device.keeps(),
        number: EnquiryNumber { number },
        next_slot: 0,
    };
    let rest = framer.into_rest();
    let before = reader.faults();
    let cause = reader_state.read(context, device, reader, frames.as_slice(), rest, turns);
    let ReaderState {
        producers,
        counts,
        follower,
        ..
    } = reader_state;
    let errors = reader.faults().saturating_sub(before);
    ended(producers, follower.into_seat(), counts, errors, cause)
}

/// The most slots that are held back: one stays for the workers.
fn most_of(follow: Option<u32>) -> u32
    requires { IfSome follow (λ limit. (1 ≤ limit) × (limit ≤ most_slots)) }
    ensures { result ≡ most_held follow }
{
    match follow {
        Some(limit) => limit - 1,
        None => 0,
    }
}

/// The end of a reader, put together.
fn ended(
    producers: Vec<Producer<Reply>>,
    seat: WindowSeat,
    counts: Counts,
    errors: u64,
    cause: ReaderCause,
) -> ReaderEnd
    ensures { result ≡ record { answered = counts.answered; unknown = counts.unknown; overrun = counts.overrun; delivered = counts.delivered; noted = counts.noted; nacked = counts.nacked; unreplied = counts.unreplied; errors = errors; cause = cause; producers = producers; seat = seat } }
{
    ReaderEnd {
        answered: counts.answered,
        unknown: counts.unknown,
        overrun: counts.overrun,
        delivered: counts.delivered,
        noted: counts.noted,
        nacked: counts.nacked,
        unreplied: counts.unreplied,
        errors,
        cause,
        producers,
        seat,
    }
}
