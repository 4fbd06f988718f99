//! What a sending tells of how a bind's reader ended, for each of the causes.

ghost use Rattle.std.specs.Prelude.{◌≡◌, IfOk};

use super::same::same;
use super::sending::{Beside, messages, settings};
use sms_bind::{DownCause, Plain, ReaderCause};
use sms_book::Opening;
use sms_driver::{
    BindClosing, Devices, Dial, DownBy, RunSettings, Sending, SkipReason, Start, StartGate,
    UnbindResult, drive_all,
};
use sms_worker::{MessageRefusal, MessageResult, Pause};
use std::alloc::{AllocError, Global};
use std::process::Abort;
use std::test::Fail;
use std::thread::Threads;
use std::time::Duration;
use std::{io, sync, thread, time};

// What comes behind the octets of an input.
#[derive(Clone, Copy)]
enum Then {
    // its end
    Ends,
    // a fault
    Fails,
    // nothing yet
    Waits,
}

// What a centre sends, in how many octets it takes what is sent to it, and how a bind of it ends.
#[derive(Clone, Copy)]
struct Ending<'a> {
    sends: &'a [u8],
    then: Then,
    room: usize,
    turns: u16,
    answer_ms: u32,
    // none: it is stopped
    cause: Option<ReaderCause>,
}

// Gives the octets that it has, and then what comes behind them.
#[derive(Drop)]
struct Input<'a, S> {
    rt: &'a S,
    left: &'a [u8],
    then: Then,
}

impl<'a, S: time::Clock> io::Read for Input<'a, S> {
    fn read(&mut self, buf: &mut [u8]) -> io::Result<usize> {
        if !self.left.is_empty() {
            return self.left.read(buf);
        }
        match self.then {
            Then::Ends => Ok(0),
            Then::Fails => Err(io::Error::from(io::ErrorKind::BrokenPipe)),
            Then::Waits => {
                thread::sleep(self.rt, Duration::from_millis(1));
                Err(io::Error::from(io::ErrorKind::WouldBlock))
            }
        }
    }
}

// Takes so many octets, and then fails.
#[derive(Drop)]
struct Output {
    room: usize,
}

impl io::Write for Output {
    fn write(&mut self, buf: &[u8]) -> io::Result<usize> {
        if self.room == 0 {
            return Err(io::Error::from(io::ErrorKind::BrokenPipe));
        }
        let taken = buf.len().min(self.room);
        self.room -= taken;
        Ok(taken)
    }

    fn flush(&mut self) -> io::Result<()> {
        Ok(())
    }
}

// Pauses so long that a reader has taken its few turns before a worker has.
#[derive(Drop)]
struct Slow<'a, S> {
    rt: &'a S,
}

impl<'a, S: time::Clock> Pause for Slow<'a, S> {
    fn pause(&self, _ms: u32) {
        thread::sleep(self.rt, Duration::from_millis(50));
    }
}

// One connection, to a centre of that kind.
#[derive(Drop)]
struct One<'a, S> {
    rt: &'a S,
    ending: Ending<'a>,
}

impl<'a, S: time::Clock + Sync> Dial for One<'a, S> {
    type Reader = Plain<Input<'a, S>>;

    type Writer = Output;

    fn dial(&self, _bind: u32) -> Option<(Plain<Input<'a, S>>, Output)> {
        let input = Input {
            rt: self.rt,
            left: self.ending.sends,
            then: self.ending.then,
        };
        let output = Output {
            room: self.ending.room,
        };
        Some((Plain { input }, output))
    }
}

// One bind with one worker, by the rules of all tests but for the turns and the wait.
fn settings_with(alloc: Global, turns: u16, answer_ms: u32) -> Result<RunSettings, AllocError>
    ensures { IfOk result (λ s. (s.binds ≡ 1) × (s.workers ≡ 1)) }
{
    let mut settings = settings(alloc, 1, 1)?;
    settings.rules.turns = u64::from(turns);
    settings.rules.answer_ms = answer_ms;
    Ok(settings)
}

// How the reader of the one bind of a sending ended and how many errors it met, why the bind was closed to its
// worker, how many messages were refused for that, and for which cause its line was down when it wasn't unbound.
#[derive(Drop)]
struct Observed {
    cause: ReaderCause,
    errors: u64,
    closing: BindClosing,
    refused: usize,
    down: Option<DownCause>,
}

fn down_of(unbind_result: &UnbindResult) -> Option<DownCause> {
    match unbind_result {
        UnbindResult::Skipped(SkipReason::Down(was)) => Some(was.cause()),
        _ => None,
    }
}

fn told_of(sending: &Sending) -> Result<Observed, Fail> {
    let Some(bind) = sending.binds.first() else {
        return Err(Fail::new("no bind"));
    };
    let mut refused = 0usize;
    for end in &sending.ends {
        if let MessageResult::Refused(MessageRefusal::BindClosed) = end.result {
            refused = refused.saturating_add(1);
        }
    }
    Ok(Observed {
        cause: bind.reader().cause,
        errors: bind.reader().errors,
        closing: bind.closing(),
        refused,
        down: down_of(bind.unbind_result()),
    })
}

// What is told of a sending of so many messages over one bind.
fn bind_told<R: Threads + sync::Wait + time::Clock + Sync>(
    rt: &R,
    alloc: Global,
    ending: Ending<'_>,
    count: u64,
) -> Result<Observed, Fail> {
    let mut openings = Vec::new(alloc);
    openings.push(Opening {
        name: String::from_str(alloc, "main")?,
        credits: 1,
    })?;
    let settings = settings_with(alloc, ending.turns, ending.answer_ms)?;
    let beside = Beside { rt };
    let (latch, trigger) = StartGate::new();
    let driven = drive_all(
        rt,
        alloc,
        &mut Start::new(&latch, trigger),
        &settings,
        openings.as_slice(),
        messages(alloc, count)?,
        &Devices {
            dial: &One { rt, ending },
            gate: &beside,
            clock: &beside,
            pause: &Slow { rt },
        },
    );
    match driven {
        Ok(sending) => told_of(&sending),
        Err(fault) => Err(Fail::new(fault)),
    }
}

// A bind_transceiver_resp (SMPP 3.4 4.1.6), and behind it an unbind, an enquire_link, and a command_length of 4.
const BOUND: &[u8] = b"\0\0\0\x11\x80\0\0\x09\0\0\0\0\0\0\0\x01\0";

const UNBINDS: &[u8] =
    b"\0\0\0\x11\x80\0\0\x09\0\0\0\0\0\0\0\x01\0\0\0\0\x10\0\0\0\x06\0\0\0\0\0\0\0\x01";

const ASKS: &[u8] =
    b"\0\0\0\x11\x80\0\0\x09\0\0\0\0\0\0\0\x01\0\0\0\0\x10\0\0\0\x15\0\0\0\0\0\0\0\x01";

const BAD_LENGTH: &[u8] = b"\0\0\0\x11\x80\0\0\x09\0\0\0\0\0\0\0\x01\0\0\0\0\x04";

// How many octets the bind_transceiver has.
const BIND: usize = 31;

// Room for all that is sent.
const ALL: usize = 10_000;

const ENDINGS: [Ending<'static>; 7] = [
    Ending {
        sends: BOUND,
        then: Then::Ends,
        room: ALL,
        turns: 20_000,
        answer_ms: 1_000,
        cause: Some(ReaderCause::Ended),
    },
    Ending {
        sends: UNBINDS,
        then: Then::Waits,
        room: ALL,
        turns: 20_000,
        answer_ms: 1_000,
        cause: Some(ReaderCause::Unbound),
    },
    Ending {
        sends: BAD_LENGTH,
        then: Then::Waits,
        room: ALL,
        turns: 20_000,
        answer_ms: 1_000,
        cause: Some(ReaderCause::Lost),
    },
    Ending {
        sends: BOUND,
        then: Then::Fails,
        room: ALL,
        turns: 20_000,
        answer_ms: 1_000,
        cause: Some(ReaderCause::ReadFault),
    },
    Ending {
        sends: ASKS,
        then: Then::Waits,
        room: BIND,
        turns: 20_000,
        answer_ms: 1_000,
        cause: Some(ReaderCause::WriteFault),
    },
    Ending {
        sends: BOUND,
        then: Then::Waits,
        room: ALL,
        turns: 20_000,
        answer_ms: 0,
        cause: None,
    },
    Ending {
        sends: BOUND,
        then: Then::Waits,
        room: ALL,
        turns: 20,
        answer_ms: 1_000,
        cause: Some(ReaderCause::Turns),
    },
];

fn want_cause(rt: &impl Abort, cause: ReaderCause, wanted: Option<ReaderCause>) {
    match wanted {
        Some(wanted) => same(rt, cause, wanted),
        None => want_stop(rt, cause),
    }
}

fn want_stop(rt: &impl Abort, cause: ReaderCause) {
    match cause {
        ReaderCause::Stopped(_seen) => (),
        _ => panic!(rt; "not stopped"),
    }
}

// Where nothing comes, each turn meets an error.
#[test]
fn each_cause_is_told(rt: HostRuntime) -> Result<(), Fail> {
    for ending in &ENDINGS {
        let told = bind_told(&rt, rt.alloc(), *ending, 1)?;
        want_cause(&rt, told.cause, ending.cause);
        if let ReaderCause::Turns = told.cause {
            same(&rt, told.errors, u64::from(ending.turns));
        }
    }
    Ok(())
}

// A bind that takes nothing but its bind, and of which nothing comes: the first write fails.
#[test]
fn a_write_that_fails_closes_its_bind(rt: HostRuntime) -> Result<(), Fail> {
    let ending = Ending {
        sends: BOUND,
        then: Then::Waits,
        room: BIND,
        turns: 20_000,
        answer_ms: 1_000,
        cause: None,
    };
    let told = bind_told(&rt, rt.alloc(), ending, 3)?;
    want_cause(&rt, told.cause, ending.cause);
    let wanted = BindClosing {
        down: Some(DownBy::Write),
        turns_over: false,
        stopped: false,
    };
    same(&rt, (told.closing, told.refused), (wanted, 2));
    same(&rt, told.down, Some(DownCause::Write));
    Ok(())
}
