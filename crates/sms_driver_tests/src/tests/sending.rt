//! A sending over pipes in memory, with two message centres.

ghost use Rattle.std.specs.Prelude.{◌≡◌, IfOk};

use sms_bind::{Plain, Settings};
use sms_book::{Opening, Tariff};
use sms_centre::{Pipe, PipeEnd, Script, ServeCause, ServeEnd, serve};
use sms_driver::{
    BindSettings, Devices, Dial, RunSettings, SendFault, Sending, Start, StartGate, StartPhase,
    drive_all,
};
use sms_pdu::{Mode, Octets, Tap};
use sms_session::Policy;
use sms_worker::{Clock, Fields, Gate, Message, Pause, Rules};
use std::alloc::{AllocError, Global};
use std::sync::Wait;
use std::thread::Threads;
use std::time::Duration;
use std::{thread, time};

// A pair of pipes for each bind: one to the centre, one back. From the place `most` on there is no
// connection.
#[derive(Drop)]
struct Pipes<'a, S> {
    rt: &'a S,
    there: &'a [Pipe],
    back: &'a [Pipe],
    most: usize,
}

impl<'a, S: Wait + time::Clock + Sync> Dial for Pipes<'a, S> {
    type Reader = Plain<PipeEnd<'a, S>>;

    type Writer = PipeEnd<'a, S>;

    fn dial(&self, bind: u32) -> Option<(Plain<PipeEnd<'a, S>>, PipeEnd<'a, S>)> {
        let place = bind as usize;
        if place >= self.most {
            return None;
        }
        match (self.back.get(place), self.there.get(place)) {
            (Some(back), Some(there)) => {
                let input = back.end(self.rt);
                Some((Plain { input }, there.end(self.rt)))
            }
            _ => None,
        }
    }
}

// Lets all pass, and pauses in real time. Its clock stands still.
#[derive(Drop)]
pub(super) struct Beside<'a, S> {
    pub rt: &'a S,
}

impl<'a, S> Gate for Beside<'a, S> {
    fn pass(&self, _worker: usize, _number: u32) -> bool {
        true
    }
}

impl<'a, S> Clock for Beside<'a, S> {
    fn now_ms(&self) -> u64 {
        0
    }
}

impl<'a, S: time::Clock> Pause for Beside<'a, S> {
    fn pause(&self, ms: u32) {
        thread::sleep(self.rt, Duration::from_millis(u64::from(ms)));
    }
}

// What is sent over two binds of two workers: how many messages, with how many credits,
// by which script of each centre, and how many connections there are.
#[derive(Drop)]
pub(super) struct Case<'a> {
    pub count: u64,
    pub credits: u64,
    pub scripts: [&'a str; 2],
    pub most: usize,
}

// What a sending and the two centres end with.
#[derive(Drop)]
pub(super) struct Done {
    pub first: ServeEnd,
    pub second: ServeEnd,
    pub ended: Result<Sending, SendFault>,
    pub begun: StartPhase,
}

fn octets(alloc: Global, text: &[u8]) -> Result<Octets, AllocError> {
    let mut all = Vec::new(alloc);
    all.extend_from_slice(text)?;
    Ok(Octets::new(all))
}

pub(super) fn messages(alloc: Global, count: u64) -> Result<Vec<Message>, AllocError> {
    let mut messages = Vec::new(alloc);
    for index in 0..count {
        messages.push(Message {
            index,
            account: Some(0),
            source: String::from_str(alloc, "12345")?,
            dest: String::from_str(alloc, "+447700900123")?,
            text: String::from_str(alloc, "Hi")?,
        })?;
    }
    Ok(messages)
}

// One account with so many credits.
pub(super) fn openings(alloc: Global, credits: u64) -> Result<Vec<Opening>, AllocError> {
    let mut openings = Vec::new(alloc);
    openings.push(Opening {
        name: String::from_str(alloc, "main")?,
        credits,
    })?;
    Ok(openings)
}

fn bind_settings(alloc: Global) -> Result<BindSettings, AllocError> {
    match Settings::new(
        Mode::Transceiver,
        octets(alloc, b"me")?,
        octets(alloc, b"secret")?,
        octets(alloc, b"")?,
    ) {
        Ok(settings) => Ok(BindSettings {
            settings,
            limit: 10,
            follow: true,
        }),
        Err(_fault) => Err(AllocError),
    }
}

fn rules(alloc: Global) -> Result<Rules, AllocError> {
    let (Ok(policy), Ok(tariff)) = (Policy::new(3, 100), Tariff::new(alloc, &[])) else {
        return Err(AllocError);
    };
    Ok(Rules {
        policy,
        depth: 4,
        answer_ms: 1_000,
        turns: 20_000,
        receipts: false,
        tariff,
        long_reference: false,
        fields: Fields::none(alloc),
    })
}

// This many binds with this many workers each.
pub(super) fn settings(
    alloc: Global,
    binds: usize,
    workers: usize,
) -> Result<RunSettings, AllocError>
    ensures { IfOk result (λ s. (s.binds ≡ binds) × (s.workers ≡ workers)) }
{
    Ok(RunSettings {
        binds,
        workers,
        bind_settings: bind_settings(alloc)?,
        rules: rules(alloc)?,
    })
}

// Serves a bind by this script, or hangs up where it is none. No centre is asked where there is no
// connection.
fn serve_bind<R: Wait + time::Clock>(
    rt: &R,
    alloc: Global,
    there: &Pipe,
    back: &Pipe,
    text: &str,
) -> ServeEnd {
    let served = match Script::read(alloc, text) {
        Ok(script) => {
            let mut reader = Tap::new(there.end(rt));
            let mut writer = Tap::new(back.end(rt));
            serve(alloc, &mut reader, &mut writer, script, 10_000)
        }
        Err(_fault) => ServeEnd {
            submits: 0,
            cause: ServeCause::OutOfMemory,
        },
    };
    back.close(rt);
    served
}

// Sends these messages over two binds of two workers each.
fn drive<R: Threads + Wait + time::Clock + Sync>(
    rt: &R,
    alloc: Global,
    dial: &Pipes<'_, R>,
    openings: &[Opening],
    given: Vec<Message>,
) -> (Result<Sending, SendFault>, StartPhase) {
    let (gate, trigger) = StartGate::new();
    let mut start = Start::new(&gate, trigger);
    let Ok(settings) = settings(alloc, 2, 2) else {
        return (Err(SendFault::OutOfMemory), start.begun());
    };
    let beside = Beside { rt };
    let devices = Devices {
        dial,
        gate: &beside,
        clock: &beside,
        pause: &beside,
    };
    let ended = drive_all(rt, alloc, &mut start, &settings, openings, given, &devices);
    (ended, start.begun())
}

pub(super) fn sent<R: Threads + Wait + time::Clock + Sync>(
    rt: &R,
    alloc: Global,
    case: Case<'_>,
) -> Result<Done, AllocError> {
    let there = [Pipe::new(alloc, 10_000)?, Pipe::new(alloc, 10_000)?];
    let back = [Pipe::new(alloc, 10_000)?, Pipe::new(alloc, 10_000)?];
    let openings = openings(alloc, case.credits)?;
    let given = messages(alloc, case.count)?;
    let dial = Pipes {
        rt,
        there: &there,
        back: &back,
        most: case.most,
    };
    let [one, other] = case.scripts;
    let ((first, second), (ended, begun)) = thread::join(
        rt,
        || {
            thread::join(
                rt,
                || serve_bind(rt, alloc, &there[0], &back[0], one),
                || serve_bind(rt, alloc, &there[1], &back[1], other),
            )
        },
        || {
            let (ended, begun) = drive(rt, alloc, &dial, openings.as_slice(), given);
            there[0].close(rt);
            there[1].close(rt);
            (ended, begun)
        },
    );
    Ok(Done {
        first,
        second,
        ended,
        begun,
    })
}
