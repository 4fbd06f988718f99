//! Message centres that answer no unbind.

use super::driving::want_unbound;
use super::same::same;
use super::sending::{openings, settings};
use sms_bind::Plain;
use sms_centre::{Pipe, PipeEnd};
use sms_driver::{Devices, Dial, SendFault, Sending, Start, StartGate, drive_all};
use sms_worker::{Clock, Gate, Pause};
use std::alloc::Global;
use std::io::Write;
use std::process::Abort;
use std::sync::Wait;
use std::sync::atomic::{AtomicU64, Ordering};
use std::test::Fail;
use std::thread::Threads;
use std::time;

// Four connections whose far ends wrote the answer to a bind before it came, and write nothing more.
#[derive(Drop)]
struct Silent<'a, S> {
    rt: &'a S,
    there: &'a [Pipe],
    back: &'a [Pipe],
}

impl<'a, S: Wait + time::Clock + Sync> Dial for Silent<'a, S> {
    type Reader = Plain<PipeEnd<'a, S>>;

    type Writer = PipeEnd<'a, S>;

    fn dial(&self, bind: u32) -> Option<(Plain<PipeEnd<'a, S>>, PipeEnd<'a, S>)> {
        match (self.back.get(bind as usize), self.there.get(bind as usize)) {
            (Some(back), Some(there)) => {
                let input = back.end(self.rt);
                Some((Plain { input }, there.end(self.rt)))
            }
            _ => None,
        }
    }
}

// Time passes in pauses alone.
#[derive(Drop)]
struct Paused {
    ms: AtomicU64,
}

impl Gate for Paused {
    fn pass(&self, _worker: usize, _number: u32) -> bool {
        true
    }
}

impl Clock for Paused {
    fn now_ms(&self) -> u64 {
        self.ms.load(Ordering::SeqCst)
    }
}

impl Pause for Paused {
    fn pause(&self, ms: u32) {
        self.ms.fetch_add(u64::from(ms), Ordering::SeqCst);
    }
}

// A bind_transceiver_resp to the request of number 1 (SMPP 3.4 4.1.6).
const BOUND: [u8; 17] = [0, 0, 0, 17, 128, 0, 0, 9, 0, 0, 0, 0, 0, 0, 0, 1, 0];

// How long an answer is waited for.
const ANSWER_MS: u64 = 1_000;

fn bound_pipe<R: Wait + time::Clock>(rt: &R, alloc: Global) -> Result<Pipe, Fail> {
    let pipe = Pipe::new(alloc, 10_000)?;
    match pipe.end(rt).write(&BOUND) {
        Ok(17) => Ok(pipe),
        _ => Err(Fail::new("no answer to the bind")),
    }
}

fn four_binds<R: Threads + Wait + time::Clock + Sync>(
    rt: &R,
    alloc: Global,
    paused: &Paused,
) -> Result<Result<Sending, SendFault>, Fail> {
    let there = [
        Pipe::new(alloc, 10_000)?,
        Pipe::new(alloc, 10_000)?,
        Pipe::new(alloc, 10_000)?,
        Pipe::new(alloc, 10_000)?,
    ];
    let back = [
        bound_pipe(rt, alloc)?,
        bound_pipe(rt, alloc)?,
        bound_pipe(rt, alloc)?,
        bound_pipe(rt, alloc)?,
    ];
    let dial = Silent {
        rt,
        there: &there,
        back: &back,
    };
    let settings = settings(alloc, 4, 1)?;
    let openings = openings(alloc, 1)?;
    let (latch, trigger) = StartGate::new();
    Ok(drive_all(
        rt,
        alloc,
        &mut Start::new(&latch, trigger),
        &settings,
        openings.as_slice(),
        Vec::new(alloc),
        &Devices {
            dial: &dial,
            gate: paused,
            clock: paused,
            pause: paused,
        },
    ))
}

fn want_four_unbound(rt: &impl Abort, ended: &Result<Sending, SendFault>) {
    match ended {
        Ok(sending) => {
            same(rt, sending.binds.len(), 4);
            for bind in &sending.binds {
                want_unbound(rt, bind, 1);
            }
        }
        Err(fault) => panic!(rt; "{fault}"),
    }
}

// All four are waited for at once.
#[test]
fn silent_centres_are_waited_for_once(rt: HostRuntime) -> Result<(), Fail> {
    let paused = Paused {
        ms: AtomicU64::new(0),
    };
    let ended = four_binds(&rt, rt.alloc(), &paused)?;
    want_four_unbound(&rt, &ended);
    same(&rt, paused.ms.load(Ordering::SeqCst), ANSWER_MS);
    Ok(())
}
