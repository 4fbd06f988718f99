//! What a sending sends: what was read, or what the rounds before left of it.

ghost use Rattle.std.specs.Prelude.{◌≡◌, ◌⊎◌, ◌+◌, IfErr, IfOk, OnOk, length};
ghost use Rattle.sms_driver.specs.declared.start_gate.Command.TheVariants.{Go};
ghost use Rattle.sms_driver.specs.declared.start.StartPhase.TheVariants.{Idle, Released};
ghost use Rattle.sms_send.specs.Faults.{ComesAt};
ghost use Rattle.sms_send.specs.Rounds.{IsResumed, IsRun, OfARound, most_rounds};
ghost use Rattle.sms_send.specs.Sent.{FailsDriving, FailsLeft, FailsWork, HasRows, IsWholeOf, IsWorkDone, config_in, messages_in};

use crate::args::send_args::Again;
use crate::faults::fault::Fault;
use crate::sending::came::credits_are_small;
use crate::sending::resumed::Resumed;
use crate::sending::round_dial::RoundDial;
use crate::sending::rounds::{Interval, RoundCount, RunPart, send_rounds};
use crate::sending::sender::{Ended, send_all, settings_of};
use sms_driver::{Devices, Start};
use sms_files::{Config, Input};
use sms_journal::JournaledRun;
use sms_journal::further::{messages_left, openings_left};
use sms_worker::{Clock, Gate, Pause};
use std::alloc::Global;
use std::sync::Wait;
use std::thread::Threads;

/// What a sending sends.
#[derive(Drop)]
pub enum Work {
    /// All messages that were read.
    All(Input),
    /// What a run has left, by its journal.
    Left(JournaledRun),
}

impl Work {
    /// How it is sent.
    pub fn config(&self) -> &Config
        ensures { result.now ≡ config_in self.now }
    {
        match self {
            Work::All(input) => input.config(),
            Work::Left(run) => &run.config,
        }
    }

    /// How many messages there are.
    pub fn count(&self) -> usize
        ensures { result ≡ length (messages_in self.now) }
    {
        match self {
            Work::All(input) => input.messages().len(),
            Work::Left(run) => run.messages.len(),
        }
    }
}

/// What was sent.
#[derive(Drop)]
pub enum SentWork {
    /// All messages that were read.
    Whole(Ended),
    /// What a run had left: what came of all of it.
    Resumed(Resumed),
}

/// How many further rounds there may be.
fn more_rounds(again: Option<Again>) -> u32
    ensures { result + 1 ≡ most_rounds again }
{
    match again {
        Some(again) => again.most,
        None => 0,
    }
}

/// Sends what was read in several rounds, if it takes as many.
fn send_in_rounds<
    D: RoundDial,
    G: Gate + Sync,
    K: Clock + Sync,
    P: Pause + Sync,
    R: Threads + Wait + Sync,
    I: Interval,
>(
    rt: &R,
    alloc: Global,
    start: &mut Start<'_>,
    input: Input,
    again: Again,
    devices: &Devices<'_, D, G, K, P>,
    interval: &I,
) -> Result<Ended, Fault>
    requires not_started { start.old.begun ≡ Idle }
    ensures latch { start.new.latch ≡ start.old.latch }
    ensures started { OnOk result (start.new.begun ≡ Released Go) }
    ensures sent { IfOk result (IsRun (λ round. D.told (D.of_round devices.now.dial.now round)) again input) }
    ensures refused { IfErr result (λ fault. OfARound 0 (again.most + 1) (λ round. FailsDriving (D.refuses (D.of_round devices.now.dial.now round)) (D.told (D.of_round devices.now.dial.now round)) input.config start.new.begun fault)) }
    ensures phase { IfErr result (ComesAt start.new.begun) }
{
    let (config, openings, messages, tariff) = input.into_parts();
    let settings = settings_of(config, tariff);
    credits_are_small(openings.as_slice());
    let part = RunPart {
        settings: &settings,
        openings: openings.as_slice(),
        messages: messages.as_slice(),
        rounds: RoundCount {
            before: 0,
            more: again.most,
        },
    };
    match send_rounds(rt, alloc, start, part, devices, interval) {
        Ok(sending) => Ok(Ended::new(openings, sending)),
        Err(fault) => Err(fault),
    }
}

/// Sends what a run has left, in one round or in several.
fn send_left<
    D: RoundDial,
    G: Gate + Sync,
    K: Clock + Sync,
    P: Pause + Sync,
    R: Threads + Wait + Sync,
    I: Interval,
>(
    rt: &R,
    alloc: Global,
    start: &mut Start<'_>,
    run: JournaledRun,
    again: Option<Again>,
    devices: &Devices<'_, D, G, K, P>,
    interval: &I,
) -> Result<Resumed, Fault>
    requires not_started { start.old.begun ≡ Idle }
    requires rows { length run.rows.items ≡ length run.openings.items }
    ensures latch { start.new.latch ≡ start.old.latch }
    ensures started { OnOk result (start.new.begun ≡ Released Go) }
    ensures sent { IfOk result (IsResumed (λ round. D.told (D.of_round devices.now.dial.now round)) again run) }
    ensures refused { IfErr result (FailsLeft (λ round. D.refuses (D.of_round devices.now.dial.now round)) (λ round. D.told (D.of_round devices.now.dial.now round)) again run start.new.begun) }
    ensures phase { IfErr result (ComesAt start.new.begun) }
{
    let left = messages_left(alloc, run.messages.as_slice(), run.ends.as_slice())?;
    let free = openings_left(alloc, run.openings.as_slice(), run.rows.as_slice())?;
    let JournaledRun {
        config,
        openings,
        tariff,
        rounds,
        ends,
        rows,
        ..
    } = run;
    let settings = settings_of(config, tariff);
    let part = RunPart {
        settings: &settings,
        openings: free.as_slice(),
        messages: left.as_slice(),
        rounds: RoundCount {
            before: rounds,
            more: more_rounds(again),
        },
    };
    match send_rounds(rt, alloc, start, part, devices, interval) {
        Ok(came) => Resumed::new(alloc, openings, ends, rows, came),
        Err(fault) => Err(fault),
    }
}

/// What was sent of all messages that were read.
fn whole(sent: Result<Ended, Fault>) -> Result<SentWork, Fault>
    ensures { IsWholeOf sent result }
{
    match sent {
        Ok(ended) => Ok(SentWork::Whole(ended)),
        Err(fault) => Err(fault),
    }
}

/// Sends what there is to send.
pub fn send_work<
    D: RoundDial,
    G: Gate + Sync,
    K: Clock + Sync,
    P: Pause + Sync,
    R: Threads + Wait + Sync,
    I: Interval,
>(
    rt: &R,
    alloc: Global,
    start: &mut Start<'_>,
    work: Work,
    again: Option<Again>,
    devices: &Devices<'_, D, G, K, P>,
    interval: &I,
) -> Result<SentWork, Fault>
    requires not_started { start.old.begun ≡ Idle }
    requires rows { HasRows work }
    ensures latch { start.new.latch ≡ start.old.latch }
    ensures started { OnOk result (start.new.begun ≡ Released Go) }
    ensures sent { IfOk result (IsWorkDone (λ round. D.told (D.of_round devices.now.dial.now round)) again work) }
    ensures refused { IfErr result (FailsWork (λ round. D.refuses (D.of_round devices.now.dial.now round)) (λ round. D.told (D.of_round devices.now.dial.now round)) again work start.new.begun) }
    ensures phase { IfErr result (ComesAt start.new.begun) }
{
    match work {
        Work::All(input) => match again {
            None => {
                let first = devices.dial.in_round(1);
                let Devices {
                    gate,
                    clock,
                    pause,
                    ..
                } = devices;
                whole(send_all(rt, alloc, start, input, &first, *gate, *clock, *pause))
            }
            Some(again) => whole(send_in_rounds(rt, alloc, start, input, again, devices, interval)),
        },
        Work::Left(run) => match send_left(rt, alloc, start, run, again, devices, interval) {
            Ok(run) => Ok(SentWork::Resumed(run)),
            Err(fault) => Err(fault),
        },
    }
}
