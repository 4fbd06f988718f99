//! A run of several rounds: as long as messages are left of which nothing was begun, a further round makes the binds
//! anew and sends them.

ghost use Rattle.std.specs.Prelude.{◌≡◌, ◌⊎◌, ◌+◌, ◌<◌, ◌≤◌, IfErr, IfOk, IfSome, OnOk, length, true};
ghost use Rattle.sms_book.specs.Openings.{credits_of};
ghost use Rattle.sms_driver.specs.SendFaults.{IsFaultOfOne};
ghost use Rattle.sms_driver.specs.declared.start_gate.Command.TheVariants.{Go};
ghost use Rattle.sms_driver.specs.declared.start.StartPhase.TheVariants.{Idle, Released};
ghost use Rattle.sms_send.specs.Faults.{ComesAt};
ghost use Rattle.sms_send.specs.Rounds.{ComesTo, EndsRun, EndsWith, FailsRounds, GoesOnWith, IsNextRound, IsSentFrom, IsStepTo, OfARound, StandsAt, TellsRound, left_by, may_follow};

use crate::faults::fault::Fault;
use crate::sending::came::with_round;
use crate::sending::round_dial::RoundDial;
use sms_book::Opening;
use sms_driver::{
    BindEnd, Devices, Dial, RunSettings, SendFault, Sending, Start, StartGate, StartPhase,
    drive_all,
};
use sms_journal::further::{copies_of, count_left, messages_left, openings_left};
use sms_worker::{Clock, Gate, Message, MessageEnd, Pause};
use std::alloc::Global;
use std::sync::Wait;
use std::thread::Threads;

/// The rounds of a run in this process.
#[derive(Clone, Copy, Debug, PartialEq, Eq)]
pub struct RoundCount {
    /// How many the run had before them.
    pub before: u32,
    /// How many there may be after the first of them.
    pub more: u32,
}

impl RoundCount {
    /// The number of the one at this place. The first of a run is 1.
    fn number(self, place: u32) -> u64
        ensures { result ≡ self.before + place + 1 }
    {
        self.before as u64 + place as u64 + 1
    }
}

/// How a round ended.
#[derive(Clone, Copy)]
pub enum RoundEnd<'e> {
    /// Its messages have these ends, and its binds those.
    Sent(&'e [MessageEnd], &'e [BindEnd]),
    /// Its binds were not made, and this is why.
    Unbound(&'e SendFault),
}

/// What lies between two rounds.
pub trait Interval {
    /// Waits before the round of this number, which is to send so many messages. False if none is to begin any more.
    fn pass(&self, round: u32, left: usize, before: &RoundEnd<'_>) -> bool;

    /// The last round ended so.
    fn end(&self, last: &RoundEnd<'_>);
}

/// What a run is of, and its rounds in this process.
#[derive(Clone, Copy)]
pub struct RunPart<'e> {
    /// How it is sent.
    pub settings: &'e RunSettings,
    /// The accounts as its first round here opens them.
    pub openings: &'e [Opening],
    /// The messages that its first round here sends.
    pub messages: &'e [Message],
    pub rounds: RoundCount,
}

/// Sends messages in one round. Its threads wait at the start's gate, or at one of their own where that start was
/// given already.
fn drive_round<D: Dial, G: Gate + Sync, K: Clock + Sync, P: Pause + Sync, R: Threads + Wait + Sync>(
    rt: &R,
    alloc: Global,
    start: &mut Start<'_>,
    settings: &RunSettings,
    openings: &[Opening],
    messages: Vec<Message>,
    devices: &Devices<'_, D, G, K, P>,
) -> Result<Sending, SendFault>
    requires bound { (settings.now.binds ≤ 4) × (settings.now.workers ≤ 8) }
    requires phase { (start.old.begun ≡ Idle) ⊎ (start.old.begun ≡ Released Go) }
    ensures latch { start.new.latch ≡ start.old.latch }
    ensures started { OnOk result (start.new.begun ≡ Released Go) }
    ensures unstarted { IfErr result (TellsRound start.old.begun start.new.begun) }
    ensures sent { IfOk result (IsSentFrom (D.told devices.now.dial.now) settings.now (length openings.now) (credits_of openings.now) messages.items) }
    ensures refused { IfErr result (IsFaultOfOne (D.refuses devices.now.dial.now) (D.told devices.now.dial.now) settings.now.bind_settings.settings.mode settings.now.binds) }
{
    if start.begun() == StartPhase::Idle {
        return drive_all(rt, alloc, start, settings, openings, messages, devices);
    }
    let (latch, trigger) = StartGate::new();
    let mut own = Start::new(&latch, trigger);
    drive_all(rt, alloc, &mut own, settings, openings, messages, devices)
}

/// Sends messages in the round with this number, over the connections that the dial of that round makes.
fn dial_round<
    D: RoundDial,
    G: Gate + Sync,
    K: Clock + Sync,
    P: Pause + Sync,
    R: Threads + Wait + Sync,
>(
    rt: &R,
    alloc: Global,
    start: &mut Start<'_>,
    settings: &RunSettings,
    openings: &[Opening],
    messages: Vec<Message>,
    round: u64,
    devices: &Devices<'_, D, G, K, P>,
) -> Result<Sending, SendFault>
    requires bound { (settings.now.binds ≤ 4) × (settings.now.workers ≤ 8) }
    requires phase { (start.old.begun ≡ Idle) ⊎ (start.old.begun ≡ Released Go) }
    ensures latch { start.new.latch ≡ start.old.latch }
    ensures started { OnOk result (start.new.begun ≡ Released Go) }
    ensures unstarted { IfErr result (TellsRound start.old.begun start.new.begun) }
    ensures sent { IfOk result (IsSentFrom (D.told (D.of_round devices.now.dial.now round)) settings.now (length openings.now) (credits_of openings.now) messages.items) }
    ensures refused { IfErr result (IsFaultOfOne (D.refuses (D.of_round devices.now.dial.now round)) (D.told (D.of_round devices.now.dial.now round)) settings.now.bind_settings.settings.mode settings.now.binds) }
{
    let dial = devices.dial.in_round(round);
    let own = Devices {
        dial: &dial,
        gate: devices.gate,
        clock: devices.clock,
        pause: devices.pause,
    };
    drive_round(rt, alloc, start, settings, openings, messages, &own)
}

/// What a round leaves a run to do.
#[derive(Drop)]
enum Step {
    /// A further round follows what the rounds so far came to, if any sent something.
    On(Option<Sending>),
    /// None does. This is what they came to, or why none sent anything.
    Over(Result<Sending, Fault>),
}

/// Sends in the round with this number what a run has left after what it came to so far.
fn next_round<
    D: RoundDial,
    G: Gate + Sync,
    K: Clock + Sync,
    P: Pause + Sync,
    R: Threads + Wait + Sync,
>(
    rt: &R,
    alloc: Global,
    start: &mut Start<'_>,
    part: RunPart<'_>,
    round: u64,
    came: &Option<Sending>,
    devices: &Devices<'_, D, G, K, P>,
) -> Result<Sending, SendFault>
    requires bound { (part.settings.now.binds ≤ 4) × (part.settings.now.workers ≤ 8) }
    requires phase { (start.old.begun ≡ Idle) ⊎ (start.old.begun ≡ Released Go) }
    requires rows { IfSome came.now (λ c. length c.statement ≡ length part.openings.now) }
    ensures latch { start.new.latch ≡ start.old.latch }
    ensures started { OnOk result (start.new.begun ≡ Released Go) }
    ensures unstarted { IfErr result (TellsRound start.old.begun start.new.begun) }
    ensures sent { IfOk result (IsNextRound (D.told (D.of_round devices.now.dial.now round)) part.entry.settings.now part.entry.openings.now part.entry.messages.now came.now) }
    ensures refused { IfErr result (IsFaultOfOne (D.refuses (D.of_round devices.now.dial.now round)) (D.told (D.of_round devices.now.dial.now round)) part.entry.settings.now.bind_settings.settings.mode part.entry.settings.now.binds) }
{
    let settings = part.settings;
    match came {
        None => {
            let copies = copies_of(alloc, part.messages)?;
            let openings = part.openings;
            dial_round(rt, alloc, start, settings, openings, copies, round, devices)
        }
        Some(came) => {
            let left = messages_left(alloc, part.messages, came.ends.as_slice())?;
            let free = openings_left(alloc, part.openings, came.statement.rows())?;
            let openings = free.as_slice();
            dial_round(rt, alloc, start, settings, openings, left, round, devices)
        }
    }
}

/// How many messages are left after a round, by what came of those before.
fn left_after(
    messages: &[Message],
    came: &Option<Sending>,
    sent: &Result<Sending, SendFault>,
) -> usize
    ensures { result ≡ left_by (length messages.now) came.now sent.now }
{
    match sent {
        Ok(sending) => count_left(sending.ends.as_slice()),
        Err(_) => match came {
            Some(came) => count_left(came.ends.as_slice()),
            None => messages.len(),
        },
    }
}

/// Whether a further round may repair what a round ended with: it was sent, or a bind could not be made, which was not refused.
fn may_mend(sent: &Result<Sending, SendFault>) -> bool
    ensures { result ≡ may_follow sent.now }
{
    match sent {
        Ok(_) => true,
        Err(fault) => match fault {
            SendFault::BindFailed(_, _) => true,
            _ => false,
        },
    }
}

/// How a round ended.
fn end_of(sent: &Result<Sending, SendFault>) -> RoundEnd<'_> {
    match sent {
        Ok(sending) => RoundEnd::Sent(sending.ends.as_slice(), sending.binds.as_slice()),
        Err(fault) => RoundEnd::Unbound(fault),
    }
}

/// Whether a run goes on after its round of this place, which ended so: messages are left, and a further round may
/// repair that. It has waited then.
fn goes_on<I: Interval>(
    part: RunPart<'_>,
    place: u32,
    came: &Option<Sending>,
    sent: &Result<Sending, SendFault>,
    interval: &I,
) -> bool
    ensures left { result ≡ true → 0 < left_by (length part.entry.messages.now) came.now sent.now }
    ensures mends { result ≡ true → may_follow sent.now ≡ true }
{
    let end = end_of(sent);
    let left = left_after(part.messages, came, sent);
    if left > 0 && may_mend(sent) {
        let number = part.rounds.before.saturating_add(place).saturating_add(2);
        return interval.pass(number, left, &end);
    }
    interval.end(&end);
    false
}

/// What a run came to after a further round.
fn came_with(came: Option<Sending>, sent: Result<Sending, SendFault>) -> Option<Sending>
    ensures { GoesOnWith came sent result }
{
    match sent {
        Ok(sending) => Some(with_round(came, sending)),
        Err(_) => came,
    }
}

/// What a run came to with its last round, or the fault of that where none sent anything.
fn ended_with(came: Option<Sending>, sent: Result<Sending, SendFault>) -> Result<Sending, Fault>
    ensures { EndsWith came sent result }
{
    match sent {
        Ok(sending) => Ok(with_round(came, sending)),
        Err(fault) => match came {
            Some(came) => Ok(came),
            None => Err(Fault::from(fault)),
        },
    }
}

/// Takes a round after which a further one may follow.
fn take_round<
    D: RoundDial,
    G: Gate + Sync,
    K: Clock + Sync,
    P: Pause + Sync,
    R: Threads + Wait + Sync,
    I: Interval,
>(
    rt: &R,
    alloc: Global,
    start: &mut Start<'_>,
    part: RunPart<'_>,
    place: u32,
    came: Option<Sending>,
    devices: &Devices<'_, D, G, K, P>,
    interval: &I,
) -> Step
    requires bound { (part.settings.now.binds ≤ 4) × (part.settings.now.workers ≤ 8) }
    requires stands { StandsAt (λ round. D.told (D.of_round devices.now.dial.now round)) part.settings.now part.openings.now part.messages.now part.rounds.before place start.old.begun came }
    ensures latch { start.new.latch ≡ start.old.latch }
    ensures step { IsStepTo (λ round. D.refuses (D.of_round devices.now.dial.now round)) (λ round. D.told (D.of_round devices.now.dial.now round)) part.entry.settings.now part.entry.openings.now part.entry.messages.now part.entry.rounds.before place start.new.begun result }
{
    let round = part.rounds.number(place);
    let sent = next_round(rt, alloc, start, part, round, &came, devices);
    if goes_on(part, place, &came, &sent, interval) {
        Step::On(came_with(came, sent))
    } else {
        Step::Over(ended_with(came, sent))
    }
}

/// Takes the last round that a run may have.
fn last_round<
    D: RoundDial,
    G: Gate + Sync,
    K: Clock + Sync,
    P: Pause + Sync,
    R: Threads + Wait + Sync,
    I: Interval,
>(
    rt: &R,
    alloc: Global,
    start: &mut Start<'_>,
    part: RunPart<'_>,
    came: Option<Sending>,
    devices: &Devices<'_, D, G, K, P>,
    interval: &I,
) -> Result<Sending, Fault>
    requires bound { (part.settings.now.binds ≤ 4) × (part.settings.now.workers ≤ 8) }
    requires stands { StandsAt (λ round. D.told (D.of_round devices.now.dial.now round)) part.settings.now part.openings.now part.messages.now part.rounds.before part.rounds.more start.old.begun came }
    ensures latch { start.new.latch ≡ start.old.latch }
    ensures ended { EndsRun (λ round. D.refuses (D.of_round devices.now.dial.now round)) (λ round. D.told (D.of_round devices.now.dial.now round)) part.entry.settings.now part.entry.openings.now part.entry.messages.now part.entry.rounds.before part.entry.rounds.more start.new.begun result }
{
    let round = part.rounds.number(part.rounds.more);
    let sent = next_round(rt, alloc, start, part, round, &came, devices);
    interval.end(&end_of(&sent));
    ended_with(came, sent)
}

/// Sends messages in rounds, until nothing is left, no round may follow, or one ends by a fault that another wouldn't
/// repair. Gives what all came to. Where no round sent anything, the last fault is given.
pub fn send_rounds<
    D: RoundDial,
    G: Gate + Sync,
    K: Clock + Sync,
    P: Pause + Sync,
    R: Threads + Wait + Sync,
    I: Interval,
>(
    rt: &R,
    alloc: Global,
    start: &mut Start<'_>,
    part: RunPart<'_>,
    devices: &Devices<'_, D, G, K, P>,
    interval: &I,
) -> Result<Sending, Fault>
    requires bound { (part.settings.now.binds ≤ 4) × (part.settings.now.workers ≤ 8) }
    requires not_started { start.old.begun ≡ Idle }
    ensures latch { start.new.latch ≡ start.old.latch }
    ensures started { OnOk result (start.new.begun ≡ Released Go) }
    ensures sent { IfOk result (ComesTo (λ round. D.told (D.of_round devices.now.dial.now round)) part.entry.settings.now part.entry.openings.now part.entry.messages.now part.entry.rounds.before (part.entry.rounds.more + 1)) }
    // The fault is the last round's, where none sent anything.
    ensures refused { IfErr result (λ fault. OfARound part.entry.rounds.before (part.entry.rounds.more + 1) (λ round. FailsRounds (D.refuses (D.of_round devices.now.dial.now round)) (D.told (D.of_round devices.now.dial.now round)) part.entry.settings.now start.new.begun fault)) }
{
    let mut came = None;
    for place in 0..part.rounds.more {
        match take_round(rt, alloc, start, part, place, came, devices, interval) {
            Step::On(next) => came = next,
            Step::Over(result) => return result,
        }
    }
    last_round(rt, alloc, start, part, came, devices, interval)
}
