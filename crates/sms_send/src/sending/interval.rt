//! What lies between two rounds of a sending: what is said of the one before, a pause, and that the devices are made
//! ready for the next.

use crate::args::send_args::{Again, Throttle};
use crate::faults::details::bind::failure_text;
use crate::faults::details::unsent::{RoundCause, RoundLine};
use crate::faults::unsent::{first_unsent, report_unsent};
use crate::sending::remarks::Remarks;
use crate::sending::rounds::{Interval, RoundEnd};
use crate::sending::{Sending, has_failed};
use crate::terminal::standard_error::write_beside;
use sms_devices::{
    Host, Journal, Outboxes, Progress, RunGate, StopSigns, Telling, Terminal, Ticks,
};
use sms_driver::SendFault;
use sms_files::{Config, Limits, Tally, tally_of};
use sms_journal::Note;
use sms_journal::further::count_left;
use sms_worker::MessageEnd;
use std::fs::OpenFile;
use std::io::Write;
use std::sync::Wait;
use std::thread;
use std::time::{Clock, Duration};

/// How many milliseconds a wait lasts at the most before it is looked whether the run was asked to stop.
const LOOK_MS: u32 = 200;

/// The gate of a sending.
type GateOf<'x, 'j, R, F> = RunGate<'x, 'j, R, Terminal<'j, R>, Ticks<'j, R>, R, F>;

/// What a sending has between two rounds.
#[derive(Drop)]
pub struct Between<'x, 'j, R: Host, F: Write + OpenFile> {
    rt: &'j R,
    outboxes: &'x Outboxes<'j, R, F>,
    gate: &'x GateOf<'x, 'j, R, F>,
    progress: &'x Progress<'x, R, Terminal<'j, R>, Ticks<'j, R>>,
    remarks: Remarks,
    throttle: Throttle,
    /// How many milliseconds it waits.
    wait_ms: u32,
    limits: Limits,
}

/// How many of these messages have ended, so that no round sends them again.
fn ended_of(ends: &[MessageEnd]) -> Tally {
    let tally = tally_of(ends, 0);
    let left = count_left(ends) as u64;
    Tally {
        refused: tally.refused.saturating_sub(left),
        ..tally
    }
}

impl<'x, 'j, R: Host, F: Write + OpenFile> Between<'x, 'j, R, F> {
    /// Between the rounds of this sending.
    pub fn new(
        sending: &'j Sending<'_, '_, R>,
        config: &Config,
        outboxes: &'x Outboxes<'j, R, F>,
        gate: &'x GateOf<'x, 'j, R, F>,
        progress: &'x Progress<'x, R, Terminal<'j, R>, Ticks<'j, R>>,
    ) -> Between<'x, 'j, R, F> {
        Between {
            rt: sending.rt,
            outboxes,
            gate,
            progress,
            remarks: sending.remarks,
            throttle: sending.throttle,
            wait_ms: wait_of(sending.again),
            limits: config.limits,
        }
    }
}

/// Notes in the journal of a run that a further round begins. False if the journal has failed.
fn note_round<R: Wait + Clock, F: Write + OpenFile>(
    rt: &R,
    journal: Option<&Journal<F>>,
    round: u32,
    limits: Limits,
) -> bool {
    match journal {
        Some(journal) => {
            journal.note(rt, &Note::Round(round, limits.binds, limits.workers))
                && journal.let_out(rt)
        }
        None => true,
    }
}

/// Waits so many milliseconds before a further round. False if the run is asked to stop.
fn wait_on<R: Wait + Clock + StopSigns, F: Write + OpenFile>(
    rt: &R,
    outboxes: &Outboxes<'_, R, F>,
    wait_ms: u32,
) -> bool {
    for _look in 0..wait_ms / LOOK_MS {
        thread::sleep(rt, Duration::from_millis(u64::from(LOOK_MS)));
        if outboxes.is_stopped() {
            return false;
        }
    }
    let rest_ms = wait_ms % LOOK_MS;
    thread::sleep(rt, Duration::from_millis(u64::from(rest_ms)));
    !outboxes.is_stopped()
}

/// What kept messages from being sent in the round before, in a run whose journal has failed or not.
fn cause_of(before: &RoundEnd<'_>, throttle: Throttle, is_lost: bool) -> RoundCause {
    match *before {
        RoundEnd::Sent(ends, binds) => {
            RoundCause::Unsent(first_unsent(ends, binds, throttle, is_lost))
        }
        RoundEnd::Unbound(SendFault::BindFailed(bind, why)) => {
            RoundCause::Unbound(*bind, failure_text(*why))
        }
        RoundEnd::Unbound(_) => RoundCause::Interrupted,
    }
}

/// How many milliseconds lie before a further round.
fn wait_of(again: Option<Again>) -> u32 {
    match again {
        Some(again) => again.wait_ms,
        None => 0,
    }
}

impl<'x, 'j, R: Host, F: Write + OpenFile> Interval for Between<'x, 'j, R, F> {
    fn pass(&self, round: u32, left: usize, before: &RoundEnd<'_>) -> bool {
        self.end(before);
        let is_lost = has_failed(self.outboxes.journal());
        if is_lost || self.outboxes.is_stopped() {
            return false;
        }
        if self.remarks.telling != Telling::Nothing {
            let why = cause_of(before, self.throttle, is_lost);
            write_beside(self.rt, &RoundLine { round, left, why });
        }
        if !wait_on(self.rt, self.outboxes, self.wait_ms) {
            return false;
        }
        self.outboxes.renew();
        self.gate.renew();
        if let RoundEnd::Sent(ends, _) = *before {
            self.progress.renew(&ended_of(ends));
        }
        note_round(self.rt, self.outboxes.journal(), round, self.limits)
    }

    fn end(&self, last: &RoundEnd<'_>) {
        self.outboxes.flush();
        self.progress.clear();
        if let RoundEnd::Sent(ends, binds) = *last {
            let at_length = self.remarks.at_length;
            let is_lost = has_failed(self.outboxes.journal());
            report_unsent(self.rt, ends, binds, at_length, self.throttle, is_lost);
        }
    }
}
