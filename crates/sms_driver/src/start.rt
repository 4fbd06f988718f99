//! Whether a sending has begun.

ghost use Rattle.std.specs.Prelude.{◌≡◌};
ghost use Rattle.sms_driver.specs.StartGates.{IsFiredAt, command_of};
ghost use Rattle.sms_driver.specs.declared.start.StartPhase.TheVariants.{Idle, Starting, Released};

use crate::start_gate::{Command, StartGate, Started, Trigger};
use std::marker::Model;
use std::mem;

/// How far a sending came.
#[derive(Clone, Copy, Debug, PartialEq, Eq)]
pub enum StartPhase {
    /// No command was given, so no thread has begun.
    Idle,
    /// Its threads are being started.
    Starting,
    /// All of them were given this command.
    Released(Command),
}

/// The permission to give the command, or the command that was given.
#[derive(Drop)]
pub(crate) enum Stage<'l> {
    Trigger(Trigger),
    Taken,
    Started(Started<'l>),
}

/// The start of one sending: the gate where its threads wait, and the permission to give its command, until
/// it is given. Contracts see the gate, and how far the sending came.
#[derive(Drop)]
pub struct Start<'l> {
    latch: &'l StartGate,
    stage: Stage<'l>,
}

impl<'l> Model for Start<'l> {
    ghost use Rattle.sms_driver.specs.Starts.{StartState, begun_of, IsStageAt};

    ghost Value = { StartState };

    ghost view = { λ s. record { latch = s.latch.now; begun = begun_of s.stage } };

    ghost invariant = { λ s. IsStageAt s.latch.now s.stage };
}

impl<'l> Start<'l> {
    /// The start of a sending whose threads will wait at this gate.
    pub fn new(latch: &'l StartGate, trigger: Trigger) -> Start<'l>
        requires trigger { trigger.latch.value ≡ latch.now }
        ensures latch { result.latch ≡ latch.now }
        ensures begun { result.begun ≡ Idle }
    {
        Start {
            latch,
            stage: Stage::Trigger(trigger),
        }
    }

    /// The gate where its threads wait, and the permission to give the command there, which is taken.
    pub(crate) fn take_trigger(&mut self) -> (&'l StartGate, Trigger)
        requires not_started { self.old.begun ≡ Idle }
        ensures latch { self.new.latch ≡ self.old.latch }
        ensures begun { self.new.begun ≡ Starting }
        ensures gate { result.0.now ≡ self.old.latch }
        ensures trigger { result.1.latch.value ≡ self.old.latch }
    {
        let stage = mem::replace(&mut self.stage, Stage::Taken);
        let Stage::Trigger(trigger) = stage else {
            unreachable!()
        };
        (self.latch, trigger)
    }

    /// The command was given at its gate.
    pub(crate) fn set_started(&mut self, started: Started<'l>)
        requires at { IsFiredAt self.old.latch started }
        ensures latch { self.new.latch ≡ self.old.latch }
        ensures begun { self.new.begun ≡ Released (command_of started.entry) }
    {
        self.stage = Stage::Started(started);
    }

    /// How far it came.
    pub fn begun(&self) -> StartPhase
        ensures { result ≡ self.now.begun }
    {
        match &self.stage {
            Stage::Trigger(_) => StartPhase::Idle,
            Stage::Taken => StartPhase::Starting,
            Stage::Started(started) => StartPhase::Released(self.latch.command(started)),
        }
    }
}
