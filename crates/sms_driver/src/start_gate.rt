//! The gate where all threads of a sending wait before their first turn.

ghost use Rattle.std.specs.Prelude.{◌≡◌};
ghost use Rattle.sms_driver.specs.StartGates.{IsAtOne, IsFiredAt, command_of};

use std::snapshot::Snapshot;
use std::sync::{OnceLock, OnceToken, Wait};

/// What a thread does after the gate.
#[derive(Clone, Copy, Debug, PartialEq, Eq)]
pub enum Command {
    /// All threads were started: it begins its work.
    Go,
    /// A thread couldn't be started: it does nothing, and gives back what it was given.
    Leave,
}

/// Where threads wait for one command, which is given once.
#[derive(Drop)]
pub struct StartGate {
    command: OnceLock<Command>,
}

/// The permission to give the command at a gate. It is made with its gate and nowhere else, so no second
/// command is given there.
#[derive(Drop)]
pub struct Trigger {
    latch: Snapshot<StartGate>,
}

/// Evidence that a command was given at a gate. All evidence of one gate is of the same command.
#[derive(Drop)]
pub struct Started<'a> {
    token: OnceToken<'a, Command>,
}

/// What a thread gives back, and the command that it was given.
#[derive(Drop)]
pub struct ThreadResult<'a, T> {
    pub started: Started<'a>,
    pub value: T,
}

impl StartGate {
    /// A gate at which no command was given yet, and the permission to give one.
    pub fn new() -> (StartGate, Trigger)
        ensures { result.1.latch.value ≡ result.0 }
    {
        let latch = StartGate {
            command: OnceLock::new(),
        };
        let trigger = Trigger {
            latch: Snapshot::of(&latch),
        };
        (latch, trigger)
    }

    /// Gives the command, and wakes all threads that wait for it.
    pub(crate) fn fire<R: Wait>(&self, rt: &R, command: Command, trigger: Trigger) -> Started<'_>
        requires trigger { trigger.latch.value ≡ self.now }
        ensures at { IsFiredAt self.now result }
        ensures command { command_of result ≡ command }
    {
        drop(trigger);
        for _turn in rt.forever() {
            if let Ok(token) = self.command.set(rt, command) {
                return Started { token };
            }
        }
        unreachable!()
    }

    /// Sleeps until the command is given.
    pub(crate) fn wait<R: Wait>(&self, rt: &R) -> Started<'_>
        ensures at { IsFiredAt self.now result }
    {
        for _turn in rt.forever() {
            if let Some(token) = self.command.witness() {
                return Started { token };
            }
            self.command.wait(rt);
        }
        unreachable!()
    }

    /// The command that was given.
    pub(crate) fn command<'a>(&'a self, started: &Started<'a>) -> Command
        requires at { IsFiredAt self.now started.now }
        ensures command { result ≡ command_of started.now }
    {
        *self.command.value(&started.token)
    }
}

impl<'a> Started<'a> {
    /// Two threads that waited at one gate were given one command.
    pub(crate) fn agrees(&self, other: &Started<'a>)
        requires latch { IsAtOne self.now other.now }
        ensures command { command_of self.now ≡ command_of other.now }
    {
        self.token.agrees(&other.token);
    }
}
