//! The lines of messages that were not sent.

use sms_bind::ReaderCause;
use sms_driver::{BindEnd, DownBy};
use std::fmt;

/// What may have ended a connection apart from the message centre and the network.
#[derive(Clone, Copy, Debug, PartialEq, Eq)]
pub(crate) enum Ender {
    /// Nothing.
    Nothing,
    /// That answers didn't come.
    Silence,
    /// The journal failed.
    Journal,
}

/// A line that says how many messages were not sent, and why.
#[derive(Clone, Copy, Debug, PartialEq, Eq, Drop)]
pub(crate) struct UnsentLine {
    pub count: usize,
    /// The bind that was closed to them, counted from 0; none where memory was refused.
    pub bind: Option<usize>,
    pub why: &'static str,
}

impl fmt::Display for UnsentLine {
    fn fmt<W: fmt::Write>(&self, f: &mut fmt::Formatter<W>) -> fmt::Result {
        let (count, why) = (self.count, self.why);
        match self.bind {
            Some(bind) => write!(f, "not sent {count}: bind {bind} {why}\n"),
            None => write!(f, "not sent {count}: {why}\n"),
        }
    }
}

/// A line that says that a further round begins, and why.
#[derive(Clone, Copy, Debug, PartialEq, Eq, Drop)]
pub(crate) struct RoundLine {
    pub round: u32,
    /// How many messages it is to send.
    pub left: usize,
    /// What kept them from being sent before.
    pub why: RoundCause,
}

/// What kept messages from being sent before a further round.
#[derive(Clone, Copy, Debug, PartialEq, Eq, Drop)]
pub(crate) enum RoundCause {
    /// They were not sent, as this line says.
    Unsent(UnsentLine),
    /// The bind of this number was not made.
    Unbound(u32, &'static str),
    /// The process ended before.
    Interrupted,
}

impl fmt::Display for RoundLine {
    fn fmt<W: fmt::Write>(&self, f: &mut fmt::Formatter<W>) -> fmt::Result {
        let (round, left) = (self.round, self.left);
        write!(f, "round {round}: messages {left}")?;
        match self.why {
            RoundCause::Unsent(line) => match line.bind {
                Some(bind) => write!(f, " (bind {bind} {})\n", line.why),
                None => write!(f, " ({})\n", line.why),
            },
            RoundCause::Unbound(bind, why) => write!(f, " (bind {bind}: {why})\n"),
            RoundCause::Interrupted => f.write_str("\n"),
        }
    }
}

/// Why a bind was closed to its workers.
pub(crate) fn closing_text(end: &BindEnd, ender: Ender) -> &'static str {
    match end.closing().down {
        Some(DownBy::Reader) => reader_text(end.reader().cause, ender),
        Some(DownBy::Write) => ended_text(ender, "could not be written"),
        None if end.closing().turns_over => "took too many turns",
        None => "was asked to stop",
    }
}

/// Why a bind was closed whose reader ended so.
fn reader_text(cause: ReaderCause, ender: Ender) -> &'static str {
    match cause {
        ReaderCause::Ended => ended_text(ender, "was closed by the centre"),
        ReaderCause::Unbound => "was unbound by the centre",
        ReaderCause::Lost => "was lost to a bad command_length",
        ReaderCause::ReadFault => "could not be read",
        ReaderCause::WriteFault => unwritten_text(ender),
        ReaderCause::Stopped(_) | ReaderCause::Unstarted => "was stopped",
        ReaderCause::Turns => "took too many turns",
        ReaderCause::OutOfMemory => "ran out of memory",
        ReaderCause::Silent => "was silent when it was asked whether it is alive",
    }
}

/// Why a connection ended, which ended for the given reason where nothing else may have ended it.
fn ended_text(ender: Ender, otherwise: &'static str) -> &'static str {
    match ender {
        Ender::Nothing => otherwise,
        Ender::Silence => "was closed, or given up without answers",
        Ender::Journal => UNNOTED,
    }
}

/// Why a connection could not be written.
fn unwritten_text(ender: Ender) -> &'static str {
    match ender {
        Ender::Nothing | Ender::Silence => "could not be written",
        Ender::Journal => UNNOTED,
    }
}

/// What is written of a bind after its journal failed.
const UNNOTED: &str = "could not be written, since the journal failed";
