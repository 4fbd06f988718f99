//! What a person sees of a run on standard error: how far it is, if that is a terminal, and its result.

ghost use Rattle.std.specs.Prelude.{◌≡◌, ◌-◌};
ghost use Rattle.sms_devices.specs.Telling.{telling_of};
ghost use Rattle.sms_files.specs.Summary.{summary_of as summary_in};

use crate::terminal::board::ProgressBoard;
use crate::terminal::notices::{Notice, TakesNotices};
use sms_book::Statement;
use sms_files::{EndLine, Tally, WayLine, summary_of};
use sms_message::MessageEnd as Ended;
use sms_worker::{Clock, MessageEnd};
use std::io::Eprint;

/// What is written of a run on standard error, beside faults.
#[derive(Clone, Copy, Debug, PartialEq, Eq)]
pub enum Telling {
    Nothing,
    /// A line at its end.
    End,
    /// That, and a line during the run, which is renewed.
    Way,
}

impl Telling {
    /// What is written to a terminal or elsewhere, in a run that is quiet or isn't.
    pub fn new(quiet: bool, terminal: bool) -> Telling
        ensures { result ≡ telling_of quiet terminal }
    {
        if quiet {
            Telling::Nothing
        } else if terminal {
            Telling::Way
        } else {
            Telling::End
        }
    }
}

/// Shows how far the workers of a run are.
#[derive(Drop)]
pub struct Progress<'r, S, N, K> {
    screen: &'r S,
    notices: N,
    clock: &'r K,
    telling: Telling,
    /// How many messages there are.
    all: u64,
    /// Whether the program's own test centre takes them.
    trial: bool,
    begun_ms: u64,
    board: ProgressBoard,
}

impl<'r, S: Eprint, N: TakesNotices, K: Clock> Progress<'r, S, N, K> {
    /// The sending of these messages begins now, in a trial or not. Notices are only for a terminal.
    pub fn new(
        screen: &'r S,
        notices: N,
        clock: &'r K,
        telling: Telling,
        messages: usize,
        trial: bool,
    ) -> Progress<'r, S, N, K>
        ensures telling { result.telling ≡ telling }
        ensures all { result.all ≡ messages }
        ensures trial { result.trial ≡ trial }
    {
        let begun_ms = clock.now_ms();
        Progress {
            screen,
            notices,
            clock,
            telling,
            all: messages as u64,
            trial,
            begun_ms,
            board: ProgressBoard::new(begun_ms),
        }
    }

    /// How long the run has lasted.
    fn passed_ms(&self, now_ms: u64) -> u64
        ensures { result ≡ now_ms - self.now.begun_ms }
    {
        now_ms.saturating_sub(self.begun_ms)
    }

    /// The line during the run, with this tally of all messages.
    fn way_line(&self, tally: Tally, now_ms: u64) -> WayLine
        ensures tally { result.tally ≡ tally }
        ensures all { result.all ≡ self.now.all }
        ensures ms { result.ms ≡ now_ms - self.now.begun_ms }
    {
        WayLine {
            tally,
            all: self.all,
            ms: self.passed_ms(now_ms),
        }
    }

    /// The line at the end, if it is now.
    fn end_line<E>(&self, ends: &[Ended<E>], statement: &Statement, now_ms: u64) -> EndLine
        ensures summary { result.summary ≡ summary_in ends.now statement.now }
        ensures ms { result.ms ≡ now_ms - self.now.begun_ms }
        ensures trial { result.trial ≡ self.now.trial }
    {
        EndLine {
            summary: summary_of(ends, statement),
            ms: self.passed_ms(now_ms),
            trial: self.trial,
        }
    }

    /// Has the line written over the one before. No thread of the run waits for the terminal.
    fn show(&self, now_ms: u64) {
        let line = self.way_line(self.board.total(), now_ms);
        self.notices.tell(Notice::Way(line));
    }

    /// Has a notice written, and waits for that a second at most.
    fn show_last(&self, notice: Notice) {
        if self.notices.tell(notice) {
            self.notices.settle();
        }
    }

    /// Clears the line, once all threads have ended and before anything is printed.
    pub fn clear(&self) {
        if self.telling == Telling::Way && self.notices.settle() {
            self.show_last(Notice::Clear);
        }
    }

    /// Writes the result of the run, once its report is printed.
    pub fn sum_up<E>(&self, ends: &[Ended<E>], statement: &Statement) {
        if self.telling == Telling::Nothing {
            return;
        }
        let line = self.end_line(ends, statement, self.clock.now_ms());
        if self.telling == Telling::Way {
            self.show_last(Notice::End(line));
        } else {
            let _written = eprintln!(self.screen; "{line}");
        }
    }

    /// Takes what became of a worker's messages at the end of its turn, and shows the total, each if it is
    /// time to.
    pub fn see(&self, worker: usize, ends: &[MessageEnd], open: usize) {
        if self.telling != Telling::Way {
            return;
        }
        let now_ms = self.clock.now_ms();
        if self.board.update(worker, ends, open, now_ms) {
            self.show(now_ms);
        }
    }

    /// A further round begins, after one in which so many messages have ended.
    pub fn renew(&self, ended: &Tally) {
        self.board.renew(ended);
    }

    /// Takes what became of all messages of a worker.
    pub fn see_last(&self, worker: usize, ends: &[MessageEnd]) {
        if self.telling == Telling::Way {
            self.board.update_last(worker, ends);
        }
    }
}
