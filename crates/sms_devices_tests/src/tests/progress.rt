//! When the line that shows a run's progress is renewed.

use super::paper::ManualClock;
use super::same::same;
use sms_devices::{Notice, Progress, TakesNotices, Telling};
use sms_worker::{
    Attempts, MessageEnd, MessageRefusal, MessageResult, Outcome, SegmentEnd, Segments,
};
use std::alloc::Global;
use std::fmt::Display;
use std::io::Eprint;
use std::sync::{Mutex, Wait};
use std::test::Fail;
use std::{io, mem};

// A message of one segment that was charged.
fn charged(alloc: Global) -> Result<MessageResult, Fail> {
    let mut segments = Vec::new(alloc);
    segments.push(SegmentEnd {
        cost: 1,
        attempts: Attempts::new(Vec::new(alloc)),
        outcome: Outcome::Charged,
    })?;
    Ok(MessageResult::Sent(Segments::new(segments)))
}

// Six messages, refused and charged in turn.
fn ends_in_turn(alloc: Global) -> Result<Vec<MessageEnd>, Fail> {
    let mut ends = Vec::new(alloc);
    for index in 0..6u64 {
        let result = if index % 2 == 0 {
            MessageResult::Refused(MessageRefusal::NoCredit)
        } else {
            charged(alloc)?
        };
        ends.push(MessageEnd { index, result })?;
    }
    Ok(ends)
}

// A standard error that keeps what is written to it.
#[derive(Drop)]
struct Paper<'r, R> {
    rt: &'r R,
    alloc: Global,
    text: Mutex<String>,
}

impl<'r, R: Wait> Eprint for Paper<'r, R> {
    fn eprint<D: Display + Drop>(&self, value: D) -> io::Result<()> {
        let written = value.to_string(self.alloc)?;
        self.text.lock(self.rt).push_str(written.as_str())?;
        Ok(())
    }

    fn eprintln<D: Display + Drop>(&self, value: D) -> io::Result<()> {
        self.eprint(value)?;
        self.eprint("\n")
    }
}

impl<'r, R: Wait> TakesNotices for &Paper<'r, R> {
    fn tell(&self, notice: Notice) -> bool {
        (**self).eprint(notice).is_ok()
    }

    fn settle(&self) -> bool {
        true
    }
}

impl<'r, R: Wait> Paper<'r, R> {
    fn blank(rt: &'r R, alloc: Global) -> Paper<'r, R> {
        Paper {
            rt,
            alloc,
            text: Mutex::new(String::new(alloc)),
        }
    }

    // What was written since the last call.
    fn take(&self) -> String {
        let mut text = self.text.lock(self.rt);
        mem::replace(&mut *text, String::new(self.alloc))
    }
}

#[test]
fn renews_the_line_in_turns(rt: HostRuntime) -> Result<(), Fail> {
    let alloc = rt.alloc();
    let paper = Paper::blank(&rt, alloc);
    let clock = ManualClock::new(1000);
    let progress = Progress::new(&paper, &paper, &clock, Telling::Way, 10, false);
    let ends = ends_in_turn(alloc)?;
    // The time, the worker, how far it is, and what is written then.
    let steps: [(u64, usize, usize, usize, &str); 7] = [
        (1100, 0, 5, 1, ""),
        (
            1200,
            1,
            2,
            0,
            "\r7/10 charged 3 refused 4 unanswered 0, 35/s, 0 s left\x1b[K",
        ),
        (1399, 0, 5, 0, ""),
        (1399, 0, 5, 0, ""),
        (
            1400,
            1,
            3,
            0,
            "\r8/10 charged 3 refused 5 unanswered 0, 20/s, 0 s left\x1b[K",
        ),
        (1400, 2, 1, 0, ""),
        (1900, 32, 1, 0, ""),
    ];
    for (ms, worker, begun, open, expected) in steps {
        clock.set(ms);
        let Some(first) = ends.as_slice().get(..begun) else {
            return Err("too few ends".into());
        };
        progress.see(worker, first, open);
        same(&rt, paper.take().as_str(), expected);
    }
    progress.clear();
    same(&rt, paper.take().as_str(), "\r\x1b[K");
    Ok(())
}

#[test]
fn is_quiet_in_a_pipe(rt: HostRuntime) -> Result<(), Fail> {
    let alloc = rt.alloc();
    let paper = Paper::blank(&rt, alloc);
    let clock = ManualClock::new(0);
    let ends = ends_in_turn(alloc)?;
    for telling in [Telling::Nothing, Telling::End] {
        let progress = Progress::new(&paper, &paper, &clock, telling, 10, true);
        clock.set(5000);
        progress.see(0, ends.as_slice(), 0);
        progress.see_last(0, ends.as_slice());
        progress.clear();
        same(&rt, paper.take().as_str(), "");
    }
    for (quiet, terminal, telling) in [
        (true, true, Telling::Nothing),
        (true, false, Telling::Nothing),
        (false, true, Telling::Way),
        (false, false, Telling::End),
    ] {
        same(&rt, Telling::new(quiet, terminal), telling);
    }
    Ok(())
}
