//! Why a bind is closed for a worker.

ghost use Rattle.std.specs.Prelude.{◌≡◌, None, IsTrue, false};
ghost use Rattle.sms_worker.specs.Closing.{IsSeen, IsShut, stopped_by};

use crate::state::stop::{NotBegun, Stop};
use crate::state::worker_start::WorkerStart;
use crate::steps::turn::TurnsTaken;
use sms_bind::{Down, DownCause, DownMark};
use std::marker::{Model, PhantomData};

/// Why a bind is closed for a worker.
#[derive(Clone, Copy, Debug, PartialEq, Eq)]
pub enum ClosedBy {
    /// The bind's line was seen down, for this cause.
    Down(DownCause),
    /// The worker's turns were over: as many as its rules say were taken.
    Turns(TurnsTaken),
    /// The gate let no further message begin. What was begun before was sent to its end.
    Stopped(NotBegun),
}

/// The cause where the line was not seen down and turns are left.
fn stopped_by(no: Option<NotBegun>) -> Option<ClosedBy>
    ensures { result ≡ stopped_by no }
{
    match no {
        None => None,
        Some(no) => Some(ClosedBy::Stopped(no)),
    }
}

/// What closed the bind: the line that was seen down, or the worker's turns that are over.
#[derive(Drop)]
pub(crate) enum Closure<'l> {
    Down(Down<'l>),
    Turns(TurnsTaken),
}

/// Whether the bind is closed for a worker. It stays so for the first cause. Contracts see whether it is.
#[derive(Drop)]
pub struct Closing<'l, C: WorkerStart> {
    mark: &'l DownMark,
    by: Option<Closure<'l>>,
    of: PhantomData<C>,
}

impl<'l, C: WorkerStart> Model for Closing<'l, C> {
    ghost use Rattle.std.specs.Prelude.{Bool};
    ghost use Rattle.sms_worker.specs.Closing.{is_closed, IsCause};

    ghost Value = { Bool };

    ghost view = { λ c. is_closed c.by };

    ghost invariant = { λ c. IsCause C.start.rules.turns C.start.mark c.mark.now c.by };
}

impl<'l, C: WorkerStart> Closing<'l, C> {
    /// It isn't closed yet, at a line of this mark.
    pub fn not_yet(mark: &'l DownMark) -> Closing<'l, C>
        requires mark { mark.now ≡ C.start.mark }
        ensures { result ≡ false }
    {
        Closing {
            mark,
            by: None,
            of: PhantomData,
        }
    }

    /// Whether it is closed.
    pub fn is_closed(&self) -> bool
        ensures { result ≡ self.now }
    {
        self.by.is_some()
    }

    /// Looks at the line, and says whether the bind is closed now.
    pub fn look(&mut self) -> bool
        ensures is { result ≡ self.new }
        ensures stays { IsTrue self.old → IsTrue self.new }
    {
        if self.by.is_some() {
            return true;
        }
        match self.mark.look() {
            Some(down) => {
                self.by = Some(Closure::Down(down));
                true
            }
            None => false,
        }
    }

    /// The worker has taken all its turns.
    pub fn turns_are_over(&mut self, taken: TurnsTaken)
        requires all { taken.count ≡ C.start.rules.turns }
        ensures closed { IsTrue self.new }
    {
        if self.by.is_none() {
            self.by = Some(Closure::Turns(taken));
        }
    }

    /// Why it is closed, or else why no further message was begun; and the evidence that the line was seen down,
    /// if it was.
    pub fn into_cause(self, stop: Stop<C>) -> (Option<ClosedBy>, Option<Down<'l>>)
        ensures none { result.0 ≡ None → (self.entry ≡ false) × (stop ≡ false) }
        ensures shut { IsTrue self.entry → IsShut result.0 }
        ensures seen { IsSeen C.start.rules.turns C.start.mark C.start.messages result.0 result.1 }
    {
        let Closing { mark, by, of: _ } = self;
        match by {
            None => (stopped_by(stop.into_refusal()), None),
            Some(Closure::Turns(taken)) => (Some(ClosedBy::Turns(taken)), None),
            Some(Closure::Down(down)) => {
                let cause = mark.cause(&down);
                (Some(ClosedBy::Down(cause)), Some(down))
            }
        }
    }
}
