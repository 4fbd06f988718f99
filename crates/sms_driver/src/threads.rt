//! The threads of a sending: what they are given, and what they promise to give back.

pub mod listening;
pub mod placement;
pub mod scope;
pub mod task;
pub mod working;

ghost use Rattle.std.specs.Prelude.{◌≡◌, ◌≤◌, [], length, vec_capacity};
ghost use Rattle.std.specs.List.{AllByRecursion, AllZip};
ghost use Rattle.sms_driver.specs.StartGates.{AreOfOneLatch, IsValueBy, command_of};

use crate::Following;
use crate::start_gate::{StartGate, Started, ThreadResult};
use rtrb::Producer;
use sms_bind::{Bound, Line, LogName, ReaderEnd, ReaderLeave};
use sms_book::BookName;
use sms_pdu::{Reply, Tap};
use sms_window::{Window, WindowSeat};
use sms_worker::{Message, ReadyWorker, Rules, Worker, WorkerEnd};
use std::alloc::AllocError;
use std::io::{Read, Write};
use std::snapshot::Snapshot;
use std::thread::{Promise, PromisedHandle, Threads};

/// What a worker's thread gives back.
pub type WorkerResult<N> = Result<WorkerEnd<N>, (AllocError, Worker<N>, Vec<Message>)>;

/// A worker waits at this gate. If it is let go, its result is of this assignment, by these rules; if it
/// leaves, it gives back the assignment itself.
#[derive(Drop)]
pub struct WorkerPromise<N: BookName + LogName> {
    pub latch: Snapshot<StartGate>,
    pub assignment: Snapshot<ReadyWorker<N>>,
    pub rules: Snapshot<Rules>,
}

impl<'s, N: BookName + LogName> Promise<ThreadResult<'s, WorkerResult<N>>> for WorkerPromise<N> {
    ghost use Rattle.sms_driver.specs.StartGates.{IsReleased};
    ghost use Rattle.sms_driver.specs.Worked.{IsHandedBack, IsResultOf};

    ghost kept_by = { λ p thread_result. IsReleased p.latch.value (IsResultOf N.book p.rules.value p.assignment.value) (IsHandedBack p.assignment.value) thread_result };
}

/// What a reader's thread is given.
#[derive(Drop)]
pub struct ReaderTask<'a, N: LogName, Rd, W: Write> {
    pub reader: Tap<Rd>,
    pub bound: Bound,
    pub follow: Following,
    pub number: u32,
    pub producers: Vec<Producer<Reply>>,
    pub seat: WindowSeat,
    pub leave: ReaderLeave,
    pub line: &'a Line<N, W>,
    pub window: &'a Window,
}

/// A reader waits at this gate. If it is let go, it gives back a seat of the same window, and what it read in
/// at most `turns` turns was pushed into the rings that it was given. If it leaves, it gives back the seat and the
/// rings as they were.
#[derive(Drop)]
pub struct ReaderPromise<Rd> {
    pub latch: Snapshot<StartGate>,
    pub seat: Snapshot<WindowSeat>,
    pub reader: Snapshot<Tap<Rd>>,
    pub bound: Snapshot<Bound>,
    pub producers: Snapshot<Vec<Producer<Reply>>>,
    pub follow: Following,
    pub turns: u64,
}

impl<'s, Rd: Read> Promise<ThreadResult<'s, ReaderEnd>> for ReaderPromise<Rd> {
    ghost use Rattle.std.specs.Prelude.{◌≡◌};
    ghost use Rattle.sms_driver.specs.StartGates.{IsReleased};
    ghost use Rattle.sms_driver.specs.Reads.{reading_promised, HasRead, IsUnread};

    ghost kept_by = { λ p thread_result. IsReleased p.latch.value
        (λ r. (r.seat.window ≡ p.seat.value.window) × HasRead p.turns Rd.remaining (reading_promised p) r)
        (IsUnread p.seat.value p.producers.value.items) thread_result };
}

/// Joins each thread, after the command was given at the gate where they wait. Their values go into the
/// buffer that was made for them.
pub(crate) fn join_all<'s, T: Drop, P: Promise<ThreadResult<'s, T>>, R: Threads>(
    rt: &R,
    started: &Started<'s>,
    handles: Vec<PromisedHandle<ThreadResult<'s, T>, P>>,
    values: Vec<T>,
) -> Vec<T>
    requires room { (values.items ≡ []) × (length handles.items ≤ vec_capacity values) }
    requires latch { AreOfOneLatch P.kept_by started.now handles.items }
    // In order, each kept its promise, and was given the command.
    ensures each { AllZip (λ h r. IsValueBy P.kept_by (command_of started.now) h.promise r) handles.entry.items result.items }
{
    let mut values = values;
    for handle in handles {
        let thread_result = handle.join(rt);
        let ThreadResult {
            started: theirs,
            value,
        } = thread_result;
        theirs.agrees(started);
        values.push_reserved(value);
    }
    values
}
