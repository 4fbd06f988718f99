//! Starts, releases and joins the threads of a sending.

ghost use Rattle.std.specs.Prelude.{◌≡◌, length, map, IsSomeAnd, MatchResult, OnOk};
ghost use Rattle.std.specs.List.{AllByRecursion};
ghost use Rattle.sms_driver.specs.Unbinds.{AsksEach, HasTried};
ghost use Rattle.sms_driver.specs.Threads.{AreSeated, HasRoom, HaveDriven, IsNoCrew};
ghost use Rattle.sms_driver.specs.declared.start_gate.Command.TheVariants.{Go, Leave};

use crate::fault::SendFault;
use crate::start_gate::{Command, StartGate, ThreadResult, Trigger};
use crate::threads::listening::{ReaderHandle, start_readers};
use crate::threads::task::WorkerTask;
use crate::threads::working::{WorkerHandle, start_workers};
use crate::threads::{ReaderTask, WorkerResult, join_all};
use crate::{DriverSeat, SharedBind, UnboundBehind, unbind_all, unbind_and_wait};
use sms_bind::{LogName, ReaderEnd, ReadsBind};
use sms_book::BookName;
use sms_worker::{Clock, Gate, Pause, RunContext};
use std::alloc::{AllocError, Global};
use std::io::{Read, Write};
use std::sync::Wait;
use std::thread::{Scope, Threads};

/// What all threads of a sending give back, and the driver's own seats.
#[derive(Drop)]
pub struct Returned<N: BookName + LogName> {
    pub worker_results: Vec<WorkerResult<N>>,
    pub readers: Vec<ReaderEnd>,
    pub driver_seats: Vec<DriverSeat<N>>,
    /// That the binds were unbound behind the workers' ends, where these were let go.
    pub unbound: Option<UnboundBehind>,
}

/// Why nothing was sent; and what the threads that had been started gave back, which is what they were given.
#[derive(Drop)]
pub struct StartFailure<N: BookName + LogName> {
    pub fault: SendFault,
    pub returned: Returned<N>,
}

impl<N: BookName + LogName> From<StartFailure<N>> for SendFault {
    ghost use Rattle.std.specs.Prelude.{◌≡◌};

    ghost from_gives = { λ failure f. f ≡ failure.fault };

    fn from(failure: StartFailure<N>) -> SendFault {
        let StartFailure { fault, returned } = failure;
        drop(returned);
        fault
    }
}

/// The threads of a sending, and room for what they give back.
#[derive(Drop)]
struct Crew<'s, N: BookName + LogName, Rd: Read> {
    workers: Vec<WorkerHandle<'s, N>>,
    readers: Vec<ReaderHandle<'s, Rd>>,
    worker_results: Vec<WorkerResult<N>>,
    reader_ends: Vec<ReaderEnd>,
}

impl<'s, N: BookName + LogName, Rd: Read> Crew<'s, N, Rd> {
    fn new(alloc: Global) -> Crew<'s, N, Rd>
        ensures { IsNoCrew result }
    {
        Crew {
            workers: Vec::new(alloc),
            readers: Vec::new(alloc),
            worker_results: Vec::new(alloc),
            reader_ends: Vec::new(alloc),
        }
    }

    /// Makes room for this many workers and readers, and for what they give back.
    fn reserve(&mut self, workers: usize, readers: usize) -> Result<(), AllocError>
        requires none { IsNoCrew self.old }
        ensures none { IsNoCrew self.new }
        ensures room { OnOk result (HasRoom workers readers self.new) }
    {
        self.workers.reserve(workers)?;
        self.readers.reserve(readers)?;
        self.worker_results.reserve(workers)?;
        self.reader_ends.reserve(readers)
    }
}

/// All threads go, or all leave if one couldn't be started.
fn command_for(start_result: &Result<(), SendFault>) -> Command
    ensures { MatchResult start_result.now (λ _. result ≡ Go) (λ fault. result ≡ Leave) }
{
    match start_result {
        Ok(()) => Command::Go,
        Err(_) => Command::Leave,
    }
}

/// Starts readers and workers, which wait at the gate; all memory for their threads is taken before the first.
/// When all of them are started they are let go: the workers are joined, the
/// binds are unbound, and the readers are joined. If one can't be started all leave, and nothing is sent.
pub(crate) fn drive<
    's,
    'l: 's,
    E,
    N: BookName + LogName + Send + Sync + 's,
    Rd: ReadsBind + Send + Drop + 's,
    W: Write + Send + 's,
    G: Gate + Sync,
    K: Clock + Sync,
    P: Pause + Sync,
    R: Threads + Wait + Sync,
>(
    scope: &Scope<'s, E>,
    context: &'s RunContext<'s, N, G, K, P, R>,
    latch: &'l StartGate,
    trigger: Trigger,
    tasks: Vec<WorkerTask<'s, N, W>>,
    reader_tasks: Vec<ReaderTask<'s, N, Rd, W>>,
    shared_binds: &'s [SharedBind<N, W>],
    driver_seats: Vec<DriverSeat<N>>,
) -> ThreadResult<'l, Result<Returned<N>, StartFailure<N>>>
    requires seated { AreSeated context.now.rules.now tasks.items reader_tasks.items driver_seats.items shared_binds.now }
    requires trigger { trigger.latch.value ≡ latch.now }
    ensures driven { HaveDriven N.book context.now.rules.now Rd.remaining latch.now tasks.entry.items reader_tasks.entry.items driver_seats.items shared_binds.now result }
{
    let rt = context.rt;
    let mut crew = Crew::new(context.alloc);
    let reserved = crew.reserve(tasks.len(), reader_tasks.len());
    let Crew {
        mut workers,
        mut readers,
        worker_results,
        reader_ends,
    } = crew;
    let listening = start_readers(scope, context, latch, reader_tasks, reserved, &mut readers);
    let start_result = start_workers(scope, context, latch, tasks, listening, &mut workers);
    let command = command_for(&start_result);
    let started = latch.fire(rt, command, trigger);
    let worker_results = join_all(rt, &started, workers, worker_results);
    let mut driver_seats = driver_seats;
    let results = worker_results.as_slice();
    let unbound = end_binds(context, command, results, shared_binds, &mut driver_seats);
    let returned = Returned {
        worker_results,
        readers: join_all(rt, &started, readers, reader_ends),
        driver_seats,
        unbound,
    };
    match start_result {
        Ok(()) => ThreadResult {
            started,
            value: Ok(returned),
        },
        Err(fault) => ThreadResult {
            started,
            value: Err(StartFailure { fault, returned }),
        },
    }
}

/// Unbinds all binds. If their readers read, it is behind the ends of the workers, which gave these results back;
/// then it waits for the readers' ends, and stops them.
fn end_binds<N: BookName + LogName, W: Write, G: Gate, K: Clock, P: Pause, R: Wait>(
    context: &RunContext<N, G, K, P, R>,
    command: Command,
    worker_results: &[WorkerResult<N>],
    shared_binds: &[SharedBind<N, W>],
    driver_seats: &mut Vec<DriverSeat<N>>,
) -> Option<UnboundBehind>
    requires driver_seats { map (λ s. s.seat.window) driver_seats.old.items ≡ map (λ b. b.window) shared_binds.now }
    ensures driver_seats { map (λ s. s.seat.window) driver_seats.new.items ≡ map (λ s. s.seat.window) driver_seats.old.items }
    ensures asked { AsksEach driver_seats.old.items driver_seats.new.items }
    ensures tried { AllByRecursion HasTried driver_seats.new.items }
    ensures behind { command ≡ Go → IsSomeAnd result (λ u. u.workers ≡ length worker_results.now) }
{
    match command {
        Command::Go => Some(unbind_and_wait(
            context.rt,
            context.alloc,
            worker_results,
            shared_binds,
            driver_seats,
            context.rules,
            context.clock,
            context.pause,
        )),
        Command::Leave => {
            unbind_all(context.rt, context.alloc, shared_binds, driver_seats);
            None
        }
    }
}
