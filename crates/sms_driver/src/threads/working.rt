//! Workers in threads of their own.

ghost use Rattle.std.specs.Prelude.{◌≡◌, ◌<◌, ◌≤◌, [], length, map, Err, IfErr, IsOk, OnOk, vec_capacity};
ghost use Rattle.std.specs.List.{AllByRecursion};
ghost use Rattle.sms_driver.specs.StartGates.{IsReleased};
ghost use Rattle.sms_driver.specs.Threads.{AreWorkers, IsPrepared};
ghost use Rattle.sms_driver.specs.Worked.{IsHandedBack, IsResultOf};
ghost use Rattle.sms_driver.specs.declared.fault.SendFault.TheVariants.{ThreadRefused};

use crate::fault::SendFault;
use crate::start_gate::{Command, StartGate, ThreadResult};
use crate::threads::task::WorkerTask;
use crate::threads::{WorkerPromise, WorkerResult};
use sms_bind::LogName;
use sms_book::BookName;
use sms_worker::{Clock, Gate, Pause, RunContext};
use std::alloc::AllocError;
use std::io::Write;
use std::snapshot::Snapshot;
use std::sync::Wait;
use std::thread::{PromisedHandle, Scope, Threads};

/// A worker's thread, and what it gives back.
pub type WorkerHandle<'s, N> = PromisedHandle<ThreadResult<'s, WorkerResult<N>>, WorkerPromise<N>>;

/// Waits at the gate, and then does the work or gives all of it back.
fn work<'s, N: BookName + LogName, W: Write, G: Gate, K: Clock, P: Pause, R: Wait>(
    context: &RunContext<N, G, K, P, R>,
    latch: &'s StartGate,
    task: WorkerTask<N, W>,
) -> ThreadResult<'s, WorkerResult<N>>
    requires same_window { IsPrepared context.now.rules.now task }
    ensures { IsReleased latch.now (IsResultOf N.book context.now.rules.now task.entry.assignment) (IsHandedBack task.entry.assignment) result }
{
    let started = latch.wait(context.rt);
    let WorkerTask {
        assignment,
        line,
        window,
    } = task;
    match latch.command(&started) {
        Command::Go => {
            let (end, _seen) = assignment.run(context, line, window);
            ThreadResult {
                started,
                value: Ok(end),
            }
        }
        Command::Leave => {
            let (worker, messages) = assignment.into_parts();
            ThreadResult {
                started,
                value: Err((AllocError, worker, messages)),
            }
        }
    }
}

/// Starts a worker for each task, if the readers were started; else it gives their fault. If a thread is
/// refused, those that were started are in the list.
pub(crate) fn start_workers<
    's,
    'l: 's,
    E,
    N: BookName + LogName + Send + Sync + 's,
    W: Write + Send + 's,
    G: Gate + Sync,
    K: Clock + Sync,
    P: Pause + Sync,
    R: Threads + Wait + Sync,
>(
    scope: &Scope<'s, E>,
    context: &'s RunContext<'s, N, G, K, P, R>,
    latch: &'l StartGate,
    tasks: Vec<WorkerTask<'s, N, W>>,
    listening: Result<(), SendFault>,
    handles: &mut Vec<WorkerHandle<'l, N>>,
) -> Result<(), SendFault>
    requires same_window { AllByRecursion (IsPrepared context.now.rules.now) tasks.items }
    requires none { handles.old.items ≡ [] }
    requires room { OnOk listening (length tasks.items ≤ vec_capacity handles.old) }
    ensures started { AreWorkers context.now.rules.now latch.now tasks.entry.items handles.new.items }
    ensures all { OnOk result (IsOk listening × (map (λ h. h.promise.assignment.value) handles.new.items ≡ map (λ t. t.assignment) tasks.entry.items)) }
    ensures held { IfErr listening (λ fault. (result ≡ Err fault) × (handles.new.items ≡ [])) }
    ensures refused { OnOk listening (IfErr result (λ fault. (fault ≡ ThreadRefused) × (length handles.new.items < length tasks.entry.items))) }
{
    if let Err(fault) = listening {
        return Err(fault);
    }
    for task in tasks {
        let promise = WorkerPromise {
            latch: Snapshot::of(latch),
            assignment: Snapshot::of(&task.assignment),
            rules: Snapshot::of(context.rules),
        };
        match scope.spawn_with(promise, move || work(context, latch, task)) {
            Ok(handle) => handles.push_reserved(handle),
            Err(_refused) => return Err(SendFault::ThreadRefused),
        }
    }
    Ok(())
}
