//! Readers in threads of their own.

ghost use Rattle.std.specs.Prelude.{◌≡◌, ◌<◌, ◌≤◌, [], length, map, Err, IfErr, IfOk, IsOk, OnOk, vec_capacity};
ghost use Rattle.std.specs.List.{AllByRecursion};
ghost use Rattle.sms_pdu.specs.Devices.{device};
ghost use Rattle.sms_driver.specs.StartGates.{IsReleased};
ghost use Rattle.sms_driver.specs.Reads.{listener_of, listener_promised, reading_of, HasRead, IsUnread};
ghost use Rattle.sms_driver.specs.Threads.{AreReaders};
ghost use Rattle.sms_driver.specs.declared.fault.SendFault.TheVariants.{OutOfMemory, ThreadRefused};

use crate::fault::SendFault;
use crate::start_gate::{Command, StartGate, ThreadResult};
use crate::threads::{ReaderPromise, ReaderTask};
use rtrb::Producer;
use sms_bind::{LogName, ReaderBegin, ReaderCause, ReaderContext, ReaderEnd, ReadsBind};
use sms_book::BookName;
use sms_pdu::{Reply, Tap};
use sms_window::WindowSeat;
use sms_worker::{Clock, Gate, Pause, Rules, RunContext};
use std::alloc::{AllocError, Global};
use std::io::{Read, Write};
use std::snapshot::Snapshot;
use std::sync::Wait;
use std::thread::{PromisedHandle, Scope, Threads};

/// A reader's thread, and what it gives back.
pub type ReaderHandle<'s, Rd> = PromisedHandle<ThreadResult<'s, ReaderEnd>, ReaderPromise<Rd>>;

/// The end of a reader that never began.
fn unread(producers: Vec<Producer<Reply>>, seat: WindowSeat) -> ReaderEnd
    ensures { IsUnread seat producers.items result }
{
    ReaderEnd {
        answered: 0,
        unknown: 0,
        overrun: 0,
        delivered: 0,
        noted: 0,
        nacked: 0,
        unreplied: 0,
        errors: 0,
        cause: ReaderCause::Unstarted,
        producers,
        seat,
    }
}

/// Reads until the bind's end. The errors of the input are counted from here on.
fn read_task<N: LogName, Rd: ReadsBind, W: Write, R: Wait>(
    rt: &R,
    alloc: Global,
    reader_task: ReaderTask<N, Rd, W>,
    rules: &Rules,
) -> ReaderEnd
where
    Rd: Drop,
    requires same_window { reader_task.seat.window ≡ reader_task.window.now }
    ensures window { result.seat.window ≡ reader_task.entry.seat.window }
    // Deliver_sm are kept where the connection says so.
    ensures read { (r : HasRead rules.now.turns Rd.remaining (reading_of reader_task.entry) result) × (r.keeps ≡ Rd.keeps (device reader_task.entry.reader)) }
{
    let ReaderTask {
        reader,
        bound,
        follow,
        number,
        producers,
        seat,
        leave,
        line,
        window,
    } = reader_task;
    let context = ReaderContext {
        rt,
        alloc,
        line,
        window,
    };
    let begin = ReaderBegin {
        bound,
        producers,
        seat,
        follow: follow.limit,
        number,
    };
    let input = reader.into_inner();
    input.read_bind(&context, begin, leave, rules.turns)
}

/// Waits at the gate, and then reads until the bind's end or gives back what it has.
fn listen<'s, N: LogName, Rd: ReadsBind, W: Write, R: Wait>(
    rt: &R,
    alloc: Global,
    latch: &'s StartGate,
    reader_task: ReaderTask<N, Rd, W>,
    rules: &Rules,
) -> ThreadResult<'s, ReaderEnd>
where
    Rd: Drop,
    requires same_window { reader_task.seat.window ≡ reader_task.window.now }
    ensures { IsReleased latch.now
        (λ r. (r.seat.window ≡ reader_task.entry.seat.window) × HasRead rules.now.turns Rd.remaining (reading_of reader_task.entry) r)
        (IsUnread reader_task.entry.seat reader_task.entry.producers.items) result }
{
    let started = latch.wait(rt);
    match latch.command(&started) {
        Command::Go => {
            let value = read_task(rt, alloc, reader_task, rules);
            ThreadResult { started, value }
        }
        Command::Leave => {
            let ReaderTask {
                producers,
                seat,
                ..
            } = reader_task;
            ThreadResult {
                started,
                value: unread(producers, seat),
            }
        }
    }
}

/// Starts a reader in a thread of the scope.
fn start_reader<
    's,
    'l: 's,
    E,
    N: LogName + Send + Sync + 's,
    Rd: ReadsBind + Send + Drop + 's,
    W: Write + Send + 's,
    R: Threads + Wait + Sync,
>(
    scope: &Scope<'s, E>,
    rt: &'s R,
    alloc: Global,
    latch: &'l StartGate,
    reader_task: ReaderTask<'s, N, Rd, W>,
    rules: &'s Rules,
) -> Result<ReaderHandle<'l, Rd>, SendFault>
    requires same_window { reader_task.seat.window ≡ reader_task.window.now }
    ensures listener { IfOk result (λ h. listener_promised h.promise ≡ listener_of reader_task.entry) }
    ensures given { IfOk result (λ h. (h.promise.latch.value ≡ latch.now) × (h.promise.turns ≡ rules.now.turns)) }
    ensures refused { IfErr result (λ fault. fault ≡ ThreadRefused) }
{
    let promise = ReaderPromise {
        latch: Snapshot::of(latch),
        seat: Snapshot::of(&reader_task.seat),
        reader: Snapshot::of(&reader_task.reader),
        bound: Snapshot::of(&reader_task.bound),
        producers: Snapshot::of(&reader_task.producers),
        follow: reader_task.follow,
        turns: rules.turns,
    };
    match scope.spawn_with(promise, move || {
        listen(rt, alloc, latch, reader_task, rules)
    }) {
        Ok(handle) => Ok(handle),
        Err(_refused) => Err(SendFault::ThreadRefused),
    }
}

/// Starts a reader for each bind, if memory for all threads was had. If a thread is refused, those that were
/// started are in the list.
pub(crate) fn start_readers<
    's,
    'l: 's,
    E,
    N: BookName + LogName + Send + Sync + 's,
    Rd: ReadsBind + Send + Drop + 's,
    W: Write + Send + 's,
    G: Gate + Sync,
    K: Clock + Sync,
    P: Pause + Sync,
    R: Threads + Wait + Sync,
>(
    scope: &Scope<'s, E>,
    context: &'s RunContext<'s, N, G, K, P, R>,
    latch: &'l StartGate,
    reader_tasks: Vec<ReaderTask<'s, N, Rd, W>>,
    reserved: Result<(), AllocError>,
    handles: &mut Vec<ReaderHandle<'l, Rd>>,
) -> Result<(), SendFault>
    requires same_window { AllByRecursion (λ t. t.seat.window ≡ t.window.now) reader_tasks.items }
    requires none { handles.old.items ≡ [] }
    requires room { OnOk reserved (length reader_tasks.items ≤ vec_capacity handles.old) }
    ensures started { AreReaders context.now.rules.now.turns latch.now reader_tasks.entry.items handles.new.items }
    ensures all { OnOk result (IsOk reserved × (map (λ h. listener_promised h.promise) handles.new.items ≡ map listener_of reader_tasks.entry.items)) }
    ensures held { IfErr reserved (λ _. (result ≡ Err OutOfMemory) × (handles.new.items ≡ [])) }
    ensures refused { OnOk reserved (IfErr result (λ fault. (fault ≡ ThreadRefused) × (length handles.new.items < length reader_tasks.entry.items))) }
{
    if let Err(_refused) = reserved {
        return Err(SendFault::OutOfMemory);
    }
    let rt = context.rt;
    for reader_task in reader_tasks {
        let handle = start_reader(scope, rt, context.alloc, latch, reader_task, context.rules)?;
        handles.push_reserved(handle);
    }
    Ok(())
}
