//! A sending, once its book is named.

ghost use Rattle.std.specs.Prelude.{◌≡◌, ◌+◌, ◌*◌, [], ◌<◌, ◌≤◌, length, map, Ok, Some, IfErr, IfOk, IsOk, OnOk};
ghost use Rattle.std.specs.List.{AllByRecursion, AllZip};
ghost use Rattle.sms_bind.specs.LogRule.{all_parts};
ghost use Rattle.sms_book.specs.Name.{as_sealed};
ghost use Rattle.sms_book.specs.Shares.{opening_shares};
ghost use Rattle.sms_driver.specs.Buffers.{AreBuffersFor, IsFree};
ghost use Rattle.sms_driver.specs.Deals.{dealt};
ghost use Rattle.sms_driver.specs.Handed.{HasDealt};
ghost use Rattle.sms_driver.specs.Rings.{IsNewPair};
ghost use Rattle.sms_driver.specs.Runs.{AreTasks, IsJob, IsOutput};
ghost use Rattle.sms_driver.specs.Seated.{IsSeated};
ghost use Rattle.sms_driver.specs.SendFaults.{IsFaultOfRun, IsOfStart};
ghost use Rattle.sms_driver.specs.Sendings.{Sent};
ghost use Rattle.sms_driver.specs.Starts.{TellsStart};
ghost use Rattle.sms_driver.specs.Threads.{AreSeated, HaveDriven};
ghost use Rattle.sms_driver.specs.declared.fault.SendFault.TheVariants.{OutOfMemory};
ghost use Rattle.sms_driver.specs.declared.start.StartPhase.TheVariants.{Idle, Released};
ghost use Rattle.sms_driver.specs.declared.start_gate.Command.TheVariants.{Go};

use crate::binding::rings::{Rings, all_rings};
use crate::binding::{Dial, make_binds};
use crate::ending::buffers::Buffers;
use crate::ending::{RunOutput, Sending, all_done, conclude};
use crate::fault::SendFault;
use crate::settings::{Devices, RunSettings};
use crate::start::Start;
use crate::start_gate::ThreadResult;
use crate::threads::ReaderTask;
use crate::threads::placement::{Placement, seat_all};
use crate::threads::scope::{Returned, StartFailure, drive};
use crate::threads::task::{WorkerTask, tasks};
use crate::{BindParts, Binds, DriverSeat, SharedBind, deal, unbind_all};
use sms_bind::{BlankLog, LogKeeper, LogName, ReadsBind, Requests};
use sms_book::{Blank, BookName, Shares};
use sms_worker::{Clock, Gate, Message, Pause, Rules, RunContext, WorkerEnd};
use std::alloc::{AllocError, Global};
use std::io::{Read, Write};
use std::sync::Wait;
use std::thread;
use std::thread::Threads;

/// Deals the messages out to one batch for each share.
fn deal_out<N: BookName + LogName>(
    alloc: Global,
    messages: Vec<Message>,
    shares: &[Shares<N>],
) -> Result<Vec<Vec<Message>>, AllocError>
    requires some { 0 < N.book.workers }
    requires shares { length shares.now ≡ N.book.workers }
    ensures dealt { IfOk result (λ v. map (λ l. l.items) v.items ≡ dealt N.book.workers 0 messages.items) }
    ensures length { IfOk result (λ v. length v.items ≡ N.book.workers) }
{
    deal(alloc, messages, shares.len())
}

/// What the workers of a run are given: in order a share, the requests that it gave to wires, of which there are
/// none, and a batch of messages for each; and a buffer for their ends.
#[derive(Drop)]
struct Job<N: BookName + LogName> {
    shares: Vec<Shares<N>>,
    requests: Vec<Requests<N>>,
    batches: Vec<Vec<Message>>,
    done_buffer: Vec<WorkerEnd<N>>,
}

/// What is made before the first bind.
#[derive(Drop)]
struct Prepared<N: BookName + LogName> {
    job: Job<N>,
    rings: Vec<Rings>,
    buffers: Buffers<N>,
}

/// Requests for this many threads, none so far of each.
fn all_requests<N: LogName>(
    alloc: Global,
    log: &mut LogKeeper<N>,
    count: usize,
) -> Result<Vec<Requests<N>>, AllocError>
    requires few { log.old.away + count < all_parts }
    ensures log { OnOk result (HasDealt count log.old log.new) }
    ensures length { IfOk result (λ v. length v.items ≡ count) }
    ensures none { IfOk result (λ v. AllByRecursion (λ r. r ≡ []) v.items) }
{
    let mut requests = Vec::with_capacity(alloc, count)?;
    for _thread in 0..count {
        requests.push_reserved(log.thread());
    }
    Ok(requests)
}

/// Makes all that can be made before the first bind: deals the messages out, makes the rings, and takes
/// the memory for what the sending ends with.
fn prepare<N: BookName + LogName>(
    alloc: Global,
    log: &mut LogKeeper<N>,
    messages: Vec<Message>,
    shares: Vec<Shares<N>>,
    settings: &RunSettings,
) -> Result<Prepared<N>, AllocError>
    requires some { 0 < N.book.workers }
    requires shares { shares.items ≡ opening_shares N.book.accounts N.book.workers }
    requires few { log.old.away + N.book.workers < all_parts }
    ensures log { OnOk result (HasDealt N.book.workers log.old log.new) }
    ensures job { IfOk result (λ p. IsJob N.book p.job) }
    ensures dealt { IfOk result (λ p. map (λ l. l.items) p.job.batches.items ≡ dealt N.book.workers 0 messages.items) }
    ensures binds { IfOk result (λ p. length p.rings.items ≡ settings.now.binds) }
    ensures workers { IfOk result (λ p. AllByRecursion (λ r. length r.consumers.items ≡ settings.now.workers) p.rings.items) }
    ensures pairs { IfOk result (λ p. AllByRecursion (λ r. AllZip IsNewPair r.producers.items r.consumers.items) p.rings.items) }
    ensures buffers { IfOk result (λ p. AreBuffersFor (length messages.items) N.book.workers settings.now.binds p.buffers) }
{
    let count = messages.len();
    let batches = deal_out(alloc, messages, shares.as_slice())?;
    let rings = all_rings(alloc, settings.binds, settings.workers)?;
    let requests = all_requests(alloc, log, shares.len())?;
    let done_buffer = Vec::with_capacity(alloc, shares.len())?;
    let buffers = Buffers::new(alloc, count, shares.len(), settings.binds)?;
    Ok(Prepared {
        job: Job {
            shares,
            requests,
            batches,
            done_buffer,
        },
        rings,
        buffers,
    })
}

/// What the threads of a run are given, and the buffer for the workers' ends.
#[derive(Drop)]
struct RunTasks<'a, N: BookName + LogName, Rd, W: Write> {
    tasks: Vec<WorkerTask<'a, N, W>>,
    reader_tasks: Vec<ReaderTask<'a, N, Rd, W>>,
    done_buffer: Vec<WorkerEnd<N>>,
}

/// Gives all workers and readers their places. Each worker gets its share, its messages and all memory
/// that its call begins with.
fn make_tasks<'a, N: BookName + LogName, Rd: Drop, W: Write + Drop>(
    alloc: Global,
    job: Job<N>,
    shared_binds: &'a [SharedBind<N, W>],
    bind_parts: Vec<BindParts<Rd>>,
    workers: usize,
    rules: &Rules,
) -> Result<RunTasks<'a, N, Rd, W>, AllocError>
    requires bind_parts { AllZip (IsSeated workers) shared_binds.now bind_parts.items }
    requires shares { length job.shares.items ≡ length shared_binds.now * workers }
    requires batches { length job.batches.items ≡ length job.shares.items }
    requires requests { length job.requests.items ≡ length job.shares.items }
    ensures tasks { IfOk result (AreTasks rules.now workers job shared_binds.now bind_parts.items) }
{
    let Job {
        shares,
        requests,
        batches,
        done_buffer,
    } = job;
    let Placement {
        places,
        reader_tasks,
    } = seat_all(alloc, shared_binds, bind_parts, workers)?;
    let tasks = tasks(alloc, places, shares, requests, batches, rules)?;
    Ok(RunTasks {
        tasks,
        reader_tasks,
        done_buffer,
    })
}

/// Makes what the threads are given. If memory is refused the binds are unbound.
fn prepare_threads<
    'a,
    N: BookName + LogName,
    Rd: Drop,
    W: Write + Drop,
    G: Gate,
    K: Clock,
    P: Pause,
    R: Wait,
>(
    context: &RunContext<'_, N, G, K, P, R>,
    job: Job<N>,
    shared_binds: &'a [SharedBind<N, W>],
    bind_parts: Vec<BindParts<Rd>>,
    driver_seats: &mut Vec<DriverSeat<N>>,
    workers: usize,
) -> Result<RunTasks<'a, N, Rd, W>, SendFault>
    requires job { IsJob N.book job }
    requires bind_parts { AllZip (IsSeated workers) shared_binds.now bind_parts.items }
    requires driver_seats { map (λ s. s.seat.window) driver_seats.old.items ≡ map (λ b. b.window) shared_binds.now }
    requires count { N.book.workers ≡ length shared_binds.now * workers }
    ensures tasks { IfOk result (AreTasks context.now.rules.now workers job shared_binds.now bind_parts.items) }
    ensures driver_seats { OnOk result (driver_seats.new ≡ driver_seats.old) }
    ensures refused { IfErr result (λ fault. fault ≡ OutOfMemory) }
{
    let made = make_tasks(
        context.alloc,
        job,
        shared_binds,
        bind_parts,
        workers,
        context.rules,
    );
    match made {
        Ok(run_tasks) => Ok(run_tasks),
        Err(_refused) => {
            unbind_all(context.rt, context.alloc, shared_binds, driver_seats);
            Err(SendFault::OutOfMemory)
        }
    }
}

/// The output of a run whose threads were let go.
fn output_of<N: BookName + LogName>(
    returned: Returned<N>,
    done_buffer: Vec<WorkerEnd<N>>,
) -> RunOutput<N>
    requires worked { AllByRecursion (λ r. IsOk r) returned.worker_results.items }
    requires room { IsFree (length returned.worker_results.items) done_buffer }
    ensures done { map (λ d. Ok d) result.done.items ≡ returned.worker_results.items }
    ensures readers { result.readers ≡ returned.readers }
    ensures driver_seats { result.driver_seats ≡ returned.driver_seats }
{
    let Returned {
        worker_results,
        readers,
        driver_seats,
        unbound: _,
    } = returned;
    RunOutput {
        done: all_done(worker_results, done_buffer),
        readers,
        driver_seats,
    }
}

/// Sends all messages of a job over the binds, by readers and workers in threads of their own. The binds are
/// unbound in any case. If one of the threads can't be started nothing is sent. The start keeps the command
/// that was given.
fn send_over<
    'x,
    'l: 'x,
    N: BookName + LogName + Send + Sync,
    Rd: ReadsBind + Send + Drop,
    W: Write + Send + Drop,
    G: Gate + Sync,
    K: Clock + Sync,
    P: Pause + Sync,
    R: Threads + Wait + Sync,
>(
    context: &'x RunContext<'x, N, G, K, P, R>,
    start: &mut Start<'l>,
    job: Job<N>,
    shared_binds: &'x [SharedBind<N, W>],
    bind_parts: Vec<BindParts<Rd>>,
    mut driver_seats: Vec<DriverSeat<N>>,
    workers: usize,
) -> Result<RunOutput<N>, SendFault>
    requires job { IsJob N.book job }
    requires bind_parts { AllZip (IsSeated workers) shared_binds.now bind_parts.items }
    requires driver_seats { map (λ s. s.seat.window) driver_seats.items ≡ map (λ b. b.window) shared_binds.now }
    requires some { 0 < N.book.workers }
    requires count { N.book.workers ≡ length shared_binds.now * workers }
    requires not_started { start.old.begun ≡ Idle }
    ensures latch { start.new.latch ≡ start.old.latch }
    ensures started { OnOk result (start.new.begun ≡ Released Go) }
    ensures phase { IfErr result (TellsStart start.new.begun) }
    ensures output { IfOk result (IsOutput context.now.rules.now N.book workers Rd.remaining (map (λ l. l.items) job.batches.items) shared_binds.now bind_parts.items driver_seats.items) }
    ensures refused { IfErr result IsOfStart }
{
    let RunTasks {
        tasks,
        reader_tasks,
        done_buffer,
    } = prepare_threads(
        context,
        job,
        shared_binds,
        bind_parts,
        &mut driver_seats,
        workers,
    )?;
    let (latch, trigger) = start.take_trigger();
    let ThreadResult { started, value } = thread::scope(
        thread::scope_env(),
        context.rt,
        move |scope| -> ThreadResult<Result<Returned<N>, StartFailure<N>>>
            requires seated { AreSeated context.now.rules.now tasks.items reader_tasks.items driver_seats.items shared_binds.now }
            requires trigger { trigger.latch.value ≡ latch.now }
            ensures driven { HaveDriven N.book context.entry.now.rules.now Rd.remaining latch.entry.now tasks.entry.items reader_tasks.entry.items driver_seats.items shared_binds.entry.now result }
        {
            drive(
                scope,
                context,
                latch,
                trigger,
                tasks,
                reader_tasks,
                shared_binds,
                driver_seats,
            )
        },
    );
    start.set_started(started);
    match value {
        Ok(returned) => Ok(output_of(returned, done_buffer)),
        Err(failure) => Err(SendFault::from(failure)),
    }
}

/// Sends all messages, and gives their ends, in order, and the statement. Everything that can be made
/// before the first bind is made before it.
pub fn run<
    'l,
    N: BookName + LogName + Send + Sync,
    D: Dial,
    G: Gate + Sync,
    K: Clock + Sync,
    P: Pause + Sync,
    R: Threads + Wait + Sync,
>(
    rt: &R,
    alloc: Global,
    start: &mut Start<'l>,
    blank: Blank,
    log: BlankLog,
    settings: &RunSettings,
    messages: Vec<Message>,
    devices: &Devices<'_, D, G, K, P>,
) -> Result<Sending, SendFault>
    requires name { (as_sealed blank.book ≡ N.book) × (log ≡ N.log) × (N.settings ≡ Some settings.now.bind_settings.settings) }
    requires count { (0 < blank.book.workers) × (blank.book.workers ≡ settings.now.binds * settings.now.workers) }
    requires bound { (settings.now.binds ≤ 4) × (settings.now.workers < 62) }
    requires accounts { length blank.credits ≡ blank.book.accounts }
    requires opening { blank.book.opening ≡ blank.credits }
    requires not_started { start.old.begun ≡ Idle }
    ensures latch { start.new.latch ≡ start.old.latch }
    ensures started { OnOk result (start.new.begun ≡ Released Go) }
    ensures phase { IfErr result (TellsStart start.new.begun) }
    ensures sent { IfOk result (Sent settings.now (D.told devices.now.dial.now) blank.book.accounts blank.credits messages.items) }
    ensures refused { IfErr result (IsFaultOfRun (D.refuses devices.now.dial.now) (D.told devices.now.dial.now) settings.now.bind_settings.settings.mode settings.now.binds) }
{
    let count = messages.len();
    let Ok((book, till, shares)) = blank.open_sealed::<N>(alloc) else {
        return Err(SendFault::OutOfMemory);
    };
    let Ok(mut log) = log.open::<N>(alloc) else {
        return Err(SendFault::OutOfMemory);
    };
    let prepared = prepare(alloc, &mut log, messages, shares, settings)?;
    let Prepared {
        job,
        rings,
        buffers,
    } = prepared;
    let made = make_binds(rt, alloc, devices.dial, &mut log, settings, rings)?;
    let Binds {
        shared_binds,
        bind_parts,
        driver_seats,
    } = made;
    let output = send_over(
        &devices.context(rt, alloc, &book, &settings.rules),
        start,
        job,
        shared_binds.as_slice(),
        bind_parts,
        driver_seats,
        settings.workers,
    )?;
    Ok(conclude(
        book.into_inner(),
        till,
        log,
        count,
        output,
        shared_binds,
        settings.workers,
        buffers,
    ))
}
