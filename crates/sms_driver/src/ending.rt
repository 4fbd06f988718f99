//! What a run ends with.

pub mod buffers;
pub mod causes;
pub mod closing;
pub mod ring_ends;
pub mod skipped;
pub mod unbind;
pub mod unbind_result;

ghost use Rattle.std.specs.Prelude.{◌≡◌, ◌∷◌, ◌++◌, [], ℕ, ◌+◌, ◌*◌, ◌<◌, ◌≤◌, List, length, map, IsOk, Ok, vec_len, vec_capacity};
ghost use Rattle.std.specs.List.{AllByRecursion, AllZip};
ghost use Rattle.rtrb.specs.Ring.{IsPair};
ghost use Rattle.sms_book.specs.Portions.{row_at};
ghost use Rattle.sms_book.specs.Shares.{AreAll};
ghost use Rattle.sms_book.specs.Sums.{IsSumOf};
ghost use Rattle.sms_worker.specs.Rests.{HasReceived};
ghost use Rattle.sms_worker.specs.Types.{MessageEnd};
ghost use Rattle.sms_driver.specs.BindEnds.{outcome_of};
ghost use Rattle.sms_driver.specs.Buffers.{AreBuffersFor, ArePartsFor, IsFree};
ghost use Rattle.sms_driver.specs.Deals.{dealt};
ghost use Rattle.sms_driver.specs.Handed.{IsBack};
ghost use Rattle.sms_driver.specs.Rings.{flat};
ghost use Rattle.sms_driver.specs.Runs.{IsConcluded, IsOfBinds};

use crate::bind_end::BindEnd;
use crate::ending::buffers::{Buffers, Parts};
use crate::ending::closing::{BindRemains, close_all};
use crate::ending::ring_ends::{RingEnds, take_rings};
use crate::threads::WorkerResult;
use crate::{DriverSeat, SharedBind, merged};
use rtrb::Consumer;
use sms_bind::{LogKeeper, LogName, ReaderEnd, SettledLog};
use sms_book::{Book, BookName, Sealed, Shares, Statement, Till, gather};
use sms_pdu::Reply;
use sms_worker::laws::received_are_prefixes;
use sms_worker::{MessageEnd, Reasons, WorkerEnd};
use std::collections::VecDeque;
use std::io::Write;

/// The ends of the workers, all of which did their work, in the buffer that was made for them.
pub fn all_done<N: BookName + LogName>(
    worker_results: Vec<WorkerResult<N>>,
    buffer: Vec<WorkerEnd<N>>,
) -> Vec<WorkerEnd<N>>
    requires worked { AllByRecursion (λ r. IsOk r) worker_results.items }
    requires room { IsFree (length worker_results.items) buffer }
    ensures { map (λ d. Ok d) result.items ≡ worker_results.items }
{
    let mut done = buffer;
    for worker_result in worker_results {
        let Ok(end) = worker_result else {
            unreachable!()
        };
        done.push_reserved(end);
    }
    done
}

/// Takes the workers' ends apart, into the buffers that were made for the parts. Their requests come back to the
/// keeper of the log.
fn take_apart<N: BookName + LogName>(
    log: &mut LogKeeper<N>,
    done: Vec<WorkerEnd<N>>,
    parts: Parts<N>,
) -> Parts<N>
    requires parts { ArePartsFor (length done.items) parts }
    requires away { length done.items ≤ log.old.away }
    ensures log { IsBack (length done.items) (flat (map (λ d. d.requests) done.items)) log.old log.new }
    ensures given { log.new.given ≡ log.old.given }
    ensures shares { result.shares.items ≡ map (λ d. d.shares) done.items }
    ensures ends { map (λ q. q.items) result.ends.items ≡ map (λ d. d.ends.items) done.items }
    ensures seats { map (λ s. s.window) result.seats.items ≡ map (λ d. d.seat.window) done.items }
    ensures views { map (λ s. s.view) result.seats.items ≡ map (λ d. d.seat.view) done.items }
    ensures consumers { result.consumers.items ≡ map (λ d. d.consumer) done.items }
    ensures causes { result.causes.items ≡ map (λ d. d.closed) done.items }
    ensures reasons { result.reasons.items ≡ map (λ d. d.reasons) done.items }
    ensures length { length result.ends.items ≡ length done.items }
{
    let Parts {
        mut shares,
        mut ends,
        mut seats,
        mut consumers,
        mut causes,
        mut reasons,
    } = parts;
    for end in done {
        let WorkerEnd {
            shares: share,
            ends: theirs,
            seat,
            consumer,
            closed,
            requests,
            reasons: why,
        } = end;
        shares.push_reserved(share);
        ends.push_reserved(VecDeque::from(theirs));
        seats.push_reserved(seat);
        consumers.push_reserved(consumer);
        causes.push_reserved(closed);
        reasons.push_reserved(why);
        log.take(requests);
    }
    Parts {
        shares,
        ends,
        seats,
        consumers,
        causes,
        reasons,
    }
}

/// The result of a sending: an end for each message, in order, a row for each account, and the end of
/// each bind.
#[derive(Drop)]
pub struct Sending {
    pub ends: Vec<MessageEnd>,
    pub statement: Statement,
    pub binds: Vec<BindEnd>,
    /// Why parts and messages were not sent, worker by worker, bind by bind.
    pub reasons: Vec<Reasons>,
    /// The frames that the wires were given, among which the requests are the frames of all attempts in `ends` and
    /// the unbinds.
    pub log: SettledLog,
}

/// The statement of a book, all of whose shares are back.
fn settle<N: BookName>(book: Book<N>, till: Till<N, Sealed>, shares: Vec<Shares<N>>) -> Statement
    requires all { AreAll N.book.workers shares.items }
    ensures accounts { length result ≡ N.book.accounts }
    ensures sums { (i : ℕ) → i < length result → IsSumOf (row_at result i) i till shares.items }
{
    match gather(book, till, shares) {
        Ok(statement) => statement,
        Err(_refused) => unreachable!(),
    }
}

/// Joins the ends of the rings. What is left of the binds is given without them.
fn join_ends<N: LogName, W: Write + Drop>(
    remains: BindRemains<N, W>,
    consumers: Vec<Consumer<Reply>>,
    buffers: RingEnds,
) -> BindRemains<N, W>
    requires rings { AllZip IsPair (flat (map (λ d. d.producers.items) remains.readers.items)) consumers.items }
    requires producers { IsFree (length (flat (map (λ d. d.producers.items) remains.readers.items))) buffers.producers }
    requires bare { IsFree (length remains.readers.items) buffers.readers }
    ensures received { AllZip HasReceived (flat (map (λ d. d.producers.items) remains.readers.items)) consumers.items }
    ensures shared_binds { result.shared_binds ≡ remains.shared_binds }
    ensures readers { map (λ d. d.seat.window) result.readers.items ≡ map (λ d. d.seat.window) remains.readers.items }
    ensures outcomes { map outcome_of result.readers.items ≡ map outcome_of remains.readers.items }
    ensures driver_seats { result.driver_seats ≡ remains.driver_seats }
    ensures workers { result.workers ≡ remains.workers }
{
    let BindRemains {
        shared_binds,
        readers,
        driver_seats,
        workers,
    } = remains;
    let RingEnds { producers, readers } = take_rings(readers, buffers);
    received_are_prefixes(producers, consumers);
    BindRemains {
        shared_binds,
        readers,
        driver_seats,
        workers,
    }
}

/// What a run gives back: in order what each worker gave back, and bind by bind the readers' ends and
/// the driver's seats.
#[derive(Drop)]
pub(crate) struct RunOutput<N: BookName + LogName> {
    pub done: Vec<WorkerEnd<N>>,
    pub readers: Vec<ReaderEnd>,
    pub driver_seats: Vec<DriverSeat<N>>,
}

/// Closes the binds' windows. Gives the messages' ends in the order of the messages, the statement, and
/// the binds' ends.
pub(crate) fn conclude<N: BookName + LogName, W: Write + Drop>(
    book: Book<N>,
    till: Till<N, Sealed>,
    log: LogKeeper<N>,
    count: usize,
    output: RunOutput<N>,
    shared_binds: Vec<SharedBind<N, W>>,
    workers: usize,
    buffers: Buffers<N>,
) -> Sending
    requires buffers { AreBuffersFor count (length output.done.items) (length shared_binds.items) buffers }
    requires some { 0 < length output.done.items }
    requires dealt { (es : List MessageEnd) × (length es ≡ count) × (map (λ d. d.ends.items) output.done.items ≡ dealt (length output.done.items) 0 es) }
    requires shares { AreAll N.book.workers (map (λ d. d.shares) output.done.items) }
    requires output { IsOfBinds shared_binds.items workers output }
    requires log { (log.away ≡ length output.done.items + 2 * length shared_binds.items) × (log.requests ≡ []) × (log.given ≡ []) }
    ensures ends { (es : List MessageEnd) → length es ≡ count → map (λ d. d.ends.items) output.done.items ≡ dealt (length output.done.items) 0 es → result.ends.items ≡ es }
    ensures concluded { IsConcluded N.book N.settings till (length shared_binds.items) workers output result }
{
    let RunOutput {
        done,
        readers,
        driver_seats,
    } = output;
    let Buffers {
        parts,
        ring_ends,
        bind_ends,
        message_ends,
    } = buffers;
    let mut log = log;
    let apart = take_apart(&mut log, done, parts);
    let Parts {
        shares,
        ends,
        seats,
        consumers,
        causes,
        reasons,
    } = apart;
    let remains = BindRemains {
        shared_binds,
        readers,
        driver_seats,
        workers,
    };
    let joined = join_ends(remains, consumers, ring_ends);
    let binds = close_all(&mut log, joined, seats, causes, bind_ends);
    let statement = settle(book, till, shares);
    Sending {
        ends: merged(ends, count, message_ends),
        statement,
        binds,
        reasons,
        log: log.settle(),
    }
}
