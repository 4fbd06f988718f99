//! What each worker is given.

ghost use Rattle.std.specs.Prelude.{◌≡◌, ◌≤◌, ℕ, List, length, map, IfOk};
ghost use Rattle.std.specs.List.{AllByRecursion};
ghost use Rattle.sms_driver.specs.Seated.{placement_at, placement_of, CountFrom};
ghost use Rattle.sms_driver.specs.Threads.{IsPrepared};

use rtrb::Consumer;
use sms_bind::{Line, LogName, Requests};
use sms_book::{BookName, Shares};
use sms_pdu::Reply;
use sms_window::{Window, WindowSeat};
use sms_worker::{Message, ReadyWorker, Rules, Worker};
use std::alloc::{AllocError, Global};
use std::collections::VecDeque;
use std::io::Write;

/// A worker with its messages and all memory that its call begins with, and the bind that it works at.
#[derive(Drop)]
pub struct WorkerTask<'a, N: BookName + LogName, W: Write> {
    pub assignment: ReadyWorker<N>,
    pub line: &'a Line<N, W>,
    pub window: &'a Window,
}

/// A worker's place at a bind.
#[derive(Drop)]
pub struct WorkerPlace<'a, N: LogName, W: Write> {
    pub seat: WindowSeat,
    pub place: usize,
    pub consumer: Consumer<Reply>,
    pub line: &'a Line<N, W>,
    pub window: &'a Window,
}

fn make_task<'a, N: BookName + LogName, W: Write>(
    alloc: Global,
    place: WorkerPlace<'a, N, W>,
    index: usize,
    shares: Shares<N>,
    requests: Requests<N>,
    messages: Vec<Message>,
    rules: &Rules,
) -> Result<WorkerTask<'a, N, W>, AllocError>
    ensures shares { IfOk result (λ t. t.assignment.worker.shares ≡ shares) }
    ensures requests { IfOk result (λ t. t.assignment.worker.requests ≡ requests) }
    ensures messages { IfOk result (λ t. t.assignment.messages ≡ messages.items) }
    ensures index { IfOk result (λ t. t.assignment.worker.index ≡ index) }
    ensures place { IfOk result (λ t. t.assignment.worker.place ≡ place.entry.place) }
    ensures ring { IfOk result (λ t. t.assignment.worker.consumer ≡ place.entry.consumer) }
    ensures seat { IfOk result (λ t. t.assignment.worker.seat ≡ place.entry.seat) }
    ensures placements { IfOk result (λ t. placement_of t ≡ placement_at place.entry) }
    ensures window { IfOk result (λ t. t.window.now ≡ place.entry.window.now) }
    ensures room { IfOk result (λ t. rules.now.depth ≤ t.assignment.room) }
{
    let WorkerPlace {
        seat,
        place,
        consumer,
        line,
        window,
    } = place;
    let worker = Worker {
        index,
        place,
        seat,
        shares,
        consumer,
        requests,
    };
    match ReadyWorker::new(alloc, worker, messages, rules) {
        Ok(assignment) => Ok(WorkerTask {
            assignment,
            line,
            window,
        }),
        Err(_refused) => Err(AllocError),
    }
}

/// Each place gets a share and a batch of messages, and all memory that its worker's call by these
/// rules begins with.
pub fn tasks<'a, N: BookName + LogName, W: Write>(
    alloc: Global,
    places: Vec<WorkerPlace<'a, N, W>>,
    shares: Vec<Shares<N>>,
    requests: Vec<Requests<N>>,
    batches: Vec<Vec<Message>>,
    rules: &Rules,
) -> Result<Vec<WorkerTask<'a, N, W>>, AllocError>
    requires places { length places.items ≡ length shares.items }
    requires requests { length requests.items ≡ length shares.items }
    requires batches { length batches.items ≡ length shares.items }
    requires same_window { AllByRecursion (λ p. p.seat.window ≡ p.window.now) places.items }
    ensures shares { IfOk result (λ v. map (λ t. t.assignment.worker.shares) v.items ≡ shares.items) }
    ensures requests { IfOk result (λ v. map (λ t. t.assignment.worker.requests) v.items ≡ requests.items) }
    ensures messages { IfOk result (λ v. map (λ t. t.assignment.messages) v.items ≡ map (λ l. l.items) batches.items) }
    ensures windows { IfOk result (λ v. map (λ t. t.assignment.worker.seat.window) v.items ≡ map (λ p. p.seat.window) places.entry.items) }
    ensures rings { IfOk result (λ v. map (λ t. t.assignment.worker.consumer) v.items ≡ map (λ p. p.consumer) places.entry.items) }
    ensures same_window { IfOk result (λ v. AllByRecursion (IsPrepared rules.now) v.items) }
    ensures placements { IfOk result (λ v. map placement_of v.items ≡ map placement_at places.entry.items) }
    // A worker's index is its place among all.
    ensures indexes { IfOk result (λ v. CountFrom 0 (map (λ t. t.assignment.worker.index) v.items)) }
{
    let mut tasks = Vec::with_capacity(alloc, shares.len())?;
    let mut places = VecDeque::from(places);
    let mut requests = VecDeque::from(requests);
    let mut batches = VecDeque::from(batches);
    for share in shares {
        let (Some(place), Some(theirs), Some(messages)) = (
            places.pop_front(),
            requests.pop_front(),
            batches.pop_front(),
        ) else {
            unreachable!()
        };
        let index = tasks.len();
        let task = make_task(alloc, place, index, share, theirs, messages, rules)?;
        tasks.push_reserved(task);
    }
    Ok(tasks)
}
