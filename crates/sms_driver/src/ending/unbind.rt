//! Unbinds the binds, and waits for their ends (SMPP 3.4 4.2).

ghost use Rattle.std.specs.Prelude.{◌≡◌, ◌++◌, ◌<◌, Err, IfErr, IfOk, IsOk, OnOk, map, length};
ghost use Rattle.std.specs.Bool.{OnFalse, OnTrue};
ghost use Rattle.std.specs.List.{AllByRecursion};
ghost use Rattle.sms_driver.specs.Unbinds.{handed_in, AreDone, Asks, AsksAt, AsksEach, HasAsked, HasTried, IsDone, IsOfMark, IsOneSent, IsSent};

use crate::binding::binds::{Binds, DriverSeat, SharedBind};
use crate::ending::skipped::{SkipReason, down_now, hand_over, number_for, unbind_frame};
use crate::ending::unbind_result::UnbindResult;
use crate::threads::WorkerResult;
use sms_bind::{LogName, Requests};
use sms_book::BookName;
use sms_window::WindowSeat;
use sms_worker::{Clock, Pause, Rules};
use std::alloc::Global;
use std::io::Write;
use std::sync::Wait;
use std::sync::atomic::Ordering;

/// Writes an unbind. It is skipped if the bind is down, no number can be drawn, memory runs out, or an
/// earlier write failed.
fn ask<N: LogName, W: Write, R: Wait>(
    rt: &R,
    alloc: Global,
    shared: &SharedBind<N, W>,
    seat: &mut WindowSeat,
    requests: &mut Requests<N>,
) -> UnbindResult
    requires same_window { seat.old.window ≡ shared.now.window }
    ensures window { seat.new.window ≡ seat.old.window }
    ensures asked { HasAsked seat.old.view result seat.new.view }
    ensures handed { requests.new ≡ requests.old ++ handed_in result }
    ensures down { IsOfMark shared.now.line.down result }
{
    if let Some(was) = down_now(&shared.line) {
        return UnbindResult::Skipped(SkipReason::Down(was));
    }
    let number = match number_for(&shared.window, seat) {
        Ok(number) => number,
        Err(why) => return UnbindResult::Skipped(why),
    };
    match unbind_frame(alloc, number) {
        Ok(frame) => hand_over(&mut shared.line.wire.lock(rt), requests, number, frame),
        Err(no) => UnbindResult::Skipped(SkipReason::OutOfMemory(no)),
    }
}

/// Writes an unbind, and stores its result.
fn unbind<N: LogName, W: Write, R: Wait>(
    rt: &R,
    alloc: Global,
    shared: &SharedBind<N, W>,
    driver_seat: &mut DriverSeat<N>,
)
    requires same_window { driver_seat.old.seat.window ≡ shared.now.window }
    ensures window { driver_seat.new.seat.window ≡ driver_seat.old.seat.window }
    ensures asked { Asks driver_seat.old driver_seat.new }
{
    let DriverSeat {
        seat,
        requests,
        unbind_result,
    } = driver_seat;
    *unbind_result = ask(rt, alloc, shared, seat, requests);
}

/// Writes an unbind to the bind at this place, and stores its result.
fn unbind_at<N: LogName, W: Write, R: Wait>(
    rt: &R,
    alloc: Global,
    shared_binds: &[SharedBind<N, W>],
    driver_seats: &mut Vec<DriverSeat<N>>,
    bind: usize,
)
    requires exists { bind < length shared_binds.now }
    requires driver_seats { map (λ s. s.seat.window) driver_seats.old.items ≡ map (λ b. b.window) shared_binds.now }
    ensures driver_seats { map (λ s. s.seat.window) driver_seats.new.items ≡ map (λ s. s.seat.window) driver_seats.old.items }
    ensures asked { AsksAt bind driver_seats.old.items driver_seats.new.items }
{
    let driver_seat = &mut driver_seats[bind];
    unbind(rt, alloc, &shared_binds[bind], driver_seat);
}

/// Writes an unbind to each bind.
pub fn unbind_all<N: LogName, W: Write, R: Wait>(
    rt: &R,
    alloc: Global,
    shared_binds: &[SharedBind<N, W>],
    driver_seats: &mut Vec<DriverSeat<N>>,
)
    requires driver_seats { map (λ s. s.seat.window) driver_seats.old.items ≡ map (λ b. b.window) shared_binds.now }
    ensures driver_seats { map (λ s. s.seat.window) driver_seats.new.items ≡ map (λ s. s.seat.window) driver_seats.old.items }
    // Once to each.
    ensures asked { AsksEach driver_seats.old.items driver_seats.new.items }
    ensures tried { AllByRecursion HasTried driver_seats.new.items }
{
    for bind in 0..shared_binds.len() {
        unbind_at(rt, alloc, shared_binds, driver_seats, bind);
    }
}

/// The binds, if all were made. If one failed, those that were made are unbound, and the result is its fault.
pub fn roll_back_if_failed<N: LogName, Rd: Drop, W: Write + Drop, F: Drop, R: Wait>(
    rt: &R,
    alloc: Global,
    binds: Binds<N, Rd, W>,
    made: Result<(), F>,
) -> Result<Binds<N, Rd, W>, F>
    requires driver_seats { map (λ s. s.seat.window) binds.driver_seats.items ≡ map (λ b. b.window) binds.shared_binds.items }
    ensures given { IfOk result (λ b. b ≡ binds) }
    ensures all { OnOk result (IsOk made) }
    ensures fault { IfErr result (λ fault. made ≡ Err fault) }
{
    let mut binds = binds;
    match made {
        Ok(()) => Ok(binds),
        Err(fault) => {
            unbind_all(
                rt,
                alloc,
                binds.shared_binds.as_slice(),
                &mut binds.driver_seats,
            );
            Err(fault)
        }
    }
}

/// Whether an answer to the unbind may still come: the unbind was written, and the line isn't down.
fn is_awaited<N: LogName, W: Write>(shared: &SharedBind<N, W>, driver_seat: &DriverSeat<N>) -> bool
    ensures sent { OnTrue result (IsSent driver_seat.now.unbind_result) }
    ensures none { OnFalse result (IsDone shared.now driver_seat.now) }
{
    match driver_seat.unbind_result {
        UnbindResult::Sent(_) => match shared.line.down.look() {
            Some(_down) => false,
            None => true,
        },
        UnbindResult::Idle | UnbindResult::Failed(_) | UnbindResult::Skipped(_) => false,
    }
}

/// Whether an answer to one of the unbinds may still come.
fn is_one_awaited<N: LogName, W: Write>(
    shared_binds: &[SharedBind<N, W>],
    driver_seats: &[DriverSeat<N>],
) -> bool
    requires length { length driver_seats.now ≡ length shared_binds.now }
    ensures sent { OnTrue result (IsOneSent driver_seats.now) }
    ensures none { OnFalse result (AreDone (length shared_binds.now) shared_binds.now driver_seats.now) }
{
    for place in 0..shared_binds.len() {
        if is_awaited(&shared_binds[place], &driver_seats[place]) {
            return true;
        }
    }
    false
}

/// Waits until no bind's answer is awaited; for all of them together, at most as long as for one.
fn wait_until_down<N: LogName, W: Write, K: Clock, P: Pause>(
    shared_binds: &[SharedBind<N, W>],
    driver_seats: &[DriverSeat<N>],
    rules: &Rules,
    clock: &K,
    pause: &P,
)
    // It begins after an unbind was tried at each bind.
    requires tried { AllByRecursion HasTried driver_seats.now }
    requires length { length driver_seats.now ≡ length shared_binds.now }
{
    let begun = clock.now_ms();
    for _turn in 0..rules.turns {
        if !is_one_awaited(shared_binds, driver_seats) {
            return;
        }
        if clock.now_ms().saturating_sub(begun) >= u64::from(rules.answer_ms) {
            return;
        }
        pause.pause(1);
    }
}

/// Makes each bind's reader stop at its next read.
fn stop_all<N: LogName, W: Write>(shared_binds: &[SharedBind<N, W>]) {
    for shared in shared_binds {
        shared.line.stop.store(true, Ordering::SeqCst);
    }
}

/// Evidence that the binds were unbound once this many workers had ended. Only `unbind_and_wait` makes it, which is
/// shown what they gave back.
#[derive(Drop)]
pub struct UnboundBehind {
    workers: usize,
}

/// Unbinds all binds once these workers have ended, waits once for the ends of their readers, and stops those that
/// still read.
pub fn unbind_and_wait<N: BookName + LogName, W: Write, K: Clock, P: Pause, R: Wait>(
    rt: &R,
    alloc: Global,
    worker_results: &[WorkerResult<N>],
    shared_binds: &[SharedBind<N, W>],
    driver_seats: &mut Vec<DriverSeat<N>>,
    rules: &Rules,
    clock: &K,
    pause: &P,
) -> UnboundBehind
    requires driver_seats { map (λ s. s.seat.window) driver_seats.old.items ≡ map (λ b. b.window) shared_binds.now }
    ensures driver_seats { map (λ s. s.seat.window) driver_seats.new.items ≡ map (λ s. s.seat.window) driver_seats.old.items }
    ensures asked { AsksEach driver_seats.old.items driver_seats.new.items }
    ensures tried { AllByRecursion HasTried driver_seats.new.items }
    ensures behind { result.workers ≡ length worker_results.now }
{
    unbind_all(rt, alloc, shared_binds, driver_seats);
    wait_until_down(shared_binds, driver_seats.as_slice(), rules, clock, pause);
    stop_all(shared_binds);
    UnboundBehind {
        workers: worker_results.len(),
    }
}
