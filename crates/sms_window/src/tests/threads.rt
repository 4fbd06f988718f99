//! A window that threads share: no number is lost, and none comes twice.

ghost use Rattle.std.specs.Prelude.{◌≡◌, ◌+◌, ◌^◌, [], ◌∷◌, ◌++◌, All, IfSome, IfNone};
ghost use Rattle.sms_window.specs.Seats.{Holds, met_with, with_slots};

use super::{plain_window, same, seat_of, seats_of, want_closed};
use crate::{Claim, Draw, Window, WindowSeat};
use std::alloc::Global;
use std::process::Abort;
use std::snapshot::Snapshot;
use std::sync::Wait;
use std::sync::atomic::{AtomicBool, Ordering};
use std::thread;
use std::thread::{Promise, Threads};

const TRIES: u32 = 10_000_000;

// Tries until it has a slot.
fn claim_some(window: &Window, seat: &mut WindowSeat) -> Option<u32>
    requires same_window { seat.old.window ≡ window.now }
    ensures window { seat.new.window ≡ seat.old.window }
    ensures some { IfSome result (λ slot. Holds seat.new.view slot × (seat.new.view ≡ with_slots seat.old.view (seat.old.view.slots + 2 ^ slot) seat.new.view.met)) }
    ensures none { IfNone result (seat.new.view ≡ met_with seat.old.view seat.new.view.met) }
{
    for _ in 0..TRIES {
        if let Claim::Got(slot) = window.try_claim(seat) {
            return Some(slot);
        }
    }
    None
}

// Tries until it has a number.
fn draw_some(window: &Window, seat: &mut WindowSeat) -> Option<u32>
    requires same_window { seat.old.window ≡ window.now }
    ensures window { seat.new.window ≡ seat.old.window }
    ensures slots { seat.new.view.slots ≡ seat.old.view.slots }
    ensures some { IfSome result (λ n. seat.new.view.numbers ≡ seat.old.view.numbers ++ n ∷ []) }
    ensures none { IfNone result (seat.new.view.numbers ≡ seat.old.view.numbers) }
{
    for _ in 0..TRIES {
        if let Draw::Number(n) = window.try_draw(seat) {
            return Some(n);
        }
    }
    None
}

// A seat of the window, and the numbers that it drew.
type Worked = (WindowSeat, Vec<u32>);

// Claims a slot, draws a number and releases the slot, `rounds` times. The list has room for all of
// them, so that no number is lost.
fn work(window: &Window, mut seat: WindowSeat, mut numbers: Vec<u32>, rounds: u32) -> Worked
    requires same_window { seat.window ≡ window.now }
    ensures window { result.0.window ≡ seat.window }
{
    for _ in 0..rounds {
        if let Some(slot) = claim_some(window, &mut seat) {
            if let Some(number) = draw_some(window, &mut seat) {
                let _kept = numbers.push(number);
            }
            window.release(&mut seat, slot);
        }
    }
    (seat, numbers)
}

// A promise that the seat which a thread hands back is of this window.
#[derive(Drop)]
struct SeatOf(Snapshot<Window>);

impl Promise<Worked> for SeatOf {
    ghost kept_by = { λ p r. r.0.window ≡ p.0.value };
}

// What a call gives where it can be had.
fn had<T: Drop, E: Drop>(rt: &impl Abort, got: Result<T, E>) -> T
    ensures { got ≡ Ok result }
{
    let Ok(it) = got else {
        panic!(rt; "it can't be had")
    };
    it
}

// A list with room for the numbers of as many rounds.
fn room_for(rt: &impl Abort, alloc: Global, rounds: u32) -> Vec<u32> {
    let Ok(numbers) = Vec::with_capacity(alloc, rounds as usize) else {
        panic!(rt; "no memory")
    };
    numbers
}

// Each seat works in a thread of its own.
fn work_in_threads<R: Abort + Threads + Wait + Sync>(
    rt: &R,
    alloc: Global,
    window: &Window,
    seats: Vec<WindowSeat>,
    rounds: u32,
) -> Vec<Worked>
    requires { All (λ s. s.window ≡ window.now) seats.items }
    ensures { All (λ w. w.0.window ≡ window.now) result.items }
{
    thread::scope(
        thread::scope_env(),
        rt,
        |scope| -> Vec<Worked>
            requires { All (λ s. s.window ≡ window.now) seats.items }
            ensures { All (λ w. w.0.window ≡ window.entry.now) result.items }
        {
            let mut handles = Vec::new(alloc);
            let mut seats = seats;
            while let Some(seat) = seats.pop() {
                let numbers = room_for(rt, alloc, rounds);
                let handle = had(
                    rt,
                    scope.spawn_with(
                        SeatOf(Snapshot::of(window)),
                        move || -> Worked
                            requires { seat.window ≡ window.now }
                            ensures { result.0.window ≡ window.entry.now }
                        { work(window, seat, numbers, rounds) },
                    ),
                );
                had(rt, handles.push(handle));
            }
            had(rt, thread::join_promised(rt, handles))
        },
    )
}

// These numbers with the others.
fn add_numbers(rt: &impl Abort, all: &mut Vec<u32>, numbers: Vec<u32>) {
    let Ok(()) = all.extend_from_slice(&numbers) else {
        panic!(rt; "no memory")
    };
}

// All numbers that were drawn, once the seats are joined.
fn join_all(
    rt: &impl Abort,
    alloc: Global,
    window: &Window,
    keeper: &mut WindowSeat,
    mut worked: Vec<Worked>,
) -> Vec<u32>
    requires same_window { keeper.old.window ≡ window.now }
    requires seats { All (λ w. w.0.window ≡ window.now) worked.items }
    ensures window { keeper.new.window ≡ keeper.old.window }
{
    let mut all = Vec::new(alloc);
    while let Some((seat, numbers)) = worked.pop() {
        window.join(keeper, seat);
        add_numbers(rt, &mut all, numbers);
    }
    all
}

// Sorted, the numbers are 1 to their count, and so many; gives the one that comes next.
fn want_all_numbers(rt: &impl Abort, mut numbers: Vec<u32>, count: usize) -> u32 {
    let Ok(()) = numbers.sort() else {
        panic!(rt; "no memory")
    };
    let mut next = 1u32;
    for number in &numbers {
        same(rt, (count, *number), (count, next));
        next = next.wrapping_add(1);
    }
    same(rt, numbers.len(), count);
    next
}

// So many threads work on a window of this limit; at its end these slots are held.
fn want_each_once<R: Abort + Threads + Wait + Sync>(
    rt: &R,
    alloc: Global,
    (limit, threads, rounds, held): (u32, usize, u32, u64),
) {
    let (window, mut keeper) = plain_window(rt, alloc, limit);
    let seats = seats_of(rt, alloc, &window, &mut keeper, threads);
    let worked = work_in_threads(rt, alloc, &window, seats, rounds);
    let numbers = join_all(rt, alloc, &window, &mut keeper, worked);
    let count = threads.wrapping_mul(rounds as usize);
    let next = want_all_numbers(rt, numbers, count);
    want_closed(rt, window, keeper, held, u64::from(next));
}

// The limit, the threads, their rounds, and the slots that are held at the end.
const SHARED: [(u32, usize, u32, u64); 4] = [
    (2, 2, 1_000, 0xFFFF_FFFF_FFFF_FFFC),
    (2, 4, 500, 0xFFFF_FFFF_FFFF_FFFC),
    (2, 8, 250, 0xFFFF_FFFF_FFFF_FFFC),
    (1, 2, 10_000, 0xFFFF_FFFF_FFFF_FFFE),
];

#[test]
fn each_number_once(rt: HostRuntime) {
    for case in &SHARED {
        want_each_once(&rt, rt.alloc(), *case);
    }
}

// A seat, and whether a claim and a draw of it were contended.
type Contended = (WindowSeat, bool, bool);

// Claims, releases and draws until a claim and a draw were contended, or another is done.
fn contend(window: &Window, mut seat: WindowSeat, done: &AtomicBool) -> Contended
    requires same_window { seat.window ≡ window.now }
    ensures window { result.0.window ≡ seat.window }
{
    let mut claim_met = false;
    let mut draw_met = false;
    for _ in 0..TRIES {
        if done.load(Ordering::SeqCst) {
            return (seat, claim_met, draw_met);
        }
        match window.try_claim(&mut seat) {
            Claim::Got(slot) => window.release(&mut seat, slot),
            Claim::Full => {}
            Claim::Contended(_) => claim_met = true,
        }
        if let Draw::Contended(_) = window.try_draw(&mut seat) {
            draw_met = true;
        }
        if claim_met && draw_met {
            done.store(true, Ordering::SeqCst);
        }
    }
    (seat, claim_met, draw_met)
}

// Two threads contend on the window, each with a seat of its own.
fn contend_in_threads<R: Threads + Wait + Sync>(
    rt: &R,
    window: &Window,
    a: WindowSeat,
    b: WindowSeat,
) -> (Contended, Contended)
    requires { (a.window ≡ window.now) × (b.window ≡ window.now) }
    ensures { (result.0.0.window ≡ window.now) × (result.1.0.window ≡ window.now) }
{
    let done = AtomicBool::new(false);
    thread::join(
        rt,
        || -> Contended
            requires { a.window ≡ window.now }
            ensures { result.0.window ≡ window.entry.now }
        { contend(window, a, &done) },
        || -> Contended
            requires { b.window ≡ window.now }
            ensures { result.0.window ≡ window.entry.now }
        { contend(window, b, &done) },
    )
}

// A claim of one of the two was contended, and a draw of one of them.
fn want_contended(rt: &impl Abort, claims: (bool, bool), draws: (bool, bool)) {
    assert!(rt; claims.0 || claims.1, "no claim was contended");
    assert!(rt; draws.0 || draws.1, "no draw was contended");
}

// What a window of two slots ends with.
fn want_no_slot_held(rt: &impl Abort, window: Window, seat: WindowSeat)
    requires { seat.window ≡ window }
{
    let closed = window.close(seat);
    same(rt, closed.held, 0xFFFF_FFFF_FFFF_FFFC);
}

#[test]
fn claims_and_draws_contend(rt: HostRuntime) {
    let (window, mut keeper) = plain_window(&rt, rt.alloc(), 2);
    let a = seat_of(&rt, &window, &mut keeper);
    let b = seat_of(&rt, &window, &mut keeper);
    let (first, second) = contend_in_threads(&rt, &window, a, b);
    want_contended(&rt, (first.1, second.1), (first.2, second.2));
    window.join(&mut keeper, first.0);
    window.join(&mut keeper, second.0);
    want_no_slot_held(&rt, window, keeper);
}
