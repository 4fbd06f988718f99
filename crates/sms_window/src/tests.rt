//! Windows as they are used: what each call answers, by one thread.

ghost use Rattle.std.specs.Prelude.{◌≡◌, All};

use crate::{Claim, Draw, Window, WindowError, WindowSeat};
use std::alloc::Global;
use std::fmt::Debug;
use std::process::Abort;

mod threads;

// Both are the same. A test that compares by a call has a short proof: what is printed where they
// differ stands here alone.
fn same<T: PartialEq + Debug + Drop>(rt: &impl Abort, got: T, wanted: T) {
    assert_eq!(rt; got, wanted);
}

// A new seat of the window.
fn seat_of(rt: &impl Abort, window: &Window, keeper: &mut WindowSeat) -> WindowSeat
    requires same_window { keeper.old.window ≡ window.now }
    ensures window { (keeper.new.window ≡ keeper.old.window) × (result.window ≡ keeper.old.window) }
{
    let can_split = keeper.can_split();
    assert!(rt; can_split);
    window.split(keeper)
}

// A claim answers this.
fn claim(rt: &impl Abort, window: &Window, seat: &mut WindowSeat, wanted: Claim)
    requires same_window { seat.old.window ≡ window.now }
    ensures window { seat.new.window ≡ seat.old.window }
{
    let claim = window.try_claim(seat);
    same(rt, claim, wanted);
}

// Claims, and wants the slot.
fn claim_slot(rt: &impl Abort, window: &Window, seat: &mut WindowSeat, wanted: u32)
    requires same_window { seat.old.window ≡ window.now }
    ensures window { seat.new.window ≡ seat.old.window }
{
    claim(rt, window, seat, Claim::Got(wanted));
}

// A draw answers this.
fn draw(rt: &impl Abort, window: &Window, seat: &mut WindowSeat, wanted: Draw)
    requires same_window { seat.old.window ≡ window.now }
    ensures window { seat.new.window ≡ seat.old.window }
{
    let draw = window.try_draw(seat);
    same(rt, draw, wanted);
}

// Claims the slots from 0 to below `count`, and wants them in turn.
fn claim_all(rt: &impl Abort, window: &Window, seat: &mut WindowSeat, count: u32)
    requires same_window { seat.old.window ≡ window.now }
    ensures window { seat.new.window ≡ seat.old.window }
{
    for slot in 0..count {
        claim_slot(rt, window, seat, slot);
    }
}

// Releases a slot that the seat has to hold.
fn release_slot(rt: &impl Abort, window: &Window, seat: &mut WindowSeat, slot: u32)
    requires same_window { seat.old.window ≡ window.now }
    ensures window { seat.new.window ≡ seat.old.window }
{
    let holds = seat.holds(slot);
    assert!(rt; holds);
    window.release(seat, slot);
}

// Whether the seat can give a name on.
fn want_split(rt: &impl Abort, seat: &WindowSeat, wanted: bool) {
    same(rt, seat.can_split(), wanted);
}

// Whether the seat holds the slot.
fn want_held(rt: &impl Abort, seat: &WindowSeat, slot: u32, wanted: bool) {
    same(rt, (slot, seat.holds(slot)), (slot, wanted));
}

fn window_of(rt: &impl Abort, alloc: Global, limit: u32, first: u32) -> (Window, WindowSeat)
    ensures { result.1.window ≡ result.0 }
{
    let Ok(made) = Window::make_from(alloc, limit, first) else {
        panic!(rt; "no window")
    };
    made
}

// A window whose first number is said by no one.
fn plain_window(rt: &impl Abort, alloc: Global, limit: u32) -> (Window, WindowSeat)
    ensures { result.1.window ≡ result.0 }
{
    let Ok(made) = Window::make(alloc, limit) else {
        panic!(rt; "no window")
    };
    made
}

// What a window ends with: the slots that are held, and the number that comes next.
fn want_closed(rt: &impl Abort, window: Window, seat: WindowSeat, held: u64, next: u64)
    requires { seat.window ≡ window }
{
    let closed = window.close(seat);
    same(rt, (closed.held, closed.next), (held, next));
}

// One more seat of the window, kept with the others.
fn keep(rt: &impl Abort, window: &Window, seats: &mut Vec<WindowSeat>, seat: WindowSeat)
    requires seat { seat.window ≡ window.now }
    requires seats { All (λ s. s.window ≡ window.now) seats.old.items }
    ensures seats { All (λ s. s.window ≡ window.now) seats.new.items }
{
    let Ok(()) = seats.push(seat) else {
        panic!(rt; "no memory")
    };
}

// Up to `count` new seats.
fn seats_of(
    rt: &impl Abort,
    alloc: Global,
    window: &Window,
    keeper: &mut WindowSeat,
    count: usize,
) -> Vec<WindowSeat>
    requires same_window { keeper.old.window ≡ window.now }
    ensures window { keeper.new.window ≡ keeper.old.window }
    ensures seats { All (λ s. s.window ≡ window.now) result.items }
{
    let mut seats = Vec::new(alloc);
    for _ in 0..count {
        if keeper.can_split() {
            let seat = window.split(keeper);
            keep(rt, window, &mut seats, seat);
        }
    }
    seats
}

// There is no window of this limit and first number, and this is why.
fn want_refusal(rt: &impl Abort, alloc: Global, limit: u32, first: u32, wanted: WindowError) {
    let Err(fault) = Window::make_from(alloc, limit, first) else {
        panic!(rt; "a window")
    };
    same(rt, (limit, first, fault), (limit, first, wanted));
}

// There is no window of this limit, and this is why.
fn want_limit_refusal(rt: &impl Abort, alloc: Global, limit: u32, wanted: WindowError) {
    let Err(fault) = Window::make(alloc, limit) else {
        panic!(rt; "a window")
    };
    same(rt, fault, wanted);
}

// Limits and first numbers that are refused.
const REFUSED: [(u32, u32, WindowError); 5] = [
    (0, 1, WindowError::BadLimit),
    (65, 1, WindowError::BadLimit),
    (65, 0, WindowError::BadLimit),
    (1, 0, WindowError::BadFirst),
    (1, 0x8000_0000, WindowError::BadFirst),
];

#[test]
fn refuses_bad_windows(rt: HostRuntime) {
    for (limit, first, wanted) in &REFUSED {
        want_refusal(&rt, rt.alloc(), *limit, *first, *wanted);
    }
    want_limit_refusal(&rt, rt.alloc(), 0, WindowError::BadLimit);
    want_limit_refusal(&rt, rt.alloc(), 65, WindowError::BadLimit);
}

#[test]
fn one_slot_by_turns(rt: HostRuntime) {
    let (window, mut keeper) = plain_window(&rt, rt.alloc(), 1);
    let mut a = seat_of(&rt, &window, &mut keeper);
    let mut b = seat_of(&rt, &window, &mut keeper);
    claim_slot(&rt, &window, &mut a, 0);
    claim(&rt, &window, &mut b, Claim::Full);
    release_slot(&rt, &window, &mut a, 0);
    claim_slot(&rt, &window, &mut b, 0);
    release_slot(&rt, &window, &mut b, 0);
    window.join(&mut keeper, a);
    window.join(&mut keeper, b);
    want_closed(&rt, window, keeper, 0xFFFF_FFFF_FFFF_FFFE, 1);
}

#[test]
fn sixty_four_slots(rt: HostRuntime) {
    let (window, mut keeper) = window_of(&rt, rt.alloc(), 64, 1);
    let mut a = seat_of(&rt, &window, &mut keeper);
    let mut b = seat_of(&rt, &window, &mut keeper);
    claim_slot(&rt, &window, &mut a, 0);
    claim_slot(&rt, &window, &mut b, 1);
    release_slot(&rt, &window, &mut a, 0);
    release_slot(&rt, &window, &mut b, 1);
    window.join(&mut keeper, a);
    window.join(&mut keeper, b);
    want_closed(&rt, window, keeper, 0, 1);
}

#[test]
fn all_sixty_four_held(rt: HostRuntime) {
    let (window, mut keeper) = plain_window(&rt, rt.alloc(), 64);
    let mut a = seat_of(&rt, &window, &mut keeper);
    claim_all(&rt, &window, &mut a, 64);
    claim(&rt, &window, &mut keeper, Claim::Full);
    release_slot(&rt, &window, &mut a, 63);
    release_slot(&rt, &window, &mut a, 40);
    claim_slot(&rt, &window, &mut keeper, 40);
    claim_slot(&rt, &window, &mut keeper, 63);
    window.join(&mut keeper, a);
    want_closed(&rt, window, keeper, 0xFFFF_FFFF_FFFF_FFFF, 1);
}

#[test]
fn two_slots_for_three_seats(rt: HostRuntime) {
    let (window, mut keeper) = window_of(&rt, rt.alloc(), 2, 1);
    let mut a = seat_of(&rt, &window, &mut keeper);
    let mut b = seat_of(&rt, &window, &mut keeper);
    let mut c = seat_of(&rt, &window, &mut keeper);
    claim_slot(&rt, &window, &mut a, 0);
    claim_slot(&rt, &window, &mut b, 1);
    claim(&rt, &window, &mut c, Claim::Full);
    release_slot(&rt, &window, &mut a, 0);
    claim_slot(&rt, &window, &mut c, 0);
    release_slot(&rt, &window, &mut c, 0);
    release_slot(&rt, &window, &mut b, 1);
    window.join(&mut keeper, c);
    window.join(&mut keeper, b);
    window.join(&mut keeper, a);
    want_closed(&rt, window, keeper, 0xFFFF_FFFF_FFFF_FFFC, 1);
}

#[test]
fn a_dropped_seat_keeps_its_slot(rt: HostRuntime) {
    let (window, mut keeper) = window_of(&rt, rt.alloc(), 1, 1);
    let mut a = seat_of(&rt, &window, &mut keeper);
    claim_slot(&rt, &window, &mut a, 0);
    drop(a);
    want_closed(&rt, window, keeper, 0xFFFF_FFFF_FFFF_FFFF, 1);
}

// A seat that took another in has its slots and names, and can give these on. It needn't be the
// keeper's.
#[test]
fn names_and_slots_go_on(rt: HostRuntime) {
    let (window, mut keeper) = window_of(&rt, rt.alloc(), 2, 1);
    let mut a = seat_of(&rt, &window, &mut keeper);
    let mut b = seat_of(&rt, &window, &mut keeper);
    claim_slot(&rt, &window, &mut b, 0);
    draw(&rt, &window, &mut b, Draw::Number(1));
    want_split(&rt, &a, false);
    window.join(&mut a, b);
    want_held(&rt, &a, 0, true);
    let c = seat_of(&rt, &window, &mut a);
    want_split(&rt, &a, false);
    want_split(&rt, &c, false);
    want_held(&rt, &a, 0, true);
    want_held(&rt, &c, 0, false);
    release_slot(&rt, &window, &mut a, 0);
    window.join(&mut a, c);
    want_split(&rt, &a, true);
    window.join(&mut keeper, a);
    want_closed(&rt, window, keeper, 0xFFFF_FFFF_FFFF_FFFC, 2);
}

// The words are told whichever seat is handed in, with the slots and numbers of the others.
#[test]
fn closed_with_another_seat(rt: HostRuntime) {
    let (window, mut keeper) = window_of(&rt, rt.alloc(), 3, 1);
    let mut a = seat_of(&rt, &window, &mut keeper);
    let mut b = seat_of(&rt, &window, &mut keeper);
    claim_slot(&rt, &window, &mut a, 0);
    claim_slot(&rt, &window, &mut b, 1);
    draw(&rt, &window, &mut b, Draw::Number(1));
    want_closed(&rt, window, a, 0xFFFF_FFFF_FFFF_FFFB, 2);
}

#[test]
fn numbers_by_turns(rt: HostRuntime) {
    let (window, mut keeper) = window_of(&rt, rt.alloc(), 2, 7);
    let mut a = seat_of(&rt, &window, &mut keeper);
    draw(&rt, &window, &mut keeper, Draw::Number(7));
    draw(&rt, &window, &mut a, Draw::Number(8));
    draw(&rt, &window, &mut keeper, Draw::Number(9));
    drop(a);
    want_closed(&rt, window, keeper, 0xFFFF_FFFF_FFFF_FFFC, 10);
}

#[test]
fn the_last_number(rt: HostRuntime) {
    let (window, mut keeper) = window_of(&rt, rt.alloc(), 64, 0x7FFF_FFFF);
    draw(&rt, &window, &mut keeper, Draw::Number(2147483647));
    draw(&rt, &window, &mut keeper, Draw::UsedUp);
    want_closed(&rt, window, keeper, 0, 2147483648);
}

// Slots, and whether the keeper of a window of two slots holds them.
const HELD_OF_TWO: [(u32, bool); 6] = [
    (0, false),
    (1, false),
    (2, true),
    (63, true),
    (64, false),
    (u32::MAX, false),
];

// None of the seats can give a name on.
fn want_none_split(rt: &impl Abort, seats: &[WindowSeat]) {
    for seat in seats {
        want_split(rt, seat, false);
    }
}

// The keeper holds the slots from the limit on, and no seat one from 64 on. Each of the 64 names
// but the keeper's own is given once.
#[test]
fn slots_and_names(rt: HostRuntime) {
    let (window, mut keeper) = window_of(&rt, rt.alloc(), 2, 1);
    for (slot, wanted) in &HELD_OF_TWO {
        want_held(&rt, &keeper, *slot, *wanted);
    }
    let seats = seats_of(&rt, rt.alloc(), &window, &mut keeper, 64);
    same(&rt, seats.len(), 63);
    want_split(&rt, &keeper, false);
    want_none_split(&rt, seats.as_slice());
}
