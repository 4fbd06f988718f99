//! Fewer requests at once while the message centre throttles.

ghost use Rattle.std.specs.Prelude.{◌≡◌, ◌≤◌, None};
ghost use Rattle.sms_core.specs.Limits.{most_slots};

use super::reader::{bound_as, line_of, ring_of};
use super::{blank_log, same, source_of};
use sms_bind::{BlankLog, LogName, read_loop};
use sms_pdu::Mode;
use sms_window::{Claim, Window, WindowSeat};
use std::alloc::Global;
use std::marker::Brand;
use std::process::Abort;
use std::sync::Wait;
use std::test::Fail;

// Answers from 1 on with ESME_RTHROTTLED, and then with ESME_ROK.
fn answers(alloc: Global, throttled: u8, good: u8) -> Result<Vec<u8>, Fail> {
    let mut octets = Vec::new(alloc);
    for i in 0..throttled {
        let number = 1u8.wrapping_add(i);
        octets.extend_from_slice(&[0, 0, 0, 16, 0x80, 0, 0, 4, 0, 0, 0, 0x58, 0, 0, 0, number])?;
    }
    for i in 0..good {
        let number = 1u8.wrapping_add(throttled).wrapping_add(i);
        octets.extend_from_slice(&[0, 0, 0, 16, 0x80, 0, 0, 4, 0, 0, 0, 0, 0, 0, 0, number])?;
    }
    Ok(octets)
}

// After so many throttled answers and good ones these slots are held.
fn want_held<N: LogName, S: Abort + Wait>(
    rt: &S,
    alloc: Global,
    log: BlankLog,
    given: (u32, u8, u8),
    held: u64,
) -> Result<(), Fail>
    requires name { (log ≡ N.log) × (N.settings ≡ None) }
    requires limit { (1 ≤ given.0) × (given.0 ≤ most_slots) }
{
    let (limit, throttled, good) = given;
    let octets = answers(alloc, throttled, good)?;
    let (line, leave) = line_of::<N, S>(rt, alloc, log, 0, 34);
    let (producers, _consumer) = ring_of(alloc, 64)?;
    let Ok((window, seat)) = Window::make(alloc, limit) else {
        panic!(rt; "no window")
    };
    let bound = bound_as(rt, alloc, Mode::Transmitter);
    let mut reader = source_of(0, octets.as_slice(), false);
    let (end, _down) = read_loop(
        rt,
        alloc,
        &mut reader,
        bound,
        producers,
        &line,
        &window,
        seat,
        leave,
        Some(limit),
        10,
    );
    same(rt, end.answered, u64::from(throttled) + u64::from(good));
    same(rt, window.close(end.seat).held, held);
    Ok(())
}

// Throttled answers make the reader hold slots back, but for one; sixteen good ones in a row give one
// back.
#[test]
fn throttling_is_followed(rt: HostRuntime) -> Result<(), Fail> {
    let cases = [
        (2, 2, 15, 0xFFFF_FFFF_FFFF_FFFD),
        (2, 2, 16, 0xFFFF_FFFF_FFFF_FFFC),
        (4, 5, 0, 0xFFFF_FFFF_FFFF_FFF7),
        (3, 2, 32, 0xFFFF_FFFF_FFFF_FFF8),
        (1, 1, 0, 0xFFFF_FFFF_FFFF_FFFE),
    ];
    for (limit, throttled, good, held) in cases {
        let alloc = rt.alloc();
        let log = blank_log(&rt, alloc);
        want_held::<Brand, _>(&rt, alloc, log, (limit, throttled, good), held)?;
    }
    Ok(())
}

// The seat gets this slot.
fn claim(rt: &impl Abort, window: &Window, seat: &mut WindowSeat, slot: u32)
    requires same_window { seat.old.window ≡ window.now }
    ensures same_window { seat.new.window ≡ seat.old.window }
{
    same(rt, window.try_claim(seat), Claim::Got(slot));
}

// The seat holds this slot, and releases it.
fn release(rt: &impl Abort, window: &Window, seat: &mut WindowSeat, slot: u32)
    requires same_window { seat.old.window ≡ window.now }
    ensures same_window { seat.new.window ≡ seat.old.window }
{
    assert!(rt; seat.holds(slot));
    window.release(seat, slot);
}

// Beside a worker that holds three of four slots, one is left to hold back.
#[test]
fn throttling_beside_a_worker(rt: HostRuntime) -> Result<(), Fail> {
    let alloc = rt.alloc();
    beside_a_worker::<Brand, _>(&rt, alloc, blank_log(&rt, alloc))
}

fn beside_a_worker<N: LogName, S: Abort + Wait>(
    rt: &S,
    alloc: Global,
    log: BlankLog,
) -> Result<(), Fail>
    requires { (log ≡ N.log) × (N.settings ≡ None) }
{
    let octets = answers(alloc, 3, 0)?;
    let (line, leave) = line_of::<N, S>(rt, alloc, log, 0, 3);
    let (producers, _consumer) = ring_of(alloc, 64)?;
    let Ok((window, mut seat)) = Window::make(alloc, 4) else {
        panic!(rt; "no window")
    };
    assert!(rt; seat.can_split());
    let mut worker = window.split(&mut seat);
    claim(rt, &window, &mut worker, 0);
    claim(rt, &window, &mut worker, 1);
    claim(rt, &window, &mut worker, 2);
    let bound = bound_as(rt, alloc, Mode::Transmitter);
    let mut reader = source_of(0, octets.as_slice(), false);
    let (end, _down) = read_loop(
        rt,
        alloc,
        &mut reader,
        bound,
        producers,
        &line,
        &window,
        seat,
        leave,
        Some(4),
        10,
    );
    let mut seat = end.seat;
    assert!(rt; seat.holds(3));
    release(rt, &window, &mut worker, 0);
    release(rt, &window, &mut worker, 1);
    release(rt, &window, &mut worker, 2);
    window.join(&mut seat, worker);
    same(rt, window.close(seat).held, 0xFFFF_FFFF_FFFF_FFF8);
    Ok(())
}
