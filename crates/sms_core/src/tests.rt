//! A few schedules worked out by hand, and each call with memory at hand.

use crate::*;
use std::alloc::Global;
use std::fmt::Debug;
use std::process::Abort;

// Both are the same. A test that compares by a call has a short proof: what is printed where they
// differ stands here alone.
fn same<T: PartialEq + Debug + Drop>(rt: &impl Abort, got: T, wanted: T) {
    assert_eq!(rt; got, wanted);
}

fn top_up(account: u32, amount: u64) -> Event {
    Event::TopUp { account, amount }
}

fn reserve(request: u32, cost: u32) -> Event {
    Event::Reserve {
        request,
        account: 0,
        cost,
    }
}

fn claim(worker: u32) -> Event {
    Event::Claim { worker, slot: 0 }
}

fn post(worker: u32, request: u32) -> Event {
    Event::Post {
        worker,
        slot: 0,
        request,
    }
}

fn respond(number: u32, status: u32, nack: bool) -> Event {
    Event::Respond {
        number,
        status,
        nack,
    }
}

fn settle(worker: u32) -> Event {
    Event::Settle { worker, slot: 0 }
}

fn row(topped: u64, free: u64, reserved: u64, charged: u64, returned: u64) -> Option<Row> {
    Some(Row {
        topped,
        free,
        reserved,
        charged,
        returned,
    })
}

fn state(cost: u32, attempts: u32, phase: Phase) -> Option<RequestState> {
    Some(RequestState {
        account: 0,
        cost,
        attempts,
        phase,
    })
}

const DONE: Step = Step::Done;

const UNKNOWN: Step = Step::Ignored(Cause::UnknownNumber);

// The events have these steps.
fn want_steps(rt: &impl Abort, world: &mut World, events: &[Event], wanted: &[Step]) {
    let Ok(answers) = world.run(events) else {
        panic!(rt; "no memory")
    };
    same(rt, answers.as_slice(), wanted);
}

// The request stands so.
fn want_request(rt: &impl Abort, world: &World, id: u32, wanted: Option<RequestState>) {
    same(rt, world.request(id), wanted);
}

// The first account's row, and the next number.
fn want_row(rt: &impl Abort, world: &World, wanted: Option<Row>, next: u64) {
    same(rt, world.row(0), wanted);
    same(rt, world.next(), next);
}

// How many requests there are, and who holds the first slot.
fn want_held(rt: &impl Abort, world: &World, requests: usize, holder: Option<u32>) {
    same(rt, world.requests().len(), requests);
    same(rt, world.holder(0), holder);
}

// A world with one account and a limit of one.
fn world_of(rt: &impl Abort, alloc: Global, attempts: u32) -> World {
    match World::new(alloc, 1, 1, attempts) {
        Ok(world) => world,
        Err(_) => panic!(rt; "no world"),
    }
}

// No world has these limits.
fn want_no_world(rt: &impl Abort, alloc: Global, accounts: u32, limit: u32, attempts: u32) {
    let made = World::new(alloc, accounts, limit, attempts);
    assert!(rt; matches!(made, Err(CoreError::BadLimit)));
}

#[test]
fn refuses_limits(rt: HostRuntime) {
    want_no_world(&rt, rt.alloc(), 1, 65, 3);
    want_no_world(&rt, rt.alloc(), 0, 1, 1);
}

// The event changes nothing, and this is why.
fn want_ignored(rt: &impl Abort, world: &mut World, event: Event, cause: Cause) {
    let Ok(step) = world.step(event) else {
        panic!(rt; "no memory")
    };
    same(rt, step, Step::Ignored(cause));
}

// A new world with one account ignores these events, and stays as it is.
fn ignored(rt: &impl Abort, world: &mut World) {
    want_ignored(rt, world, reserve(1, 1), Cause::NoCredit);
    let second = Event::Claim { worker: 1, slot: 1 };
    want_ignored(rt, world, second, Cause::SlotHeld);
    let release = Event::Release { worker: 1, slot: 0 };
    want_ignored(rt, world, release, Cause::NotHolder);
    let discard = Event::Discard { request: 9 };
    want_ignored(rt, world, discard, Cause::NoRequest);
    same(rt, world.accounts(), 1);
    want_row(rt, world, row(0, 0, 0, 0, 0), 1);
}

#[test]
fn ignores_events(rt: HostRuntime) {
    let mut world = world_of(&rt, rt.alloc(), 1);
    ignored(&rt, &mut world);
}

// What comes of events: their steps, the first account's row, the next number, how the requests of
// these numbers stand, how many requests there are, and who holds the first slot.
#[derive(Clone, Copy)]
struct Wanted<'a> {
    steps: &'a [Step],
    row: Option<Row>,
    next: u64,
    states: &'a [(u32, Option<RequestState>)],
    requests: usize,
    holder: Option<u32>,
}

// The requests stand so.
fn want_requests(rt: &impl Abort, world: &World, states: &[(u32, Option<RequestState>)]) {
    for (id, wanted) in states {
        want_request(rt, world, *id, *wanted);
    }
}

// In a new world this comes of the events.
fn want_run(rt: &impl Abort, alloc: Global, attempts: u32, events: &[Event], wanted: Wanted) {
    let mut world = world_of(rt, alloc, attempts);
    want_steps(rt, &mut world, events, wanted.steps);
    want_row(rt, &world, wanted.row, wanted.next);
    want_requests(rt, &world, wanted.states);
    want_held(rt, &world, wanted.requests, wanted.holder);
}

#[test]
fn late_answer_changes_nothing(rt: HostRuntime) {
    let events = [
        top_up(0, 2),
        reserve(1, 1),
        reserve(2, 1),
        claim(7),
        post(7, 1),
        Event::Expire { worker: 7, slot: 0 },
        post(7, 2),
        respond(1, 0, false),
        respond(2, 0, false),
        settle(7),
        Event::Release { worker: 7, slot: 0 },
    ];
    let steps = [
        DONE, DONE, DONE, DONE, DONE, DONE, DONE, UNKNOWN, DONE, DONE, DONE,
    ];
    let wanted = Wanted {
        steps: &steps,
        row: row(2, 0, 1, 1, 0),
        next: 3,
        states: &[
            (1, state(1, 1, Phase::Unanswered)),
            (2, state(1, 1, Phase::Charged)),
        ],
        requests: 2,
        holder: None,
    };
    want_run(&rt, rt.alloc(), 1, &events, wanted);
}

// A request is answered with ESME_ROK, which a generic_nack may have, and then once more. It ends in
// this phase, and the account's row is this.
fn want_end(rt: &impl Abort, alloc: Global, nack: bool, row: Option<Row>, phase: Phase) {
    let events = [
        top_up(0, 1),
        reserve(1, 1),
        claim(1),
        post(1, 1),
        respond(1, 0, nack),
        respond(1, 0, false),
        settle(1),
        respond(1, 0, false),
    ];
    let steps = [DONE, DONE, DONE, DONE, DONE, UNKNOWN, DONE, UNKNOWN];
    let wanted = Wanted {
        steps: &steps,
        row,
        next: 2,
        states: &[(1, state(1, 1, phase))],
        requests: 1,
        holder: Some(1),
    };
    want_run(rt, alloc, 3, &events, wanted);
}

#[test]
fn answers_end_a_request_once(rt: HostRuntime) {
    want_end(&rt, rt.alloc(), false, row(1, 0, 0, 1, 0), Phase::Charged);
    want_end(&rt, rt.alloc(), true, row(1, 1, 0, 0, 1), Phase::Refused);
}

#[test]
fn a_cost_is_1_to_1_000(rt: HostRuntime) {
    let events = [
        top_up(0, 2_000),
        reserve(1, 1_000),
        reserve(2, 1_001),
        reserve(3, 0),
        reserve(4, 1_000),
        reserve(5, 1),
    ];
    let bad = Step::Ignored(Cause::BadCost);
    let steps = [DONE, DONE, bad, bad, DONE, Step::Ignored(Cause::NoCredit)];
    let wanted = Wanted {
        steps: &steps,
        row: row(2_000, 0, 2_000, 0, 0),
        next: 1,
        states: &[(4, state(1_000, 0, Phase::Ready))],
        requests: 2,
        holder: None,
    };
    want_run(&rt, rt.alloc(), 1, &events, wanted);
}

#[test]
fn discards_a_request_once(rt: HostRuntime) {
    let discard = Event::Discard { request: 1 };
    let events = [top_up(0, 5), reserve(1, 1), discard, discard];
    let steps = [DONE, DONE, DONE, Step::Ignored(Cause::NoRequest)];
    let wanted = Wanted {
        steps: &steps,
        row: row(5, 5, 0, 0, 1),
        next: 1,
        states: &[(1, state(1, 0, Phase::Unsent))],
        requests: 1,
        holder: None,
    };
    want_run(&rt, rt.alloc(), 2, &events, wanted);
}

#[test]
fn retries_until_the_attempts_are_used_up(rt: HostRuntime) {
    let events = [
        top_up(0, 5),
        reserve(2, 3),
        claim(1),
        post(1, 2),
        respond(1, ESME_RTHROTTLED, false),
        settle(1),
        post(1, 2),
        respond(2, ESME_RTHROTTLED, false),
        settle(1),
    ];
    let wanted = Wanted {
        steps: &[DONE; 9],
        row: row(5, 5, 0, 0, 3),
        next: 3,
        states: &[(2, state(3, 2, Phase::Refused))],
        requests: 1,
        holder: Some(1),
    };
    want_run(&rt, rt.alloc(), 2, &events, wanted);
}

// Statuses, whether a generic_nack has them, whether they charge, and whether they are tried again.
const REPLIES: [(u32, bool, bool, bool); 6] = [
    (0x00, false, true, false),
    (0x00, true, false, false),
    (0x14, false, false, true),
    (0x58, false, false, true),
    (0x58, true, false, false),
    (0x45, false, false, false),
];

#[test]
fn which_replies_charge_and_which_are_tried_again(rt: HostRuntime) {
    for (status, nack, charge, retry) in REPLIES {
        same(&rt, is_charge(status, nack), charge);
        same(&rt, is_retry(status, nack), retry);
    }
}

// Texts, the largest number that is asked for, and the number.
const NUMBERS: [(&str, u64, Option<u64>); 7] = [
    ("0", 0, Some(0)),
    ("00000000000000000007", 9, Some(7)),
    ("000000000000000000007", 9, None),
    ("4294967295", 0xFFFF_FFFF, Some(0xFFFF_FFFF)),
    ("4294967296", 0xFFFF_FFFF, None),
    ("18446744073709551615", u64::MAX, Some(u64::MAX)),
    ("18446744073709551616", u64::MAX, None),
];

const NO_NUMBERS: [&str; 8] = ["", " 1", "1 ", "+1", "-1", "1e3", "0x10", "1_000"];

// The text is this number, or none that is at most so large.
fn want_decimal(rt: &impl Abort, text: &str, most: u64, wanted: Option<u64>) {
    same(rt, decimal_of(text.as_bytes(), most), wanted);
}

fn want_no_numbers(rt: &impl Abort) {
    for text in NO_NUMBERS {
        want_decimal(rt, text, u64::MAX, None);
    }
}

#[test]
fn reads_decimal_numbers(rt: HostRuntime) {
    for (text, most, wanted) in NUMBERS {
        want_decimal(&rt, text, most, wanted);
    }
    want_no_numbers(&rt);
}
