//! What the calls of a slot and of a row answer, one after another, and where the answers go.

ghost use Rattle.std.specs.Prelude.{◌<◌};
ghost use Rattle.sms_core.specs.Limits.{most_slots};

use crate::{Delivery, Expired, Slot, SlotDelivery, SlotError, SlotRow, Taken};
use rtrb::{Consumer, Producer, RingBuffer};
use sms_pdu::{Reply, reply_of};
use std::alloc::Global;
use std::fmt::Debug;
use std::process::Abort;
use std::sync::Wait;

mod near;
mod threads;

// Both are the same. A test that compares by a call has a short proof: what is printed where they
// differ stands here alone.
fn same<T: PartialEq + Debug + Drop>(rt: &impl Abort, got: T, wanted: T) {
    assert_eq!(rt; got, wanted);
}

// The rings' ends of a reader and of its workers.
type Ends = (Vec<Producer<Reply>>, Vec<Consumer<Reply>>);

// What a call gives where memory is there.
fn had<T: Drop, E: Drop>(rt: &impl Abort, got: Result<T, E>) -> T {
    let Ok(it) = got else { panic!(rt; "no memory") };
    it
}

// As many rings of 64 answers.
fn rings(rt: &impl Abort, alloc: Global, count: usize) -> Ends {
    let mut producers = Vec::new(alloc);
    let mut consumers = Vec::new(alloc);
    for _ in 0..count {
        let (producer, consumer) = had(rt, RingBuffer::new(alloc, 64));
        had(rt, producers.push(producer));
        had(rt, consumers.push(consumer));
    }
    (producers, consumers)
}

fn row_of(rt: &impl Abort, alloc: Global) -> SlotRow {
    had(rt, SlotRow::new(alloc))
}

// The answer of a submit_sm_resp with status 0 and the message_id `m`.
fn reply_to(rt: &impl Abort, number: u32) -> Reply {
    let n = number.to_be_bytes();
    let octets = [
        0, 0, 0, 18, 0x80, 0, 0, 4, 0, 0, 0, 0, n[0], n[1], n[2], n[3], b'm', 0,
    ];
    let Some(reply) = reply_of(&octets) else {
        panic!(rt; "no reply")
    };
    reply
}

// What the ring has: the answers, in order, and nothing else.
fn want_popped(rt: &impl Abort, consumer: &mut Consumer<Reply>, place: usize, wanted: &[Reply]) {
    for reply in wanted {
        same(rt, (place, consumer.pop().ok()), (place, Some(*reply)));
    }
    same(rt, (place, consumer.pop().is_err()), (place, true));
}

// What the ring at a place has.
fn want_in_ring(
    rt: &impl Abort,
    consumers: &mut Vec<Consumer<Reply>>,
    place: usize,
    wanted: &[Reply],
) {
    let Some(consumer) = consumers.get_mut(place) else {
        panic!(rt; "no ring {place}")
    };
    want_popped(rt, consumer, place, wanted);
}

// The ring at a place has the answer to a number alone.
fn want_one_in_ring(
    rt: &impl Abort,
    consumers: &mut Vec<Consumer<Reply>>,
    place: usize,
    number: u32,
) {
    want_in_ring(rt, consumers, place, &[reply_to(rt, number)]);
}

// What a slot says to the answer to a number.
fn hears(
    rt: &impl Abort,
    slot: &mut Slot,
    producers: &mut [Producer<Reply>],
    number: u32,
    wanted: SlotDelivery,
) {
    let answer = slot.answer(reply_to(rt, number), producers);
    same(rt, (number, answer), (number, wanted));
}

// A request waits in the slot.
fn opens(rt: &impl Abort, slot: &mut Slot, worker: usize, number: u32) {
    same(rt, slot.post(worker, number), Ok(()));
}

// A request of the slot is given up.
fn closes(rt: &impl Abort, slot: &mut Slot, number: u32) {
    same(rt, slot.expire(number), Expired::Done);
}

// An answer is taken once.
fn taken_once(rt: &impl Abort, slot: &mut Slot, number: u32) {
    same(
        rt,
        (slot.take(number), slot.take(number)),
        (Taken::Got, Taken::Unknown),
    );
}

// The answer to a request that was given up is unknown, and the one to the next is not.
fn want_late(rt: &impl Abort, producers: &mut [Producer<Reply>]) {
    let mut slot = Slot::Empty;
    opens(rt, &mut slot, 1, 5);
    closes(rt, &mut slot, 5);
    opens(rt, &mut slot, 1, 6);
    hears(rt, &mut slot, producers, 5, SlotDelivery::Unknown);
    hears(
        rt,
        &mut slot,
        producers,
        6,
        SlotDelivery::Matched { worker: 1 },
    );
    taken_once(rt, &mut slot, 6);
    same(rt, slot, Slot::Empty);
}

#[test]
fn a_late_answer_is_unknown(rt: HostRuntime) {
    let (mut producers, mut consumers) = rings(&rt, rt.alloc(), 2);
    want_late(&rt, &mut producers);
    want_in_ring(&rt, &mut consumers, 0, &[]);
    want_one_in_ring(&rt, &mut consumers, 1, 6);
}

// A request of this worker, whose answer can't be handed on.
fn want_overrun(rt: &impl Abort, producers: &mut [Producer<Reply>], worker: usize) {
    let mut slot = Slot::Empty;
    opens(rt, &mut slot, worker, 5);
    hears(
        rt,
        &mut slot,
        producers,
        5,
        SlotDelivery::Overrun { worker },
    );
    same(rt, slot, Slot::Waiting { worker, number: 5 });
    closes(rt, &mut slot, 5);
}

// The first ring has room for one answer, and gets it.
fn push_first(rt: &impl Abort, producers: &mut [Producer<Reply>]) {
    let Some(producer) = producers.first_mut() else {
        panic!(rt; "no ring")
    };
    same(rt, producer.push(reply_to(rt, 4)).is_ok(), true);
}

// The first ring has the 64 answers that were pushed, and nothing else.
fn want_full(rt: &impl Abort, consumers: &mut Vec<Consumer<Reply>>) {
    want_in_ring(rt, consumers, 0, &[reply_to(rt, 4); 64]);
}

// A ring without room, and a worker without a ring: the request waits on, and can be given up.
#[test]
fn an_overrun_leaves_the_request_waiting(rt: HostRuntime) {
    let (mut producers, mut consumers) = rings(&rt, rt.alloc(), 1);
    for _ in 0..64 {
        push_first(&rt, &mut producers);
    }
    want_overrun(&rt, &mut producers, 0);
    want_overrun(&rt, &mut producers, 1);
    want_full(&rt, &mut consumers);
}

// What a row says to a request.
fn posts(
    rt: &(impl Abort + Wait),
    row: &SlotRow,
    slot: u32,
    worker: usize,
    number: u32,
    wanted: Result<(), SlotError>,
)
    requires { slot < most_slots }
{
    same(
        rt,
        (slot, row.post(rt, slot, worker, number)),
        (slot, wanted),
    );
}

// What a row says where the answer is looked for.
fn takes(rt: &(impl Abort + Wait), row: &SlotRow, slot: u32, number: u32, wanted: Taken)
    requires { slot < most_slots }
{
    same(rt, (slot, row.take(rt, slot, number)), (slot, wanted));
}

// What a row says where a request is given up.
fn expires(rt: &(impl Abort + Wait), row: &SlotRow, slot: u32, number: u32, wanted: Expired)
    requires { slot < most_slots }
{
    same(rt, (slot, row.expire(rt, slot, number)), (slot, wanted));
}

// What a row says to the answer to a number.
fn answers(
    rt: &(impl Abort + Wait),
    row: &SlotRow,
    producers: &mut [Producer<Reply>],
    number: u32,
    wanted: Delivery,
) {
    let found = row.answer(rt, reply_to(rt, number), producers);
    same(rt, (number, found), (number, wanted));
}

// A slot holds one request, whose answer is found and taken once.
fn want_one_slot(rt: &(impl Abort + Wait), row: &SlotRow, producers: &mut [Producer<Reply>]) {
    posts(rt, row, 3, 1, 5, Ok(()));
    posts(rt, row, 3, 0, 6, Err(SlotError::Busy));
    takes(rt, row, 3, 5, Taken::NotYet);
    let found = Delivery::Found { slot: 3, worker: 1 };
    answers(rt, row, producers, 5, found);
    answers(rt, row, producers, 5, Delivery::Unknown);
    expires(rt, row, 3, 5, Expired::Answered);
    takes(rt, row, 3, 5, Taken::Got);
}

#[test]
fn one_slot_of_a_row(rt: HostRuntime) {
    let row = row_of(&rt, rt.alloc());
    let (mut producers, mut consumers) = rings(&rt, rt.alloc(), 2);
    want_one_slot(&rt, &row, &mut producers);
    want_in_ring(&rt, &mut consumers, 0, &[]);
    want_one_in_ring(&rt, &mut consumers, 1, 5);
}

// Whether the answer to a number is there and was taken.
fn takes_answer(rt: &(impl Abort + Wait), row: &SlotRow, slot: u32, number: u32, wanted: bool)
    requires { slot < most_slots }
{
    let taken = row.take_answer(rt, slot, number).is_ok();
    same(rt, (slot, number, taken), (slot, number, wanted));
}

// An answer is taken where it came, by its number, and once.
fn want_answer(rt: &(impl Abort + Wait), row: &SlotRow, producers: &mut [Producer<Reply>]) {
    takes_answer(rt, row, 3, 5, false);
    posts(rt, row, 3, 1, 5, Ok(()));
    takes_answer(rt, row, 3, 5, false);
    let found = Delivery::Found { slot: 3, worker: 1 };
    answers(rt, row, producers, 5, found);
    takes_answer(rt, row, 3, 6, false);
    takes_answer(rt, row, 2, 5, false);
    takes_answer(rt, row, 3, 5, true);
    takes_answer(rt, row, 3, 5, false);
    posts(rt, row, 3, 1, 6, Ok(()));
}

#[test]
fn an_answer_is_taken_where_it_came(rt: HostRuntime) {
    let row = row_of(&rt, rt.alloc());
    let (mut producers, mut consumers) = rings(&rt, rt.alloc(), 2);
    want_answer(&rt, &row, &mut producers);
    want_one_in_ring(&rt, &mut consumers, 1, 5);
}

// An empty slot has nothing to take or to give up, and its row knows no number.
fn want_empty(rt: &(impl Abort + Wait), row: &SlotRow, producers: &mut [Producer<Reply>]) {
    takes(rt, row, 0, 5, Taken::Unknown);
    expires(rt, row, 0, 5, Expired::Unknown);
    answers(rt, row, producers, 5, Delivery::Unknown);
}

// A request is neither taken nor given up by another number or in another slot, and its answer is found.
fn want_others(rt: &(impl Abort + Wait), row: &SlotRow, producers: &mut [Producer<Reply>]) {
    posts(rt, row, 0, 2, 5, Ok(()));
    takes(rt, row, 0, 6, Taken::Unknown);
    expires(rt, row, 0, 6, Expired::Unknown);
    takes(rt, row, 1, 5, Taken::Unknown);
    let found = Delivery::Found { slot: 0, worker: 2 };
    answers(rt, row, producers, 5, found);
    takes(rt, row, 0, 6, Taken::Unknown);
    expires(rt, row, 0, 6, Expired::Unknown);
    takes(rt, row, 0, 5, Taken::Got);
}

// A request of a worker without a ring waits on, and can be given up.
fn want_no_ring(rt: &(impl Abort + Wait), row: &SlotRow, producers: &mut [Producer<Reply>]) {
    posts(rt, row, 0, 3, 6, Ok(()));
    let overrun = Delivery::Overrun { slot: 0, worker: 3 };
    answers(rt, row, producers, 6, overrun);
    expires(rt, row, 0, 6, Expired::Done);
    posts(rt, row, 0, 3, 7, Ok(()));
}

// A call that names another number or an empty slot finds nothing, and leaves what is there.
#[test]
fn other_numbers_of_a_row(rt: HostRuntime) {
    let row = row_of(&rt, rt.alloc());
    let (mut producers, mut consumers) = rings(&rt, rt.alloc(), 3);
    want_empty(&rt, &row, &mut producers);
    want_others(&rt, &row, &mut producers);
    want_no_ring(&rt, &row, &mut producers);
    want_one_in_ring(&rt, &mut consumers, 2, 5);
}

// Two slots wait for this number: the lower one gets the answer, and the other one is given up.
fn want_lower(
    rt: &(impl Abort + Wait),
    row: &SlotRow,
    producers: &mut [Producer<Reply>],
    consumers: &mut Vec<Consumer<Reply>>,
    number: u32,
)
    requires { number < 32 }
{
    let slot = number * 2;
    let worker = slot as usize;
    answers(rt, row, producers, number, Delivery::Found { slot, worker });
    takes(rt, row, slot, number, Taken::Got);
    expires(rt, row, slot + 1, number, Expired::Done);
    answers(rt, row, producers, number, Delivery::Unknown);
    want_one_in_ring(rt, consumers, worker, number);
    want_in_ring(rt, consumers, worker + 1, &[]);
}

// The last slot is free again for a request, whose answer goes into the ring at 9.
fn want_last(rt: &(impl Abort + Wait), row: &SlotRow, producers: &mut [Producer<Reply>]) {
    posts(rt, row, 63, 9, 64, Ok(()));
    let last = Delivery::Found {
        slot: 63,
        worker: 9,
    };
    answers(rt, row, producers, 64, last);
}

// Each slot has its own request. Where two wait for one number, the lower slot gets the answer.
#[test]
fn every_slot_of_a_row(rt: HostRuntime) {
    let row = row_of(&rt, rt.alloc());
    let (mut producers, mut consumers) = rings(&rt, rt.alloc(), 64);
    for slot in 0u32..64 {
        posts(&rt, &row, slot, slot as usize, slot / 2, Ok(()));
    }
    for number in 0u32..32 {
        want_lower(&rt, &row, &mut producers, &mut consumers, number);
    }
    want_last(&rt, &row, &mut producers);
    want_one_in_ring(&rt, &mut consumers, 9, 64);
}
