//! A reader of answers and a worker on one row.

use super::{reply_to, rings, row_of, same};
use crate::{Delivery, SlotRow, Taken};
use rtrb::{Consumer, Producer};
use sms_pdu::Reply;
use std::process::Abort;
use std::sync::Wait;
use std::thread;
use std::thread::Threads;

const ROUNDS: u32 = 1000;

const TRIES: u32 = 10_000_000;

// Brings the answer to a number until a slot waits for it.
fn answer_some<R: Wait>(
    rt: &R,
    row: &SlotRow,
    reply: Reply,
    producers: &mut [Producer<Reply>],
) -> Delivery {
    for _ in 0..TRIES {
        // Each turn has a copy of its own, or the borrow checker takes the reply for moved.
        let this = reply;
        let delivery = row.answer(rt, this, producers);
        if delivery != Delivery::Unknown {
            return delivery;
        }
        thread::yield_now();
    }
    Delivery::Unknown
}

// Takes the answer to a number once it has come.
fn take_some<R: Wait>(rt: &R, row: &SlotRow, slot: u32, number: u32) -> Taken {
    if slot >= 64 {
        return Taken::Unknown;
    }
    for _ in 0..TRIES {
        let taken = row.take(rt, slot, number);
        if taken != Taken::NotYet {
            return taken;
        }
        thread::yield_now();
    }
    Taken::NotYet
}

// Answers the numbers below `ROUNDS` in turn.
fn answer_all<R: Wait + Abort>(rt: &R, row: &SlotRow, producers: &mut [Producer<Reply>]) {
    for number in 0..ROUNDS {
        let delivery = answer_some(rt, row, reply_to(rt, number), producers);
        same(
            rt,
            delivery,
            Delivery::Found {
                slot: number % 64,
                worker: 0,
            },
        );
    }
}

// Lets a request wait for each of the numbers in turn, one slot after another, and finds its answer
// in the ring.
fn work_all<R: Wait + Abort>(rt: &R, row: &SlotRow, mut consumer: Consumer<Reply>) {
    for number in 0..ROUNDS {
        let slot = number % 64;
        same(rt, row.post(rt, slot, 0, number), Ok(()));
        same(rt, take_some(rt, row, slot, number), Taken::Got);
        same(rt, consumer.pop().ok(), Some(reply_to(rt, number)));
    }
}

// The reader and the worker at once.
fn answer_and_work<R: Abort + Threads + Wait + Sync>(
    rt: &R,
    row: &SlotRow,
    producers: &mut [Producer<Reply>],
    consumer: Consumer<Reply>,
) {
    thread::join(
        rt,
        || answer_all(rt, row, producers),
        || work_all(rt, row, consumer),
    );
}

#[test]
fn a_reader_and_a_worker(rt: HostRuntime) {
    let row = row_of(&rt, rt.alloc());
    let (mut producers, mut consumers) = rings(&rt, rt.alloc(), 1);
    let Some(consumer) = consumers.pop() else {
        panic!(rt; "no ring")
    };
    answer_and_work(&rt, &row, &mut producers, consumer);
}
