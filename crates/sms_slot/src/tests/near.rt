//! Answers that are looked for in one slot first.

use super::{posts, reply_to, rings, row_of, same, takes, want_in_ring};
use crate::{Delivery, SlotRow, Taken};
use rtrb::Producer;
use sms_pdu::Reply;
use std::process::Abort;
use std::sync::Wait;

// What a row says to the answer to a number, looked for in this slot first.
fn answers_near(
    rt: &(impl Abort + Wait),
    row: &SlotRow,
    producers: &mut [Producer<Reply>],
    first: u32,
    number: u32,
    wanted: Delivery,
) {
    let found = row.answer_near(rt, first, reply_to(rt, number), producers);
    same(rt, (first, number, found), (first, number, wanted));
}

// Two slots wait for one number: the one that is looked at first gets the answer, and else the lower one.
fn want_near(rt: &(impl Abort + Wait), row: &SlotRow, producers: &mut [Producer<Reply>]) {
    let low = Delivery::Found { slot: 3, worker: 1 };
    let high = Delivery::Found {
        slot: 63,
        worker: 0,
    };
    posts(rt, row, 3, 1, 5, Ok(()));
    posts(rt, row, 63, 0, 5, Ok(()));
    answers_near(rt, row, producers, 63, 5, high);
    answers_near(rt, row, producers, 63, 5, low);
    answers_near(rt, row, producers, 63, 5, Delivery::Unknown);
    takes(rt, row, 3, 5, Taken::Got);
    takes(rt, row, 63, 5, Taken::Got);
    posts(rt, row, 3, 1, 6, Ok(()));
    posts(rt, row, 63, 0, 6, Ok(()));
    answers_near(rt, row, producers, 4, 6, low);
    answers_near(rt, row, producers, 127, 6, high);
}

#[test]
fn an_answer_is_looked_for_near_a_slot(rt: HostRuntime) {
    let row = row_of(&rt, rt.alloc());
    let (mut producers, mut consumers) = rings(&rt, rt.alloc(), 2);
    want_near(&rt, &row, &mut producers);
    for place in 0..2usize {
        let both = [reply_to(&rt, 5), reply_to(&rt, 6)];
        want_in_ring(&rt, &mut consumers, place, &both);
    }
}
