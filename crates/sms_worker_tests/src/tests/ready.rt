//! A worker that is made ready and isn't run: all that it was given comes back.

ghost use Rattle.std.specs.Prelude.{◌≡◌, None};

use super::{PLAIN, book_of, messages_of, rules_of, same};
use rtrb::RingBuffer;
use sms_bind::{BlankLog, LogName};
use sms_book::{Blank, BookName};
use sms_window::Window;
use sms_worker::{Message, ReadyWorker, Rules, Worker};
use std::alloc::Global;
use std::marker::Brand;
use std::process::Abort;

// What a worker was given, from its parts again: its index, its place, and how many messages.
fn parts_of<N: BookName + LogName>(
    alloc: Global,
    blank: Blank,
    wires: BlankLog,
    rules: &Rules,
    messages: Vec<Message>,
) -> Option<(usize, usize, usize)>
    requires { (blank.book ≡ N.book) × (wires ≡ N.log) × (N.settings ≡ None) }
{
    let (_window, seat) = Window::make_from(alloc, 64, 1).ok()?;
    let (_producer, consumer) = RingBuffer::new(alloc, 64).ok()?;
    let Ok((_book, _till, mut all)) = blank.open::<N>(alloc) else {
        return None;
    };
    let Ok(mut keeper) = wires.open::<N>(alloc) else {
        return None;
    };
    let requests = keeper.thread();
    let worker = Worker {
        index: 5,
        place: 3,
        seat,
        shares: all.pop()?,
        consumer,
        requests,
    };
    match ReadyWorker::new(alloc, worker, messages, rules) {
        Ok(ready) => {
            let (worker, messages) = ready.into_parts();
            Some((worker.index, worker.place, messages.len()))
        }
        Err((_refused, worker, messages)) => Some((worker.index, worker.place, messages.len())),
    }
}

fn parts_back(alloc: Global) -> Option<(usize, usize, usize)> {
    let rules = rules_of(alloc, PLAIN)?;
    let blank = book_of(alloc, 3, 1)?;
    let messages = messages_of(alloc, 2).ok()?;
    let wires = BlankLog::new(alloc).ok()?;
    parts_of::<Brand>(alloc, blank, wires, &rules, messages)
}

#[test]
fn memory_of_a_ready_worker(rt: HostRuntime) {
    let alloc = rt.alloc();
    if let Some(parts) = parts_back(alloc) {
        same(&rt, parts, (5, 3, 2));
    }
}

#[test]
fn a_ready_worker_gives_its_parts_back(rt: HostRuntime) {
    let alloc = rt.alloc();
    let Some(parts) = parts_back(alloc) else {
        panic!(rt; "no memory")
    };
    same(&rt, parts, (5, 3, 2));
}
