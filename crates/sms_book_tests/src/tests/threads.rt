//! Money that several threads move under the book's lock.

ghost use Rattle.std.specs.Prelude.{◌≡◌};

use super::calls::only_row;
use super::{blank_of, had, row_of, same};
use sms_book::{Blank, Book, BookError, BookName, Shares, Till};
use sms_core::Row;
use std::alloc::Global;
use std::marker::Brand;
use std::process::Abort;
use std::sync::{Mutex, Wait};
use std::thread;
use std::thread::Threads;

// What a worker did: its share, and what it counted itself.
#[derive(Drop)]
struct Done<N: BookName> {
    share: Shares<N>,
    charged: u64,
    returned: u64,
}

// What all workers hold reserved, charged and gave back.
#[derive(Clone, Copy)]
struct Sums {
    reserved: u64,
    charged: u64,
    returned: u64,
}

// Reserves, charges or gives back under the lock, by a drawn number, and tells what it charged and
// what it gave back.
fn turn<N: BookName>(
    rt: &impl Wait,
    book: &Mutex<Book<N>>,
    share: &mut Shares<N>,
    drawn: u64,
) -> (u64, u64) {
    let n = 1 + (drawn >> 33) % 4;
    let holds = share.reserved(0) >= n;
    match (drawn >> 50) % 3 {
        1 if holds => {
            book.lock(rt).charge(share, 0, n);
            (n, 0)
        }
        2 if holds => {
            book.lock(rt).give_back(share, 0, n);
            (0, n)
        }
        _ => {
            let _ = book.lock(rt).reserve(share, 0, n);
            (0, 0)
        }
    }
}

// Takes so many turns, by the numbers that follow a seed.
fn work<N: BookName>(
    rt: &impl Wait,
    book: &Mutex<Book<N>>,
    mut share: Shares<N>,
    mut seed: u64,
    turns: usize,
) -> Done<N> {
    let mut charged = 0u64;
    let mut returned = 0u64;
    for _ in 0..turns {
        seed = seed
            .wrapping_mul(6_364_136_223_846_793_005)
            .wrapping_add(1_442_695_040_888_963_407);
        let (more_charged, more_returned) = turn(rt, book, &mut share, seed);
        charged = charged.wrapping_add(more_charged);
        returned = returned.wrapping_add(more_returned);
    }
    Done {
        share,
        charged,
        returned,
    }
}

// The book opens under its lock.
fn opened<N: BookName>(
    rt: &impl Abort,
    alloc: Global,
    blank: Blank,
) -> (Mutex<Book<N>>, Till<N>, Vec<Shares<N>>)
    requires { blank.book ≡ N.book }
{
    match blank.open::<N>(alloc) {
        Ok(opened) => opened,
        Err(_) => panic!(rt; "no book"),
    }
}

// Each worker draws numbers of its own.
fn seeded<N: BookName>(
    rt: &impl Abort,
    alloc: Global,
    shares: Vec<Shares<N>>,
) -> Vec<(Shares<N>, u64)> {
    let mut seeds = 0u64;
    let mut workers = Vec::new(alloc);
    for share in shares {
        seeds = seeds.wrapping_add(1);
        had(rt, workers.push((share, seeds)));
    }
    workers
}

// All workers at once.
fn worked<N: BookName + Send + Sync, R: Abort + Threads + Wait + Sync>(
    rt: &R,
    book: &Mutex<Book<N>>,
    workers: Vec<(Shares<N>, u64)>,
) -> Vec<Done<N>> {
    had(
        rt,
        thread::map_vec(
            rt,
            workers,
            &|(share, seed): (Shares<N>, u64)| -> Done<N> { work(rt, book, share, seed, 2000) },
        ),
    )
}

// One worker's share and counts come to the others.
fn add_up<N: BookName>(
    rt: &impl Abort,
    shares: &mut Vec<Shares<N>>,
    sums: Sums,
    one: Done<N>,
) -> Sums {
    let Done {
        share,
        charged,
        returned,
    } = one;
    let reserved = share.reserved(0);
    had(rt, shares.push(share));
    Sums {
        reserved: sums.reserved.wrapping_add(reserved),
        charged: sums.charged.wrapping_add(charged),
        returned: sums.returned.wrapping_add(returned),
    }
}

// The shares, and what the workers counted.
fn collected<N: BookName>(
    rt: &impl Abort,
    alloc: Global,
    done: Vec<Done<N>>,
) -> (Vec<Shares<N>>, Sums) {
    let mut shares = Vec::new(alloc);
    let mut sums = Sums {
        reserved: 0,
        charged: 0,
        returned: 0,
    };
    for one in done {
        sums = add_up(rt, &mut shares, sums, one);
    }
    (shares, sums)
}

// The row has what the workers counted, and no credit of 5,000 is lost.
fn want_sums(rt: &impl Abort, row: Row, sums: Sums) {
    assert!(rt;
        row.reserved == sums.reserved
            && row.charged == sums.charged
            && row.returned == sums.returned
            && sums.charged > 0
    );
    same(rt, row.topped, 5000);
    let free = row.free;
    same(
        rt,
        free.wrapping_add(row.reserved).wrapping_add(row.charged),
        5000,
    );
}

fn many<N: BookName + Send + Sync, R: Abort + Threads + Wait + Sync>(
    rt: &R,
    alloc: Global,
    blank: Blank,
)
    requires { blank.book ≡ N.book }
{
    let (book, till, shares) = opened::<N>(rt, alloc, blank);
    let done = worked(rt, &book, seeded(rt, alloc, shares));
    let (shares, sums) = collected(rt, alloc, done);
    want_sums(rt, only_row(rt, book.into_inner(), till, shares), sums);
}

#[test]
fn threads_share_a_book(rt: HostRuntime) {
    for workers in [2, 4, 8] {
        let blank = blank_of(&rt, rt.alloc(), 5000, workers);
        many::<Brand, HostRuntime>(&rt, rt.alloc(), blank);
    }
}

// A worker's share, whether it got the credit, and whether it was told that there is none.
fn try_one<N: BookName>(
    rt: &impl Wait,
    book: &Mutex<Book<N>>,
    share: Shares<N>,
) -> (Shares<N>, bool, bool) {
    let mut share = share;
    let tried = book.lock(rt).reserve(&mut share, 0, 1);
    let won = share.reserved(0) >= 1;
    if won {
        book.lock(rt).charge(&mut share, 0, 1);
    }
    (
        share,
        won,
        tried == Err(BookError::NoCredit { free: 0, needed: 1 }),
    )
}

// All workers try at once.
fn tried<N: BookName + Send + Sync, R: Abort + Threads + Wait + Sync>(
    rt: &R,
    book: &Mutex<Book<N>>,
    shares: Vec<Shares<N>>,
) -> Vec<(Shares<N>, bool, bool)> {
    had(
        rt,
        thread::map_vec(
            rt,
            shares,
            &|share: Shares<N>| -> (Shares<N>, bool, bool) { try_one(rt, book, share) },
        ),
    )
}

// Each worker won or lost, and one won. The shares.
fn one_won<N: BookName>(
    rt: &impl Abort,
    alloc: Global,
    done: Vec<(Shares<N>, bool, bool)>,
) -> Vec<Shares<N>> {
    let mut shares = Vec::new(alloc);
    let mut winners = 0usize;
    for (share, won, lost) in done {
        assert!(rt; won != lost);
        winners = winners.wrapping_add(won as usize);
        had(rt, shares.push(share));
    }
    same(rt, winners, 1);
    shares
}

fn last<N: BookName + Send + Sync, R: Abort + Threads + Wait + Sync>(
    rt: &R,
    alloc: Global,
    blank: Blank,
)
    requires { blank.book ≡ N.book }
{
    let (book, till, shares) = opened::<N>(rt, alloc, blank);
    let done = tried(rt, &book, shares);
    let shares = one_won(rt, alloc, done);
    let row = row_of(1, 0, 0, 1, 0);
    same(rt, only_row(rt, book.into_inner(), till, shares), row);
}

#[test]
fn one_worker_gets_the_last_credit(rt: HostRuntime) {
    let blank = blank_of(&rt, rt.alloc(), 1, 2);
    last::<Brand, HostRuntime>(&rt, rt.alloc(), blank);
}
