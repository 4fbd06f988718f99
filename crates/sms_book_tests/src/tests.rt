//! Money that moves, gathered and compared.

ghost use Rattle.std.specs.Prelude.{◌≡◌};
ghost use Rattle.sms_book.specs.Name.{as_sealed};

use self::calls::{
    charge_one, gathered, give_back, last_share, not_gathered, only_row, opened, opened_at_last,
    put_first, want_look, want_reserve, want_rows, want_top_up,
};
use sms_book::{Blank, Book, BookError, BookName, GatherFault, Opening, Shares, Till, open_book};
use sms_core::{MOST_TOPPED, Row};
use std::alloc::Global;
use std::fmt::{Debug, Display};
use std::marker::Brand;
use std::process::Abort;

mod calls;
mod tariffs;
mod threads;

// Both are the same. A test that compares by a call has a short proof: what is printed where they
// differ stands here alone.
fn same<T: PartialEq + Debug + Drop>(rt: &impl Abort, got: T, wanted: T) {
    assert_eq!(rt; got, wanted);
}

// What was asked for is there.
fn had<T: Drop, E: Drop>(rt: &impl Abort, got: Result<T, E>) -> T {
    match got {
        Ok(it) => it,
        Err(_) => panic!(rt; "refused"),
    }
}

fn push_opening(
    rt: &impl Abort,
    alloc: Global,
    openings: &mut Vec<Opening>,
    name: &str,
    credits: u64,
) {
    let name = had(rt, String::from_str(alloc, name));
    had(rt, openings.push(Opening { name, credits }));
}

fn openings_of(rt: &impl Abort, alloc: Global, accounts: &[(&str, u64)]) -> Vec<Opening> {
    let mut openings = Vec::new(alloc);
    for (name, credits) in accounts {
        push_opening(rt, alloc, &mut openings, name, *credits);
    }
    openings
}

fn blank_for(rt: &impl Abort, alloc: Global, accounts: &[(&str, u64)], workers: usize) -> Blank {
    let openings = openings_of(rt, alloc, accounts);
    had(rt, open_book(alloc, openings.as_slice(), workers))
}

fn blank_of(rt: &impl Abort, alloc: Global, credits: u64, workers: usize) -> Blank {
    blank_for(rt, alloc, &[("main", credits)], workers)
}

fn row_of(topped: u64, free: u64, reserved: u64, charged: u64, returned: u64) -> Row {
    Row {
        topped,
        free,
        reserved,
        charged,
        returned,
    }
}

// Of 5 credits 2 are reserved, of which one is charged and one comes back.
fn move_credits<N: BookName>(
    rt: &impl Abort,
    book: &mut Book<N>,
    till: &mut Till<N>,
    share: &mut Shares<N>,
) {
    want_top_up(rt, book, till, 0, 5, Ok(()));
    want_reserve(rt, book, share, 0, 2, Ok(()));
    same(rt, share.reserved(1), 0);
    same(rt, share.accounts(), 1);
    charge_one(rt, book, share, 2);
    want_look(rt, book, share, 0, Some(row_of(5, 3, 1, 1, 0)));
    want_look(rt, book, share, 1, None);
    give_back(rt, book, share, 1, 1);
}

fn moves<N: BookName>(rt: &impl Abort, alloc: Global, blank: Blank)
    requires { blank.book ≡ N.book }
{
    let (mut book, mut till, mut shares) = opened::<N>(rt, alloc, blank);
    let mut share = last_share(rt, &mut shares);
    move_credits(rt, &mut book, &mut till, &mut share);
    had(rt, shares.push(share));
    let row = row_of(5, 4, 0, 1, 1);
    same(rt, only_row(rt, book, till, shares), row);
}

#[test]
fn money_moves(rt: HostRuntime) {
    let blank = blank_of(&rt, rt.alloc(), 0, 1);
    moves::<Brand>(&rt, rt.alloc(), blank);
}

// A sealed book has 5 credits and no more: 6 can't be reserved, and it is gathered as any other.
fn moves_sealed<N: BookName>(rt: &impl Abort, alloc: Global, blank: Blank)
    requires { as_sealed blank.book ≡ N.book }
{
    let Ok((book, till, mut shares)) = blank.open_sealed::<N>(alloc) else {
        panic!(rt; "no book")
    };
    let mut book = book.into_inner();
    let mut share = last_share(rt, &mut shares);
    let few = BookError::NoCredit { free: 5, needed: 6 };
    want_reserve(rt, &mut book, &mut share, 0, 6, Err(few));
    want_reserve(rt, &mut book, &mut share, 0, 2, Ok(()));
    charge_one(rt, &mut book, &mut share, 2);
    give_back(rt, &mut book, &mut share, 1, 1);
    had(rt, shares.push(share));
    same(rt, only_row(rt, book, till, shares), row_of(5, 4, 0, 1, 1));
}

#[test]
fn sealed_money_moves(rt: HostRuntime) {
    let blank = blank_of(&rt, rt.alloc(), 5, 1);
    moves_sealed::<Brand>(&rt, rt.alloc(), blank);
}

// A book of these accounts for so many workers is refused so, or opens.
fn want_opening(
    rt: &impl Abort,
    alloc: Global,
    accounts: &[(&str, u64)],
    workers: usize,
    wanted: Option<BookError>,
) {
    let openings = openings_of(rt, alloc, accounts);
    same(
        rt,
        open_book(alloc, openings.as_slice(), workers).err(),
        wanted,
    );
}

const OVER: u64 = MOST_TOPPED + 1;

// Accounts, for so many workers, and why they make no book.
const OPENINGS: [(&[(&str, u64)], usize, Option<BookError>); 8] = [
    (
        &[("a", 0), ("a", OVER)],
        1,
        Some(BookError::Duplicate {
            first: 0,
            second: 1,
        }),
    ),
    (
        &[("a", 0), ("b", 0), ("c", 0), ("b", 0), ("a", 0), ("b", 0)],
        1,
        Some(BookError::Duplicate {
            first: 1,
            second: 3,
        }),
    ),
    (&[("a", OVER); 65], 1, Some(BookError::BadCount)),
    (&[], 1, Some(BookError::BadCount)),
    (&[("a", OVER)], 0, Some(BookError::BadCount)),
    (&[("a", OVER)], 33, Some(BookError::BadCount)),
    (&[("a", OVER)], 32, Some(BookError::AmountTooLarge)),
    (&[("a", MOST_TOPPED), ("b", 1)], 32, None),
];

#[test]
fn openings_are_refused(rt: HostRuntime) {
    for (accounts, workers, wanted) in OPENINGS {
        want_opening(&rt, rt.alloc(), accounts, workers, wanted);
    }
}

// One credit is free, and two shares are dealt out, of which this one isn't in the list.
fn refuse_moves<N: BookName>(
    rt: &impl Abort,
    book: &mut Book<N>,
    till: &mut Till<N>,
    share: &mut Shares<N>,
) {
    want_reserve(rt, book, share, 1, 1, Err(BookError::NoAccount));
    let credit = BookError::NoCredit { free: 1, needed: 2 };
    want_reserve(rt, book, share, 0, 2, Err(credit));
    want_top_up(rt, book, till, 1, 1, Err(BookError::NoAccount));
    want_top_up(
        rt,
        book,
        till,
        0,
        MOST_TOPPED,
        Err(BookError::AmountTooLarge),
    );
}

fn calls_refused<N: BookName>(rt: &impl Abort, alloc: Global, blank: Blank)
    requires { blank.book ≡ N.book }
{
    let (mut book, mut till, mut shares) = opened::<N>(rt, alloc, blank);
    let mut share = last_share(rt, &mut shares);
    refuse_moves(rt, &mut book, &mut till, &mut share);
    let (book, till, mut shares) = not_gathered(rt, book, till, shares);
    // The second share before the first.
    put_first(rt, &mut shares, share);
    let row = row_of(1, 1, 0, 0, 0);
    same(rt, only_row(rt, book, till, shares), row);
}

#[test]
fn calls_are_refused(rt: HostRuntime) {
    let blank = blank_of(&rt, rt.alloc(), 1, 2);
    calls_refused::<Brand>(&rt, rt.alloc(), blank);
}

// All credits are reserved and come back, 2^20 times.
fn reserve_and_return<N: BookName>(rt: &impl Abort, book: &mut Book<N>, share: &mut Shares<N>) {
    for _ in 0..1_048_576 {
        want_reserve(rt, book, share, 0, MOST_TOPPED, Ok(()));
        give_back(rt, book, share, MOST_TOPPED, MOST_TOPPED);
    }
}

// What was returned has its bound; where the credits are wanting too, that is told.
fn return_to_the_bound<N: BookName>(
    rt: &impl Abort,
    book: &mut Book<N>,
    till: &mut Till<N>,
    share: &mut Shares<N>,
) {
    want_top_up(rt, book, till, 0, 1, Err(BookError::AmountTooLarge));
    reserve_and_return(rt, book, share);
    want_reserve(rt, book, share, 0, 1, Err(BookError::AmountTooLarge));
    let free = MOST_TOPPED;
    let needed = free + 1;
    let credit = BookError::NoCredit { free, needed };
    want_reserve(rt, book, share, 0, needed, Err(credit));
}

fn returns<N: BookName>(rt: &impl Abort, alloc: Global, blank: Blank)
    requires { blank.book ≡ N.book }
{
    let (mut book, mut till, mut shares) = opened::<N>(rt, alloc, blank);
    let mut share = last_share(rt, &mut shares);
    return_to_the_bound(rt, &mut book, &mut till, &mut share);
    had(rt, shares.push(share));
    let row = row_of(MOST_TOPPED, MOST_TOPPED, 0, 0, 1 << 60);
    same(rt, only_row(rt, book, till, shares), row);
}

#[test]
fn returned_credits_are_bounded(rt: HostRuntime) {
    let blank = blank_of(&rt, rt.alloc(), MOST_TOPPED, 1);
    returns::<Brand>(&rt, rt.alloc(), blank);
}

// There are three shares, and they have nothing of two accounts.
fn want_nothing<N: BookName>(rt: &impl Abort, shares: &[Shares<N>]) {
    same(rt, shares.len(), 3);
    for share in shares {
        assert!(rt; share.reserved(0) == 0 && share.reserved(1) == 0);
    }
}

fn opens<N: BookName>(rt: &impl Abort, alloc: Global, blank: Blank)
    requires { blank.book ≡ N.book }
{
    let (book, till, shares) = opened_at_last::<N>(rt, alloc, blank);
    want_nothing(rt, shares.as_slice());
    let statement = gathered(rt, book.into_inner(), till, shares);
    want_rows(
        rt,
        &statement,
        &[row_of(7, 7, 0, 0, 0), row_of(9, 9, 0, 0, 0)],
    );
}

// Where one allocation fails, the blank comes back as it was, and opens at the second try.
#[test]
fn a_blank_comes_back(rt: HostRuntime) {
    let blank = blank_for(&rt, rt.alloc(), &[("main", 7), ("other", 9)], 3);
    opens::<Brand>(&rt, rt.alloc(), blank);
}

// A refusal says this.
fn want_text<T: Display + Drop>(rt: &impl Abort, alloc: Global, fault: T, wanted: &str) {
    let text = had(rt, format!(in alloc; "{fault}"));
    same(rt, text.as_str(), wanted);
}

// Each refusal, with its numbers in their places.
const TEXTS: [(BookError, &str); 6] = [
    (
        BookError::BadCount,
        "a book has 1 to 64 accounts and 1 to 32 workers",
    ),
    (
        BookError::Duplicate {
            first: 3,
            second: 4,
        },
        "accounts 3 and 4 have the same name",
    ),
    (BookError::AmountTooLarge, "the amount is too large"),
    (
        BookError::NoCredit { free: 1, needed: 2 },
        "1 credits are free, and 2 are needed",
    ),
    (BookError::NoAccount, "there is no such account"),
    (BookError::OutOfMemory, "out of memory"),
];

#[test]
fn refusals_say_their_numbers(rt: HostRuntime) {
    for (fault, text) in TEXTS {
        want_text(&rt, rt.alloc(), fault, text);
    }
}

#[test]
fn a_missing_share_is_told(rt: HostRuntime) {
    let missing = GatherFault::MissingShare;
    want_text(&rt, rt.alloc(), missing, "a worker's share is missing");
}
