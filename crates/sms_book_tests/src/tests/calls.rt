//! What the tests ask of a book, and compare.

ghost use Rattle.std.specs.Prelude.{◌≡◌};

use super::{had, same};
use sms_book::{
    Blank, Book, BookError, BookName, GatherFault, Sealing, Shares, Statement, Till, gather,
};
use sms_core::Row;
use std::alloc::Global;
use std::process::Abort;
use std::sync::Mutex;

// The statement of a book whose till and shares all come back.
pub(crate) fn gathered<N: BookName, S: Sealing>(
    rt: &impl Abort,
    book: Book<N>,
    till: Till<N, S>,
    shares: Vec<Shares<N>>,
) -> Statement {
    match gather(book, till, shares) {
        Ok(statement) => statement,
        Err(_) => panic!(rt; "not gathered"),
    }
}

// The statement has these rows.
pub(crate) fn want_rows(rt: &impl Abort, statement: &Statement, wanted: &[Row]) {
    same(rt, statement.rows(), wanted);
}

// The statement has one row, and this is it.
fn row_alone(rt: &impl Abort, statement: Statement) -> Row {
    assert!(rt; statement.rows().len() == 1);
    let row = statement.rows()[0];
    same(rt, statement.into_rows().len(), 1);
    row
}

// The only row of a book whose till and shares all come back.
pub(crate) fn only_row<N: BookName, S: Sealing>(
    rt: &impl Abort,
    book: Book<N>,
    till: Till<N, S>,
    shares: Vec<Shares<N>>,
) -> Row {
    row_alone(rt, gathered(rt, book, till, shares))
}

// The book opens, with its till and its shares.
pub(crate) fn opened<N: BookName>(
    rt: &impl Abort,
    alloc: Global,
    blank: Blank,
) -> (Book<N>, Till<N>, Vec<Shares<N>>)
    requires { blank.book ≡ N.book }
{
    match blank.into_book::<N>(alloc) {
        Ok(opened) => opened,
        Err(_) => panic!(rt; "no book"),
    }
}

// The last share is taken out.
pub(crate) fn last_share<N: BookName>(rt: &impl Abort, shares: &mut Vec<Shares<N>>) -> Shares<N> {
    match shares.pop() {
        Some(share) => share,
        None => panic!(rt; "no share"),
    }
}

// A top-up is answered so.
pub(crate) fn want_top_up<N: BookName>(
    rt: &impl Abort,
    book: &mut Book<N>,
    till: &mut Till<N>,
    account: usize,
    n: u64,
    wanted: Result<(), BookError>,
) {
    same(rt, book.top_up(till, account, n), wanted);
}

// A reservation is answered so.
pub(crate) fn want_reserve<N: BookName>(
    rt: &impl Abort,
    book: &mut Book<N>,
    share: &mut Shares<N>,
    account: usize,
    n: u64,
    wanted: Result<(), BookError>,
) {
    same(rt, book.reserve(share, account, n), wanted);
}

// An account's row looks so.
pub(crate) fn want_look<N: BookName>(
    rt: &impl Abort,
    book: &mut Book<N>,
    share: &mut Shares<N>,
    account: usize,
    wanted: Option<Row>,
) {
    same(rt, book.look(share, account), wanted);
}

// The share holds so many credits of the first account reserved, and charges one.
pub(crate) fn charge_one<N: BookName>(
    rt: &impl Abort,
    book: &mut Book<N>,
    share: &mut Shares<N>,
    reserved: u64,
) {
    assert!(rt; share.reserved(0) == reserved && reserved > 0);
    book.charge(share, 0, 1);
}

// The share holds so many credits of the first account reserved, and gives this many back.
pub(crate) fn give_back<N: BookName>(
    rt: &impl Abort,
    book: &mut Book<N>,
    share: &mut Shares<N>,
    reserved: u64,
    n: u64,
) {
    assert!(rt; share.reserved(0) == reserved && n > 0 && n <= reserved);
    book.give_back(share, 0, n);
}

// Without a share nothing is gathered, and all comes back.
pub(crate) fn not_gathered<N: BookName>(
    rt: &impl Abort,
    book: Book<N>,
    till: Till<N>,
    shares: Vec<Shares<N>>,
) -> (Book<N>, Till<N>, Vec<Shares<N>>) {
    match gather(book, till, shares) {
        Ok(_) => panic!(rt; "a share is missing"),
        Err((fault, book, till, shares)) => {
            assert!(rt; fault == GatherFault::MissingShare && shares.len() == 1);
            (book, till, shares)
        }
    }
}

// A share is put back before the others.
pub(crate) fn put_first<N: BookName>(
    rt: &impl Abort,
    shares: &mut Vec<Shares<N>>,
    share: Shares<N>,
) {
    had(rt, shares.insert(0, share));
}

// The book opens under its lock, at the second try where the first one finds no memory.
pub(crate) fn opened_at_last<N: BookName>(
    rt: &impl Abort,
    alloc: Global,
    blank: Blank,
) -> (Mutex<Book<N>>, Till<N>, Vec<Shares<N>>)
    requires { blank.book ≡ N.book }
{
    match blank.open::<N>(alloc) {
        Ok(opened) => opened,
        Err((_no_memory, same)) => match same.open::<N>(alloc) {
            Ok(opened) => opened,
            Err(_) => panic!(rt; "no memory twice"),
        },
    }
}
