//! What the seats of a book's table know, and the rule that holds of them between any two steps.
//!
//! No value of `View` is made: it is what contracts and the rule see of a seat.

use crate::amounts::Amounts;
use atomic_table::{Join, Play, Split, TableRule};
use std::collections::LinkedList;
use std::marker::{Brand, PhantomData};

/// What one holder of a number, the till or a worker, has of an account.
pub struct Portion {
    pub topped: u64,
    pub reserved: u64,
    pub charged: u64,
    pub returned: u64,
}

/// What a holder keeps of an account: a worker its amounts, the till the top-ups.
pub trait Holding {
    ghost use Rattle.sms_book.specs.declared.rule.Portion.{Portion};

    ghost portion: { Self → Portion };
}

impl Holding for Amounts {
    ghost use Rattle.sms_book.specs.Portions.{of_worker};

    ghost portion = { of_worker };
}

impl Holding for u64 {
    ghost use Rattle.sms_book.specs.Portions.{of_till};

    ghost portion = { of_till };
}

/// A number's entry in the book: whether the number is with the book, and its portions by account.
pub struct Entry {
    pub here: bool,
    pub portions: LinkedList<Portion>,
}

/// What a seat knows: the book's has all entries and the totals by account, and while it is lent a
/// number whose it is; a holder's has its number and a copy of its entry. The till has the number
/// 0, the workers those from 1 on.
pub enum View {
    Book(LinkedList<Entry>, LinkedList<Portion>),
    Lent(LinkedList<Entry>, LinkedList<Portion>, usize, LinkedList<Portion>),
    Holder(usize, LinkedList<Portion>),
    Spent,
}

/// With what a book's table begins: each account's credits, and how many workers there are.
#[derive(Drop)]
pub struct Opened {
    pub credits: Vec<u64>,
    pub workers: usize,
}

pub struct BookRule;

impl TableRule<(), View, Opened> for BookRule {
    ghost use Rattle.std.specs.Prelude.{length};
    ghost use Rattle.sms_book.specs.Rule.{Kept, opened};

    ghost holds = { λ about s. Kept (length about.credits.items) about.workers s };

    ghost first = { λ about. opened about };
}

/// The book takes in a holder's number.
pub struct TakesIn;

impl Join<View> for TakesIn {
    ghost use Rattle.sms_book.specs.Rule.{lent, spent};

    ghost both = { λ v w. lent v w };

    ghost spent = { spent };
}

/// A look at the table that changes nothing. It tells that what the holder had is its entry, and
/// that each total is the sum over the entries.
pub struct Tells;

impl Play<(), View> for Tells {
    ghost use Rattle.sms_book.specs.Rule.{Told};

    ghost then = { λ step v found w. Told v w };
}

/// A look at the table after which the book keeps the number that it was lent.
pub struct Keeps;

impl Play<(), View> for Keeps {
    ghost use Rattle.sms_book.specs.Rule.{KeptTold};

    ghost then = { λ step v found w. KeptTold v w };
}

/// The portions that a holder has after a call and the totals then, which the call picks.
pub trait Change {
    ghost use Rattle.std.specs.Prelude.{List};
    ghost use Rattle.sms_book.specs.declared.rule.Portion.{Portion};

    ghost portions: { List Portion };

    ghost totals: { List Portion };
}

impl Change for Brand {
    ghost use Rattle.std.specs.Prelude.{[]};

    ghost portions = { [] };

    ghost totals = { [] };
}

/// The number that was lent goes out again, with the portions and the totals that the call picks.
pub struct GivesBack<C>(PhantomData<C>);

impl<C: Change> Split<View> for GivesBack<C> {
    ghost use Rattle.sms_book.specs.Rule.{left_after, right_after};

    ghost left = { λ v. left_after C.portions C.totals v };

    ghost right = { λ v. right_after C.portions v };
}

/// The number that a new book deals out, which the call picks.
pub trait Hand {
    ghost use Rattle.std.specs.Prelude.{ℕ};

    ghost number: { ℕ };
}

impl Hand for Brand {
    ghost number = { 0 };
}

/// A number goes out for the first time, with the portions that its entry has.
pub struct Deals<H>(PhantomData<H>);

impl<H: Hand> Split<View> for Deals<H> {
    ghost use Rattle.sms_book.specs.Rule.{left_dealt, right_dealt};

    ghost left = { λ v. left_dealt H.number v };

    ghost right = { λ v. right_dealt H.number v };
}
