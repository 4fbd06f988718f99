//! A book that isn't open yet.

ghost use Rattle.std.specs.Prelude.{◌≡◌, ℕ, ◌+◌, ◌<◌, ◌≤◌, List, [], ◌∷◌, length, map, replicate, IfOk, IfErr, vec_capacity};
ghost use Rattle.sms_book.specs.declared.rule.View.TheVariants.{Book as BookView};
ghost use Rattle.sms_book.specs.declared.rule.Entry.{Entry};
ghost use Rattle.sms_book.specs.declared.rule.Portion.{Portion};
ghost use Rattle.sms_book.specs.Limits.{most_workers};
ghost use Rattle.sms_book.specs.Name.{as_sealed};
ghost use Rattle.sms_book.specs.Portions.{no_amounts, nothing};
ghost use Rattle.sms_book.specs.Shares.{opening_shares};
ghost use Rattle.sms_book.specs.Rule.{at_home, away};
ghost use Rattle.sms_book.specs.Openings.{AllSmall, opening_row};

use crate::amounts::Amounts;
use crate::book::Book;
use crate::name::BookName;
use crate::room::{Room, room_for};
use crate::rule::{BookRule, Opened, View};
use crate::share::Shares;
use crate::steps::{BookTable, deal};
use crate::till::{Sealed, Sealing, Till};
use atomic_table::{Badge, Table};
use std::alloc::{AllocError, Global};
use std::marker::{Brand, Model, PhantomData};
use std::sync::Mutex;

/// A book that isn't open yet. Contracts see its name, and the credits that each account begins
/// with.
#[derive(Drop)]
pub struct Blank {
    credits: Vec<u64>,
    workers: usize,
    table: Table<(), View, Opened, BookRule, Global>,
    seat: Badge<View>,
}

impl Model for Blank {
    ghost use Rattle.std.specs.Prelude.{false, length};
    ghost use Rattle.sms_book.specs.Name.{Unopened};
    ghost use Rattle.sms_book.specs.Standing.{BlankStands};

    ghost Value = { Unopened };

    ghost view = { λ b. record { book = record { table = b.table.shared.table_id; accounts = length b.credits.items; workers = b.workers; opening = b.credits.items; sealed = false }; credits = b.credits.items } };

    ghost invariant = { λ b. BlankStands b.table.shared.table_id b.seat.table_id b.seat.views b.workers b.credits.items };
}

/// Makes the book's table, whose one seat has all numbers.
pub(crate) fn make_blank(
    alloc: Global,
    credits: Vec<u64>,
    workers: usize,
) -> Result<Blank, AllocError>
    requires small { AllSmall credits.items }
    requires bound { workers ≤ most_workers }
    ensures { IfOk result (λ b. (b.credits ≡ credits.items) × (b.book.accounts ≡ length credits.items) × (b.book.workers ≡ workers) × (b.book.opening ≡ credits.items)) }
{
    let opened = Opened { credits, workers };
    let (table, seat) = Table::of_words(alloc, &[0], &opened)?;
    let Opened { credits, workers } = opened;
    Ok(Blank {
        credits,
        workers,
        table,
        seat: seat.into_badge(),
    })
}

impl Blank {
    /// Opens the book: its rows hold the opening credits free, the till has them as top-ups, and
    /// there is one share a worker, which has nothing. For want of memory the blank comes back.
    pub fn into_book<N: BookName>(
        self,
        alloc: Global,
    ) -> Result<(Book<N>, Till<N>, Vec<Shares<N>>), (AllocError, Blank)>
        requires { self.book ≡ N.book }
        ensures book { IfOk result (λ o. o.0 ≡ map opening_row self.credits) }
        ensures till { IfOk result (λ o. o.1 ≡ self.credits) }
        ensures shares { IfOk result (λ o. o.2.items ≡ opening_shares self.book.accounts self.book.workers) }
        ensures back { IfErr result (λ e. e.1 ≡ self) }
    {
        match room_for(alloc, self.credits.as_slice(), self.workers) {
            Ok(room) => Ok(self.deal_out(room)),
            Err(no_memory) => Err((no_memory, self)),
        }
    }

    /// The same, with the book under its lock.
    pub fn open<N: BookName>(
        self,
        alloc: Global,
    ) -> Result<(Mutex<Book<N>>, Till<N>, Vec<Shares<N>>), (AllocError, Blank)>
        requires { self.book ≡ N.book }
        ensures till { IfOk result (λ o. o.1 ≡ self.credits) }
        ensures shares { IfOk result (λ o. o.2.items ≡ opening_shares self.book.accounts self.book.workers) }
        ensures back { IfErr result (λ e. e.1 ≡ self) }
    {
        match self.into_book(alloc) {
            Ok((book, till, shares)) => Ok((Mutex::new(book), till, shares)),
            Err(back) => Err(back),
        }
    }

    /// The same, with a book that is sealed: each account keeps the top-ups that it begins with.
    pub fn open_sealed<N: BookName>(
        self,
        alloc: Global,
    ) -> Result<(Mutex<Book<N>>, Till<N, Sealed>, Vec<Shares<N>>), (AllocError, Blank)>
        requires { as_sealed self.book ≡ N.book }
        ensures till { IfOk result (λ o. o.1 ≡ self.credits) }
        ensures shares { IfOk result (λ o. o.2.items ≡ opening_shares self.book.accounts self.book.workers) }
        ensures back { IfErr result (λ e. e.1 ≡ self) }
    {
        let room = match room_for(alloc, self.credits.as_slice(), self.workers) {
            Ok(room) => room,
            Err(refused) => return Err((refused, self)),
        };
        let (book, till, shares) = self.deal_out(room);
        Ok((Mutex::new(book), till, shares))
    }

    /// Deals the numbers out: the till's first, then one to each worker.
    fn deal_out<N: BookName, S: Sealing>(
        self,
        room: Room<N>,
    ) -> (Book<N>, Till<N, S>, Vec<Shares<N>>)
        requires name { record self.book { sealed = S.sealed } ≡ N.book }
        requires rows { room.rows.items ≡ map opening_row self.credits }
        requires amounts { map (λ a. a.items) room.amounts.items ≡ replicate self.book.workers (replicate self.book.accounts no_amounts) }
        requires shares { (room.shares.items ≡ []) × (self.book.workers ≤ vec_capacity room.shares) }
        ensures book { result.0 ≡ map opening_row self.credits }
        ensures till { result.1 ≡ self.credits }
        ensures shares { result.2.items ≡ opening_shares self.book.accounts self.book.workers }
    {
        let Blank {
            credits,
            workers,
            table,
            mut seat,
        } = self;
        let till = Till {
            topped: credits,
            seat: deal::<Brand>(&table.shared, &mut seat, 0),
            of: PhantomData,
            sealing: PhantomData,
        };
        let shares = deal_shares(&table.shared, &mut seat, room.amounts, room.shares);
        let book = Book {
            rows: room.rows,
            table,
            seat,
            workers,
            of: PhantomData,
        };
        (book, till, shares)
    }
}

/// The shares of a book's workers, with the numbers from 1 on, put into the room that was made for
/// them.
fn deal_shares<N: BookName>(
    table: &BookTable,
    seat: &mut Badge<View>,
    amounts: Vec<Vec<Amounts>>,
    mut shares: Vec<Shares<N>>,
) -> Vec<Shares<N>>
    requires table { (table.now.table_id ≡ N.book.table) × (seat.old.table_id ≡ N.book.table) }
    requires words { 0 < N.book.table.words }
    requires book { (e : Entry) × (ts : List Portion) × (seat.old.views ≡ BookView (e ∷ replicate N.book.workers (at_home (replicate N.book.accounts nothing))) ts ∷ []) }
    requires amounts { map (λ a. a.items) amounts.items ≡ replicate N.book.workers (replicate N.book.accounts no_amounts) }
    requires room { (shares.items ≡ []) × (N.book.workers ≤ vec_capacity shares) }
    ensures table { seat.new.table_id ≡ N.book.table }
    ensures book { (e : Entry) (ts : List Portion) → seat.old.views ≡ BookView (e ∷ replicate N.book.workers (at_home (replicate N.book.accounts nothing))) ts ∷ []
        → seat.new.views ≡ BookView (e ∷ replicate N.book.workers (away (replicate N.book.accounts nothing))) ts ∷ [] }
    ensures shares { result.items ≡ opening_shares N.book.accounts N.book.workers }
{
    let mut number = 0;
    for amounts in amounts {
        number += 1;
        shares.push_reserved(Shares {
            amounts,
            seat: deal::<Brand>(table, seat, number),
            of: PhantomData,
        });
    }
    shares
}
