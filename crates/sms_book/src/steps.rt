//! The steps on a book's table: the book takes a number in, and the number goes out again or stays.
//!
//! Each is one load of the table's word, on which nothing rests: a view changes only at a step.

ghost use Rattle.std.specs.Prelude.{◌≡◌, ℕ, ◌<◌, List, [], ◌∷◌, Some, map, length, slice_get, slice_set};
ghost use Rattle.atomic_table.specs.Table.{Splits};
ghost use Rattle.sms_book.specs.declared.rule.Entry.{Entry};
ghost use Rattle.sms_book.specs.declared.rule.Portion.{Portion};
ghost use Rattle.sms_book.specs.declared.rule.View.{View};
ghost use Rattle.sms_book.specs.declared.rule.View.TheVariants.{Book, Lent, Holder};
ghost use Rattle.sms_book.specs.Portions.{of_row};
ghost use Rattle.sms_book.specs.Sums.{AddUp};
ghost use Rattle.sms_book.specs.Rule.{at_home, away, Kept};
ghost use Rattle.sms_book.specs.TableSteps.{CanGiveBack, CanDeal};

use crate::rule::{
    BookRule, Change, Deals, GivesBack, Hand, Holding, Keeps, Opened, TakesIn, Tells, View,
};
use atomic_table::{Badge, Seat, Shared, Split};
use sms_core::Row;
use std::mem;

pub type BookTable = Shared<(), View, Opened, BookRule>;

/// The book's seat, which took a holder's number in.
fn take_in(table: &BookTable, book: &mut Badge<View>, holder: &mut Badge<View>) -> Seat<(), View>
    requires table { (book.old.table_id ≡ table.now.table_id) × (holder.old.table_id ≡ table.now.table_id) }
    requires words { 0 < table.now.table_id.words }
    requires book { (es : List Entry) × (ts : List Portion) × (book.old.views ≡ Book es ts ∷ []) }
    requires holder { (k : ℕ) × (ps : List Portion) × (holder.old.views ≡ Holder k ps ∷ []) }
    ensures table { result.table_id ≡ book.old.table_id }
    ensures seat { (es : List Entry) (ts : List Portion) (k : ℕ) (ps : List Portion) → book.old.views ≡ Book es ts ∷ [] → holder.old.views ≡ Holder k ps ∷ [] → result.me ≡ (Lent es ts k ps, []) }
{
    let mut keeper = mem::replace(book, Badge::blank()).into_seat::<()>();
    let theirs = mem::replace(holder, Badge::blank()).into_seat::<()>();
    table.join_seat::<TakesIn>(&mut keeper, theirs);
    keeper
}

/// Takes a holder's number into the book, which tells that what the holder had is its entry, and
/// that each total is the sum over the entries.
pub fn check_in(table: &BookTable, book: &mut Badge<View>, holder: &mut Badge<View>)
    requires table { (book.old.table_id ≡ table.now.table_id) × (holder.old.table_id ≡ table.now.table_id) }
    requires words { 0 < table.now.table_id.words }
    requires book { (es : List Entry) × (ts : List Portion) × (book.old.views ≡ Book es ts ∷ []) }
    requires holder { (k : ℕ) × (ps : List Portion) × (holder.old.views ≡ Holder k ps ∷ []) }
    ensures table { book.new.table_id ≡ book.old.table_id }
    ensures book { (es : List Entry) (ts : List Portion) (k : ℕ) (ps : List Portion) → book.old.views ≡ Book es ts ∷ [] → holder.old.views ≡ Holder k ps ∷ [] → book.new.views ≡ Lent es ts k ps ∷ [] }
    ensures entry { (es : List Entry) (ts : List Portion) (k : ℕ) (ps : List Portion) → book.old.views ≡ Book es ts ∷ [] → holder.old.views ≡ Holder k ps ∷ [] → slice_get es k ≡ Some (away ps) }
    ensures sums { (es : List Entry) (ts : List Portion) → book.old.views ≡ Book es ts ∷ [] → AddUp ts es }
{
    let mut keeper = take_in(table, book, holder);
    table.load::<Tells>(&mut keeper, 0);
    *book = keeper.into_badge();
}

/// Takes a holder's number into the book, which keeps it, and tells the same.
pub fn keep(table: &BookTable, book: &mut Badge<View>, holder: &mut Badge<View>)
    requires table { (book.old.table_id ≡ table.now.table_id) × (holder.old.table_id ≡ table.now.table_id) }
    requires words { 0 < table.now.table_id.words }
    requires book { (es : List Entry) × (ts : List Portion) × (book.old.views ≡ Book es ts ∷ []) }
    requires holder { (k : ℕ) × (ps : List Portion) × (holder.old.views ≡ Holder k ps ∷ []) }
    ensures table { book.new.table_id ≡ book.old.table_id }
    ensures book { (es : List Entry) (ts : List Portion) (k : ℕ) (ps : List Portion) → book.old.views ≡ Book es ts ∷ [] → holder.old.views ≡ Holder k ps ∷ [] → book.new.views ≡ Book (slice_set es k (at_home ps)) ts ∷ [] }
    ensures entry { (es : List Entry) (ts : List Portion) (k : ℕ) (ps : List Portion) → book.old.views ≡ Book es ts ∷ [] → holder.old.views ≡ Holder k ps ∷ [] → slice_get es k ≡ Some (away ps) }
    ensures sums { (es : List Entry) (ts : List Portion) → book.old.views ≡ Book es ts ∷ [] → AddUp ts es }
{
    let mut keeper = take_in(table, book, holder);
    table.load::<Keeps>(&mut keeper, 0);
    *book = keeper.into_badge();
}

/// Splits a new seat off the book's.
fn split_off<S: Split<View>>(table: &BookTable, book: &mut Badge<View>) -> Badge<View>
    requires table { (book.old.table_id ≡ table.now.table_id) × (0 < table.now.table_id.words) }
    requires allowed { (v : View) × (book.old.views ≡ v ∷ []) × Splits (Kept (length table.now.key.credits.items) table.now.key.workers) book.old.id v (S.left v) (S.right v) }
    ensures table { (book.new.table_id ≡ book.old.table_id) × (result.table_id ≡ book.old.table_id) }
    ensures left { (v : View) → book.old.views ≡ v ∷ [] → book.new.views ≡ S.left v ∷ [] }
    ensures right { (v : View) → book.old.views ≡ v ∷ [] → result.views ≡ S.right v ∷ [] }
{
    let mut keeper = mem::replace(book, Badge::blank()).into_seat::<()>();
    let given = table.split_seat::<S>(&mut keeper);
    *book = keeper.into_badge();
    given.into_badge()
}

/// Gives the number that was taken in back to its holder, with what it has then, where the book has
/// these rows.
pub fn check_out<H: Holding, C: Change>(
    table: &BookTable,
    book: &mut Badge<View>,
    rows: &[Row],
    new: &[H],
) -> Badge<View>
    requires picked { (map H.portion new.now ≡ C.portions) × (map of_row rows.now ≡ C.totals) }
    requires table { (book.old.table_id ≡ table.now.table_id) × (0 < table.now.table_id.words) }
    requires book { CanGiveBack book.old.views (map H.portion new.now) (map of_row rows.now) }
    ensures table { (book.new.table_id ≡ book.old.table_id) × (result.table_id ≡ book.old.table_id) }
    ensures book { (es : List Entry) (ts : List Portion) (k : ℕ) (ps : List Portion) → book.old.views ≡ Lent es ts k ps ∷ [] → book.new.views ≡ Book (slice_set es k (away (map H.portion new.now))) (map of_row rows.now) ∷ [] }
    ensures holder { (es : List Entry) (ts : List Portion) (k : ℕ) (ps : List Portion) → book.old.views ≡ Lent es ts k ps ∷ [] → result.views ≡ Holder k (map H.portion new.now) ∷ [] }
{
    split_off::<GivesBack<C>>(table, book)
}

/// Deals out a number that the book holds, with the portions of its entry.
pub fn deal<H: Hand>(table: &BookTable, book: &mut Badge<View>, number: usize) -> Badge<View>
    requires picked { number ≡ H.number }
    requires table { (book.old.table_id ≡ table.now.table_id) × (0 < table.now.table_id.words) }
    requires here { CanDeal book.old.views number }
    ensures table { (book.new.table_id ≡ book.old.table_id) × (result.table_id ≡ book.old.table_id) }
    ensures book { (es : List Entry) (ts : List Portion) (ps : List Portion) → book.old.views ≡ Book es ts ∷ [] → slice_get es number ≡ Some (at_home ps) → book.new.views ≡ Book (slice_set es number (away ps)) ts ∷ [] }
    ensures holder { (es : List Entry) (ts : List Portion) (ps : List Portion) → book.old.views ≡ Book es ts ∷ [] → slice_get es number ≡ Some (at_home ps) → result.views ≡ Holder number ps ∷ [] }
{
    split_off::<Deals<H>>(table, book)
}
