//! The book: each account's row, and the calls that move its credits.

ghost use Rattle.std.specs.Prelude.{◌≡◌, ◌≢◌, ℕ, ◌+◌, ◌-◌, ◌<◌, ◌≤◌, ◌↔◌, length, slice_set, true, OnOk, OnErr, IsErrOf, IsOk, IsSome, IfSome};
ghost use Rattle.sms_core.specs.Limits.{most_topped};
ghost use Rattle.sms_core.specs.RowMoves.{row_topped_up, row_reserved, row_charged, row_given_back};
ghost use Rattle.sms_core.specs.Rows.{IsBalanced};
ghost use Rattle.sms_book.specs.Limits.{most_returned};
ghost use Rattle.sms_book.specs.Sums.{IsSmall};
ghost use Rattle.sms_book.specs.Alone.{IsOfOne, IsOpened, opening_at};
ghost use Rattle.sms_book.specs.Portions.{amounts_at, topped_at, row_at};
ghost use Rattle.sms_book.specs.Shares.{changed};
ghost use Rattle.sms_book.specs.Money.{reserved_more, charged_more, returned_more, CanMove, moved_row, moved_amounts};
ghost use Rattle.sms_book.specs.declared.money.Move.TheVariants.{Reserve};
ghost use Rattle.sms_book.specs.declared.error.BookError.TheVariants.{NoAccount, NoCredit, AmountTooLarge};

use crate::amounts::Amounts;
use crate::error::BookError;
use crate::limits::MOST_RETURNED;
use crate::money::{Move, amounts_after, row_after};
use crate::name::BookName;
use crate::rule::{BookRule, Opened, View};
use crate::share::Shares;
use crate::steps::{check_in, check_out};
use crate::till::Till;
use atomic_table::{Badge, Table};
use sms_core::{MOST_TOPPED, Row};
use std::alloc::Global;
use std::marker::{Brand, Model, PhantomData};

/// The accounts of the book of that name. Contracts see their rows.
#[derive(Drop)]
pub struct Book<N: BookName> {
    pub(crate) rows: Vec<Row>,
    pub(crate) table: Table<(), View, Opened, BookRule, Global>,
    pub(crate) seat: Badge<View>,
    pub(crate) workers: usize,
    pub(crate) of: PhantomData<N>,
}

impl<N: BookName> Model for Book<N> {
    ghost use Rattle.std.specs.Prelude.{List};
    ghost use Rattle.sms_core.specs.declared.row.Row.{Row};
    ghost use Rattle.sms_book.specs.Standing.{BookStands};

    ghost Value = { List Row };

    ghost view = { λ b. b.rows.items };

    ghost invariant = { λ b. BookStands N.book b.table.shared.table_id b.seat.table_id b.seat.views b.workers b.rows.items };
}

impl<N: BookName> Book<N> {
    /// Tops an account up with so many credits, through the till. `NoAccount` where there is no such
    /// account, then `AmountTooLarge` where its top-ups would pass 2^40.
    pub fn top_up(&mut self, till: &mut Till<N>, account: usize, n: u64) -> Result<(), BookError>
        ensures account { IsErrOf result NoAccount ↔ (length self.old ≤ account) }
        ensures large { IsErrOf result AmountTooLarge ↔ ((account < length self.old) × (most_topped < (row_at self.old account).topped + n)) }
        ensures done { IsOk result ↔ ((account < length self.old) × ((row_at self.old account).topped + n ≤ most_topped)) }
        ensures book { OnOk result (self.new ≡ slice_set self.old account (row_topped_up n (row_at self.old account))) }
        ensures till { OnOk result (till.new ≡ slice_set till.old account (topped_at till.old account + n)) }
        ensures refused { OnErr result ((self.new ≡ self.old) × (till.new ≡ till.old)) }
        ensures exists { length till.old ≡ length self.old }
    {
        let accounts = self.accounts();
        prove!(till.accounts() == accounts);
        if account >= accounts {
            return Err(BookError::NoAccount);
        }
        if n > MOST_TOPPED - self.row(account).topped {
            return Err(BookError::AmountTooLarge);
        }
        self.add_top_up(till, account, n);
        Ok(())
    }

    /// How many accounts the book has.
    #[inline(always)]
    fn accounts(&self) -> usize
        ensures { (result ≡ length self.now) × (result ≡ N.book.accounts) }
    {
        self.rows.len()
    }

    /// An account's row, which balances within its bounds.
    #[inline(always)]
    fn row(&self, account: usize) -> Row
        requires { account < length self.now }
        ensures is { result ≡ row_at self.now account }
        ensures sound { IsBalanced result × IsSmall result }
        ensures opened { IsOpened N.book.sealed (opening_at N.book account) result }
    {
        self.rows[account]
    }

    /// Tops an account up, in its row and in the till.
    // The till's number comes into the book first: that tells that the till's top-ups are its entry,
    // and so no more than the row's, and nothing wraps. It goes out again with the new top-ups.
    fn add_top_up(&mut self, till: &mut Till<N>, account: usize, n: u64)
        requires exists { account < length self.old }
        requires small { (row_at self.old account).topped + n ≤ most_topped }
        ensures book { self.new ≡ slice_set self.old account (row_topped_up n (row_at self.old account)) }
        ensures till { till.new ≡ slice_set till.old account (topped_at till.old account + n) }
    {
        let Book {
            rows,
            table,
            seat,
            ..
        } = self;
        let Till {
            topped,
            seat: theirs,
            ..
        } = till;
        let table = &table.shared;
        check_in(table, seat, theirs);
        let row = rows[account];
        let had = topped[account];
        rows[account] = Row {
            topped: row.topped + n,
            free: row.free + n,
            ..row
        };
        topped[account] = had + n;
        *theirs = check_out::<u64, Brand>(table, seat, rows.as_slice(), topped.as_slice());
    }

    /// Reserves so many free credits of an account for the share. `NoAccount` where there is no such
    /// account, then `NoCredit` where fewer are free, then `AmountTooLarge` where what was ever
    /// returned and what is reserved would pass 2^60. Where the book has one share, a refusal tells that
    /// all that isn't free is in that share. Of a sealed book no account ever reserves more at once than
    /// it began with.
    pub fn reserve(
        &mut self,
        share: &mut Shares<N>,
        account: usize,
        n: u64,
    ) -> Result<(), BookError>
        ensures account { IsErrOf result NoAccount ↔ (length self.old ≤ account) }
        ensures credit { (free needed : ℕ) → IsErrOf result (NoCredit free needed) ↔ ((account < length self.old) × (free ≡ (row_at self.old account).free) × (needed ≡ n) × (free < n)) }
        ensures large { IsErrOf result AmountTooLarge ↔ ((account < length self.old) × (n ≤ (row_at self.old account).free) × (most_returned < (row_at self.old account).returned + (row_at self.old account).reserved + n)) }
        ensures done { IsOk result ↔ ((account < length self.old) × (n ≤ (row_at self.old account).free) × ((row_at self.old account).returned + (row_at self.old account).reserved + n ≤ most_returned)) }
        ensures book { OnOk result (self.new ≡ slice_set self.old account (row_reserved n (row_at self.old account))) }
        ensures share { OnOk result (share.new ≡ changed share.old account (reserved_more n)) }
        ensures refused { OnErr result ((self.new ≡ self.old) × (share.new ≡ share.old)) }
        ensures alone { OnErr result (N.book.workers ≡ 1 → account < length self.old → IsOfOne (opening_at N.book account) (amounts_at share.old.amounts account) (row_at self.old account)) }
        ensures covered { OnOk result (N.book.sealed ≡ true → n ≤ opening_at N.book account) }
        ensures exists { length share.old.amounts ≡ length self.old }
    {
        let accounts = self.accounts();
        prove!(share.accounts() == accounts);
        if account >= accounts {
            return Err(BookError::NoAccount);
        }
        let row = self.row(account);
        if row.free < n {
            self.row_of(share, account);
            return Err(BookError::NoCredit {
                free: row.free,
                needed: n,
            });
        }
        if n > MOST_RETURNED || row.returned + row.reserved > MOST_RETURNED - n {
            self.row_of(share, account);
            return Err(BookError::AmountTooLarge);
        }
        self.move_credits(share, account, Move::Reserve, n);
        Ok(())
    }

    /// Charges so many of the credits that the share holds reserved for the account, at least one.
    pub fn charge(&mut self, share: &mut Shares<N>, account: usize, n: u64)
        requires { (0 < n) × (n ≤ (amounts_at share.old.amounts account).reserved) }
        ensures book { self.new ≡ slice_set self.old account (row_charged n (row_at self.old account)) }
        ensures share { share.new ≡ changed share.old account (charged_more n) }
        ensures exists { (account < length self.old) × (length share.old.amounts ≡ length self.old) }
    {
        self.move_credits(share, account, Move::Charge, n);
    }

    /// Gives so many of the credits that the share holds reserved for the account back to its free
    /// ones, at least one.
    pub fn give_back(&mut self, share: &mut Shares<N>, account: usize, n: u64)
        requires { (0 < n) × (n ≤ (amounts_at share.old.amounts account).reserved) }
        ensures book { self.new ≡ slice_set self.old account (row_given_back n (row_at self.old account)) }
        ensures share { share.new ≡ changed share.old account (returned_more n) }
        ensures exists { (account < length self.old) × (length share.old.amounts ≡ length self.old) }
    {
        self.move_credits(share, account, Move::GiveBack, n);
    }

    /// Moves credits of an account, in its row and in the share.
    // The share's number comes into the book first: that tells that what the share has is its entry,
    // and so no more than the row has, and nothing wraps. It goes out again with the new amounts,
    // and the totals move as the row does.
    fn move_credits(&mut self, share: &mut Shares<N>, account: usize, what: Move, n: u64)
        requires row { what ≡ Reserve → (account < length self.old) × CanMove what n (row_at self.old account) }
        requires share { what ≢ Reserve → (0 < n) × (n ≤ (amounts_at share.old.amounts account).reserved) }
        ensures book { self.new ≡ slice_set self.old account (moved_row what n (row_at self.old account)) }
        ensures share { share.new ≡ changed share.old account (moved_amounts what n) }
        ensures exists { (account < length self.old) × (length share.old.amounts ≡ length self.old) }
    {
        let Book {
            rows,
            table,
            seat,
            ..
        } = self;
        let Shares {
            amounts,
            seat: theirs,
            ..
        } = share;
        let table = &table.shared;
        check_in(table, seat, theirs);
        let row = rows[account];
        let had = amounts[account];
        rows[account] = row_after(row, what, n);
        amounts[account] = amounts_after(had, what, n);
        *theirs = check_out::<Amounts, Brand>(table, seat, rows.as_slice(), amounts.as_slice());
    }

    /// The account's row, where there is such an account. What the share has of it is part of the
    /// row, and all of it where the book has one share.
    pub fn look(&mut self, share: &mut Shares<N>, account: usize) -> Option<Row>
        ensures exists { IsSome result ↔ (account < length self.old) }
        ensures row { IfSome result (λ r. (r ≡ row_at self.old account) × IsBalanced r) }
        ensures least { IfSome result (λ r. let a = amounts_at share.old.amounts account in (a.reserved ≤ r.reserved) × (a.charged ≤ r.charged) × (a.returned ≤ r.returned)) }
        ensures alone { N.book.workers ≡ 1 → IfSome result (λ r. IsOfOne (opening_at N.book account) (amounts_at share.old.amounts account) r) }
        ensures unchanged { (self.new ≡ self.old) × (share.new ≡ share.old) }
    {
        if account >= self.rows.len() {
            return None;
        }
        Some(self.row_of(share, account))
    }

    /// The account's row.
    // Nothing changes, and yet the share's number comes into the book and goes out again: only a
    // look at the table tells that what the share has is part of the row, or of one share all of it.
    fn row_of(&mut self, share: &mut Shares<N>, account: usize) -> Row
        requires { account < length self.old }
        ensures row { (result ≡ row_at self.old account) × IsBalanced result }
        ensures least { let a = amounts_at share.old.amounts account in (a.reserved ≤ result.reserved) × (a.charged ≤ result.charged) × (a.returned ≤ result.returned) }
        ensures alone { N.book.workers ≡ 1 → IsOfOne (opening_at N.book account) (amounts_at share.old.amounts account) result }
        ensures unchanged { (self.new ≡ self.old) × (share.new ≡ share.old) }
    {
        let Book {
            rows,
            table,
            seat,
            ..
        } = self;
        let Shares {
            amounts,
            seat: theirs,
            ..
        } = share;
        let table = &table.shared;
        check_in(table, seat, theirs);
        *theirs = check_out::<Amounts, Brand>(table, seat, rows.as_slice(), amounts.as_slice());
        rows[account]
    }
}
