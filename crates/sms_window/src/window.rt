//! The window, and the steps on it.

ghost use Rattle.std.specs.Prelude.{◌≡◌, ℕ, ◌+◌, ◌≤◌, IfOk, IfErr};
ghost use Rattle.sms_core.specs.Numbers.{times};
ghost use Rattle.sms_window.specs.Seats.{CanSplit, Holds, met_with, giver, given, joined};
ghost use Rattle.sms_window.specs.Steps.{HasMet};
ghost use Rattle.sms_window.specs.Outcome.{Claimed, FreedSlot, Drawn, IsMade, Refuses, IsEnd};

use crate::error::WindowError;
use crate::outcome::{Claim, Closed, Draw};
use crate::rule::{
    ExchangeClaim, ExchangeDraw, Families, FetchRelease, LoadNumber, LoadWindow, WindowRule,
};
use crate::seat::WindowSeat;
use crate::view::{Opening, View};
use atomic_table::Table;
use sms_core::{MOST_SLOTS, TOP_NUMBER};
use std::alloc::Global;
use std::marker::Model;

/// The window of a bind. Its window word has a bit for each of the 64 slots, set where a seat holds
/// it; its number word has the next sequence number. Threads share it by `&`, each with a seat of
/// its own. To a contract it is its name.
#[derive(Drop)]
pub struct Window {
    table: Table<(), View, Opening, WindowRule, Global>,
}

impl Model for Window {
    ghost use Rattle.std.specs.Prelude.{◌≡◌};
    ghost use Rattle.atomic_table.specs.Seated.{TableId, table_id_coded};

    ghost Value = { TableId };

    ghost coded = { table_id_coded };

    ghost view = { λ w. w.table.shared.table_id };

    ghost invariant = { λ w. (w.table.shared.table_id.words ≡ 2) × (w.table.shared.table_id.slots ≡ 0) };
}

impl Window {
    /// A window of `limit` slots, 1 to 64, whose numbers begin at 1, and its keeper's seat. That
    /// seat has all names, and holds the slots from the limit on.
    pub fn make(alloc: Global, limit: u32) -> Result<(Window, WindowSeat), WindowError>
        ensures made { IfOk result (λ r. IsMade limit 1 r.0 r.1) }
        ensures refused { IfErr result (λ e. Refuses limit 1 e) }
    {
        Window::make_from(alloc, limit, 1)
    }

    /// The same, where the numbers begin at `first`, 1 to 0x7FFFFFFF. A bad limit is told before a
    /// bad first number.
    pub fn make_from(
        alloc: Global,
        limit: u32,
        first: u32,
    ) -> Result<(Window, WindowSeat), WindowError>
        ensures made { IfOk result (λ r. IsMade limit first r.0 r.1) }
        ensures refused { IfErr result (λ e. Refuses limit first e) }
    {
        if limit < 1 || limit > MOST_SLOTS {
            return Err(WindowError::BadLimit);
        }
        if first < 1 || first > TOP_NUMBER {
            return Err(WindowError::BadFirst);
        }
        let held = if limit == MOST_SLOTS {
            0
        } else {
            u64::MAX << limit
        };
        let opening = Opening { limit, first };
        let Ok((table, seat)) = Table::of_words(alloc, &[held, u64::from(first)], &opening) else {
            return Err(WindowError::OutOfMemory);
        };
        Ok((
            Window { table },
            WindowSeat {
                seat,
                name: 0,
                family: u64::MAX,
                slots: held,
            },
        ))
    }

    /// Makes a new seat, which has one name: the greatest of the seat's family but for its own.
    pub fn split(&self, seat: &mut WindowSeat) -> WindowSeat
        requires same_window { seat.old.window ≡ self.now }
        requires names { CanSplit seat.old.view }
        ensures window { (seat.new.window ≡ seat.old.window) × (result.window ≡ seat.old.window) }
        ensures giver { seat.new.view ≡ met_with (giver seat.old.view) seat.new.view.met }
        ensures given { result.view ≡ met_with (given seat.old.view) seat.new.view.met }
        ensures met { HasMet seat.new.view }
        ensures family { seat.new.view.family + result.view.family ≡ seat.old.view.family }
    {
        let others = seat.family - (1u64 << seat.name);
        let name = 63 - others.leading_zeros();
        let family = 1u64 << name;
        // The load tells `met`, with which the new seat begins too: a split tells no word.
        self.table.shared.load::<LoadWindow>(&mut seat.seat, 0);
        let new = self.table.shared.split_seat::<Families>(&mut seat.seat);
        seat.family -= family;
        WindowSeat {
            seat: new,
            name,
            family,
            slots: 0,
        }
    }

    /// Takes another seat in: its slots, its numbers and its names.
    pub fn join(&self, seat: &mut WindowSeat, other: WindowSeat)
        requires same_window { (seat.old.window ≡ self.now) × (other.window ≡ self.now) }
        ensures window { seat.new.window ≡ seat.old.window }
        ensures joined { seat.new.view ≡ met_with (joined seat.old.view other.view) seat.new.view.met }
        ensures met { HasMet seat.new.view }
    {
        let WindowSeat {
            seat: theirs,
            name: _,
            family,
            slots,
        } = other;
        self.table
            .shared
            .join_seat::<Families>(&mut seat.seat, theirs);
        // The load tells `met`, and that the two sets are apart, so that they may be added.
        self.table.shared.load::<LoadWindow>(&mut seat.seat, 0);
        seat.family += family;
        seat.slots += slots;
    }

    /// Tries to claim the least slot that is clear in the word that it loads.
    pub fn try_claim(&self, seat: &mut WindowSeat) -> Claim
        requires same_window { seat.old.window ≡ self.now }
        ensures window { seat.new.window ≡ seat.old.window }
        ensures claimed { Claimed seat.old.view result seat.new.view }
    {
        let found = self.table.shared.load::<LoadWindow>(&mut seat.seat, 0);
        if found == u64::MAX {
            return Claim::Full;
        }
        let slot = found.trailing_ones();
        let bit = 1u64 << slot;
        let now = self
            .table
            .shared
            .compare_exchange::<ExchangeClaim>(&mut seat.seat, 0, found, found | bit);
        if now == found {
            seat.slots |= bit;
            Claim::Got(slot)
        } else {
            Claim::Contended(now)
        }
    }

    /// Releases a slot that the seat holds. It is one step, which can't fail.
    pub fn release(&self, seat: &mut WindowSeat, slot: u32)
        requires same_window { seat.old.window ≡ self.now }
        requires held { Holds seat.old.view slot }
        ensures window { seat.new.window ≡ seat.old.window }
        ensures freed { FreedSlot seat.old.view slot seat.new.view }
    {
        let mask = !(1u64 << slot);
        self.table
            .shared
            .fetch_and::<FetchRelease>(&mut seat.seat, 0, mask);
        seat.slots &= mask;
    }

    /// Tries to draw the next sequence number. Where another seat drew between the two steps that it takes,
    /// the number word is greater than what the seat had seen of it.
    pub fn try_draw(&self, seat: &mut WindowSeat) -> Draw
        requires same_window { seat.old.window ≡ self.now }
        ensures window { seat.new.window ≡ seat.old.window }
        ensures drawn { Drawn seat.old.view result seat.new.view }
    {
        let found = self.table.shared.load::<LoadNumber>(&mut seat.seat, 1);
        if found > u64::from(TOP_NUMBER) {
            return Draw::UsedUp;
        }
        let now = self
            .table
            .shared
            .compare_exchange::<ExchangeDraw>(&mut seat.seat, 1, found, found + 1);
        if now == found {
            Draw::Number(found as u32)
        } else {
            Draw::Contended(now)
        }
    }

    /// Ends the window, and tells its two words. Any seat of it may be handed in; one that has all
    /// names accounts for both words alone. No number is twice among those of a seat, so seats that
    /// were joined never drew the same.
    pub fn close(self, seat: WindowSeat) -> Closed
        requires same_window { seat.window ≡ self }
        ensures end { IsEnd seat.view result.held result.next }
        ensures once { (n : ℕ) → times n seat.view.numbers ≤ 1 }
    {
        let closed = self.table.close_with(seat.seat);
        let held = closed.word(0);
        let next = closed.word(1);
        closed.free();
        Closed { held, next }
    }
}
