//! A thread's part in a window.

ghost use Rattle.std.specs.Prelude.{◌≡◌, ℕ, ◌<◌, ◌↔◌, IsTrue};
ghost use Rattle.sms_window.specs.Seats.{CanSplit, Holds};

use crate::view::View;
use atomic_table::Seat;
use sms_core::MOST_SLOTS;
use std::marker::Model;

/// A seat of a window, with which a thread steps. It has a name, a family of names to give to other
/// seats, the slots that it claimed and the numbers that it drew. The slots of a seat that is
/// dropped stay held.
#[derive(Drop)]
pub struct WindowSeat {
    pub(crate) seat: Seat<(), View>,
    pub(crate) name: u32,
    pub(crate) family: u64,
    pub(crate) slots: u64,
}

impl Model for WindowSeat {
    ghost use Rattle.sms_window.specs.SeatState.{SeatState, IsSound};

    ghost Value = { SeatState };

    ghost view = { λ s. record { window = s.seat.table_id; view = s.seat.me.0 } };

    ghost invariant = { λ s. IsSound s.seat.me.0 s.seat.me.1 s.name s.family s.slots };
}

impl WindowSeat {
    /// Whether the family has a name beside the seat's own, so that a new seat can be split off.
    pub fn can_split(&self) -> bool
        ensures { IsTrue result ↔ CanSplit self.now.view }
    {
        self.family > 1u64 << self.name
    }

    /// Whether the seat holds the slot. No seat holds a slot from 64 on.
    pub fn holds(&self, slot: u32) -> bool
        ensures { IsTrue result ↔ Holds self.now.view slot }
    {
        slot < MOST_SLOTS && (self.slots >> slot) & 1 == 1
    }
}
