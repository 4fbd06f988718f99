//! Why a segment whose turn it is can't be sent now. Each reason is evidence that only the refusing call
//! gives, so none can be made up.

ghost use Rattle.std.specs.Prelude.{◌≡◌, ◌+◌, ◌≤◌, IfErr, IfOk, IfSome};
ghost use Rattle.sms_window.specs.Outcome.{GotSlot};
ghost use Rattle.sms_window.specs.Seats.{met_with, used_up};
ghost use Rattle.sms_worker.specs.Steps.{Draws, number_of};
ghost use Rattle.sms_core.specs.Limits.{top_number};
ghost use Rattle.sms_worker.specs.Limits.{most_draws};
ghost use Rattle.sms_worker.specs.declared.steps.retry_later.AllDrawn.{AllDrawn};
ghost use Rattle.sms_worker.specs.declared.steps.retry_later.NoNumber.{NoNumber};
ghost use Rattle.sms_worker.specs.declared.steps.retry_later.Drawing.TheVariants.{Contended, UsedUp};

use crate::devices::Gate;
use crate::steps::attempt::{DRAWS, Number, draw};
use sms_core::TOP_NUMBER;
use sms_window::{Claim, Window, WindowSeat};

/// Evidence that the gate refused this worker for now.
#[derive(Clone, Copy, Debug, PartialEq, Eq)]
pub struct NotReady {
    worker: usize,
}

/// Evidence that a claim failed: `found` is the state of the window that it saw.
#[derive(Clone, Copy, Debug, PartialEq, Eq)]
pub struct NoSlot {
    found: u64,
}

/// Evidence that no number was drawn: each of `tries` tries met another seat's step.
#[derive(Clone, Copy, Debug, PartialEq, Eq)]
pub struct NoNumber {
    tries: u32,
}

/// Evidence that all numbers up to `last`, the last of all, are drawn.
#[derive(Clone, Copy, Debug, PartialEq, Eq)]
pub struct AllDrawn {
    last: u32,
}

/// Why a segment isn't sent now.
#[derive(Clone, Copy, Debug, PartialEq, Eq)]
pub enum RetryLater {
    /// The gate isn't ready.
    Gate(NotReady),
    /// The window has no slot for it.
    Window(NoSlot),
    /// The window gave it no number.
    Numbers(NoNumber),
}

/// What came of draws.
#[derive(Clone, Copy, Debug, PartialEq, Eq)]
pub enum Drawing {
    Drawn(u32),
    /// The window has given all its numbers.
    UsedUp(AllDrawn),
    /// Each try met another seat's step.
    Contended(NoNumber),
}

/// Asks the gate whether this worker may send now.
pub fn not_ready<G: Gate>(gate: &G, worker: usize) -> Option<NotReady>
    ensures { IfSome result (λ r. r.worker ≡ worker) }
{
    if gate.ready(worker) {
        return None;
    }
    Some(NotReady { worker })
}

/// Claims a slot of the seat's window, in one try.
pub fn claim(window: &Window, seat: &mut WindowSeat) -> Result<u32, NoSlot>
    requires same_window { seat.old.window ≡ window.now }
    ensures window { seat.new.window ≡ seat.old.window }
    ensures got { IfOk result (λ slot. GotSlot seat.old.view slot seat.new.view) }
    ensures found { IfErr result (λ r. seat.new.view ≡ met_with seat.old.view r.found) }
{
    match window.try_claim(seat) {
        Claim::Got(slot) => Ok(slot),
        Claim::Full => Err(NoSlot { found: u64::MAX }),
        Claim::Contended(found) => Err(NoSlot { found }),
    }
}

/// Draws a sequence_number of the seat's window.
pub fn draw_one(window: &Window, seat: &mut WindowSeat) -> Drawing
    requires same_window { seat.old.window ≡ window.now }
    ensures window { seat.new.window ≡ seat.old.window }
    ensures slots { seat.new.view.slots ≡ seat.old.view.slots }
    ensures drawn { Draws seat.old.view (number_of result) seat.new.view }
    ensures used_up { (all : AllDrawn) → result ≡ UsedUp all → (all.last ≡ top_number) × (seat.new.view.seen ≡ used_up) }
    ensures contended { (no : NoNumber) → result ≡ Contended no → (no.tries ≡ most_draws) × (seat.old.view.seen + most_draws ≤ seat.new.view.seen) }
{
    match draw(window, seat) {
        Number::Drawn(number) => Drawing::Drawn(number),
        Number::UsedUp => Drawing::UsedUp(AllDrawn { last: TOP_NUMBER }),
        Number::Contended => Drawing::Contended(NoNumber { tries: DRAWS }),
    }
}
