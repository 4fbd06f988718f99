//! The rule of a window, and its kinds of step. Word 0 is the window word, word 1 the number word.

use crate::view::{Opening, View};
use atomic_table::{Join, Play, Split, TableRule};

/// What holds between any two steps.
pub struct WindowRule;

impl<S> TableRule<S, View, Opening> for WindowRule {
    ghost use Rattle.sms_window.specs.Rule.{IsWindow, keeper};

    ghost holds = { IsWindow };

    ghost first = { keeper };
}

/// A load of the window word.
pub struct LoadWindow;

impl<S> Play<S, View> for LoadWindow {
    ghost use Rattle.sms_window.specs.Steps.{load_window};

    ghost then = { load_window };
}

/// An exchange of the window word for one with a bit more.
pub struct ExchangeClaim;

impl<S> Play<S, View> for ExchangeClaim {
    ghost use Rattle.sms_window.specs.Steps.{exchange_claim};

    ghost then = { exchange_claim };
}

/// A change of the window word to one with a bit less, whatever it was.
pub struct FetchRelease;

impl<S> Play<S, View> for FetchRelease {
    ghost use Rattle.sms_window.specs.Steps.{fetch_release};

    ghost then = { fetch_release };
}

/// A load of the number word.
pub struct LoadNumber;

impl<S> Play<S, View> for LoadNumber {
    ghost use Rattle.sms_window.specs.Steps.{load_number};

    ghost then = { load_number };
}

/// An exchange of the number word for the next number.
pub struct ExchangeDraw;

impl<S> Play<S, View> for ExchangeDraw {
    ghost use Rattle.sms_window.specs.Steps.{exchange_draw};

    ghost then = { exchange_draw };
}

/// How a seat's family is split between it and a new seat, and how two seats become one.
pub struct Families;

impl Split<View> for Families {
    ghost use Rattle.sms_window.specs.Seats.{giver, given};

    ghost left = { giver };

    ghost right = { given };
}

impl Join<View> for Families {
    ghost use Rattle.sms_window.specs.Seats.{joined, nobody};

    ghost both = { joined };

    ghost spent = { nobody };
}
