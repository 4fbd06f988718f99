//! What the seats of a log know, and the rule that holds of them between any two steps.
//!
//! No value of `View` is made: it is what contracts and the rule see of a seat.

use atomic_table::{Join, Play, Split, TableRule};
use std::collections::LinkedList;
use std::marker::{Brand, PhantomData};

/// What a seat knows: a wire's what it was given, a pass's the requests that it claims.
pub struct View {
    /// Its parts of the right to know the whole.
    pub parts: u32,
    /// What a wire's writer had when the log of the wire began, if it is known.
    pub first: Option<LinkedList<u8>>,
    /// The frames that a wire was given, in order.
    pub given: LinkedList<LinkedList<u8>>,
    /// The requests that a pass claims, in order.
    pub claims: LinkedList<LinkedList<u8>>,
}

pub struct LogRule;

impl TableRule<(), View, ()> for LogRule {
    ghost use Rattle.sms_bind.specs.LogRule.{IsKept, first_seat};

    ghost holds = { λ _ s. IsKept s };

    ghost first = { λ _. first_seat };
}

/// Two seats become one.
pub struct TakesIn;

impl Join<View> for TakesIn {
    ghost use Rattle.sms_bind.specs.LogRule.{joined, spent};

    ghost both = { joined };

    ghost spent = { spent };
}

/// A new seat gets one part.
pub struct Deals;

impl Split<View> for Deals {
    ghost use Rattle.sms_bind.specs.LogRule.{dealer, dealt};

    ghost left = { dealer };

    ghost right = { dealt };
}

/// What a wire's writer had when the log of the wire began, which the call picks.
pub trait Begun {
    ghost use Rattle.std.specs.Prelude.{Option, List, ℕ};

    ghost first: { Option (List ℕ) };
}

impl Begun for Brand {
    ghost use Rattle.std.specs.Prelude.{None};

    ghost first = { None };
}

/// A wire's new seat gets one part.
pub struct Begins<F>(PhantomData<F>);

impl<F: Begun> Split<View> for Begins<F> {
    ghost use Rattle.std.specs.Prelude.{[]};
    ghost use Rattle.sms_bind.specs.LogRule.{dealer, wire_seat};

    ghost left = { dealer };

    ghost right = { λ v. wire_seat F.first [] };
}

/// The frame that a wire is given, which the call picks.
pub trait Given {
    ghost use Rattle.std.specs.Prelude.{List, ℕ};

    ghost frame: { List ℕ };
}

impl Given for Brand {
    ghost use Rattle.std.specs.Prelude.{[]};

    ghost frame = { [] };
}

/// The pass that was taken in goes out again, with the frame that the call picks.
pub struct Claims<F>(PhantomData<F>);

impl<F: Given> Split<View> for Claims<F> {
    ghost use Rattle.sms_bind.specs.LogRule.{wire_after, pass_after};

    ghost left = { λ v. wire_after F.frame v };

    ghost right = { λ v. pass_after F.frame v };
}

/// The wire is given a frame that nobody claims, which the call picks.
pub struct Notes<F>(PhantomData<F>);

impl<F: Given> Split<View> for Notes<F> {
    ghost use Rattle.sms_bind.specs.LogRule.{noted, spent};

    ghost left = { λ v. noted F.frame v };

    ghost right = { λ v. spent };
}

/// A look that tells who has all parts that its claims are the requests that it was given.
pub struct Tells;

impl Play<(), View> for Tells {
    ghost use Rattle.sms_bind.specs.LogRule.{Settles};

    ghost then = { λ step v found w. Settles v w };
}
