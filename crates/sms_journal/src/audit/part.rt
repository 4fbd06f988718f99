//! The parts that were sent, as the model has them.

use std::alloc::Global;
use std::marker::Model;

/// An answer to an attempt: its command_status, and whether it is a generic_nack.
#[derive(Clone, Copy, Debug, PartialEq, Eq)]
pub struct Answer {
    pub status: u32,
    pub nack: bool,
}

/// The attempts of a part, each with its answer if it got one. Contracts see the list.
#[derive(Drop)]
pub struct Answers {
    items: Vec<Option<Answer>>,
}

impl Model for Answers {
    ghost use Rattle.std.specs.Prelude.{List, Option, map};
    ghost use Rattle.sms_core.specs.Replies.{Reply};
    ghost use Rattle.sms_journal.specs.Replied.{said};

    ghost Value = { List (Option Reply) };

    ghost view = { λ a. map said a.items.items };
}

impl Answers {
    ghost use Rattle.std.specs.Prelude.{◌≡◌, map};
    ghost use Rattle.sms_journal.specs.Replied.{said};

    /// These attempts. Takes no memory.
    pub fn new(items: Vec<Option<Answer>>) -> Answers
        ensures { result ≡ map said items.items }
    {
        Answers { items }
    }

    /// The attempts.
    pub fn as_slice(&self) -> &[Option<Answer>]
        ensures { map said result.now ≡ self.now }
    {
        self.items.as_slice()
    }
}

/// A part that was sent, or was to be.
#[derive(Drop)]
pub struct SentPart {
    /// The place of the account that pays it.
    pub account: usize,
    /// Its credits.
    pub cost: u32,
    pub attempts: Answers,
}
