//! What became of messages.

use sms_pdu::Reply;
use std::alloc::Global;
use std::marker::Model;
use std::mem;

/// What became of a segment.
#[derive(Clone, Copy, Debug, PartialEq, Eq)]
pub enum Outcome {
    Charged,
    Refused,
    Unanswered,
    Unsent,
}

/// One sending of a segment. `S` is the evidence that its frame was sent.
#[derive(Drop)]
pub struct Attempt<S> {
    pub number: u32,
    pub sent: S,
    pub reply: Option<Reply>,
}

/// The attempts of a segment, in order. Contracts see the list.
#[derive(Drop)]
pub struct Attempts<S> {
    items: Vec<Attempt<S>>,
}

impl<S> Model for Attempts<S> {
    ghost use Rattle.std.specs.Prelude.{List};
    ghost use Rattle.sms_message.specs.declared.ends.Attempt.{Attempt};

    ghost Value = { List (Attempt S) };

    ghost view = { λ a. a.items.items };
}

impl<S> Attempts<S> {
    ghost use Rattle.std.specs.Prelude.{◌≡◌, [], length};

    /// These attempts. Takes no memory.
    pub fn new(items: Vec<Attempt<S>>) -> Attempts<S>
        ensures { result ≡ items.items }
    {
        Attempts { items }
    }

    /// The attempts again. Takes no memory.
    pub fn into_vec(self) -> Vec<Attempt<S>>
        ensures { result.items ≡ self }
    {
        self.items
    }

    /// The attempts.
    pub fn as_slice(&self) -> &[Attempt<S>]
        ensures { result.now ≡ self.now }
    {
        self.items.as_slice()
    }
}

/// What became of a segment, and by which attempts.
#[derive(Drop)]
pub struct SegmentEnd<S> {
    /// Its credits.
    pub cost: u32,
    pub attempts: Attempts<S>,
    pub outcome: Outcome,
}

/// The segments of a message, in order. Contracts see the list.
#[derive(Drop)]
pub struct Segments<S> {
    items: Vec<SegmentEnd<S>>,
}

impl<S> Model for Segments<S> {
    ghost use Rattle.std.specs.Prelude.{List};
    ghost use Rattle.sms_message.specs.declared.ends.SegmentEnd.{SegmentEnd};

    ghost Value = { List (SegmentEnd S) };

    ghost view = { λ s. s.items.items };
}

impl<S> Segments<S> {
    ghost use Rattle.std.specs.Prelude.{◌≡◌, ◌<◌, Some, length, slice_get, slice_set};

    /// These segments. Takes no memory.
    pub fn new(items: Vec<SegmentEnd<S>>) -> Segments<S>
        ensures { result ≡ items.items }
    {
        Segments { items }
    }

    /// How many there are.
    pub fn len(&self) -> usize
        ensures { result ≡ length self.now }
    {
        self.items.len()
    }

    /// The segments.
    pub fn as_slice(&self) -> &[SegmentEnd<S>]
        ensures { result.now ≡ self.now }
    {
        self.items.as_slice()
    }

    /// Puts another segment in the place of one, and gives that.
    pub fn exchange(&mut self, part: usize, segment: SegmentEnd<S>) -> SegmentEnd<S>
        requires { part < length self.old }
        ensures out { slice_get self.old part ≡ Some result }
        ensures now { self.new ≡ slice_set self.old part segment }
    {
        mem::replace(&mut self.items[part], segment)
    }
}

/// Why a message isn't sent at all.
#[derive(Clone, Copy, Debug, PartialEq, Eq)]
pub enum MessageRefusal {
    NoAccount,
    NoCredit,
    TooLong,
    BadAddress,
    BindClosed,
    OutOfMemory,
}

/// What became of a message.
#[derive(Drop)]
pub enum MessageResult<S> {
    Sent(Segments<S>),
    Refused(MessageRefusal),
}

/// What became of the message with this index.
#[derive(Drop)]
pub struct MessageEnd<S> {
    pub index: u64,
    pub result: MessageResult<S>,
}
