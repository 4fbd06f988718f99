//! How far the messages of a sending are.

ghost use Rattle.std.specs.Prelude.{◌≡◌, ◌||◌};
ghost use Rattle.sms_files.specs.Tally.{both, counted, ended_in, is_refused, is_unanswered, is_waiting, left_of, message_standing as standing_of_message, rate_of, segment_standing as standing_of_segment, standing_where, tally_of as tally_in};

use sms_message::{MessageEnd, MessageResult, Outcome, SegmentEnd};
use std::fmt;

/// How many messages have ended, and how. One whose segments ended differently is unanswered where
/// one of them is, else refused where one of them is refused or unsent.
#[derive(Clone, Copy, Debug, PartialEq, Eq)]
pub struct Tally {
    /// Those of which each segment was charged.
    pub charged: u64,
    /// Those that were refused, or had a segment that was refused or unsent.
    pub refused: u64,
    /// Those of which a segment had no answer.
    pub unanswered: u64,
}

/// How far a segment or a message is.
#[derive(Clone, Copy, Debug, PartialEq, Eq)]
enum Standing {
    /// It waits to be sent, or to be sent again.
    Waiting,
    Charged,
    Refused,
    /// It was sent and has no answer, or none yet.
    Unanswered,
}

impl Tally {
    /// No message has ended.
    pub fn none() -> Tally
        ensures charged { result.charged ≡ 0 }
        ensures refused { result.refused ≡ 0 }
        ensures unanswered { result.unanswered ≡ 0 }
    {
        Tally {
            charged: 0,
            refused: 0,
            unanswered: 0,
        }
    }

    /// How many messages have ended.
    pub fn ended(&self) -> u64
        ensures { result ≡ ended_in self.now }
    {
        self.charged
            .saturating_add(self.refused)
            .saturating_add(self.unanswered)
    }

    /// Both together.
    pub fn with(&self, other: &Tally) -> Tally
        ensures { result ≡ both self.now other.now }
    {
        Tally {
            charged: self.charged.saturating_add(other.charged),
            refused: self.refused.saturating_add(other.refused),
            unanswered: self.unanswered.saturating_add(other.unanswered),
        }
    }

    /// Counts a message.
    fn count(&mut self, standing: Standing)
        ensures { self.new ≡ counted standing self.old }
    {
        match standing {
            Standing::Waiting => {}
            Standing::Charged => self.charged = self.charged.saturating_add(1),
            Standing::Refused => self.refused = self.refused.saturating_add(1),
            Standing::Unanswered => self.unanswered = self.unanswered.saturating_add(1),
        }
    }
}

/// How far a segment is. While it isn't settled its outcome is `Unanswered`.
fn segment_standing<S>(segment: &SegmentEnd<S>) -> Standing
    ensures { result ≡ standing_of_segment segment.now }
{
    match segment.outcome {
        Outcome::Charged => Standing::Charged,
        Outcome::Refused | Outcome::Unsent => Standing::Refused,
        Outcome::Unanswered => match segment.attempts.as_slice().last() {
            Some(last) if last.reply.is_none() => Standing::Unanswered,
            _ => Standing::Waiting,
        },
    }
}

/// What two segments of one message come to.
fn joined(one: Standing, other: Standing) -> Standing
    ensures { result ≡ standing_where (is_waiting one || is_waiting other) (is_unanswered one || is_unanswered other) (is_refused one || is_refused other) }
{
    match (one, other) {
        (Standing::Waiting, _) | (_, Standing::Waiting) => Standing::Waiting,
        (Standing::Unanswered, _) | (_, Standing::Unanswered) => Standing::Unanswered,
        (Standing::Refused, _) | (_, Standing::Refused) => Standing::Refused,
        (Standing::Charged, Standing::Charged) => Standing::Charged,
    }
}

/// How far a message is.
fn message_standing<S>(end: &MessageEnd<S>) -> Standing
    ensures { result ≡ standing_of_message end.now }
{
    let MessageResult::Sent(segments) = &end.result else {
        return Standing::Refused;
    };
    let mut all = Standing::Charged;
    for segment in segments.as_slice() {
        all = joined(all, segment_standing(segment));
    }
    all
}

/// What has become of these messages, `open` of whose segments still wait for an answer. Such a
/// segment looks like one that had none.
pub fn tally_of<S>(ends: &[MessageEnd<S>], open: usize) -> Tally
    ensures { result ≡ tally_in ends.now «open» }
{
    let mut tally = Tally::none();
    for end in ends {
        tally.count(message_standing(end));
    }
    tally.unanswered = tally.unanswered.saturating_sub(open as u64);
    tally
}

/// The line that says how far a sending is.
#[derive(Clone, Copy, Debug, PartialEq, Eq, Drop)]
pub struct WayLine {
    /// How many messages have ended, and how.
    pub tally: Tally,
    /// How many messages there are.
    pub all: u64,
    /// How long they are being sent, in milliseconds.
    pub ms: u64,
}

impl WayLine {
    /// How many messages ended in a second.
    fn rate(&self) -> u64
        ensures { result ≡ rate_of self.now }
    {
        if self.ms == 0 {
            return 0;
        }
        self.tally.ended().saturating_mul(1000) / self.ms
    }

    /// In how many seconds the others end at this rate, where one has ended.
    fn left(&self) -> Option<u64>
        ensures { result ≡ left_of self.now }
    {
        let ended = self.tally.ended();
        if ended == 0 {
            return None;
        }
        let others = self.all.saturating_sub(ended);
        Some(others.saturating_mul(self.ms) / ended / 1000)
    }
}

/// How quickly messages end.
#[derive(Clone, Copy, Debug, PartialEq, Eq)]
struct Pace {
    /// How many in a second.
    rate: u64,
    /// In how many seconds the others do.
    left: Option<u64>,
}

impl fmt::Display for Pace {
    ghost use Rattle.std.specs.Prelude.{Some};
    ghost use Rattle.sms_files.specs.Tally.{pace_text};

    ghost output = { λ pace. Some (pace_text pace) };

    fn fmt<W: fmt::Write>(&self, f: &mut fmt::Formatter<W>) -> fmt::Result {
        let rate = self.rate;
        match self.left {
            Some(left) => write!(f, "{rate}/s, {left} s left"),
            None => write!(f, "{rate}/s"),
        }
    }
}

impl fmt::Display for Tally {
    ghost use Rattle.std.specs.Prelude.{Some};
    ghost use Rattle.sms_files.specs.Tally.{tally_text};

    ghost output = { λ tally. Some (tally_text tally) };

    fn fmt<W: fmt::Write>(&self, f: &mut fmt::Formatter<W>) -> fmt::Result {
        let (charged, refused, unanswered) = (self.charged, self.refused, self.unanswered);
        write!(
            f,
            "charged {charged} refused {refused} unanswered {unanswered}"
        )
    }
}

impl fmt::Display for WayLine {
    ghost use Rattle.std.specs.Prelude.{Some};
    ghost use Rattle.sms_files.specs.Tally.{way_text};

    ghost output = { λ line. Some (way_text line) };

    fn fmt<W: fmt::Write>(&self, f: &mut fmt::Formatter<W>) -> fmt::Result {
        let (ended, all, tally) = (self.tally.ended(), self.all, self.tally);
        let pace = Pace {
            rate: self.rate(),
            left: self.left(),
        };
        write!(f, "{ended}/{all} {tally}, {pace}")
    }
}
