//! The line at the end of a sending, and what it counts.

ghost use Rattle.std.specs.Prelude.{◌≡◌, ◌+◌, ◌-◌, ◌^◌, length, min, sum_by};
ghost use Rattle.sms_files.specs.Summary.{capped, credits_of as credits_in, segments_in, summary_of as summary_in, trial_text};

use crate::report::whole::count_whole;
use sms_book::Statement;
use sms_core::Row;
use sms_message::{MessageEnd, MessageResult};
use std::fmt;

/// Where the credits of all accounts stand. A sum past 64 bits is the greatest number.
#[derive(Clone, Copy, Debug, PartialEq, Eq)]
pub struct Credits {
    /// Those of segments that the message centre took.
    pub charged: u64,
    /// Those of segments that were refused or not sent.
    pub returned: u64,
    /// Those of segments that had no answer.
    pub reserved: u64,
}

/// How much was sent, and where the credits stand.
#[derive(Clone, Copy, Debug, PartialEq, Eq)]
pub struct Summary {
    /// How many messages there were, sent or refused.
    pub messages: usize,
    /// How many of them were sent whole: they have segments, and each was charged.
    pub whole: usize,
    /// How many segments they were sent as; past 64 bits the greatest number.
    pub segments: u64,
    /// Where the credits of all accounts stand.
    pub credits: Credits,
}

impl fmt::Display for Credits {
    ghost use Rattle.std.specs.Prelude.{Some};
    ghost use Rattle.sms_files.specs.Summary.{credits_text};

    ghost output = { λ credits. Some (credits_text credits) };

    fn fmt<W: fmt::Write>(&self, f: &mut fmt::Formatter<W>) -> fmt::Result {
        let (charged, returned, reserved) = (self.charged, self.returned, self.reserved);
        write!(
            f,
            "credits charged {charged}, returned {returned}, still reserved {reserved}"
        )
    }
}

impl fmt::Display for Summary {
    ghost use Rattle.std.specs.Prelude.{Some};
    ghost use Rattle.sms_files.specs.Summary.{summary_text};

    ghost output = { λ summary. Some (summary_text summary) };

    fn fmt<W: fmt::Write>(&self, f: &mut fmt::Formatter<W>) -> fmt::Result {
        let (segments, credits) = (self.segments, self.credits);
        let count = MessageCount {
            messages: self.messages,
            whole: self.whole,
        };
        write!(f, "messages {count}, segments {segments}, {credits}")
    }
}

/// How many messages there were, and how many of them were sent whole.
#[derive(Clone, Copy)]
struct MessageCount {
    messages: usize,
    whole: usize,
}

impl fmt::Display for MessageCount {
    ghost use Rattle.std.specs.Prelude.{Some};
    ghost use Rattle.sms_files.specs.Summary.{count_text};

    ghost output = { λ count. Some (count_text count.messages count.whole) };

    fn fmt<W: fmt::Write>(&self, f: &mut fmt::Formatter<W>) -> fmt::Result {
        let (messages, whole) = (self.messages, self.whole);
        let others = messages.saturating_sub(whole);
        write!(f, "{messages} ({whole} sent whole, {others} not)")
    }
}

impl Credits {
    /// These and an account's.
    fn with(self, row: &Row) -> Credits
        ensures charged { result.charged ≡ min (self.charged + row.now.charged) (2 ^ 64 - 1) }
        ensures returned { result.returned ≡ min (self.returned + row.now.returned) (2 ^ 64 - 1) }
        ensures reserved { result.reserved ≡ min (self.reserved + row.now.reserved) (2 ^ 64 - 1) }
    {
        Credits {
            charged: self.charged.saturating_add(row.charged),
            returned: self.returned.saturating_add(row.returned),
            reserved: self.reserved.saturating_add(row.reserved),
        }
    }
}

/// How many segments the message was sent as.
fn segments_of<S>(end: &MessageEnd<S>) -> usize
    ensures { result ≡ segments_in end.now }
{
    match &end.result {
        MessageResult::Sent(segments) => segments.len(),
        MessageResult::Refused(_) => 0,
    }
}

/// How many segments all messages were sent as.
fn all_segments<S>(ends: &[MessageEnd<S>]) -> u64
    ensures { result ≡ capped (sum_by segments_in ends.now) }
{
    let mut total = 0u64;
    for end in ends {
        total = total.saturating_add(segments_of(end) as u64);
    }
    total
}

/// The sums over all accounts.
fn credits_of(rows: &[Row]) -> Credits
    ensures { result ≡ credits_in rows.now }
{
    let mut credits = Credits {
        charged: 0,
        returned: 0,
        reserved: 0,
    };
    for row in rows {
        credits = credits.with(row);
    }
    credits
}

/// What the report and the statement come to.
pub fn summary_of<S>(ends: &[MessageEnd<S>], statement: &Statement) -> Summary
    ensures { result ≡ summary_in ends.now statement.now }
{
    Summary {
        messages: ends.len(),
        whole: count_whole(ends),
        segments: all_segments(ends),
        credits: credits_of(statement.rows()),
    }
}

/// The line that ends a sending.
#[derive(Clone, Copy, Debug, PartialEq, Eq, Drop)]
pub struct EndLine {
    /// What it came to.
    pub summary: Summary,
    /// How long it took, in milliseconds.
    pub ms: u64,
    /// Whether it was a trial, through a test centre.
    pub trial: bool,
}

/// Seconds with a tenth, rounded down.
#[derive(Clone, Copy)]
struct Seconds {
    ms: u64,
}

impl fmt::Display for Seconds {
    ghost use Rattle.std.specs.Prelude.{Some};
    ghost use Rattle.sms_files.specs.Summary.{seconds_text};

    ghost output = { λ seconds. Some (seconds_text seconds.ms) };

    fn fmt<W: fmt::Write>(&self, f: &mut fmt::Formatter<W>) -> fmt::Result {
        let (seconds, tenths) = (self.ms / 1000, self.ms % 1000 / 100);
        write!(f, "{seconds}.{tenths}")
    }
}

/// What the line says at its end of a trial.
fn trial_suffix(trial: bool) -> &'static str
    ensures { result.now ≡ trial_text trial }
{
    match trial {
        true => "; a trial: no message centre saw any of it",
        false => "",
    }
}

impl fmt::Display for EndLine {
    ghost use Rattle.std.specs.Prelude.{Some};
    ghost use Rattle.sms_files.specs.Summary.{done_text};

    ghost output = { λ line. Some (done_text line) };

    fn fmt<W: fmt::Write>(&self, f: &mut fmt::Formatter<W>) -> fmt::Result {
        let (summary, seconds) = (self.summary, Seconds { ms: self.ms });
        let suffix = trial_suffix(self.trial);
        write!(f, "done: {summary}, seconds {seconds}{suffix}")
    }
}
