//! The exit status of a sending, by what became of its segments.

ghost use Rattle.std.specs.Prelude.{◌≡◌};
ghost use Rattle.sms_files.specs.Report.{ends_status, has_unanswered, is_open_end, is_unanswered as is_silence, some_unanswered};

use sms_message::{MessageEnd, MessageResult, Outcome, SegmentEnd};

/// The exit status where a segment is unanswered.
const UNANSWERED: u8 = 4;

/// Whether the outcome is that there was no answer.
fn is_unanswered(outcome: Outcome) -> bool
    ensures { result ≡ is_silence outcome }
{
    match outcome {
        Outcome::Unanswered => true,
        Outcome::Charged | Outcome::Refused | Outcome::Unsent => false,
    }
}

/// Whether one of the segments is unanswered.
fn is_some_unanswered<S>(segments: &[SegmentEnd<S>]) -> bool
    ensures { result ≡ has_unanswered segments.now }
{
    for segment in segments {
        if is_unanswered(segment.outcome) {
            return true;
        }
    }
    false
}

/// Whether a segment of the message is unanswered.
fn is_open<S>(end: &MessageEnd<S>) -> bool
    ensures { result ≡ is_open_end end.now.result }
{
    match &end.result {
        MessageResult::Sent(segments) => is_some_unanswered(segments.as_slice()),
        MessageResult::Refused(_) => false,
    }
}

/// Whether a segment of one of the messages is unanswered.
fn is_some_open<S>(ends: &[MessageEnd<S>]) -> bool
    ensures { result ≡ some_unanswered ends.now }
{
    for end in ends {
        if is_open(end) {
            return true;
        }
    }
    false
}

/// The program's exit status where all was sent and printed: 4 where a segment is unanswered, so that
/// credits stay reserved, else 0.
pub fn exit_status_of<S>(ends: &[MessageEnd<S>]) -> u8
    ensures { result ≡ ends_status ends.now }
{
    if is_some_open(ends) { UNANSWERED } else { 0 }
}
