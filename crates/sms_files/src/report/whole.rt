//! Which messages were sent whole.

ghost use Rattle.std.specs.Prelude.{◌≡◌};
ghost use Rattle.std.specs.List.{list_all};
ghost use Rattle.sms_files.specs.Summary.{capped};
ghost use Rattle.sms_files.specs.Whole.{are_charged as have_charged, are_whole as all_whole, counts_whole, is_charged as has_charged, is_whole as stands_whole, whole_in};

use sms_message::{MessageEnd, MessageResult, Outcome, SegmentEnd};

/// Whether the outcome is that the message centre took the segment.
fn is_charged(outcome: Outcome) -> bool
    ensures { result ≡ has_charged outcome }
{
    match outcome {
        Outcome::Charged => true,
        Outcome::Refused | Outcome::Unanswered | Outcome::Unsent => false,
    }
}

/// Whether each of these segments was charged.
fn is_each_charged<S>(segments: &[SegmentEnd<S>]) -> bool
    ensures { result ≡ list_all (λ s. has_charged s.outcome) segments.now }
{
    for segment in segments {
        if !is_charged(segment.outcome) {
            return false;
        }
    }
    true
}

/// Whether there are segments, and each was charged.
fn are_charged<S>(segments: &[SegmentEnd<S>]) -> bool
    ensures { result ≡ have_charged segments.now }
{
    match segments.is_empty() {
        true => false,
        false => is_each_charged(segments),
    }
}

/// Whether the message was sent whole: it has segments, and each was charged.
fn is_whole<S>(end: &MessageEnd<S>) -> bool
    ensures { result ≡ stands_whole end.now }
{
    match &end.result {
        MessageResult::Sent(segments) => are_charged(segments.as_slice()),
        MessageResult::Refused(_) => false,
    }
}

/// Whether each of these messages was sent whole.
pub fn are_whole<S>(ends: &[MessageEnd<S>]) -> bool
    ensures { result ≡ all_whole ends.now }
{
    for end in ends {
        if !is_whole(end) {
            return false;
        }
    }
    true
}

/// 1 for a message that was sent whole, else 0.
fn count<S>(end: &MessageEnd<S>) -> usize
    ensures { result ≡ counts_whole end.now }
{
    if is_whole(end) { 1 } else { 0 }
}

/// How many of these messages were sent whole.
pub(crate) fn count_whole<S>(ends: &[MessageEnd<S>]) -> usize
    ensures { result ≡ capped (whole_in ends.now) }
{
    let mut total = 0usize;
    for end in ends {
        total = total.saturating_add(count(end));
    }
    total
}
