//! Taking a segment end out of the ends, and giving it back.

ghost use Rattle.std.specs.Prelude.{◌≡◌, Some, None, IfSome, IfNone, slice_get, vec_len, vec_capacity};
ghost use Rattle.sms_worker.specs.Types.{SegmentEnd};
ghost use Rattle.sms_message.specs.Ends.{segments_in, segment_at, with_part, put};
ghost use Rattle.sms_worker.specs.Steps.{Takes, emptied};

use crate::ends::{Attempts, MessageEnd, MessageResult, SegmentEnd};
use crate::state::open::SegmentPlace;
use std::alloc::Global;

// What stands in the place of a segment end that is taken out: its cost and its outcome.
fn emptied(alloc: Global, segment: &SegmentEnd) -> SegmentEnd
    ensures { result ≡ emptied segment.now }
{
    SegmentEnd {
        cost: segment.cost,
        attempts: Attempts::new(Vec::new(alloc)),
        outcome: segment.outcome,
    }
}

fn take_part(alloc: Global, end: &mut MessageEnd, part: usize) -> Option<SegmentEnd>
    ensures out { IfSome result (λ s. (slice_get (segments_in end.old.result) part ≡ Some s) × (end.new ≡ with_part end.old part (emptied s))) }
    ensures none { IfNone result ((end.new ≡ end.old) × (slice_get (segments_in end.old.result) part ≡ None)) }
{
    let MessageResult::Sent(segments) = &mut end.result else {
        return None;
    };
    if part >= segments.len() {
        return None;
    }
    let left = emptied(alloc, &segments.as_slice()[part]);
    Some(segments.exchange(part, left))
}

fn give_part(end: &mut MessageEnd, part: usize, segment: SegmentEnd)
    requires { (s : SegmentEnd) × (slice_get (segments_in end.old.result) part ≡ Some s) }
    ensures { end.new ≡ with_part end.old part segment }
{
    if let MessageResult::Sent(segments) = &mut end.result {
        let _blank = segments.exchange(part, segment);
    }
}

/// Takes the segment end at the place out, if there is one, until it is given back.
pub(crate) fn take(
    alloc: Global,
    ends: &mut Vec<MessageEnd>,
    place: SegmentPlace,
) -> Option<SegmentEnd>
    ensures out { IfSome result (λ s. Takes ends.old.items place.message place.part s ends.new.items) }
    ensures none { IfNone result ((ends.new.items ≡ ends.old.items) × (segment_at ends.old.items place.message place.part ≡ None)) }
    ensures room { (vec_capacity ends.new ≡ vec_capacity ends.old) × (vec_len ends.new ≡ vec_len ends.old) }
{
    if place.message >= ends.len() {
        return None;
    }
    let end = &mut ends[place.message];
    take_part(alloc, end, place.part)
}

/// Puts a segment end in the place of the one that is there.
pub(crate) fn give(ends: &mut Vec<MessageEnd>, place: SegmentPlace, segment: SegmentEnd)
    requires exists { (s : SegmentEnd) × (segment_at ends.old.items place.message place.part ≡ Some s) }
    ensures now { ends.new.items ≡ put ends.old.items place.message place.part segment }
    ensures room { (vec_capacity ends.new ≡ vec_capacity ends.old) × (vec_len ends.new ≡ vec_len ends.old) }
{
    let end = &mut ends[place.message];
    give_part(end, place.part, segment);
}
