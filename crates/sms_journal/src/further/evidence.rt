//! The ends of messages without the evidence that their requests were sent.

ghost use Rattle.std.specs.Prelude.{◌≡◌, IfOk, map};
ghost use Rattle.sms_journal.specs.Sums.{attempt_without_evidence, end_without_evidence, result_without_evidence, segment_without_evidence};

use sms_files::memory::{self, NoMemory};
use sms_message::{Attempt, Attempts, MessageEnd, MessageResult, SegmentEnd, Segments};
use std::alloc::Global;

/// The attempts of a segment.
fn attempts_of<S>(alloc: Global, attempts: &[Attempt<S>]) -> Result<Vec<Attempt<()>>, NoMemory>
    ensures { IfOk result (λ bare. bare.items ≡ map attempt_without_evidence attempts.now) }
{
    let mut bare = memory::list_for(alloc, attempts)?;
    for attempt in attempts {
        let one = Attempt {
            number: attempt.number,
            sent: (),
            reply: attempt.reply,
        };
        memory::push(&mut bare, one)?;
    }
    Ok(bare)
}

/// A segment.
fn segment_of<S>(alloc: Global, segment: &SegmentEnd<S>) -> Result<SegmentEnd<()>, NoMemory>
    ensures { IfOk result (λ bare. bare ≡ segment_without_evidence segment.now) }
{
    let attempts = attempts_of(alloc, segment.attempts.as_slice())?;
    Ok(SegmentEnd {
        cost: segment.cost,
        attempts: Attempts::new(attempts),
        outcome: segment.outcome,
    })
}

/// The segments of a message.
fn segments_of<S>(
    alloc: Global,
    segments: &[SegmentEnd<S>],
) -> Result<Vec<SegmentEnd<()>>, NoMemory>
    ensures { IfOk result (λ bare. bare.items ≡ map segment_without_evidence segments.now) }
{
    let mut bare = memory::list_for(alloc, segments)?;
    for segment in segments {
        let one = segment_of(alloc, segment)?;
        memory::push(&mut bare, one)?;
    }
    Ok(bare)
}

/// The end of a message.
fn end_of<S>(alloc: Global, end: &MessageEnd<S>) -> Result<MessageEnd<()>, NoMemory>
    ensures { IfOk result (λ bare. bare ≡ end_without_evidence end.now) }
{
    let index = end.index;
    match &end.result {
        MessageResult::Sent(segments) => {
            let bare = segments_of(alloc, segments.as_slice())?;
            Ok(MessageEnd {
                index,
                result: MessageResult::Sent(Segments::new(bare)),
            })
        }
        MessageResult::Refused(refusal) => Ok(MessageEnd {
            index,
            result: MessageResult::Refused(*refusal),
        }),
    }
}

/// The ends of messages without the evidence that their requests were sent, as a journal tells them.
pub fn without_evidence<S>(
    alloc: Global,
    ends: &[MessageEnd<S>],
) -> Result<Vec<MessageEnd<()>>, NoMemory>
    ensures { IfOk result (λ bare. bare.items ≡ map end_without_evidence ends.now) }
{
    let mut bare = memory::list_for(alloc, ends)?;
    for end in ends {
        let one = end_of(alloc, end)?;
        memory::push(&mut bare, one)?;
    }
    Ok(bare)
}
