//! What happens to one segment end that was taken out of the list.

ghost use Rattle.std.specs.Prelude.{◌≡◌, ◌⊎◌, ℕ, IsTrue, false, Some, None, IfSome, IfNone, length};
ghost use Rattle.sms_pdu.specs.declared.reply.Reply.{Reply};
ghost use Rattle.sms_session.specs.Decisions.{decided};
ghost use Rattle.sms_message.specs.Results.{IsSettled, IsWaiting};
ghost use Rattle.sms_worker.specs.Steps.{Answers, Awaits, Expects, GivesUp, Records, given_outcome};

use crate::ends::{Attempt, Attempts, SegmentEnd};
use sms_message::Outcome;
use sms_pdu::Reply;
use sms_session::{Decision, Policy, decide};

/// Whether the attempt has its answer.
fn is_answered(attempt: &Attempt) -> bool
    ensures yes { IsTrue result → (r : Reply) × (attempt.now.reply ≡ Some r) }
    ensures no { result ≡ false → attempt.now.reply ≡ None }
{
    match attempt.reply {
        Some(_) => true,
        None => false,
    }
}

/// Whether the segment waits to be sent or sent again.
pub(crate) fn is_waiting(segment: &SegmentEnd) -> bool
    ensures waiting { (most : ℕ) → IsSettled most segment.now ⊎ IsWaiting most segment.now → IsTrue result → IsWaiting most segment.now }
    ensures settled { (most : ℕ) → IsSettled most segment.now ⊎ IsWaiting most segment.now → (result ≡ false) → IsSettled most segment.now }
{
    if segment.outcome != Outcome::Unanswered {
        return false;
    }
    match segment.attempts.as_slice().last() {
        None => true,
        Some(last) => is_answered(last),
    }
}

/// Records a reply as that of the last attempt, if that waits for its number. Returns whether it does.
fn record_reply(attempts: &mut Vec<Attempt>, reply: Reply) -> bool
    ensures recorded { IsTrue result → Records attempts.old.items reply attempts.new.items }
    ensures unchanged { result ≡ false → attempts.new.items ≡ attempts.old.items }
    ensures unasked { result ≡ false → ¬ Awaits attempts.old.items reply }
{
    let Some(last) = attempts.pop() else {
        return false;
    };
    if last.number != reply.number || is_answered(&last) {
        attempts.push_reserved(last);
        return false;
    }
    let Attempt { number, sent, .. } = last;
    attempts.push_reserved(Attempt {
        number,
        sent,
        reply: Some(reply),
    });
    true
}

/// Applies a reply to the last attempt if that waits for its number. Returns the segment, and what the reply
/// decides; `None` if it wasn't awaited.
pub(crate) fn answer(
    segment: SegmentEnd,
    reply: Reply,
    policy: &Policy,
) -> (SegmentEnd, Option<Decision>)
    requires state { IsSettled policy.now.attempts segment ⊎ IsWaiting policy.now.attempts segment }
    ensures unchanged { IfNone result.1 (result.0 ≡ segment) }
    ensures unasked { result.1 ≡ None → ¬ Expects segment reply }
    ensures answered { IfSome result.1 (λ d. Answers policy.now.attempts segment reply d result.0) }
    ensures decided { IfSome result.1 (λ d. d ≡ decided reply (length result.0.attempts) policy.now.attempts policy.now.base_ms) }
{
    let _most = policy.attempts;
    let SegmentEnd {
        cost,
        attempts,
        outcome,
    } = segment;
    let mut attempts = attempts.into_vec();
    if !record_reply(&mut attempts, reply) {
        let attempts = Attempts::new(attempts);
        return (
            SegmentEnd {
                cost,
                attempts,
                outcome,
            },
            None,
        );
    }
    let decision = decide(&reply, attempts.len() as u32, policy);
    let attempts = Attempts::new(attempts);
    (
        SegmentEnd {
            cost,
            attempts,
            outcome,
        },
        Some(decision),
    )
}

/// The outcome of a waiting segment that is given up.
#[tactic(auto, using(crate::proofs::Tries::given_none, crate::proofs::Tries::given_some))]
fn outcome_given_up(attempts: &[Attempt]) -> Outcome
    ensures { result ≡ given_outcome attempts.now }
{
    if attempts.len() == 0 {
        Outcome::Unsent
    } else {
        Outcome::Refused
    }
}

/// Gives a segment that waits up: unsent where it has no attempt, else refused by its last answer.
pub(crate) fn given_up(segment: SegmentEnd) -> SegmentEnd
    ensures { GivesUp segment result }
{
    let outcome = outcome_given_up(segment.attempts.as_slice());
    let SegmentEnd { cost, attempts, .. } = segment;
    SegmentEnd {
        cost,
        attempts,
        outcome,
    }
}
