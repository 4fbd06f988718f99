//! The names of outcomes and of refusals: one table, written in reports, quotes and journals and read from
//! them.

ghost use Rattle.std.specs.Prelude.{◌≡◌};
ghost use Rattle.sms_message.specs.Names.{outcome_name as name_of_outcome, outcome_named as named_outcome, refusal_name as name_of_refusal, refusal_named as named_refusal};

use crate::ends::{MessageRefusal, Outcome};

/// The name of what became of a segment.
pub fn outcome_name(outcome: Outcome) -> &'static str
    ensures { result.now ≡ name_of_outcome outcome }
{
    match outcome {
        Outcome::Charged => "charged",
        Outcome::Refused => "refused",
        Outcome::Unanswered => "unanswered",
        Outcome::Unsent => "unsent",
    }
}

/// The outcome with this name.
pub fn outcome_named(name: &[u8]) -> Option<Outcome>
    ensures { result ≡ named_outcome name.now }
{
    if name == b"charged".as_slice() {
        return Some(Outcome::Charged);
    }
    if name == b"refused".as_slice() {
        return Some(Outcome::Refused);
    }
    if name == b"unanswered".as_slice() {
        return Some(Outcome::Unanswered);
    }
    if name == b"unsent".as_slice() {
        return Some(Outcome::Unsent);
    }
    None
}

/// The name of why a message isn't sent.
pub fn refusal_name(refusal: MessageRefusal) -> &'static str
    ensures { result.now ≡ name_of_refusal refusal }
{
    match refusal {
        MessageRefusal::NoAccount => "no-account",
        MessageRefusal::NoCredit => "no-credit",
        MessageRefusal::TooLong => "too-long",
        MessageRefusal::BadAddress => "bad-address",
        MessageRefusal::BindClosed => "bind-closed",
        MessageRefusal::OutOfMemory => "out-of-memory",
    }
}

/// The refusal with this name.
pub fn refusal_named(name: &[u8]) -> Option<MessageRefusal>
    ensures { result ≡ named_refusal name.now }
{
    if name == b"no-account".as_slice() {
        return Some(MessageRefusal::NoAccount);
    }
    if name == b"no-credit".as_slice() {
        return Some(MessageRefusal::NoCredit);
    }
    if name == b"too-long".as_slice() {
        return Some(MessageRefusal::TooLong);
    }
    if name == b"bad-address".as_slice() {
        return Some(MessageRefusal::BadAddress);
    }
    if name == b"bind-closed".as_slice() {
        return Some(MessageRefusal::BindClosed);
    }
    if name == b"out-of-memory".as_slice() {
        return Some(MessageRefusal::OutOfMemory);
    }
    None
}
