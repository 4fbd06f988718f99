//! Laws of a run of several rounds. Each holds by the contract of its function, which does nothing.

ghost use Rattle.sms_journal.specs.OverLaws.{CopiesAgree, EachAfterRound, LeftAfterRound, PlacesAreApart, SegmentsOver, SumsAdd};

/// What a round leaves of the messages that it was given is what the run leaves after it.
pub fn rounds_leave_alike<S>()
    ensures { LeftAfterRound S }
{}

/// There is an end for each message after a further round.
pub fn each_message_has_an_end<S>()
    ensures { EachAfterRound S }
{}

/// What the messages take of an account over both rounds is the sum of what they took in each.
pub fn sums_add<S>()
    ensures { SumsAdd S }
{}

/// A copy of a message takes of an account what the message would.
pub fn copies_agree<S>()
    ensures { CopiesAgree S }
{}

/// A segment is of the round that began its message, at the place that the message had among those that the round was
/// given.
pub fn segments_are_of_a_round<S>()
    ensures { SegmentsOver S }
{}

/// The messages that a round is given have places of their own.
pub fn places_are_apart<S>()
    ensures { PlacesAreApart S }
{}
