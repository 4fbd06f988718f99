//! What a quote says of a sending. Each law holds by the contract of its function, which does nothing.

ghost use Rattle.sms_files.specs.Credit.{CreditIsQuoted};
ghost use Rattle.sms_files.specs.QuoteLaws.{RefusalsAreQuoted, RefusalsAreTheWorkers, SentAsQuoted};

/// Where a quote says no-account, bad-address or too-long, so does each end of the message by the same
/// rules, unless its bind was closed or memory was refused.
pub fn refusals_are_the_workers()
    ensures { RefusalsAreTheWorkers }
{}

/// Where a message's end by the same rules says no-account, bad-address or too-long, so does its quote; one
/// without credit passes the checks before that in its quote.
pub fn refusals_are_quoted()
    ensures { RefusalsAreQuoted }
{}

/// A message that has segments at its end has as many parts in its quote by the same rules, which cost as
/// much.
pub fn sent_as_quoted()
    ensures { SentAsQuoted }
{}

/// Where no message is quoted as one without credit, no run of one worker over a new book refuses one for
/// that: what `run_worker` promises of its ends and its share is enough to rule it out.
pub fn credit_is_quoted()
    ensures { CreditIsQuoted }
{}
