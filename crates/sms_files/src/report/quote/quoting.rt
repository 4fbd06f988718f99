//! The quotes of all messages.

ghost use Rattle.std.specs.Prelude.{IfOk};
ghost use Rattle.sms_files.specs.Quotes.{AreQuotes};
ghost use Rattle.sms_files.specs.Totals.{AreTotals};

use crate::memory::{NoMemory, push};
use crate::report::quote::checking::quote_of;
use crate::report::quote::quote::Quote;
use crate::report::quote::total::{Total, count, left_of, no_totals};
use sms_book::{Opening, Tariff};
use sms_message::Message;
use std::alloc::Global;

/// The quotes of messages, in order, and what they take of each account.
pub(crate) fn quoted(
    alloc: Global,
    openings: &[Opening],
    long: bool,
    tariff: &Tariff,
    messages: &[Message],
) -> Result<(Vec<Quote>, Vec<Total>), NoMemory>
    ensures quotes { IfOk result (λ r. AreQuotes openings.now long tariff.now messages.now r.0.items) }
    ensures totals { IfOk result (λ r. AreTotals openings.now messages.now r.0.items r.1.items) }
{
    let mut totals = no_totals(alloc, openings.len())?;
    let mut quotes = Vec::new(alloc);
    for place in 0..messages.len() {
        let message = &messages[place];
        let free = left_of(openings, totals.as_slice(), message.account);
        let quote = quote_of(alloc, openings.len(), long, tariff, free, message)?;
        push(&mut quotes, quote)?;
        count(openings, &mut totals, message.account, quote);
    }
    Ok((quotes, totals))
}
