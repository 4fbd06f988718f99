//! What is printed of quotes.

ghost use Rattle.std.specs.Prelude.{◌≡◌, ◌++◌, IfOk, OnOk, length, string_bytes};
ghost use Rattle.sms_files.specs.QuoteText.{IsQuoteText, account_line, kept_text, name_of, number_field, quote_line, quote_lines, total_lines, verdict_name as name_of_verdict};

use crate::Input;
use crate::memory::{NoMemory, append, append_number, text_of};
use crate::report::quote::quote::{Quote, Verdict};
use crate::report::quote::quoting::quoted;
use crate::report::quote::total::Total;
use crate::report::report::write_field;
use sms_book::{Opening, Tariff};
use sms_message::Message;
use std::alloc::Global;

/// The name of a verdict.
fn verdict_name(verdict: Verdict) -> &'static str
    ensures { result.now ≡ name_of_verdict verdict }
{
    match verdict {
        Verdict::Passes => "ok",
        Verdict::NoAccount => "no-account",
        Verdict::BadAddress => "bad-address",
        Verdict::TooLong => "too-long",
        Verdict::NoCredit => "no-credit",
    }
}

/// A comma and the number after it.
fn write_number(text: &mut String, number: u64) -> Result<(), NoMemory>
    ensures { OnOk result (string_bytes text.new ≡ string_bytes text.old ++ number_field number) }
{
    append_number(text, ",", number)
}

/// The name of a message's account.
fn write_name(
    text: &mut String,
    openings: &[Opening],
    account: Option<usize>,
) -> Result<(), NoMemory>
    ensures { OnOk result (string_bytes text.new ≡ string_bytes text.old ++ name_of openings.now account) }
{
    let Some(place) = account else {
        return Ok(());
    };
    match openings.get(place) {
        Some(opening) => write_field(text, opening.name.as_str()),
        None => Ok(()),
    }
}

/// The line of a message.
fn write_quote(
    text: &mut String,
    openings: &[Opening],
    message: &Message,
    quote: Quote,
) -> Result<(), NoMemory>
    ensures { OnOk result (string_bytes text.new ≡ string_bytes text.old ++ quote_line openings.now message.now quote) }
{
    let index = message.index;
    append_number(text, "", index)?;
    append(text, ",")?;
    write_name(text, openings, message.account)?;
    write_number(text, quote.parts)?;
    write_number(text, quote.cost)?;
    append(text, ",")?;
    append(text, verdict_name(quote.verdict))?;
    append(text, "\n")
}

/// A line for each message.
fn write_quotes(
    text: &mut String,
    openings: &[Opening],
    messages: &[Message],
    quotes: &[Quote],
) -> Result<(), NoMemory>
    requires { length quotes.now ≡ length messages.now }
    ensures { OnOk result (string_bytes text.new ≡ string_bytes text.old ++ quote_lines openings.now messages.now quotes.now) }
{
    for place in 0..messages.len() {
        write_quote(text, openings, &messages[place], quotes[place])?;
    }
    Ok(())
}

/// The line of an account.
fn write_account(text: &mut String, opening: &Opening, total: Total) -> Result<(), NoMemory>
    ensures { OnOk result (string_bytes text.new ≡ string_bytes text.old ++ account_line opening.now total) }
{
    write_field(text, opening.name.as_str())?;
    write_number(text, opening.credits)?;
    write_number(text, total.messages)?;
    write_number(text, total.parts)?;
    write_number(text, total.cost)?;
    write_number(text, opening.credits.saturating_sub(total.cost))?;
    append(text, "\n")
}

/// A line for each account.
fn write_accounts(text: &mut String, openings: &[Opening], totals: &[Total]) -> Result<(), NoMemory>
    requires { length totals.now ≡ length openings.now }
    ensures { OnOk result (string_bytes text.new ≡ string_bytes text.old ++ total_lines openings.now totals.now) }
{
    for place in 0..openings.len() {
        write_account(text, &openings[place], totals[place])?;
    }
    Ok(())
}

/// What is printed of these messages and accounts, of their quotes and totals.
fn formed(
    alloc: Global,
    openings: &[Opening],
    messages: &[Message],
    quotes: &[Quote],
    totals: &[Total],
) -> Result<String, NoMemory>
    requires quotes { length quotes.now ≡ length messages.now }
    requires totals { length totals.now ≡ length openings.now }
    ensures { IfOk result (λ text. string_bytes text ≡ kept_text openings.now messages.now quotes.now totals.now) }
{
    let mut text = text_of(alloc, "message,account,parts,cost,verdict\n")?;
    write_quotes(&mut text, openings, messages, quotes)?;
    append(&mut text, "account,credits,messages,parts,cost,left\n")?;
    write_accounts(&mut text, openings, totals)?;
    Ok(text)
}

/// What is printed of these messages, that accounts with these openings pay.
fn quoted_text(
    alloc: Global,
    openings: &[Opening],
    long: bool,
    tariff: &Tariff,
    messages: &[Message],
) -> Result<String, NoMemory>
    ensures { IfOk result (λ text. IsQuoteText openings.now long tariff.now messages.now (string_bytes text)) }
{
    let (quotes, totals) = quoted(alloc, openings, long, tariff, messages)?;
    let text = formed(
        alloc,
        openings,
        messages,
        quotes.as_slice(),
        totals.as_slice(),
    )?;
    Ok(text)
}

/// What is printed of the messages of an input: a line for each with its account, its parts, their
/// cost in credits and its verdict, and a line for each account with its credits, the messages that
/// pass, their parts, their cost, and what is left. Each message is checked as a worker would check
/// it, in their order, as if each segment of those before it were charged. Only memory can be refused.
pub fn quote_text(alloc: Global, input: &Input) -> Result<String, NoMemory>
    ensures { IfOk result (λ text. IsQuoteText input.now.openings.items input.now.config.flags.long_reference input.now.tariff input.now.messages.items (string_bytes text)) }
{
    let long = input.config().flags.long_reference;
    quoted_text(
        alloc,
        input.openings(),
        long,
        input.tariff(),
        input.messages(),
    )
}
