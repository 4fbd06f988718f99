//! What is asked of a sending's lines, by its words.

ghost use Rattle.std.specs.Prelude.{◌≡◌, None, IfErr, IfOk, codes, option_map, string_bytes};
ghost use Rattle.clap.specs.Words.{first_of, found_of, rows_of};
ghost use Rattle.sms_send.specs.CommandLine.{RefusesFor};
ghost use Rattle.sms_send.specs.Lines.{AsksForLines, AsksToStay, IsWrongLine, IsWrongStay};

use crate::args::delivered_args::ids_of;
use crate::args::send_args::{LineArgs, StayArgs};
use crate::args::values::{number_given, text_if_given};
use crate::faults::argument_error::{ArgumentError, NumberOption};
use crate::faults::fault::Fault;
use clap::ArgMatches;
use std::alloc::Global;

/// The most seconds after which a line is asked.
const MOST_ENQUIRE_S: u64 = 3_600;

/// The most seconds for which it stays.
const MOST_STAY_S: u64 = 86_400;

/// What is asked of a sending's lines.
pub fn lines_of(alloc: Global, found: &ArgMatches<'_>) -> Result<LineArgs, Fault>
    ensures lines { IfOk result (AsksForLines (rows_of (found_of found.now))) }
    ensures refused { IfErr result (RefusesFor (IsWrongLine (rows_of (found_of found.now)))) }
{
    let Some(enquire) = number_given(found, "enquire", MOST_ENQUIRE_S) else {
        return Err(Fault::Words(ArgumentError::Number(NumberOption::Enquire)));
    };
    let inbox = match text_if_given(alloc, found, "inbox") {
        Ok(inbox) => inbox,
        Err(fault) => return Err(fault),
    };
    match stay_of(alloc, found, &inbox) {
        Ok(stay) => Ok(LineArgs {
            inbox,
            enquire,
            stay,
        }),
        Err(fault) => {
            drop(inbox);
            Err(fault)
        }
    }
}

/// How it is to stay for receipts. Without an inbox none are heard.
fn stay_of(
    alloc: Global,
    found: &ArgMatches<'_>,
    inbox: &Option<String>,
) -> Result<Option<StayArgs>, Fault>
    requires { first_of (codes "inbox") (rows_of (found_of found.now)) ≡ option_map string_bytes inbox.now }
    ensures stay { IfOk result (AsksToStay (rows_of (found_of found.now))) }
    ensures refused { IfErr result (RefusesFor (IsWrongStay (rows_of (found_of found.now)))) }
{
    let Some(asked) = number_given(found, "stay", MOST_STAY_S) else {
        return Err(Fault::Words(ArgumentError::Number(NumberOption::Stay)));
    };
    let Some(seconds) = asked else {
        return no_stay(alloc, found);
    };
    if inbox.is_none() {
        return Err(Fault::Words(ArgumentError::StayAlone));
    }
    match ids_of(alloc, found) {
        Ok(ids) => Ok(Some(StayArgs { seconds, ids })),
        Err(fault) => Err(fault),
    }
}

/// That it isn't to stay. How the ids in receipts are spelled can't be said then.
fn no_stay(alloc: Global, found: &ArgMatches<'_>) -> Result<Option<StayArgs>, Fault>
    requires { first_of (codes "stay") (rows_of (found_of found.now)) ≡ None }
    ensures stay { IfOk result (AsksToStay (rows_of (found_of found.now))) }
    ensures refused { IfErr result (RefusesFor (IsWrongStay (rows_of (found_of found.now)))) }
{
    match text_if_given(alloc, found, "ids") {
        Ok(None) => Ok(None),
        Ok(Some(said)) => {
            drop(said);
            Err(Fault::Words(ArgumentError::IdsAlone))
        }
        Err(fault) => Err(fault),
    }
}
