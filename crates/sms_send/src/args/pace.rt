//! What bounds a sending, and how often it goes on, by its words.

ghost use Rattle.std.specs.Prelude.{IfErr, IfOk, IsErr};
ghost use Rattle.clap.specs.Words.{found_of, rows_of};
ghost use Rattle.sms_send.specs.CommandLine.{AsksAgain, HasThrottle, IsWrongNumber, IsWrongPace};
ghost use Rattle.sms_send.specs.Faults.{IsWords};

use crate::args::send_args::{Again, Throttle};
use crate::args::values::number_given;
use crate::faults::argument_error::{ArgumentError, NumberOption};
use crate::faults::fault::Fault;
use clap::ArgMatches;

/// The most milliseconds until a bind has to be made.
const MOST_CONNECT_MS: u64 = 600_000;

/// The most requests a second.
const MOST_RATE: u64 = 100_000;

/// The most unanswered requests in a row.
const MOST_UNANSWERED: u64 = 1_000_000;

/// The most further rounds.
const MOST_ROUNDS: u64 = 1_000_000;

/// The most milliseconds before a further round, and how many there are where that isn't said.
const MOST_WAIT_MS: u64 = 600_000;

const USUAL_WAIT_MS: u32 = 1_000;

/// What bounds a sending, and how often it goes on.
pub fn pace_of(found: &ArgMatches<'_>) -> Result<(Throttle, Option<Again>), Fault>
    ensures pace { IfOk result (λ pace. HasThrottle (rows_of (found_of found.now)) pace.0 × AsksAgain (rows_of (found_of found.now)) pace.1) }
    ensures refused { IfErr result (λ fault. IsWords fault × IsWrongPace (rows_of (found_of found.now))) }
{
    let throttle = match throttle_of(found) {
        Ok(throttle) => throttle,
        Err(option) => return Err(Fault::Words(ArgumentError::Number(option))),
    };
    match again_of(found) {
        Ok(again) => Ok((throttle, again)),
        Err(why) => Err(Fault::Words(why)),
    }
}

/// How often a sending goes on in a further round. How long it waits before can't be asked without that.
fn again_of(found: &ArgMatches<'_>) -> Result<Option<Again>, ArgumentError>
    ensures again { IfOk result (AsksAgain (rows_of (found_of found.now))) }
    ensures refused { IsErr result → IsWrongPace (rows_of (found_of found.now)) }
{
    let Some(most) = number_given(found, "again", MOST_ROUNDS) else {
        return Err(ArgumentError::Number(NumberOption::Again));
    };
    let Some(wait_ms) = number_given(found, "again-ms", MOST_WAIT_MS) else {
        return Err(ArgumentError::Number(NumberOption::AgainMs));
    };
    match (most, wait_ms) {
        (Some(most), Some(wait_ms)) => Ok(Some(Again { most, wait_ms })),
        (Some(most), None) => Ok(Some(Again {
            most,
            wait_ms: USUAL_WAIT_MS,
        })),
        (None, Some(_)) => Err(ArgumentError::AgainMsAlone),
        (None, None) => Ok(None),
    }
}

/// What bounds a sending; or the first option whose number is out of range.
fn throttle_of(found: &ArgMatches<'_>) -> Result<Throttle, NumberOption>
    ensures throttle { IfOk result (HasThrottle (rows_of (found_of found.now))) }
    ensures refused { IfErr result (λ option. IsWrongNumber option (rows_of (found_of found.now))) }
{
    let Some(connect_ms) = number_given(found, "connect-ms", MOST_CONNECT_MS) else {
        return Err(NumberOption::ConnectMs);
    };
    let Some(rate) = number_given(found, "rate", MOST_RATE) else {
        return Err(NumberOption::Rate);
    };
    let Some(stop_after) = number_given(found, "stop-after", MOST_UNANSWERED) else {
        return Err(NumberOption::StopAfter);
    };
    Ok(Throttle {
        connect_ms,
        rate,
        stop_after,
    })
}
