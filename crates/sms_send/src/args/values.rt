//! What the arguments of a subcommand were given.

ghost use Rattle.std.specs.Prelude.{◌≡◌, ◌≤◌, None, Some, IfErr, IfOk, map, string_bytes};
ghost use Rattle.sms_send.specs.declared.faults.fault.Fault.TheVariants.{OutOfMemory};
ghost use Rattle.clap.specs.Words.{first_of, found_of, rows_of};
ghost use Rattle.sms_send.specs.CommandLine.{RefusesFor, is_set};
ghost use Rattle.sms_send.specs.Numbers.{number_of};
ghost use Rattle.sms_send.specs.Words.{asks_for_more, bytes_of};

use crate::faults::argument_error::ArgumentError;
use crate::faults::fault::Fault;
use clap::ArgMatches;
use sms_core::decimal_of;
use std::alloc::Global;

/// The text that an argument was given, which has to have one.
pub fn text_given(alloc: Global, matches: &ArgMatches<'_>, word: &str) -> Result<String, Fault>
    ensures given { IfOk result (λ text. first_of word.now (rows_of (found_of matches.now)) ≡ Some (string_bytes text)) }
    ensures missing { IfErr result (RefusesFor (first_of word.now (rows_of (found_of matches.now)) ≡ None)) }
{
    match matches.get_str(word) {
        Some(text) => Ok(String::from_str(alloc, text)?),
        None => Err(Fault::Words(ArgumentError::Missing)),
    }
}

/// The text that an argument was given, where it was.
pub fn text_if_given(
    alloc: Global,
    matches: &ArgMatches<'_>,
    word: &str,
) -> Result<Option<String>, Fault>
    ensures given { IfOk result (λ text. first_of word.now (rows_of (found_of matches.now)) ≡ bytes_of text) }
    ensures memory { IfErr result (λ fault. fault ≡ OutOfMemory) }
{
    match matches.get_str(word) {
        Some(text) => match String::from_str(alloc, text) {
            Ok(text) => Ok(Some(text)),
            Err(_) => Err(Fault::OutOfMemory),
        },
        None => Ok(None),
    }
}

/// The number from 1 to `most` that an option was given, where it was; none where it isn't one.
pub fn number_given(matches: &ArgMatches<'_>, word: &str, most: u64) -> Option<Option<u32>>
    requires { most ≤ u32.MAX }
    ensures { result ≡ number_of most (first_of word.now (rows_of (found_of matches.now))) }
{
    match matches.get_str(word) {
        Some(text) => number_in(text, most),
        None => Some(None),
    }
}

/// The number from 1 to `most` that a text spells; none where it spells none.
fn number_in(text: &str, most: u64) -> Option<Option<u32>>
    requires { most ≤ u32.MAX }
    ensures { result ≡ number_of most (Some text.now) }
{
    match decimal_of(text.as_bytes(), most) {
        Some(number) if number >= 1 => Some(Some(number as u32)),
        _ => None,
    }
}

/// Whether a flag was given: the parser's value of it is `true` then, and else `false`.
pub fn is_given(matches: &ArgMatches<'_>, flag: &str) -> bool
    ensures { result ≡ is_set (first_of flag.now (rows_of (found_of matches.now))) }
{
    match matches.get_str(flag) {
        Some(value) => value == "true",
        None => false,
    }
}

/// Whether one of the arguments asks for the detail lines of a fault.
pub fn is_verbose(words: &[String]) -> bool
    ensures { result ≡ asks_for_more (map string_bytes words.now) }
{
    for word in words {
        if word.as_str() == "--verbose" {
            return true;
        }
    }
    false
}
