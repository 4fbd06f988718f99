//! The times of SMPP in a fields file (SMPP 3.4 7.1.1).

ghost use Rattle.std.specs.Prelude.{◌≡◌, ◌+◌, ◌<◌, ◌≤◌, ◌==◌, ◌||◌, Some, true, length, IfErr, IfOk};
ghost use Rattle.toml.specs.Data.{get_member};
ghost use Rattle.toml.specs.View.{table_view};
ghost use Rattle.sms_message.specs.Room.{is_time as has_room};
ghost use Rattle.sms_files.specs.Config.{fault_at};
ghost use Rattle.sms_files.specs.ConfigFaults.{TellsKey};
ghost use Rattle.sms_files.specs.SubmitFields.{time_in};
ghost use Rattle.sms_files.specs.Times.{from_now as after, has_clock, has_date, has_pair, is_digit as is_decimal, is_of_clock as is_on_clock, is_pair as is_pair_within, is_relative as is_from_now, is_spelled, least_of};

use crate::config::toml_value::{bad_key, octets_at};
use crate::fault::InputFault;
use crate::memory::{NoMemory, append_octets};
use sms_pdu::Octets;
use std::alloc::Global;
use toml::Table;

/// The octets of a time, with its 0.
const TIME_LENGTH: usize = 17;

/// Whether it is a digit.
fn is_digit(octet: u8) -> bool
    ensures { result ≡ is_decimal octet }
{
    b'0' <= octet && octet <= b'9'
}

/// Whether these are two digits that spell a number from the least to the most.
fn is_pair(least: u8, most: u8, tens: u8, ones: u8) -> bool
    ensures { result ≡ is_pair_within least most tens ones }
{
    if is_digit(tens) && is_digit(ones) {
        let number = 10 * (tens - b'0') + (ones - b'0');
        least <= number && number <= most
    } else {
        false
    }
}

/// Whether two digits stand at this place that spell a number from the least to the most.
fn pair_at(text: &[u8], place: usize, least: u8, most: u8) -> bool
    requires { place + 1 < length text.now }
    ensures { result ≡ has_pair text.now place least most }
{
    is_pair(least, most, text[place], text[place + 1])
}

/// Whether it begins with a year, a month and a day.
fn date_is_good(text: &[u8], least: u8) -> bool
    requires length { length text.now ≡ 16 }
    requires least { least ≡ least_of text.now }
    ensures { result ≡ has_date text.now }
{
    pair_at(text, 0, 0, 99) && pair_at(text, 2, least, 12) && pair_at(text, 4, least, 31)
}

/// Whether an hour, a minute, a second, a tenth of it and quarters of an hour stand behind that.
fn clock_is_good(text: &[u8]) -> bool
    requires { length text.now ≡ 16 }
    ensures { result ≡ has_clock text.now }
{
    pair_at(text, 6, 0, 23)
        && pair_at(text, 8, 0, 59)
        && pair_at(text, 10, 0, 59)
        && is_digit(text[12])
        && pair_at(text, 13, 0, 48)
}

/// Whether it is from now on.
fn is_relative(text: &[u8]) -> bool
    requires { length text.now ≡ 16 }
    ensures { result ≡ is_from_now text.now }
{
    text[15] == b'R'
}

/// Whether it is of the clock.
fn is_of_clock(text: &[u8]) -> bool
    requires { length text.now ≡ 16 }
    ensures { result ≡ is_on_clock text.now }
{
    text[15] == b'+' || text[15] == b'-'
}

/// Whether it is one or the other.
fn end_is_good(text: &[u8]) -> bool
    requires { length text.now ≡ 16 }
    ensures { result ≡ (is_from_now text.now || is_on_clock text.now) }
{
    is_relative(text) || is_of_clock(text)
}

/// The least month, and the least day.
fn least_in(text: &[u8]) -> u8
    requires { length text.now ≡ 16 }
    ensures { result ≡ least_of text.now }
{
    if is_relative(text) { 0 } else { 1 }
}

/// Whether it is a time of the clock, or one from now on, whose month and day may be 0.
fn is_good(text: &[u8]) -> bool
    ensures { result ≡ is_spelled text.now }
{
    if text.len() != 16 {
        return false;
    }
    end_is_good(text) && date_is_good(text, least_in(text)) && clock_is_good(text)
}

/// Whether it is such a time, or empty.
fn is_time_text(text: &[u8]) -> bool
    ensures { result ≡ ((length text.now == 0) || is_spelled text.now) }
{
    text.is_empty() || is_good(text)
}

/// The time at a key; empty where the key is missing or has an empty text.
pub(super) fn time_at(alloc: Global, table: &Table, key: &str) -> Result<Octets, InputFault>
    ensures time { IfOk result (λ time. time_in (get_member key.now (table_view table.now)) ≡ Some time) }
    ensures room { IfOk result (λ time. has_room time ≡ true) }
    ensures refused { IfErr result (TellsKey (table_view table.now) (fault_at key.now (time_in (get_member key.now (table_view table.now))))) }
{
    let text = match octets_at(alloc, table, key, "", TIME_LENGTH) {
        Ok(text) => text,
        Err(fault) => return Err(fault),
    };
    if is_time_text(text.as_slice()) {
        return Ok(text);
    }
    drop(text);
    Err(bad_key(alloc, table, key))
}

/// The digit of this number.
fn digit(number: u32) -> u8
    requires { number < 10 }
    ensures { result ≡ 48 + number }
{
    b'0' + number as u8
}

/// The time that is so many seconds from now on.
pub(super) fn from_now(alloc: Global, seconds: u32) -> Result<Octets, NoMemory>
    requires { seconds ≤ 2_592_000 }
    ensures time { IfOk result (λ time. time ≡ after seconds) }
    ensures room { IfOk result (λ time. has_room time ≡ true) }
{
    let (days, hours) = (seconds / 86_400, seconds / 3_600 % 24);
    let (minutes, seconds) = (seconds / 60 % 60, seconds % 60);
    let text = [
        b'0',
        b'0',
        b'0',
        b'0',
        digit(days / 10),
        digit(days % 10),
        digit(hours / 10),
        digit(hours % 10),
        digit(minutes / 10),
        digit(minutes % 10),
        digit(seconds / 10),
        digit(seconds % 10),
        b'0',
        b'0',
        b'0',
        b'R',
    ];
    let mut octets = Vec::new(alloc);
    match append_octets(&mut octets, &text) {
        Ok(()) => Ok(Octets::new(octets)),
        Err(no) => Err(no),
    }
}
