//! Times as RFC 3339 writes them.

ghost use Rattle.std.specs.Prelude.{◌≡◌, ◌<◌, ◌++◌, OnOk, string_bytes};
ghost use Rattle.sms_journal.specs.Instants.{clock_text, date_text, four_digits, instant_text, is_told as tells, minute_text, moment_field, one_digit, second_text, three_digits, told_text, two_digits};

use crate::bill::calendar::{Date, date_of};
use sms_files::memory::{self, NoMemory};

/// A day's milliseconds.
const DAY: u64 = 86_400_000;

/// The first millisecond of the year 10000.
const END: u64 = 253_402_300_800_000;

/// A mark between numbers.
fn write_mark(text: &mut String, mark: &str) -> Result<(), NoMemory>
    ensures { OnOk result (string_bytes text.new ≡ string_bytes text.old ++ mark.now) }
{
    memory::append(text, mark)
}

/// The last digit of a number.
fn write_digit(text: &mut String, number: u64) -> Result<(), NoMemory>
    ensures { OnOk result (string_bytes text.new ≡ string_bytes text.old ++ one_digit number) }
{
    let digit = (number % 10) as u8;
    memory::append_char(text, char::from(48 + digit))
}

/// Its last two digits.
fn write_two(text: &mut String, number: u64) -> Result<(), NoMemory>
    ensures { OnOk result (string_bytes text.new ≡ string_bytes text.old ++ two_digits number) }
{
    write_digit(text, number / 10)?;
    write_digit(text, number)
}

/// Its last three.
fn write_three(text: &mut String, number: u64) -> Result<(), NoMemory>
    ensures { OnOk result (string_bytes text.new ≡ string_bytes text.old ++ three_digits number) }
{
    write_digit(text, number / 100)?;
    write_two(text, number)
}

/// Its last four.
fn write_four(text: &mut String, number: u64) -> Result<(), NoMemory>
    ensures { OnOk result (string_bytes text.new ≡ string_bytes text.old ++ four_digits number) }
{
    write_two(text, number / 100)?;
    write_two(text, number)
}

/// Year, month and day.
fn write_date(text: &mut String, date: Date) -> Result<(), NoMemory>
    ensures { OnOk result (string_bytes text.new ≡ string_bytes text.old ++ date_text date) }
{
    write_four(text, date.year)?;
    memory::append(text, "-")?;
    write_two(text, date.month)?;
    memory::append(text, "-")?;
    write_two(text, date.day)
}

/// The hour and the minute of the day that is so many milliseconds after midnight.
fn write_minute(text: &mut String, ms: u64) -> Result<(), NoMemory>
    ensures { OnOk result (string_bytes text.new ≡ string_bytes text.old ++ minute_text ms) }
{
    write_two(text, ms / 3_600_000)?;
    memory::append(text, ":")?;
    write_two(text, ms / 60_000 % 60)
}

/// Its second, with milliseconds.
fn write_second(text: &mut String, ms: u64) -> Result<(), NoMemory>
    ensures { OnOk result (string_bytes text.new ≡ string_bytes text.old ++ second_text ms) }
{
    write_two(text, ms / 1000 % 60)?;
    memory::append(text, ".")?;
    write_three(text, ms % 1000)
}

/// The time of the day.
fn write_clock(text: &mut String, ms: u64) -> Result<(), NoMemory>
    ensures { OnOk result (string_bytes text.new ≡ string_bytes text.old ++ clock_text ms) }
{
    write_minute(text, ms)?;
    write_mark(text, ":")?;
    write_second(text, ms)
}

/// Whether the time is known, and its year has four digits.
fn is_told(time: u64) -> bool
    ensures { result ≡ tells time }
{
    0 < time && time < END
}

/// The time that is so many milliseconds after the beginning of 1970.
fn write_instant(text: &mut String, time: u64) -> Result<(), NoMemory>
    requires { time < 253402300800000 }
    ensures { OnOk result (string_bytes text.new ≡ string_bytes text.old ++ instant_text time) }
{
    write_date(text, date_of(time / DAY))?;
    write_mark(text, "T")?;
    write_clock(text, time % DAY)?;
    write_mark(text, "Z")
}

/// The same, where it is known.
pub fn write_told(text: &mut String, time: u64) -> Result<(), NoMemory>
    ensures { OnOk result (string_bytes text.new ≡ string_bytes text.old ++ told_text time) }
{
    if is_told(time) {
        write_instant(text, time)
    } else {
        Ok(())
    }
}

/// A comma, and the time after it where there is one that is known.
pub(crate) fn write_moment(text: &mut String, time: Option<u64>) -> Result<(), NoMemory>
    ensures { OnOk result (string_bytes text.new ≡ string_bytes text.old ++ moment_field time) }
{
    memory::append(text, ",")?;
    match time {
        Some(time) => write_told(text, time),
        None => Ok(()),
    }
}
