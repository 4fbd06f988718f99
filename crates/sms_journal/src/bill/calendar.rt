//! Days by the Gregorian calendar.

ghost use Rattle.std.specs.Prelude.{◌≡◌, ℕ, ◌+◌, ◌<◌};
ghost use Rattle.sms_journal.specs.Calendar.{date_of as day_of_calendar, days_in, first_of, is_leap as leaps, year_days};

/// A day: its year, its month from 1 and its day from 1.
#[derive(Clone, Copy, Debug, PartialEq, Eq)]
pub(crate) struct Date {
    pub(crate) year: u64,
    pub(crate) month: u64,
    pub(crate) day: u64,
}

fn is_leap(year: u64) -> bool
    ensures { result ≡ leaps year }
{
    year % 4 == 0 && (year % 100 != 0 || year % 400 == 0)
}

/// How many days a month has.
fn days_of_month(year: u64, month: u64) -> u64
    ensures { result ≡ days_in year month }
{
    if month == 2 {
        if is_leap(year) { 29 } else { 28 }
    } else if month == 4 || month == 6 || month == 9 || month == 11 {
        30
    } else {
        31
    }
}

/// How many days a year has.
fn days_of_year(year: u64) -> u64
    ensures { result ≡ year_days year }
{
    if is_leap(year) { 366 } else { 365 }
}

/// A day of a year: how many days after 1 January 1970 the year begins, and how many after that the day is.
#[derive(Clone, Copy)]
struct YearDay {
    year: u64,
    first: u64,
    left: u64,
}

/// The year of the day that is so many days after 1 January 1970.
fn year_of(days: u64) -> YearDay
    requires { days < 4294967296 }
    ensures day { day_of_calendar result.first ≡ first_of result.year }
    ensures within { result.left < year_days result.year }
    ensures sum { result.first + result.left ≡ days }
{
    let mut year = 1970;
    let mut left = days;
    while left >= days_of_year(year) {
        left -= days_of_year(year);
        year += 1;
    }
    YearDay {
        year,
        first: days - left,
        left,
    }
}

/// The day that is so many days after the first of a year.
fn date_in(year: u64, left: u64) -> Date
    requires { left < year_days year }
    ensures { (first : ℕ) → day_of_calendar first ≡ first_of year → result ≡ day_of_calendar (first + left) }
{
    let mut month = 1;
    let mut rest = left;
    while month < 12 && rest >= days_of_month(year, month) {
        rest -= days_of_month(year, month);
        month += 1;
    }
    Date {
        year,
        month,
        day: rest + 1,
    }
}

/// The day that is so many days after 1 January 1970.
pub(crate) fn date_of(days: u64) -> Date
    requires { days < 4294967296 }
    ensures { result ≡ day_of_calendar days }
{
    let place = year_of(days);
    date_in(place.year, place.left)
}
