//! Days as dates of the calendar.

ghost use Rattle.std.specs.Prelude.{◌≡◌, ℕ, ◌+◌, ◌<◌, ◌≤◌};
ghost use Rattle.capture.specs.Calendar.{date, date_of as date_after};
ghost use Rattle.capture.specs.Calendar.{is_leap as is_leap_year, month_days as days_in_month};
ghost use Rattle.capture.specs.private.Parts.{days_of_years, year_days};

// The calendar repeats after this many years, which have this many days.
const CYCLE_YEARS: u64 = 400;

const CYCLE_DAYS: u64 = 146_097;

/// A day of the Gregorian calendar.
#[derive(Debug, PartialEq, Eq, Clone, Copy)]
pub struct Date {
    /// The year, 1970 or later.
    pub year: u64,
    /// The month, from 1 on.
    pub month: u64,
    /// The day of the month, from 1 on.
    pub day: u64,
}

/// The date this many days after 1970-01-01.
pub fn date_of(days: u64) -> Date
    ensures date { result ≡ date_after days }
    ensures least { 1970 ≤ result.year }
{
    let day = days % CYCLE_DAYS;
    let years = years_in(day);
    let year = 1970 + CYCLE_YEARS * (days / CYCLE_DAYS) + years;
    date_in_year(year, day - days_in_years(years))
}

// The number of whole years from 1970 on in this many days. A year has at least 365 days, and the leap days of that
// many years are fewer than a year has.
fn years_in(days: u64) -> u64
    requires { days < 146097 }
    ensures least { days_of_years result ≤ days }
    ensures most { days < days_of_years (result + 1) }
    ensures bound { result ≤ 400 }
{
    let years = days / 365;
    if days_in_years(years) > days {
        years - 1
    } else {
        years
    }
}

// The number of days in this many years from 1970 on.
fn days_in_years(years: u64) -> u64
    requires { years ≤ 401 }
    ensures { result ≡ days_of_years years }
{
    let last = 1969 + years;
    365 * years + last / 4 - last / 100 + last / 400 - 477
}

// The date this many days after the first of a year.
fn date_in_year(year: u64, days: u64) -> Date
    requires { days < year_days year }
    ensures year { result.year ≡ year }
    ensures date { (first : ℕ) → date_after first ≡ date year 1 1 → date_after (first + days) ≡ result }
{
    let mut left = days;
    for months in 0..11 {
        let in_month = month_days(year, months + 1);
        if left < in_month {
            return Date {
                year,
                month: months + 1,
                day: left + 1,
            };
        }
        left -= in_month;
    }
    Date {
        year,
        month: 12,
        day: left + 1,
    }
}

// The number of days of a month.
fn month_days(year: u64, month: u64) -> u64
    ensures { result ≡ days_in_month year month }
{
    match month {
        2 => { if is_leap(year) { 29 } else { 28 } }
        4 | 6 | 9 | 11 => 30,
        _ => 31,
    }
}

fn is_leap(year: u64) -> bool
    ensures { result ≡ is_leap_year year }
{
    year % 4 == 0 && (year % 100 != 0 || year % 400 == 0)
}
