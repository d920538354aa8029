//! Times as RFC 3339 writes them (section 5.6), in UTC.

ghost use Rattle.std.specs.Prelude.{◌≡◌, Some, take};
ghost use Rattle.capture.specs.TimeText.{date_text, clock_text, fraction_text, time_text};

use crate::calendar::{Date, date_of};
use crate::time::Time;
use std::fmt;
use wirebase::text::{Sink, ToFormatter, TwoDigits, nine_digits};

const DAY_SECONDS: u64 = 86_400;

/// As RFC 3339 writes it in UTC, with as many digits of a second as the time has: `2026-11-28T00:29:29.123456Z`. A year
/// above 9999 has more than four digits.
impl fmt::Display for Time {
    ghost output = { λ time. Some (time_text time) };

    #[tactic(auto, unfolding(crate::specs::TimeText::time_text))]
    fn fmt<W: fmt::Write>(&self, f: &mut fmt::Formatter<W>) -> fmt::Result {
        let day = date_of(self.seconds / DAY_SECONDS);
        let clock = Clock(self.seconds);
        let fraction = Fraction {
            digits: self.digits,
            nanoseconds: self.nanoseconds,
        };
        write!(f, "{day}T{clock}{fraction}Z")
    }
}

/// The date as RFC 3339 writes it, as `2026-11-28`.
impl fmt::Display for Date {
    ghost output = { λ date. Some (date_text date) };

    fn fmt<W: fmt::Write>(&self, f: &mut fmt::Formatter<W>) -> fmt::Result {
        let Date { year, month, day } = *self;
        write!(f, "{year}-{}-{}", TwoDigits(month), TwoDigits(day))
    }
}

// The hour, the minute and the second of a number of seconds.
#[derive(Clone, Copy)]
struct Clock(u64);

impl fmt::Display for Clock {
    ghost output = { λ clock. Some (clock_text clock.0) };

    fn fmt<W: fmt::Write>(&self, f: &mut fmt::Formatter<W>) -> fmt::Result {
        let hour = TwoDigits(self.0 / 3_600 % 24);
        let minute = TwoDigits(self.0 / 60 % 60);
        let second = TwoDigits(self.0 % 60);
        write!(f, "{hour}:{minute}:{second}")
    }
}

// The first digits of nanoseconds after a point, or nothing where there are none.
#[derive(Clone, Copy)]
struct Fraction {
    digits: u8,
    nanoseconds: u32,
}

impl fmt::Display for Fraction {
    ghost output = { λ fraction. Some (fraction_text fraction.digits fraction.nanoseconds) };

    fn fmt<W: fmt::Write>(&self, f: &mut fmt::Formatter<W>) -> fmt::Result {
        if self.digits == 0 {
            return Ok(());
        }
        let all = nine_digits(u64::from(self.nanoseconds));
        f.write_str(".")?;
        ToFormatter::put(f, first_digits(&all, self.digits))
    }
}

// The first of nine digits, this many, or all where that is more.
fn first_digits(all: &[u8; 9], count: u8) -> &[u8]
    ensures { result.now ≡ take count all.now }
{
    &all[..(count as usize).min(9)]
}
