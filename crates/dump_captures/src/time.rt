//! Times of packets, as RFC 3339 writes them in UTC.

#![tactic(auto, using(wirebase::proofs::Sinks::puts))]

ghost use Rattle.std.specs.Prelude.{◌≡◌, ◌+◌, ◌/◌, ◌%◌, ◌++◌};
ghost use Rattle.capture.specs.Calendar.{date_of as date_after};
ghost use Rattle.std.specs.Prelude.{IsAscii};
ghost use Rattle.packet_fields.specs.Fields.{text};
ghost use Rattle.wirebase.specs.Digits.{last_digits};
ghost use Rattle.dump_captures.specs.TimeText.{long_text, milliseconds_text, time_of_day_text, time_text};
ghost use Rattle.dump_captures.specs.private.Parts.{kept_text};

use capture::calendar::{Date, date_of};
use packet_fields::Form;
use packet_fields::value::{Text, Value, put_text};
use std::io;
use std::io::Write;
use wirebase::text::{Sink, last_digit, nine_digits, put_number, two_digits};

const DAY_SECONDS: u64 = 86_400;

// The length of the text of a date whose year has four digits, and of the time after it.
const DATE_LEN: usize = 10;

const TIME_LEN: usize = 20;

// The length of the text of a time of day with milliseconds.
const CLOCK_LEN: usize = 12;

/// Tells times, most of which are on the same day as the one before.
#[derive(Drop)]
pub struct Clock {
    // A day, counted from 1970-01-01.
    day: u64,
    // The year without its last four digits.
    ten_thousands: u64,
    // The last four digits of the year, the month and the day.
    date: [u8; DATE_LEN],
    pub ghost year: { ten_thousands ≡ (date_after day).year / 10000 },
    pub ghost kept: { date ≡ kept_text (date_after day) },
}

impl Clock {
    /// A clock that has told nothing yet.
    #[inline]
    pub fn new() -> Clock {
        Clock::at(0)
    }

    /// The time this many seconds and nanoseconds after 1970-01-01T00:00:00Z, as `2024-05-01T12:34:56.000000000Z`. A
    /// year above 9999 has more than four digits. Nanoseconds are told by their last nine digits.
    #[inline]
    pub fn time(&mut self, seconds: u64, nanoseconds: u32) -> TimeText
        ensures { long_text result.ten_thousands result.octets ≡ time_text seconds nanoseconds }
    {
        self.turn_to(seconds / DAY_SECONDS);
        TimeText {
            ten_thousands: self.ten_thousands,
            octets: join(&self.date, &time_octets(seconds, nanoseconds)),
        }
    }

    // Keeps the date of this day instead of another's.
    fn turn_to(&mut self, day: u64)
        ensures { self.new.day ≡ day }
    {
        if self.day != day {
            *self = Clock::at(day);
        }
    }

    // The clock that keeps the date of this day.
    fn at(day: u64) -> Clock
        ensures { result.day ≡ day }
    {
        let date = date_of(day);
        Clock {
            day,
            ten_thousands: date.year / 10_000,
            date: date_octets(date),
        }
    }
}

/// The text of a time of day with milliseconds, as `12:34:56.789`.
#[derive(Debug, Clone, Copy)]
pub struct ClockText {
    octets: [u8; CLOCK_LEN],
    ghost ascii: { IsAscii octets },
}

impl ClockText {
    /// That of the time this many seconds and nanoseconds after 1970-01-01T00:00:00Z. Further digits are cut.
    #[inline]
    pub fn of(seconds: u64, nanoseconds: u32) -> ClockText
        ensures { result.octets ≡ milliseconds_text seconds nanoseconds }
    {
        ClockText {
            octets: clock_octets(seconds, nanoseconds),
        }
    }
}

impl Text for ClockText {
    ghost text_of = { λ time. time.octets };

    fn put_into<O, S: Sink<O>>(self, output: &mut O) -> Result<(), S::Error> {
        S::put(output, &self.octets)
    }
}

// Hours, minutes and seconds, and three digits of milliseconds.
fn clock_octets(seconds: u64, nanoseconds: u32) -> [u8; CLOCK_LEN]
    ensures { result ≡ milliseconds_text seconds nanoseconds }
{
    let [h1, h0] = two_digits(seconds / 60 / 60 % 24);
    let [m1, m0] = two_digits(seconds / 60 % 60);
    let [s1, s0] = two_digits(seconds % 60);
    let [d2, d1, d0] = three_digits(u64::from(nanoseconds) / 1_000_000);
    [h1, h0, b':', m1, m0, b':', s1, s0, b'.', d2, d1, d0]
}

fn three_digits(number: u64) -> [u8; 3]
    ensures { result ≡ last_digits 3 number }
{
    [
        last_digit(number / 10 / 10),
        last_digit(number / 10),
        last_digit(number),
    ]
}

/// The text of a time.
#[derive(Debug, Clone, Copy)]
pub struct TimeText {
    // The year without its last four digits, where it has more.
    ten_thousands: u64,
    // The last four digits of the year, and all behind them.
    octets: [u8; DATE_LEN + TIME_LEN],
    ghost ascii: { IsAscii octets },
}

impl Text for TimeText {
    ghost text_of = { λ time. long_text time.ten_thousands time.octets };

    fn put_into<O, S: Sink<O>>(self, output: &mut O) -> Result<(), S::Error> {
        if self.ten_thousands == 0 {
            return S::put(output, &self.octets);
        }
        put_number::<O, S>(output, self.ten_thousands)?;
        S::put(output, &self.octets)
    }
}

impl Value for TimeText {
    ghost leaf = { λ time. text (long_text time.ten_thousands time.octets) };

    fn put<W: Write>(self, output: &mut W, form: Form) -> io::Result<()> {
        put_text(output, form, self)
    }
}

// The last four digits of a year, the month and the day.
fn date_octets(date: Date) -> [u8; DATE_LEN]
    ensures { result ≡ kept_text date }
{
    let Date { year, month, day } = date;
    [
        last_digit(year / 10 / 10 / 10),
        last_digit(year / 10 / 10),
        last_digit(year / 10),
        last_digit(year),
        b'-',
        last_digit(month / 10),
        last_digit(month),
        b'-',
        last_digit(day / 10),
        last_digit(day),
    ]
}

// Hours, minutes and seconds, nine digits of nanoseconds, and the characters between them.
fn time_octets(seconds: u64, nanoseconds: u32) -> [u8; TIME_LEN]
    ensures { result ≡ time_of_day_text seconds nanoseconds }
{
    let [h1, h0] = two_digits(seconds / 60 / 60 % 24);
    let [m1, m0] = two_digits(seconds / 60 % 60);
    let [s1, s0] = two_digits(seconds % 60);
    let [n8, n7, n6, n5, n4, n3, n2, n1, n0] = nine_digits(u64::from(nanoseconds));
    [
        b'T', h1, h0, b':', m1, m0, b':', s1, s0, b'.', n8, n7, n6, n5, n4, n3, n2, n1, n0, b'Z',
    ]
}

// A date, and a time after it.
fn join(date: &[u8; DATE_LEN], time: &[u8; TIME_LEN]) -> [u8; DATE_LEN + TIME_LEN]
    ensures { result ≡ date.now ++ time.now }
{
    let mut text = [0; DATE_LEN + TIME_LEN];
    text[..DATE_LEN].copy_from_slice(date);
    text[DATE_LEN..].copy_from_slice(time);
    text
}
