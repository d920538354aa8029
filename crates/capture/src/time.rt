//! The times of packets.

mod text;

ghost use Rattle.std.specs.Prelude.{◌≡◌, ◌+◌, ◌-◌, ◌*◌, ◌/◌, ◌%◌, ◌^◌, ◌<◌, ◌↔◌, min, IsTrue};
ghost use Rattle.std.specs.Duration.{as_nanos, max_nanos};
ghost use Rattle.std.specs.Ordering.{nat_cmp};
ghost use Rattle.capture.specs.Time.{IsTime, nanos_of, nanoseconds_of, digits_of, fraction_of, digits_in, moved};
ghost use Rattle.capture.specs.private.Parts.{time_of};

use crate::pcap::Precision;
use std::cmp::Ordering;
use std::time::Duration;

// The nanoseconds and the microseconds in a second.
const NANOS_A_SECOND: u64 = 1_000_000_000;

const MICROS_A_SECOND: u64 = 1_000_000;

// The nanoseconds in a second, among those of any resolution.
const NANOS: u128 = 1_000_000_000;

// The digits of a second in microseconds and in nanoseconds, which are the most that are kept.
const MICRO_DIGITS: u8 = 6;

const NANO_DIGITS: u8 = 9;

/// A time, since 1970-01-01 00:00:00 UTC.
///
/// Times are equal, and one is less than another, as their nanoseconds since then are, whatever their digits. A time
/// prints as RFC 3339 writes it, in UTC and with its own digits.
#[derive(Debug, Clone, Copy)]
pub struct Time {
    /// The whole seconds.
    pub seconds: u64,
    /// The nanoseconds after them, fewer than 1,000,000,000.
    pub nanoseconds: u32,
    /// The number of decimal digits of a second in its file, 0 to 9: 6 where the file counts microseconds.
    pub digits: u8,
}

impl Time {
    /// 1970-01-01 00:00:00 UTC, in whole seconds.
    pub const ZERO: Time = Time {
        seconds: 0,
        nanoseconds: 0,
        digits: 0,
    };

    /// The time of a second and a fraction after it, which may be more than a second.
    pub fn of_fraction(seconds: u32, fraction: u32, precision: Precision) -> Time
        ensures { IsTime result (seconds * 1000000000 + fraction_of precision fraction) (digits_in precision) }
    {
        match precision {
            Precision::Micro => Time::of_micros(seconds as u64 * MICROS_A_SECOND + fraction as u64),
            Precision::Nano => Time::of_nanos_u64(
                seconds as u64 * NANOS_A_SECOND + fraction as u64,
            ),
        }
    }

    /// The time of this many units of a resolution, rounded down to nanoseconds. A resolution below 128 is a number of
    /// decimal digits, and one from 128 on is 128 more than a number of binary digits.
    pub fn of_ticks(ticks: u64, resolution: u8) -> Time
        ensures { IsTime result (nanoseconds_of resolution ticks) (digits_of resolution) }
    {
        // 64 bits are enough for nearly all captures.
        match resolution {
            6 => Time::of_micros(ticks),
            9 => Time::of_nanos_u64(ticks),
            _ => Time::of_nanos_u128(nanoseconds(ticks, resolution), digits(resolution)),
        }
    }

    /// The nanoseconds since 1970-01-01 00:00:00 UTC.
    pub fn as_nanos(&self) -> u128
        ensures { result ≡ nanos_of self.now }
    {
        self.seconds as u128 * NANOS + self.nanoseconds as u128
    }

    /// The time `seconds` later, or earlier where they are negative, as by the option if_tsoffset of an interface of
    /// pcapng. A time before 1970 becomes 1970-01-01, and one whose seconds exceed 64 bits gets the greatest of them.
    #[inline]
    pub fn moved(self, seconds: i64) -> Time
        requires { self.nanoseconds < 1000000000 }
        ensures { IsTime result (moved seconds (nanos_of self)) self.digits }
    {
        if seconds == 0 {
            return self;
        }
        let (seconds, nanoseconds) = moved_parts(self.seconds, self.nanoseconds, seconds);
        Time {
            seconds,
            nanoseconds,
            digits: self.digits,
        }
    }

    // The time moved by any number of seconds.
    fn shifted(self, seconds: i64) -> Time
        requires { self.nanoseconds < 1000000000 }
        ensures { IsTime result (moved seconds (nanos_of self)) self.digits }
    {
        if seconds < 0 {
            return self.earlier(seconds.unsigned_abs());
        }
        self.later(seconds as u64)
    }

    // The time this many seconds later, where the seconds are limited to 64 bits.
    fn later(self, seconds: u64) -> Time
        requires { self.nanoseconds < 1000000000 }
        ensures { IsTime result (min (nanos_of self + seconds * 1000000000)
            (18446744073709551615 * 1000000000 + nanos_of self % 1000000000)) self.digits }
    {
        Time {
            seconds: self.seconds.saturating_add(seconds),
            nanoseconds: self.nanoseconds,
            digits: self.digits,
        }
    }

    // The time this many seconds earlier, or 1970-01-01 where that is before it.
    fn earlier(self, seconds: u64) -> Time
        requires { self.nanoseconds < 1000000000 }
        ensures { IsTime result (nanos_of self - seconds * 1000000000) self.digits }
    {
        match self.seconds.checked_sub(seconds) {
            Some(seconds) => Time {
                seconds,
                nanoseconds: self.nanoseconds,
                digits: self.digits,
            },
            None => Time {
                seconds: 0,
                nanoseconds: 0,
                digits: self.digits,
            },
        }
    }

    // The time of this many microseconds.
    fn of_micros(micros: u64) -> Time
        ensures { IsTime result (micros * 1000) 6 }
    {
        Time {
            seconds: micros / MICROS_A_SECOND,
            nanoseconds: (micros % MICROS_A_SECOND) as u32 * 1000,
            digits: MICRO_DIGITS,
        }
    }

    // The time of a number of nanoseconds that 64 bits hold.
    fn of_nanos_u64(nanos: u64) -> Time
        ensures { IsTime result nanos 9 }
    {
        Time {
            seconds: nanos / NANOS_A_SECOND,
            nanoseconds: (nanos % NANOS_A_SECOND) as u32,
            digits: NANO_DIGITS,
        }
    }

    // The time of this many nanoseconds, with this many digits.
    fn of_nanos_u128(nanoseconds: u128, digits: u8) -> Time
        requires { nanoseconds < 2 ^ 64 * 1000000000 }
        ensures { IsTime result nanoseconds digits }
    {
        Time {
            seconds: (nanoseconds / NANOS) as u64,
            nanoseconds: (nanoseconds % NANOS) as u32,
            digits,
        }
    }
}

// The parts of a time that is moved. A function of its own, since nearly all captures move no times. It returns two
// numbers, since a time of three would go through memory in each capture.
#[inline(never)]
fn moved_parts(seconds: u64, nanoseconds: u32, by: i64) -> (u64, u32)
    requires { nanoseconds < 1000000000 }
    ensures { IsTime (time_of result) (moved by (seconds * 1000000000 + nanoseconds)) 0 }
{
    let time = Time {
        seconds,
        nanoseconds,
        digits: 0,
    };
    let time = time.shifted(by);
    (time.seconds, time.nanoseconds)
}

/// Times are equal exactly where their nanoseconds since 1970 are.
impl PartialEq for Time {
    ghost use Rattle.std.specs.Prelude.{◌==◌};
    ghost use Rattle.std.proofs.Common.{rules};
    ghost use Rattle.std.specs.Cmp.Rules.{comparing};
    ghost use Rattle.std.specs.Ordering.{on};

    ghost eq = { on nanos_of ◌==◌ };

    ghost laws = { Prim.search (comparing, rules) };

    fn eq(&self, other: &Time) -> bool
        ensures { IsTrue result ↔ (nanos_of self.now ≡ nanos_of other.now) }
    {
        self.as_nanos() == other.as_nanos()
    }
}

impl Eq for Time {
    ghost use Rattle.std.proofs.Common.{rules};
    ghost use Rattle.std.specs.Cmp.Rules.{comparing};

    ghost laws = { Prim.search (comparing, rules) };
}

/// The earlier of two times is the lesser.
impl Ord for Time {
    ghost use Rattle.std.proofs.Common.{rules};
    ghost use Rattle.std.specs.Cmp.Rules.{comparing};
    ghost use Rattle.std.specs.Ordering.{on};

    ghost cmp = { on nanos_of nat_cmp };

    ghost total = { Prim.search (comparing, rules) };

    ghost matches_partial_cmp = { Prim.search (comparing, rules) };

    ghost matches_eq = { Prim.search (comparing, rules) };

    fn cmp(&self, other: &Time) -> Ordering
        ensures { result ≡ nat_cmp (nanos_of self.now) (nanos_of other.now) }
    {
        self.as_nanos().cmp(&other.as_nanos())
    }
}

impl PartialOrd for Time {
    ghost use Rattle.std.proofs.Common.{rules};
    ghost use Rattle.std.specs.Cmp.{partial_order_from_own_ties};
    ghost use Rattle.std.specs.Cmp.Rules.{comparing};
    ghost use Rattle.std.specs.Ordering.{on, as_partial_cmp};

    ghost partial_cmp = { as_partial_cmp (on nanos_of nat_cmp) };

    ghost laws = { partial_order_from_own_ties (Prim.search (comparing, rules)) (Prim.search (comparing, rules)) };

    fn partial_cmp(&self, other: &Time) -> Option<Ordering> {
        Some(self.cmp(other))
    }
}

/// The span since 1970-01-01 00:00:00 UTC, the longest where that would be longer.
impl From<Time> for Duration {
    ghost from_gives = { λ time span. as_nanos span ≡ min (nanos_of time) max_nanos };

    fn from(time: Time) -> Duration
        ensures { as_nanos result ≡ min (nanos_of time) max_nanos }
    {
        let past = Duration::from_nanos(time.nanoseconds as u64);
        Duration::from_secs(time.seconds).saturating_add(past)
    }
}

// The number of digits of a second in a resolution.
fn digits(resolution: u8) -> u8
    ensures { result ≡ digits_of resolution }
{
    (resolution % 128).min(NANO_DIGITS)
}

// The whole nanoseconds in this many units of a resolution.
fn nanoseconds(ticks: u64, resolution: u8) -> u128
    ensures value { result ≡ nanoseconds_of resolution ticks }
    ensures small { result < 2 ^ 64 * 1000000000 }
{
    let scaled = ticks as u128 * NANOS;
    if resolution < 128 {
        divided(scaled, 10, resolution)
    } else {
        divided(scaled, 2, resolution - 128)
    }
}

// The number divided by a power of a base.
fn divided(number: u128, base: u128, exponent: u8) -> u128
    requires { 1 < base }
    ensures { result ≡ number / base ^ exponent }
{
    let mut quotient = number;
    for _ in 0..exponent {
        quotient /= base;
    }
    quotient
}
