//! Moments, and the time between them.

ghost use Rattle.std.specs.Prelude.{◌<◌};

use capture::Time;

const SECOND_NANOSECONDS: u32 = 1_000_000_000;

/// A time, or a length of time.
#[derive(Debug, PartialEq, Eq, Clone, Copy)]
pub struct Moment {
    /// The seconds.
    pub seconds: u64,
    /// The nanoseconds behind them.
    pub nanoseconds: u32,
    pub ghost part: { nanoseconds < 1000000000 },
}

impl Moment {
    ghost use Rattle.std.specs.Prelude.{◌≡◌, ◌≤◌, ◌-◌, nat_lt};
    ghost use Rattle.capture.specs.Time.{nanos_of as nanos_of_time};
    ghost use Rattle.dump_captures.specs.Moments.{nanos_of};

    /// That of a capture, which has to be in order.
    pub fn of(time: Time) -> Moment
        requires { time.nanoseconds < 1000000000 }
        ensures { nanos_of result ≡ nanos_of_time time }
    {
        Moment {
            seconds: time.seconds,
            nanoseconds: time.nanoseconds,
        }
    }

    /// Whether this comes before another.
    pub fn is_before(self, other: Moment) -> bool
        ensures { result ≡ nat_lt (nanos_of self) (nanos_of other) }
    {
        self.seconds < other.seconds
            || (self.seconds == other.seconds && self.nanoseconds < other.nanoseconds)
    }

    /// The length of time from another moment to this one. Requires that the other is not later.
    pub fn since(self, earlier: Moment) -> Moment
        requires { nanos_of earlier ≤ nanos_of self }
        ensures { nanos_of result ≡ nanos_of self - nanos_of earlier }
    {
        if self.nanoseconds < earlier.nanoseconds {
            return Moment {
                seconds: self.seconds - earlier.seconds - 1,
                nanoseconds: SECOND_NANOSECONDS + self.nanoseconds - earlier.nanoseconds,
            };
        }
        Moment {
            seconds: self.seconds - earlier.seconds,
            nanoseconds: self.nanoseconds - earlier.nanoseconds,
        }
    }
}
