//! Packets as they arrive.

ghost use Rattle.std.specs.Prelude.{◌≡◌};
ghost use Rattle.capture.specs.Time.{nanos_of};
ghost use Rattle.dump_captures.specs.Arrival.{arrival_of, if_held, moment_in};

use crate::when::When;
use capture::{Record, Time};

/// A packet of a capture.
#[derive(Clone, Copy)]
pub struct Arrival<'a> {
    /// The name of its file, where it is to be told.
    pub file: Option<&'a str>,
    /// What the capture tells of it.
    pub record: &'a Record,
    /// Its octets, as far as they were captured.
    pub octets: &'a [u8],
    /// How its time is told, where it has one.
    pub when: Option<When>,
}

impl Arrival<'_> {
    /// Its time in nanoseconds since 1970-01-01T00:00:00Z, where it has one that 64 bits hold, up to the year 2554.
    pub fn nanoseconds(&self) -> Option<u64>
        ensures { result ≡ moment_in (arrival_of self.now).packet.time }
    {
        nanoseconds_of(self.record.time?)
    }
}

const SECOND_NANOSECONDS: u64 = 1_000_000_000;

// The nanoseconds of a time, where 64 bits hold them.
fn nanoseconds_of(time: Time) -> Option<u64>
    ensures { result ≡ if_held (nanos_of time) }
{
    let seconds = time.seconds.checked_mul(SECOND_NANOSECONDS)?;
    seconds.checked_add(u64::from(time.nanoseconds))
}
