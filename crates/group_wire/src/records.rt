//! The records of a report in turn (RFC 3376 section 4.2.4, RFC 3810 section 5.2.4).

ghost use Rattle.std.specs.Prelude.{◌≡◌, ◌≤◌, ◌<◌, ◌↔◌, length, IfSome, IsNone};
ghost use Rattle.group_wire.specs.Family.{width};
ghost use Rattle.group_wire.specs.Records.{records_len_in};

use crate::address::Address;
use crate::record::{Record, read_record, record_len};
use std::marker::{Model, PhantomData};

/// The records of a report.
#[derive(Debug, PartialEq, Eq, Clone, Copy)]
pub struct Records<'a, A: Address> {
    pub(crate) count: u16,
    pub(crate) octets: &'a [u8],
    address: PhantomData<A>,
}

impl<'a, A: Address> Records<'a, A> {
    ghost use Rattle.std.specs.Prelude.{IsTrue};
    ghost use Rattle.group_wire.specs.Records.{count_in, octets_in, AreRecords, records_ahead};

    // So many records in these octets.
    pub(crate) fn new(count: u16, octets: &'a [u8]) -> Records<'a, A>
        ensures count { count_in result ≡ count }
        ensures octets { octets_in result ≡ octets.now }
    {
        Records {
            count,
            octets,
            address: PhantomData,
        }
    }

    /// How many they are.
    pub fn len(&self) -> usize
        ensures { result ≡ count_in self.now }
    {
        self.count as usize
    }

    /// Whether there are none.
    pub fn is_empty(&self) -> bool
        ensures { IsTrue result ↔ (count_in self.now ≡ 0) }
    {
        self.count == 0
    }

    /// The records in turn.
    pub fn iter(&self) -> RecordsIterator<'a, A>
        ensures records { AreRecords (width A.family) (count_in self.now) (octets_in self.now) result }
        ensures computed { result ≡ records_ahead (width A.family) (count_in self.now) (octets_in self.now) }
    {
        RecordsIterator {
            left: self.count,
            rest: self.octets,
            address: PhantomData,
        }
    }
}

/// The records of a report in turn.
#[derive(Debug, Clone, Drop)]
pub struct RecordsIterator<'a, A: Address> {
    // How many records are left, and the octets after those that were given already.
    left: u16,
    rest: &'a [u8],
    address: PhantomData<A>,
}

impl<'a, A: Address> Model for RecordsIterator<'a, A> {
    ghost use Rattle.std.specs.Prelude.{List, ℕ};
    ghost use Rattle.group_wire.specs.Family.{width};
    ghost use Rattle.group_wire.specs.Records.{records_ahead};

    ghost Value = { List (List ℕ) };

    ghost view = { λ it. records_ahead (width A.family) it.left it.rest.now };
}

impl<'a, A: Address> Iterator for RecordsIterator<'a, A> {
    ghost use Rattle.std.specs.Iterator.{at_most};
    ghost use Rattle.group_wire.specs.Records.{GivesRecord};

    type Item = Record<'a, A>;

    ghost next_gives = { GivesRecord (width A.family) A.bytes };

    ghost remaining = { λ records. at_most (length records) };

    fn next(&mut self) -> Option<Record<'a, A>> {
        if self.left == 0 {
            return None;
        }
        match record_len::<A>(self.rest) {
            Some(len) => {
                let (front, behind) = self.rest.split_at(len);
                self.left -= 1;
                self.rest = behind;
                Some(read_record(front))
            }
            None => {
                self.left = 0;
                None
            }
        }
    }
}

// The bytes of so many records at the front of the octets; None where the octets end before one of them does.
pub(crate) fn records_len<A: Address>(count: u16, octets: &[u8]) -> Option<usize>
    ensures value { IfSome result (λ len. len ≡ records_len_in (width A.family) count octets.now) }
    ensures whole { IfSome result (λ len. len ≤ length octets.now) }
    ensures cut { IsNone result ↔ (length octets.now < records_len_in (width A.family) count octets.now) }
{
    let mut left = count;
    let mut rest = octets;
    while left > 0 {
        let len = record_len::<A>(rest)?;
        left -= 1;
        rest = &rest[len..];
    }
    Some(octets.len() - rest.len())
}
