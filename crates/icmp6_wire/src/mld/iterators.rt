//! The records of a report in turn, and the sources of a record or of a query (RFC 3810 sections 5.1 and 5.2).

ghost use Rattle.std.specs.Prelude.{◌≡◌, ◌≤◌, length, take, drop, IfOk, IfErr};
ghost use Rattle.icmp6_wire.specs.MldRecord.{IsRecord, value_of, record_len_in};
ghost use Rattle.icmp6_wire.specs.MldRefusal.{RefusesRecord};
ghost use Rattle.icmp6_wire.specs.MldIterators.{AreSources};

use super::{AddressRecord, AddressRecordRepr, RecordRefusal, field};
use std::marker::Model;
use wirebase::Ipv6Address;

// The bytes of an address, and those of a word of auxiliary data.
const ADDRESS_LEN: usize = 16;

const WORD_LEN: usize = 4;

/// The records of a report in turn, each with its sources and its auxiliary data as its payload. Where the octets end
/// before a record does, one refusal is given, with the first check that fails, and then the end. What follows the last
/// record is ignored (RFC 3810 section 5.2.11).
#[derive(Debug, Clone, Drop)]
pub struct Records<'a> {
    // How many records are left, and the octets after those that were given already.
    left: u16,
    rest: &'a [u8],
}

impl<'a> Model for Records<'a> {
    ghost use Rattle.std.specs.Prelude.{List};
    ghost use Rattle.icmp6_wire.specs.MldIterators.{Answer};
    ghost use Rattle.icmp6_wire.specs.private.MldIterators.{records_ahead};

    ghost Value = { List Answer };

    ghost view = { λ it. records_ahead it.left it.rest.now };
}

impl<'a> Records<'a> {
    ghost use Rattle.std.specs.Prelude.{List};
    ghost use Rattle.icmp6_wire.specs.MldIterators.{Answer, AreRecords};

    /// The first `count` records in `octets`: the `nr_mcast_addr_rcrds` and the `data` of a report.
    ///
    /// ```
    /// use control_wire::mld::{RecordRefusal, RecordType, Records};
    ///
    /// // Two records without sources, of which the second is cut.
    /// let mut octets = [0; 39];
    /// octets[0] = 4;
    /// let mut records = Records::new(2, &octets);
    /// let first = records.next().unwrap()?;
    /// assert_eq!(first.record_type, RecordType::ChangeToExclude);
    /// assert_eq!(records.next(), Some(Err(RecordRefusal::Short)));
    /// assert_eq!(records.next(), None);
    /// # Ok::<(), RecordRefusal>(())
    /// ```
    pub fn new(count: u16, octets: &'a [u8]) -> Records<'a>
        ensures records { AreRecords count octets.entry.now result }
        ensures unique { (answers : List Answer) → AreRecords count octets.entry.now answers
            → answers ≡ result }
    {
        Records {
            left: count,
            rest: octets,
        }
    }
}

impl<'a> Iterator for Records<'a> {
    ghost use Rattle.std.specs.Iterator.{at_most};
    ghost use Rattle.icmp6_wire.specs.MldIterators.{GivesRecord};

    type Item = Result<AddressRecordRepr<'a>, RecordRefusal>;

    ghost next_gives = { GivesRecord };

    ghost remaining = { λ answers. at_most (length answers) };

    fn next(&mut self) -> Option<Result<AddressRecordRepr<'a>, RecordRefusal>> {
        if self.left == 0 {
            return None;
        }
        match split_record(self.rest) {
            Ok((record, behind)) => {
                self.left -= 1;
                self.rest = behind;
                Some(Ok(record))
            }
            Err(refusal) => {
                self.left = 0;
                Some(Err(refusal))
            }
        }
    }
}

// The record at the front, with its sources and its auxiliary data, and what follows it; or why the octets end before
// it does.
fn split_record(octets: &[u8]) -> Result<(AddressRecordRepr<'_>, &[u8]), RecordRefusal>
    ensures whole { IfOk result (λ parts. record_len_in octets.now ≤ length octets.now) }
    ensures record { IfOk result
        (λ parts. IsRecord (take (record_len_in octets.now) octets.now) (value_of parts.0)) }
    ensures behind { IfOk result
        (λ parts. parts.1.now ≡ drop (record_len_in octets.now) octets.now) }
    ensures refuses { IfErr result (λ refusal. RefusesRecord octets.now refusal) }
{
    if octets.len() < field::RECORD_MCAST_ADDR.end {
        return Err(RecordRefusal::Short);
    }
    let view = AddressRecord::new_unchecked(octets);
    let sources = ADDRESS_LEN * view.num_srcs() as usize;
    let words = WORD_LEN * view.aux_data_len() as usize;
    let len = field::RECORD_MCAST_ADDR.end + sources + words;
    if octets.len() < len {
        return Err(RecordRefusal::Cut);
    }
    let (front, behind) = octets.split_at(len);
    let record = AddressRecordRepr::read_whole(&AddressRecord::new_unchecked(front));
    Ok((record, behind))
}

impl<'a> AddressRecordRepr<'a> {
    /// The sources of the record in turn: the first `num_srcs` addresses of the payload, as many of them as it holds
    /// whole.
    pub fn sources(&self) -> Sources<'a>
        ensures { AreSources self.now.num_srcs self.now.payload.now result }
    {
        Sources::new(self.num_srcs, self.payload)
    }
}

/// The sources of a record or of a query in turn (RFC 3810 sections 5.2.9 and 5.1.11).
#[derive(Debug, Clone, Drop)]
pub struct Sources<'a> {
    // The octets after the sources that were given already.
    rest: &'a [u8],
}

impl<'a> Model for Sources<'a> {
    ghost use Rattle.std.specs.Prelude.{List, ℕ};
    ghost use Rattle.icmp6_wire.specs.private.MldIterators.{sources_in};

    ghost Value = { List (List ℕ) };

    ghost view = { λ it. sources_in it.rest.now };
}

impl<'a> Sources<'a> {
    /// The first `count` addresses in `octets`, or as many as they hold whole: the `num_srcs` and the `data` of a
    /// query. What follows them is ignored (RFC 3810 section 5.1.12).
    ///
    /// ```
    /// use control_wire::Ipv6Address;
    /// use control_wire::icmpv6::Packet;
    /// use control_wire::mld::{Repr, Sources};
    ///
    /// // A router asks whether anyone listens to what 2001:db8::1 sends to ff02::fb.
    /// let mut octets = [0; 44];
    /// octets[0] = 130;
    /// octets[8..24].copy_from_slice(&Ipv6Address::new(0xff02, 0, 0, 0, 0, 0, 0, 0xfb).octets());
    /// octets[27] = 1;
    /// let source = Ipv6Address::new(0x2001, 0xdb8, 0, 0, 0, 0, 0, 1);
    /// octets[28..].copy_from_slice(&source.octets());
    /// match Repr::parse(&Packet::new_checked(&octets)?)? {
    ///     Repr::Query { num_srcs, data, .. } => assert!(Sources::new(num_srcs, data).eq([source])),
    ///     _ => panic!("not a query"),
    /// }
    /// # Ok::<(), control_wire::Error>(())
    /// ```
    pub fn new(count: u16, octets: &'a [u8]) -> Sources<'a>
        ensures { AreSources count octets.entry.now result }
    {
        let whole = octets.len() / ADDRESS_LEN;
        let count = (count as usize).min(whole);
        Sources {
            rest: &octets[..ADDRESS_LEN * count],
        }
    }
}

impl<'a> Iterator for Sources<'a> {
    ghost use Rattle.std.specs.Iterator.{at_most};
    ghost use Rattle.icmp6_wire.specs.MldIterators.{GivesSource};

    type Item = Ipv6Address;

    ghost next_gives = { GivesSource };

    ghost remaining = { λ sources. at_most (length sources) };

    fn next(&mut self) -> Option<Ipv6Address> {
        if self.rest.len() < ADDRESS_LEN {
            return None;
        }
        let (source, behind) = self.rest.split_at(ADDRESS_LEN);
        self.rest = behind;
        Some(Ipv6Address::from_octets(source.try_into().unwrap()))
    }
}
