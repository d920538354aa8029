//! Records of reports (RFC 3376 section 4.2, RFC 3810 section 5.2).

ghost use Rattle.std.specs.Prelude.{◌≡◌, ◌≤◌, ◌<◌, ◌↔◌, length, IfSome, IsNone};
ghost use Rattle.group_wire.specs.Family.{width};
ghost use Rattle.group_wire.specs.Record.{record_len_in, auxiliary_at, value_of, IsRecord};

use crate::address::Address;
use crate::sources::Sources;
pub use icmp6_wire::mld::RecordType;
use wirebase::Octets;

mod field {
    use wirebase::Field;

    pub const RECORD_TYPE: Field = 0..1;

    pub const AUXILIARY_WORDS: Field = 1..2;

    pub const SOURCE_COUNT: Field = 2..4;
}

/// A record of a report: what a member asks of a group.
#[derive(Debug, PartialEq, Eq, Clone, Copy)]
pub struct Record<'a, A: Address> {
    /// What the record says about the group (RFC 3376 section 4.2.12).
    pub record_type: RecordType,
    /// The group.
    pub group: A,
    /// The sources that it says this of.
    pub sources: Sources<'a, A>,
    /// Auxiliary data, which no version has defined yet.
    pub auxiliary: &'a [u8],
}

// The bytes of the record at the front of the octets, by its own counts; None where they are fewer.
pub(crate) fn record_len<A: Address>(octets: &[u8]) -> Option<usize>
    ensures value { IfSome result (λ len. len ≡ record_len_in (width A.family) octets.now) }
    ensures whole { IfSome result (λ len. len ≤ length octets.now) }
    ensures cut { IsNone result ↔ (length octets.now < record_len_in (width A.family) octets.now) }
{
    let width = A::width();
    if octets.len() < 4 + width {
        return None;
    }
    let sources = width * octets.u16_at(field::SOURCE_COUNT) as usize;
    let words = octets.u8_at(field::AUXILIARY_WORDS) as usize;
    let len = 4 + width + sources + 4 * words;
    if octets.len() < len {
        return None;
    }
    Some(len)
}

// The record that is all of these octets.
pub(crate) fn read_record<A: Address>(octets: &[u8]) -> Record<'_, A>
    requires { length octets.now ≡ record_len_in (width A.family) octets.now }
    ensures { IsRecord (width A.family) octets.now (value_of A.bytes result) }
{
    let sources_at = 4 + A::width();
    let auxiliary_at = sources_at + A::width() * octets.u16_at(field::SOURCE_COUNT) as usize;
    Record {
        record_type: RecordType::from(octets.u8_at(field::RECORD_TYPE)),
        group: A::read(octets.range(4, sources_at)),
        sources: Sources::of_octets(&octets[sources_at..auxiliary_at]),
        auxiliary: &octets[auxiliary_at..],
    }
}
