//! A resource record of a message (RFC 1035 section 4.1.3).

ghost use Rattle.std.specs.Prelude.{◌≡◌, ◌↔◌, List, ℕ, IfOk, IfErr, IsOkAnd, IfSome, IsNone};
ghost use Rattle.dns_wire.specs.DnsRecord.{DataValue, data_value, IsData, RecordValue, value_of, IsRecord};
ghost use Rattle.dns_wire.specs.DnsRefusal.{RefusesRecord, BeginsWithRecord, RefusesData, AreData};

use crate::dns::part::read_part;
use crate::dns::question::CLASS_IN;
use crate::dns::refusal::Refusal;
use crate::dns::tables::Type;
use wirebase::{Error, Ipv4Address, Ipv6Address, Octets};

// The fields after the name of a record.
mod field {
    use wirebase::Field;

    pub const TYPE: Field = 0..2;

    pub const CLASS: Field = 2..4;

    pub const TTL: Field = 4..8;

    pub const LENGTH: Field = 8..10;

    pub const END: usize = 10;
}

/// A resource record.
#[derive(Debug, PartialEq, Eq, Clone, Copy)]
pub struct Record<'a> {
    /// The name as it is written: labels of 1 to 63 bytes, each after its length, and then byte 0 or a pointer.
    pub name: &'a [u8],
    /// How long the record may be kept, in seconds.
    pub ttl: u32,
    /// What the record says about the name.
    pub data: RecordData<'a>,
}

impl<'a> Record<'a> {
    /// The octets after the record at the front, and the record. Refused where the octets do not begin with a name of
    /// one part, a type, the class of the internet, a time to live, a length and as many bytes; and where these bytes
    /// are not data of the type.
    pub fn parse(buffer: &'a [u8]) -> wirebase::Result<(&'a [u8], Record<'a>)>
        ensures sound { IfOk result (λ read. IsRecord buffer.now (value_of read.1) read.0.now) }
        ensures complete { (value : RecordValue) (rest : List ℕ) → IsRecord buffer.now value rest
            → IsOkAnd result (λ read. (value_of read.1 ≡ value) × (read.0.now ≡ rest)) }
    {
        match Record::read(buffer) {
            Ok(read) => Ok(read),
            Err(_) => Err(Error),
        }
    }

    /// Why [`Record::parse`] refuses these octets, by the first check that fails; None where it reads them.
    pub fn refusal(buffer: &[u8]) -> Option<Refusal>
        ensures told { IfSome result (RefusesRecord buffer.now) }
        ensures exact { IsNone result ↔ BeginsWithRecord buffer.now }
    {
        match Record::read(buffer) {
            Ok(_) => None,
            Err(why) => Some(why),
        }
    }

    // The octets after the record at the front, and the record; or the first check that fails.
    #[inline(always)]
    fn read(buffer: &'a [u8]) -> Result<(&'a [u8], Record<'a>), Refusal>
        ensures sound { IfOk result (λ read. IsRecord buffer.now (value_of read.1) read.0.now) }
        ensures told { IfErr result (RefusesRecord buffer.now) }
    {
        let (name, after) = match read_part(buffer) {
            Ok(split) => split,
            Err(why) => return Err(Refusal::Name(why)),
        };
        if after.len() < field::END {
            return Err(Refusal::Short);
        }
        let class = after.u16_at(field::CLASS);
        if class != CLASS_IN {
            return Err(Refusal::Class(class));
        }
        let len = after.u16_at(field::LENGTH) as usize;
        let behind = &after[field::END..];
        if behind.len() < len {
            return Err(Refusal::Length);
        }
        let type_ = Type::from(after.u16_at(field::TYPE));
        let data = RecordData::read(type_, &behind[..len])?;
        let ttl = after.u32_at(field::TTL);
        Ok((&behind[len..], Record { name, ttl, data }))
    }
}

/// The data of a record.
#[derive(Debug, PartialEq, Eq, Clone, Copy)]
pub enum RecordData<'a> {
    /// The IPv4 address of the name (RFC 1035 section 3.4.1).
    A(Ipv4Address),
    /// The IPv6 address of the name (RFC 3596 section 2.2).
    Aaaa(Ipv6Address),
    /// The name of which this name is an alias, as it is written (RFC 1035 section 3.3.1).
    Cname(&'a [u8]),
    /// Data of another type.
    Other(Type, &'a [u8]),
}

impl<'a> RecordData<'a> {
    /// The data of a record of this type. Refused where an IPv4 address has other than 4 bytes, or an IPv6 address
    /// other than 16.
    #[tactic(auto, unfolding(crate::specs::DnsRefusal::data_checks))]
    pub fn parse(type_: Type, data: &'a [u8]) -> wirebase::Result<RecordData<'a>>
        ensures sound { IfOk result (λ read. IsData type_ «data».now (data_value read)) }
        ensures complete { (value : DataValue) → IsData type_ «data».now value
            → IsOkAnd result (λ read. data_value read ≡ value) }
    {
        match RecordData::read(type_, data) {
            Ok(read) => Ok(read),
            Err(_) => Err(Error),
        }
    }

    /// Why [`RecordData::parse`] refuses these data of a type; None where it reads them.
    #[tactic(auto, unfolding(crate::specs::DnsRefusal::data_checks))]
    pub fn refusal(type_: Type, data: &[u8]) -> Option<Refusal>
        ensures told { IfSome result (RefusesData type_ «data».now) }
        ensures exact { IsNone result ↔ AreData type_ «data».now }
    {
        match RecordData::read(type_, data) {
            Ok(_) => None,
            Err(why) => Some(why),
        }
    }

    // The data of a record of this type, or the check that fails.
    #[inline(always)]
    #[tactic(auto, unfolding(crate::specs::DnsRefusal::data_checks))]
    fn read(type_: Type, data: &'a [u8]) -> Result<RecordData<'a>, Refusal>
        ensures sound { IfOk result (λ read. IsData type_ «data».now (data_value read)) }
        ensures told { IfErr result (RefusesData type_ «data».now) }
    {
        match type_ {
            Type::A => {
                if data.len() != 4 {
                    return Err(Refusal::AddressLength(data.len()));
                }
                Ok(RecordData::A(Ipv4Address::from_octets(data.try_into().unwrap())))
            }
            Type::Aaaa => {
                if data.len() != 16 {
                    return Err(Refusal::AddressLength(data.len()));
                }
                Ok(RecordData::Aaaa(Ipv6Address::from_octets(data.try_into().unwrap())))
            }
            Type::Cname => Ok(RecordData::Cname(data)),
            other => Ok(RecordData::Other(other, data)),
        }
    }
}
