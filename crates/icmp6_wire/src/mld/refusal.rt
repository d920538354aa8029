//! Why octets are refused as a message or as a record: the first check that fails.

ghost use Rattle.std.specs.Prelude.{◌↔◌, IfSome, IsNone, Some};
ghost use Rattle.icmp6_wire.specs.Icmpv6Packet.{view_octets};
ghost use Rattle.icmp6_wire.specs.MldDisplay.{refusal_display, record_refusal_display};
ghost use Rattle.icmp6_wire.specs.MldRecord.{view_octets as record_octets};
ghost use Rattle.icmp6_wire.specs.MldRefusal.{IsRead, Refuses, IsReadRecord, RefusesRecord};

use super::{AddressRecord, AddressRecordRepr, Repr};
use crate::icmpv6::Packet;
use std::fmt;

/// Why [`Repr::parse`] refuses octets as a message: the first check that fails.
#[derive(Debug, PartialEq, Eq, Clone, Copy)]
pub enum Refusal {
    /// Fewer than 8 bytes.
    Short,
    /// The type, by its number, is neither that of a query nor that of a report.
    UnknownType(u8),
    /// Fewer bytes than the header of the type has: 28 of a query (RFC 3810 section 5.1).
    Length,
}

impl fmt::Display for Refusal {
    ghost output = { λ refusal. Some (refusal_display refusal) };

    fn fmt<W: fmt::Write>(&self, f: &mut fmt::Formatter<W>) -> fmt::Result {
        match self {
            Refusal::Short => f.write_str("fewer than 8 bytes"),
            Refusal::UnknownType(number) => write!(f, "type {number} is not read"),
            Refusal::Length => f.write_str("fewer bytes than the header of its type"),
        }
    }
}

/// Why [`AddressRecordRepr::parse`] refuses octets, or why [`Records`](super::Records) gives no record: the first check
/// that fails.
#[derive(Debug, PartialEq, Eq, Clone, Copy)]
pub enum RecordRefusal {
    /// Fewer than 20 bytes.
    Short,
    /// Fewer bytes than the sources and the auxiliary data that the record counts. Only [`Records`](super::Records)
    /// gives this reason: `parse` does not compare the counts with the octets after the fields.
    Cut,
}

impl fmt::Display for RecordRefusal {
    ghost output = { λ refusal. Some (record_refusal_display refusal) };

    fn fmt<W: fmt::Write>(&self, f: &mut fmt::Formatter<W>) -> fmt::Result {
        match self {
            RecordRefusal::Short => f.write_str("fewer than 20 bytes"),
            RecordRefusal::Cut => {
                f.write_str("fewer bytes than its sources and its auxiliary data take")
            }
        }
    }
}

impl Repr<'_> {
    /// Why [`Repr::parse`] refuses these octets, by the first check that fails; None where it reads them.
    pub fn refusal(packet: &Packet<&[u8]>) -> Option<Refusal>
        ensures told { IfSome result (λ refusal. Refuses (view_octets packet.now) refusal) }
        ensures exact { IsNone result ↔ IsRead (view_octets packet.now) }
    {
        match Repr::read(packet) {
            Ok(_) => None,
            Err(why) => Some(why),
        }
    }
}

impl AddressRecordRepr<'_> {
    /// Why [`AddressRecordRepr::parse`] refuses these octets, which is always [`RecordRefusal::Short`]; None where it
    /// reads a record at their front.
    pub fn refusal(view: &AddressRecord<&[u8]>) -> Option<RecordRefusal>
        ensures told { IfSome result (λ refusal. RefusesRecord (record_octets view.now) refusal) }
        ensures exact { IsNone result ↔ IsReadRecord (record_octets view.now) }
    {
        match AddressRecordRepr::read(view) {
            Ok(_) => None,
            Err(_) => Some(RecordRefusal::Short),
        }
    }
}
