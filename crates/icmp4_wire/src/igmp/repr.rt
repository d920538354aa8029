//! Messages as values (RFC 1112 appendix I, RFC 2236 section 2).

ghost use Rattle.std.specs.Prelude.{◌≡◌, ◌≤◌, ◌↔◌, length, IsTrue, IfOk, Some};
ghost use Rattle.wirebase.specs.Bytes.{Reaches, over};
ghost use Rattle.wirebase.specs.ByteWriter.{free, Puts};
ghost use Rattle.wirebase.specs.Format.{Rewrites, SameText};
ghost use Rattle.icmp4_wire.specs.Igmp.{message_number, inner, view_octets, group_field, IsGroup, query_of};
ghost use Rattle.icmp4_wire.specs.Igmp.{message_fields, text, format, IsMessage, Emits};
ghost use Rattle.icmp4_wire.specs.IgmpDisplay.{version_display, repr_display};

use super::code::{code_of_duration, duration_of_code};
use super::field;
use super::packet::Packet;
use super::tables::Message;
use std::fmt;
use wirebase::{
    ByteWriter, Duration, Error, Ipv4Address, OctetsMut, Result, are_bytes, checksum, icmp,
};

/// The version of the protocol of a query or a report.
#[derive(Debug, PartialEq, Eq, Clone, Copy)]
pub enum IgmpVersion {
    /// RFC 1112 appendix I.
    Version1,
    /// RFC 2236.
    Version2,
}

/// A message (RFC 1112 appendix I, RFC 2236).
///
/// ```
/// use control_wire::Ipv4Address;
/// use control_wire::igmp::{IgmpVersion, Repr};
///
/// let report = Repr::MembershipReport {
///     group_addr: Ipv4Address::new(224, 0, 0, 251),
///     version: IgmpVersion::Version2,
/// };
/// let mut octets = [0; 8];
/// report.emit_into(&mut octets);
/// assert_eq!(octets, [0x16, 0, 0x09, 0x04, 224, 0, 0, 251]);
/// ```
#[derive(Debug, PartialEq, Eq, Clone, Copy)]
pub enum Repr {
    /// A router asks which groups have members, or whether this one has. A query of version 3 begins with these 8 bytes
    /// too, and has 12 or more (RFC 3376 section 7.1): it is read as one of version 2, or of version 1 where its code
    /// is 0, and the bytes that follow are ignored. Only the number of octets tells it apart.
    MembershipQuery {
        /// The maximum response time.
        max_resp_time: Duration,
        /// The group, or 0.0.0.0 for all.
        group_addr: Ipv4Address,
        /// The version of the query, by its code alone: 1 where the code is 0, and otherwise 2.
        version: IgmpVersion,
    },
    /// A host is a member of a group.
    MembershipReport {
        /// The group.
        group_addr: Ipv4Address,
        /// The version of the report.
        version: IgmpVersion,
    },
    /// A host leaves a group.
    LeaveGroup {
        /// The group.
        group_addr: Ipv4Address,
    },
}

impl Repr {
    ghost use Rattle.std.specs.Prelude.{Ok};
    ghost use Rattle.icmp4_wire.specs.declared.igmp.repr.Repr.{Repr};

    /// The message at the front of the octets. Refused where they are fewer than 8, where the type has no name, and
    /// where the group is neither 0.0.0.0 nor multicast. The checksum is not verified; the code of a report or of a
    /// leave message is not checked.
    #[inline]
    pub fn parse(packet: &Packet<&[u8]>) -> Result<Repr>
        ensures sound { IfOk result (IsMessage (view_octets packet.now)) }
        ensures complete { (repr : Repr) → IsMessage (view_octets packet.now) repr
            → result ≡ Ok repr }
        ensures rewrites { length (view_octets packet.now) ≤ 65515 → IfOk result (Rewrites format) }
    {
        are_bytes(packet.buffer);
        Repr::read(packet)
    }

    // The message at the front of the octets.
    #[inline]
    #[tactic(auto, using(crate::proofs::IgmpGrammar::grammar))]
    fn read(packet: &Packet<&[u8]>) -> Result<Repr>
        ensures sound { IfOk result (IsMessage (view_octets packet.now)) }
        ensures complete { (repr : Repr) → IsMessage (view_octets packet.now) repr
            → result ≡ Ok repr }
    {
        packet.check_len()?;
        // Before the match, so that each value is made once it is known to be good: in the other order a host that
        // reads queries pays for a copy.
        let group_addr = packet.group_addr();
        if !is_group(group_addr) {
            return Err(Error);
        }
        match packet.msg_type() {
            Message::MembershipQuery => Ok(query_of_code(packet.max_resp_code(), group_addr)),
            Message::MembershipReportV1 => Ok(Repr::MembershipReport {
                group_addr,
                version: IgmpVersion::Version1,
            }),
            Message::MembershipReportV2 => Ok(Repr::MembershipReport {
                group_addr,
                version: IgmpVersion::Version2,
            }),
            Message::LeaveGroup => Ok(Repr::LeaveGroup { group_addr }),
            Message::Unknown(_) => Err(Error),
        }
    }

    /// The bytes that the message takes: 8.
    #[tactic(auto, using(crate::proofs::IgmpText::texts))]
    pub const fn buffer_len(&self) -> usize
        ensures value { result ≡ 8 }
        ensures exact { result ≡ length (text self.now) }
    {
        field::GROUP_ADDRESS.end
    }

    /// Writes the message over the front of the octets, with the checksum of all of them; the other octets are
    /// unchanged. Requires at least 8 bytes. Give exactly 8: in a longer buffer the checksum covers what follows the
    /// message.
    pub fn emit<T: OctetsMut>(&self, packet: &mut Packet<T>)
        requires { Reaches group_field (T.bytes (inner packet.old)) }
        ensures place { inner packet.new ≡ T.put (inner packet.old) (T.bytes (inner packet.new)) }
        ensures emits { Emits self.now (T.bytes (inner packet.old)) (T.bytes (inner packet.new)) }
    {
        self.emit_into(packet.buffer.octets_mut());
    }

    /// Like `emit`, but writes into a slice. Give exactly 8 bytes: in a longer one the checksum covers what follows the
    /// message.
    #[tactic(auto, using(wirebase::proofs::Chains::chain))]
    pub fn emit_into(&self, octets: &mut [u8])
        requires { Reaches group_field octets.old }
        ensures { Emits self.now octets.old octets.new }
    {
        self.write(octets);
        checksum::fill(octets, field::CHECKSUM, 0);
    }

    /// Does nothing; its contract states, of two messages that a packet can hold, that equal texts mean equal normal
    /// forms, and conversely.
    #[tactic(auto, using(crate::proofs::IgmpFormat::formats))]
    pub fn same_text(a: &Self, b: &Self)
        ensures { SameText format a.now b.now }
    {}

    // Writes the fields of the message, with a checksum of zero.
    #[tactic(auto, using(wirebase::proofs::Chains::chain))]
    fn write(&self, octets: &mut [u8])
        requires { 8 ≤ length octets.old }
        ensures { octets.new ≡ over octets.old (text self.now) }
    {
        let mut w = ByteWriter::new(octets);
        match *self {
            Repr::MembershipQuery {
                max_resp_time,
                group_addr,
                version,
            } => {
                let code = match version {
                    IgmpVersion::Version1 => 0,
                    IgmpVersion::Version2 => code_of_duration(max_resp_time),
                };
                put_message(&mut w, Message::MembershipQuery, code, group_addr);
            }
            Repr::MembershipReport {
                group_addr,
                version,
            } => {
                let message = match version {
                    IgmpVersion::Version1 => Message::MembershipReportV1,
                    IgmpVersion::Version2 => Message::MembershipReportV2,
                };
                put_message(&mut w, message, 0, group_addr);
            }
            Repr::LeaveGroup { group_addr } => {
                put_message(&mut w, Message::LeaveGroup, 0, group_addr);
            }
        }
    }
}

/// The message and its fields.
impl fmt::Display for Repr {
    ghost output = { λ repr. Some (repr_display repr) };

    fn fmt<W: fmt::Write>(&self, f: &mut fmt::Formatter<W>) -> fmt::Result {
        match self {
            Repr::MembershipQuery {
                max_resp_time,
                group_addr,
                version,
            } => {
                write!(
                    f,
                    "IGMP membership query max_resp_time={max_resp_time} group_addr={group_addr} version={version}"
                )
            }
            Repr::MembershipReport {
                group_addr,
                version,
            } => {
                write!(
                    f,
                    "IGMP membership report group_addr={group_addr} version={version}"
                )
            }
            Repr::LeaveGroup { group_addr } => {
                write!(f, "IGMP leave group group_addr={group_addr}")
            }
        }
    }
}

/// The name of the version.
impl fmt::Display for IgmpVersion {
    ghost output = { λ version. Some (version_display version) };

    fn fmt<W: fmt::Write>(&self, f: &mut fmt::Formatter<W>) -> fmt::Result {
        let name = match self {
            IgmpVersion::Version1 => "Version1",
            IgmpVersion::Version2 => "Version2",
        };
        f.write_str(name)
    }
}

// Writes each field of a message, with a checksum of zero.
fn put_message(w: &mut ByteWriter<'_>, message: Message, code: u8, group: Ipv4Address)
    requires { 8 ≤ length (free w.old) }
    ensures { Puts w.old w.new (message_fields (message_number message) code group) }
{
    icmp::put_header(w, message.into(), code, group.octets());
}

// Whether a message may have this group: 0.0.0.0, for none, or a multicast address.
#[inline]
fn is_group(address: Ipv4Address) -> bool
    ensures { IsTrue result ↔ IsGroup address }
{
    address.is_unspecified() || address.is_multicast()
}

// The query with this code. One of code 0 is of version 1 (RFC 3376 section 7.1).
#[inline]
fn query_of_code(code: u8, group_addr: Ipv4Address) -> Repr
    ensures { result ≡ query_of code group_addr }
{
    let version = if code == 0 {
        IgmpVersion::Version1
    } else {
        IgmpVersion::Version2
    };
    Repr::MembershipQuery {
        max_resp_time: duration_of_code(code),
        group_addr,
        version,
    }
}
