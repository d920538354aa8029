//! IPv6: addresses (RFC 4291) and the header (RFC 8200).
#![tactic(auto, using(crate::proofs::Pieces::pieces))]

ghost use Rattle.std.specs.Prelude.{◌≡◌, ◌↔◌, ◌≤◌, ◌<◌, IsTrue, IsNone, IsOk, IfOk, IfSome, Ok, Some, length};
ghost use Rattle.std.specs.Borrow.{sem, Lends, Array, u8 as byte};
ghost use Rattle.wirebase.specs.Bytes.{Reaches, bytes_of, byte_of, with_field, over};
ghost use Rattle.wirebase.specs.ByteWriter.{free, Puts};
ghost use Rattle.wirebase.specs.Ip.{protocol_of};
ghost use Rattle.wirebase.specs.Ipv6.{inner, with_inner, view_octets, version_field, payload_len_field};
ghost use Rattle.wirebase.specs.Ipv6.{next_header_field, hop_limit_field, src_addr_field, dst_addr_field, version_in};
ghost use Rattle.wirebase.specs.Ipv6.{payload_len_in, payload_field, BeginsWhole, IsPacket, header_fields, header_text};
ghost use Rattle.wirebase.specs.Ipv6.{IsRead, Refuses, header_display};
ghost use Rattle.wirebase.specs.Ipv6Address.{octets_of};
ghost use Rattle.wirebase.specs.contracts.ipv6.Ipv6Packet.{the_row};
ghost use Rattle.wirebase.specs.declared.ipv6.Ipv6Repr.{Ipv6Repr};

use crate::byte_writer::ByteWriter;
use crate::error::{Error, Result};
use crate::ip::IpProtocol;
use crate::octets::{Octets, OctetsMut};
use std::fmt;

mod address;
mod refusal;

pub use address::{IPV6_LINK_LOCAL_ALL_NODES, IPV6_LINK_LOCAL_ALL_ROUTERS, Ipv6Address};
pub use refusal::Ipv6Refusal;

/// The bytes of a header.
pub const IPV6_HEADER_LEN: usize = field::DST_ADDR.end;

/// The bytes of a packet that every link can carry whole (RFC 8200 section 5).
pub const IPV6_MIN_MTU: usize = 1280;

// The fields of the header (RFC 8200 section 3); their picture is in specs/Ipv6.antt.
mod field {
    use crate::octets::Field;

    pub const VERSION: Field = 0..1;

    pub const PAYLOAD_LEN: Field = 4..6;

    pub const NEXT_HEADER: Field = 6..7;

    pub const HOP_LIMIT: Field = 7..8;

    pub const SRC_ADDR: Field = 8..24;

    pub const DST_ADDR: Field = 24..40;
}

/// A view of the octets of an IPv6 packet, header and payload (RFC 8200 section 3).
#[derive(Debug, Clone, Drop)]
pub struct Ipv6Packet<T: Octets> {
    buffer: T,
}

impl<T: Octets> Ipv6Packet<T> {
    /// Makes a view of `buffer`; its length is not checked.
    pub fn new_unchecked(buffer: T) -> Ipv6Packet<T>
        ensures { inner result ≡ buffer }
    {
        Ipv6Packet { buffer }
    }

    /// Makes a view of `buffer`. Refused where it doesn't begin with a whole packet. On refusal the buffer is dropped:
    /// to keep a `&mut [u8]`, call `new_unchecked` and then `check_len`.
    pub fn new_checked(buffer: T) -> Result<Ipv6Packet<T>>
        ensures accepts { IsOk result ↔ BeginsWhole (T.bytes buffer) }
        ensures buffer { IfOk result (λ view. inner view ≡ buffer) }
    {
        let packet = Ipv6Packet::new_unchecked(buffer);
        packet.check_len()?;
        Ok(packet)
    }

    /// Accepts octets that hold the header, 40 bytes, and the whole payload by the length in it. Then each accessor may
    /// be called. The version is not checked.
    pub fn check_len(&self) -> Result<()>
        ensures accepts { IsOk result ↔ BeginsWhole (T.bytes (inner self.now)) }
    {
        let len = self.buffer.octets().len();
        if len < IPV6_HEADER_LEN || len < IPV6_HEADER_LEN + self.payload_len() as usize {
            return Err(Error);
        }
        Ok(())
    }

    /// Returns the buffer of the view.
    pub fn into_inner(self) -> T
        ensures { result ≡ inner self }
    {
        self.buffer
    }

    /// The octets.
    pub fn as_ref(&self) -> &[u8]
        ensures { result.now ≡ T.bytes (inner self.now) }
    {
        self.buffer.octets()
    }

    /// The version. Requires at least 1 byte.
    pub fn version(&self) -> u8
        requires { Reaches version_field (T.bytes (inner self.now)) }
        ensures { result ≡ version_in (T.bytes (inner self.now)) }
    {
        self.buffer.u8_at(field::VERSION) / 16
    }

    /// The bytes of the header: 40.
    pub fn header_len(&self) -> usize
        ensures { result ≡ 40 }
    {
        IPV6_HEADER_LEN
    }

    /// The bytes of the payload. Requires at least 6 bytes.
    pub fn payload_len(&self) -> u16
        requires { Reaches payload_len_field (T.bytes (inner self.now)) }
        ensures { result ≡ payload_len_in (T.bytes (inner self.now)) }
    {
        self.buffer.u16_at(field::PAYLOAD_LEN)
    }

    /// The protocol of the payload. Requires at least 7 bytes.
    pub fn next_header(&self) -> IpProtocol
        requires { Reaches next_header_field (T.bytes (inner self.now)) }
        ensures { result ≡ protocol_of (byte_of next_header_field (T.bytes (inner self.now))) }
    {
        IpProtocol::from(self.buffer.u8_at(field::NEXT_HEADER))
    }

    /// The hops that are left. Requires at least 8 bytes.
    pub fn hop_limit(&self) -> u8
        requires { Reaches hop_limit_field (T.bytes (inner self.now)) }
        ensures { result ≡ byte_of hop_limit_field (T.bytes (inner self.now)) }
    {
        self.buffer.u8_at(field::HOP_LIMIT)
    }

    /// The address of the sender. Requires at least 24 bytes.
    pub fn src_addr(&self) -> Ipv6Address
        requires { Reaches src_addr_field (T.bytes (inner self.now)) }
        ensures { octets_of result ≡ bytes_of src_addr_field (T.bytes (inner self.now)) }
    {
        Ipv6Address::from_octets(self.buffer.field(field::SRC_ADDR).try_into().unwrap())
    }

    /// The address of the receiver. Requires at least 40 bytes.
    pub fn dst_addr(&self) -> Ipv6Address
        requires { Reaches dst_addr_field (T.bytes (inner self.now)) }
        ensures { octets_of result ≡ bytes_of dst_addr_field (T.bytes (inner self.now)) }
    {
        Ipv6Address::from_octets(self.buffer.field(field::DST_ADDR).try_into().unwrap())
    }
}

impl<'a> Ipv6Packet<&'a [u8]> {
    /// The payload, for as long as the octets live. Requires the header and the bytes that it counts.
    #[tactic(auto, unfolding(crate::specs::Bytes::part))]
    pub fn payload(&self) -> &'a [u8]
        requires { BeginsWhole (view_octets self.now) }
        ensures { result.now ≡ bytes_of (payload_field (view_octets self.now))
            (view_octets self.now) }
    {
        let octets = self.buffer;
        &octets[IPV6_HEADER_LEN..IPV6_HEADER_LEN + self.payload_len() as usize]
    }
}

impl<T: OctetsMut> Ipv6Packet<T> {
    /// Lends the payload for writing; the other octets are unchanged. Requires the header and the bytes that it counts.
    pub fn payload_mut(&mut self) -> &mut [u8]
        requires { BeginsWhole (T.bytes (inner self.old)) }
        ensures* lends { sem 𝓛 (Lends (the_row T.row) (Array byte 0) self.entry result
            (λ w. with_inner self.old (T.put (inner self.old)
            (with_field (payload_field (T.bytes (inner self.old))) w (T.bytes (inner self.old)))))) }
        ensures value { result.now
            ≡ bytes_of (payload_field (T.bytes (inner self.old))) (T.bytes (inner self.old)) }
        ensures len { length result.now ≡ payload_len_in (T.bytes (inner self.old)) }
    {
        let end = IPV6_HEADER_LEN + self.payload_len() as usize;
        self.buffer.range_mut(IPV6_HEADER_LEN, end)
    }
}

/// Views are equal where their octets are equal.
impl<T: Octets> PartialEq for Ipv6Packet<T> {
    ghost use Rattle.std.specs.Prelude.{◌==◌};
    ghost use Rattle.std.proofs.Common.{rules};
    ghost use Rattle.std.specs.Cmp.Lexicographic.{pointwise};
    ghost use Rattle.std.specs.Cmp.Rules.{comparing};
    ghost use Rattle.std.specs.Ordering.{on};

    ghost eq = { on (λ view. T.bytes (inner view)) (pointwise ◌==◌) };

    ghost laws = { Prim.search (comparing, rules) };

    fn eq(&self, other: &Ipv6Packet<T>) -> bool
        ensures { IsTrue result ↔ (T.bytes (inner self.now) ≡ T.bytes (inner other.now)) }
    {
        self.buffer.octets() == other.buffer.octets()
    }
}

impl<T: Octets> Eq for Ipv6Packet<T> {
    ghost use Rattle.std.proofs.Common.{rules};
    ghost use Rattle.std.specs.Cmp.Rules.{comparing};

    ghost laws = { Prim.search (comparing, rules) };
}

/// An IPv6 header (RFC 8200 section 3).
#[derive(Debug, PartialEq, Eq, Clone, Copy)]
pub struct Ipv6Repr {
    /// The address that the packet comes from.
    pub src_addr: Ipv6Address,
    /// The address that the packet goes to.
    pub dst_addr: Ipv6Address,
    /// The protocol of the payload.
    pub next_header: IpProtocol,
    /// The bytes of the payload.
    pub payload_len: usize,
    /// The hops that are left.
    pub hop_limit: u8,
}

impl Ipv6Repr {
    /// The header at the front of the octets. Refused where they don't hold it and its payload, and where the version
    /// is not 6.
    pub fn parse(packet: &Ipv6Packet<&[u8]>) -> Result<Ipv6Repr>
        ensures sound { IfOk result (IsPacket (view_octets packet.now)) }
        ensures complete { (repr : Ipv6Repr) → IsPacket (view_octets packet.now) repr
            → result ≡ Ok repr }
        ensures accepts { IsOk result ↔ IsRead (view_octets packet.now) }
    {
        packet.check_len()?;
        if packet.version() != 6 {
            return Err(Error);
        }
        Ok(Ipv6Repr {
            src_addr: packet.src_addr(),
            dst_addr: packet.dst_addr(),
            next_header: packet.next_header(),
            payload_len: packet.payload_len() as usize,
            hop_limit: packet.hop_limit(),
        })
    }

    /// Why [`Ipv6Repr::parse`] refuses these octets, by the first check that fails; None where it reads them.
    pub fn refusal(packet: &Ipv6Packet<&[u8]>) -> Option<Ipv6Refusal>
        ensures told { IfSome result (Refuses (view_octets packet.now)) }
        ensures exact { IsNone result ↔ IsRead (view_octets packet.now) }
    {
        if packet.buffer.len() < IPV6_HEADER_LEN {
            return Some(Ipv6Refusal::Short);
        }
        if packet.check_len().is_err() {
            return Some(Ipv6Refusal::Cut);
        }
        let version = packet.version();
        if version != 6 {
            return Some(Ipv6Refusal::Version(version));
        }
        None
    }

    /// The bytes that the header takes: 40.
    pub fn buffer_len(&self) -> usize
        ensures { result ≡ 40 }
    {
        IPV6_HEADER_LEN
    }

    /// Writes the header over the front of the octets; the other octets are unchanged. It is a header of version 6 with
    /// no traffic class and no flow label. Requires at least 40 bytes, and a payload of at most 65,535 bytes.
    pub fn emit<T: OctetsMut>(&self, packet: &mut Ipv6Packet<T>)
        requires room { Reaches dst_addr_field (T.bytes (inner packet.old)) }
        requires count { self.now.payload_len ≤ 65535 }
        ensures text { inner packet.new ≡ T.put (inner packet.old)
            (over (T.bytes (inner packet.old)) (header_text self.now)) }
    {
        self.emit_into(packet.buffer.octets_mut());
    }

    /// Like `emit`, but writes into a slice.
    #[tactic(auto, using(crate::proofs::Ipv6Header::header_writes))]
    pub fn emit_into(&self, octets: &mut [u8])
        requires room { Reaches dst_addr_field octets.old }
        requires count { self.now.payload_len ≤ 65535 }
        ensures { octets.new ≡ over octets.old (header_text self.now) }
    {
        let mut w = ByteWriter::new(octets);
        self.put(&mut w);
    }

    // Writes the fields.
    #[tactic(auto, unfolding(crate::specs::Ipv6::header_fields))]
    fn put(&self, w: &mut ByteWriter<'_>)
        requires room { 40 ≤ length (free w.old) }
        requires count { self.now.payload_len ≤ 65535 }
        ensures { Puts w.old w.new (header_fields self.now) }
    {
        w.put_u32(0x6000_0000);
        w.put_u16(self.payload_len as u16);
        w.put_u8(self.next_header.into());
        w.put_u8(self.hop_limit);
        w.put_bytes(&self.src_addr.octets());
        w.put_bytes(&self.dst_addr.octets());
    }
}

/// The addresses, the number of the next header and the hops, as
/// `IPv6 src=fe80::1 dst=fe80::2 nxt_hdr=17 hop_limit=64`.
impl fmt::Display for Ipv6Repr {
    ghost output = { λ repr. Some (header_display repr) };

    #[tactic(auto)]
    fn fmt<W: fmt::Write>(&self, f: &mut fmt::Formatter<W>) -> fmt::Result {
        let number = u8::from(self.next_header);
        write!(
            f,
            "IPv6 src={} dst={} nxt_hdr={number} hop_limit={}",
            self.src_addr, self.dst_addr, self.hop_limit
        )
    }
}
