//! The ports of UDP datagrams, read and written with their payloads and checksums (RFC 768).

ghost use Rattle.std.specs.Prelude.{◌≡◌, ◌≤◌, ◌↔◌, length, IsTrue, IfOk, IfErr, IsOkAnd, IfSome, IsNone};
ghost use Rattle.wirebase.specs.Bytes.{Reaches, bytes_of, over};
ghost use Rattle.wirebase.specs.Format.{Rewrites, SameText};
ghost use Rattle.frame_wire.specs.Udp.{view_octets, checksum_field, payload_field, BeginsWhole, HasChecksum, IsDatagram};
ghost use Rattle.frame_wire.specs.UdpText.{value_of, text_len, text, sealed_datagram, format, Emits};
ghost use Rattle.frame_wire.specs.UdpRefusal.{Refuses, IsRead};
ghost use Rattle.frame_wire.specs.declared.udp.repr.UdpRepr.{UdpRepr as AnUdpRepr};

use super::{HEADER_LEN, Refusal, UdpPacket, field};
use crate::datagram::Addresses;
use byteorder::{BigEndian, ByteOrder};
use wirebase::{
    ByteWriter, ChecksumCapabilities, Error, IpProtocol, Octets, Result, are_bytes, checksum,
};

/// The ports of a datagram.
#[derive(Debug, PartialEq, Eq, Clone, Copy)]
pub struct UdpRepr {
    /// The source port, or 0 for none.
    pub src_port: u16,
    /// The destination port, which is not 0.
    pub dst_port: u16,
}

impl UdpRepr {
    /// The ports of the datagram at the start of the octets. Refused where it is not whole, where its destination port
    /// is 0, and where `checksum_caps.udp` has the checksum verified and it is wrong. A checksum of 0 means that there
    /// is none: where checksums are verified, IPv4 allows that (RFC 768), and IPv6 does not (RFC 8200 section 8.1).
    pub fn parse(
        packet: &UdpPacket<&[u8]>,
        addresses: &Addresses,
        checksum_caps: &ChecksumCapabilities,
    ) -> Result<UdpRepr>
        ensures sound { IfOk result (λ repr. IsDatagram checksum_caps.now addresses.now (view_octets packet.now) repr) }
        ensures complete { (r : AnUdpRepr) → IsDatagram checksum_caps.now addresses.now (view_octets packet.now) r
            → IsOkAnd result (λ repr. repr ≡ r) }
        ensures rewrites { length (view_octets packet.now) ≤ 65515 → IfOk result (λ repr. Rewrites
            (format checksum_caps.now addresses.now) (value_of repr (bytes_of (payload_field (view_octets packet.now))
            (view_octets packet.now)))) }
    {
        are_bytes(packet.buffer);
        UdpRepr::read(packet, addresses, checksum_caps)
    }

    // The ports of the datagram at the start of the octets.
    fn read(
        packet: &UdpPacket<&[u8]>,
        addresses: &Addresses,
        checksum_caps: &ChecksumCapabilities,
    ) -> Result<UdpRepr>
        ensures sound { IfOk result (λ repr. IsDatagram checksum_caps.now addresses.now (view_octets packet.now) repr) }
        ensures complete { (r : AnUdpRepr) → IsDatagram checksum_caps.now addresses.now (view_octets packet.now) r
            → IsOkAnd result (λ repr. repr ≡ r) }
    {
        packet.check_len()?;
        let dst_port = packet.dst_port();
        if dst_port == 0 {
            return Err(Error);
        }
        if checksum_caps.udp.rx() && !has_checksum(packet, addresses) {
            return Err(Error);
        }
        Ok(UdpRepr {
            src_port: packet.src_port(),
            dst_port,
        })
    }

    /// Why [`UdpRepr::parse`] refuses these octets, by the check that fails first; None where it reads them.
    pub fn refusal(
        packet: &UdpPacket<&[u8]>,
        addresses: &Addresses,
        checksum_caps: &ChecksumCapabilities,
    ) -> Option<Refusal>
        ensures told { IfSome result (λ refusal. Refuses checksum_caps.now addresses.now (view_octets packet.now)
            refusal) }
        ensures exact { IsNone result ↔ IsRead checksum_caps.now addresses.now (view_octets packet.now) }
    {
        if let Some(refusal) = packet.refusal() {
            return Some(refusal);
        }
        if packet.dst_port() == 0 {
            return Some(Refusal::Port);
        }
        if !checksum_caps.udp.rx() {
            return None;
        }
        if has_checksum(packet, addresses) {
            return None;
        }
        if packet.checksum() == 0 {
            return Some(Refusal::NoChecksum);
        }
        Some(Refusal::Checksum)
    }

    /// The ports of the datagram at the start of the octets, as [`UdpRepr::parse`] reads them, or else why it refuses
    /// them, as [`UdpRepr::refusal`] tells it: the check that fails first.
    pub fn parse_or_refusal(
        packet: &UdpPacket<&[u8]>,
        addresses: &Addresses,
        checksum_caps: &ChecksumCapabilities,
    ) -> std::result::Result<UdpRepr, Refusal>
        ensures sound { IfOk result (λ repr. IsDatagram checksum_caps.now addresses.now (view_octets packet.now) repr) }
        ensures complete { (r : AnUdpRepr) → IsDatagram checksum_caps.now addresses.now (view_octets packet.now) r
            → IsOkAnd result (λ repr. repr ≡ r) }
        ensures told { IfErr result (λ refusal. Refuses checksum_caps.now addresses.now (view_octets packet.now)
            refusal) }
    {
        match UdpRepr::parse(packet, addresses, checksum_caps) {
            Ok(repr) => Ok(repr),
            Err(_) => Err(UdpRepr::refusal(packet, addresses, checksum_caps).unwrap()),
        }
    }

    /// Writes the datagram of this payload at the start of the octets, with its checksum where `checksum_caps.udp` has
    /// it computed, and else with 0 for none, which no receiver accepts over IPv6; what follows it is kept. A checksum
    /// of 0 is written as 0xffff, which is the same sum (RFC 768). Requires that the octets have room for 8 bytes and
    /// the payload, and that these are at most 65,535 bytes.
    ///
    /// ```
    /// use frame_wire::{Addresses, UdpRepr};
    /// use control_wire::{ChecksumCapabilities, Ipv4Address};
    ///
    /// // Three bytes to the port of DNS.
    /// let ports = UdpRepr { src_port: 49_152, dst_port: 53 };
    /// let addresses = Addresses::V4(Ipv4Address::new(192, 0, 2, 1), Ipv4Address::new(192, 0, 2, 53));
    /// let mut octets = [0; 11];
    /// ports.emit_into(&[0x12, 0x34, 0x01], &addresses, &mut octets, &ChecksumCapabilities::default());
    /// assert_eq!(octets, [0xc0, 0, 0, 53, 0, 11, 0xa8, 0x37, 0x12, 0x34, 0x01]);
    /// ```
    #[tactic(auto, using(wirebase::proofs::Chains::chain))]
    pub fn emit_into(
        &self,
        payload: &[u8],
        addresses: &Addresses,
        octets: &mut [u8],
        checksum_caps: &ChecksumCapabilities,
    )
        requires fits { text_len (value_of self.now payload.now) ≤ 65535 }
        requires room { text_len (value_of self.now payload.now) ≤ length octets.old }
        ensures { Emits checksum_caps.now addresses.now (value_of self.now payload.now) octets.old octets.new }
    {
        self.write(payload, octets);
        if checksum_caps.udp.tx() {
            seal(&mut octets[..HEADER_LEN + payload.len()], addresses);
        }
    }

    // Writes the fields of the datagram, with a checksum of zero.
    #[tactic(auto, using(wirebase::proofs::Chains::chain))]
    fn write(&self, payload: &[u8], octets: &mut [u8])
        requires fits { text_len (value_of self.now payload.now) ≤ 65535 }
        requires room { text_len (value_of self.now payload.now) ≤ length octets.old }
        ensures { octets.new ≡ over octets.old (text (value_of self.now payload.now)) }
    {
        let mut w = ByteWriter::new(octets);
        w.put_u16(self.src_port);
        w.put_u16(self.dst_port);
        w.put_u16((HEADER_LEN + payload.len()) as u16);
        w.put_u16(0);
        w.put_bytes(payload);
    }

    /// Does nothing. Of two datagrams that octets can hold, equal texts mean equal ports and payloads, and conversely.
    #[tactic(auto, using(crate::proofs::UdpFormat::formats))]
    pub fn same_text(
        a: &Self,
        a_payload: &[u8],
        b: &Self,
        b_payload: &[u8],
        addresses: &Addresses,
        checksum_caps: &ChecksumCapabilities,
    )
        ensures { SameText (format checksum_caps.now addresses.now) (value_of a.now a_payload.now)
            (value_of b.now b_payload.now) }
    {}

    /// The bytes of the header: 8.
    pub const fn header_len(&self) -> usize
        ensures { result ≡ 8 }
    {
        HEADER_LEN
    }
}

// Writes the checksum of a datagram that is all the octets.
fn seal(octets: &mut [u8], addresses: &Addresses)
    requires whole { Reaches checksum_field octets.old }
    requires fits { length octets.old ≤ 65535 }
    ensures { octets.new ≡ sealed_datagram addresses.now octets.old }
{
    let sum = addresses.sum_before(IpProtocol::Udp, octets.len() as u32);
    checksum::fill(octets, field::CHECKSUM, sum);
    if octets.u16_at(field::CHECKSUM) == 0 {
        BigEndian::write_u16(&mut octets[field::CHECKSUM], 0xffff);
    }
}

// Whether the datagram has its checksum, or needs none.
fn has_checksum(packet: &UdpPacket<&[u8]>, addresses: &Addresses) -> bool
    requires { BeginsWhole (view_octets packet.now) }
    ensures { IsTrue result ↔ HasChecksum addresses.now (view_octets packet.now) }
{
    if packet.checksum() == 0 {
        return addresses.is_v4();
    }
    packet.verify_checksum(addresses)
}
