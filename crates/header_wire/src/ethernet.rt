//! The header of a frame of Ethernet (RFC 894), and the hardware addresses of multicast groups (RFC 1112, RFC 2464).

ghost use Rattle.std.specs.Prelude.{◌≡◌, ◌≤◌, length, IfOk, IfErr, IsOkAnd};
ghost use Rattle.wirebase.specs.Bytes.{over};
ghost use Rattle.wirebase.specs.Ethernet.{octets_of};
ghost use Rattle.wirebase.specs.Format.{Rewrites};
ghost use Rattle.wirebase.specs.HardwareAddress.{ethernet_of};
ghost use Rattle.header_wire.specs.Ethernet.{Frame, value_of, frame_of, text_len, text, IsFrame, Refuses};
ghost use Rattle.header_wire.specs.Ethernet.{format, Emits, group_octets_v4, group_octets_v6};

mod display;

use wirebase::{ByteWriter, EthernetAddress, Ipv4Address, Ipv6Address, Octets, are_bytes};

mod field {
    use wirebase::Field;

    pub const DST_ADDR: Field = 0..6;

    pub const SRC_ADDR: Field = 6..12;

    pub const ETHER_TYPE: Field = 12..14;
}

/// The bytes of a header. What a frame has behind it is padded with zeros to 46 bytes (RFC 894).
pub const LEN: usize = field::ETHER_TYPE.end;

/// The EtherType of IPv4 (RFC 894).
pub const IPV4: u16 = 0x0800;

/// The EtherType of ARP (RFC 9542).
pub const ARP: u16 = 0x0806;

/// The EtherType of IPv6 (RFC 2464 section 3).
pub const IPV6: u16 = 0x86dd;

/// Why octets are refused as a frame.
#[derive(Debug, PartialEq, Eq, Clone, Copy)]
pub enum Refusal {
    /// Fewer than 14 bytes.
    Short,
}

/// The header of a frame. What may stand between it and a packet, as VLAN tags, is not read here.
///
/// ```
/// use control_wire::{EthernetAddress, Ipv4Address};
/// use header_wire::ethernet::{self, Header, multicast_v4};
///
/// let header = Header {
///     src_addr: EthernetAddress([2, 0, 0, 0, 0, 1]),
///     dst_addr: multicast_v4(Ipv4Address::new(224, 0, 0, 251)),
///     ether_type: ethernet::IPV4,
/// };
/// let mut octets = [0; 60];
/// header.emit_into(&mut octets);
/// assert_eq!(octets[..6], [0x01, 0x00, 0x5e, 0, 0, 251]);
/// assert_eq!(Header::parse(&octets), Ok((header, &[0; 46][..])));
/// ```
#[derive(Debug, PartialEq, Eq, Clone, Copy)]
pub struct Header {
    /// The address that the frame comes from.
    pub src_addr: EthernetAddress,
    /// The address that the frame goes to.
    pub dst_addr: EthernetAddress,
    /// The EtherType, which says what the payload is: 0x0600 or more. A number of at most 1,500 is the length of the
    /// payload (IEEE 802.3), and those between are neither; any is read and written as it is.
    pub ether_type: u16,
}

impl Header {
    /// The header that these octets begin with, and the payload: all that follows it, its padding and a check sequence
    /// too.
    pub fn parse(octets: &[u8]) -> Result<(Header, &[u8]), Refusal>
        ensures sound { IfOk result (λ both. IsFrame octets.now (frame_of both)) }
        ensures complete { (frame : Frame) → IsFrame octets.now frame
            → IsOkAnd result (λ both. frame_of both ≡ frame) }
        ensures told { IfErr result (Refuses octets.now) }
        ensures rewrites { IfOk result (λ both. Rewrites format (frame_of both)) }
    {
        are_bytes(octets);
        read(octets)
    }

    /// The bytes that the header takes: 14.
    pub fn buffer_len(&self) -> usize
        ensures { result ≡ text_len }
    {
        LEN
    }

    /// Writes the header over the front of the octets; the other octets are unchanged. Requires at least 14 bytes.
    pub fn emit_into(&self, octets: &mut [u8])
        requires { text_len ≤ length octets.old }
        ensures { Emits (value_of self.now) octets.old octets.new }
    {
        self.write(octets);
    }

    // Writes the fields.
    #[tactic(auto, using(wirebase::proofs::Chains::chain))]
    fn write(&self, octets: &mut [u8])
        requires { text_len ≤ length octets.old }
        ensures { octets.new ≡ over octets.old (text (value_of self.now)) }
    {
        let mut w = ByteWriter::new(octets);
        w.put_bytes(self.dst_addr.as_bytes());
        w.put_bytes(self.src_addr.as_bytes());
        w.put_u16(self.ether_type);
    }
}

// The header that these octets begin with, and the payload.
fn read(octets: &[u8]) -> Result<(Header, &[u8]), Refusal>
    ensures sound { IfOk result (λ both. IsFrame octets.now (frame_of both)) }
    ensures complete { (frame : Frame) → IsFrame octets.now frame
        → IsOkAnd result (λ both. frame_of both ≡ frame) }
    ensures told { IfErr result (Refuses octets.now) }
{
    if octets.len() < LEN {
        return Err(Refusal::Short);
    }
    let header = Header {
        src_addr: EthernetAddress::from_bytes(octets.field(field::SRC_ADDR)),
        dst_addr: EthernetAddress::from_bytes(octets.field(field::DST_ADDR)),
        ether_type: octets.u16_at(field::ETHER_TYPE),
    };
    Ok((header, &octets[LEN..]))
}

/// The hardware address of a multicast group of IPv4: 01:00:5e, and the lower 23 bits of the group's address (RFC 1112
/// section 6.4). Of an address that is no group this is nobody's; broadcasts go to ff:ff:ff:ff:ff:ff.
pub fn multicast_v4(group: Ipv4Address) -> EthernetAddress
    ensures { octets_of (ethernet_of result) ≡ group_octets_v4 group }
{
    let [_, b, c, d] = group.octets();
    EthernetAddress([0x01, 0x00, 0x5e, b % 128, c, d])
}

/// The hardware address of a multicast group of IPv6: 33:33, and the last four octets of the group's address (RFC 2464
/// section 7). Of an address that is no group this is nobody's.
pub fn multicast_v6(group: Ipv6Address) -> EthernetAddress
    ensures { octets_of (ethernet_of result) ≡ group_octets_v6 group }
{
    let octets = group.octets();
    EthernetAddress([0x33, 0x33, octets[12], octets[13], octets[14], octets[15]])
}
