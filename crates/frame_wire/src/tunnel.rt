//! Tunnels: datagrams whose payload is itself a datagram.

ghost use Rattle.std.specs.Prelude.{◌≡◌, ◌≤◌, ◌+◌, ◌*◌, ◌/◌, ◌%◌, ◌↔◌, IfOk, IfErr, IfSome, IsOkAnd, IsSome, IsTrue};
ghost use Rattle.frame_wire.specs.Link.{network_of_type};
ghost use Rattle.frame_wire.specs.Tunnel.{tunnel_of, InnerValue, value_of, IsInner, Refuses, RefusesGre, HasChecksum};
ghost use Rattle.frame_wire.specs.Tunnel.{IsVerified};
ghost use Rattle.frame_wire.specs.declared.tunnel.Tunnel.TheVariants as tunnels;

use crate::link::{Network, behind};
use wirebase::{IpProtocol, Octets, checksum};

mod display;

/// The protocols of IP whose payload is a datagram, or a packet of another network.
///
/// ```
/// use frame_wire::{Network, Tunnel};
/// use control_wire::IpProtocol;
///
/// // A GRE header with a key, before the first byte of a datagram of IPv6.
/// let tunnel = Tunnel::of(IpProtocol::Unknown(47)).unwrap();
/// let inner = tunnel.inner(&[0x20, 0, 0x86, 0xdd, 0, 0, 0, 7, 0x60]).unwrap();
/// assert_eq!(inner.network, Network::Ipv6);
/// assert_eq!(inner.payload, [0x60]);
/// assert_eq!(Tunnel::of(IpProtocol::Udp), None);
/// ```
#[derive(Debug, PartialEq, Eq, Clone, Copy)]
pub enum Tunnel {
    /// IPv4 without another header between, protocol 4 (RFC 2003; in IPv6 RFC 2473).
    Ipv4,
    /// IPv6 without another header between, protocol 41 (RFC 4213 section 3; in IPv6 RFC 2473).
    Ipv6,
    /// Generic routing encapsulation, protocol 47 (RFC 2784, with the key and the sequence number of RFC 2890; in IPv6
    /// RFC 7676).
    Gre,
}

/// What is in a tunnel.
#[derive(Debug, PartialEq, Eq, Clone, Copy)]
pub struct Inner<'a> {
    /// The tunnel.
    pub tunnel: Tunnel,
    /// The network of the packet in it; for GRE that of its protocol type, which is an EtherType.
    pub network: Network,
    /// The packet, up to the end of the octets: the headers of its network tell where it ends.
    pub payload: &'a [u8],
}

/// Why octets are refused as a packet of GRE: the check that fails first.
#[derive(Debug, PartialEq, Eq, Clone, Copy)]
pub enum Refusal {
    /// Fewer than the 4 bytes that each header has.
    Short,
    /// The version is not 0 (RFC 2784 section 2.3.1); this is its number. Version 1 is that of PPTP (RFC 2637).
    Version(u8),
    /// The header has a routing field (RFC 1701), for which a receiver that does not implement it discards the packet
    /// (RFC 2784 section 2.3).
    Routing,
    /// One of the two bits is set after that of the sequence number, for which such a receiver discards the packet too.
    Reserved,
    /// Fewer bytes than the header has by its flags; this is its length: 8, 12 or 16.
    Cut(u8),
}

// The fields and the flags of a GRE header; their picture is in specs/Tunnel.antt.
mod field {
    use wirebase::Field;

    pub const FLAGS: Field = 0..2;

    pub const TYPE: Field = 2..4;
}

// The bytes that every GRE header has.
const HEADER_LEN: usize = 4;

// The bits of the flags for the parts of a GRE header that may be left out.
const CHECKSUM: u16 = 0x8000;

const ROUTING: u16 = 0x4000;

const KEY: u16 = 0x2000;

const SEQUENCE: u16 = 0x1000;

impl Tunnel {
    /// The tunnel of a protocol over IPv4 or IPv6: 4, 41 or 47. None where its payload is not read as a tunnel's.
    pub fn of(protocol: IpProtocol) -> Option<Tunnel>
        ensures { result ≡ tunnel_of protocol }
    {
        match u8::from(protocol) {
            4 => Some(Tunnel::Ipv4),
            41 => Some(Tunnel::Ipv6),
            47 => Some(Tunnel::Gre),
            _ => None,
        }
    }

    /// What is in the tunnel whose octets these are: the payload of the datagram outside. IPv4 and IPv6 are not looked
    /// into: `Datagram` reads or refuses them. Refused where the header of GRE is cut, has another version than 0, or
    /// has one of the flags for which a receiver discards it; its checksum is not verified, which
    /// [`Tunnel::verify_checksum`] does. A packet within that is neither IPv4 nor IPv6 has a `Network::Other`.
    pub fn inner(self, octets: &[u8]) -> Result<Inner<'_>, Refusal>
        ensures sound { IfOk result (λ i. IsInner self octets.now (value_of i)) }
        ensures complete { (v : InnerValue) → IsInner self octets.now v → IsOkAnd result (λ i. value_of i ≡ v) }
        ensures told { IfErr result (λ refusal. Refuses self octets.now refusal) }
    {
        match self {
            Tunnel::Ipv4 => Ok(Inner {
                tunnel: Tunnel::Ipv4,
                network: Network::Ipv4,
                payload: octets,
            }),
            Tunnel::Ipv6 => Ok(Inner {
                tunnel: Tunnel::Ipv6,
                network: Network::Ipv6,
                payload: octets,
            }),
            Tunnel::Gre => gre(octets),
        }
    }

    /// Whether the checksum of a GRE packet holds, which is over its header and its payload (RFC 2784 section 2.5).
    /// None where it has none, where [`Tunnel::inner`] refuses it, and for the other tunnels. Of a packet that is cut,
    /// as by a capture, the answer means nothing.
    pub fn verify_checksum(self, octets: &[u8]) -> Option<bool>
        ensures some { IsSome result ↔ ((self ≡ Tunnel.Gre) × HasChecksum octets.now) }
        ensures verified { IfSome result (λ holds. IsTrue holds ↔ IsVerified octets.now) }
    {
        if self != Tunnel::Gre || !has_checksum(octets) {
            return None;
        }
        Some(checksum::is_good(octets, 0))
    }
}

// What follows a GRE header.
fn gre(octets: &[u8]) -> Result<Inner<'_>, Refusal>
    ensures sound { IfOk result (λ i. IsInner tunnels.Gre octets.now (value_of i)) }
    ensures complete { (v : InnerValue) → IsInner tunnels.Gre octets.now v → IsOkAnd result (λ i. value_of i ≡ v) }
    ensures told { IfErr result (λ refusal. RefusesGre octets.now refusal) }
{
    if octets.len() < HEADER_LEN {
        return Err(Refusal::Short);
    }
    let flags = octets.u16_at(field::FLAGS);
    if flags % 8 != 0 {
        return Err(Refusal::Version((flags % 8) as u8));
    }
    if bit(flags, ROUTING) == 1 {
        return Err(Refusal::Routing);
    }
    if flags / 0x400 % 4 != 0 {
        return Err(Refusal::Reserved);
    }
    let header_len = header_len(flags);
    if octets.len() < header_len as usize {
        return Err(Refusal::Cut(header_len));
    }
    Ok(Inner {
        tunnel: Tunnel::Gre,
        network: network_of_type(octets.u16_at(field::TYPE)),
        payload: behind(octets, header_len as usize),
    })
}

// Whether the octets begin with a whole GRE header that has a checksum.
fn has_checksum(octets: &[u8]) -> bool
    ensures { IsTrue result ↔ HasChecksum octets.now }
{
    match gre(octets) {
        Ok(_) => bit(octets.u16_at(field::FLAGS), CHECKSUM) == 1,
        Err(_) => false,
    }
}

// The bytes of a GRE header with these flags: 4, 8, 12 or 16.
fn header_len(flags: u16) -> u8
    ensures { result ≡ 4 + 4 * (flags / 0x8000 % 2 + flags / 0x2000 % 2 + flags / 0x1000 % 2) }
{
    4 + 4 * (bit(flags, CHECKSUM) + bit(flags, KEY) + bit(flags, SEQUENCE))
}

// A bit of the flags, by its weight.
fn bit(flags: u16, weight: u16) -> u8
    requires { 1 ≤ weight }
    ensures { result ≡ flags / weight % 2 }
{
    (flags / weight % 2) as u8
}

// The network of an EtherType.
fn network_of_type(kind: u16) -> Network
    ensures { result ≡ network_of_type kind }
{
    match kind {
        0x0800 => Network::Ipv4,
        0x86dd => Network::Ipv6,
        other => Network::Other(other),
    }
}
