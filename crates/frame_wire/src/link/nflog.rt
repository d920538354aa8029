//! Frames of NFLOG, the link type of what the firewall of Linux logs.

ghost use Rattle.std.specs.Prelude.{◌≡◌, ◌≤◌, ◌+◌, IfOk, IfErr, IsOkAnd, List, ℕ, drop, length};
ghost use Rattle.frame_wire.specs.Link.{FrameValue, value_of, IsNflog, HasPacket, is_lowest_first};
ghost use Rattle.frame_wire.specs.Link.{network_of_nflog, number_in};
ghost use Rattle.frame_wire.specs.LinkRefusal.{RefusesNflog, RefusesAttributes};
ghost use Rattle.wirebase.specs.Bytes.{part};

use super::refusal::Refusal;
use super::{Frame, Network, behind};
use byteorder::{BigEndian, ByteOrder, LittleEndian};
use std::result;
use wirebase::Octets;

// The bytes of the family, the version and the resource; and those of the length and the type of an attribute.
const HEADER_LEN: usize = 4;

// The type of the attribute that has the packet.
const PACKET: u16 = 9;

// A frame of NFLOG, or why it is refused.
pub(super) fn read(octets: &[u8]) -> result::Result<Frame<'_>, Refusal>
    ensures sound { IfOk result (λ f. IsNflog octets.now (value_of f)) }
    ensures complete { (v : FrameValue) → IsNflog octets.now v → IsOkAnd result (λ f. value_of f ≡ v) }
    ensures told { IfErr result (λ refusal. RefusesNflog octets.now refusal) }
{
    if octets.len() < HEADER_LEN {
        return Err(Refusal::Short);
    }
    if octets[1] != 0 {
        return Err(Refusal::NflogVersion(octets[1]));
    }
    let attributes = behind(octets, HEADER_LEN);
    let payload = packet(attributes, is_lowest_first(attributes))?;
    Ok(Frame {
        network: network_of_nflog(octets[0]),
        tags: &[],
        payload,
    })
}

// The network of an address family of Linux.
fn network_of_nflog(family: u8) -> Network
    ensures { result ≡ network_of_nflog family }
{
    match family {
        2 => Network::Ipv4,
        10 => Network::Ipv6,
        other => Network::Other(other as u16),
    }
}

// Whether the numbers of these attributes have their lower byte first; so it is where there are too few bytes to tell.
fn is_lowest_first(attributes: &[u8]) -> bool
    ensures { result ≡ is_lowest_first attributes.now }
{
    attributes.len() < HEADER_LEN || attributes[3] == 0
}

// The packet in these attributes, or why there is none.
fn packet(attributes: &[u8], lowest_first: bool) -> result::Result<&[u8], Refusal>
    ensures sound { IfOk result (λ p. HasPacket lowest_first attributes.now p.now) }
    ensures complete { (p : List ℕ) → HasPacket lowest_first attributes.now p
        → IsOkAnd result (λ q. q.now ≡ p) }
    ensures told { IfErr result (λ refusal. RefusesAttributes lowest_first attributes.now refusal) }
{
    let mut rest = attributes;
    'attributes: loop {
        if rest.len() < HEADER_LEN {
            return Err(Refusal::Short);
        }
        let len = number_at(rest, 0, lowest_first);
        if len < 4 {
            return Err(Refusal::NflogLen(len as u8));
        }
        let len = len as usize;
        if rest.len() < len {
            return Err(Refusal::Short);
        }
        if number_at(rest, 2, lowest_first) == PACKET {
            return Ok(&rest[HEADER_LEN..len]);
        }
        rest = after(rest, (len + 3) / 4 * 4);
    }
}

// What follows so many bytes; nothing where there are fewer.
fn after(octets: &[u8], len: usize) -> &[u8]
    ensures { result.now ≡ drop len octets.now }
{
    if octets.len() < len {
        return &[];
    }
    behind(octets, len)
}

// The number in two bytes. Requires that they are there.
#[tactic(auto, unfolding(crate::specs::Link::number_in))]
fn number_at(octets: &[u8], place: usize, lowest_first: bool) -> u16
    requires { place + 2 ≤ length octets.now }
    ensures { result ≡ number_in lowest_first (part octets.now place (place + 2)) }
{
    let two = octets.range(place, place + 2);
    if lowest_first {
        return LittleEndian::read_u16(two);
    }
    BigEndian::read_u16(two)
}
