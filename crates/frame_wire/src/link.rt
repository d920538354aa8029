//! Frames of the links that captures have.

ghost use Rattle.std.specs.Prelude.{◌≡◌, ◌<◌, ◌≤◌, ◌↔◌, ◌+◌, ◌*◌, ◌/◌, ◌%◌, [], IfOk, IfErr, IsOkAnd, IsTrue, length};
ghost use Rattle.std.specs.Prelude.{List, drop, ℕ};
ghost use Rattle.frame_wire.specs.Link.{FrameValue, value_of, network_of_type, IsTagType, TypedValue, IsTagged};
ghost use Rattle.frame_wire.specs.Link.{network_of_protocol, IsProtocol, IsPpp, IsSession, IsPayload, IsTypedFrame};
ghost use Rattle.frame_wire.specs.Link.{link_of, IsFrame, IsRaw, IsFamily, family_in, network_of_family, vlan_in};
ghost use Rattle.frame_wire.specs.Link.{IsIpnet, IsTyped, has_ether_types, network_of_solaris};
ghost use Rattle.frame_wire.specs.private.Parts.{typed_of};
ghost use Rattle.frame_wire.specs.LinkRefusal.{IsTagCut, IsProtocolCut, RefusesPpp, IsSessionCut};
ghost use Rattle.frame_wire.specs.declared.link.refusal.Refusal.TheVariants as refusals;
ghost use Rattle.wirebase.specs.Bytes.{field as field_at, number_of};

use byteorder::{ByteOrder, LittleEndian};
use wirebase::{Error, Octets, Result};

mod display;
mod ethernet;
mod frame_relay;
mod nflog;
mod refusal;
mod vlans;

pub use ethernet::EthernetHeader;
pub use refusal::Refusal;
pub use vlans::{VlanTag, VlanTags};

/// The links whose frames are read.
///
/// ```
/// use frame_wire::{Link, Network};
///
/// // The link type of a capture file, and a frame of that link: Linux cooked capture, version 1.
/// let link = Link::of(113).unwrap();
/// let frame = link.frame(&[0, 0, 0, 1, 0, 6, 2, 0, 0, 0, 0, 1, 0, 0, 0x86, 0xdd, 0x60])?;
/// assert_eq!(frame.network, Network::Ipv6);
/// assert_eq!(frame.payload, [0x60]);
/// # Ok::<(), control_wire::Error>(())
/// ```
#[derive(Debug, PartialEq, Eq, Clone, Copy)]
pub enum Link {
    /// The loopback of BSD: an address family, in host or network byte order.
    Null,
    /// Ethernet II.
    Ethernet,
    /// PPP (RFC 1661), also in HDLC framing (RFC 1662).
    Ppp,
    /// A session of PPP over Ethernet (RFC 2516).
    PppEther,
    /// IP without a link header.
    Raw,
    /// Linux cooked capture, version 1.
    LinuxSll,
    /// Linux cooked capture, version 2.
    LinuxSll2,
    /// HDLC as Cisco's routers have it: an address, a control byte, and an EtherType (RFC 1547 section 4.3.1).
    CHdlc,
    /// Frame relay with protocols by their numbers (RFC 2427).
    FrameRelay,
    /// IP with the header of Solaris's ipnet.
    Ipnet,
    /// What the firewall of Linux logs: attributes, one of which is the packet.
    Nflog,
    /// IP over InfiniBand (RFC 4391 section 6), behind a global route header of 40 bytes.
    Ipoib,
}

impl Link {
    /// The link of a capture file's link type, by the registry of link types of pcap and pcapng; None where its frames
    /// are not read. Read are 0 and 108 (NULL and LOOP); 1 (ETHERNET); 9 and 50 (PPP and PPP_HDLC); 12, 14, 101, 228
    /// and 229 (RAW by two older numbers, RAW, IPV4 and IPV6); 51 (PPP_ETHER); 104 (C_HDLC); 107 (FRELAY); 113
    /// (LINUX_SLL); 226 (IPNET); 239 (NFLOG); 242 (IPOIB); and 276 (LINUX_SLL2).
    pub fn of(link_type: u16) -> Option<Link>
        ensures { result ≡ link_of link_type }
    {
        match link_type {
            0 | 108 => Some(Link::Null),
            1 => Some(Link::Ethernet),
            9 | 50 => Some(Link::Ppp),
            12 | 14 | 101 | 228 | 229 => Some(Link::Raw),
            51 => Some(Link::PppEther),
            104 => Some(Link::CHdlc),
            107 => Some(Link::FrameRelay),
            113 => Some(Link::LinuxSll),
            226 => Some(Link::Ipnet),
            239 => Some(Link::Nflog),
            242 => Some(Link::Ipoib),
            276 => Some(Link::LinuxSll2),
            _ => None,
        }
    }

    /// Whether a frame of this link has an EtherType, which is then the number of a [`Network::Other`]; below 0x0600
    /// that is the length of a frame of IEEE 802.3, and in a session of PPPoE a protocol of PPP. Frame relay has
    /// EtherTypes among other numbers, and so the answer for it is false.
    #[tactic(auto, using(crate::proofs::TypedLinks::frames_typed))]
    pub fn has_ether_types(self) -> bool
        ensures is { result ≡ has_ether_types self }
        ensures typed { IsTrue result → (bytes : List ℕ) (v : FrameValue) → IsFrame self bytes v → IsTyped v }
    {
        matches!(
            self,
            Link::Ethernet | Link::LinuxSll | Link::LinuxSll2 | Link::CHdlc | Link::Ipoib
        )
    }

    /// The frame in these octets. Refused where its headers are cut short; where a PPPoE session packet has another
    /// version, type or code than data; where frame relay has an address of another length than two to four bytes, or
    /// another control byte than 3, that of unnumbered information; and where NFLOG has another version than 0, an
    /// attribute whose length does not cover its own header, or no attribute with the packet.
    #[inline]
    pub fn frame(self, octets: &[u8]) -> Result<Frame<'_>>
        ensures sound { IfOk result (λ f. IsFrame self octets.now (value_of f)) }
        ensures complete { (v : FrameValue) → IsFrame self octets.now v → IsOkAnd result (λ f. value_of f ≡ v) }
    {
        match self {
            Link::Null => family(octets),
            Link::Ethernet => typed_at(octets, 12, 14),
            Link::Ppp => ppp(octets),
            Link::PppEther => session(octets),
            Link::Raw => raw(octets),
            Link::LinuxSll => typed_at(octets, 14, 16),
            Link::LinuxSll2 => typed_at(octets, 0, 20),
            Link::CHdlc => typed_at(octets, 2, 4),
            Link::FrameRelay => frame_relay::read(octets).map_err(|_| Error),
            Link::Ipnet => ipnet(octets),
            Link::Nflog => nflog::read(octets).map_err(|_| Error),
            Link::Ipoib => typed_at(octets, 40, 44),
        }
    }
}

/// The network protocol of a frame.
#[derive(Debug, PartialEq, Eq, Clone, Copy)]
pub enum Network {
    /// IPv4.
    Ipv4,
    /// IPv6.
    Ipv6,
    /// Another, by its number on that link.
    Other(u16),
}

/// What a frame holds.
///
/// ```
/// use frame_wire::{Link, Network};
///
/// // A frame of Ethernet with the tag of VLAN 7.
/// let octets = [2, 0, 0, 0, 0, 2, 2, 0, 0, 0, 0, 1, 0x81, 0x00, 0x00, 0x07, 0x08, 0x00, 0x45];
/// let frame = Link::Ethernet.frame(&octets)?;
/// assert_eq!(frame.network, Network::Ipv4);
/// assert_eq!((frame.vlans(), frame.vlan(0)), (1, 7));
/// assert_eq!(frame.payload, [0x45]);
/// # Ok::<(), control_wire::Error>(())
/// ```
#[derive(Debug, PartialEq, Eq, Clone, Copy)]
pub struct Frame<'a> {
    /// The network.
    pub network: Network,
    /// The VLAN tags, the outermost first: four bytes each, of which the lower 12 bits of the first two are the VLAN's
    /// number (IEEE 802.1Q clause 9.6). [`Frame::vlan_tags`] gives them one by one.
    pub tags: &'a [u8],
    /// The payload after the link headers.
    pub payload: &'a [u8],
}

// A payload by its EtherType, after its VLAN tags.
#[derive(Debug, PartialEq, Eq, Clone, Copy)]
struct Typed<'a> {
    kind: u16,
    tags: &'a [u8],
    payload: &'a [u8],
}

impl Frame<'_> {
    /// The number of VLAN tags of the frame.
    pub fn vlans(&self) -> usize
        ensures { result ≡ length (value_of self.now).tags / 4 }
    {
        self.tags.len() / 4
    }

    /// The number of the VLAN of a tag, 0 to 4,095. Requires that there is such a tag.
    pub fn vlan(&self, place: usize) -> u16
        requires { 4 * place + 4 ≤ length (value_of self.now).tags }
        ensures { result ≡ vlan_in (value_of self.now).tags place }
    {
        self.tags.u16_at(4 * place..4 * place + 2) % 4096
    }
}

// The octets from this place to the end. Requires that the place is not past the end.
#[tactic(auto, using(std::proofs::lemmas::List::take_all))]
pub(crate) fn behind(octets: &[u8], place: usize) -> &[u8]
    requires { place ≤ length octets.now }
    ensures { result.now ≡ drop place octets.now }
{
    &octets[place..]
}

// The network of an EtherType.
fn network_of_type(kind: u16) -> Network
    ensures { result ≡ network_of_type kind }
{
    match kind {
        0x0800 => Network::Ipv4,
        0x86dd => Network::Ipv6,
        other => Network::Other(other),
    }
}

// The network of a protocol of PPP.
fn network_of_protocol(protocol: u16) -> Network
    ensures { result ≡ network_of_protocol protocol }
{
    match protocol {
        0x0021 => Network::Ipv4,
        0x0057 => Network::Ipv6,
        other => Network::Other(other),
    }
}

// Whether this is the type of a VLAN tag.
fn is_tag(kind: u16) -> bool
    ensures { IsTrue result ↔ IsTagType kind }
{
    kind == 0x8100 || kind == 0x88a8
}

// What follows a type and the tags that follow it. Refused where a tag is cut short.
fn untagged<'a>(kind: u16, octets: &'a [u8]) -> Result<Typed<'a>>
    ensures sound { IfOk result (λ t. IsTagged kind octets.now (typed_of t).tags (typed_of t).type
        (typed_of t).payload) }
    ensures cut { IfErr result (λ _. IsTagCut kind octets.now) }
    ensures complete { (v : TypedValue) → IsTagged kind octets.now v.tags v.type v.payload
        → IsOkAnd result (λ t. typed_of t ≡ v) }
{
    let mut last = kind;
    let mut end = 0;
    'tags: while is_tag(last) {
        if octets.len() - end < 4 {
            return Err(Error);
        }
        last = octets.u16_at(end + 2..end + 4);
        end += 4;
    }
    Ok(Typed {
        kind: last,
        tags: &octets[..end],
        payload: behind(octets, end),
    })
}

// What follows a protocol of PPP. Refused where the protocol is cut short.
fn protocol<'a>(octets: &'a [u8], tags: &'a [u8]) -> Result<Frame<'a>>
    ensures sound { IfOk result (λ f. IsProtocol octets.now tags.now (value_of f)) }
    ensures cut { IfErr result (λ _. IsProtocolCut octets.now) }
    ensures complete { (v : FrameValue) → IsProtocol octets.now tags.now v → IsOkAnd result (λ f. value_of f ≡ v) }
{
    if octets.is_empty() {
        return Err(Error);
    }
    let first = octets[0];
    if first % 2 == 1 {
        return Ok(Frame {
            network: network_of_protocol(first as u16),
            tags,
            payload: behind(octets, 1),
        });
    }
    if octets.len() < 2 {
        return Err(Error);
    }
    Ok(Frame {
        network: network_of_protocol(octets.u16_at(0..2)),
        tags,
        payload: behind(octets, 2),
    })
}

// A frame of PPP, with or without the address and control bytes ff 03 in front (RFC 1661 section 2,
// RFC 1662 section 3.1). Refused where the protocol is cut short.
fn ppp(octets: &[u8]) -> Result<Frame<'_>>
    ensures sound { IfOk result (λ f. IsPpp octets.now (value_of f)) }
    ensures cut { IfErr result (λ _. RefusesPpp octets.now refusals.Protocol) }
    ensures complete { (v : FrameValue) → IsPpp octets.now v → IsOkAnd result (λ f. value_of f ≡ v) }
{
    if octets.len() >= 2 && octets.u16_at(0..2) == 0xff03 {
        return protocol(behind(octets, 2), &[]);
    }
    protocol(octets, &[])
}

// The payload of an EtherType. Refused where a session's protocol is cut short.
fn payload_of<'a>(typed: Typed<'a>) -> Result<Frame<'a>>
    ensures sound { IfOk result (λ f. IsPayload (typed_of typed.entry).type (typed_of typed.entry).tags
        (typed_of typed.entry).payload (value_of f)) }
    ensures cut { IfErr result (λ _. IsSessionCut (typed_of typed.entry).type (typed_of typed.entry).payload) }
    ensures complete { (v : FrameValue) → IsPayload (typed_of typed.entry).type (typed_of typed.entry).tags
        (typed_of typed.entry).payload v → IsOkAnd result (λ f. value_of f ≡ v) }
{
    let Typed {
        kind,
        tags,
        payload,
    } = typed;
    if kind == 0x8864 && payload.len() >= 6 && payload.u16_at(0..2) == 0x1100 {
        return protocol(behind(payload, 6), tags);
    }
    Ok(Frame {
        network: network_of_type(kind),
        tags,
        payload,
    })
}

// A frame whose EtherType is at `place` and whose payload begins at `start`. Refused where its headers are cut short.
fn typed_at(octets: &[u8], place: usize, start: usize) -> Result<Frame<'_>>
    requires order { place + 2 ≤ start }
    requires small { start ≤ 44 }
    ensures sound { IfOk result (λ f. (start ≤ length octets.now)
        × IsTypedFrame (number_of (field_at place (place + 2)) octets.now) (drop start octets.now) (value_of f)) }
    ensures complete { (v : FrameValue) → start ≤ length octets.now
        → IsTypedFrame (number_of (field_at place (place + 2)) octets.now) (drop start octets.now) v
        → IsOkAnd result (λ f. value_of f ≡ v) }
{
    if octets.len() < start {
        return Err(Error);
    }
    read_typed(octets.u16_at(place..place + 2), behind(octets, start))
}

// What follows a type.
fn read_typed(kind: u16, octets: &[u8]) -> Result<Frame<'_>>
    ensures sound { IfOk result (λ f. IsTypedFrame kind octets.now (value_of f)) }
    ensures complete { (v : FrameValue) → IsTypedFrame kind octets.now v → IsOkAnd result (λ f. value_of f ≡ v) }
{
    let typed = untagged(kind, octets)?;
    payload_of(typed)
}

// The data of a PPPoE session. Refused where its headers are cut short or say that it is not data.
fn session(octets: &[u8]) -> Result<Frame<'_>>
    ensures sound { IfOk result (λ f. IsSession octets.now × IsProtocol (drop 6 octets.now) [] (value_of f)) }
    ensures complete { (v : FrameValue) → IsSession octets.now × IsProtocol (drop 6 octets.now) [] v
        → IsOkAnd result (λ f. value_of f ≡ v) }
{
    if octets.len() < 6 || octets.u16_at(0..2) != 0x1100 {
        return Err(Error);
    }
    protocol(behind(octets, 6), &[])
}

// A datagram without a link header. Refused where there are no octets.
fn raw(octets: &[u8]) -> Result<Frame<'_>>
    ensures sound { IfOk result (λ f. IsRaw octets.now (value_of f)) }
    ensures cut { IfErr result (λ _. length octets.now < 1) }
    ensures complete { (v : FrameValue) → IsRaw octets.now v → IsOkAnd result (λ f. value_of f ≡ v) }
{
    if octets.is_empty() {
        return Err(Error);
    }
    let network = match octets[0] / 16 {
        4 => Network::Ipv4,
        6 => Network::Ipv6,
        other => Network::Other(other as u16),
    };
    Ok(Frame {
        network,
        tags: &[],
        payload: octets,
    })
}

// A frame after an address family. Refused where that is cut short.
fn family(octets: &[u8]) -> Result<Frame<'_>>
    ensures sound { IfOk result (λ f. IsFamily octets.now (value_of f)) }
    ensures cut { IfErr result (λ _. length octets.now < 4) }
    ensures complete { (v : FrameValue) → IsFamily octets.now v → IsOkAnd result (λ f. value_of f ≡ v) }
{
    if octets.len() < 4 {
        return Err(Error);
    }
    Ok(Frame {
        network: network_of_family(family_in(octets)),
        tags: &[],
        payload: behind(octets, 4),
    })
}

// The address family in the first four bytes, of either order. Requires that they are there.
fn family_in(octets: &[u8]) -> u16
    requires { 4 ≤ length octets.now }
    ensures { result ≡ family_in octets.now }
{
    let family = octets.u32_at(0..4);
    if family < 65536 {
        return family as u16;
    }
    (LittleEndian::read_u32(octets.range(0, 4)) % 65536) as u16
}

// The network of an address family, by the numbers of Linux, NetBSD, FreeBSD and Darwin.
fn network_of_family(family: u16) -> Network
    ensures { result ≡ network_of_family family }
{
    match family {
        2 => Network::Ipv4,
        10 | 24 | 28 | 30 => Network::Ipv6,
        other => Network::Other(other),
    }
}

// A datagram behind the header of Solaris's ipnet. Refused where that is cut short.
fn ipnet(octets: &[u8]) -> Result<Frame<'_>>
    ensures sound { IfOk result (λ f. IsIpnet octets.now (value_of f)) }
    ensures cut { IfErr result (λ _. length octets.now < 24) }
    ensures complete { (v : FrameValue) → IsIpnet octets.now v → IsOkAnd result (λ f. value_of f ≡ v) }
{
    if octets.len() < 24 {
        return Err(Error);
    }
    Ok(Frame {
        network: network_of_solaris(octets[1]),
        tags: &[],
        payload: behind(octets, 24),
    })
}

// The network of an address family of Solaris.
fn network_of_solaris(family: u8) -> Network
    ensures { result ≡ network_of_solaris family }
{
    match family {
        2 => Network::Ipv4,
        26 => Network::Ipv6,
        other => Network::Other(other as u16),
    }
}
