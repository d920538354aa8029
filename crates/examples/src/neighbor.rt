//! A host on an Ethernet that looks for its neighbors, and that its neighbors look for (RFC 4861 section 7). Each
//! message is sent with hop limit 255, and one that came with another is not taken.

ghost use Rattle.std.specs.Prelude.{◌≡◌, ◌≤◌, ◌↔◌, ◌++◌, length, take, drop, IsTrue, IfSome, IsSome, IsSomeAnd};
ghost use Rattle.std.specs.Prelude.{None, Some};
ghost use Rattle.control_wire.specs.Capabilities.{all_of};
ghost use Rattle.control_wire.specs.ChecksumType.TheVariants.{Both};
ghost use Rattle.control_wire.specs.Ethernet.{octets_of};
ghost use Rattle.control_wire.specs.HardwareAddress.{ethernet_of};
ghost use Rattle.control_wire.specs.Ipv6Address.{octets_of as octets_in};
ghost use Rattle.control_wire.specs.Icmpv6.{ndisc as neighbors, packet_text};
ghost use Rattle.control_wire.specs.Ndisc.{NdiscValue, CanEmit, text_len, value_of as content_of};
ghost use Rattle.control_wire.specs.NdiscOptionsSeen.{link_of};
ghost use Rattle.examples.specs.Neighbor.{IsUnspecified, IsSolicitedNode, solicited_node_prefix, IsSender};
ghost use Rattle.examples.specs.Neighbor.{IsSolicitation, IsReceived, LooksFor, Solicits, IsAnswer, NeighborIn};
ghost use Rattle.examples.specs.Neighbor.{RequestIn, TellsNeighbor, TellsRequest};
ghost use Rattle.examples.specs.declared.neighbor.NeighborInformation.{NeighborInformation as NeighborValue};
ghost use Rattle.examples.specs.declared.neighbor.NeighborRequest.{NeighborRequest as RequestValue};

use bitflags::Flags as _;
use control_wire::icmpv6::{Packet, Repr};
use control_wire::ndisc::{self, NeighborFlags};
use control_wire::{
    ChecksumCapabilities, EthernetAddress, IPV6_LINK_LOCAL_ALL_NODES, Ipv6Address,
    RawHardwareAddress,
};

// The hop limit of every message: a forwarded one has less (RFC 4861 section 11.2).
const HOP_LIMIT: u8 = 255;

/// The solicited-node address of an address, `ff02::1:ff00:0/104` and the address's last three octets, where its owner
/// listens (RFC 4291 section 2.7.1).
pub fn solicited_node(address: &Ipv6Address) -> Ipv6Address
    ensures { octets_in result ≡ solicited_node_prefix ++ drop 13 (octets_in address.now) }
{
    let octets = address.octets();
    Ipv6Address::from_octets([
        0xff, 0x02, 0, 0, 0, 0, 0, 0, 0, 0, 0, 1, 0xff, octets[13], octets[14], octets[15],
    ])
}

// Whether an address is a solicited-node address.
fn is_solicited_node(address: &Ipv6Address) -> bool
    ensures { IsTrue result ↔ IsSolicitedNode address.now }
{
    address.octets()[..13] == [0xff, 0x02, 0, 0, 0, 0, 0, 0, 0, 0, 0, 1, 0xff]
}

/// Writes the solicitation of the neighbor that has the address `target` to the start of the octets, and returns its
/// length in bytes, 32. It goes from this host's address to `destination`: to `solicited_node(target)`, or to the
/// target itself to see whether it is still there (RFC 4861 sections 4.3, 7.2.2 and 7.3.3). From `::`, by which a host
/// sees whether an address is free, it does not tell `lladdr` and has 24 bytes (RFC 4862 section 5.4.2). None where the
/// octets are too short; then they are unchanged.
pub fn solicit(
    own: &Ipv6Address,
    destination: &Ipv6Address,
    target: &Ipv6Address,
    lladdr: EthernetAddress,
    out: &mut [u8],
) -> Option<usize>
    ensures sent { IfSome result (λ n. IsSolicitation own.now destination.now target.now
        (octets_of (ethernet_of lladdr)) (take n out.new)) }
    ensures room { 32 ≤ length out.old → IsSome result }
    ensures room_unspecified { IsUnspecified own.now → 24 ≤ length out.old → IsSome result }
    ensures fits { IfSome result (λ n. n ≤ length out.new) }
    ensures rest { IfSome result (λ n. drop n out.new ≡ drop n out.old) }
    ensures unsent { result ≡ None → out.new ≡ out.old }
{
    let message = ndisc::Repr::NeighborSolicit {
        target_addr: *target,
        lladdr: sender(own, lladdr),
    };
    write(&message, own, destination, out)
}

// The link-layer address that a sender tells: none from `::`.
pub(crate) fn sender(own: &Ipv6Address, lladdr: EthernetAddress) -> Option<RawHardwareAddress>
    ensures { IsSender own.now (octets_of (ethernet_of lladdr)) (link_of result) }
{
    if own.is_unspecified() {
        None
    } else {
        Some(RawHardwareAddress::from(lladdr))
    }
}

// Writes a message to the start of the octets, and returns its length in bytes.
pub(crate) fn write(
    message: &ndisc::Repr<'_>,
    source: &Ipv6Address,
    destination: &Ipv6Address,
    out: &mut [u8],
) -> Option<usize>
    requires can_emit { CanEmit (content_of message.now) }
    requires small { text_len (content_of message.now) ≤ 1280 }
    ensures written { IfSome result (λ n. take n out.new ≡ packet_text (all_of Both) source.now destination.now
        (neighbors (content_of message.now))) }
    ensures room { text_len (content_of message.now) ≤ length out.old
        → result ≡ Some (text_len (content_of message.now)) }
    ensures fits { IfSome result (λ n. n ≤ length out.new) }
    ensures rest { IfSome result (λ n. drop n out.new ≡ drop n out.old) }
    ensures unwritten { result ≡ None → out.new ≡ out.old }
{
    let message = Repr::Ndisc(*message);
    let len = message.buffer_len();
    if out.len() < len {
        return None;
    }
    let caps = ChecksumCapabilities::default();
    message.emit_into(source, destination, &mut out[..len], &caps);
    Some(len)
}

/// An answer to a solicitation.
#[derive(Debug, PartialEq, Eq, Clone, Copy)]
pub struct Reply {
    /// The destination.
    pub destination: Ipv6Address,
    /// The length in bytes.
    pub len: usize,
}

/// Writes the advertisement that answers a solicitation for this host's address `own` to the start of the reply, and
/// returns its length in bytes, 32, and its destination. The solicitation came from `peer` and went to `asked`. The
/// answer goes to `peer`, with the flags SOLICITED and OVERRIDE; where that is `::`, whose sender sees whether the
/// address is free, to all nodes with OVERRIDE alone (RFC 4861 section 7.2.4). It tells `lladdr`. None exactly where
/// the octets are no valid solicitation for `own`, or where the reply is too short; then it is unchanged. A host does
/// not answer for an address that it does not have yet: `solicits` tells that another host wants it.
pub fn answer(
    peer: &Ipv6Address,
    asked: &Ipv6Address,
    hop_limit: u8,
    own: &Ipv6Address,
    lladdr: EthernetAddress,
    solicitation: &[u8],
    reply: &mut [u8],
) -> Option<Reply>
    ensures answers { Solicits peer.now asked.now hop_limit own.now solicitation.now
        → 32 ≤ length reply.old → IsSome result }
    ensures asked_for { IfSome result (λ answer.
        Solicits peer.now asked.now hop_limit own.now solicitation.now) }
    ensures answered { IfSome result (λ answer. IsAnswer own.now peer.now answer.destination
        (octets_of (ethernet_of lladdr)) (take answer.len reply.new)) }
    ensures fits { IfSome result (λ answer. answer.len ≤ length reply.new) }
    ensures rest { IfSome result (λ answer. drop answer.len reply.new ≡ drop answer.len reply.old) }
    ensures unanswered { result ≡ None → reply.new ≡ reply.old }
{
    if !solicits(peer, asked, hop_limit, own, solicitation) {
        return None;
    }
    let (destination, flags) = if peer.is_unspecified() {
        (IPV6_LINK_LOCAL_ALL_NODES, NeighborFlags::OVERRIDE)
    } else {
        (*peer, NeighborFlags::SOLICITED | NeighborFlags::OVERRIDE)
    };
    let message = ndisc::Repr::NeighborAdvert {
        flags,
        target_addr: *own,
        lladdr: Some(RawHardwareAddress::from(lladdr)),
    };
    match write(&message, own, &destination, reply) {
        Some(len) => Some(Reply { destination, len }),
        None => None,
    }
}

/// Whether the octets are a valid solicitation for the address `own`, which came from `peer` with this hop limit and
/// went to `asked` (RFC 4861 section 7.1.1). One from `::` for an address that this host wants too means that two hosts
/// want it (RFC 4862 section 5.4.3).
pub fn solicits(
    peer: &Ipv6Address,
    asked: &Ipv6Address,
    hop_limit: u8,
    own: &Ipv6Address,
    octets: &[u8],
) -> bool
    ensures { IsTrue result ↔ Solicits peer.now asked.now hop_limit own.now octets.now }
{
    match read(peer, asked, hop_limit, octets) {
        Some(message) => looks_for(&message, peer, asked, own),
        None => false,
    }
}

/// What a solicitation looks for (RFC 4861 section 4.3).
#[derive(Debug, PartialEq, Eq, Clone, Copy)]
pub struct NeighborRequest {
    /// The address that it looks for.
    pub target: Ipv6Address,
    /// The sender's link-layer address.
    pub lladdr: Option<RawHardwareAddress>,
}

/// What a solicitation looks for, which came from `peer` with this hop limit and went to `asked`. None exactly where
/// the octets are no valid solicitation (RFC 4861 section 7.1.1).
pub fn request(
    peer: &Ipv6Address,
    asked: &Ipv6Address,
    hop_limit: u8,
    octets: &[u8],
) -> Option<NeighborRequest>
    ensures told { IfSome result (λ request. TellsRequest peer.now asked.now hop_limit octets.now request) }
    ensures all { (request : RequestValue) → TellsRequest peer.now asked.now hop_limit octets.now request
        → result ≡ Some request }
{
    match read(peer, asked, hop_limit, octets) {
        Some(message) => request_in(&message, peer, asked),
        None => None,
    }
}

// What a message looks for.
fn request_in(
    message: &ndisc::Repr<'_>,
    peer: &Ipv6Address,
    asked: &Ipv6Address,
) -> Option<NeighborRequest>
    ensures sound { IfSome result (λ request. RequestIn peer.now asked.now request (content_of message.now)) }
    ensures complete { (request : RequestValue) → RequestIn peer.now asked.now request (content_of message.now)
        → result ≡ Some request }
{
    match *message {
        ndisc::Repr::NeighborSolicit {
            target_addr,
            lladdr,
        } => {
            if !looks_for(message, peer, asked, &target_addr) {
                return None;
            }
            Some(NeighborRequest {
                target: target_addr,
                lladdr,
            })
        }
        _ => None,
    }
}

// Whether a message is a solicitation for this address.
fn looks_for(
    message: &ndisc::Repr<'_>,
    peer: &Ipv6Address,
    asked: &Ipv6Address,
    own: &Ipv6Address,
) -> bool
    ensures { IsTrue result ↔ LooksFor peer.now asked.now own.now (content_of message.now) }
{
    match message {
        ndisc::Repr::NeighborSolicit {
            target_addr,
            lladdr,
        } => {
            target_addr.octets() == own.octets()
                && !target_addr.is_multicast()
                && (!peer.is_unspecified() || is_solicited_node(asked) && lladdr.is_none())
        }
        _ => false,
    }
}

// The message of neighbor discovery in the octets, which was not forwarded.
pub(crate) fn read<'a>(
    source: &Ipv6Address,
    destination: &Ipv6Address,
    hop_limit: u8,
    octets: &'a [u8],
) -> Option<ndisc::Repr<'a>>
    ensures sound { IfSome result (λ message.
        IsReceived source.now destination.now hop_limit octets.now (content_of message)) }
    ensures complete { (v : NdiscValue) → IsReceived source.now destination.now hop_limit octets.now v
        → IsSomeAnd result (λ message. content_of message ≡ v) }
{
    if hop_limit != HOP_LIMIT {
        return None;
    }
    let caps = ChecksumCapabilities::default();
    let packet = Packet::new_unchecked(octets);
    let message = match Repr::parse(source, destination, &packet, &caps) {
        Ok(message) => message,
        Err(_) => return None,
    };
    let Repr::Ndisc(message) = message else {
        return None;
    };
    Some(message)
}

/// What a neighbor tells of itself (RFC 4861 section 4.4).
#[derive(Debug, PartialEq, Eq, Clone, Copy)]
pub struct NeighborInformation {
    /// The neighbor's address.
    pub addr: Ipv6Address,
    /// Whether it is a router, was asked, and takes the place of what is known of the address.
    pub flags: NeighborFlags,
    /// Its link-layer address.
    pub lladdr: Option<RawHardwareAddress>,
}

/// What a neighbor's advertisement tells, which came from `source` with this hop limit and went to `destination`. None
/// exactly where the octets are no valid advertisement of a neighbor (RFC 4861 section 7.1.2).
pub fn neighbor(
    source: &Ipv6Address,
    destination: &Ipv6Address,
    hop_limit: u8,
    octets: &[u8],
) -> Option<NeighborInformation>
    ensures told { IfSome result (λ neighbor.
        TellsNeighbor source.now destination.now hop_limit octets.now neighbor) }
    ensures all { (neighbor : NeighborValue)
        → TellsNeighbor source.now destination.now hop_limit octets.now neighbor
        → result ≡ Some neighbor }
{
    match read(source, destination, hop_limit, octets) {
        Some(message) => neighbor_in(&message, destination),
        None => None,
    }
}

// What a message tells of a neighbor.
fn neighbor_in(message: &ndisc::Repr<'_>, destination: &Ipv6Address) -> Option<NeighborInformation>
    ensures sound { IfSome result (λ neighbor. NeighborIn destination.now neighbor (content_of message.now)) }
    ensures complete { (neighbor : NeighborValue) → NeighborIn destination.now neighbor (content_of message.now)
        → result ≡ Some neighbor }
{
    match *message {
        ndisc::Repr::NeighborAdvert {
            flags,
            target_addr,
            lladdr,
        } => {
            let solicited = flags.contains(NeighborFlags::SOLICITED);
            if target_addr.is_multicast() || destination.is_multicast() && solicited {
                return None;
            }
            Some(NeighborInformation {
                addr: target_addr,
                flags,
                lladdr,
            })
        }
        _ => None,
    }
}
