use crate::testing::same;
use control_wire::ndisc::NeighborFlags;
use control_wire::{EthernetAddress, IPV6_LINK_LOCAL_ALL_NODES, Ipv6Address, RawHardwareAddress};
use examples::neighbor::{
    NeighborInformation, NeighborRequest, Reply, answer, neighbor, request, solicit,
    solicited_node, solicits,
};
use std::process::Abort;

const PEER_LINK_ADDRESS: EthernetAddress = EthernetAddress([0x02, 0x00, 0x00, 0x00, 0x00, 0x01]);

const OWN_LINK_ADDRESS: EthernetAddress = EthernetAddress([0x02, 0x00, 0x00, 0x00, 0x00, 0x02]);

// fe80::1 asks at ff02::1:ff00:2 who has fe80::2.
const SOLICITATION: [u8; 32] = [
    0x87, 0x00, 0x7a, 0x97, 0x00, 0x00, 0x00, 0x00, 0xfe, 0x80, 0x00, 0x00, 0x00, 0x00, 0x00, 0x00,
    0x00, 0x00, 0x00, 0x00, 0x00, 0x00, 0x00, 0x02, 0x01, 0x01, 0x02, 0x00, 0x00, 0x00, 0x00, 0x01,
];

// :: asks the same before it takes fe80::2 (RFC 4862 section 5.4.2), as Linux does with a nonce behind (RFC 7527).
const TENTATIVE: [u8; 24] = [
    0x87, 0x00, 0x7c, 0x23, 0x00, 0x00, 0x00, 0x00, 0xfe, 0x80, 0x00, 0x00, 0x00, 0x00, 0x00, 0x00,
    0x00, 0x00, 0x00, 0x00, 0x00, 0x00, 0x00, 0x02,
];

const WITH_NONCE: [u8; 32] = [
    0x87, 0x00, 0x5d, 0x51, 0x00, 0x00, 0x00, 0x00, 0xfe, 0x80, 0x00, 0x00, 0x00, 0x00, 0x00, 0x00,
    0x00, 0x00, 0x00, 0x00, 0x00, 0x00, 0x00, 0x02, 0x0e, 0x01, 0x5a, 0x1d, 0x03, 0xe7, 0xb2, 0xc4,
];

// From :: with an address on the link, from :: to all nodes, and for the group ff02::2.
const OF_NO_ONE: [u8; 32] = [
    0x87, 0x00, 0x79, 0x19, 0x00, 0x00, 0x00, 0x00, 0xfe, 0x80, 0x00, 0x00, 0x00, 0x00, 0x00, 0x00,
    0x00, 0x00, 0x00, 0x00, 0x00, 0x00, 0x00, 0x02, 0x01, 0x01, 0x02, 0x00, 0x00, 0x00, 0x00, 0x01,
];

const TO_ALL: [u8; 24] = [
    0x87, 0x00, 0x7b, 0x26, 0x00, 0x00, 0x00, 0x00, 0xfe, 0x80, 0x00, 0x00, 0x00, 0x00, 0x00, 0x00,
    0x00, 0x00, 0x00, 0x00, 0x00, 0x00, 0x00, 0x02,
];

const FOR_GROUP: [u8; 24] = [
    0x87, 0x00, 0x7d, 0x1f, 0x00, 0x00, 0x00, 0x00, 0xff, 0x02, 0x00, 0x00, 0x00, 0x00, 0x00, 0x00,
    0x00, 0x00, 0x00, 0x00, 0x00, 0x00, 0x00, 0x02,
];

// fe80::2 answers fe80::1, and tells all nodes without being asked and as if it were.
const ADVERTISEMENT: [u8; 32] = [
    0x88, 0x00, 0x18, 0x1a, 0x60, 0x00, 0x00, 0x00, 0xfe, 0x80, 0x00, 0x00, 0x00, 0x00, 0x00, 0x00,
    0x00, 0x00, 0x00, 0x00, 0x00, 0x00, 0x00, 0x02, 0x02, 0x01, 0x02, 0x00, 0x00, 0x00, 0x00, 0x02,
];

const UNSOLICITED: [u8; 32] = [
    0x88, 0x00, 0x57, 0x98, 0x20, 0x00, 0x00, 0x00, 0xfe, 0x80, 0x00, 0x00, 0x00, 0x00, 0x00, 0x00,
    0x00, 0x00, 0x00, 0x00, 0x00, 0x00, 0x00, 0x02, 0x02, 0x01, 0x02, 0x00, 0x00, 0x00, 0x00, 0x02,
];

const SOLICITED_BY_ALL: [u8; 32] = [
    0x88, 0x00, 0x17, 0x98, 0x60, 0x00, 0x00, 0x00, 0xfe, 0x80, 0x00, 0x00, 0x00, 0x00, 0x00, 0x00,
    0x00, 0x00, 0x00, 0x00, 0x00, 0x00, 0x00, 0x02, 0x02, 0x01, 0x02, 0x00, 0x00, 0x00, 0x00, 0x02,
];

// The answer with no option, and with the option of a sender's address.
const BARE: [u8; 24] = [
    0x88, 0x00, 0x1c, 0x25, 0x60, 0x00, 0x00, 0x00, 0xfe, 0x80, 0x00, 0x00, 0x00, 0x00, 0x00, 0x00,
    0x00, 0x00, 0x00, 0x00, 0x00, 0x00, 0x00, 0x02,
];

const OF_SENDER: [u8; 32] = [
    0x88, 0x00, 0x19, 0x13, 0x60, 0x00, 0x00, 0x00, 0xfe, 0x80, 0x00, 0x00, 0x00, 0x00, 0x00, 0x00,
    0x00, 0x00, 0x00, 0x00, 0x00, 0x00, 0x00, 0x02, 0x01, 0x01, 0x02, 0x00, 0x00, 0x00, 0x00, 0x09,
];

fn peer() -> Ipv6Address {
    Ipv6Address::new(0xfe80, 0, 0, 0, 0, 0, 0, 1)
}

fn own() -> Ipv6Address {
    Ipv6Address::new(0xfe80, 0, 0, 0, 0, 0, 0, 2)
}

fn asked() -> Ipv6Address {
    Ipv6Address::new(0xff02, 0, 0, 0, 0, 1, 0xff00, 2)
}

// The address of RFC 4291 section 2.7.1.
#[test]
fn the_solicited_node_address_has_the_last_three_octets(rt: HostRuntime) {
    let address = Ipv6Address::new(0x4037, 0, 0, 0, 0x01, 0x0800, 0x200e, 0x8c6c);
    let group = Ipv6Address::new(0xff02, 0, 0, 0, 0, 1, 0xff0e, 0x8c6c);
    same(&rt, solicited_node(&address), group);
    same(&rt, solicited_node(&own()), asked());
}

#[test]
fn a_neighbor_is_solicited_with_the_senders_address_on_the_link(rt: HostRuntime) {
    let target = own();
    let mut out = [0x2a; 33];
    let group = solicited_node(&target);
    let written = solicit(&peer(), &group, &target, PEER_LINK_ADDRESS, &mut out);
    same(&rt, written, Some(32));
    same(&rt, &out[..32], SOLICITATION.as_slice());
    same(&rt, out[32], 0x2a);
    let mut short = [0x2a; 31];
    let written = solicit(&peer(), &group, &target, PEER_LINK_ADDRESS, &mut short);
    same(&rt, written, None);
    same(&rt, short, [0x2a; 31]);
}

#[test]
fn an_address_is_looked_for_without_an_address_on_the_link_before_it_is_taken(rt: HostRuntime) {
    let none = Ipv6Address::UNSPECIFIED;
    let mut out = [0x2a; 24];
    let written = solicit(&none, &asked(), &own(), PEER_LINK_ADDRESS, &mut out);
    same(&rt, written, Some(24));
    same(&rt, out, TENTATIVE);
}

#[test]
fn a_solicitation_is_answered_with_the_address_on_the_link(rt: HostRuntime) {
    let (peer, own) = (peer(), own());
    let mut reply = [0x2a; 34];
    let lladdr = OWN_LINK_ADDRESS;
    let written = answer(
        &peer,
        &asked(),
        255,
        &own,
        lladdr,
        &SOLICITATION,
        &mut reply,
    );
    let to_peer = Reply {
        destination: peer,
        len: 32,
    };
    same(&rt, written, Some(to_peer));
    same(&rt, &reply[..32], ADVERTISEMENT.as_slice());
    same(&rt, &reply[32..], [0x2a; 2].as_slice());
}

#[test]
fn who_is_after_a_taken_address_is_told_among_all_nodes(rt: HostRuntime) {
    let (none, asked, own) = (Ipv6Address::UNSPECIFIED, asked(), own());
    let to_all = Reply {
        destination: IPV6_LINK_LOCAL_ALL_NODES,
        len: 32,
    };
    for solicitation in [TENTATIVE.as_slice(), WITH_NONCE.as_slice()] {
        let mut reply = [0x2a; 32];
        let written = answer(
            &none,
            &asked,
            255,
            &own,
            OWN_LINK_ADDRESS,
            solicitation,
            &mut reply,
        );
        same(&rt, written, Some(to_all));
        same(&rt, reply, UNSOLICITED);
    }
}

#[test]
fn what_is_no_solicitation_for_this_host_or_has_no_room_is_not_answered(rt: HostRuntime) {
    let (peer, asked, own) = (peer(), asked(), own());
    let lladdr = OWN_LINK_ADDRESS;
    let mut reply = [0x2a; 32];
    // Forwarded, for another address, of another checksum, and no solicitation.
    let none = answer(&peer, &asked, 254, &own, lladdr, &SOLICITATION, &mut reply);
    same(&rt, none, None);
    let none = answer(&peer, &asked, 255, &peer, lladdr, &SOLICITATION, &mut reply);
    same(&rt, none, None);
    let none = answer(&peer, &own, 255, &own, lladdr, &SOLICITATION, &mut reply);
    same(&rt, none, None);
    let none = answer(&own, &peer, 255, &own, lladdr, &ADVERTISEMENT, &mut reply);
    same(&rt, none, None);
    same(&rt, reply, [0x2a; 32]);
    let mut short = [0x2a; 31];
    let none = answer(&peer, &asked, 255, &own, lladdr, &SOLICITATION, &mut short);
    same(&rt, none, None);
    same(&rt, short, [0x2a; 31]);
}

#[test]
fn solicitations_against_the_rules_are_not_valid(rt: HostRuntime) {
    let (none, asked, own) = (Ipv6Address::UNSPECIFIED, asked(), own());
    let all = IPV6_LINK_LOCAL_ALL_NODES;
    let group = Ipv6Address::new(0xff02, 0, 0, 0, 0, 0, 0, 2);
    same(&rt, solicits(&none, &asked, 255, &own, &TENTATIVE), true);
    same(&rt, solicits(&none, &asked, 255, &own, &OF_NO_ONE), false);
    same(&rt, solicits(&none, &all, 255, &own, &TO_ALL), false);
    same(
        &rt,
        solicits(&peer(), &asked, 255, &group, &FOR_GROUP),
        false,
    );
}

#[test]
fn a_neighbor_is_read_from_its_advertisement(rt: HostRuntime) {
    let (peer, own) = (peer(), own());
    let told = NeighborInformation {
        addr: own,
        flags: NeighborFlags::SOLICITED | NeighborFlags::OVERRIDE,
        lladdr: Some(RawHardwareAddress::from(OWN_LINK_ADDRESS)),
    };
    same(&rt, neighbor(&own, &peer, 255, &ADVERTISEMENT), Some(told));
    let told = NeighborInformation {
        flags: NeighborFlags::OVERRIDE,
        ..told
    };
    let all = IPV6_LINK_LOCAL_ALL_NODES;
    same(&rt, neighbor(&own, &all, 255, &UNSOLICITED), Some(told));
}

#[test]
fn a_neighbor_without_an_option_of_the_target_has_no_address_on_the_link(rt: HostRuntime) {
    let (peer, own) = (peer(), own());
    let told = NeighborInformation {
        addr: own,
        flags: NeighborFlags::SOLICITED | NeighborFlags::OVERRIDE,
        lladdr: None,
    };
    same(&rt, neighbor(&own, &peer, 255, &BARE), Some(told));
    same(&rt, neighbor(&own, &peer, 255, &OF_SENDER), Some(told));
}

#[test]
fn advertisements_against_the_rules_are_not_read(rt: HostRuntime) {
    let (peer, own) = (peer(), own());
    let all = IPV6_LINK_LOCAL_ALL_NODES;
    // Forwarded, of another checksum, solicited by all nodes, and no advertisement.
    is_not_read(&rt, &own, &peer, 254, &ADVERTISEMENT);
    is_not_read(&rt, &own, &all, 255, &ADVERTISEMENT);
    is_not_read(&rt, &own, &all, 255, &SOLICITED_BY_ALL);
    is_not_read(&rt, &peer, &asked(), 255, &SOLICITATION);
}

fn is_not_read(
    rt: &impl Abort,
    source: &Ipv6Address,
    destination: &Ipv6Address,
    hop_limit: u8,
    octets: &[u8],
) {
    same(rt, neighbor(source, destination, hop_limit, octets), None);
}

#[test]
fn a_solicitation_tells_what_it_looks_for(rt: HostRuntime) {
    let (none, asked) = (Ipv6Address::UNSPECIFIED, asked());
    let looks = NeighborRequest {
        target: own(),
        lladdr: Some(RawHardwareAddress::from(PEER_LINK_ADDRESS)),
    };
    same(
        &rt,
        request(&peer(), &asked, 255, &SOLICITATION),
        Some(looks),
    );
    let looks = NeighborRequest {
        lladdr: None,
        ..looks
    };
    same(&rt, request(&none, &asked, 255, &WITH_NONCE), Some(looks));
    same(&rt, request(&none, &asked, 255, &OF_NO_ONE), None);
    same(&rt, request(&peer(), &asked, 255, &FOR_GROUP), None);
    same(&rt, request(&peer(), &asked, 254, &SOLICITATION), None);
    same(&rt, request(&own(), &peer(), 255, &ADVERTISEMENT), None);
}
