//! Questions and answers.

ghost use Rattle.std.specs.Prelude.{◌≡◌, None};
ghost use Rattle.std.specs.Option.{option_map};
ghost use Rattle.frame_wire.specs.UdpCaptured.{captured_of};
ghost use Rattle.message_fields.specs.Checksums.{value_of};
ghost use Rattle.packet_pairs.specs.Exchange.{Finds, exchange_of, way_of};
ghost use Rattle.packet_pairs.specs.Message.{Has, IsIcmp6, IsOf, TcpHas, UdpHas, way_in};
ghost use Rattle.packet_pairs.specs.private.Directions.{from_asker};

use crate::echo::echo_in;
use crate::key::{Key, Way, reversed};
use crate::lease::lease_in;
use crate::names::{name_in, netbios_in};
use crate::neighbor::neighbor_in;
use frame_wire::{Addresses, CapturedUdp, TcpSegment};
use message_fields::{Message, Service};
use wirebase::Ipv6Address;

/// Whether a message asks or answers.
#[derive(Debug, PartialEq, Eq, Clone, Copy)]
pub enum Role {
    /// It is a question that awaits an answer.
    Asks,
    /// It is an answer.
    Answers,
}

/// A question, or an answer to one.
#[derive(Drop)]
pub struct Exchange {
    /// Whether it asks or answers.
    pub role: Role,
    /// What a question and its answers have in common.
    pub key: Key,
}

/// The question or the answer that a message is, as far as its octets are there. The addresses are those of its
/// datagram, the source first; messages of ICMPv6, and over UDP and TCP, have their own. None of other messages, as of
/// those of groups. No checksum is verified.
///
/// - A message of DNS (RFC 1035) or LLMNR (RFC 4795), or of multicast DNS to or from a resolver that asks from another
///   port than 5353 (RFC 6762 section 6.7), with one question. Other messages of multicast DNS are to all.
/// - A query of the NetBIOS name service (RFC 1002 section 4.2), or a response to one. Registrations and releases are
///   not answered where nobody objects.
/// - An echo of ICMPv4 (RFC 792) or ICMPv6 (RFC 4443 section 4), but a request to a group: its replies come from other
///   addresses.
/// - A neighbor solicitation (RFC 4861 section 7.2) from an address, or an advertisement with the flag that says that
///   it was solicited. A solicitation from the unspecified address is not answered where all is well (RFC 4862 section
///   5.4).
/// - A DISCOVER, REQUEST or INFORM of DHCP (RFC 2131 section 4.3), or an OFFER, ACK or NAK.
pub fn exchange_of(message: &Message<'_>, addresses: &Addresses) -> Option<Exchange>
    ensures { Has (value_of message.now) addresses.now (option_map exchange_of result) }
{
    match message {
        Message::Icmp4(octets) => echo_in(8, 0, *addresses, octets),
        Message::Igmp(_) => None,
        Message::Icmp6(src_addr, dst_addr, octets) => icmp6_in(*src_addr, *dst_addr, octets),
        Message::Udp(service, between, octets) => udp_in(*service, *between, octets),
        Message::Tcp(between, segment, octets) => tcp_in(*between, segment, octets),
    }
}

// The question or the answer that a message of ICMPv6 is.
fn icmp6_in(src_addr: Ipv6Address, dst_addr: Ipv6Address, octets: &[u8]) -> Option<Exchange>
    ensures { Finds (IsIcmp6 src_addr dst_addr octets.now) (option_map exchange_of result) }
{
    match echo_in(128, 129, Addresses::V6(src_addr, dst_addr), octets) {
        Some(echo) => Some(echo),
        None => neighbor_in(src_addr, dst_addr, octets),
    }
}

// The question or the answer that a datagram of UDP has.
fn udp_in(service: Service, addresses: Addresses, octets: &[u8]) -> Option<Exchange>
    ensures { UdpHas service addresses octets.now (option_map exchange_of result) }
{
    match CapturedUdp::parse(octets) {
        Ok(datagram) => service_in(service, addresses, &datagram),
        Err(_) => None,
    }
}

fn service_in(
    service: Service,
    addresses: Addresses,
    datagram: &CapturedUdp<'_>,
) -> Option<Exchange>
    ensures { Finds (IsOf service (way_in addresses (captured_of datagram.now)) (captured_of datagram.now).payload)
        (option_map exchange_of result) }
{
    let way = Way {
        addresses,
        asker_port: datagram.src_port,
        answerer_port: datagram.dst_port,
    };
    match service {
        Service::Dhcp => lease_in(datagram.payload),
        Service::Nbns => netbios_in(way, datagram.payload),
        _ => name_in(service, false, way, datagram.payload),
    }
}

// The question or the answer that a message of DNS over TCP is, without the two octets of its length (RFC 1035 section
// 4.2.2). Its ports are those of the segment.
fn tcp_in(addresses: Addresses, segment: &[u8], octets: &[u8]) -> Option<Exchange>
    ensures { TcpHas addresses segment.now octets.now (option_map exchange_of result) }
{
    match TcpSegment::parse(segment) {
        Ok(segment) => {
            let way = Way {
                addresses,
                asker_port: segment.src_port,
                answerer_port: segment.dst_port,
            };
            name_in(Service::Dns, true, way, octets)
        }
        Err(_) => None,
    }
}

// The addresses of a message, the asker's first.
pub(crate) fn from_asker(role: Role, addresses: Addresses) -> Addresses
    ensures { result ≡ from_asker role addresses }
{
    match role {
        Role::Asks => addresses,
        Role::Answers => reversed(addresses),
    }
}

// The way of a message, the asker's address and port first.
pub(crate) fn way_of(role: Role, way: Way) -> Way
    ensures { result ≡ way_of role way }
{
    match role {
        Role::Asks => way,
        Role::Answers => way.back(),
    }
}
