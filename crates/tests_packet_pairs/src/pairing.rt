// Which message answers which.

use crate::captured::{
    ADVERTISEMENT, NODE_QUERY, NODE_RESPONSE, PING, PING_V6, PONG, PONG_V6, QUERY, RESPONSE,
    SOLICITATION,
};
use crate::made::{host_v6, lease, put, seen, server_v6, tcp_header, to_host, to_server, udp};
use crate::testing::same_of;
use frame_wire::Addresses;
use message_fields::{Message, Service};
use packet_pairs::{Pairs, exchange_of};
use std::alloc::Global;
use std::process::Abort;
use wirebase::{Ipv4Address, Ipv6Address};

// A question at time 1,000 and its answer 128,000 ns later.
fn check_pair(
    rt: &impl Abort,
    alloc: Global,
    of: &str,
    question: (Message<'_>, Addresses),
    answer: (Message<'_>, Addresses),
) {
    let mut pairs = Pairs::new(alloc);
    let first = seen(&mut pairs, 4, 1_000, &question.0, &question.1);
    same_of(rt, of, first, None);
    same_of(rt, of, pairs.waiting().0.len(), 1);
    let second = seen(&mut pairs, 9, 129_000, &answer.0, &answer.1);
    same_of(rt, of, second, Some((4, Some(128_000))));
    same_of(rt, of, pairs.waiting().0.len(), 0);
}

#[test]
fn captured_pairs(rt: HostRuntime) {
    check_pair(
        &rt,
        rt.alloc(),
        "DNS",
        (udp(Service::Dns, to_server(), QUERY), to_server()),
        (udp(Service::Dns, to_host(), RESPONSE), to_host()),
    );
    check_pair(
        &rt,
        rt.alloc(),
        "ICMPv4",
        (Message::Icmp4(PING), to_server()),
        (Message::Icmp4(PONG), to_host()),
    );
    let (host, server) = (host_v6(), server_v6());
    check_pair(
        &rt,
        rt.alloc(),
        "ICMPv6",
        (
            Message::Icmp6(host, server, PING_V6),
            Addresses::V6(host, server),
        ),
        (
            Message::Icmp6(server, host, PONG_V6),
            Addresses::V6(server, host),
        ),
    );
}

// A solicitation goes to the group of its target, and a query for a NetBIOS name may go to all.
#[test]
fn captured_pairs_of_groups(rt: HostRuntime) {
    let (host, server) = (host_v6(), server_v6());
    let group = Ipv6Address::new(0xff02, 0, 0, 0, 0, 1, 0xff00, 1);
    check_pair(
        &rt,
        rt.alloc(),
        "neighbor",
        (
            Message::Icmp6(host, group, SOLICITATION),
            Addresses::V6(host, group),
        ),
        (
            Message::Icmp6(server, host, ADVERTISEMENT),
            Addresses::V6(server, host),
        ),
    );
    let all = Addresses::V4(
        Ipv4Address::new(192, 0, 2, 7),
        Ipv4Address::new(192, 0, 2, 255),
    );
    let back = Addresses::V4(
        Ipv4Address::new(192, 0, 2, 9),
        Ipv4Address::new(192, 0, 2, 7),
    );
    check_pair(
        &rt,
        rt.alloc(),
        "NetBIOS",
        (udp(Service::Nbns, all, NODE_QUERY), all),
        (udp(Service::Nbns, back, NODE_RESPONSE), back),
    );
}

// What `seen` tells of the captured response, behind the captured query, where an octet of it is another; the other
// octets of that port, number or question are as they were.
#[test]
fn responses_to_other_queries(rt: HostRuntime) {
    // The place, the octet there, and whether it still answers: the source port, the destination port, the number, the
    // flag of a response, the count of questions, a letter in the other case, another letter, the type, the class.
    const ROWS: &[(usize, u8, bool)] = &[
        (1, 54, false),
        (3, 0x9b, false),
        (9, 0xca, false),
        (10, 0x05, false),
        (13, 2, false),
        (21, b'A', true),
        (23, b'E', true),
        (23, b'f', false),
        (37, 28, false),
        (39, 3, false),
    ];
    for (place, octet, answers) in ROWS {
        let mut pairs = Pairs::new(rt.alloc());
        let query = udp(Service::Dns, to_server(), QUERY);
        let _first = seen(&mut pairs, 1, 0, &query, &to_server());
        let mut response = [0; 67];
        response.copy_from_slice(RESPONSE);
        response[*place % 67] = *octet;
        let message = udp(Service::Dns, to_host(), &response);
        let told = seen(&mut pairs, 2, 7, &message, &to_host());
        let want = if *answers { Some((1, Some(7))) } else { None };
        same_of(&rt, *place, told, want);
    }
}

// Over TCP the ports are those of the segment, and the same query and response over UDP are others.
#[test]
fn queries_over_tcp(rt: HostRuntime) {
    let mut pairs = Pairs::new(rt.alloc());
    let over_udp = udp(Service::Dns, to_server(), QUERY);
    let _first = seen(&mut pairs, 1, 0, &over_udp, &to_server());
    let header = tcp_header(40_000, 53);
    let query = Message::Tcp(to_server(), &header, &QUERY[8..]);
    let _second = seen(&mut pairs, 2, 1, &query, &to_server());
    same_of(&rt, (), pairs.waiting().0.len(), 2);
    // The ports of the queries over UDP and over TCP.
    for (port, want) in [(0x99a0u16, None), (40_000, Some((2, Some(4))))] {
        let header = tcp_header(53, port);
        let response = Message::Tcp(to_host(), &header, &RESPONSE[8..]);
        let told = seen(&mut pairs, 3, 5, &response, &to_host());
        same_of(&rt, port, told, want);
    }
    let over_udp = udp(Service::Dns, to_host(), RESPONSE);
    let told = seen(&mut pairs, 4, 6, &over_udp, &to_host());
    same_of(&rt, (), told, Some((1, Some(6))));
}

const CLIENT: [u8; 4] = [0, 68, 0, 67];

const DHCP_SERVER: [u8; 4] = [0, 67, 0, 68];

// Of a lease, whose messages have one transaction identifier (RFC 2131 section 3.1): a DISCOVER, twice, is answered by
// the OFFERs of two servers, and not the REQUEST, which has the ACK or NAK; a RELEASE is not answered.
#[test]
fn leases(rt: HostRuntime) {
    const ROWS: &[(u8, Option<u64>)] = &[
        (1, None),
        (1, None),
        (2, Some(0)),
        (2, Some(0)),
        (5, None),
        (3, None),
        (2, Some(0)),
        (5, Some(5)),
        (8, None),
        (6, Some(8)),
        (7, None),
        (4, None),
    ];
    let mut pairs = Pairs::new(rt.alloc());
    for (number, (kind, want)) in ROWS.iter().enumerate() {
        let ports = match kind {
            2 | 5 | 6 => DHCP_SERVER,
            _ => CLIENT,
        };
        let octets = lease(*kind, ports);
        let message = udp(Service::Dhcp, to_server(), &octets);
        let told = seen(&mut pairs, number as u64, 0, &message, &to_server());
        same_of(&rt, number, told.map(|answered| answered.0), *want);
    }
    same_of(&rt, (), pairs.waiting().0.len(), 0);
}

// A question that is asked again keeps its first number and time; an earlier answer has no time, and a second one is
// one to none.
#[test]
fn questions_that_are_asked_again(rt: HostRuntime) {
    let mut pairs = Pairs::new(rt.alloc());
    let query = udp(Service::Dns, to_server(), QUERY);
    let response = udp(Service::Dns, to_host(), RESPONSE);
    let _first = seen(&mut pairs, 1, 10, &query, &to_server());
    let _again = seen(&mut pairs, 2, 20, &query, &to_server());
    if let Some(asked) = pairs.waiting().0.first() {
        same_of(&rt, (), (asked.number(), asked.tries()), (1, 2));
        same_of(&rt, (), asked.time(), Some(10));
    }
    let told = seen(&mut pairs, 3, 9, &response, &to_host());
    same_of(&rt, (), told, Some((1, None)));
    same_of(
        &rt,
        (),
        seen(&mut pairs, 4, 30, &response, &to_host()),
        None,
    );
}

// Neither asks nor answers: a solicitation from the unspecified address, a ping of a group, a message of a group, and
// messages, or the header of a segment, of which too little is there.
#[test]
fn messages_that_are_neither(rt: HostRuntime) {
    let server = server_v6();
    let none = Ipv6Address::UNSPECIFIED;
    let group = Addresses::V4(
        Ipv4Address::new(192, 0, 2, 50),
        Ipv4Address::new(224, 0, 0, 1),
    );
    let solicitation = Message::Icmp6(none, server, SOLICITATION);
    is_neither(&rt, 0, &solicitation, &Addresses::V6(none, server));
    is_neither(&rt, 1, &Message::Icmp4(PING), &group);
    is_neither(&rt, 2, &Message::Igmp(PING), &group);
    is_neither(&rt, 3, &Message::Icmp4(&PING[..7]), &to_server());
    let cut = udp(Service::Dns, to_server(), &QUERY[..39]);
    is_neither(&rt, 4, &cut, &to_server());
    let header = tcp_header(40_000, 53);
    let headless = Message::Tcp(to_server(), &header[..19], &QUERY[8..]);
    is_neither(&rt, 5, &headless, &to_server());
}

fn is_neither(rt: &impl Abort, of: u8, message: &Message<'_>, addresses: &Addresses) {
    same_of(rt, of, exchange_of(message, addresses).is_some(), false);
}

// An advertisement that was not solicited.
#[test]
fn unsolicited_advertisements(rt: HostRuntime) {
    let mut octets = [0; 32];
    put(&mut octets, 0, ADVERTISEMENT);
    octets[4] = 0x20;
    let message = Message::Icmp6(server_v6(), host_v6(), &octets);
    let addresses = Addresses::V6(server_v6(), host_v6());
    same_of(&rt, (), exchange_of(&message, &addresses).is_some(), false);
}

// A query of multicast DNS between ports 5353 is one to all, and one from another port a resolver's (RFC 6762 section
// 6.7).
#[test]
fn queries_of_multicast_dns(rt: HostRuntime) {
    for (port, asks) in [(0x14e9u16, false), (0x14ea, true)] {
        let [high, low] = port.to_be_bytes();
        let mut octets = [0; 63];
        put(&mut octets, 0, QUERY);
        put(&mut octets, 0, &[high, low, 0x14, 0xe9]);
        let message = udp(Service::Mdns, to_server(), &octets);
        same_of(
            &rt,
            port,
            exchange_of(&message, &to_server()).is_some(),
            asks,
        );
    }
}
