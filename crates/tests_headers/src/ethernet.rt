//! Headers of Ethernet as tcpdump shows them, and the hardware addresses of groups, some by RFC 1112 and RFC 2464, and
//! the others as Linux has them.

use crate::testing::{prints, same, same_of, takes_writes};
use header_wire::ethernet::{self, Header, LEN, Refusal, multicast_v4, multicast_v6};
use std::alloc::Global;
use std::process::Abort;
use wirebase::{EthernetAddress, Ipv4Address, Ipv6Address};

// The octets of a buffer before it is written into.
const FILLS: &[u8] = &[0x00, 0xff, 0x2a, 0xa5];

// Checks that a header before a payload is read and prints this, and is written over the front of any octets.
fn check(rt: &impl Abort, alloc: Global, octets: &[u8; LEN], header: Header, text: &str) {
    let mut frame = [0x5a; 60];
    frame[..LEN].copy_from_slice(octets);
    same(rt, Header::parse(&frame), Ok((header, &[0x5a; 46][..])));
    same(rt, Header::parse(octets), Ok((header, &[][..])));
    prints(rt, alloc, &header, text);
    same(rt, header.buffer_len(), LEN);
    for &fill in FILLS {
        let mut written = [fill; 16];
        header.emit_into(&mut written);
        let mut wanted = [fill; 16];
        wanted[..LEN].copy_from_slice(octets);
        same_of(rt, fill, written, wanted);
    }
}

#[test]
fn headers_of_frames(rt: HostRuntime) {
    let rows: &[([u8; LEN], Header, &str)] = &[
        (
            [
                0xff, 0xff, 0xff, 0xff, 0xff, 0xff, 0x02, 0x00, 0x00, 0x00, 0x00, 0x07, 0x08, 0x06,
            ],
            Header {
                src_addr: EthernetAddress([2, 0, 0, 0, 0, 7]),
                dst_addr: EthernetAddress([0xff; 6]),
                ether_type: ethernet::ARP,
            },
            "02:00:00:00:00:07 > ff:ff:ff:ff:ff:ff ether_type=0x0806",
        ),
        (
            [
                0x33, 0x33, 0x00, 0x00, 0x00, 0x16, 0x1e, 0x6a, 0x26, 0xb6, 0x59, 0xa4, 0x86, 0xdd,
            ],
            Header {
                src_addr: EthernetAddress([0x1e, 0x6a, 0x26, 0xb6, 0x59, 0xa4]),
                dst_addr: EthernetAddress([0x33, 0x33, 0, 0, 0, 0x16]),
                ether_type: ethernet::IPV6,
            },
            "1e:6a:26:b6:59:a4 > 33:33:00:00:00:16 ether_type=0x86dd",
        ),
        (
            [
                0x01, 0x00, 0x5e, 0x01, 0x02, 0x03, 0x02, 0x00, 0x00, 0x00, 0x00, 0x07, 0x08, 0x00,
            ],
            Header {
                src_addr: EthernetAddress([2, 0, 0, 0, 0, 7]),
                dst_addr: EthernetAddress([1, 0, 0x5e, 1, 2, 3]),
                ether_type: ethernet::IPV4,
            },
            "02:00:00:00:00:07 > 01:00:5e:01:02:03 ether_type=0x0800",
        ),
        // A length (IEEE 802.3), as of a bridge's spanning tree.
        (
            [
                0x01, 0x80, 0xc2, 0x00, 0x00, 0x00, 0x02, 0x00, 0x00, 0x00, 0x00, 0x01, 0x00, 0x26,
            ],
            Header {
                src_addr: EthernetAddress([2, 0, 0, 0, 0, 1]),
                dst_addr: EthernetAddress([1, 0x80, 0xc2, 0, 0, 0]),
                ether_type: 38,
            },
            "02:00:00:00:00:01 > 01:80:c2:00:00:00 ether_type=0x0026",
        ),
    ];
    for (octets, header, text) in rows {
        check(&rt, rt.alloc(), octets, *header, text);
    }
}

#[test]
fn what_is_refused_of_frames(rt: HostRuntime) {
    let octets = [0xff; LEN];
    for len in 0..LEN {
        same_of(&rt, len, Header::parse(&octets[..len]), Err(Refusal::Short));
    }
    prints(&rt, rt.alloc(), &Refusal::Short, "fewer than 14 bytes");
    takes_writes(&rt, &Refusal::Short, 1);
}

// The highest bit of the group's second octet is not in its hardware address (RFC 1112 section 6.4).
#[test]
fn groups_of_ipv4(rt: HostRuntime) {
    let rows: &[(Ipv4Address, [u8; 6])] = &[
        (Ipv4Address::new(224, 0, 0, 1), [1, 0, 0x5e, 0, 0, 1]),
        (Ipv4Address::new(224, 128, 0, 1), [1, 0, 0x5e, 0, 0, 1]),
        (Ipv4Address::new(239, 1, 2, 3), [1, 0, 0x5e, 1, 2, 3]),
        (Ipv4Address::new(239, 129, 2, 3), [1, 0, 0x5e, 1, 2, 3]),
        (Ipv4Address::new(224, 0, 0, 251), [1, 0, 0x5e, 0, 0, 0xfb]),
        (
            Ipv4Address::new(239, 255, 255, 255),
            [1, 0, 0x5e, 0x7f, 0xff, 0xff],
        ),
    ];
    for &(group, octets) in rows {
        same_of(&rt, group, multicast_v4(group), EthernetAddress(octets));
    }
}

#[test]
fn groups_of_ipv6(rt: HostRuntime) {
    let rows: &[(Ipv6Address, [u8; 6])] = &[
        (
            Ipv6Address::new(0xff02, 0, 0, 0, 0, 0, 0, 0x16),
            [0x33, 0x33, 0, 0, 0, 0x16],
        ),
        (
            Ipv6Address::new(0xff02, 0, 0, 0, 0, 1, 0xff00, 7),
            [0x33, 0x33, 0xff, 0, 0, 7],
        ),
        (
            Ipv6Address::new(0xff15, 0, 0, 0, 0, 0, 1, 3),
            [0x33, 0x33, 0, 1, 0, 3],
        ),
        (
            Ipv6Address::new(0xffff, 1, 2, 3, 4, 5, 0x1234, 0x5678),
            [0x33, 0x33, 0x12, 0x34, 0x56, 0x78],
        ),
    ];
    for &(group, octets) in rows {
        same_of(&rt, group, multicast_v6(group), EthernetAddress(octets));
    }
}
