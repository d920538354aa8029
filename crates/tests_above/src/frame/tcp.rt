use crate::testing::same_of;
use frame_wire::datagram::Addresses;
use frame_wire::tcp::{Prefixed, Refusal, TcpSegment, verify_checksum};
use std::process::Abort;
use wirebase::{Ipv4Address, Ipv6Address};

// A query of DNS that asks nothing, behind its length, to the port of DNS, with time stamps among the options; with the
// checksum of the pseudo header of IPv4.
const QUERY: &[u8] = &[
    0xc0, 0x00, 0x00, 0x35, 0x00, 0x00, 0x00, 0x01, 0x00, 0x00, 0x00, 0x01, 0x80, 0x18, 0x02, 0x00,
    0x1c, 0xf8, 0x00, 0x00, //
    0x01, 0x01, 0x08, 0x0a, 0x00, 0x00, 0x00, 0x01, 0x00, 0x00, 0x00, 0x00, //
    0x00, 0x0c, 0x12, 0x34, 0x01, 0x00, 0x00, 0x00, 0x00, 0x00, 0x00, 0x00, 0x00, 0x00,
];

// Without data, and a checksum that comes to 0.
const ZERO: &[u8] = &[
    0xc0, 0x00, 0x00, 0x35, 0x00, 0x00, 0x00, 0x01, 0x00, 0x00, 0x00, 0x01, 0x50, 0x10, 0x6b, 0x66,
    0x00, 0x00, 0x00, 0x00,
];

fn over_v4() -> Addresses {
    Addresses::V4(
        Ipv4Address::new(192, 0, 2, 1),
        Ipv4Address::new(192, 0, 2, 53),
    )
}

fn over_v6() -> Addresses {
    Addresses::V6(
        Ipv6Address::new(0x2001, 0x0db8, 0, 0, 0, 0, 0, 1),
        Ipv6Address::new(0x2001, 0x0db8, 0, 0, 0, 0, 0, 0x35),
    )
}

// The query with another byte at a place.
fn changed(place: usize, byte: u8) -> [u8; 46] {
    let mut octets = [0; 46];
    octets.copy_from_slice(QUERY);
    if place < 46 {
        octets[place] = byte;
    }
    octets
}

#[test]
fn a_segment_behind_its_options(rt: HostRuntime) {
    for len in 0..=46 {
        let want = if len < 20 {
            Err(Refusal::Short)
        } else if len < 32 {
            Err(Refusal::Cut(32))
        } else {
            Ok(TcpSegment {
                src_port: 49152,
                dst_port: 53,
                payload: &QUERY[32..len],
            })
        };
        same_of(&rt, len, TcpSegment::parse(&QUERY[..len]), want);
    }
}

#[test]
fn data_offsets(rt: HostRuntime) {
    for offset in 0..=15 {
        let octets = changed(12, 16 * offset + 0x0f);
        let read = match TcpSegment::parse(&octets) {
            Ok(segment) => Ok(segment.payload.len()),
            Err(refusal) => Err(refusal),
        };
        let want = match offset {
            0..=4 => Err(Refusal::HeaderLen(4 * offset)),
            5..=11 => Ok(46 - 4 * offset as usize),
            _ => Err(Refusal::Cut(4 * offset)),
        };
        same_of(&rt, offset, read, want);
    }
}

#[test]
fn checksums_with_either_pseudo_header(rt: HostRuntime) {
    let mut v6 = changed(16, 0x45);
    v6[17] = 0x87;
    let rows = [
        (QUERY, over_v4(), true),
        (QUERY, over_v6(), false),
        (&v6[..], over_v6(), true),
        (&v6[..], over_v4(), false),
        // Without its last byte, and with another one: in the sequence number, the options, and the data.
        (&QUERY[..45], over_v4(), false),
        (&changed(7, 2)[..], over_v4(), false),
        (&changed(20, 0)[..], over_v4(), false),
        (&changed(45, 1)[..], over_v4(), false),
        // A checksum of 0 is none only where the sum is not that.
        (ZERO, over_v4(), true),
        (ZERO, over_v6(), false),
    ];
    for (octets, addresses, want) in rows {
        same_of(&rt, octets, verify_checksum(&addresses, octets), want);
    }
}

// Ends the test unless the octets are these messages, or are refused where these are none.
fn check(rt: &impl Abort, octets: &[u8], least: usize, want: &[&[u8]]) {
    let prefixed = Prefixed::new(octets, least);
    same_of(rt, octets, prefixed.is_some(), !want.is_empty());
    if let Some(prefixed) = prefixed {
        let mut messages = prefixed.messages();
        for &message in want {
            same_of(rt, octets, messages.next(), Some(message));
        }
        same_of(rt, octets, messages.next(), None);
    }
}

// Octets, the least length of a message, and the messages.
const MESSAGES: &[(&[u8], usize, &[&[u8]])] = &[
    (
        b"\0\x0c\x12\x34\x01\0\0\0\0\0\0\0\0\0",
        12,
        &[b"\x12\x34\x01\0\0\0\0\0\0\0\0\0"],
    ),
    (b"\0\x0c\x12\x34\x01\0\0\0\0\0\0\0\0\0", 13, &[]),
    (b"\0\x01a\0\x02bc", 0, &[b"a", b"bc"]),
    (b"\0\x01a\0\x02bc", 1, &[b"a", b"bc"]),
    (b"\0\x01a\0\x02bc", 2, &[]),
    (b"\0\x02bc\0\x01a", 2, &[]),
    // Bytes that are no message, after one.
    (b"\0\x01a\0", 0, &[]),
    (b"\0\x01a\0\x02b", 0, &[]),
    // Messages without bytes, and none.
    (b"\0\0", 0, &[b""]),
    (b"\0\0\0\0\0\x01a", 0, &[b"", b"", b"a"]),
    (b"\0\0", 1, &[]),
    (b"\0", 0, &[]),
    (b"", 0, &[]),
];

#[test]
fn messages_behind_their_lengths(rt: HostRuntime) {
    for &(octets, least, want) in MESSAGES {
        check(&rt, octets, least, want);
    }
}

#[test]
fn a_length_has_its_higher_byte_first(rt: HostRuntime) {
    let mut octets = [b'x'; 258];
    octets[..2].copy_from_slice(&[1, 0]);
    for (len, least, want) in [(258, 256, true), (258, 257, false), (257, 0, false)] {
        let is_read = Prefixed::new(&octets[..len], least).is_some();
        same_of(&rt, (len, least), is_read, want);
    }
}
