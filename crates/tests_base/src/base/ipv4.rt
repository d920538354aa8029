ghost use Rattle.std.specs.Prelude.{◌≡◌, ◌≤◌, length};

use crate::testing::{prints, same, same_of, takes_writes};
use byteorder::{BigEndian, ByteOrder};
use std::test::Fail;
use wirebase::checksum::{self, pseudo_header_v4};
use wirebase::{Checksum, ChecksumCapabilities, IpProtocol, Ipv4Address, Ipv4Packet, Ipv4Repr};

#[test]
fn addresses_in_decimal(rt: HostRuntime) {
    let rows = [
        (Ipv4Address::new(10, 0, 0, 1), "10.0.0.1"),
        (Ipv4Address::UNSPECIFIED, "0.0.0.0"),
        (Ipv4Address::from_octets([255; 4]), "255.255.255.255"),
    ];
    for (address, text) in rows {
        prints(&rt, rt.alloc(), &address, text);
    }
}

#[test]
fn printing_an_address_fails_only_with_its_writer(rt: HostRuntime) {
    takes_writes(&rt, &Ipv4Address::new(10, 0, 0, 1), 1);
}

#[test]
fn kinds_of_addresses(rt: HostRuntime) {
    const ROWS: &[(u8, bool)] = &[(223, false), (224, true), (239, true), (240, false)];
    for &(first, multicast) in ROWS {
        same_of(
            &rt,
            first,
            Ipv4Address::new(first, 0, 0, 1).is_multicast(),
            multicast,
        );
    }
}

#[test]
fn addresses_by_their_octets(rt: HostRuntime) {
    same(&rt, Ipv4Address::default().is_unspecified(), true);
    same(&rt, Ipv4Address::new(0, 0, 0, 1).is_unspecified(), false);
    let address = Ipv4Address::new(1, 2, 3, 4);
    same(&rt, address.octets(), [1, 2, 3, 4]);
    same(&rt, address != Ipv4Address::new(4, 3, 2, 1), true);
}

#[test]
fn octets_that_begin_with_a_packet(rt: HostRuntime) {
    // The first octet, the total length, how many octets there are, and whether they are accepted.
    const ROWS: &[(u8, u16, usize, bool)] = &[
        (0x45, 20, 20, true),
        (0x45, 20, 60, true),
        (0x45, 19, 19, false),
        (0x45, 19, 20, false),
        (0x45, 21, 20, false),
        (0x4f, 20, 20, false),
        (0x4f, 60, 59, false),
        (0x4f, 59, 60, false),
        (0x4f, 60, 60, true),
        (0x40, 0, 20, true),
        (0x65, 20, 20, true),
    ];
    for &(first, total_len, len, accepted) in ROWS {
        let mut bytes = [0u8; 60];
        bytes[0] = first;
        BigEndian::write_u16(&mut bytes[2..4], total_len);
        let octets = &bytes[..60.min(len)];
        same_of(
            &rt,
            (first, total_len, len),
            Ipv4Packet::new_checked(octets).is_ok(),
            accepted,
        );
    }
}

const PACKET: [u8; 20] = [
    0x46, 0x00, 0x01, 0x1c, 0x12, 0x34, 0x20, 0x01, 0x07, 0x02, 0xab, 0xcd, 192, 168, 0, 1, 224, 0,
    0, 251,
];

#[test]
fn fields_of_a_packet(rt: HostRuntime) {
    let packet = Ipv4Packet::new_unchecked(&PACKET[..]);
    same(&rt, packet.version(), 4);
    same(&rt, packet.header_len(), 24);
    same(&rt, packet.total_len(), 0x011c);
    same(&rt, packet.ident(), 0x1234);
    same(&rt, packet.more_frags(), true);
    same(&rt, packet.frag_offset(), 8);
    same(&rt, packet.hop_limit(), 7);
    same(&rt, packet.next_header(), IpProtocol::Igmp);
}

#[test]
fn addresses_of_a_packet(rt: HostRuntime) {
    let packet = Ipv4Packet::new_unchecked(&PACKET[..]);
    same(&rt, packet.src_addr(), Ipv4Address::new(192, 168, 0, 1));
    same(&rt, packet.dst_addr(), Ipv4Address::new(224, 0, 0, 251));
}

#[test]
fn fragments_of_a_packet(rt: HostRuntime) {
    // The third and the fourth word of a header, and what they say: whether it must not be fragmented, whether more
    // fragments follow, and its place in bytes. The first two rows are the fragments of RFC 791 appendix A, example 2.
    const ROWS: &[([u8; 4], bool, bool, u16)] = &[
        ([0x00, 0x6f, 0x20, 0x00], false, true, 0),
        ([0x00, 0x6f, 0x00, 0x20], false, false, 256),
        ([0x00, 0x6f, 0x40, 0x00], true, false, 0),
        ([0x00, 0x6f, 0x80, 0x00], false, false, 0),
        ([0x00, 0x6f, 0x9f, 0xff], false, false, 65_528),
        ([0x00, 0x6f, 0xbf, 0xfe], false, true, 65_520),
        ([0x00, 0x6f, 0xff, 0xff], true, true, 65_528),
    ];
    for (words, dont_frag, more_frags, offset) in ROWS {
        let mut octets = PACKET;
        octets[4..8].copy_from_slice(words);
        let packet = Ipv4Packet::new_unchecked(&octets[..]);
        same_of(&rt, words, packet.ident(), 111);
        same_of(&rt, words, packet.dont_frag(), *dont_frag);
        same_of(&rt, words, packet.more_frags(), *more_frags);
        same_of(&rt, words, packet.frag_offset(), *offset);
    }
}

// A header without options from 192.168.0.1 to 192.168.0.199 with the checksum of RFC 1071, and five octets behind it.
const SUMMED: [u8; 25] = [
    0x45, 0x00, 0x00, 0x73, 0x00, 0x00, 0x40, 0x00, 0x40, 0x11, 0xb8, 0x61, 192, 168, 0, 1, 192,
    168, 0, 199, 1, 2, 3, 4, 5,
];

// A header with the option of RFC 2113 from 192.168.0.1 to 224.0.0.251, and no payload.
const ALERT: [u8; 24] = [
    0x46, 0xc0, 0x00, 0x18, 0x00, 0x00, 0x40, 0x00, 0x01, 0x02, 0x42, 0x7b, 192, 168, 0, 1, 224, 0,
    0, 251, 0x94, 0x04, 0x00, 0x00,
];

// Whether octets that hold a header of at least 20 carry its checksum.
fn is_good(octets: &[u8]) -> bool {
    let packet = Ipv4Packet::new_unchecked(octets);
    octets.len() >= 60 && packet.verify_checksum()
}

#[test]
fn any_other_bit_of_a_header_is_noticed(rt: HostRuntime) {
    for place in 0..25 {
        let mut octets = [0; 60];
        octets[..25].copy_from_slice(&SUMMED);
        same(&rt, is_good(&octets), true);
        octets[place] ^= 0x20;
        same_of(&rt, place, is_good(&octets), place >= 20);
    }
}

#[test]
fn options_belong_to_the_header(rt: HostRuntime) {
    let mut octets = [0xff; 60];
    octets[..24].copy_from_slice(&ALERT);
    same(&rt, is_good(&octets), true);
    octets[23] = 1;
    same(&rt, is_good(&octets), false);
    // A header of no word has no sum.
    octets[0] = 0x40;
    same(&rt, is_good(&octets), false);
}

// The payload, where the octets begin with a whole packet.
fn payload_of(octets: &[u8]) -> Option<&[u8]> {
    let packet = Ipv4Packet::new_checked(octets).ok()?;
    Some(packet.payload())
}

#[test]
fn the_payload_stands_between_the_two_lengths(rt: HostRuntime) {
    // The first octet, the total length, and which of 28 octets are the payload.
    const ROWS: &[(u8, u8, Option<(usize, usize)>)] = &[
        (0x45, 25, Some((20, 25))),
        (0x45, 20, Some((20, 20))),
        (0x46, 28, Some((24, 28))),
        (0x40, 25, Some((0, 25))),
        (0x46, 23, None),
        (0x45, 29, None),
    ];
    let mut octets = [0; 28];
    for (place, octet) in octets.iter_mut().enumerate() {
        *octet = place as u8;
    }
    octets[2] = 0;
    for &(first, total_len, wanted) in ROWS {
        octets[0] = first;
        octets[3] = total_len;
        let wanted = wanted.map(|(start, end)| &octets[start..end]);
        same_of(&rt, (first, total_len), payload_of(&octets), wanted);
    }
}

#[test]
fn a_datagram_is_summed_behind_its_pseudo_header(rt: HostRuntime) {
    // UDP from port 48896 to port 53 with four octets (RFC 768), which carries its checksum from 192.168.1.1 to
    // 192.168.1.2.
    let udp = [
        0xbf, 0x00, 0x00, 0x35, 0x00, 0x0c, 0x12, 0x4d, 0xaa, 0x00, 0x00, 0xff,
    ];
    let source = Ipv4Address::new(192, 168, 1, 1);
    let destination = Ipv4Address::new(192, 168, 1, 2);
    let sum = pseudo_header_v4(&source, &destination, IpProtocol::Udp, 12);
    same(&rt, sum, 0x8371);
    same(&rt, checksum::is_good(&udp, sum), true);
    // The lower 16 bits of the length count.
    let long = pseudo_header_v4(&source, &destination, IpProtocol::Udp, 0x1_000c);
    same(&rt, long, sum);
    let other = pseudo_header_v4(&source, &source, IpProtocol::Tcp, 11);
    same(&rt, other, 0x8364);
}

#[test]
fn a_copy_of_a_packet_is_equal(rt: HostRuntime) -> Result<(), Fail> {
    let packet = Ipv4Packet::new_unchecked(&PACKET[..]);
    same(&rt, &packet.clone()?, &packet);
    same(&rt, packet.into_inner(), &PACKET[..]);
    Ok(())
}

// A datagram from 10.0.0.1 to 10.0.0.2.
fn datagram() -> Ipv4Repr
    ensures { result.payload_len ≡ 8 }
{
    Ipv4Repr {
        src_addr: Ipv4Address::new(10, 0, 0, 1),
        dst_addr: Ipv4Address::new(10, 0, 0, 2),
        next_header: IpProtocol::Udp,
        payload_len: 8,
        hop_limit: 64,
    }
}

const DATAGRAM: [u8; 20] = [
    0x45, 0x00, 0x00, 0x1c, 0x00, 0x00, 0x40, 0x00, 0x40, 0x11, 0x26, 0xcf, 10, 0, 0, 1, 10, 0, 0,
    2,
];

// Writes its header over the front of the octets.
fn write_header(octets: &mut [u8], capabilities: &ChecksumCapabilities)
    requires { 20 ≤ length octets.old }
{
    let mut packet = Ipv4Packet::new_unchecked(octets);
    datagram().emit(&mut packet, capabilities);
}

#[test]
fn header_over_any_bytes(rt: HostRuntime) {
    same(&rt, datagram().buffer_len(), 20);
    for byte in [0xff, 0x00, 0x2a, 0xa5] {
        let mut bytes = [byte; 20];
        write_header(&mut bytes, &ChecksumCapabilities::default());
        same_of(&rt, byte, bytes, DATAGRAM);
    }
}

#[test]
fn header_without_a_checksum(rt: HostRuntime) {
    const ROWS: &[(Checksum, u8, u8)] = &[
        (Checksum::None, 0, 0),
        (Checksum::Rx, 0, 0),
        (Checksum::Tx, 0x26, 0xcf),
    ];
    let mut capabilities = ChecksumCapabilities::default();
    for &(checksum, high, low) in ROWS {
        capabilities.ipv4 = checksum;
        let mut bytes = [0xa5; 20];
        write_header(&mut bytes, &capabilities);
        let mut expected = DATAGRAM;
        expected[10] = high;
        expected[11] = low;
        same_of(&rt, checksum, bytes, expected);
    }
}

#[test]
fn octets_after_the_header_stay(rt: HostRuntime) {
    let mut bytes = [0xa5; 24];
    write_header(&mut bytes, &ChecksumCapabilities::default());
    same(&rt, &bytes[..20], &DATAGRAM[..]);
    same(&rt, &bytes[20..], &[0xa5; 4][..]);
}
