ghost use Rattle.std.specs.Prelude.{◌≡◌};

use crate::testing::{holds_of, prints, same, same_of, takes_writes};
use std::alloc::Global;
use std::test::Fail;
use wirebase::{
    IPV6_HEADER_LEN, IPV6_LINK_LOCAL_ALL_NODES, IPV6_LINK_LOCAL_ALL_ROUTERS, IPV6_MIN_MTU,
    IpProtocol, Ipv6Address, Ipv6Packet, Ipv6Refusal, Ipv6Repr, checksum,
};

// The address of these groups.
fn address_of(groups: [u16; 8]) -> Ipv6Address {
    let [a, b, c, d, e, f, g, h] = groups;
    Ipv6Address::new(a, b, c, d, e, f, g, h)
}

// The addresses fe80::1 and fe80::2.
fn first() -> Ipv6Address {
    Ipv6Address::new(0xfe80, 0, 0, 0, 0, 0, 0, 1)
}

fn second() -> Ipv6Address {
    Ipv6Address::new(0xfe80, 0, 0, 0, 0, 0, 0, 2)
}

#[test]
fn addresses_in_hexadecimal(rt: HostRuntime) {
    const ROWS: &[([u16; 8], &str)] = &[
        ([1, 0, 0, 2, 3, 0, 0, 4], "1::2:3:0:0:4"),
        ([0; 8], "::"),
        ([1, 0, 2, 3, 4, 5, 6, 7], "1:0:2:3:4:5:6:7"),
        ([0, 0, 1, 0, 0, 0, 1, 0], "0:0:1::1:0"),
        ([0, 1, 0, 0, 0, 0, 0, 0], "0:1::"),
        ([0, 0, 0, 0, 0, 0, 0, 1], "::1"),
        ([0, 0, 0, 0, 0, 0xffff, 0x0a00, 1], "::ffff:a00:1"),
        (
            [0x2001, 0xdb8, 0, 0xa, 0xb0, 0xc00, 0xd000, 0xefff],
            "2001:db8:0:a:b0:c00:d000:efff",
        ),
        ([0xfe80, 0, 0, 0, 0, 0, 0, 1], "fe80::1"),
        ([0xff02, 0, 0, 0, 0, 0, 0, 1], "ff02::1"),
        ([0xff02, 0, 0, 0, 0, 0, 0, 2], "ff02::2"),
    ];
    for &(groups, text) in ROWS {
        prints(&rt, rt.alloc(), &address_of(groups), text);
    }
}

#[test]
fn addresses_that_have_a_name_in_hexadecimal(rt: HostRuntime) {
    prints(&rt, rt.alloc(), &Ipv6Address::UNSPECIFIED, "::");
    prints(&rt, rt.alloc(), &IPV6_LINK_LOCAL_ALL_NODES, "ff02::1");
    prints(&rt, rt.alloc(), &IPV6_LINK_LOCAL_ALL_ROUTERS, "ff02::2");
}

#[test]
fn groups_of_all_nodes_and_of_all_routers_of_a_link(rt: HostRuntime) {
    // RFC 4291 section 2.7.1: FF02:0:0:0:0:0:0:1 and FF02:0:0:0:0:0:0:2.
    let nodes = [0xff, 0x02, 0, 0, 0, 0, 0, 0, 0, 0, 0, 0, 0, 0, 0, 1];
    same(&rt, IPV6_LINK_LOCAL_ALL_NODES.octets(), nodes);
    let routers = [0xff, 0x02, 0, 0, 0, 0, 0, 0, 0, 0, 0, 0, 0, 0, 0, 2];
    same(&rt, IPV6_LINK_LOCAL_ALL_ROUTERS.octets(), routers);
}

// A run of groups that are zero, in a text that begins and ends with a colon; the longest first.
const RUNS: &[&str] = &[
    ":0:0:0:0:0:0:0:0:",
    ":0:0:0:0:0:0:0:",
    ":0:0:0:0:0:0:",
    ":0:0:0:0:0:",
    ":0:0:0:0:",
    ":0:0:0:",
    ":0:0:",
];

// The groups of a pattern: 1 for each bit that is set, from the lowest on.
fn groups_of(pattern: u16) -> [u16; 8] {
    let mut groups = [0; 8];
    let mut rest = pattern;
    for group in groups.iter_mut() {
        *group = rest % 2;
        rest /= 2;
    }
    groups
}

// All groups of 0 and 1, with a colon before each and one after the last.
fn whole_text(alloc: Global, groups: &[u16]) -> Result<String, Fail> {
    let mut text = String::new(alloc);
    for group in groups {
        text.push_str(if *group == 0 { ":0" } else { ":1" })?;
    }
    text.push_str(":")?;
    Ok(text)
}

// What precedes and follows the first of the longest runs.
fn parted_by_a_run(text: &str) -> Option<(&str, &str)> {
    for run in RUNS {
        if let Some(parts) = text.split_once(*run) {
            return Some(parts);
        }
    }
    None
}

// The text with such a run left out.
fn shortened(alloc: Global, whole: &str) -> Result<String, Fail> {
    let parts = match parted_by_a_run(whole) {
        Some((before, after)) => [
            before.strip_prefix(":").unwrap_or(before),
            "::",
            after.strip_suffix(":").unwrap_or(after),
        ],
        None => [whole.trim_matches(':'), "", ""],
    };
    Ok(parts.concat(alloc)?)
}

#[test]
fn addresses_of_every_pattern_of_zero_groups(rt: HostRuntime) -> Result<(), Fail> {
    for pattern in 0..256 {
        let groups = groups_of(pattern);
        let whole = whole_text(rt.alloc(), &groups)?;
        let text = shortened(rt.alloc(), whole.as_str())?;
        prints(&rt, rt.alloc(), &address_of(groups), text.as_str());
    }
    Ok(())
}

#[test]
fn printing_a_header_fails_only_with_its_writer(rt: HostRuntime) {
    let header = quoted();
    takes_writes(&rt, &header, 8);
    prints(
        &rt,
        rt.alloc(),
        &header,
        "IPv6 src=fe80::1 dst=fe80::2 nxt_hdr=17 hop_limit=64",
    );
}

#[test]
fn kinds_of_addresses(rt: HostRuntime) {
    // The groups of an address, and whether it is unspecified, multicast and link-local.
    const ROWS: &[([u16; 8], [bool; 3])] = &[
        ([0; 8], [true, false, false]),
        ([0, 0, 0, 0, 0, 0, 0, 1], [false, false, false]),
        ([0xfe80, 0, 0, 0, 0, 0, 0, 1], [false, false, true]),
        // The first ten bits are those of a link, but not the 54 behind them.
        ([0xfe81, 0, 0, 0, 0, 0, 0, 1], [false, false, false]),
        ([0xfebf, 0, 0, 0, 0, 0, 0, 1], [false, false, false]),
        ([0xfe80, 0, 0, 1, 0, 0, 0, 1], [false, false, false]),
        ([0xfe00, 0, 0, 0, 0, 0, 0, 1], [false, false, false]),
        ([0xff02, 0, 0, 0, 0, 0, 0, 1], [false, true, false]),
        ([0xff00, 0, 0, 0, 0, 0, 0, 0], [false, true, false]),
        ([0xfeff, 0, 0, 0, 0, 0, 0, 0], [false, false, false]),
    ];
    for &(groups, wanted) in ROWS {
        let address = address_of(groups);
        let kinds = [
            address.is_unspecified(),
            address.is_multicast(),
            address.is_link_local(),
        ];
        same_of(&rt, address, kinds, wanted);
    }
}

#[test]
fn addresses_by_their_octets(rt: HostRuntime) {
    const OCTETS: [u8; 16] = [0xfe, 0x80, 0, 0, 0, 0, 0, 0, 0, 0, 0, 0, 0, 0, 0, 1];
    same(&rt, Ipv6Address::from_octets(OCTETS), first());
    same(&rt, first().octets().as_slice(), OCTETS.as_slice());
    holds_of(&rt, "another octet", first() != second());
    holds_of(&rt, "::", Ipv6Address::UNSPECIFIED.is_unspecified());
}

// The header from fe80::1 to fe80::2 of 12 bytes over UDP with hop limit 64, and what follows it (RFC 8200
// section 3).
const PACKET: [u8; 52] = [
    0x60, 0x00, 0x00, 0x00, 0x00, 0x0c, 0x11, 0x40, 0xfe, 0x80, 0x00, 0x00, 0x00, 0x00, 0x00, 0x00,
    0x00, 0x00, 0x00, 0x00, 0x00, 0x00, 0x00, 0x01, 0xfe, 0x80, 0x00, 0x00, 0x00, 0x00, 0x00, 0x00,
    0x00, 0x00, 0x00, 0x00, 0x00, 0x00, 0x00, 0x02, 0xbf, 0x00, 0x00, 0x35, 0x00, 0x0c, 0x12, 0x4d,
    0xaa, 0x00, 0x00, 0xff,
];

fn quoted() -> Ipv6Repr
    ensures { result.payload_len ≡ 12 }
{
    Ipv6Repr {
        src_addr: first(),
        dst_addr: second(),
        next_header: IpProtocol::Udp,
        payload_len: 12,
        hop_limit: 64,
    }
}

#[test]
fn headers_are_written_over_the_front(rt: HostRuntime) {
    for fill in [0x00, 0xff, 0x2a] {
        let mut octets = [fill; 41];
        let mut packet = Ipv6Packet::new_unchecked(octets.as_mut_slice());
        quoted().emit(&mut packet);
        let mut want = [fill; 41];
        want[..40].copy_from_slice(&PACKET[..40]);
        same_of(&rt, fill, octets.as_slice(), want.as_slice());
    }
    same(&rt, quoted().buffer_len(), 40);
}

#[test]
fn headers_are_read(rt: HostRuntime) {
    let packet = Ipv6Packet::new_unchecked(&PACKET[..]);
    same(&rt, packet.src_addr(), first());
    same(&rt, packet.dst_addr(), second());
    same(&rt, packet.as_ref(), PACKET.as_slice());
    same(&rt, Ipv6Repr::parse(&packet), Ok(quoted()));
}

#[test]
fn numbers_of_a_header(rt: HostRuntime) {
    let packet = Ipv6Packet::new_unchecked(&PACKET[..]);
    same(&rt, packet.version(), 6);
    same(&rt, packet.header_len(), 40);
    same(&rt, packet.payload_len(), 12);
    same(&rt, packet.hop_limit(), 64);
    same(&rt, packet.next_header(), IpProtocol::Udp);
}

#[test]
fn packets_are_whole_by_their_own_length(rt: HostRuntime) {
    for len in 0..=52 {
        let octets = &PACKET[..len];
        let whole = len == 52;
        same_of(&rt, len, Ipv6Packet::new_checked(octets).is_ok(), whole);
        let packet = Ipv6Packet::new_unchecked(octets);
        same_of(&rt, len, Ipv6Repr::parse(&packet).is_ok(), whole);
        let refusal = match len {
            0..40 => Some(Ipv6Refusal::Short),
            40..52 => Some(Ipv6Refusal::Cut),
            _ => None,
        };
        same_of(&rt, len, Ipv6Repr::refusal(&packet), refusal);
    }
    same(&rt, IPV6_HEADER_LEN, 40);
    same(&rt, IPV6_MIN_MTU, 1280);
}

#[test]
fn the_version_is_looked_at_by_the_parser_alone(rt: HostRuntime) {
    let mut other = PACKET;
    other[0] = 0x4f;
    holds_of(
        &rt,
        "the version is not looked at",
        Ipv6Packet::new_checked(other.as_slice()).is_ok(),
    );
    let packet = Ipv6Packet::new_unchecked(other.as_slice());
    holds_of(
        &rt,
        "the version is looked at",
        Ipv6Repr::parse(&packet).is_err(),
    );
    let refusal = Ipv6Repr::refusal(&packet);
    same(&rt, refusal, Some(Ipv6Refusal::Version(4)));
}

#[test]
fn refusals_in_words(rt: HostRuntime) {
    const ROWS: &[(Ipv6Refusal, &str)] = &[
        (Ipv6Refusal::Short, "fewer than 40 bytes"),
        (Ipv6Refusal::Cut, "the payload is cut"),
        (Ipv6Refusal::Version(4), "version 4, not 6"),
    ];
    for (refusal, words) in ROWS {
        prints(&rt, rt.alloc(), refusal, words);
    }
}

#[test]
fn pseudo_headers_are_summed(rt: HostRuntime) {
    // fe80 + 1 + fe80 + 2 + 12 + 58, with the carries added at the low end (RFC 8200 section 8.1).
    same(
        &rt,
        checksum::pseudo_header_v6(&first(), &second(), IpProtocol::Icmpv6, 12),
        0xfd4a,
    );
    same(
        &rt,
        checksum::pseudo_header_v6(
            &Ipv6Address::UNSPECIFIED,
            &Ipv6Address::UNSPECIFIED,
            IpProtocol::HopByHop,
            0,
        ),
        0,
    );
    same(
        &rt,
        checksum::pseudo_header_v6(
            &Ipv6Address::UNSPECIFIED,
            &Ipv6Address::UNSPECIFIED,
            IpProtocol::Icmpv6,
            0x0002_0001,
        ),
        61,
    );
}
