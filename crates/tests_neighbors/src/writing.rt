//! Options written one after another, or over the front of octets, and what the octets then are.

use crate::testing::{prints, same, same_of, takes_writes};
use neighbor_wire::{
    Names, Nat64Length, Nat64Prefix, NeighborOption, NeighborOptions, OptionsWriter, Preference,
    Prefix, Route, Servers, Unwritten,
};
use std::process::Abort;
use wirebase::Ipv6Address;

// A prefix of so many bits.
fn prefix(prefix_len: u8) -> NeighborOption<'static> {
    NeighborOption::Prefix(Prefix {
        prefix_len,
        on_link: true,
        autonomous: false,
        router_address: false,
        valid_lifetime: 7200,
        preferred_lifetime: 3600,
        prefix: Ipv6Address::new(0x2001, 0xdb8, 1, 0, 0, 0, 0, 0),
    })
}

#[test]
fn options_that_are_written_are_read(rt: HostRuntime) {
    let mut octets = [0xa5; 40];
    let nonce = NeighborOption::Nonce(&[0xd1, 0x9f, 0x4f, 0x85, 0x28, 0x8a]);
    let mtu = NeighborOption::Mtu(1500);
    let mut writer = OptionsWriter::new(&mut octets);
    same(&rt, writer.is_empty(), true);
    same(&rt, writer.push(&prefix(64)), Ok(()));
    same(&rt, writer.is_empty(), false);
    same(&rt, writer.len(), 32);
    same(&rt, writer.push(&mtu), Ok(()));
    same(&rt, writer.len(), 40);
    same(&rt, writer.push(&nonce), Err(Unwritten::Full));
    same(&rt, writer.len(), 40);
    let mut options = NeighborOptions::new(&octets);
    same(&rt, options.next(), Some(Ok(prefix(64))));
    same(&rt, options.next(), Some(Ok(mtu)));
    same(&rt, options.next(), None);
}

// An option without the zeros behind it is written with them.
#[test]
fn what_fills_no_whole_units_is_written_with_zeros(rt: HostRuntime) {
    let rows: &[(NeighborOption<'_>, &[u8])] = &[
        (
            NeighborOption::SourceLinkLayerAddress(&[
                0x00, 0x12, 0x4b, 0x00, 0x06, 0x0d, 0x9a, 0x3c,
            ]),
            &[
                0x01, 0x02, 0x00, 0x12, 0x4b, 0x00, 0x06, 0x0d, 0x9a, 0x3c, 0x00, 0x00, 0x00, 0x00,
                0x00, 0x00,
            ],
        ),
        (
            NeighborOption::SearchList {
                lifetime: 600,
                names: Names::new(b"\x07example\x03com\0\x03lab\0"),
            },
            &[
                0x1f, 0x04, 0x00, 0x00, 0x00, 0x00, 0x02, 0x58, 0x07, 0x65, 0x78, 0x61, 0x6d, 0x70,
                0x6c, 0x65, 0x03, 0x63, 0x6f, 0x6d, 0x00, 0x03, 0x6c, 0x61, 0x62, 0x00, 0x00, 0x00,
                0x00, 0x00, 0x00, 0x00,
            ],
        ),
        (
            NeighborOption::CaptivePortal(&[]),
            &[0x25, 0x01, 0x00, 0x00, 0x00, 0x00, 0x00, 0x00],
        ),
    ];
    for (option, octets) in rows {
        check_pushed(&rt, *option, octets);
    }
}

// Checks that the option is written as these octets.
fn check_pushed(rt: &impl Abort, option: NeighborOption<'_>, octets: &[u8]) {
    let mut buffer = [0xa5; 32];
    let mut writer = OptionsWriter::new(&mut buffer);
    same(rt, writer.push(&option), Ok(()));
    let len = writer.len();
    same(rt, option.buffer_len(), len);
    same(rt, &buffer[..len.min(32)], octets);
}

// Reserved fields are not looked at, and are written as zeros (RFC 4861 section 4.6.2, RFC 4191 section 2.3). Of the
// zeros behind a URI only those up to a whole unit are.
#[test]
fn what_says_nothing_is_written_as_zeros(rt: HostRuntime) {
    let rows: &[(&[u8], NeighborOption<'_>, &[u8])] = &[
        (
            &[
                0x03, 0x04, 0x00, 0x1f, 0x00, 0x00, 0x00, 0x00, 0x00, 0x00, 0x00, 0x00, 0x12, 0x34,
                0x56, 0x78, 0x00, 0x00, 0x00, 0x00, 0x00, 0x00, 0x00, 0x00, 0x00, 0x00, 0x00, 0x00,
                0x00, 0x00, 0x00, 0x00,
            ],
            NeighborOption::Prefix(Prefix {
                prefix_len: 0,
                on_link: false,
                autonomous: false,
                router_address: false,
                valid_lifetime: 0,
                preferred_lifetime: 0,
                prefix: Ipv6Address::UNSPECIFIED,
            }),
            &[
                0x03, 0x04, 0x00, 0x00, 0x00, 0x00, 0x00, 0x00, 0x00, 0x00, 0x00, 0x00, 0x00, 0x00,
                0x00, 0x00, 0x00, 0x00, 0x00, 0x00, 0x00, 0x00, 0x00, 0x00, 0x00, 0x00, 0x00, 0x00,
                0x00, 0x00, 0x00, 0x00,
            ],
        ),
        (
            &[0x18, 0x01, 0x00, 0xf7, 0x00, 0x00, 0x07, 0x08],
            NeighborOption::Route(Route {
                prefix_len: 0,
                preference: Preference::Reserved,
                lifetime: 1800,
                prefix: &[],
            }),
            &[0x18, 0x01, 0x00, 0x10, 0x00, 0x00, 0x07, 0x08],
        ),
        (
            &[0x05, 0x01, 0xff, 0xff, 0x00, 0x00, 0x05, 0xdc],
            NeighborOption::Mtu(1500),
            &[0x05, 0x01, 0x00, 0x00, 0x00, 0x00, 0x05, 0xdc],
        ),
        (
            &[
                0x25, 0x02, 0x2f, 0x22, 0x5c, 0x0a, 0x00, 0x00, 0x00, 0x00, 0x00, 0x00, 0x00, 0x00,
                0x00, 0x00,
            ],
            NeighborOption::CaptivePortal(b"/\"\\\n"),
            &[0x25, 0x01, 0x2f, 0x22, 0x5c, 0x0a, 0x00, 0x00],
        ),
    ];
    for (octets, option, written) in rows {
        same(&rt, NeighborOption::parse(octets), Ok(*option));
        check_pushed(&rt, *option, written);
    }
}

// An option is written over the front of the octets, and those behind it stay.
#[test]
fn an_option_over_the_front_of_octets(rt: HostRuntime) {
    let mtu = NeighborOption::Mtu(1280);
    let nonce = NeighborOption::Nonce(&[0xd1, 0x9f, 0x4f, 0x85, 0x28, 0x8a]);
    let mut octets = [0xa5; 12];
    mtu.emit_into(&mut octets);
    same(
        &rt,
        octets,
        [
            0x05, 0x01, 0x00, 0x00, 0x00, 0x00, 0x05, 0x00, 0xa5, 0xa5, 0xa5, 0xa5,
        ],
    );
    nonce.emit_into(&mut octets);
    same(
        &rt,
        octets,
        [
            0x0e, 0x01, 0xd1, 0x9f, 0x4f, 0x85, 0x28, 0x8a, 0xa5, 0xa5, 0xa5, 0xa5,
        ],
    );
    NeighborOption::same_text(&mtu, &nonce);
}

#[test]
fn an_option_has_255_units_at_most(rt: HostRuntime) {
    let octets = [0x5a; 2039];
    let mut buffer = [0xa5; 4096];
    let mut writer = OptionsWriter::new(&mut buffer);
    let long = NeighborOption::Nonce(&octets);
    same(&rt, writer.push(&long), Err(Unwritten::Long));
    same(&rt, writer.len(), 0);
    let nonce = NeighborOption::Nonce(&octets[..2038]);
    same(&rt, writer.push(&nonce), Ok(()));
    same(&rt, writer.len(), 2040);
    same(&rt, &buffer[..3], &[14, 255, 0x5a][..]);
    let mut options = NeighborOptions::new(&buffer);
    same(&rt, options.next(), Some(Ok(nonce)));
}

// The scaled lifetime has 13 bits (RFC 8781 section 4).
#[test]
fn a_scaled_lifetime_of_14_bits_is_not_written(rt: HostRuntime) {
    let mut octets = [0xa5; 4];
    let mut writer = OptionsWriter::new(&mut octets);
    for (scaled_lifetime, unwritten) in [
        (8192, Unwritten::ScaledLifetime),
        (65_535, Unwritten::ScaledLifetime),
        (8191, Unwritten::Full),
    ] {
        let option = NeighborOption::Nat64Prefix(Nat64Prefix {
            scaled_lifetime,
            length: Nat64Length::Bits96,
            prefix: &[0; 12],
        });
        same(&rt, writer.push(&option), Err(unwritten));
    }
    same(&rt, writer.is_empty(), true);
    same(&rt, octets, [0xa5; 4]);
}

// A route of so many bits and these octets.
fn route_of(prefix_len: u8, prefix: &[u8]) -> NeighborOption<'_> {
    NeighborOption::Route(Route {
        prefix_len,
        preference: Preference::High,
        lifetime: 1800,
        prefix,
    })
}

// DNS servers in these octets.
fn servers_of(octets: &[u8]) -> NeighborOption<'_> {
    NeighborOption::DnsServers {
        lifetime: 600,
        servers: Servers::new(octets),
    }
}

// A NAT64 prefix of these octets.
fn nat64_of(prefix: &[u8]) -> NeighborOption<'_> {
    NeighborOption::Nat64Prefix(Nat64Prefix {
        scaled_lifetime: 225,
        length: Nat64Length::Bits96,
        prefix,
    })
}

// An option by its octets.
fn other(kind: u8) -> NeighborOption<'static> {
    NeighborOption::Other {
        kind,
        data: &[0, 0, 0, 0, 5, 0xdc],
    }
}

// Of what a reader would refuse, or take for another option, nothing is written.
#[test]
fn what_would_not_be_read_back_is_not_written(rt: HostRuntime) {
    let zeros: &[u8] = &[0; 24];
    let no_names = NeighborOption::SearchList {
        lifetime: 600,
        names: Names::new(&[]),
    };
    let rows: &[(NeighborOption<'_>, Unwritten)] = &[
        (prefix(129), Unwritten::PrefixLength(129)),
        (prefix(255), Unwritten::PrefixLength(255)),
        (route_of(0, &zeros[..7]), Unwritten::Octets(24, 7)),
        (route_of(64, zeros), Unwritten::Octets(24, 24)),
        (route_of(1, &[]), Unwritten::PrefixLength(1)),
        (route_of(65, &zeros[..8]), Unwritten::PrefixLength(65)),
        (route_of(129, &zeros[..16]), Unwritten::PrefixLength(129)),
        (servers_of(&[]), Unwritten::Octets(25, 0)),
        (servers_of(&zeros[..8]), Unwritten::Octets(25, 8)),
        (servers_of(zeros), Unwritten::Octets(25, 24)),
        (no_names, Unwritten::Octets(31, 0)),
        (
            NeighborOption::CaptivePortal(b"https://portal.example/\0"),
            Unwritten::LastZero,
        ),
        (NeighborOption::CaptivePortal(&[0]), Unwritten::LastZero),
        (nat64_of(&zeros[..8]), Unwritten::Octets(38, 8)),
        (nat64_of(&zeros[..20]), Unwritten::Octets(38, 20)),
        (other(3), Unwritten::Kind(3)),
        (other(5), Unwritten::Kind(5)),
        (other(38), Unwritten::Kind(38)),
    ];
    for (option, unwritten) in rows {
        let mut octets = [0xa5; 40];
        let mut writer = OptionsWriter::new(&mut octets);
        same_of(&rt, *option, writer.push(option), Err(*unwritten));
        same(&rt, writer.is_empty(), true);
        same(&rt, octets, [0xa5; 40]);
    }
}

// The most that is written, and the least.
#[test]
fn what_is_at_a_bound_is_written_and_read_back(rt: HostRuntime) {
    let zeros: &[u8] = &[0; 24];
    for option in [
        prefix(128),
        route_of(0, &[]),
        route_of(64, &zeros[..8]),
        route_of(128, &zeros[..16]),
        servers_of(&zeros[..16]),
        nat64_of(&zeros[..12]),
        NeighborOption::CaptivePortal(b"\0\0https"),
        other(4),
        other(255),
    ] {
        let mut octets = [0xa5; 40];
        let mut writer = OptionsWriter::new(&mut octets);
        same_of(&rt, option, writer.push(&option), Ok(()));
        let mut options = NeighborOptions::new(&octets);
        same(&rt, options.next(), Some(Ok(option)));
    }
}

#[test]
fn texts_of_what_is_not_written(rt: HostRuntime) {
    for (unwritten, text, writes) in [
        (Unwritten::Long, "more than 255 units of 8 bytes", 1),
        (
            Unwritten::Octets(38, 20),
            "20 octets are not allowed for type 38",
            3,
        ),
        (
            Unwritten::PrefixLength(129),
            "129 bits are too many for the prefix",
            2,
        ),
        (Unwritten::LastZero, "a URI with a zero at its end", 1),
        (
            Unwritten::ScaledLifetime,
            "a scaled lifetime of 8192 or more",
            1,
        ),
        (
            Unwritten::Kind(3),
            "type 3 is not written by its octets alone",
            3,
        ),
        (
            Unwritten::Full,
            "fewer bytes are free than the option takes",
            1,
        ),
    ] {
        prints(&rt, rt.alloc(), &unwritten, text);
        takes_writes(&rt, &unwritten, writes);
    }
}
