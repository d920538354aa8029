//! Addresses and ports as text.

use crate::testing::{holds_of, same_of};
use packet_fields::output::ToWriter;
use std::alloc::Global;
use std::process::Abort;
use wirebase::text::{put_v4, put_v6};
use wirebase::{Ipv4Address, Ipv6Address};

fn check_v4(rt: &impl Abort, alloc: Global, address: Ipv4Address, port: Option<u16>, want: &str) {
    let mut output = Vec::new(alloc);
    holds_of(
        rt,
        want,
        put_v4::<_, ToWriter>(&mut output, address, port).is_ok(),
    );
    same_of(rt, want, output.as_slice(), want.as_bytes());
}

fn check_v6(rt: &impl Abort, alloc: Global, groups: [u16; 8], port: Option<u16>, want: &str) {
    let [a, b, c, d, e, f, g, h] = groups;
    let address = Ipv6Address::new(a, b, c, d, e, f, g, h);
    let mut output = Vec::new(alloc);
    holds_of(
        rt,
        want,
        put_v6::<_, ToWriter>(&mut output, address, port).is_ok(),
    );
    same_of(rt, want, output.as_slice(), want.as_bytes());
}

#[test]
fn addresses_with_dots(rt: HostRuntime) {
    let alloc = rt.alloc();
    let host = Ipv4Address::new(192, 0, 2, 1);
    let none = Ipv4Address::new(0, 0, 0, 0);
    let all = Ipv4Address::new(255, 255, 255, 255);
    check_v4(&rt, alloc, host, None, "192.0.2.1");
    check_v4(&rt, alloc, host, Some(53), "192.0.2.1:53");
    check_v4(&rt, alloc, none, Some(0), "0.0.0.0:0");
    check_v4(&rt, alloc, all, Some(65_535), "255.255.255.255:65535");
    let steps = Ipv4Address::new(9, 10, 99, 100);
    check_v4(&rt, alloc, steps, None, "9.10.99.100");
}

// The least and the greatest port of each count of digits.
const PORTS: &[(u16, &str)] = &[
    (9, "0.0.0.0:9"),
    (10, "0.0.0.0:10"),
    (99, "0.0.0.0:99"),
    (100, "0.0.0.0:100"),
    (999, "0.0.0.0:999"),
    (1_000, "0.0.0.0:1000"),
    (9_999, "0.0.0.0:9999"),
    (10_000, "0.0.0.0:10000"),
];

#[test]
fn ports_by_their_digits(rt: HostRuntime) {
    let alloc = rt.alloc();
    for (port, want) in PORTS {
        check_v4(&rt, alloc, Ipv4Address::new(0, 0, 0, 0), Some(*port), want);
    }
}

// The addresses of RFC 5952 sections 4.1 to 4.3, and the endpoint of section 6.
const GROUPS: &[([u16; 8], &str)] = &[
    ([0x2001, 0xdb8, 0, 0, 0, 0, 0, 1], "2001:db8::1"),
    ([0x2001, 0xdb8, 0, 0, 0, 0, 2, 1], "2001:db8::2:1"),
    ([0x2001, 0xdb8, 0, 1, 1, 1, 1, 1], "2001:db8:0:1:1:1:1:1"),
    ([0x2001, 0, 0, 1, 0, 0, 0, 1], "2001:0:0:1::1"),
    ([0x2001, 0xdb8, 0, 0, 1, 0, 0, 1], "2001:db8::1:0:0:1"),
    (
        [
            0x2001, 0xdb8, 0xaaaa, 0xbbbb, 0xcccc, 0xdddd, 0xeeee, 0xaaaa,
        ],
        "2001:db8:aaaa:bbbb:cccc:dddd:eeee:aaaa",
    ),
    ([0, 0, 0, 0, 0, 0, 0, 0], "::"),
    ([0, 0, 0, 0, 0, 0, 0, 1], "::1"),
    ([0xff02, 0, 0, 0, 0, 0, 0, 0], "ff02::"),
];

// Groups of each count of digits, the least and the greatest, and zeros within.
const DIGITS: [u16; 8] = [0xf, 0x10, 0xff, 0x100, 0xfff, 0x1000, 0xffff, 0x100f];

#[test]
fn addresses_with_colons(rt: HostRuntime) {
    let alloc = rt.alloc();
    for (groups, want) in GROUPS {
        check_v6(&rt, alloc, *groups, None, want);
    }
    check_v6(&rt, alloc, DIGITS, None, "f:10:ff:100:fff:1000:ffff:100f");
    let host = [0x2001, 0xdb8, 0, 0, 0, 0, 0, 1];
    check_v6(&rt, alloc, host, Some(80), "[2001:db8::1]:80");
    check_v6(&rt, alloc, [0; 8], Some(65_535), "[::]:65535");
}
