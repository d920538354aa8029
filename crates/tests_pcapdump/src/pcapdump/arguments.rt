//! Lists of kinds.

use crate::testing::same_of;
use dump_captures::arguments::read_only;
use dump_captures::options::Only;

#[test]
fn lists_of_kinds(rt: HostRuntime) {
    const T: bool = true;
    const F: bool = false;
    // Whether each kind is chosen, and whether those with hop-by-hop options are.
    const ROWS: &[(&str, [bool; 9], bool)] = &[
        ("icmp4", [T, F, F, F, F, F, F, F, F], F),
        ("igmp", [F, T, F, F, F, F, F, F, F], F),
        ("icmp6", [F, F, T, F, F, F, F, F, F], F),
        ("dns", [F, F, F, T, F, F, F, F, F], F),
        ("mdns", [F, F, F, F, T, F, F, F, F], F),
        ("llmnr", [F, F, F, F, F, T, F, F, F], F),
        ("nbns", [F, F, F, F, F, F, T, F, F], F),
        ("dhcp", [F, F, F, F, F, F, F, T, F], F),
        ("frame", [F, F, F, F, F, F, F, F, T], F),
        ("hbh", [F, F, F, F, F, F, F, F, F], T),
        ("icmp", [T, F, T, F, F, F, F, F, F], F),
        ("igmp,icmp", [T, T, T, F, F, F, F, F, F], F),
        ("dns,mdns", [F, F, F, T, T, F, F, F, F], F),
        ("mdns,hbh,dns,mdns", [F, F, F, T, T, F, F, F, F], T),
        (
            "frame,dhcp,nbns,llmnr,mdns,dns,icmp6,igmp,icmp4",
            [T, T, T, T, T, T, T, T, T],
            F,
        ),
    ];
    for (list, kinds, hop_by_hop) in ROWS {
        let only = Only {
            kinds: *kinds,
            hop_by_hop: *hop_by_hop,
        };
        same_of(&rt, list, read_only(list).ok(), Some(only));
    }
}

#[test]
fn lists_with_what_is_no_kind(rt: HostRuntime) {
    // What is told of each.
    const ROWS: &[(&str, &str)] = &[
        ("", ""),
        (",", ""),
        ("dns,", ""),
        (",dns", ""),
        ("dns,,mdns", ""),
        ("tcp", "tcp"),
        ("DNS", "DNS"),
        ("dns mdns", "dns mdns"),
        ("dns, mdns", " mdns"),
        ("dns,icmp,tcp,mdns", "tcp"),
        ("hbh,tcp,icmp", "tcp"),
        ("dns;", "dns;"),
        ("icmp44", "icmp44"),
        ("-", "-"),
    ];
    for (list, name) in ROWS {
        same_of(&rt, list, read_only(list), Err(*name));
    }
}
