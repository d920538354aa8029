//! Messages of both protocols: what the Linux kernel sends and receives, and others worked from the pictures of the
//! RFCs with their checksums.

use crate::testing::{prints, same, same_of, takes_writes};
use group_wire::{Family, Full, Membership, Message, Refusal};
use std::alloc::Global;
use std::process::Abort;
use wirebase::{Ipv4Address, Ipv6Address};

// The octets of a buffer before it is written into.
const FILLS: &[u8] = &[0x00, 0xff, 0x2a, 0xa5];

// Checks that a message of IGMP is read, prints this, and is written as it was, whatever the buffer held.
fn check_igmp(rt: &impl Abort, alloc: Global, octets: &[u8], text: &str) {
    let read = Membership::<Ipv4Address>::parse_igmp(octets);
    let Ok(message) = read else {
        return same(rt, read.err(), None);
    };
    prints(rt, alloc, &message, text);
    let len = message.buffer_len();
    same(rt, len, octets.len());
    for &fill in FILLS {
        let mut buffer = [fill; 64];
        if len <= 64 {
            message.emit_igmp(&mut buffer[..len]);
        }
        same_of(rt, fill, &buffer[..len.min(64)], octets);
    }
}

// The same of a message of MLD.
fn check_mld(
    rt: &impl Abort,
    alloc: Global,
    addresses: [Ipv6Address; 2],
    octets: &[u8],
    text: &str,
) {
    let [src_addr, dst_addr] = addresses;
    let read = Membership::<Ipv6Address>::parse_mld(octets, &src_addr, &dst_addr);
    let Ok(message) = read else {
        return same(rt, read.err(), None);
    };
    prints(rt, alloc, &message, text);
    let len = message.buffer_len();
    same(rt, len, octets.len());
    for &fill in FILLS {
        let mut buffer = [fill; 64];
        if len <= 64 {
            message.emit_mld(&mut buffer[..len], &src_addr, &dst_addr);
        }
        same_of(rt, fill, &buffer[..len.min(64)], octets);
    }
}

#[test]
fn messages_of_igmp(rt: HostRuntime) {
    let rows: &[(&[u8], &str)] = &[
        (
            &[0x12, 0x00, 0xfc, 0xfa, 0xef, 0x01, 0x02, 0x03],
            "IGMPv1 report group=239.1.2.3",
        ),
        (
            &[0x16, 0x00, 0xf8, 0xfa, 0xef, 0x01, 0x02, 0x03],
            "IGMPv2 report group=239.1.2.3",
        ),
        (
            &[0x17, 0x00, 0xf7, 0xfa, 0xef, 0x01, 0x02, 0x03],
            "IGMPv2 leave group=239.1.2.3",
        ),
        (
            &[0x11, 0x00, 0xee, 0xff, 0x00, 0x00, 0x00, 0x00],
            "IGMPv1 query max_resp_code=0 group=0.0.0.0",
        ),
        (
            &[0x11, 0x64, 0xee, 0x9b, 0x00, 0x00, 0x00, 0x00],
            "IGMPv2 query max_resp_code=100 group=0.0.0.0",
        ),
        (
            &[
                0x11, 0x64, 0xec, 0x1e, 0x00, 0x00, 0x00, 0x00, 0x02, 0x7d, 0x00, 0x00,
            ],
            "IGMPv3 query max_resp_code=100 group=0.0.0.0 s_flag=false qrv=2 qqic=125 sources=-",
        ),
        (
            &[
                0x11, 0x0a, 0x6f, 0x6d, 0xef, 0x01, 0x02, 0x03, 0x0a, 0x7d, 0x00, 0x02, 0xc0, 0x00,
                0x02, 0x01, 0xc0, 0x00, 0x02, 0x02,
            ],
            "IGMPv3 query max_resp_code=10 group=239.1.2.3 s_flag=true qrv=2 qqic=125 sources=192.0.2.1,192.0.2.2",
        ),
        (
            &[
                0x22, 0x00, 0xe8, 0xf9, 0x00, 0x00, 0x00, 0x01, 0x04, 0x00, 0x00, 0x00, 0xef, 0x01,
                0x02, 0x03,
            ],
            "IGMPv3 report records=1 (CHANGE_TO_EXCLUDE_MODE group=239.1.2.3 sources=- auxiliary=-)",
        ),
        (
            &[
                0x22, 0x00, 0xa7, 0x5b, 0x00, 0x00, 0x00, 0x02, 0x01, 0x00, 0x00, 0x01, 0xef, 0x01,
                0x02, 0x03, 0xc0, 0x00, 0x02, 0x01, 0x04, 0x01, 0x00, 0x00, 0xe0, 0x00, 0x00, 0xfb,
                0xde, 0xad, 0xbe, 0xef,
            ],
            "IGMPv3 report records=2 (MODE_IS_INCLUDE group=239.1.2.3 sources=192.0.2.1 auxiliary=-) \
             (CHANGE_TO_EXCLUDE_MODE group=224.0.0.251 sources=- auxiliary=deadbeef)",
        ),
    ];
    for (octets, text) in rows {
        check_igmp(&rt, rt.alloc(), octets, text);
    }
}

#[test]
fn messages_of_mld(rt: HostRuntime) {
    let rows: &[([Ipv6Address; 2], &[u8], &str)] = &[
        (
            [
                Ipv6Address::new(0xfe80, 0, 0, 0, 0, 0xff, 0xfe00, 0x7),
                Ipv6Address::new(0xff02, 0, 0, 0, 0, 0, 0, 0x2),
            ],
            &[
                0x84, 0x00, 0x80, 0x06, 0x00, 0x00, 0x00, 0x00, 0xff, 0x15, 0x00, 0x00, 0x00, 0x00,
                0x00, 0x00, 0x00, 0x00, 0x00, 0x00, 0x00, 0x01, 0x00, 0x03,
            ],
            "MLDv1 leave group=ff15::1:3",
        ),
        (
            [
                Ipv6Address::new(0xfe80, 0, 0, 0, 0, 0xff, 0xfe00, 0x9),
                Ipv6Address::new(0xff02, 0, 0, 0, 0, 0x1, 0xff00, 0x9),
            ],
            &[
                0x83, 0x00, 0x83, 0x07, 0x00, 0x00, 0x00, 0x00, 0xff, 0x02, 0x00, 0x00, 0x00, 0x00,
                0x00, 0x00, 0x00, 0x00, 0x00, 0x01, 0xff, 0x00, 0x00, 0x09,
            ],
            "MLDv1 report group=ff02::1:ff00:9",
        ),
        (
            [
                Ipv6Address::new(0xfe80, 0, 0, 0, 0, 0xff, 0xfe00, 0x1),
                Ipv6Address::new(0xff02, 0, 0, 0, 0, 0, 0, 0x1),
            ],
            &[
                0x82, 0x00, 0x5a, 0x17, 0x27, 0x10, 0x00, 0x00, 0x00, 0x00, 0x00, 0x00, 0x00, 0x00,
                0x00, 0x00, 0x00, 0x00, 0x00, 0x00, 0x00, 0x00, 0x00, 0x00,
            ],
            "MLDv1 query max_resp_code=10000 group=::",
        ),
        (
            [
                Ipv6Address::new(0xfe80, 0, 0, 0, 0, 0xff, 0xfe00, 0x1),
                Ipv6Address::new(0xff02, 0, 0, 0, 0, 0, 0, 0x1),
            ],
            &[
                0x82, 0x00, 0x57, 0x96, 0x27, 0x10, 0x00, 0x00, 0x00, 0x00, 0x00, 0x00, 0x00, 0x00,
                0x00, 0x00, 0x00, 0x00, 0x00, 0x00, 0x00, 0x00, 0x00, 0x00, 0x02, 0x7d, 0x00, 0x00,
            ],
            "MLDv2 query max_resp_code=10000 group=:: s_flag=false qrv=2 qqic=125 sources=-",
        ),
        (
            [
                Ipv6Address::new(0xfe80, 0, 0, 0, 0, 0xff, 0xfe00, 0x1),
                Ipv6Address::new(0xff02, 0, 0, 0, 0, 0, 0, 0x1),
            ],
            &[
                0x82, 0x00, 0xc5, 0xd4, 0x83, 0xe8, 0x00, 0x00, 0xff, 0x15, 0x00, 0x00, 0x00, 0x00,
                0x00, 0x00, 0x00, 0x00, 0x00, 0x00, 0x00, 0x01, 0x00, 0x03, 0x0a, 0x7d, 0x00, 0x01,
                0x20, 0x01, 0x0d, 0xb8, 0x00, 0x00, 0x00, 0x00, 0x00, 0x00, 0x00, 0x00, 0x00, 0x00,
                0x00, 0x05,
            ],
            "MLDv2 query max_resp_code=33768 group=ff15::1:3 s_flag=true qrv=2 qqic=125 sources=2001:db8::5",
        ),
        (
            [
                Ipv6Address::new(0xfe80, 0, 0, 0, 0, 0xff, 0xfe00, 0x7),
                Ipv6Address::new(0xff02, 0, 0, 0, 0, 0, 0, 0x16),
            ],
            &[
                0x8f, 0x00, 0x41, 0x1e, 0x00, 0x00, 0x00, 0x01, 0x06, 0x00, 0x00, 0x01, 0xff, 0x15,
                0x00, 0x00, 0x00, 0x00, 0x00, 0x00, 0x00, 0x00, 0x00, 0x00, 0x00, 0x01, 0x00, 0x03,
                0x20, 0x01, 0x0d, 0xb8, 0x00, 0x00, 0x00, 0x00, 0x00, 0x00, 0x00, 0x00, 0x00, 0x00,
                0x00, 0x05,
            ],
            "MLDv2 report records=1 (BLOCK_OLD_SOURCES group=ff15::1:3 sources=2001:db8::5 auxiliary=-)",
        ),
    ];
    for (addresses, octets, text) in rows {
        check_mld(&rt, rt.alloc(), *addresses, octets, text);
    }
}

#[test]
fn what_is_refused_of_igmp(rt: HostRuntime) {
    let rows: &[(&[u8], Refusal)] = &[
        (&[0x11, 0x64, 0xee, 0x9b, 0x00, 0x00, 0x00], Refusal::Short),
        (
            &[0x11, 0x64, 0xee, 0x9b, 0x00, 0x00, 0x00, 0x01],
            Refusal::Checksum,
        ),
        (
            &[0x13, 0x00, 0xec, 0xff, 0x00, 0x00, 0x00, 0x00],
            Refusal::UnknownType(0x13),
        ),
        (
            &[0x11, 0x64, 0xee, 0x9b, 0x00, 0x00, 0x00, 0x00, 0x00, 0x00],
            Refusal::Length,
        ),
        (
            &[
                0x11, 0x64, 0x39, 0x18, 0xef, 0x01, 0x02, 0x03, 0x02, 0x7d, 0x00, 0x01, 0xc0, 0x00,
                0x02,
            ],
            Refusal::Cut,
        ),
        (
            &[
                0x22, 0x00, 0xf3, 0xf6, 0x00, 0x00, 0x00, 0x02, 0x04, 0x00, 0x00, 0x00, 0xef, 0x01,
                0x02, 0x03, 0x04, 0x00, 0x00, 0x00, 0xef, 0x01, 0x02,
            ],
            Refusal::Cut,
        ),
    ];
    for (octets, refusal) in rows {
        let read = Membership::<Ipv4Address>::parse_igmp(octets);
        same_of(&rt, octets, read.err(), Some(*refusal));
    }
}

#[test]
fn what_is_refused_of_mld(rt: HostRuntime) {
    let src_addr = Ipv6Address::new(0xfe80, 0, 0, 0, 0, 0xff, 0xfe00, 0x1);
    let dst_addr = Ipv6Address::new(0xff02, 0, 0, 0, 0, 0, 0, 0x1);
    let rows: &[(&[u8], Refusal)] = &[
        (
            &[
                0x82, 0x00, 0x5a, 0x15, 0x27, 0x10, 0x00, 0x00, 0x00, 0x00, 0x00, 0x00, 0x00, 0x00,
                0x00, 0x00, 0x00, 0x00, 0x00, 0x00, 0x00, 0x00, 0x00, 0x00, 0x00, 0x00,
            ],
            Refusal::Length,
        ),
        (
            &[
                0x83, 0x00, 0x80, 0x2b, 0x00, 0x00, 0x00, 0x00, 0x00, 0x00, 0x00, 0x00, 0x00, 0x00,
                0x00, 0x00, 0x00, 0x00, 0x00, 0x00,
            ],
            Refusal::Length,
        ),
        (
            &[
                0x82, 0x00, 0x5a, 0x17, 0x27, 0x10, 0x00, 0x00, 0x00, 0x00, 0x00, 0x00, 0x00, 0x00,
                0x00, 0x00, 0x00, 0x00, 0x00, 0x00, 0x00, 0x00, 0x00, 0x01,
            ],
            Refusal::Checksum,
        ),
    ];
    for (octets, refusal) in rows {
        let read = Membership::<Ipv6Address>::parse_mld(octets, &src_addr, &dst_addr);
        same_of(&rt, octets, read.err(), Some(*refusal));
    }
}

// What is reserved and what follows the last record are not looked at (RFC 3376 sections 4.2.1 and 4.2.11).
#[test]
fn a_report_with_more_than_it_says(rt: HostRuntime) {
    let octets = [
        0x22, 0x55, 0x39, 0xe7, 0xaa, 0xbb, 0x00, 0x01, 0x04, 0x00, 0x00, 0x00, 0xef, 0x01, 0x02,
        0x03, 0x01, 0x02, 0x03,
    ];
    match Membership::<Ipv4Address>::parse_igmp(&octets) {
        Ok(message) => prints(
            &rt,
            rt.alloc(),
            &message,
            "IGMPv3 report records=1 (CHANGE_TO_EXCLUDE_MODE group=239.1.2.3 sources=- auxiliary=-)",
        ),
        Err(refusal) => same(&rt, Some(refusal), None),
    }
}

// MLD has one type of older report (RFC 2710 section 3.1).
#[test]
fn the_oldest_report_of_mld_is_its_older_one(rt: HostRuntime) {
    let src_addr = Ipv6Address::new(0xfe80, 0, 0, 0, 0, 0xff, 0xfe00, 0x9);
    let group = Ipv6Address::new(0xff02, 0, 0, 0, 0, 1, 0xff00, 9);
    let report: Membership<'_, Ipv6Address> = Message::OldestReport { group };
    let mut octets = [0; 24];
    report.emit_mld(&mut octets, &src_addr, &group);
    let read = Membership::<Ipv6Address>::parse_mld(&octets, &src_addr, &group);
    same(&rt, read, Ok(Message::OlderReport { group }));
}

#[test]
fn texts_of_reasons_and_protocols(rt: HostRuntime) {
    let rows: &[(Refusal, &str)] = &[
        (Refusal::Short, "fewer than 8 bytes"),
        (Refusal::Checksum, "wrong checksum"),
        (Refusal::UnknownType(0x13), "type 19 is not read"),
        (Refusal::Length, "a length that no message of this type has"),
        (
            Refusal::Cut,
            "more sources or records counted than there are",
        ),
    ];
    for (refusal, text) in rows {
        prints(&rt, rt.alloc(), refusal, text);
    }
    takes_writes(&rt, &Refusal::Cut, 1);
    prints(&rt, rt.alloc(), &Family::Igmp, "IGMP");
    prints(&rt, rt.alloc(), &Family::Mld, "MLD");
    takes_writes(&rt, &Family::Mld, 1);
    prints(&rt, rt.alloc(), &Full, "no room for the record");
}
