//! Queries, and the times that their codes mean.

use super::{check_message, check_read, group, written};
use crate::testing::{same, same_of};
use icmp4_wire::igmp::IgmpVersion::{Version1, Version2};
use icmp4_wire::igmp::{IgmpVersion, Message, Repr};
use std::process::Abort;
use wirebase::{Duration, Ipv4Address};

#[test]
fn every_code_and_every_type_comes_back(rt: HostRuntime) {
    for number in 0..=255u8 {
        let time = time_of(number);
        check_time(&rt, number, time);
        same(&rt, written(&timed_query(number, time), 0)[1], number);
        same(&rt, u8::from(Message::from(number)), number);
    }
    same(&rt, Message::from(0x22), Message::Unknown(0x22));
}

#[test]
fn codes_of_durations(rt: HostRuntime) {
    const ROWS: &[(u64, u8)] = &[
        (0, 0x00),
        (50_000, 0x00),
        (99_999, 0x00),
        (100_000, 0x01),
        (12_799_000, 0x7f),
        (12_800_000, 0x80),
        (12_900_000, 0x80),
        (13_500_000, 0x80),
        (13_599_000, 0x80),
        (13_600_000, 0x81),
        (3_174_399_000, 0xfe),
        (3_174_400_000, 0xff),
        (1_000_000_000_000_000, 0xff),
        (u64::MAX, 0xff),
    ];
    for &(micros, code) in ROWS {
        same_of(
            &rt,
            micros,
            written(&query(Version2, micros, group()), 0)[1],
            code,
        );
    }
}

#[test]
fn durations_of_codes(rt: HostRuntime) {
    const ROWS: &[(u8, u64)] = &[
        (0x00, 0),
        (0x01, 100),
        (0x7f, 12_700),
        (0x80, 12_800),
        (0x81, 13_600),
        (0xfe, 3_072_000),
        (0xff, 3_174_400),
    ];
    for &(code, millis) in ROWS {
        check_time(&rt, code, Duration::from_millis(millis));
    }
}

// The time that a code means.
fn time_of(code: u8) -> Duration {
    Duration::from_millis(100 * tenths(code) as u64)
}

// The tenths of a second of a code: itself below 128, or 1 and its last four bits, times a power of 2 (RFC 3376
// section 4.1.1).
fn tenths(code: u8) -> u32 {
    let mantissa = (16 + code % 16) as u32;
    match code / 16 {
        8 => mantissa * 8,
        9 => mantissa * 16,
        10 => mantissa * 32,
        11 => mantissa * 64,
        12 => mantissa * 128,
        13 => mantissa * 256,
        14 => mantissa * 512,
        15 => mantissa * 1024,
        _ => code as u32,
    }
}

// Ends the test where a query with this code has another time.
fn check_time(rt: &impl Abort, code: u8, time: Duration) {
    let message = timed_query(code, time);
    check_read(rt, &[0x11, code, 0, 0, 224, 0, 6, 150], Some(&message));
}

// A query of this time, of version 1 where its code is 0.
fn timed_query(code: u8, max_resp_time: Duration) -> Repr {
    Repr::MembershipQuery {
        max_resp_time,
        group_addr: group(),
        version: if code == 0 { Version1 } else { Version2 },
    }
}

fn query(version: IgmpVersion, micros: u64, group_addr: Ipv4Address) -> Repr {
    Repr::MembershipQuery {
        max_resp_time: Duration::from_micros(micros),
        group_addr,
        version,
    }
}

#[test]
fn queries_are_written_and_read(rt: HostRuntime) {
    // The version and the microseconds that are written, the octets, and the version and the microseconds read in them.
    const ROWS: &[(IgmpVersion, u64, [u8; 8], IgmpVersion, u64)] = &[
        (
            Version2,
            12_900_000,
            [0x11, 0x80, 0xee, 0x7f, 0, 0, 0, 0],
            Version2,
            12_800_000,
        ),
        (
            Version2,
            50_000,
            [0x11, 0x00, 0xee, 0xff, 0, 0, 0, 0],
            Version1,
            0,
        ),
        // A query of version 1 has no code.
        (
            Version1,
            12_800_000,
            [0x11, 0x00, 0xee, 0xff, 0, 0, 0, 0],
            Version1,
            0,
        ),
    ];
    for &(version, micros, octets, read_version, read_micros) in ROWS {
        let all = Ipv4Address::UNSPECIFIED;
        let message = query(version, micros, all);
        check_message(
            &rt,
            &message,
            &octets,
            &query(read_version, read_micros, all),
        );
    }
}

#[test]
fn times_of_version_2_queries(rt: HostRuntime) {
    const ROWS: &[(u64, u8, u64)] = &[
        (12_799_000, 0x7f, 12_700_000),
        (13_599_000, 0x80, 12_800_000),
        (13_600_000, 0x81, 13_600_000),
        (3_174_399_000, 0xfe, 3_072_000_000),
        (3_174_400_000, 0xff, 3_174_400_000),
        (3_174_400_001, 0xff, 3_174_400_000),
        (10_000_000_000, 0xff, 3_174_400_000),
        (u64::MAX, 0xff, 3_174_400_000),
    ];
    for &(micros, code, time) in ROWS {
        let octets = written(&query(Version2, micros, group()), 0x2a);
        same_of(&rt, micros, octets[1], code);
        check_read(&rt, &octets, Some(&query(Version2, time, group())));
    }
}

#[test]
fn queries_of_each_code_are_read_and_written_as_they_were(rt: HostRuntime) {
    for code in 0..=255u8 {
        let message = timed_query(code, time_of(code));
        check_read(&rt, &[0x11, code, 0, 0, 224, 0, 6, 150], Some(&message));
        let octets = written(&message, 0xff);
        same(&rt, octets[1], code);
        check_read(&rt, &octets, Some(&message));
    }
}

#[test]
fn equal_texts_have_equal_normal_forms(rt: HostRuntime) {
    let one = query(Version2, 12_900_000, group());
    let other = query(Version2, 12_800_000, group());
    same(&rt, written(&one, 0), written(&other, 0));
    Repr::same_text(&one, &other);
    let later = query(Version2, 13_600_000, group());
    same(&rt, written(&later, 0) == written(&one, 0), false);
}
