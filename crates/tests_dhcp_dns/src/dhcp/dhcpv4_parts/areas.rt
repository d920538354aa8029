//! The areas of a packet that hold options, and where one of them is cut.

use super::{Fields, Row, check, check_overload, reply};
use crate::testing::{fail, prints, same};
use dhcp_options::{Area, Overload, Parts, Refusal};
use dhcp_wire::dhcpv4::Packet;

// Fields that hold options where one of these options says so.
fn named_by(options: &'static [u8]) -> Fields {
    Fields {
        sname: b"\x0f\x01s\xff",
        file: b"\x0c\x01f\xff",
        options,
    }
}

const FILE: Row = (Area::File, 12, Some(b"f"), true);

const SNAME: Row = (Area::Sname, 15, Some(b"s"), true);

#[test]
fn options_in_the_fields_that_option_52_names(rt: HostRuntime) {
    const ROWS: &[(&[u8], Overload, &[Row])] = &[
        (
            b"\x34\x01\x01\xff",
            Overload::File,
            &[(Area::Options, 52, Some(&[1]), true), FILE],
        ),
        (
            b"\x34\x01\x02\xff",
            Overload::Sname,
            &[(Area::Options, 52, Some(&[2]), true), SNAME],
        ),
        (
            b"\x34\x01\x03\xff",
            Overload::FileAndSname,
            &[(Area::Options, 52, Some(&[3]), true), FILE, SNAME],
        ),
        // The first one that names a field counts.
        (
            b"\x34\x01\x04\x34\x01\x02\x34\x01\x01\xff",
            Overload::Sname,
            &[
                (Area::Options, 52, Some(&[4]), true),
                (Area::Options, 52, Some(&[2]), false),
                (Area::Options, 52, Some(&[1]), false),
                SNAME,
            ],
        ),
    ];
    for &(options, overload, rows) in ROWS {
        let fields = named_by(options);
        check_overload(&rt, rt.alloc(), fields, Some(overload), rows);
    }
}

#[test]
fn an_option_52_that_names_no_field(rt: HostRuntime) {
    const ROWS: &[(&[u8], &[Row])] = &[
        (b"", &[]),
        (b"\xff\x34\x01\x03", &[]),
        (
            b"\x34\x01\x00\xff",
            &[(Area::Options, 52, Some(&[0]), true)],
        ),
        (
            b"\x34\x01\x04\xff",
            &[(Area::Options, 52, Some(&[4]), true)],
        ),
        (
            b"\x34\x02\x01\x01\xff",
            &[(Area::Options, 52, Some(&[1, 1]), true)],
        ),
        (b"\x34\x00\xff", &[(Area::Options, 52, Some(&[]), true)]),
        (
            b"\x33\x01\x03\xff",
            &[(Area::Options, 51, Some(&[3]), true)],
        ),
        (b"\x34\x01", &[(Area::Options, 52, None, false)]),
    ];
    for &(options, rows) in ROWS {
        check_overload(&rt, rt.alloc(), named_by(options), None, rows);
    }
}

// An option 52 in file, which says that sname holds options.
const NESTED: Fields = Fields {
    sname: b"\x0f\x01s\xff",
    file: b"\x34\x01\x02\xff",
    options: b"\x34\x01\x01\xff",
};

#[test]
fn an_option_52_in_file_is_not_followed(rt: HostRuntime) {
    const ROWS: &[Row] = &[
        (Area::Options, 52, Some(&[1]), true),
        (Area::File, 52, Some(&[2]), false),
    ];
    check_overload(&rt, rt.alloc(), NESTED, Some(Overload::File), ROWS);
}

// Options that are cut in the options field, where only a kind is left, and in file.
const CUT: Fields = Fields {
    sname: b"\x0c\x01b\xff",
    file: b"\x0f\x01f\x0c\x7ca",
    options: b"\x34\x01\x03\x0c",
};

#[test]
fn an_option_that_is_cut_ends_its_area_alone(rt: HostRuntime) {
    const ROWS: &[Row] = &[
        (Area::Options, 52, Some(&[3]), true),
        (Area::Options, 12, None, false),
        (Area::File, 15, Some(b"f"), true),
        (Area::File, 12, None, false),
        (Area::Sname, 12, Some(b"b"), true),
    ];
    const TEXTS: &[&str] = &["option-overload=3", "domain-name=\"f\"", "host-name=\"b\""];
    check(&rt, rt.alloc(), CUT, ROWS, TEXTS);
}

// The same, but that the option in file ends with the last byte of the field.
const FULL: Fields = Fields {
    sname: b"\x0c\x01b\xff",
    file: b"\x0f\x01f\x0c\x7ba",
    options: b"\x34\x01\x03",
};

#[test]
fn an_option_may_end_with_its_field(rt: HostRuntime) {
    let octets = reply(&rt, rt.alloc(), FULL);
    match Packet::new_checked(octets.as_slice()) {
        Ok(packet) => {
            let parts = Parts::of(packet.into_inner());
            same(&rt, parts.joined_len(12), 0x7b + 1);
        }
        Err(_) => fail(&rt, "a packet of 240 bytes or more"),
    }
}

#[test]
fn texts_of_refusals(rt: HostRuntime) {
    const ROWS: &[(Area, &str)] = &[
        (Area::Options, "option 12 is cut at the end of options"),
        (Area::File, "option 12 is cut at the end of file"),
        (Area::Sname, "option 12 is cut at the end of sname"),
    ];
    for &(area, text) in ROWS {
        prints(&rt, rt.alloc(), &Refusal { area, kind: 12 }, text);
    }
}
