//! Interfaces that requests ask for (RFC 8335 section 2.1), and their names.

use crate::icmp4::behind_quote;
use crate::testing::holds_of;
use icmp_fields::icmp4::show_unread;
use packet_fields::Form;
use std::alloc::Global;
use std::process::Abort;

// What a request, whole or cut, prints last whose structure this is, in lines.
fn structure_ends(rt: &impl Abort, alloc: Global, is_whole: bool, structure: &[u8], want: &str) {
    let mut octets = [0; 40];
    let end = 8 + structure.len().min(32);
    octets[0] = 42;
    octets[8..end].copy_from_slice(&structure[..end - 8]);
    let mut output = Vec::new(alloc);
    let shown = show_unread(&mut output, Form::Lines, &octets[..end], is_whole);
    holds_of(rt, want, shown.is_ok());
    holds_of(rt, want, output.as_slice().ends_with(want.as_bytes()));
}

// A checksum of zero says that none was computed; the one of the first row is right.
#[test]
fn interfaces_by_name_and_by_index(rt: HostRuntime) {
    let rows: &[(&[u8], &str)] = &[
        (
            &[0x20, 0, 0xdb, 0xf5, 0, 8, 3, 2, 0, 0, 1, 0],
            "  local=false\n  interface_index=256\n",
        ),
        (
            &[0x20, 0, 0, 0, 0, 8, 3, 1, b'e', b't', b'h', b'0', 9],
            "  local=false\n  interface_name=eth0\n  additional_data=09\n",
        ),
        // Zeros pad a name at its end alone.
        (
            &[
                0x20, 0, 0, 0, 0, 12, 3, 1, 0, b'e', b't', b'h', b'0', 0, 0, 0,
            ],
            "  interface_name=\\x00eth0\n",
        ),
        (
            &[
                0x20, 0, 0, 0, 0, 12, 3, 1, b'a', b' ', 0xc3, 0xa9, 0, b'\\', b'~', 0x7f,
            ],
            "  interface_name=a\\x20\\xc3\\xa9\\x00\\\\~\\x7f\n",
        ),
        (&[0x20, 0, 0, 0, 0, 4, 3, 1], "  interface_name=\n"),
    ];
    for &(structure, want) in rows {
        structure_ends(&rt, rt.alloc(), true, structure, want);
    }
}

// By IANA's address family numbers: 1 is IP, 2 is IP6, 6 is 802, 16389 is 48-bit MAC.
#[test]
fn interfaces_by_address(rt: HostRuntime) {
    let rows: &[(&[u8], &str)] = &[
        (
            &[0x20, 0, 0, 0, 0, 12, 3, 3, 0, 1, 4, 0, 192, 0, 2, 1],
            "  local=false\n  interface_addr_family=1 (ipv4)\n  interface_addr=192.0.2.1\n",
        ),
        (
            &[
                0x20, 0, 0, 0, 0, 24, 3, 3, 0, 2, 16, 0, 0x20, 0x01, 0x0d, 0xb8, 0, 0, 0, 0, 0, 0,
                0, 0, 0, 0, 0, 1,
            ],
            "  interface_addr_family=2 (ipv6)\n  interface_addr=2001:db8::1\n",
        ),
        (
            &[
                0x20, 0, 0, 0, 0, 16, 3, 3, 0, 6, 6, 0, 2, 0, 0, 0, 0, 1, 0, 0,
            ],
            "  interface_addr_family=6 (802)\n  interface_addr=02:00:00:00:00:01\n",
        ),
        (
            &[0x20, 0, 0, 0, 0, 14, 3, 3, 0x40, 5, 6, 0, 2, 0, 0, 0, 0, 1],
            "  interface_addr_family=16389 (mac48)\n  interface_addr=02:00:00:00:00:01\n",
        ),
        // As many octets as an address of another family has.
        (
            &[0x20, 0, 0, 0, 0, 12, 3, 3, 0, 2, 4, 0, 192, 0, 2, 1],
            "  interface_addr_family=2 (ipv6)\n  interface_addr=c0000201\n",
        ),
        (
            &[
                0x20, 0, 0, 0, 0, 16, 3, 3, 0, 1, 6, 0, 2, 0, 0, 0, 0, 1, 0, 0,
            ],
            "  interface_addr_family=1 (ipv4)\n  interface_addr=020000000001\n",
        ),
        (
            &[0x20, 0, 0, 0, 0, 12, 3, 3, 0, 3, 4, 0, 192, 0, 2, 1],
            "  interface_addr_family=3\n  interface_addr=c0000201\n",
        ),
        (
            &[0x20, 0, 0, 0, 0, 8, 3, 3, 0, 1, 0, 0],
            "  interface_addr_family=1 (ipv4)\n  interface_addr=-\n",
        ),
    ];
    for &(structure, want) in rows {
        structure_ends(&rt, rt.alloc(), true, structure, want);
    }
}

// Zeros pad an address to a multiple of 4 bytes, and are not printed.
#[test]
fn octets_behind_an_address(rt: HostRuntime) {
    let rows: &[(&[u8], &str)] = &[
        // Some of the padding, and other octets in its place.
        (
            &[0x20, 0, 0, 0, 0, 15, 3, 3, 0, 6, 6, 0, 2, 0, 0, 0, 0, 1, 0],
            "  interface_addr=02:00:00:00:00:01\n",
        ),
        (
            &[
                0x20, 0, 0, 0, 0, 16, 3, 3, 0, 6, 6, 0, 2, 0, 0, 0, 0, 1, 0, 7,
            ],
            "  interface_addr=02:00:00:00:00:01\n  additional_data=0007\n",
        ),
        // More than the padding, in the object and behind it.
        (
            &[
                0x20, 0, 0, 0, 0, 17, 3, 3, 0, 6, 6, 0, 2, 0, 0, 0, 0, 1, 0, 0, 0, 5,
            ],
            "  interface_addr=02:00:00:00:00:01\n  additional_data=0005\n",
        ),
        (
            &[0x20, 0, 0, 0, 0, 13, 3, 3, 0, 1, 4, 0, 192, 0, 2, 1, 0, 6],
            "  interface_addr=192.0.2.1\n  additional_data=0006\n",
        ),
    ];
    for &(structure, want) in rows {
        structure_ends(&rt, rt.alloc(), true, structure, want);
    }
}

#[test]
fn structures_that_are_refused(rt: HostRuntime) {
    let rows: &[(&[u8], &str)] = &[
        (
            &[],
            "  data=-\n  data_refused=the header of the extensions is cut\n",
        ),
        (
            &[0x30, 0, 0, 0, 0, 4, 3, 1],
            "  data=3000000000040301\n  data_refused=the extensions are of version 3\n",
        ),
        (
            &[0x20, 0, 0, 1, 0, 8, 3, 2, 0, 0, 1, 0],
            "  data=200000010008030200000100\n  data_refused=the checksum of the extensions is wrong\n",
        ),
        (
            &[0x20, 0, 0, 0],
            "  data=20000000\n  data_refused=the header of the object is cut\n",
        ),
        (
            &[0x20, 0, 0, 0, 0, 3, 3, 1],
            "  data=2000000000030301\n  data_refused=the object has fewer than 4 bytes by its length\n",
        ),
        (
            &[0x20, 0, 0, 0, 0, 5, 3, 1],
            "  data=2000000000050301\n  data_refused=the object is cut\n",
        ),
        (
            &[0x20, 0, 0, 0, 0, 4, 2, 1],
            "  data=2000000000040201\n  data_refused=an object of another class than 3\n",
        ),
        (
            &[0x20, 0, 0, 0, 0, 5, 3, 2, 7],
            "  data=200000000005030207\n  data_refused=an index of other than 4 bytes\n",
        ),
        (
            &[0x20, 0, 0, 0, 0, 7, 3, 3, 0, 1, 4],
            "  data=2000000000070303000104\n  data_refused=fewer than 4 bytes before an address\n",
        ),
        (
            &[0x20, 0, 0, 0, 0, 9, 3, 3, 0, 1, 2, 0, 192],
            "  data=200000000009030300010200c0\n  data_refused=fewer bytes than the address counts\n",
        ),
        (
            &[0x20, 0, 0, 0, 0, 4, 3, 4],
            "  data=2000000000040304\n  data_refused=a C-Type that is not known\n",
        ),
    ];
    for &(structure, want) in rows {
        structure_ends(&rt, rt.alloc(), true, structure, want);
    }
}

// Of a request that the capture cut the checksum is not verified.
#[test]
fn cut_structures(rt: HostRuntime) {
    let rows: &[(&[u8], &str)] = &[
        (
            &[0x20, 0, 0, 1, 0, 8, 3, 2, 0, 0, 1, 0],
            "  local=false\n  interface_index=256\n",
        ),
        (
            &[0x20, 0, 0, 1, 0, 8, 3, 2, 0, 0, 1],
            "  data=2000000100080302000001\n  data_refused=the object is cut\n",
        ),
        (
            &[0x20, 0, 0],
            "  data=200000\n  data_refused=the header of the extensions is cut\n",
        ),
        (
            &[0x10, 0, 0, 1, 0, 8, 3, 2, 0, 0, 1, 0],
            "  data_refused=the extensions are of version 1\n",
        ),
    ];
    for &(structure, want) in rows {
        structure_ends(&rt, rt.alloc(), false, structure, want);
    }
}

// Names of interfaces that errors tell (RFC 5837 section 4.3): a space forges no further field.
#[test]
fn names_in_extensions(rt: HostRuntime) {
    let rows: &[(&[u8], &str)] = &[
        (
            &[
                0x20, 0, 0, 0, 0, 20, 2, 2, 16, b'e', b't', b'h', b'0', b' ', b'm', b't', b'u',
                b'=', b'9', b'0', b'0', b'0', 0, 0,
            ],
            " name=eth0\\x20mtu=9000 mtu=none\n",
        ),
        (
            &[
                0x20, 0, 0, 0, 0, 12, 2, 2, 8, 0, b'e', b't', b'h', b'0', 0, 0,
            ],
            " name=\\x00eth0 mtu=none\n",
        ),
    ];
    for &(extensions, want) in rows {
        behind_quote(&rt, rt.alloc(), true, 32, extensions, want);
    }
}
