//! Messages of ICMPv4 by the pictures of RFC 792, with a checksum of zero, which is not looked at.

use crate::testing::{holds_of, same_of};
use icmp_fields::icmp4::{show_error, show_message, show_unread};
use packet_fields::Form;
use quote_wire::message::Icmpv4Message;
use std::alloc::Global;
use std::process::Abort;
use wirebase::ChecksumCapabilities;

const ECHO_REQUEST: &[u8] = &[0x08, 0x00, 0x00, 0x00, 0x30, 0x39, 0x00, 0x02, 0x68, 0x69];

const ECHO_REQUEST_LINES: &str = "  type=8 (echo_request)
  code=0
  ident=12345
  seq_no=2
  data=6869
";

const ECHO_REQUEST_JSON: &str = ",\"type\":8,\"type_name\":\"echo_request\",\"code\":0,\
    \"ident\":12345,\"seq_no\":2,\"data\":\"6869\"";

// A query of DNS that was too long for a link of 1,400 bytes.
const TOO_LONG: &[u8] = &[
    0x03, 0x04, 0x00, 0x00, 0x00, 0x00, 0x05, 0x78, 0x45, 0x00, 0x05, 0xdc, 0x12, 0x34, 0x40, 0x00,
    0x3f, 0x11, 0x00, 0x00, 0xc0, 0x00, 0x02, 0x01, 0xc0, 0x00, 0x02, 0x02, 0x9c, 0x40, 0x00, 0x35,
    0x05, 0xc8, 0x00, 0x00,
];

const TOO_LONG_LINES: &str = "  type=3 (destination_unreachable)
  code=4 (fragmentation_needed)
  next_hop_mtu=1400
  quoted_type_of_service=0
  quoted_total_len=1500
  quoted_ident=4660
  quoted_dont_frag=true
  quoted_more_frags=false
  quoted_frag_offset=0
  quoted_hop_limit=63
  quoted_next_header=17 (udp)
  quoted_src_addr=192.0.2.1
  quoted_dst_addr=192.0.2.2
  quoted_options=-
  quoted_src_port=40000
  quoted_dst_port=53
  quoted_payload=9c40003505c80000
";

const TOO_LONG_JSON: &str = ",\"type\":3,\"type_name\":\"destination_unreachable\",\"code\":4,\
    \"code_name\":\"fragmentation_needed\",\"next_hop_mtu\":1400,\"quoted_type_of_service\":0,\
    \"quoted_total_len\":1500,\"quoted_ident\":4660,\"quoted_dont_frag\":true,\
    \"quoted_more_frags\":false,\"quoted_frag_offset\":0,\"quoted_hop_limit\":63,\
    \"quoted_next_header\":17,\"quoted_next_header_name\":\"udp\",\
    \"quoted_src_addr\":\"192.0.2.1\",\"quoted_dst_addr\":\"192.0.2.2\",\"quoted_options\":\"\",\
    \"quoted_src_port\":40000,\"quoted_dst_port\":53,\"quoted_payload\":\"9c40003505c80000\"";

// A later fragment of a datagram of UDP, 1,480 bytes from the first.
const LATER_FRAGMENT: &[u8] = &[
    0x0b, 0x00, 0x00, 0x00, 0x00, 0x00, 0x00, 0x00, 0x45, 0x00, 0x05, 0xdc, 0x00, 0x01, 0x20, 0xb9,
    0x00, 0x11, 0x00, 0x00, 0xc0, 0x00, 0x02, 0x01, 0xc0, 0x00, 0x02, 0x02, 0x61, 0x62, 0x63, 0x64,
    0x65, 0x66, 0x67, 0x68,
];

const LATER_FRAGMENT_LINES: &str = "  type=11 (time_exceeded)
  code=0 (time_to_live_exceeded_in_transit)
  quoted_type_of_service=0
  quoted_total_len=1500
  quoted_ident=1
  quoted_dont_frag=false
  quoted_more_frags=true
  quoted_frag_offset=1480
  quoted_hop_limit=0
  quoted_next_header=17 (udp)
  quoted_src_addr=192.0.2.1
  quoted_dst_addr=192.0.2.2
  quoted_options=-
  quoted_src_port=none
  quoted_dst_port=none
  quoted_payload=6162636465666768
";

const LATER_FRAGMENT_JSON: &str = ",\"type\":11,\"type_name\":\"time_exceeded\",\"code\":0,\
    \"code_name\":\"time_to_live_exceeded_in_transit\",\"quoted_type_of_service\":0,\
    \"quoted_total_len\":1500,\"quoted_ident\":1,\"quoted_dont_frag\":false,\
    \"quoted_more_frags\":true,\"quoted_frag_offset\":1480,\"quoted_hop_limit\":0,\
    \"quoted_next_header\":17,\"quoted_next_header_name\":\"udp\",\
    \"quoted_src_addr\":\"192.0.2.1\",\"quoted_dst_addr\":\"192.0.2.2\",\"quoted_options\":\"\",\
    \"quoted_src_port\":null,\"quoted_dst_port\":null,\"quoted_payload\":\"6162636465666768\"";

// A gateway that has no room for a segment of TCP (RFC 792's source quench), which came with a router alert (RFC 2113):
// its header has six words, and ends in that option.
const QUENCH: &[u8] = &[
    0x04, 0x00, 0x00, 0x00, 0x00, 0x00, 0x00, 0x00, 0x46, 0x10, 0x00, 0x2c, 0xab, 0xcd, 0x00, 0x00,
    0x3f, 0x06, 0x00, 0x00, 0xc0, 0x00, 0x02, 0x01, 0xc6, 0x33, 0x64, 0x02, 0x94, 0x04, 0x00, 0x00,
    0xc0, 0x01, 0x00, 0x50, 0x01, 0x02, 0x03, 0x04,
];

const QUENCH_LINES: &str = "  type=4 (source_quench)
  code=0
  quoted_type_of_service=16
  quoted_total_len=44
  quoted_ident=43981
  quoted_dont_frag=false
  quoted_more_frags=false
  quoted_frag_offset=0
  quoted_hop_limit=63
  quoted_next_header=6 (tcp)
  quoted_src_addr=192.0.2.1
  quoted_dst_addr=198.51.100.2
  quoted_options=94040000
  quoted_src_port=49153
  quoted_dst_port=80
  quoted_payload=c001005001020304
";

const QUENCH_END: &str = "  quoted_payload=c001005001020304\n";

const QUENCH_JSON: &str = ",\"type\":4,\"type_name\":\"source_quench\",\"code\":0,\
    \"quoted_type_of_service\":16,\"quoted_total_len\":44,\"quoted_ident\":43981,\
    \"quoted_dont_frag\":false,\"quoted_more_frags\":false,\"quoted_frag_offset\":0,\
    \"quoted_hop_limit\":63,\"quoted_next_header\":6,\"quoted_next_header_name\":\"tcp\",\
    \"quoted_src_addr\":\"192.0.2.1\",\"quoted_dst_addr\":\"198.51.100.2\",\
    \"quoted_options\":\"94040000\",\"quoted_src_port\":49153,\"quoted_dst_port\":80,\
    \"quoted_payload\":\"c001005001020304\"";

// The fields of a whole message in either form; empty where the octets are none.
fn listing(rt: &impl Abort, alloc: Global, form: Form, octets: &[u8]) -> Vec<u8> {
    listing_of(rt, alloc, form, octets, true)
}

// The fields of a message, whole or cut.
fn listing_of(
    rt: &impl Abort,
    alloc: Global,
    form: Form,
    octets: &[u8],
    is_whole: bool,
) -> Vec<u8> {
    let mut output = Vec::new(alloc);
    match Icmpv4Message::parse(octets, &ChecksumCapabilities::ignored()) {
        Ok(Icmpv4Message::Error(error)) => {
            let shown = show_error(&mut output, form, &error, is_whole);
            holds_of(rt, octets, shown.is_ok());
        }
        Ok(Icmpv4Message::Message(message)) => {
            let shown = show_message(&mut output, form, &message, octets);
            holds_of(rt, octets, shown.is_ok());
        }
        Err(_) => (),
    }
    output
}

#[test]
fn echoes_and_errors(rt: HostRuntime) {
    let rows: &[(&[u8], &str, &str)] = &[
        (ECHO_REQUEST, ECHO_REQUEST_LINES, ECHO_REQUEST_JSON),
        (TOO_LONG, TOO_LONG_LINES, TOO_LONG_JSON),
        (LATER_FRAGMENT, LATER_FRAGMENT_LINES, LATER_FRAGMENT_JSON),
        (QUENCH, QUENCH_LINES, QUENCH_JSON),
    ];
    for &(octets, lines, json) in rows {
        let fields = listing(&rt, rt.alloc(), Form::Lines, octets);
        same_of(&rt, lines, fields.as_slice(), lines.as_bytes());
        let fields = listing(&rt, rt.alloc(), Form::Json, octets);
        same_of(&rt, json, fields.as_slice(), json.as_bytes());
    }
}

#[test]
fn gateway_and_pointer_of_errors(rt: HostRuntime) {
    let rows: &[(u8, u8, [u8; 4], &[u8])] = &[
        (
            5,
            1,
            [20, 51, 100, 254],
            b"  type=5 (redirect)\n  code=1 (host)\n  gateway=20.51.100.254\n",
        ),
        (
            12,
            0,
            [20, 51, 100, 254],
            b"  type=12 (parameter_problem)\n  code=0 (pointer_indicates_the_error)\n  pointer=20\n",
        ),
        (
            3,
            16,
            [20, 51, 100, 254],
            b"  type=3 (destination_unreachable)\n  code=16\n  next_hop_mtu=none\n",
        ),
        // A gateway that knows no RFC 1191 leaves the MTU zero.
        (
            3,
            4,
            [0, 0, 0, 0],
            b"  type=3 (destination_unreachable)\n  code=4 (fragmentation_needed)\n  next_hop_mtu=none\n",
        ),
    ];
    let mut octets = [0; 36];
    octets.copy_from_slice(TOO_LONG);
    for &(kind, code, rest, want) in rows {
        octets[0] = kind;
        octets[1] = code;
        octets[4..8].copy_from_slice(&rest);
        let fields = listing(&rt, rt.alloc(), Form::Lines, &octets);
        holds_of(&rt, (kind, code), fields.as_slice().starts_with(want));
    }
}

#[test]
fn ports_within_the_quoted_datagram(rt: HostRuntime) {
    // The total length of a datagram with a header of 24 bytes: one that is too small for it bounds nothing.
    let rows: &[(u8, &[u8])] = &[
        (28, b"  quoted_src_port=49153\n  quoted_dst_port=80\n"),
        (27, b"  quoted_src_port=none\n  quoted_dst_port=none\n"),
        (24, b"  quoted_src_port=none\n  quoted_dst_port=none\n"),
        (23, b"  quoted_src_port=49153\n  quoted_dst_port=80\n"),
        (0, b"  quoted_src_port=49153\n  quoted_dst_port=80\n"),
    ];
    let mut octets = [0; 40];
    octets.copy_from_slice(QUENCH);
    for &(total_len, want) in rows {
        octets[11] = total_len;
        let fields = listing(&rt, rt.alloc(), Form::Lines, &octets);
        let (front, _) = fields
            .as_slice()
            .split_at(fields.len().saturating_sub(QUENCH_END.len()));
        holds_of(&rt, total_len, front.ends_with(want));
    }
}

// What an error, whole or cut, prints behind its quote, of 128 bytes, where this follows it.
pub(crate) fn behind_quote(
    rt: &impl Abort,
    alloc: Global,
    is_whole: bool,
    length: u8,
    behind: &[u8],
    want: &str,
) {
    let mut octets = [0; 200];
    octets[..36].copy_from_slice(TOO_LONG);
    octets[0] = 11;
    octets[5] = length;
    let len = behind.len().min(64);
    octets[136..136 + len].copy_from_slice(&behind[..len]);
    let fields = listing_of(rt, alloc, Form::Lines, &octets[..136 + len], is_whole);
    holds_of(rt, want, fields.as_slice().ends_with(want.as_bytes()));
}

#[test]
fn extensions_behind_a_quote(rt: HostRuntime) {
    // Structures of no checksum (RFC 4884 section 7), with objects by RFC 4950 and RFC 5837.
    let rows: &[(u8, &[u8], &str)] = &[
        (
            32,
            &[
                0x20, 0, 0, 0, 0, 12, 1, 1, 0x03, 0xe8, 0x10, 1, 0xff, 0xff, 0xfb, 0xfe,
            ],
            "00\n  mpls_label=16001 traffic_class=0 bottom=false ttl=1\n  \
             mpls_label=1048575 traffic_class=5 bottom=true ttl=254\n",
        ),
        (
            32,
            &[
                0x20, 0, 0, 0, 0, 28, 2, 0x8f, 0, 0, 0, 3, 0, 1, 0, 0, 192, 0, 2, 1, 8, b'e', b't',
                b'h', b'"', 0, 0, 0, 0, 0, 5, 220,
            ],
            "00\n  interface_information=outgoing index=3 addr=192.0.2.1 name=eth\\\" mtu=1500\n",
        ),
        // The length of the name counts more zeros than it needs, and what is behind the MTU is no part.
        (
            32,
            &[
                0x20, 0, 0, 0, 0, 21, 2, 0xc3, 12, b'a', b'1', 0, 0, 0, 0, 0, 0, 0, 0, 0, 0, 0, 5,
                220, 255,
            ],
            "00\n  interface_information=next_hop index=none addr=none name=a1 mtu=1500 \
             additional_data=ff\n",
        ),
        (
            32,
            &[0x20, 0, 0, 0, 0, 6, 247, 9, 1, 2, 0, 4],
            "00\n  object_247=0102 c_type=9\n  object=0004 refused=the header of the object is cut\n",
        ),
        (
            32,
            &[0x20, 0, 0, 0, 0, 6, 1, 1, 1, 2],
            "00\n  mpls_label_stack=0102 c_type=1 refused=the stack of labels ends within an entry\n",
        ),
        (
            32,
            &[0x10, 0, 0, 0],
            "00\n  extensions_refused=the extensions are of version 1\n  extensions_octets=10000000\n",
        ),
        (
            32,
            &[0x20, 0, 0xdf, 0xff],
            "00\n  extensions_refused=the extensions have no object\n  extensions_octets=2000dfff\n",
        ),
        (
            33,
            &[],
            "00\n  extensions_refused=the original datagram is cut\n",
        ),
        (
            32,
            &[0x20, 0, 0x12, 0x34, 0, 6, 247, 9, 1, 2],
            "00\n  extensions_refused=the checksum of the extensions is wrong\n  \
             extensions_octets=200012340006f7090102\n",
        ),
    ];
    for &(length, behind, want) in rows {
        behind_quote(&rt, rt.alloc(), true, length, behind, want);
    }
}

#[test]
fn extensions_that_the_capture_cut(rt: HostRuntime) {
    // The checksum is that of octets of which some are lacking (RFC 4884 section 7).
    let rows: &[(u8, &[u8], &str)] = &[
        (
            32,
            &[0x20, 0, 0x12, 0x34, 0, 6, 247, 9, 1, 2],
            "00\n  object_247=0102 c_type=9\n",
        ),
        (
            32,
            &[0x20, 0, 0x12, 0x34, 0, 6, 247, 9, 1, 2, 0, 8, 247, 9, 3],
            "00\n  object_247=0102 c_type=9\n  object=0008f70903 refused=the object is cut\n",
        ),
        // The objects may be what is lacking.
        (32, &[0x20, 0, 0x12, 0x34], "00\n"),
        (
            32,
            &[0x10, 0, 0x12, 0x34, 0, 6],
            "00\n  extensions_refused=the extensions are of version 1\n  extensions_octets=100012340006\n",
        ),
        (
            32,
            &[0x20, 0, 0x12],
            "00\n  extensions_refused=the header of the extensions is cut\n  extensions_octets=200012\n",
        ),
        (
            33,
            &[0x20, 0, 0x12],
            "00200012\n  extensions_refused=the original datagram is cut\n",
        ),
    ];
    for &(length, behind, want) in rows {
        behind_quote(&rt, rt.alloc(), false, length, behind, want);
    }
}

#[test]
fn messages_of_other_types_by_their_octets(rt: HostRuntime) {
    let rows: &[(&[u8], &str)] = &[
        (
            &[15, 0, 0, 0, 0, 7, 0, 1, 0x01, 0x02, 0x03, 0x04],
            "  type=15 (information_request)\n  code=0\n  rest=0007000101020304\n",
        ),
        (&[253, 9, 0, 0], "  type=253\n  code=9\n  rest=-\n"),
        (&[3, 1, 0], "  rest=030100\n"),
    ];
    for &(octets, want) in rows {
        let mut output = Vec::new(rt.alloc());
        holds_of(
            &rt,
            octets,
            show_unread(&mut output, Form::Lines, octets, true).is_ok(),
        );
        same_of(&rt, want, output.as_slice(), want.as_bytes());
    }
}
