//! Messages of neighbor discovery, and options of hop-by-hop headers.

use crate::printed::{Kind, ends_with_line, lines_are, members_are};

// The messages up to `NONCE` are of the capture tests/captures/real/groups.pcap, with what tshark says of them.
const ADVERTISEMENT: &[u8] = &[
    0x86, 0x00, 0x78, 0x1c, 0x40, 0x08, 0x04, 0xb0, 0x00, 0x00, 0x00, 0x00, 0x00, 0x00, 0x00, 0x00,
    0x03, 0x04, 0x40, 0xc0, 0x00, 0x00, 0x0e, 0x10, 0x00, 0x00, 0x0e, 0x10, 0x00, 0x00, 0x00, 0x00,
    0x20, 0x01, 0x0d, 0xb8, 0x00, 0x01, 0x00, 0x00, 0x00, 0x00, 0x00, 0x00, 0x00, 0x00, 0x00, 0x00,
    0x05, 0x01, 0x00, 0x00, 0x00, 0x00, 0x05, 0xdc, 0x01, 0x01, 0x02, 0x00, 0x00, 0x00, 0x00, 0x01,
    0x19, 0x03, 0x00, 0x00, 0x00, 0x00, 0x0e, 0x10, 0xfe, 0x80, 0x00, 0x00, 0x00, 0x00, 0x00, 0x00,
    0x00, 0x00, 0x00, 0xff, 0xfe, 0x00, 0x00, 0x01,
];

const ADVERTISEMENT_LINES: &str = "  type=134 (router_advertisement)
  code=0
  hop_limit=64
  flags=-
  preference=1 (high)
  router_lifetime=1200s
  reachable_time=0s
  retrans_time=0s
  prefix_information=2001:db8:1::/64 flags=on_link,autonomous valid_lifetime=3600s \
    preferred_lifetime=3600s
  mtu=1500
  source_link_layer_address=02:00:00:00:00:01
  recursive_dns_server=fe80::ff:fe00:1 lifetime=3600s
";

const ADVERTISEMENT_JSON: &str =
    ",\"type\":134,\"type_name\":\"router_advertisement\",\"code\":0,\"hop_limit\":64,\
    \"flags\":[],\"preference\":1,\"preference_name\":\"high\",\"router_lifetime\":1200000,\"reachable_time\":0,\
    \"retrans_time\":0,\"options\":[{\"option\":\"prefix_information\",\"prefix\":\"2001:db8:1::/64\",\
    \"flags\":[\"on_link\",\"autonomous\"],\"valid_lifetime\":3600000,\"preferred_lifetime\":3600000,\
    \"type\":3},{\"option\":\"mtu\",\"mtu\":1500,\"type\":5},\
    {\"option\":\"source_link_layer_address\",\"addr\":\"02:00:00:00:00:01\",\"type\":1},\
    {\"option\":\"recursive_dns_server\",\"servers\":[\"fe80::ff:fe00:1\"],\"lifetime\":3600000,\
    \"type\":25}]";

const SOLICITATION: &[u8] = &[
    0x87, 0x00, 0x7d, 0x11, 0x00, 0x00, 0x00, 0x00, 0xfe, 0x80, 0x00, 0x00, 0x00, 0x00, 0x00, 0x00,
    0x00, 0x00, 0x00, 0xff, 0xfe, 0x00, 0x00, 0x07, 0x01, 0x01, 0x02, 0x00, 0x00, 0x00, 0x00, 0x01,
];

const SOLICITATION_LINES: &str = "  type=135 (neighbor_solicitation)
  code=0
  target_addr=fe80::ff:fe00:7
  source_link_layer_address=02:00:00:00:00:01
";

const REPLY: &[u8] = &[
    0x88, 0x00, 0x3f, 0x1b, 0x40, 0x00, 0x00, 0x00, 0xfe, 0x80, 0x00, 0x00, 0x00, 0x00, 0x00, 0x00,
    0x00, 0x00, 0x00, 0xff, 0xfe, 0x00, 0x00, 0x07,
];

const REPLY_LINES: &str = "  type=136 (neighbor_advertisement)
  code=0
  flags=solicited
  target_addr=fe80::ff:fe00:7
";

const REPLY_JSON: &str =
    ",\"type\":136,\"type_name\":\"neighbor_advertisement\",\"code\":0,\"flags\":[\"solicited\"],\
    \"target_addr\":\"fe80::ff:fe00:7\",\"options\":[]";

const NONCE: &[u8] = &[
    0x87, 0x00, 0xf6, 0x27, 0x00, 0x00, 0x00, 0x00, 0x20, 0x01, 0x0d, 0xb8, 0x00, 0x01, 0x00, 0x00,
    0x00, 0x00, 0x00, 0xff, 0xfe, 0x00, 0x00, 0x07, 0x0e, 0x01, 0xd1, 0x9f, 0x4f, 0x85, 0x28, 0x8a,
];

const NONCE_LINES: &str = "  type=135 (neighbor_solicitation)
  code=0
  target_addr=2001:db8:1::ff:fe00:7
  nonce=d19f4f85288a
";

// RFC 4861 sections 4.5 and 4.6.3: a better first hop, its link-layer address, and the echo request that was
// redirected.
const REDIRECT: &[u8] = &[
    0x89, 0x00, 0x00, 0x00, 0x00, 0x00, 0x00, 0x00, 0xfe, 0x80, 0x00, 0x00, 0x00, 0x00, 0x00, 0x00,
    0x00, 0x00, 0x00, 0xff, 0xfe, 0x00, 0x00, 0x01, 0x20, 0x01, 0x0d, 0xb8, 0x00, 0x01, 0x00, 0x00,
    0x00, 0x00, 0x00, 0x00, 0x00, 0x00, 0x00, 0x05, 0x02, 0x01, 0x02, 0x00, 0x00, 0x00, 0x00, 0x01,
    0x04, 0x07, 0x00, 0x00, 0x00, 0x00, 0x00, 0x00, 0x6c, 0x00, 0x00, 0x00, 0x00, 0x08, 0x3a, 0x40,
    0x20, 0x01, 0x0d, 0xb8, 0x00, 0x00, 0x00, 0x00, 0x00, 0x00, 0x00, 0x00, 0x00, 0x00, 0x00, 0x07,
    0x20, 0x01, 0x0d, 0xb8, 0x00, 0x01, 0x00, 0x00, 0x00, 0x00, 0x00, 0x00, 0x00, 0x00, 0x00, 0x05,
    0x80, 0x00, 0xab, 0xcd, 0x12, 0x34, 0x00, 0x01,
];

const REDIRECT_LINES: &str = "  type=137 (redirect)
  code=0
  target_addr=fe80::ff:fe00:1
  dest_addr=2001:db8:1::5
  target_link_layer_address=02:00:00:00:00:01
  redirected_header=2001:db8::7 quoted_dst_addr=2001:db8:1::5 quoted_next_header=58 \
    quoted_hop_limit=64 quoted_payload_len=8 quoted_payload=8000abcd12340001
";

const REDIRECT_JSON: &str =
    ",\"type\":137,\"type_name\":\"redirect\",\"code\":0,\"target_addr\":\"fe80::ff:fe00:1\",\
    \"dest_addr\":\"2001:db8:1::5\",\"options\":[\
    {\"option\":\"target_link_layer_address\",\"addr\":\"02:00:00:00:00:01\",\"type\":2},\
    {\"option\":\"redirected_header\",\"quoted_src_addr\":\"2001:db8::7\",\
    \"quoted_dst_addr\":\"2001:db8:1::5\",\"quoted_next_header\":58,\"quoted_hop_limit\":64,\
    \"quoted_payload_len\":8,\"quoted_payload\":\"8000abcd12340001\",\"type\":4}]";

#[test]
fn messages_of_neighbor_discovery(rt: HostRuntime) {
    let rows: &[(&[u8], &str)] = &[
        (ADVERTISEMENT, ADVERTISEMENT_LINES),
        (SOLICITATION, SOLICITATION_LINES),
        (REPLY, REPLY_LINES),
        (NONCE, NONCE_LINES),
        (REDIRECT, REDIRECT_LINES),
    ];
    for &(octets, lines) in rows {
        lines_are(&rt, rt.alloc(), Kind::Ndisc, octets, lines);
    }
    members_are(
        &rt,
        rt.alloc(),
        Kind::Ndisc,
        ADVERTISEMENT,
        ADVERTISEMENT_JSON,
    );
    members_are(&rt, rt.alloc(), Kind::Ndisc, REPLY, REPLY_JSON);
    members_are(&rt, rt.alloc(), Kind::Ndisc, REDIRECT, REDIRECT_JSON);
}

// RFC 4861 section 4.2, RFC 4191 section 2.1, RFC 6275 section 7.1, RFC 4389 section 4.1.3.3.
#[test]
fn flags_and_preference_of_a_router(rt: HostRuntime) {
    let rows: &[(u8, &str)] = &[
        (
            0xc0,
            "  flags=managed,other
  preference=0 (medium)
  router_lifetime=30s
  reachable_time=30s
  retrans_time=0.001s
",
        ),
        (
            0x3c,
            "  flags=home_agent,proxy
  preference=3 (low)
  router_lifetime=30s
  reachable_time=30s
  retrans_time=0.001s
",
        ),
        (
            0x13,
            "  flags=0x02,0x01
  preference=2 (reserved)
  router_lifetime=30s
  reachable_time=30s
  retrans_time=0.001s
",
        ),
    ];
    let mut octets = [0; 16];
    octets[0] = 134;
    octets[4] = 255;
    octets[7] = 30;
    octets[10] = 0x75;
    octets[11] = 0x30;
    octets[15] = 1;
    for &(flags, want) in rows {
        octets[5] = flags;
        ends_with_line(&rt, rt.alloc(), Kind::Ndisc, &octets, want);
    }
}

// Behind a solicitation of routers: options that are printed by their octets, and refused ones.
#[test]
fn options_by_their_octets(rt: HostRuntime) {
    let rows: &[(&[u8; 8], &str)] = &[
        (
            &[7, 1, 0, 0, 0, 0, 3, 232],
            "  advertisement_interval=0000000003e8\n",
        ),
        (
            &[26, 1, 128, 0, 0, 0, 0, 0],
            "  ra_flags_extension=800000000000\n",
        ),
        (&[200, 1, 1, 2, 3, 4, 5, 6], "  option_200=010203040506\n"),
        (
            &[3, 1, 64, 192, 0, 0, 0, 0],
            "  prefix_information=40c000000000 refused=not 32 bytes\n",
        ),
        (
            &[4, 1, 0, 0, 0, 0, 0, 0],
            "  redirected_header=000000000000 refused=fewer than 48 bytes\n",
        ),
        (
            &[25, 3, 0, 0, 0, 0, 0, 60],
            "  recursive_dns_server=00000000003c refused=fewer bytes than the option counts\n",
        ),
        (
            &[14, 0, 1, 2, 3, 4, 5, 6],
            "  nonce=010203040506 refused=a length of 0\n",
        ),
    ];
    let mut octets = [0; 16];
    octets[0] = 133;
    for &(option, line) in rows {
        octets[8..].copy_from_slice(option);
        ends_with_line(&rt, rt.alloc(), Kind::Ndisc, &octets, line);
    }
}

// A prefix has at most the 128 bits of an address (RFC 4861 section 4.6.2).
#[test]
fn longest_prefix(rt: HostRuntime) {
    let rows: &[(u8, &str)] = &[
        (
            128,
            "  prefix_information=2001:db8::/128 flags=on_link valid_lifetime=1s preferred_lifetime=0s\n",
        ),
        (
            129,
            "  prefix_information=81800000000100000000\
                0000000020010db8000000000000000000000000 refused=too many bits for the prefix\n",
        ),
        (
            255,
            "  prefix_information=ff800000000100000000\
                0000000020010db8000000000000000000000000 refused=too many bits for the prefix\n",
        ),
    ];
    let mut octets = [
        133, 0, 0, 0, 0, 0, 0, 0, 3, 4, 0, 0x80, 0, 0, 0, 1, 0, 0, 0, 0, 0, 0, 0, 0, 0x20, 0x01,
        0x0d, 0xb8, 0, 0, 0, 0, 0, 0, 0, 0, 0, 0, 0, 0,
    ];
    for &(len, line) in rows {
        octets[10] = len;
        ends_with_line(&rt, rt.alloc(), Kind::Ndisc, &octets, line);
    }
}

// A redirected header is of IPv6 (RFC 4861 section 4.6.3); one of version 4 is none.
#[test]
fn redirected_header_of_another_version(rt: HostRuntime) {
    let mut octets = [0; 104];
    octets.copy_from_slice(REDIRECT);
    octets[56] = 0x45;
    let line = "  redirected_header=00000000000045000000000\
        83a4020010db800000000000000000000000720010db80001000000000000000000058000abcd12340001 \
        refused=not of version 6\n";
    ends_with_line(&rt, rt.alloc(), Kind::Ndisc, &octets, line);
}

#[test]
fn messages_that_are_cut(rt: HostRuntime) {
    let rows: &[(&[u8], &str)] = &[
        (
            &[135, 0],
            "  data=8700\n  refused=fewer bytes than the fields take\n",
        ),
        (
            &[133, 0, 0, 0, 0, 0],
            "  type=133 (router_solicitation)
  code=0
  data=0000
  refused=fewer bytes than the fields take
",
        ),
        (
            &[133, 0, 0, 0, 0, 0, 0, 0, 1],
            "  type=133 (router_solicitation)
  code=0
  source_link_layer_address=- refused=no length
",
        ),
        (
            &[
                5, 0, 0, 0, 0, 0, 0, 0, 5, 2, 0, 0, 0, 0, 5, 220, 0, 0, 0, 0, 0, 0, 0, 0,
            ],
            "  type=5\n  code=0\n  mtu=0000000005dc0000000000000000 refused=not 8 bytes\n",
        ),
    ];
    for &(octets, lines) in rows {
        lines_are(&rt, rt.alloc(), Kind::Ndisc, octets, lines);
    }
}

// RFC 8200 section 4.2, RFC 2711 section 2.1, RFC 2675 section 2: a Pad1, a router alert for MLD, a jumbogram's length,
// an alert of one byte, and a type without a length.
#[test]
fn options_of_a_hop_by_hop_header(rt: HostRuntime) {
    let octets = &[
        0x00, 0x05, 0x02, 0x00, 0x00, 0xc2, 0x04, 0x00, 0x01, 0x00, 0x00, 0x05, 0x01, 0x00, 0x1e,
    ];
    let lines = "  pad1=-
  router_alert=0 value_name=mld
  jumbo_payload=65536
  router_alert=00 refused=not 2 bytes
  option_30=- refused=no length
";
    let json = ",\"hop_by_hop\":[{\"option\":\"pad1\",\"data\":\"\",\"type\":0},\
        {\"option\":\"router_alert\",\"value\":0,\"value_name\":\"mld\",\"type\":5},\
        {\"option\":\"jumbo_payload\",\"jumbo_payload_len\":65536,\"type\":194},\
        {\"option\":\"router_alert\",\"data\":\"00\",\"refused\":\"not 2 bytes\",\"type\":5},\
        {\"option\":\"option_30\",\"data\":\"\",\"refused\":\"no length\",\"type\":30}]";
    lines_are(&rt, rt.alloc(), Kind::HopByHop, octets, lines);
    members_are(&rt, rt.alloc(), Kind::HopByHop, octets, json);
}

// The options of the header of a report in tests/captures/real/groups.pcap.
#[test]
fn router_alert_and_padding_of_a_report(rt: HostRuntime) {
    let octets = &[0x05, 0x02, 0x00, 0x00, 0x01, 0x00];
    let lines = "  router_alert=0 value_name=mld\n  padn=-\n";
    lines_are(&rt, rt.alloc(), Kind::HopByHop, octets, lines);
}
