//! Packets of a lease that was captured (tests/captures/real/lease.pcap), with what tshark reads in them.

use crate::testing::{joined, prints};
use packet_fields::Form;

// Frame 5: udhcpc looks for servers.
const DISCOVER_FIXED: &[u8] = &[
    0x01, 0x01, 0x06, 0x00, 0x27, 0x80, 0xbd, 0x05, 0x00, 0x00, 0x00, 0x00, 0x00, 0x00, 0x00, 0x00,
    0x00, 0x00, 0x00, 0x00, 0x00, 0x00, 0x00, 0x00, 0x00, 0x00, 0x00, 0x00, 0x02, 0x00, 0x00, 0x00,
    0x00, 0x07,
];

const DISCOVER_OPTIONS: &[u8] = b"\x35\x01\x01\x39\x02\x02\x40\x37\x07\x01\x03\x06\x0c\x0f\x1c\x2a\
    \x0c\x04host\x3c\x0cudhcp 1.35.0\x3d\x07\x01\x02\x00\x00\x00\x00\x07\xff\
    \x00\x00\x00\x00\x00\x00\x00\x00\x00\x00\x00\x00\x00\x00";

const DISCOVER_LINES: &str = "  op=1 (bootrequest)
  htype=1 (ethernet)
  hlen=6
  hops=0
  transaction_id=662748421
  secs=0s
  flags=-
  client_ip=0.0.0.0
  your_ip=0.0.0.0
  server_ip=0.0.0.0
  relay_agent_ip=0.0.0.0
  client_hardware_address=02:00:00:00:00:07
  message_type=1 discover
  max_message_size=576
  parameter_request_list=1,3,6,12,15,28,42
  host_name=host
  vendor_class_identifier=udhcp 1.35.0
  client_identifier=01020000000007
";

const DISCOVER_JSON: &str =
    ",\"op\":1,\"op_name\":\"bootrequest\",\"htype\":1,\"htype_name\":\"ethernet\",\
    \"hlen\":6,\"hops\":0,\"transaction_id\":662748421,\"secs\":0,\"flags\":[],\
    \"client_ip\":\"0.0.0.0\",\"your_ip\":\"0.0.0.0\",\"server_ip\":\"0.0.0.0\",\
    \"relay_agent_ip\":\"0.0.0.0\",\"client_hardware_address\":\"02:00:00:00:00:07\",\"options\":[\
    {\"option\":\"message_type\",\"value\":1,\"value_name\":\"discover\",\"type\":53},\
    {\"option\":\"max_message_size\",\"value\":576,\"type\":57},\
    {\"option\":\"parameter_request_list\",\"value\":[1,3,6,12,15,28,42],\"type\":55},\
    {\"option\":\"host_name\",\"value\":\"host\",\"type\":12},\
    {\"option\":\"vendor_class_identifier\",\"value\":\"udhcp 1.35.0\",\"type\":60},\
    {\"option\":\"client_identifier\",\"value\":\"01020000000007\",\"type\":61}]";

// Frame 34: dnsmasq offers an address, with two routers and six servers.
const OFFER_FIXED: &[u8] = &[
    0x02, 0x01, 0x06, 0x00, 0x5d, 0xf6, 0xa0, 0x5b, 0x00, 0x00, 0x80, 0x00, 0x00, 0x00, 0x00, 0x00,
    0xc0, 0x00, 0x02, 0x33, 0xc0, 0x00, 0x02, 0x01, 0x00, 0x00, 0x00, 0x00, 0x02, 0x00, 0x00, 0x00,
    0x00, 0x07,
];

const OFFER_OPTIONS: &[u8] = b"\x35\x01\x02\x36\x04\xc0\x00\x02\x01\x33\x04\x00\x00\x0e\x10\
    \x3a\x04\x00\x00\x07\x08\x3b\x04\x00\x00\x0c\x4e\x01\x04\xff\xff\xff\x00\x1c\x04\xc0\x00\x02\xff\
    \x06\x18\xc0\x00\x02\x01\xc0\x00\x02\x02\xc0\x00\x02\x03\xc0\x00\x02\x04\xc0\x00\x02\x05\xc0\x00\x02\x06\
    \x03\x08\xc0\x00\x02\x01\xc0\x00\x02\x09\x2a\x04\xc0\x00\x02\x03\xff";

const OFFER_LINES: &str = "  op=2 (bootreply)
  htype=1 (ethernet)
  hlen=6
  hops=0
  transaction_id=1576443995
  secs=0s
  flags=broadcast
  client_ip=0.0.0.0
  your_ip=192.0.2.51
  server_ip=192.0.2.1
  relay_agent_ip=0.0.0.0
  client_hardware_address=02:00:00:00:00:07
  message_type=2 offer
  server_identifier=192.0.2.1
  lease_time=3600s
  renewal_time=1800s
  rebinding_time=3150s
  subnet_mask=255.255.255.0
  broadcast_address=192.0.2.255
  domain_name_server=192.0.2.1,192.0.2.2,192.0.2.3,192.0.2.4,192.0.2.5,192.0.2.6
  router=192.0.2.1,192.0.2.9
  ntp_servers=192.0.2.3
";

const OFFER_JSON: &str =
    ",\"op\":2,\"op_name\":\"bootreply\",\"htype\":1,\"htype_name\":\"ethernet\",\
    \"hlen\":6,\"hops\":0,\"transaction_id\":1576443995,\"secs\":0,\"flags\":[\"broadcast\"],\
    \"client_ip\":\"0.0.0.0\",\"your_ip\":\"192.0.2.51\",\"server_ip\":\"192.0.2.1\",\
    \"relay_agent_ip\":\"0.0.0.0\",\"client_hardware_address\":\"02:00:00:00:00:07\",\"options\":[\
    {\"option\":\"message_type\",\"value\":2,\"value_name\":\"offer\",\"type\":53},\
    {\"option\":\"server_identifier\",\"value\":\"192.0.2.1\",\"type\":54},\
    {\"option\":\"lease_time\",\"value\":3600000,\"type\":51},\
    {\"option\":\"renewal_time\",\"value\":1800000,\"type\":58},\
    {\"option\":\"rebinding_time\",\"value\":3150000,\"type\":59},\
    {\"option\":\"subnet_mask\",\"value\":\"255.255.255.0\",\"type\":1},\
    {\"option\":\"broadcast_address\",\"value\":\"192.0.2.255\",\"type\":28},\
    {\"option\":\"domain_name_server\",\"value\":[\"192.0.2.1\",\"192.0.2.2\",\"192.0.2.3\",\
    \"192.0.2.4\",\"192.0.2.5\",\"192.0.2.6\"],\"type\":6},\
    {\"option\":\"router\",\"value\":[\"192.0.2.1\",\"192.0.2.9\"],\"type\":3},\
    {\"option\":\"ntp_servers\",\"value\":[\"192.0.2.3\"],\"type\":42}]";

#[test]
fn a_lease_in_lines_and_in_json(rt: HostRuntime) {
    let rows: &[(&[u8], &[u8], &str, &str)] = &[
        (
            DISCOVER_FIXED,
            DISCOVER_OPTIONS,
            DISCOVER_LINES,
            DISCOVER_JSON,
        ),
        (OFFER_FIXED, OFFER_OPTIONS, OFFER_LINES, OFFER_JSON),
    ];
    for &(fixed, options, lines, json) in rows {
        let parts: &[&[u8]] = &[fixed, &[0; 202], b"\x63\x82\x53\x63", options];
        let octets = joined(&rt, rt.alloc(), parts);
        let octets = octets.as_slice();
        prints(&rt, rt.alloc(), Form::Lines, octets, lines.as_bytes(), None);
        prints(&rt, rt.alloc(), Form::Json, octets, json.as_bytes(), None);
    }
}
