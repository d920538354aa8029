//! Packets as objects of JSON, messages whose checksum is wrong, and those that are cut.

use super::PRINTED;
use super::packets::{PACKETS, pcap};
use crate::testing::{holds_of, same_of};
use dump_captures::options::Options;
use dump_captures::run_onto;
use packet_fields::Form;
use std::alloc::Global;
use std::process::Abort;

// What packets print as objects of JSON, by their places in `PACKETS`; each is here the first of its capture.
const OBJECTS: &[(usize, &str)] = &[
    (
        0,
        "{\"number\":1,\"time\":\"2024-05-01T12:34:56.000000000Z\",\"link\":101,\"link_name\":\"RAW\",\
            \"length\":32,\"original_length\":32,\"vlans\":[],\"src_addr\":\"192.0.2.1\",\
            \"dst_addr\":\"192.0.2.53\",\"src_port\":null,\"dst_port\":null,\"kind\":\"icmp4\",\
            \"checksum\":\"good\",\"type\":8,\"type_name\":\"echo_request\",\"code\":0,\"ident\":4660,\
            \"seq_no\":1,\"data\":\"61626364\"}\n",
    ),
    (
        2,
        "{\"number\":1,\"time\":\"2024-05-01T12:34:56.000000000Z\",\"link\":101,\"link_name\":\"RAW\",\
            \"length\":92,\"original_length\":92,\"vlans\":[],\"src_addr\":\"fe80::1\",\
            \"dst_addr\":\"ff02::16\",\"src_port\":null,\"dst_port\":null,\"kind\":\"icmp6\",\
            \"hop_by_hop\":[{\"option\":\"router_alert\",\"value\":0,\"value_name\":\"mld\",\"type\":5},\
            {\"option\":\"padn\",\"data\":\"\",\"type\":1}],\"checksum\":\"good\",\"type\":130,\
            \"type_name\":\"multicast_listener_query\",\"code\":0,\"version\":2,\"max_resp_code\":1024,\
            \"max_resp_delay\":1024,\"mcast_addr\":\"ff02::1:ff00:1\",\"s_flag\":true,\"qrv\":2,\
            \"qqic\":18,\"querier_query_interval\":18000,\"sources\":[\"2001:db8::53\"]}\n",
    ),
    (
        4,
        "{\"number\":1,\"time\":\"2024-05-01T12:34:56.000000000Z\",\"link\":101,\"link_name\":\"RAW\",\
            \"length\":114,\"original_length\":114,\"vlans\":[],\"src_addr\":\"192.0.2.1\",\
            \"dst_addr\":\"224.0.0.251\",\"src_port\":5353,\"dst_port\":5353,\"kind\":\"mdns\",\
            \"checksum\":\"good\",\"transaction_id\":0,\"flags\":[\"qr\",\"aa\"],\"opcode\":0,\
            \"opcode_name\":\"QUERY\",\"rcode\":0,\"rcode_name\":\"NOERROR\",\
            \"entries\":[{\"section\":\"answer\",\"name\":\"printer.local.\",\"ttl\":120,\"class\":\"IN\",\
            \"type\":\"A\",\"data\":\"192.0.2.7\",\"cache_flush\":true},{\"section\":\"answer\",\
            \"name\":\"printer.local.\",\"ttl\":120,\"class\":\"IN\",\"type\":\"AAAA\",\
            \"data\":\"fe80::7\",\"cache_flush\":true},{\"section\":\"answer\",\"name\":\"printer.local.\",\
            \"ttl\":4500,\"class\":\"IN\",\"type\":\"TXT\",\"data\":\"\\\"a=b \\\"\"}]}\n",
    ),
    (
        5,
        "{\"number\":1,\"time\":\"2024-05-01T12:34:56.000000000Z\",\"link\":101,\"link_name\":\"RAW\",\
            \"length\":28,\"original_length\":28,\"vlans\":[],\"src_addr\":\"192.0.2.1\",\
            \"dst_addr\":\"224.0.0.251\",\"src_port\":null,\"dst_port\":null,\"kind\":\"igmp\",\
            \"checksum\":\"good\",\"type\":22,\"type_name\":\"membership_report_v2\",\"version\":2,\
            \"group_addr\":\"224.0.0.251\"}\n",
    ),
    (
        7,
        "{\"number\":1,\"time\":\"2024-05-01T12:34:56.000000000Z\",\"link\":101,\"link_name\":\"RAW\",\
            \"length\":104,\"original_length\":104,\"vlans\":[],\"src_addr\":\"fe80::1\",\
            \"dst_addr\":\"fe80::2\",\"src_port\":null,\"dst_port\":null,\"kind\":\"icmp6\",\
            \"checksum\":\"good\",\"type\":134,\"type_name\":\"router_advertisement\",\"code\":0,\
            \"hop_limit\":64,\"flags\":[\"managed\",\"other\"],\"preference\":0,\
            \"preference_name\":\"medium\",\"router_lifetime\":1800000,\"reachable_time\":1000,\
            \"retrans_time\":100,\"options\":[{\"option\":\"source_link_layer_address\",\
            \"addr\":\"02:00:00:00:00:01\",\"type\":1},{\"option\":\"mtu\",\"mtu\":1500,\"type\":5},\
            {\"option\":\"prefix_information\",\"prefix\":\"2001:db8::/64\",\"flags\":[\"on_link\",\
            \"autonomous\"],\"valid_lifetime\":900000,\"preferred_lifetime\":1000000,\"type\":3}]}\n",
    ),
    (
        10,
        "{\"number\":1,\"time\":\"2024-05-01T12:34:56.000000000Z\",\"link\":101,\"link_name\":\"RAW\",\
            \"length\":84,\"original_length\":84,\"vlans\":[],\"src_addr\":\"192.0.2.1\",\
            \"dst_addr\":\"192.0.2.53\",\"src_port\":40000,\"dst_port\":53,\"kind\":\"dns\",\
            \"checksum\":\"good\",\"transaction_id\":4660,\"flags\":[\"rd\"],\"opcode\":0,\
            \"opcode_name\":\"QUERY\",\"rcode\":0,\"rcode_name\":\"NOERROR\",\
            \"entries\":[{\"section\":\"question\",\"name\":\"example.com.\",\"class\":\"IN\",\
            \"type\":\"A\"},{\"section\":\"additional\",\"name\":\".\",\"type\":\"OPT\",\"udp_size\":1232,\
            \"extended_rcode\":0,\"version\":0,\"flags\":[\"do\"],\"options\":[\"cookie:0123456789abcdef\",\
            \"nsid:\"]}]}\n",
    ),
];

// Ends the test where a capture does not print this.
fn check(rt: &impl Abort, alloc: Global, options: &Options, packets: &[(&str, &str)], want: &str) {
    let capture = pcap(rt, alloc, packets);
    let mut output = Vec::new(alloc);
    let answer = run_onto(alloc, options, capture.as_slice(), &mut output);
    holds_of(rt, want, answer.is_ok());
    same_of(rt, want, output.as_slice(), want.as_bytes());
}

#[test]
fn packets_are_objects_of_json(rt: HostRuntime) {
    let options = Options {
        form: Form::Json,
        ..PRINTED
    };
    for (place, want) in OBJECTS {
        let packet = PACKETS.get(*place).copied().unwrap_or(("", ""));
        check(&rt, rt.alloc(), &options, &[packet], want);
    }
}

// What a message whose checksum is wrong prints where these are refused.
#[test]
fn wrong_checksums_are_refused_where_that_is_asked_for(rt: HostRuntime) {
    const WANT: &str = "1 2024-05-01T12:34:56.000000000Z 192.0.2.1:40000 > 192.0.2.53:53 dns\n\
        \x20 refused=the checksum does not hold\n";
    let options = Options {
        is_strict: true,
        ..PRINTED
    };
    check(&rt, rt.alloc(), &options, &PACKETS[3..4], WANT);
}

// An echo of which the last two octets are missing, by the total length of its datagram.
#[test]
fn messages_that_are_cut_print_what_is_there(rt: HostRuntime) {
    const CUT: &str = "45000020123440004001a472c0000201c000023508002104123400016162";
    const WANT: &str = "1 2024-05-01T12:34:56.000000000Z 192.0.2.1 > 192.0.2.53 icmp4\n\
        \x20 cut=2\n\
        \x20 type=8 (echo_request)\n\
        \x20 code=0\n\
        \x20 ident=4660\n\
        \x20 seq_no=1\n\
        \x20 data=6162\n";
    check(&rt, rt.alloc(), &PRINTED, &[(CUT, "")], WANT);
}
