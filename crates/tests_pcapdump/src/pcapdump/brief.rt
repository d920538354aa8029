//! Packets on a line, and which one answers which.

use super::PRINTED;
use super::packets::{PACKETS, append, pcap};
use crate::testing::{holds_of, same_of};
use dump_captures::options::Options;
use dump_captures::run_onto;
use packet_fields::Form;
use std::alloc::Global;
use std::process::Abort;

// What the packets of `PACKETS` print on a line each.
const LINES: &str = "\
1 12:34:56.000 192.0.2.1 > 192.0.2.53 icmp4 echo_request 4660 1 len=4\n\
3 12:34:58.000 fe80::1 > ff02::16 hbh icmp6 multicast_listener_query_v2 ff02::1:ff00:1\n\
4 12:34:59.000 192.0.2.1 > 192.0.2.53 checksum=bad dns 0?\n\
5 12:35:00.000 192.0.2.1 > 224.0.0.251 mdns 0 NOERROR A printer.local. = 192.0.2.7, +2\n\
6 12:35:01.000 192.0.2.1 > 224.0.0.251 igmp membership_report_v2 224.0.0.251\n\
7 12:35:02.000 192.0.2.1 > 255.255.255.255 dhcp offer 305419896 02:00:00:00:00:01 = 192.0.2.100 from 192.0.2.1 \
    lease=60s\n\
8 12:35:03.000 fe80::1 > fe80::2 icmp6 router_advertisement 1800s 2001:db8::/64\n\
9 12:35:04.000 192.0.2.1 > 192.0.2.53 icmp4 destination_unreachable fragmentation_needed mtu=1400 \
    quoted=192.0.2.1:40000>192.0.2.2:53 udp\n\
10 12:35:05.000 fe80::1 > fe80::2 icmp6 packet_too_big mtu=1280 quoted=[2001:db8::1]:40000>[2001:db8::53]:53 udp\n\
11 12:35:06.000 192.0.2.1 > 192.0.2.53 dns 4660? A example.com.\n\
13 12:35:08.000 192.0.2.1 > 192.0.2.53 dns 4660? A ...\n";

// Questions and answers, and what each prints on a line.
pub(super) const PAIRS: &[(&str, &str)] = &[
    // An echo request.
    (
        "45000020123440004001a472c0000201c0000235080021041234000161626364",
        "1 12:34:56.000 192.0.2.1 > 192.0.2.53 icmp4 echo_request 4660 1 len=4\n",
    ),
    // A question.
    (
        "4500003d123440004011a445c0000201c00002359c4000350029948c0007010000010000000000000377777707657861\
            6d706c6503636f6d0000010001",
        "2 12:34:57.000 192.0.2.1 > 192.0.2.53 dns 7? A www.example.com.\n",
    ),
    // Another one.
    (
        "4500003c123440004011a446c0000201c00002359c4100350028ff8f000801000001000000000000026e6f076578616d\
            706c6503636f6d00001c0001",
        "3 12:34:58.000 192.0.2.1 > 192.0.2.53 dns 8? AAAA no.example.com.\n",
    ),
    // The reply.
    (
        "45000020123440004001a472c0000235c0000201000029041234000161626364",
        "4 12:34:59.000 192.0.2.53 > 192.0.2.1 icmp4 echo_reply 4660 1 len=4 answers=1 after=3000.000ms\n",
    ),
    // The question again.
    (
        "4500003d123440004011a445c0000201c00002359c4000350029948c0007010000010000000000000377777707657861\
            6d706c6503636f6d0000010001",
        "5 12:35:00.000 192.0.2.1 > 192.0.2.53 dns 7? A www.example.com.\n",
    ),
    // Its answer.
    (
        "4500004d123440004011a435c0000235c000020100359c400039cd670007818000010001000000000377777707657861\
            6d706c6503636f6d0000010001c00c000100010000012c0004c0000207",
        "6 12:35:01.000 192.0.2.53 > 192.0.2.1 dns 7 NOERROR A www.example.com. = 192.0.2.7 answers=2 \
            after=4000.000ms\n",
    ),
    // The same answer once more.
    (
        "4500004d123440004011a435c0000235c000020100359c400039cd670007818000010001000000000377777707657861\
            6d706c6503636f6d0000010001c00c000100010000012c0004c0000207",
        "7 12:35:02.000 192.0.2.53 > 192.0.2.1 dns 7 NOERROR A www.example.com. = 192.0.2.7\n",
    ),
    // The other question again, which has no answer.
    (
        "4500003c123440004011a446c0000201c00002359c4100350028ff8f000801000001000000000000026e6f076578616d\
            706c6503636f6d00001c0001",
        "8 12:35:03.000 192.0.2.1 > 192.0.2.53 dns 8? AAAA no.example.com.\n",
    ),
    // An echo request that has none.
    (
        "4500001c123440004001a476c0000201c00002350800e5c912340002",
        "9 12:35:04.000 192.0.2.1 > 192.0.2.53 icmp4 echo_request 4660 2 len=0\n",
    ),
];

// What is printed behind them, on lines, at length and in JSON.
const UNANSWERED_IN_BRIEF: &str = "\
    unanswered question=3 kind=dns src_addr=192.0.2.1 dst_addr=192.0.2.53 name=no.example.com. type=AAAA tries=2\n\
    unanswered question=9 kind=echo src_addr=192.0.2.1 dst_addr=192.0.2.53 ident=4660 seq_no=2 tries=1\n";

const UNANSWERED: &str = "\
    unanswered\n\
    \x20 question=3\n\
    \x20 kind=dns\n\
    \x20 src_addr=192.0.2.1\n\
    \x20 dst_addr=192.0.2.53\n\
    \x20 name=no.example.com.\n\
    \x20 type=AAAA\n\
    \x20 tries=2\n\
    unanswered\n\
    \x20 question=9\n\
    \x20 kind=echo\n\
    \x20 src_addr=192.0.2.1\n\
    \x20 dst_addr=192.0.2.53\n\
    \x20 ident=4660\n\
    \x20 seq_no=2\n\
    \x20 tries=1\n";

const UNANSWERED_IN_JSON: &str = "\
    {\"summary\":\"unanswered\",\"question\":3,\"kind\":\"dns\",\"src_addr\":\"192.0.2.1\",\
    \"dst_addr\":\"192.0.2.53\",\"name\":\"no.example.com.\",\"type\":\"AAAA\",\"tries\":2}\n\
    {\"summary\":\"unanswered\",\"question\":9,\"kind\":\"echo\",\"src_addr\":\"192.0.2.1\",\
    \"dst_addr\":\"192.0.2.53\",\"ident\":4660,\"seq_no\":2,\"tries\":1}\n";

// What a capture prints with these options.
pub(super) fn check(
    rt: &impl Abort,
    alloc: Global,
    options: &Options,
    packets: &[(&str, &str)],
    want: &[u8],
) {
    let capture = pcap(rt, alloc, packets);
    let mut output = Vec::new(alloc);
    let answer = run_onto(alloc, options, capture.as_slice(), &mut output);
    holds_of(rt, options.pairs, answer.is_ok());
    same_of(rt, options.pairs, output.as_slice(), want);
}

#[test]
fn packets_on_a_line(rt: HostRuntime) {
    let options = Options {
        is_brief: true,
        ..PRINTED
    };
    check(&rt, rt.alloc(), &options, PACKETS, LINES.as_bytes());
}

#[test]
fn questions_and_answers(rt: HostRuntime) {
    let alloc = rt.alloc();
    let options = Options {
        is_brief: true,
        pairs: true,
        ..PRINTED
    };
    let mut want = Vec::new(alloc);
    for (_, line) in PAIRS {
        append(&rt, &mut want, line.as_bytes());
    }
    append(&rt, &mut want, UNANSWERED_IN_BRIEF.as_bytes());
    check(&rt, alloc, &options, PAIRS, want.as_slice());
}

// The ends of what is printed at length.
#[test]
fn questions_without_an_answer(rt: HostRuntime) {
    let alloc = rt.alloc();
    let rows = [(Form::Lines, UNANSWERED), (Form::Json, UNANSWERED_IN_JSON)];
    for (form, end) in &rows {
        let options = Options {
            form: *form,
            pairs: true,
            ..PRINTED
        };
        let capture = pcap(&rt, alloc, PAIRS);
        let mut output = Vec::new(alloc);
        let answer = run_onto(alloc, &options, capture.as_slice(), &mut output);
        holds_of(&rt, end, answer.is_ok());
        holds_of(&rt, end, output.as_slice().ends_with(end.as_bytes()));
    }
}
