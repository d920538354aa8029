//! The page of statistics, and colors.

use super::PRINTED;
use super::brief::{PAIRS, check};
use super::packets::PACKETS;
use dump_captures::options::{Color, Options};
use packet_fields::Form;

// Two questions that are asked twice each, of which one has an answer, which comes twice.
const PAGE: &str = "\
    statistics\n\
    \x20 question=no.example.com. type=AAAA count=2\n\
    \x20 question=www.example.com. type=A count=2\n\
    \x20 rcode=NOERROR count=2\n\
    \x20 server=192.0.2.53 count=2 times=1 median=4000.000ms percentile_99=4000.000ms\n";

const PAGE_IN_JSON: &str = "\
    {\"summary\":\"statistics\",\
    \"questions\":[{\"kind\":\"question\",\"name\":\"no.example.com.\",\"type\":\"AAAA\",\"count\":2},\
    {\"kind\":\"question\",\"name\":\"www.example.com.\",\"type\":\"A\",\"count\":2}],\
    \"rcodes\":[{\"kind\":\"rcode\",\"rcode\":\"NOERROR\",\"count\":2}],\
    \"servers\":[{\"kind\":\"server\",\"addr\":\"192.0.2.53\",\"count\":2,\"times\":1,\
    \"median_ns\":4000000000,\"percentile_99_ns\":4000000000}],\
    \"clients\":[],\"leases\":[],\"members\":[],\"sources\":[],\"neighbors\":[],\"routers\":[],\
    \"prefixes\":[]}\n";

#[test]
fn statistics_in_the_place_of_packets(rt: HostRuntime) {
    let rows = [(Form::Lines, PAGE), (Form::Json, PAGE_IN_JSON)];
    for (form, page) in &rows {
        let options = Options {
            form: *form,
            stats: true,
            ..PRINTED
        };
        check(&rt, rt.alloc(), &options, PAIRS, page.as_bytes());
    }
}

// Where packets are only counted, nothing is printed of them.
#[test]
fn counts_without_statistics(rt: HostRuntime) {
    let options = Options {
        prints: false,
        stats: true,
        ..PRINTED
    };
    check(&rt, rt.alloc(), &options, PAIRS, b"");
}

#[test]
fn headings_in_bold_type(rt: HostRuntime) {
    let options = Options {
        color: Color::Always,
        most: Some(1),
        ..PRINTED
    };
    let want = "\
        \x1b[1m1 2024-05-01T12:34:56.000000000Z 192.0.2.1 > 192.0.2.53 icmp4\x1b[0m\n\
        \x20 type=8 (echo_request)\n\
        \x20 code=0\n\
        \x20 ident=4660\n\
        \x20 seq_no=1\n\
        \x20 data=61626364\n";
    check(&rt, rt.alloc(), &options, PACKETS, want.as_bytes());
}

// A packet whose checksum is wrong, and one without fault.
#[test]
fn red_lines(rt: HostRuntime) {
    let options = Options {
        color: Color::Always,
        is_brief: true,
        ..PRINTED
    };
    let want = "\
        \x1b[31m1 12:34:56.000 192.0.2.1 > 192.0.2.53 checksum=bad dns 0?\x1b[0m\n\
        2 12:34:57.000 192.0.2.1 > 224.0.0.251 mdns 0 NOERROR A printer.local. = 192.0.2.7, +2\n";
    check(&rt, rt.alloc(), &options, &PACKETS[3..5], want.as_bytes());
}
