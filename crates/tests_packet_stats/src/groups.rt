// Groups, their members and sources.

use crate::captured::{
    LEAVE_V2, LEAVE_V3, LISTENER_BLOCKS, LISTENER_V1, LISTENER_V2, REPORT_V2, REPORT_V3,
    ROUTER_GROUPS,
};
use crate::made::{counts, front, host6, put, router6, shows, to_host, to_server};
use message_fields::Message;
use packet_fields::Form;
use packet_stats::Stats;
use wirebase::{IPV6_LINK_LOCAL_ALL_NODES, Ipv6Address};

fn listener(source: Ipv6Address, octets: &[u8]) -> Message<'_> {
    Message::Icmp6(source, IPV6_LINK_LOCAL_ALL_NODES, octets)
}

// Reports of each version; what leaves a group or blocks a source says nothing.
#[test]
fn captured_reports(rt: HostRuntime) {
    let mut stats = Stats::new(rt.alloc());
    for octets in [REPORT_V3, LEAVE_V3, LEAVE_V2, REPORT_V2] {
        let message = Message::Igmp(octets);
        counts(&rt, rt.alloc(), &mut stats, &message, &to_server(), None);
    }
    let message = Message::Igmp(REPORT_V2);
    counts(&rt, rt.alloc(), &mut stats, &message, &to_host(), None);
    for octets in [LISTENER_V1, LISTENER_V2, LISTENER_BLOCKS] {
        let message = listener(host6(), octets);
        counts(&rt, rt.alloc(), &mut stats, &message, &to_server(), None);
    }
    shows(
        &rt,
        rt.alloc(),
        Form::Lines,
        &mut stats,
        "  group=239.1.2.3 member=192.0.2.1 count=1\n  group=239.1.2.3 member=192.0.2.50 count=2\n  \
        group=ff15::1:3 member=fe80::ff:fe00:7 count=2\n  \
        group=ff15::1:3 member=fe80::ff:fe00:7 source=2001:db8::5 count=1\n",
    );
}

// Five records, of which the last is cut.
#[test]
fn record_that_is_cut(rt: HostRuntime) {
    let mut stats = Stats::new(rt.alloc());
    let message = listener(router6(), &ROUTER_GROUPS[..107]);
    counts(&rt, rt.alloc(), &mut stats, &message, &to_server(), None);
    shows(
        &rt,
        rt.alloc(),
        Form::Json,
        &mut stats,
        ",\"questions\":[],\"rcodes\":[],\"servers\":[],\"clients\":[],\"leases\":[],\"members\":[\
        {\"kind\":\"group\",\"addr\":\"ff02::6a\",\"member\":\"fe80::ff:fe00:1\",\"count\":1},\
        {\"kind\":\"group\",\"addr\":\"ff02::1:ff00:0\",\"member\":\"fe80::ff:fe00:1\",\"count\":1},\
        {\"kind\":\"group\",\"addr\":\"ff02::1:ff00:1\",\"member\":\"fe80::ff:fe00:1\",\"count\":1},\
        {\"kind\":\"group\",\"addr\":\"ff05::2\",\"member\":\"fe80::ff:fe00:1\",\"count\":1}],\
        \"sources\":[],\"neighbors\":[],\"routers\":[],\"prefixes\":[]",
    );
}

// Records by their type, with a source and without (RFC 3376 section 4.2.12): what blocks a source says nothing.
#[test]
fn records_by_their_type(rt: HostRuntime) {
    let mut stats = Stats::new(rt.alloc());
    for kind in 1..=6u8 {
        for sources in 0..=1u8 {
            let mut report = [0; 20];
            put(&mut report, 0, REPORT_V3);
            put(
                &mut report,
                8,
                &[kind, 0, 0, sources, 239, 0, kind, sources],
            );
            put(&mut report, 16, &[192, 0, 2, 9]);
            let len = if sources == 0 { 16 } else { 20 };
            let message = Message::Igmp(front(&report, len));
            counts(&rt, rt.alloc(), &mut stats, &message, &to_server(), None);
        }
    }
    shows(
        &rt,
        rt.alloc(),
        Form::Lines,
        &mut stats,
        "  group=239.0.1.1 member=192.0.2.50 count=1\n  group=239.0.2.0 member=192.0.2.50 count=1\n  \
        group=239.0.2.1 member=192.0.2.50 count=1\n  group=239.0.3.1 member=192.0.2.50 count=1\n  \
        group=239.0.4.0 member=192.0.2.50 count=1\n  group=239.0.4.1 member=192.0.2.50 count=1\n  \
        group=239.0.5.1 member=192.0.2.50 count=1\n  \
        group=239.0.1.1 member=192.0.2.50 source=192.0.2.9 count=1\n  \
        group=239.0.2.1 member=192.0.2.50 excluded=192.0.2.9 count=1\n  \
        group=239.0.3.1 member=192.0.2.50 source=192.0.2.9 count=1\n  \
        group=239.0.4.1 member=192.0.2.50 excluded=192.0.2.9 count=1\n  \
        group=239.0.5.1 member=192.0.2.50 source=192.0.2.9 count=1\n",
    );
}

// Two sources that are allowed, with auxiliary data behind them, one that is excluded, one that is included again, and
// one that is blocked.
const FILTERS: &[u8] = &[
    0x22, 0x00, 0x00, 0x00, 0x00, 0x00, 0x00, 0x04, 0x05, 0x01, 0x00, 0x02, 0xe8, 0x01, 0x01, 0x01,
    0xc0, 0x00, 0x02, 0x09, 0xc0, 0x00, 0x02, 0x08, 0xaa, 0xbb, 0xcc, 0xdd, 0x04, 0x00, 0x00, 0x01,
    0xe8, 0x01, 0x01, 0x01, 0xc0, 0x00, 0x02, 0x09, 0x01, 0x00, 0x00, 0x01, 0xe8, 0x01, 0x01, 0x01,
    0xc0, 0x00, 0x02, 0x09, 0x06, 0x00, 0x00, 0x01, 0xe8, 0x01, 0x01, 0x01, 0xc0, 0x00, 0x02, 0x03,
];

// Those that are wanted stand before those that are excluded.
#[test]
fn sources_of_a_member(rt: HostRuntime) {
    let mut stats = Stats::new(rt.alloc());
    let message = Message::Igmp(FILTERS);
    counts(&rt, rt.alloc(), &mut stats, &message, &to_server(), None);
    shows(
        &rt,
        rt.alloc(),
        Form::Lines,
        &mut stats,
        "  group=232.1.1.1 member=192.0.2.50 count=3\n  \
        group=232.1.1.1 member=192.0.2.50 source=192.0.2.8 count=1\n  \
        group=232.1.1.1 member=192.0.2.50 source=192.0.2.9 count=2\n  \
        group=232.1.1.1 member=192.0.2.50 excluded=192.0.2.9 count=1\n",
    );
    shows(
        &rt,
        rt.alloc(),
        Form::Json,
        &mut stats,
        ",\"questions\":[],\"rcodes\":[],\"servers\":[],\"clients\":[],\"leases\":[],\"members\":[\
        {\"kind\":\"group\",\"addr\":\"232.1.1.1\",\"member\":\"192.0.2.50\",\"count\":3}],\"sources\":[\
        {\"kind\":\"group\",\"addr\":\"232.1.1.1\",\"member\":\"192.0.2.50\",\"source\":\"192.0.2.8\",\"count\":1},\
        {\"kind\":\"group\",\"addr\":\"232.1.1.1\",\"member\":\"192.0.2.50\",\"source\":\"192.0.2.9\",\"count\":2},\
        {\"kind\":\"group\",\"addr\":\"232.1.1.1\",\"member\":\"192.0.2.50\",\"excluded\":\"192.0.2.9\",\"count\":1}],\
        \"neighbors\":[],\"routers\":[],\"prefixes\":[]",
    );
}

// The first record with its auxiliary data cut, and the sources of one that is cut by an octet.
#[test]
fn sources_of_records_that_are_cut(rt: HostRuntime) {
    let mut stats = Stats::new(rt.alloc());
    for len in [20, 27, 39] {
        let message = Message::Igmp(front(FILTERS, len));
        counts(&rt, rt.alloc(), &mut stats, &message, &to_server(), None);
    }
    shows(
        &rt,
        rt.alloc(),
        Form::Lines,
        &mut stats,
        "  group=232.1.1.1 member=192.0.2.50 count=1\n  \
        group=232.1.1.1 member=192.0.2.50 source=192.0.2.8 count=1\n  \
        group=232.1.1.1 member=192.0.2.50 source=192.0.2.9 count=1\n",
    );
}

// Three sources in descending order, of which the first two have the same sum in a table.
const ONE_SUM: &[u8] = &[
    0x8f, 0x00, 0x00, 0x00, 0x00, 0x00, 0x00, 0x01, 0x01, 0x00, 0x00, 0x03, 0xff, 0x15, 0x00, 0x00,
    0x00, 0x00, 0x00, 0x00, 0x00, 0x00, 0x00, 0x00, 0x00, 0x01, 0x00, 0x03, 0x20, 0x01, 0x0d, 0xb8,
    0x00, 0x00, 0x00, 0x00, 0x00, 0x00, 0x00, 0x00, 0x07, 0x99, 0x31, 0x37, 0x20, 0x01, 0x0d, 0xb8,
    0x00, 0x00, 0x00, 0x00, 0x00, 0x00, 0x00, 0x00, 0x00, 0x00, 0x64, 0x64, 0x20, 0x01, 0x0d, 0xb8,
    0x00, 0x00, 0x00, 0x00, 0x00, 0x00, 0x00, 0x00, 0x00, 0x00, 0x00, 0x05,
];

// Each has its row, also behind a page, which puts them into ascending order.
#[test]
fn sources_of_one_sum(rt: HostRuntime) {
    let mut stats = Stats::new(rt.alloc());
    let message = listener(host6(), ONE_SUM);
    for text in [
        "  group=ff15::1:3 member=fe80::ff:fe00:7 count=1\n  \
        group=ff15::1:3 member=fe80::ff:fe00:7 source=2001:db8::5 count=1\n  \
        group=ff15::1:3 member=fe80::ff:fe00:7 source=2001:db8::6464 count=1\n  \
        group=ff15::1:3 member=fe80::ff:fe00:7 source=2001:db8::799:3137 count=1\n",
        "  group=ff15::1:3 member=fe80::ff:fe00:7 count=2\n  \
        group=ff15::1:3 member=fe80::ff:fe00:7 source=2001:db8::5 count=2\n  \
        group=ff15::1:3 member=fe80::ff:fe00:7 source=2001:db8::6464 count=2\n  \
        group=ff15::1:3 member=fe80::ff:fe00:7 source=2001:db8::799:3137 count=2\n",
    ] {
        counts(&rt, rt.alloc(), &mut stats, &message, &to_server(), None);
        shows(&rt, rt.alloc(), Form::Lines, &mut stats, text);
    }
}
