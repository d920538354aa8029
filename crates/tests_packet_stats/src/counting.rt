// What is counted of messages, and the page of it.

use crate::captured::{NODE_QUERY, QUERY, RESPONSE};
use crate::made::{counts, put, query, shows, to_host, to_server, udp};
use message_fields::{Message, Service};
use packet_fields::Form;
use packet_stats::Stats;

// Two queries, one of them in capital letters, and three responses; the median of 7,000 ns, 100,000 ns and
// 46,200,999 ns is the second.
#[test]
fn captured_queries_and_responses(rt: HostRuntime) {
    let mut stats = Stats::new(rt.alloc());
    let capital = query(b'A', 1);
    for octets in [QUERY, &capital] {
        let message = udp(Service::Dns, to_server(), octets);
        counts(&rt, rt.alloc(), &mut stats, &message, &to_server(), None);
    }
    for after in [46_200_999, 7_000, 100_000] {
        let message = udp(Service::Dns, to_host(), RESPONSE);
        counts(
            &rt,
            rt.alloc(),
            &mut stats,
            &message,
            &to_host(),
            Some(after),
        );
    }
    shows(
        &rt,
        rt.alloc(),
        Form::Lines,
        &mut stats,
        "  question=a.example.test. type=A count=2\n  rcode=NOERROR count=3\n  server=192.0.2.1 count=3 times=3 \
        median=0.100ms percentile_99=46.200ms\n",
    );
    shows(
        &rt,
        rt.alloc(),
        Form::Json,
        &mut stats,
        ",\"questions\":[{\"kind\":\"question\",\"name\":\"a.example.test.\",\"type\":\"A\",\"count\":2}],\
        \"rcodes\":[{\"kind\":\"rcode\",\"rcode\":\"NOERROR\",\"count\":3}],\
        \"servers\":[{\"kind\":\"server\",\"addr\":\"192.0.2.1\",\"count\":3,\"times\":3,\
        \"median_ns\":100000,\"percentile_99_ns\":46200999}],\"clients\":[],\"leases\":[],\"members\":[],\
        \"sources\":[],\"neighbors\":[],\"routers\":[],\"prefixes\":[]",
    );
}

// The most frequent first, and of those that are equally frequent the first by its octets.
#[test]
fn questions_in_order(rt: HostRuntime) {
    let mut stats = Stats::new(rt.alloc());
    for (letter, type_) in [(b'c', 1), (b'b', 28), (b'd', 1), (b'b', 1), (b'd', 1)] {
        let octets = query(letter, type_);
        let message = udp(Service::Llmnr, to_server(), &octets);
        counts(&rt, rt.alloc(), &mut stats, &message, &to_server(), None);
    }
    shows(
        &rt,
        rt.alloc(),
        Form::Lines,
        &mut stats,
        "  question=d.example.test. type=A count=2\n  question=b.example.test. type=A count=1\n  \
        question=b.example.test. type=AAAA count=1\n  question=c.example.test. type=A count=1\n",
    );
}

// A response that refuses, over TCP, whose time is not known.
#[test]
fn responses_over_tcp(rt: HostRuntime) {
    let mut stats = Stats::new(rt.alloc());
    let mut response = [0; 59];
    put(&mut response, 0, &RESPONSE[8..]);
    response[3] = 0x85;
    let message = Message::Tcp(to_host(), &[], &response);
    counts(&rt, rt.alloc(), &mut stats, &message, &to_server(), None);
    shows(
        &rt,
        rt.alloc(),
        Form::Lines,
        &mut stats,
        "  rcode=REFUSED count=1\n  server=192.0.2.1 count=1\n",
    );
}

// A query of multicast DNS has several questions (RFC 6762 section 5.3), of which the last is cut here.
#[test]
fn several_questions(rt: HostRuntime) {
    let octets = [
        0x14, 0xe9, 0x14, 0xe9, 0, 42, 0, 0, 0, 0, 0, 0, 0, 3, 0, 0, 0, 0, 0, 0, 2, b'h', b'i', 0,
        0, 1, 0, 1, 0xc0, 12, 0, 28, 0, 1, 1, b'x', 0, 0, 1, 0, 1,
    ];
    let mut stats = Stats::new(rt.alloc());
    let message = udp(Service::Mdns, to_server(), &octets[..40]);
    counts(&rt, rt.alloc(), &mut stats, &message, &to_server(), None);
    shows(
        &rt,
        rt.alloc(),
        Form::Lines,
        &mut stats,
        "  question=hi. type=A count=1\n  question=hi. type=AAAA count=1\n",
    );
}

// Messages that say nothing here: of another service, of another protocol, and of which too little is there.
#[test]
fn messages_that_say_nothing(rt: HostRuntime) {
    let mut stats = Stats::new(rt.alloc());
    for message in [
        udp(Service::Nbns, to_server(), NODE_QUERY),
        Message::Icmp4(QUERY),
        udp(Service::Dns, to_server(), &QUERY[..19]),
        udp(Service::Dns, to_server(), &QUERY[..7]),
    ] {
        counts(&rt, rt.alloc(), &mut stats, &message, &to_server(), None);
    }
    shows(&rt, rt.alloc(), Form::Lines, &mut stats, "");
    shows(
        &rt,
        rt.alloc(),
        Form::Json,
        &mut stats,
        ",\"questions\":[],\"rcodes\":[],\"servers\":[],\"clients\":[],\"leases\":[],\"members\":[],\"sources\":[],\
        \"neighbors\":[],\"routers\":[],\"prefixes\":[]",
    );
}
