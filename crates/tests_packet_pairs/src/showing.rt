// What is printed of an answer, and of a question without one.

use crate::captured::{NODE_QUERY, PING, QUERY, SOLICITATION};
use crate::made::{host_v6, lease, seen, server_v6, to_server, udp};
use crate::testing::same_of;
use frame_wire::Addresses;
use message_fields::{Message, Service};
use packet_fields::Form;
use packet_pairs::{Answered, Pairs, show_answered, show_asked};
use std::alloc::Global;
use std::process::Abort;

// An answer to the question of packet 4, so many nanoseconds behind it, prints this text.
fn shows(rt: &impl Abort, alloc: Global, form: Form, after: Option<u64>, text: &str) {
    let answered = Answered { number: 4, after };
    let mut output = Vec::new(alloc);
    let is_shown = show_answered(&mut output, form, &answered).is_ok();
    same_of(rt, text, is_shown, true);
    same_of(rt, text, output.as_slice(), text.as_bytes());
}

#[test]
fn answers_print(rt: HostRuntime) {
    const ROWS: &[(Option<u64>, &str, &str)] = &[
        (
            Some(46_200_999),
            "  answers=4\n  after=46.200ms\n",
            ",\"answers\":4,\"after_ns\":46200999",
        ),
        (
            Some(7_000),
            "  answers=4\n  after=0.007ms\n",
            ",\"answers\":4,\"after_ns\":7000",
        ),
        (None, "  answers=4\n", ",\"answers\":4"),
    ];
    for (after, lines, json) in ROWS {
        shows(&rt, rt.alloc(), Form::Lines, *after, lines);
        shows(&rt, rt.alloc(), Form::Json, *after, json);
    }
}

// The question in packet 4, asked twice, prints this text.
fn asks(
    rt: &impl Abort,
    alloc: Global,
    form: Form,
    message: &Message<'_>,
    addresses: &Addresses,
    text: &str,
) {
    let mut pairs = Pairs::new(alloc);
    let _first = seen(&mut pairs, 4, 0, message, addresses);
    let _again = seen(&mut pairs, 5, 0, message, addresses);
    let mut output = Vec::new(alloc);
    for asked in pairs.waiting().0 {
        let is_shown = show_asked(&mut output, form, asked).is_ok();
        same_of(rt, text, is_shown, true);
    }
    same_of(rt, text, output.as_slice(), text.as_bytes());
}

#[test]
fn questions_print(rt: HostRuntime) {
    asks(
        &rt,
        rt.alloc(),
        Form::Lines,
        &udp(Service::Dns, to_server(), QUERY),
        &to_server(),
        "  question=4\n  kind=dns\n  src_addr=192.0.2.50\n  dst_addr=192.0.2.1\n  name=a.example.test.\n  type=A\n  \
        tries=2\n",
    );
    asks(
        &rt,
        rt.alloc(),
        Form::Json,
        &udp(Service::Llmnr, to_server(), QUERY),
        &to_server(),
        ",\"question\":4,\"kind\":\"llmnr\",\"src_addr\":\"192.0.2.50\",\"name\":\"a.example.test.\",\
        \"type\":\"A\",\"tries\":2",
    );
    asks(
        &rt,
        rt.alloc(),
        Form::Lines,
        &udp(Service::Nbns, to_server(), NODE_QUERY),
        &to_server(),
        "  question=4\n  kind=nbns\n  src_addr=192.0.2.50\n  transaction_id=20569\n  tries=2\n",
    );
    asks(
        &rt,
        rt.alloc(),
        Form::Lines,
        &Message::Icmp4(PING),
        &to_server(),
        "  question=4\n  kind=echo\n  src_addr=192.0.2.50\n  dst_addr=192.0.2.1\n  ident=6837\n  seq_no=1\n  tries=2\n",
    );
    let addresses = Addresses::V6(host_v6(), server_v6());
    asks(
        &rt,
        rt.alloc(),
        Form::Lines,
        &Message::Icmp6(host_v6(), server_v6(), SOLICITATION),
        &addresses,
        "  question=4\n  kind=neighbor\n  src_addr=2001:db8:1::7\n  target_addr=2001:db8:1::1\n  tries=2\n",
    );
    let discover = lease(1, [0, 68, 0, 67]);
    asks(
        &rt,
        rt.alloc(),
        Form::Json,
        &udp(Service::Dhcp, to_server(), &discover),
        &to_server(),
        ",\"question\":4,\"kind\":\"dhcp\",\"client_hardware_address\":\"02:00:00:00:00:07\",\
        \"transaction_id\":662748421,\"awaits\":\"offer\",\"tries\":2",
    );
}
