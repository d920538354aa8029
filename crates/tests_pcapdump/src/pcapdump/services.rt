//! Ports that are given to services: their texts, the services that they tell, and what is printed of their packets.

use super::PRINTED;
use super::packets::pcap;
use crate::testing::{holds_of, same_of};
use dump_captures::options::Options;
use dump_captures::ports::Ports;
use dump_captures::run_onto;
use dump_captures::settings::{Setting, setting_of};
use message_fields::Service;
use std::alloc::Global;
use std::process::Abort;

// A port for each service.
const GIVEN: Ports = Ports {
    dns: Some(5300),
    mdns: Some(53),
    llmnr: Some(5300),
    nbns: Some(65_535),
    dhcp: Some(5353),
};

#[test]
fn texts_of_ports(rt: HostRuntime) {
    const DNS: Ports = Ports {
        dns: Some(5300),
        ..Ports::NONE
    };
    const ROWS: &[(Ports, &str, Option<Ports>)] = &[
        (Ports::NONE, "dns=5300", Some(DNS)),
        (DNS, "dns=0005300", Some(DNS)),
        (GIVEN, "dns=5300", Some(GIVEN)),
        (
            GIVEN,
            "mdns=1",
            Some(Ports {
                mdns: Some(1),
                ..GIVEN
            }),
        ),
        (
            GIVEN,
            "llmnr=2",
            Some(Ports {
                llmnr: Some(2),
                ..GIVEN
            }),
        ),
        (
            DNS,
            "nbns=65535",
            Some(Ports {
                nbns: Some(65_535),
                ..DNS
            }),
        ),
        (
            DNS,
            "dhcp=67",
            Some(Ports {
                dhcp: Some(67),
                ..DNS
            }),
        ),
        (DNS, "dns=0", None),
        (DNS, "dns=65536", None),
        (DNS, "dns=18446744073709551617", None),
        (DNS, "dns=+53", None),
        (DNS, "dns= 53", None),
        (DNS, "dns=", None),
        (DNS, "dns", None),
        (DNS, "dns=53=53", None),
        (DNS, "DNS=53", None),
        (DNS, "icmp4=53", None),
        (DNS, "=53", None),
        (DNS, "", None),
    ];
    for (ports, text, want) in ROWS {
        same_of(&rt, text, ports.with(text), *want);
    }
    same_of(&rt, "--port", setting_of("--port"), Some(Setting::Port));
}

#[test]
fn services_that_ports_are_given_to(rt: HostRuntime) {
    // Whether the datagram is of IPv4, its ports, and the service.
    const ROWS: &[(bool, (u16, u16), Option<Service>)] = &[
        (true, (5300, 40_000), Some(Service::Dns)),
        (false, (40_000, 5300), Some(Service::Dns)),
        (true, (53, 5300), Some(Service::Dns)),
        (true, (53, 5353), Some(Service::Mdns)),
        (false, (65_535, 137), Some(Service::Nbns)),
        (true, (5353, 5353), Some(Service::Dhcp)),
        (false, (5353, 5353), None),
        (true, (5355, 40_000), None),
    ];
    for &(is_v4, ports, want) in ROWS {
        same_of(&rt, (is_v4, ports), GIVEN.service(is_v4, ports), want);
        same_of(&rt, (is_v4, ports), Ports::NONE.service(is_v4, ports), None);
    }
}

// A question of DNS to port 5300, over UDP and over TCP.
const QUESTIONS: &[(&str, &str)] = &[
    (
        "4500003d123440004011a445c0000201c00002359c4014b400296de0123401000001000000000000037777770765786\
            16d706c6503636f6d0000010001",
        "",
    ),
    (
        "4500004b123440004006a442c0000201c00002359c4014b4000000010000000050182000fdcb0000002112340100000\
            100000000000003777777076578616d706c6503636f6d0000010001",
        "",
    ),
];

// What is printed of these where these ports are given.
fn check(rt: &impl Abort, alloc: Global, ports: Ports, want: &str) {
    let options = Options { ports, ..PRINTED };
    let capture = pcap(rt, alloc, QUESTIONS);
    let mut output = Vec::new(alloc);
    let answer = run_onto(alloc, &options, capture.as_slice(), &mut output);
    holds_of(rt, want, answer.is_ok());
    same_of(rt, want, output.as_slice(), want.as_bytes());
}

#[test]
fn messages_at_ports_that_are_given(rt: HostRuntime) {
    let alloc = rt.alloc();
    check(&rt, alloc, Ports::NONE, "");
    let dns = Ports {
        dns: Some(5300),
        ..Ports::NONE
    };
    check(
        &rt,
        alloc,
        dns,
        "1 2024-05-01T12:34:56.000000000Z 192.0.2.1:40000 > 192.0.2.53:5300 dns\n\
            \x20 transaction_id=4660\n\
            \x20 flags=rd\n\
            \x20 opcode=0 (QUERY)\n\
            \x20 rcode=0 (NOERROR)\n\
            \x20 question=www.example.com. IN A\n\
            2 2024-05-01T12:34:57.000000000Z 192.0.2.1:40000 > 192.0.2.53:5300 tcp dns\n\
            \x20 transaction_id=4660\n\
            \x20 flags=rd\n\
            \x20 opcode=0 (QUERY)\n\
            \x20 rcode=0 (NOERROR)\n\
            \x20 question=www.example.com. IN A\n",
    );
    // Over TCP there is DNS alone.
    let mdns = Ports {
        mdns: Some(40_000),
        ..Ports::NONE
    };
    check(
        &rt,
        alloc,
        mdns,
        "1 2024-05-01T12:34:56.000000000Z 192.0.2.1:40000 > 192.0.2.53:5300 mdns\n\
            \x20 transaction_id=4660\n\
            \x20 flags=rd\n\
            \x20 opcode=0 (QUERY)\n\
            \x20 rcode=0 (NOERROR)\n\
            \x20 question=www.example.com. IN A\n",
    );
}
