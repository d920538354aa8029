// Neighbors, routers and their prefixes.

use crate::captured::{
    NEIGHBOR_ADVERTISEMENT, NEIGHBOR_SOLICITATION, ROUTER_ADVERTISEMENT, ROUTER_SOLICITATION,
    UNSPECIFIED_SOLICITATION,
};
use crate::made::{counts, host6, put, router6, shows, to_server};
use message_fields::Message;
use packet_fields::Form;
use packet_stats::Stats;
use wirebase::{IPV6_LINK_LOCAL_ALL_NODES, Ipv6Address};

// A message to all nodes.
fn message(source: Ipv6Address, octets: &[u8]) -> Message<'_> {
    Message::Icmp6(source, IPV6_LINK_LOCAL_ALL_NODES, octets)
}

// A router twice, which solicits too, and the host that asks for it.
#[test]
fn captured_routers_and_neighbors(rt: HostRuntime) {
    let mut stats = Stats::new(rt.alloc());
    let prefix = Ipv6Address::new(0x2001, 0xdb8, 1, 0, 0, 0, 0, 7);
    for message in [
        message(router6(), ROUTER_ADVERTISEMENT),
        message(router6(), ROUTER_ADVERTISEMENT),
        message(host6(), ROUTER_SOLICITATION),
        message(Ipv6Address::UNSPECIFIED, UNSPECIFIED_SOLICITATION),
        message(prefix, NEIGHBOR_SOLICITATION),
        message(router6(), NEIGHBOR_ADVERTISEMENT),
    ] {
        counts(&rt, rt.alloc(), &mut stats, &message, &to_server(), None);
    }
    shows(
        &rt,
        rt.alloc(),
        Form::Lines,
        &mut stats,
        "  neighbor=2001:db8:1::1 link=02:00:00:00:00:01 count=1\n  \
        neighbor=2001:db8:1::7 link=02:00:00:00:00:07 count=1\n  \
        neighbor=fe80::ff:fe00:1 link=02:00:00:00:00:01 count=2\n  \
        neighbor=fe80::ff:fe00:7 link=02:00:00:00:00:07 count=1\n  router=fe80::ff:fe00:1 count=2\n  \
        prefix=2001:db8:1::/64 router=fe80::ff:fe00:1 count=2\n",
    );
}

// Two link-layer addresses of one address; the same from the unspecified address, which is nobody's.
#[test]
fn address_that_two_hosts_claim(rt: HostRuntime) {
    let mut stats = Stats::new(rt.alloc());
    let mut other = [0; 16];
    put(&mut other, 0, ROUTER_SOLICITATION);
    other[15] = 6;
    for message in [
        message(host6(), ROUTER_SOLICITATION),
        message(host6(), &other),
        message(Ipv6Address::UNSPECIFIED, &other),
    ] {
        counts(&rt, rt.alloc(), &mut stats, &message, &to_server(), None);
    }
    shows(
        &rt,
        rt.alloc(),
        Form::Json,
        &mut stats,
        ",\"questions\":[],\"rcodes\":[],\"servers\":[],\"clients\":[],\"leases\":[],\"members\":[],\"sources\":[],\
        \"neighbors\":[{\"kind\":\"neighbor\",\"addr\":\"fe80::ff:fe00:7\",\"link\":\"02:00:00:00:00:06\",\"count\":1},\
        {\"kind\":\"neighbor\",\"addr\":\"fe80::ff:fe00:7\",\"link\":\"02:00:00:00:00:07\",\"count\":1}],\
        \"routers\":[],\"prefixes\":[]",
    );
}

// Options that say nothing: of another length than they count, of a length of 0, and a prefix that is cut; and a
// message whose fields are cut.
#[test]
fn options_that_say_nothing(rt: HostRuntime) {
    let mut stats = Stats::new(rt.alloc());
    let mut long = [0; 16];
    put(&mut long, 0, ROUTER_SOLICITATION);
    long[9] = 2;
    let mut empty = [0; 16];
    put(&mut empty, 0, ROUTER_SOLICITATION);
    empty[9] = 0;
    for message in [
        message(host6(), &long),
        message(host6(), &empty),
        message(host6(), &NEIGHBOR_ADVERTISEMENT[..23]),
        message(router6(), &ROUTER_ADVERTISEMENT[..47]),
        message(router6(), &[]),
    ] {
        counts(&rt, rt.alloc(), &mut stats, &message, &to_server(), None);
    }
    shows(
        &rt,
        rt.alloc(),
        Form::Lines,
        &mut stats,
        "  router=fe80::ff:fe00:1 count=1\n",
    );
}
