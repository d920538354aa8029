use crate::testing::same;
use control_wire::{IPV6_LINK_LOCAL_ALL_NODES, Ipv6Address};
use examples::router_list::RouterList;
use examples::router_list::entries::{DefaultRouter, DnsServer, Lifetime, OnLinkPrefix};
use neighbor_wire::Preference;

// fe80::1 tells ff02::1 that it is a default router of high preference for 9,000 s, of 2001:db8:1::/48 for ever, with
// bits behind the prefix, of a DNS server for ever, and of two for 1,200 s.
const FIRST: [u8; 112] = [
    0x86, 0x00, 0xe7, 0x31, 0x40, 0x08, 0x23, 0x28, 0x00, 0x00, 0x00, 0x00, 0x00, 0x00, 0x00, 0x00,
    0x03, 0x04, 0x30, 0xc0, 0xff, 0xff, 0xff, 0xff, 0x00, 0x00, 0x0e, 0x10, 0x00, 0x00, 0x00, 0x00,
    0x20, 0x01, 0x0d, 0xb8, 0x00, 0x01, 0x00, 0xff, 0x00, 0x00, 0x00, 0x00, 0x00, 0x00, 0x00, 0x00,
    0x19, 0x03, 0x00, 0x00, 0xff, 0xff, 0xff, 0xff, 0x20, 0x01, 0x0d, 0xb8, 0x00, 0x00, 0x00, 0x00,
    0x00, 0x00, 0x00, 0x00, 0x00, 0x00, 0x00, 0x53, 0x19, 0x05, 0x00, 0x00, 0x00, 0x00, 0x04, 0xb0,
    0x20, 0x01, 0x0d, 0xb8, 0x00, 0x00, 0x00, 0x00, 0x00, 0x00, 0x00, 0x00, 0x00, 0x00, 0x00, 0x54,
    0x20, 0x01, 0x0d, 0xb8, 0x00, 0x00, 0x00, 0x00, 0x00, 0x00, 0x00, 0x00, 0x00, 0x00, 0x00, 0x55,
];

// It is none any more, and of the reserved preference; nor are the prefix and the first and the third server, and the
// second is one for a minute.
const LAST: [u8; 112] = [
    0x86, 0x00, 0x1d, 0xd5, 0x40, 0x10, 0x00, 0x00, 0x00, 0x00, 0x00, 0x00, 0x00, 0x00, 0x00, 0x00,
    0x03, 0x04, 0x30, 0xc0, 0x00, 0x00, 0x00, 0x00, 0x00, 0x00, 0x00, 0x00, 0x00, 0x00, 0x00, 0x00,
    0x20, 0x01, 0x0d, 0xb8, 0x00, 0x01, 0x00, 0x00, 0x00, 0x00, 0x00, 0x00, 0x00, 0x00, 0x00, 0x00,
    0x19, 0x05, 0x00, 0x00, 0x00, 0x00, 0x00, 0x00, 0x20, 0x01, 0x0d, 0xb8, 0x00, 0x00, 0x00, 0x00,
    0x00, 0x00, 0x00, 0x00, 0x00, 0x00, 0x00, 0x53, 0x20, 0x01, 0x0d, 0xb8, 0x00, 0x00, 0x00, 0x00,
    0x00, 0x00, 0x00, 0x00, 0x00, 0x00, 0x00, 0x55, 0x19, 0x03, 0x00, 0x00, 0x00, 0x00, 0x00, 0x3c,
    0x20, 0x01, 0x0d, 0xb8, 0x00, 0x00, 0x00, 0x00, 0x00, 0x00, 0x00, 0x00, 0x00, 0x00, 0x00, 0x54,
];

// It is one for 300 s, of the reserved preference.
const RESERVED: [u8; 16] = [
    0x86, 0x00, 0x3a, 0xf3, 0x40, 0x10, 0x01, 0x2c, 0x00, 0x00, 0x00, 0x00, 0x00, 0x00, 0x00, 0x00,
];

// fe80::1 tells ff02::1 that it is a default router for 1,800 s, that 2001:db8:1::/64 is on the link, of routes of low
// preference for 1,000 s to 2001:db8:100::/40 and 2001:db8:101::/48, and of one of the reserved preference.
const WITH_ROUTES: [u8; 104] = [
    0x86, 0x00, 0x10, 0xf4, 0x40, 0x00, 0x07, 0x08, 0x00, 0x00, 0x00, 0x00, 0x00, 0x00, 0x00, 0x00,
    0x03, 0x04, 0x40, 0x80, 0x00, 0x00, 0x1c, 0x20, 0x00, 0x00, 0x0e, 0x10, 0x00, 0x00, 0x00, 0x00,
    0x20, 0x01, 0x0d, 0xb8, 0x00, 0x01, 0x00, 0x00, 0x00, 0x00, 0x00, 0x00, 0x00, 0x00, 0x00, 0x00,
    0x18, 0x03, 0x28, 0x18, 0x00, 0x00, 0x03, 0xe8, 0x20, 0x01, 0x0d, 0xb8, 0x01, 0x00, 0x00, 0x00,
    0x00, 0x00, 0x00, 0x00, 0x00, 0x00, 0x00, 0x00, 0x18, 0x02, 0x30, 0x18, 0x00, 0x00, 0x03, 0xe8,
    0x20, 0x01, 0x0d, 0xb8, 0x01, 0x01, 0x00, 0x00, 0x18, 0x02, 0x30, 0x10, 0x00, 0x00, 0x23, 0x28,
    0x20, 0x01, 0x0d, 0xb8, 0x02, 0x00, 0x00, 0x00,
];

// fe80::2 tells ff02::1 that it is no default router, but by a route to all addresses for 600 s, of high preference, as
// is one to 2001:db8:100::/40, for ever.
const OF_ANOTHER: [u8; 40] = [
    0x86, 0x00, 0xb2, 0xf1, 0x40, 0x00, 0x00, 0x00, 0x00, 0x00, 0x00, 0x00, 0x00, 0x00, 0x00, 0x00,
    0x18, 0x01, 0x00, 0x08, 0x00, 0x00, 0x02, 0x58, 0x18, 0x02, 0x28, 0x08, 0xff, 0xff, 0xff, 0xff,
    0x20, 0x01, 0x0d, 0xb8, 0x01, 0x00, 0x00, 0x00,
];

// It tells no time for either, with other bits behind the prefix.
const WITHOUT_ROUTES: [u8; 40] = [
    0x86, 0x00, 0xb4, 0x4a, 0x40, 0x00, 0x00, 0x00, 0x00, 0x00, 0x00, 0x00, 0x00, 0x00, 0x00, 0x00,
    0x18, 0x01, 0x00, 0x08, 0x00, 0x00, 0x00, 0x00, 0x18, 0x02, 0x28, 0x08, 0x00, 0x00, 0x00, 0x00,
    0x20, 0x01, 0x0d, 0xb8, 0x01, 0xff, 0x00, 0x00,
];

fn router() -> Ipv6Address {
    Ipv6Address::new(0xfe80, 0, 0, 0, 0, 0, 0, 1)
}

fn default_router(preference: Preference, lifetime: u32) -> DefaultRouter {
    DefaultRouter {
        address: router(),
        preference,
        lifetime,
    }
}

fn prefix(preferred: u32) -> OnLinkPrefix {
    OnLinkPrefix {
        prefix_len: 48,
        prefix: Ipv6Address::new(0x2001, 0xdb8, 1, 0xff, 0, 0, 0, 0),
        autonomous: true,
        valid: Lifetime::Forever,
        preferred: Lifetime::Seconds(preferred),
    }
}

fn server(last: u16, lifetime: Lifetime) -> DnsServer {
    DnsServer {
        address: Ipv6Address::new(0x2001, 0xdb8, 0, 0, 0, 0, 0, last),
        lifetime,
    }
}

#[test]
fn what_a_router_tells_is_kept_for_its_time(rt: HostRuntime) {
    let mut lists = RouterList::new();
    let learned = lists.learn(&router(), &IPV6_LINK_LOCAL_ALL_NODES, 255, &FIRST);
    same(&rt, learned, true);
    let routers = [default_router(Preference::High, 9_000)];
    same(&rt, lists.routers.as_slice(), routers.as_slice());
    same(&rt, lists.prefixes.as_slice(), [prefix(3_600)].as_slice());
    let servers = [
        server(0x53, Lifetime::Forever),
        server(0x54, Lifetime::Seconds(1_200)),
        server(0x55, Lifetime::Seconds(1_200)),
    ];
    same(&rt, lists.servers.as_slice(), servers.as_slice());
    lists.pass(1_199);
    let servers = [
        server(0x53, Lifetime::Forever),
        server(0x54, Lifetime::Seconds(1)),
        server(0x55, Lifetime::Seconds(1)),
    ];
    same(&rt, lists.servers.as_slice(), servers.as_slice());
    // Addresses of the prefix are deprecated then, but it is still on the link.
    lists.pass(7_800);
    let routers = [default_router(Preference::High, 1)];
    same(&rt, lists.routers.as_slice(), routers.as_slice());
    same(&rt, lists.prefixes.as_slice(), [prefix(0)].as_slice());
    let servers = [server(0x53, Lifetime::Forever)];
    same(&rt, lists.servers.as_slice(), servers.as_slice());
    lists.pass(1);
    same(&rt, lists.routers.is_empty(), true);
}

#[test]
fn a_time_of_zero_removes(rt: HostRuntime) {
    let all = IPV6_LINK_LOCAL_ALL_NODES;
    let mut lists = RouterList::new();
    same(&rt, lists.learn(&router(), &all, 255, &FIRST), true);
    same(&rt, lists.learn(&router(), &all, 255, &LAST), true);
    same(&rt, lists.routers.is_empty(), true);
    same(&rt, lists.prefixes.is_empty(), true);
    let servers = [server(0x54, Lifetime::Seconds(60))];
    same(&rt, lists.servers.as_slice(), servers.as_slice());
}

// The reserved preference counts as medium (RFC 4191 section 2.2).
#[test]
fn an_advertisement_renews(rt: HostRuntime) {
    let all = IPV6_LINK_LOCAL_ALL_NODES;
    let mut lists = RouterList::new();
    same(&rt, lists.learn(&router(), &all, 255, &FIRST), true);
    same(&rt, lists.learn(&router(), &all, 255, &RESERVED), true);
    let routers = [default_router(Preference::Medium, 300)];
    same(&rt, lists.routers.as_slice(), routers.as_slice());
    same(&rt, lists.prefixes.as_slice(), [prefix(3_600)].as_slice());
    lists.remove_router(&router());
    same(&rt, lists.routers.is_empty(), true);
}

// Forwarded, and of another destination than its checksum is of.
#[test]
fn of_no_advertisement_nothing_is_kept(rt: HostRuntime) {
    let all = IPV6_LINK_LOCAL_ALL_NODES;
    let mut lists = RouterList::new();
    same(&rt, lists.learn(&router(), &all, 254, &FIRST), false);
    same(&rt, lists.learn(&router(), &router(), 255, &FIRST), false);
    same(&rt, lists.routers.is_empty(), true);
    same(&rt, lists.servers.is_empty(), true);
}

fn second_router() -> Ipv6Address {
    Ipv6Address::new(0xfe80, 0, 0, 0, 0, 0, 0, 2)
}

// An address of 2001:db8::/32 by its third group.
fn host(third: u16) -> Ipv6Address {
    Ipv6Address::new(0x2001, 0xdb8, third, 0xffff, 0, 0, 0, 1)
}

fn lists_of_two() -> RouterList {
    let all = IPV6_LINK_LOCAL_ALL_NODES;
    let mut lists = RouterList::new();
    let _is_one = lists.learn(&router(), &all, 255, &WITH_ROUTES);
    let _is_one = lists.learn(&second_router(), &all, 255, &OF_ANOTHER);
    lists
}

// The longest prefix, and then the highest preference (RFC 4191 section 3.2).
#[test]
fn packets_go_to_the_best_next_hop(rt: HostRuntime) {
    let lists = lists_of_two();
    let on_link = Ipv6Address::new(0x2001, 0xdb8, 1, 0, 0, 0, 0, 5);
    let rows = [
        (second_router(), second_router()),
        (IPV6_LINK_LOCAL_ALL_NODES, IPV6_LINK_LOCAL_ALL_NODES),
        (on_link, on_link),
        (host(0x0101), router()),
        (host(0x0102), second_router()),
        (host(0x0200), second_router()),
    ];
    for (destination, next) in rows {
        same(&rt, lists.next_hop(&destination), Some(next));
    }
}

#[test]
fn routes_are_kept_for_their_time(rt: HostRuntime) {
    let mut lists = lists_of_two();
    lists.pass(600);
    same(&rt, lists.next_hop(&host(0x0200)), Some(router()));
    same(&rt, lists.next_hop(&host(0x0101)), Some(router()));
    lists.pass(400);
    same(&rt, lists.next_hop(&host(0x0101)), Some(second_router()));
    lists.pass(800);
    same(&rt, lists.next_hop(&host(0x0101)), Some(second_router()));
    same(&rt, lists.next_hop(&host(0x0200)), None);
}

#[test]
fn a_route_of_no_time_is_removed(rt: HostRuntime) {
    let all = IPV6_LINK_LOCAL_ALL_NODES;
    let mut lists = lists_of_two();
    same(
        &rt,
        lists.learn(&second_router(), &all, 255, &WITHOUT_ROUTES),
        true,
    );
    same(&rt, lists.routers.len(), 1);
    same(&rt, lists.routes.len(), 2);
    same(&rt, lists.next_hop(&host(0x0102)), Some(router()));
}
