//! What a host keeps of the advertisements of routers, for as long as they say: the default routers of the link, routes
//! through its routers, the prefixes whose addresses are on it, and recursive DNS servers (RFC 4861 section 6.3.4, RFC
//! 4191 section 3.1, RFC 8106 section 5.1); and which neighbor a packet goes to by these.

ghost use Rattle.std.specs.Prelude.{◌≡◌, ◌↔◌, List, IsTrue, Some, false, slice_index};
ghost use Rattle.neighbor_wire.specs.Options.{Answer, Tile};
ghost use Rattle.neighbor_wire.specs.Servers.{octets_in};
ghost use Rattle.examples.specs.RouterList.{IsAdvertisement, LearnsAdvertisement, Learns, LearnsAll, LearnsPrefix};
ghost use Rattle.examples.specs.RouterList.{LearnsRoute, LearnsServers, IsOnLink, lists_of, no_lists};
ghost use Rattle.examples.specs.RouterList.{is_on_link, kept_preference, later, router_for, routers_kept, routers_with};
ghost use Rattle.examples.specs.RouterList.{routes_kept, servers_with, with_route, without_router};

pub mod entries;

use crate::ranked::best;
use crate::router::{options, router_information};
use crate::timed_list::{pass, remove, renew};
use arrayvec::ArrayVec;
use control_wire::Ipv6Address;
use entries::{
    DefaultRouter, DnsServer, Lifetime, OnLinkPrefix, PrefixKey, RouteEntry, RouteKey, is_within,
};
use neighbor_wire::preference::router_preference;
use neighbor_wire::{NeighborOption, NeighborOptions, Preference, Prefix, Route, Servers};

/// The most default routers that are kept.
pub const MOST_ROUTERS: usize = 4;

/// The most routes that are kept.
pub const MOST_ROUTES: usize = 8;

/// The most prefixes that are kept.
pub const MOST_PREFIXES: usize = 8;

/// The most recursive DNS servers that are kept.
pub const MOST_SERVERS: usize = 4;

/// The lists of a host. What finds its list full is not kept, and what the list has stays.
#[derive(Drop)]
pub struct RouterList {
    /// The default routers, in the order in which they were first heard.
    pub routers: ArrayVec<DefaultRouter, MOST_ROUTERS>,
    /// The routes through routers, in the order in which they were first heard.
    pub routes: ArrayVec<RouteEntry, MOST_ROUTES>,
    /// The prefixes on the link.
    pub prefixes: ArrayVec<OnLinkPrefix, MOST_PREFIXES>,
    /// The recursive DNS servers.
    pub servers: ArrayVec<DnsServer, MOST_SERVERS>,
}

impl RouterList {
    /// Empty lists.
    pub fn new() -> RouterList
        ensures { lists_of result ≡ no_lists }
    {
        RouterList {
            routers: ArrayVec::new(),
            routes: ArrayVec::new(),
            prefixes: ArrayVec::new(),
            servers: ArrayVec::new(),
        }
    }

    /// Lets so many seconds pass: what is no longer valid is dropped.
    pub fn pass(&mut self, seconds: u32)
        ensures { lists_of self.new ≡ later seconds (lists_of self.old) }
    {
        pass(&mut self.routers, seconds);
        pass(&mut self.routes, seconds);
        pass(&mut self.prefixes, seconds);
        pass(&mut self.servers, seconds);
    }

    /// Takes what a router's advertisement tells, which came from `source` with this hop limit and went to
    /// `destination`: the router that sent it, its routes, prefixes and DNS servers are kept for as long as it says,
    /// and removed where it says no time. False exactly where the octets are no valid advertisement of a router (RFC
    /// 4861 section 6.1.2); then nothing changes.
    pub fn learn(
        &mut self,
        source: &Ipv6Address,
        destination: &Ipv6Address,
        hop_limit: u8,
        octets: &[u8],
    ) -> bool
        ensures told { IsTrue result ↔ IsAdvertisement source.now destination.now hop_limit octets.now }
        ensures learned { IsTrue result
            → LearnsAdvertisement source.now octets.now (lists_of self.old) (lists_of self.new) }
        ensures refused { result ≡ false → lists_of self.new ≡ lists_of self.old }
    {
        match router_information(source, destination, hop_limit, octets) {
            Some(_) => {
                self.learn_all(source, octets);
                true
            }
            None => false,
        }
    }

    /// The neighbor that packets for a destination go to: the destination itself where it is on the link, as multicast
    /// and link-local addresses are, and those with a prefix of the link; or else the router of the route with the
    /// longest prefix, and of several of one length with the highest preference; or else the default router with the
    /// highest preference (RFC 4861 section 5.2, RFC 4191 section 3.2). None where there is none of these.
    pub fn next_hop(&self, destination: &Ipv6Address) -> Option<Ipv6Address>
        ensures on_link { IsOnLink destination.now (lists_of self.now) → result ≡ Some destination.now }
        ensures routed { (IsOnLink destination.now (lists_of self.now) → ⊥)
            → result ≡ router_for destination.now (lists_of self.now) }
    {
        if destination.is_multicast() || destination.is_link_local() {
            return Some(*destination);
        }
        if is_on_link(self.prefixes.as_slice(), destination) {
            return Some(*destination);
        }
        if let Some(route) = best(self.routes.as_slice(), destination) {
            return Some(route.router);
        }
        match best(self.routers.as_slice(), destination) {
            Some(router) => Some(router.address),
            None => None,
        }
    }

    /// Removes a default router, as one that tells by an advertisement of its own that it is a router no longer (RFC
    /// 4861 section 7.2.5).
    pub fn remove_router(&mut self, address: &Ipv6Address)
        ensures { lists_of self.new ≡ without_router address.now (lists_of self.old) }
    {
        remove(&mut self.routers, address);
    }

    // Takes what the octets of an advertisement tell of the router, and what its options do.
    fn learn_all(&mut self, source: &Ipv6Address, octets: &[u8])
        ensures { LearnsAdvertisement source.now octets.now (lists_of self.old) (lists_of self.new) }
    {
        learn_router(&mut self.routers, source, octets);
        self.learn_options(source, options(octets));
    }

    // Takes what the options of an advertisement of this router tell.
    fn learn_options(&mut self, source: &Ipv6Address, options: &[u8])
        ensures { (answers : List Answer) × Tile options.now answers
            × LearnsAll source.now answers (lists_of self.old) (lists_of self.new) }
    {
        for option in NeighborOptions::new(options) {
            if let Ok(option) = option {
                self.learn_option(source, &option);
            }
        }
    }

    // Takes what an option tells.
    fn learn_option(&mut self, source: &Ipv6Address, option: &NeighborOption<'_>)
        ensures { Learns source.now option.now (lists_of self.old) (lists_of self.new) }
    {
        match *option {
            NeighborOption::Route(route) => self.learn_route(source, &route),
            NeighborOption::Prefix(prefix) => learn_prefix(&mut self.prefixes, &prefix),
            NeighborOption::DnsServers { lifetime, servers } => {
                learn_servers(&mut self.servers, lifetime, servers);
            }
            _ => {}
        }
    }

    // Takes what an option tells of a route.
    fn learn_route(&mut self, source: &Ipv6Address, told: &Route<'_>)
        ensures { LearnsRoute source.now told.now (lists_of self.old) (lists_of self.new) }
    {
        if let Preference::Reserved = told.preference {
            return;
        }
        if told.prefix_len == 0 {
            keep_router(&mut self.routers, source, told.preference, told.lifetime);
        } else {
            let destination = told.destination();
            self.keep_route(source, &destination, told);
        }
    }

    // Keeps a route to this destination.
    fn keep_route(&mut self, source: &Ipv6Address, destination: &Ipv6Address, told: &Route<'_>)
        ensures { lists_of self.new ≡ with_route source.now destination.now told.now (lists_of self.old) }
    {
        keep_route(&mut self.routes, source, destination, told);
    }
}

// Takes what the octets of an advertisement tell of the router.
fn learn_router(
    routers: &mut ArrayVec<DefaultRouter, MOST_ROUTERS>,
    source: &Ipv6Address,
    octets: &[u8],
)
    ensures { routers.new.items ≡ routers_with source.now octets.now routers.old.items }
{
    let lifetime = octet(octets, 6) as u32 * 256 + octet(octets, 7) as u32;
    keep_router(routers, source, kept_preference(octet(octets, 5)), lifetime);
}

// Keeps a default router for so many seconds, or with 0 removes it.
fn keep_router(
    routers: &mut ArrayVec<DefaultRouter, MOST_ROUTERS>,
    address: &Ipv6Address,
    preference: Preference,
    lifetime: u32,
)
    ensures { routers.new.items ≡ routers_kept address.now preference lifetime routers.old.items }
{
    if lifetime == 0 {
        remove(routers, address);
        return;
    }
    let _kept = renew(
        routers,
        address,
        DefaultRouter {
            address: *address,
            preference,
            lifetime,
        },
    );
}

// Keeps a route to this destination for as long as an option says, or removes it.
fn keep_route(
    routes: &mut ArrayVec<RouteEntry, MOST_ROUTES>,
    source: &Ipv6Address,
    destination: &Ipv6Address,
    told: &Route<'_>,
)
    ensures { routes.new.items ≡ routes_kept source.now destination.now told.now routes.old.items }
{
    let key = RouteKey {
        router: *source,
        prefix_len: told.prefix_len,
        prefix: *destination,
    };
    if told.lifetime == 0 {
        remove(routes, &key);
        return;
    }
    let _kept = renew(
        routes,
        &key,
        RouteEntry {
            router: *source,
            prefix_len: told.prefix_len,
            prefix: *destination,
            preference: told.preference,
            lifetime: Lifetime::of(told.lifetime),
        },
    );
}

// The octet at a place, or zero behind the last.
fn octet(octets: &[u8], place: usize) -> u8
    ensures { result ≡ slice_index octets.now place }
{
    match octets.get(place) {
        Some(octet) => *octet,
        None => 0,
    }
}

// The preference of a router whose advertisement has these flags.
fn kept_preference(flags: u8) -> Preference
    ensures { result ≡ kept_preference flags }
{
    match router_preference(flags) {
        Preference::Reserved => Preference::Medium,
        preference => preference,
    }
}

// Takes what an option tells of a prefix.
fn learn_prefix(prefixes: &mut ArrayVec<OnLinkPrefix, MOST_PREFIXES>, told: &Prefix)
    ensures { LearnsPrefix told.now prefixes.old.items prefixes.new.items }
{
    if !told.on_link || told.prefix.is_link_local() {
        return;
    }
    let key = PrefixKey {
        prefix_len: told.prefix_len,
        prefix: told.prefix,
    };
    if told.valid_lifetime == 0 {
        remove(prefixes, &key);
        return;
    }
    let _kept = renew(
        prefixes,
        &key,
        OnLinkPrefix {
            prefix_len: told.prefix_len,
            prefix: told.prefix,
            autonomous: told.autonomous,
            valid: Lifetime::of(told.valid_lifetime),
            preferred: Lifetime::of(told.preferred_lifetime),
        },
    );
}

// Takes what an option tells of recursive DNS servers.
fn learn_servers(
    servers: &mut ArrayVec<DnsServer, MOST_SERVERS>,
    lifetime: u32,
    addresses: Servers<'_>,
)
    ensures { LearnsServers lifetime (octets_in addresses.entry) servers.old.items servers.new.items }
{
    for address in addresses.iter() {
        learn_server(servers, lifetime, &address);
    }
}

// Takes what an option tells of one of them.
fn learn_server(
    servers: &mut ArrayVec<DnsServer, MOST_SERVERS>,
    lifetime: u32,
    address: &Ipv6Address,
)
    ensures { servers.new.items ≡ servers_with lifetime address.now servers.old.items }
{
    if lifetime == 0 {
        remove(servers, address);
        return;
    }
    let _kept = renew(
        servers,
        address,
        DnsServer {
            address: *address,
            lifetime: Lifetime::of(lifetime),
        },
    );
}

// Whether one of the prefixes is that of an address.
fn is_on_link(prefixes: &[OnLinkPrefix], address: &Ipv6Address) -> bool
    ensures { result ≡ is_on_link address.now prefixes.now }
{
    for prefix in prefixes {
        if is_within(address, &prefix.prefix, prefix.prefix_len) {
            return true;
        }
    }
    false
}
