use crate::testing::same;
use bitflags::Flags as _;
use control_wire::ndisc::NeighborFlags;
use control_wire::{EthernetAddress, Ipv6Address, RawHardwareAddress};
use examples::neighbor::NeighborInformation;
use examples::neighbor_cache::entry::{CacheEntry, State};
use examples::neighbor_cache::{MOST_NEIGHBORS, NeighborCache};

const REACHABLE: u32 = 30_000;

const RETRANS: u32 = 1_000;

fn neighbor(last: u16) -> Ipv6Address {
    Ipv6Address::new(0xfe80, 0, 0, 0, 0, 0, 0, last)
}

fn link(last: u8) -> RawHardwareAddress {
    RawHardwareAddress::from(EthernetAddress([0x02, 0, 0, 0, 0, last]))
}

fn entry(lladdr: u8, state: State, left: u32) -> CacheEntry {
    CacheEntry {
        address: neighbor(2),
        lladdr: Some(link(lladdr)),
        is_router: false,
        state,
        left,
        solicitations: 0,
    }
}

fn told(flags: NeighborFlags, lladdr: Option<RawHardwareAddress>) -> NeighborInformation {
    NeighborInformation {
        addr: neighbor(2),
        flags,
        lladdr,
    }
}

// A cache that has the neighbor fe80::2 with the link-layer address of this last octet, stale or reachable.
fn cache(lladdr: u8, is_reachable: bool) -> NeighborCache {
    let mut cache = NeighborCache::new();
    let _kept = cache.learn_from_solicitation(&neighbor(2), Some(link(lladdr)));
    if is_reachable {
        let _ends = cache.learn_from_advertisement(
            &told(NeighborFlags::SOLICITED, None),
            REACHABLE,
        );
    }
    cache
}

// Another link-layer address makes an entry stale (RFC 4861 section 7.2.3).
#[test]
fn a_neighbor_that_solicits_is_stale(rt: HostRuntime) {
    let mut cache = NeighborCache::new();
    same(
        &rt,
        cache.learn_from_solicitation(&neighbor(2), None),
        false,
    );
    let of_no_one = cache.learn_from_solicitation(&Ipv6Address::UNSPECIFIED, Some(link(1)));
    same(&rt, of_no_one, false);
    same(&rt, cache.look_up(&neighbor(2)), None);
    same(
        &rt,
        cache.learn_from_solicitation(&neighbor(2), Some(link(1))),
        true,
    );
    same(
        &rt,
        cache.look_up(&neighbor(2)),
        Some(entry(1, State::Stale, 0)),
    );
    let _ends = cache.learn_from_advertisement(&told(NeighborFlags::SOLICITED, None), REACHABLE);
    same(
        &rt,
        cache.learn_from_solicitation(&neighbor(2), Some(link(1))),
        true,
    );
    same(
        &rt,
        cache.look_up(&neighbor(2)),
        Some(entry(1, State::Reachable, REACHABLE)),
    );
    same(
        &rt,
        cache.learn_from_solicitation(&neighbor(2), Some(link(3))),
        true,
    );
    same(
        &rt,
        cache.look_up(&neighbor(2)),
        Some(entry(3, State::Stale, 0)),
    );
}

// Each row: whether the entry is reachable before, the flags, the link-layer address that is told, and the entry
// (RFC 4861 section 7.2.5). It has the link-layer address that ends in 1 before.
#[test]
fn advertisements_change_entries(rt: HostRuntime) {
    let none = NeighborFlags::from_bits_truncate(0);
    let both = NeighborFlags::SOLICITED | NeighborFlags::OVERRIDE;
    let rows = [
        (false, none, None, entry(1, State::Stale, 0)),
        (true, none, Some(1), entry(1, State::Reachable, REACHABLE)),
        (
            false,
            NeighborFlags::SOLICITED,
            Some(1),
            entry(1, State::Reachable, REACHABLE),
        ),
        (
            false,
            NeighborFlags::SOLICITED,
            None,
            entry(1, State::Reachable, REACHABLE),
        ),
        (
            false,
            NeighborFlags::SOLICITED,
            Some(3),
            entry(1, State::Stale, 0),
        ),
        (
            true,
            NeighborFlags::SOLICITED,
            Some(3),
            entry(1, State::Stale, 0),
        ),
        (
            true,
            NeighborFlags::OVERRIDE,
            Some(3),
            entry(3, State::Stale, 0),
        ),
        (
            true,
            NeighborFlags::OVERRIDE,
            Some(1),
            entry(1, State::Reachable, REACHABLE),
        ),
        (false, both, Some(3), entry(3, State::Reachable, REACHABLE)),
    ];
    for (is_reachable, flags, lladdr, wanted) in rows {
        let mut cache = cache(1, is_reachable);
        let lladdr = match lladdr {
            Some(last) => Some(link(last)),
            None => None,
        };
        let ends = cache.learn_from_advertisement(&told(flags, lladdr), REACHABLE);
        same(&rt, ends, false);
        same(&rt, cache.look_up(&neighbor(2)), Some(wanted));
    }
}

#[test]
fn a_neighbor_that_has_no_entry_is_not_learned(rt: HostRuntime) {
    let mut cache = NeighborCache::new();
    let advertised = told(NeighborFlags::OVERRIDE, Some(link(1)));
    same(
        &rt,
        cache.learn_from_advertisement(&advertised, REACHABLE),
        false,
    );
    same(&rt, cache.entries().is_empty(), true);
}

#[test]
fn a_router_that_is_none_any_more_is_told(rt: HostRuntime) {
    let mut cache = cache(1, false);
    let router = NeighborFlags::ROUTER | NeighborFlags::SOLICITED;
    same(
        &rt,
        cache.learn_from_advertisement(&told(router, None), REACHABLE),
        false,
    );
    let host = told(NeighborFlags::SOLICITED, None);
    same(&rt, cache.learn_from_advertisement(&host, REACHABLE), true);
    same(&rt, cache.learn_from_advertisement(&host, REACHABLE), false);
}

// It is asked three times, a second after each other, and dropped a second after the last.
#[test]
fn a_neighbor_that_does_not_answer_is_dropped(rt: HostRuntime) {
    let mut cache = NeighborCache::new();
    same(&rt, cache.begin(&neighbor(2)), true);
    for left in [3, 2, 1] {
        let Some(asked) = cache.next_solicitation(RETRANS) else {
            panic!(rt; "none is asked");
        };
        same(&rt, asked.state, State::Incomplete);
        same(&rt, asked.solicitations, left);
        same(&rt, cache.next_solicitation(RETRANS), None);
        cache.pass(RETRANS - 1);
        same(&rt, cache.next_solicitation(RETRANS), None);
        cache.pass(1);
    }
    same(&rt, cache.look_up(&neighbor(2)), None);
}

// RFC 4861 section 7.2.5, and without a link-layer address nothing.
#[test]
fn a_neighbor_that_answers_is_known(rt: HostRuntime) {
    let mut cache = NeighborCache::new();
    same(&rt, cache.begin(&neighbor(2)), true);
    let _asked = cache.next_solicitation(RETRANS);
    let _ends = cache.learn_from_advertisement(&told(NeighborFlags::SOLICITED, None), REACHABLE);
    let Some(waiting) = cache.look_up(&neighbor(2)) else {
        panic!(rt; "no entry");
    };
    same(&rt, waiting.state, State::Incomplete);
    let answer = told(NeighborFlags::SOLICITED, Some(link(1)));
    let _ends = cache.learn_from_advertisement(&answer, REACHABLE);
    same(
        &rt,
        cache.look_up(&neighbor(2)),
        Some(entry(1, State::Reachable, REACHABLE)),
    );
    same(&rt, cache.next_solicitation(RETRANS), None);
}

// RFC 4861 section 7.3.3.
#[test]
fn a_neighbor_is_asked_after_it_was_used(rt: HostRuntime) {
    let mut cache = cache(1, true);
    cache.pass(REACHABLE - 1);
    same(
        &rt,
        cache.look_up(&neighbor(2)),
        Some(entry(1, State::Reachable, 1)),
    );
    cache.pass(1);
    same(
        &rt,
        cache.look_up(&neighbor(2)),
        Some(entry(1, State::Stale, 0)),
    );
    cache.pass(1_000_000);
    same(
        &rt,
        cache.use_entry(&neighbor(2)),
        Some(entry(1, State::Delay, 5_000)),
    );
    cache.pass(4_999);
    same(
        &rt,
        cache.use_entry(&neighbor(2)),
        Some(entry(1, State::Delay, 1)),
    );
    same(&rt, cache.next_solicitation(RETRANS), None);
    cache.pass(1);
    let probe = CacheEntry {
        solicitations: 3,
        ..entry(1, State::Probe, 0)
    };
    same(&rt, cache.next_solicitation(RETRANS), Some(probe));
    same(&rt, cache.use_entry(&neighbor(3)), None);
}

#[test]
fn a_full_cache_takes_no_new_neighbor(rt: HostRuntime) {
    let mut cache = NeighborCache::new();
    for last in 0..MOST_NEIGHBORS {
        same(&rt, cache.begin(&neighbor(last as u16)), true);
    }
    same(&rt, cache.begin(&neighbor(100)), false);
    let new = cache.learn_from_solicitation(&neighbor(100), Some(link(1)));
    same(&rt, new, false);
    same(&rt, cache.entries().len(), MOST_NEIGHBORS);
    same(
        &rt,
        cache.learn_from_solicitation(&neighbor(2), Some(link(1))),
        true,
    );
    same(
        &rt,
        cache.look_up(&neighbor(2)),
        Some(entry(1, State::Stale, 0)),
    );
}
