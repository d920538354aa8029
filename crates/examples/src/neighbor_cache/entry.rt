//! An entry of the cache of neighbors, and what messages and time change of it.

ghost use Rattle.std.specs.Prelude.{◌≡◌};
ghost use Rattle.control_wire.specs.NdiscTables.{neighbor_bits};
ghost use Rattle.examples.specs.NeighborEntry.{advertised, asked, asked_for, at_ease, confirmed, doubted, has_flags};
ghost use Rattle.examples.specs.NeighborEntry.{heard, is_due, moved, same_link, solicited, told_of, unknown, used};
ghost use Rattle.examples.specs.NeighborEntry.{with_link};

use crate::neighbor::NeighborInformation;
use crate::timed_list::Entry;
use bitflags::Flags as _;
use control_wire::ndisc::NeighborFlags;
use control_wire::{Ipv6Address, RawHardwareAddress};

/// How often a neighbor is asked that does not answer: `MAX_UNICAST_SOLICIT` and `MAX_MULTICAST_SOLICIT` of RFC 4861
/// section 10.
pub const MOST_SOLICITATIONS: u8 = 3;

// How many milliseconds a neighbor that something was sent to is not asked yet (RFC 4861 section 10).
const DELAY_FIRST_PROBE_TIME: u32 = 5_000;

/// What is known of the way to a neighbor (RFC 4861 section 7.3.2).
#[derive(Debug, PartialEq, Eq, Clone, Copy)]
pub enum State {
    /// Its link-layer address is not known yet, and it is asked for.
    Incomplete,
    /// It was heard a short time ago.
    Reachable,
    /// It may not be there any more; it is not asked before something is sent to it.
    Stale,
    /// Something was sent to it, and it is asked soon.
    Delay,
    /// It is asked whether it is there.
    Probe,
}

/// What is known of a neighbor (RFC 4861 section 5.1).
#[derive(Debug, PartialEq, Eq, Clone, Copy)]
pub struct CacheEntry {
    /// Its address.
    pub address: Ipv6Address,
    /// Its link-layer address.
    pub lladdr: Option<RawHardwareAddress>,
    /// Whether it is a router.
    pub is_router: bool,
    /// What is known of the way to it.
    pub state: State,
    /// How many milliseconds it stays so, or until it is asked again; 0 where it is stale, which it stays.
    pub left: u32,
    /// How often it is still asked; 0 where it is not asked.
    pub solicitations: u8,
}

impl Default for CacheEntry {
    fn default() -> CacheEntry {
        CacheEntry {
            address: Ipv6Address::UNSPECIFIED,
            lladdr: None,
            is_router: false,
            state: State::Stale,
            left: 0,
            solicitations: 0,
        }
    }
}

impl Entry for CacheEntry {
    ghost use Rattle.examples.specs.RouterEntries.{same_address};
    ghost use Rattle.examples.specs.NeighborEntry.{entry_after};

    type Key = Ipv6Address;

    ghost is_of = { λ address entry. same_address address entry.address };

    ghost after = { entry_after };

    fn is_of(&self, address: &Ipv6Address) -> bool {
        *address == self.address
    }

    fn after(&self, passed: u32) -> Option<CacheEntry> {
        let left = self.left.saturating_sub(passed);
        let later = CacheEntry { left, ..*self };
        if left != 0 {
            return Some(later);
        }
        match self.state {
            State::Reachable => Some(CacheEntry {
                state: State::Stale,
                ..later
            }),
            State::Delay => Some(CacheEntry {
                state: State::Probe,
                solicitations: MOST_SOLICITATIONS,
                ..later
            }),
            State::Stale => Some(later),
            State::Incomplete | State::Probe => {
                if self.solicitations == 0 {
                    None
                } else {
                    Some(later)
                }
            }
        }
    }
}

// What an advertisement tells of a neighbor: its link-layer address, whether it is a router, whether it was asked, and
// whether this takes the place of another link-layer address.
#[derive(Debug, PartialEq, Eq, Clone, Copy)]
pub(crate) struct Told {
    lladdr: Option<RawHardwareAddress>,
    is_router: bool,
    is_solicited: bool,
    overrides: bool,
}

// What an advertisement tells.
pub(crate) fn told_by(neighbor: &NeighborInformation) -> Told
    ensures { result ≡ told_of neighbor.now }
{
    Told {
        lladdr: neighbor.lladdr,
        is_router: has(neighbor.flags, NeighborFlags::ROUTER),
        is_solicited: has(neighbor.flags, NeighborFlags::SOLICITED),
        overrides: has(neighbor.flags, NeighborFlags::OVERRIDE),
    }
}

// Whether flags have those flags.
fn has(flags: NeighborFlags, wanted: NeighborFlags) -> bool
    ensures { result ≡ has_flags flags (neighbor_bits wanted) }
{
    flags.contains(wanted)
}

// The entry of a neighbor of which nothing is known.
fn unknown(address: &Ipv6Address) -> CacheEntry
    ensures { result ≡ unknown address.now }
{
    CacheEntry {
        address: *address,
        lladdr: None,
        is_router: false,
        state: State::Stale,
        left: 0,
        solicitations: 0,
    }
}

// The entry of a neighbor that is asked for the first time, which is due at once (RFC 4861 section 7.2.2).
pub(crate) fn asked_for(address: &Ipv6Address) -> CacheEntry
    ensures { result ≡ asked_for address.now }
{
    CacheEntry {
        state: State::Incomplete,
        solicitations: MOST_SOLICITATIONS,
        ..unknown(address)
    }
}

// The entry of a neighbor that something is sent to (RFC 4861 section 7.3.3).
pub(crate) fn used(entry: CacheEntry) -> CacheEntry
    ensures { result ≡ used entry }
{
    match entry.state {
        State::Stale => CacheEntry {
            state: State::Delay,
            left: DELAY_FIRST_PROBE_TIME,
            ..entry
        },
        _ => entry,
    }
}

// Whether a neighbor is to be asked now.
pub(crate) fn is_due(entry: &CacheEntry) -> bool
    ensures { result ≡ is_due entry.now }
{
    entry.left == 0 && entry.solicitations != 0
}

// The entry of a neighbor that was asked once more, and that may be so again in so many milliseconds.
pub(crate) fn asked(entry: CacheEntry, retrans: u32) -> CacheEntry
    ensures { result ≡ asked retrans entry }
{
    CacheEntry {
        left: retrans,
        solicitations: entry.solicitations.saturating_sub(1),
        ..entry
    }
}

// The entry of a neighbor that solicits, whose entry so far is this one (RFC 4861 section 7.2.3).
pub(crate) fn solicited(
    address: &Ipv6Address,
    lladdr: RawHardwareAddress,
    before: Option<CacheEntry>,
) -> CacheEntry
    ensures { result ≡ solicited address.now lladdr before }
{
    match before {
        Some(entry) => with_link(entry, lladdr),
        None => with_link(unknown(address), lladdr),
    }
}

// An entry with this link-layer address, which is stale where it had another.
fn with_link(entry: CacheEntry, lladdr: RawHardwareAddress) -> CacheEntry
    ensures { result ≡ with_link lladdr entry }
{
    if is_link(&entry, &lladdr) {
        return entry;
    }
    at_ease(CacheEntry {
        lladdr: Some(lladdr),
        ..entry
    })
}

// Whether this is the link-layer address of an entry.
fn is_link(entry: &CacheEntry, lladdr: &RawHardwareAddress) -> bool
    ensures { result ≡ same_link entry.now.lladdr lladdr.now }
{
    match &entry.lladdr {
        Some(known) => known.as_bytes() == lladdr.as_bytes(),
        None => false,
    }
}

// An entry that is stale.
fn at_ease(entry: CacheEntry) -> CacheEntry
    ensures { result ≡ at_ease entry }
{
    CacheEntry {
        state: State::Stale,
        left: 0,
        solicitations: 0,
        ..entry
    }
}

// An entry that is reachable for so many milliseconds.
fn confirmed(entry: CacheEntry, reachable: u32) -> CacheEntry
    ensures { result ≡ confirmed reachable entry }
{
    CacheEntry {
        state: State::Reachable,
        left: reachable,
        solicitations: 0,
        ..entry
    }
}

// The entry of a neighbor that advertises (RFC 4861 section 7.2.5).
pub(crate) fn advertised(entry: CacheEntry, told: &Told, reachable: u32) -> CacheEntry
    ensures { result ≡ advertised told.now reachable entry }
{
    match (entry.state, told.lladdr) {
        (State::Incomplete, None) => entry,
        (State::Incomplete, Some(lladdr)) => moved(entry, lladdr, told, reachable),
        (_, None) => heard(entry, told, reachable),
        (_, Some(lladdr)) => {
            if is_link(&entry, &lladdr) {
                heard(entry, told, reachable)
            } else if told.overrides {
                moved(entry, lladdr, told, reachable)
            } else {
                doubted(entry)
            }
        }
    }
}

// The entry of a neighbor that tells a link-layer address, which takes the place of what was known.
fn moved(entry: CacheEntry, lladdr: RawHardwareAddress, told: &Told, reachable: u32) -> CacheEntry
    ensures { result ≡ moved told.now reachable lladdr entry }
{
    let entry = CacheEntry {
        lladdr: Some(lladdr),
        is_router: told.is_router,
        ..entry
    };
    if told.is_solicited {
        confirmed(entry, reachable)
    } else {
        at_ease(entry)
    }
}

// The entry of a neighbor that tells the link-layer address that was known, or none.
fn heard(entry: CacheEntry, told: &Told, reachable: u32) -> CacheEntry
    ensures { result ≡ heard told.now reachable entry }
{
    let entry = CacheEntry {
        is_router: told.is_router,
        ..entry
    };
    if told.is_solicited {
        confirmed(entry, reachable)
    } else {
        entry
    }
}

// The entry of a neighbor that tells another link-layer address, which does not take the place of that which was known.
fn doubted(entry: CacheEntry) -> CacheEntry
    ensures { result ≡ doubted entry }
{
    match entry.state {
        State::Reachable => at_ease(entry),
        _ => entry,
    }
}
