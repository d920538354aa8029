//! A cache of neighbors of a link, of bounded size (RFC 4861 sections 5.1, 7.2 and 7.3).

ghost use Rattle.std.specs.Prelude.{◌≡◌, ◌↔◌, [], IsTrue};
ghost use Rattle.std.specs.List.{filter_map, find};
ghost use Rattle.std.specs.Option.{option_map};
ghost use Rattle.examples.specs.NeighborEntry.{entry_after, is_due, told_of, used};
ghost use Rattle.examples.specs.TimedList.{IsKept};
ghost use Rattle.examples.specs.NeighborCache.{IsLearned, entries_of, found, is_at, stops_routing};
ghost use Rattle.examples.specs.NeighborCache.{with_advertised, with_asked, with_begun, with_solicited, with_used};

pub mod entry;

use crate::neighbor::NeighborInformation;
use crate::timed_list::{look_up, pass, renew};
use arrayvec::ArrayVec;
use control_wire::{Ipv6Address, RawHardwareAddress};
use entry::{CacheEntry, advertised, asked, asked_for, is_due, solicited, told_by, used};

/// The most neighbors that are kept.
pub const MOST_NEIGHBORS: usize = 16;

/// The neighbors that are known. A new one that finds the cache full is not kept, and the call that brings it says so.
#[derive(Drop)]
pub struct NeighborCache {
    entries: ArrayVec<CacheEntry, MOST_NEIGHBORS>,
}

impl NeighborCache {
    /// An empty cache.
    pub fn new() -> NeighborCache
        ensures { entries_of result ≡ [] }
    {
        NeighborCache {
            entries: ArrayVec::new(),
        }
    }

    /// The entries, in the order in which they came.
    pub fn entries(&self) -> &[CacheEntry]
        ensures { result.now ≡ entries_of self.now }
    {
        self.entries.as_slice()
    }

    /// The entry of an address. None where there is none.
    pub fn look_up(&self, address: &Ipv6Address) -> Option<CacheEntry>
        ensures { result ≡ found address.now (entries_of self.now) }
    {
        look_up(self.entries.as_slice(), address)
    }

    /// Learns from a valid solicitation, which came from `source` and tells this link-layer address (RFC 4861 section
    /// 7.2.3): a new entry is stale, and so is one that had another address. Nothing is learned of `::`, nor where no
    /// address is told. False exactly where nothing is learned, also where the neighbor is new and the cache is full.
    pub fn learn_from_solicitation(
        &mut self,
        source: &Ipv6Address,
        lladdr: Option<RawHardwareAddress>,
    ) -> bool
        ensures told { IsTrue result ↔ IsLearned source.now lladdr (entries_of self.old) }
        ensures value { entries_of self.new ≡ with_solicited source.now lladdr (entries_of self.old) }
    {
        if source.is_unspecified() {
            return false;
        }
        let Some(lladdr) = lladdr else {
            return false;
        };
        let entry = solicited(source, lladdr, self.look_up(source));
        renew(&mut self.entries, source, entry)
    }

    /// Learns from a valid advertisement (RFC 4861 section 7.2.5). A neighbor that answers is reachable for so many
    /// milliseconds. Nothing is learned of a neighbor that has no entry. True exactly where it was a router and is none
    /// any more, so that it is not to be a default router any longer.
    pub fn learn_from_advertisement(
        &mut self,
        neighbor: &NeighborInformation,
        reachable: u32,
    ) -> bool
        ensures ends { result ≡ stops_routing neighbor.now.addr (told_of neighbor.now) reachable (entries_of self.old) }
        ensures value { entries_of self.new
            ≡ with_advertised neighbor.now.addr (told_of neighbor.now) reachable (entries_of self.old) }
    {
        let Some(entry) = self.look_up(&neighbor.addr) else {
            return false;
        };
        let new = advertised(entry, &told_by(neighbor), reachable);
        let _kept = renew(&mut self.entries, &neighbor.addr, new);
        entry.is_router && !new.is_router
    }

    /// Begins to ask for a neighbor, where it has no entry (RFC 4861 section 7.2.2): `next_solicitation` gives it then.
    /// False exactly where it has none and the cache is full.
    #[tactic(auto, using(crate::proofs::TimedLists::find_has))]
    pub fn begin(&mut self, address: &Ipv6Address) -> bool
        ensures told { IsTrue result ↔ IsKept MOST_NEIGHBORS (is_at address.now) (entries_of self.old) }
        ensures value { entries_of self.new ≡ with_begun address.now (entries_of self.old) }
    {
        match self.look_up(address) {
            Some(_) => true,
            None => renew(&mut self.entries, address, asked_for(address)),
        }
    }

    /// The entry of a neighbor that something is sent to now. Where it was stale it is asked in five seconds, if it was
    /// not heard by then (RFC 4861 section 7.3.3). None where it has no entry.
    pub fn use_entry(&mut self, address: &Ipv6Address) -> Option<CacheEntry>
        ensures value { result ≡ option_map used (found address.now (entries_of self.old)) }
        ensures entries { entries_of self.new ≡ with_used address.now (entries_of self.old) }
    {
        let entry = used(self.look_up(address)?);
        let _kept = renew(&mut self.entries, address, entry);
        Some(entry)
    }

    /// The first neighbor that is to be asked now, as its entry was: where that is incomplete, by a solicitation to its
    /// solicited-node address, else by one to itself (RFC 4861 sections 7.2.2 and 7.3.3). It counts as asked, and is so
    /// again in `retrans` milliseconds, three times at most. None where none is.
    pub fn next_solicitation(&mut self, retrans: u32) -> Option<CacheEntry>
        ensures value { result ≡ find is_due (entries_of self.old) }
        ensures entries { entries_of self.new ≡ with_asked retrans (entries_of self.old) }
    {
        let entry = next_due(self.entries.as_slice())?;
        let _kept = renew(&mut self.entries, &entry.address, asked(entry, retrans));
        Some(entry)
    }

    /// Lets so many milliseconds pass: a neighbor that was reachable is stale when its time is over, one that something
    /// was sent to is to be asked, and one that was asked three times and does not answer is dropped.
    pub fn pass(&mut self, milliseconds: u32)
        ensures { entries_of self.new ≡ filter_map (entry_after milliseconds) (entries_of self.old) }
    {
        pass(&mut self.entries, milliseconds);
    }
}

// The first of these that is to be asked now.
fn next_due(entries: &[CacheEntry]) -> Option<CacheEntry>
    ensures { result ≡ find is_due entries.now }
{
    for entry in entries {
        if is_due(entry) {
            return Some(*entry);
        }
    }
    None
}
