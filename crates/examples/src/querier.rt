//! A router that asks the hosts of a link which multicast groups they want, and keeps what they answer: IGMP, versions
//! 2 and 3 (RFC 2236 section 7, RFC 3376 section 6), over IPv4, and MLD, versions 1 and 2 (RFC 2710 section 5, RFC 3810
//! section 7), over IPv6.
//!
//! It keeps which groups some host wants, from all sources or from single ones; where a host excludes sources, the
//! group counts as wanted from all (RFC 5790 section 5). The caller brings the messages that came from the link, and
//! the time, and sends the queries, to all hosts (224.0.0.1, `ff02::1`) or to the group, with hop limit 1 and a router
//! alert.

ghost use Rattle.std.specs.Prelude.{◌≡◌, ◌↔◌, IsTrue, option_map};
ghost use Rattle.std.specs.List.{find};
ghost use Rattle.examples.specs.Querier.{asked_in, asks_in, initial, later, state_of, with_asked, with_group};
ghost use Rattle.examples.specs.Querier.{with_query, Hears, HearsAsked, HearsQuery};
ghost use Rattle.examples.specs.Reception.{is_due, key_of};
ghost use Rattle.group_wire.specs.Sources.{octets_in};

pub mod reception;
mod reports;
pub mod variables;

use crate::timed_list::{pass, renew};
use arrayvec::ArrayVec;
use group_wire::{Membership, Message, Sources};
use reception::{Meant, Reception, ReceptionKey, RouterAddress, asked, next_due};
use reports::{Change, hear_report, hear_sources, leave, receive};
use variables::Times;

/// What a query asks about.
#[derive(Debug, PartialEq, Eq, Clone, Copy)]
pub enum Asked<A> {
    /// All groups.
    All,
    /// A group, or a source of it.
    Reception(ReceptionKey<A>),
}

/// A router on a link, which is the querier where no other has a lower address. It keeps up to `N` receptions; one that
/// finds the list full is not kept.
#[derive(Drop)]
pub struct Querier<A, const N: usize> {
    own: A,
    times: Times,
    // The milliseconds for which another router is the querier.
    other: u64,
    // How many general queries of those at start are left, and the milliseconds until the next one.
    startup: u8,
    next: u64,
    receptions: ArrayVec<Reception<A>, N>,
}

impl<A: RouterAddress, const N: usize> Querier<A, N> {
    /// A router with this address on the link, which begins to ask.
    pub fn new(own: A, times: Times) -> Querier<A, N>
        ensures { state_of result ≡ initial own times }
    {
        Querier {
            own,
            times,
            other: 0,
            startup: times.robustness,
            next: 0,
            receptions: ArrayVec::new(),
        }
    }

    /// What the hosts of the link want, in the order in which it was first heard.
    pub fn receptions(&self) -> &[Reception<A>]
        ensures { result.now ≡ (state_of self.now).receptions }
    {
        self.receptions.as_slice()
    }

    /// Whether it is the querier.
    pub fn is_querier(&self) -> bool
        ensures { IsTrue result ↔ ((state_of self.now).other ≡ 0) }
    {
        self.other == 0
    }

    /// Lets so many milliseconds pass: what no host asked for again in its time is dropped.
    pub fn pass(&mut self, milliseconds: u32)
        ensures { state_of self.new ≡ later milliseconds (state_of self.old) }
    {
        self.other = self.other.saturating_sub(milliseconds as u64);
        self.next = self.next.saturating_sub(milliseconds as u64);
        pass(&mut self.receptions, milliseconds);
    }

    /// Takes a message that came from this address. A report says what a host wants, which counts for the group
    /// membership interval. Where one leaves, the querier asks whether others are left, and waits no longer for them
    /// than the last member query time (RFC 3376 section 6.4). A query from a lower address says that its sender is the
    /// querier, and what it asks about counts for no longer than that time (RFC 3376 section 6.6). The caller checks
    /// that a query did not come from the unspecified address, which is no router's.
    pub fn hear(&mut self, source: &A, message: &Membership<'_, A>)
        ensures { Hears A.eq A.bytes A.is_below A.family N source.now message.now
            (state_of self.old) (state_of self.new) }
    {
        let times = self.times;
        match message {
            Message::OlderQuery { group, .. } => {
                self.hear_query(source, false, group, Sources::none());
            }
            Message::Query(query) => {
                self.hear_query(source, query.s_flag, &query.group, query.sources);
            }
            Message::OldestReport { group } => self.hear_group(group, times.membership),
            Message::OlderReport { group } => self.hear_group(group, 0),
            Message::Leave { group } => {
                let asks = self.asks();
                let meant = Meant::Group(*group);
                leave(&mut self.receptions, &meant, times.last_member_time, asks);
            }
            Message::Report { records } => {
                let asks = self.asks();
                hear_report(&mut self.receptions, records, &times, asks);
            }
        }
    }

    // A host wants a group from all sources, and is of version 1 of IGMP for this time.
    fn hear_group(&mut self, group: &A, oldest: u64)
        ensures { state_of self.new ≡ with_group A.eq N group.now oldest (state_of self.old) }
    {
        let key = ReceptionKey {
            group: *group,
            source: None,
        };
        receive(&mut self.receptions, &key, self.times.membership, oldest);
    }

    // How often it asks where a host leaves. None where it is not the querier.
    fn asks(&self) -> Option<u8>
        ensures { result ≡ asks_in (state_of self.now) }
    {
        if self.other == 0 {
            Some(self.times.robustness)
        } else {
            None
        }
    }

    // Takes a query.
    fn hear_query(&mut self, source: &A, s_flag: bool, group: &A, sources: Sources<'_, A>)
        ensures { HearsQuery A.eq A.bytes A.is_below A.family N source.now s_flag group.now
            (octets_in sources.entry) (state_of self.old) (state_of self.new) }
    {
        if !source.is_below(&self.own) {
            return;
        }
        self.other = self.times.other_querier;
        self.startup = 0;
        self.next = 0;
        let times = self.times;
        hear_asked(&mut self.receptions, s_flag, group, sources, &times);
    }

    /// The query that is to be sent now. It counts as sent: a general query is so again after the query interval, at
    /// start after a quarter of it, and one of a group or source after the last member query interval, until its number
    /// is reached or a host answers. None where none is, or where another router is the querier.
    pub fn next_query(&mut self) -> Option<Asked<A>>
        ensures value { result ≡ asked_in (state_of self.old) }
        ensures state { state_of self.new ≡ with_query A.eq N (state_of self.old) }
    {
        if self.other > 0 {
            return None;
        }
        if self.next == 0 {
            self.next = self.times.after(self.startup);
            self.startup = self.startup.saturating_sub(1);
            return Some(Asked::All);
        }
        ask(&mut self.receptions, self.times.last_member_interval)
    }
}

// The first reception of which a query is due, and counts as sent.
fn ask<A: RouterAddress, const N: usize>(
    receptions: &mut ArrayVec<Reception<A>, N>,
    interval: u64,
) -> Option<Asked<A>>
    ensures value { result ≡ option_map (λ r. Asked.Reception (key_of r)) (find is_due receptions.old.items) }
    ensures list { receptions.new.items
        ≡ with_asked A.eq N interval receptions.old.items (find is_due receptions.old.items) }
{
    match next_due(receptions.as_slice()) {
        Some(reception) => {
            let key = reception.key();
            let _kept = renew(receptions, &key, asked(&reception, interval));
            Some(Asked::Reception(key))
        }
        None => None,
    }
}

// What another router asks about is to be answered within the last member query time, but where the flag S is set.
fn hear_asked<A: RouterAddress, const N: usize>(
    receptions: &mut ArrayVec<Reception<A>, N>,
    s_flag: bool,
    group: &A,
    sources: Sources<'_, A>,
    times: &Times,
)
    ensures { HearsAsked A.eq A.bytes A.family N times.now s_flag group.now (octets_in sources.entry)
        receptions.old.items receptions.new.items }
{
    if s_flag {
        return;
    }
    if sources.is_empty() {
        let meant = Meant::One(ReceptionKey {
            group: *group,
            source: None,
        });
        leave(receptions, &meant, times.last_member_time, Some(0));
    } else {
        hear_sources(receptions, *group, sources, times, Change::Leaves(Some(0)));
    }
}
