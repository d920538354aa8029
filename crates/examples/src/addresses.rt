//! The addresses that a host has on a link: of each it sees first whether another has it, and it forms some itself, of
//! the prefixes that routers advertise (RFC 4862).

ghost use Rattle.std.specs.Prelude.{◌≡◌, ◌++◌, ◌↔◌, [], IsTrue, map, take, drop};
ghost use Rattle.std.specs.List.{filter_map, find};
ghost use Rattle.std.specs.Option.{option_map};
ghost use Rattle.control_wire.specs.Ipv6Address.{octets_of};
ghost use Rattle.examples.specs.Addresses.{Forms, LearnsAutonomous, added, entries_of, found, is_assigned, is_due};
ghost use Rattle.examples.specs.Addresses.{is_of_link, is_open, is_refused};
ghost use Rattle.examples.specs.Addresses.{own_after, prolonged, prolonged_lifetime, source_of, stepped, waited};
ghost use Rattle.examples.specs.Addresses.{with_formed, with_refused, with_stepped};

use crate::ranked::{Ranked, best};
use crate::router_list::entries::Lifetime;
use crate::timed_list::{Entry, look_up, pass, renew};
use arrayvec::ArrayVec;
use control_wire::Ipv6Address;
use neighbor_wire::Prefix;

/// The most addresses that are kept.
pub const MOST_ADDRESSES: usize = 16;

/// How many milliseconds a host waits after it asked whether another has an address (RFC 4862 section 5.1, RFC 4861
/// section 10).
pub const DETECTION_TIME: u32 = 1_000;

// The bits of a prefix of which addresses are formed: an interface identifier has 64, too (RFC 4291 section 2.5.1).
const FORMED_LEN: u8 = 64;

// A valid lifetime is not shortened to less than two hours (RFC 4862 section 5.5.3(e)).
const TWO_HOURS: u32 = 7_200;

/// What is known of an address (RFC 4862 section 2).
#[derive(Debug, PartialEq, Eq, Clone, Copy)]
pub enum State {
    /// It was not asked yet whether another has it.
    New,
    /// It was asked, and nobody has answered yet.
    Tentative,
    /// It is the host's.
    Assigned,
    /// Another has it.
    Duplicate,
}

/// An address.
#[derive(Debug, PartialEq, Eq, Clone, Copy)]
pub struct OwnAddress {
    /// The address.
    pub address: Ipv6Address,
    /// What is known of it.
    pub state: State,
    /// How many milliseconds the host still waits for an answer.
    pub left: u32,
    /// How long it is still valid.
    pub valid: Lifetime,
    /// How long it is still preferred.
    pub preferred: Lifetime,
}

impl Default for OwnAddress {
    fn default() -> OwnAddress {
        OwnAddress {
            address: Ipv6Address::UNSPECIFIED,
            state: State::New,
            left: 0,
            valid: Lifetime::Seconds(0),
            preferred: Lifetime::Seconds(0),
        }
    }
}

impl Entry for OwnAddress {
    ghost use Rattle.examples.specs.RouterEntries.{same_address};
    ghost use Rattle.examples.specs.Addresses.{own_after};

    type Key = Ipv6Address;

    ghost is_of = { λ address entry. same_address address entry.address };

    ghost after = { own_after };

    fn is_of(&self, address: &Ipv6Address) -> bool {
        *address == self.address
    }

    fn after(&self, passed: u32) -> Option<OwnAddress> {
        let valid = self.valid.after(passed);
        if valid.is_over() {
            return None;
        }
        Some(OwnAddress {
            valid,
            preferred: self.preferred.after(passed),
            ..*self
        })
    }
}

// The scope counts before the preferred lifetime (RFC 6724 section 5, rules 2 and 3).
impl Ranked for OwnAddress {
    ghost use Rattle.examples.specs.Addresses.{source_rank};

    ghost rank = { source_rank };

    fn rank(&self, destination: &Ipv6Address) -> u32 {
        if !is_assigned(self.state) {
            return 0;
        }
        let scope = if is_of_link(&self.address) == is_of_link(destination) {
            2
        } else {
            0
        };
        let preferred = if self.preferred.is_over() { 0 } else { 1 };
        1 + scope + preferred
    }
}

/// The addresses of a host. What finds the list full is not kept.
#[derive(Drop)]
pub struct Addresses {
    entries: ArrayVec<OwnAddress, MOST_ADDRESSES>,
}

impl Addresses {
    /// No addresses.
    pub fn new() -> Addresses
        ensures { entries_of result ≡ [] }
    {
        Addresses {
            entries: ArrayVec::new(),
        }
    }

    /// The addresses, in the order in which they came.
    pub fn entries(&self) -> &[OwnAddress]
        ensures { result.now ≡ entries_of self.now }
    {
        self.entries.as_slice()
    }

    /// What is known of an address. None where nothing is.
    pub fn look_up(&self, address: &Ipv6Address) -> Option<OwnAddress>
        ensures { result ≡ found address.now (entries_of self.now) }
    {
        look_up(self.entries.as_slice(), address)
    }

    /// The address from which packets to a destination are sent: the first of the host's with the same scope, that of
    /// the link or another, or else the first of the host's; in either case one that is still preferred, where there is
    /// one. None where the host has none.
    pub fn source(&self, destination: &Ipv6Address) -> Option<Ipv6Address>
        ensures { result ≡ source_of destination.now (entries_of self.now) }
    {
        match best(self.entries.as_slice(), destination) {
            Some(entry) => Some(entry.address),
            None => None,
        }
    }

    /// Takes an address with these lifetimes, where it has no entry: it is new.
    pub fn add(&mut self, address: &Ipv6Address, valid: Lifetime, preferred: Lifetime)
        ensures { entries_of self.new ≡ added address.now valid preferred (entries_of self.old) }
    {
        match self.look_up(address) {
            Some(_) => {}
            None => {
                let entry = OwnAddress {
                    address: *address,
                    state: State::New,
                    left: 0,
                    valid,
                    preferred,
                };
                let _kept = renew(&mut self.entries, address, entry);
            }
        }
    }

    /// Takes what a router advertises of a prefix. Where a host forms an address of it, which has the interface
    /// identifier of `own`, its last 64 bits, this address is new, or where it has an entry, preferred for as long as
    /// the prefix says, and valid for as long, but for no less than two hours or what is left (RFC 4862 section 5.5.3).
    pub fn learn_prefix(&mut self, told: &Prefix, own: &Ipv6Address)
        ensures { LearnsAutonomous told.now own.now (entries_of self.old) (entries_of self.new) }
    {
        if forms(told) {
            let address = formed(&told.prefix, own);
            self.learn_formed(told, &address);
        }
    }

    // Takes what a router advertises of a prefix of which this address is formed.
    fn learn_formed(&mut self, told: &Prefix, address: &Ipv6Address)
        ensures { entries_of self.new ≡ with_formed told.now address.now (entries_of self.old) }
    {
        match self.look_up(address) {
            Some(entry) => {
                let _kept = renew(&mut self.entries, address, prolonged(entry, told));
            }
            None => {
                if told.valid_lifetime != 0 {
                    let preferred = Lifetime::of(told.preferred_lifetime);
                    self.add(address, Lifetime::of(told.valid_lifetime), preferred);
                }
            }
        }
    }

    /// The first address for which nothing is waited for any longer, as it is from now on: a new one is tentative, and
    /// is to be solicited from `::` (RFC 4862 section 5.4.2); a tentative one is the host's. None where there is none.
    pub fn next_step(&mut self) -> Option<OwnAddress>
        ensures value { result ≡ option_map stepped (find is_due (entries_of self.old)) }
        ensures entries { entries_of self.new ≡ with_stepped (entries_of self.old) }
    {
        let entry = stepped(next_due(self.entries.as_slice())?);
        let _kept = renew(&mut self.entries, &entry.address, entry);
        Some(entry)
    }

    /// Another host has this address, or sees whether it is free (RFC 4862 sections 5.4.3 and 5.4.4). True exactly
    /// where it is new or tentative; then it is a duplicate.
    pub fn refuse(&mut self, address: &Ipv6Address) -> bool
        ensures told { result ≡ is_refused address.now (entries_of self.old) }
        ensures entries { entries_of self.new ≡ with_refused address.now (entries_of self.old) }
    {
        let Some(entry) = self.look_up(address) else {
            return false;
        };
        if !is_open(entry.state) {
            return false;
        }
        let duplicate = OwnAddress {
            state: State::Duplicate,
            ..entry
        };
        let _kept = renew(&mut self.entries, address, duplicate);
        true
    }

    /// Lets so many milliseconds pass in which the host waits for answers.
    pub fn wait(&mut self, milliseconds: u32)
        ensures { entries_of self.new ≡ map (waited milliseconds) (entries_of self.old) }
    {
        let mut later = ArrayVec::new();
        for entry in self.entries.as_slice() {
            later.push(OwnAddress {
                left: entry.left.saturating_sub(milliseconds),
                ..*entry
            });
        }
        self.entries = later;
    }

    /// Lets so many seconds of lifetimes pass: an address that is no longer valid is dropped.
    pub fn pass(&mut self, seconds: u32)
        ensures { entries_of self.new ≡ filter_map (own_after seconds) (entries_of self.old) }
    {
        pass(&mut self.entries, seconds);
    }
}

// Whether it is not known yet whether another has an address in this state.
fn is_open(state: State) -> bool
    ensures { result ≡ is_open state }
{
    match state {
        State::New | State::Tentative => true,
        State::Assigned | State::Duplicate => false,
    }
}

// Whether an address in this state is the host's.
fn is_assigned(state: State) -> bool
    ensures { result ≡ is_assigned state }
{
    match state {
        State::Assigned => true,
        State::New | State::Tentative | State::Duplicate => false,
    }
}

// Whether an address is for use on the link alone, as a number of its first octets says (RFC 4291 section 2.5.6).
fn is_of_link(address: &Ipv6Address) -> bool
    ensures { result ≡ is_of_link address.now }
{
    let octets = address.octets();
    octets[0] == 0xfe && octets[1] == 0x80
}

// The first of these for which nothing is waited for any longer.
fn next_due(entries: &[OwnAddress]) -> Option<OwnAddress>
    ensures { result ≡ find is_due entries.now }
{
    for entry in entries {
        if entry.left == 0 && is_open(entry.state) {
            return Some(*entry);
        }
    }
    None
}

// An address for which nothing is waited for any longer.
fn stepped(entry: OwnAddress) -> OwnAddress
    ensures { result ≡ stepped entry }
{
    match entry.state {
        State::New => OwnAddress {
            state: State::Tentative,
            left: DETECTION_TIME,
            ..entry
        },
        State::Tentative => OwnAddress {
            state: State::Assigned,
            ..entry
        },
        State::Assigned | State::Duplicate => entry,
    }
}

// Whether a host forms an address of a prefix.
fn forms(told: &Prefix) -> bool
    ensures { IsTrue result ↔ Forms told.now }
{
    told.autonomous
        && !told.prefix.is_link_local()
        && told.prefix_len == FORMED_LEN
        && told.preferred_lifetime <= told.valid_lifetime
}

// The address of a prefix with an interface identifier.
fn formed(prefix: &Ipv6Address, own: &Ipv6Address) -> Ipv6Address
    ensures { octets_of result ≡ take 8 (octets_of prefix.now) ++ drop 8 (octets_of own.now) }
{
    let mut octets = prefix.octets();
    octets[8..].copy_from_slice(&own.octets()[8..]);
    Ipv6Address::from_octets(octets)
}

// An address whose prefix is advertised again.
fn prolonged(entry: OwnAddress, told: &Prefix) -> OwnAddress
    ensures { result ≡ prolonged told.now entry }
{
    OwnAddress {
        valid: prolonged_lifetime(told.valid_lifetime, entry.valid),
        preferred: Lifetime::of(told.preferred_lifetime),
        ..entry
    }
}

// The valid lifetime of an address whose prefix is advertised again with this one.
fn prolonged_lifetime(told: u32, left: Lifetime) -> Lifetime
    ensures { result ≡ prolonged_lifetime told left }
{
    if told > TWO_HOURS {
        return Lifetime::of(told);
    }
    match left {
        Lifetime::Seconds(seconds) => {
            if seconds < told {
                Lifetime::of(told)
            } else if seconds <= TWO_HOURS {
                left
            } else {
                Lifetime::Seconds(TWO_HOURS)
            }
        }
        Lifetime::Forever => Lifetime::Seconds(TWO_HOURS),
    }
}
