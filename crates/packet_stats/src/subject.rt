//! What is counted.

ghost use Rattle.std.specs.Prelude.{◌≡◌, ◌≤◌, ◌+◌, ◌∷◌, ◌++◌, ◌↔◌, IsTrue, length};
ghost use Rattle.record_wire.specs.Name.{labels_of};
ghost use Rattle.packet_stats.specs.Subject.{mode_octet, octets_in, place_of, rank_of, source_in, source_of};
ghost use Rattle.packet_stats.specs.Subject.{subject_of, time_octets};

use arrayvec::ArrayVec;
use dns_wire::dns::Type;
use frame_wire::Addresses;
use record_wire::Name;
use wirebase::{Ipv4Address, Ipv6Address};

/// The most octets of a client's hardware address (RFC 2131 section 2).
pub const MOST_HARDWARE: usize = 16;

/// What is counted. It has a fixed size, and borrows nothing.
#[derive(Drop)]
pub enum Subject {
    /// A name in lower case, and the type of the records that are asked for.
    Question(Name, Type),
    /// An outcome of DNS, in a response.
    Rcode(u16),
    /// A host that responds to DNS.
    Server(IpAddress),
    /// A client of DHCP, by its hardware address.
    Client(ArrayVec<u8, MOST_HARDWARE>),
    /// An address that a server of DHCP leases to a client of this hardware address, and for how many seconds, where
    /// that is told.
    Lease(Ipv4Address, ArrayVec<u8, MOST_HARDWARE>, Option<u32>),
    /// A multicast group, and a host that reports to be in it.
    Member(IpAddress, IpAddress),
    /// A source of a multicast group that a member wants, or excludes.
    Source(Source),
    /// An address of a neighbor, and its link-layer address.
    Neighbor(Ipv6Address, [u8; 6]),
    /// A router that advertises itself.
    Router(Ipv6Address),
    /// A prefix, its length in bits, and the router that advertises it.
    Prefix(Ipv6Address, u8, Ipv6Address),
}

/// A source of a multicast group, as a host filters it that reports to be in the group.
#[derive(Debug, PartialEq, Eq, Clone, Copy)]
pub struct Source {
    /// The group.
    pub group: IpAddress,
    /// The host.
    pub host: IpAddress,
    /// Whether the host wants the source, or excludes it.
    pub mode: FilterMode,
    /// The address of the source.
    pub address: IpAddress,
}

/// Which sources of a group a host wants (RFC 3376 section 2, RFC 3810 section 3).
#[derive(Debug, PartialEq, Eq, Clone, Copy)]
pub enum FilterMode {
    /// Those that are listed.
    Include,
    /// All but those that are listed.
    Exclude,
}

/// An address of IPv4 or IPv6.
#[derive(Debug, PartialEq, Eq, Clone, Copy)]
pub enum IpAddress {
    /// An address of IPv4.
    V4(Ipv4Address),
    /// An address of IPv6.
    V6(Ipv6Address),
}

// The most octets of a place: those of a name, and of a type of records.
const MOST_OCTETS: usize = 257;

impl Subject {
    // Whether this is that subject.
    pub(crate) fn is(&self, other: &Subject) -> bool
        ensures { IsTrue result ↔ (subject_of self.now ≡ subject_of other.now) }
    {
        match (self, other) {
            (Subject::Question(name, type_), Subject::Question(other, other_type)) => {
                type_ == other_type && is_name(name, other)
            }
            (Subject::Rcode(rcode), Subject::Rcode(other)) => rcode == other,
            (Subject::Server(server), Subject::Server(other)) => server.is(other),
            (Subject::Client(client), Subject::Client(other)) => is_hardware(client, other),
            (Subject::Lease(address, client, time), Subject::Lease(other, holder, other_time)) => {
                address.octets() == other.octets()
                    && is_hardware(client, holder)
                    && time == other_time
            }
            (Subject::Member(group, host), Subject::Member(other, member)) => {
                group.is(other) && host.is(member)
            }
            (Subject::Source(source), Subject::Source(other)) => source.is(other),
            (Subject::Neighbor(address, link), Subject::Neighbor(other, other_link)) => {
                address.octets() == other.octets() && link == other_link
            }
            (Subject::Router(router), Subject::Router(other)) => router.octets() == other.octets(),
            (Subject::Prefix(prefix, len, router), Subject::Prefix(other, other_len, sender)) => {
                prefix.octets() == other.octets()
                    && len == other_len
                    && router.octets() == sender.octets()
            }
            _ => false,
        }
    }

    // How many messages there were, of subjects of which the most frequent are first on a page; 0 of the others.
    pub(crate) fn rank(&self, count: u64) -> u64
        ensures { result ≡ rank_of (subject_of self.now) count }
    {
        match self {
            Subject::Question(..) | Subject::Rcode(_) | Subject::Server(_) => count,
            _ => 0,
        }
    }

    // The octets by which subjects of one kind are ordered.
    pub(crate) fn place(&self) -> ArrayVec<u8, MOST_OCTETS>
        ensures { result.items ≡ place_of (subject_of self.now) }
    {
        match self {
            Subject::Question(name, type_) => {
                joined(name.octets(), &u16::from(*type_).to_be_bytes(), &[])
            }
            Subject::Rcode(rcode) => joined(&rcode.to_be_bytes(), &[], &[]),
            Subject::Server(address) => joined(address.octets().as_slice(), &[], &[]),
            Subject::Client(client) => joined(client.as_slice(), &[], &[]),
            Subject::Lease(address, client, time) => joined(
                &address.octets(),
                client.as_slice(),
                time_octets(*time).as_slice(),
            ),
            Subject::Member(group, host) => joined(
                group.octets().as_slice(),
                host.octets().as_slice(),
                &[],
            ),
            Subject::Source(source) => joined(
                source.group.octets().as_slice(),
                source.host.octets().as_slice(),
                source.octets().as_slice(),
            ),
            Subject::Neighbor(address, link) => joined(&address.octets(), link, &[]),
            Subject::Router(router) => joined(&router.octets(), &[], &[]),
            Subject::Prefix(prefix, len, router) => joined(
                &prefix.octets(),
                &[*len],
                &router.octets(),
            ),
        }
    }
}

// Whether this is that name.
fn is_name(name: &Name, other: &Name) -> bool
    ensures { IsTrue result ↔ (labels_of name.now ≡ labels_of other.now) }
{
    name.octets() == other.octets()
}

// Whether these are the octets of one hardware address.
fn is_hardware(client: &ArrayVec<u8, MOST_HARDWARE>, other: &ArrayVec<u8, MOST_HARDWARE>) -> bool
    ensures { IsTrue result ↔ (client.now.items ≡ other.now.items) }
{
    client.as_slice() == other.as_slice()
}

// The octets of seconds, where they are told.
fn time_octets(time: Option<u32>) -> ArrayVec<u8, 4>
    ensures { result.items ≡ time_octets time }
{
    let mut octets = ArrayVec::new();
    if let Some(seconds) = time {
        let _seconds = octets.try_extend_from_slice(&seconds.to_be_bytes());
    }
    octets
}

// Octets one behind another.
fn joined(front: &[u8], middle: &[u8], back: &[u8]) -> ArrayVec<u8, MOST_OCTETS>
    requires { length front.now + length middle.now + length back.now ≤ 257 }
    ensures { result.items ≡ front.now ++ middle.now ++ back.now }
{
    let mut octets = ArrayVec::new();
    let _front = octets.try_extend_from_slice(front);
    let _middle = octets.try_extend_from_slice(middle);
    let _back = octets.try_extend_from_slice(back);
    octets
}

impl Source {
    // Whether this is that source, of the same group and host, in the same mode.
    fn is(&self, other: &Source) -> bool
        ensures { IsTrue result ↔ (source_of self.now ≡ source_of other.now) }
    {
        self.group.is(&other.group)
            && self.host.is(&other.host)
            && self.mode == other.mode
            && self.address.is(&other.address)
    }

    // The octets by which sources of one group and host are ordered: the mode and the address.
    fn octets(&self) -> ArrayVec<u8, 17>
        ensures { result.items ≡ mode_octet self.now.mode ∷ octets_in self.now.address }
    {
        let mode = match self.mode {
            FilterMode::Include => 0,
            FilterMode::Exclude => 1,
        };
        let mut octets = ArrayVec::new();
        let _mode = octets.try_extend_from_slice(&[mode]);
        let _address = octets.try_extend_from_slice(self.address.octets().as_slice());
        octets
    }
}

impl IpAddress {
    // The address that a datagram comes from.
    pub(crate) fn source(addresses: &Addresses) -> IpAddress
        ensures { result ≡ source_in addresses.now }
    {
        match addresses {
            Addresses::V4(source, _) => IpAddress::V4(*source),
            Addresses::V6(source, _) => IpAddress::V6(*source),
        }
    }

    // The octets, 4 of IPv4 and 16 of IPv6.
    pub(crate) fn octets(&self) -> ArrayVec<u8, 16>
        ensures { result.items ≡ octets_in self.now }
    {
        let mut octets = ArrayVec::new();
        let _all = match self {
            IpAddress::V4(address) => octets.try_extend_from_slice(&address.octets()),
            IpAddress::V6(address) => octets.try_extend_from_slice(&address.octets()),
        };
        octets
    }

    // Whether this is that address.
    fn is(&self, other: &IpAddress) -> bool
        ensures { IsTrue result ↔ (octets_in self.now ≡ octets_in other.now) }
    {
        match (self, other) {
            (IpAddress::V4(address), IpAddress::V4(other)) => address.octets() == other.octets(),
            (IpAddress::V6(address), IpAddress::V6(other)) => address.octets() == other.octets(),
            _ => false,
        }
    }
}
