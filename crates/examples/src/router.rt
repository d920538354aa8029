//! A host on an Ethernet that looks for the routers of its link, and what it takes from their advertisements (RFC 4861
//! section 6.3).

ghost use Rattle.std.specs.Prelude.{◌≡◌, ◌≤◌, ◌++◌, ℕ, List, [], ◌∷◌, length, take, drop, IfSome, IsSome, None, Some};
ghost use Rattle.control_wire.specs.Ethernet.{octets_of};
ghost use Rattle.control_wire.specs.HardwareAddress.{ethernet_of};
ghost use Rattle.control_wire.specs.Ndisc.{value_of as content_of};
ghost use Rattle.control_wire.specs.NdiscBlocks.{IsBlock};
ghost use Rattle.control_wire.specs.NdiscOptionRepr.{OptionValue, BeginsWith, prefix_information};
ghost use Rattle.control_wire.specs.NdiscPrefixInformationType.{PrefixInformation as PrefixValue};
ghost use Rattle.examples.specs.Neighbor.{IsUnspecified};
ghost use Rattle.examples.specs.Router.{IsSolicitation, RouterIn, TellsRouter, options_in, TellPrefixes};
ghost use Rattle.examples.specs.declared.router.RouterInformation.{RouterInformation as RouterValue};

use crate::neighbor::{read, sender, write};
use control_wire::ndisc::{self, RouterFlags};
use control_wire::ndiscoption::{self, NdiscOption, PrefixInformation};
use control_wire::{
    Duration, EthernetAddress, IPV6_LINK_LOCAL_ALL_ROUTERS, Ipv6Address, RawHardwareAddress,
};

// The bytes of an advertisement before its options (RFC 4861 section 4.2).
const HEADER_LEN: usize = 16;

// The unit of an option's length in bytes.
const UNIT: usize = 8;

/// Writes the solicitation of the routers of the link, which goes from this host's address to all of them, `ff02::2`,
/// and returns its length in bytes, 16. From `::` it does not tell `lladdr` and has 8 bytes (RFC 4861 sections 4.1 and
/// 6.3.7). None where the octets are too short; then they are unchanged.
pub fn solicit(own: &Ipv6Address, lladdr: EthernetAddress, out: &mut [u8]) -> Option<usize>
    ensures sent { IfSome result (λ n. IsSolicitation own.now (octets_of (ethernet_of lladdr))
        (take n out.new)) }
    ensures room { 16 ≤ length out.old → IsSome result }
    ensures room_unspecified { IsUnspecified own.now → 8 ≤ length out.old → IsSome result }
    ensures fits { IfSome result (λ n. n ≤ length out.new) }
    ensures rest { IfSome result (λ n. drop n out.new ≡ drop n out.old) }
    ensures unsent { result ≡ None → out.new ≡ out.old }
{
    let message = ndisc::Repr::RouterSolicit {
        lladdr: sender(own, lladdr),
    };
    write(&message, own, &IPV6_LINK_LOCAL_ALL_ROUTERS, out)
}

/// What a router tells of itself and of the link (RFC 4861 section 4.2).
#[derive(Debug, PartialEq, Eq, Clone, Copy)]
pub struct RouterInformation {
    /// The hop limit that hosts are to set; 0 where it is not told.
    pub hop_limit: u8,
    /// What is available by DHCPv6: addresses, or other configuration.
    pub flags: RouterFlags,
    /// The time for which it is a default router, in whole seconds; zero where it is none.
    pub lifetime: Duration,
    /// The time for which a neighbor counts as reachable, in whole milliseconds; zero where it is not told.
    pub reachable_time: Duration,
    /// The time between solicitations, in whole milliseconds; zero where it is not told.
    pub retrans_time: Duration,
    /// The router's link-layer address.
    pub lladdr: Option<RawHardwareAddress>,
    /// The MTU of the link, in bytes.
    pub mtu: Option<u32>,
}

/// What a router's advertisement tells, which came from `source` with this hop limit and went to `destination`. None
/// exactly where the octets are no valid advertisement of a router (RFC 4861 section 6.1.2). Its prefixes are told by
/// `next_prefix`.
pub fn router_information(
    source: &Ipv6Address,
    destination: &Ipv6Address,
    hop_limit: u8,
    octets: &[u8],
) -> Option<RouterInformation>
    ensures told { IfSome result (λ router.
        TellsRouter source.now destination.now hop_limit octets.now router) }
    ensures all { (router : RouterValue)
        → TellsRouter source.now destination.now hop_limit octets.now router → result ≡ Some router }
    ensures prefixes { IfSome result (λ router.
        (prefixes : List PrefixValue) × TellPrefixes (options_in octets.now) prefixes) }
{
    if !source.is_link_local() {
        return None;
    }
    match read(source, destination, hop_limit, octets) {
        Some(message) => router_in(&message),
        None => None,
    }
}

// What a message tells of a router.
fn router_in(message: &ndisc::Repr<'_>) -> Option<RouterInformation>
    ensures sound { IfSome result (λ router. RouterIn router (content_of message.now)) }
    ensures complete { (router : RouterValue) → RouterIn router (content_of message.now)
        → result ≡ Some router }
{
    match *message {
        ndisc::Repr::RouterAdvert {
            hop_limit,
            flags,
            router_lifetime,
            reachable_time,
            retrans_time,
            lladdr,
            mtu,
            ..
        } => Some(RouterInformation {
            hop_limit,
            flags,
            lifetime: router_lifetime,
            reachable_time,
            retrans_time,
            lladdr,
            mtu,
        }),
        _ => None,
    }
}

/// The options of a router's advertisement: all that follows its first 16 bytes.
pub fn options(advertisement: &[u8]) -> &[u8]
    ensures { result.now ≡ options_in advertisement.now }
{
    match advertisement.get(HEADER_LEN..) {
        Some(options) => options,
        None => &[],
    }
}

/// The first prefix among the options, and the options after it: repeated calls give every prefix of the link (RFC 4861
/// section 6.3.4), and `is_valid_prefix_info` tells whether a host forms an address from one. None at the end. The
/// options are those of a valid advertisement.
pub fn next_prefix(options: &[u8]) -> Option<(PrefixInformation, &[u8])>
    ensures first { (prefixes : List PrefixValue) → TellPrefixes options.now prefixes
        → IfSome result (λ next. (more : List PrefixValue)
        × (prefixes ≡ next.0 ∷ more) × TellPrefixes next.1.now more) }
    ensures end { (prefixes : List PrefixValue) → TellPrefixes options.now prefixes
        → result ≡ None → prefixes ≡ [] }
{
    let mut rest = options;
    while let Some((block, behind)) = split_block(rest) {
        if let Some(prefix) = prefix_in(block) {
            return Some((prefix, behind));
        }
        rest = behind;
    }
    None
}

// The block at the start, and what follows it. None where the octets don't begin with a block.
fn split_block(octets: &[u8]) -> Option<(&[u8], &[u8])>
    ensures sound { IfSome result (λ parts. IsBlock parts.0.now
        × (octets.now ≡ parts.0.now ++ parts.1.now)) }
    ensures refuses { result ≡ None → (block rest : List ℕ) → IsBlock block
        → octets.now ≡ block ++ rest → ⊥ }
{
    match NdiscOption::new_checked(octets) {
        Ok(option) => Some(octets.split_at(UNIT * option.data_len() as usize)),
        Err(_) => None,
    }
}

// The prefix that a block tells.
fn prefix_in(block: &[u8]) -> Option<PrefixInformation>
    ensures sound { IfSome result (λ prefix. BeginsWith block.now (prefix_information prefix)) }
    ensures complete { (prefix : PrefixValue) → BeginsWith block.now (prefix_information prefix)
        → result ≡ Some prefix }
    ensures alone { IfSome result (λ prefix. (v : OptionValue) → BeginsWith block.now v
        → v ≡ prefix_information prefix) }
{
    let option = match ndiscoption::Repr::parse(&NdiscOption::new_unchecked(block)) {
        Ok(option) => option,
        Err(_) => return None,
    };
    let ndiscoption::Repr::PrefixInformation(prefix) = option else {
        return None;
    };
    Some(prefix)
}
