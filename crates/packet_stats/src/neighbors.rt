//! Messages of neighbor discovery (RFC 4861 section 4).

ghost use Rattle.std.specs.Prelude.{◌≡◌, ◌≤◌, ◌*◌, IfSome, IsTrue, OnErr, OnOk, find, length};
ghost use Rattle.std.specs.Option.{option_map};
ghost use Rattle.wirebase.specs.Bytes.{bytes_of, field};
ghost use Rattle.wirebase.specs.Ipv6Address.{octets_of};
ghost use Rattle.neighbor_fields.specs.Messages.{type_in};
ghost use Rattle.neighbor_fields.specs.Ndisc.{header_len};
ghost use Rattle.packet_stats.specs.Neighbors.{fields_said, has_prefix, is_of, is_unspecified, neighbor_said};
ghost use Rattle.packet_stats.specs.Neighbors.{neighbors_said, options_in, prefix_said, prefixes_said, router_said};
ghost use Rattle.packet_stats.specs.Neighbors.{source_said};
ghost use Rattle.packet_stats.specs.Stats.{CountsAll, CountsSome, state_of};

use crate::stats::Stats;
use crate::subject::Subject;
use crate::table::Fault;
use neighbor_fields::ndisc::header_len;
use neighbor_fields::ndisc::options::Options;
use packet_fields::parts::Part;
use packet_fields::texts::v6_of;
use std::alloc::Global;
use wirebase::{Ipv6Address, Octets};

// The types of messages.
const ROUTER_SOLICITATION: u8 = 133;

const ROUTER_ADVERTISEMENT: u8 = 134;

const NEIGHBOR_SOLICITATION: u8 = 135;

const NEIGHBOR_ADVERTISEMENT: u8 = 136;

// The types of options.
const SOURCE_LINK_ADDRESS: u8 = 1;

const TARGET_LINK_ADDRESS: u8 = 2;

const PREFIX_INFORMATION: u8 = 3;

// The octets of a unit, and how many units the options have.
const UNIT: usize = 8;

const LINK_ADDRESS_UNITS: u8 = 1;

const PREFIX_UNITS: u8 = 4;

// The bits of an address.
const MOST_PREFIX: u8 = 128;

// The fields of messages and of options (RFC 4861 sections 4.4 and 4.6).
mod place {
    use wirebase::Field;

    pub const TYPE: usize = 0;

    pub const LENGTH: usize = 1;

    pub const TARGET_ADDR: Field = 8..24;

    pub const LINK_ADDRESS: Field = 2..8;

    pub const PREFIX_LEN: Field = 2..3;

    pub const PREFIX: Field = 16..32;
}

impl Stats {
    // Counts what a message from an address says.
    pub(crate) fn count_neighbors(
        &mut self,
        alloc: Global,
        source: Ipv6Address,
        octets: &[u8],
    ) -> Result<(), Fault>
        ensures counts { OnOk result (CountsAll (state_of self.old)
            (neighbors_said (octets_of source) octets.now) (state_of self.new)) }
        ensures fault { OnErr result (CountsSome (state_of self.old)
            (neighbors_said (octets_of source) octets.now) (state_of self.new)) }
    {
        if octets.is_empty() || octets.len() < header_len(octets[place::TYPE]) {
            return Ok(());
        }
        let (_, options) = octets.split_at(header_len(octets[place::TYPE]));
        self.count_fields(alloc, source, octets, options)
    }

    // Counts what a message says whose fields are there.
    fn count_fields(
        &mut self,
        alloc: Global,
        source: Ipv6Address,
        octets: &[u8],
        options: &[u8],
    ) -> Result<(), Fault>
        requires some { 1 ≤ length octets.now }
        requires whole { header_len (type_in octets.now) ≤ length octets.now }
        ensures counts { OnOk result (CountsAll (state_of self.old)
            (fields_said (octets_of source) octets.now options.now) (state_of self.new)) }
        ensures fault { OnErr result (CountsSome (state_of self.old)
            (fields_said (octets_of source) octets.now options.now) (state_of self.new)) }
    {
        match octets[place::TYPE] {
            ROUTER_ADVERTISEMENT => self.count_router(alloc, source, options),
            NEIGHBOR_ADVERTISEMENT => {
                let target = v6_of(octets.field(place::TARGET_ADDR));
                self.count_neighbor(alloc, TARGET_LINK_ADDRESS, target, options)
            }
            ROUTER_SOLICITATION | NEIGHBOR_SOLICITATION => {
                self.count_source(alloc, source, options)
            }
            _ => Ok(()),
        }
    }

    // Counts a router, and what its options say.
    fn count_router(
        &mut self,
        alloc: Global,
        source: Ipv6Address,
        options: &[u8],
    ) -> Result<(), Fault>
        ensures counts { OnOk result (CountsAll (state_of self.old)
            (router_said (octets_of source) options.now) (state_of self.new)) }
        ensures fault { OnErr result (CountsSome (state_of self.old)
            (router_said (octets_of source) options.now) (state_of self.new)) }
    {
        self.count_subject(alloc, Subject::Router(source))?;
        self.count_source(alloc, source, options)?;
        self.count_prefixes(alloc, source, options)
    }

    // Counts the neighbor that a message comes from.
    fn count_source(
        &mut self,
        alloc: Global,
        source: Ipv6Address,
        options: &[u8],
    ) -> Result<(), Fault>
        ensures counts { OnOk result (CountsAll (state_of self.old)
            (source_said (octets_of source) options.now) (state_of self.new)) }
        ensures fault { OnErr result (CountsSome (state_of self.old)
            (source_said (octets_of source) options.now) (state_of self.new)) }
    {
        if is_unspecified(&source.octets()) {
            return Ok(());
        }
        self.count_neighbor(alloc, SOURCE_LINK_ADDRESS, source, options)
    }

    // Counts the neighbor at an address, where an option of this type tells its link-layer address.
    fn count_neighbor(
        &mut self,
        alloc: Global,
        type_: u8,
        address: Ipv6Address,
        options: &[u8],
    ) -> Result<(), Fault>
        ensures counts { OnOk result (CountsAll (state_of self.old)
            (neighbor_said type_ (octets_of address) options.now) (state_of self.new)) }
        ensures fault { OnErr result (CountsSome (state_of self.old)
            (neighbor_said type_ (octets_of address) options.now) (state_of self.new)) }
    {
        match first_option(type_, LINK_ADDRESS_UNITS, options) {
            Some(option) => {
                self.count_subject(alloc, Subject::Neighbor(address, link_of(option)))
            }
            None => Ok(()),
        }
    }

    // Counts the prefixes of a router.
    fn count_prefixes(
        &mut self,
        alloc: Global,
        source: Ipv6Address,
        options: &[u8],
    ) -> Result<(), Fault>
        ensures counts { OnOk result (CountsAll (state_of self.old)
            (prefixes_said (octets_of source) options.now) (state_of self.new)) }
        ensures fault { OnErr result (CountsSome (state_of self.old)
            (prefixes_said (octets_of source) options.now) (state_of self.new)) }
    {
        let mut left = options;
        while !left.is_empty() {
            let (option, others) = left.split_at(Options::len_of(left));
            self.count_prefix(alloc, source, option)?;
            left = others;
        }
        Ok(())
    }

    // Counts the prefix in an option, where it has one.
    fn count_prefix(
        &mut self,
        alloc: Global,
        source: Ipv6Address,
        option: &[u8],
    ) -> Result<(), Fault>
        ensures counts { OnOk result (CountsAll (state_of self.old)
            (prefix_said (octets_of source) option.now) (state_of self.new)) }
        ensures fault { OnErr result (CountsSome (state_of self.old)
            (prefix_said (octets_of source) option.now) (state_of self.new)) }
    {
        if has_prefix(option) {
            let prefix = v6_of(option.field(place::PREFIX));
            let len = option.u8_at(place::PREFIX_LEN);
            return self.count_subject(alloc, Subject::Prefix(prefix, len, source));
        }
        Ok(())
    }
}

// Whether an option has a prefix (RFC 4861 section 4.6.2), of at most the bits of an address.
fn has_prefix(option: &[u8]) -> bool
    ensures value { result ≡ has_prefix option.now }
    ensures long { IsTrue result → length option.now ≡ 32 }
{
    is_of(PREFIX_INFORMATION, PREFIX_UNITS, option)
        && option.u8_at(place::PREFIX_LEN) <= MOST_PREFIX
}

// Whether these octets of an address are all 0.
fn is_unspecified(address: &[u8]) -> bool
    ensures { result ≡ is_unspecified address.now }
{
    address.iter().all(|octet| *octet == 0)
}

// The link-layer address of 6 octets in an option.
fn link_of(option: &[u8]) -> [u8; 6]
    requires { length option.now ≡ 8 }
    ensures { result ≡ bytes_of (field 2 8) option.now }
{
    option.field(place::LINK_ADDRESS).try_into().unwrap()
}

// The first option of this type and of so many units among these.
fn first_option(type_: u8, units: u8, options: &[u8]) -> Option<&[u8]>
    requires { 1 ≤ units }
    ensures value { option_map (λ option. option.now) result ≡ find (is_of type_ units) (options_in options.now) }
    ensures long { IfSome result (λ option. length option.now ≡ 8 * units) }
{
    let mut left = options;
    while !left.is_empty() {
        let (option, others) = left.split_at(Options::len_of(left));
        if is_of(type_, units, option) {
            return Some(option);
        }
        left = others;
    }
    None
}

// Whether an option has this type, and the octets of so many units, which it counts.
fn is_of(type_: u8, units: u8, option: &[u8]) -> bool
    requires { 1 ≤ units }
    ensures value { result ≡ is_of type_ units option.now }
    ensures long { IsTrue result → length option.now ≡ 8 * units }
{
    option.len() == UNIT * units as usize
        && option[place::TYPE] == type_
        && option[place::LENGTH] == units
}
