//! Messages of DHCP (RFC 2131).

ghost use Rattle.std.specs.Prelude.{◌≡◌, IsTrue, OnErr, OnOk, length};
ghost use Rattle.wirebase.specs.Bytes.{Reaches};
ghost use Rattle.wirebase.specs.Ipv4.{octets_of as octets_of4};
ghost use Rattle.dhcp_wire.specs.Dhcpv4Packet.{magic_field};
ghost use Rattle.dhcp_options.specs.Joined.{octets_of};
ghost use Rattle.dhcp_fields.specs.Header.{chaddr_field, hardware_address as hardware_in};
ghost use Rattle.packet_stats.specs.Dhcp.{DhcpSays, address_said, gives_address, is_ack, is_ack_type, is_reply};
ghost use Rattle.packet_stats.specs.Dhcp.{is_request, lease_said, request_said, seconds_in, time_in};
ghost use Rattle.packet_stats.specs.Stats.{CountsAll, CountsPart, CountsSome, CountsThat, state_of};

use crate::stats::Stats;
use crate::subject::{MOST_HARDWARE, Subject};
use crate::table::Fault;
use arrayvec::ArrayVec;
use dhcp_fields::header::hardware_address;
use dhcp_options::Parts;
use std::alloc::Global;
use wirebase::{Ipv4Address, Octets};

// The operations of messages.
const REQUEST: u8 = 1;

const REPLY: u8 = 2;

// The number before the options (RFC 2131 section 3).
const MAGIC_COOKIE: u32 = 0x6382_5363;

// The kinds of options (RFC 2132 sections 9.2 and 9.6), and the type of an ACK.
const LEASE_TIME: u8 = 51;

const MESSAGE_TYPE: u8 = 53;

const ACK: u8 = 5;

// The fields; their picture is in specs/Dhcpv4Packet.antt of dhcp_wire.
mod place {
    use wirebase::Field;

    pub const OP: usize = 0;

    pub const YIADDR: Field = 16..20;

    pub const CHADDR_END: usize = 44;

    pub const MAGIC_NUMBER: Field = 236..240;

    pub const OPTIONS: usize = 240;

    pub const SECONDS: Field = 0..4;

    pub const SECONDS_END: usize = 4;
}

impl Stats {
    // Counts what a message says.
    pub(crate) fn count_dhcp(&mut self, alloc: Global, octets: &[u8]) -> Result<(), Fault>
        ensures counts { OnOk result (CountsThat (DhcpSays octets.now) (state_of self.old) (state_of self.new)) }
        ensures fault { OnErr result (CountsPart (DhcpSays octets.now) (state_of self.old) (state_of self.new)) }
    {
        if is_reply(octets) {
            let parts = Parts::of(octets);
            return self.count_lease(alloc, &parts, octets);
        }
        self.count_request(alloc, octets)
    }

    // Counts the client that a request comes from.
    fn count_request(&mut self, alloc: Global, octets: &[u8]) -> Result<(), Fault>
        ensures counts { OnOk result (CountsAll (state_of self.old) (request_said octets.now)
            (state_of self.new)) }
        ensures fault { OnErr result (CountsSome (state_of self.old) (request_said octets.now)
            (state_of self.new)) }
    {
        if is_request(octets) {
            return self.count_subject(alloc, Subject::Client(hardware_of(octets)));
        }
        Ok(())
    }

    // Counts the lease that a reply grants.
    fn count_lease(&mut self, alloc: Global, parts: &Parts<'_>, octets: &[u8]) -> Result<(), Fault>
        requires { Reaches magic_field octets.now }
        ensures counts { OnOk result (CountsAll (state_of self.old) (lease_said parts.now octets.now)
            (state_of self.new)) }
        ensures fault { OnErr result (CountsSome (state_of self.old) (lease_said parts.now octets.now)
            (state_of self.new)) }
    {
        if is_ack(parts) {
            return self.count_address(alloc, parts, octets);
        }
        Ok(())
    }

    // Counts the address that an ACK gives.
    fn count_address(
        &mut self,
        alloc: Global,
        parts: &Parts<'_>,
        octets: &[u8],
    ) -> Result<(), Fault>
        requires { Reaches magic_field octets.now }
        ensures counts { OnOk result (CountsAll (state_of self.old) (address_said parts.now octets.now)
            (state_of self.new)) }
        ensures fault { OnErr result (CountsSome (state_of self.old) (address_said parts.now octets.now)
            (state_of self.new)) }
    {
        if gives_address(octets) {
            let address = address_of(octets.field(place::YIADDR));
            let hardware = hardware_of(octets);
            return self.count_subject(alloc, Subject::Lease(address, hardware, time_in(parts)));
        }
        Ok(())
    }
}

fn is_request(octets: &[u8]) -> bool
    ensures value { result ≡ is_request octets.now }
    ensures whole { IsTrue result → Reaches chaddr_field octets.now }
{
    octets.len() >= place::CHADDR_END && octets[place::OP] == REQUEST
}

fn is_reply(octets: &[u8]) -> bool
    ensures value { result ≡ is_reply octets.now }
    ensures whole { IsTrue result → Reaches magic_field octets.now }
{
    octets.len() >= place::OPTIONS
        && octets.u32_at(place::MAGIC_NUMBER) == MAGIC_COOKIE
        && octets[place::OP] == REPLY
}

fn gives_address(octets: &[u8]) -> bool
    requires { Reaches magic_field octets.now }
    ensures { result ≡ gives_address octets.now }
{
    octets.u32_at(place::YIADDR) > 0
}

// Whether the first part of the option says that a message is an ACK.
fn is_ack(parts: &Parts<'_>) -> bool
    ensures { result ≡ is_ack (octets_of 53 parts.now) }
{
    match parts.of_kind(MESSAGE_TYPE).next() {
        Some(octets) => is_ack_type(octets),
        None => false,
    }
}

fn is_ack_type(octets: &[u8]) -> bool
    ensures { result ≡ is_ack_type octets.now }
{
    octets.len() == 1 && octets[0] == ACK
}

// The seconds of a lease, as the first part of the option tells them.
fn time_in(parts: &Parts<'_>) -> Option<u32>
    ensures { result ≡ time_in (octets_of 51 parts.now) }
{
    match parts.of_kind(LEASE_TIME).next() {
        Some(octets) => seconds_in(octets),
        None => None,
    }
}

fn seconds_in(octets: &[u8]) -> Option<u32>
    ensures { result ≡ seconds_in octets.now }
{
    if octets.len() == place::SECONDS_END {
        return Some(octets.u32_at(place::SECONDS));
    }
    None
}

// The client's hardware address.
fn hardware_of(octets: &[u8]) -> ArrayVec<u8, MOST_HARDWARE>
    requires { Reaches chaddr_field octets.now }
    ensures { result.items ≡ hardware_in octets.now }
{
    let mut hardware = ArrayVec::new();
    let _all = hardware.try_extend_from_slice(hardware_address(octets));
    hardware
}

// The address of 4 octets.
fn address_of(octets: &[u8]) -> Ipv4Address
    requires { length octets.now ≡ 4 }
    ensures { octets_of4 result ≡ octets.now }
{
    Ipv4Address::from_octets(octets.try_into().unwrap())
}
