ghost use Rattle.std.specs.Prelude.{◌≡◌, [], None, length};

use crate::testing::{fail, same};
use arrayvec::ArrayVec;
use dhcp_wire::dhcpv4::{DhcpOption, MAX_DNS_SERVER_COUNT, MessageType, Packet, Repr};
use std::process::Abort;
use wirebase::{EthernetAddress, Ipv4Address};

mod lengths;
mod printing;
mod reading;
mod writing;

// A message of this type that says nothing else.
fn bare(message_type: MessageType) -> Repr<'static>
    ensures addresses { (result.router ≡ None) × (result.subnet_mask ≡ None)
        × (result.requested_ip ≡ None) × (result.client_identifier ≡ None)
        × (result.server_identifier ≡ None) }
    ensures lists { (result.parameter_request_list ≡ None) × (result.dns_servers ≡ None)
        × (result.additional_options.now ≡ []) }
    ensures numbers { (result.max_size ≡ None) × (result.lease_duration ≡ None)
        × (result.renew_duration ≡ None) × (result.rebind_duration ≡ None) }
{
    with_options(message_type, &[])
}

// A message of this type with these additional options, that says nothing else.
fn with_options(
    message_type: MessageType,
    additional_options: &'static [DhcpOption<'static>],
) -> Repr<'static>
    ensures addresses { (result.router ≡ None) × (result.subnet_mask ≡ None)
        × (result.requested_ip ≡ None) × (result.client_identifier ≡ None)
        × (result.server_identifier ≡ None) }
    ensures lists { (result.parameter_request_list ≡ None) × (result.dns_servers ≡ None)
        × (result.additional_options.now ≡ additional_options.now) }
    ensures numbers { (result.max_size ≡ None) × (result.lease_duration ≡ None)
        × (result.renew_duration ≡ None) × (result.rebind_duration ≡ None) }
{
    Repr {
        message_type,
        transaction_id: 0,
        secs: 0,
        client_hardware_address: EthernetAddress([0; 6]),
        client_ip: Ipv4Address::UNSPECIFIED,
        your_ip: Ipv4Address::UNSPECIFIED,
        server_ip: Ipv4Address::UNSPECIFIED,
        router: None,
        subnet_mask: None,
        relay_agent_ip: Ipv4Address::UNSPECIFIED,
        broadcast: false,
        requested_ip: None,
        client_identifier: None,
        server_identifier: None,
        parameter_request_list: None,
        dns_servers: None,
        max_size: None,
        lease_duration: None,
        renew_duration: None,
        rebind_duration: None,
        additional_options,
    }
}

// The number that these bytes are, the highest first.
fn number_in(data: Option<&[u8]>) -> Option<u64> {
    let mut number = 0;
    for byte in data? {
        number = (number << 8) | *byte as u64;
    }
    Some(number)
}

// An address as a number.
fn number_of(address: Option<Ipv4Address>) -> Option<u64> {
    number_in(Some(&address?.octets()))
}

// A time as a number.
fn seconds_of(seconds: Option<u32>) -> Option<u64> {
    Some(seconds? as u64)
}

// What the value holds of the options of this kind: a number, and of a list how many entries it has.
fn held(read: &Repr<'_>, kind: u8) -> Option<u64> {
    match kind {
        1 => number_of(read.subnet_mask),
        3 => number_of(read.router),
        6 => Some(read.dns_servers.as_ref()?.len() as u64),
        50 => number_of(read.requested_ip),
        51 => seconds_of(read.lease_duration),
        53 => Some(u8::from(read.message_type) as u64),
        54 => number_of(read.server_identifier),
        55 => Some(read.parameter_request_list?.len() as u64),
        57 => Some(read.max_size? as u64),
        58 => seconds_of(read.renew_duration),
        59 => seconds_of(read.rebind_duration),
        61 => number_in(Some(&read.client_identifier?.0)),
        _ => None,
    }
}

// What a packet that is read holds of the options of this kind.
fn held_in(packet: &[u8], kind: u8) -> Option<Option<u64>> {
    match Repr::parse(&Packet::new_unchecked(packet)) {
        Ok(read) => Some(held(&read, kind)),
        Err(_) => None,
    }
}

// Reads a packet, which is to say this.
fn compare_read(rt: &impl Abort, packet: &[u8], repr: &Repr<'_>) {
    match Repr::parse(&Packet::new_unchecked(packet)) {
        Ok(read) => same(rt, &read, repr),
        Err(_) => fail(rt, "the packet is read"),
    }
}

// The servers 10.0.0.1 to 10.0.0.5.
fn five_servers() -> ArrayVec<Ipv4Address, MAX_DNS_SERVER_COUNT>
    ensures { length result.items ≡ 5 }
{
    ArrayVec::from([
        Ipv4Address::new(10, 0, 0, 1),
        Ipv4Address::new(10, 0, 0, 2),
        Ipv4Address::new(10, 0, 0, 3),
        Ipv4Address::new(10, 0, 0, 4),
        Ipv4Address::new(10, 0, 0, 5),
    ])
}

#[test]
#[tactic(auto, unfolding(wirebase::specs::ByteWriter::be8, wirebase::specs::ByteWriter::be16))]
fn bytes_that_a_value_takes(rt: HostRuntime) {
    let mut repr = bare(MessageType::Discover);
    same(&rt, repr.buffer_len(), 244);
    repr.client_identifier = Some(EthernetAddress([2, 0, 0, 0, 0, 1]));
    repr.requested_ip = Some(Ipv4Address::UNSPECIFIED);
    repr.max_size = Some(1500);
    repr.parameter_request_list = Some(&[1, 3, 6, 42]);
    same(&rt, repr.buffer_len(), 269);
}

#[test]
#[tactic(auto, unfolding(wirebase::specs::ByteWriter::be8, wirebase::specs::ByteWriter::be32))]
fn bytes_that_three_times_take(rt: HostRuntime) {
    let mut repr = bare(MessageType::Ack);
    repr.lease_duration = Some(3600);
    repr.renew_duration = Some(1800);
    repr.rebind_duration = Some(3150);
    same(&rt, repr.buffer_len(), 262);
}

#[test]
#[tactic(auto, unfolding(wirebase::specs::ByteWriter::be8))]
fn a_discover_with_five_servers_takes_266_bytes(rt: HostRuntime) {
    let mut repr = bare(MessageType::Discover);
    repr.dns_servers = Some(five_servers());
    same(&rt, repr.buffer_len(), 266);
}
