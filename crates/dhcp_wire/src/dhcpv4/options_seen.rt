//! Collects the options of a packet, in one pass.

ghost use Rattle.std.specs.Prelude.{◌≡◌, ◌↔◌, [], ◌∷◌, Some, None, take, IsTrue, OnOk, OnErr};
ghost use Rattle.std.specs.Option.{option_map, option_or};
ghost use Rattle.wirebase.specs.Bytes.{Reaches, byte_of};
ghost use Rattle.wirebase.specs.HardwareAddress.{ethernet_of};
ghost use Rattle.dhcp_wire.specs.Dhcpv4.{value_of, with_options, said, type_in, type_among, address_in, number_in};
ghost use Rattle.dhcp_wire.specs.Dhcpv4.{identifier_in, IsOfEthernet, AreOfEthernet};
ghost use Rattle.dhcp_wire.specs.Dhcpv4Options.{value_of_option, option};
ghost use Rattle.dhcp_wire.specs.private.Dhcpv4OptionsAhead.{list_of};
ghost use Rattle.dhcp_wire.specs.Dhcpv4OptionValue.{addresses_in};
ghost use Rattle.dhcp_wire.specs.Dhcpv4Packet.{inner, op_field, magic_field, options_in};

use super::MAX_DNS_SERVER_COUNT;
use super::option_kinds::*;
use super::options::DhcpOption;
use super::packet::Packet;
use super::repr::{ETHERNET, Repr};
use super::tables::MessageType;
use arrayvec::ArrayVec;
use byteorder::{BigEndian, ByteOrder};
use wirebase::{Error, EthernetAddress, Ipv4Address, Result};

// The options seen so far: each field of the value from the last option of its kind and length, and the type of the
// message, where an option gives it.
#[derive(Drop)]
pub(super) struct OptionsSeen<'a> {
    pub(super) message_type: Option<MessageType>,
    pub(super) repr: Repr<'a>,
}

impl<'a> OptionsSeen<'a> {
    // Notes all options of a packet. Refused where one is a client identifier of another hardware.
    pub(super) fn add_all(&mut self, packet: &Packet<&'a [u8]>) -> Result<()>
        requires room { Reaches magic_field (inner packet.now).now }
        ensures typed { OnOk result (self.new.message_type ≡ option_or
            (type_among (byte_of op_field (inner packet.now).now) (list_of (options_in (inner packet.now).now)))
            self.old.message_type) }
        ensures value { OnOk result (value_of self.new.repr
            ≡ with_options (list_of (options_in (inner packet.now).now)) (value_of self.old.repr)) }
        ensures accepted { OnOk result (AreOfEthernet (list_of (options_in (inner packet.now).now))) }
        ensures refused { OnErr result
            (AreOfEthernet (list_of (options_in (inner packet.now).now)) → ⊥) }
    {
        let op = packet.opcode().into();
        for option in packet.into_options() {
            if !is_of_ethernet(option) {
                return Err(Error);
            }
            self.add(option.kind, option.data, op);
        }
        Ok(())
    }

    // Notes one more option, of a packet with this operation. Never inlined into the loop; by `&mut self`, so that the
    // value is not copied.
    #[inline(never)]
    #[tactic(auto, unfolding(crate::specs::Dhcpv4::with_options))]
    fn add(&mut self, kind: u8, body: &'a [u8], op: u8)
        ensures typed { self.new.message_type ≡ option_or
            (type_among op (option kind body.now ∷ [])) self.old.message_type }
        ensures value { value_of self.new.repr
            ≡ with_options (option kind body.now ∷ []) (value_of self.old.repr) }
    {
        match kind {
            OPT_DHCP_MESSAGE_TYPE => set(&mut self.message_type, message_type(body, op)),
            OPT_REQUESTED_IP => set(&mut self.repr.requested_ip, address(body)),
            OPT_CLIENT_ID => set(&mut self.repr.client_identifier, identifier(body)),
            OPT_SERVER_IDENTIFIER => set(&mut self.repr.server_identifier, address(body)),
            OPT_ROUTER => set(&mut self.repr.router, address(body)),
            OPT_SUBNET_MASK => set(&mut self.repr.subnet_mask, address(body)),
            OPT_PARAMETER_REQUEST_LIST => self.repr.parameter_request_list = Some(body),
            OPT_DOMAIN_NAME_SERVER => self.repr.dns_servers = Some(addresses(body)),
            OPT_MAX_DHCP_MESSAGE_SIZE => set(&mut self.repr.max_size, size(body)),
            OPT_IP_LEASE_TIME => set(&mut self.repr.lease_duration, seconds(body)),
            OPT_RENEWAL_TIME_VALUE => set(&mut self.repr.renew_duration, seconds(body)),
            OPT_REBINDING_TIME_VALUE => set(&mut self.repr.rebind_duration, seconds(body)),
            _ => {}
        }
    }
}

// Sets a field to what an option says, where it says something.
fn set<T: Copy>(field: &mut Option<T>, said: Option<T>)
    ensures { field.new ≡ option_or said field.old }
{
    if said.is_some() {
        *field = said;
    }
}

// The length of a client identifier that is an address of Ethernet, after the number of that hardware.
pub(super) const IDENTIFIER_LEN: usize = 7;

// Whether the option is not a client identifier of another hardware.
fn is_of_ethernet(option: DhcpOption<'_>) -> bool
    ensures { IsTrue result ↔ IsOfEthernet (value_of_option option.entry) }
{
    let data = option.data;
    option.kind != OPT_CLIENT_ID || data.len() != IDENTIFIER_LEN || data[0] == ETHERNET
}

// The type of a message whose operation is this one; None for other data.
fn message_type(data: &[u8], op: u8) -> Option<MessageType>
    ensures { result ≡ type_in op data.now }
{
    if data.len() != 1 {
        return None;
    }
    let message_type = MessageType::from(data[0]);
    let own: u8 = message_type.opcode().into();
    if own == op { Some(message_type) } else { None }
}

// An address of four octets; None for other data.
fn address(data: &[u8]) -> Option<Ipv4Address>
    ensures { result ≡ address_in data.now }
{
    if data.len() != 4 {
        return None;
    }
    Some(Ipv4Address::new(data[0], data[1], data[2], data[3]))
}

// An address of Ethernet after the number of its hardware; None for other data.
fn identifier(data: &[u8]) -> Option<EthernetAddress>
    ensures { option_map ethernet_of result ≡ identifier_in data.now }
{
    if data.len() != IDENTIFIER_LEN {
        return None;
    }
    Some(EthernetAddress::from_bytes(&data[1..]))
}

// A number of two bytes; None for other data.
fn size(data: &[u8]) -> Option<u16>
    ensures { result ≡ number_in 2 data.now }
{
    if data.len() != 2 {
        return None;
    }
    Some(BigEndian::read_u16(data))
}

// A number of four bytes; None for other data.
fn seconds(data: &[u8]) -> Option<u32>
    ensures { result ≡ number_in 4 data.now }
{
    if data.len() != 4 {
        return None;
    }
    Some(BigEndian::read_u32(data))
}

// The first whole addresses, at most `MAX_DNS_SERVER_COUNT`.
fn addresses(data: &[u8]) -> ArrayVec<Ipv4Address, MAX_DNS_SERVER_COUNT>
    ensures { result.items ≡ take MAX_DNS_SERVER_COUNT (addresses_in data.now) }
{
    let mut addresses = ArrayVec::new();
    let mut rest = data;
    while !addresses.is_full() {
        let Some((first, after)) = rest.split_first_chunk::<4>() else {
            return addresses;
        };
        addresses.push(Ipv4Address::from_octets(*first));
        rest = after;
    }
    addresses
}
