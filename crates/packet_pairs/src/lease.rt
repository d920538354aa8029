//! Messages of DHCP (RFC 2131).

ghost use Rattle.std.specs.Prelude.{◌≡◌, IfSome, IsNone};
ghost use Rattle.std.specs.Option.{option_map};
ghost use Rattle.wirebase.specs.Bytes.{Reaches};
ghost use Rattle.dhcp_wire.specs.Dhcpv4Packet.{magic_field};
ghost use Rattle.dhcp_wire.specs.declared.dhcpv4.tables.MessageType.{«MessageType» as DhcpType};
ghost use Rattle.packet_pairs.specs.Exchange.{Finds, exchange_of};
ghost use Rattle.packet_pairs.specs.Lease.{HasType, IsLease, IsTyped, lease_in, part_in};

use crate::exchange::{Exchange, Role};
use crate::key::{Key, LeaseKey, Reply};
use dhcp_options::Parts;
use dhcp_wire::dhcpv4::{MessageType, OPT_DHCP_MESSAGE_TYPE, Packet};

// What stands before the options of DHCP (RFC 2131 section 3).
const MAGIC_COOKIE: u32 = 0x6382_5363;

/// The message of DHCP in these octets, where it asks or answers.
pub(crate) fn lease_in(octets: &[u8]) -> Option<Exchange>
    ensures { Finds (IsLease octets.now) (option_map exchange_of result) }
{
    let packet = Packet::new_unchecked(octets);
    if packet.check_len().is_err() || packet.magic_number() != MAGIC_COOKIE {
        return None;
    }
    match type_in(octets) {
        Some(kind) => typed_in(kind, octets),
        None => None,
    }
}

// The message of this type in these octets, where it asks or answers.
fn typed_in(kind: MessageType, octets: &[u8]) -> Option<Exchange>
    requires { Reaches magic_field octets.now }
    ensures { Finds (IsTyped kind octets.now) (option_map exchange_of result) }
{
    match part_in(kind) {
        Some((role, reply)) => Some(lease(role, reply, octets)),
        None => None,
    }
}

// The message in these octets, of this role, whose question awaits this reply.
fn lease(role: Role, reply: Reply, octets: &[u8]) -> Exchange
    requires { Reaches magic_field octets.now }
    ensures { exchange_of result ≡ record { role = role; key = lease_in reply octets.now } }
{
    let packet = Packet::new_unchecked(octets);
    let key = LeaseKey {
        reply,
        transaction_id: packet.transaction_id(),
        client: packet.client_hardware_address(),
    };
    Exchange {
        role,
        key: Key::Lease(key),
    }
}

// The type of a message, as the first of its options tells it that has one.
fn type_in(octets: &[u8]) -> Option<MessageType>
    requires { Reaches magic_field octets.now }
    ensures some { IfSome result (HasType octets.now) }
    ensures only { IfSome result (λ kind. (other : DhcpType) → HasType octets.now other → other ≡ kind) }
    ensures none { IsNone result → (kind : DhcpType) → HasType octets.now kind → ⊥ }
{
    let first = match Parts::of(octets).of_kind(OPT_DHCP_MESSAGE_TYPE).next() {
        Some(first) => first,
        None => return None,
    };
    if first.len() != 1 {
        return None;
    }
    Some(MessageType::from(first[0]))
}

// What a message of this type does, and the reply that its question awaits.
fn part_in(kind: MessageType) -> Option<(Role, Reply)>
    ensures { result ≡ part_in kind }
{
    match kind {
        MessageType::Discover => Some((Role::Asks, Reply::Offer)),
        MessageType::Offer => Some((Role::Answers, Reply::Offer)),
        MessageType::Request | MessageType::Inform => Some((Role::Asks, Reply::Decision)),
        MessageType::Ack | MessageType::Nak => Some((Role::Answers, Reply::Decision)),
        _ => None,
    }
}
