//! Echoes of ICMPv4 (RFC 792) and ICMPv6 (RFC 4443 section 4).

ghost use Rattle.std.specs.Prelude.{◌≡◌, ◌≤◌, ◌↔◌, IsTrue, length};
ghost use Rattle.std.specs.Option.{option_map};
ghost use Rattle.packet_pairs.specs.Echo.{GoesToGroup, IsEcho, echo_in};
ghost use Rattle.packet_pairs.specs.Exchange.{Finds, exchange_of};
ghost use Rattle.packet_pairs.specs.private.Directions.{from_asker};

use crate::exchange::{Exchange, Role, from_asker};
use crate::key::{EchoKey, Key};
use frame_wire::Addresses;
use wirebase::Octets;

// The fields of an echo; their picture is in specs/Icmp.antt of wirebase.
mod field {
    use wirebase::Field;

    pub const TYPE: Field = 0..1;

    pub const IDENT: Field = 4..6;

    pub const SEQ_NO: Field = 6..8;

    pub const END: usize = 8;
}

/// The echo in these octets, which are sent between these addresses, where these are the types of a request and of a
/// reply.
pub(crate) fn echo_in(
    request: u8,
    reply: u8,
    addresses: Addresses,
    octets: &[u8],
) -> Option<Exchange>
    ensures { Finds (IsEcho request reply addresses octets.now) (option_map exchange_of result) }
{
    if octets.len() < field::END {
        return None;
    }
    let kind = octets.u8_at(field::TYPE);
    if kind == request && !goes_to_group(&addresses) {
        return Some(echo(Role::Asks, addresses, octets));
    }
    if kind == reply {
        return Some(echo(Role::Answers, addresses, octets));
    }
    None
}

// The echo in these octets, which asks or answers.
fn echo(role: Role, addresses: Addresses, octets: &[u8]) -> Exchange
    requires { 8 ≤ length octets.now }
    ensures { exchange_of result ≡ record { role = role; key = echo_in (from_asker role addresses) octets.now } }
{
    let key = EchoKey {
        addresses: from_asker(role, addresses),
        ident: octets.u16_at(field::IDENT),
        seq_no: octets.u16_at(field::SEQ_NO),
    };
    Exchange {
        role,
        key: Key::Echo(key),
    }
}

// Whether the destination is a group.
fn goes_to_group(addresses: &Addresses) -> bool
    ensures { IsTrue result ↔ GoesToGroup addresses.now }
{
    match addresses {
        Addresses::V4(_, destination) => destination.is_multicast(),
        Addresses::V6(_, destination) => destination.is_multicast(),
    }
}
