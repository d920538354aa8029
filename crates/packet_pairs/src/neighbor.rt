//! Neighbor solicitations and advertisements (RFC 4861 sections 4.3 and 4.4).

ghost use Rattle.std.specs.Prelude.{◌≡◌};
ghost use Rattle.std.specs.Option.{option_map};
ghost use Rattle.wirebase.specs.Bytes.{Reaches};
ghost use Rattle.icmp6_wire.specs.Icmpv6Packet.{view_octets};
ghost use Rattle.icmp6_wire.specs.NdiscPacket.{target_addr_field};
ghost use Rattle.packet_pairs.specs.Exchange.{Finds, exchange_of};
ghost use Rattle.packet_pairs.specs.Neighbor.{IsNeighbor, is_solicited, neighbor_in};

use crate::exchange::{Exchange, Role};
use crate::key::{Key, NeighborKey};
use bitflags::Flags as _;
use icmp6_wire::icmpv6::{Message, Packet};
use icmp6_wire::ndisc::NeighborFlags;
use wirebase::Ipv6Address;

// The bytes up to the end of the target address.
const TARGET_END: usize = 24;

/// The solicitation or the advertisement in these octets, which are sent between these addresses.
pub(crate) fn neighbor_in(
    src_addr: Ipv6Address,
    dst_addr: Ipv6Address,
    octets: &[u8],
) -> Option<Exchange>
    ensures { Finds (IsNeighbor src_addr dst_addr octets.now) (option_map exchange_of result) }
{
    if octets.len() < TARGET_END {
        return None;
    }
    let packet = Packet::new_unchecked(octets);
    match packet.msg_type() {
        Message::NeighborSolicit if !src_addr.is_unspecified() => {
            Some(neighbor(Role::Asks, src_addr, &packet))
        }
        Message::NeighborAdvert if is_solicited(&packet) => {
            Some(neighbor(Role::Answers, dst_addr, &packet))
        }
        _ => None,
    }
}

// The message of this role, whose question is this asker's.
fn neighbor(role: Role, asker: Ipv6Address, packet: &Packet<&[u8]>) -> Exchange
    requires { Reaches target_addr_field (view_octets packet.now) }
    ensures { exchange_of result ≡ record { role = role; key = neighbor_in asker (view_octets packet.now) } }
{
    let key = NeighborKey {
        asker,
        target: packet.target_addr(),
    };
    Exchange {
        role,
        key: Key::Neighbor(key),
    }
}

// Whether the flags of an advertisement say that it was solicited.
fn is_solicited(packet: &Packet<&[u8]>) -> bool
    requires { Reaches target_addr_field (view_octets packet.now) }
    ensures { result ≡ is_solicited (view_octets packet.now) }
{
    packet.neighbor_flags().contains(NeighborFlags::SOLICITED)
}
