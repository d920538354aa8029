//! Makes messages from the octets of a packet and its options, by their types.

ghost use Rattle.std.specs.Prelude.{◌≡◌};
ghost use Rattle.wirebase.specs.Checks.{Passes};
ghost use Rattle.icmp6_wire.specs.Icmpv6Packet.{view_octets, message_in, payload_in};
ghost use Rattle.icmp6_wire.specs.Ndisc.{value_of, checks, IsMessage};
ghost use Rattle.icmp6_wire.specs.private.NdiscOptionsSeen.{kept_of, Says};
ghost use Rattle.icmp6_wire.specs.declared.icmpv6.tables.Message.TheVariants.{RouterSolicit, RouterAdvert, Redirect};
ghost use Rattle.icmp6_wire.specs.declared.icmpv6.tables.Message.TheVariants.{NeighborSolicit, NeighborAdvert};

use super::options_seen::OptionsSeen;
use super::repr::Repr;
use crate::icmpv6::Packet;

// The router solicitation in octets of that type, with these options.
#[inline(always)]
pub(crate) fn router_solicit<'a>(packet: &Packet<&'a [u8]>, found: &OptionsSeen<'a>) -> Repr<'a>
    requires passes { Passes (checks (view_octets packet.now)) }
    requires kind { message_in (view_octets packet.now) ≡ RouterSolicit }
    requires says { Says (payload_in (view_octets packet.now)) (kept_of found.now) }
    ensures { IsMessage (view_octets packet.now) (value_of result) }
{
    Repr::RouterSolicit {
        lladdr: found.source,
    }
}

// The router advertisement in octets of that type, with these options.
#[inline(always)]
pub(crate) fn router_advert<'a>(packet: &Packet<&'a [u8]>, found: &OptionsSeen<'a>) -> Repr<'a>
    requires passes { Passes (checks (view_octets packet.now)) }
    requires kind { message_in (view_octets packet.now) ≡ RouterAdvert }
    requires says { Says (payload_in (view_octets packet.now)) (kept_of found.now) }
    ensures { IsMessage (view_octets packet.now) (value_of result) }
{
    Repr::RouterAdvert {
        hop_limit: packet.current_hop_limit(),
        flags: packet.router_flags(),
        router_lifetime: packet.router_lifetime(),
        reachable_time: packet.reachable_time(),
        retrans_time: packet.retrans_time(),
        lladdr: found.source,
        mtu: found.mtu,
        prefix_info: found.prefix_info,
    }
}

// The neighbor solicitation in octets of that type, with these options.
#[inline(always)]
pub(crate) fn neighbor_solicit<'a>(packet: &Packet<&'a [u8]>, found: &OptionsSeen<'a>) -> Repr<'a>
    requires passes { Passes (checks (view_octets packet.now)) }
    requires kind { message_in (view_octets packet.now) ≡ NeighborSolicit }
    requires says { Says (payload_in (view_octets packet.now)) (kept_of found.now) }
    ensures { IsMessage (view_octets packet.now) (value_of result) }
{
    Repr::NeighborSolicit {
        target_addr: packet.target_addr(),
        lladdr: found.source,
    }
}

// The neighbor advertisement in octets of that type, with these options.
#[inline(always)]
pub(crate) fn neighbor_advert<'a>(packet: &Packet<&'a [u8]>, found: &OptionsSeen<'a>) -> Repr<'a>
    requires passes { Passes (checks (view_octets packet.now)) }
    requires kind { message_in (view_octets packet.now) ≡ NeighborAdvert }
    requires says { Says (payload_in (view_octets packet.now)) (kept_of found.now) }
    ensures { IsMessage (view_octets packet.now) (value_of result) }
{
    Repr::NeighborAdvert {
        flags: packet.neighbor_flags(),
        target_addr: packet.target_addr(),
        lladdr: found.target,
    }
}

// The redirect in octets of that type, with these options.
#[inline(always)]
pub(crate) fn redirect<'a>(packet: &Packet<&'a [u8]>, found: &OptionsSeen<'a>) -> Repr<'a>
    requires passes { Passes (checks (view_octets packet.now)) }
    requires kind { message_in (view_octets packet.now) ≡ Redirect }
    requires says { Says (payload_in (view_octets packet.now)) (kept_of found.now) }
    ensures { IsMessage (view_octets packet.now) (value_of result) }
{
    Repr::Redirect {
        target_addr: packet.target_addr(),
        dest_addr: packet.dest_addr(),
        lladdr: found.target,
        redirected_hdr: found.redirected_hdr,
    }
}
