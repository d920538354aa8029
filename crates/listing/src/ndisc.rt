//! Messages of neighbor discovery.

#![tactic(auto, using(packet_fields::proofs::Printing::gains_both))]

ghost use Rattle.std.specs.Prelude.{OnOk};
ghost use Rattle.std.specs.Option.{option_map};
ghost use Rattle.icmp6_wire.specs.Ndisc.{neighbor_advert, neighbor_solicit, redirect, router_advert};
ghost use Rattle.icmp6_wire.specs.Ndisc.{router_solicit, value_of};
ghost use Rattle.icmp6_wire.specs.NdiscOptionsSeen.{link_of, packet_of};
ghost use Rattle.listing.specs.ListingNdisc.{ndisc_listing, router_listing, lladdr_listing};
ghost use Rattle.listing.specs.ListingNdisc.{prefix_info_listing, redirected_hdr_listing};
ghost use Rattle.packet_fields.specs.Output.{Gains};

use crate::ndopt::{show_prefix, show_redirected};
use crate::printer::{field, line};
use bitflags::Flags as _;
use icmp6_wire::ndisc::{NeighborFlags, Repr, RouterFlags};
use opt_wire::ndiscoption::{PrefixInformation, RedirectedHeader};
use std::io;
use std::io::Write;
use wirebase::{Duration, Ipv6Address, RawHardwareAddress};

/// Prints a message that was read.
pub fn show_message<W: Write>(output: &mut W, message: &Repr<'_>) -> io::Result<()>
    ensures { OnOk result (Gains (W.contents output.old) (W.contents output.new)
        (ndisc_listing (value_of message.now))) }
{
    match message {
        Repr::RouterSolicit { lladdr } => show_router_solicit(output, *lladdr),
        Repr::RouterAdvert {
            hop_limit,
            flags,
            router_lifetime,
            reachable_time,
            retrans_time,
            lladdr,
            mtu,
            prefix_info,
        } => show_router_advert(
            output,
            *hop_limit,
            *flags,
            *router_lifetime,
            *reachable_time,
            *retrans_time,
            *lladdr,
            *mtu,
            prefix_info,
        ),
        Repr::NeighborSolicit {
            target_addr,
            lladdr,
        } => show_neighbor_solicit(output, *target_addr, *lladdr),
        Repr::NeighborAdvert {
            flags,
            target_addr,
            lladdr,
        } => show_neighbor_advert(output, *flags, *target_addr, *lladdr),
        Repr::Redirect {
            target_addr,
            dest_addr,
            lladdr,
            redirected_hdr,
        } => show_redirect(output, *target_addr, *dest_addr, *lladdr, redirected_hdr),
    }
}

fn show_router_solicit<W: Write>(
    output: &mut W,
    lladdr: Option<RawHardwareAddress>,
) -> io::Result<()>
    ensures { OnOk result (Gains (W.contents output.old) (W.contents output.new)
        (ndisc_listing (router_solicit (link_of lladdr)))) }
{
    line(output, "RouterSolicit")?;
    show_lladdr(output, lladdr)
}

fn show_router_advert<W: Write>(
    output: &mut W,
    hop_limit: u8,
    flags: RouterFlags,
    router_lifetime: Duration,
    reachable_time: Duration,
    retrans_time: Duration,
    lladdr: Option<RawHardwareAddress>,
    mtu: Option<u32>,
    prefix_info: &Option<PrefixInformation>,
) -> io::Result<()>
    ensures { OnOk result (Gains (W.contents output.old) (W.contents output.new)
        (ndisc_listing (router_advert (record {
          hop_limit = hop_limit;
          flags = flags;
          router_lifetime = router_lifetime;
          reachable_time = reachable_time;
          retrans_time = retrans_time;
          lladdr = link_of lladdr;
          mtu = mtu;
          prefix_info = prefix_info.now;
        })))) }
{
    show_router(
        output,
        hop_limit,
        flags,
        router_lifetime,
        reachable_time,
        retrans_time,
    )?;
    show_lladdr(output, lladdr)?;
    field(output, "mtu", mtu)?;
    show_prefix_info(output, prefix_info)
}

fn show_router<W: Write>(
    output: &mut W,
    hop_limit: u8,
    flags: RouterFlags,
    router_lifetime: Duration,
    reachable_time: Duration,
    retrans_time: Duration,
) -> io::Result<()>
    ensures { OnOk result (Gains (W.contents output.old) (W.contents output.new)
        (router_listing hop_limit flags router_lifetime reachable_time retrans_time)) }
{
    line(output, "RouterAdvert")?;
    field(output, "hop_limit", hop_limit)?;
    field(output, "flags", flags.bits())?;
    field(output, "router_lifetime", router_lifetime)?;
    field(output, "reachable_time", reachable_time)?;
    field(output, "retrans_time", retrans_time)
}

fn show_neighbor_solicit<W: Write>(
    output: &mut W,
    target_addr: Ipv6Address,
    lladdr: Option<RawHardwareAddress>,
) -> io::Result<()>
    ensures { OnOk result (Gains (W.contents output.old) (W.contents output.new)
        (ndisc_listing (neighbor_solicit target_addr (link_of lladdr)))) }
{
    line(output, "NeighborSolicit")?;
    field(output, "target_addr", target_addr)?;
    show_lladdr(output, lladdr)
}

fn show_neighbor_advert<W: Write>(
    output: &mut W,
    flags: NeighborFlags,
    target_addr: Ipv6Address,
    lladdr: Option<RawHardwareAddress>,
) -> io::Result<()>
    ensures { OnOk result (Gains (W.contents output.old) (W.contents output.new)
        (ndisc_listing (neighbor_advert flags target_addr (link_of lladdr)))) }
{
    line(output, "NeighborAdvert")?;
    field(output, "flags", flags.bits())?;
    field(output, "target_addr", target_addr)?;
    show_lladdr(output, lladdr)
}

fn show_redirect<W: Write>(
    output: &mut W,
    target_addr: Ipv6Address,
    dest_addr: Ipv6Address,
    lladdr: Option<RawHardwareAddress>,
    redirected_hdr: &Option<RedirectedHeader<'_>>,
) -> io::Result<()>
    ensures { OnOk result (Gains (W.contents output.old) (W.contents output.new)
        (ndisc_listing (redirect target_addr dest_addr (link_of lladdr)
        (option_map packet_of redirected_hdr.now)))) }
{
    line(output, "Redirect")?;
    field(output, "target_addr", target_addr)?;
    field(output, "dest_addr", dest_addr)?;
    show_lladdr(output, lladdr)?;
    show_redirected_hdr(output, redirected_hdr)
}

fn show_lladdr<W: Write>(output: &mut W, address: Option<RawHardwareAddress>) -> io::Result<()>
    ensures { OnOk result (Gains (W.contents output.old) (W.contents output.new)
        (lladdr_listing (link_of address))) }
{
    match address {
        Some(address) => field(output, "lladdr", address.as_bytes()),
        None => field(output, "lladdr", "none"),
    }
}

fn show_prefix_info<W: Write>(
    output: &mut W,
    prefix_info: &Option<PrefixInformation>,
) -> io::Result<()>
    ensures { OnOk result (Gains (W.contents output.old) (W.contents output.new)
        (prefix_info_listing prefix_info.now)) }
{
    match prefix_info {
        Some(prefix) => show_prefix(output, "prefix_info.", prefix),
        None => field(output, "prefix_info", "none"),
    }
}

fn show_redirected_hdr<W: Write>(
    output: &mut W,
    redirected_hdr: &Option<RedirectedHeader<'_>>,
) -> io::Result<()>
    ensures { OnOk result (Gains (W.contents output.old) (W.contents output.new)
        (redirected_hdr_listing (option_map packet_of redirected_hdr.now))) }
{
    match redirected_hdr {
        Some(redirected) => show_redirected(
            output,
            "redirected_hdr.header.",
            "redirected_hdr.",
            redirected,
        ),
        None => field(output, "redirected_hdr", "none"),
    }
}
