//! Messages printed, each in one line.

ghost use Rattle.std.specs.Prelude.{Some};
ghost use Rattle.std.specs.Option.{option_map};
ghost use Rattle.icmp6_wire.specs.Ndisc.{value_of};
ghost use Rattle.icmp6_wire.specs.NdiscDisplay.{lladdr_display, mtu_display, prefix_display, packet_display};
ghost use Rattle.icmp6_wire.specs.NdiscDisplay.{repr_display, times_display, options_display};
ghost use Rattle.icmp6_wire.specs.NdiscOptionsSeen.{link_of, packet_of};

use super::Repr;
use opt_wire::ndiscoption::{PrefixInformation, RedirectedHeader};
use std::fmt;
use wirebase::text::HexOrDash;
use wirebase::{Duration, RawHardwareAddress};

/// Prints the message with its fields and the options that are there, flags by their names and octets in hexadecimal,
/// as `NDISC neighbor solicitation target_addr=fe80::2 lladdr=52:54:00:12:34:56`.
impl fmt::Display for Repr<'_> {
    ghost output = { λ repr. Some (repr_display (value_of repr)) };

    fn fmt<W: fmt::Write>(&self, f: &mut fmt::Formatter<W>) -> fmt::Result {
        match self {
            Repr::RouterSolicit { lladdr } => {
                write!(f, "NDISC router solicitation{}", LinkAddress(*lladdr))
            }
            Repr::RouterAdvert {
                hop_limit,
                flags,
                router_lifetime,
                reachable_time,
                retrans_time,
                lladdr,
                mtu,
                prefix_info,
            } => {
                let times = Times {
                    router_lifetime: *router_lifetime,
                    reachable_time: *reachable_time,
                    retrans_time: *retrans_time,
                };
                let options = RouterOptions(*lladdr, *mtu, *prefix_info);
                write!(
                    f,
                    "NDISC router advertisement hop_limit={hop_limit} flags={flags}{times}{options}"
                )
            }
            Repr::NeighborSolicit {
                target_addr,
                lladdr,
            } => {
                let lladdr = LinkAddress(*lladdr);
                write!(
                    f,
                    "NDISC neighbor solicitation target_addr={target_addr}{lladdr}"
                )
            }
            Repr::NeighborAdvert {
                flags,
                target_addr,
                lladdr,
            } => {
                let lladdr = LinkAddress(*lladdr);
                write!(
                    f,
                    "NDISC neighbor advertisement flags={flags} target_addr={target_addr}{lladdr}"
                )
            }
            Repr::Redirect {
                target_addr,
                dest_addr,
                lladdr,
                redirected_hdr,
            } => {
                write!(
                    f,
                    "NDISC redirect target_addr={target_addr} dest_addr={dest_addr}{}{}",
                    LinkAddress(*lladdr),
                    Redirected(*redirected_hdr)
                )
            }
        }
    }
}

// The times of a router advertisement.
#[derive(Clone, Copy)]
struct Times {
    router_lifetime: Duration,
    reachable_time: Duration,
    retrans_time: Duration,
}

impl fmt::Display for Times {
    ghost output = { λ it. Some (times_display it.router_lifetime it.reachable_time it.retrans_time) };

    #[tactic(auto, unfolding(crate::specs::NdiscDisplay::times_display))]
    fn fmt<W: fmt::Write>(&self, f: &mut fmt::Formatter<W>) -> fmt::Result {
        write!(
            f,
            " router_lifetime={} reachable_time={} retrans_time={}",
            self.router_lifetime, self.reachable_time, self.retrans_time
        )
    }
}

// The options of a router advertisement.
#[derive(Clone, Copy)]
struct RouterOptions(
    Option<RawHardwareAddress>,
    Option<u32>,
    Option<PrefixInformation>,
);

impl fmt::Display for RouterOptions {
    ghost output = { λ it. Some (options_display (link_of it.0) it.1 it.2) };

    #[tactic(auto, unfolding(crate::specs::NdiscDisplay::options_display))]
    fn fmt<W: fmt::Write>(&self, f: &mut fmt::Formatter<W>) -> fmt::Result {
        write!(
            f,
            "{}{}{}",
            LinkAddress(self.0),
            Mtu(self.1),
            Prefix(self.2)
        )
    }
}

// Optional fields, each printed after its name; nothing is printed of one that is absent.

#[derive(Clone, Copy)]
struct LinkAddress(Option<RawHardwareAddress>);

impl fmt::Display for LinkAddress {
    ghost output = { λ field. Some (lladdr_display (link_of field.0)) };

    #[tactic(auto, unfolding(crate::specs::NdiscDisplay::lladdr_display))]
    fn fmt<W: fmt::Write>(&self, f: &mut fmt::Formatter<W>) -> fmt::Result {
        match self.0 {
            Some(address) => write!(f, " lladdr={address}"),
            None => Ok(()),
        }
    }
}

#[derive(Clone, Copy)]
struct Mtu(Option<u32>);

impl fmt::Display for Mtu {
    ghost output = { λ field. Some (mtu_display field.0) };

    #[tactic(auto, unfolding(crate::specs::NdiscDisplay::mtu_display))]
    fn fmt<W: fmt::Write>(&self, f: &mut fmt::Formatter<W>) -> fmt::Result {
        match self.0 {
            Some(mtu) => write!(f, " mtu={mtu}"),
            None => Ok(()),
        }
    }
}

#[derive(Clone, Copy)]
struct Prefix(Option<PrefixInformation>);

impl fmt::Display for Prefix {
    ghost output = { λ field. Some (prefix_display field.0) };

    #[tactic(auto, unfolding(crate::specs::NdiscDisplay::prefix_display))]
    fn fmt<W: fmt::Write>(&self, f: &mut fmt::Formatter<W>) -> fmt::Result {
        match self.0 {
            Some(info) => {
                let PrefixInformation {
                    prefix_len,
                    flags,
                    valid_lifetime,
                    preferred_lifetime,
                    prefix,
                } = info;
                write!(
                    f,
                    " prefix_info=(prefix={prefix}/{prefix_len} flags={flags} \
                     valid_lifetime={valid_lifetime} preferred_lifetime={preferred_lifetime})"
                )
            }
            None => Ok(()),
        }
    }
}

#[derive(Clone, Copy)]
struct Redirected<'a>(Option<RedirectedHeader<'a>>);

impl fmt::Display for Redirected<'_> {
    ghost output = { λ field. Some (packet_display (option_map packet_of field.0)) };

    #[tactic(auto, unfolding(crate::specs::NdiscDisplay::packet_display))]
    fn fmt<W: fmt::Write>(&self, f: &mut fmt::Formatter<W>) -> fmt::Result {
        match self.0 {
            Some(packet) => {
                let RedirectedHeader { header, data } = packet;
                let payload_len = header.payload_len;
                let data = HexOrDash(data);
                write!(
                    f,
                    " redirected_hdr=({header} payload_len={payload_len} data={data})"
                )
            }
            None => Ok(()),
        }
    }
}
