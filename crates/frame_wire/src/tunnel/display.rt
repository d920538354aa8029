//! What tunnels, the packets in them and the refusals of their headers print.

ghost use Rattle.std.specs.Prelude.{Some};
ghost use Rattle.frame_wire.specs.Tunnel.{value_of};
ghost use Rattle.frame_wire.specs.TunnelDisplay.{tunnel_display, inner_display, refusal_display};

use super::{Inner, Refusal, Tunnel};
use std::fmt;

/// The name of the protocol in the registry of protocol numbers.
impl fmt::Display for Tunnel {
    ghost output = { λ tunnel. Some (tunnel_display tunnel) };

    fn fmt<W: fmt::Write>(&self, f: &mut fmt::Formatter<W>) -> fmt::Result {
        match self {
            Tunnel::Ipv4 => write!(f, "IPv4"),
            Tunnel::Ipv6 => write!(f, "IPv6"),
            Tunnel::Gre => write!(f, "GRE"),
        }
    }
}

/// The tunnel, the network of the packet in it, and its number of bytes.
impl fmt::Display for Inner<'_> {
    ghost output = { λ inner. Some (inner_display (value_of inner)) };

    fn fmt<W: fmt::Write>(&self, f: &mut fmt::Formatter<W>) -> fmt::Result {
        let tunnel = self.tunnel;
        let network = self.network;
        let len = self.payload.len();
        write!(f, "tunnel={tunnel} network={network} len={len}")
    }
}

/// The reason, as a phrase.
impl fmt::Display for Refusal {
    ghost output = { λ refusal. Some (refusal_display refusal) };

    fn fmt<W: fmt::Write>(&self, f: &mut fmt::Formatter<W>) -> fmt::Result {
        match self {
            Refusal::Short => write!(f, "fewer than the 4 bytes of a GRE header"),
            Refusal::Version(version) => write!(f, "GRE version {version} is not read"),
            Refusal::Routing => write!(f, "a GRE routing field is not read"),
            Refusal::Reserved => write!(f, "a reserved bit of GRE is set"),
            Refusal::Cut(len) => write!(f, "fewer than the {len} bytes of the GRE header"),
        }
    }
}
