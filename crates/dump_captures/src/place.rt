//! The datagram that a frame leads to, through tunnels.

ghost use Rattle.std.specs.Prelude.{◌≡◌, IfOk, IfErr, IfSome, IsNone};
ghost use Rattle.frame_wire.specs.Captured.{captured_of};
ghost use Rattle.frame_wire.specs.Datagram.{value_of as datagram_of};
ghost use Rattle.dump_captures.specs.Path.{path_of};
ghost use Rattle.dump_captures.specs.Place.{step_of, packet_in, IsFollowed, Stays, IsThere, IsUnreadable};
ghost use Rattle.dump_captures.specs.Place.{Follows, IsLast, LeadsTo};

use crate::path::{Passage, Path};
use frame_wire::{Captured, Datagram, Network, Refusal, Tunnel};

/// A version of IP.
#[derive(Debug, PartialEq, Eq, Clone, Copy)]
pub enum Version {
    /// IPv4.
    V4,
    /// IPv6.
    V6,
}

/// Where a datagram begins.
#[derive(Debug, PartialEq, Eq, Clone, Copy)]
pub struct Place<'a> {
    /// The way to it.
    pub path: Path<'a>,
    /// Its version of IP.
    pub version: Version,
    /// The octets from its header on.
    pub octets: &'a [u8],
}

/// What a frame or a tunnel leads to.
#[derive(Debug, PartialEq, Eq, Clone, Copy)]
pub enum Step<'a> {
    /// A datagram.
    Datagram(Place<'a>),
    /// A packet of another network, by its number.
    Other(u16),
}

/// A packet of a network.
pub fn packet_in<'a>(path: Path<'a>, network: Network, octets: &'a [u8]) -> Step<'a>
    ensures { step_of result ≡ packet_in (path_of path.entry) network octets.now }
{
    let version = match network {
        Network::Ipv4 => Version::V4,
        Network::Ipv6 => Version::V6,
        Network::Other(number) => return Step::Other(number),
    };
    Step::Datagram(Place {
        path,
        version,
        octets,
    })
}

/// Follows the tunnels, at most four of them, to what is in the last one.
pub fn follow(first: Step<'_>) -> Step<'_>
    ensures { LeadsTo (step_of first.entry) (step_of result) }
{
    let mut step = first;
    'tunnels: while let Some(next) = next_of(&step) {
        step = next;
    }
    step
}

// What is in the next tunnel; None where no further one is followed.
fn next_of<'a>(step: &Step<'a>) -> Option<Step<'a>>
    ensures follows { IfSome result (λ next. Follows (step_of step.now) (step_of next)) }
    ensures last { IsNone result → IsLast (step_of step.now) }
{
    let Step::Datagram(place) = step else {
        return None;
    };
    match captured_at(place.version, place.octets) {
        Ok(front) => inside(&place.path, &front.datagram),
        Err(_) => None,
    }
}

// The datagram at the start of octets, as far as it is there.
fn captured_at(version: Version, octets: &[u8]) -> Result<Captured<'_>, Refusal>
    ensures sound { IfOk result (λ c. IsThere version octets.now (captured_of c)) }
    ensures refuses { IfErr result (λ refusal. IsUnreadable version octets.now refusal) }
{
    match version {
        Version::V4 => Captured::parse_v4(octets),
        Version::V6 => Captured::parse_v6(octets),
    }
}

/// What is in the tunnel whose packet is the payload of a datagram; None where it is no tunnel's, or is not followed.
pub fn inside<'a>(path: &Path<'a>, datagram: &Datagram<'a>) -> Option<Step<'a>>
    ensures followed { IfSome result (λ step. IsFollowed (path_of path.now) (datagram_of datagram.now) (step_of step)) }
    ensures stays { IsNone result → Stays (path_of path.now) (datagram_of datagram.now) }
{
    let tunnel = Tunnel::of(datagram.protocol)?;
    let passage = Passage {
        tunnel,
        addresses: datagram.addresses,
    };
    let tunnels = path.tunnels.with(passage)?;
    match tunnel.inner(datagram.payload) {
        Ok(inner) => {
            let path = Path {
                tags: path.tags,
                tunnels,
                frames: path.frames,
            };
            Some(packet_in(path, inner.network, inner.payload))
        }
        Err(_) => None,
    }
}
