//! Fragments, and the datagrams that are put together from them.

ghost use Rattle.std.specs.Prelude.{◌≡◌};
ghost use Rattle.std.specs.Option.{option_map};
ghost use Rattle.capture.specs.Capture.{packet_of};
ghost use Rattle.frame_wire.specs.Datagram.{value_of as datagram_of};
ghost use Rattle.reassembly.specs.Fragment.{value_of};
ghost use Rattle.reassembly.specs.Partial.{whole_of};
ghost use Rattle.dump_captures.specs.Fragments.{IsJoinedSight, IsWithin, first_ports, refused_fragment};
ghost use Rattle.dump_captures.specs.Fragments.{unless_fragment};
ghost use Rattle.dump_captures.specs.Path.{path_of};
ghost use Rattle.dump_captures.specs.Sight.{finding_of, sight_of};

use crate::kind::Reason;
use crate::path::Path;
use crate::place::{follow, inside};
use crate::ports::Ports;
use crate::refusal::Refusal;
use crate::refused::told;
use crate::sight::{Finding, Sight, is_cut, look_at_end, whole};
use capture::Record;
use frame_wire::Datagram;
use packet_fields::ports::ports_of;
use reassembly::{Fragment, Whole};

/// What is known of a fragment that is refused.
pub fn refused_fragment<'a>(
    given: &Ports,
    path: &Path<'a>,
    fragment: &Fragment<'_>,
    refusal: Refusal,
) -> Sight<'a>
    ensures { sight_of result ≡ refused_fragment given.now (path_of path.now) (value_of fragment.now) refusal }
{
    let ports = first_ports(fragment);
    told(
        given,
        path,
        fragment.addresses,
        fragment.protocol,
        ports,
        Reason::Fragment,
        refusal,
    )
}

// The ports in a fragment, which only the first one of a datagram begins with.
fn first_ports(fragment: &Fragment<'_>) -> Option<(u16, u16)>
    ensures { result ≡ first_ports (value_of fragment.now) }
{
    if fragment.frag_offset == 0 {
        ports_of(fragment.protocol, fragment.payload)
    } else {
        None
    }
}

/// What a datagram tells that was put together with a packet, by the way to it.
pub fn look_at_joined<'a>(
    given: &Ports,
    captured: &Record,
    octets: &[u8],
    path: &Path<'a>,
    joined: &'a Whole,
) -> Sight<'a>
    ensures { IsJoinedSight given.now (packet_of captured.now octets.now) (path_of path.now) (whole_of joined.now)
        (sight_of result) }
{
    let payload = joined.payload.as_slice();
    match Datagram::joined(joined.addresses, joined.protocol, payload) {
        Ok(datagram) => {
            let datagram = Datagram {
                hop_by_hop: options_of(joined),
                ..datagram
            };
            look_within(given, captured, octets, path, &datagram)
        }
        Err(refusal) => {
            let refusal = Refusal::Datagram(refusal);
            let reason = refusal.reason(is_cut(captured, octets));
            told(
                given,
                path,
                joined.addresses,
                joined.protocol,
                None,
                reason,
                refusal,
            )
        }
    }
}

// The hop-by-hop options of a datagram that was put together.
fn options_of(joined: &Whole) -> Option<&[u8]>
    ensures { option_map (λ options. options.now) result ≡ (whole_of joined.now).hop_by_hop }
{
    match &joined.hop_by_hop {
        Some(options) => Some(options.as_slice()),
        None => None,
    }
}

// What a datagram tells that was put together.
fn look_within<'a>(
    given: &Ports,
    captured: &Record,
    octets: &[u8],
    path: &Path<'a>,
    datagram: &Datagram<'a>,
) -> Sight<'a>
    ensures { IsWithin given.now (packet_of captured.now octets.now) (path_of path.now) (datagram_of datagram.now)
        (sight_of result) }
{
    match inside(path, datagram) {
        Some(step) => {
            unless_fragment(given, look_at_end(given, captured, octets, &follow(step)))
        }
        None => whole(given, path, false, datagram),
    }
}

// In a datagram that was put together no fragment is put together with others.
fn unless_fragment<'a>(given: &Ports, finding: Finding<'a>) -> Sight<'a>
    ensures { sight_of result ≡ unless_fragment given.now (finding_of finding.entry) }
{
    match finding {
        Finding::Sight(sight) => sight,
        Finding::Fragment(path, fragment) => {
            refused_fragment(given, &path, &fragment, Refusal::Nested)
        }
    }
}
