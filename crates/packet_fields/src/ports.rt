//! The ports of UDP and TCP.

ghost use Rattle.std.specs.Prelude.{◌≡◌};
ghost use Rattle.packet_fields.specs.Ports.{has_ports as protocol_has_ports, ports_in};

use wirebase::{Field, IpProtocol, Octets};

// The ports; their picture is in specs/Ports.antt.
const SOURCE: Field = 0..2;

const DESTINATION: Field = 2..4;

const PORTS_END: usize = 4;

/// The ports of the source and of the destination at the start of a header of UDP (RFC 768) or TCP (RFC 9293 section
/// 3.1), which the payload of an IP datagram begins with. None exactly where the protocol is another or where fewer
/// than 4 bytes are there.
pub fn ports_of(protocol: IpProtocol, payload: &[u8]) -> Option<(u16, u16)>
    ensures { result ≡ ports_in protocol payload.now }
{
    if has_ports(protocol) && payload.len() >= PORTS_END {
        Some((payload.u16_at(SOURCE), payload.u16_at(DESTINATION)))
    } else {
        None
    }
}

// Whether the protocol's header begins with ports.
fn has_ports(protocol: IpProtocol) -> bool
    ensures { result ≡ protocol_has_ports protocol }
{
    matches!(protocol, IpProtocol::Tcp | IpProtocol::Udp)
}
