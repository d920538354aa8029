//! Ports at the front of a payload.

use crate::testing::same_of;
use packet_fields::ports::ports_of;
use wirebase::IpProtocol;

// The front of a header, from port 40000 to port 53.
const PORTS: &[u8] = &[0x9c, 0x40, 0x00, 0x35];

const THREE_BYTES: &[u8] = &[0x9c, 0x40, 0x00];

const DATAGRAM: &[u8] = &[0x9c, 0x40, 0x00, 0x35, 0x00, 0x08, 0x00, 0x00];

#[test]
fn ports_are_those_of_udp_and_of_tcp(rt: HostRuntime) {
    let rows: &[(IpProtocol, &[u8], Option<(u16, u16)>)] = &[
        (IpProtocol::Udp, DATAGRAM, Some((40000, 53))),
        (IpProtocol::Udp, PORTS, Some((40000, 53))),
        (IpProtocol::Udp, THREE_BYTES, None),
        (IpProtocol::Udp, &[], None),
        (IpProtocol::Tcp, PORTS, Some((40000, 53))),
        (IpProtocol::Tcp, THREE_BYTES, None),
        (IpProtocol::Icmp, DATAGRAM, None),
        (IpProtocol::Icmpv6, DATAGRAM, None),
        (IpProtocol::Ipv6Frag, DATAGRAM, None),
        (IpProtocol::Unknown(132), DATAGRAM, None),
    ];
    for &(protocol, payload, want) in rows {
        let of = (protocol, payload.len());
        same_of(&rt, of, ports_of(protocol, payload), want);
    }
}
