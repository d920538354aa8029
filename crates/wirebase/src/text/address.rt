//! Addresses of IPv4 and IPv6, and a port where there is one.

ghost use Rattle.std.specs.Prelude.{◌≡◌, ◌≤◌, take};
ghost use Rattle.std.specs.Str.{IsAscii};
ghost use Rattle.wirebase.specs.Sink.{PutsText};
ghost use Rattle.wirebase.specs.EndpointText.{v4_text, v6_text};

use crate::ipv4::Ipv4Address;
use crate::ipv6::Ipv6Address;
use crate::text::digits::{put_octet, put_port};
use crate::text::groups::{groups_of, put_address};
use crate::text::sink::Sink;

// The size of a buffer for the text of an endpoint, a few octets more than the longest.
pub(super) const ROOM: usize = 64;

/// Puts an address of IPv4, and its port where there is one, as `192.0.2.1:53`.
#[inline]
pub fn put_v4<O, S: Sink<O>>(
    output: &mut O,
    address: Ipv4Address,
    port: Option<u16>,
) -> Result<(), S::Error>
    ensures { PutsText S.took output.old (v4_text address port) result output.new }
{
    let mut room = [0; ROOM];
    let end = fill_v4(&mut room, address, port);
    S::put(output, &room[..end])
}

fn fill_v4(room: &mut [u8; ROOM], address: Ipv4Address, port: Option<u16>) -> usize
    ensures text { take result room.new ≡ v4_text address port }
    ensures ascii { IsAscii (v4_text address port) }
    ensures bound { result ≤ 64 }
{
    let [a, b, c, d] = address.octets();
    let end_a = put_octet(room, 0, a);
    let end_b = put_octet(room, end_a, b);
    let end_c = put_octet(room, end_b, c);
    let end_d = put_octet(room, end_c, d);
    match port {
        Some(port) => {
            // A colon is written over the last dot.
            room[end_d - 1] = b':';
            put_port(room, end_d, port)
        }
        None => end_d - 1,
    }
}

/// Puts an IPv6 address, as `2001:db8::1`, and in brackets where a port follows it, as `[2001:db8::1]:53` (RFC 5952
/// sections 4 and 6).
#[inline]
pub fn put_v6<O, S: Sink<O>>(
    output: &mut O,
    address: Ipv6Address,
    port: Option<u16>,
) -> Result<(), S::Error>
    ensures { PutsText S.took output.old (v6_text address port) result output.new }
{
    let mut room = [0; ROOM];
    let end = fill_v6(&mut room, address, port);
    S::put(output, &room[..end])
}

fn fill_v6(room: &mut [u8; ROOM], address: Ipv6Address, port: Option<u16>) -> usize
    ensures text { take result room.new ≡ v6_text address port }
    ensures ascii { IsAscii (v6_text address port) }
    ensures bound { result ≤ 64 }
{
    let groups = groups_of(&address.octets());
    let Some(port) = port else {
        return put_address(room, 0, &groups);
    };
    room[0] = b'[';
    let end = put_address(room, 1, &groups);
    room[end] = b']';
    room[end + 1] = b':';
    put_port(room, end + 2, port)
}
