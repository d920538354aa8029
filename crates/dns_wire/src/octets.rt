//! The octets under the view of a message, and the parts of the names in it, for the crates above.

ghost use Rattle.std.specs.Prelude.{◌≡◌};
ghost use Rattle.dns_wire.specs.DnsPacket.{view_octets};

use crate::dns::Packet;
pub use crate::dns::part::{NamePart, follow, read_front};

/// The octets of a message, for as long as they live.
#[inline]
pub fn octets_of<'a>(packet: &Packet<&'a [u8]>) -> &'a [u8]
    ensures { result.now ≡ view_octets packet.now }
{
    packet.buffer
}
