//! A first use of the library: prints what a packet of ICMPv4 holds.

use control_wire::ChecksumCapabilities;
use control_wire::icmpv4::{Packet, Repr};
use std::io;
use std::io::Write;

/// Prints the message in a packet of ICMPv4, or that the packet is refused.
pub fn print_message<W: Write>(output: &mut W, octets: &[u8]) -> io::Result<()> {
    let packet = Packet::new_unchecked(octets);
    match Repr::parse(&packet, &ChecksumCapabilities::default()) {
        Ok(message) => writeln!(output, "{message}"),
        Err(_) => writeln!(output, "refused"),
    }
}
