//! IPv6 addresses and headers, which occur in messages of several formats.

#![tactic(auto, using(packet_fields::proofs::Printing::gains_both))]

ghost use Rattle.std.specs.Prelude.{OnOk};
ghost use Rattle.listing.specs.ListingIpv6.{address_text, header_listing};
ghost use Rattle.packet_fields.specs.Output.{Gains};

use crate::printer::{Value, part_field};
use std::io;
use std::io::Write;
use wirebase::{Ipv6Address, Ipv6Repr};

// The octets of an address.
impl Value for Ipv6Address {
    ghost text = { address_text };

    fn write_to<W: Write>(self, output: &mut W) -> io::Result<()> {
        self.octets().as_slice().write_to(output)
    }
}

/// Prints the fields of a header that is a part of a value, whose name and a dot are `part`.
pub fn show_header<W: Write>(output: &mut W, part: &str, header: &Ipv6Repr) -> io::Result<()>
    ensures { OnOk result (Gains (W.contents output.old) (W.contents output.new)
        (header_listing part.now header.now)) }
{
    part_field(output, part, "src_addr", header.src_addr)?;
    part_field(output, part, "dst_addr", header.dst_addr)?;
    part_field(output, part, "next_header", u8::from(header.next_header))?;
    part_field(output, part, "payload_len", header.payload_len)?;
    part_field(output, part, "hop_limit", header.hop_limit)
}
