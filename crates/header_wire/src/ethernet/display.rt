//! What headers of Ethernet and their refusals print.

ghost use Rattle.std.specs.Prelude.{Some};
ghost use Rattle.header_wire.specs.Ethernet.{value_of};
ghost use Rattle.header_wire.specs.EthernetDisplay.{header_display, refusal_display};

use super::{Header, Refusal};
use std::fmt;
use wirebase::text::Hex;

/// The addresses, and the EtherType in hexadecimal.
impl fmt::Display for Header {
    ghost output = { λ header. Some (header_display (value_of header)) };

    fn fmt<W: fmt::Write>(&self, f: &mut fmt::Formatter<W>) -> fmt::Result {
        let from = self.src_addr;
        let to = self.dst_addr;
        write!(
            f,
            "{from} > {to} ether_type=0x{}",
            Hex(&self.ether_type.to_be_bytes())
        )
    }
}

/// The reason, as a phrase.
impl fmt::Display for Refusal {
    ghost output = { λ refusal. Some (refusal_display refusal) };

    fn fmt<W: fmt::Write>(&self, f: &mut fmt::Formatter<W>) -> fmt::Result {
        match self {
            Refusal::Short => write!(f, "fewer than 14 bytes"),
        }
    }
}
