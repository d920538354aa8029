//! What packets of ARP and their refusals print.

ghost use Rattle.std.specs.Prelude.{Some};
ghost use Rattle.header_wire.specs.Arp.{value_of};
ghost use Rattle.header_wire.specs.ArpDisplay.{packet_display, refusal_display};

use super::{Refusal, Repr};
use std::fmt;
use wirebase::text::Hex;

/// The operation, and the addresses of the sender and of the target, each with its hardware address.
impl fmt::Display for Repr {
    ghost output = { λ repr. Some (packet_display (value_of repr)) };

    fn fmt<W: fmt::Write>(&self, f: &mut fmt::Formatter<W>) -> fmt::Result {
        let operation = self.operation;
        let source = self.source_protocol_addr;
        let source_hardware = self.source_hardware_addr;
        let target = self.target_protocol_addr;
        let target_hardware = self.target_hardware_addr;
        write!(
            f,
            "ARP {operation} {source} ({source_hardware}) > {target} ({target_hardware})"
        )
    }
}

/// The reason, as a phrase.
impl fmt::Display for Refusal {
    ghost output = { λ refusal. Some (refusal_display refusal) };

    fn fmt<W: fmt::Write>(&self, f: &mut fmt::Formatter<W>) -> fmt::Result {
        match self {
            Refusal::Short => write!(f, "fewer than 28 bytes"),
            Refusal::HardwareType(number) => write!(f, "hardware type {number} is not Ethernet"),
            Refusal::ProtocolType(number) => {
                write!(
                    f,
                    "protocol type 0x{} is not IPv4",
                    Hex(&number.to_be_bytes())
                )
            }
            Refusal::HardwareLen(len) => write!(f, "a hardware address of {len} bytes is not of 6"),
            Refusal::ProtocolLen(len) => write!(f, "a protocol address of {len} bytes is not of 4"),
        }
    }
}
