//! What UDP datagrams and their refusals print.

ghost use Rattle.std.specs.Prelude.{Some};
ghost use Rattle.frame_wire.specs.UdpRefusal.{refusal_display, repr_display};

use super::{Refusal, UdpRepr};
use std::fmt;

/// The ports.
impl fmt::Display for UdpRepr {
    ghost output = { λ repr. Some (repr_display repr) };

    fn fmt<W: fmt::Write>(&self, f: &mut fmt::Formatter<W>) -> fmt::Result {
        let src_port = self.src_port;
        let dst_port = self.dst_port;
        write!(f, "UDP src={src_port} dst={dst_port}")
    }
}

/// The reason, as a phrase.
impl fmt::Display for Refusal {
    ghost output = { λ refusal. Some (refusal_display refusal) };

    fn fmt<W: fmt::Write>(&self, f: &mut fmt::Formatter<W>) -> fmt::Result {
        match self {
            Refusal::Short => write!(f, "fewer than 8 bytes"),
            Refusal::Length(len) => write!(f, "a length of {len} is below 8"),
            Refusal::Cut(len) => write!(f, "fewer than its {len} bytes"),
            Refusal::Port => write!(f, "the destination port is 0"),
            Refusal::NoChecksum => write!(f, "no checksum over IPv6"),
            Refusal::Checksum => write!(f, "the checksum does not hold"),
        }
    }
}
