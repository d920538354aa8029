//! What segments of TCP and their refusals print.

ghost use Rattle.std.specs.Prelude.{Some};
ghost use Rattle.frame_wire.specs.Tcp.{value_of};
ghost use Rattle.frame_wire.specs.TcpDisplay.{segment_display, refusal_display};

use super::{Refusal, TcpSegment};
use std::fmt;

/// The ports, and the number of bytes of data.
impl fmt::Display for TcpSegment<'_> {
    ghost output = { λ segment. Some (segment_display (value_of segment)) };

    fn fmt<W: fmt::Write>(&self, f: &mut fmt::Formatter<W>) -> fmt::Result {
        let src_port = self.src_port;
        let dst_port = self.dst_port;
        let len = self.payload.len();
        write!(f, "TCP src={src_port} dst={dst_port} len={len}")
    }
}

/// The reason, as a phrase.
impl fmt::Display for Refusal {
    ghost output = { λ refusal. Some (refusal_display refusal) };

    fn fmt<W: fmt::Write>(&self, f: &mut fmt::Formatter<W>) -> fmt::Result {
        match self {
            Refusal::Short => write!(f, "fewer than the 20 bytes of a TCP header"),
            Refusal::HeaderLen(len) => write!(f, "a TCP header length of {len} is below 20"),
            Refusal::Cut(len) => write!(f, "fewer than the {len} bytes of the TCP header"),
        }
    }
}
