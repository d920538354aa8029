//! Messages printed, each in one line.

ghost use Rattle.std.specs.Prelude.{Some};
ghost use Rattle.icmp6_wire.specs.Icmpv6.{value_of};
ghost use Rattle.icmp6_wire.specs.Icmpv6Display.{repr_display};

use super::repr::Repr;
use std::fmt;

/// Prints an error with its reason and the word after its checksum, an echo with its numbers and the length of its
/// data, as `ICMPv6 echo request id=18 seq=1 len=56`, and a message of another protocol as that protocol's value.
impl fmt::Display for Repr<'_> {
    ghost output = { λ repr. Some (repr_display (value_of repr)) };

    fn fmt<W: fmt::Write>(&self, f: &mut fmt::Formatter<W>) -> fmt::Result {
        match self {
            Repr::DstUnreachable { reason, .. } => {
                write!(f, "ICMPv6 destination unreachable ({reason})")
            }
            Repr::PktTooBig { mtu, .. } => write!(f, "ICMPv6 packet too big mtu={mtu}"),
            Repr::TimeExceeded { reason, .. } => write!(f, "ICMPv6 time exceeded ({reason})"),
            Repr::ParamProblem {
                reason,
                pointer,
                ..
            } => { write!(f, "ICMPv6 parameter problem ({reason}) pointer={pointer}") }
            Repr::EchoRequest {
                ident,
                seq_no,
                data,
            } => {
                let len = data.len();
                write!(f, "ICMPv6 echo request id={ident} seq={seq_no} len={len}")
            }
            Repr::EchoReply {
                ident,
                seq_no,
                data,
            } => {
                let len = data.len();
                write!(f, "ICMPv6 echo reply id={ident} seq={seq_no} len={len}")
            }
            Repr::Ndisc(message) => write!(f, "{message}"),
            Repr::Mld(message) => write!(f, "{message}"),
        }
    }
}
