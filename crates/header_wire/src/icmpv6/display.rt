//! What messages and their refusals print.

ghost use Rattle.std.specs.Prelude.{Some};
ghost use Rattle.header_wire.specs.Icmpv6.{value_of, node_of};
ghost use Rattle.header_wire.specs.Icmpv6Display.{node_display, message_display, refusal_display};

use super::{Message, NodeInformation, Refusal};
use std::fmt;

/// The numbers, and the number of bytes of the data.
impl fmt::Display for NodeInformation<'_> {
    ghost output = { λ node. Some (node_display (node_of node)) };

    fn fmt<W: fmt::Write>(&self, f: &mut fmt::Formatter<W>) -> fmt::Result {
        let code = self.code;
        let qtype = self.qtype;
        let flags = self.flags;
        let nonce = self.nonce;
        let len = self.data.len();
        write!(
            f,
            "code={code} qtype={qtype} flags={flags} nonce={nonce} len={len}"
        )
    }
}

/// The type by its name, and what the message says.
impl fmt::Display for Message<'_> {
    ghost output = { λ message. Some (message_display (value_of message)) };

    fn fmt<W: fmt::Write>(&self, f: &mut fmt::Formatter<W>) -> fmt::Result {
        match self {
            Message::NodeInformationQuery(node) => {
                write!(f, "ICMPv6 node information query {node}")
            }
            Message::NodeInformationReply(node) => {
                write!(f, "ICMPv6 node information reply {node}")
            }
            Message::ExtendedEchoRequest(request) => {
                write!(f, "ICMPv6 extended echo request {request}")
            }
            Message::ExtendedEchoReply(reply) => write!(f, "ICMPv6 extended echo reply {reply}"),
        }
    }
}

/// The reason, as a phrase.
impl fmt::Display for Refusal {
    ghost output = { λ refusal. Some (refusal_display refusal) };

    fn fmt<W: fmt::Write>(&self, f: &mut fmt::Formatter<W>) -> fmt::Result {
        match self {
            Refusal::Short => write!(f, "fewer than 8 bytes"),
            Refusal::Checksum => write!(f, "the checksum does not hold"),
            Refusal::UnknownType(number) => write!(f, "type {number} is not read"),
            Refusal::Length => write!(f, "fewer bytes than a message of this type has"),
        }
    }
}
