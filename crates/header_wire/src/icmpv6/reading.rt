//! Messages read from octets.

ghost use Rattle.std.specs.Prelude.{◌≡◌, ◌≤◌, length, IfOk, IfErr, IsOkAnd};
ghost use Rattle.wirebase.specs.Checks.{Fails, Passes};
ghost use Rattle.header_wire.specs.Icmpv6.{Value, value_of, IsMessage, Refuses, IsContent, kind_in, kind_checks};
ghost use Rattle.header_wire.specs.Icmpv6.{IsNode, node_of, node_checks};

use super::{Kind, Message, NodeInformation, Refusal, field, kind_numbered};
use crate::extended_echo;
use byteorder::{BigEndian, ByteOrder};
use wirebase::{Octets, checksum};

// The message that these octets are, where the sum of their pseudo header is this.
pub(super) fn read(octets: &[u8], extra: u16) -> Result<Message<'_>, Refusal>
    ensures sound { IfOk result (λ message. IsMessage extra octets.now (value_of message)) }
    ensures complete { (value : Value) → IsMessage extra octets.now value
        → IsOkAnd result (λ message. value_of message ≡ value) }
    ensures told { IfErr result (Refuses extra octets.now) }
{
    if octets.len() < field::HEADER_END {
        return Err(Refusal::Short);
    }
    if !checksum::is_good(octets, extra) {
        return Err(Refusal::Checksum);
    }
    read_content(octets)
}

// What the octets say, whose checksum is good.
fn read_content(octets: &[u8]) -> Result<Message<'_>, Refusal>
    requires { 8 ≤ length octets.now }
    ensures sound { IfOk result (λ message. IsContent octets.now (value_of message)) }
    ensures passes { IfOk result (λ message. Passes (kind_checks octets.now (kind_in octets.now))) }
    ensures told { IfErr result (Fails (kind_checks octets.now (kind_in octets.now))) }
{
    let number = octets[0];
    match kind_numbered(number) {
        Some(Kind::NodeInformationQuery) => Ok(Message::NodeInformationQuery(read_node(octets)?)),
        Some(Kind::NodeInformationReply) => Ok(Message::NodeInformationReply(read_node(octets)?)),
        Some(Kind::ExtendedEchoRequest) => {
            Ok(Message::ExtendedEchoRequest(extended_echo::read_request(octets)))
        }
        Some(Kind::ExtendedEchoReply) => {
            Ok(Message::ExtendedEchoReply(extended_echo::read_reply(octets)))
        }
        None => Err(Refusal::UnknownType(number)),
    }
}

// What is asked or told of a node.
fn read_node(octets: &[u8]) -> Result<NodeInformation<'_>, Refusal>
    requires { 8 ≤ length octets.now }
    ensures sound { IfOk result (λ node. IsNode octets.now (node_of node)) }
    ensures passes { IfOk result (λ node. Passes (node_checks octets.now)) }
    ensures told { IfErr result (Fails (node_checks octets.now)) }
{
    if octets.len() < field::NONCE.end {
        return Err(Refusal::Length);
    }
    Ok(NodeInformation {
        code: octets[field::CODE],
        qtype: octets.u16_at(field::QTYPE),
        flags: octets.u16_at(field::FLAGS),
        nonce: BigEndian::read_u64(octets.field(field::NONCE)),
        data: &octets[field::NONCE.end..],
    })
}
