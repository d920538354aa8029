//! Messages written into octets.

ghost use Rattle.std.specs.Prelude.{◌≡◌, ◌≤◌, ◌<◌, ◌+◌, length};
ghost use Rattle.wirebase.specs.Bytes.{over};
ghost use Rattle.wirebase.specs.ByteWriter.{free, Puts};
ghost use Rattle.header_wire.specs.Icmpv6.{value_of, CanEmit, text, header_fields, node_of, node_fields};
ghost use Rattle.header_wire.specs.Icmpv6.{extended_request_fields, extended_reply_fields};
ghost use Rattle.header_wire.specs.ExtendedEcho.{request_of};

use super::{ExtendedEchoReply, ExtendedEchoRequest, Kind, Message, NodeInformation};
use crate::extended_echo;
use wirebase::ByteWriter;

// Writes the fields of the message over the front of the octets, with a checksum of zero.
#[tactic(auto, using(wirebase::proofs::Chains::chain))]
pub(super) fn write(message: &Message<'_>, octets: &mut [u8])
    requires { CanEmit (value_of message.now) octets.old }
    ensures { octets.new ≡ over octets.old (text (value_of message.now)) }
{
    let mut w = ByteWriter::new(octets);
    match message {
        Message::NodeInformationQuery(node) => put_node(&mut w, Kind::NodeInformationQuery, node),
        Message::NodeInformationReply(node) => put_node(&mut w, Kind::NodeInformationReply, node),
        Message::ExtendedEchoRequest(request) => put_extended_request(&mut w, request),
        Message::ExtendedEchoReply(reply) => put_extended_reply(&mut w, reply),
    }
}

// Writes what a message begins with: its type, its code and a checksum of zero.
fn put_header(w: &mut ByteWriter<'_>, kind: Kind, code: u8)
    requires { 4 ≤ length (free w.old) }
    ensures puts { Puts w.old w.new (header_fields kind code) }
    ensures room { length (free w.old) ≡ 4 + length (free w.new) }
{
    w.put_u8(kind.number());
    w.put_u8(code);
    w.put_u16(0);
}

// Writes the fields of a query about a node, or of its answer.
fn put_node(w: &mut ByteWriter<'_>, kind: Kind, node: &NodeInformation<'_>)
    requires { 16 + length (node_of node.now).octets ≤ length (free w.old) }
    ensures { Puts w.old w.new (node_fields kind (node_of node.now)) }
{
    put_header(w, kind, node.code);
    w.put_u16(node.qtype);
    w.put_u16(node.flags);
    w.put_bytes(&node.nonce.to_be_bytes());
    w.put_bytes(node.data);
}

// Writes the fields of a request about an interface.
fn put_extended_request(w: &mut ByteWriter<'_>, request: &ExtendedEchoRequest<'_>)
    requires { 8 + length (request_of request.now).structure ≤ length (free w.old) }
    ensures { Puts w.old w.new (extended_request_fields (request_of request.now)) }
{
    put_header(w, Kind::ExtendedEchoRequest, 0);
    extended_echo::put_request(w, request);
}

// Writes the fields of an answer about an interface.
fn put_extended_reply(w: &mut ByteWriter<'_>, reply: &ExtendedEchoReply)
    requires room { 8 ≤ length (free w.old) }
    requires state { reply.now.state < 8 }
    ensures { Puts w.old w.new (extended_reply_fields reply.now) }
{
    put_header(w, Kind::ExtendedEchoReply, reply.code);
    extended_echo::put_reply(w, reply);
}
