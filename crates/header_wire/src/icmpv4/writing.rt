//! Messages written into octets.

ghost use Rattle.std.specs.Prelude.{◌≡◌, ◌≤◌, ◌<◌, ◌+◌, length};
ghost use Rattle.wirebase.specs.Bytes.{over};
ghost use Rattle.wirebase.specs.ByteWriter.{free, Puts};
ghost use Rattle.header_wire.specs.Icmpv4.{value_of, CanEmit, text, timestamp_fields, mask_fields, solicitation_fields};
ghost use Rattle.header_wire.specs.Icmpv4.{header_fields, extended_request_fields, extended_reply_fields, advert_of};
ghost use Rattle.header_wire.specs.Icmpv4.{advert_fields};
ghost use Rattle.header_wire.specs.ExtendedEcho.{request_of};

use super::routers::ENTRY_WORDS;
use super::{
    AddressMask, ExtendedEchoReply, ExtendedEchoRequest, Kind, Message, RouterAdvertisement,
    Timestamp,
};
use crate::extended_echo;
use wirebase::ByteWriter;

// Writes the fields of the message over the front of the octets, with a checksum of zero.
#[tactic(auto, using(wirebase::proofs::Chains::chain))]
pub(super) fn write(message: &Message<'_>, octets: &mut [u8])
    requires { CanEmit (value_of message.now) octets.old }
    ensures { octets.new ≡ over octets.old (text (value_of message.now)) }
{
    let mut w = ByteWriter::new(octets);
    match message {
        Message::Timestamp(timestamp) => put_timestamp(&mut w, Kind::Timestamp, timestamp),
        Message::TimestampReply(timestamp) => put_timestamp(
            &mut w,
            Kind::TimestampReply,
            timestamp,
        ),
        Message::AddressMaskRequest(mask) => put_mask(&mut w, Kind::AddressMaskRequest, mask),
        Message::AddressMaskReply(mask) => put_mask(&mut w, Kind::AddressMaskReply, mask),
        Message::RouterSolicitation => put_solicitation(&mut w),
        Message::RouterAdvertisement(advertisement) => put_advertisement(&mut w, advertisement),
        Message::ExtendedEchoRequest(request) => put_extended_request(&mut w, request),
        Message::ExtendedEchoReply(reply) => put_extended_reply(&mut w, reply),
    }
}

// Writes what a message begins with: its type, its code and a checksum of zero.
fn put_header(w: &mut ByteWriter<'_>, kind: Kind, code: u8)
    requires { 4 ≤ length (free w.old) }
    ensures puts { Puts w.old w.new (header_fields kind code) }
    ensures room { length (free w.old) ≡ 4 + length (free w.new) }
{
    w.put_u8(kind.number());
    w.put_u8(code);
    w.put_u16(0);
}

// Writes the fields of a request for the time, or of its answer.
fn put_timestamp(w: &mut ByteWriter<'_>, kind: Kind, timestamp: &Timestamp)
    requires { 20 ≤ length (free w.old) }
    ensures { Puts w.old w.new (timestamp_fields kind timestamp.now) }
{
    put_header(w, kind, 0);
    w.put_u16(timestamp.ident);
    w.put_u16(timestamp.seq_no);
    w.put_u32(timestamp.originate);
    w.put_u32(timestamp.receive);
    w.put_u32(timestamp.transmit);
}

// Writes the fields of a request for the address mask, or of its answer.
fn put_mask(w: &mut ByteWriter<'_>, kind: Kind, mask: &AddressMask)
    requires { 12 ≤ length (free w.old) }
    ensures { Puts w.old w.new (mask_fields kind mask.now) }
{
    put_header(w, kind, 0);
    w.put_u16(mask.ident);
    w.put_u16(mask.seq_no);
    w.put_bytes(&mask.mask.octets());
}

// Writes the fields of a solicitation.
fn put_solicitation(w: &mut ByteWriter<'_>)
    requires { 8 ≤ length (free w.old) }
    ensures { Puts w.old w.new solicitation_fields }
{
    put_header(w, Kind::RouterSolicitation, 0);
    w.put_u32(0);
}

// Writes the fields of an advertisement.
fn put_advertisement(w: &mut ByteWriter<'_>, advertisement: &RouterAdvertisement<'_>)
    requires room { 8 + length (advert_of advertisement.now).entries ≤ length (free w.old) }
    requires words { (advert_of advertisement.now).words < 256 }
    ensures { Puts w.old w.new (advert_fields (advert_of advertisement.now)) }
{
    let routers = advertisement.routers;
    put_header(w, Kind::RouterAdvertisement, 0);
    w.put_u8(routers.count);
    w.put_u8(ENTRY_WORDS + routers.spare_words);
    w.put_u16(advertisement.lifetime);
    w.put_bytes(routers.octets);
}

// Writes the fields of a request about an interface.
fn put_extended_request(w: &mut ByteWriter<'_>, request: &ExtendedEchoRequest<'_>)
    requires { 8 + length (request_of request.now).structure ≤ length (free w.old) }
    ensures { Puts w.old w.new (extended_request_fields (request_of request.now)) }
{
    put_header(w, Kind::ExtendedEchoRequest, 0);
    extended_echo::put_request(w, request);
}

// Writes the fields of an answer about an interface.
fn put_extended_reply(w: &mut ByteWriter<'_>, reply: &ExtendedEchoReply)
    requires room { 8 ≤ length (free w.old) }
    requires state { reply.now.state < 8 }
    ensures { Puts w.old w.new (extended_reply_fields reply.now) }
{
    put_header(w, Kind::ExtendedEchoReply, reply.code);
    extended_echo::put_reply(w, reply);
}
