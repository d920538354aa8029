//! The fields of messages behind what their checksums say, and hop-by-hop options.

#![tactic(auto, using(packet_fields::proofs::Fields::prints_none))]

ghost use Rattle.std.specs.Prelude.{IfOk, OnOk};
ghost use Rattle.std.specs.Option.{option_map};
ghost use Rattle.packet_fields.specs.Prints.{Prints, PrintsSome};
ghost use Rattle.message_fields.specs.Checksums.{value_of};
ghost use Rattle.message_fields.specs.Messages.{BodyIs, options_items};

use crate::icmp::{show_icmp4, show_icmp6, show_igmp};
use crate::message::Message;
use crate::refusal::Refusal;
use crate::udp::{show_dns, show_udp};
use dns_fields::kind::Kind;
use neighbor_fields::hop_by_hop;
use packet_fields::Form;
use std::alloc::Global;
use std::io;
use std::io::Write;

/// Prints the fields of a message, and returns why it is refused or read in part. `is_whole` is false where the capture
/// cut it: then the checksum of extensions (RFC 4884) can't be verified. Where it is true, and a UDP datagram has fewer
/// bytes than its header says, their number is printed.
pub(crate) fn show_body<W: Write>(
    output: &mut W,
    form: Form,
    alloc: Global,
    message: &Message<'_>,
    is_whole: bool,
) -> io::Result<Option<Refusal>>
    ensures { IfOk result (λ told. PrintsSome form (W.contents output.old) (W.contents output.new)
        (λ items. BodyIs is_whole (value_of message.now) items told)) }
{
    match message {
        Message::Icmp4(octets) => show_icmp4(output, form, alloc, octets, is_whole),
        Message::Igmp(octets) => show_igmp(output, form, alloc, octets),
        Message::Icmp6(src_addr, dst_addr, octets) => {
            show_icmp6(output, form, alloc, src_addr, dst_addr, octets, is_whole)
        }
        Message::Udp(service, _, octets) => {
            show_udp(output, form, alloc, *service, octets, is_whole)
        }
        Message::Tcp(_, _, message) => show_dns(output, form, Kind::Dns, message),
    }
}

/// Prints the hop-by-hop options of a packet, where it has any.
pub fn show_hop_by_hop<W: Write>(
    output: &mut W,
    form: Form,
    options: Option<&[u8]>,
) -> io::Result<()>
    ensures { OnOk result (Prints form (W.contents output.old) (W.contents output.new)
        (options_items (option_map (λ octets. octets.now) options.entry))) }
{
    match options {
        Some(octets) => hop_by_hop::show_hop_by_hop(output, form, octets),
        None => Ok(()),
    }
}
