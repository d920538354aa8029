//! ICMPv4 messages.

#![tactic(auto, using(packet_fields::proofs::Printing::gains_both))]

ghost use Rattle.std.specs.Prelude.{OnOk};
ghost use Rattle.icmp4_wire.specs.Icmpv4.{value_of};
ghost use Rattle.listing.specs.ListingIcmp4.{Icmp4Prints, icmp4_listing, echo_listing, error_listing, header_listing};
ghost use Rattle.packet_fields.specs.Output.{Gains, GainsSome};

use crate::printer::{field, line, part_field};
use icmp4_wire::icmpv4::{Packet, Repr};
use std::io;
use std::io::Write;
use wirebase::{ChecksumCapabilities, Ipv4Repr};

/// Prints a message.
pub fn show_icmp4<W: Write>(output: &mut W, packet: &[u8]) -> io::Result<()>
    ensures { OnOk result (GainsSome (W.contents output.old) (W.contents output.new)
        (Icmp4Prints packet.now)) }
{
    let packet = Packet::new_unchecked(packet);
    let Ok(message) = Repr::parse(&packet, &ChecksumCapabilities::default()) else {
        return line(output, "refused");
    };
    show_message(output, &message)
}

fn show_message<W: Write>(output: &mut W, message: &Repr<'_>) -> io::Result<()>
    ensures { OnOk result (Gains (W.contents output.old) (W.contents output.new)
        (icmp4_listing (value_of message.now))) }
{
    match *message {
        Repr::EchoRequest {
            ident,
            seq_no,
            data,
        } => show_echo(output, "EchoRequest", ident, seq_no, data),
        Repr::EchoReply {
            ident,
            seq_no,
            data,
        } => show_echo(output, "EchoReply", ident, seq_no, data),
        Repr::DstUnreachable {
            reason,
            header,
            data,
        } => show_error(output, "DstUnreachable", reason.into(), &header, data),
        Repr::TimeExceeded {
            reason,
            header,
            data,
        } => show_error(output, "TimeExceeded", reason.into(), &header, data),
    }
}

/// Prints an echo of either ICMP after its name.
pub fn show_echo<W: Write>(
    output: &mut W,
    name: &str,
    ident: u16,
    seq_no: u16,
    data: &[u8],
) -> io::Result<()>
    ensures { OnOk result (Gains (W.contents output.old) (W.contents output.new)
        (echo_listing name.now ident seq_no «data».now)) }
{
    line(output, name)?;
    field(output, "ident", ident)?;
    field(output, "seq_no", seq_no)?;
    field(output, "data", data)
}

fn show_error<W: Write>(
    output: &mut W,
    name: &str,
    reason: u8,
    header: &Ipv4Repr,
    data: &[u8],
) -> io::Result<()>
    ensures { OnOk result (Gains (W.contents output.old) (W.contents output.new)
        (error_listing name.now reason header.now «data».now)) }
{
    line(output, name)?;
    field(output, "reason", reason)?;
    show_header(output, "header.", header)?;
    field(output, "data", data)
}

fn show_header<W: Write>(output: &mut W, part: &str, header: &Ipv4Repr) -> io::Result<()>
    ensures { OnOk result (Gains (W.contents output.old) (W.contents output.new)
        (header_listing part.now header.now)) }
{
    part_field(output, part, "src_addr", header.src_addr)?;
    part_field(output, part, "dst_addr", header.dst_addr)?;
    part_field(output, part, "next_header", u8::from(header.next_header))?;
    part_field(output, part, "payload_len", header.payload_len)?;
    part_field(output, part, "hop_limit", header.hop_limit)
}
