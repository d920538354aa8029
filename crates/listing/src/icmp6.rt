//! ICMPv6 messages.

#![tactic(auto, using(packet_fields::proofs::Printing::gains_both))]

ghost use Rattle.std.specs.Prelude.{OnOk};
ghost use Rattle.wirebase.specs.Capabilities.{all_of};
ghost use Rattle.wirebase.specs.declared.capabilities.Checksum.TheVariants.{Both};
ghost use Rattle.icmp6_wire.specs.Icmpv6.{IsMessage, too_big, param_problem, value_of};
ghost use Rattle.listing.specs.Layout.{IsListingOrRefused};
ghost use Rattle.listing.specs.ListingIcmp6.{Icmp6Prints, icmp6_listing, error_listing, quote_listing};
ghost use Rattle.packet_fields.specs.Output.{Gains, GainsSome};

use crate::icmp4::show_echo;
use crate::ipv6::show_header;
use crate::printer::{field, line};
use crate::{mld, ndisc};
use icmp6_wire::icmpv6::{Packet, ParamProblem, Repr};
use std::io;
use std::io::Write;
use wirebase::{ChecksumCapabilities, Ipv6Address, Ipv6Repr};

/// Prints a message from one address to another, both by their octets.
pub fn show_icmp6<W: Write>(
    output: &mut W,
    source: [u8; 16],
    destination: [u8; 16],
    packet: &[u8],
) -> io::Result<()>
    ensures { OnOk result (GainsSome (W.contents output.old) (W.contents output.new)
        (Icmp6Prints source destination packet.now)) }
{
    let source = Ipv6Address::from_octets(source);
    let destination = Ipv6Address::from_octets(destination);
    show_packet(output, &source, &destination, packet)
}

fn show_packet<W: Write>(
    output: &mut W,
    source: &Ipv6Address,
    destination: &Ipv6Address,
    packet: &[u8],
) -> io::Result<()>
    ensures { OnOk result (GainsSome (W.contents output.old) (W.contents output.new)
        (IsListingOrRefused (IsMessage (all_of Both) source.now destination.now packet.now)
        icmp6_listing)) }
{
    let packet = Packet::new_unchecked(packet);
    let capabilities = ChecksumCapabilities::default();
    let Ok(message) = Repr::parse(source, destination, &packet, &capabilities) else {
        return line(output, "refused");
    };
    show_message(output, &message)
}

fn show_message<W: Write>(output: &mut W, message: &Repr<'_>) -> io::Result<()>
    ensures { OnOk result (Gains (W.contents output.old) (W.contents output.new)
        (icmp6_listing (value_of message.now))) }
{
    match message {
        Repr::DstUnreachable {
            reason,
            header,
            data,
        } => show_error(output, "DstUnreachable", (*reason).into(), header, data),
        Repr::PktTooBig { mtu, header, data } => show_pkt_too_big(output, *mtu, header, data),
        Repr::TimeExceeded {
            reason,
            header,
            data,
        } => show_error(output, "TimeExceeded", (*reason).into(), header, data),
        Repr::ParamProblem {
            reason,
            pointer,
            header,
            data,
        } => show_param_problem(output, *reason, *pointer, header, data),
        Repr::EchoRequest {
            ident,
            seq_no,
            data,
        } => show_echo(output, "EchoRequest", *ident, *seq_no, data),
        Repr::EchoReply {
            ident,
            seq_no,
            data,
        } => show_echo(output, "EchoReply", *ident, *seq_no, data),
        Repr::Ndisc(message) => ndisc::show_message(output, message),
        Repr::Mld(message) => mld::show_message(output, message),
    }
}

// An error that has no more than a reason.
fn show_error<W: Write>(
    output: &mut W,
    name: &str,
    reason: u8,
    header: &Ipv6Repr,
    data: &[u8],
) -> io::Result<()>
    ensures { OnOk result (Gains (W.contents output.old) (W.contents output.new)
        (error_listing name.now reason header.now «data».now)) }
{
    line(output, name)?;
    field(output, "reason", reason)?;
    show_quote(output, header, data)
}

fn show_pkt_too_big<W: Write>(
    output: &mut W,
    mtu: u32,
    header: &Ipv6Repr,
    data: &[u8],
) -> io::Result<()>
    ensures { OnOk result (Gains (W.contents output.old) (W.contents output.new)
        (icmp6_listing (too_big mtu header.now «data».now))) }
{
    line(output, "PktTooBig")?;
    field(output, "mtu", mtu)?;
    show_quote(output, header, data)
}

fn show_param_problem<W: Write>(
    output: &mut W,
    reason: ParamProblem,
    pointer: u32,
    header: &Ipv6Repr,
    data: &[u8],
) -> io::Result<()>
    ensures { OnOk result (Gains (W.contents output.old) (W.contents output.new)
        (icmp6_listing (param_problem reason pointer header.now «data».now))) }
{
    line(output, "ParamProblem")?;
    field(output, "reason", u8::from(reason))?;
    field(output, "pointer", pointer)?;
    show_quote(output, header, data)
}

fn show_quote<W: Write>(output: &mut W, header: &Ipv6Repr, data: &[u8]) -> io::Result<()>
    ensures { OnOk result (Gains (W.contents output.old) (W.contents output.new)
        (quote_listing header.now «data».now)) }
{
    show_header(output, "header.", header)?;
    field(output, "data", data)
}
