//! Options of neighbor discovery.

#![tactic(auto, using(packet_fields::proofs::Printing::gains_both))]

ghost use Rattle.std.specs.Prelude.{IfOk, IsErr, OnOk};
ghost use Rattle.opt_wire.specs.NdiscOptionRepr.{OptionValue, prefix_information, redirected, unknown, value_of};
ghost use Rattle.opt_wire.specs.NdiscOptionRepr.{BeginsWith};
ghost use Rattle.listing.specs.ListingNdopt.{NdoptPrints, ndopt_listing, prefix_listing, redirected_listing};
ghost use Rattle.packet_fields.specs.Output.{Gains, GainsSome};

use crate::ipv6::show_header;
use crate::printer::{field, line, part_field};
use bitflags::Flags as _;
use opt_wire::ndiscoption::{NdiscOption, PrefixInformation, RedirectedHeader, Repr};
use std::io;
use std::io::Write;
use wirebase::Result;

/// Prints the option at the start of the octets.
pub fn show_ndopt<W: Write>(output: &mut W, packet: &[u8]) -> io::Result<()>
    ensures { OnOk result (GainsSome (W.contents output.old) (W.contents output.new)
        (NdoptPrints packet.now)) }
{
    let Ok(option) = read(packet) else {
        return line(output, "refused");
    };
    show_option(output, &option)
}

// The option at the start of the octets.
fn read(packet: &[u8]) -> Result<Repr<'_>>
    ensures sound { IfOk result (λ option. BeginsWith packet.now (value_of option)) }
    ensures refuses { IsErr result → (value : OptionValue) → BeginsWith packet.now value → ⊥ }
{
    Repr::parse(&NdiscOption::new_checked(packet)?)
}

fn show_option<W: Write>(output: &mut W, option: &Repr<'_>) -> io::Result<()>
    ensures { OnOk result (Gains (W.contents output.old) (W.contents output.new)
        (ndopt_listing (value_of option.now))) }
{
    match option {
        Repr::SourceLinkLayerAddr(address) => {
            field(output, "SourceLinkLayerAddr", address.as_bytes())
        }
        Repr::TargetLinkLayerAddr(address) => {
            field(output, "TargetLinkLayerAddr", address.as_bytes())
        }
        Repr::PrefixInformation(prefix) => show_prefix_information(output, prefix),
        Repr::RedirectedHeader(redirected) => show_redirected_header(output, redirected),
        Repr::Mtu(mtu) => field(output, "Mtu", *mtu),
        Repr::Unknown {
            type_,
            length,
            data,
        } => show_unknown(output, *type_, *length, data),
    }
}

fn show_prefix_information<W: Write>(output: &mut W, prefix: &PrefixInformation) -> io::Result<()>
    ensures { OnOk result (Gains (W.contents output.old) (W.contents output.new)
        (ndopt_listing (prefix_information prefix.now))) }
{
    line(output, "PrefixInformation")?;
    show_prefix(output, "", prefix)
}

fn show_redirected_header<W: Write>(output: &mut W, packet: &RedirectedHeader<'_>) -> io::Result<()>
    ensures { OnOk result (Gains (W.contents output.old) (W.contents output.new)
        (ndopt_listing (redirected packet.now.header packet.now.«data».now))) }
{
    line(output, "RedirectedHeader")?;
    show_redirected(output, "header.", "", packet)
}

/// Prints an unknown option of either kind.
pub fn show_unknown<W: Write>(output: &mut W, type_: u8, length: u8, data: &[u8]) -> io::Result<()>
    ensures { OnOk result (Gains (W.contents output.old) (W.contents output.new)
        (ndopt_listing (unknown type_ length «data».now))) }
{
    line(output, "Unknown")?;
    field(output, "type_", type_)?;
    field(output, "length", length)?;
    field(output, "data", data)
}

/// Prints a prefix, as a part whose name and a dot are `part`.
pub fn show_prefix<W: Write>(
    output: &mut W,
    part: &str,
    prefix: &PrefixInformation,
) -> io::Result<()>
    ensures { OnOk result (Gains (W.contents output.old) (W.contents output.new)
        (prefix_listing part.now prefix.now)) }
{
    part_field(output, part, "prefix_len", prefix.prefix_len)?;
    part_field(output, part, "flags", prefix.flags.bits())?;
    part_field(output, part, "valid_lifetime", prefix.valid_lifetime)?;
    part_field(
        output,
        part,
        "preferred_lifetime",
        prefix.preferred_lifetime,
    )?;
    part_field(output, part, "prefix", prefix.prefix)
}

/// Prints a redirected packet and its header, as a part whose name and a dot are `part`.
pub fn show_redirected<W: Write>(
    output: &mut W,
    header_part: &str,
    part: &str,
    redirected: &RedirectedHeader<'_>,
) -> io::Result<()>
    ensures { OnOk result (Gains (W.contents output.old) (W.contents output.new)
        (redirected_listing header_part.now part.now redirected.now.header
        redirected.now.«data».now)) }
{
    show_header(output, header_part, &redirected.header)?;
    part_field(output, part, "data", redirected.data)
}
