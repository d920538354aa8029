//! The options of an IPv6 hop-by-hop header.

#![tactic(auto, using(packet_fields::proofs::Printing::gains_none, packet_fields::proofs::Printing::gains_both))]

ghost use Rattle.std.specs.Prelude.{OnOk};
ghost use Rattle.opt_wire.specs.Ipv6Option.{value_of};
ghost use Rattle.listing.specs.ListingHbh.{HbhPrints, option_listing};
ghost use Rattle.packet_fields.specs.Output.{Gains, GainsSome};

use crate::ndopt::show_unknown;
use crate::printer::{field, line};
use opt_wire::ipv6hbh::{Header, Repr};
use opt_wire::ipv6option;
use std::io;
use std::io::Write;

/// Prints the options of a hop-by-hop header in turn.
pub fn show_hbh<W: Write>(output: &mut W, packet: &[u8]) -> io::Result<()>
    ensures { OnOk result (GainsSome (W.contents output.old) (W.contents output.new)
        (HbhPrints packet.now)) }
{
    let Ok(header) = Repr::parse(&Header::new_unchecked(packet)) else {
        return line(output, "refused");
    };
    for option in header.options.as_slice() {
        show_option(output, option)?;
    }
    Ok(())
}

fn show_option<W: Write>(output: &mut W, option: &ipv6option::Repr<'_>) -> io::Result<()>
    ensures { OnOk result (Gains (W.contents output.old) (W.contents output.new)
        (option_listing (value_of option.now))) }
{
    match *option {
        ipv6option::Repr::Pad1 => line(output, "Pad1"),
        ipv6option::Repr::PadN(length) => field(output, "PadN", length),
        ipv6option::Repr::RouterAlert(alert) => field(output, "RouterAlert", u16::from(alert)),
        ipv6option::Repr::Unknown {
            type_,
            length,
            data,
        } => show_unknown(output, type_.into(), length, data),
    }
}
