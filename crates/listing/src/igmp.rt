//! IGMP messages.

#![tactic(auto, using(packet_fields::proofs::Printing::gains_both))]

ghost use Rattle.std.specs.Prelude.{OnOk};
ghost use Rattle.icmp4_wire.specs.declared.igmp.repr.Repr.TheVariants.{MembershipQuery, MembershipReport};
ghost use Rattle.listing.specs.ListingIgmp.{IgmpPrints, igmp_listing, version_text};
ghost use Rattle.packet_fields.specs.Output.{Gains, GainsSome};

use crate::printer::{Value, field, line};
use icmp4_wire::igmp::{IgmpVersion, Packet, Repr};
use std::io;
use std::io::Write;
use wirebase::{Duration, Ipv4Address};

/// Prints a message.
pub fn show_igmp<W: Write>(output: &mut W, packet: &[u8]) -> io::Result<()>
    ensures { OnOk result (GainsSome (W.contents output.old) (W.contents output.new)
        (IgmpPrints packet.now)) }
{
    let Ok(message) = Repr::parse(&Packet::new_unchecked(packet)) else {
        return line(output, "refused");
    };
    show_message(output, message)
}

fn show_message<W: Write>(output: &mut W, message: Repr) -> io::Result<()>
    ensures { OnOk result (Gains (W.contents output.old) (W.contents output.new)
        (igmp_listing message)) }
{
    match message {
        Repr::MembershipQuery {
            max_resp_time,
            group_addr,
            version,
        } => show_query(output, max_resp_time, group_addr, version),
        Repr::MembershipReport {
            group_addr,
            version,
        } => show_report(output, group_addr, version),
        Repr::LeaveGroup { group_addr } => {
            line(output, "LeaveGroup")?;
            field(output, "group_addr", group_addr)
        }
    }
}

fn show_query<W: Write>(
    output: &mut W,
    max_resp_time: Duration,
    group_addr: Ipv4Address,
    version: IgmpVersion,
) -> io::Result<()>
    ensures { OnOk result (Gains (W.contents output.old) (W.contents output.new)
        (igmp_listing (MembershipQuery max_resp_time group_addr version))) }
{
    line(output, "MembershipQuery")?;
    field(output, "max_resp_time", max_resp_time)?;
    field(output, "group_addr", group_addr)?;
    field(output, "version", version)
}

fn show_report<W: Write>(
    output: &mut W,
    group_addr: Ipv4Address,
    version: IgmpVersion,
) -> io::Result<()>
    ensures { OnOk result (Gains (W.contents output.old) (W.contents output.new)
        (igmp_listing (MembershipReport group_addr version))) }
{
    line(output, "MembershipReport")?;
    field(output, "group_addr", group_addr)?;
    field(output, "version", version)
}

// The version's number.
impl Value for IgmpVersion {
    ghost text = { version_text };

    fn write_to<W: Write>(self, output: &mut W) -> io::Result<()> {
        output.write_all(match self {
            IgmpVersion::Version1 => b"1",
            IgmpVersion::Version2 => b"2",
        })
    }
}
