//! Messages of multicast listener discovery.

#![tactic(auto, using(packet_fields::proofs::Printing::gains_both))]

ghost use Rattle.std.specs.Prelude.{OnOk};
ghost use Rattle.icmp6_wire.specs.Mld.{query, report, value_of};
ghost use Rattle.listing.specs.ListingMld.{MldPrints, mld_listing};
ghost use Rattle.packet_fields.specs.Output.{Gains, GainsSome};

use crate::printer::{field, line};
use icmp6_wire::icmpv6::Packet;
use icmp6_wire::mld::Repr;
use std::io;
use std::io::Write;
use wirebase::Ipv6Address;

/// Prints a message, whatever its checksum.
pub fn show_mld<W: Write>(output: &mut W, packet: &[u8]) -> io::Result<()>
    ensures { OnOk result (GainsSome (W.contents output.old) (W.contents output.new)
        (MldPrints packet.now)) }
{
    let Ok(message) = Repr::parse(&Packet::new_unchecked(packet)) else {
        return line(output, "refused");
    };
    show_message(output, &message)
}

/// Prints a message that was read.
pub fn show_message<W: Write>(output: &mut W, message: &Repr<'_>) -> io::Result<()>
    ensures { OnOk result (Gains (W.contents output.old) (W.contents output.new)
        (mld_listing (value_of message.now))) }
{
    match *message {
        Repr::Query {
            max_resp_code,
            mcast_addr,
            s_flag,
            qrv,
            qqic,
            num_srcs,
            data,
        } => show_query(
            output,
            max_resp_code,
            mcast_addr,
            s_flag,
            qrv,
            qqic,
            num_srcs,
            data,
        ),
        Repr::Report {
            nr_mcast_addr_rcrds,
            data,
        } => show_report(output, nr_mcast_addr_rcrds, data),
        Repr::ReportRecordReprs(_) => line(output, "ReportRecordReprs"),
    }
}

fn show_query<W: Write>(
    output: &mut W,
    max_resp_code: u16,
    mcast_addr: Ipv6Address,
    s_flag: bool,
    qrv: u8,
    qqic: u8,
    num_srcs: u16,
    data: &[u8],
) -> io::Result<()>
    ensures { OnOk result (Gains (W.contents output.old) (W.contents output.new)
        (mld_listing (query max_resp_code mcast_addr s_flag qrv qqic num_srcs «data».now))) }
{
    line(output, "Query")?;
    field(output, "max_resp_code", max_resp_code)?;
    field(output, "mcast_addr", mcast_addr)?;
    field(output, "s_flag", s_flag)?;
    field(output, "qrv", qrv)?;
    field(output, "qqic", qqic)?;
    field(output, "num_srcs", num_srcs)?;
    field(output, "data", data)
}

fn show_report<W: Write>(output: &mut W, nr_mcast_addr_rcrds: u16, data: &[u8]) -> io::Result<()>
    ensures { OnOk result (Gains (W.contents output.old) (W.contents output.new)
        (mld_listing (report nr_mcast_addr_rcrds «data».now))) }
{
    line(output, "Report")?;
    field(output, "nr_mcast_addr_rcrds", nr_mcast_addr_rcrds)?;
    field(output, "data", data)
}
