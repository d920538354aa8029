//! DHCP packets.

#![tactic(auto, using(packet_fields::proofs::Printing::gains_both))]

ghost use Rattle.std.specs.Prelude.{OnOk, codes};
ghost use Rattle.std.specs.Option.{option_map};
ghost use Rattle.wirebase.specs.HardwareAddress.{ethernet_of};
ghost use Rattle.dhcp_wire.specs.Dhcpv4.{value_of};
ghost use Rattle.wirebase.specs.Hexadecimal.{octets_text};
ghost use Rattle.listing.specs.Layout.{field as field_text, text_or_none};
ghost use Rattle.listing.specs.ListingDhcp.{DhcpPrints, dhcp_listing, sender_listing, addresses_listing};
ghost use Rattle.listing.specs.ListingDhcp.{request_listing, limits_listing, hardware_text, addresses_text};
ghost use Rattle.packet_fields.specs.Output.{Gains, GainsSome};

use crate::printer::{Value, field, line};
use arrayvec::ArrayVec;
use dhcp_wire::dhcpv4::{MAX_DNS_SERVER_COUNT, Packet, Repr};
use std::io;
use std::io::Write;
use wirebase::{EthernetAddress, Ipv4Address};

/// Prints the fields of a packet.
pub fn show_dhcp<W: Write>(output: &mut W, packet: &[u8]) -> io::Result<()>
    ensures { OnOk result (GainsSome (W.contents output.old) (W.contents output.new)
        (DhcpPrints packet.now)) }
{
    let Ok(packet) = Repr::parse(&Packet::new_unchecked(packet)) else {
        return line(output, "refused");
    };
    show_packet(output, &packet)
}

fn show_packet<W: Write>(output: &mut W, packet: &Repr<'_>) -> io::Result<()>
    ensures { OnOk result (Gains (W.contents output.old) (W.contents output.new)
        (dhcp_listing (value_of packet.now))) }
{
    show_sender(output, packet)?;
    show_addresses(output, packet)?;
    show_request(output, packet)?;
    show_limits(output, packet)
}

fn show_sender<W: Write>(output: &mut W, packet: &Repr<'_>) -> io::Result<()>
    ensures { OnOk result (Gains (W.contents output.old) (W.contents output.new)
        (sender_listing (value_of packet.now))) }
{
    field(output, "message_type", u8::from(packet.message_type))?;
    field(output, "transaction_id", packet.transaction_id)?;
    field(output, "secs", packet.secs)?;
    field(
        output,
        "client_hardware_address",
        packet.client_hardware_address,
    )
}

fn show_addresses<W: Write>(output: &mut W, packet: &Repr<'_>) -> io::Result<()>
    ensures { OnOk result (Gains (W.contents output.old) (W.contents output.new)
        (addresses_listing (value_of packet.now))) }
{
    field(output, "client_ip", packet.client_ip)?;
    field(output, "your_ip", packet.your_ip)?;
    field(output, "server_ip", packet.server_ip)?;
    field(output, "router", packet.router)?;
    field(output, "subnet_mask", packet.subnet_mask)?;
    field(output, "relay_agent_ip", packet.relay_agent_ip)
}

fn show_request<W: Write>(output: &mut W, packet: &Repr<'_>) -> io::Result<()>
    ensures { OnOk result (Gains (W.contents output.old) (W.contents output.new)
        (request_listing (value_of packet.now))) }
{
    field(output, "broadcast", packet.broadcast)?;
    field(output, "requested_ip", packet.requested_ip)?;
    field(output, "client_identifier", packet.client_identifier)?;
    field(output, "server_identifier", packet.server_identifier)?;
    show_asked(output, packet.parameter_request_list)?;
    show_servers(output, &packet.dns_servers)
}

fn show_asked<W: Write>(output: &mut W, kinds: Option<&[u8]>) -> io::Result<()>
    ensures { OnOk result (Gains (W.contents output.old) (W.contents output.new)
        (field_text (codes "parameter_request_list")
        (text_or_none octets_text (option_map (λ l. l.now) kinds.entry)))) }
{
    match kinds {
        Some(kinds) => field(output, "parameter_request_list", kinds),
        None => field(output, "parameter_request_list", "none"),
    }
}

fn show_servers<W: Write>(
    output: &mut W,
    servers: &Option<ArrayVec<Ipv4Address, MAX_DNS_SERVER_COUNT>>,
) -> io::Result<()>
    ensures { OnOk result (Gains (W.contents output.old) (W.contents output.new)
        (field_text (codes "dns_servers")
        (text_or_none addresses_text (option_map (λ l. l.items) servers.now)))) }
{
    match servers {
        Some(servers) => field(output, "dns_servers", servers.as_slice()),
        None => field(output, "dns_servers", "none"),
    }
}

fn show_limits<W: Write>(output: &mut W, packet: &Repr<'_>) -> io::Result<()>
    ensures { OnOk result (Gains (W.contents output.old) (W.contents output.new)
        (limits_listing (value_of packet.now))) }
{
    field(output, "max_size", packet.max_size)?;
    field(output, "lease_duration", packet.lease_duration)?;
    field(output, "renew_duration", packet.renew_duration)?;
    field(output, "rebind_duration", packet.rebind_duration)
}

// The octets of an address.
impl Value for EthernetAddress {
    ghost text = { λ address. hardware_text (ethernet_of address) };

    fn write_to<W: Write>(self, output: &mut W) -> io::Result<()> {
        self.as_bytes().write_to(output)
    }
}

// Addresses with commas between them, or `-` for none.
impl Value for &[Ipv4Address] {
    ghost text = { λ addresses. addresses_text addresses.now };

    fn write_to<W: Write>(self, output: &mut W) -> io::Result<()> {
        let [first, rest @ ..] = self else {
            return output.write_all(b"-");
        };
        first.write_to(output)?;
        for address in rest {
            output.write_all(b",")?;
            address.write_to(output)?;
        }
        Ok(())
    }
}
