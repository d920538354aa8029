//! What ICMP errors quote of a datagram.

#![tactic(auto, using(packet_fields::proofs::Fields::prints_both))]

ghost use Rattle.std.specs.Prelude.{◌∷◌, [], ◌≡◌, Option, OnOk};
ghost use Rattle.std.specs.Option.{option_map};
ghost use Rattle.quote_wire.specs.Upper.{value_of as upper_of};
ghost use Rattle.packet_fields.specs.Prints.{Prints};
ghost use Rattle.icmp_fields.specs.Quote.{protocol_item, port_items, ports_items, fragment_items, ipv4_path_items};
ghost use Rattle.icmp_fields.specs.Quote.{ipv4_ports, ipv4_quote_items, flow_items, ipv6_path_items, ipv6_quote_items};
ghost use Rattle.icmp_fields.specs.Quote.{other_items, other_protocol, own_payload, upper_ports};

use crate::protocol_names::protocol_name;
use packet_fields::Form;
use packet_fields::field::{field, named};
use packet_fields::ports::ports_of;
use quote_wire::quote::{Ipv4Quote, Ipv6Quote, Upper};
use std::io;
use std::io::Write;
use wirebase::IpProtocol;

// The bytes of an IPv4 header without options (RFC 791 section 3.1).
const FIXED_LEN: usize = 20;

/// Prints what an ICMPv4 error quotes (RFC 792): the fields of the datagram's header, and all that follows it.
pub fn show_ipv4_quote<W: Write>(
    output: &mut W,
    form: Form,
    quote: &Ipv4Quote<'_>,
) -> io::Result<()>
    ensures { OnOk result (Prints form (W.contents output.old) (W.contents output.new)
        (ipv4_quote_items quote.now)) }
{
    show_fragment(output, form, quote)?;
    show_ipv4_path(output, form, quote)?;
    field(output, form, "quoted_options", quote.options)?;
    show_ports(output, form, ipv4_ports_of(quote))?;
    field(output, form, "quoted_payload", quote.payload)
}

fn show_fragment<W: Write>(output: &mut W, form: Form, quote: &Ipv4Quote<'_>) -> io::Result<()>
    ensures { OnOk result (Prints form (W.contents output.old) (W.contents output.new)
        (fragment_items quote.now)) }
{
    field(
        output,
        form,
        "quoted_type_of_service",
        quote.type_of_service,
    )?;
    field(output, form, "quoted_total_len", quote.total_len)?;
    field(output, form, "quoted_ident", quote.ident)?;
    field(output, form, "quoted_dont_frag", quote.dont_frag)?;
    field(output, form, "quoted_more_frags", quote.more_frags)?;
    field(output, form, "quoted_frag_offset", quote.frag_offset)
}

fn show_ipv4_path<W: Write>(output: &mut W, form: Form, quote: &Ipv4Quote<'_>) -> io::Result<()>
    ensures { OnOk result (Prints form (W.contents output.old) (W.contents output.new)
        (ipv4_path_items quote.now)) }
{
    field(output, form, "quoted_hop_limit", quote.hop_limit)?;
    show_protocol(output, form, "quoted_next_header", quote.next_header)?;
    field(output, form, "quoted_src_addr", quote.src_addr)?;
    field(output, form, "quoted_dst_addr", quote.dst_addr)
}

// The ports in a quote; a fragment that is not the first begins with no header.
fn ipv4_ports_of(quote: &Ipv4Quote<'_>) -> Option<(u16, u16)>
    ensures { result ≡ ipv4_ports quote.now }
{
    if quote.frag_offset != 0 {
        return None;
    }
    let header_len = FIXED_LEN + quote.options.len();
    ports_of(
        quote.next_header,
        own_payload(quote.total_len, header_len, quote.payload),
    )
}

/// Of what is quoted behind an IPv4 header, the octets of the datagram's own payload, by its total length and its
/// header's in bytes: zeros may fill the quote up behind them (RFC 4884 section 4). All of it where the total length is
/// below the header's.
#[tactic(auto, using(std::proofs::lemmas::List::take_min))]
pub fn own_payload(total_len: u16, header_len: usize, payload: &[u8]) -> &[u8]
    ensures { result.now ≡ own_payload total_len header_len payload.now }
{
    let total_len = total_len as usize;
    if header_len <= total_len {
        let len = (total_len - header_len).min(payload.len());
        return &payload[..len];
    }
    payload
}

/// Prints what an ICMPv6 error quotes (RFC 4443 section 3): the fields of the packet's header, the protocol that its
/// extension headers lead to, where it has some, and the ports behind them, which are those of `upper`, and all that
/// follows the header.
pub fn show_ipv6_quote<W: Write>(
    output: &mut W,
    form: Form,
    quote: &Ipv6Quote<'_>,
    upper: Option<Upper<'_>>,
) -> io::Result<()>
    ensures { OnOk result (Prints form (W.contents output.old) (W.contents output.new)
        (ipv6_quote_items quote.now (option_map upper_of upper.entry))) }
{
    show_flow(output, form, quote)?;
    show_ipv6_path(output, form, quote)?;
    show_other(output, form, other_protocol(quote.next_header, upper))?;
    show_ports(output, form, upper_ports(upper))?;
    field(output, form, "quoted_payload", quote.payload)
}

// The protocol that the extension headers lead to, where it is another than the first.
fn other_protocol(first: IpProtocol, upper: Option<Upper<'_>>) -> Option<IpProtocol>
    ensures { result ≡ other_protocol first (option_map upper_of upper.entry) }
{
    match upper {
        Some(upper) if u8::from(upper.protocol) != u8::from(first) => Some(upper.protocol),
        _ => None,
    }
}

#[tactic(auto, using(packet_fields::proofs::Fields::prints_none))]
fn show_other<W: Write>(output: &mut W, form: Form, protocol: Option<IpProtocol>) -> io::Result<()>
    ensures { OnOk result (Prints form (W.contents output.old) (W.contents output.new)
        (other_items protocol)) }
{
    match protocol {
        Some(protocol) => show_protocol(output, form, "quoted_protocol", protocol),
        None => Ok(()),
    }
}

// The ports behind the extension headers.
fn upper_ports(upper: Option<Upper<'_>>) -> Option<(u16, u16)>
    ensures { result ≡ upper_ports (option_map upper_of upper.entry) }
{
    match upper {
        Some(upper) => ports_of(upper.protocol, upper.octets),
        None => None,
    }
}

fn show_flow<W: Write>(output: &mut W, form: Form, quote: &Ipv6Quote<'_>) -> io::Result<()>
    ensures { OnOk result (Prints form (W.contents output.old) (W.contents output.new)
        (flow_items quote.now)) }
{
    field(output, form, "quoted_traffic_class", quote.traffic_class)?;
    field(output, form, "quoted_flow_label", quote.flow_label)?;
    field(output, form, "quoted_payload_len", quote.payload_len)
}

fn show_ipv6_path<W: Write>(output: &mut W, form: Form, quote: &Ipv6Quote<'_>) -> io::Result<()>
    ensures { OnOk result (Prints form (W.contents output.old) (W.contents output.new)
        (ipv6_path_items quote.now)) }
{
    field(output, form, "quoted_hop_limit", quote.hop_limit)?;
    show_protocol(output, form, "quoted_next_header", quote.next_header)?;
    field(output, form, "quoted_src_addr", quote.src_addr)?;
    field(output, form, "quoted_dst_addr", quote.dst_addr)
}

fn show_protocol<W: Write>(
    output: &mut W,
    form: Form,
    name: &str,
    protocol: IpProtocol,
) -> io::Result<()>
    ensures { OnOk result (Prints form (W.contents output.old) (W.contents output.new)
        (protocol_item name.now protocol ∷ [])) }
{
    let number = u8::from(protocol);
    named(
        output,
        form,
        name,
        u64::from(number),
        protocol_name(protocol),
    )
}

fn show_ports<W: Write>(output: &mut W, form: Form, ports: Option<(u16, u16)>) -> io::Result<()>
    ensures { OnOk result (Prints form (W.contents output.old) (W.contents output.new)
        (ports_items ports)) }
{
    match ports {
        Some((source, destination)) => show_both(output, form, Some(source), Some(destination)),
        None => show_both(output, form, None, None),
    }
}

fn show_both<W: Write>(
    output: &mut W,
    form: Form,
    source: Option<u16>,
    destination: Option<u16>,
) -> io::Result<()>
    ensures { OnOk result (Prints form (W.contents output.old) (W.contents output.new)
        (port_items source destination)) }
{
    field(output, form, "quoted_src_port", source)?;
    field(output, form, "quoted_dst_port", destination)
}
