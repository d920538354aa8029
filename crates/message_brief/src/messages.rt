//! Messages, whole or cut.

ghost use Rattle.std.specs.Prelude.{◌≡◌, IfOk, OnOk};
ghost use Rattle.wirebase.specs.Sink.{PutsText};
ghost use Rattle.packet_fields.specs.Output.{GainsSome};
ghost use Rattle.message_fields.specs.Checksums.{value_of};
ghost use Rattle.message_fields.specs.Icmp.{has_mld_type, has_ndisc_type};
ghost use Rattle.message_brief.specs.Messages.{BodyIs, BriefIs, CutBriefIs, ServiceIs, UdpIs, icmp6_text, is_all};
ghost use Rattle.message_brief.specs.Messages.{is_whole6};

use crate::dhcp::put_dhcp;
use crate::dns::put_dns;
use crate::groups::{put_igmp, put_mld};
use crate::icmp::put_icmp4;
use crate::neighbors::put_neighbors;
use crate::words::put_ending;
use crate::{groups, icmp, neighbors};
use dns_fields::kind::Kind;
use frame_wire::{CapturedUdp, Extent};
use message_fields::{Message, Service};
use packet_fields::output::ToWriter;
use std::io;
use std::io::Write;
use wirebase::text::Sink;

/// Prints what a message says, on a line without its end: words that each stand behind a space. It ends in ` ...` where
/// something of that is missing or does not read.
pub fn show_brief<W: Write>(output: &mut W, message: &Message<'_>) -> io::Result<()>
    ensures { OnOk result (GainsSome (W.contents output.old) (W.contents output.new)
        (BriefIs (value_of message.now))) }
{
    let is_whole = put_body(output, message)?;
    put_ending::<W, ToWriter>(output, is_whole)
}

/// Prints, as [`show_brief`] does, what a message says of whose datagram some bytes are missing. It ends in ` ...`.
pub fn show_cut_brief<W: Write>(output: &mut W, message: &Message<'_>) -> io::Result<()>
    ensures { OnOk result (GainsSome (W.contents output.old) (W.contents output.new)
        (CutBriefIs (value_of message.now))) }
{
    let _is_whole = put_body(output, message)?;
    put_ending::<W, ToWriter>(output, false)
}

// Prints what a message says, and returns whether all of it is there and reads.
fn put_body<W: Write>(output: &mut W, message: &Message<'_>) -> io::Result<bool>
    ensures { IfOk result (λ whole. GainsSome (W.contents output.old) (W.contents output.new)
        (λ text. BodyIs (value_of message.now) text whole)) }
{
    match message {
        Message::Icmp4(octets) => {
            put_icmp4::<W, ToWriter>(output, octets)?;
            Ok(icmp::is_whole4(octets))
        }
        Message::Igmp(octets) => {
            put_igmp::<W, ToWriter>(output, octets)?;
            Ok(groups::is_whole4(octets))
        }
        Message::Icmp6(_, _, octets) => {
            put_icmp6::<W, ToWriter>(output, octets)?;
            Ok(is_whole6(octets))
        }
        Message::Udp(service, _, octets) => put_udp(output, *service, octets),
        Message::Tcp(_, _, octets) => put_service(output, Service::Dns, octets),
    }
}

// Puts what a message of ICMPv6 says.
fn put_icmp6<O, S: Sink<O>>(output: &mut O, octets: &[u8]) -> Result<(), S::Error>
    ensures { PutsText S.took output.old (icmp6_text octets.now) result output.new }
{
    if has_mld_type(octets) {
        return put_mld::<O, S>(output, octets);
    }
    if has_ndisc_type(octets) {
        return put_neighbors::<O, S>(output, octets);
    }
    icmp::put_icmp6::<O, S>(output, octets)
}

fn is_whole6(octets: &[u8]) -> bool
    ensures { result ≡ is_whole6 octets.now }
{
    if has_mld_type(octets) {
        return groups::is_whole6(octets);
    }
    if has_ndisc_type(octets) {
        return neighbors::is_whole(octets);
    }
    icmp::is_whole6(octets)
}

// Whether the type is that of multicast listeners (RFC 2710 section 3, RFC 3810 section 5).
fn has_mld_type(octets: &[u8]) -> bool
    ensures { result ≡ has_mld_type octets.now }
{
    matches!(octets, [130..=132 | 143, ..])
}

// Whether the type is that of neighbor discovery (RFC 4861 section 4).
fn has_ndisc_type(octets: &[u8]) -> bool
    ensures { result ≡ has_ndisc_type octets.now }
{
    matches!(octets, [133..=137, ..])
}

// Prints what a datagram of a service says, as far as it is there.
fn put_udp<W: Write>(output: &mut W, service: Service, octets: &[u8]) -> io::Result<bool>
    ensures { IfOk result (λ whole. GainsSome (W.contents output.old) (W.contents output.new)
        (λ text. UdpIs service octets.now text whole)) }
{
    match CapturedUdp::parse(octets) {
        Ok(datagram) => {
            let is_whole = put_service(output, service, datagram.payload)?;
            Ok(is_whole & is_all(datagram.extent))
        }
        Err(_) => Ok(false),
    }
}

// Whether none of the bytes is missing that the header of UDP counts.
fn is_all(extent: Extent) -> bool
    ensures { result ≡ is_all extent }
{
    !matches!(extent, Extent::Cut { .. })
}

// Prints what a message of a service says.
fn put_service<W: Write>(output: &mut W, service: Service, octets: &[u8]) -> io::Result<bool>
    ensures { IfOk result (λ whole. GainsSome (W.contents output.old) (W.contents output.new)
        (λ text. ServiceIs service octets.now text whole)) }
{
    match service {
        Service::Dns => put_dns(output, Kind::Dns, octets),
        Service::Mdns => put_dns(output, Kind::Mdns, octets),
        Service::Llmnr => put_dns(output, Kind::Llmnr, octets),
        Service::Nbns => put_dns(output, Kind::Nbns, octets),
        Service::Dhcp => put_dhcp(output, octets),
    }
}
