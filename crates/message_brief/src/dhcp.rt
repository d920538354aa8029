//! Brief lines of DHCP packets (RFC 2131 section 2).

#![tactic(auto, using(wirebase::proofs::Sinks::puts, wirebase::proofs::Sinks::put_none), // texts in turn, or none
unfolding(crate::specs::Dhcp::signed))]

ghost use Rattle.std.specs.Prelude.{◌≡◌, ◌++◌, IfOk, codes, decimal, length};
ghost use Rattle.std.specs.Option.{option_map};
ghost use Rattle.wirebase.specs.Bytes.{Reaches};
ghost use Rattle.wirebase.specs.Sink.{PutsText};
ghost use Rattle.dhcp_options.specs.Joined.{joined};
ghost use Rattle.packet_fields.specs.Labels.{label_text};
ghost use Rattle.packet_fields.specs.Output.{GainsSome};
ghost use Rattle.dhcp_fields.specs.Header.{chaddr_field};
ghost use Rattle.message_brief.specs.Dhcp.{DhcpIs, address_text, are_whole, four_in, front_text, hardware_text};
ghost use Rattle.message_brief.specs.Dhcp.{has_options, have_lengths, is_len, kind_text, lease_text, nothing, octet_in};
ghost use Rattle.message_brief.specs.Dhcp.{own_text, packet_text, signed, signed_if, told_by};

use crate::words::{Number, put_word};
use byteorder::{BigEndian, ByteOrder};
use dhcp_fields::header::{hardware_address, operation};
use dhcp_fields::options::message_name;
use dhcp_fields::refusal::first_cut;
use dhcp_options::Parts;
use packet_fields::label::Label;
use packet_fields::output::ToWriter;
use packet_fields::texts::v4_of;
use packet_fields::value::Colons;
use std::io;
use std::io::Write;
use wirebase::Octets;
use wirebase::text::{Sink, put_number, put_v4};

// The fields; their picture is in specs/Dhcpv4Packet.antt of dhcp_wire.
mod place {
    use wirebase::Field;

    pub const OP: usize = 0;

    pub const XID: Field = 4..8;

    pub const CIADDR: Field = 12..16;

    pub const YIADDR: Field = 16..20;

    pub const FIXED_END: usize = 44;

    pub const MAGIC_NUMBER: Field = 236..240;

    pub const OPTIONS: usize = 240;
}

// The number before the options (RFC 2131 section 3).
const MAGIC_COOKIE: u32 = 0x6382_5363;

const REQUESTED_ADDRESS: u8 = 50;

const LEASE_TIME: u8 = 51;

const MESSAGE_TYPE: u8 = 53;

const SERVER_IDENTIFIER: u8 = 54;

// What a line tells of options; addresses by their octets, the lease time in seconds.
#[derive(Clone, Copy)]
pub(crate) struct Told {
    message_type: Option<u8>,
    requested_address: Option<[u8; 4]>,
    server_identifier: Option<[u8; 4]>,
    lease_time: Option<[u8; 4]>,
}

/// Prints what a packet says, and returns whether all of it reads.
pub(crate) fn put_dhcp<W: Write>(output: &mut W, octets: &[u8]) -> io::Result<bool>
    ensures { IfOk result (λ whole. GainsSome (W.contents output.old) (W.contents output.new)
        (λ text. DhcpIs octets.now text whole)) }
{
    if octets.len() < place::FIXED_END {
        return Ok(false);
    }
    if !has_options(octets) {
        put_packet::<W, ToWriter>(output, &nothing(), octets)?;
        return Ok(false);
    }
    let parts = Parts::of(octets);
    put_packet::<W, ToWriter>(output, &told_by(&parts), octets)?;
    Ok(are_whole(parts))
}

// Whether no option is cut, and none of those that are told has another length.
fn are_whole(parts: Parts<'_>) -> bool
    ensures { result ≡ are_whole parts.entry }
{
    have_lengths(&parts) && first_cut(parts).is_none()
}

// Whether none of the options that are told has another length than such values have.
fn have_lengths(parts: &Parts<'_>) -> bool
    ensures { result ≡ have_lengths parts.now }
{
    is_len(1, parts.joined_len(MESSAGE_TYPE))
        && is_len(4, parts.joined_len(REQUESTED_ADDRESS))
        && is_len(4, parts.joined_len(SERVER_IDENTIFIER))
        && is_len(4, parts.joined_len(LEASE_TIME))
}

// Whether an option of so many octets has this length, or has none or is not there.
fn is_len(len: usize, octets: usize) -> bool
    ensures { result ≡ is_len len octets }
{
    octets == 0 || octets == len
}

// Whether there is room for options, and the magic cookie before them.
fn has_options(octets: &[u8]) -> bool
    ensures { result ≡ has_options octets.now }
{
    octets.len() >= place::OPTIONS && octets.u32_at(place::MAGIC_NUMBER) == MAGIC_COOKIE
}

fn nothing() -> Told
    ensures { result ≡ nothing }
{
    Told {
        message_type: None,
        requested_address: None,
        server_identifier: None,
        lease_time: None,
    }
}

fn told_by(parts: &Parts<'_>) -> Told
    ensures { result ≡ told_by parts.now }
{
    Told {
        message_type: octet_in(parts, MESSAGE_TYPE),
        requested_address: four_in(parts, REQUESTED_ADDRESS),
        server_identifier: four_in(parts, SERVER_IDENTIFIER),
        lease_time: four_in(parts, LEASE_TIME),
    }
}

// The octet of an option of one.
fn octet_in(parts: &Parts<'_>, kind: u8) -> Option<u8>
    ensures { result ≡ octet_in (joined kind parts.now) }
{
    let mut room = [0; 1];
    match parts.join(kind, &mut room) {
        Ok(1) => Some(room[0]),
        _ => None,
    }
}

// The octets of an option of four.
fn four_in(parts: &Parts<'_>, kind: u8) -> Option<[u8; 4]>
    ensures { result ≡ four_in (joined kind parts.now) }
{
    let mut room = [0; 4];
    match parts.join(kind, &mut room) {
        Ok(4) => Some(room),
        _ => None,
    }
}

fn put_packet<O, S: Sink<O>>(output: &mut O, told: &Told, octets: &[u8]) -> Result<(), S::Error>
    requires { Reaches chaddr_field octets.now }
    ensures { PutsText S.took output.old (packet_text told.now octets.now) result output.new }
{
    put_front::<O, S>(output, told.message_type, octets)?;
    put_address::<O, S>(output, told.requested_address, octets)?;
    put_signed_if::<O, S>(output, "from", told.server_identifier)?;
    put_lease::<O, S>(output, told.lease_time)
}

// Puts which message it is, its transaction and its client.
fn put_front<O, S: Sink<O>>(
    output: &mut O,
    type_: Option<u8>,
    octets: &[u8],
) -> Result<(), S::Error>
    requires { Reaches chaddr_field octets.now }
    ensures { PutsText S.took output.old (front_text type_ octets.now) result output.new }
{
    let xid = Number(octets.u32_at(place::XID) as u64);
    put_word::<O, S, Label<'_>>(output, label_of(type_, octets[place::OP]))?;
    put_word::<O, S, Number>(output, xid)?;
    put_hardware::<O, S>(output, hardware_address(octets))
}

// The type of a message, or else its operation.
fn label_of(type_: Option<u8>, op: u8) -> Label<'static>
    ensures { label_text (option_map (λ name. name.now) result.name) result.kind.now result.number
        ≡ kind_text type_ op }
{
    match type_ {
        Some(number) => Label {
            name: message_name(number),
            kind: "message",
            number,
        },
        None => Label {
            name: operation(op),
            kind: "op",
            number: op,
        },
    }
}

fn put_hardware<O, S: Sink<O>>(output: &mut O, address: &[u8]) -> Result<(), S::Error>
    ensures { PutsText S.took output.old (hardware_text address.now) result output.new }
{
    if address.is_empty() {
        return Ok(());
    }
    put_word::<O, S, Colons<'_>>(output, Colons(address))
}

// Puts the address that the server gives, or else that of the client.
fn put_address<O, S: Sink<O>>(
    output: &mut O,
    asked: Option<[u8; 4]>,
    octets: &[u8],
) -> Result<(), S::Error>
    requires { Reaches chaddr_field octets.now }
    ensures { PutsText S.took output.old (address_text asked octets.now) result output.new }
{
    if octets.u32_at(place::YIADDR) != 0 {
        return put_signed::<O, S>(output, "=", octets.field(place::YIADDR));
    }
    match asked {
        Some(address) => put_signed::<O, S>(output, "?", &address),
        None => put_own::<O, S>(output, octets),
    }
}

// Puts the address that the client has, where it has one.
fn put_own<O, S: Sink<O>>(output: &mut O, octets: &[u8]) -> Result<(), S::Error>
    requires { Reaches chaddr_field octets.now }
    ensures { PutsText S.took output.old (own_text octets.now) result output.new }
{
    if octets.u32_at(place::CIADDR) == 0 {
        return Ok(());
    }
    put_signed::<O, S>(output, "?", octets.field(place::CIADDR))
}

fn put_signed_if<O, S: Sink<O>>(
    output: &mut O,
    sign: &str,
    address: Option<[u8; 4]>,
) -> Result<(), S::Error>
    ensures { PutsText S.took output.old (signed_if sign.now address) result output.new }
{
    match address {
        Some(address) => put_signed::<O, S>(output, sign, &address),
        None => Ok(()),
    }
}

// Puts an address behind a sign or a word.
fn put_signed<O, S: Sink<O>>(output: &mut O, sign: &str, address: &[u8]) -> Result<(), S::Error>
    requires { length address.now ≡ 4 }
    ensures { PutsText S.took output.old (signed sign.now address.now) result output.new }
{
    S::put_str(output, " ")?;
    S::put_str(output, sign)?;
    S::put_str(output, " ")?;
    put_v4::<O, S>(output, v4_of(address), None)
}

fn put_lease<O, S: Sink<O>>(output: &mut O, time: Option<[u8; 4]>) -> Result<(), S::Error>
    ensures { PutsText S.took output.old (lease_text time) result output.new }
{
    match time {
        Some(seconds) => put_seconds::<O, S>(output, BigEndian::read_u32(&seconds)),
        None => Ok(()),
    }
}

fn put_seconds<O, S: Sink<O>>(output: &mut O, seconds: u32) -> Result<(), S::Error>
    ensures { PutsText S.took output.old (codes " lease=" ++ (decimal seconds ++ codes "s")) result output.new }
{
    S::put_str(output, " lease=")?;
    put_number::<O, S>(output, seconds as u64)?;
    S::put_str(output, "s")
}
