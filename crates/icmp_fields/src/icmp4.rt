//! ICMPv4 messages (RFC 792).

#![tactic(auto, using(packet_fields::proofs::Fields::prints_both))]

ghost use Rattle.std.specs.Prelude.{◌≡◌, ◌≤◌, OnOk, length, true};
ghost use Rattle.icmp4_wire.specs.Icmpv4 as messages;
ghost use Rattle.quote_wire.specs.Icmpv4Error.{IsDatagram, value_of};
ghost use Rattle.packet_fields.specs.Prints.{Prints, PrintsSome};
ghost use Rattle.icmp_fields.specs.Icmp4.{head_items, echo_items, typed_items, unread_items, message_items};
ghost use Rattle.icmp_fields.specs.Icmp4.{refusal, behind_items, told_or_refused, told_items, told, is_told};
ghost use Rattle.icmp_fields.specs.Icmp4.{gateway_items, told_in_rest, error_items, AreErrorItems};
ghost use Rattle.icmp_fields.specs.private.Told.{has_fields};

use crate::extensions::{quoted_of, show_extensions};
use crate::icmp::{
    CHECKSUM_END, CODE, HEADER_END, TYPE, show_additional, show_behind_checksum, show_named_head,
    show_refused, show_rest,
};
use crate::icmp_names::{icmp4_code_name, icmp4_type_name};
use crate::queries::{MASK_LEN, TIMESTAMP_LEN, wrong_advertisement, wrong_fixed};
use crate::quote::show_ipv4_quote;
use crate::refusal::{Refusal, Told};
use crate::{extended_echo, icmp, queries};
use icmp4_wire::icmpv4;
use packet_fields::Form;
use packet_fields::field::field;
use quote_wire::icmpv4_error::{Kind, Repr};
use quote_wire::quote::Ipv4Quote;
use std::io;
use std::io::Write;
use wirebase::{Ipv4Address, Octets};

const ECHO_REQUEST: u8 = 8;

const ECHO_REPLY: u8 = 0;

// The types of messages that are neither echoes nor errors, and are told by their fields.
const ROUTER_ADVERTISEMENT: u8 = 9;

const ROUTER_SOLICITATION: u8 = 10;

const TIMESTAMP: u8 = 13;

const TIMESTAMP_REPLY: u8 = 14;

const ADDRESS_MASK_REQUEST: u8 = 17;

const ADDRESS_MASK_REPLY: u8 = 18;

const EXTENDED_ECHO_REQUEST: u8 = 42;

const EXTENDED_ECHO_REPLY: u8 = 43;

/// Prints a message that was read in these octets: of an echo its fields; of every other, as [`show_unread`] does, its
/// octets. Errors are for [`show_error`].
pub fn show_message<W: Write>(
    output: &mut W,
    form: Form,
    message: &icmpv4::Repr<'_>,
    octets: &[u8],
) -> io::Result<()>
    ensures { OnOk result (Prints form (W.contents output.old) (W.contents output.new)
        (message_items (messages.value_of message.now) octets.now)) }
{
    match *message {
        icmpv4::Repr::EchoRequest {
            ident,
            seq_no,
            data,
        } => show_echo(output, form, ECHO_REQUEST, ident, seq_no, data),
        icmpv4::Repr::EchoReply {
            ident,
            seq_no,
            data,
        } => show_echo(output, form, ECHO_REPLY, ident, seq_no, data),
        icmpv4::Repr::DstUnreachable { .. } | icmpv4::Repr::TimeExceeded { .. } => {
            show_unread(output, form, octets, true)
        }
    }
}

/// Prints a message of any type, which need not be known: its type, its code, and of a timestamp (RFC 792), an address
/// mask (RFC 950), a router solicitation or advertisement (RFC 1256) and an extended echo (RFC 8335) its fields; of
/// others, and of those that are refused, the octets behind the checksum. An advertisement that ends before all of its
/// routers has those that are there, and why it is refused. Of fewer than 4 octets, all. Of a message that is not whole
/// the checksum of an extended echo's structure is not verified.
pub fn show_unread<W: Write>(
    output: &mut W,
    form: Form,
    octets: &[u8],
    is_whole: bool,
) -> io::Result<()>
    ensures { OnOk result (Prints form (W.contents output.old) (W.contents output.new)
        (unread_items is_whole octets.now)) }
{
    if octets.len() < CHECKSUM_END {
        show_rest(output, form, octets)
    } else {
        show_typed(output, form, octets, is_whole)
    }
}

fn show_typed<W: Write>(output: &mut W, form: Form, octets: &[u8], is_whole: bool) -> io::Result<()>
    requires { 4 ≤ length octets.now }
    ensures { OnOk result (Prints form (W.contents output.old) (W.contents output.new)
        (typed_items is_whole octets.now)) }
{
    show_head(output, form, octets.u8_at(TYPE), octets.u8_at(CODE))?;
    show_behind(output, form, octets, is_whole)
}

// Prints what follows the checksum.
fn show_behind<W: Write>(
    output: &mut W,
    form: Form,
    octets: &[u8],
    is_whole: bool,
) -> io::Result<()>
    requires { 4 ≤ length octets.now }
    ensures { OnOk result (Prints form (W.contents output.old) (W.contents output.new)
        (behind_items is_whole octets.now)) }
{
    if octets.len() < HEADER_END {
        return show_behind_checksum(output, form, octets);
    }
    show_told_or_refused(output, form, octets, is_whole)
}

fn show_told_or_refused<W: Write>(
    output: &mut W,
    form: Form,
    octets: &[u8],
    is_whole: bool,
) -> io::Result<()>
    requires { 8 ≤ length octets.now }
    ensures { OnOk result (Prints form (W.contents output.old) (W.contents output.new)
        (told_or_refused (refusal octets.now) is_whole octets.now)) }
{
    match refusal(octets) {
        None => show_by_type(output, form, octets, is_whole),
        Some(Refusal::Cut) => {
            show_by_type(output, form, octets, is_whole)?;
            field(output, form, "refused", Refusal::Cut)
        }
        Some(why) => show_refused(output, form, octets, why),
    }
}

/// Why a message that is told by its fields is refused, where it is; None of every other type. Requires 8 octets.
pub fn refusal(octets: &[u8]) -> Option<Refusal>
    requires { 8 ≤ length octets.now }
    ensures { result ≡ refusal octets.now }
{
    match octets[0] {
        TIMESTAMP | TIMESTAMP_REPLY => wrong_fixed(TIMESTAMP_LEN, octets),
        ADDRESS_MASK_REQUEST | ADDRESS_MASK_REPLY => wrong_fixed(MASK_LEN, octets),
        ROUTER_SOLICITATION => wrong_fixed(HEADER_END, octets),
        ROUTER_ADVERTISEMENT => wrong_advertisement(octets),
        _ => None,
    }
}

/// How a message that is neither an error nor an echo is told by [`show_unread`].
pub fn told(octets: &[u8]) -> Told
    ensures { result ≡ told octets.now }
{
    if octets.len() < HEADER_END {
        return Told::Octets;
    }
    match refusal(octets) {
        Some(why) => Told::Refused(why),
        None if is_told(octets[0]) => Told::Fields,
        None => Told::Octets,
    }
}

// Whether a type is one that is told by its fields.
fn is_told(type_: u8) -> bool
    ensures { result ≡ is_told type_ }
{
    matches!(
        type_,
        ROUTER_ADVERTISEMENT
            | ROUTER_SOLICITATION
            | TIMESTAMP
            | TIMESTAMP_REPLY
            | ADDRESS_MASK_REQUEST
            | ADDRESS_MASK_REPLY
            | EXTENDED_ECHO_REQUEST
            | EXTENDED_ECHO_REPLY
    )
}

// Prints a message that has its fields: these, or of another type its octets.
fn show_by_type<W: Write>(
    output: &mut W,
    form: Form,
    octets: &[u8],
    is_whole: bool,
) -> io::Result<()>
    requires long { 8 ≤ length octets.now }
    requires right { has_fields (refusal octets.now) ≡ true }
    ensures { OnOk result (Prints form (W.contents output.old) (W.contents output.new)
        (told_items is_whole octets.now)) }
{
    match octets[0] {
        TIMESTAMP | TIMESTAMP_REPLY => queries::show_timestamp(output, form, octets),
        ADDRESS_MASK_REQUEST | ADDRESS_MASK_REPLY => queries::show_mask(output, form, octets),
        ROUTER_SOLICITATION => show_additional(output, form, &octets[HEADER_END..]),
        ROUTER_ADVERTISEMENT => queries::show_advertisement(output, form, octets),
        EXTENDED_ECHO_REQUEST => extended_echo::show_request(output, form, octets, is_whole),
        EXTENDED_ECHO_REPLY => extended_echo::show_reply(output, form, octets),
        _ => show_behind_checksum(output, form, octets),
    }
}

fn show_head<W: Write>(output: &mut W, form: Form, type_: u8, code: u8) -> io::Result<()>
    ensures { OnOk result (Prints form (W.contents output.old) (W.contents output.new)
        (head_items type_ code)) }
{
    let type_name = icmp4_type_name(type_);
    let code_name = icmp4_code_name(type_, code);
    show_named_head(output, form, type_, type_name, code, code_name)
}

fn show_echo<W: Write>(
    output: &mut W,
    form: Form,
    type_: u8,
    ident: u16,
    seq_no: u16,
    data: &[u8],
) -> io::Result<()>
    ensures { OnOk result (Prints form (W.contents output.old) (W.contents output.new)
        (echo_items type_ ident seq_no «data».now)) }
{
    show_head(output, form, type_, 0)?;
    icmp::show_echo(output, form, ident, seq_no, data)
}

/// Prints an error, what it quotes, and the extensions behind that (RFC 4884). Extensions whose checksum is wrong are
/// refused, and printed by their octets. Where `is_whole` is false the capture cut the message: then the checksum can't
/// be verified, and is not looked at. Requires that the error quotes the start of a datagram, as each does that
/// `Repr::parse` gives.
pub fn show_error<W: Write>(
    output: &mut W,
    form: Form,
    error: &Repr<'_>,
    is_whole: bool,
) -> io::Result<()>
    requires { IsDatagram error.now.quoted.now }
    ensures { OnOk result (PrintsSome form (W.contents output.old) (W.contents output.new)
        (AreErrorItems is_whole (value_of error.now))) }
{
    let division = error.parts();
    let Ok(quote) = Ipv4Quote::parse(quoted_of(&division, error.quoted)) else {
        // The start of a datagram is never refused.
        return Ok(());
    };
    show_quoting(output, form, error, &quote)?;
    show_extensions(output, form, &division, is_whole)
}

// Prints an error and this that it quotes.
fn show_quoting<W: Write>(
    output: &mut W,
    form: Form,
    error: &Repr<'_>,
    quote: &Ipv4Quote<'_>,
) -> io::Result<()>
    ensures { OnOk result (Prints form (W.contents output.old) (W.contents output.new)
        (error_items (value_of error.now) quote.now)) }
{
    show_head(output, form, error.kind.number(), error.code)?;
    show_told(output, form, error)?;
    show_ipv4_quote(output, form, quote)
}

// Prints what the four bytes after the checksum say.
#[tactic(auto, using(packet_fields::proofs::Fields::prints_none))]
fn show_told<W: Write>(output: &mut W, form: Form, error: &Repr<'_>) -> io::Result<()>
    ensures { OnOk result (Prints form (W.contents output.old) (W.contents output.new)
        (told_in_rest error.now.kind (value_of error.now))) }
{
    match error.kind {
        Kind::DstUnreachable => field(output, form, "next_hop_mtu", error.next_hop_mtu()),
        Kind::Redirect => show_gateway(output, form, error.rest),
        Kind::ParamProblem => field(output, form, "pointer", (error.rest >> 24) as u8),
        Kind::SourceQuench | Kind::TimeExceeded => Ok(()),
    }
}

// Prints the address of these four octets, the highest first.
fn show_gateway<W: Write>(output: &mut W, form: Form, octets: u32) -> io::Result<()>
    ensures { OnOk result (Prints form (W.contents output.old) (W.contents output.new)
        (gateway_items octets)) }
{
    let gateway = Ipv4Address::from_octets(octets.to_be_bytes());
    field(output, form, "gateway", gateway)
}
