//! Requests about an interface and their answers (RFC 8335), which ICMPv4 and ICMPv6 have in common but for their
//! types.

#![tactic(auto, using(packet_fields::proofs::Fields::prints_both))]

ghost use Rattle.std.specs.Prelude.{◌≡◌, ◌≤◌, OnOk, length};
ghost use Rattle.std.specs.Option.{option_map};
ghost use Rattle.packet_fields.specs.Prints.{Prints};
ghost use Rattle.icmp_fields.specs.ExtendedEcho.{request_fields, request_items, reply_items, state_items, state_names};
ghost use Rattle.icmp_fields.specs.Names.{name_in};

mod interface;

use crate::icmp::{HEADER_END, show_additional};
use interface::show_structure;
use packet_fields::Form;
use packet_fields::field::{field, named};
use std::io;
use std::io::Write;
use wirebase::Octets;

// The fields of messages; their picture is in specs/ExtendedEcho.antt.
mod place {
    use wirebase::Field;

    pub const IDENT: Field = 4..6;

    pub const SEQ_NO: Field = 6..7;

    // the flag L of a request; the state and the flags of its answer
    pub const FLAGS: Field = 7..8;
}

// Prints a request, whole or cut, and the interface that is asked for.
pub(crate) fn show_request<W: Write>(
    output: &mut W,
    form: Form,
    message: &[u8],
    is_whole: bool,
) -> io::Result<()>
    requires { 8 ≤ length message.now }
    ensures { OnOk result (Prints form (W.contents output.old) (W.contents output.new)
        (request_items is_whole message.now)) }
{
    let (_, structure) = message.split_at(HEADER_END);
    show_request_fields(output, form, message)?;
    show_structure(output, form, structure, is_whole)
}

fn show_request_fields<W: Write>(output: &mut W, form: Form, message: &[u8]) -> io::Result<()>
    requires { 8 ≤ length message.now }
    ensures { OnOk result (Prints form (W.contents output.old) (W.contents output.new)
        (request_fields message.now)) }
{
    field(output, form, "ident", message.u16_at(place::IDENT))?;
    field(output, form, "seq_no", message.u8_at(place::SEQ_NO))?;
    field(output, form, "local", message.u8_at(place::FLAGS) % 2 == 1)
}

// Prints an answer.
pub(crate) fn show_reply<W: Write>(output: &mut W, form: Form, message: &[u8]) -> io::Result<()>
    requires { 8 ≤ length message.now }
    ensures { OnOk result (Prints form (W.contents output.old) (W.contents output.new)
        (reply_items message.now)) }
{
    let (_, behind) = message.split_at(HEADER_END);
    field(output, form, "ident", message.u16_at(place::IDENT))?;
    field(output, form, "seq_no", message.u8_at(place::SEQ_NO))?;
    show_state(output, form, message.u8_at(place::FLAGS))?;
    show_additional(output, form, behind)
}

// Prints the state and the flags of an answer.
fn show_state<W: Write>(output: &mut W, form: Form, flags: u8) -> io::Result<()>
    ensures { OnOk result (Prints form (W.contents output.old) (W.contents output.new) (state_items flags)) }
{
    let state = flags / 32;
    named(output, form, "state", state as u64, state_name(state))?;
    field(output, form, "active", flags / 4 % 2 == 1)?;
    field(output, form, "ipv4", flags / 2 % 2 == 1)?;
    field(output, form, "ipv6", flags % 2 == 1)
}

// The name of the state of a table entry.
fn state_name(state: u8) -> Option<&'static str>
    ensures { option_map (λ name. name.now) result ≡ name_in state_names state }
{
    match state {
        0 => Some("reserved"),
        1 => Some("incomplete"),
        2 => Some("reachable"),
        3 => Some("stale"),
        4 => Some("delay"),
        5 => Some("probe"),
        6 => Some("failed"),
        _ => None,
    }
}
