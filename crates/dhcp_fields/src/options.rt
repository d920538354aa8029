//! The options of a packet (RFC 2132), as a list.

#![tactic(auto, using(packet_fields::proofs::Fields::cells_both, packet_fields::proofs::Fields::cells_none))]

ghost use Rattle.std.specs.Prelude.{◌≡◌, ◌<◌, [], ◌∷◌, IfSome, List, OnOk, codes, length};
ghost use Rattle.std.specs.Option.{option_map};
ghost use Rattle.wirebase.specs.Bytes.{Reaches};
ghost use Rattle.dhcp_wire.specs.Dhcpv4OptionValue.{content_of};
ghost use Rattle.dhcp_wire.specs.Dhcpv4Options.{value_of_option};
ghost use Rattle.dhcp_wire.specs.Dhcpv4Packet.{magic_field};
ghost use Rattle.dhcp_options.specs.Parts.{Answer, ArePartsOf};
ghost use Rattle.packet_fields.specs.Entries.{PrintsEntry};
ghost use Rattle.packet_fields.specs.private.Entries.{PrintsEntries};
ghost use Rattle.packet_fields.specs.Fields.{Fits, entries as entries_item, first_text};
ghost use Rattle.packet_fields.specs.Names.{name_in as name_of};
ghost use Rattle.packet_fields.specs.Output.{Gains};
ghost use Rattle.packet_fields.specs.Prints.{Prints, PrintsCells};
ghost use Rattle.dhcp_fields.specs.Options.{kinds_in, long_entry, message_names, name_cells, option_entries};
ghost use Rattle.dhcp_fields.specs.Options.{option_entry, value_entry, value_leaf, value_names};
ghost use Rattle.dhcp_fields.specs.private.Kinds.{GivesKind};

use crate::kinds::{Kinds, numbers_fit};
use crate::texts::{Escaped, OptionLabel};
use dhcp_options::Parts;
use dhcp_wire::dhcpv4::{DhcpOption, OptionValue};
use packet_fields::Form;
use packet_fields::entry::{
    cell, close_entry, close_list, first_cell, hidden_number, keyed_cell, open_entry, open_list,
};
use packet_fields::names::{Row, name_in};
use packet_fields::texts::Addresses;
use packet_fields::value::Seconds;
use std::io;
use std::io::Write;

// The greatest number of bytes of an option in several parts that is printed: no packet that fits a frame of Ethernet
// has one with more.
const MOST_JOINED: usize = 1_500;

const MESSAGE_NAMES: &[Row] = &[
    (1, "discover"),
    (2, "offer"),
    (3, "request"),
    (4, "decline"),
    (5, "ack"),
    (6, "nak"),
    (7, "release"),
    (8, "inform"),
];

/// Prints the options of a packet, in the order of their first parts, each joined from its parts (RFC 3396). Requires
/// at least 240 bytes.
pub(crate) fn show_options<W: Write>(output: &mut W, form: Form, octets: &[u8]) -> io::Result<()>
    requires { Reaches magic_field octets.now }
    ensures { (parts : List Answer) → ArePartsOf octets.now parts
        → OnOk result (Prints form (W.contents output.old) (W.contents output.new)
        (entries_item (codes "options") (option_entries parts) ∷ [])) }
{
    open_list(output, form, "options")?;
    show_entries(output, form, octets)?;
    close_list(output, form)
}

fn show_entries<W: Write>(output: &mut W, form: Form, octets: &[u8]) -> io::Result<()>
    requires { Reaches magic_field octets.now }
    ensures { (parts : List Answer) → ArePartsOf octets.now parts
        → OnOk result (PrintsEntries form (W.contents output.old) (W.contents output.new)
        (option_entries parts)) }
{
    let mut left = Parts::of(octets);
    let mut is_first = true;
    while let Some(kind) = next_kind(&mut left) {
        show_option(output, form, is_first, octets, kind)?;
        is_first = false;
    }
    Ok(())
}

// The kind of the next part that is the first of its kind.
fn next_kind(left: &mut Parts<'_>) -> Option<u8>
    ensures gives { GivesKind (kinds_in left.old) result (kinds_in left.new) }
    ensures fewer { IfSome result (λ kind. length left.new < length left.old) }
{
    while let Some(answer) = left.next() {
        match answer {
            Ok(part) if part.is_first => return Some(part.kind),
            _ => {}
        }
    }
    None
}

// Prints an option, joined from its parts.
fn show_option<W: Write>(
    output: &mut W,
    form: Form,
    is_first: bool,
    octets: &[u8],
    kind: u8,
) -> io::Result<()>
    requires { Reaches magic_field octets.now }
    ensures { (parts : List Answer) → ArePartsOf octets.now parts
        → OnOk result (PrintsEntry form is_first (W.contents output.old) (W.contents output.new)
        (option_entry parts kind)) }
{
    let mut buffer = [0; MOST_JOINED];
    match Parts::of(octets).option(kind, &mut buffer) {
        Ok(option) => show_value(output, form, is_first, option),
        Err(_) => show_long(output, form, is_first, kind),
    }
}

// Prints an option by its value.
fn show_value<W: Write>(
    output: &mut W,
    form: Form,
    is_first: bool,
    option: DhcpOption<'_>,
) -> io::Result<()>
    ensures { OnOk result (PrintsEntry form is_first (W.contents output.old) (W.contents output.new)
        (value_entry (value_of_option option.entry))) }
{
    let value = option.value();
    open_entry(output, form, is_first, "option", OptionLabel(option.kind))?;
    show_content(output, form, value)?;
    show_value_name(output, form, value)?;
    hidden_number(output, form, "type", option.kind as u64)?;
    close_entry(output, form)
}

// Prints the value of an option.
fn show_content<W: Write>(output: &mut W, form: Form, value: OptionValue<'_>) -> io::Result<()>
    ensures text { OnOk result (Gains (W.contents output.old) (W.contents output.new)
        (first_text form (codes "value") (value_leaf (content_of value.entry)))) }
    ensures fits { Fits (value_leaf (content_of value.entry)) }
{
    match value {
        OptionValue::Address(address) => first_cell(output, form, "value", address),
        OptionValue::Addresses(octets) => {
            first_cell(output, form, "value", Addresses { width: 4, octets })
        }
        OptionValue::Seconds(seconds) => first_cell(output, form, "value", Seconds(seconds)),
        OptionValue::Number(number) => first_cell(output, form, "value", number),
        OptionValue::Byte(byte) => first_cell(output, form, "value", byte),
        OptionValue::MessageType(message_type) => {
            first_cell(output, form, "value", u8::from(message_type))
        }
        OptionValue::Text(octets) => first_cell(output, form, "value", Escaped(octets)),
        OptionValue::Kinds(kinds) => {
            numbers_fit(kinds);
            first_cell(output, form, "value", Kinds(kinds))
        }
        OptionValue::Octets(octets) => first_cell(output, form, "value", octets),
    }
}

// Prints an option whose parts have too many bytes.
fn show_long<W: Write>(output: &mut W, form: Form, is_first: bool, kind: u8) -> io::Result<()>
    ensures { OnOk result (PrintsEntry form is_first (W.contents output.old) (W.contents output.new)
        (long_entry kind)) }
{
    let no_octets: &[u8] = &[];
    open_entry(output, form, is_first, "option", OptionLabel(kind))?;
    first_cell(output, form, "value", no_octets)?;
    keyed_cell(output, form, "refused", "more than 1500 bytes in parts")?;
    hidden_number(output, form, "type", kind as u64)?;
    close_entry(output, form)
}

// Prints the name of a type of message.
fn show_value_name<W: Write>(output: &mut W, form: Form, value: OptionValue<'_>) -> io::Result<()>
    ensures { OnOk result (PrintsCells form (W.contents output.old) (W.contents output.new)
        (value_names (content_of value.entry))) }
{
    match value {
        OptionValue::MessageType(message_type) => {
            show_name(output, form, message_name(u8::from(message_type)))
        }
        _ => Ok(()),
    }
}

fn show_name<W: Write>(output: &mut W, form: Form, name: Option<&str>) -> io::Result<()>
    ensures { OnOk result (PrintsCells form (W.contents output.old) (W.contents output.new)
        (name_cells (option_map (λ name. name.now) name.entry))) }
{
    match name {
        Some(name) => cell(output, form, "value_name", name),
        None => Ok(()),
    }
}

/// The name of a type of message; None where it has none.
pub fn message_name(number: u8) -> Option<&'static str>
    ensures { option_map (λ name. name.now) result ≡ name_of message_names number }
{
    name_in(MESSAGE_NAMES, number as u16)
}
