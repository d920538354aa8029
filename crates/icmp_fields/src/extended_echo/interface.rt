//! The interface that a request asks for: the object of its extension structure (RFC 8335 section 2.1).

#![tactic(auto, using(packet_fields::proofs::Fields::prints_both))]

ghost use Rattle.std.specs.Prelude.{◌≡◌, ◌≤◌, ◌+◌, [], ◌∷◌, None, OnOk, codes, drop, length};
ghost use Rattle.std.specs.Option.{option_map};
ghost use Rattle.extension_wire.specs.Object.{value_of};
ghost use Rattle.packet_fields.specs.Fields.{field};
ghost use Rattle.packet_fields.specs.Prints.{Prints};
ghost use Rattle.icmp_fields.specs.ExtendedEcho.{address_items, address_leaf, address_len, family_names};
ghost use Rattle.icmp_fields.specs.ExtendedEcho.{named_or_refused, object_items, object_or_refused, object_refusal};
ghost use Rattle.icmp_fields.specs.ExtendedEcho.{padding_len, payload_items, structure_items, told_len};
ghost use Rattle.icmp_fields.specs.ExtendedEcho.{unread_structure, wrong_address, wrong_object, wrong_payload};
ghost use Rattle.icmp_fields.specs.Names.{name_in};

use crate::extensions::words::{Why, Word};
use crate::extensions::wrong_header;
use crate::icmp::show_additional;
use crate::texts::{Name, trimmed};
use extension_wire::Object;
use packet_fields::Form;
use packet_fields::field::{field, named};
use packet_fields::texts::Address;
use packet_fields::value::{Colons, Value};
use std::io;
use std::io::Write;
use wirebase::Octets;

// The fields of a payload before an address; their picture is in specs/ExtendedEcho.antt.
mod place {
    use wirebase::Field;

    pub const INDEX: Field = 0..4;

    pub const INDEX_LEN: usize = 4;

    pub const ADDRESS_FAMILY: Field = 0..2;

    pub const ADDRESS_LEN: Field = 2..3;

    pub const ADDRESS: usize = 4;
}

// The bytes of a structure's header, and of these and an object's.
const HEADER_LEN: usize = 4;

const PAYLOAD: usize = 8;

// The class of an object that names an interface, and its forms.
const CLASS: u8 = 3;

const BY_NAME: u8 = 1;

const BY_INDEX: u8 = 2;

const BY_ADDRESS: u8 = 3;

// The families whose addresses are printed as addresses.
const IPV4: u16 = 1;

const IPV6: u16 = 2;

const IEEE_802: u16 = 6;

const MAC48: u16 = 16389;

// Prints the interface that the structure of a request names; a structure that is refused by its octets, and why.
pub(super) fn show_structure<W: Write>(
    output: &mut W,
    form: Form,
    structure: &[u8],
    is_whole: bool,
) -> io::Result<()>
    ensures { OnOk result (Prints form (W.contents output.old) (W.contents output.new)
        (structure_items is_whole structure.now)) }
{
    match wrong_header(structure, is_whole) {
        Some(refusal) => show_unread(output, form, structure, Word(Why::Structure(refusal))),
        None => show_inside(output, form, structure),
    }
}

fn show_unread<V: Value, W: Write>(
    output: &mut W,
    form: Form,
    structure: &[u8],
    why: V,
) -> io::Result<()>
    ensures { OnOk result (Prints form (W.contents output.old) (W.contents output.new)
        (unread_structure structure.now (V.leaf why))) }
{
    field(output, form, "data", structure)?;
    field(output, form, "data_refused", why)
}

// Prints what the object behind a structure's header names.
fn show_inside<W: Write>(output: &mut W, form: Form, structure: &[u8]) -> io::Result<()>
    requires { 4 ≤ length structure.now }
    ensures { OnOk result (Prints form (W.contents output.old) (W.contents output.new)
        (object_or_refused (object_refusal (drop 4 structure.now)) structure.now)) }
{
    let (_, inside) = structure.split_at(HEADER_LEN);
    match Object::parse(inside) {
        Ok((object, _)) => show_named_or_refused(output, form, structure, &object),
        Err(refusal) => show_unread(output, form, structure, Word(Why::Object(refusal))),
    }
}

fn show_named_or_refused<W: Write>(
    output: &mut W,
    form: Form,
    structure: &[u8],
    object: &Object<'_>,
) -> io::Result<()>
    requires { 8 + length object.now.payload.now ≤ length structure.now }
    ensures { OnOk result (Prints form (W.contents output.old) (W.contents output.new)
        (named_or_refused (wrong_object (value_of object.now)) structure.now (value_of object.now))) }
{
    match wrong_object(object) {
        Some(why) => show_unread(output, form, structure, why),
        None => show_object(output, form, structure, object),
    }
}

// Why an object names no interface, where it names none.
fn wrong_object(object: &Object<'_>) -> Option<&'static str>
    ensures { option_map (λ why. why.now) result ≡ wrong_object (value_of object.now) }
{
    if object.class != CLASS {
        return Some("an object of another class than 3");
    }
    wrong_payload(object.c_type, object.payload)
}

fn wrong_payload(c_type: u8, payload: &[u8]) -> Option<&'static str>
    ensures { option_map (λ why. why.now) result ≡ wrong_payload c_type payload.now }
{
    match c_type {
        BY_NAME => None,
        BY_INDEX if payload.len() == place::INDEX_LEN => None,
        BY_INDEX => Some("an index of other than 4 bytes"),
        BY_ADDRESS => wrong_address(payload),
        _ => Some("a C-Type that is not known"),
    }
}

fn wrong_address(payload: &[u8]) -> Option<&'static str>
    ensures { option_map (λ why. why.now) result ≡ wrong_address payload.now }
{
    if payload.len() < place::ADDRESS {
        return Some("fewer than 4 bytes before an address");
    }
    if payload.len() < address_end(payload) {
        return Some("fewer bytes than the address counts");
    }
    None
}

// Where an address ends.
fn address_end(payload: &[u8]) -> usize
    requires { 4 ≤ length payload.now }
    ensures { result ≡ 4 + address_len payload.now }
{
    place::ADDRESS + payload.u8_at(place::ADDRESS_LEN) as usize
}

// Prints what an object that is not refused names, and the octets behind that.
fn show_object<W: Write>(
    output: &mut W,
    form: Form,
    structure: &[u8],
    object: &Object<'_>,
) -> io::Result<()>
    requires right { wrong_object (value_of object.now) ≡ None }
    requires whole { 8 + length object.now.payload.now ≤ length structure.now }
    ensures { OnOk result (Prints form (W.contents output.old) (W.contents output.new)
        (object_items structure.now (value_of object.now))) }
{
    let (_, behind) = structure.split_at(PAYLOAD + told_len(object.c_type, object.payload));
    show_payload(output, form, object.c_type, object.payload)?;
    show_additional(output, form, behind)
}

// The bytes of a payload that are told, and the padding of an address.
fn told_len(c_type: u8, payload: &[u8]) -> usize
    requires { wrong_payload c_type payload.now ≡ None }
    ensures value { result ≡ told_len c_type payload.now }
    ensures within { result ≤ length payload.now }
{
    if c_type != BY_ADDRESS {
        return payload.len();
    }
    let end = address_end(payload);
    let (_, behind) = payload.split_at(end);
    end + padding_len(end, behind)
}

// The bytes that pad to a multiple of 4 what ends here, where all of them are zeros.
fn padding_len(end: usize, behind: &[u8]) -> usize
    ensures value { result ≡ padding_len end behind.now }
    ensures within { result ≤ length behind.now }
{
    let wanted = (4 - end % 4) % 4;
    let (padding, _) = behind.split_at(wanted.min(behind.len()));
    if trimmed(padding).is_empty() {
        padding.len()
    } else {
        0
    }
}

fn show_payload<W: Write>(output: &mut W, form: Form, c_type: u8, payload: &[u8]) -> io::Result<()>
    requires { wrong_payload c_type payload.now ≡ None }
    ensures { OnOk result (Prints form (W.contents output.old) (W.contents output.new)
        (payload_items c_type payload.now)) }
{
    match c_type {
        BY_NAME => field(output, form, "interface_name", Name(payload)),
        BY_INDEX => field(
            output,
            form,
            "interface_index",
            payload.u32_at(place::INDEX),
        ),
        _ => show_address(output, form, payload),
    }
}

fn show_address<W: Write>(output: &mut W, form: Form, payload: &[u8]) -> io::Result<()>
    requires { wrong_address payload.now ≡ None }
    ensures { OnOk result (Prints form (W.contents output.old) (W.contents output.new)
        (address_items payload.now)) }
{
    let family = payload.u16_at(place::ADDRESS_FAMILY);
    let address = payload.range(place::ADDRESS, address_end(payload));
    named(
        output,
        form,
        "interface_addr_family",
        family as u64,
        family_name(family),
    )?;
    show_address_of(output, form, family, address)
}

// The name of a family of addresses.
fn family_name(family: u16) -> Option<&'static str>
    ensures { option_map (λ name. name.now) result ≡ name_in family_names family }
{
    match family {
        IPV4 => Some("ipv4"),
        IPV6 => Some("ipv6"),
        IEEE_802 => Some("802"),
        MAC48 => Some("mac48"),
        _ => None,
    }
}

// Prints an address as those of its family are written; one of another length, or of another family, by its octets.
fn show_address_of<W: Write>(
    output: &mut W,
    form: Form,
    family: u16,
    address: &[u8],
) -> io::Result<()>
    ensures { OnOk result (Prints form (W.contents output.old) (W.contents output.new)
        (field (codes "interface_addr") (address_leaf family address.now) ∷ [])) }
{
    match (family, address.len()) {
        (IPV4, 4) | (IPV6, 16) => field(output, form, "interface_addr", Address(address)),
        (IEEE_802 | MAC48, 6) => field(output, form, "interface_addr", Colons(address)),
        _ => field(output, form, "interface_addr", address),
    }
}
