//! Queries about a node and their answers (RFC 4620), messages of ICMPv6.

#![tactic(auto, using(packet_fields::proofs::Fields::prints_both))]

ghost use Rattle.std.specs.Prelude.{◌≡◌, ◌≤◌, ◌+◌, OnOk, length};
ghost use Rattle.std.specs.Option.{option_map};
ghost use Rattle.packet_fields.specs.Entries.{PrintsEntry};
ghost use Rattle.packet_fields.specs.Prints.{Prints};
ghost use Rattle.icmp_fields.specs.Names.{name_in};
ghost use Rattle.icmp_fields.specs.NodeInformation.{wrong_node, qtype_names, flags_items, fields_items, subject_items};
ghost use Rattle.icmp_fields.specs.NodeInformation.{whole_entry, address_entry, entry_len, is_cut, wrong_reply};
ghost use Rattle.icmp_fields.specs.NodeInformation.{answer_items, query_items, reply_items};
ghost use Rattle.icmp_fields.specs.NodeInformation.{named_flags, address_or_data, subject_addr_items, data_items};
ghost use Rattle.icmp_fields.specs.NodeInformation.{address_flags, other_flags};

use crate::icmp::show_cut_entry;
use crate::refusal::Refusal;
use packet_fields::Form;
use packet_fields::entry::{close_entry, first_cell, keyed_cell, open_entry};
use packet_fields::field::{field, named};
use packet_fields::names::Row;
use packet_fields::parts::{Part, show_parts};
use packet_fields::texts::{Address, Flags};
use packet_fields::value::Seconds;
use std::io;
use std::io::Write;
use wirebase::Octets;

// The fields of messages, and of an address in an answer; their pictures are in specs/NodeInformation.antt.
mod place {
    use wirebase::Field;

    pub const CODE: usize = 1;

    pub const QTYPE: Field = 4..6;

    pub const FLAGS: Field = 6..8;

    pub const NONCE: Field = 8..16;

    pub const DATA: usize = 16;

    pub const TTL: Field = 0..4;

    pub const ADDRESS: usize = 4;
}

// The types of queries about addresses.
const NODE_ADDRESSES: u16 = 3;

const IPV4_ADDRESSES: u16 = 4;

// The codes of queries about an address of IPv6 and about one of IPv4, and of an answer that tells something.
const SUBJECT_IPV6: u8 = 0;

const SUBJECT_IPV4: u8 = 2;

const SUCCESS: u8 = 0;

// The octets of addresses.
const IPV6_LEN: usize = 16;

const IPV4_LEN: usize = 4;

// Why a message is refused, where it is.
pub(crate) fn wrong_node(message: &[u8]) -> Option<Refusal>
    ensures { result ≡ wrong_node message.now }
{
    if message.len() < place::DATA {
        return Some(Refusal::Length);
    }
    None
}

// Why an answer is refused, where it is.
pub(crate) fn wrong_reply(message: &[u8]) -> Option<Refusal>
    ensures { result ≡ wrong_reply message.now }
{
    if message.len() < place::DATA {
        return Some(Refusal::Length);
    }
    let (_, data) = message.split_at(place::DATA);
    if is_cut(message[place::CODE], message.u16_at(place::QTYPE), data) {
        return Some(Refusal::Cut);
    }
    None
}

// Whether the last address of an answer is cut.
fn is_cut(code: u8, qtype: u16, data: &[u8]) -> bool
    ensures { result ≡ is_cut code qtype «data».now }
{
    match (code, qtype) {
        (SUCCESS, NODE_ADDRESSES) => data.len() % (place::ADDRESS + IPV6_LEN) > 0,
        (SUCCESS, IPV4_ADDRESSES) => data.len() % (place::ADDRESS + IPV4_LEN) > 0,
        _ => false,
    }
}

// Prints a query, and the node that it is about.
pub(crate) fn show_query<W: Write>(output: &mut W, form: Form, message: &[u8]) -> io::Result<()>
    requires { 16 ≤ length message.now }
    ensures { OnOk result (Prints form (W.contents output.old) (W.contents output.new)
        (query_items message.now)) }
{
    let (_, data) = message.split_at(place::DATA);
    show_fields(output, form, message)?;
    show_subject(output, form, message[place::CODE], data)
}

// Prints an answer.
pub(crate) fn show_reply<W: Write>(output: &mut W, form: Form, message: &[u8]) -> io::Result<()>
    requires { 16 ≤ length message.now }
    ensures { OnOk result (Prints form (W.contents output.old) (W.contents output.new)
        (reply_items message.now)) }
{
    let (_, data) = message.split_at(place::DATA);
    let qtype = message.u16_at(place::QTYPE);
    show_fields(output, form, message)?;
    show_answer(output, form, message[place::CODE], qtype, data)
}

fn show_fields<W: Write>(output: &mut W, form: Form, message: &[u8]) -> io::Result<()>
    requires { 16 ≤ length message.now }
    ensures { OnOk result (Prints form (W.contents output.old) (W.contents output.new)
        (fields_items message.now)) }
{
    let qtype = message.u16_at(place::QTYPE);
    let nonce = message.field(place::NONCE);
    named(output, form, "qtype", qtype as u64, qtype_name(qtype))?;
    show_flags(output, form, qtype, message.u16_at(place::FLAGS))?;
    field(output, form, "nonce", nonce)
}

// The name of a type of queries.
fn qtype_name(qtype: u16) -> Option<&'static str>
    ensures { option_map (λ name. name.now) result ≡ name_in qtype_names qtype }
{
    match qtype {
        0 => Some("noop"),
        2 => Some("node_name"),
        3 => Some("node_addresses"),
        4 => Some("ipv4_addresses"),
        _ => None,
    }
}

// Prints the flags of a query of this type, or of its answer.
fn show_flags<W: Write>(output: &mut W, form: Form, qtype: u16, bits: u16) -> io::Result<()>
    ensures { OnOk result (Prints form (W.contents output.old) (W.contents output.new)
        (flags_items qtype bits)) }
{
    match qtype {
        NODE_ADDRESSES | IPV4_ADDRESSES => show_address_flags(output, form, bits),
        _ => show_other_flags(output, form, bits),
    }
}

#[tactic(auto, unfolding(crate::specs::NodeInformation::address_flags))]
fn show_address_flags<W: Write>(output: &mut W, form: Form, bits: u16) -> io::Result<()>
    ensures { OnOk result (Prints form (W.contents output.old) (W.contents output.new)
        (named_flags address_flags bits)) }
{
    let flags = Flags {
        rows: ADDRESS_FLAGS,
        bits,
    };
    field(output, form, "flags", flags)
}

#[tactic(auto, unfolding(crate::specs::NodeInformation::other_flags))]
fn show_other_flags<W: Write>(output: &mut W, form: Form, bits: u16) -> io::Result<()>
    ensures { OnOk result (Prints form (W.contents output.old) (W.contents output.new)
        (named_flags other_flags bits)) }
{
    let flags = Flags {
        rows: OTHER_FLAGS,
        bits,
    };
    field(output, form, "flags", flags)
}

// Prints the node that a query of this code is about, by its data.
fn show_subject<W: Write>(output: &mut W, form: Form, code: u8, data: &[u8]) -> io::Result<()>
    ensures { OnOk result (Prints form (W.contents output.old) (W.contents output.new)
        (subject_items code «data».now)) }
{
    match code {
        SUBJECT_IPV6 => show_address_or_data(output, form, IPV6_LEN, data),
        SUBJECT_IPV4 => show_address_or_data(output, form, IPV4_LEN, data),
        _ => show_data(output, form, data),
    }
}

// Prints an address of so many octets, or other data.
fn show_address_or_data<W: Write>(
    output: &mut W,
    form: Form,
    width: usize,
    data: &[u8],
) -> io::Result<()>
    ensures { OnOk result (Prints form (W.contents output.old) (W.contents output.new)
        (address_or_data width «data».now)) }
{
    if data.len() != width {
        return show_data(output, form, data);
    }
    show_address(output, form, data)
}

fn show_address<W: Write>(output: &mut W, form: Form, octets: &[u8]) -> io::Result<()>
    ensures { OnOk result (Prints form (W.contents output.old) (W.contents output.new)
        (subject_addr_items octets.now)) }
{
    field(output, form, "subject_addr", Address(octets))
}

// Prints data that are not told apart.
fn show_data<W: Write>(output: &mut W, form: Form, octets: &[u8]) -> io::Result<()>
    ensures { OnOk result (Prints form (W.contents output.old) (W.contents output.new)
        (data_items octets.now)) }
{
    field(output, form, "data", octets)
}

// Prints the answer to a query of this type, by its data.
fn show_answer<W: Write>(
    output: &mut W,
    form: Form,
    code: u8,
    qtype: u16,
    data: &[u8],
) -> io::Result<()>
    ensures { OnOk result (Prints form (W.contents output.old) (W.contents output.new)
        (answer_items code qtype «data».now)) }
{
    match (code, qtype) {
        (SUCCESS, NODE_ADDRESSES) => {
            show_parts::<AddressesV6, W>(output, form, "addresses", data.len(), data)
        }
        (SUCCESS, IPV4_ADDRESSES) => {
            show_parts::<AddressesV4, W>(output, form, "addresses", data.len(), data)
        }
        _ => show_data(output, form, data),
    }
}

/// Addresses of IPv6, each after its time to live.
pub struct AddressesV6;

impl Part for AddressesV6 {
    ghost part_len = { entry_len 16 };

    ghost entry_of = { address_entry 16 };

    fn len_of(octets: &[u8]) -> usize {
        entry_len(IPV6_LEN, octets)
    }

    fn show<W: Write>(output: &mut W, form: Form, is_first: bool, part: &[u8]) -> io::Result<()> {
        show_entry(output, form, is_first, IPV6_LEN, part)
    }
}

/// Addresses of IPv4, each after its time to live.
pub struct AddressesV4;

impl Part for AddressesV4 {
    ghost part_len = { entry_len 4 };

    ghost entry_of = { address_entry 4 };

    fn len_of(octets: &[u8]) -> usize {
        entry_len(IPV4_LEN, octets)
    }

    fn show<W: Write>(output: &mut W, form: Form, is_first: bool, part: &[u8]) -> io::Result<()> {
        show_entry(output, form, is_first, IPV4_LEN, part)
    }
}

// The octets of the first address with its time to live, all where it is cut.
fn entry_len(width: usize, octets: &[u8]) -> usize
    requires some { 1 ≤ length octets.now }
    requires small { width ≤ 16 }
    ensures value { result ≡ entry_len width octets.now }
    ensures some { 1 ≤ result }
    ensures within { result ≤ length octets.now }
{
    octets.len().min(place::ADDRESS + width)
}

// Prints an address.
fn show_entry<W: Write>(
    output: &mut W,
    form: Form,
    is_first: bool,
    width: usize,
    entry: &[u8],
) -> io::Result<()>
    requires { width ≤ 16 }
    ensures { OnOk result (PrintsEntry form is_first (W.contents output.old) (W.contents output.new)
        (address_entry width entry.now)) }
{
    if entry.len() < place::ADDRESS + width {
        let why = "fewer bytes than an address and its time to live";
        return show_cut_entry(output, form, is_first, "address", why, entry);
    }
    show_whole(output, form, is_first, width, entry)
}

fn show_whole<W: Write>(
    output: &mut W,
    form: Form,
    is_first: bool,
    width: usize,
    entry: &[u8],
) -> io::Result<()>
    requires small { width ≤ 16 }
    requires whole { 4 + width ≤ length entry.now }
    ensures { OnOk result (PrintsEntry form is_first (W.contents output.old) (W.contents output.new)
        (whole_entry width entry.now)) }
{
    let address = Address(entry.range(place::ADDRESS, place::ADDRESS + width));
    let ttl = Seconds(entry.u32_at(place::TTL));
    open_entry(output, form, is_first, "entry", "address")?;
    first_cell(output, form, "addr", address)?;
    keyed_cell(output, form, "ttl", ttl)?;
    close_entry(output, form)
}

const ADDRESS_FLAGS: &[Row] = &[
    (0x8000, "0x8000"),
    (0x4000, "0x4000"),
    (0x2000, "0x2000"),
    (0x1000, "0x1000"),
    (0x0800, "0x0800"),
    (0x0400, "0x0400"),
    (0x0200, "0x0200"),
    (0x0100, "0x0100"),
    (0x0080, "0x0080"),
    (0x0040, "0x0040"),
    (0x0020, "global_scope"),
    (0x0010, "site_local"),
    (0x0008, "link_local"),
    (0x0004, "compatible"),
    (0x0002, "all"),
    (0x0001, "truncated"),
];

const OTHER_FLAGS: &[Row] = &[
    (0x8000, "0x8000"),
    (0x4000, "0x4000"),
    (0x2000, "0x2000"),
    (0x1000, "0x1000"),
    (0x0800, "0x0800"),
    (0x0400, "0x0400"),
    (0x0200, "0x0200"),
    (0x0100, "0x0100"),
    (0x0080, "0x0080"),
    (0x0040, "0x0040"),
    (0x0020, "0x0020"),
    (0x0010, "0x0010"),
    (0x0008, "0x0008"),
    (0x0004, "0x0004"),
    (0x0002, "0x0002"),
    (0x0001, "0x0001"),
];
