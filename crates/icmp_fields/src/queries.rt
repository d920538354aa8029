//! Messages of ICMPv4 beside echoes and errors: timestamps (RFC 792), address masks (RFC 950), and the solicitations
//! and advertisements of routers (RFC 1256), among these the advertisements of mobility agents (RFC 5944).

#![tactic(auto, using(packet_fields::proofs::Fields::prints_both))]

ghost use Rattle.std.specs.Prelude.{◌≡◌, ◌≤◌, ◌∷◌, [], OnOk, codes, length};
ghost use Rattle.packet_fields.specs.Entries.{PrintsEntry};
ghost use Rattle.packet_fields.specs.Fields.{entries as entries_item};
ghost use Rattle.packet_fields.specs.Prints.{Prints, PrintsCells};
ghost use Rattle.packet_fields.specs.private.Entries.{PrintsEntries};
ghost use Rattle.icmp_fields.specs.Queries.{wrong_fixed, wrong_routers, wrong_advertisement, routers_end};
ghost use Rattle.icmp_fields.specs.Queries.{times_items, timestamp_items, mask_items, spare_cells, router_entry};
ghost use Rattle.icmp_fields.specs.Queries.{router_entries, router_or_cut, words_in, advertisement_items};

use crate::icmp::{HEADER_END, show_additional, show_cut_entry, show_ids};
use crate::refusal::Refusal;
use crate::texts::Signed;
use packet_fields::Form;
use packet_fields::entry::{
    close_entry, close_list, first_cell, keyed_cell, open_entry, open_list,
};
use packet_fields::field::field;
use packet_fields::texts::Address;
use packet_fields::value::Seconds;
use std::io;
use std::io::Write;
use wirebase::Octets;

// The fields of messages, and of the entry of a router; their pictures are in specs/Queries.antt.
mod place {
    use wirebase::Field;

    pub const CODE: usize = 1;

    pub const ORIGINATE: Field = 8..12;

    pub const RECEIVE: Field = 12..16;

    pub const TRANSMIT: Field = 16..20;

    pub const TIMESTAMP_END: usize = 20;

    pub const MASK: Field = 8..12;

    pub const MASK_END: usize = 12;

    pub const ROUTER_COUNT: usize = 4;

    pub const ENTRY_WORDS: usize = 5;

    pub const LIFETIME: Field = 6..8;

    pub const ROUTER_ADDR: Field = 0..4;

    pub const PREFERENCE_LEVEL: Field = 4..8;

    pub const PREFERENCE_LEVEL_END: usize = 8;
}

// The bytes of a timestamp, of an address mask and of a solicitation.
pub(crate) const TIMESTAMP_LEN: usize = place::TIMESTAMP_END;

pub(crate) const MASK_LEN: usize = place::MASK_END;

// The bytes of a word, and the words of an entry that are told apart.
const WORD: usize = 4;

const ROUTER_WORDS: u8 = 2;

// The codes of an advertisement: that of any router, and that of a mobility agent that routes no common traffic
// (RFC 5944 section 2.1).
const NORMAL: u8 = 0;

const NO_COMMON_TRAFFIC: u8 = 16;

// Why a message of so many bytes is refused, where it is.
pub(crate) fn wrong_fixed(len: usize, message: &[u8]) -> Option<Refusal>
    requires { 8 ≤ length message.now }
    ensures { result ≡ wrong_fixed len message.now }
{
    let code = message[place::CODE];
    if code != 0 {
        return Some(Refusal::Code(code));
    }
    if message.len() < len {
        return Some(Refusal::Length);
    }
    None
}

// Why an advertisement is refused, where it is.
pub(crate) fn wrong_advertisement(message: &[u8]) -> Option<Refusal>
    requires { 8 ≤ length message.now }
    ensures { result ≡ wrong_advertisement message.now }
{
    match message[place::CODE] {
        NORMAL | NO_COMMON_TRAFFIC => wrong_routers(message),
        code => Some(Refusal::Code(code)),
    }
}

fn wrong_routers(message: &[u8]) -> Option<Refusal>
    requires { 8 ≤ length message.now }
    ensures { result ≡ wrong_routers message.now }
{
    if message[place::ROUTER_COUNT] == 0 {
        return Some(Refusal::NoRouters);
    }
    let words = message[place::ENTRY_WORDS];
    if words < ROUTER_WORDS {
        return Some(Refusal::EntrySize(words));
    }
    if message.len() < routers_end(message) {
        return Some(Refusal::Cut);
    }
    None
}

// Where the entries of an advertisement end.
fn routers_end(message: &[u8]) -> usize
    requires { 8 ≤ length message.now }
    ensures { result ≡ routers_end message.now }
{
    let width = WORD * message[place::ENTRY_WORDS] as usize;
    HEADER_END + width * message[place::ROUTER_COUNT] as usize
}

// Prints a request for the time, or its answer.
pub(crate) fn show_timestamp<W: Write>(output: &mut W, form: Form, message: &[u8]) -> io::Result<()>
    requires { 20 ≤ length message.now }
    ensures { OnOk result (Prints form (W.contents output.old) (W.contents output.new)
        (timestamp_items message.now)) }
{
    let (_, behind) = message.split_at(place::TIMESTAMP_END);
    show_ids(output, form, message)?;
    show_times(output, form, message)?;
    show_additional(output, form, behind)
}

fn show_times<W: Write>(output: &mut W, form: Form, message: &[u8]) -> io::Result<()>
    requires { 20 ≤ length message.now }
    ensures { OnOk result (Prints form (W.contents output.old) (W.contents output.new)
        (times_items message.now)) }
{
    field(output, form, "originate", message.u32_at(place::ORIGINATE))?;
    field(output, form, "receive", message.u32_at(place::RECEIVE))?;
    field(output, form, "transmit", message.u32_at(place::TRANSMIT))
}

// Prints a request for the address mask of a network, or its answer.
pub(crate) fn show_mask<W: Write>(output: &mut W, form: Form, message: &[u8]) -> io::Result<()>
    requires { 12 ≤ length message.now }
    ensures { OnOk result (Prints form (W.contents output.old) (W.contents output.new)
        (mask_items message.now)) }
{
    let mask = message.field(place::MASK);
    let (_, behind) = message.split_at(place::MASK_END);
    show_ids(output, form, message)?;
    field(output, form, "mask", Address(mask))?;
    show_additional(output, form, behind)
}

// Prints an advertisement.
pub(crate) fn show_advertisement<W: Write>(
    output: &mut W,
    form: Form,
    message: &[u8],
) -> io::Result<()>
    requires long { 8 ≤ length message.now }
    requires wide { 2 ≤ words_in message.now }
    ensures { OnOk result (Prints form (W.contents output.old) (W.contents output.new)
        (advertisement_items message.now)) }
{
    let lifetime = Seconds(message.u16_at(place::LIFETIME) as u32);
    let width = WORD * message[place::ENTRY_WORDS] as usize;
    let (_, routers) = message.split_at(HEADER_END);
    let (_, behind) = message.split_at(message.len().min(routers_end(message)));
    field(output, form, "lifetime", lifetime)?;
    show_routers(output, form, width, message[place::ROUTER_COUNT], routers)?;
    show_additional(output, form, behind)
}

// Prints so many routers of so many bytes each, or as many as there are.
fn show_routers<W: Write>(
    output: &mut W,
    form: Form,
    width: usize,
    count: u8,
    octets: &[u8],
) -> io::Result<()>
    requires { 8 ≤ width }
    ensures { OnOk result (Prints form (W.contents output.old) (W.contents output.new)
        (entries_item (codes "routers") (router_entries width count octets.now) ∷ [])) }
{
    open_list(output, form, "routers")?;
    show_each(output, form, width, count, octets)?;
    close_list(output, form)
}

fn show_each<W: Write>(
    output: &mut W,
    form: Form,
    width: usize,
    count: u8,
    octets: &[u8],
) -> io::Result<()>
    requires { 8 ≤ width }
    ensures { OnOk result (PrintsEntries form (W.contents output.old) (W.contents output.new)
        (router_entries width count octets.now)) }
{
    let mut rest = octets;
    let mut left = count;
    let mut is_first = true;
    while left > 0 && !rest.is_empty() {
        let (router, others) = rest.split_at(rest.len().min(width));
        show_router_or_cut(output, form, is_first, width, router)?;
        rest = others;
        left -= 1;
        is_first = false;
    }
    Ok(())
}

// Prints a router, or the octets of one that is cut.
fn show_router_or_cut<W: Write>(
    output: &mut W,
    form: Form,
    is_first: bool,
    width: usize,
    entry: &[u8],
) -> io::Result<()>
    requires { 8 ≤ width }
    ensures { OnOk result (PrintsEntry form is_first (W.contents output.old) (W.contents output.new)
        (router_or_cut width entry.now)) }
{
    if entry.len() < width {
        let why = "fewer bytes than an entry has";
        return show_cut_entry(output, form, is_first, "router", why, entry);
    }
    show_router(output, form, is_first, entry)
}

fn show_router<W: Write>(output: &mut W, form: Form, is_first: bool, entry: &[u8]) -> io::Result<()>
    requires { 8 ≤ length entry.now }
    ensures { OnOk result (PrintsEntry form is_first (W.contents output.old) (W.contents output.new)
        (router_entry entry.now)) }
{
    let addr = entry.field(place::ROUTER_ADDR);
    let level = Signed(entry.u32_at(place::PREFERENCE_LEVEL));
    let (_, spare) = entry.split_at(place::PREFERENCE_LEVEL_END);
    open_entry(output, form, is_first, "entry", "router")?;
    first_cell(output, form, "addr", Address(addr))?;
    keyed_cell(output, form, "preference_level", level)?;
    show_spare(output, form, spare)?;
    close_entry(output, form)
}

// Prints further words of an entry, where there are any.
#[tactic(auto, using(packet_fields::proofs::Fields::cells_none))]
pub(crate) fn show_spare<W: Write>(output: &mut W, form: Form, octets: &[u8]) -> io::Result<()>
    ensures { OnOk result (PrintsCells form (W.contents output.old) (W.contents output.new)
        (spare_cells octets.now)) }
{
    if octets.is_empty() {
        return Ok(());
    }
    keyed_cell(output, form, "additional_data", octets)
}
