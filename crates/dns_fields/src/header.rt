//! The header of a message (RFC 1035 section 4.1.1, RFC 4795 section 2.1.1, RFC 1002 section 4.2.1.1).

#![tactic(auto, using(packet_fields::proofs::Fields::prints_both))]

ghost use Rattle.std.specs.Prelude.{◌≡◌, OnOk};
ghost use Rattle.std.specs.Option.{option_map};
ghost use Rattle.dns_wire.specs.DnsPacket.{header as header_field, opcode_in, rcode_in};
ghost use Rattle.wirebase.specs.Bytes.{Reaches};
ghost use Rattle.packet_fields.specs.Names.{name_in as name_of, rows_of};
ghost use Rattle.packet_fields.specs.Prints.{Prints};
ghost use Rattle.dns_fields.specs.Header.{flag_rows, flags_items, header_items, opcode_items, opcode_rows, rcode_items};
ghost use Rattle.dns_fields.specs.Header.{rcode_rows, word_in, word_items};

use crate::kind::Kind;
use packet_fields::Form;
use packet_fields::field::{field, named};
use packet_fields::names::{Row, name_in};
use packet_fields::texts::Flags;
use std::io;
use std::io::Write;
use wirebase::Octets;

// The fields of the header; their picture is in specs/DnsPacket.antt of dns_wire.
mod field_of {
    use wirebase::Field;

    pub const ID: Field = 0..2;

    pub const WORD: Field = 2..4;
}

/// Prints the fields of the header, but for the numbers of questions and records. Requires at least 12 bytes.
pub(crate) fn show_header<W: Write>(
    output: &mut W,
    form: Form,
    kind: Kind,
    octets: &[u8],
) -> io::Result<()>
    requires { Reaches header_field octets.now }
    ensures { OnOk result (Prints form (W.contents output.old) (W.contents output.new) (header_items kind octets.now)) }
{
    field(output, form, "transaction_id", octets.u16_at(field_of::ID))?;
    show_word(output, form, kind, word_of(octets))
}

/// The word of the header that has the flags, the kind of query and the outcome. Requires at least 12 bytes.
pub fn word_of(octets: &[u8]) -> u16
    requires { Reaches header_field octets.now }
    ensures { result ≡ word_in octets.now }
{
    octets.u16_at(field_of::WORD)
}

// Prints what is in that word.
fn show_word<W: Write>(output: &mut W, form: Form, kind: Kind, word: u16) -> io::Result<()>
    ensures { OnOk result (Prints form (W.contents output.old) (W.contents output.new) (word_items kind word)) }
{
    show_flags(output, form, kind, word)?;
    show_opcode(output, form, kind, word)?;
    show_rcode(output, form, kind, word)
}

// Prints the names of the flags that are set.
fn show_flags<W: Write>(output: &mut W, form: Form, kind: Kind, word: u16) -> io::Result<()>
    ensures { OnOk result (Prints form (W.contents output.old) (W.contents output.new) (flags_items kind word)) }
{
    let flags = Flags {
        rows: flag_rows(kind),
        bits: word,
    };
    field(output, form, "flags", flags)
}

// The flags of a kind of messages.
#[tactic(auto, unfolding(crate::specs::Header::dns_flags, // the rows of each kind
crate::specs::Header::llmnr_flags, crate::specs::Header::nbns_flags))]
fn flag_rows(kind: Kind) -> &'static [Row]
    ensures { rows_of result.now ≡ flag_rows kind }
{
    match kind {
        Kind::Llmnr => LLMNR_FLAGS,
        Kind::Nbns => NBNS_FLAGS,
        Kind::Dns | Kind::Mdns => DNS_FLAGS,
    }
}

// Prints the kind of query.
fn show_opcode<W: Write>(output: &mut W, form: Form, kind: Kind, word: u16) -> io::Result<()>
    ensures { OnOk result (Prints form (W.contents output.old) (W.contents output.new) (opcode_items kind word)) }
{
    let opcode = opcode_of(word);
    named(
        output,
        form,
        "opcode",
        u64::from(opcode),
        opcode_name(kind, word),
    )
}

/// The name of the kind of query in a word of the header; None where it has none here.
pub fn opcode_name(kind: Kind, word: u16) -> Option<&'static str>
    ensures { option_map (λ name. name.now) result ≡ name_of (opcode_rows kind) (opcode_in word) }
{
    name_in(opcode_rows(kind), opcode_of(word))
}

/// The kind of query in a word of the header.
pub fn opcode_of(word: u16) -> u16
    ensures { result ≡ opcode_in word }
{
    (word >> 11) % 16
}

#[tactic(auto, unfolding(crate::specs::Header::dns_opcodes, crate::specs::Header::nbns_opcodes))]
fn opcode_rows(kind: Kind) -> &'static [Row]
    ensures { rows_of result.now ≡ opcode_rows kind }
{
    match kind {
        Kind::Nbns => NBNS_OPCODES,
        Kind::Dns | Kind::Mdns | Kind::Llmnr => DNS_OPCODES,
    }
}

// Prints the outcome.
fn show_rcode<W: Write>(output: &mut W, form: Form, kind: Kind, word: u16) -> io::Result<()>
    ensures { OnOk result (Prints form (W.contents output.old) (W.contents output.new) (rcode_items kind word)) }
{
    let rcode = rcode_of(word);
    named(
        output,
        form,
        "rcode",
        u64::from(rcode),
        rcode_name(kind, word),
    )
}

/// The outcome in a word of the header.
pub fn rcode_of(word: u16) -> u16
    ensures { result ≡ rcode_in word }
{
    word % 16
}

/// The name of the outcome in a word of the header; None where it has none here.
pub fn rcode_name(kind: Kind, word: u16) -> Option<&'static str>
    ensures { option_map (λ name. name.now) result ≡ name_of (rcode_rows kind) (rcode_in word) }
{
    name_in(rcode_rows(kind), rcode_of(word))
}

#[tactic(auto, unfolding(crate::specs::Header::dns_rcodes, crate::specs::Header::nbns_rcodes))]
fn rcode_rows(kind: Kind) -> &'static [Row]
    ensures { rows_of result.now ≡ rcode_rows kind }
{
    match kind {
        Kind::Nbns => NBNS_RCODES,
        Kind::Dns | Kind::Mdns | Kind::Llmnr => DNS_RCODES,
    }
}

const DNS_FLAGS: &[Row] = &[
    (0x8000, "qr"),
    (0x0400, "aa"),
    (0x0200, "tc"),
    (0x0100, "rd"),
    (0x0080, "ra"),
    (0x0040, "z"),
    (0x0020, "ad"),
    (0x0010, "cd"),
];

const LLMNR_FLAGS: &[Row] = &[
    (0x8000, "qr"),
    (0x0400, "c"),
    (0x0200, "tc"),
    (0x0100, "t"),
    (0x0080, "z1"),
    (0x0040, "z2"),
    (0x0020, "z3"),
    (0x0010, "z4"),
];

const NBNS_FLAGS: &[Row] = &[
    (0x8000, "qr"),
    (0x0400, "aa"),
    (0x0200, "tc"),
    (0x0100, "rd"),
    (0x0080, "ra"),
    (0x0040, "z1"),
    (0x0020, "z2"),
    (0x0010, "b"),
];

const DNS_OPCODES: &[Row] = &[
    (0, "QUERY"),
    (1, "IQUERY"),
    (2, "STATUS"),
    (4, "NOTIFY"),
    (5, "UPDATE"),
    (6, "DSO"),
];

const NBNS_OPCODES: &[Row] = &[
    (0, "QUERY"),
    (5, "REGISTRATION"),
    (6, "RELEASE"),
    (7, "WACK"),
    (8, "REFRESH"),
    (9, "REFRESH"),
    (15, "MULTIHOMED_REGISTRATION"),
];

const DNS_RCODES: &[Row] = &[
    (0, "NOERROR"),
    (1, "FORMERR"),
    (2, "SERVFAIL"),
    (3, "NXDOMAIN"),
    (4, "NOTIMP"),
    (5, "REFUSED"),
    (6, "YXDOMAIN"),
    (7, "YXRRSET"),
    (8, "NXRRSET"),
    (9, "NOTAUTH"),
    (10, "NOTZONE"),
    (11, "DSOTYPENI"),
];

const NBNS_RCODES: &[Row] = &[
    (0, "NOERROR"),
    (1, "FMT_ERR"),
    (2, "SRV_ERR"),
    (3, "NAM_ERR"),
    (4, "IMP_ERR"),
    (5, "RFS_ERR"),
    (6, "ACT_ERR"),
    (7, "CFT_ERR"),
];
