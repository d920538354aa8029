//! Packets of DHCP (RFC 2131 section 2).

#![tactic(auto, using(packet_fields::proofs::Fields::prints_both))]

ghost use Rattle.std.specs.Prelude.{IfOk, OnOk};
ghost use Rattle.wirebase.specs.Bytes.{Reaches};
ghost use Rattle.dhcp_wire.specs.Dhcpv4Packet.{magic_field};
ghost use Rattle.packet_fields.specs.Prints.{Prints, PrintsSome};
ghost use Rattle.dhcp_fields.specs.Dhcp.{PacketIs, bare_items, cut_items, short_items, unread_items};
ghost use Rattle.dhcp_fields.specs.Header.{chaddr_field};

use crate::header::{show_fixed, show_names};
use crate::options::show_options;
use crate::refusal::{Refusal, first_cut, show_refused};
use dhcp_options::{Overload, Parts};
use packet_fields::Form;
use packet_fields::field::field;
use std::io;
use std::io::Write;
use wirebase::{Field, Octets};

// Where the fields up to the hardware address end.
const FIXED_END: usize = 44;

const MAGIC_NUMBER: Field = 236..240;

// Where the options begin.
const OPTIONS: usize = 240;

// The number before the options (RFC 2131 section 3).
const MAGIC_COOKIE: u32 = 0x6382_5363;

/// Prints a packet: its fields, and a list of its options, also of those in the fields `file` and `sname` where option
/// 52 says that these hold options (RFC 2132 section 9.3), each joined from its parts (RFC 3396), in the order of their
/// first parts. An option in several parts that have more than 1,500 bytes is printed without its value. Of a packet
/// that can't be read whole it prints what can be read, and why, which is also the result: it has too few bytes, or no
/// magic cookie, or this is the first of its options that is cut.
pub fn show_dhcp<W: Write>(output: &mut W, form: Form, octets: &[u8]) -> io::Result<Option<Refusal>>
    ensures { IfOk result (λ refused. PrintsSome form (W.contents output.old) (W.contents output.new)
        (λ items. PacketIs octets.now items refused)) }
{
    if octets.len() < OPTIONS {
        show_short(output, form, octets)?;
        return Ok(Some(Refusal::Short));
    }
    if octets.u32_at(MAGIC_NUMBER) != MAGIC_COOKIE {
        show_bare(output, form, octets)?;
        return Ok(Some(Refusal::MagicCookie));
    }
    show_fixed(output, form, octets)?;
    show_names(output, form, Overload::of(octets), octets)?;
    show_options(output, form, octets)?;
    let refused = first_cut(Parts::of(octets));
    show_refused(output, form, refused)?;
    Ok(refused)
}

// Prints fewer than 240 bytes.
fn show_short<W: Write>(output: &mut W, form: Form, octets: &[u8]) -> io::Result<()>
    ensures { OnOk result (Prints form (W.contents output.old) (W.contents output.new)
        (short_items octets.now)) }
{
    if octets.len() < FIXED_END {
        show_unread(output, form, Refusal::Short, octets)
    } else {
        show_cut(output, form, octets)
    }
}

// Prints the fields that are there of a packet that is cut behind the hardware address.
fn show_cut<W: Write>(output: &mut W, form: Form, octets: &[u8]) -> io::Result<()>
    requires { Reaches chaddr_field octets.now }
    ensures { OnOk result (Prints form (W.contents output.old) (W.contents output.new)
        (cut_items octets.now)) }
{
    let (_, rest) = octets.split_at(FIXED_END);
    show_fixed(output, form, octets)?;
    show_unread(output, form, Refusal::Short, rest)
}

// Prints a packet without the magic cookie.
fn show_bare<W: Write>(output: &mut W, form: Form, octets: &[u8]) -> io::Result<()>
    requires { Reaches magic_field octets.now }
    ensures { OnOk result (Prints form (W.contents output.old) (W.contents output.new)
        (bare_items octets.now)) }
{
    let (_, rest) = octets.split_at(MAGIC_NUMBER.start);
    show_fixed(output, form, octets)?;
    show_names(output, form, None, octets)?;
    show_unread(output, form, Refusal::MagicCookie, rest)
}

// Prints why octets are not read, and the octets.
fn show_unread<W: Write>(
    output: &mut W,
    form: Form,
    refused: Refusal,
    octets: &[u8],
) -> io::Result<()>
    ensures { OnOk result (Prints form (W.contents output.old) (W.contents output.new)
        (unread_items refused octets.now)) }
{
    show_refused(output, form, Some(refused))?;
    field(output, form, "rest", octets)
}
