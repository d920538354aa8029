//! The fields before the options (RFC 2131 section 2).

#![tactic(auto, using(packet_fields::proofs::Fields::prints_both, packet_fields::proofs::Fields::prints_none))]

ghost use Rattle.std.specs.Prelude.{◌≡◌, [], ◌∷◌, OnOk, length};
ghost use Rattle.std.specs.Option.{option_map};
ghost use Rattle.wirebase.specs.Bytes.{Reaches};
ghost use Rattle.dhcp_wire.specs.Dhcpv4Packet.{file_field};
ghost use Rattle.packet_fields.specs.Fields.{field as field_item, text};
ghost use Rattle.packet_fields.specs.Names.{name_in as name_of};
ghost use Rattle.packet_fields.specs.Prints.{Prints};
ghost use Rattle.packet_fields.specs.Texts.{v4_text};
ghost use Rattle.dhcp_fields.specs.Header.{address_items, chaddr_field, client_items, exchange_items, file_items};
ghost use Rattle.dhcp_fields.specs.Header.{fixed_items, flag_items, hardware_address, hardware_items, hardware_names};
ghost use Rattle.dhcp_fields.specs.Header.{name_items, names_items, operations, reserved_items, server_items};
ghost use Rattle.dhcp_fields.specs.Texts.{before_zero};

use crate::texts::{Escaped, before_zero};
use dhcp_options::Overload;
use packet_fields::Form;
use packet_fields::field::{field, named};
use packet_fields::names::{Row, name_in};
use packet_fields::texts::{Flags, v4_of};
use packet_fields::value::{Colons, Seconds};
use std::io;
use std::io::Write;
use wirebase::Octets;

// The fields; their picture is in specs/Dhcpv4Packet.antt of dhcp_wire.
mod place {
    use wirebase::Field;

    pub const OP: Field = 0..1;

    pub const HTYPE: Field = 1..2;

    pub const HLEN: Field = 2..3;

    pub const HOPS: Field = 3..4;

    pub const XID: Field = 4..8;

    pub const SECS: Field = 8..10;

    pub const FLAGS: Field = 10..12;

    pub const CIADDR: Field = 12..16;

    pub const YIADDR: Field = 16..20;

    pub const SIADDR: Field = 20..24;

    pub const GIADDR: Field = 24..28;

    pub const CHADDR: Field = 28..44;

    pub const SNAME: Field = 44..108;

    pub const FILE: Field = 108..236;
}

// The flag that has a name; the bits below it are reserved.
const BROADCAST: u16 = 0x8000;

// The most bytes of a hardware address.
const MOST_HARDWARE: usize = 16;

const OPERATIONS: &[Row] = &[(1, "bootrequest"), (2, "bootreply")];

const HARDWARE_NAMES: &[Row] = &[
    (1, "ethernet"),
    (6, "ieee_802"),
    (7, "arcnet"),
    (15, "frame_relay"),
    (16, "atm"),
    (17, "hdlc"),
    (18, "fibre_channel"),
    (20, "serial_line"),
    (24, "ieee_1394"),
    (27, "eui_64"),
    (32, "infiniband"),
];

const FLAGS: &[Row] = &[(BROADCAST, "broadcast")];

/// Prints the fields up to the hardware address. Requires at least 44 bytes.
pub(crate) fn show_fixed<W: Write>(output: &mut W, form: Form, octets: &[u8]) -> io::Result<()>
    requires { Reaches chaddr_field octets.now }
    ensures { OnOk result (Prints form (W.contents output.old) (W.contents output.new)
        (fixed_items octets.now)) }
{
    show_hardware(output, form, octets)?;
    show_exchange(output, form, octets)?;
    show_addresses(output, form, octets)?;
    show_client(output, form, octets)
}

fn show_hardware<W: Write>(output: &mut W, form: Form, octets: &[u8]) -> io::Result<()>
    requires { Reaches chaddr_field octets.now }
    ensures { OnOk result (Prints form (W.contents output.old) (W.contents output.new)
        (hardware_items octets.now)) }
{
    let op = octets.u8_at(place::OP);
    named(output, form, "op", op as u64, operation(op))?;
    let htype = octets.u8_at(place::HTYPE);
    named(output, form, "htype", htype as u64, hardware_name(htype))?;
    field(output, form, "hlen", octets.u8_at(place::HLEN))?;
    field(output, form, "hops", octets.u8_at(place::HOPS))
}

/// The name of an operation; None where it has none.
pub fn operation(op: u8) -> Option<&'static str>
    ensures { option_map (λ name. name.now) result ≡ name_of operations op }
{
    name_in(OPERATIONS, op as u16)
}

fn hardware_name(htype: u8) -> Option<&'static str>
    ensures { option_map (λ name. name.now) result ≡ name_of hardware_names htype }
{
    name_in(HARDWARE_NAMES, htype as u16)
}

fn show_exchange<W: Write>(output: &mut W, form: Form, octets: &[u8]) -> io::Result<()>
    requires { Reaches chaddr_field octets.now }
    ensures { OnOk result (Prints form (W.contents output.old) (W.contents output.new)
        (exchange_items octets.now)) }
{
    field(output, form, "transaction_id", octets.u32_at(place::XID))?;
    field(
        output,
        form,
        "secs",
        Seconds(octets.u16_at(place::SECS) as u32),
    )?;
    show_flags(output, form, octets.u16_at(place::FLAGS))
}

fn show_flags<W: Write>(output: &mut W, form: Form, bits: u16) -> io::Result<()>
    ensures { OnOk result (Prints form (W.contents output.old) (W.contents output.new)
        (flag_items bits)) }
{
    field(output, form, "flags", Flags { rows: FLAGS, bits })?;
    show_reserved(output, form, bits % BROADCAST)
}

// Prints the bits of the flags that have no name, where some are set.
fn show_reserved<W: Write>(output: &mut W, form: Form, bits: u16) -> io::Result<()>
    ensures { OnOk result (Prints form (W.contents output.old) (W.contents output.new)
        (reserved_items bits)) }
{
    if bits == 0 {
        return Ok(());
    }
    field(output, form, "reserved_flags", bits)
}

fn show_addresses<W: Write>(output: &mut W, form: Form, octets: &[u8]) -> io::Result<()>
    requires { Reaches chaddr_field octets.now }
    ensures { OnOk result (Prints form (W.contents output.old) (W.contents output.new)
        (address_items octets.now)) }
{
    show_address(output, form, "client_ip", octets.field(place::CIADDR))?;
    show_address(output, form, "your_ip", octets.field(place::YIADDR))?;
    show_address(output, form, "server_ip", octets.field(place::SIADDR))?;
    show_address(output, form, "relay_agent_ip", octets.field(place::GIADDR))
}

fn show_address<W: Write>(output: &mut W, form: Form, key: &str, octets: &[u8]) -> io::Result<()>
    requires { length octets.now ≡ 4 }
    ensures { OnOk result (Prints form (W.contents output.old) (W.contents output.new)
        (field_item key.now (text (v4_text octets.now)) ∷ [])) }
{
    field(output, form, key, v4_of(octets))
}

fn show_client<W: Write>(output: &mut W, form: Form, octets: &[u8]) -> io::Result<()>
    requires { Reaches chaddr_field octets.now }
    ensures { OnOk result (Prints form (W.contents output.old) (W.contents output.new)
        (client_items octets.now)) }
{
    field(
        output,
        form,
        "client_hardware_address",
        Colons(hardware_address(octets)),
    )
}

/// The hardware address, of as many bytes as are counted and there is room for. Requires at least 44 bytes.
pub fn hardware_address(octets: &[u8]) -> &[u8]
    requires { Reaches chaddr_field octets.now }
    ensures { result.now ≡ hardware_address octets.now }
{
    let len = octets.u8_at(place::HLEN) as usize;
    let (_, rest) = octets.split_at(place::CHADDR.start);
    &rest[..len.min(MOST_HARDWARE)]
}

/// Prints the names of the server and of the boot file, in the fields that hold no options. Requires at least 236
/// bytes.
pub(crate) fn show_names<W: Write>(
    output: &mut W,
    form: Form,
    overload: Option<Overload>,
    octets: &[u8],
) -> io::Result<()>
    requires { Reaches file_field octets.now }
    ensures { OnOk result (Prints form (W.contents output.old) (W.contents output.new)
        (names_items overload octets.now)) }
{
    match overload {
        None => {
            show_server(output, form, octets)?;
            show_file(output, form, octets)
        }
        Some(Overload::File) => show_server(output, form, octets),
        Some(Overload::Sname) => show_file(output, form, octets),
        Some(Overload::FileAndSname) => Ok(()),
    }
}

fn show_server<W: Write>(output: &mut W, form: Form, octets: &[u8]) -> io::Result<()>
    requires { Reaches file_field octets.now }
    ensures { OnOk result (Prints form (W.contents output.old) (W.contents output.new)
        (server_items octets.now)) }
{
    show_name(
        output,
        form,
        "server_name",
        before_zero(octets.field(place::SNAME)),
    )
}

fn show_file<W: Write>(output: &mut W, form: Form, octets: &[u8]) -> io::Result<()>
    requires { Reaches file_field octets.now }
    ensures { OnOk result (Prints form (W.contents output.old) (W.contents output.new)
        (file_items octets.now)) }
{
    show_name(
        output,
        form,
        "boot_file",
        before_zero(octets.field(place::FILE)),
    )
}

// Prints a name where it has a byte.
fn show_name<W: Write>(output: &mut W, form: Form, key: &str, name: &[u8]) -> io::Result<()>
    ensures { OnOk result (Prints form (W.contents output.old) (W.contents output.new)
        (name_items key.now name.now)) }
{
    if name.is_empty() {
        return Ok(());
    }
    field(output, form, key, Escaped(name))
}
