//! What messages of several protocols have in common.

#![tactic(auto, using(packet_fields::proofs::Fields::prints_none))]

ghost use Rattle.std.specs.Prelude.{◌≡◌, ◌≤◌, OnOk, length};
ghost use Rattle.std.specs.Option.{option_map};
ghost use Rattle.wirebase.specs.Duration.{millis_of};
ghost use Rattle.packet_fields.specs.Names.{name_in as name_of};
ghost use Rattle.packet_fields.specs.Prints.{Prints};
ghost use Rattle.neighbor_fields.specs.Lack.{lack_items};
ghost use Rattle.neighbor_fields.specs.Messages.{additional_items, cut_items, head_items, type_names};

use crate::lack::Lack;
use packet_fields::Form;
use packet_fields::field::{field, named};
use packet_fields::names::{Row, name_in};
use std::io;
use std::io::Write;
use wirebase::Duration;

// The octets of type, code and checksum of a message of ICMPv6.
pub(crate) const HEAD_LEN: usize = 4;

// Prints type and code of a message of ICMPv6.
pub(crate) fn show_head<W: Write>(output: &mut W, form: Form, message: &[u8]) -> io::Result<()>
    requires { 4 ≤ length message.now }
    ensures { OnOk result (Prints form (W.contents output.old) (W.contents output.new)
        (head_items message.now)) }
{
    let type_ = message[0];
    named(output, form, "type", type_ as u64, type_name(type_))?;
    named(output, form, "code", message[1] as u64, None)
}

// Prints octets that are cut within fields.
pub(crate) fn show_cut<W: Write>(output: &mut W, form: Form, octets: &[u8]) -> io::Result<()>
    ensures { OnOk result (Prints form (W.contents output.old) (W.contents output.new)
        (cut_items octets.now)) }
{
    field(output, form, "data", octets)?;
    field(output, form, "refused", Lack::Fields.phrase())
}

// Prints of what there is less than is counted, where that is so.
pub(crate) fn show_lack<W: Write>(output: &mut W, form: Form, lack: Option<Lack>) -> io::Result<()>
    ensures { OnOk result (Prints form (W.contents output.old) (W.contents output.new)
        (lack_items lack)) }
{
    match lack {
        Some(lack) => field(output, form, "refused", lack.phrase()),
        None => Ok(()),
    }
}

// Prints the octets behind all that is counted, where there are any.
pub(crate) fn show_additional<W: Write>(output: &mut W, form: Form, octets: &[u8]) -> io::Result<()>
    ensures { OnOk result (Prints form (W.contents output.old) (W.contents output.new)
        (additional_items octets.now)) }
{
    if octets.is_empty() {
        return Ok(());
    }
    field(output, form, "additional_data", octets)
}

// So many milliseconds.
pub(crate) fn millis(count: u32) -> Duration
    ensures { millis_of result ≡ count }
{
    Duration::from_millis(count as u64)
}

// The name of a type of ICMPv6 (RFC 4861, RFC 2710, RFC 3810).
fn type_name(type_: u8) -> Option<&'static str>
    ensures { option_map (λ name. name.now) result ≡ name_of type_names type_ }
{
    name_in(TYPES, type_ as u16)
}

const TYPES: &[Row] = &[
    (130, "multicast_listener_query"),
    (131, "multicast_listener_report"),
    (132, "multicast_listener_done"),
    (133, "router_solicitation"),
    (134, "router_advertisement"),
    (135, "neighbor_solicitation"),
    (136, "neighbor_advertisement"),
    (137, "redirect"),
    (141, "inverse_neighbor_discovery_solicitation"),
    (142, "inverse_neighbor_discovery_advertisement"),
    (143, "version_2_multicast_listener_report"),
];
