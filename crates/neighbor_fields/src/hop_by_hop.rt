//! The options of an IPv6 hop-by-hop header (RFC 8200 sections 4.2 and 4.3).

ghost use Rattle.std.specs.Prelude.{◌≡◌, ◌≤◌, None, OnOk, length};
ghost use Rattle.std.specs.Option.{option_map};
ghost use Rattle.packet_fields.specs.Entries.{PrintsEntry};
ghost use Rattle.packet_fields.specs.Labels.{label_text};
ghost use Rattle.packet_fields.specs.Names.{name_in as name_of};
ghost use Rattle.packet_fields.specs.Prints.{Prints};
ghost use Rattle.neighbor_fields.specs.HopByHop.{alert_entry, alert_names, jumbo_entry, label_of, option_entry};
ghost use Rattle.neighbor_fields.specs.HopByHop.{option_len, options_items, plain_entry, refusal, whole_entry};
ghost use Rattle.neighbor_fields.specs.HopByHop.{wrong_len};

use packet_fields::Form;
use packet_fields::entries::show_octets;
use packet_fields::entry::{close_entry, first_cell, hidden_number, keyed_cell, open_entry};
use packet_fields::label::Label;
use packet_fields::names::{Row, name_in};
use packet_fields::parts::{Part, show_parts};
use std::io;
use std::io::Write;
use wirebase::Octets;

const PAD1: u8 = 0x00;

const ROUTER_ALERT: u8 = 0x05;

const JUMBO_PAYLOAD: u8 = 0xc2;

// The octets of a type and a length.
const HEAD_LEN: usize = 2;

// The fields of options.
mod place {
    use wirebase::octets::Field;

    pub const ALERT: Field = 2..4;

    pub const ALERT_END: usize = 4;

    pub const JUMBO_PAYLOAD_LEN: Field = 2..6;

    pub const JUMBO_END: usize = 6;
}

/// Prints all options of a hop-by-hop header in turn (RFC 8200 section 4.2), by the octets after its length field. An
/// option that is cut is the last entry, with the octets that are there, and says so; one whose length is not that of
/// its type says so too.
pub fn show_hop_by_hop<W: Write>(output: &mut W, form: Form, options: &[u8]) -> io::Result<()>
    ensures { OnOk result (Prints form (W.contents output.old) (W.contents output.new)
        (options_items options.now)) }
{
    show_parts::<Options, W>(output, form, "hop_by_hop", options.len(), options)
}

// The options as parts of octets.
struct Options;

impl Part for Options {
    ghost part_len = { option_len };

    ghost entry_of = { option_entry };

    fn len_of(octets: &[u8]) -> usize {
        if octets[0] == PAD1 {
            return 1;
        }
        if octets.len() < HEAD_LEN {
            return octets.len();
        }
        octets.len().min(HEAD_LEN + octets[1] as usize)
    }

    fn show<W: Write>(output: &mut W, form: Form, is_first: bool, part: &[u8]) -> io::Result<()> {
        match refusal(part) {
            Some(why) => show_plain(output, form, is_first, part, Some(why)),
            None => show_whole(output, form, is_first, part),
        }
    }
}

// Why an option is refused, where it is.
fn refusal(option: &[u8]) -> Option<&'static str>
    requires { 1 ≤ length option.now }
    ensures { option_map (λ why. why.now) result ≡ refusal option.now }
{
    if option[0] == PAD1 {
        return None;
    }
    if option.len() < HEAD_LEN {
        return Some("no length");
    }
    if option.len() != HEAD_LEN + option[1] as usize {
        return Some("fewer bytes than the option counts");
    }
    wrong_len(option[0], option.len())
}

// Why an option of this type and length is refused, where it is.
fn wrong_len(type_: u8, len: usize) -> Option<&'static str>
    ensures { option_map (λ why. why.now) result ≡ wrong_len type_ len }
{
    match type_ {
        ROUTER_ALERT if len != place::ALERT_END => Some("not 2 bytes"),
        JUMBO_PAYLOAD if len != place::JUMBO_END => Some("not 4 bytes"),
        _ => None,
    }
}

// Prints an option that is not refused.
fn show_whole<W: Write>(output: &mut W, form: Form, is_first: bool, option: &[u8]) -> io::Result<()>
    requires some { 1 ≤ length option.now }
    requires right { refusal option.now ≡ None }
    ensures { OnOk result (PrintsEntry form is_first (W.contents output.old) (W.contents output.new)
        (whole_entry option.now)) }
{
    match option[0] {
        ROUTER_ALERT => show_alert(output, form, is_first, option),
        JUMBO_PAYLOAD => show_jumbo(output, form, is_first, option),
        _ => show_plain(output, form, is_first, option, None),
    }
}

// Prints an option by its octets, and why it is refused where it is.
fn show_plain<W: Write>(
    output: &mut W,
    form: Form,
    is_first: bool,
    option: &[u8],
    refused: Option<&str>,
) -> io::Result<()>
    requires { 1 ≤ length option.now }
    ensures { OnOk result (PrintsEntry form is_first (W.contents output.old) (W.contents output.new)
        (plain_entry option.now (option_map (λ why. why.now) refused.entry))) }
{
    let (_, data) = option.split_at(HEAD_LEN.min(option.len()));
    show_octets(
        output,
        form,
        is_first,
        "option",
        label_of(option[0]),
        data,
        refused,
    )
}

// Prints a router alert.
fn show_alert<W: Write>(output: &mut W, form: Form, is_first: bool, option: &[u8]) -> io::Result<()>
    requires { length option.now ≡ 4 }
    ensures { OnOk result (PrintsEntry form is_first (W.contents output.old) (W.contents output.new)
        (alert_entry option.now)) }
{
    let value = option.u16_at(place::ALERT);
    open_entry(output, form, is_first, "option", label_of(ROUTER_ALERT))?;
    first_cell(output, form, "value", value)?;
    keyed_cell(output, form, "value_name", alert_name(value))?;
    hidden_number(output, form, "type", ROUTER_ALERT as u64)?;
    close_entry(output, form)
}

// Prints the length of a jumbogram.
fn show_jumbo<W: Write>(output: &mut W, form: Form, is_first: bool, option: &[u8]) -> io::Result<()>
    requires { length option.now ≡ 6 }
    ensures { OnOk result (PrintsEntry form is_first (W.contents output.old) (W.contents output.new)
        (jumbo_entry option.now)) }
{
    open_entry(output, form, is_first, "option", label_of(JUMBO_PAYLOAD))?;
    first_cell(
        output,
        form,
        "jumbo_payload_len",
        option.u32_at(place::JUMBO_PAYLOAD_LEN),
    )?;
    hidden_number(output, form, "type", JUMBO_PAYLOAD as u64)?;
    close_entry(output, form)
}

// What an option is called.
#[tactic(auto, unfolding(crate::specs::HopByHop::option_names))]
fn label_of(type_: u8) -> Label<'static>
    ensures value { label_text (option_map (λ name. name.now) result.name) result.kind.now result.number
        ≡ label_of type_ }
    ensures number { result.number ≡ type_ }
{
    Label {
        name: name_in(OPTIONS, type_ as u16),
        kind: "option",
        number: type_,
    }
}

// The name of the value of a router alert (RFC 2711 section 2.1); None where this library has none.
fn alert_name(value: u16) -> Option<&'static str>
    ensures { option_map (λ name. name.now) result ≡ name_of alert_names value }
{
    name_in(ALERTS, value)
}

// IANA's registry of destination options and hop-by-hop options.
const OPTIONS: &[Row] = &[
    (0x00, "pad1"),
    (0x01, "padn"),
    (0x04, "tunnel_encapsulation_limit"),
    (0x05, "router_alert"),
    (0x07, "calipso"),
    (0x08, "smf_dpd"),
    (0x0f, "performance_and_diagnostic_metrics"),
    (0x11, "ioam_destination_option"),
    (0x12, "alternate_marking"),
    (0x23, "rpl_option"),
    (0x26, "quick_start"),
    (0x30, "minimum_path_mtu"),
    (0x31, "ioam"),
    (0x63, "rpl_option_old"),
    (0x6d, "mpl_option"),
    (0x8a, "endpoint_identification"),
    (0x8b, "ilnp_nonce"),
    (0x8c, "line_identification"),
    (0xc2, "jumbo_payload"),
    (0xc9, "home_address"),
    (0xee, "ip_dff"),
];

const ALERTS: &[Row] = &[(0, "mld"), (1, "rsvp"), (2, "active_networks")];
