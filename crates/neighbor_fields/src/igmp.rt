//! Messages of the Internet Group Management Protocol, versions 1 to 3 (RFC 1112 appendix I, RFC 2236 section 2, RFC
//! 3376 section 4).

ghost use Rattle.std.specs.Prelude.{◌≡◌, ◌≤◌, IfOk, OnOk, length};
ghost use Rattle.std.specs.Option.{option_map};
ghost use Rattle.packet_fields.specs.Names.{name_in as name_of};
ghost use Rattle.packet_fields.specs.Prints.{Prints};
ghost use Rattle.neighbor_fields.specs.Igmp.{any_query_items, body_items, group_items, group_message_items};
ghost use Rattle.neighbor_fields.specs.Igmp.{message_items, old_query_items, other_items, query_front, query_items, report_items};
ghost use Rattle.neighbor_fields.specs.Igmp.{any_query_lack, body_lack, message_lack, query_lack, report_lack, type_names};
ghost use Rattle.neighbor_fields.specs.Igmp.{uncounted_items};

use crate::lack::Lack;
use crate::messages::{millis, show_additional, show_cut};
use crate::records::{code_number, show_querier, show_records_v4, show_sources};
use packet_fields::Form;
use packet_fields::field::{field, named};
use packet_fields::names::{Row, name_in};
use packet_fields::texts::Address;
use std::io;
use std::io::Write;
use wirebase::Octets;

const MEMBERSHIP_QUERY: u8 = 0x11;

const MEMBERSHIP_REPORT_V1: u8 = 0x12;

const MEMBERSHIP_REPORT_V2: u8 = 0x16;

const LEAVE_GROUP: u8 = 0x17;

const MEMBERSHIP_REPORT_V3: u8 = 0x22;

// The fields of messages.
mod place {
    use wirebase::octets::Field;

    // The octets of type, code and checksum.
    pub const HEAD_LEN: usize = 4;

    pub const GROUP_ADDR: Field = 4..8;

    pub const GROUP_END: usize = 8;

    pub const SQRV: Field = 8..9;

    pub const QQIC: Field = 9..10;

    pub const NUM_SRCS: Field = 10..12;

    pub const SOURCES: usize = 12;

    pub const NUM_RECORDS: Field = 6..8;

    pub const RECORDS: usize = 8;
}

/// Prints a message, by its octets from the type on. A query of 8 octets is one of version 1 where its code is 0 and
/// else of version 2; one of 12 octets or more is of version 3 (RFC 3376 section 7.1). What is cut says so: a message
/// within its fields, with the octets that are there; its sources; a record, with its octets. Of a message of another
/// type the code and the octets behind the checksum are printed. Returns of what a message has less than it takes or
/// counts.
pub fn show_igmp<W: Write>(output: &mut W, form: Form, message: &[u8]) -> io::Result<Option<Lack>>
    ensures prints { OnOk result (Prints form (W.contents output.old) (W.contents output.new)
        (message_items message.now)) }
    ensures lack { IfOk result (λ lack. lack ≡ message_lack message.now) }
{
    if message.len() < place::GROUP_END {
        show_cut(output, form, message)?;
        return Ok(Some(Lack::Fields));
    }
    let type_ = message[0];
    named(output, form, "type", type_ as u64, type_name(type_))?;
    show_body(output, form, message)
}

// Prints what follows the type.
fn show_body<W: Write>(output: &mut W, form: Form, message: &[u8]) -> io::Result<Option<Lack>>
    requires { 8 ≤ length message.now }
    ensures prints { OnOk result (Prints form (W.contents output.old) (W.contents output.new)
        (body_items message.now)) }
    ensures lack { IfOk result (λ lack. lack ≡ body_lack message.now) }
{
    match message[0] {
        MEMBERSHIP_QUERY => show_any_query(output, form, message),
        MEMBERSHIP_REPORT_V3 => show_report(output, form, message),
        _ => {
            show_uncounted(output, form, message)?;
            Ok(None)
        }
    }
}

// Prints a message that counts nothing.
fn show_uncounted<W: Write>(output: &mut W, form: Form, message: &[u8]) -> io::Result<()>
    requires { 8 ≤ length message.now }
    ensures { OnOk result (Prints form (W.contents output.old) (W.contents output.new)
        (uncounted_items message.now)) }
{
    match message[0] {
        MEMBERSHIP_REPORT_V1 => show_group_message(output, form, 1, message),
        MEMBERSHIP_REPORT_V2 => show_group_message(output, form, 2, message),
        LEAVE_GROUP => show_group_message(output, form, 2, message),
        _ => show_other(output, form, message),
    }
}

// Prints a query, by its length.
fn show_any_query<W: Write>(output: &mut W, form: Form, message: &[u8]) -> io::Result<Option<Lack>>
    requires { 8 ≤ length message.now }
    ensures prints { OnOk result (Prints form (W.contents output.old) (W.contents output.new)
        (any_query_items message.now)) }
    ensures lack { IfOk result (λ lack. lack ≡ any_query_lack message.now) }
{
    if message.len() == place::GROUP_END {
        let version = if message[1] == 0 { 1 } else { 2 };
        show_old_query(output, form, version, message)?;
        return Ok(None);
    }
    if message.len() < place::SOURCES {
        let (_, octets) = message.split_at(place::HEAD_LEN);
        show_cut(output, form, octets)?;
        return Ok(Some(Lack::Fields));
    }
    show_query(output, form, message)
}

// Prints a query of version 1 or 2.
fn show_old_query<W: Write>(
    output: &mut W,
    form: Form,
    version: u8,
    message: &[u8],
) -> io::Result<()>
    requires { 8 ≤ length message.now }
    ensures { OnOk result (Prints form (W.contents output.old) (W.contents output.new)
        (old_query_items version message.now)) }
{
    let tenths = message[1] as u32;
    show_query_front(output, form, version, tenths, message)
}

// Prints a query of version 3.
fn show_query<W: Write>(output: &mut W, form: Form, message: &[u8]) -> io::Result<Option<Lack>>
    requires { 12 ≤ length message.now }
    ensures prints { OnOk result (Prints form (W.contents output.old) (W.contents output.new)
        (query_items message.now)) }
    ensures lack { IfOk result (λ lack. lack ≡ query_lack message.now) }
{
    let count = message.u16_at(place::NUM_SRCS);
    let (_, sources) = message.split_at(place::SOURCES);
    show_query_front(output, form, 3, code_number(message[1]), message)?;
    show_querier(
        output,
        form,
        message.u8_at(place::SQRV),
        message.u8_at(place::QQIC),
    )?;
    show_sources(output, form, 4, count, sources)
}

// Prints what a query of any version has; its code stands for so many tenths of a second.
fn show_query_front<W: Write>(
    output: &mut W,
    form: Form,
    version: u8,
    tenths: u32,
    message: &[u8],
) -> io::Result<()>
    requires some { 8 ≤ length message.now }
    requires small { tenths ≤ 31744 }
    ensures { OnOk result (Prints form (W.contents output.old) (W.contents output.new)
        (query_front version tenths message.now)) }
{
    field(output, form, "version", version)?;
    field(output, form, "max_resp_code", message[1])?;
    field(output, form, "max_resp_time", millis(100 * tenths))?;
    show_group(output, form, message)
}

// Prints the group address.
fn show_group<W: Write>(output: &mut W, form: Form, message: &[u8]) -> io::Result<()>
    requires { 8 ≤ length message.now }
    ensures { OnOk result (Prints form (W.contents output.old) (W.contents output.new)
        (group_items message.now)) }
{
    let addr = message.field(place::GROUP_ADDR);
    field(output, form, "group_addr", Address(addr))
}

// Prints a report of version 1 or 2, or a leave.
fn show_group_message<W: Write>(
    output: &mut W,
    form: Form,
    version: u8,
    message: &[u8],
) -> io::Result<()>
    requires { 8 ≤ length message.now }
    ensures { OnOk result (Prints form (W.contents output.old) (W.contents output.new)
        (group_message_items version message.now)) }
{
    let (_, additional) = message.split_at(place::GROUP_END);
    field(output, form, "version", version)?;
    show_group(output, form, message)?;
    show_additional(output, form, additional)
}

// Prints a report of version 3.
fn show_report<W: Write>(output: &mut W, form: Form, message: &[u8]) -> io::Result<Option<Lack>>
    requires { 8 ≤ length message.now }
    ensures prints { OnOk result (Prints form (W.contents output.old) (W.contents output.new)
        (report_items message.now)) }
    ensures lack { IfOk result (λ lack. lack ≡ report_lack message.now) }
{
    let count = message.u16_at(place::NUM_RECORDS);
    let (_, records) = message.split_at(place::RECORDS);
    field(output, form, "version", 3u8)?;
    show_records_v4(output, form, count, records)
}

// Prints any other message.
fn show_other<W: Write>(output: &mut W, form: Form, message: &[u8]) -> io::Result<()>
    requires { 8 ≤ length message.now }
    ensures { OnOk result (Prints form (W.contents output.old) (W.contents output.new)
        (other_items message.now)) }
{
    let (_, octets) = message.split_at(place::HEAD_LEN);
    field(output, form, "code", message[1])?;
    field(output, form, "data", octets)
}

/// The name of a type of message; None where this library has none.
pub fn type_name(type_: u8) -> Option<&'static str>
    ensures { option_map (λ name. name.now) result ≡ name_of type_names type_ }
{
    name_in(TYPES, type_ as u16)
}

const TYPES: &[Row] = &[
    (0x11, "membership_query"),
    (0x12, "membership_report_v1"),
    (0x13, "dvmrp"),
    (0x14, "pim_v1"),
    (0x15, "cisco_trace"),
    (0x16, "membership_report_v2"),
    (0x17, "leave_group"),
    (0x1e, "mtrace_response"),
    (0x1f, "mtrace"),
    (0x22, "membership_report_v3"),
    (0x30, "multicast_router_advertisement"),
    (0x31, "multicast_router_solicitation"),
    (0x32, "multicast_router_termination"),
];
