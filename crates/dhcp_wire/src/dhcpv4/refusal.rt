//! Why octets are refused.

ghost use Rattle.std.specs.Prelude.{◌≡◌, ◌↔◌, Some, None, IfSome, IsNone, IfOk, IfErr, IsOkAnd};
ghost use Rattle.std.specs.Option.{option_map};
ghost use Rattle.dhcp_wire.specs.Dhcpv4.{Value, value_of, IsOfEthernet, AreOfEthernet, HasHeader, IsPacket};
ghost use Rattle.dhcp_wire.specs.Dhcpv4Options.{value_of_option};
ghost use Rattle.dhcp_wire.specs.private.Dhcpv4OptionsAhead.{list_of};
ghost use Rattle.dhcp_wire.specs.Dhcpv4Packet.{inner, options_in};
ghost use Rattle.dhcp_wire.specs.Dhcpv4Refusal.{IsRead, IsOther, Ends, Refuses, HasNoType, last_type, refusal_display};

use super::option_kinds::{OPT_CLIENT_ID, OPT_DHCP_MESSAGE_TYPE, OPT_END, OPT_PAD};
use super::options::DhcpOption;
use super::options_seen::{IDENTIFIER_LEN, OptionsSeen};
use super::packet::{Packet, field};
use super::repr::{ETHERNET, ETHERNET_LEN, MAGIC_NUMBER, Repr};
use super::tables::{MessageType, OpCode};
use std::fmt;
use wirebase::Octets;

/// Why [`Repr::parse`] refuses octets as a packet: the first check that fails.
#[derive(Debug, PartialEq, Eq, Clone, Copy)]
pub enum Refusal {
    /// Fewer than 240 bytes.
    Short,
    /// The hardware type is this number, not that of Ethernet, 1 (RFC 2131 section 2).
    HardwareType(u8),
    /// The length of a hardware address is this number of bytes, not the 6 of Ethernet (RFC 2131 section 2).
    HardwareLen(u8),
    /// The number before the options is not the magic cookie of DHCP (RFC 2131 section 3).
    MagicCookie,
    /// The first client identifier of 7 bytes that is not of Ethernet has this hardware type (RFC 2132 section 9.14).
    ClientIdentifier(u8),
    /// No type of message fits the operation of the packet: the last one is this, and does not fit this operation (RFC
    /// 2131 section 3).
    Operation(MessageType, OpCode),
    /// No type of message fits the operation of the packet, and the last one has this number of bytes, not 1 (RFC 2132
    /// section 9.6).
    MessageTypeLen(usize),
    /// There is no type of message, and the options end within an option of this kind (RFC 2132 section 2).
    OptionCut(u8),
    /// There is no type of message (RFC 2132 section 9.6).
    NoMessageType,
}

impl fmt::Display for Refusal {
    ghost output = { λ refusal. Some (refusal_display refusal) };

    fn fmt<W: fmt::Write>(&self, f: &mut fmt::Formatter<W>) -> fmt::Result {
        match self {
            Refusal::Short => f.write_str("fewer than 240 bytes"),
            Refusal::HardwareType(n) => write!(f, "hardware type {n} is not Ethernet"),
            Refusal::HardwareLen(n) => write!(f, "a hardware address has {n} bytes, not 6"),
            Refusal::MagicCookie => f.write_str("the magic cookie is missing"),
            Refusal::ClientIdentifier(n) => {
                write!(
                    f,
                    "the client identifier is of hardware type {n}, not Ethernet"
                )
            }
            Refusal::Operation(message_type, opcode) => {
                write!(f, "message type {message_type} does not go with {opcode}")
            }
            Refusal::MessageTypeLen(n) => write!(f, "the message type has {n} bytes, not 1"),
            Refusal::OptionCut(kind) => write!(f, "option {kind} is cut"),
            Refusal::NoMessageType => f.write_str("there is no message type"),
        }
    }
}

impl<'a> Repr<'a> {
    /// Why [`Repr::parse`] refuses this packet, by the first check that fails; None where it reads it.
    pub fn refusal(packet: &Packet<&'a [u8]>) -> Option<Refusal>
        ensures told { IfSome result (λ refusal. Refuses (inner packet.now).now refusal) }
        ensures exact { IsNone result ↔ IsRead (inner packet.now).now }
    {
        if let Some(refusal) = header_refusal(packet) {
            return Some(refusal);
        }
        let mut found = OptionsSeen {
            message_type: None,
            repr: Repr::of(packet),
        };
        if found.add_all(packet).is_err() {
            return identifier_refusal(packet);
        }
        if found.message_type.is_some() {
            return None;
        }
        Some(type_refusal(packet))
    }

    /// The value of a packet, as [`Repr::parse`] reads it, or why it is refused, as [`Repr::refusal`] answers: the
    /// first check that fails.
    pub fn parse_or_refusal(packet: &Packet<&'a [u8]>) -> std::result::Result<Repr<'a>, Refusal>
        ensures sound { IfOk result (λ repr. IsPacket (inner packet.now).now (value_of repr)) }
        ensures complete { (value : Value) → IsPacket (inner packet.now).now value
            → IsOkAnd result (λ repr. value_of repr ≡ value) }
        ensures told { IfErr result (λ refusal. Refuses (inner packet.now).now refusal) }
    {
        match Repr::parse(packet) {
            Ok(repr) => Ok(repr),
            Err(_) => Err(Repr::refusal(packet).unwrap()),
        }
    }
}

// Why the header of a packet is refused.
fn header_refusal(packet: &Packet<&[u8]>) -> Option<Refusal>
    ensures told { IfSome result (λ refusal. Refuses (inner packet.now).now refusal) }
    ensures exact { IsNone result ↔ HasHeader (inner packet.now).now }
{
    if packet.check_len().is_err() {
        return Some(Refusal::Short);
    }
    let hardware = packet.buffer.u8_at(field::HTYPE);
    if hardware != ETHERNET {
        return Some(Refusal::HardwareType(hardware));
    }
    let len = packet.hardware_len();
    if len != ETHERNET_LEN {
        return Some(Refusal::HardwareLen(len));
    }
    if packet.magic_number() != MAGIC_NUMBER {
        return Some(Refusal::MagicCookie);
    }
    None
}

// Why a packet is refused for a client identifier.
fn identifier_refusal(packet: &Packet<&[u8]>) -> Option<Refusal>
    requires { HasHeader (inner packet.now).now }
    ensures told { IfSome result (λ refusal. Refuses (inner packet.now).now refusal) }
    ensures exact { IsNone result ↔ AreOfEthernet (list_of (options_in (inner packet.now).now)) }
{
    for option in packet.options() {
        if let Some(hardware) = other_hardware(option) {
            return Some(Refusal::ClientIdentifier(hardware));
        }
    }
    None
}

// The hardware of a client identifier that is not of Ethernet.
fn other_hardware(option: DhcpOption<'_>) -> Option<u8>
    ensures other { IfSome result (λ hardware. IsOther hardware (value_of_option option.entry)) }
    ensures own { IsNone result ↔ IsOfEthernet (value_of_option option.entry) }
{
    let data = option.data;
    if option.kind == OPT_CLIENT_ID && data.len() == IDENTIFIER_LEN && data[0] != ETHERNET {
        return Some(data[0]);
    }
    None
}

// Why a packet has no type of message that fits its operation.
fn type_refusal(packet: &Packet<&[u8]>) -> Refusal
    requires { HasNoType (inner packet.now).now (list_of (options_in (inner packet.now).now)) }
    ensures { Refuses (inner packet.now).now result }
{
    let Some(data) = last_type_in(packet) else {
        return end_refusal(packet);
    };
    let [number] = data else {
        return Refusal::MessageTypeLen(data.len());
    };
    Refusal::Operation(MessageType::from(*number), packet.opcode())
}

// The data of the last type of message.
fn last_type_in<'a>(packet: &'a Packet<&[u8]>) -> Option<&'a [u8]>
    requires { HasHeader (inner packet.now).now }
    ensures { option_map (λ body. body.now) result
        ≡ last_type (list_of (options_in (inner packet.now).now)) }
{
    let mut last = None;
    for option in packet.options() {
        if option.kind == OPT_DHCP_MESSAGE_TYPE {
            last = Some(option.data);
        }
    }
    last
}

// Why a packet has no type of message at all.
fn end_refusal(packet: &Packet<&[u8]>) -> Refusal
    requires no_type { HasNoType (inner packet.now).now (list_of (options_in (inner packet.now).now)) }
    requires none { last_type (list_of (options_in (inner packet.now).now)) ≡ None }
    ensures { Refuses (inner packet.now).now result }
{
    match cut_kind(&packet.buffer[field::OPTIONS..]) {
        Some(kind) => Refusal::OptionCut(kind),
        None => Refusal::NoMessageType,
    }
}

// The kind of the option that is cut, where the options in these octets end within one.
fn cut_kind(octets: &[u8]) -> Option<u8>
    ensures { Ends octets.now result }
{
    let mut rest = octets;
    while let Some((first, behind)) = rest.split_first() {
        let kind = *first;
        if kind == OPT_END {
            return None;
        }
        if kind == OPT_PAD {
            rest = behind;
            continue;
        }
        let Some((count, body)) = behind.split_first() else {
            return Some(kind);
        };
        let Some((_, after)) = body.split_at_checked(*count as usize) else {
            return Some(kind);
        };
        rest = after;
    }
    None
}
