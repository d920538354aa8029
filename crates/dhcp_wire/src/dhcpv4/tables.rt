//! The numbers of DHCP: operations, types of message, flags, and kinds of option (RFC 2131, RFC 2132).

ghost use Rattle.std.specs.Prelude.{⊤, ◌≡◌, Some, map};
ghost use Rattle.std.specs.Int.RustNames.{bit_and, bit_or, bit_xor};
ghost use Rattle.bitflags.specs.Sets.{without};
ghost use Rattle.wirebase.specs.Numbered.{IsProper, IsTable};
ghost use Rattle.dhcp_wire.specs.Dhcpv4Display.{opcode_display, message_display, flags_display};
ghost use Rattle.dhcp_wire.specs.Dhcpv4Tables.{opcode_number, opcode_rows, opcode_of, message_number, message_rows};
ghost use Rattle.dhcp_wire.specs.Dhcpv4Tables.{message_of, operation_of, flag_table, flag_bits};

use bitflags::{Flag, Flags as _};
use std::fmt;
use std::ops::{BitAnd, BitOr, BitXor, Not, Sub};

/// The operation of a packet, one byte (RFC 2131 section 2).
#[derive(Debug, PartialEq, Eq, PartialOrd, Ord, Clone, Copy)]
pub enum OpCode {
    /// From a client.
    Request,
    /// From a server.
    Reply,
    /// Any other operation, by its number.
    Unknown(u8),
}

impl From<u8> for OpCode {
    ghost from_gives = { λ number opcode. opcode ≡ opcode_of number };

    fn from(number: u8) -> OpCode
        ensures value { result ≡ opcode_of number }
        ensures back { opcode_number result ≡ number }
        ensures table { IsTable ⟦<OpCode as Ord>⟧.cmp OpCode.Unknown opcode_rows }
    {
        match number {
            1 => OpCode::Request,
            2 => OpCode::Reply,
            other => OpCode::Unknown(other),
        }
    }
}

impl From<OpCode> for u8 {
    ghost from_gives = { λ opcode number. number ≡ opcode_number opcode };

    fn from(opcode: OpCode) -> u8
        ensures value { result ≡ opcode_number opcode }
        ensures back { IsProper OpCode.Unknown opcode_rows opcode → opcode_of result ≡ opcode }
    {
        match opcode {
            OpCode::Request => 1,
            OpCode::Reply => 2,
            OpCode::Unknown(other) => other,
        }
    }
}

/// The name of an operation, as `BOOTREQUEST`; one without a name prints its number, as `unknown 3`.
impl fmt::Display for OpCode {
    ghost output = { λ opcode. Some (opcode_display opcode) };

    fn fmt<W: fmt::Write>(&self, f: &mut fmt::Formatter<W>) -> fmt::Result {
        match self {
            OpCode::Request => f.write_str("BOOTREQUEST"),
            OpCode::Reply => f.write_str("BOOTREPLY"),
            OpCode::Unknown(other) => write!(f, "unknown {other}"),
        }
    }
}

/// The type of a message, one byte (RFC 2132 section 9.6).
#[derive(Debug, PartialEq, Eq, PartialOrd, Ord, Clone, Copy)]
pub enum MessageType {
    /// A client looks for servers.
    Discover,
    /// A server offers an address.
    Offer,
    /// A client asks for an offered address, or for more time.
    Request,
    /// A client found that the address is in use.
    Decline,
    /// A server grants what was asked.
    Ack,
    /// A server refuses what was asked.
    Nak,
    /// A client gives its address back.
    Release,
    /// A client that has an address asks for the rest.
    Inform,
    /// Any other type, by its number.
    Unknown(u8),
}

impl From<u8> for MessageType {
    ghost from_gives = { λ number message. message ≡ message_of number };

    fn from(number: u8) -> MessageType
        ensures value { result ≡ message_of number }
        ensures back { message_number result ≡ number }
        ensures table { IsTable ⟦<MessageType as Ord>⟧.cmp MessageType.Unknown message_rows }
    {
        message_type(number)
    }
}

// The type of a number.
fn message_type(number: u8) -> MessageType
    ensures value { result ≡ message_of number }
    ensures back { message_number result ≡ number }
{
    match number {
        1 => MessageType::Discover,
        2 => MessageType::Offer,
        3 => MessageType::Request,
        4 => MessageType::Decline,
        5 => MessageType::Ack,
        6 => MessageType::Nak,
        7 => MessageType::Release,
        8 => MessageType::Inform,
        other => MessageType::Unknown(other),
    }
}

impl From<MessageType> for u8 {
    ghost from_gives = { λ message number. number ≡ message_number message };

    fn from(message: MessageType) -> u8
        ensures value { result ≡ message_number message }
        ensures back { IsProper MessageType.Unknown message_rows message
            → message_of result ≡ message }
    {
        match message {
            MessageType::Discover => 1,
            MessageType::Offer => 2,
            MessageType::Request => 3,
            MessageType::Decline => 4,
            MessageType::Ack => 5,
            MessageType::Nak => 6,
            MessageType::Release => 7,
            MessageType::Inform => 8,
            MessageType::Unknown(other) => other,
        }
    }
}

/// The name of a type, as `DISCOVER`; one without a name prints its number, as `unknown 34`.
impl fmt::Display for MessageType {
    ghost output = { λ message. Some (message_display message) };

    fn fmt<W: fmt::Write>(&self, f: &mut fmt::Formatter<W>) -> fmt::Result {
        let name = match self {
            MessageType::Discover => "DISCOVER",
            MessageType::Offer => "OFFER",
            MessageType::Request => "REQUEST",
            MessageType::Decline => "DECLINE",
            MessageType::Ack => "ACK",
            MessageType::Nak => "NAK",
            MessageType::Release => "RELEASE",
            MessageType::Inform => "INFORM",
            MessageType::Unknown(other) => return write!(f, "unknown {other}"),
        };
        f.write_str(name)
    }
}

impl MessageType {
    // The operation that a packet of this type has: of a type without a name it is `Unknown(0)`.
    pub(super) fn opcode(&self) -> OpCode
        ensures { result ≡ operation_of self.now }
    {
        match *self {
            MessageType::Discover
            | MessageType::Request
            | MessageType::Decline
            | MessageType::Release
            | MessageType::Inform => OpCode::Request,
            MessageType::Offer | MessageType::Ack | MessageType::Nak => OpCode::Reply,
            MessageType::Unknown(_) => OpCode::Unknown(0),
        }
    }
}

/// The flags of a packet, two bytes (RFC 2131 section 2).
#[derive(Debug, PartialEq, Eq, Clone, Copy)]
pub struct Flags(u16);

impl Flags {
    /// The client can't receive an answer to its own address yet (RFC 2131 section 4.1).
    pub const BROADCAST: Flags = Flags(0x8000);

    const NAMED: &'static [Flag<Flags>] = &[Flag {
        name: "BROADCAST",
        value: Flags::BROADCAST,
    }];
}

/// Prints `broadcast` where the answer is to be sent to everyone, and `-` otherwise. Bits that have no name are not
/// printed.
impl fmt::Display for Flags {
    ghost output = { λ flags. Some (flags_display flags.0) };

    fn fmt<W: fmt::Write>(&self, f: &mut fmt::Formatter<W>) -> fmt::Result {
        if self.bits() & 0x8000 == 0 {
            return f.write_str("-");
        }
        f.write_str("broadcast")
    }
}

impl bitflags::Flags for Flags {
    type Bits = u16;

    ghost exact = { ⊤ };

    ghost table = { flag_table };

    ghost set_of = { λ flags. flags.0 };

    fn flags<'a>() -> &'a [Flag<Flags>]
        ensures table { map (λ flag. (flag.name.now, flag_bits flag.value)) result.now ≡ flag_table }
        ensures constants { flag_bits Flags.BROADCAST ≡ 0x8000 }
    {
        Flags::NAMED
    }

    fn bits(&self) -> u16 {
        self.0
    }

    fn from_bits_retain(bits: u16) -> Flags {
        Flags(bits)
    }
}

impl BitOr for Flags {
    type Output = Flags;

    ghost bitor_gives = { λ a b r. r.0 ≡ bit_or a.0 b.0 };

    fn bitor(self, other: Flags) -> Flags {
        Flags(self.0 | other.0)
    }
}

impl BitAnd for Flags {
    type Output = Flags;

    ghost bitand_gives = { λ a b r. r.0 ≡ bit_and a.0 b.0 };

    fn bitand(self, other: Flags) -> Flags {
        Flags(self.0 & other.0)
    }
}

impl BitXor for Flags {
    type Output = Flags;

    ghost bitxor_gives = { λ a b r. r.0 ≡ bit_xor a.0 b.0 };

    fn bitxor(self, other: Flags) -> Flags {
        Flags(self.0 ^ other.0)
    }
}

impl Sub for Flags {
    type Output = Flags;

    ghost sub_gives = { λ a b r. r.0 ≡ without 16 a.0 b.0 };

    fn sub(self, other: Flags) -> Flags {
        Flags(self.0 & !other.0)
    }
}

impl Not for Flags {
    type Output = Flags;

    ghost not_gives = { λ a r. r.0 ≡ without 16 0x8000 a.0 };

    fn not(self) -> Flags {
        Flags(0x8000 & !self.0)
    }
}
