//! The numbers of DNS messages: kinds of query, outcomes, types of record, and flags.

ghost use Rattle.std.specs.Prelude.{⊤, ◌≡◌, map};
ghost use Rattle.std.specs.Int.RustNames.{bit_and, bit_or, bit_xor};
ghost use Rattle.bitflags.specs.Sets.{without};
ghost use Rattle.wirebase.specs.Numbered.{IsProper, IsTable};
ghost use Rattle.dns_wire.specs.DnsTables.{opcode_number, opcode_rows, opcode_of, rcode_number, rcode_rows, rcode_of};
ghost use Rattle.dns_wire.specs.DnsTables.{type_number, type_rows, type_of, flag_rows, flag_bits};

use bitflags::Flag;
use std::ops::{BitAnd, BitOr, BitXor, Not, Sub};

/// The kind of a query, four bits (RFC 1035 section 4.1.1).
#[derive(Debug, PartialEq, Eq, PartialOrd, Ord, Hash, Clone, Copy)]
pub enum Opcode {
    /// A standard query.
    Query,
    /// A server status request. Its number is smoltcp's, 1, which RFC 1035 gives to an inverse query; there it is 2.
    Status,
    /// Any other kind, by its number.
    Unknown(u8),
}

impl From<u8> for Opcode {
    ghost from_gives = { λ number opcode. opcode ≡ opcode_of number };

    fn from(number: u8) -> Opcode
        ensures value { result ≡ opcode_of number }
        ensures back { opcode_number result ≡ number }
        ensures table { IsTable ⟦<Opcode as Ord>⟧.cmp Opcode.Unknown opcode_rows }
    {
        match number {
            0 => Opcode::Query,
            1 => Opcode::Status,
            other => Opcode::Unknown(other),
        }
    }
}

impl From<Opcode> for u8 {
    ghost from_gives = { λ opcode number. number ≡ opcode_number opcode };

    fn from(opcode: Opcode) -> u8
        ensures value { result ≡ opcode_number opcode }
        ensures back { IsProper Opcode.Unknown opcode_rows opcode → opcode_of result ≡ opcode }
    {
        match opcode {
            Opcode::Query => 0,
            Opcode::Status => 1,
            Opcode::Unknown(other) => other,
        }
    }
}

/// The outcome of a query, four bits (RFC 1035 section 4.1.1, RFC 2136 section 2.2).
#[derive(Debug, PartialEq, Eq, PartialOrd, Ord, Hash, Clone, Copy)]
pub enum Rcode {
    /// No error.
    NoError,
    /// The server could not read the query.
    FormErr,
    /// The server failed.
    ServFail,
    /// The name does not exist.
    NXDomain,
    /// The server does not know this kind of query.
    NotImp,
    /// The server refuses, by its policy.
    Refused,
    /// A name exists that should not.
    YXDomain,
    /// A set of records exists that should not.
    YXRRSet,
    /// A set of records that should exist does not.
    NXRRSet,
    /// The server has no authority over the zone.
    NotAuth,
    /// A name is not in the zone.
    NotZone,
    /// Any other outcome, by its number.
    Unknown(u8),
}

impl From<u8> for Rcode {
    ghost from_gives = { λ number rcode. rcode ≡ rcode_of number };

    fn from(number: u8) -> Rcode
        ensures value { result ≡ rcode_of number }
        ensures back { rcode_number result ≡ number }
        ensures table { IsTable ⟦<Rcode as Ord>⟧.cmp Rcode.Unknown rcode_rows }
    {
        rcode_numbered(number)
    }
}

// The outcome with this number.
fn rcode_numbered(number: u8) -> Rcode
    ensures { result ≡ rcode_of number }
{
    match number {
        0 => Rcode::NoError,
        1 => Rcode::FormErr,
        2 => Rcode::ServFail,
        3 => Rcode::NXDomain,
        4 => Rcode::NotImp,
        5 => Rcode::Refused,
        6 => Rcode::YXDomain,
        7 => Rcode::YXRRSet,
        8 => Rcode::NXRRSet,
        9 => Rcode::NotAuth,
        10 => Rcode::NotZone,
        other => Rcode::Unknown(other),
    }
}

impl From<Rcode> for u8 {
    ghost from_gives = { λ rcode number. number ≡ rcode_number rcode };

    fn from(rcode: Rcode) -> u8
        ensures value { result ≡ rcode_number rcode }
        ensures back { IsProper Rcode.Unknown rcode_rows rcode → rcode_of result ≡ rcode }
    {
        match rcode {
            Rcode::NoError => 0,
            Rcode::FormErr => 1,
            Rcode::ServFail => 2,
            Rcode::NXDomain => 3,
            Rcode::NotImp => 4,
            Rcode::Refused => 5,
            Rcode::YXDomain => 6,
            Rcode::YXRRSet => 7,
            Rcode::NXRRSet => 8,
            Rcode::NotAuth => 9,
            Rcode::NotZone => 10,
            Rcode::Unknown(other) => other,
        }
    }
}

/// The type of a record, two bytes (RFC 1035 section 3.2.2, RFC 3596 section 2.1).
#[derive(Debug, PartialEq, Eq, PartialOrd, Ord, Hash, Clone, Copy)]
pub enum Type {
    /// An IPv4 address.
    A,
    /// A name server.
    Ns,
    /// The canonical name of an alias.
    Cname,
    /// The start of a zone of authority.
    Soa,
    /// An IPv6 address.
    Aaaa,
    /// Any other type, by its number.
    Unknown(u16),
}

impl From<u16> for Type {
    ghost from_gives = { λ number kind. kind ≡ type_of number };

    fn from(number: u16) -> Type
        ensures value { result ≡ type_of number }
        ensures back { type_number result ≡ number }
        ensures table { IsTable ⟦<Type as Ord>⟧.cmp Type.Unknown type_rows }
    {
        type_numbered(number)
    }
}

// The type with this number.
fn type_numbered(number: u16) -> Type
    ensures { result ≡ type_of number }
{
    match number {
        1 => Type::A,
        2 => Type::Ns,
        5 => Type::Cname,
        6 => Type::Soa,
        28 => Type::Aaaa,
        other => Type::Unknown(other),
    }
}

impl From<Type> for u16 {
    ghost from_gives = { λ kind number. number ≡ type_number kind };

    fn from(kind: Type) -> u16
        ensures value { result ≡ type_number kind }
        ensures back { IsProper Type.Unknown type_rows kind → type_of result ≡ kind }
    {
        match kind {
            Type::A => 1,
            Type::Ns => 2,
            Type::Cname => 5,
            Type::Soa => 6,
            Type::Aaaa => 28,
            Type::Unknown(other) => other,
        }
    }
}

/// The flags of a message (RFC 1035 section 4.1.1, RFC 4035 section 3.2). The calls of a set are those of
/// `bitflags::Flags`.
#[derive(Debug, PartialEq, Eq, Clone, Copy)]
pub struct Flags(u16);

impl Flags {
    /// The message is a response.
    pub const RESPONSE: Flags = Flags(0x8000);

    /// The server has authority over the name.
    pub const AUTHORITATIVE: Flags = Flags(0x0400);

    /// The message was cut to what its transport carries.
    pub const TRUNCATED: Flags = Flags(0x0200);

    /// The server is to follow the query itself.
    pub const RECURSION_DESIRED: Flags = Flags(0x0100);

    /// The server can follow queries itself.
    pub const RECURSION_AVAILABLE: Flags = Flags(0x0080);

    /// The server has verified the data.
    pub const AUTHENTIC_DATA: Flags = Flags(0x0020);

    /// The server is not to verify the data.
    pub const CHECK_DISABLED: Flags = Flags(0x0010);

    const NAMED: &'static [Flag<Flags>] = &[
        Flag {
            name: "RESPONSE",
            value: Flags::RESPONSE,
        },
        Flag {
            name: "AUTHORITATIVE",
            value: Flags::AUTHORITATIVE,
        },
        Flag {
            name: "TRUNCATED",
            value: Flags::TRUNCATED,
        },
        Flag {
            name: "RECURSION_DESIRED",
            value: Flags::RECURSION_DESIRED,
        },
        Flag {
            name: "RECURSION_AVAILABLE",
            value: Flags::RECURSION_AVAILABLE,
        },
        Flag {
            name: "AUTHENTIC_DATA",
            value: Flags::AUTHENTIC_DATA,
        },
        Flag {
            name: "CHECK_DISABLED",
            value: Flags::CHECK_DISABLED,
        },
    ];
}

impl bitflags::Flags for Flags {
    type Bits = u16;

    ghost exact = { ⊤ };

    ghost table = { flag_rows };

    ghost set_of = { λ flags. flags.0 };

    fn flags<'a>() -> &'a [Flag<Flags>]
        ensures table { map (λ flag. (flag.name.now, flag_bits flag.value)) result.now ≡ flag_rows }
        ensures constants { (Flags.RESPONSE.0 ≡ 0x8000) × (Flags.AUTHORITATIVE.0 ≡ 0x0400)
            × (Flags.TRUNCATED.0 ≡ 0x0200) × (Flags.RECURSION_DESIRED.0 ≡ 0x0100)
            × (Flags.RECURSION_AVAILABLE.0 ≡ 0x0080) × (Flags.AUTHENTIC_DATA.0 ≡ 0x0020)
            × (Flags.CHECK_DISABLED.0 ≡ 0x0010) }
    {
        Flags::NAMED
    }

    fn bits(&self) -> u16 {
        self.0
    }

    fn from_bits_retain(bits: u16) -> Flags {
        Flags(bits)
    }
}

impl BitOr for Flags {
    type Output = Flags;

    ghost bitor_gives = { λ a b r. r.0 ≡ bit_or a.0 b.0 };

    fn bitor(self, other: Flags) -> Flags {
        Flags(self.0 | other.0)
    }
}

impl BitAnd for Flags {
    type Output = Flags;

    ghost bitand_gives = { λ a b r. r.0 ≡ bit_and a.0 b.0 };

    fn bitand(self, other: Flags) -> Flags {
        Flags(self.0 & other.0)
    }
}

impl BitXor for Flags {
    type Output = Flags;

    ghost bitxor_gives = { λ a b r. r.0 ≡ bit_xor a.0 b.0 };

    fn bitxor(self, other: Flags) -> Flags {
        Flags(self.0 ^ other.0)
    }
}

impl Sub for Flags {
    type Output = Flags;

    ghost sub_gives = { λ a b r. r.0 ≡ without 16 a.0 b.0 };

    fn sub(self, other: Flags) -> Flags {
        Flags(self.0 & !other.0)
    }
}

impl Not for Flags {
    type Output = Flags;

    ghost not_gives = { λ a r. r.0 ≡ without 16 0x87b0 a.0 };

    fn not(self) -> Flags {
        Flags(0x87b0 & !self.0)
    }
}
