//! The types of neighbor discovery options, and the flags of a prefix (RFC 4861 section 4.6).

ghost use Rattle.std.specs.Prelude.{⊤, ◌≡◌, Some, map};
ghost use Rattle.std.specs.Int.RustNames.{bit_and, bit_or, bit_xor};
ghost use Rattle.bitflags.specs.Sets.{without};
ghost use Rattle.wirebase.specs.Numbered.{IsProper, IsTable};
ghost use Rattle.opt_wire.specs.NdiscOptionTables.{type_number, type_rows, type_of, type_text, flag_rows, flag_bits};
ghost use Rattle.opt_wire.specs.NdiscOptionTables.{flags_text};

use bitflags::{Flag, Flags as _};
use std::fmt;
use std::ops::{BitAnd, BitOr, BitXor, Not, Sub};

/// The type of an option, one byte (RFC 4861 section 4.6).
#[derive(Debug, PartialEq, Eq, PartialOrd, Ord, Clone, Copy)]
pub enum Type {
    /// The link-layer address of the sender.
    SourceLinkLayerAddr,
    /// The link-layer address of the target.
    TargetLinkLayerAddr,
    /// A prefix of addresses on the link.
    PrefixInformation,
    /// The packet that a redirect quotes.
    RedirectedHeader,
    /// The MTU of the link.
    Mtu,
    /// Any other type, by its number.
    Unknown(u8),
}

impl From<u8> for Type {
    ghost from_gives = { λ number kind. kind ≡ type_of number };

    fn from(number: u8) -> Type
        ensures value { result ≡ type_of number }
        ensures back { type_number result ≡ number }
        ensures table { IsTable ⟦<Type as Ord>⟧.cmp Type.Unknown type_rows }
    {
        named(number)
    }
}

fn named(number: u8) -> Type
    ensures value { result ≡ type_of number }
    ensures back { type_number result ≡ number }
{
    match number {
        1 => Type::SourceLinkLayerAddr,
        2 => Type::TargetLinkLayerAddr,
        3 => Type::PrefixInformation,
        4 => Type::RedirectedHeader,
        5 => Type::Mtu,
        other => Type::Unknown(other),
    }
}

impl From<Type> for u8 {
    ghost from_gives = { λ kind number. number ≡ type_number kind };

    fn from(kind: Type) -> u8
        ensures value { result ≡ type_number kind }
        ensures back { IsProper Type.Unknown type_rows kind → type_of result ≡ kind }
    {
        match kind {
            Type::SourceLinkLayerAddr => 1,
            Type::TargetLinkLayerAddr => 2,
            Type::PrefixInformation => 3,
            Type::RedirectedHeader => 4,
            Type::Mtu => 5,
            Type::Unknown(other) => other,
        }
    }
}

/// The name of the type, or the number of an unknown type.
impl fmt::Display for Type {
    ghost output = { λ kind. Some (type_text kind) };

    fn fmt<W: fmt::Write>(&self, f: &mut fmt::Formatter<W>) -> fmt::Result {
        let words = match self {
            Type::SourceLinkLayerAddr => "source link-layer address",
            Type::TargetLinkLayerAddr => "target link-layer address",
            Type::PrefixInformation => "prefix information",
            Type::RedirectedHeader => "redirected header",
            Type::Mtu => "mtu",
            Type::Unknown(number) => return write!(f, "{number}"),
        };
        f.write_str(words)
    }
}

/// The flags of a prefix (RFC 4861 section 4.6.2). The calls of a set are those of `bitflags::Flags`.
#[derive(Debug, PartialEq, Eq, Clone, Copy)]
pub struct PrefixInfoFlags(u8);

impl PrefixInfoFlags {
    /// Addresses of the prefix are on the link.
    pub const ON_LINK: PrefixInfoFlags = PrefixInfoFlags(0x80);

    /// Hosts may make themselves addresses of the prefix.
    pub const ADDRCONF: PrefixInfoFlags = PrefixInfoFlags(0x40);

    const NAMED: &'static [Flag<PrefixInfoFlags>] = &[
        Flag {
            name: "ON_LINK",
            value: PrefixInfoFlags::ON_LINK,
        },
        Flag {
            name: "ADDRCONF",
            value: PrefixInfoFlags::ADDRCONF,
        },
    ];
}

impl bitflags::Flags for PrefixInfoFlags {
    type Bits = u8;

    ghost exact = { ⊤ };

    ghost table = { flag_rows };

    ghost set_of = { λ flags. flags.0 };

    fn flags<'a>() -> &'a [Flag<PrefixInfoFlags>]
        ensures table { map (λ f. (f.name.now, flag_bits f.value)) result.now ≡ flag_rows }
        ensures constants { (flag_bits PrefixInfoFlags.ON_LINK ≡ 0x80)
            × (flag_bits PrefixInfoFlags.ADDRCONF ≡ 0x40) }
    {
        PrefixInfoFlags::NAMED
    }

    fn bits(&self) -> u8 {
        self.0
    }

    fn from_bits_retain(bits: u8) -> PrefixInfoFlags {
        PrefixInfoFlags(bits)
    }
}

/// The names of the flags that are set, as `on_link,addrconf`; `-` where none is. Bits without a name are not printed.
impl fmt::Display for PrefixInfoFlags {
    ghost output = { λ flags. Some (flags_text (flag_bits flags)) };

    fn fmt<W: fmt::Write>(&self, f: &mut fmt::Formatter<W>) -> fmt::Result {
        let on_link = self.bits() & 0x80 != 0;
        let addrconf = self.bits() & 0x40 != 0;
        f.write_str(match (on_link, addrconf) {
            (false, false) => "-",
            (false, true) => "addrconf",
            (true, false) => "on_link",
            (true, true) => "on_link,addrconf",
        })
    }
}

impl BitOr for PrefixInfoFlags {
    type Output = PrefixInfoFlags;

    ghost bitor_gives = { λ a b r. r.0 ≡ bit_or a.0 b.0 };

    fn bitor(self, other: PrefixInfoFlags) -> PrefixInfoFlags {
        PrefixInfoFlags(self.0 | other.0)
    }
}

impl BitAnd for PrefixInfoFlags {
    type Output = PrefixInfoFlags;

    ghost bitand_gives = { λ a b r. r.0 ≡ bit_and a.0 b.0 };

    fn bitand(self, other: PrefixInfoFlags) -> PrefixInfoFlags {
        PrefixInfoFlags(self.0 & other.0)
    }
}

impl BitXor for PrefixInfoFlags {
    type Output = PrefixInfoFlags;

    ghost bitxor_gives = { λ a b r. r.0 ≡ bit_xor a.0 b.0 };

    fn bitxor(self, other: PrefixInfoFlags) -> PrefixInfoFlags {
        PrefixInfoFlags(self.0 ^ other.0)
    }
}

impl Sub for PrefixInfoFlags {
    type Output = PrefixInfoFlags;

    ghost sub_gives = { λ a b r. r.0 ≡ without 8 a.0 b.0 };

    fn sub(self, other: PrefixInfoFlags) -> PrefixInfoFlags {
        PrefixInfoFlags(self.0 & !other.0)
    }
}

impl Not for PrefixInfoFlags {
    type Output = PrefixInfoFlags;

    ghost not_gives = { λ a r. r.0 ≡ without 8 0xc0 a.0 };

    fn not(self) -> PrefixInfoFlags {
        PrefixInfoFlags(0xc0 & !self.0)
    }
}
