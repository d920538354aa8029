//! Why octets are refused as an option.

use std::fmt;

/// Why octets are refused as an option: the first check that fails.
#[derive(Debug, PartialEq, Eq, Clone, Copy)]
pub enum Refusal {
    /// Fewer than 8 bytes.
    Short,
    /// A length of 0 (RFC 4861 section 4.6).
    Zero,
    /// Other than the number of bytes that the length counts, which is this number.
    Counted(usize),
    /// An option of this type, whose length, in units of 8 bytes, is one that the type does not allow: a prefix of
    /// other than 4 units, an MTU of other than 1, a route of more than 3, DNS servers of fewer than 3 or of an even
    /// number, a search list of fewer than 2, or a prefix of NAT64 of other than 2.
    Units(u8, u8),
    /// A prefix of so many bits, more than an address has, or in a route more than there are.
    PrefixLength(u8),
    /// The code of a NAT64 prefix's length is 6 or 7 (RFC 8781 section 4).
    LengthCode(u8),
}

/// A short phrase, as `a length of 3 is not allowed for type 5`.
impl fmt::Display for Refusal {
    ghost use Rattle.std.specs.Prelude.{Some};
    ghost use Rattle.neighbor_wire.specs.Refusal.{refusal_display};

    ghost output = { λ refusal. Some (refusal_display refusal) };

    fn fmt<W: fmt::Write>(&self, f: &mut fmt::Formatter<W>) -> fmt::Result {
        match *self {
            Refusal::Short => f.write_str("fewer than 8 bytes"),
            Refusal::Zero => f.write_str("a length of 0"),
            Refusal::Counted(len) => {
                write!(f, "other than the {len} bytes that the option counts")
            }
            Refusal::Units(kind, units) => {
                write!(f, "a length of {units} is not allowed for type {kind}")
            }
            Refusal::PrefixLength(bits) => write!(f, "{bits} bits are too many for the prefix"),
            Refusal::LengthCode(code) => write!(f, "no prefix length has the code {code}"),
        }
    }
}
