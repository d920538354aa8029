//! Why octets are refused as a packet of IPv6.

ghost use Rattle.std.specs.Prelude.{Some};
ghost use Rattle.wirebase.specs.Ipv6.{refusal_display};

use std::fmt;

/// Why [`Ipv6Repr::parse`](crate::Ipv6Repr::parse) refuses octets: the first check that fails.
#[derive(Debug, PartialEq, Eq, Clone, Copy)]
pub enum Ipv6Refusal {
    /// Fewer than the 40 bytes of the header.
    Short,
    /// The octets end before the payload does, by the length in the header.
    Cut,
    /// A version other than 6.
    Version(u8),
}

impl fmt::Display for Ipv6Refusal {
    ghost output = { λ refusal. Some (refusal_display refusal) };

    #[tactic(auto)]
    fn fmt<W: fmt::Write>(&self, f: &mut fmt::Formatter<W>) -> fmt::Result {
        match *self {
            Ipv6Refusal::Short => f.write_str("fewer than 40 bytes"),
            Ipv6Refusal::Cut => f.write_str("the payload is cut"),
            Ipv6Refusal::Version(version) => write!(f, "version {version}, not 6"),
        }
    }
}
