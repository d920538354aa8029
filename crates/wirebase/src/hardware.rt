//! Kinds of hardware, by their assigned numbers.

ghost use Rattle.std.specs.Prelude.{◌≡◌, Some};
ghost use Rattle.wirebase.specs.Hardware.{hardware_number, hardware_rows, hardware_of, hardware_display};
ghost use Rattle.wirebase.specs.Numbered.{IsProper, IsTable};

use std::fmt;

/// A kind of hardware, by its assigned number (RFC 826, RFC 2131 section 2). DHCP has it in one byte.
#[derive(Debug, PartialEq, Eq, PartialOrd, Ord, Clone, Copy)]
pub enum Hardware {
    /// Addresses have six octets.
    Ethernet,
    /// Any other kind, by its number.
    Unknown(u16),
}

impl From<u16> for Hardware {
    ghost from_gives = { λ number hardware. hardware ≡ hardware_of number };

    fn from(number: u16) -> Hardware
        ensures value { result ≡ hardware_of number }
        ensures back { hardware_number result ≡ number }
        ensures table { IsTable ⟦<Hardware as Ord>⟧.cmp Hardware.Unknown hardware_rows }
    {
        match number {
            1 => Hardware::Ethernet,
            other => Hardware::Unknown(other),
        }
    }
}

impl From<Hardware> for u16 {
    ghost from_gives = { λ hardware number. number ≡ hardware_number hardware };

    fn from(hardware: Hardware) -> u16
        ensures value { result ≡ hardware_number hardware }
        ensures back { IsProper Hardware.Unknown hardware_rows hardware
            → hardware_of result ≡ hardware }
    {
        match hardware {
            Hardware::Ethernet => 1,
            Hardware::Unknown(other) => other,
        }
    }
}

/// The name, or the number where there is none.
impl fmt::Display for Hardware {
    ghost output = { λ hardware. Some (hardware_display hardware) };

    fn fmt<W: fmt::Write>(&self, f: &mut fmt::Formatter<W>) -> fmt::Result {
        match *self {
            Hardware::Ethernet => f.write_str("Ethernet"),
            Hardware::Unknown(number) => write!(f, "{number}"),
        }
    }
}
