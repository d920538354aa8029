//! The preference of a router or a route (RFC 4191 section 2.1).

ghost use Rattle.std.specs.Prelude.{◌≡◌, ◌<◌};
ghost use Rattle.neighbor_wire.specs.Preference.{preference_number, preference_of, preference_in, with_preference};

use std::fmt;

/// The preference of a default router or of a route, over others (RFC 4191 section 2.1): two bits, as a signed number.
#[derive(Debug, PartialEq, Eq, Clone, Copy)]
pub enum Preference {
    /// High, the bits 01.
    High,
    /// Medium, the bits 00, which a router sends that states no preference.
    Medium,
    /// Low, the bits 11.
    Low,
    /// The bits 10, which are not to be sent (RFC 4191 section 2.1). A receiver treats a default router with these bits
    /// as of medium preference (section 2.2), and ignores a route (section 2.3).
    Reserved,
}

/// The name of the preference, as `high`.
impl fmt::Display for Preference {
    ghost use Rattle.std.specs.Prelude.{Some};
    ghost use Rattle.neighbor_wire.specs.Preference.{preference_text};

    ghost output = { λ preference. Some (preference_text preference) };

    fn fmt<W: fmt::Write>(&self, f: &mut fmt::Formatter<W>) -> fmt::Result {
        f.write_str(match self {
            Preference::High => "high",
            Preference::Medium => "medium",
            Preference::Low => "low",
            Preference::Reserved => "reserved",
        })
    }
}

impl Preference {
    // The preference of these two bits.
    fn of(bits: u8) -> Preference
        ensures { result ≡ preference_of bits }
    {
        match bits {
            0 => Preference::Medium,
            1 => Preference::High,
            3 => Preference::Low,
            _ => Preference::Reserved,
        }
    }

    // The two bits.
    pub(crate) fn bits(self) -> u8
        ensures value { result ≡ preference_number self }
        ensures small { result < 4 }
    {
        match self {
            Preference::Medium => 0,
            Preference::High => 1,
            Preference::Reserved => 2,
            Preference::Low => 3,
        }
    }
}

/// The preference in the byte of flags of a router advertisement, that after the hop limit (RFC 4191 section 2.2), or
/// in the byte after the prefix length of a route (RFC 4191 section 2.3): bits 3 and 4 from the highest on.
pub fn router_preference(flags: u8) -> Preference
    ensures { result ≡ preference_in flags }
{
    Preference::of(flags / 8 % 4)
}

/// The byte of flags with this preference in bits 3 and 4; the other bits are unchanged. Set it in byte 5 of a router
/// advertisement after `icmpv6::Repr::emit_into`, and then fill in the checksum again.
pub fn with_preference(flags: u8, preference: Preference) -> u8
    ensures value { result ≡ with_preference flags preference }
    ensures told { preference_in result ≡ preference }
{
    flags / 32 * 32 + preference.bits() * 8 + flags % 8
}
