//! Why octets are refused as a message: the first check that fails.

ghost use Rattle.std.specs.Prelude.{◌≡◌, ◌↔◌, ◌≤◌, List, length, IfSome, IsNone, Some};
ghost use Rattle.wirebase.specs.Checks.{Passes, Fails};
ghost use Rattle.opt_wire.specs.NdiscOption.{BeginsWithBlock};
ghost use Rattle.opt_wire.specs.NdiscOptionRepr.{OptionValue};
ghost use Rattle.icmp6_wire.specs.Icmpv6Packet.{view_octets, header_len_in, payload_in};
ghost use Rattle.icmp6_wire.specs.Ndisc.{checks};
ghost use Rattle.icmp6_wire.specs.NdiscBlocks.{AreBlocks};
ghost use Rattle.icmp6_wire.specs.NdiscDisplay.{refusal_display};
ghost use Rattle.icmp6_wire.specs.NdiscRefusal.{IsRead, option_checks, RefusesOption, Refuses};

use super::Repr;
use super::options_seen::split_block;
use crate::icmpv6::Packet;
use opt_wire::writing::UNIT;
use std::fmt;

/// Why [`Repr::parse`] refuses octets as a message: the first check that fails. A place is counted in bytes from the
/// front of the message, and the length of an option in units of 8 bytes (RFC 4861 section 4.6).
#[derive(Debug, PartialEq, Eq, Clone, Copy)]
pub enum Refusal {
    /// Fewer than 8 bytes.
    Short,
    /// The type, by its number, is not one of neighbor discovery.
    UnknownType(u8),
    /// Fewer bytes than the header of the type has.
    Length,
    /// The message ends before an option does.
    OptionCut {
        /// The type of the option.
        kind: u8,
        /// Its place.
        place: usize,
    },
    /// An option has length 0.
    OptionEmpty {
        /// The type of the option.
        kind: u8,
        /// Its place.
        place: usize,
    },
    /// A prefix has a length below 4, or a redirected packet a length below 6.
    OptionLength {
        /// The type of the option: 3 of a prefix, 4 of a redirected packet.
        kind: u8,
        /// Its length.
        units: u8,
        /// Its place.
        place: usize,
    },
}

impl fmt::Display for Refusal {
    ghost output = { λ refusal. Some (refusal_display refusal) };

    fn fmt<W: fmt::Write>(&self, f: &mut fmt::Formatter<W>) -> fmt::Result {
        match self {
            Refusal::Short => f.write_str("fewer than 8 bytes"),
            Refusal::UnknownType(number) => write!(f, "type {number} is not read"),
            Refusal::Length => f.write_str("fewer bytes than the header of its type"),
            Refusal::OptionCut { kind, place } => {
                write!(f, "the option of type {kind} at byte {place} is cut")
            }
            Refusal::OptionEmpty { kind, place } => {
                write!(f, "the option of type {kind} at byte {place} has length 0")
            }
            Refusal::OptionLength { kind, units, place } => {
                write!(
                    f,
                    "the option of type {kind} at byte {place} has length {units}, too short for its type"
                )
            }
        }
    }
}

impl Repr<'_> {
    /// Why [`Repr::parse`] refuses these octets, by the first check that fails; None where it reads them.
    pub fn refusal(packet: &Packet<&[u8]>) -> Option<Refusal>
        ensures told { IfSome result (λ refusal. Refuses (view_octets packet.now) refusal) }
        ensures exact { IsNone result ↔ IsRead (view_octets packet.now) }
    {
        match Repr::read(packet) {
            Ok(_) => None,
            Err(why) => Some(why),
        }
    }
}

// Why the first option that is not whole, after a header of `header_len` bytes, is refused.
pub(super) fn why_option(octets: &[u8], header_len: usize) -> Refusal
    requires passes { Passes (checks octets.now) }
    requires header { header_len ≡ header_len_in octets.now }
    requires untiled { (options : List OptionValue) → AreBlocks (payload_in octets.now) options → ⊥ }
    ensures { RefusesOption octets.now result }
{
    let mut place = header_len;
    let mut rest = &octets[header_len..];
    while let Ok((block, behind)) = split_block(rest) {
        place += block.len();
        rest = behind;
    }
    fault(rest, place)
}

// What is wrong with the option at the front of `rest`, which begins at `place` in the message.
fn fault(rest: &[u8], place: usize) -> Refusal
    requires some { 1 ≤ length rest.now }
    requires none { BeginsWithBlock rest.now → ⊥ }
    ensures { Fails (option_checks place rest.now) result }
{
    let kind = rest[0];
    if rest.len() < UNIT {
        return Refusal::OptionCut { kind, place };
    }
    let units = rest[1];
    if rest.len() < UNIT * units as usize {
        return Refusal::OptionCut { kind, place };
    }
    if units == 0 {
        return Refusal::OptionEmpty { kind, place };
    }
    Refusal::OptionLength { kind, units, place }
}
