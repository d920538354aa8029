//! Why octets are refused as an option of neighbor discovery (RFC 4861 section 4.6).

ghost use Rattle.std.specs.Prelude.{◌↔◌, IfSome, IsNone, Some};
ghost use Rattle.wirebase.specs.Checks.{Passes, Fails};
ghost use Rattle.opt_wire.specs.NdiscOption.{view_octets};
ghost use Rattle.opt_wire.specs.NdiscOptionRefusal.{IsRead, unit_checks, type_checks, Refuses, refusal_text};
ghost use Rattle.opt_wire.specs.declared.ndiscoption.tables.Type.{«Type» as Kind};

use super::{NdiscOption, Repr, Type};
use crate::writing::UNIT;
use std::fmt;
use wirebase::{IPV6_HEADER_LEN, Ipv6Packet};

/// Why [`Repr::parse`] refuses octets as an option: the first check that fails.
#[derive(Debug, PartialEq, Eq, Clone, Copy)]
pub enum Refusal {
    /// Fewer than 8 bytes.
    Short,
    /// A length of 0, whatever the type.
    Zero,
    /// Fewer bytes than the length counts, which is this number of bytes.
    Cut(usize),
    /// A length, in units of 8 bytes, that the type does not allow: a prefix of other than 4 units, a redirected header
    /// of fewer than 6, or an MTU of other than 1.
    Length(Type, u8),
    /// A redirected packet of fewer bytes than its header counts, which is this number of bytes, with the header.
    PacketCut(usize),
    /// A redirected packet of this version, not 6.
    PacketVersion(u8),
}

impl<'a> Repr<'a> {
    /// Why [`Repr::parse`] refuses these octets, by the first check that fails; None exactly where it reads them. A
    /// length of 0 is checked before a length that the type does not allow.
    pub fn refusal(opt: &NdiscOption<&'a [u8]>) -> Option<Refusal>
        ensures told { IfSome result (λ refusal. Refuses (view_octets opt.now) refusal) }
        ensures exact { IsNone result ↔ IsRead (view_octets opt.now) }
    {
        match Repr::parse(opt) {
            Ok(_) => None,
            Err(_) => Some(why_none(opt)),
        }
    }
}

// The first check that fails in octets that don't begin with an option. Apart from the reader: where that told the
// reason too, a message took 1 to 2 % more instructions, and the host with a neighbor cache 301 bytes more at opt-level
// "s".
#[tactic(auto, using(crate::proofs::NdiscOptionRefusals::refusals))]
pub(super) fn why_none(opt: &NdiscOption<&[u8]>) -> Refusal
    requires { IsRead (view_octets opt.now) → ⊥ }
    ensures { Refuses (view_octets opt.now) result }
{
    let len = opt.buffer.len();
    if len < UNIT {
        return Refusal::Short;
    }
    let units = opt.data_len();
    if units == 0 {
        return Refusal::Zero;
    }
    let end = UNIT * units as usize;
    if len < end {
        return Refusal::Cut(end);
    }
    match opt.option_type() {
        Type::RedirectedHeader => why_not_redirected(opt),
        type_ => Refusal::Length(type_, units),
    }
}

// The first check of a redirected header that fails in enough units.
fn why_not_redirected(opt: &NdiscOption<&[u8]>) -> Refusal
    requires units { Passes (unit_checks (view_octets opt.now)) }
    requires none { Passes (type_checks Kind.RedirectedHeader (view_octets opt.now)) → ⊥ }
    ensures { Fails (type_checks Kind.RedirectedHeader (view_octets opt.now)) result }
{
    let units = opt.data_len();
    if units < 6 {
        return Refusal::Length(Type::RedirectedHeader, units);
    }
    let packet = Ipv6Packet::new_unchecked(opt.redirected());
    let end = IPV6_HEADER_LEN + packet.payload_len() as usize;
    if packet.as_ref().len() < end {
        return Refusal::PacketCut(end);
    }
    Refusal::PacketVersion(packet.version())
}

/// A short phrase, as `a length of 3 is not allowed for prefix information`.
impl fmt::Display for Refusal {
    ghost output = { λ refusal. Some (refusal_text refusal) };

    fn fmt<W: fmt::Write>(&self, f: &mut fmt::Formatter<W>) -> fmt::Result {
        match *self {
            Refusal::Short => f.write_str("fewer than 8 bytes"),
            Refusal::Zero => f.write_str("a length of 0"),
            Refusal::Cut(len) => write!(f, "fewer than the {len} bytes that the option counts"),
            Refusal::Length(type_, length) => {
                write!(f, "a length of {length} is not allowed for {type_}")
            }
            Refusal::PacketCut(len) => {
                write!(
                    f,
                    "fewer than the {len} bytes that the redirected packet counts"
                )
            }
            Refusal::PacketVersion(version) => {
                write!(f, "version {version} of the redirected packet")
            }
        }
    }
}
