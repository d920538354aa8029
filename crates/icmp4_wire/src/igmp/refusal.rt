//! Why octets are refused as a message (RFC 2236 section 2).

ghost use Rattle.std.specs.Prelude.{◌≡◌, ◌↔◌, IfOk, IfErr, IfSome, IsNone, Some};
ghost use Rattle.icmp4_wire.specs.Igmp.{view_octets, IsMessage};
ghost use Rattle.icmp4_wire.specs.IgmpRefusal.{IsRead, Refuses, refusal_display};

use super::packet::Packet;
use super::repr::Repr;
use super::tables::Message;
use std::fmt;
use wirebase::Ipv4Address;

/// Why [`Repr::parse`] refuses octets as a message: the first check that fails.
#[derive(Debug, PartialEq, Eq, Clone, Copy)]
pub enum Refusal {
    /// Fewer than 8 bytes.
    Short,
    /// A type that is not read, by its number: none of membership query (0x11), version 1 membership report (0x12),
    /// version 2 membership report (0x16) and leave group (0x17). The membership report of IGMPv3 has type 0x22
    /// (RFC 3376 section 4.2).
    UnknownType(u8),
    /// The group address is neither 0.0.0.0 nor multicast; this is the address.
    Group(Ipv4Address),
}

impl Repr {
    ghost use Rattle.std.specs.Prelude.{Ok};
    ghost use Rattle.icmp4_wire.specs.declared.igmp.repr.Repr.{Repr};

    /// The message at the front of the octets, or why [`Repr::parse`] refuses them, by the first check that fails.
    ///
    /// ```
    /// use control_wire::igmp::{Packet, Refusal, Repr};
    ///
    /// // A report of version 3.
    /// let octets = [0x22, 0, 0xf9, 0x02, 0, 0, 0, 1, 4, 0, 0, 0, 224, 0, 0, 251];
    /// let packet = Packet::new_unchecked(&octets[..]);
    /// let refusal = Repr::parse_or_refusal(&packet).unwrap_err();
    /// assert_eq!(refusal, Refusal::UnknownType(0x22));
    /// assert_eq!(refusal.to_string(), "type 34 is not read");
    /// ```
    pub fn parse_or_refusal(packet: &Packet<&[u8]>) -> Result<Repr, Refusal>
        ensures sound { IfOk result (IsMessage (view_octets packet.now)) }
        ensures complete { (repr : Repr) → IsMessage (view_octets packet.now) repr
            → result ≡ Ok repr }
        ensures told { IfErr result (Refuses (view_octets packet.now)) }
    {
        match Repr::parse(packet) {
            Ok(repr) => Ok(repr),
            Err(_) => Err(why(packet)),
        }
    }

    /// Why [`Repr::parse`] refuses these octets, by the first check that fails; None exactly where it reads them.
    pub fn refusal(packet: &Packet<&[u8]>) -> Option<Refusal>
        ensures told { IfSome result (Refuses (view_octets packet.now)) }
        ensures exact { IsNone result ↔ IsRead (view_octets packet.now) }
    {
        Repr::parse_or_refusal(packet).err()
    }
}

// The first check that fails in octets that are not read. Apart from the reader, which took 40 instructions in place of
// 23 where its result had room for a reason.
#[tactic(auto, using(crate::proofs::IgmpGrammar::reasons))]
fn why(packet: &Packet<&[u8]>) -> Refusal
    requires { IsRead (view_octets packet.now) → ⊥ }
    ensures { Refuses (view_octets packet.now) result }
{
    if packet.check_len().is_err() {
        return Refusal::Short;
    }
    match packet.msg_type() {
        Message::Unknown(number) => Refusal::UnknownType(number),
        _ => Refusal::Group(packet.group_addr()),
    }
}

/// The reason as a phrase.
impl fmt::Display for Refusal {
    ghost output = { λ refusal. Some (refusal_display refusal) };

    fn fmt<W: fmt::Write>(&self, f: &mut fmt::Formatter<W>) -> fmt::Result {
        match self {
            Refusal::Short => f.write_str("fewer than 8 bytes"),
            Refusal::UnknownType(number) => write!(f, "type {number} is not read"),
            Refusal::Group(group) => { write!(f, "group {group} is neither 0.0.0.0 nor multicast") }
        }
    }
}
