//! Messages of ICMPv6 (RFC 4443), with those of neighbor discovery (RFC 4861) and multicast listener discovery
//! (RFC 3810).

ghost use Rattle.std.specs.Prelude.{◌≡◌, ◌↔◌, IfOk, IfErr, IsOkAnd, IfSome, IsNone, IsTrue, Some};
ghost use Rattle.quote_wire.specs.Error.{HasErrorType};
ghost use Rattle.quote_wire.specs.Icmpv6Error.{kind_number};
ghost use Rattle.quote_wire.specs.Icmpv6Message.{MessageValue, value_of, IsMessage, IsRead, Refuses};
ghost use Rattle.quote_wire.specs.Icmpv6Message.{message_display, refusal_display};

use crate::icmpv6_error;
use icmp6_wire::icmpv6;
use std::fmt;
use wirebase::{ChecksumCapabilities, Ipv6Address, Result};

/// A message of ICMPv6 (RFC 4443): an error with the bytes that it quotes, or a message of another type.
///
/// ```
/// use control_wire::{ChecksumCapabilities, Ipv6Address};
/// use quote_wire::message::Icmpv6Message;
///
/// /// The bytes that the link takes which a packet was too big for.
/// fn path_mtu(src: &Ipv6Address, dst: &Ipv6Address, octets: &[u8]) -> Option<u32> {
///     match Icmpv6Message::parse(src, dst, octets, &ChecksumCapabilities::default()) {
///         Ok(Icmpv6Message::Error(error)) => error.mtu(),
///         _ => None,
///     }
/// }
///
/// let (router, host) = (
///     Ipv6Address::new(0xfe80, 0, 0, 0, 0, 0, 0, 1),
///     Ipv6Address::new(0xfe80, 0, 0, 0, 0, 0, 0, 2),
/// );
/// let mut octets = [0; 52];
/// octets[..12].copy_from_slice(&[0x02, 0, 0x8f, 0x1c, 0, 0, 0x05, 0, 0x6b, 0xb1, 0x23, 0x45]);
/// octets[12..16].copy_from_slice(&[0x05, 0xb4, 0x06, 0x3f]);
/// octets[16..32].copy_from_slice(&host.octets());
/// octets[32..48].copy_from_slice(&router.octets());
/// octets[48..].copy_from_slice(&[0xd4, 0x31, 0x00, 0x50]);
/// assert_eq!(path_mtu(&router, &host, &octets), Some(1280));
/// assert_eq!(path_mtu(&router, &router, &octets), None);
/// ```
#[derive(Debug, PartialEq, Eq, Clone, Copy)]
pub enum Icmpv6Message<'a> {
    /// An error: of type 1, 2, 3 or 4.
    Error(icmpv6_error::Repr<'a>),
    /// A message of another type.
    Message(icmpv6::Repr<'a>),
}

/// Why [`Icmpv6Message::parse`] refuses octets: the check that fails first.
#[derive(Debug, PartialEq, Eq, Clone, Copy)]
pub enum Icmpv6Refusal {
    /// The type is that of an error, but the octets are no error, for this reason.
    Error(icmpv6_error::Refusal),
    /// The type is not that of an error, and the octets are no other message, for this reason.
    Message(icmpv6::Refusal),
}

impl<'a> Icmpv6Message<'a> {
    /// The message in the octets, which were sent from `src_addr` to `dst_addr`. An error is read as
    /// `icmpv6_error::Repr::parse` reads it, and every other message as `icmpv6::Repr::parse` does; refused where that
    /// parser refuses it.
    pub fn parse(
        src_addr: &Ipv6Address,
        dst_addr: &Ipv6Address,
        octets: &'a [u8],
        checksum_caps: &ChecksumCapabilities,
    ) -> Result<Icmpv6Message<'a>>
        ensures sound { IfOk result (λ message.
            IsMessage src_addr.now dst_addr.now checksum_caps.now octets.now (value_of message)) }
        ensures complete { (value : MessageValue)
            → IsMessage src_addr.now dst_addr.now checksum_caps.now octets.now value
            → IsOkAnd result (λ message. value_of message ≡ value) }
    {
        if has_error_type(octets) {
            let error = icmpv6_error::Repr::parse(src_addr, dst_addr, octets, checksum_caps)?;
            return Ok(Icmpv6Message::Error(error));
        }
        let packet = icmpv6::Packet::new_unchecked(octets);
        let message = icmpv6::Repr::parse(src_addr, dst_addr, &packet, checksum_caps)?;
        Ok(Icmpv6Message::Message(message))
    }

    /// The message in the octets, or why [`Icmpv6Message::parse`] refuses them.
    #[inline]
    pub fn parse_or_refusal(
        src_addr: &Ipv6Address,
        dst_addr: &Ipv6Address,
        octets: &'a [u8],
        checksum_caps: &ChecksumCapabilities,
    ) -> std::result::Result<Icmpv6Message<'a>, Icmpv6Refusal>
        ensures sound { IfOk result (λ message.
            IsMessage src_addr.now dst_addr.now checksum_caps.now octets.now (value_of message)) }
        ensures complete { (value : MessageValue)
            → IsMessage src_addr.now dst_addr.now checksum_caps.now octets.now value
            → IsOkAnd result (λ message. value_of message ≡ value) }
        ensures told { IfErr result (Refuses src_addr.now dst_addr.now checksum_caps.now octets.now) }
    {
        if has_error_type(octets) {
            let read = icmpv6_error::Repr::parse_or_refusal(
                src_addr,
                dst_addr,
                octets,
                checksum_caps,
            );
            return match read {
                Ok(error) => Ok(Icmpv6Message::Error(error)),
                Err(refusal) => Err(Icmpv6Refusal::Error(refusal)),
            };
        }
        let packet = icmpv6::Packet::new_unchecked(octets);
        match icmpv6::Repr::parse_or_refusal(src_addr, dst_addr, &packet, checksum_caps) {
            Ok(message) => Ok(Icmpv6Message::Message(message)),
            Err(refusal) => Err(Icmpv6Refusal::Message(refusal)),
        }
    }

    /// Why [`Icmpv6Message::parse`] refuses these octets, by the check that fails first; None exactly where it reads
    /// them.
    pub fn refusal(
        src_addr: &Ipv6Address,
        dst_addr: &Ipv6Address,
        octets: &[u8],
        checksum_caps: &ChecksumCapabilities,
    ) -> Option<Icmpv6Refusal>
        ensures told { IfSome result (Refuses src_addr.now dst_addr.now checksum_caps.now octets.now) }
        ensures exact { IsNone result ↔ IsRead src_addr.now dst_addr.now checksum_caps.now octets.now }
    {
        Icmpv6Message::parse_or_refusal(src_addr, dst_addr, octets, checksum_caps).err()
    }
}

// Whether the type is that of an error.
fn has_error_type(octets: &[u8]) -> bool
    ensures { IsTrue result ↔ HasErrorType kind_number octets.now }
{
    match octets.first() {
        Some(number) => icmpv6_error::Kind::from_number(*number).is_some(),
        None => false,
    }
}

/// How the error or the other message prints.
impl fmt::Display for Icmpv6Message<'_> {
    ghost output = { λ message. Some (message_display (value_of message)) };

    fn fmt<W: fmt::Write>(&self, f: &mut fmt::Formatter<W>) -> fmt::Result {
        match self {
            Icmpv6Message::Error(error) => write!(f, "{error}"),
            Icmpv6Message::Message(message) => write!(f, "{message}"),
        }
    }
}

/// The reason as a phrase.
impl fmt::Display for Icmpv6Refusal {
    ghost output = { λ refusal. Some (refusal_display refusal) };

    fn fmt<W: fmt::Write>(&self, f: &mut fmt::Formatter<W>) -> fmt::Result {
        match self {
            Icmpv6Refusal::Error(refusal) => write!(f, "{refusal}"),
            Icmpv6Refusal::Message(refusal) => write!(f, "{refusal}"),
        }
    }
}
