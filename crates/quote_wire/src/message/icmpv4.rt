//! Messages of ICMPv4 (RFC 792).

ghost use Rattle.std.specs.Prelude.{◌≡◌, ◌↔◌, IfOk, IfErr, IsOkAnd, IfSome, IsNone, IsTrue, Some};
ghost use Rattle.quote_wire.specs.Error.{HasErrorType};
ghost use Rattle.quote_wire.specs.Icmpv4Error.{kind_number};
ghost use Rattle.quote_wire.specs.Icmpv4Message.{MessageValue, value_of, IsMessage, IsRead, Refuses};
ghost use Rattle.quote_wire.specs.Icmpv4Message.{message_display, refusal_display};

use crate::icmpv4_error;
use icmp4_wire::icmpv4;
use std::fmt;
use wirebase::{ChecksumCapabilities, Result};

/// A message of ICMPv4 (RFC 792): an error with the bytes that it quotes, of which routers may have cut some off, or a
/// message of another type.
///
/// ```
/// use control_wire::{ChecksumCapabilities, icmpv4};
/// use quote_wire::icmpv4_error::Kind;
/// use quote_wire::message::Icmpv4Message;
///
/// /// Who answers a probe of a traceroute.
/// fn answers(octets: &[u8]) -> &'static str {
///     match Icmpv4Message::parse(octets, &ChecksumCapabilities::default()) {
///         Ok(Icmpv4Message::Error(error)) if error.kind == Kind::TimeExceeded => "a router",
///         Ok(Icmpv4Message::Message(icmpv4::Repr::EchoReply { .. })) => "the destination",
///         _ => "no one",
///     }
/// }
///
/// // A time that was exceeded, with the header and the first eight bytes of a datagram of 60.
/// let error = [
///     0x0b, 0x00, 0x43, 0xd3, 0, 0, 0, 0, 0x45, 0x00, 0x00, 0x3c, 0x12, 0x34, 0x40, 0x00, 0x01, 0x11, //
///     0x7b, 0x46, 192, 0, 2, 1, 198, 51, 100, 2, 0x82, 0x9b, 0x82, 0x9b, 0x00, 0x28, 0xab, 0xcd,
/// ];
/// assert_eq!(answers(&error), "a router");
/// assert_eq!(answers(&[0, 0, 0xff, 0xfc, 0, 1, 0, 2]), "the destination");
/// assert_eq!(answers(&[0, 0, 0xff, 0xfc, 0, 1, 0, 3]), "no one");
/// ```
#[derive(Debug, PartialEq, Eq, Clone, Copy)]
pub enum Icmpv4Message<'a> {
    /// An error: of type 3, 4, 5, 11 or 12.
    Error(icmpv4_error::Repr<'a>),
    /// A message of another type: an echo request or reply.
    Message(icmpv4::Repr<'a>),
}

/// Why [`Icmpv4Message::parse`] refuses octets: the check that fails first.
#[derive(Debug, PartialEq, Eq, Clone, Copy)]
pub enum Icmpv4Refusal {
    /// The type is that of an error, but the octets are no error, for this reason.
    Error(icmpv4_error::Refusal),
    /// The type is not that of an error, and the octets are no other message, for this reason.
    Message(icmpv4::Refusal),
}

impl<'a> Icmpv4Message<'a> {
    /// The message in the octets. An error is read as `icmpv4_error::Repr::parse` reads it, and every other message as
    /// `icmpv4::Repr::parse` does; refused where that parser refuses it.
    pub fn parse(
        octets: &'a [u8],
        checksum_caps: &ChecksumCapabilities,
    ) -> Result<Icmpv4Message<'a>>
        ensures sound { IfOk result (λ message. IsMessage checksum_caps.now octets.now (value_of message)) }
        ensures complete { (value : MessageValue) → IsMessage checksum_caps.now octets.now value
            → IsOkAnd result (λ message. value_of message ≡ value) }
    {
        if has_error_type(octets) {
            let error = icmpv4_error::Repr::parse(octets, checksum_caps)?;
            return Ok(Icmpv4Message::Error(error));
        }
        let packet = icmpv4::Packet::new_unchecked(octets);
        let message = icmpv4::Repr::parse(&packet, checksum_caps)?;
        Ok(Icmpv4Message::Message(message))
    }

    /// The message in the octets, or why [`Icmpv4Message::parse`] refuses them.
    #[inline]
    pub fn parse_or_refusal(
        octets: &'a [u8],
        checksum_caps: &ChecksumCapabilities,
    ) -> std::result::Result<Icmpv4Message<'a>, Icmpv4Refusal>
        ensures sound { IfOk result (λ message. IsMessage checksum_caps.now octets.now (value_of message)) }
        ensures complete { (value : MessageValue) → IsMessage checksum_caps.now octets.now value
            → IsOkAnd result (λ message. value_of message ≡ value) }
        ensures told { IfErr result (Refuses checksum_caps.now octets.now) }
    {
        if has_error_type(octets) {
            return match icmpv4_error::Repr::parse_or_refusal(octets, checksum_caps) {
                Ok(error) => Ok(Icmpv4Message::Error(error)),
                Err(refusal) => Err(Icmpv4Refusal::Error(refusal)),
            };
        }
        let packet = icmpv4::Packet::new_unchecked(octets);
        match icmpv4::Repr::parse_or_refusal(&packet, checksum_caps) {
            Ok(message) => Ok(Icmpv4Message::Message(message)),
            Err(refusal) => Err(Icmpv4Refusal::Message(refusal)),
        }
    }

    /// Why [`Icmpv4Message::parse`] refuses these octets, by the check that fails first; None exactly where it reads
    /// them.
    pub fn refusal(octets: &[u8], checksum_caps: &ChecksumCapabilities) -> Option<Icmpv4Refusal>
        ensures told { IfSome result (Refuses checksum_caps.now octets.now) }
        ensures exact { IsNone result ↔ IsRead checksum_caps.now octets.now }
    {
        Icmpv4Message::parse_or_refusal(octets, checksum_caps).err()
    }
}

// Whether the type is that of an error.
fn has_error_type(octets: &[u8]) -> bool
    ensures { IsTrue result ↔ HasErrorType kind_number octets.now }
{
    match octets.first() {
        Some(number) => icmpv4_error::Kind::from_number(*number).is_some(),
        None => false,
    }
}

/// How the error or the other message prints.
impl fmt::Display for Icmpv4Message<'_> {
    ghost output = { λ message. Some (message_display (value_of message)) };

    fn fmt<W: fmt::Write>(&self, f: &mut fmt::Formatter<W>) -> fmt::Result {
        match self {
            Icmpv4Message::Error(error) => write!(f, "{error}"),
            Icmpv4Message::Message(message) => write!(f, "{message}"),
        }
    }
}

/// The reason as a phrase.
impl fmt::Display for Icmpv4Refusal {
    ghost output = { λ refusal. Some (refusal_display refusal) };

    fn fmt<W: fmt::Write>(&self, f: &mut fmt::Formatter<W>) -> fmt::Result {
        match self {
            Icmpv4Refusal::Error(refusal) => write!(f, "{refusal}"),
            Icmpv4Refusal::Message(refusal) => write!(f, "{refusal}"),
        }
    }
}
