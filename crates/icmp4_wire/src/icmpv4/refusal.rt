//! Why octets are refused as a message (RFC 792).

ghost use Rattle.std.specs.Prelude.{◌≡◌, ◌↔◌, IfOk, IfErr, IsOkAnd, IfSome, IsNone, Some};
ghost use Rattle.wirebase.specs.Checks.{Passes, Fails};
ghost use Rattle.icmp4_wire.specs.Icmpv4.{view_octets, MessageValue, value_of, quote_checks, IsMessage};
ghost use Rattle.icmp4_wire.specs.Icmpv4Refusal.{IsRead, Refuses, refusal_display};

use super::packet::Packet;
use super::repr::{QUOTED_HEADER_LEN, Repr};
use super::tables::Message;
use std::fmt;
use wirebase::{ChecksumCapabilities, Ipv4Packet};

/// Why [`Repr::parse`] refuses octets as a message: the first check that fails.
#[derive(Debug, PartialEq, Eq, Clone, Copy)]
pub enum Refusal {
    /// Fewer than 8 bytes.
    Short,
    /// The checksum is to be verified, and does not hold.
    Checksum,
    /// A type that is not read, by its number: none of echo reply (0), destination unreachable (3), echo request (8)
    /// and time exceeded (11).
    UnknownType(u8),
    /// An echo whose code is not 0, by its code.
    UnknownCode(u8),
    /// An error that does not quote a whole IPv4 header: fewer than 20 bytes, or fewer than the header's own length.
    QuotedHeader,
    /// An error whose quoted header is longer than the total length that it gives.
    QuotedLength,
    /// An error that quotes fewer bytes than the total length in the quoted header, as routers may. The errors of the
    /// crate `quote_wire` read those.
    QuoteCut,
    /// An error that quotes fewer than 8 bytes after the header (RFC 792).
    QuotedData,
}

impl<'a> Repr<'a> {
    /// The message in the octets, or why [`Repr::parse`] refuses them, by the first check that fails.
    ///
    /// ```
    /// use control_wire::ChecksumCapabilities;
    /// use control_wire::icmpv4::{Packet, Refusal, Repr};
    ///
    /// // An echo request whose last byte was changed on its way.
    /// let octets = [8, 0, 0x19, 0x2c, 0, 1, 0, 2, b'p', b'i', b'n', b'q'];
    /// let packet = Packet::new_unchecked(&octets[..]);
    /// let refusal = Repr::parse_or_refusal(&packet, &ChecksumCapabilities::default()).unwrap_err();
    /// assert_eq!(refusal, Refusal::Checksum);
    /// assert_eq!(refusal.to_string(), "the checksum does not hold");
    /// ```
    pub fn parse_or_refusal(
        packet: &Packet<&'a [u8]>,
        checksum_caps: &ChecksumCapabilities,
    ) -> Result<Repr<'a>, Refusal>
        ensures sound { IfOk result (λ repr.
            IsMessage checksum_caps.now (view_octets packet.now) (value_of repr)) }
        ensures complete { (value : MessageValue)
            → IsMessage checksum_caps.now (view_octets packet.now) value
            → IsOkAnd result (λ repr. value_of repr ≡ value) }
        ensures told { IfErr result (Refuses checksum_caps.now (view_octets packet.now)) }
    {
        match Repr::parse(packet, checksum_caps) {
            Ok(repr) => Ok(repr),
            Err(_) => Err(why(packet, checksum_caps)),
        }
    }

    /// Why [`Repr::parse`] refuses these octets, by the first check that fails; None exactly where it reads them.
    pub fn refusal(packet: &Packet<&[u8]>, checksum_caps: &ChecksumCapabilities) -> Option<Refusal>
        ensures told { IfSome result (Refuses checksum_caps.now (view_octets packet.now)) }
        ensures exact { IsNone result ↔ IsRead checksum_caps.now (view_octets packet.now) }
    {
        match Repr::parse_or_refusal(packet, checksum_caps) {
            Ok(_) => None,
            Err(why) => Some(why),
        }
    }
}

// The first check that fails in octets that are not read. Apart from the reader, which took 133 instructions in place
// of 115 for an echo where its result had room for a reason.
fn why(packet: &Packet<&[u8]>, checksum_caps: &ChecksumCapabilities) -> Refusal
    requires { IsRead checksum_caps.now (view_octets packet.now) → ⊥ }
    ensures { Refuses checksum_caps.now (view_octets packet.now) result }
{
    if packet.check_len().is_err() {
        return Refusal::Short;
    }
    if checksum_caps.icmpv4.rx() && !packet.verify_checksum() {
        return Refusal::Checksum;
    }
    match packet.msg_type() {
        Message::EchoRequest | Message::EchoReply => Refusal::UnknownCode(packet.msg_code()),
        Message::DstUnreachable | Message::TimeExceeded => why_no_quote(packet.data()),
        other => Refusal::UnknownType(other.into()),
    }
}

// The first check that fails in what an error quotes.
fn why_no_quote(octets: &[u8]) -> Refusal
    requires { Passes (quote_checks octets.now) → ⊥ }
    ensures { Fails (quote_checks octets.now) result }
{
    let len = octets.len();
    if len < QUOTED_HEADER_LEN {
        return Refusal::QuotedHeader;
    }
    let quoted = Ipv4Packet::new_unchecked(octets);
    let header_len = quoted.header_len() as usize;
    let total_len = quoted.total_len() as usize;
    if len < header_len {
        return Refusal::QuotedHeader;
    }
    if total_len < header_len {
        return Refusal::QuotedLength;
    }
    if len < total_len {
        return Refusal::QuoteCut;
    }
    Refusal::QuotedData
}

/// The reason as a phrase.
impl fmt::Display for Refusal {
    ghost output = { λ refusal. Some (refusal_display refusal) };

    fn fmt<W: fmt::Write>(&self, f: &mut fmt::Formatter<W>) -> fmt::Result {
        let words = match self {
            Refusal::Short => "fewer than 8 bytes",
            Refusal::Checksum => "the checksum does not hold",
            Refusal::UnknownType(number) => return write!(f, "type {number} is not read"),
            Refusal::UnknownCode(code) => return write!(f, "an echo of code {code} is not read"),
            Refusal::QuotedHeader => "the quoted header is cut",
            Refusal::QuotedLength => "the quoted header is longer than its packet",
            Refusal::QuoteCut => "the quoted packet is cut",
            Refusal::QuotedData => "fewer than 8 bytes stand behind the quoted header",
        };
        f.write_str(words)
    }
}
