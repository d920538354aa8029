//! What the extension headers of a quoted packet lead to (RFC 8200 section 4).

ghost use Rattle.std.specs.Prelude.{◌≡◌, ◌≤◌, ◌↔◌, IsTrue, IfSome, IsNone, drop, length};
ghost use Rattle.std.specs.Option.{option_map};
ghost use Rattle.frame_wire.specs.DatagramHeaders.{HasExtension};
ghost use Rattle.quote_wire.specs.Upper.{value_of, own_payload, EndsAt, EndsIn, LeadsTo, IsPassed};

use super::Ipv6Quote;
use wirebase::{Field, IpProtocol, Octets};

// The bytes of a fragment header, and its offset, which has the upper 13 bits.
const FRAGMENT_HEADER_LEN: usize = 8;

const FRAG_OFFSET: Field = 2..4;

// The fewest bytes of any other header.
const LEAST_HEADER: usize = 8;

/// What the extension headers of a quoted packet lead to.
#[derive(Debug, PartialEq, Eq, Clone, Copy)]
pub struct Upper<'a> {
    /// The protocol: the first that is no extension header that is passed.
    pub protocol: IpProtocol,
    /// The octets of its header and what follows it in the packet, as far as they are quoted.
    pub octets: &'a [u8],
}

impl<'a> Ipv6Quote<'a> {
    /// What the packet has behind its extension headers: the hop-by-hop and destination options, the routing headers
    /// and the header of a first fragment are passed. None where one of these is cut, and behind the header of a later
    /// fragment, which begins within the payload. Of `payload` at most `payload_len` bytes are read: those behind them
    /// are not the packet's, such as the zeros that fill a quote up to 128 bytes (RFC 4884 section 4). A length of 0
    /// before hop-by-hop options is taken for that of a jumbogram (RFC 2675 section 2), whether or not they have its
    /// option: then all bytes are read.
    ///
    /// ```
    /// use quote_wire::quote::Ipv6Quote;
    /// use control_wire::IpProtocol;
    ///
    /// // A first fragment of a datagram of UDP.
    /// let mut quoted = [0; 56];
    /// quoted[..8].copy_from_slice(&[0x60, 0, 0, 0, 0, 16, 44, 64]);
    /// quoted[40..].copy_from_slice(&[17, 0, 0, 1, 0, 0, 0, 7, 0x9c, 0x40, 0, 53, 5, 200, 0, 0]);
    /// let quote = Ipv6Quote::parse(&quoted)?;
    /// assert_eq!(quote.next_header, IpProtocol::Ipv6Frag);
    /// let upper = quote.upper().unwrap();
    /// assert_eq!((upper.protocol, upper.octets), (IpProtocol::Udp, &quoted[48..]));
    ///
    /// // A payload of 2 bytes, and zeros behind it: no header of UDP.
    /// let quote = Ipv6Quote { payload_len: 2, next_header: IpProtocol::Udp, ..quote };
    /// assert_eq!(quote.upper().unwrap().octets.len(), 2);
    /// # Ok::<(), control_wire::Error>(())
    /// ```
    pub fn upper(&self) -> Option<Upper<'a>>
        ensures { LeadsTo self.now.next_header (own_payload self.now) (option_map value_of result) }
    {
        lead(self.next_header, self.own_payload())
    }

    // The quoted part of the packet's own payload. Most quotes end within it, and that is asked first.
    #[tactic(auto, using(std::proofs::lemmas::List::take_all))]
    fn own_payload(&self) -> &'a [u8]
        ensures { result.now ≡ own_payload self.now }
    {
        let len = self.payload_len as usize;
        if len >= self.payload.len() || len == 0 && self.next_header == IpProtocol::HopByHop {
            return self.payload;
        }
        &self.payload[..len]
    }
}

// What a protocol and the octets behind it lead to.
fn lead(next_header: IpProtocol, payload: &[u8]) -> Option<Upper<'_>>
    ensures { LeadsTo next_header payload.now (option_map value_of result) }
{
    let mut protocol = next_header;
    let mut rest = payload;
    'headers: while is_passed(protocol) {
        let Some(end) = header_end(protocol, rest) else {
            return None;
        };
        protocol = IpProtocol::from(rest[0]);
        rest = behind(rest, end);
    }
    Some(Upper {
        protocol,
        octets: rest,
    })
}

// Whether headers of this protocol are passed.
fn is_passed(protocol: IpProtocol) -> bool
    ensures { IsTrue result ↔ IsPassed protocol }
{
    protocol == IpProtocol::HopByHop
        || protocol == IpProtocol::Ipv6Route
        || protocol == IpProtocol::Ipv6Opts
        || is_fragment(protocol)
}

// Whether this is the protocol of a fragment header.
fn is_fragment(protocol: IpProtocol) -> bool
    ensures { IsTrue result ↔ (protocol ≡ IpProtocol.Ipv6Frag) }
{
    protocol == IpProtocol::Ipv6Frag
}

// The end of a header that is passed; None where it leads no further.
fn header_end(protocol: IpProtocol, header: &[u8]) -> Option<usize>
    requires { IsPassed protocol }
    ensures ends { IfSome result (λ end. EndsAt protocol header.now end) }
    ensures none { IsNone result → EndsIn protocol header.now }
{
    if is_fragment(protocol) {
        return fragment_end(header);
    }
    if !has_extension(header) {
        return None;
    }
    Some(8 * header[1] as usize + 8)
}

// The end of the header of a first fragment.
fn fragment_end(header: &[u8]) -> Option<usize>
    ensures ends { IfSome result (λ end. EndsAt IpProtocol.Ipv6Frag header.now end) }
    ensures none { IsNone result → EndsIn IpProtocol.Ipv6Frag header.now }
{
    if header.len() < FRAGMENT_HEADER_LEN || header.u16_at(FRAG_OFFSET) / 8 != 0 {
        return None;
    }
    Some(FRAGMENT_HEADER_LEN)
}

// Whether the octets begin with a whole header of options or of routing.
fn has_extension(octets: &[u8]) -> bool
    ensures { IsTrue result ↔ HasExtension octets.now }
{
    octets.len() >= LEAST_HEADER && octets.len() >= 8 * octets[1] as usize + 8
}

// The octets from this place to the end.
#[tactic(auto, using(std::proofs::lemmas::List::take_all))]
fn behind(octets: &[u8], place: usize) -> &[u8]
    requires { place ≤ length octets.now }
    ensures { result.now ≡ drop place octets.now }
{
    &octets[place..]
}
