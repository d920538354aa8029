//! Jumbograms (RFC 2675): datagrams of IPv6 with more than 65,535 bytes after the fixed header.

ghost use Rattle.std.specs.Prelude.{◌↔◌, ℕ, IfSome, IsNone, IsTrue};
ghost use Rattle.frame_wire.specs.DatagramHeaders.{HasFragment};
ghost use Rattle.frame_wire.specs.DatagramJumbogram.{IsJumbo, OtherEndsAt, HasJumbo, HasJumboLen};

use super::headers::{has_extension, header_end, is_extension, is_fragment};
use crate::link::behind;
use wirebase::{IpProtocol, Octets};

// The type of a Jumbo Payload option, its bytes, and those of its data.
const JUMBO_PAYLOAD: u8 = 0xc2;

const JUMBO_PAYLOAD_LEN: usize = 6;

const JUMBO_PAYLOAD_DATA_LEN: u8 = 4;

// The type of a Pad1, an option that is its type alone.
const PAD1: u8 = 0;

// The least length that a jumbogram may have.
const LEAST: u32 = 65_536;

// The number of bytes after the fixed header, by the hop-by-hop header at the start of them. None where that header is
// cut, where its options don't lead to a length, and where the length is one that the fixed header could have.
#[inline(never)]
pub(super) fn jumbo_len(header: &[u8]) -> Option<u32>
    ensures found { IfSome result (λ len. HasJumboLen header.now len) }
    ensures none { IsNone result → (len : ℕ) → HasJumboLen header.now len → ⊥ }
{
    if !has_extension(header) {
        return None;
    }
    let options = header.range(2, 8 * header[1] as usize + 8);
    let len = jumbo_in(options)?;
    if len < LEAST {
        return None;
    }
    Some(len)
}

// The number in the Jumbo Payload option that the options lead to.
fn jumbo_in(options: &[u8]) -> Option<u32>
    ensures found { IfSome result (λ len. HasJumbo options.now len) }
    ensures none { IsNone result → (len : ℕ) → HasJumbo options.now len → ⊥ }
{
    let mut rest = options;
    'options: while let Some(end) = other_end(rest) {
        rest = behind(rest, end);
    }
    jumbo_at(rest)
}

// The number in a Jumbo Payload option at the start of the options.
fn jumbo_at(options: &[u8]) -> Option<u32>
    ensures found { IfSome result (λ len. IsJumbo options.now len) }
    ensures none { IsNone result → (len : ℕ) → IsJumbo options.now len → ⊥ }
{
    if options.len() < JUMBO_PAYLOAD_LEN
        || options[0] != JUMBO_PAYLOAD
        || options[1] != JUMBO_PAYLOAD_DATA_LEN
    {
        return None;
    }
    Some(options.u32_at(2..6))
}

// The end of another option at the start.
fn other_end(options: &[u8]) -> Option<usize>
    ensures ends { IfSome result (λ end. OtherEndsAt options.now end) }
    ensures none { IsNone result → (end : ℕ) → OtherEndsAt options.now end → ⊥ }
{
    if options.is_empty() || options[0] == JUMBO_PAYLOAD {
        return None;
    }
    if options[0] == PAD1 {
        return Some(1);
    }
    if options.len() < 2 || options.len() < 2 + options[1] as usize {
        return None;
    }
    Some(2 + options[1] as usize)
}

// Whether a protocol and the octets after it lead past a fragment header, or to one.
#[inline(never)]
pub(super) fn has_fragment(next_header: IpProtocol, octets: &[u8]) -> bool
    ensures { IsTrue result ↔ HasFragment next_header octets.now }
{
    let mut protocol = next_header;
    let mut rest = octets;
    'headers: while is_extension(protocol) {
        let Some(end) = header_end(protocol, rest) else {
            return false;
        };
        protocol = IpProtocol::from(rest[0]);
        rest = behind(rest, end);
    }
    is_fragment(protocol)
}
