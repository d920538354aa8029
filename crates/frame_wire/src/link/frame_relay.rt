//! Frames of frame relay (RFC 2427).

ghost use Rattle.std.specs.Prelude.{◌≡◌, ◌≤◌, IfOk, IfErr, IsOkAnd, ℕ, length, slice_index};
ghost use Rattle.frame_wire.specs.Link.{FrameValue, value_of, IsFrameRelay, IsAddress, IsUnnumbered, IsNlpid};
ghost use Rattle.frame_wire.specs.Link.{network_of_nlpid, after_pad};
ghost use Rattle.frame_wire.specs.LinkRefusal.{RefusesFrameRelay, RefusesAddress, RefusesUnnumbered, RefusesNlpid};

use super::refusal::{Refusal, why_not_typed};
use super::{Frame, Network, behind, typed_at};
use std::result;
use wirebase::Octets;

// The control byte of unnumbered information.
const UNNUMBERED: u8 = 3;

// The NLPID of SNAP.
const SNAP: u8 = 0x80;

// A frame of frame relay, or why it is refused.
pub(super) fn read(octets: &[u8]) -> result::Result<Frame<'_>, Refusal>
    ensures sound { IfOk result (λ f. IsFrameRelay octets.now (value_of f)) }
    ensures complete { (v : FrameValue) → IsFrameRelay octets.now v → IsOkAnd result (λ f. value_of f ≡ v) }
    ensures told { IfErr result (λ refusal. RefusesFrameRelay octets.now refusal) }
{
    let end = address_len(octets)?;
    unnumbered(behind(octets, end))
}

// The number of bytes of the address, which ends with the first byte whose lowest bit is set (RFC 2427 section 3).
fn address_len(octets: &[u8]) -> result::Result<usize, Refusal>
    ensures sound { IfOk result (λ n. IsAddress octets.now n) }
    ensures complete { (n : ℕ) → IsAddress octets.now n → IsOkAnd result (λ m. m ≡ n) }
    ensures told { IfErr result (λ refusal. RefusesAddress octets.now refusal) }
{
    if octets.len() < 2 {
        return Err(Refusal::Short);
    }
    if octets[0] % 2 == 1 {
        return Err(Refusal::FrameRelayAddress);
    }
    if octets[1] % 2 == 1 {
        return Ok(2);
    }
    if octets.len() < 3 {
        return Err(Refusal::Short);
    }
    if octets[2] % 2 == 1 {
        return Ok(3);
    }
    if octets.len() < 4 {
        return Err(Refusal::Short);
    }
    if octets[3] % 2 == 1 {
        return Ok(4);
    }
    Err(Refusal::FrameRelayAddress)
}

// What follows the address.
fn unnumbered(octets: &[u8]) -> result::Result<Frame<'_>, Refusal>
    ensures sound { IfOk result (λ f. IsUnnumbered octets.now (value_of f)) }
    ensures complete { (v : FrameValue) → IsUnnumbered octets.now v → IsOkAnd result (λ f. value_of f ≡ v) }
    ensures told { IfErr result (λ refusal. RefusesUnnumbered octets.now refusal) }
{
    if octets.is_empty() {
        return Err(Refusal::Short);
    }
    if octets[0] != UNNUMBERED {
        return Err(Refusal::FrameRelayControl(octets[0]));
    }
    multiprotocol(after_pad(behind(octets, 1)))
}

// What follows the byte of zeros that may pad the control byte.
fn after_pad(octets: &[u8]) -> &[u8]
    ensures { result.now ≡ after_pad octets.now }
{
    match octets {
        [0, rest @ ..] => rest,
        _ => octets,
    }
}

// An NLPID and what follows it.
fn multiprotocol(octets: &[u8]) -> result::Result<Frame<'_>, Refusal>
    ensures sound { IfOk result (λ f. IsNlpid octets.now (value_of f)) }
    ensures complete { (v : FrameValue) → IsNlpid octets.now v → IsOkAnd result (λ f. value_of f ≡ v) }
    ensures told { IfErr result (λ refusal. RefusesNlpid octets.now refusal) }
{
    if octets.is_empty() {
        return Err(Refusal::Short);
    }
    if octets[0] == SNAP {
        return snap(octets);
    }
    Ok(Frame {
        network: network_of_nlpid(octets[0]),
        tags: &[],
        payload: behind(octets, 1),
    })
}

// The network of an NLPID.
fn network_of_nlpid(number: u8) -> Network
    ensures { result ≡ network_of_nlpid number }
{
    match number {
        0xcc => Network::Ipv4,
        0x8e => Network::Ipv6,
        other => Network::Other(other as u16),
    }
}

// What has the NLPID of SNAP. Requires that it has it.
fn snap(octets: &[u8]) -> result::Result<Frame<'_>, Refusal>
    requires some { 1 ≤ length octets.now }
    requires snap { slice_index octets.now 0 ≡ 0x80 }
    ensures sound { IfOk result (λ f. IsNlpid octets.now (value_of f)) }
    ensures complete { (v : FrameValue) → IsNlpid octets.now v → IsOkAnd result (λ f. value_of f ≡ v) }
    ensures told { IfErr result (λ refusal. RefusesNlpid octets.now refusal) }
{
    if octets.len() < 6 {
        return Err(Refusal::Short);
    }
    let organization = octets.u32_at(0..4) % 0x100_0000;
    if organization != 0 {
        return Ok(Frame {
            network: Network::Other(SNAP as u16),
            tags: &[],
            payload: behind(octets, 1),
        });
    }
    match typed_at(octets, 4, 6) {
        Ok(frame) => Ok(frame),
        Err(_) => Err(why_not_typed(octets, 4, 6).unwrap()),
    }
}
