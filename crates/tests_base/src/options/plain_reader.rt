// A second reader of options, by the rules of RFC 8200 section 4.2 alone: type 0 is one byte; any other type is
// followed by a length and as many bytes of data; a router alert has 2 bytes of data (RFC 2711 section 2.1). The tests
// compare the crate with it.

ghost use Rattle.std.specs.Prelude.{◌≤◌, ◌<◌, length};

use crate::testing::{holds_of, same_of};
use opt_wire::ipv6hbh;
use opt_wire::ipv6hbh::Header;
use opt_wire::ipv6option::{Ipv6Option, Ipv6OptionsIterator, Repr};
use std::process::Abort;
use wirebase::Error;

// The option at the front of the octets, and the octets after it.
fn first_option(octets: &[u8]) -> Option<(Repr<'_>, &[u8])> {
    match octets {
        [0, rest @ ..] => Some((Repr::Pad1, rest)),
        [kind, length, rest @ ..] => {
            let (data, rest) = rest.split_at_checked(*length as usize)?;
            Some((option_of(*kind, *length, data)?, rest))
        }
        _ => None,
    }
}

// The option of a type other than 0, of its length and its data.
fn option_of(kind: u8, length: u8, data: &[u8]) -> Option<Repr<'_>> {
    match (kind, data) {
        (1, _) => Some(Repr::PadN(length)),
        (5, [high, low]) => {
            let alert = u16::from_be_bytes([*high, *low]);
            Some(Repr::RouterAlert(alert.into()))
        }
        (5, _) => None,
        (other, _) => Some(Repr::Unknown {
            type_: other.into(),
            length,
            data,
        }),
    }
}

// The first option and the octets after it, or its refusal and none.
fn first_answer(octets: &[u8]) -> (wirebase::Result<Repr<'_>>, &[u8]) {
    match first_option(octets) {
        Some((option, rest)) => (Ok(option), rest),
        None => (Err(Error), &[]),
    }
}

// What a byte of a packet is set to, one byte at a time.
pub(crate) const DAMAGE: &[u8] = &[0x00, 0x40, 0x7f, 0x80, 0xc0, 0xff];

// The longest packet of which copies are damaged.
pub(crate) const LONGEST: usize = 257;

// A copy of a packet, and zeros, in which one byte is this one.
pub(crate) fn damaged(packet: &[u8], at: usize, value: u8) -> [u8; LONGEST]
    requires room { length packet.now ≤ LONGEST }
    requires within { at < LONGEST }
{
    let mut copy = [0; LONGEST];
    copy[..packet.len()].copy_from_slice(packet);
    copy[at] = value;
    copy
}

// Compares the crate with the plain reader over these octets, over each shorter part of them from their start on, and
// over each copy of them in which one byte is damaged.
pub(crate) fn compare_damaged(rt: &impl Abort, packet: &[u8]) {
    holds_of(rt, packet, packet.len() <= LONGEST);
    for len in 0..=packet.len() {
        compare(rt, &packet[..len]);
    }
    for at in 0..packet.len() {
        for &value in DAMAGE {
            compare(rt, &damaged(packet, at, value)[..packet.len()]);
        }
    }
}

// Compares the iterator with the plain reader, and where reasons are told. What a header keeps `wiredump` prints, which
// `rust/compare` compares with a plain printer on these octets.
fn compare(rt: &impl Abort, octets: &[u8]) {
    compare_options(rt, octets);
    let option = Repr::refusal(&Ipv6Option::new_unchecked(octets));
    same_of(rt, octets, option.is_none(), first_option(octets).is_some());
    let header = Header::new_unchecked(octets);
    let refusal = ipv6hbh::Repr::refusal(&header);
    let read = ipv6hbh::Repr::parse(&header);
    same_of(rt, octets, refusal.is_none(), read.is_ok());
}

fn compare_options(rt: &impl Abort, octets: &[u8]) {
    let mut options = Ipv6OptionsIterator::new(octets);
    let mut rest = octets;
    for _ in 0..octets.len() {
        if rest.is_empty() {
            break;
        }
        let (answer, after) = first_answer(rest);
        same_of(rt, octets, options.next(), Some(answer));
        rest = after;
    }
    holds_of(rt, octets, rest.is_empty());
    holds_of(rt, octets, options.next().is_none());
    holds_of(rt, octets, options.next().is_none());
}

// Compares the options that are kept of these octets.
pub(crate) fn check_kept(rt: &impl Abort, octets: &[u8], options: &[Repr<'_>]) {
    match ipv6hbh::Repr::parse(&Header::new_unchecked(octets)) {
        Ok(header) => same_of(rt, octets, header.options.as_slice(), options),
        Err(_) => holds_of(rt, octets, false),
    }
}
