//! The hosts of packets.

ghost use Rattle.std.specs.Prelude.{◌≡◌, IfSome, IfNone};
ghost use Rattle.std.specs.Option.{option_map};
ghost use Rattle.dump_captures.specs.Host.{HasBits, IsAddress, IsHostText, has_host, is_between, share};
ghost use Rattle.dump_captures.specs.private.Hosts.{bits_in};
ghost use Rattle.dump_captures.specs.declared.host.Host.{Host as AnyHost};

use crate::settings::{number_in, split};
use frame_wire::Addresses;
use std::net::IpAddr;
use wirebase::{Ipv4Address, Ipv6Address};

// The bits of an address.
const V4_BITS: u8 = 32;

const V6_BITS: u8 = 128;

/// A host: an address, or all those whose first bits are those of an address.
#[derive(Debug, PartialEq, Eq, Clone, Copy)]
pub enum Host {
    /// Of IPv4, with the number of bits.
    V4(Ipv4Address, u8),
    /// Of IPv6.
    V6(Ipv6Address, u8),
}

impl Host {
    /// The host of this text: `192.0.2.1`, `192.0.2.0/24`, `2001:db8::1`, `2001:db8::/32`.
    pub fn read(text: &str) -> Option<Host>
        ensures host { IfSome result (λ host. IsHostText text.now host) }
        ensures none { IfNone result ((host : AnyHost) → IsHostText text.now host → ⊥) }
    {
        let (front, digits) = split(text, '/');
        match front.parse() {
            Ok(address) => Host::of(address, digits),
            Err(_) => None,
        }
    }

    // The host of an address, with the bits of these digits or all.
    fn of(address: IpAddr, digits: Option<&str>) -> Option<Host>
        ensures host { IfSome result (λ host. IsAddress address host
            × HasBits (option_map (λ text. text.now) digits.entry) host) }
        ensures none { IfNone result ((host : AnyHost) → IsAddress address host
            → HasBits (option_map (λ text. text.now) digits.entry) host → ⊥) }
    {
        match address {
            IpAddr::V4(address) => {
                let bits = bits_in(digits, V4_BITS)?;
                Some(Host::V4(Ipv4Address::from_octets(address.octets()), bits))
            }
            IpAddr::V6(address) => {
                let bits = bits_in(digits, V6_BITS)?;
                Some(Host::V6(Ipv6Address::from_octets(address.octets()), bits))
            }
        }
    }

    /// Whether one of these addresses is that of the host.
    pub fn is_between(&self, addresses: &Addresses) -> bool
        ensures { result ≡ is_between self.now addresses.now }
    {
        match (self, addresses) {
            (Host::V4(address, bits), Addresses::V4(source, destination)) => {
                let octets = address.octets();
                share(*bits, &octets, &source.octets())
                    || share(*bits, &octets, &destination.octets())
            }
            (Host::V6(address, bits), Addresses::V6(source, destination)) => {
                let octets = address.octets();
                share(*bits, &octets, &source.octets())
                    || share(*bits, &octets, &destination.octets())
            }
            _ => false,
        }
    }
}

/// Whether packets between these addresses, where they are known, are chosen by a host that may be asked for.
pub fn has_host(host: &Option<Host>, addresses: &Option<Addresses>) -> bool
    ensures { result ≡ has_host host.now addresses.now }
{
    match (host, addresses) {
        (None, _) => true,
        (Some(_), None) => false,
        (Some(host), Some(addresses)) => host.is_between(addresses),
    }
}

// The number of bits that these digits are, at most this many, or else all.
fn bits_in(digits: Option<&str>, most: u8) -> Option<u8>
    ensures { result ≡ bits_in (option_map (λ text. text.now) digits.entry) most }
{
    let Some(digits) = digits else {
        return Some(most);
    };
    let bits = number_in(digits)?;
    if bits > u64::from(most) {
        return None;
    }
    Some(bits as u8)
}

// Whether the first bits of two addresses, this many, are the same.
fn share(bits: u8, left: &[u8], right: &[u8]) -> bool
    ensures { result ≡ share bits left.now right.now }
{
    let (mut bits, mut left, mut right) = (bits, left, right);
    while let [x, xs @ ..] = left {
        let [y, ys @ ..] = right else {
            return true;
        };
        if bits < 8 {
            // Of no bits all eight go, for which an octet is too short.
            return u16::from(*x) >> (8 - bits) == u16::from(*y) >> (8 - bits);
        }
        if *x != *y {
            return false;
        }
        bits -= 8;
        left = xs;
        right = ys;
    }
    true
}
