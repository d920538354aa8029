//! IPv6 addresses (RFC 4291).

ghost use Rattle.std.specs.Prelude.{◌≡◌, length};

use crate::text::{ToFormatter, put_v6};
use std::fmt;

/// An IPv6 address, sixteen octets (RFC 4291 section 2).
#[derive(Debug, PartialEq, Eq, Clone, Copy)]
pub struct Ipv6Address {
    octets: [u8; 16],
    pub ghost whole: { length octets ≡ 16 },
}

impl Ipv6Address {
    ghost use Rattle.std.specs.Prelude.{◌↔◌, ◌++◌, IsTrue, replicate};
    ghost use Rattle.byteorder.specs.Endian.{big_bytes};
    ghost use Rattle.wirebase.specs.declared.ipv6.address.Ipv6Address.{Ipv6Address};
    ghost use Rattle.wirebase.specs.Ipv6Address.{octets_of, IsMulticast, IsLinkLocal};

    /// No address, `::`.
    pub const UNSPECIFIED: Ipv6Address = Ipv6Address { octets: [0; 16] };

    /// The address of these eight groups of 16 bits, the highest first.
    pub const fn new(a: u16, b: u16, c: u16, d: u16, e: u16, f: u16, g: u16, h: u16) -> Ipv6Address
        ensures { octets_of result ≡ big_bytes 2 a ++ big_bytes 2 b ++ big_bytes 2 c
            ++ big_bytes 2 d ++ big_bytes 2 e ++ big_bytes 2 f ++ big_bytes 2 g ++ big_bytes 2 h }
    {
        let [a0, a1] = a.to_be_bytes();
        let [b0, b1] = b.to_be_bytes();
        let [c0, c1] = c.to_be_bytes();
        let [d0, d1] = d.to_be_bytes();
        let [e0, e1] = e.to_be_bytes();
        let [f0, f1] = f.to_be_bytes();
        let [g0, g1] = g.to_be_bytes();
        let [h0, h1] = h.to_be_bytes();
        Ipv6Address {
            octets: [
                a0, a1, b0, b1, c0, c1, d0, d1, e0, e1, f0, f1, g0, g1, h0, h1,
            ],
        }
    }

    /// The address of these octets, the highest first. Addresses are equal exactly when their octets are.
    pub const fn from_octets(octets: [u8; 16]) -> Ipv6Address
        ensures value { octets_of result ≡ octets }
        ensures same { (x y : Ipv6Address) → (x ≡ y) ↔ (octets_of x ≡ octets_of y) }
        ensures equality { (x y : Ipv6Address) → IsTrue (⟦<Ipv6Address as PartialEq>⟧.eq x y)
            ↔ (octets_of x ≡ octets_of y) }
    {
        Ipv6Address { octets }
    }

    /// The octets, the highest first.
    pub const fn octets(&self) -> [u8; 16]
        ensures { result ≡ octets_of self.now }
    {
        self.octets
    }

    /// Whether this is `::`.
    pub fn is_unspecified(&self) -> bool
        ensures { IsTrue result ↔ (octets_of self.now ≡ replicate 16 0) }
    {
        *self == Self::UNSPECIFIED
    }

    /// Whether packets to this address go to many receivers: its first octet is 0xff (RFC 4291 section 2.7).
    pub const fn is_multicast(&self) -> bool
        ensures { IsTrue result ↔ IsMulticast self.now }
    {
        self.octets[0] == 0xff
    }

    /// Whether this address is for use on one link alone: `fe80::/64` (RFC 4291 section 2.5.6).
    pub fn is_link_local(&self) -> bool
        ensures { IsTrue result ↔ IsLinkLocal self.now }
    {
        self.octets[..8] == [0xfe, 0x80, 0, 0, 0, 0, 0, 0]
    }
}

impl From<[u8; 16]> for Ipv6Address {
    ghost use Rattle.wirebase.specs.Ipv6Address.{octets_of};

    ghost from_gives = { λ octets address. octets_of address ≡ octets };

    fn from(octets: [u8; 16]) -> Ipv6Address
        ensures { octets_of result ≡ octets }
    {
        Ipv6Address::from_octets(octets)
    }
}

/// All nodes of a link, `ff02::1` (RFC 4291 section 2.7.1).
pub const IPV6_LINK_LOCAL_ALL_NODES: Ipv6Address = Ipv6Address {
    octets: [0xff, 0x02, 0, 0, 0, 0, 0, 0, 0, 0, 0, 0, 0, 0, 0, 1],
};

/// All routers of a link, `ff02::2` (RFC 4291 section 2.7.1).
pub const IPV6_LINK_LOCAL_ALL_ROUTERS: Ipv6Address = Ipv6Address {
    octets: [0xff, 0x02, 0, 0, 0, 0, 0, 0, 0, 0, 0, 0, 0, 0, 0, 2],
};

/// The groups in hexadecimal, as `fe80::1` (RFC 5952 section 4).
impl fmt::Display for Ipv6Address {
    ghost use Rattle.std.specs.Prelude.{Some};
    ghost use Rattle.wirebase.specs.Ipv6Address.{address_text};

    ghost output = { λ address. Some (address_text address) };

    #[tactic(auto, using(crate::proofs::Sinks::displayed))]
    fn fmt<W: fmt::Write>(&self, f: &mut fmt::Formatter<W>) -> fmt::Result {
        put_v6::<_, ToFormatter>(f, *self, None)
    }
}
