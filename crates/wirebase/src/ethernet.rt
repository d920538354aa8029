//! Hardware addresses.
#![tactic(auto, using(crate::proofs::Pieces::pieces))]

ghost use Rattle.std.specs.Prelude.{
  ◌≡◌,
  ◌≤◌,
  ◌↔◌,
  ◌-◌,
  length,
  drop,
  replicate,
  IsTrue,
  Some,
};
ghost use Rattle.wirebase.specs.Ethernet.{Ethernet, octets_of};
ghost use Rattle.wirebase.specs.Hexadecimal.{hex_colons};

use crate::text::HexColons;
use std::fmt::{self, Display};

/// The greatest number of bytes of a hardware address.
pub const MAX_HARDWARE_ADDRESS_LEN: usize = 8;

/// An address of Ethernet: six octets, in the order in which they are sent (IEEE 802, RFC 894).
#[derive(Debug, Clone, Copy)]
pub struct EthernetAddress(pub [u8; 6]);

impl EthernetAddress {
    ghost use Rattle.wirebase.specs.HardwareAddress.{ethernet_of};

    /// The address of these octets, of which there have to be 6. Addresses are equal exactly when their octets are.
    pub fn from_bytes(bytes: &[u8]) -> EthernetAddress
        requires { length bytes.now ≡ 6 }
        ensures value { octets_of (ethernet_of result) ≡ bytes.now }
        ensures same { (x y : Ethernet) → (x ≡ y) ↔ (octets_of x ≡ octets_of y) }
    {
        EthernetAddress(bytes.try_into().unwrap())
    }

    /// The octets.
    pub fn as_bytes(&self) -> &[u8]
        ensures { result.now ≡ octets_of (ethernet_of self.now) }
    {
        &self.0
    }
}

impl From<[u8; 6]> for EthernetAddress {
    ghost use Rattle.wirebase.specs.HardwareAddress.{ethernet_of};

    ghost from_gives = { λ octets address. octets_of (ethernet_of address) ≡ octets };

    fn from(octets: [u8; 6]) -> EthernetAddress
        ensures { octets_of (ethernet_of result) ≡ octets }
    {
        EthernetAddress(octets)
    }
}

/// Addresses are equal exactly when their octets are.
impl PartialEq for EthernetAddress {
    ghost use Rattle.std.specs.Prelude.{◌==◌};
    ghost use Rattle.std.proofs.Common.{rules};
    ghost use Rattle.std.specs.Cmp.Lexicographic.{pointwise};
    ghost use Rattle.std.specs.Cmp.Rules.{comparing};
    ghost use Rattle.std.specs.Ordering.{on};
    ghost use Rattle.wirebase.specs.HardwareAddress.{ethernet_of};

    ghost eq = { on (λ address. octets_of (ethernet_of address)) (pointwise ◌==◌) };

    ghost laws = { Prim.search (comparing, rules) };

    fn eq(&self, other: &EthernetAddress) -> bool
        ensures { IsTrue result ↔ (octets_of (ethernet_of self.now) ≡ octets_of (ethernet_of other.now)) }
    {
        self.as_bytes() == other.as_bytes()
    }
}

impl Eq for EthernetAddress {
    ghost use Rattle.std.proofs.Common.{rules};
    ghost use Rattle.std.specs.Cmp.Rules.{comparing};

    ghost laws = { Prim.search (comparing, rules) };
}

/// The octets as two hexadecimal digits each, with colons between them, as `52:54:00:12:34:56`.
impl fmt::Display for EthernetAddress {
    ghost use Rattle.wirebase.specs.HardwareAddress.{ethernet_of};

    ghost output = { λ address. Some (hex_colons (octets_of (ethernet_of address))) };

    fn fmt<W: fmt::Write>(&self, f: &mut fmt::Formatter<W>) -> fmt::Result {
        HexColons(self.as_bytes()).fmt(f)
    }
}

/// A hardware address of some medium: 0 to 8 bytes. Addresses are equal exactly when their bytes are.
#[derive(Debug, PartialEq, Eq, Clone, Copy)]
pub struct RawHardwareAddress {
    len: usize,
    // The bytes of the address, and zeros.
    bytes: [u8; MAX_HARDWARE_ADDRESS_LEN],
    pub ghost fits: { len ≤ 8 },
    pub ghost whole: { length bytes ≡ 8 },
    pub ghost filled: { drop len bytes ≡ replicate (8 - len) 0 },
}

impl RawHardwareAddress {
    ghost use Rattle.wirebase.specs.HardwareAddress.{raw_bytes};
    ghost use Rattle.wirebase.specs.declared.ethernet.RawHardwareAddress.{RawHardwareAddress};

    /// The address of these bytes, of which there may be 8 at most.
    #[inline]
    pub fn from_bytes(bytes: &[u8]) -> RawHardwareAddress
        requires { length bytes.now ≤ 8 }
        ensures value { raw_bytes result ≡ bytes.now }
        ensures same { (x y : RawHardwareAddress) → (x ≡ y) ↔ (raw_bytes x ≡ raw_bytes y) }
        ensures equality { (x y : RawHardwareAddress)
            → IsTrue (⟦<RawHardwareAddress as PartialEq>⟧.eq x y) ↔ (raw_bytes x ≡ raw_bytes y) }
    {
        let mut all = [0; MAX_HARDWARE_ADDRESS_LEN];
        let len = bytes.len();
        all[..len].copy_from_slice(bytes);
        RawHardwareAddress { len, bytes: all }
    }

    /// The bytes.
    pub fn as_bytes(&self) -> &[u8]
        ensures value { result.now ≡ raw_bytes self.now }
        ensures small { length result.now ≤ 8 }
    {
        &self.bytes[..self.len]
    }

    /// The number of bytes, 0 to 8.
    pub fn len(&self) -> usize
        ensures value { result ≡ length (raw_bytes self.now) }
        ensures small { result ≤ 8 }
    {
        self.len
    }

    /// Whether there are no bytes.
    pub fn is_empty(&self) -> bool
        ensures { IsTrue result ↔ (length (raw_bytes self.now) ≡ 0) }
    {
        self.len == 0
    }
}

impl From<EthernetAddress> for RawHardwareAddress {
    ghost use Rattle.wirebase.specs.HardwareAddress.{ethernet_of, raw_bytes};

    ghost from_gives = { λ address raw. raw_bytes raw ≡ octets_of (ethernet_of address) };

    fn from(address: EthernetAddress) -> RawHardwareAddress
        ensures { raw_bytes result ≡ octets_of (ethernet_of address) }
    {
        RawHardwareAddress::from_bytes(address.as_bytes())
    }
}

/// The bytes as two hexadecimal digits each, with colons between them.
impl fmt::Display for RawHardwareAddress {
    ghost use Rattle.wirebase.specs.HardwareAddress.{raw_bytes};

    ghost output = { λ address. Some (hex_colons (raw_bytes address)) };

    fn fmt<W: fmt::Write>(&self, f: &mut fmt::Formatter<W>) -> fmt::Result {
        HexColons(self.as_bytes()).fmt(f)
    }
}
