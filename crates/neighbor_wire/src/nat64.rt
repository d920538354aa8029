//! The prefix of a NAT64 (RFC 8781 section 4).

ghost use Rattle.std.specs.Prelude.{◌≡◌, ◌<◌, ◌≤◌, ◌*◌, ◌↔◌, length, replicate, IfSome, IsNone};
ghost use Rattle.wirebase.specs.Ipv6Address.{octets_of};
ghost use Rattle.wirebase.specs.Bytes.{over};
ghost use Rattle.wirebase.specs.ByteWriter.{free, Puts};
ghost use Rattle.neighbor_wire.specs.Nat64.{length_code, length_bits, split_fields, embedded_fields};
ghost use Rattle.neighbor_wire.specs.Nat64.{embedded};

use std::fmt;
use wirebase::{ByteWriter, Ipv4Address, Ipv6Address};

/// The number of bits of a NAT64 prefix, by its code (RFC 8781 section 4, RFC 6052 section 2.2).
#[derive(Debug, PartialEq, Eq, Clone, Copy)]
pub enum Nat64Length {
    /// 96 bits, code 0.
    Bits96,
    /// 64 bits, code 1.
    Bits64,
    /// 56 bits, code 2.
    Bits56,
    /// 48 bits, code 3.
    Bits48,
    /// 40 bits, code 4.
    Bits40,
    /// 32 bits, code 5.
    Bits32,
}

impl Nat64Length {
    /// The number of bits.
    pub fn bits(self) -> u8
        ensures { result ≡ length_bits self }
    {
        match self {
            Nat64Length::Bits96 => 96,
            Nat64Length::Bits64 => 64,
            Nat64Length::Bits56 => 56,
            Nat64Length::Bits48 => 48,
            Nat64Length::Bits40 => 40,
            Nat64Length::Bits32 => 32,
        }
    }

    // The code.
    pub(crate) fn code(self) -> u8
        ensures value { result ≡ length_code self }
        ensures small { result < 6 }
    {
        match self {
            Nat64Length::Bits96 => 0,
            Nat64Length::Bits64 => 1,
            Nat64Length::Bits56 => 2,
            Nat64Length::Bits48 => 3,
            Nat64Length::Bits40 => 4,
            Nat64Length::Bits32 => 5,
        }
    }

    // The length of this code; None where none has it.
    pub(crate) fn of(code: u8) -> Option<Nat64Length>
        ensures value { IfSome result (λ length. length_code length ≡ code) }
        ensures none { IsNone result ↔ (6 ≤ code) }
    {
        match code {
            0 => Some(Nat64Length::Bits96),
            1 => Some(Nat64Length::Bits64),
            2 => Some(Nat64Length::Bits56),
            3 => Some(Nat64Length::Bits48),
            4 => Some(Nat64Length::Bits40),
            5 => Some(Nat64Length::Bits32),
            _ => None,
        }
    }
}

/// The prefix by which a NAT64 makes addresses of IPv6 of those of IPv4.
#[derive(Debug, PartialEq, Eq, Clone, Copy)]
pub struct Nat64Prefix<'a> {
    /// How long the prefix is valid, in units of 8 seconds; below 8192.
    pub scaled_lifetime: u16,
    /// The number of bits of the prefix.
    pub length: Nat64Length,
    /// The first 12 octets of the addresses, zero behind the prefix.
    pub prefix: &'a [u8],
}

impl Nat64Prefix<'_> {
    ghost use Rattle.wirebase.specs.Ipv4.{octets_of as octets_of_v4};

    /// How long the prefix is valid, in seconds.
    pub fn lifetime(&self) -> u32
        ensures { result ≡ 8 * self.now.scaled_lifetime }
    {
        8 * self.scaled_lifetime as u32
    }

    /// The address of IPv6 that stands for an address of IPv4 (RFC 6052 section 2.2). Requires the 12 octets of a
    /// prefix.
    #[tactic(auto, using(crate::proofs::Embedded::over_embedded))]
    pub fn address_of(&self, address: Ipv4Address) -> Ipv6Address
        requires { length self.now.prefix.now ≡ 12 }
        ensures { octets_of result ≡ embedded self.now.length self.now.prefix.now (octets_of_v4 address) }
    {
        let mut octets = [0; 16];
        write_address(&mut octets, self.length, self.prefix, &address.octets());
        Ipv6Address::from_octets(octets)
    }
}

// Writes the address that a prefix and the octets of an address of IPv4 make.
#[tactic(auto, using(wirebase::proofs::Chains::chain))]
fn write_address(address: &mut [u8], bits: Nat64Length, prefix: &[u8], octets: &[u8])
    requires room { length address.old ≡ 16 }
    requires prefix { length prefix.now ≡ 12 }
    requires octets { length octets.now ≡ 4 }
    ensures { address.new ≡ over address.old (embedded bits prefix.now octets.now) }
{
    let mut w = ByteWriter::new(address);
    put_address(&mut w, bits, prefix, octets);
}

// Writes the fields of that address.
fn put_address(w: &mut ByteWriter<'_>, bits: Nat64Length, prefix: &[u8], octets: &[u8])
    requires room { 16 ≤ length (free w.old) }
    requires prefix { length prefix.now ≡ 12 }
    requires octets { length octets.now ≡ 4 }
    ensures { Puts w.old w.new (embedded_fields bits prefix.now octets.now) }
{
    match bits {
        Nat64Length::Bits96 => {
            w.put_bytes(prefix);
            w.put_bytes(octets);
        }
        Nat64Length::Bits64 => put_split(w, 8, prefix, octets),
        Nat64Length::Bits56 => put_split(w, 7, prefix, octets),
        Nat64Length::Bits48 => put_split(w, 6, prefix, octets),
        Nat64Length::Bits40 => put_split(w, 5, prefix, octets),
        Nat64Length::Bits32 => put_split(w, 4, prefix, octets),
    }
}

// Writes a prefix of so many octets and an address of IPv4, around the zero at place 8, and zeros behind them.
fn put_split(w: &mut ByteWriter<'_>, whole: usize, prefix: &[u8], octets: &[u8])
    requires whole { whole ≤ 8 }
    requires some { 4 ≤ whole }
    requires prefix { length prefix.now ≡ 12 }
    requires octets { length octets.now ≡ 4 }
    requires room { 16 ≤ length (free w.old) }
    ensures { Puts w.old w.new (split_fields whole prefix.now octets.now) }
{
    let before = 8 - whole;
    w.put_bytes(&prefix[..whole]);
    w.put_bytes(&octets[..before]);
    w.put_u8(0);
    w.put_bytes(&octets[before..]);
    w.put_zeros(11 - whole);
}

// The address that the octets begin, with zeros behind them.
pub(crate) fn address_from(front: &[u8]) -> Ipv6Address
    ensures { octets_of result ≡ over (replicate 16 0) front.now }
{
    let mut octets = [0; 16];
    write_front(&mut octets, front);
    Ipv6Address::from_octets(octets)
}

// Writes the first of the octets, as many as there is room for.
#[tactic(auto, using(wirebase::proofs::Chains::chain, crate::proofs::Embedded::one_field))]
fn write_front(octets: &mut [u8], front: &[u8])
    ensures { octets.new ≡ over octets.old front.now }
{
    let mut w = ByteWriter::new(octets);
    w.put_front(front);
}

/// Prints the prefix with its length and its lifetime in seconds, as `NAT64 prefix 64:ff9b::/96 lifetime=1800`.
impl fmt::Display for Nat64Prefix<'_> {
    ghost use Rattle.std.specs.Prelude.{Some};
    ghost use Rattle.neighbor_wire.specs.Option.{nat64_value};
    ghost use Rattle.neighbor_wire.specs.Display.{display};

    ghost output = { λ prefix. Some (display (nat64_value prefix)) };

    fn fmt<W: fmt::Write>(&self, f: &mut fmt::Formatter<W>) -> fmt::Result {
        let prefix = address_from(self.prefix);
        let bits = self.length.bits();
        let lifetime = self.lifetime();
        write!(f, "NAT64 prefix {prefix}/{bits} lifetime={lifetime}")
    }
}
