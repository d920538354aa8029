//! The addresses of groups and of sources, of IPv4 and of IPv6.

ghost use Rattle.std.specs.Prelude.{◌≡◌, ◌≤◌, ◌+◌, ◌∷◌, [], ℕ, List, length};
ghost use Rattle.std.specs.Fmt.{WritesOnOk};
ghost use Rattle.wirebase.specs.ByteWriter.{free, Puts};
ghost use Rattle.group_wire.specs.Family.{width};
ghost use Rattle.group_wire.specs.declared.family.Family.{Family};

use crate::family::Family;
use std::fmt;
use wirebase::{ByteWriter, Ipv4Address, Ipv6Address};

/// An address, and the protocol of the messages about groups of such addresses: [`Ipv4Address`] and IGMP, or
/// [`Ipv6Address`] and MLD.
pub trait Address: Copy {
    /// The protocol.
    ghost family: { Family };

    /// The octets of an address, the highest first.
    ghost bytes: { Self → List ℕ };

    /// The protocol.
    fn family() -> Family
        ensures { result ≡ family };

    /// The bytes of an address: 4 or 16.
    final fn width() -> usize
        ensures { result ≡ width family }
    {
        Self::family().width()
    }

    /// The address of these octets. Requires as many as an address has.
    fn read(octets: &[u8]) -> Self
        requires { length octets.now ≡ width family }
        ensures { bytes result ≡ octets.now };

    /// Writes the octets. Requires that as many are free.
    fn put(&self, w: &mut ByteWriter<'_>)
        requires { width family ≤ length (free w.old) }
        ensures puts { Puts w.old w.new (bytes self.now ∷ []) }
        ensures room { length (free w.old) ≡ width family + length (free w.new) };

    /// The text of an address of these octets, as `192.0.2.1` or `2001:db8::1`.
    ghost display: { List ℕ → List ℕ };

    /// Prints the address.
    fn show<W: fmt::Write>(&self, f: &mut fmt::Formatter<W>) -> fmt::Result
        ensures { WritesOnOk W.write_str_gives f.old result (display (bytes self.now)) f.new };

    ghost whole: { (a : Self) → length (bytes a) ≡ width family };
}

impl Address for Ipv4Address {
    ghost use Rattle.std.specs.Prelude.{refl};
    ghost use Rattle.wirebase.specs.Ipv4.{octets_of};
    ghost use Rattle.group_wire.specs.Display.{octets_text_v4};
    ghost use Rattle.group_wire.specs.declared.family.Family.{Family};

    ghost family = { Family.Igmp };

    ghost bytes = { octets_of };

    ghost display = { octets_text_v4 };

    ghost whole = { λ a. refl };

    fn family() -> Family {
        Family::Igmp
    }

    fn read(octets: &[u8]) -> Ipv4Address {
        Ipv4Address::from_octets(octets.try_into().unwrap())
    }

    fn put(&self, w: &mut ByteWriter<'_>) {
        w.put_bytes(&self.octets());
    }

    fn show<W: fmt::Write>(&self, f: &mut fmt::Formatter<W>) -> fmt::Result {
        write!(f, "{self}")
    }
}

impl Address for Ipv6Address {
    ghost use Rattle.wirebase.specs.Ipv6Address.{octets_of};
    ghost use Rattle.group_wire.specs.Display.{octets_text_v6};
    ghost use Rattle.group_wire.specs.declared.family.Family.{Family};

    ghost family = { Family.Mld };

    ghost bytes = { octets_of };

    ghost display = { octets_text_v6 };

    ghost whole = { λ a. a.whole };

    fn family() -> Family {
        Family::Mld
    }

    fn read(octets: &[u8]) -> Ipv6Address {
        Ipv6Address::from_octets(octets.try_into().unwrap())
    }

    fn put(&self, w: &mut ByteWriter<'_>) {
        w.put_bytes(&self.octets());
    }

    fn show<W: fmt::Write>(&self, f: &mut fmt::Formatter<W>) -> fmt::Result {
        write!(f, "{self}")
    }
}
