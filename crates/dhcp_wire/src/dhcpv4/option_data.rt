//! The data of options, written from the fields of a value (RFC 2132).
#![tactic(auto, using(crate::proofs::Dhcpv4Data::lengths))]

ghost use Rattle.std.specs.Prelude.{◌≡◌, ◌≤◌, ◌+◌, ◌∷◌, [], List, ℕ, length, flat_map};
ghost use Rattle.wirebase.specs.ByteWriter.{Puts, free};

use super::MAX_DNS_SERVER_COUNT;
use super::repr::ETHERNET;
use super::tables::MessageType;
use arrayvec::ArrayVec;
use wirebase::{ByteWriter, EthernetAddress, Ipv4Address};

// A value that is written as the data of an option.
pub(super) trait Data: Drop {
    ghost bytes: { Self → List ℕ };

    // The number of bytes.
    fn len(&self) -> usize
        ensures value { result ≡ length (bytes self.now) }
        ensures fits { 2 + result ≤ usize.MAX };

    // Writes the bytes. Requires that as many are free.
    fn put(&self, w: &mut ByteWriter<'_>)
        requires { length (bytes self.now) ≤ length (free w.old) }
        ensures puts { Puts w.old w.new (bytes self.now ∷ []) }
        ensures room { length (free w.old) ≡ length (bytes self.now) + length (free w.new) };
}

impl Data for &[u8] {
    ghost bytes = { λ body. body.now };

    fn len(&self) -> usize {
        <[u8]>::len(*self)
    }

    fn put(&self, w: &mut ByteWriter<'_>) {
        w.put_bytes(*self);
    }
}

impl Data for MessageType {
    ghost use Rattle.wirebase.specs.ByteWriter.{be8};
    ghost use Rattle.dhcp_wire.specs.Dhcpv4Tables.{message_number};

    ghost bytes = { λ message_type. be8 (message_number message_type) };

    fn len(&self) -> usize {
        1
    }

    fn put(&self, w: &mut ByteWriter<'_>) {
        w.put_u8((*self).into());
    }
}

impl Data for u16 {
    ghost use Rattle.wirebase.specs.ByteWriter.{be16};

    ghost bytes = { λ number. be16 number };

    fn len(&self) -> usize {
        2
    }

    fn put(&self, w: &mut ByteWriter<'_>) {
        w.put_u16(*self);
    }
}

impl Data for u32 {
    ghost use Rattle.wirebase.specs.ByteWriter.{be32};

    ghost bytes = { λ number. be32 number };

    fn len(&self) -> usize {
        4
    }

    fn put(&self, w: &mut ByteWriter<'_>) {
        w.put_u32(*self);
    }
}

impl Data for Ipv4Address {
    ghost use Rattle.wirebase.specs.Ipv4.{octets_of};

    ghost bytes = { octets_of };

    fn len(&self) -> usize {
        4
    }

    fn put(&self, w: &mut ByteWriter<'_>) {
        w.put_bytes(&self.octets());
    }
}

// The hardware type of Ethernet, and the address.
impl Data for EthernetAddress {
    ghost use Rattle.std.specs.Prelude.{◌∷◌};
    ghost use Rattle.wirebase.specs.Ethernet.{octets_of};
    ghost use Rattle.wirebase.specs.HardwareAddress.{ethernet_of};

    ghost bytes = { λ address. 1 ∷ octets_of (ethernet_of address) };

    fn len(&self) -> usize {
        7
    }

    fn put(&self, w: &mut ByteWriter<'_>) {
        let [a, b, c, d, e, f] = self.0;
        w.put_bytes(&[ETHERNET, a, b, c, d, e, f]);
    }
}

// The addresses one after another.
impl Data for &ArrayVec<Ipv4Address, MAX_DNS_SERVER_COUNT> {
    ghost use Rattle.std.specs.Prelude.{flat_map};
    ghost use Rattle.wirebase.specs.Ipv4.{octets_of};

    ghost bytes = { λ addresses. flat_map octets_of addresses.now.items };

    fn len(&self) -> usize {
        4 * ArrayVec::len(*self)
    }

    #[tactic(auto, using(crate::proofs::Dhcpv4Data::addresses))]
    fn put(&self, w: &mut ByteWriter<'_>) {
        for address in self.as_slice() {
            w.put_bytes(&address.octets());
        }
    }
}
