//! The sources of a record or of a query, in turn (RFC 3376 sections 4.1.9 and 4.2.9, RFC 3810 sections 5.1.11 and
//! 5.2.9).

ghost use Rattle.std.specs.Prelude.{◌≡◌, ◌≤◌, ◌*◌, length, map};
ghost use Rattle.wirebase.specs.Bytes.{over};
ghost use Rattle.wirebase.specs.ByteWriter.{fields, free, Puts};
ghost use Rattle.group_wire.specs.Family.{width};

use crate::address::Address;
use std::marker::{Model, PhantomData};
use wirebase::ByteWriter;

/// The sources of a record or of a query: addresses, one after another, at most 65,535 of them.
#[derive(Debug, PartialEq, Eq, Clone, Copy)]
pub struct Sources<'a, A: Address> {
    pub(crate) octets: &'a [u8],
    address: PhantomData<A>,
}

impl<'a, A: Address> Sources<'a, A> {
    ghost use Rattle.std.specs.Prelude.{◌/◌, [], ◌↔◌, IsSome, IfSome, IsTrue};
    ghost use Rattle.std.specs.List.{concat};
    ghost use Rattle.group_wire.specs.Sources.{octets_in, AreAddresses, addresses_in, AreSources, sources_in};

    /// No sources.
    pub const fn none() -> Sources<'a, A>
        ensures { octets_in result ≡ [] }
    {
        Sources::of_octets(&[])
    }

    // The sources that these octets are, whole addresses, at most 65,535 of them.
    pub(crate) const fn of_octets(octets: &'a [u8]) -> Sources<'a, A>
        ensures { octets_in result ≡ octets.now }
    {
        Sources {
            octets,
            address: PhantomData,
        }
    }

    /// The sources in these octets: as many addresses as are whole, and the first 65,535 of more, since a query or a
    /// record counts them in two bytes. The octets behind them are ignored.
    pub fn new(octets: &'a [u8]) -> Sources<'a, A>
        ensures octets { octets_in result ≡ addresses_in (width A.family) octets.now }
        ensures addresses { AreAddresses (width A.family) (octets_in result) }
    {
        let count = (octets.len() / A::width()).min(u16::MAX as usize);
        let len = A::width() * count;
        Sources::of_octets(&octets[..len])
    }

    /// Writes these addresses over the front of the octets, and gives them as sources. None where they are more than
    /// 65,535, or where the octets are fewer than they take; then nothing changes.
    pub fn write(addresses: &[A], octets: &'a mut [u8]) -> Option<Sources<'a, A>>
        ensures accepts { IsSome result
            ↔ (length addresses.now ≤ 65535) × (width A.family * length addresses.now ≤ length octets.old) }
        ensures sources { IfSome result (λ sources. octets_in sources ≡ concat (map A.bytes addresses.now)) }
        ensures addresses { IfSome result (λ sources. AreAddresses (width A.family) (octets_in sources)) }
    {
        if addresses.len() > u16::MAX as usize {
            return None;
        }
        if addresses.len() > octets.len() / A::width() {
            return None;
        }
        let len = A::width() * addresses.len();
        let front = &mut octets[..len];
        write_addresses(front, addresses);
        Some(Sources::of_octets(front))
    }

    /// How many they are.
    pub fn len(&self) -> usize
        ensures { result ≡ length (octets_in self.now) / width A.family }
    {
        self.octets.len() / A::width()
    }

    /// Whether there are none.
    pub fn is_empty(&self) -> bool
        ensures { IsTrue result ↔ (length (octets_in self.now) / width A.family ≡ 0) }
    {
        self.len() == 0
    }

    /// The sources in turn.
    pub fn iter(&self) -> SourcesIterator<'a, A>
        ensures sources { AreSources (width A.family) (octets_in self.now) result }
        ensures computed { result ≡ sources_in (width A.family) (octets_in self.now) }
    {
        SourcesIterator {
            rest: self.octets,
            address: PhantomData,
        }
    }
}

/// The sources of a record or of a query in turn.
#[derive(Debug, Clone, Drop)]
pub struct SourcesIterator<'a, A: Address> {
    // The octets after the sources that were given already.
    rest: &'a [u8],
    address: PhantomData<A>,
}

impl<'a, A: Address> Model for SourcesIterator<'a, A> {
    ghost use Rattle.std.specs.Prelude.{List, ℕ};
    ghost use Rattle.group_wire.specs.Family.{width};
    ghost use Rattle.group_wire.specs.Sources.{sources_in};

    ghost Value = { List (List ℕ) };

    ghost view = { λ it. sources_in (width A.family) it.rest.now };
}

impl<'a, A: Address> Iterator for SourcesIterator<'a, A> {
    ghost use Rattle.std.specs.Iterator.{at_most};
    ghost use Rattle.group_wire.specs.Sources.{GivesSource};

    type Item = A;

    ghost next_gives = { GivesSource A.bytes };

    ghost remaining = { λ sources. at_most (length sources) };

    fn next(&mut self) -> Option<A> {
        let width = A::width();
        if self.rest.len() < width {
            return None;
        }
        let (source, behind) = self.rest.split_at(width);
        self.rest = behind;
        Some(A::read(source))
    }
}

// Writes addresses into octets of their length.
#[tactic(auto, using(wirebase::proofs::Chains::chain))]
fn write_addresses<A: Address>(octets: &mut [u8], addresses: &[A])
    requires { length octets.old ≡ width A.family * length addresses.now }
    ensures { octets.new ≡ over octets.old (fields (map A.bytes addresses.now)) }
{
    let mut w = ByteWriter::new(octets);
    put_addresses(&mut w, addresses);
}

// Writes addresses one after another.
pub(crate) fn put_addresses<A: Address>(w: &mut ByteWriter<'_>, addresses: &[A])
    requires { width A.family * length addresses.now ≤ length (free w.old) }
    ensures { Puts w.old w.new (map A.bytes addresses.now) }
{
    for address in addresses {
        address.put(w);
    }
}
