//! The addresses of recursive DNS servers, in turn (RFC 8106 section 5.1).

ghost use Rattle.std.specs.Prelude.{◌≡◌, ◌≤◌, ◌+◌, ◌*◌, ◌/◌, ◌∷◌, [], length, map};
ghost use Rattle.std.specs.Fmt.{WritesOnOk};
ghost use Rattle.wirebase.specs.Bytes.{over};
ghost use Rattle.wirebase.specs.ByteWriter.{fields, free, Puts};
ghost use Rattle.wirebase.specs.Ipv6Address.{octets_of};
ghost use Rattle.neighbor_wire.specs.ServersDisplay.{servers_display};

use std::fmt;
use std::marker::Model;
use wirebase::{ByteWriter, Ipv6Address};

// The bytes of an address.
const WIDTH: usize = 16;

/// Addresses, one after another.
#[derive(Debug, PartialEq, Eq, Clone, Copy)]
pub struct Servers<'a> {
    pub(crate) octets: &'a [u8],
}

impl<'a> Servers<'a> {
    ghost use Rattle.std.specs.Prelude.{◌↔◌, IsSome, IfSome, IsTrue};
    ghost use Rattle.std.specs.List.{concat};
    ghost use Rattle.neighbor_wire.specs.Servers.{octets_in, AreServers};

    /// The addresses in these octets, of 16 octets each; fewer octets at the end are ignored.
    pub const fn new(octets: &'a [u8]) -> Servers<'a>
        ensures { octets_in result ≡ octets.now }
    {
        Servers { octets }
    }

    /// Writes these addresses over the front of the octets, and gives them as servers. None where the octets are fewer
    /// than the addresses take; then nothing changes.
    pub fn write(addresses: &[Ipv6Address], octets: &'a mut [u8]) -> Option<Servers<'a>>
        ensures accepts { IsSome result ↔ (16 * length addresses.now ≤ length octets.old) }
        ensures servers { IfSome result (λ servers. octets_in servers ≡ concat (map octets_of addresses.now)) }
    {
        if addresses.len() > octets.len() / WIDTH {
            return None;
        }
        let len = WIDTH * addresses.len();
        let front = &mut octets[..len];
        write_addresses(front, addresses);
        Some(Servers::new(front))
    }

    /// How many they are.
    pub fn len(&self) -> usize
        ensures { result ≡ length (octets_in self.now) / 16 }
    {
        self.octets.len() / WIDTH
    }

    /// Whether there are none.
    pub fn is_empty(&self) -> bool
        ensures { IsTrue result ↔ (length (octets_in self.now) / 16 ≡ 0) }
    {
        self.len() == 0
    }

    /// The addresses in turn.
    pub fn iter(&self) -> ServersIterator<'a>
        ensures { AreServers (octets_in self.now) result }
    {
        ServersIterator { rest: self.octets }
    }
}

/// The addresses of recursive DNS servers in turn.
#[derive(Debug, Clone, Drop)]
pub struct ServersIterator<'a> {
    // The octets after the addresses that were given already.
    rest: &'a [u8],
}

impl<'a> Model for ServersIterator<'a> {
    ghost use Rattle.std.specs.Prelude.{List, ℕ};
    ghost use Rattle.neighbor_wire.specs.Servers.{servers_in};

    ghost Value = { List (List ℕ) };

    ghost view = { λ it. servers_in it.rest.now };
}

impl<'a> Iterator for ServersIterator<'a> {
    ghost use Rattle.std.specs.Iterator.{at_most};
    ghost use Rattle.neighbor_wire.specs.Servers.{GivesServer};

    type Item = Ipv6Address;

    ghost next_gives = { GivesServer };

    ghost remaining = { λ servers. at_most (length servers) };

    fn next(&mut self) -> Option<Ipv6Address> {
        if self.rest.len() < WIDTH {
            return None;
        }
        let (server, behind) = self.rest.split_at(WIDTH);
        self.rest = behind;
        Some(read_address(server))
    }
}

// The address of these octets.
fn read_address(octets: &[u8]) -> Ipv6Address
    requires { length octets.now ≡ 16 }
    ensures { octets_of result ≡ octets.now }
{
    Ipv6Address::from_octets(octets.try_into().unwrap())
}

// Writes addresses into octets of their length.
#[tactic(auto, using(wirebase::proofs::Chains::chain))]
fn write_addresses(octets: &mut [u8], addresses: &[Ipv6Address])
    requires { length octets.old ≡ 16 * length addresses.now }
    ensures { octets.new ≡ over octets.old (fields (map octets_of addresses.now)) }
{
    let mut w = ByteWriter::new(octets);
    put_addresses(&mut w, addresses);
}

// Writes addresses one after another.
fn put_addresses(w: &mut ByteWriter<'_>, addresses: &[Ipv6Address])
    requires { 16 * length addresses.now ≤ length (free w.old) }
    ensures { Puts w.old w.new (map octets_of addresses.now) }
{
    for address in addresses {
        put_address(w, address);
    }
}

// Writes an address.
fn put_address(w: &mut ByteWriter<'_>, address: &Ipv6Address)
    requires { 16 ≤ length (free w.old) }
    ensures puts { Puts w.old w.new (octets_of address.now ∷ []) }
    ensures room { length (free w.old) ≡ 16 + length (free w.new) }
{
    w.put_bytes(&address.octets());
}

/// Prints each address after a space.
impl fmt::Display for Servers<'_> {
    ghost use Rattle.std.specs.Prelude.{Some};
    ghost use Rattle.neighbor_wire.specs.Servers.{octets_in};
    ghost use Rattle.neighbor_wire.specs.ServersDisplay.{servers_display};

    ghost output = { λ servers. Some (servers_display (octets_in servers)) };

    fn fmt<W: fmt::Write>(&self, f: &mut fmt::Formatter<W>) -> fmt::Result {
        fmt_servers(f, self.octets)
    }
}

// Prints each address after a space.
fn fmt_servers<W: fmt::Write>(f: &mut fmt::Formatter<W>, octets: &[u8]) -> fmt::Result
    ensures { WritesOnOk W.write_str_gives f.old result (servers_display octets.now) f.new }
{
    for server in (ServersIterator { rest: octets }) {
        write!(f, " {server}")?;
    }
    Ok(())
}
