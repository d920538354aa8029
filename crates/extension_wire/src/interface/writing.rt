//! What an object says of an interface, written into octets.

ghost use Rattle.std.specs.Prelude.{◌≡◌, ◌≤◌, ◌<◌, ◌+◌, ◌^◌, length};
ghost use Rattle.std.specs.Option.{option_map};
ghost use Rattle.wirebase.specs.ByteWriter.{free, Puts};
ghost use Rattle.extension_wire.specs.Interface.{address_of, value_of, CanEmit, information_fields};
ghost use Rattle.extension_wire.specs.InterfaceParts.{AddressFits, NameFits, number_fields, number_len, address_fields};
ghost use Rattle.extension_wire.specs.InterfaceParts.{address_len, name_len, name_fields, name_part_len};

use super::{InterfaceAddress, InterfaceInformation};
use wirebase::ByteWriter;

// Writes the parts that there are.
pub(super) fn put(w: &mut ByteWriter<'_>, interface: &InterfaceInformation<'_>)
    requires { CanEmit (value_of interface.now) (free w.old) }
    ensures { Puts w.old w.new (information_fields (value_of interface.now)) }
{
    put_number(w, interface.index);
    put_address(w, &interface.address);
    put_name(w, &interface.name);
    put_number(w, interface.mtu);
}

// Writes a number of four bytes, where it is there.
fn put_number(w: &mut ByteWriter<'_>, number: Option<u32>)
    requires { number_len number ≤ length (free w.old) }
    ensures puts { Puts w.old w.new (number_fields number) }
    ensures room { length (free w.old) ≡ number_len number + length (free w.new) }
{
    if let Some(number) = number {
        w.put_u32(number);
    }
}

// Writes an address, where it is there.
fn put_address(w: &mut ByteWriter<'_>, address: &Option<InterfaceAddress<'_>>)
    requires room { address_len (option_map address_of address.now) ≤ length (free w.old) }
    requires fits { AddressFits (option_map address_of address.now) }
    ensures puts { Puts w.old w.new (address_fields (option_map address_of address.now)) }
    ensures room { length (free w.old)
        ≡ address_len (option_map address_of address.now) + length (free w.new) }
{
    if let Some(address) = address {
        w.put_u16(address.family.number());
        w.put_u16(0);
        w.put_bytes(address.octets);
    }
}

// Writes a name with its length and its padding, where it is there.
fn put_name(w: &mut ByteWriter<'_>, name: &Option<&[u8]>)
    requires room { name_part_len (option_map (λ name. name.now) name.now) ≤ length (free w.old) }
    requires fits { NameFits (option_map (λ name. name.now) name.now) }
    ensures puts { Puts w.old w.new (name_fields (option_map (λ name. name.now) name.now)) }
    ensures room { length (free w.old)
        ≡ name_part_len (option_map (λ name. name.now) name.now) + length (free w.new) }
{
    if let Some(name) = name {
        let len = padded_len(name);
        w.put_u8(len as u8);
        w.put_bytes(name);
        w.put_zeros(len - 1 - name.len());
    }
}

// The bytes of an address with those before it, where it is there.
pub(super) fn address_len(address: &Option<InterfaceAddress<'_>>) -> usize
    ensures value { result ≡ address_len (option_map address_of address.now) }
    ensures few { result ≤ 20 }
{
    match address {
        Some(address) => 4 + address.family.width(),
        None => 0,
    }
}

// The bytes of a name with its length and its padding, where it is there.
pub(super) fn name_len(name: &Option<&[u8]>) -> usize
    ensures value { result ≡ name_part_len (option_map (λ name. name.now) name.now) }
    ensures few { result < 2 ^ 63 + 4 }
{
    match name {
        Some(name) => padded_len(name),
        None => 0,
    }
}

// The bytes of a name with its length and its padding.
fn padded_len(name: &[u8]) -> usize
    ensures value { result ≡ name_len name.now }
    ensures few { result < 2 ^ 63 + 4 }
{
    (name.len() + 4) / 4 * 4
}
