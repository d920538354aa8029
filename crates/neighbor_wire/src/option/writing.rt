//! Options written into octets.

ghost use Rattle.std.specs.Prelude.{◌≡◌, ◌≤◌, ◌<◌, ◌+◌, ◌-◌, ◌^◌, ◌∷◌, [], length};
ghost use Rattle.wirebase.specs.Bytes.{over};
ghost use Rattle.wirebase.specs.ByteWriter.{free, be8, Puts};
ghost use Rattle.neighbor_wire.specs.Option.{value_of, prefix_value, route_value, nat64_value, units, whole_len};
ghost use Rattle.neighbor_wire.specs.Option.{body_len};
ghost use Rattle.neighbor_wire.specs.Option.{zeros, mtu, data_fields, list_fields, option_fields, text};
ghost use Rattle.neighbor_wire.specs.OptionFormat.{CanEmit};

use super::{NeighborOption, UNIT, field};
use crate::nat64::Nat64Prefix;
use crate::prefix::Prefix;
use crate::route::Route;
use wirebase::ByteWriter;

// Writes the option over the front of the octets.
#[tactic(auto, using(wirebase::proofs::Chains::chain))]
pub(super) fn write(option: &NeighborOption<'_>, octets: &mut [u8])
    requires { CanEmit (value_of option.now) octets.old }
    ensures { octets.new ≡ over octets.old (text (value_of option.now)) }
{
    let mut w = ByteWriter::new(octets);
    put(&mut w, option);
}

// The bytes of the option without the zeros behind it.
pub(crate) fn body_len(option: &NeighborOption<'_>) -> usize
    ensures value { result ≡ body_len (value_of option.now) }
    ensures small { result < 2 ^ 64 - 8 }
{
    match option {
        NeighborOption::SourceLinkLayerAddress(data)
        | NeighborOption::TargetLinkLayerAddress(data)
        | NeighborOption::Nonce(data)
        | NeighborOption::CaptivePortal(data)
        | NeighborOption::Other { data, .. } => field::DATA + data.len(),
        NeighborOption::Prefix(_) => field::PREFIX.end,
        NeighborOption::Mtu(_) => field::MTU.end,
        NeighborOption::Route(route) => field::BEHIND_LIFETIME + route.prefix.len(),
        NeighborOption::DnsServers { servers, .. } => field::BEHIND_LIFETIME + servers.octets.len(),
        NeighborOption::SearchList { names, .. } => field::BEHIND_LIFETIME + names.octets.len(),
        NeighborOption::Nat64Prefix(nat64) => field::NAT64_PREFIX + nat64.prefix.len(),
    }
}

// The bytes of the whole units that hold so many.
pub(crate) fn whole_len(len: usize) -> usize
    requires { len < 2 ^ 64 - 8 }
    ensures { result ≡ whole_len len }
{
    (len + UNIT - 1) / UNIT * UNIT
}

// Writes the fields of the option.
fn put(w: &mut ByteWriter<'_>, option: &NeighborOption<'_>)
    requires { CanEmit (value_of option.now) (free w.old) }
    ensures { Puts w.old w.new (option_fields (value_of option.now)) }
{
    match option {
        NeighborOption::SourceLinkLayerAddress(data) => put_data(w, 1, data),
        NeighborOption::TargetLinkLayerAddress(data) => put_data(w, 2, data),
        NeighborOption::Prefix(prefix) => put_prefix(w, prefix),
        NeighborOption::Mtu(mtu) => put_mtu(w, *mtu),
        NeighborOption::Nonce(data) => put_data(w, 14, data),
        NeighborOption::Route(route) => put_route(w, route),
        NeighborOption::DnsServers { lifetime, servers } => put_list(
            w,
            25,
            *lifetime,
            servers.octets,
        ),
        NeighborOption::SearchList { lifetime, names } => put_list(w, 31, *lifetime, names.octets),
        NeighborOption::CaptivePortal(data) => put_data(w, 37, data),
        NeighborOption::Nat64Prefix(nat64) => put_nat64(w, nat64),
        NeighborOption::Other { kind, data } => put_data(w, *kind, data),
    }
}

// Writes the type and the length of an option of so many bytes without the zeros behind it.
fn put_start(w: &mut ByteWriter<'_>, kind: u8, len: usize)
    requires few { units len < 256 }
    requires room { 2 ≤ length (free w.old) }
    ensures puts { Puts w.old w.new (be8 kind ∷ be8 (units len) ∷ []) }
    ensures room { length (free w.old) ≡ 2 + length (free w.new) }
{
    w.put_u8(kind);
    w.put_u8((whole_len(len) / UNIT) as u8);
}

// Writes the last octets of an option of so many bytes, and the zeros behind them.
fn put_end(w: &mut ByteWriter<'_>, octets: &[u8], len: usize)
    requires few { units len < 256 }
    requires room { length octets.now + (whole_len len - len) ≤ length (free w.old) }
    ensures { Puts w.old w.new (octets.now ∷ zeros len ∷ []) }
{
    w.put_bytes(octets);
    w.put_zeros(whole_len(len) - len);
}

// Writes an option of octets alone.
fn put_data(w: &mut ByteWriter<'_>, kind: u8, octets: &[u8])
    requires few { units (2 + length octets.now) < 256 }
    requires room { whole_len (2 + length octets.now) ≤ length (free w.old) }
    ensures { Puts w.old w.new (data_fields kind octets.now) }
{
    let len = field::DATA + octets.len();
    put_start(w, kind, len);
    put_end(w, octets, len);
}

// Writes an option of a lifetime and a list.
fn put_list(w: &mut ByteWriter<'_>, kind: u8, lifetime: u32, octets: &[u8])
    requires few { units (8 + length octets.now) < 256 }
    requires room { whole_len (8 + length octets.now) ≤ length (free w.old) }
    ensures { Puts w.old w.new (list_fields kind lifetime octets.now) }
{
    let len = field::BEHIND_LIFETIME + octets.len();
    put_start(w, kind, len);
    w.put_u16(0);
    w.put_u32(lifetime);
    put_end(w, octets, len);
}

// Writes a prefix.
fn put_prefix(w: &mut ByteWriter<'_>, prefix: &Prefix)
    requires { 32 ≤ length (free w.old) }
    ensures { Puts w.old w.new (option_fields (prefix_value prefix.now)) }
{
    let on_link = if prefix.on_link { 128 } else { 0 };
    let autonomous = if prefix.autonomous { 64 } else { 0 };
    let router_address = if prefix.router_address { 32 } else { 0 };
    w.put_u8(3);
    w.put_u8(4);
    w.put_u8(prefix.prefix_len);
    w.put_u8(on_link + autonomous + router_address);
    w.put_u32(prefix.valid_lifetime);
    w.put_u32(prefix.preferred_lifetime);
    w.put_u32(0);
    w.put_bytes(&prefix.prefix.octets());
}

// Writes an MTU.
fn put_mtu(w: &mut ByteWriter<'_>, bytes: u32)
    requires { 8 ≤ length (free w.old) }
    ensures { Puts w.old w.new (option_fields (mtu bytes)) }
{
    w.put_u8(5);
    w.put_u8(1);
    w.put_u16(0);
    w.put_u32(bytes);
}

// Writes a route.
fn put_route(w: &mut ByteWriter<'_>, route: &Route<'_>)
    requires { CanEmit (route_value route.now) (free w.old) }
    ensures { Puts w.old w.new (option_fields (route_value route.now)) }
{
    let len = field::BEHIND_LIFETIME + route.prefix.len();
    put_start(w, 24, len);
    w.put_u8(route.prefix_len);
    w.put_u8(route.preference.bits() * 8);
    w.put_u32(route.lifetime);
    put_end(w, route.prefix, len);
}

// Writes a NAT64 prefix.
fn put_nat64(w: &mut ByteWriter<'_>, nat64: &Nat64Prefix<'_>)
    requires { CanEmit (nat64_value nat64.now) (free w.old) }
    ensures { Puts w.old w.new (option_fields (nat64_value nat64.now)) }
{
    let len = field::NAT64_PREFIX + nat64.prefix.len();
    put_start(w, 38, len);
    w.put_u16(nat64.scaled_lifetime * 8 + nat64.length.code() as u16);
    put_end(w, nat64.prefix, len);
}
