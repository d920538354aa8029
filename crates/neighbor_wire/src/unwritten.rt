//! Why an option is not written.

ghost use Rattle.std.specs.Prelude.{◌↔◌, [], IsOk, IfErr};
ghost use Rattle.wirebase.specs.Checks.{Passes, Fails};
ghost use Rattle.neighbor_wire.specs.Option.{value_of, prefix_value, route_value, nat64_value, servers, search_list};
ghost use Rattle.neighbor_wire.specs.Option.{portal, other};
ghost use Rattle.neighbor_wire.specs.OptionFormat.{IsCanonical};
ghost use Rattle.neighbor_wire.specs.Unwritten.{content_checks, value_checks};
ghost use Rattle.neighbor_wire.specs.private.Numbers.{HasNumbers};

use crate::kind::Kind;
use crate::nat64::Nat64Prefix;
use crate::option::reading::without_zeros;
use crate::option::writing::{body_len, whole_len};
use crate::option::{NeighborOption, UNIT};
use crate::prefix::Prefix;
use crate::route::Route;
use std::fmt;

// The most units that a byte counts, the bytes and the bits of an address, the bytes of a NAT64 prefix, and the end of
// the numbers of 13 bits.
const MOST_UNITS: usize = 255;

const ADDRESS: usize = 16;

const ADDRESS_BITS: u8 = 128;

const NAT64_PREFIX: usize = 12;

const SCALED_END: u16 = 8192;

/// Why an option is not written: the first check that fails.
#[derive(Debug, PartialEq, Eq, Clone, Copy)]
pub enum Unwritten {
    /// More than 255 units of 8 bytes.
    Long,
    /// An option of this type with so many octets, which the type does not allow: a route with other than 0, 8 or 16,
    /// DNS servers with none or with other than whole addresses, a search list with none, or a prefix of NAT64 with
    /// other than 12.
    Octets(u8, usize),
    /// A prefix of so many bits, more than an address has, or in a route more than there are.
    PrefixLength(u8),
    /// A URI with a zero at its end, which a reader takes off.
    LastZero,
    /// The prefix of a NAT64 with a scaled lifetime of 8192 or more.
    ScaledLifetime,
    /// An option by its octets, of this type, which has a case of its own.
    Kind(u8),
    /// Fewer bytes are free than the option takes.
    Full,
}

// Whether the option is read back where there is room to write it.
pub(crate) fn check_value(option: &NeighborOption<'_>) -> Result<(), Unwritten>
    ensures accepts { IsOk result ↔ IsCanonical (value_of option.now) }
    ensures told { IfErr result (Fails (value_checks (value_of option.now))) }
{
    if whole_len(body_len(option)) > MOST_UNITS * UNIT {
        return Err(Unwritten::Long);
    }
    are_numbers(*option);
    check_content(option)
}

// Does nothing; its contract states that each number of an option fits its type.
fn are_numbers(option: NeighborOption<'_>)
    ensures { HasNumbers (value_of option.entry) }
{}

// Whether what the option says is read back.
fn check_content(option: &NeighborOption<'_>) -> Result<(), Unwritten>
    ensures accepts { IsOk result ↔ Passes (content_checks (value_of option.now)) }
    ensures told { IfErr result (Fails (content_checks (value_of option.now))) }
{
    match option {
        NeighborOption::SourceLinkLayerAddress(_)
        | NeighborOption::TargetLinkLayerAddress(_)
        | NeighborOption::Mtu(_)
        | NeighborOption::Nonce(_) => Ok(()),
        NeighborOption::Prefix(prefix) => check_prefix(prefix),
        NeighborOption::Route(route) => check_route(route),
        NeighborOption::DnsServers { servers, .. } => check_servers(servers.octets),
        NeighborOption::SearchList { names, .. } => check_names(names.octets),
        NeighborOption::CaptivePortal(uri) => check_uri(uri),
        NeighborOption::Nat64Prefix(nat64) => check_nat64(nat64),
        NeighborOption::Other { kind, .. } => check_kind(*kind),
    }
}

// Whether a prefix has no more bits than an address.
fn check_prefix(prefix: &Prefix) -> Result<(), Unwritten>
    ensures accepts { IsOk result ↔ Passes (content_checks (prefix_value prefix.now)) }
    ensures told { IfErr result (Fails (content_checks (prefix_value prefix.now))) }
{
    let bits = prefix.prefix_len;
    if bits > ADDRESS_BITS {
        return Err(Unwritten::PrefixLength(bits));
    }
    Ok(())
}

// Whether a route has the octets of no, half or a whole address, and no more bits than those.
fn check_route(route: &Route<'_>) -> Result<(), Unwritten>
    ensures accepts { IsOk result ↔ Passes (content_checks (route_value route.now)) }
    ensures told { IfErr result (Fails (content_checks (route_value route.now))) }
{
    let len = route.prefix.len();
    if len % UNIT != 0 || len > ADDRESS {
        return Err(Unwritten::Octets(24, len));
    }
    let bits = route.prefix_len;
    if bits as usize > 8 * len {
        return Err(Unwritten::PrefixLength(bits));
    }
    Ok(())
}

// Whether the octets of DNS servers are addresses, one at least.
fn check_servers(octets: &[u8]) -> Result<(), Unwritten>
    ensures accepts { IsOk result ↔ Passes (content_checks (servers 0 octets.now)) }
    ensures told { IfErr result (Fails (content_checks (servers 0 octets.now))) }
{
    let len = octets.len();
    if len == 0 || len % ADDRESS != 0 {
        return Err(Unwritten::Octets(25, len));
    }
    Ok(())
}

// Whether there are octets of names.
fn check_names(octets: &[u8]) -> Result<(), Unwritten>
    ensures accepts { IsOk result ↔ Passes (content_checks (search_list 0 octets.now)) }
    ensures told { IfErr result (Fails (content_checks (search_list 0 octets.now))) }
{
    if octets.is_empty() {
        return Err(Unwritten::Octets(31, 0));
    }
    Ok(())
}

// Whether a URI has no zeros at its end.
#[tactic(auto, using(crate::proofs::Zeros::strip_all))]
fn check_uri(uri: &[u8]) -> Result<(), Unwritten>
    ensures accepts { IsOk result ↔ Passes (content_checks (portal uri.now)) }
    ensures told { IfErr result (Fails (content_checks (portal uri.now))) }
{
    if without_zeros(uri).len() != uri.len() {
        return Err(Unwritten::LastZero);
    }
    Ok(())
}

// Whether a NAT64 prefix has its octets, and a scaled lifetime that has its bits.
fn check_nat64(nat64: &Nat64Prefix<'_>) -> Result<(), Unwritten>
    ensures accepts { IsOk result ↔ Passes (content_checks (nat64_value nat64.now)) }
    ensures told { IfErr result (Fails (content_checks (nat64_value nat64.now))) }
{
    let len = nat64.prefix.len();
    if len != NAT64_PREFIX {
        return Err(Unwritten::Octets(38, len));
    }
    if nat64.scaled_lifetime >= SCALED_END {
        return Err(Unwritten::ScaledLifetime);
    }
    Ok(())
}

// Whether an option of this type is given by its octets.
fn check_kind(kind: u8) -> Result<(), Unwritten>
    ensures accepts { IsOk result ↔ Passes (content_checks (other kind [])) }
    ensures told { IfErr result (Fails (content_checks (other kind []))) }
{
    match Kind::of(kind) {
        Kind::Other => Ok(()),
        _ => Err(Unwritten::Kind(kind)),
    }
}

/// A short phrase, as `20 octets are not allowed for type 38`.
impl fmt::Display for Unwritten {
    ghost use Rattle.std.specs.Prelude.{Some};
    ghost use Rattle.neighbor_wire.specs.Unwritten.{unwritten_display};

    ghost output = { λ unwritten. Some (unwritten_display unwritten) };

    fn fmt<W: fmt::Write>(&self, f: &mut fmt::Formatter<W>) -> fmt::Result {
        match *self {
            Unwritten::Long => f.write_str("more than 255 units of 8 bytes"),
            Unwritten::Octets(kind, len) => {
                write!(f, "{len} octets are not allowed for type {kind}")
            }
            Unwritten::PrefixLength(bits) => write!(f, "{bits} bits are too many for the prefix"),
            Unwritten::LastZero => f.write_str("a URI with a zero at its end"),
            Unwritten::ScaledLifetime => f.write_str("a scaled lifetime of 8192 or more"),
            Unwritten::Kind(kind) => { write!(f, "type {kind} is not written by its octets alone") }
            Unwritten::Full => f.write_str("fewer bytes are free than the option takes"),
        }
    }
}
