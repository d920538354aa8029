//! Why options of neighbor discovery are refused by their types.

ghost use Rattle.std.specs.Prelude.{◌≡◌, ◌≤◌, length};
ghost use Rattle.std.specs.Option.{option_map};
ghost use Rattle.neighbor_fields.specs.NdiscOptions.{wrong_form, wrong_nat64, wrong_other, wrong_quote};
ghost use Rattle.neighbor_fields.specs.NdiscOptions.{wrong_prefix, wrong_route, wrong_search_list, wrong_servers};

use super::options::{MTU, PREFIX_INFORMATION, REDIRECTED_HEADER, place};
use super::others::{DNS_SEARCH_LIST, PREF64, RECURSIVE_DNS_SERVER, ROUTE_INFORMATION, field};
use super::texts::wrong_names;
use wirebase::Octets;

// The bits of an address.
const MOST_PREFIX: u8 = 128;

// Why an option of the length that it counts is refused by its type, where it is.
pub(super) fn wrong_form(option: &[u8]) -> Option<&'static str>
    requires { 8 ≤ length option.now }
    ensures { option_map (λ why. why.now) result ≡ wrong_form option.now }
{
    match option[0] {
        PREFIX_INFORMATION => wrong_prefix(option),
        REDIRECTED_HEADER => wrong_quote(option),
        MTU if option.len() != place::MTU_END => Some("not 8 bytes"),
        MTU => None,
        _ => wrong_other(option),
    }
}

// Why a prefix is refused, where it is (RFC 4861 section 4.6.2).
fn wrong_prefix(option: &[u8]) -> Option<&'static str>
    ensures { option_map (λ why. why.now) result ≡ wrong_prefix option.now }
{
    if option.len() != place::PREFIX_END {
        return Some("not 32 bytes");
    }
    if option.u8_at(place::PREFIX_LEN) > MOST_PREFIX {
        return Some("too many bits for the prefix");
    }
    None
}

// Why a redirected packet is refused, where it is.
fn wrong_quote(option: &[u8]) -> Option<&'static str>
    ensures { option_map (λ why. why.now) result ≡ wrong_quote option.now }
{
    if option.len() < place::QUOTED_END {
        return Some("fewer than 48 bytes");
    }
    if option.u8_at(place::QUOTED_VERSION) / 16 != 6 {
        return Some("not of version 6");
    }
    None
}

// Why an option of a type that RFC 4861 has not is refused, where it is.
#[tactic(auto, unfolding(crate::specs::NdiscOptions::wrong_other))]
fn wrong_other(option: &[u8]) -> Option<&'static str>
    requires { 8 ≤ length option.now }
    ensures { option_map (λ why. why.now) result ≡ wrong_other option.now }
{
    match option[0] {
        ROUTE_INFORMATION => wrong_route(option),
        RECURSIVE_DNS_SERVER => wrong_servers(option),
        DNS_SEARCH_LIST => wrong_search_list(option),
        PREF64 => wrong_nat64(option),
        _ => None,
    }
}

// Why a route is refused, where it is (RFC 4191 section 2.3).
fn wrong_route(option: &[u8]) -> Option<&'static str>
    requires { 8 ≤ length option.now }
    ensures { option_map (λ why. why.now) result ≡ wrong_route option.now }
{
    if option.len() > 24 {
        return Some("more than 24 bytes");
    }
    let prefix_len = option.u8_at(field::ROUTE_LEN) as usize;
    if prefix_len > 8 * (option.len() - field::BEHIND_LIFETIME) {
        return Some("too many bits for the prefix");
    }
    None
}

// Why recursive DNS servers are refused, where they are (RFC 8106 section 5.1).
fn wrong_servers(option: &[u8]) -> Option<&'static str>
    ensures { option_map (λ why. why.now) result ≡ wrong_servers option.now }
{
    if option.len() < 24 {
        return Some("fewer than 24 bytes");
    }
    if option.len() % 16 != 8 {
        return Some("no whole number of addresses");
    }
    None
}

// Why a search list is refused, where it is (RFC 8106 section 5.2).
fn wrong_search_list(option: &[u8]) -> Option<&'static str>
    ensures { option_map (λ why. why.now) result ≡ wrong_search_list option.now }
{
    if option.len() < 16 {
        return Some("fewer than 16 bytes");
    }
    let (_, names) = option.split_at(field::BEHIND_LIFETIME);
    wrong_names(names)
}

// Why a prefix of a NAT64 is refused, where it is (RFC 8781 section 4).
fn wrong_nat64(option: &[u8]) -> Option<&'static str>
    requires { 8 ≤ length option.now }
    ensures { option_map (λ why. why.now) result ≡ wrong_nat64 option.now }
{
    if option.len() != 16 {
        return Some("not 16 bytes");
    }
    match option.u16_at(field::SCALED_LIFETIME) % 8 {
        6 => Some("no prefix length has the code 6"),
        7 => Some("no prefix length has the code 7"),
        _ => None,
    }
}
