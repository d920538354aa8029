//! Brief lines of neighbor discovery (RFC 4861 section 4).

#![tactic(auto, using(wirebase::proofs::Sinks::puts, wirebase::proofs::Sinks::put_none), // texts in turn, or none
unfolding(crate::specs::Words::word))]

ghost use Rattle.std.specs.Prelude.{◌≡◌, ◌≤◌, ◌++◌, IfSome, IsTrue, None, codes, count_by, decimal, find, length};
ghost use Rattle.std.specs.List.{list_all};
ghost use Rattle.std.specs.Option.{option_map};
ghost use Rattle.wirebase.specs.Sink.{PutsText};
ghost use Rattle.neighbor_fields.specs.Messages.{type_in};
ghost use Rattle.neighbor_fields.specs.Ndisc.{header_len, wrong_form};
ghost use Rattle.message_brief.specs.Neighbors.{behind_text, fields_text, is_of, is_whole, is_whole_option};
ghost use Rattle.message_brief.specs.Neighbors.{link_text, neighbor_text, neighbors_text, options_in, prefix_word};
ghost use Rattle.message_brief.specs.Neighbors.{prefixes_text};
ghost use Rattle.message_brief.specs.Neighbors.{redirect_text, router_text, target_text};
ghost use Rattle.message_brief.specs.private.Options.{IsRight};

use crate::icmp::put_head6;
use crate::words::{put_more, put_word};
use neighbor_fields::ndisc::header_len;
use neighbor_fields::ndisc::options::{Options, Prefix, refusal};
use packet_fields::parts::Part;
use packet_fields::texts::Address;
use packet_fields::value::{Colons, Text};
use wirebase::Octets;
use wirebase::text::{Sink, put_number};

const ROUTER_ADVERTISEMENT: u8 = 134;

const NEIGHBOR_SOLICITATION: u8 = 135;

const NEIGHBOR_ADVERTISEMENT: u8 = 136;

const REDIRECT: u8 = 137;

const TARGET_LINK_LAYER_ADDRESS: u8 = 2;

const PREFIX_INFORMATION: u8 = 3;

// The fields of messages and of options (RFC 4861 sections 4.2 to 4.6).
mod place {
    use wirebase::Field;

    pub const TYPE: usize = 0;

    pub const CODE: usize = 1;

    pub const HEAD_LEN: usize = 4;

    pub const ROUTER_LIFETIME: Field = 6..8;

    pub const TARGET_ADDR: Field = 8..24;

    pub const DEST_ADDR: Field = 24..40;

    pub const ROUTER_OPTIONS: usize = 16;

    pub const NEIGHBOR_OPTIONS: usize = 24;

    pub const LINK_ADDRESS: usize = 2;

    pub const PREFIX_LEN: Field = 2..3;

    pub const PREFIX: Field = 16..32;
}

/// Puts what a message of neighbor discovery says.
pub(crate) fn put_neighbors<O, S: Sink<O>>(output: &mut O, octets: &[u8]) -> Result<(), S::Error>
    ensures { PutsText S.took output.old (neighbors_text octets.now) result output.new }
{
    if octets.len() < place::HEAD_LEN {
        return Ok(());
    }
    put_head6::<O, S>(output, octets[place::TYPE], octets[place::CODE])?;
    put_behind::<O, S>(output, octets)
}

/// Whether the fields of a message are there, and no option is refused.
pub(crate) fn is_whole(octets: &[u8]) -> bool
    ensures { result ≡ is_whole octets.now }
{
    if octets.len() < place::HEAD_LEN {
        return false;
    }
    let header_len = header_len(octets[place::TYPE]);
    if octets.len() < header_len {
        return false;
    }
    let (_, options) = octets.split_at(header_len);
    are_whole(options)
}

fn put_behind<O, S: Sink<O>>(output: &mut O, octets: &[u8]) -> Result<(), S::Error>
    requires { 4 ≤ length octets.now }
    ensures { PutsText S.took output.old (behind_text octets.now) result output.new }
{
    if octets.len() < header_len(octets[place::TYPE]) {
        return Ok(());
    }
    put_fields::<O, S>(output, octets)
}

fn put_fields<O, S: Sink<O>>(output: &mut O, octets: &[u8]) -> Result<(), S::Error>
    requires some { 4 ≤ length octets.now }
    requires whole { header_len (type_in octets.now) ≤ length octets.now }
    ensures { PutsText S.took output.old (fields_text octets.now) result output.new }
{
    match octets[place::TYPE] {
        ROUTER_ADVERTISEMENT => put_router::<O, S>(output, octets),
        NEIGHBOR_SOLICITATION => put_target::<O, S>(output, octets),
        NEIGHBOR_ADVERTISEMENT => put_neighbor::<O, S>(output, octets),
        REDIRECT => put_redirect::<O, S>(output, octets),
        _ => Ok(()),
    }
}

// Puts the lifetime of a router, and its prefixes.
fn put_router<O, S: Sink<O>>(output: &mut O, octets: &[u8]) -> Result<(), S::Error>
    requires { 16 ≤ length octets.now }
    ensures { PutsText S.took output.old (router_text octets.now) result output.new }
{
    let (_, options) = octets.split_at(place::ROUTER_OPTIONS);
    let prefix = first_option(PREFIX_INFORMATION, options);
    let count = count_options(PREFIX_INFORMATION, options);
    put_word::<O, S, Lifetime>(output, Lifetime(octets.u16_at(place::ROUTER_LIFETIME)))?;
    put_prefixes::<O, S>(output, prefix, count)
}

// Seconds with their unit.
#[derive(Clone, Copy)]
struct Lifetime(u16);

impl Text for Lifetime {
    ghost text_of = { λ lifetime. decimal lifetime.0 ++ codes "s" };

    fn put_into<O, S: Sink<O>>(self, output: &mut O) -> Result<(), S::Error> {
        put_number::<O, S>(output, self.0 as u64)?;
        S::put_str(output, "s")
    }
}

// Puts the first of so many prefixes.
fn put_prefixes<O, S: Sink<O>>(
    output: &mut O,
    option: Option<&[u8]>,
    count: usize,
) -> Result<(), S::Error>
    requires { IfSome option (λ octets. length octets.now ≡ 32) }
    ensures { PutsText S.took output.old
        (prefixes_text (option_map (λ octets. octets.now) option.entry) count) result output.new }
{
    match option {
        Some(octets) => {
            put_prefix::<O, S>(output, octets)?;
            put_more::<O, S>(output, count.saturating_sub(1) as u64)
        }
        None => Ok(()),
    }
}

fn put_prefix<O, S: Sink<O>>(output: &mut O, octets: &[u8]) -> Result<(), S::Error>
    requires { length octets.now ≡ 32 }
    ensures { PutsText S.took output.old (prefix_word octets.now) result output.new }
{
    let prefix = Prefix {
        address: Address(octets.field(place::PREFIX)),
        len: octets.u8_at(place::PREFIX_LEN),
    };
    put_word::<O, S, Prefix<'_>>(output, prefix)
}

// Puts the target.
fn put_target<O, S: Sink<O>>(output: &mut O, octets: &[u8]) -> Result<(), S::Error>
    requires { 24 ≤ length octets.now }
    ensures { PutsText S.took output.old (target_text octets.now) result output.new }
{
    put_word::<O, S, Address<'_>>(output, Address(octets.field(place::TARGET_ADDR)))
}

// Puts the target, and its link-layer address where that is told.
fn put_neighbor<O, S: Sink<O>>(output: &mut O, octets: &[u8]) -> Result<(), S::Error>
    requires { 24 ≤ length octets.now }
    ensures { PutsText S.took output.old (neighbor_text octets.now) result output.new }
{
    let (_, options) = octets.split_at(place::NEIGHBOR_OPTIONS);
    let option = first_option(TARGET_LINK_LAYER_ADDRESS, options);
    put_target::<O, S>(output, octets)?;
    put_link::<O, S>(output, option)
}

fn put_link<O, S: Sink<O>>(output: &mut O, option: Option<&[u8]>) -> Result<(), S::Error>
    requires { IfSome option (λ octets. 2 ≤ length octets.now) }
    ensures { PutsText S.took output.old
        (link_text (option_map (λ octets. octets.now) option.entry)) result output.new }
{
    match option {
        Some(octets) => {
            let (_, address) = octets.split_at(place::LINK_ADDRESS);
            S::put_str(output, " = ")?;
            Colons(address).put_into::<O, S>(output)
        }
        None => Ok(()),
    }
}

// Puts a destination, and the target that is the better way to it.
fn put_redirect<O, S: Sink<O>>(output: &mut O, octets: &[u8]) -> Result<(), S::Error>
    requires { 40 ≤ length octets.now }
    ensures { PutsText S.took output.old (redirect_text octets.now) result output.new }
{
    put_word::<O, S, Address<'_>>(output, Address(octets.field(place::DEST_ADDR)))?;
    S::put_str(output, " via")?;
    put_target::<O, S>(output, octets)
}

// The first option of a type among these, but for those that are refused.
fn first_option(type_: u8, octets: &[u8]) -> Option<&[u8]>
    ensures value { option_map (λ option. option.now) result ≡ find (is_of type_) (options_in octets.now) }
    ensures right { IfSome result (λ option. IsRight type_ option.now) }
{
    let mut left = octets;
    while !left.is_empty() {
        let (option, others) = left.split_at(Options::len_of(left));
        if is_of(type_, option) {
            return Some(option);
        }
        left = others;
    }
    None
}

// How many options of a type are among these, but for those that are refused.
fn count_options(type_: u8, octets: &[u8]) -> usize
    ensures { result ≡ count_by (is_of type_) (options_in octets.now) }
{
    let mut left = octets;
    let mut count = 0;
    while !left.is_empty() {
        let (option, others) = left.split_at(Options::len_of(left));
        left = others;
        if is_of(type_, option) {
            count += 1;
        }
    }
    count
}

// Whether none of these options is refused.
fn are_whole(octets: &[u8]) -> bool
    ensures { result ≡ list_all is_whole_option (options_in octets.now) }
{
    let mut left = octets;
    while !left.is_empty() {
        let (option, others) = left.split_at(Options::len_of(left));
        if !is_whole_option(option) {
            return false;
        }
        left = others;
    }
    true
}

// Whether an option has this type, and is not refused.
fn is_of(type_: u8, option: &[u8]) -> bool
    requires { 1 ≤ length option.now }
    ensures value { result ≡ is_of type_ option.now }
    ensures right { IsTrue result → IsRight type_ option.now }
{
    is_whole_option(option) && option[place::TYPE] == type_
}

fn is_whole_option(option: &[u8]) -> bool
    requires { 1 ≤ length option.now }
    ensures value { result ≡ is_whole_option option.now }
    ensures long { IsTrue result → 2 ≤ length option.now }
    ensures right_form { IsTrue result → wrong_form option.now ≡ None }
{
    refusal(option).is_none()
}
