//! Brief lines of ICMPv4 (RFC 792) and ICMPv6 (RFC 4443).

#![tactic(auto, using(wirebase::proofs::Sinks::puts, wirebase::proofs::Sinks::put_none))]

ghost use Rattle.std.specs.Prelude.{◌≡◌, ◌≤◌, codes, decimal, length};
ghost use Rattle.std.specs.Option.{option_map};
ghost use Rattle.packet_fields.specs.Texts.{address_text};
ghost use Rattle.wirebase.specs.Sink.{PutsText};
ghost use Rattle.message_brief.specs.Words.{keyed};
ghost use Rattle.message_brief.specs.Icmp.{behind4_text, behind6_text, body4_text, body6_text, code_text, echo_text};
ghost use Rattle.message_brief.specs.Icmp.{head4_text, head6_text, head_text, icmp4_text, icmp6_text, is_echo4};
ghost use Rattle.message_brief.specs.Icmp.{is_echo6, is_error4, is_error6, is_whole4, is_whole6, length4, length6};
ghost use Rattle.message_brief.specs.Icmp.{mtu_text, quoted4, quoted6, told4, told6, type6_text, type_text};

use crate::quote::{put_quote4, put_quote6, quoted_part, quotes4, quotes6};
use crate::words::{Number, put_keyed, put_word};
use extension_wire::Family;
use icmp_fields::icmp_names::{icmp4_code_name, icmp4_type_name, icmp6_code_name, icmp6_type_name};
use packet_fields::label::Label;
use packet_fields::texts::Address;
use wirebase::Octets;
use wirebase::text::Sink;

// The fields of messages; their picture is in the specs of `wirebase`.
mod place {
    use wirebase::Field;

    pub const TYPE: usize = 0;

    pub const CODE: usize = 1;

    pub const HEAD_LEN: usize = 4;

    pub const IDENT: Field = 4..6;

    pub const SEQ_NO: Field = 6..8;

    pub const GATEWAY: Field = 4..8;

    pub const POINTER4: usize = 4;

    pub const LENGTH6: usize = 4;

    pub const LENGTH4: usize = 5;

    pub const MTU4: Field = 6..8;

    pub const REST: Field = 4..8;

    pub const HEADER_LEN: usize = 8;
}

// The types of ICMPv4 errors that tell something in their header, and the code that has an MTU (RFC 1191 section 4).
const UNREACHABLE: u8 = 3;

const REDIRECT: u8 = 5;

const PARAMETER_PROBLEM4: u8 = 12;

const FRAGMENTATION_NEEDED: u8 = 4;

// Those of ICMPv6.
const PACKET_TOO_BIG: u8 = 2;

const PARAMETER_PROBLEM6: u8 = 4;

/// Puts what an ICMPv4 message says.
pub(crate) fn put_icmp4<O, S: Sink<O>>(output: &mut O, octets: &[u8]) -> Result<(), S::Error>
    ensures { PutsText S.took output.old (icmp4_text octets.now) result output.new }
{
    if octets.len() < place::HEAD_LEN {
        return Ok(());
    }
    put_head4::<O, S>(output, octets[place::TYPE], octets[place::CODE])?;
    put_behind4::<O, S>(output, octets)
}

/// Whether all is there that such a line tells of an ICMPv4 message.
pub(crate) fn is_whole4(octets: &[u8]) -> bool
    ensures { result ≡ is_whole4 octets.now }
{
    if octets.len() < place::HEADER_LEN {
        return false;
    }
    !is_error4(octets[place::TYPE]) || quotes4(quoted4(octets))
}

#[tactic(auto, using(wirebase::proofs::Sinks::puts), unfolding(crate::specs::Icmp::head4_text))]
fn put_head4<O, S: Sink<O>>(output: &mut O, type_: u8, code: u8) -> Result<(), S::Error>
    ensures { PutsText S.took output.old (head4_text type_ code) result output.new }
{
    let name = icmp4_type_name(type_);
    put_head::<O, S>(output, name, type_, icmp4_code_name(type_, code), code)
}

fn put_behind4<O, S: Sink<O>>(output: &mut O, octets: &[u8]) -> Result<(), S::Error>
    requires { 4 ≤ length octets.now }
    ensures { PutsText S.took output.old (behind4_text octets.now) result output.new }
{
    if octets.len() < place::HEADER_LEN {
        return Ok(());
    }
    put_body4::<O, S>(output, octets)
}

fn put_body4<O, S: Sink<O>>(output: &mut O, octets: &[u8]) -> Result<(), S::Error>
    requires { 8 ≤ length octets.now }
    ensures { PutsText S.took output.old (body4_text octets.now) result output.new }
{
    if is_echo4(octets[place::TYPE]) {
        return put_echo::<O, S>(output, octets);
    }
    if !is_error4(octets[place::TYPE]) {
        return Ok(());
    }
    put_told4::<O, S>(output, octets)?;
    put_quote4::<O, S>(output, quoted4(octets))
}

fn is_echo4(type_: u8) -> bool
    ensures { result ≡ is_echo4 type_ }
{
    matches!(type_, 0 | 8)
}

fn is_error4(type_: u8) -> bool
    ensures { result ≡ is_error4 type_ }
{
    matches!(type_, 3 | 4 | 5 | 11 | 12)
}

// What an ICMPv4 error quotes, without its extensions.
fn quoted4(octets: &[u8]) -> &[u8]
    requires { 8 ≤ length octets.now }
    ensures { result.now ≡ quoted4 octets.now }
{
    let (_, data) = octets.split_at(place::HEADER_LEN);
    quoted_part(data, length4(octets), Family::V4)
}

// The length of what it quotes (RFC 4884 section 4), 0 in types that have none.
fn length4(octets: &[u8]) -> u8
    requires { 8 ≤ length octets.now }
    ensures { result ≡ length4 octets.now }
{
    match octets[place::TYPE] {
        3 | 11 | 12 => octets[place::LENGTH4],
        _ => 0,
    }
}

// Puts what the header of an ICMPv4 error tells behind its checksum.
fn put_told4<O, S: Sink<O>>(output: &mut O, octets: &[u8]) -> Result<(), S::Error>
    requires { 8 ≤ length octets.now }
    ensures { PutsText S.took output.old (told4 octets.now) result output.new }
{
    match octets[place::TYPE] {
        UNREACHABLE if octets[place::CODE] == FRAGMENTATION_NEEDED => {
            put_mtu::<O, S>(output, octets.u16_at(place::MTU4) as u64)
        }
        REDIRECT => put_gateway::<O, S>(output, octets.field(place::GATEWAY)),
        PARAMETER_PROBLEM4 => put_pointer::<O, S>(output, octets[place::POINTER4] as u64),
        _ => Ok(()),
    }
}

/// Puts what an ICMPv6 message says, but for those of neighbors and of multicast listeners.
pub(crate) fn put_icmp6<O, S: Sink<O>>(output: &mut O, octets: &[u8]) -> Result<(), S::Error>
    ensures { PutsText S.took output.old (icmp6_text octets.now) result output.new }
{
    if octets.len() < place::HEAD_LEN {
        return Ok(());
    }
    put_head6::<O, S>(output, octets[place::TYPE], octets[place::CODE])?;
    put_behind6::<O, S>(output, octets)
}

/// Whether all is there that such a line tells of an ICMPv6 message.
pub(crate) fn is_whole6(octets: &[u8]) -> bool
    ensures { result ≡ is_whole6 octets.now }
{
    if octets.len() < place::HEADER_LEN {
        return false;
    }
    !is_error6(octets[place::TYPE]) || quotes6(quoted6(octets))
}

/// Puts the name of a type of ICMPv6.
#[tactic(auto, using(wirebase::proofs::Sinks::puts), unfolding(crate::specs::Icmp::type6_text))]
pub(crate) fn put_type6<O, S: Sink<O>>(output: &mut O, type_: u8) -> Result<(), S::Error>
    ensures { PutsText S.took output.old (type6_text type_) result output.new }
{
    put_type::<O, S>(output, icmp6_type_name(type_), type_)
}

/// Puts the names of a type and a code of ICMPv6.
#[tactic(auto, using(wirebase::proofs::Sinks::puts), unfolding(crate::specs::Icmp::head6_text))]
pub(crate) fn put_head6<O, S: Sink<O>>(output: &mut O, type_: u8, code: u8) -> Result<(), S::Error>
    ensures { PutsText S.took output.old (head6_text type_ code) result output.new }
{
    let name = icmp6_type_name(type_);
    put_head::<O, S>(output, name, type_, icmp6_code_name(type_, code), code)
}

fn put_behind6<O, S: Sink<O>>(output: &mut O, octets: &[u8]) -> Result<(), S::Error>
    requires { 4 ≤ length octets.now }
    ensures { PutsText S.took output.old (behind6_text octets.now) result output.new }
{
    if octets.len() < place::HEADER_LEN {
        return Ok(());
    }
    put_body6::<O, S>(output, octets)
}

fn put_body6<O, S: Sink<O>>(output: &mut O, octets: &[u8]) -> Result<(), S::Error>
    requires { 8 ≤ length octets.now }
    ensures { PutsText S.took output.old (body6_text octets.now) result output.new }
{
    if is_echo6(octets[place::TYPE]) {
        return put_echo::<O, S>(output, octets);
    }
    if !is_error6(octets[place::TYPE]) {
        return Ok(());
    }
    put_told6::<O, S>(output, octets)?;
    put_quote6::<O, S>(output, quoted6(octets))
}

fn is_echo6(type_: u8) -> bool
    ensures { result ≡ is_echo6 type_ }
{
    matches!(type_, 128 | 129)
}

fn is_error6(type_: u8) -> bool
    ensures { result ≡ is_error6 type_ }
{
    matches!(type_, 1..=4)
}

// What an ICMPv6 error quotes, without its extensions.
fn quoted6(octets: &[u8]) -> &[u8]
    requires { 8 ≤ length octets.now }
    ensures { result.now ≡ quoted6 octets.now }
{
    let (_, data) = octets.split_at(place::HEADER_LEN);
    quoted_part(data, length6(octets), Family::V6)
}

// The length of what it quotes (RFC 4884 section 4), 0 in types that have none.
fn length6(octets: &[u8]) -> u8
    requires { 8 ≤ length octets.now }
    ensures { result ≡ length6 octets.now }
{
    match octets[place::TYPE] {
        1 | 3 => octets[place::LENGTH6],
        _ => 0,
    }
}

// Puts what the header of an ICMPv6 error tells behind its checksum.
fn put_told6<O, S: Sink<O>>(output: &mut O, octets: &[u8]) -> Result<(), S::Error>
    requires { 8 ≤ length octets.now }
    ensures { PutsText S.took output.old (told6 octets.now) result output.new }
{
    let rest = octets.u32_at(place::REST) as u64;
    match octets[place::TYPE] {
        PACKET_TOO_BIG => put_mtu::<O, S>(output, rest),
        PARAMETER_PROBLEM6 => put_pointer::<O, S>(output, rest),
        _ => Ok(()),
    }
}

// Puts the names of a type and a code, or their numbers.
fn put_head<O, S: Sink<O>>(
    output: &mut O,
    type_name: Option<&str>,
    type_: u8,
    code_name: Option<&str>,
    code: u8,
) -> Result<(), S::Error>
    ensures { PutsText S.took output.old
        (head_text (option_map (λ name. name.now) type_name.entry) type_
        (option_map (λ name. name.now) code_name.entry) code) result output.new }
{
    put_type::<O, S>(output, type_name, type_)?;
    put_code::<O, S>(output, code_name, code)
}

fn put_type<O, S: Sink<O>>(output: &mut O, name: Option<&str>, type_: u8) -> Result<(), S::Error>
    ensures { PutsText S.took output.old
        (type_text (option_map (λ name. name.now) name.entry) type_) result output.new }
{
    let label = Label {
        name,
        kind: "type",
        number: type_,
    };
    put_word::<O, S, Label<'_>>(output, label)
}

fn put_code<O, S: Sink<O>>(output: &mut O, name: Option<&str>, code: u8) -> Result<(), S::Error>
    ensures { PutsText S.took output.old
        (code_text (option_map (λ name. name.now) name.entry) code) result output.new }
{
    match name {
        Some(name) => put_word::<O, S, &str>(output, name),
        None if code == 0 => Ok(()),
        None => put_keyed::<O, S, Number>(output, "code", Number(code as u64)),
    }
}

// Puts what an echo says.
fn put_echo<O, S: Sink<O>>(output: &mut O, octets: &[u8]) -> Result<(), S::Error>
    requires { 8 ≤ length octets.now }
    ensures { PutsText S.took output.old (echo_text octets.now) result output.new }
{
    let ident = Number(octets.u16_at(place::IDENT) as u64);
    let seq_no = Number(octets.u16_at(place::SEQ_NO) as u64);
    let len = Number((octets.len() - place::HEADER_LEN) as u64);
    put_word::<O, S, Number>(output, ident)?;
    put_word::<O, S, Number>(output, seq_no)?;
    put_keyed::<O, S, Number>(output, "len", len)
}

fn put_mtu<O, S: Sink<O>>(output: &mut O, mtu: u64) -> Result<(), S::Error>
    ensures { PutsText S.took output.old (mtu_text mtu) result output.new }
{
    if mtu == 0 {
        return Ok(());
    }
    put_keyed::<O, S, Number>(output, "mtu", Number(mtu))
}

fn put_gateway<O, S: Sink<O>>(output: &mut O, octets: &[u8]) -> Result<(), S::Error>
    ensures { PutsText S.took output.old (keyed (codes "gateway") (address_text octets.now)) result output.new }
{
    put_keyed::<O, S, Address<'_>>(output, "gateway", Address(octets))
}

fn put_pointer<O, S: Sink<O>>(output: &mut O, pointer: u64) -> Result<(), S::Error>
    ensures { PutsText S.took output.old (keyed (codes "pointer") (decimal pointer)) result output.new }
{
    put_keyed::<O, S, Number>(output, "pointer", Number(pointer))
}
