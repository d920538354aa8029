//! The words of a line, and the octets that a word spells.

ghost use Rattle.std.specs.Prelude.{◌≡◌, ◌<◌, ◌≤◌, ◌&&◌, [], ◌∷◌, OnOk, IfOk, IfErr, bytes_eq, length, option_map};
ghost use Rattle.std.specs.Prelude.{vec_len};
ghost use Rattle.std.specs.List.{list_all};
ghost use Rattle.hex.specs.Hex.{is_hex_digit};
ghost use Rattle.dump_lines.specs.Lines.{words_in};
ghost use Rattle.dump_lines.specs.Words.{address_of, offset_of, word_of};
ghost use Rattle.dump_lines.specs.private.Parts.{is_length};

use crate::Fault;
use crate::hex_digits::{are_digits, decode, decode_front};
use crate::search::{len_before, spaces_len};
use std::alloc::Global;

/// The most words of a line: a command, two further words, and a packet.
pub const MOST_WORDS: usize = 4;

/// The most octets of a word.
pub const MOST_OCTETS: usize = 131_070;

// The largest offset in a packet.
const MOST_OFFSET: usize = 65_535;

// The fewest digits of a packet.
const FEWEST_DIGITS: usize = 2;

// The number of digits of an address.
const ADDRESS_DIGITS: usize = 32;

/// The first word of a text, empty where there is none, and what follows it.
#[inline]
pub fn next_word<'a>(text: &'a [u8]) -> (&'a [u8], &'a [u8])
    ensures some { 0 < length result.0.now → words_in text.now ≡ result.0.now ∷ words_in result.1.now }
    ensures none { length result.0.now ≡ 0 → words_in text.now ≡ [] }
{
    let rest = &text[spaces_len(text)..];
    let len = len_before(rest, b' ');
    rest.split_at(len)
}

/// Whether a word is this one.
#[inline]
pub fn is_word(word: &[u8], name: &str) -> bool
    ensures { result ≡ bytes_eq word.now name.now }
{
    word == name.as_bytes()
}

/// The octets that a word spells, or None where it spells none. They are in a buffer that is kept from word to word and
/// grows where it is too small.
///
/// `-` spells no octets, and an even number, 2 to 131,070, of hexadecimal digits of either case an octet for each two,
/// the high digit first.
#[inline]
pub fn read_word<'a>(
    alloc: Global,
    packet_buffer: &'a mut Vec<u8>,
    text: &[u8],
) -> Result<Option<&'a [u8]>, Fault>
    ensures value { IfOk result (λ word. option_map (λ octets. octets.now) word ≡ word_of text.now) }
    ensures fault { IfErr result (λ fault. fault ≡ Fault.Memory) }
{
    if is_word(text, "-") {
        return Ok(Some(&[]));
    }
    if !are_pairs(text) {
        return Ok(None);
    }
    let count = text.len() / 2;
    grow(alloc, packet_buffer, count)?;
    decode_front(text, packet_buffer.as_mut_slice());
    Ok(Some(&packet_buffer.as_slice()[..count]))
}

// Makes the buffer at least this large. Its contents are lost where it was smaller.
#[inline]
fn grow(alloc: Global, packet_buffer: &mut Vec<u8>, count: usize) -> Result<(), Fault>
    ensures packet_buffer { OnOk result (count ≤ vec_len packet_buffer.new) }
    ensures fault { IfErr result (λ fault. fault ≡ Fault.Memory) }
{
    if packet_buffer.len() >= count {
        return Ok(());
    }
    // The old buffer is freed first.
    *packet_buffer = Vec::new(alloc);
    let Ok(octets) = vec![in alloc; 0u8; count] else {
        return Err(Fault::Memory);
    };
    *packet_buffer = octets;
    Ok(())
}

// Whether these are digits, and as many as a packet may have.
fn are_pairs(text: &[u8]) -> bool
    ensures { result ≡ (is_length (length text.now) && list_all is_hex_digit text.now) }
{
    is_even_length(text.len()) && are_digits(text)
}

fn is_even_length(count: usize) -> bool
    ensures { result ≡ is_length count }
{
    (count % 2 == 0) & (count >= FEWEST_DIGITS) & (count <= MOST_OCTETS)
}

/// The 16 octets of an IPv6 address, from 32 hexadecimal digits of either case; None where a word is anything else.
#[inline]
pub fn read_address(text: &[u8]) -> Option<[u8; 16]>
    ensures { result ≡ address_of text.now }
{
    if text.len() != ADDRESS_DIGITS || !are_digits(text) {
        return None;
    }
    let mut octets = [0; 16];
    decode(text, &mut octets);
    Some(octets)
}

/// An offset in a packet, in decimal digits, with or without leading zeros; None where a word is anything else, or
/// where the offset is larger than the longest packet.
#[inline]
pub fn read_offset(text: &[u8]) -> Option<usize>
    ensures { result ≡ offset_of text.now }
{
    if text.is_empty() {
        return None;
    }
    let mut offset = 0;
    for octet in text {
        if *octet < b'0' || *octet > b'9' {
            return None;
        }
        offset = 10 * offset + usize::from(*octet - b'0');
        if offset > MOST_OFFSET {
            return None;
        }
    }
    Some(offset)
}
