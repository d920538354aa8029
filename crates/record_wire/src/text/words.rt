//! The words of a line of a zone file (RFC 1035 section 5.1, RFC 3597 section 5, RFC 4648 section 4).

#![tactic(auto, using(wirebase::proofs::Sinks::puts), unfolding(crate::specs::ZoneText::word))]

ghost use Rattle.std.specs.Prelude.{◌≡◌, [], ◌∷◌, None, map};
ghost use Rattle.wirebase.specs.Sink.{PutsText};
ghost use Rattle.record_wire.specs.Strings.{strings_in};
ghost use Rattle.record_wire.specs.ZoneText.{string_text, string_words, strings_text};
ghost use Rattle.record_wire.specs.ZoneText.{generic_text, base64, base64_digit};
ghost use Rattle.record_wire.specs.private.NameReading.{seen_byte, first_octet, first_group, seen_group};

use crate::escapes::{Escaping, PIECE_LEN, put_bytes, put_one};
use crate::strings::TxtStrings;
use std::result;
use wirebase::text::{Sink, put_hex, put_number};

/// Puts strings, each stored after its length, in quotes and with spaces between them.
pub(crate) fn put_strings<O, S: Sink<O>>(
    output: &mut O,
    octets: &[u8],
) -> result::Result<(), S::Error>
    ensures { PutsText S.took output.old (strings_text (strings_in octets.now)) result output.new }
{
    let mut strings = TxtStrings::new(octets);
    let Some(first) = strings.next() else {
        return Ok(());
    };
    put_string::<O, S>(output, first)?;
    put_behind_spaces::<O, S>(output, strings)
}

// Puts each string that is left after a space.
fn put_behind_spaces<O, S: Sink<O>>(
    output: &mut O,
    mut strings: TxtStrings<'_>,
) -> result::Result<(), S::Error>
    ensures { PutsText S.took output.old (string_words strings.entry) result output.new }
{
    while let Some(string) = strings.next() {
        S::put_str(output, " ")?;
        put_string::<O, S>(output, string)?;
    }
    Ok(())
}

// Puts a string in quotes.
fn put_string<O, S: Sink<O>>(output: &mut O, string: &[u8]) -> result::Result<(), S::Error>
    ensures { PutsText S.took output.old (string_text string.now) result output.new }
{
    let mut piece = [0; PIECE_LEN];
    piece[0] = b'"';
    let len = put_bytes::<O, S>(output, &mut piece, 1, string, Escaping::String)?;
    let len = put_one::<O, S>(output, &mut piece, len, b'"')?;
    S::put(output, &piece[..len])
}

/// Puts data of any type: the number of bytes, and these in hexadecimal.
pub(crate) fn put_generic<O, S: Sink<O>>(
    output: &mut O,
    octets: &[u8],
) -> result::Result<(), S::Error>
    ensures { PutsText S.took output.old (generic_text octets.now) result output.new }
{
    S::put_str(output, "\\# ")?;
    put_number::<O, S>(output, octets.len() as u64)?;
    if octets.is_empty() {
        return Ok(());
    }
    S::put_str(output, " ")?;
    put_hex::<O, S>(output, octets)
}

/// Puts bytes in base64, three in four characters, and one or two at the end with padding (RFC 4648 section 4).
pub(super) fn put_base64<O, S: Sink<O>>(
    output: &mut O,
    bytes: &[u8],
) -> result::Result<(), S::Error>
    ensures { PutsText S.took output.old (base64 bytes.now) result output.new }
{
    let mut left = bytes;
    while let Some((a, b, c, rest)) = split_group(left) {
        put_digits::<O, S>(
            output,
            a / 4,
            a % 4 * 16 + b / 16,
            b % 16 * 4 + c / 64,
            c % 64,
        )?;
        left = rest;
    }
    put_last::<O, S>(output, left)
}

// Puts one byte or two, with padding.
fn put_last<O, S: Sink<O>>(output: &mut O, left: &[u8]) -> result::Result<(), S::Error>
    requires { first_group left.now ≡ None }
    ensures { PutsText S.took output.old (base64 left.now) result output.new }
{
    let Some((a, rest)) = split_byte(left) else {
        return Ok(());
    };
    match split_byte(rest) {
        Some((b, _)) => put_digits::<O, S>(output, a / 4, a % 4 * 16 + b / 16, b % 16 * 4, PADDING),
        None => put_digits::<O, S>(output, a / 4, a % 4 * 16, PADDING, PADDING),
    }
}

// The value that becomes `=`, among those of six bits.
const PADDING: u8 = 64;

// Puts a character for six bits each.
fn put_digits<O, S: Sink<O>>(
    output: &mut O,
    a: u8,
    b: u8,
    c: u8,
    d: u8,
) -> result::Result<(), S::Error>
    ensures { PutsText S.took output.old (map base64_digit (a ∷ b ∷ c ∷ d ∷ [])) result output.new }
{
    S::put(output, &[digit(a), digit(b), digit(c), digit(d)])
}

// The first three bytes, and those after them.
fn split_group(bytes: &[u8]) -> Option<(u8, u8, u8, &[u8])>
    ensures { seen_group result ≡ first_group bytes.now }
{
    match bytes {
        [a, b, c, rest @ ..] => Some((*a, *b, *c, rest)),
        _ => None,
    }
}

/// The first byte, and those after it.
pub(super) fn split_byte(bytes: &[u8]) -> Option<(u8, &[u8])>
    ensures { seen_byte result ≡ first_octet bytes.now }
{
    match bytes {
        [byte, rest @ ..] => Some((*byte, rest)),
        [] => None,
    }
}

// The character of six bits, or of padding.
#[tactic(auto, unfolding(crate::specs::ZoneText::base64_digit))]
fn digit(six: u8) -> u8
    ensures { result ≡ base64_digit six }
{
    match six {
        0..=25 => b'A' + six,
        26..=51 => b'a' + (six - 26),
        52..=61 => b'0' + (six - 52),
        62 => b'+',
        63 => b'/',
        _ => b'=',
    }
}
