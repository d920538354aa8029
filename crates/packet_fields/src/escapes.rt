//! Strings of JSON (RFC 8259 section 7).

#![tactic(auto, using(crate::proofs::Puts::escaped_once, // what is put in one call
crate::proofs::Printing::gained, crate::proofs::Printing::gains_both))]

ghost use Rattle.std.specs.Prelude.{◌≡◌, ◌<◌, ◌≤◌, ◌∷◌, [], IfOk, IsTrue, OnOk, drop, length, take};
ghost use Rattle.std.specs.Char.{digit_char};
ghost use Rattle.json.specs.Print.{escape, escape_byte, escape_letter};
ghost use Rattle.packet_fields.specs.Output.{Gains};
ghost use Rattle.packet_fields.specs.Escapes.{Escaping};

use std::io;
use std::io::Write;
use wirebase::text::Sink;

/// Texts go into a string of JSON on an `io::Write`, between its quotation marks.
pub struct ToString;

impl<W: Write> Sink<W> for ToString {
    type Error = io::Error;

    ghost took = { Escaping W.contents };

    #[inline]
    fn put(output: &mut W, text: &[u8]) -> io::Result<()> {
        write_escaped(output, text)
    }

    #[inline]
    fn put_str(output: &mut W, text: &str) -> io::Result<()> {
        write_escaped(output, text.as_bytes())
    }
}

// Writes a text as it stands in a string.
fn write_escaped<W: Write>(output: &mut W, text: &[u8]) -> io::Result<()>
    ensures { OnOk result (Gains (W.contents output.old) (W.contents output.new) (escape text.now)) }
{
    let mut rest = text;
    while !rest.is_empty() {
        let (plain, behind) = rest.split_at(plain_len(rest));
        output.write_all(plain)?;
        rest = write_first(output, behind)?;
    }
    Ok(())
}

// Writes the first octet of these as it stands in a string, and returns the others.
fn write_first<'a, W: Write>(output: &mut W, octets: &'a [u8]) -> io::Result<&'a [u8]>
    ensures { IfOk result (λ rest. (rest.now ≡ drop 1 octets.now)
        × Gains (W.contents output.old) (W.contents output.new) (escape (take 1 octets.now))) }
{
    let [first, rest @ ..] = octets else {
        return Ok(octets);
    };
    write_octet(output, *first)?;
    Ok(rest)
}

// Writes an octet as it stands in a string.
#[tactic(auto, using(crate::proofs::Printing::gained), unfolding(json::specs::Print::escape_byte))]
fn write_octet<W: Write>(output: &mut W, octet: u8) -> io::Result<()>
    ensures { OnOk result (Gains (W.contents output.old) (W.contents output.new) (escape_byte octet)) }
{
    let letter = escape_letter(octet);
    if letter > 0 {
        return output.write_all(&[b'\\', letter]);
    }
    if octet < b' ' {
        let digits = [digit(octet / 16), digit(octet % 16)];
        return output.write_all(&[b'\\', b'u', b'0', b'0', digits[0], digits[1]]);
    }
    output.write_all(&[octet])
}

// The number of octets before the first that is escaped.
fn plain_len(text: &[u8]) -> usize
    ensures bound { result ≤ length text.now }
    ensures plain { escape (take result text.now) ≡ take result text.now }
{
    for (place, octet) in text.iter().enumerate() {
        if !is_plain(*octet) {
            return place;
        }
    }
    text.len()
}

// Whether an octet stands in a string as it is.
#[tactic(auto, unfolding(json::specs::Print::escape_byte))]
fn is_plain(octet: u8) -> bool
    ensures { IsTrue result → escape_byte octet ≡ octet ∷ [] }
{
    octet >= b' ' && escape_letter(octet) == 0
}

// The letter of an octet's short escape, or 0.
fn escape_letter(octet: u8) -> u8
    ensures { result ≡ escape_letter octet }
{
    match octet {
        b'"' | b'\\' => octet,
        8 => b'b',
        12 => b'f',
        b'\n' => b'n',
        b'\r' => b'r',
        b'\t' => b't',
        _ => 0,
    }
}

// The hexadecimal digit of a value.
fn digit(value: u8) -> u8
    requires { value < 16 }
    ensures { result ≡ digit_char value }
{
    if value < 10 {
        b'0' + value
    } else {
        b'a' - 10 + value
    }
}
