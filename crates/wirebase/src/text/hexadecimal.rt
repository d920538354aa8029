//! Octets as hexadecimal digits, two for each. Nothing branches by a digit, so that many are converted at once.

#![tactic(auto, using(crate::proofs::Sinks::puts))]

ghost use Rattle.std.specs.Prelude.{◌≡◌, ◌*◌, ◌<◌, ◌≤◌, ◌++◌, [], ◌∷◌, Some, codes, flat_map, length, slice_index};
ghost use Rattle.std.specs.Fmt.{WritesOnOk};
ghost use Rattle.wirebase.specs.Sink.{PutsText};
ghost use Rattle.hex.specs.Hex.{encode_lower, lower_digits};
ghost use Rattle.wirebase.specs.Hexadecimal.{hex_colons, octets_text};

use crate::text::sink::{Sink, ToFormatter};
use std::fmt;

// The number of octets that are converted at a time, and the digits of these.
const OCTETS: usize = 64;

const DIGITS: usize = 2 * OCTETS;

/// Puts octets in lower-case hexadecimal digits, two for each.
#[inline]
pub fn put_hex<O, S: Sink<O>>(output: &mut O, octets: &[u8]) -> Result<(), S::Error>
    ensures { PutsText S.took output.old (encode_lower octets.now) result output.new }
{
    for octets in octets.chunks(OCTETS) {
        put_chunk::<O, S>(output, octets)?;
    }
    Ok(())
}

// Puts the digits of at most so many octets.
fn put_chunk<O, S: Sink<O>>(output: &mut O, octets: &[u8]) -> Result<(), S::Error>
    requires { length octets.now ≤ OCTETS }
    ensures { PutsText S.took output.old (encode_lower octets.now) result output.new }
{
    let mut room = [0; DIGITS];
    let digits = &mut room[..2 * octets.len()];
    encode(octets, digits);
    S::put(output, digits)
}

// The digits of octets, in lower case.
fn encode(octets: &[u8], digits: &mut [u8])
    requires { length digits.old ≡ 2 * length octets.now }
    ensures { digits.new ≡ encode_lower octets.now }
{
    'octets: for i in 0..octets.len() {
        digits[2 * i] = digit_of(octets[i] / 16);
        digits[2 * i + 1] = digit_of(octets[i] % 16);
    }
}

// The digit of a value.
fn digit_of(value: u8) -> u8
    requires { value < 16 }
    ensures { result ≡ slice_index lower_digits value }
{
    if value < 10 {
        b'0' + value
    } else {
        b'a' - 10 + value
    }
}

/// Puts octets in hexadecimal digits, and a dash where there are none.
pub fn put_octets<O, S: Sink<O>>(output: &mut O, octets: &[u8]) -> Result<(), S::Error>
    ensures { PutsText S.took output.old (octets_text octets.now) result output.new }
{
    if octets.is_empty() {
        return S::put_str(output, "-");
    }
    put_hex::<O, S>(output, octets)
}

/// Octets that print as two hexadecimal digits each.
#[derive(Clone, Copy)]
pub struct Hex<'a>(pub &'a [u8]);

impl fmt::Display for Hex<'_> {
    ghost output = { λ octets. Some (encode_lower octets.0.now) };

    fn fmt<W: fmt::Write>(&self, f: &mut fmt::Formatter<W>) -> fmt::Result {
        put_hex::<_, ToFormatter>(f, self.0)
    }
}

/// Octets that print as two hexadecimal digits each, and as a dash where there are none.
#[derive(Clone, Copy)]
pub struct HexOrDash<'a>(pub &'a [u8]);

impl fmt::Display for HexOrDash<'_> {
    ghost output = { λ octets. Some (octets_text octets.0.now) };

    fn fmt<W: fmt::Write>(&self, f: &mut fmt::Formatter<W>) -> fmt::Result {
        put_octets::<_, ToFormatter>(f, self.0)
    }
}

/// Octets that print as two hexadecimal digits each, with colons between them.
#[derive(Clone, Copy)]
pub struct HexColons<'a>(pub &'a [u8]);

impl fmt::Display for HexColons<'_> {
    ghost output = { λ octets. Some (hex_colons octets.0.now) };

    fn fmt<W: fmt::Write>(&self, f: &mut fmt::Formatter<W>) -> fmt::Result {
        let [first, rest @ ..] = self.0 else {
            return Ok(());
        };
        write!(f, "{}", Hex(&[*first]))?;
        fmt_behind_colons(f, rest)
    }
}

// Prints each octet as two digits, after a colon.
fn fmt_behind_colons<W: fmt::Write>(f: &mut fmt::Formatter<W>, octets: &[u8]) -> fmt::Result
    ensures { WritesOnOk W.write_str_gives f.old result
        (flat_map (λ next. codes ":" ++ encode_lower (next ∷ [])) octets.now) f.new }
{
    for octet in octets {
        write!(f, ":{}", Hex(&[*octet]))?;
    }
    Ok(())
}
