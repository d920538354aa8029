//! Texts of names that are octets, and of preferences.

#![tactic(auto, using(wirebase::proofs::Sinks::puts, wirebase::proofs::Sinks::put_none))]

ghost use Rattle.std.specs.Prelude.{◌≡◌, ◌++◌, ◌-◌, ◌<◌, [], ◌∷◌, codes, decimal, flat_map};
ghost use Rattle.wirebase.specs.Hexadecimal.{encode_lower};
ghost use Rattle.wirebase.specs.Sink.{PutsText};
ghost use Rattle.extension_wire.specs.InterfaceParts.{trimmed};
ghost use Rattle.packet_fields.specs.Fields.{text};
ghost use Rattle.icmp_fields.specs.Texts.{character, name_text, signed_text};

use packet_fields::Form;
use packet_fields::value::{Text, Value, put_text};
use std::io;
use std::io::Write;
use wirebase::text::{Sink, put_hex, put_number};

// A name of whatever octets, without the zeros at its end, which pad it: visible characters of ASCII as they are, a
// quotation mark and a backslash behind a backslash, and a space and every other octet as `\x` and two digits.
#[derive(Clone, Copy)]
pub(crate) struct Name<'a>(pub(crate) &'a [u8]);

impl Value for Name<'_> {
    ghost leaf = { λ name. text (name_text name.0.now) };

    fn put<W: Write>(self, output: &mut W, form: Form) -> io::Result<()> {
        put_text(output, form, self)
    }
}

impl Text for Name<'_> {
    ghost text_of = { λ name. name_text name.0.now };

    #[tactic(auto, unfolding(crate::specs::Texts::name_text))]
    fn put_into<O, S: Sink<O>>(self, output: &mut O) -> Result<(), S::Error> {
        put_characters::<O, S>(output, trimmed(self.0))
    }
}

fn put_characters<O, S: Sink<O>>(output: &mut O, octets: &[u8]) -> Result<(), S::Error>
    ensures { PutsText S.took output.old (flat_map character octets.now) result output.new }
{
    for octet in octets {
        put_character::<O, S>(output, *octet)?;
    }
    Ok(())
}

fn put_character<O, S: Sink<O>>(output: &mut O, octet: u8) -> Result<(), S::Error>
    ensures { PutsText S.took output.old (character octet) result output.new }
{
    match octet {
        b'"' | b'\\' => S::put(output, &[b'\\', octet]),
        b'!'..=b'~' => S::put(output, &[octet]),
        _ => put_hidden::<O, S>(output, octet),
    }
}

fn put_hidden<O, S: Sink<O>>(output: &mut O, octet: u8) -> Result<(), S::Error>
    ensures { PutsText S.took output.old (codes "\\x" ++ encode_lower (octet ∷ [])) result output.new }
{
    S::put_str(output, "\\x")?;
    put_hex::<O, S>(output, &[octet])
}

// The octets without the zeros at their end.
pub(crate) fn trimmed(octets: &[u8]) -> &[u8]
    ensures { result.now ≡ trimmed octets.now }
{
    let mut len = octets.len();
    while len > 0 && octets[len - 1] == 0 {
        len -= 1;
    }
    &octets[..len]
}

// A number of 32 bits in two's complement.
#[derive(Clone, Copy)]
pub(crate) struct Signed(pub(crate) u32);

// Two to the power of 32, and half of it.
const MODULUS: u64 = 1 << 32;

const SIGN: u32 = 1 << 31;

impl Value for Signed {
    ghost leaf = { λ number. text (signed_text number.0) };

    fn put<W: Write>(self, output: &mut W, form: Form) -> io::Result<()> {
        put_text(output, form, self)
    }
}

impl Text for Signed {
    ghost text_of = { λ number. signed_text number.0 };

    fn put_into<O, S: Sink<O>>(self, output: &mut O) -> Result<(), S::Error> {
        if self.0 < SIGN {
            return put_number::<O, S>(output, self.0 as u64);
        }
        put_negative::<O, S>(output, MODULUS - self.0 as u64)
    }
}

// Puts a number behind a sign.
fn put_negative<O, S: Sink<O>>(output: &mut O, number: u64) -> Result<(), S::Error>
    ensures { PutsText S.took output.old (codes "-" ++ decimal number) result output.new }
{
    S::put_str(output, "-")?;
    put_number::<O, S>(output, number)
}
