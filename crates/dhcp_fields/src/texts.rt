//! The texts of names and of options.

#![tactic(auto, using(wirebase::proofs::Sinks::puts))]

ghost use Rattle.std.specs.Prelude.{◌≡◌, ◌≤◌, ◌++◌, [], ◌∷◌, None, codes, flat_map};
ghost use Rattle.std.specs.Option.{option_map};
ghost use Rattle.wirebase.specs.Hexadecimal.{encode_lower};
ghost use Rattle.dhcp_wire.specs.Dhcpv4OptionDisplay.{character};
ghost use Rattle.dhcp_wire.specs.Dhcpv4OptionTable.{name_of as name_in_table};
ghost use Rattle.wirebase.specs.Sink.{PutsText};
ghost use Rattle.packet_fields.specs.Fields.{text};
ghost use Rattle.dhcp_fields.specs.Texts.{before_zero, escaped, key_byte, key_text, label_or, option_label};

use dhcp_wire::dhcpv4::DhcpOption;
use packet_fields::Form;
use packet_fields::value::{Text, Value, put_text};
use std::io;
use std::io::Write;
use wirebase::text::{Sink, put_hex, put_number};

// A text of whatever bytes: a quotation mark and a backslash are put behind a backslash, and a byte that is neither a
// visible character of ASCII nor a space as `\x` and two digits.
#[derive(Clone, Copy)]
pub(crate) struct Escaped<'a>(pub(crate) &'a [u8]);

impl Value for Escaped<'_> {
    ghost leaf = { λ bytes. text (escaped bytes.0.now) };

    fn put<W: Write>(self, output: &mut W, form: Form) -> io::Result<()> {
        put_text(output, form, self)
    }
}

impl Text for Escaped<'_> {
    ghost text_of = { λ bytes. escaped bytes.0.now };

    #[tactic(auto, unfolding(crate::specs::Texts::escaped))]
    fn put_into<O, S: Sink<O>>(self, output: &mut O) -> Result<(), S::Error> {
        put_characters::<O, S>(output, self.0)
    }
}

fn put_characters<O, S: Sink<O>>(output: &mut O, octets: &[u8]) -> Result<(), S::Error>
    ensures { PutsText S.took output.old (flat_map character octets.now) result output.new }
{
    for octet in octets {
        put_character::<O, S>(output, *octet)?;
    }
    Ok(())
}

fn put_character<O, S: Sink<O>>(output: &mut O, octet: u8) -> Result<(), S::Error>
    ensures { PutsText S.took output.old (character octet) result output.new }
{
    match octet {
        b'"' | b'\\' => S::put(output, &[b'\\', octet]),
        b' '..=b'~' => S::put(output, &[octet]),
        _ => put_hidden::<O, S>(output, octet),
    }
}

fn put_hidden<O, S: Sink<O>>(output: &mut O, octet: u8) -> Result<(), S::Error>
    ensures { PutsText S.took output.old (codes "\\x" ++ encode_lower (octet ∷ [])) result output.new }
{
    S::put_str(output, "\\x")?;
    put_hex::<O, S>(output, &[octet])
}

// What an option of this kind is called: its name with underscores, as `host_name`, or its number, as `option_224`.
#[derive(Clone, Copy)]
pub(crate) struct OptionLabel(pub(crate) u8);

impl Text for OptionLabel {
    ghost text_of = { λ kind. option_label kind.0 };

    fn put_into<O, S: Sink<O>>(self, output: &mut O) -> Result<(), S::Error> {
        match name_of(self.0) {
            Some(name) => put_key::<O, S>(output, name),
            None => put_numbered::<O, S>(output, self.0),
        }
    }
}

fn name_of(kind: u8) -> Option<&'static str>
    ensures { option_map (λ name. name.now) result ≡ name_in_table kind }
{
    DhcpOption { kind, data: &[] }.name()
}

fn put_numbered<O, S: Sink<O>>(output: &mut O, kind: u8) -> Result<(), S::Error>
    ensures { PutsText S.took output.old (label_or None kind) result output.new }
{
    S::put_str(output, "option_")?;
    put_number::<O, S>(output, kind as u64)
}

#[tactic(auto, unfolding(crate::specs::Texts::key_text))]
fn put_key<O, S: Sink<O>>(output: &mut O, name: &str) -> Result<(), S::Error>
    ensures { PutsText S.took output.old (key_text name.now) result output.new }
{
    put_key_bytes::<O, S>(output, name.as_bytes())
}

fn put_key_bytes<O, S: Sink<O>>(output: &mut O, octets: &[u8]) -> Result<(), S::Error>
    ensures { PutsText S.took output.old (flat_map (λ b. key_byte b ∷ []) octets.now) result output.new }
{
    for octet in octets {
        S::put(output, &[key_byte(*octet)])?;
    }
    Ok(())
}

// A byte of a key: a digit or a small letter; others are underscores.
fn key_byte(octet: u8) -> u8
    ensures value { result ≡ key_byte octet }
    ensures ascii { result ≤ 127 }
{
    match octet {
        b'0'..=b'9' | b'a'..=b'z' => octet,
        _ => b'_',
    }
}

/// The bytes before the first zero, or all where there is none.
pub(crate) fn before_zero(octets: &[u8]) -> &[u8]
    ensures { result.now ≡ before_zero octets.now }
{
    for (place, octet) in octets.iter().enumerate() {
        if *octet == 0 {
            return &octets[..place];
        }
    }
    octets
}
