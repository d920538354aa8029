//! NetBIOS names in messages (RFC 1001 sections 14.1 and 14.2, RFC 1002 section 4.1).

#![tactic(auto, using(wirebase::proofs::Sinks::puts, wirebase::proofs::Sinks::put_none))]

ghost use Rattle.std.specs.Prelude.{◌≡◌, ◌-◌, ◌<◌, length, true};
ghost use Rattle.std.specs.List.{list_all};
ghost use Rattle.record_wire.specs.Name.{labels_of};
ghost use Rattle.record_wire.specs.NameText.{behind_dots, character, is_special, label_text};
ghost use Rattle.wirebase.specs.Sink.{PutsText};
ghost use Rattle.dns_fields.specs.Netbios.{bytes_text, decoded, is_encoded, is_letter, name_text};
ghost use Rattle.dns_fields.specs.private.Digits.{three_digits};
ghost use Rattle.dns_fields.specs.Netbios.{without_spaces};

use record_wire::Name;
use record_wire::name::Labels;
use wirebase::text::{Sink, put_hex, put_number};

/// The bytes of a name, the last of which says what it is of, and the letters that they are in messages.
pub(crate) const NAME_LEN: usize = 16;

const LETTERS: usize = 32;

const NAME_END: usize = 15;

/// Puts a name: where its first label is 32 letters from A to P, the bytes that these are and the scope; any other as
/// DNS has it, with its last dot.
pub(crate) fn put_name<O, S: Sink<O>>(output: &mut O, name: &Name) -> Result<(), S::Error>
    ensures { PutsText S.took output.old (name_text (labels_of name.now)) result output.new }
{
    let mut labels = name.labels();
    let Some(first) = labels.next() else {
        return name.put_whole::<O, S>(output);
    };
    if !is_encoded(first) {
        return name.put_whole::<O, S>(output);
    }
    put_bytes::<O, S>(output, &decode(first))?;
    put_scope::<O, S>(output, labels)
}

// Puts each label that is left after a dot.
fn put_scope<O, S: Sink<O>>(output: &mut O, mut labels: Labels<'_>) -> Result<(), S::Error>
    ensures { PutsText S.took output.old (behind_dots labels.entry) result output.new }
{
    while let Some(label) = labels.next() {
        S::put_str(output, ".")?;
        put_label::<O, S>(output, label)?;
    }
    Ok(())
}

/// Puts a name of 16 bytes: the first 15 without the spaces at their end, and in brackets the last in hexadecimal.
pub(crate) fn put_bytes<O, S: Sink<O>>(output: &mut O, bytes: &[u8]) -> Result<(), S::Error>
    requires { length bytes.now ≡ 16 }
    ensures { PutsText S.took output.old (bytes_text bytes.now) result output.new }
{
    let (name, last) = bytes.split_at(NAME_END);
    put_label::<O, S>(output, without_spaces(name))?;
    S::put_str(output, "<")?;
    put_hex::<O, S>(output, last)?;
    S::put_str(output, ">")
}

// The bytes but for the spaces at their end.
fn without_spaces(bytes: &[u8]) -> &[u8]
    ensures { result.now ≡ without_spaces bytes.now }
{
    let mut len = bytes.len();
    while len > 0 && bytes[len - 1] == b' ' {
        len -= 1;
    }
    &bytes[..len]
}

// Puts bytes as a zone file has those of a label.
fn put_label<O, S: Sink<O>>(output: &mut O, label: &[u8]) -> Result<(), S::Error>
    ensures { PutsText S.took output.old (label_text label.now) result output.new }
{
    for byte in label {
        put_character::<O, S>(output, *byte)?;
    }
    Ok(())
}

// Puts a byte: as itself, after a backslash, or by its number.
fn put_character<O, S: Sink<O>>(output: &mut O, byte: u8) -> Result<(), S::Error>
    ensures { PutsText S.took output.old (character byte) result output.new }
{
    if is_special(byte) {
        S::put_str(output, "\\")?;
        return S::put(output, &[byte]);
    }
    if byte.is_ascii_graphic() {
        return S::put(output, &[byte]);
    }
    S::put_str(output, "\\")?;
    put_digits::<O, S>(output, byte)
}

// Puts three digits.
fn put_digits<O, S: Sink<O>>(output: &mut O, byte: u8) -> Result<(), S::Error>
    ensures { PutsText S.took output.old (three_digits byte) result output.new }
{
    put_number::<O, S>(output, (byte / 100) as u64)?;
    put_number::<O, S>(output, (byte / 10 % 10) as u64)?;
    put_number::<O, S>(output, (byte % 10) as u64)
}

// Whether a byte has a meaning of its own in a zone file.
fn is_special(byte: u8) -> bool
    ensures { result ≡ is_special byte }
{
    matches!(byte, b'"' | b'$' | b'(' | b')' | b'.' | b';' | b'@' | b'\\')
}

// Whether a label is 32 letters, which are 16 bytes.
fn is_encoded(label: &[u8]) -> bool
    ensures { result ≡ is_encoded label.now }
{
    label.len() == LETTERS && are_letters(label)
}

fn are_letters(label: &[u8]) -> bool
    ensures { result ≡ list_all is_letter label.now }
{
    for letter in label {
        if !matches!(letter, b'A'..=b'P') {
            return false;
        }
    }
    true
}

// The bytes of such a label.
fn decode(label: &[u8]) -> [u8; NAME_LEN]
    requires { is_encoded label.now ≡ true }
    ensures { result ≡ decoded label.now }
{
    let mut bytes = [0; NAME_LEN];
    for i in 0..NAME_LEN {
        bytes[i] = 16 * value_of(label[2 * i]) + value_of(label[2 * i + 1]);
    }
    bytes
}

// The four bits of a letter.
fn value_of(letter: u8) -> u8
    requires { is_letter letter ≡ true }
    ensures value { result ≡ letter - 65 }
    ensures small { result < 16 }
{
    letter - b'A'
}
