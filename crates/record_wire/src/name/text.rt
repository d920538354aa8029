//! The characters and the labels of a name's text (RFC 1035 section 5.1).

ghost use Rattle.std.specs.Prelude.{◌≡◌, ◌↔◌, ◌≤◌, ◌<◌, ◌-◌, ◌∷◌, [], ℕ, List, length, codes, IfOk, IsOk, OnOk, IsTrue};
ghost use Rattle.std.specs.Char.{is_ascii_digit};
ghost use Rattle.record_wire.specs.private.NameReading.{first_byte, quoted_in, numbered_at, seen_byte, IsSpelling};
ghost use Rattle.record_wire.specs.private.NameReading.{HasLabelsOfText, seen_behind, behind_in};
ghost use Rattle.record_wire.specs.Labels.{written_all};
ghost use Rattle.record_wire.specs.NameText.{IsNameText};

use crate::escapes::{Escaping, is_plain};
use crate::name::MAX_NAME_LEN;
use crate::name::label::{MAX_LABEL_LEN, push_label};
use arrayvec::ArrayVec;
use wirebase::{Error, Result};

/// Whether this is the text of the root, a dot alone.
pub(super) fn is_root(text: &[u8]) -> bool
    ensures { IsTrue result ↔ (text.now ≡ codes ".") }
{
    matches!(text, [b'.'])
}

/// Writes the labels of a text, with dots between them and a last dot allowed, to an empty name. Refused where the text
/// is malformed, where a label is empty or has more than 63 bytes, and where they have more than 255 octets. A function
/// of its own, so that the root is read without the buffer for a label's text.
#[inline(never)]
pub(super) fn put_labels(octets: &mut ArrayVec<u8, MAX_NAME_LEN>, text: &[u8]) -> Result<()>
    requires { octets.old.items ≡ [] }
    ensures sound { OnOk result (HasLabelsOfText text.now octets.new.items) }
    ensures complete { (label : List ℕ) (labels : List (List ℕ)) → IsNameText text.now (label ∷ labels)
        → IsOk result × (octets.new.items ≡ written_all (label ∷ labels)) }
{
    let mut left = text;
    loop {
        let (label, rest) = read_label(left)?;
        push_label(octets, label.as_slice())?;
        match read_behind(rest) {
            Behind::End => return Ok(()),
            Behind::Label(next) => left = next,
            Behind::Other => return Err(Error),
        }
    }
}

/// What follows the text of a label.
#[derive(Clone, Copy)]
pub(super) enum Behind<'a> {
    /// The end, or a last dot.
    End,
    /// A dot, and then this text.
    Label(&'a [u8]),
    /// Something else.
    Other,
}

/// What follows the text of a label.
pub(super) fn read_behind(text: &[u8]) -> Behind<'_>
    ensures { seen_behind result ≡ behind_in text.now }
{
    match text {
        [] => Behind::End,
        [b'.'] => Behind::End,
        [b'.', next @ ..] => Behind::Label(next),
        _ => Behind::Other,
    }
}

/// Reads a label's text up to where no character follows, and returns the rest. Refused where the label would be empty
/// or has more than 63 bytes.
pub(super) fn read_label(text: &[u8]) -> Result<(ArrayVec<u8, MAX_LABEL_LEN>, &[u8])>
    ensures sound { IfOk result (λ read. IsSpelling text.now read.0.items read.1.now) }
    ensures some { IfOk result (λ read. 1 ≤ length read.0.items) }
    ensures few { IfOk result (λ read. length read.0.items ≤ 63) }
    ensures complete { (label rest : List ℕ) → IsSpelling text.now label rest → 1 ≤ length label
        → length label ≤ 63 → IsOk result }
{
    let mut label = ArrayVec::new();
    let mut left = text;
    while let Some((byte, rest)) = read_byte(left) {
        if label.try_push(byte).is_err() {
            return Err(Error);
        }
        left = rest;
    }
    if label.is_empty() {
        return Err(Error);
    }
    Ok((label, left))
}

/// The byte that the first character of a text denotes, and what follows the character.
pub(super) fn read_byte(text: &[u8]) -> Option<(u8, &[u8])>
    ensures { seen_byte result ≡ first_byte text.now }
{
    match text {
        [b'\\', rest @ ..] => read_quoted(rest),
        [byte, rest @ ..] if is_plain(*byte, Escaping::Label) => Some((*byte, rest)),
        _ => None,
    }
}

// The byte that the text after a backslash denotes, and what follows it.
fn read_quoted(text: &[u8]) -> Option<(u8, &[u8])>
    ensures { seen_byte result ≡ quoted_in text.now }
{
    match text {
        [digit, rest @ ..] if digit.is_ascii_digit() => read_number(*digit, rest),
        [byte, rest @ ..] if byte.is_ascii_graphic() => Some((*byte, rest)),
        _ => None,
    }
}

// The byte that three digits denote, of which the first is given, and what follows them.
fn read_number(first: u8, text: &[u8]) -> Option<(u8, &[u8])>
    requires { IsTrue (is_ascii_digit first) }
    ensures { seen_byte result ≡ numbered_at first text.now }
{
    match text {
        [second, third, rest @ ..] if second.is_ascii_digit() && third.is_ascii_digit() => {
            let number = 100 * digit_value(first) + 10 * digit_value(*second) + digit_value(*third);
            match u8::try_from(number) {
                Ok(byte) => Some((byte, rest)),
                Err(_) => None,
            }
        }
        _ => None,
    }
}

// The value of a digit.
fn digit_value(digit: u8) -> u16
    requires { IsTrue (is_ascii_digit digit) }
    ensures value { result ≡ digit - 48 }
    ensures small { result < 10 }
{
    (digit - b'0') as u16
}
