//! Why texts of names are refused: the check that fails first.

ghost use Rattle.std.specs.Prelude.{◌≡◌, ◌≢◌, ◌≤◌, codes, ℕ, List, None, length};
ghost use Rattle.record_wire.specs.private.NameReading.{first_byte, IsSpelling};
ghost use Rattle.record_wire.specs.NameText.{IsNameText};
ghost use Rattle.record_wire.specs.TextRefusal.{RefusesText, RefusesRest};
ghost use Rattle.record_wire.specs.private.Parts.{RefusesLabel};

use crate::name::MAX_NAME_LEN;
use crate::name::label::push_label;
use crate::name::text::{Behind, read_behind, read_byte, read_label};
use arrayvec::ArrayVec;
use std::fmt;

/// Why [`crate::Name::from_text`] refuses a text, which is read from its start: the check that fails first.
#[derive(Debug, PartialEq, Eq, Clone, Copy)]
pub enum NameTextRefusal {
    /// A label has no bytes: the text is empty or begins with a dot, or two dots are adjacent.
    EmptyLabel,
    /// A label has more than 63 bytes (RFC 1035 section 2.3.4).
    LongLabel,
    /// The name has more than 255 octets (RFC 1035 section 2.3.4).
    TooLong,
    /// A backslash that is followed neither by a visible character other than a digit nor by three digits of a number
    /// up to 255 (RFC 1035 section 5.1).
    Escape,
    /// This byte, which needs a backslash before it or can't be written as itself: it has a meaning of its own, or is
    /// not visible.
    Byte(u8),
}

/// What is wrong with the text.
impl fmt::Display for NameTextRefusal {
    ghost use Rattle.std.specs.Prelude.{Some};
    ghost use Rattle.record_wire.specs.TextRefusal.{text_refusal_display};

    ghost output = { λ refusal. Some (text_refusal_display refusal) };

    fn fmt<W: fmt::Write>(&self, f: &mut fmt::Formatter<W>) -> fmt::Result {
        match self {
            NameTextRefusal::EmptyLabel => write!(f, "a label is empty"),
            NameTextRefusal::LongLabel => write!(f, "a label has more than 63 bytes"),
            NameTextRefusal::TooLong => write!(f, "the name has more than 255 octets"),
            NameTextRefusal::Escape => write!(
                f,
                "a backslash stands before no character that it quotes"
            ),
            NameTextRefusal::Byte(byte) => write!(f, "byte {byte} does not stand for itself"),
        }
    }
}

/// Why a text is no name.
pub(super) fn why_no_text(text: &[u8]) -> NameTextRefusal
    requires root { text.now ≢ codes "." }
    requires none { (labels : List (List ℕ)) → IsNameText text.now labels → ⊥ }
    ensures { RefusesText text.now result }
{
    let mut octets: ArrayVec<u8, MAX_NAME_LEN> = ArrayVec::new();
    let mut left = text;
    loop {
        let Ok((label, rest)) = read_label(left) else {
            return why_no_label(left);
        };
        let Ok(()) = push_label(&mut octets, label.as_slice()) else {
            return NameTextRefusal::TooLong;
        };
        match read_behind(rest) {
            Behind::End => return NameTextRefusal::TooLong,
            Behind::Label(next) => left = next,
            Behind::Other => return why_no_character(rest),
        }
    }
}

// Why a text does not begin with a label of 1 to 63 bytes.
fn why_no_label(text: &[u8]) -> NameTextRefusal
    requires { (label rest : List ℕ) → IsSpelling text.now label rest → 1 ≤ length label → length label ≤ 63 → ⊥ }
    ensures { RefusesLabel text.now result }
{
    match read_byte(text) {
        Some(_) => NameTextRefusal::LongLabel,
        None => why_no_character(text),
    }
}

// Why a text does not begin with a character.
fn why_no_character(text: &[u8]) -> NameTextRefusal
    requires { first_byte text.now ≡ None }
    ensures { RefusesRest text.now result }
{
    match text {
        [] => NameTextRefusal::EmptyLabel,
        [b'.', ..] => NameTextRefusal::EmptyLabel,
        [b'\\', ..] => NameTextRefusal::Escape,
        [byte, ..] => NameTextRefusal::Byte(*byte),
    }
}
