//! Whole names: read from a message or from text, and written as text (RFC 1035 sections 2.3.4, 3.1 and 5.1).

pub mod dotted;
mod label;
pub(crate) mod name_text;
mod part;
pub mod refusal;
pub(crate) mod text;
pub mod text_refusal;

ghost use Rattle.std.specs.Prelude.{◌≡◌, ◌↔◌, ℕ, List, [], IfOk, IfErr, IsOk, IsOkAnd, OnOk, IsTrue, IfSome, IsNone};
ghost use Rattle.wirebase.specs.Bytes.{IsBytes};
ghost use Rattle.dns_wire.specs.DnsPacket.{view_octets};
ghost use Rattle.record_wire.specs.Labels.{wire, labels_in, AreOfName};
ghost use Rattle.record_wire.specs.Names.{Names};
ghost use Rattle.record_wire.specs.private.NameParts.{HasLabelsOfName};
ghost use Rattle.record_wire.specs.NameCase.{lower_labels};
ghost use Rattle.record_wire.specs.NameRefusal.{RefusesName, HasName};
ghost use Rattle.record_wire.specs.TextRefusal.{RefusesText, IsText};

pub use crate::name::label::Labels;
use crate::name::label::{push_end, push_labels};
use crate::name::name_text::put_name as put_name_text;
use crate::name::part::read_labels;
use crate::name::refusal::NameRefusal;
use crate::name::text::{is_root, put_labels};
use crate::name::text_refusal::{NameTextRefusal, why_no_text};
use crate::refusal::why_torn;
use arrayvec::ArrayVec;
use dns_wire::dns::Packet;
use dns_wire::octets::{NamePart, follow, octets_of};
use std::alloc::AllocError;
use std::{fmt, result};
use wirebase::text::ToFormatter;
use wirebase::{Error, Result};

/// The most octets that a name has (RFC 1035 section 2.3.4).
pub const MAX_NAME_LEN: usize = 255;

/// The most pointers that are followed in a name. A name of 255 octets has 127 labels at most, so with more pointers
/// one leads to no label of its own: no encoder writes such a chain, and each step costs time.
pub const MAX_POINTERS: usize = 127;

/// A whole name, by its octets: each label of 1 to 63 bytes after its length, and then byte 0; 255 octets at most.
///
/// ```
/// use record_wire::Name;
///
/// let name = Name::from_text(b"www.example.com")?;
/// assert_eq!(name.octets(), b"\x03www\x07example\x03com\0");
/// assert_eq!(name.to_string(), "www.example.com");
/// # Ok::<(), control_wire::Error>(())
/// ```
#[derive(Drop)]
pub struct Name {
    octets: ArrayVec<u8, MAX_NAME_LEN>,
    pub ghost whole: { wire (labels_in octets.items) ≡ octets.items },
}

impl Name {
    ghost use Rattle.record_wire.specs.Name.{labels_of};
    ghost use Rattle.record_wire.specs.NameText.{IsNameText, name_text};

    /// The name that begins in `bytes`, a part of the message or not, and continues where its pointers lead in the
    /// message. Refused where it is malformed, where it has more than 255 octets, and where it has more than
    /// [`MAX_POINTERS`] pointers.
    pub fn read<'a>(packet: &Packet<&'a [u8]>, bytes: &'a [u8]) -> Result<Name>
        ensures sound { IfOk result (λ name.
            Names (view_octets packet.entry.now) bytes.entry.now (labels_of name)) }
        ensures complete { (labels : List (List ℕ))
            → Names (view_octets packet.entry.now) bytes.entry.now labels
            → IsOkAnd result (λ name. labels_of name ≡ labels) }
    {
        let mut octets = ArrayVec::new();
        match put_name(&mut octets, octets_of(packet), bytes) {
            Ok(()) => Ok(Name { octets }),
            Err(_) => Err(Error),
        }
    }

    /// Why [`Name::read`] refuses this, by the check that fails first; None where it reads a name.
    pub fn read_refusal<'a>(packet: &Packet<&'a [u8]>, bytes: &'a [u8]) -> Option<NameRefusal>
        ensures told { IfSome result (λ refusal.
            RefusesName bytes.entry.now (view_octets packet.entry.now) refusal) }
        ensures exact { IsNone result ↔ HasName bytes.entry.now (view_octets packet.entry.now) }
    {
        let mut octets = ArrayVec::new();
        match put_name(&mut octets, octets_of(packet), bytes) {
            Ok(()) => None,
            Err(refusal) => Some(refusal),
        }
    }

    /// The name of this text: labels with dots between them, a last dot allowed, and a dot alone for the root. A
    /// visible character is written as itself, but `"`, `$`, `(`, `)`, `.`, `;`, `@` and `\` follow a backslash; three
    /// digits after a backslash are the number of a byte. Refused where the text is malformed, where a label is empty
    /// or has more than 63 bytes, and where the name has more than 255 octets: [`Name::from_text_refusal`] says why.
    pub fn from_text(text: &[u8]) -> Result<Name>
        ensures sound { IfOk result (λ name. IsNameText text.now (labels_of name)) }
        ensures complete { (labels : List (List ℕ)) → IsNameText text.now labels
            → IsOkAnd result (λ name. labels_of name ≡ labels) }
        ensures reads_back { (labels : List (List ℕ)) → AreOfName labels → IsBytes (wire labels)
            → text.now ≡ name_text labels → IsOkAnd result (λ name. labels_of name ≡ labels) }
    {
        if is_root(text) {
            return Ok(Name::root());
        }
        let mut octets = ArrayVec::new();
        put_labels(&mut octets, text)?;
        push_end(&mut octets)?;
        Ok(Name { octets })
    }

    /// Why [`Name::from_text`] refuses this text, which it reads from its start on, by the check that fails first; None
    /// where it is that of a name.
    ///
    /// ```
    /// use record_wire::{Name, NameTextRefusal};
    ///
    /// assert_eq!(Name::from_text_refusal(b"www..com"), Some(NameTextRefusal::EmptyLabel));
    /// assert_eq!(Name::from_text_refusal(b"www.example.com"), None);
    /// ```
    pub fn from_text_refusal(text: &[u8]) -> Option<NameTextRefusal>
        ensures told { IfSome result (λ refusal. RefusesText text.now refusal) }
        ensures exact { IsNone result ↔ IsText text.now }
    {
        match Name::from_text(text) {
            Ok(_) => None,
            Err(_) => Some(why_no_text(text)),
        }
    }

    /// The octets: each label after its length, and then byte 0.
    pub fn octets(&self) -> &[u8]
        ensures value { result.now ≡ wire (labels_of self.now) }
        ensures name { AreOfName (labels_of self.now) }
    {
        self.octets.as_slice()
    }

    /// The labels in turn, each without its length; the root has none.
    pub fn labels(&self) -> Labels<'_>
        ensures { result ≡ labels_of self.now }
    {
        Labels::new(self.octets.as_slice())
    }

    /// Whether the names have the same labels, without regard to the case of ASCII letters (RFC 4343 section 3). So do
    /// `==` and `!=`; the octets, compared by [`Name::octets`], differ where a case does.
    pub fn eq_ignore_case(&self, other: &Name) -> bool
        ensures { IsTrue result
            ↔ (lower_labels (labels_of self.now) ≡ lower_labels (labels_of other.now)) }
    {
        let left = self.octets.as_slice();
        left.eq_ignore_ascii_case(other.octets.as_slice())
    }

    // The root, which has no labels.
    fn root() -> Name
        ensures { labels_of result ≡ [] }
    {
        let mut octets = ArrayVec::new();
        octets.push(0);
        Name { octets }
    }
}

// Writes the octets of the name that begins in `bytes` and goes on in a message to `octets`, which is empty. A name is
// large, so it is written in its place, and labels that lie together are copied at once. A pointer leads to one of the
// bytes that are open, and leaves only those below that place open, so this ends. Refused by the check that fails
// first.
fn put_name<'a>(
    octets: &mut ArrayVec<u8, MAX_NAME_LEN>,
    message: &'a [u8],
    bytes: &'a [u8],
) -> result::Result<(), NameRefusal>
    requires { octets.old.items ≡ [] }
    ensures sound { OnOk result (HasLabelsOfName bytes.now message.now octets.new.items) }
    ensures complete { (labels : List (List ℕ)) → Names message.now bytes.now labels
        → IsOk result × (octets.new.items ≡ wire labels) }
    ensures told { IfErr result (λ refusal. RefusesName bytes.now message.now refusal) }
{
    let mut left = bytes;
    // The bytes of the message that are open.
    let mut reach = message;
    let mut pointers = 0;
    loop {
        let (len, front) = read_labels(left);
        let Ok(()) = push_labels(octets, &left[..len]) else {
            return Err(NameRefusal::TooLong);
        };
        match front {
            NamePart::End => {
                octets.push(0);
                return Ok(());
            }
            NamePart::Pointer(target) => {
                let Some((next, open)) = follow(reach, target) else {
                    return Err(NameRefusal::Pointer(target));
                };
                if pointers == MAX_POINTERS {
                    return Err(NameRefusal::TooManyPointers);
                }
                pointers += 1;
                left = next;
                reach = open;
            }
            NamePart::Label(..) => return Err(NameRefusal::TooLong),
            NamePart::Torn => return Err(NameRefusal::Part(why_torn(&left[len..]))),
        }
    }
}

/// Names are equal where they have the same labels, without regard to the case of ASCII letters (RFC 1035 section
/// 2.3.3, RFC 4343 section 3).
impl PartialEq for Name {
    ghost use Rattle.std.specs.Prelude.{◌==◌, map};
    ghost use Rattle.std.specs.Char.{to_ascii_lowercase};
    ghost use Rattle.std.proofs.Common.{rules};
    ghost use Rattle.std.specs.Cmp.Lexicographic.{pointwise};
    ghost use Rattle.std.specs.Cmp.Rules.{comparing};
    ghost use Rattle.std.specs.Ordering.{on};
    ghost use Rattle.record_wire.specs.Name.{labels_of};

    ghost eq = { on (λ name. map to_ascii_lowercase name.octets.items) (pointwise ◌==◌) };

    ghost laws = { Prim.search (comparing, rules) };

    fn eq(&self, other: &Name) -> bool
        ensures labels { IsTrue result
            ↔ (lower_labels (labels_of self.now) ≡ lower_labels (labels_of other.now)) }
        ensures octets { IsTrue result
            ↔ (map to_ascii_lowercase self.now.octets.items
            ≡ map to_ascii_lowercase other.now.octets.items) }
    {
        self.eq_ignore_case(other)
    }
}

impl Eq for Name {
    ghost use Rattle.std.proofs.Common.{rules};
    ghost use Rattle.std.specs.Cmp.Rules.{comparing};

    ghost laws = { Prim.search (comparing, rules) };
}

/// A copy has the same labels, in the same case.
impl Clone for Name {
    ghost use Rattle.std.specs.Prelude.{⊤};
    ghost use Rattle.record_wire.specs.Name.{labels_of};

    ghost is_clone = { λ name copy. labels_of copy ≡ labels_of name };

    ghost is_infallible = { λ _. ⊤ };

    fn clone(&self) -> result::Result<Name, AllocError> {
        let octets = cloned(&self.octets)?;
        Ok(Name { octets })
    }
}

// A copy of octets.
fn cloned(
    octets: &ArrayVec<u8, MAX_NAME_LEN>,
) -> result::Result<ArrayVec<u8, MAX_NAME_LEN>, AllocError>
    ensures { IsOkAnd result (λ copy. copy.items ≡ octets.now.items) }
{
    octets.clone()
}

/// Labels with dots between them, and a dot alone for the root.
impl fmt::Display for Name {
    ghost use Rattle.std.specs.Prelude.{Some};
    ghost use Rattle.record_wire.specs.Name.{labels_of};
    ghost use Rattle.record_wire.specs.NameText.{name_text};

    ghost output = { λ name. Some (name_text (labels_of name)) };

    #[tactic(auto, using(wirebase::proofs::Sinks::displayed))]
    fn fmt<W: fmt::Write>(&self, f: &mut fmt::Formatter<W>) -> fmt::Result {
        put_name_text::<_, ToFormatter>(f, self)
    }
}
