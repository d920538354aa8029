//! One part of a name (RFC 1035 section 4.1.4): what it begins with, and where it stops.

ghost use Rattle.std.specs.Prelude.{◌≡◌, ◌≤◌, ℕ, List, length, IfOk, IfErr, IsOkAnd, IfSome, None};
ghost use Rattle.dns_wire.specs.DnsNameAhead.{torn};
ghost use Rattle.dns_wire.specs.private.DnsNameAhead.{front_of};
ghost use Rattle.dns_wire.specs.DnsPart.{IsSplit};
ghost use Rattle.dns_wire.specs.private.Parts.{shown, LeadsTo};
ghost use Rattle.dns_wire.specs.DnsRefusal.{IsTorn, PartBreaks};

use crate::dns::refusal::NameRefusal;
use wirebase::Error;

/// What a part of a name begins with (RFC 1035 section 4.1.4).
#[derive(Debug, PartialEq, Eq, Clone, Copy)]
pub enum NamePart<'a> {
    /// The bytes of a label, and the text after it.
    Label(&'a [u8], &'a [u8]),
    /// The place of the message where the name goes on.
    Pointer(usize),
    /// The end of the name.
    End,
    /// No whole label or mark.
    Torn,
}

// The first byte of a label is its length, below this.
const LABEL_END: u8 = 0x40;

// The first byte of a pointer is this or above, and its other six bits are the higher ones of the place.
const POINTER: u8 = 0xc0;

/// Reads what a text begins with (RFC 1035 section 4.1.4).
#[inline]
pub fn read_front(text: &[u8]) -> NamePart<'_>
    ensures { shown result ≡ front_of text.now }
{
    match text {
        [0, ..] => NamePart::End,
        [len @ 1..LABEL_END, rest @ ..] if *len as usize <= rest.len() => {
            let (label, rest) = rest.split_at(*len as usize);
            NamePart::Label(label, rest)
        }
        [first, second, ..] if *first >= POINTER => {
            NamePart::Pointer(256 * (*first % 64) as usize + *second as usize)
        }
        _ => NamePart::Torn,
    }
}

/// Where a pointer leads (RFC 1035 section 4.1.4): the open bytes from there on, and those before it, the only ones
/// that are open from then on. None where it leads to no open byte.
#[inline]
pub fn follow(reach: &[u8], target: usize) -> Option<(&[u8], &[u8])>
    ensures some { IfSome result (λ part. LeadsTo reach.now target part.0.now part.1.now) }
    ensures none { result ≡ None → length reach.now ≤ target }
{
    if target >= reach.len() {
        return None;
    }
    let (reach, left) = reach.split_at(target);
    Some((left, reach))
}

/// The part of a name at the front of a text, and what follows it. Refused where the text begins with none.
pub fn split_name(text: &[u8]) -> wirebase::Result<(&[u8], &[u8])>
    ensures sound { IfOk result (λ split. IsSplit text.now split.0.now split.1.now) }
    ensures complete { (name rest : List ℕ) → IsSplit text.now name rest
        → IsOkAnd result (λ split. (split.0.now ≡ name) × (split.1.now ≡ rest)) }
{
    match read_part(text) {
        Ok(split) => Ok(split),
        Err(_) => Err(Error),
    }
}

/// The part of a name at the front of a text, and what follows it; or why the text begins with none.
pub(crate) fn read_part(text: &[u8]) -> Result<(&[u8], &[u8]), NameRefusal>
    ensures sound { IfOk result (λ split. IsSplit text.now split.0.now split.1.now) }
    ensures told { IfErr result (PartBreaks text.now) }
{
    let mut left = text;
    let after = loop {
        match read_front(left) {
            NamePart::Label(_, rest) => left = rest,
            NamePart::Pointer(_) => break &left[2..],
            NamePart::End => break &left[1..],
            NamePart::Torn => return Err(why_torn(left)),
        }
    };
    // A subtraction that saturates leaves no path that panics in the callers.
    Ok((&text[..text.len().saturating_sub(after.len())], after))
}

/// Why a text begins with no whole label or mark.
pub(crate) fn why_torn(text: &[u8]) -> NameRefusal
    requires { front_of text.now ≡ torn }
    ensures { IsTorn text.now result }
{
    let Some(&first) = text.first() else {
        return NameRefusal::NoEnd;
    };
    if first >= POINTER {
        return NameRefusal::PointerCut;
    }
    if first < LABEL_END {
        return NameRefusal::LabelCut;
    }
    NameRefusal::LabelType(first)
}
