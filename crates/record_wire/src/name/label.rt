//! The labels in the octets of a name (RFC 1035 section 3.1).

ghost use Rattle.std.specs.Prelude.{◌≡◌, ◌↔◌, ◌+◌, ◌≤◌, ◌<◌, [], ◌∷◌, ◌++◌, length, IsOk, OnOk};
ghost use Rattle.dns_wire.specs.DnsName.{written};
ghost use Rattle.record_wire.specs.Ahead.{GivesBytes};
ghost use Rattle.record_wire.specs.Labels.{first_label, labels_in};
ghost use Rattle.record_wire.specs.private.NameReading.{seen_label};

use crate::name::MAX_NAME_LEN;
use arrayvec::ArrayVec;
use std::marker::Model;
use wirebase::{Error, Result};

/// The most bytes that a label has (RFC 1035 section 2.3.4).
pub(super) const MAX_LABEL_LEN: usize = 63;

/// The label at the start of octets, and what follows it. None at byte 0, and where there is no whole label.
pub(super) fn split_label(octets: &[u8]) -> Option<(&[u8], &[u8])>
    ensures { seen_label result ≡ first_label octets.now }
{
    match octets {
        [len @ 1..=63, rest @ ..] if *len as usize <= rest.len() => {
            let len = *len as usize;
            Some((&rest[..len], &rest[len..]))
        }
        _ => None,
    }
}

/// The labels of a name in turn, each without its length.
#[derive(Debug, Clone, Drop)]
pub struct Labels<'a> {
    // The octets after the labels that were given.
    left: &'a [u8],
}

impl<'a> Model for Labels<'a> {
    ghost use Rattle.std.specs.Prelude.{List, ℕ};
    ghost use Rattle.record_wire.specs.Labels.{labels_in};

    ghost Value = { List (List ℕ) };

    ghost view = { λ it. labels_in it.left.now };
}

impl<'a> Labels<'a> {
    // The labels at the start of these octets.
    pub(super) fn new(octets: &'a [u8]) -> Labels<'a>
        ensures { result ≡ labels_in octets.entry.now }
    {
        Labels { left: octets }
    }
}

impl<'a> Iterator for Labels<'a> {
    ghost use Rattle.std.specs.Iterator.{at_most};

    type Item = &'a [u8];

    ghost next_gives = { GivesBytes };

    ghost remaining = { λ labels. at_most (length labels) };

    fn next(&mut self) -> Option<&'a [u8]> {
        match split_label(self.left) {
            Some((label, rest)) => {
                self.left = rest;
                Some(label)
            }
            None => None,
        }
    }
}

/// Writes a label after its length. Refused where there is no room; then less may be written.
pub(super) fn push_label(octets: &mut ArrayVec<u8, MAX_NAME_LEN>, label: &[u8]) -> Result<()>
    requires { length label.now ≤ 63 }
    ensures room { IsOk result ↔ (length octets.old.items + length (written label.now) ≤ 255) }
    ensures pushes { OnOk result (octets.new.items ≡ octets.old.items ++ written label.now) }
{
    if octets.try_push(label.len() as u8).is_err() {
        return Err(Error);
    }
    if octets.try_extend_from_slice(label).is_err() {
        return Err(Error);
    }
    Ok(())
}

/// Writes labels after the others. Refused where no name has room for them, which byte 0 ends. Where there are none,
/// nothing is copied: two pointers often have no label between them.
#[inline]
pub(super) fn push_labels(octets: &mut ArrayVec<u8, MAX_NAME_LEN>, labels: &[u8]) -> Result<()>
    requires { length octets.old.items < 255 }
    ensures room { IsOk result ↔ (length octets.old.items + length labels.now < 255) }
    ensures pushes { OnOk result (octets.new.items ≡ octets.old.items ++ labels.now) }
{
    if labels.is_empty() {
        return Ok(());
    }
    if labels.len() >= MAX_NAME_LEN - octets.len() {
        return Err(Error);
    }
    if octets.try_extend_from_slice(labels).is_err() {
        return Err(Error);
    }
    Ok(())
}

/// Writes the byte 0 that ends a name. Refused where there is no room.
pub(super) fn push_end(octets: &mut ArrayVec<u8, MAX_NAME_LEN>) -> Result<()>
    ensures room { IsOk result ↔ (length octets.old.items < 255) }
    ensures pushes { OnOk result (octets.new.items ≡ octets.old.items ++ 0 ∷ []) }
{
    if octets.try_push(0).is_err() {
        return Err(Error);
    }
    Ok(())
}
