//! Octets that are cut into parts, each of which is printed as an entry of a list.

ghost use Rattle.std.specs.Prelude.{[], ◌∷◌, ◌≡◌, ◌≤◌, List, ℕ, OnOk, length, map};
ghost use Rattle.packet_fields.specs.Fields.{Entry, entries as entries_item};
ghost use Rattle.packet_fields.specs.Prints.{Prints};
ghost use Rattle.packet_fields.specs.Entries.{PrintsEntry};
ghost use Rattle.packet_fields.specs.private.Entries.{PrintsEntries};
ghost use Rattle.packet_fields.specs.Parts.{parts, behind};

use crate::entry::{close_list, open_list};
use crate::form::Form;
use std::io;
use std::io::Write;

/// A kind of parts.
pub trait Part {
    /// The octets of the first part of some octets.
    ghost part_len: { List ℕ → ℕ };

    /// The entry that a part is.
    ghost entry_of: { List ℕ → Entry };

    /// The number of octets of the first part, 1 or more. Requires an octet.
    fn len_of(octets: &[u8]) -> usize
        requires { 1 ≤ length octets.now }
        ensures value { result ≡ part_len octets.now }
        ensures some { 1 ≤ result }
        ensures within { result ≤ length octets.now };

    /// Prints a part. Requires an octet.
    fn show<W: Write>(output: &mut W, form: Form, is_first: bool, part: &[u8]) -> io::Result<()>
        requires { 1 ≤ length part.now }
        ensures { OnOk result (PrintsEntry form is_first (W.contents output.old) (W.contents output.new)
            (entry_of part.now)) };
}

/// Prints the parts of some octets as a list, `count` of them or as many as there are.
pub fn show_parts<P: Part, W: Write>(
    output: &mut W,
    form: Form,
    key: &str,
    count: usize,
    octets: &[u8],
) -> io::Result<()>
    ensures { OnOk result (Prints form (W.contents output.old) (W.contents output.new)
        (entries_item key.now (map P.entry_of (parts P.part_len count octets.now)) ∷ [])) }
{
    open_list(output, form, key)?;
    show_each::<P, W>(output, form, count, octets)?;
    close_list(output, form)
}

// Prints the parts.
fn show_each<P: Part, W: Write>(
    output: &mut W,
    form: Form,
    count: usize,
    octets: &[u8],
) -> io::Result<()>
    ensures { OnOk result (PrintsEntries form (W.contents output.old) (W.contents output.new)
        (map P.entry_of (parts P.part_len count octets.now))) }
{
    let mut rest = octets;
    let mut left = count;
    let mut is_first = true;
    while left > 0 && !rest.is_empty() {
        let (part, others) = rest.split_at(P::len_of(rest));
        P::show(output, form, is_first, part)?;
        rest = others;
        left -= 1;
        is_first = false;
    }
    Ok(())
}

/// What stands behind `count` parts of some octets.
pub fn behind_parts<P: Part>(count: usize, octets: &[u8]) -> &[u8]
    ensures { result.now ≡ behind P.part_len count octets.now }
{
    let mut rest = octets;
    let mut left = count;
    while left > 0 && !rest.is_empty() {
        let (_, others) = rest.split_at(P::len_of(rest));
        rest = others;
        left -= 1;
    }
    rest
}
