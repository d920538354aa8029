//! The texts of names, put into a formatter or into another output.

ghost use Rattle.std.specs.Prelude.{◌≡◌, ◌≤◌, ℕ, List, None, IfErr, IsErr, OnOk, take};
ghost use Rattle.std.specs.Str.{IsAscii};
ghost use Rattle.wirebase.specs.Sink.{PutsText};
ghost use Rattle.record_wire.specs.Labels.{labels_in};
ghost use Rattle.record_wire.specs.Name.{labels_of};
ghost use Rattle.record_wire.specs.NameRefusal.{RefusesName};
ghost use Rattle.record_wire.specs.NameText.{name_text};
ghost use Rattle.record_wire.specs.ZoneText.{whole_name};

use crate::escapes::{Escaping, PIECE_LEN, put_bytes, put_one};
use crate::name::Name;
use crate::name::dotted::{ROOM_LEN, put_text};
use crate::name::label::split_label;
use crate::name::refusal::{NameRefusal, read_name};
use std::result;
use wirebase::text::Sink;

/// The text of a name, with its last dot; the root is a dot. It is large, so it is created empty and filled in place.
#[derive(Drop)]
pub(crate) struct NameText {
    // Most names have no byte that needs a backslash; their text is at the start of this buffer.
    room: [u8; ROOM_LEN],
    len: usize,
    // A name of another text.
    other: Option<Name>,
    ghost fits: { len ≤ 256 },
    ghost ascii: { IsAscii (take len room) },
}

impl NameText {
    ghost use Rattle.record_wire.specs.private.NameReads.{NameReads, text_of};

    /// The text of no name.
    #[inline(always)]
    pub(crate) fn new() -> NameText
        ensures { result.other ≡ None }
    {
        NameText {
            room: [0; ROOM_LEN],
            len: 0,
            other: None,
        }
    }

    /// Reads the name that begins in `bytes`, a part of the message or not, and goes on where its pointers lead in the
    /// message, and keeps its text. Refused as [`Name::read`] refuses it. A text of no name reads one.
    #[inline(always)]
    pub(crate) fn read<'a>(
        &mut self,
        message: &'a [u8],
        bytes: &'a [u8],
    ) -> result::Result<(), NameRefusal>
        requires { self.old.other ≡ None }
        ensures reads { OnOk result
            (NameReads message.entry.now bytes.entry.now (text_of self.new)) }
        ensures reads_not { IsErr result → (text : List ℕ)
            → NameReads message.entry.now bytes.entry.now text → ⊥ }
        ensures told { IfErr result (λ refusal.
            RefusesName bytes.entry.now message.entry.now refusal) }
    {
        match put_text(&mut self.room, message, bytes) {
            Some(len) => {
                self.len = len;
                Ok(())
            }
            None => {
                self.len = 0;
                self.read_other(message, bytes)
            }
        }
    }

    // Keeps the name by its octets.
    #[inline(never)]
    fn read_other<'a>(
        &mut self,
        message: &'a [u8],
        bytes: &'a [u8],
    ) -> result::Result<(), NameRefusal>
        ensures reads { OnOk result
            (NameReads message.entry.now bytes.entry.now (text_of self.new)) }
        ensures reads_not { IsErr result → (text : List ℕ)
            → NameReads message.entry.now bytes.entry.now text → ⊥ }
        ensures told { IfErr result (λ refusal.
            RefusesName bytes.entry.now message.entry.now refusal) }
    {
        match read_name(message, bytes) {
            Ok(name) => {
                self.other = Some(name);
                Ok(())
            }
            Err(refusal) => Err(refusal),
        }
    }

    /// The text of a whole name, which has no pointers, so that it reads in any message.
    #[inline(always)]
    pub(crate) fn of(name: &Name) -> NameText
        ensures { text_of result ≡ whole_name (labels_of name.now) }
    {
        let mut text = NameText::new();
        let Ok(()) = text.read(&[], name.octets()) else {
            return text;
        };
        text
    }

    /// Puts the text.
    pub(crate) fn put<O, S: Sink<O>>(&self, output: &mut O) -> result::Result<(), S::Error>
        ensures { PutsText S.took output.old (text_of self.now) result output.new }
    {
        match &self.other {
            None => S::put(output, &self.room[..self.len]),
            Some(name) => put_other::<O, S>(output, name),
        }
    }
}

impl Name {
    /// Puts the name with its last dot, as a zone file has it; the root is a dot.
    pub fn put_whole<O, S: Sink<O>>(&self, output: &mut O) -> result::Result<(), S::Error>
        ensures { PutsText S.took output.old (whole_name (labels_of self.now)) result output.new }
    {
        put_other::<O, S>(output, self)
    }
}

// Puts a name with its last dot; the root is a dot.
#[inline(never)]
fn put_other<O, S: Sink<O>>(output: &mut O, name: &Name) -> result::Result<(), S::Error>
    ensures { PutsText S.took output.old (whole_name (labels_of name.now)) result output.new }
{
    put_name::<O, S>(output, name)?;
    // Byte 0 alone is the root.
    if name.octets().len() == 1 {
        return Ok(());
    }
    S::put_str(output, ".")
}

/// Puts the labels of a name with dots between them; the root is a dot.
#[inline(always)]
pub(super) fn put_name<O, S: Sink<O>>(output: &mut O, name: &Name) -> result::Result<(), S::Error>
    ensures { PutsText S.took output.old (name_text (labels_of name.now)) result output.new }
{
    let octets = name.octets();
    // Byte 0 alone is the root.
    if octets.len() == 1 {
        return S::put_str(output, ".");
    }
    put_labels::<O, S>(output, octets)
}

// Puts the labels in octets with dots between them, and a dot alone where there are none. A function of its own, so
// that the root is put without the buffer for a piece.
#[inline(never)]
fn put_labels<O, S: Sink<O>>(output: &mut O, octets: &[u8]) -> result::Result<(), S::Error>
    ensures { PutsText S.took output.old (name_text (labels_in octets.now)) result output.new }
{
    let Some((first, rest)) = split_label(octets) else {
        return S::put_str(output, ".");
    };
    let mut piece = [0; PIECE_LEN];
    let mut len = 0;
    let mut label = first;
    let mut left = rest;
    loop {
        len = put_bytes::<O, S>(output, &mut piece, len, label, Escaping::Label)?;
        let Some((next, rest)) = split_label(left) else {
            return S::put(output, &piece[..len]);
        };
        len = put_one::<O, S>(output, &mut piece, len, b'.')?;
        label = next;
        left = rest;
    }
}
