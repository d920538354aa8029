//! The stack of MPLS labels that a datagram had (RFC 4950).

ghost use Rattle.std.specs.Prelude.{◌≡◌, ◌≤◌, ◌<◌, ◌+◌, ◌*◌, ◌/◌, ◌%◌, ◌∷◌, [], List, map, length, IfOk, IfErr};
ghost use Rattle.std.specs.List.{AllByRecursion};
ghost use Rattle.wirebase.specs.ByteWriter.{free, Puts};
ghost use Rattle.extension_wire.specs.Mpls.{octets_in, IsEntry, entry_fields, Emits, Fits, AreEntries, GivesEntry};
ghost use Rattle.extension_wire.specs.Mpls.{IsCanonical, EmitsAll, text};
ghost use Rattle.extension_wire.specs.declared.mpls.LabelEntry.{LabelEntry};

use crate::refusal::LabelRefusal;
use std::fmt;
use std::marker::Model;
use wirebase::{ByteWriter, Octets, are_bytes};

/// The class of an object with a stack of labels (RFC 4950 section 3).
pub const CLASS: u8 = 1;

/// Its C-Type: the stack that came in.
pub const C_TYPE: u8 = 1;

/// The bytes of an entry.
pub const ENTRY_LEN: usize = 4;

/// An entry of a stack of labels (RFC 3032 section 2.1, RFC 5462).
#[derive(Debug, PartialEq, Eq, Clone, Copy)]
pub struct LabelEntry {
    /// The label, of 20 bits.
    pub label: u32,
    /// The traffic class, of 3 bits, which older documents call EXP.
    pub traffic_class: u8,
    /// Whether it is the last entry of the stack.
    pub bottom: bool,
    /// The time to live.
    pub ttl: u8,
}

impl LabelEntry {
    // The entry that is these four octets.
    fn read(octets: &[u8]) -> LabelEntry
        requires { length octets.now ≡ 4 }
        ensures { IsEntry octets.now result }
    {
        let number = octets.u32_at(0..4);
        LabelEntry {
            label: number / 0x1000,
            traffic_class: (number / 0x200 % 8) as u8,
            bottom: number / 0x100 % 2 == 1,
            ttl: (number % 0x100) as u8,
        }
    }

    /// Writes the entry over the first 4 octets; the others are unchanged. Requires as many, a label below 2 ^ 20 and a
    /// traffic class below 8.
    #[tactic(auto, using(wirebase::proofs::Chains::chain))]
    pub fn emit_into(&self, octets: &mut [u8])
        requires room { 4 ≤ length octets.old }
        requires fits { Fits self.now }
        ensures { Emits self.now octets.old octets.new }
    {
        let mut w = ByteWriter::new(octets);
        self.put(&mut w);
    }

    // Writes the four octets.
    fn put(&self, w: &mut ByteWriter<'_>)
        requires room { 4 ≤ length (free w.old) }
        requires fits { Fits self.now }
        ensures puts { Puts w.old w.new (entry_fields self.now) }
        ensures room { length (free w.old) ≡ 4 + length (free w.new) }
    {
        let bottom = if self.bottom { 0x100 } else { 0 };
        w.put_u32(
            self.label * 0x1000 + self.traffic_class as u32 * 0x200 + bottom + self.ttl as u32,
        );
    }
}

/// The fields of the entry.
impl fmt::Display for LabelEntry {
    ghost use Rattle.std.specs.Prelude.{Some};
    ghost use Rattle.extension_wire.specs.ExtensionDisplay.{label_display};

    ghost output = { λ entry. Some (label_display entry) };

    fn fmt<W: fmt::Write>(&self, f: &mut fmt::Formatter<W>) -> fmt::Result {
        let LabelEntry {
            label,
            traffic_class,
            bottom,
            ttl,
        } = self;
        write!(
            f,
            "label={label} traffic_class={traffic_class} bottom={bottom} ttl={ttl}"
        )
    }
}

/// A stack of labels: entries, one after another.
#[derive(Debug, PartialEq, Eq, Clone, Copy)]
pub struct LabelStack<'a> {
    octets: &'a [u8],
}

impl<'a> LabelStack<'a> {
    /// The stack in the payload of an object of class [`CLASS`] and C-Type [`C_TYPE`]. Refused where its bytes are no
    /// whole number of entries.
    pub fn parse(payload: &'a [u8]) -> Result<LabelStack<'a>, LabelRefusal>
        ensures sound { IfOk result (λ stack. (length payload.now % 4 ≡ 0) × (octets_in stack ≡ payload.now)) }
        ensures told { IfErr result (λ refusal. length payload.now % 4 ≡ 0 → ⊥) }
    {
        if payload.len() % ENTRY_LEN != 0 {
            return Err(LabelRefusal);
        }
        Ok(LabelStack { octets: payload })
    }

    /// How many entries it has.
    pub fn len(&self) -> usize
        ensures { result ≡ length (octets_in self.now) / 4 }
    {
        self.octets.len() / ENTRY_LEN
    }

    /// The entries in turn, the outermost label first. Each can be written.
    pub fn iter(&self) -> LabelStackIterator<'a>
        ensures entries { AreEntries (octets_in self.now) result }
        ensures fit { AllByRecursion IsCanonical result }
    {
        are_bytes(self.octets);
        LabelStackIterator { rest: self.octets }
    }
}

/// Writes a stack of these entries over the front of the octets; the others are unchanged. Requires 4 bytes for each,
/// labels below 2 ^ 20 and traffic classes below 8.
pub fn emit(entries: &[LabelEntry], octets: &mut [u8])
    requires room { 4 * length entries.now ≤ length octets.old }
    requires fits { AllByRecursion Fits entries.now }
    ensures { EmitsAll entries.now octets.old octets.new }
{
    let mut w = ByteWriter::new(octets);
    put_entries(&mut w, entries);
}

// Writes entries one after another.
#[tactic(auto, using(std::proofs::lemmas::List::drop_all))]
fn put_entries(w: &mut ByteWriter<'_>, entries: &[LabelEntry])
    requires room { 4 * length entries.now ≤ length (free w.old) }
    requires fits { AllByRecursion Fits entries.now }
    ensures { Puts w.old w.new (map text entries.now) }
{
    for entry in entries {
        put_entry(w, entry);
    }
}

// Writes an entry.
fn put_entry(w: &mut ByteWriter<'_>, entry: &LabelEntry)
    requires room { 4 ≤ length (free w.old) }
    requires fits { Fits entry.now }
    ensures puts { Puts w.old w.new (text entry.now ∷ []) }
    ensures room { length (free w.old) ≡ 4 + length (free w.new) }
{
    entry.put(w);
}

/// The entries of a stack of labels in turn, the outermost label first.
#[derive(Debug, Clone, Drop)]
pub struct LabelStackIterator<'a> {
    // The octets after the entries that were given already.
    rest: &'a [u8],
}

impl<'a> Model for LabelStackIterator<'a> {
    ghost use Rattle.std.specs.Prelude.{List};
    ghost use Rattle.extension_wire.specs.declared.mpls.LabelEntry.{LabelEntry};
    ghost use Rattle.extension_wire.specs.private.Mpls.{entries_in};

    ghost Value = { List LabelEntry };

    ghost view = { λ it. entries_in it.rest.now };
}

impl<'a> Iterator for LabelStackIterator<'a> {
    ghost use Rattle.std.specs.Iterator.{at_most};

    type Item = LabelEntry;

    ghost next_gives = { GivesEntry };

    ghost remaining = { λ entries. at_most (length entries) };

    fn next(&mut self) -> Option<LabelEntry> {
        if self.rest.len() < ENTRY_LEN {
            return None;
        }
        let (entry, behind) = self.rest.split_at(ENTRY_LEN);
        self.rest = behind;
        Some(LabelEntry::read(entry))
    }
}
