//! The octets under a view, and the parts of them that it reads, writes and lends.

ghost use Rattle.std.specs.Prelude.{◌≡◌, ◌≤◌, ◌+◌, ◌-◌, [], ◌∷◌, length, slice_index, List, ℕ};
ghost use Rattle.byteorder.specs.Endian.{big_bytes, big_number};
ghost use Rattle.std.specs.Borrow.{sem, Lends, Array, u8 as byte};
ghost use denote.Slice.{MutSlice};
ghost use mir.Syntax.{named};
ghost use Rattle.wirebase.specs.Bytes.{IsBytes, part, splice};

use byteorder::{BigEndian, ByteOrder};
use std::ops::Range;

/// A field of a layout: its octets, from the first up to the one after the last.
pub type Field = Range<usize>;

/// Does nothing; its contract states that each octet is a byte.
pub fn are_bytes(octets: &[u8])
    ensures { IsBytes octets.now }
{}

/// What holds octets: `&[u8]` and `&mut [u8]` alone.
pub trait Octets: Drop {
    /// The octets that it holds.
    ghost bytes: { Self → List ℕ };

    /// The slice itself.
    fn octets(&self) -> &[u8]
        ensures { result.now ≡ bytes self.now };

    /// The octets from one place up to another. Requires that `from` is at most `to`, and `to` at most the number of
    /// octets.
    #[tactic(auto, unfolding(crate::specs::Bytes::part))]
    final fn range(&self, from: usize, to: usize) -> &[u8]
        requires order { from ≤ to }
        requires room { to ≤ length (bytes self.now) }
        ensures value { result.now ≡ part (bytes self.now) from to }
        ensures len { length result.now ≡ to - from }
    {
        &self.octets()[from..to]
    }

    /// The octets of a field. Requires that the field is within the octets.
    final fn field(&self, field: Field) -> &[u8]
        requires order { field.start ≤ field.end }
        requires room { field.end ≤ length (bytes self.now) }
        ensures value { result.now ≡ part (bytes self.now) field.start field.end }
        ensures len { length result.now ≡ field.end - field.start }
    {
        self.range(field.start, field.end)
    }

    /// The octet in a field of one. Requires that the field is within the octets.
    #[tactic(auto, using(crate::proofs::Pieces::pieces))]
    final fn u8_at(&self, field: Field) -> u8
        requires one { field.end ≡ field.start + 1 }
        requires room { field.end ≤ length (bytes self.now) }
        ensures { result ≡ slice_index (bytes self.now) field.start }
    {
        self.range(field.start, field.end)[0]
    }

    /// The number in a field of two octets, the higher first. Requires that the field is within the octets.
    final fn u16_at(&self, field: Field) -> u16
        requires two { field.end ≡ field.start + 2 }
        requires room { field.end ≤ length (bytes self.now) }
        ensures { result ≡ big_number 2 (part (bytes self.now) field.start field.end) }
    {
        BigEndian::read_u16(self.range(field.start, field.end))
    }

    /// The number in a field of four octets, the highest first. Requires that the field is within the octets.
    final fn u32_at(&self, field: Field) -> u32
        requires four { field.end ≡ field.start + 4 }
        requires room { field.end ≤ length (bytes self.now) }
        ensures { result ≡ big_number 4 (part (bytes self.now) field.start field.end) }
    {
        BigEndian::read_u32(self.range(field.start, field.end))
    }
}

/// What holds octets that may be written: `&mut [u8]` alone.
pub trait OctetsMut: Octets {
    /// The holder with its octets replaced.
    ghost put: { Self → List ℕ → Self };

    /// Lends the octets from one place up to another for writing; the other octets are unchanged. Requires that `from`
    /// is at most `to`, and `to` at most the number of octets.
    fn range_mut(&mut self, from: usize, to: usize) -> &mut [u8]
        requires order { from ≤ to }
        requires room { to ≤ length (Self.bytes self.old) }
        ensures* lends { sem 𝓛 (Lends Self.row (Array byte 0) self.entry result
            (λ w. put self.old (splice (Self.bytes self.old) from to w))) }
        ensures value { result.now ≡ part (Self.bytes self.old) from to }
        ensures len { length result.now ≡ to - from };

    /// Lends the octets of a field for writing; the other octets are unchanged. Requires that the field is within the
    /// octets.
    final fn field_mut(&mut self, field: Field) -> &mut [u8]
        requires order { field.start ≤ field.end }
        requires room { field.end ≤ length (Self.bytes self.old) }
        ensures* lends { sem 𝓛 (Lends Self.row (Array byte 0) self.entry result
            (λ w. put self.old (splice (Self.bytes self.old) field.start field.end w))) }
        ensures value { result.now ≡ part (Self.bytes self.old) field.start field.end }
        ensures len { length result.now ≡ field.end - field.start }
    {
        self.range_mut(field.start, field.end)
    }

    /// Lends all octets for writing.
    #[tactic(auto, using(crate::proofs::Pieces::pieces))]
    final fn octets_mut(&mut self) -> &mut [u8]
        ensures* lends { sem 𝓛 (Lends Self.row (Array byte 0) self.entry result
            (λ w. put self.old w)) }
        ensures value { result.now ≡ Self.bytes self.old }
        ensures len { length result.now ≡ length (Self.bytes self.old) }
    {
        let len = self.octets().len();
        self.range_mut(0, len)
    }

    /// Writes an octet into a field of one. Requires that the field is within the octets.
    #[tactic(auto, using(crate::proofs::Pieces::pieces))]
    final fn set_u8(&mut self, field: Field, value: u8)
        requires one { field.end ≡ field.start + 1 }
        requires room { field.end ≤ length (Self.bytes self.old) }
        ensures writes { self.new ≡ put self.old
            (splice (Self.bytes self.old) field.start field.end (value ∷ [])) }
        ensures len { length (Self.bytes self.new) ≡ length (Self.bytes self.old) }
    {
        self.range_mut(field.start, field.end)[0] = value;
    }

    /// Writes a number into a field of two octets, the higher first. Requires that the field is within the octets.
    #[tactic(auto, using(crate::proofs::Pieces::pieces))]
    final fn set_u16(&mut self, field: Field, value: u16)
        requires two { field.end ≡ field.start + 2 }
        requires room { field.end ≤ length (Self.bytes self.old) }
        ensures writes { self.new ≡ put self.old
            (splice (Self.bytes self.old) field.start field.end (big_bytes 2 value)) }
        ensures len { length (Self.bytes self.new) ≡ length (Self.bytes self.old) }
    {
        BigEndian::write_u16(self.range_mut(field.start, field.end), value);
    }

    /// Writes a number into a field of four octets, the highest first. Requires that the field is within the octets.
    #[tactic(auto, using(crate::proofs::Pieces::pieces))]
    final fn set_u32(&mut self, field: Field, value: u32)
        requires four { field.end ≡ field.start + 4 }
        requires room { field.end ≤ length (Self.bytes self.old) }
        ensures writes { self.new ≡ put self.old
            (splice (Self.bytes self.old) field.start field.end (big_bytes 4 value)) }
        ensures len { length (Self.bytes self.new) ≡ length (Self.bytes self.old) }
    {
        BigEndian::write_u32(self.range_mut(field.start, field.end), value);
    }

    /// Writes octets into a field of as many. Requires that the field is within the octets.
    #[tactic(auto, using(crate::proofs::Pieces::pieces))]
    final fn set_bytes(&mut self, field: Field, value: &[u8])
        requires order { field.start ≤ field.end }
        requires whole { length value.now ≡ field.end - field.start }
        requires room { field.end ≤ length (Self.bytes self.old) }
        ensures writes { self.new ≡ put self.old
            (splice (Self.bytes self.old) field.start field.end value.now) }
        ensures len { length (Self.bytes self.new) ≡ length (Self.bytes self.old) }
    {
        self.range_mut(field.start, field.end)
            .copy_from_slice(value);
    }

    ghost bytes_put: { (s : Self) (w : List ℕ) → Self.bytes (put s w) ≡ w };

    ghost put_put: { (s : Self) (v w : List ℕ) → put (put s v) w ≡ put s w };

    ghost put_bytes: { (s : Self) → put s (Self.bytes s) ≡ s };
}

impl Octets for &[u8] {
    ghost bytes = { λ s. s.now };

    fn octets(&self) -> &[u8] {
        *self
    }
}

impl Octets for &mut [u8] {
    ghost bytes = { λ s. s.now };

    fn octets(&self) -> &[u8] {
        &**self
    }
}

impl OctetsMut for &mut [u8] {
    ghost use Rattle.std.specs.Prelude.{refl};

    ghost put = { λ s w. record s { now = w } };

    ghost bytes_put = { λ s w. refl };

    ghost put_put = { λ s v w. refl };

    ghost put_bytes = { λ s. refl };

    fn range_mut(&mut self, from: usize, to: usize) -> &mut [u8]
        requires order { from ≤ to }
        requires room { to ≤ length self.old.now }
        ensures* lends { sem 𝓛 (Lends (MutSlice (named 1) [] byte) (Array byte 0) self.entry result
            (λ w. record self.old { now = splice self.old.now from to w })) }
        ensures value { result.now ≡ part self.old.now from to }
        ensures len { length result.now ≡ to - from }
    {
        &mut self[from..to]
    }
}
