//! Datagrams of which some fragments came.

ghost use Rattle.std.specs.Prelude.{◌≡◌, ◌↔◌, ◌<◌, ◌≤◌, ℕ, IfOk, IsTrue, OnErr, false, length, map, vec_len};
ghost use Rattle.std.specs.List.{insert};
ghost use Rattle.std.specs.Option.{option_map};
ghost use Rattle.reassembly.specs.Fragment.{value_of, IsSound};
ghost use Rattle.reassembly.specs.Partial.{partial_of, whole_of, joined, discarded_of, Takes};
ghost use Rattle.reassembly.specs.private.Parts.{taken_of};
ghost use Rattle.reassembly.specs.Piece.{piece_of, piece_in, fragment_end, StandsToAll, Tiles, placed, payload_of};
ghost use Rattle.reassembly.specs.Piece.{numbers_of, options_of_first, protocol_of_first};
ghost use Rattle.reassembly.specs.Reassembly.{begun};

use crate::answer::{Fault, Refusal, Whole};
use crate::fragment::Fragment;
use crate::key::Key;
use crate::options::copied;
use crate::piece::{Piece, Standing};
use std::alloc::Global;
use wirebase::IpProtocol;

/// The most fragments that are kept of a datagram.
pub const MOST_PIECES: usize = 256;

/// A datagram of which some fragments came, but not yet all.
#[derive(Debug, Drop)]
pub struct Partial {
    key: Key,
    discarded: bool,
    // In the order of their offsets; none where it is discarded.
    pieces: Vec<Piece>,
}

// What a fragment does to its datagram.
#[derive(Debug, Drop)]
pub(crate) enum Taken {
    // It is kept, or was there.
    Kept,
    // The datagram is whole with it.
    Whole(Whole),
    // It is not taken.
    Refused(Refusal),
}

impl Partial {
    // A datagram of which one fragment came.
    pub(crate) fn begin(
        alloc: Global,
        number: u64,
        fragment: &Fragment<'_>,
    ) -> Result<Partial, Fault>
        requires { IsSound (value_of fragment.now) }
        ensures { IfOk result (λ d. partial_of d ≡ begun number (value_of fragment.now)) }
    {
        let piece = Piece::new(alloc, number, fragment)?;
        let mut pieces = Vec::new(alloc);
        if pieces.push(piece).is_err() {
            return Err(Fault::Memory);
        }
        Ok(Partial {
            key: fragment.key(),
            discarded: false,
            pieces,
        })
    }

    /// What tells it from other datagrams.
    pub fn key(&self) -> &Key
        ensures { result.now ≡ (partial_of self.now).key }
    {
        &self.key
    }

    /// Whether it was discarded, since one of its fragments contradicted another or was one too many. No fragment of it
    /// is taken any more.
    pub fn is_discarded(&self) -> bool
        ensures { result ≡ (partial_of self.now).discarded }
    {
        self.discarded
    }

    /// The fragments that are kept of it, in the order of their offsets. They have no byte in common.
    pub fn pieces(&self) -> &[Piece]
        ensures { map piece_of result.now ≡ (partial_of self.now).pieces }
    {
        self.pieces.as_slice()
    }

    // Takes a fragment of it. Where there is no memory, nothing changes.
    pub(crate) fn take(
        &mut self,
        alloc: Global,
        number: u64,
        fragment: &Fragment<'_>,
    ) -> Result<Taken, Fault>
        requires { IsSound (value_of fragment.now) }
        ensures takes { IfOk result (λ taken.
            Takes (partial_of self.old) number (value_of fragment.now) (taken_of taken) (partial_of self.new)) }
        ensures fault { OnErr result (partial_of self.new ≡ partial_of self.old) }
    {
        if self.discarded {
            return Ok(Taken::Refused(Refusal::Discarded));
        }
        match standing(self.pieces.as_slice(), fragment) {
            Standing::Same => Ok(Taken::Kept),
            Standing::Overlapping => Ok(self.discard(Refusal::Overlap)),
            Standing::PastEnd => Ok(self.discard(Refusal::End)),
            Standing::Apart if self.pieces.len() >= MOST_PIECES => {
                Ok(self.discard(Refusal::TooMany))
            }
            Standing::Apart => self.keep(alloc, number, fragment),
        }
    }

    // Discards it, for this reason.
    fn discard(&mut self, refusal: Refusal) -> Taken
        ensures taken { result ≡ Taken.Refused refusal }
        ensures discarded { partial_of self.new ≡ discarded_of (partial_of self.old) }
    {
        self.pieces.clear();
        self.discarded = true;
        Taken::Refused(refusal)
    }

    // Puts a fragment in its place, and the datagram together where it is whole.
    fn keep(&mut self, alloc: Global, number: u64, fragment: &Fragment<'_>) -> Result<Taken, Fault>
        requires taken { self.old.discarded ≡ false }
        requires sound { IsSound (value_of fragment.now) }
        requires apart { StandsToAll (map piece_of self.old.pieces.items) (value_of fragment.now) Standing.Apart }
        requires room { vec_len self.old.pieces < 256 }
        ensures takes { IfOk result (λ taken.
            Takes (partial_of self.old) number (value_of fragment.now) (taken_of taken) (partial_of self.new)) }
        ensures fault { OnErr result (partial_of self.new ≡ partial_of self.old) }
    {
        let piece = Piece::new(alloc, number, fragment)?;
        let place = place_of(self.pieces.as_slice(), fragment);
        if self.pieces.insert(place, piece).is_err() {
            return Err(Fault::Memory);
        }
        if !is_whole(self.pieces.as_slice()) {
            return Ok(Taken::Kept);
        }
        match self.whole(alloc) {
            Ok(whole) => Ok(Taken::Whole(whole)),
            Err(fault) => {
                self.pieces.remove(place);
                Err(fault)
            }
        }
    }

    // The datagram, put together.
    fn whole(&self, alloc: Global) -> Result<Whole, Fault>
        ensures { IfOk result (λ whole. whole_of whole ≡ joined (partial_of self.now)) }
    {
        let pieces = self.pieces.as_slice();
        Ok(Whole {
            addresses: self.key.addresses,
            protocol: first_protocol(pieces),
            hop_by_hop: copied(alloc, first_options(pieces))?,
            payload: payload(alloc, pieces)?,
            numbers: numbers(alloc, pieces)?,
        })
    }
}

// How a fragment stands to those that are kept: apart from all, or as to the first that it is not apart from.
fn standing(pieces: &[Piece], fragment: &Fragment<'_>) -> Standing
    requires { fragment_end (value_of fragment.now) ≤ 65535 }
    ensures { StandsToAll (map piece_of pieces.now) (value_of fragment.now) result }
{
    for piece in pieces {
        let standing = piece.standing(fragment);
        if standing != Standing::Apart {
            return standing;
        }
    }
    Standing::Apart
}

// The place of a fragment among those that are kept: before the first that does not begin before it.
fn place_of(pieces: &[Piece], fragment: &Fragment<'_>) -> usize
    ensures within { result ≤ length pieces.now }
    ensures placed { (number : ℕ) → insert (map piece_of pieces.now) result (piece_in number (value_of fragment.now))
        ≡ placed (piece_in number (value_of fragment.now)) (map piece_of pieces.now) }
{
    for (i, piece) in pieces.iter().enumerate() {
        if piece.frag_offset() >= fragment.frag_offset {
            return i;
        }
    }
    pieces.len()
}

// Whether these are all fragments of their datagram.
fn is_whole(pieces: &[Piece]) -> bool
    ensures { IsTrue result ↔ Tiles (map piece_of pieces.now) }
{
    let mut more = true;
    let mut end = 0;
    for piece in pieces {
        if !more || piece.frag_offset() as usize != end {
            return false;
        }
        more = piece.more_frags();
        end = piece.end();
    }
    !more
}

// The protocol that the first one names.
fn first_protocol(pieces: &[Piece]) -> IpProtocol
    ensures { result ≡ protocol_of_first (map piece_of pieces.now) }
{
    match pieces.first() {
        Some(piece) => piece.protocol(),
        None => IpProtocol::Ipv6NoNxt,
    }
}

// The hop-by-hop options that the first one has.
fn first_options(pieces: &[Piece]) -> Option<&[u8]>
    ensures { option_map (λ options. options.now) result ≡ options_of_first (map piece_of pieces.now) }
{
    match pieces.first() {
        Some(piece) => piece.hop_by_hop(),
        None => None,
    }
}

// Their octets, one after another.
fn payload(alloc: Global, pieces: &[Piece]) -> Result<Vec<u8>, Fault>
    ensures { IfOk result (λ payload. payload.items ≡ payload_of (map piece_of pieces.now)) }
{
    let mut payload = Vec::new(alloc);
    for piece in pieces {
        if payload.extend_from_slice(piece.octets()).is_err() {
            return Err(Fault::Memory);
        }
    }
    Ok(payload)
}

// The numbers of the packets that they came in.
fn numbers(alloc: Global, pieces: &[Piece]) -> Result<Vec<u64>, Fault>
    ensures { IfOk result (λ numbers. numbers.items ≡ numbers_of (map piece_of pieces.now)) }
{
    let mut numbers = Vec::new(alloc);
    for piece in pieces {
        if numbers.push(piece.number()).is_err() {
            return Err(Fault::Memory);
        }
    }
    Ok(numbers)
}
