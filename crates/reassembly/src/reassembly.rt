//! The datagrams that are kept until all of their fragments came.

ghost use Rattle.std.specs.Prelude.{◌≡◌, ◌<◌, [], IfOk, IfSome, IsNone, OnErr, length, map};
ghost use Rattle.std.specs.Prelude.{slice_index_or, take};
ghost use Rattle.reassembly.specs.Answer.{answer_of};
ghost use Rattle.reassembly.specs.Arrivals.{AnyOrder};
ghost use Rattle.reassembly.specs.Bounds.{IsWithinBounds};
ghost use Rattle.reassembly.specs.Fragment.{value_of, key_of, IsSound};
ghost use Rattle.reassembly.specs.Partial.{partial_of};
ghost use Rattle.reassembly.specs.Reassembly.{state_of, Adds, IsUnknown};

use crate::answer::{Answer, Fault};
use crate::fragment::Fragment;
use crate::key::Key;
use crate::partial::{Partial, Taken};
use std::alloc::Global;

/// The most datagrams of which fragments are kept.
pub const MOST_DATAGRAMS: usize = 64;

/// The datagrams of which some fragments came, in the order in which they began: at most `MOST_DATAGRAMS`, of at most
/// `MOST_PIECES` fragments each, whose bytes are those of their datagram, at most `MOST_LEN`. Of the hop-by-hop options
/// those before the fragment at offset 0 are kept, at most `MOST_OPTIONS_LEN` bytes. So less than 4 MiB of fragments
/// are kept and less than 128 KiB of options, and the work of one fragment is linear in its length and the number of
/// those of its datagram; the last one takes the length of the whole datagram.
///
/// No time is kept. A datagram is forgotten where it is whole, or where it began first and there is no room for another
/// one. A fragment that comes again, as where a packet is captured twice, is kept once, with the number and the options
/// of the first packet. Where a fragment contradicts another of its datagram, or is one too many, the whole datagram is
/// discarded (RFC 5722 section 3), and its key stays in its place: other fragments of it are refused for as long.
#[derive(Drop)]
pub struct Reassembly {
    datagrams: Vec<Partial>,
}

impl Reassembly {
    /// No fragment came yet. Whatever the order in which the fragments of a datagram come to `add`, the last one is
    /// answered by the same whole datagram.
    pub fn new(alloc: Global) -> Reassembly
        ensures state { state_of result ≡ [] }
        ensures bounds { IsWithinBounds (state_of result) }
        ensures any_order { AnyOrder }
    {
        Reassembly {
            datagrams: Vec::new(alloc),
        }
    }

    /// The datagrams of which some fragments came, but not yet all, and those that are discarded, in the order in which
    /// they began.
    pub fn datagrams(&self) -> &[Partial]
        ensures { map partial_of result.now ≡ state_of self.now }
    {
        self.datagrams.as_slice()
    }

    /// Takes a fragment, which came in the packet of this number; `Answer` says what becomes of it. Where there is no
    /// memory for it, nothing changes; to refuse it for itself takes none.
    pub fn add(
        &mut self,
        alloc: Global,
        number: u64,
        fragment: &Fragment<'_>,
    ) -> Result<Answer, Fault>
        ensures adds { IfOk result (λ answer.
            Adds (state_of self.old) number (value_of fragment.now) (answer_of answer) (state_of self.new)) }
        ensures fault { OnErr result (IsSound (value_of fragment.now) × (state_of self.new ≡ state_of self.old)) }
        ensures bounds { IsWithinBounds (state_of self.old) → IsWithinBounds (state_of self.new) }
    {
        self.put(alloc, number, fragment)
    }

    // Takes a fragment.
    fn put(&mut self, alloc: Global, number: u64, fragment: &Fragment<'_>) -> Result<Answer, Fault>
        ensures adds { IfOk result (λ answer.
            Adds (state_of self.old) number (value_of fragment.now) (answer_of answer) (state_of self.new)) }
        ensures fault { OnErr result (IsSound (value_of fragment.now) × (state_of self.new ≡ state_of self.old)) }
    {
        if let Some(refusal) = fragment.refusal() {
            return Ok(Answer::Refused(refusal));
        }
        match find(self.datagrams.as_slice(), &fragment.key()) {
            Some(place) => self.join(alloc, place, number, fragment),
            None => self.begin(alloc, number, fragment),
        }
    }

    // Begins a datagram by a fragment, and drops the one that began first where there are too many.
    fn begin(
        &mut self,
        alloc: Global,
        number: u64,
        fragment: &Fragment<'_>,
    ) -> Result<Answer, Fault>
        requires sound { IsSound (value_of fragment.now) }
        requires unknown { IsUnknown (key_of (value_of fragment.now)) (state_of self.old) }
        ensures adds { IfOk result (λ answer.
            Adds (state_of self.old) number (value_of fragment.now) (answer_of answer) (state_of self.new)) }
        ensures fault { OnErr result (IsSound (value_of fragment.now) × (state_of self.new ≡ state_of self.old)) }
    {
        let datagram = Partial::begin(alloc, number, fragment)?;
        let count = self.datagrams.len();
        if self.datagrams.push(datagram).is_err() {
            return Err(Fault::Memory);
        }
        if count < MOST_DATAGRAMS {
            return Ok(Answer::Incomplete(None));
        }
        Ok(Answer::Incomplete(Some(self.datagrams.remove(0))))
    }

    // Adds a fragment to the datagram at this place.
    fn join(
        &mut self,
        alloc: Global,
        place: usize,
        number: u64,
        fragment: &Fragment<'_>,
    ) -> Result<Answer, Fault>
        requires sound { IsSound (value_of fragment.now) }
        requires within { place < length self.old.datagrams.items }
        requires unknown { IsUnknown (key_of (value_of fragment.now))
            (map partial_of (take place self.old.datagrams.items)) }
        requires key { (d : Partial) →
            (slice_index_or self.old.datagrams.items place d).key ≡ key_of (value_of fragment.now) }
        ensures adds { IfOk result (λ answer.
            Adds (state_of self.old) number (value_of fragment.now) (answer_of answer) (state_of self.new)) }
        ensures fault { OnErr result (IsSound (value_of fragment.now) × (state_of self.new ≡ state_of self.old)) }
    {
        match self.datagrams[place].take(alloc, number, fragment) {
            Ok(Taken::Kept) => Ok(Answer::Incomplete(None)),
            Ok(Taken::Refused(refusal)) => Ok(Answer::Refused(refusal)),
            Ok(Taken::Whole(whole)) => {
                self.datagrams.remove(place);
                Ok(Answer::Whole(whole))
            }
            Err(fault) => Err(fault),
        }
    }
}

// The place of the first datagram with this key.
fn find(datagrams: &[Partial], key: &Key) -> Option<usize>
    ensures within { IfSome result (λ i. i < length datagrams.now) }
    ensures before { IfSome result (λ i. IsUnknown key.now (map partial_of (take i datagrams.now))) }
    ensures key { IfSome result (λ i. (d : Partial) → (slice_index_or datagrams.now i d).key ≡ key.now) }
    ensures none { IsNone result → IsUnknown key.now (map partial_of datagrams.now) }
{
    for (i, datagram) in datagrams.iter().enumerate() {
        if datagram.key().is(key) {
            return Some(i);
        }
    }
    None
}
