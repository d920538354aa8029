//! The walk over a name that may go on elsewhere in its message (RFC 1035 section 4.1.4).

ghost use Rattle.std.specs.Prelude.{◌≡◌};
ghost use Rattle.dns_wire.specs.DnsNameWalk.{IsWalkOver};

use crate::dns::part::{NamePart, follow, read_front};
use std::alloc::AllocError;
use std::marker::Model;
use std::result;
use wirebase::{Error, Result};

/// The labels of a name. The first pointer leads to any place of the message, and each later one to below the place
/// that the one before it led to, so the walk ends.
#[derive(Debug, Drop)]
pub struct NameIter<'a> {
    // What is left of the part that is read.
    left: &'a [u8],
    // The open bytes of the message: a pointer leads to one of them.
    reach: &'a [u8],
    steps: usize,
}

impl<'a> Model for NameIter<'a> {
    ghost use Rattle.std.specs.Prelude.{◌+◌, ◌*◌, ◌<◌, ◌^◌, length};
    ghost use Rattle.dns_wire.specs.DnsNameWalk.{Walk};
    ghost use Rattle.dns_wire.specs.private.DnsNameAhead.{ahead_of};

    ghost Value = { Walk };

    ghost view = { λ it. record {
      steps = it.steps;
      ahead = ahead_of it.steps it.left.now it.reach.now;
    } };

    ghost invariant = { λ it. 2 * it.steps + length it.left.now + length it.reach.now < 2 ^ 65 };
}

impl<'a> Iterator for NameIter<'a> {
    ghost use Rattle.std.specs.Iterator.{at_most};
    ghost use Rattle.dns_wire.specs.DnsNameWalk.{GivesFirst};
    ghost use Rattle.dns_wire.specs.private.Parts.{items_in};

    type Item = Result<&'a [u8]>;

    ghost next_gives = { GivesFirst };

    ghost remaining = { λ walk. at_most (items_in walk.ahead) };

    #[inline]
    fn next(&mut self) -> Option<Result<&'a [u8]>> {
        loop {
            match read_front(self.left) {
                NamePart::Label(label, rest) => {
                    self.left = rest;
                    self.steps += 1;
                    return Some(Ok(label));
                }
                NamePart::Pointer(target) => {
                    let Some((left, reach)) = follow(self.reach, target) else {
                        break;
                    };
                    self.left = left;
                    self.reach = reach;
                    self.steps += 1;
                }
                NamePart::End => return None,
                NamePart::Torn => break,
            }
        }
        // From here on the end of a name is read, so that the error is given once.
        self.left = &[0];
        self.reach = &[];
        Some(Err(Error))
    }
}

impl<'a> NameIter<'a> {
    /// How many labels were given and pointers followed.
    pub fn steps(&self) -> usize
        ensures { result ≡ self.now.steps }
    {
        let NameIter { steps, .. } = self;
        *steps
    }
}

/// The copy continues at the place that the walk has reached.
impl Clone for NameIter<'_> {
    ghost use Rattle.std.specs.Prelude.{⊤};

    ghost is_clone = { λ walk copy. copy ≡ walk };

    ghost is_infallible = { λ _. ⊤ };

    fn clone(&self) -> result::Result<Self, AllocError> {
        Ok(NameIter {
            left: self.left,
            reach: self.reach,
            steps: self.steps,
        })
    }
}

/// The walk over the name that begins in a slice and may go on in a message.
#[inline]
pub(crate) fn walk<'a>(message: &'a [u8], slice: &'a [u8]) -> NameIter<'a>
    ensures { IsWalkOver slice.entry.now message.entry.now result }
{
    NameIter {
        left: slice,
        reach: message,
        steps: 0,
    }
}
