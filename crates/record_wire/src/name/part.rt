//! The labels in a part of a name (RFC 1035 section 4.1.4).

ghost use Rattle.std.specs.Prelude.{◌≡◌, ◌≤◌, length, drop};
ghost use Rattle.dns_wire.specs.private.DnsNameAhead.{front_of};
ghost use Rattle.dns_wire.specs.private.Parts.{shown};
ghost use Rattle.record_wire.specs.private.NameParts.{LabelsAtFront, EndsTooFar};

use crate::name::MAX_NAME_LEN;
use dns_wire::octets::{NamePart, read_front};

/// The number of bytes of the whole labels at the start of a text, which are copied at once, and what follows them:
/// also a label, where the labels with it would have more octets than a name has.
#[inline]
pub(super) fn read_labels(text: &[u8]) -> (usize, NamePart<'_>)
    ensures labels { LabelsAtFront text.now result.0 }
    ensures fits { result.0 ≤ length text.now }
    ensures behind { shown result.1 ≡ front_of (drop result.0 text.now) }
    ensures far { EndsTooFar result.0 result.1 }
{
    let mut left = text;
    loop {
        match read_front(left) {
            NamePart::Label(_, rest) if text.len() - rest.len() < MAX_NAME_LEN => left = rest,
            front => return (text.len() - left.len(), front),
        }
    }
}
