//! Names of DNS messages.

ghost use Rattle.std.specs.Prelude.{◌≡◌, OnOk, drop};
ghost use Rattle.listing.specs.ListingDns.{NamePrints, answers_listing};
ghost use Rattle.packet_fields.specs.Output.{Gains, GainsSome};

use crate::printer::{field, line};
use dns_wire::dns::{NameIter, Packet};
use std::io;
use std::io::Write;

/// Prints the labels of the name that begins at an offset of a message, and how the walk over it ends.
pub fn show_name<W: Write>(output: &mut W, offset: usize, message: &[u8]) -> io::Result<()>
    ensures { OnOk result (GainsSome (W.contents output.old) (W.contents output.new)
        (NamePrints offset message.now)) }
{
    let slice = from(message, offset);
    show_labels(output, Packet::new_unchecked(message).parse_name(slice))
}

// The octets from an offset on, none from the end on.
fn from(octets: &[u8], offset: usize) -> &[u8]
    ensures { result.now ≡ drop offset octets.now }
{
    if offset > octets.len() {
        return &[];
    }
    &octets[offset..]
}

// Prints the results of a walk.
fn show_labels<W: Write>(output: &mut W, mut labels: NameIter<'_>) -> io::Result<()>
    ensures { OnOk result (Gains (W.contents output.old) (W.contents output.new)
        (answers_listing labels.entry.ahead)) }
{
    loop {
        match labels.next() {
            Some(Ok(label)) => line(output, label)?,
            Some(Err(_)) => return field(output, "error steps", labels.steps()),
            None => return field(output, "end steps", labels.steps()),
        }
    }
}
