//! Why octets are refused as a question, a record, data or a whole name: the first check that fails.

ghost use Rattle.std.specs.Prelude.{◌↔◌, Some, IfSome, IsNone};
ghost use Rattle.dns_wire.specs.DnsPacket.{inner};
ghost use Rattle.dns_wire.specs.DnsRefusal.{NameBreaks, HasName, name_refusal_display, refusal_display};

use super::Packet;
use crate::dns::part::{NamePart, follow, read_front, why_torn};
use std::fmt;
use wirebase::Octets;

/// Why a name breaks (RFC 1035 section 4.1.4).
#[derive(Debug, PartialEq, Eq, Clone, Copy)]
pub enum NameRefusal {
    /// The bytes end where a label, byte 0 or a pointer has to begin.
    NoEnd,
    /// A label of fewer bytes than its length says. After a pointer the bytes end where the pointer before it led to,
    /// since no byte of the message is read twice.
    LabelCut,
    /// A byte of 64 to 191, which is neither the length of a label nor the first byte of a pointer.
    LabelType(u8),
    /// The first byte of a pointer, and no second.
    PointerCut,
    /// A pointer to this place of the message, which is not before the place that the pointer before it led to, as in a
    /// loop; or, of the first pointer, is not in the message.
    Pointer(usize),
}

/// Why octets are refused as a [`crate::dns::Question`], a [`crate::dns::Record`] or [`crate::dns::RecordData`].
#[derive(Debug, PartialEq, Eq, Clone, Copy)]
pub enum Refusal {
    /// They begin with no part of a name. This is never [`NameRefusal::Pointer`], for no pointer is followed.
    Name(NameRefusal),
    /// Fewer bytes follow the name than the fixed fields take, 4 of a question and 10 of a record.
    Short,
    /// A class that is not that of the internet, by its number.
    Class(u16),
    /// Fewer bytes of data than the record's length says.
    Length,
    /// The data of a record of type A are not 4 bytes, or of type AAAA not 16: this number of bytes.
    AddressLength(usize),
}

impl fmt::Display for NameRefusal {
    ghost output = { λ reason. Some (name_refusal_display reason) };

    fn fmt<W: fmt::Write>(&self, f: &mut fmt::Formatter<W>) -> fmt::Result {
        match self {
            NameRefusal::NoEnd => f.write_str("the name has no end"),
            NameRefusal::LabelCut => f.write_str("a label is cut"),
            NameRefusal::LabelType(number) => {
                write!(f, "{number} is neither the length of a label nor a pointer")
            },
            NameRefusal::PointerCut => f.write_str("a pointer is cut"),
            NameRefusal::Pointer(place) => {
                write!(f, "a pointer to byte {place} does not lead back")
            }
        }
    }
}

impl fmt::Display for Refusal {
    ghost output = { λ refusal. Some (refusal_display refusal) };

    fn fmt<W: fmt::Write>(&self, f: &mut fmt::Formatter<W>) -> fmt::Result {
        match self {
            Refusal::Name(reason) => write!(f, "{reason}"),
            Refusal::Short => f.write_str("the fields behind the name are cut"),
            Refusal::Class(number) => write!(f, "class {number} is not read"),
            Refusal::Length => f.write_str("the data is cut"),
            Refusal::AddressLength(len) => write!(f, "an address of {len} bytes"),
        }
    }
}

impl<T: Octets> Packet<T> {
    /// Why the walk of [`Packet::parse_name`] over the name that begins in `bytes` gives an error; None where it gives
    /// labels and then the end. Requires nothing of the message.
    pub fn name_refusal(&self, bytes: &[u8]) -> Option<NameRefusal>
        ensures told { IfSome result (NameBreaks bytes.now (T.bytes (inner self.now))) }
        ensures exact { IsNone result ↔ HasName bytes.now (T.bytes (inner self.now)) }
    {
        why_broken(self.buffer.octets(), bytes)
    }
}

// Why the name that begins in a text, and may go on in a message, breaks.
fn why_broken(message: &[u8], text: &[u8]) -> Option<NameRefusal>
    ensures told { IfSome result (NameBreaks text.now message.now) }
    ensures exact { IsNone result ↔ HasName text.now message.now }
{
    let mut left = text;
    // The open bytes of the message: a pointer leads to one of them.
    let mut reach = message;
    loop {
        match read_front(left) {
            NamePart::Label(_, rest) => left = rest,
            NamePart::Pointer(place) => {
                let Some((next, open_bytes)) = follow(reach, place) else {
                    return Some(NameRefusal::Pointer(place));
                };
                left = next;
                reach = open_bytes;
            }
            NamePart::End => return None,
            NamePart::Torn => return Some(why_torn(left)),
        }
    }
}
