//! Why questions and records are refused: the check that fails first.

ghost use Rattle.std.specs.Prelude.{List, ℕ, ◌≡◌};
ghost use Rattle.dns_wire.specs.DnsPart.{IsSplit};
ghost use Rattle.dns_wire.specs.DnsNameAhead.{torn};
ghost use Rattle.dns_wire.specs.private.DnsNameAhead.{front_of};
ghost use Rattle.record_wire.specs.RecordRefusal.{IsNoPart, part_display, refusal_display};
ghost use Rattle.wirebase.specs.Sink.{PutsText};

use dns_wire::octets::{NamePart, read_front};
use std::{fmt, result};
use wirebase::text::{Sink, ToFormatter, put_number};

// The first byte of a label is its length, below `LABEL_END`; the first byte of a pointer is `POINTER` or above.
const LABEL_END: u8 = 0x40;

const POINTER: u8 = 0xc0;

/// Why octets do not begin with a name of one part: labels of 1 to 63 bytes, and then byte 0 or a pointer.
#[derive(Debug, PartialEq, Eq, Clone, Copy)]
pub enum PartRefusal {
    /// The octets end before the name does.
    Cut,
    /// A label begins with this byte, 64 to 191, which is neither a length nor a pointer's (RFC 1035 section 4.1.4).
    LabelType(u8),
}

/// Why [`crate::Question::parse`] or [`crate::Record::parse`] refuses octets: the check that fails first.
#[derive(Debug, PartialEq, Eq, Clone, Copy)]
pub enum Refusal {
    /// There is no name.
    Name(PartRefusal),
    /// Fewer bytes than the fields after the name have: 4 in a question, 10 in a record.
    Fields,
    /// Fewer bytes of data than a record's length says.
    Data,
}

/// What is wrong with the name.
impl fmt::Display for PartRefusal {
    ghost use Rattle.std.specs.Prelude.{Some};
    ghost use Rattle.record_wire.specs.RecordRefusal.{part_display};

    ghost output = { λ refusal. Some (part_display refusal) };

    #[tactic(auto, using(wirebase::proofs::Sinks::displayed))]
    fn fmt<W: fmt::Write>(&self, f: &mut fmt::Formatter<W>) -> fmt::Result {
        self.put::<_, ToFormatter>(f)
    }
}

impl PartRefusal {
    /// Puts what is wrong with the name.
    #[tactic(auto, using(wirebase::proofs::Sinks::puts))]
    pub fn put<O, S: Sink<O>>(&self, output: &mut O) -> result::Result<(), S::Error>
        ensures { PutsText S.took output.old (part_display self.now) result output.new }
    {
        match self {
            PartRefusal::Cut => S::put_str(output, "the name is cut"),
            PartRefusal::LabelType(byte) => {
                S::put_str(output, "a label that begins with byte ")?;
                put_number::<O, S>(output, u64::from(*byte))?;
                S::put_str(output, " is not read")
            }
        }
    }
}

/// What is wrong with the question or the record.
impl fmt::Display for Refusal {
    ghost use Rattle.std.specs.Prelude.{Some};
    ghost use Rattle.record_wire.specs.RecordRefusal.{refusal_display};

    ghost output = { λ refusal. Some (refusal_display refusal) };

    #[tactic(auto, using(wirebase::proofs::Sinks::displayed))]
    fn fmt<W: fmt::Write>(&self, f: &mut fmt::Formatter<W>) -> fmt::Result {
        self.put::<_, ToFormatter>(f)
    }
}

impl Refusal {
    /// Puts what is wrong with the question or the record.
    pub fn put<O, S: Sink<O>>(&self, output: &mut O) -> result::Result<(), S::Error>
        ensures { PutsText S.took output.old (refusal_display self.now) result output.new }
    {
        match self {
            Refusal::Name(refusal) => refusal.put::<O, S>(output),
            Refusal::Fields => S::put_str(output, "the fields behind the name are cut"),
            Refusal::Data => S::put_str(output, "the data is cut"),
        }
    }
}

/// Why a text does not begin with a name of one part.
pub(crate) fn why_no_part(text: &[u8]) -> PartRefusal
    requires { (name rest : List ℕ) → IsSplit text.now name rest → ⊥ }
    ensures { IsNoPart text.now result }
{
    let mut left = text;
    loop {
        match read_front(left) {
            NamePart::Label(_, rest) => left = rest,
            NamePart::Pointer(_) | NamePart::End | NamePart::Torn => return why_torn(left),
        }
    }
}

/// Why octets do not begin with a whole item. Refusals are rare, and inlined this would take registers from the loop
/// that reads names.
#[inline(never)]
pub(crate) fn why_torn(octets: &[u8]) -> PartRefusal
    requires { torn ≡ front_of octets.now }
    ensures { IsNoPart octets.now result }
{
    if octets.is_empty() {
        return PartRefusal::Cut;
    }
    let first = octets[0];
    if first < LABEL_END {
        return PartRefusal::Cut;
    }
    if first >= POINTER {
        return PartRefusal::Cut;
    }
    PartRefusal::LabelType(first)
}
