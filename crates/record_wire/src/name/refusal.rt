//! Why names are refused: the check that fails first.

ghost use Rattle.std.specs.Prelude.{◌≡◌, List, ℕ, IfOk, IfErr, IsOkAnd};
ghost use Rattle.dns_wire.specs.DnsPacket.{view_octets};
ghost use Rattle.record_wire.specs.Name.{labels_of};
ghost use Rattle.record_wire.specs.NameRefusal.{RefusesName, name_refusal_display};
ghost use Rattle.record_wire.specs.Names.{Names};
ghost use Rattle.wirebase.specs.Sink.{PutsText};

use crate::name::{Name, put_name};
use crate::refusal::PartRefusal;
use arrayvec::ArrayVec;
use dns_wire::dns::Packet;
use dns_wire::octets::octets_of;
use std::{fmt, result};
use wirebase::text::{Sink, ToFormatter, put_number};

/// Why [`crate::Name::read`] refuses octets and their message: the check that fails first.
#[derive(Debug, PartialEq, Eq, Clone, Copy)]
pub enum NameRefusal {
    /// The name is cut, or has a label of another kind.
    Part(PartRefusal),
    /// A pointer to this place leads nowhere or in a circle: out of the message, or, after another pointer, not to
    /// below the place that the one before it led to (RFC 1035 section 4.1.4).
    Pointer(usize),
    /// The name has more than [`crate::name::MAX_POINTERS`] pointers, with or without labels between them.
    TooManyPointers,
    /// The name has more than 255 octets (RFC 1035 section 2.3.4).
    TooLong,
}

/// What is wrong with the name.
impl fmt::Display for NameRefusal {
    ghost use Rattle.std.specs.Prelude.{Some};
    ghost use Rattle.record_wire.specs.NameRefusal.{name_refusal_display};

    ghost output = { λ refusal. Some (name_refusal_display refusal) };

    #[tactic(auto, using(wirebase::proofs::Sinks::displayed))]
    fn fmt<W: fmt::Write>(&self, f: &mut fmt::Formatter<W>) -> fmt::Result {
        self.put::<_, ToFormatter>(f)
    }
}

impl NameRefusal {
    /// Puts what is wrong with the name.
    #[tactic(auto, using(wirebase::proofs::Sinks::puts))]
    pub fn put<O, S: Sink<O>>(&self, output: &mut O) -> result::Result<(), S::Error>
        ensures { PutsText S.took output.old (name_refusal_display self.now) result output.new }
    {
        match self {
            NameRefusal::Part(refusal) => refusal.put::<O, S>(output),
            NameRefusal::Pointer(place) => {
                S::put_str(output, "a pointer to place ")?;
                put_number::<O, S>(output, *place as u64)?;
                S::put_str(output, " leads nowhere or round")
            }
            NameRefusal::TooManyPointers => {
                S::put_str(output, "the name follows more than 127 pointers")
            }
            NameRefusal::TooLong => S::put_str(output, "the name has more than 255 octets"),
        }
    }
}

impl Name {
    /// The name, as [`Name::read`] reads it, or why it is refused, as [`Name::read_refusal`] tells: the check that
    /// fails first.
    pub fn read_or_refusal<'a>(
        packet: &Packet<&'a [u8]>,
        bytes: &'a [u8],
    ) -> result::Result<Name, NameRefusal>
        ensures sound { IfOk result (λ name.
            Names (view_octets packet.entry.now) bytes.entry.now (labels_of name)) }
        ensures complete { (labels : List (List ℕ))
            → Names (view_octets packet.entry.now) bytes.entry.now labels
            → IsOkAnd result (λ name. labels_of name ≡ labels) }
        ensures told { IfErr result (λ refusal.
            RefusesName bytes.entry.now (view_octets packet.entry.now) refusal) }
    {
        read_name(octets_of(packet), bytes)
    }
}

/// The name that begins in `bytes` and goes on in a message, or why it is refused. Inlined: a name is large, and would
/// be copied.
#[inline(always)]
pub(super) fn read_name(message: &[u8], bytes: &[u8]) -> result::Result<Name, NameRefusal>
    ensures sound { IfOk result (λ name. Names message.now bytes.now (labels_of name)) }
    ensures complete { (labels : List (List ℕ)) → Names message.now bytes.now labels
        → IsOkAnd result (λ name. labels_of name ≡ labels) }
    ensures told { IfErr result (λ refusal. RefusesName bytes.now message.now refusal) }
{
    let mut octets = ArrayVec::new();
    match put_name(&mut octets, message, bytes) {
        Ok(()) => Ok(Name { octets }),
        Err(refusal) => Err(refusal),
    }
}
