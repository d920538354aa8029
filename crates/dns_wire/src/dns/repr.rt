//! A query (RFC 1035 section 4.1).

ghost use Rattle.std.specs.Prelude.{◌≡◌, ◌≤◌, ◌<◌, ◌^◌, length};
ghost use Rattle.wirebase.specs.Bytes.{over};
ghost use Rattle.wirebase.specs.ByteWriter.{free, Puts};
ghost use Rattle.wirebase.specs.Format.{SameText};
ghost use Rattle.dns_wire.specs.DnsTables.{opcode_number, flag_bits, IsKnown};
ghost use Rattle.dns_wire.specs.DnsPacket.{inner};
ghost use Rattle.dns_wire.specs.DnsRepr.{value_of, flags_word, query_fields, text, text_len, CanEmit, format, Emits};

use crate::dns::packet::{HEADER_LEN, Packet};
use crate::dns::question::{Question, put_pair};
use crate::dns::tables::{Flags, Opcode};
use bitflags::Flags as _;
use wirebase::{ByteWriter, OctetsMut};

/// A query of one question.
#[derive(Debug, PartialEq, Eq, Clone, Copy)]
pub struct Repr<'a> {
    /// The number by which a response is matched to the query.
    pub transaction_id: u16,
    /// The kind of query.
    pub opcode: Opcode,
    /// The flags of the header.
    pub flags: Flags,
    /// The question.
    pub question: Question<'a>,
}

impl<'a> Repr<'a> {
    /// The bytes that the query takes: those of the header, 12, and of the question. Requires that they fit a `usize`.
    pub const fn buffer_len(&self) -> usize
        requires { text_len (value_of self.now) < 2 ^ 64 }
        ensures value { result ≡ text_len (value_of self.now) }
        ensures exact { result ≡ length (text (value_of self.now)) }
    {
        HEADER_LEN + self.question.buffer_len()
    }

    /// Writes the query over the front of the octets; the other octets are unchanged. Requires as many octets as it
    /// takes, flags that have a name, and a kind of query below 16.
    pub fn emit<T: OctetsMut>(&self, packet: &mut Packet<T>)
        requires { CanEmit (value_of self.now) (T.bytes (inner packet.old)) }
        ensures place { inner packet.new ≡ T.put (inner packet.old) (T.bytes (inner packet.new)) }
        ensures emits { Emits (value_of self.now)
            (T.bytes (inner packet.old)) (T.bytes (inner packet.new)) }
    {
        self.emit_into(packet.buffer.octets_mut());
    }

    /// Like `emit`, but writes into a slice.
    pub fn emit_into(&self, octets: &mut [u8])
        requires { CanEmit (value_of self.now) octets.old }
        ensures { Emits (value_of self.now) octets.old octets.new }
    {
        self.write(octets);
    }

    /// Does nothing; its contract states, of two queries that a packet can hold, that equal texts mean equal queries,
    /// and conversely.
    pub fn same_text(a: &Self, b: &Self)
        ensures { SameText format (value_of a.now) (value_of b.now) }
    {}

    // Writes the text of the query.
    #[tactic(auto, using(wirebase::proofs::Chains::chain))]
    fn write(&self, octets: &mut [u8])
        requires { CanEmit (value_of self.now) octets.old }
        ensures { octets.new ≡ over octets.old (text (value_of self.now)) }
    {
        let mut w = ByteWriter::new(octets);
        self.put(&mut w);
    }

    // Writes each field of the query.
    fn put(&self, w: &mut ByteWriter<'_>)
        requires known { IsKnown (flag_bits self.now.flags) }
        requires four_bits { opcode_number self.now.opcode < 16 }
        requires room { text_len (value_of self.now) ≤ length (free w.old) }
        ensures { Puts w.old w.new (query_fields (value_of self.now)) }
    {
        put_pair(w, self.transaction_id, word_of(self.flags, self.opcode));
        // One question, and no records of any section.
        put_pair(w, 1, 0);
        put_pair(w, 0, 0);
        self.question.put(w);
    }
}

// The word of flags.
#[tactic(auto, using(crate::proofs::DnsFlagsWord::words))]
fn word_of(flags: Flags, opcode: Opcode) -> u16
    requires known { IsKnown (flag_bits flags) }
    requires four_bits { opcode_number opcode < 16 }
    ensures { result ≡ flags_word (flag_bits flags) opcode }
{
    flags.bits() + 2048 * u8::from(opcode) as u16
}
