//! A question of a message (RFC 1035 section 4.1.2).

ghost use Rattle.std.specs.Prelude.{◌≡◌, ◌≤◌, ◌+◌, ◌<◌, ◌^◌, ◌↔◌, List, ℕ, ◌∷◌, [], length, IfOk, IfErr, IsOkAnd};
ghost use Rattle.std.specs.Prelude.{IfSome, IsNone};
ghost use Rattle.wirebase.specs.Bytes.{over};
ghost use Rattle.wirebase.specs.ByteWriter.{be16, free, Puts};
ghost use Rattle.wirebase.specs.Format.{Rewrites, SameText};
ghost use Rattle.dns_wire.specs.DnsQuestion.{QuestionValue, value_of, IsQuestion, question_fields, text, text_len};
ghost use Rattle.dns_wire.specs.DnsQuestion.{format, Emits};
ghost use Rattle.dns_wire.specs.DnsRefusal.{RefusesQuestion, BeginsWithQuestion};

use crate::dns::part::read_part;
use crate::dns::refusal::Refusal;
use crate::dns::tables::Type;
use wirebase::{ByteWriter, Error, Octets, are_bytes};

// The fields after the name of a question.
mod field {
    use wirebase::Field;

    pub const TYPE: Field = 0..2;

    pub const CLASS: Field = 2..4;

    pub const END: usize = 4;
}

/// The class of the internet (RFC 1035 section 3.2.4).
pub(crate) const CLASS_IN: u16 = 1;

/// A question: the records of one type at a name (RFC 1035 section 4.1.2).
#[derive(Debug, PartialEq, Eq, Clone, Copy)]
pub struct Question<'a> {
    /// The name as it is written: labels of 1 to 63 bytes, each after its length, and then byte 0 or a pointer.
    pub name: &'a [u8],
    /// The type of the records.
    pub type_: Type,
}

impl<'a> Question<'a> {
    /// The octets after the question at the front, and the question. Refused where the octets do not begin with a name
    /// of one part, a type and the class of the internet.
    pub fn parse(buffer: &'a [u8]) -> wirebase::Result<(&'a [u8], Question<'a>)>
        ensures sound { IfOk result (λ read. IsQuestion buffer.now (value_of read.1) read.0.now) }
        ensures complete { (value : QuestionValue) (rest : List ℕ)
            → IsQuestion buffer.now value rest
            → IsOkAnd result (λ read. (value_of read.1 ≡ value) × (read.0.now ≡ rest)) }
        ensures rewrites { length buffer.now ≤ 65515
            → IfOk result (λ read. Rewrites format (value_of read.1)) }
    {
        are_bytes(buffer);
        match Question::read(buffer) {
            Ok(read) => Ok(read),
            Err(_) => Err(Error),
        }
    }

    /// Why [`Question::parse`] refuses these octets, by the first check that fails; None where it reads them. A
    /// question has no data, so this is [`Refusal::Name`], [`Refusal::Short`] or [`Refusal::Class`].
    pub fn refusal(buffer: &[u8]) -> Option<Refusal>
        ensures told { IfSome result (RefusesQuestion buffer.now) }
        ensures exact { IsNone result ↔ BeginsWithQuestion buffer.now }
    {
        match Question::read(buffer) {
            Ok(_) => None,
            Err(why) => Some(why),
        }
    }

    // The octets after the question at the front, and the question; or the first check that fails.
    #[inline(always)]
    fn read(buffer: &'a [u8]) -> Result<(&'a [u8], Question<'a>), Refusal>
        ensures sound { IfOk result (λ read. IsQuestion buffer.now (value_of read.1) read.0.now) }
        ensures told { IfErr result (RefusesQuestion buffer.now) }
    {
        let (name, after) = match read_part(buffer) {
            Ok(split) => split,
            Err(why) => return Err(Refusal::Name(why)),
        };
        if after.len() < field::END {
            return Err(Refusal::Short);
        }
        let class = after.u16_at(field::CLASS);
        if class != CLASS_IN {
            return Err(Refusal::Class(class));
        }
        let type_ = Type::from(after.u16_at(field::TYPE));
        Ok((&after[field::END..], Question { name, type_ }))
    }

    /// The bytes that the question takes: those of its name, and 4. Requires that they fit a `usize`.
    pub const fn buffer_len(&self) -> usize
        requires { text_len (value_of self.now) < 2 ^ 64 }
        ensures value { result ≡ text_len (value_of self.now) }
        ensures exact { result ≡ length (text (value_of self.now)) }
    {
        self.name.len() + field::END
    }

    /// Writes the question over the front of the octets; the other octets are unchanged. Requires as many octets as it
    /// takes.
    pub fn emit(&self, packet: &mut [u8])
        requires { text_len (value_of self.now) ≤ length packet.old }
        ensures { Emits (value_of self.now) packet.old packet.new }
    {
        self.write(packet);
    }

    // Writes the text of the question.
    #[tactic(auto, using(wirebase::proofs::Chains::chain))]
    fn write(&self, packet: &mut [u8])
        requires { text_len (value_of self.now) ≤ length packet.old }
        ensures { packet.new ≡ over packet.old (text (value_of self.now)) }
    {
        let mut w = ByteWriter::new(packet);
        self.put(&mut w);
    }

    // Writes each field of the question.
    pub(crate) fn put(&self, w: &mut ByteWriter<'_>)
        requires { text_len (value_of self.now) ≤ length (free w.old) }
        ensures { Puts w.old w.new (question_fields (value_of self.now)) }
    {
        w.put_bytes(self.name);
        put_pair(w, self.type_.into(), CLASS_IN);
    }

    /// Does nothing; its contract states, of two questions that a packet can hold, that equal texts mean equal
    /// questions, and conversely.
    pub fn same_text(a: &Self, b: &Self)
        ensures { SameText format (value_of a.now) (value_of b.now) }
    {}
}

/// Writes two numbers of two bytes, in one write, since each write costs code.
pub(crate) fn put_pair(w: &mut ByteWriter<'_>, first: u16, second: u16)
    requires { 4 ≤ length (free w.old) }
    ensures puts { Puts w.old w.new (be16 first ∷ be16 second ∷ []) }
    ensures room { length (free w.old) ≡ 4 + length (free w.new) }
{
    w.put_u32(0x1_0000 * first as u32 + second as u32);
}
