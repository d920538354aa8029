//! The view of a DNS message.

ghost use Rattle.std.specs.Prelude.{◌≡◌, ◌<◌, ◌-◌, ◌↔◌, length, IsTrue, IsOk, IfOk};
ghost use Rattle.std.specs.Borrow.{sem, Lends, Array, u8 as byte};
ghost use Rattle.byteorder.specs.Endian.{big_bytes};
ghost use Rattle.wirebase.specs.Bytes.{splice, Reaches, number_of};
ghost use Rattle.wirebase.specs.View.{Sets, KeepsLen};
ghost use Rattle.dns_wire.specs.DnsTables.{opcode_number, opcode_of, rcode_of, flag_bits, IsKnown};
ghost use Rattle.dns_wire.specs.DnsPacket.{inner, with_inner, id_field, flags_field, question_count_field};
ghost use Rattle.dns_wire.specs.DnsPacket.{answer_count_field, authority_count_field, additional_count_field, header};
ghost use Rattle.dns_wire.specs.DnsPacket.{payload_in, flags_in, opcode_in, rcode_in, with_flags, with_opcode};
ghost use Rattle.dns_wire.specs.DnsNameWalk.{IsWalkOver};
ghost use Rattle.dns_wire.specs.contracts.dns.packet.Packet.{the_row};

use crate::dns::name::{self, NameIter};
use crate::dns::tables::{Flags, Opcode, Rcode};
use bitflags::Flags as _;
use wirebase::{Error, Octets, OctetsMut, Result};

// The fields of the header (RFC 1035 section 4.1.1); their picture is in specs/DnsPacket.antt.
mod field {
    use wirebase::Field;

    pub const ID: Field = 0..2;

    pub const FLAGS: Field = 2..4;

    pub const QUESTION_COUNT: Field = 4..6;

    pub const ANSWER_COUNT: Field = 6..8;

    pub const AUTHORITY_COUNT: Field = 8..10;

    pub const ADDITIONAL_COUNT: Field = 10..12;
}

/// The bytes of the header.
pub(crate) const HEADER_LEN: usize = 12;

// The bits of the word of flags that are flags, and those that are the kind of query.
const FLAG_BITS: u16 = 0x87b0;

const OPCODE_BITS: u16 = 0x7800;

const OPCODE_SHIFT: u32 = 11;

/// A view of the octets of a message. It prints its header.
///
/// ```
/// use control_wire::dns::Packet;
///
/// let octets = b"\x12\x34\x01\x00\x00\x01\x00\x00\x00\x00\x00\x00\x07example\x03com\x00\x00\x01\x00\x01";
/// let packet = Packet::new_checked(&octets[..])?;
/// assert_eq!(
///     packet.to_string(),
///     "DNS id=4660 opcode=QUERY flags=rd rcode=NOERROR questions=1 answers=0 authorities=0 additionals=0",
/// );
/// # Ok::<(), control_wire::Error>(())
/// ```
#[derive(Debug, Drop)]
pub struct Packet<T: Octets> {
    pub(crate) buffer: T,
}

impl<T: Octets> Packet<T> {
    /// Makes a view of `buffer`; its length is not checked.
    pub const fn new_unchecked(buffer: T) -> Packet<T>
        ensures { inner result ≡ buffer }
    {
        Packet { buffer }
    }

    /// Makes a view of `buffer`. Refused where it has fewer than 12 octets. On refusal the buffer is dropped: to keep a
    /// `&mut [u8]`, call `new_unchecked` and then `check_len`.
    pub fn new_checked(buffer: T) -> Result<Packet<T>>
        ensures accepts { IsOk result ↔ Reaches header (T.bytes buffer) }
        ensures buffer { IfOk result (λ view. inner view ≡ buffer) }
    {
        let packet = Packet::new_unchecked(buffer);
        packet.check_len()?;
        Ok(packet)
    }

    /// Accepts 12 octets or more. Then each accessor may be called.
    pub fn check_len(&self) -> Result<()>
        ensures accepts { IsOk result ↔ Reaches header (T.bytes (inner self.now)) }
    {
        if self.buffer.octets().len() < HEADER_LEN {
            return Err(Error);
        }
        Ok(())
    }

    /// Returns the buffer of the view.
    pub fn into_inner(self) -> T
        ensures { result ≡ inner self }
    {
        self.buffer
    }

    /// The number by which a response is matched to its query. Requires at least 2 bytes.
    pub fn transaction_id(&self) -> u16
        requires { Reaches id_field (T.bytes (inner self.now)) }
        ensures { result ≡ number_of id_field (T.bytes (inner self.now)) }
    {
        self.buffer.u16_at(field::ID)
    }

    /// The flags that have a name. Requires at least 4 bytes.
    #[tactic(auto, unfolding(bitflags::specs::Sets::known_from))]
    pub fn flags(&self) -> Flags
        requires { Reaches flags_field (T.bytes (inner self.now)) }
        ensures { flag_bits result ≡ flags_in (number_of flags_field (T.bytes (inner self.now))) }
    {
        Flags::from_bits_truncate(self.buffer.u16_at(field::FLAGS))
    }

    /// The kind of query. Requires at least 4 bytes.
    pub fn opcode(&self) -> Opcode
        requires { Reaches flags_field (T.bytes (inner self.now)) }
        ensures { result
            ≡ opcode_of (opcode_in (number_of flags_field (T.bytes (inner self.now)))) }
    {
        let word = self.buffer.u16_at(field::FLAGS);
        Opcode::from((word >> OPCODE_SHIFT & 0xf) as u8)
    }

    /// The outcome of the query. Requires at least 4 bytes.
    pub fn rcode(&self) -> Rcode
        requires { Reaches flags_field (T.bytes (inner self.now)) }
        ensures { result
            ≡ rcode_of (rcode_in (number_of flags_field (T.bytes (inner self.now)))) }
    {
        let word = self.buffer.u16_at(field::FLAGS);
        Rcode::from((word & 0xf) as u8)
    }

    /// How many questions there are. Requires at least 6 bytes.
    pub fn question_count(&self) -> u16
        requires { Reaches question_count_field (T.bytes (inner self.now)) }
        ensures { result ≡ number_of question_count_field (T.bytes (inner self.now)) }
    {
        self.buffer.u16_at(field::QUESTION_COUNT)
    }

    /// How many records answer. Requires at least 8 bytes.
    pub fn answer_record_count(&self) -> u16
        requires { Reaches answer_count_field (T.bytes (inner self.now)) }
        ensures { result ≡ number_of answer_count_field (T.bytes (inner self.now)) }
    {
        self.buffer.u16_at(field::ANSWER_COUNT)
    }

    /// How many records name an authority. Requires at least 10 bytes.
    pub fn authority_record_count(&self) -> u16
        requires { Reaches authority_count_field (T.bytes (inner self.now)) }
        ensures { result ≡ number_of authority_count_field (T.bytes (inner self.now)) }
    {
        self.buffer.u16_at(field::AUTHORITY_COUNT)
    }

    /// How many more records there are. Requires at least 12 bytes.
    pub fn additional_record_count(&self) -> u16
        requires { Reaches additional_count_field (T.bytes (inner self.now)) }
        ensures { result ≡ number_of additional_count_field (T.bytes (inner self.now)) }
    {
        self.buffer.u16_at(field::ADDITIONAL_COUNT)
    }

    /// The walk over the name that begins in `bytes`, a part of the message or not, and goes on where its pointers
    /// lead in the message (RFC 1035 section 4.1.4). The first pointer leads to any place of the message, and each
    /// later one to below the place that the one before it led to. Requires nothing of the message.
    #[inline]
    pub fn parse_name<'a>(&'a self, bytes: &'a [u8]) -> NameIter<'a>
        ensures { IsWalkOver bytes.entry.now (T.bytes (inner self.entry.now)) result }
    {
        name::walk(self.buffer.octets(), bytes)
    }
}

impl<'a> Packet<&'a [u8]> {
    /// The questions and records, for as long as the octets live. Requires at least 12 bytes.
    pub fn payload(&self) -> &'a [u8]
        requires { Reaches header (inner self.now).now }
        ensures { result.now ≡ payload_in (inner self.now).now }
    {
        &self.buffer[HEADER_LEN..]
    }
}

impl<T: OctetsMut> Packet<T> {
    /// Writes the number by which a response is matched to its query. Requires at least 2 bytes.
    pub fn set_transaction_id(&mut self, value: u16)
        requires { Reaches id_field (T.bytes (inner self.old)) }
        ensures writes { Sets inner T.bytes T.put self.old self.new id_field (big_bytes 2 value) }
        ensures len { KeepsLen inner T.bytes self.old self.new }
    {
        self.buffer.set_u16(field::ID, value);
    }

    /// Writes the flags; the kind of query, the outcome and the bit that has no name stay. Requires at least 4 bytes,
    /// and flags that have a name.
    pub fn set_flags(&mut self, value: Flags)
        requires known { IsKnown (flag_bits value) }
        requires room { Reaches flags_field (T.bytes (inner self.old)) }
        ensures writes { Sets inner T.bytes T.put self.old self.new flags_field
            (big_bytes 2 (with_flags (number_of flags_field (T.bytes (inner self.old)))
            (flag_bits value))) }
        ensures len { KeepsLen inner T.bytes self.old self.new }
    {
        let word = self.buffer.u16_at(field::FLAGS);
        self.buffer
            .set_u16(field::FLAGS, (word & !FLAG_BITS) | value.bits());
    }

    /// Writes the kind of query; the flags and the outcome stay. Requires at least 4 bytes, and a number below 16.
    pub fn set_opcode(&mut self, value: Opcode)
        requires four_bits { opcode_number value < 16 }
        requires room { Reaches flags_field (T.bytes (inner self.old)) }
        ensures writes { Sets inner T.bytes T.put self.old self.new flags_field
            (big_bytes 2 (with_opcode (number_of flags_field (T.bytes (inner self.old)))
            (opcode_number value))) }
        ensures len { KeepsLen inner T.bytes self.old self.new }
    {
        let word = self.buffer.u16_at(field::FLAGS);
        let opcode = u8::from(value) as u16;
        self.buffer.set_u16(field::FLAGS, (word & !OPCODE_BITS) | opcode << OPCODE_SHIFT);
    }

    /// Writes how many questions there are. Requires at least 6 bytes.
    pub fn set_question_count(&mut self, value: u16)
        requires { Reaches question_count_field (T.bytes (inner self.old)) }
        ensures writes { Sets inner T.bytes T.put self.old self.new
            question_count_field (big_bytes 2 value) }
        ensures len { KeepsLen inner T.bytes self.old self.new }
    {
        self.buffer.set_u16(field::QUESTION_COUNT, value);
    }

    /// Writes how many records answer. Requires at least 8 bytes.
    pub fn set_answer_record_count(&mut self, value: u16)
        requires { Reaches answer_count_field (T.bytes (inner self.old)) }
        ensures writes { Sets inner T.bytes T.put self.old self.new
            answer_count_field (big_bytes 2 value) }
        ensures len { KeepsLen inner T.bytes self.old self.new }
    {
        self.buffer.set_u16(field::ANSWER_COUNT, value);
    }

    /// Writes how many records name an authority. Requires at least 10 bytes.
    pub fn set_authority_record_count(&mut self, value: u16)
        requires { Reaches authority_count_field (T.bytes (inner self.old)) }
        ensures writes { Sets inner T.bytes T.put self.old self.new
            authority_count_field (big_bytes 2 value) }
        ensures len { KeepsLen inner T.bytes self.old self.new }
    {
        self.buffer.set_u16(field::AUTHORITY_COUNT, value);
    }

    /// Writes how many more records there are. Requires at least 12 bytes.
    pub fn set_additional_record_count(&mut self, value: u16)
        requires { Reaches additional_count_field (T.bytes (inner self.old)) }
        ensures writes { Sets inner T.bytes T.put self.old self.new
            additional_count_field (big_bytes 2 value) }
        ensures len { KeepsLen inner T.bytes self.old self.new }
    {
        self.buffer.set_u16(field::ADDITIONAL_COUNT, value);
    }

    /// Lends the questions and records for writing; the header is unchanged. Requires at least 12 bytes.
    #[tactic(auto, using(wirebase::proofs::Pieces::pieces))]
    pub fn payload_mut(&mut self) -> &mut [u8]
        requires { Reaches header (T.bytes (inner self.old)) }
        ensures* lends { sem 𝓛 (Lends (the_row T.row) (Array byte 0) self.entry result
            (λ w. with_inner self.old (T.put (inner self.old)
            (splice (T.bytes (inner self.old)) 12 (length (T.bytes (inner self.old))) w)))) }
        ensures value { result.now ≡ payload_in (T.bytes (inner self.old)) }
        ensures len { length result.now ≡ length (T.bytes (inner self.old)) - 12 }
    {
        let len = self.buffer.octets().len();
        self.buffer.range_mut(HEADER_LEN, len)
    }
}

/// Views are equal where their octets are equal.
impl<T: Octets> PartialEq for Packet<T> {
    ghost use Rattle.std.specs.Prelude.{◌==◌};
    ghost use Rattle.std.proofs.Common.{rules};
    ghost use Rattle.std.specs.Cmp.Lexicographic.{pointwise};
    ghost use Rattle.std.specs.Cmp.Rules.{comparing};
    ghost use Rattle.std.specs.Ordering.{on};

    ghost eq = { on (λ view. T.bytes (inner view)) (pointwise ◌==◌) };

    ghost laws = { Prim.search (comparing, rules) };

    fn eq(&self, other: &Packet<T>) -> bool
        ensures { IsTrue result ↔ (T.bytes (inner self.now) ≡ T.bytes (inner other.now)) }
    {
        self.buffer.octets() == other.buffer.octets()
    }
}

impl<T: Octets> Eq for Packet<T> {
    ghost use Rattle.std.proofs.Common.{rules};
    ghost use Rattle.std.specs.Cmp.Rules.{comparing};

    ghost laws = { Prim.search (comparing, rules) };
}
