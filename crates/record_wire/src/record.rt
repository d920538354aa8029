//! Questions and resource records of any type and class (RFC 1035 sections 4.1.2 and 4.1.3).

ghost use Rattle.std.specs.Prelude.{◌≡◌, ◌↔◌, ℕ, List, IfOk, IsOkAnd, IfSome, IsNone};
ghost use Rattle.record_wire.specs.Record.{QuestionValue, question_of, IsQuestion, RecordValue, record_of, IsRecord};
ghost use Rattle.record_wire.specs.Record.{IsBehindName};
ghost use Rattle.record_wire.specs.RData.{RDataValue, rdata_of, IsRData};
ghost use Rattle.record_wire.specs.Multicast.{class_of, has_top_bit, record_class_of, flushes};
ghost use Rattle.record_wire.specs.RecordRefusal.{RefusesQuestion, RefusesRecord, HasQuestion, HasRecord};

use crate::classes::ClassName;
use crate::multicast;
use crate::rdata::RData;
use crate::refusal::{Refusal, why_no_part};
use dns_wire::dns::{Type, split_name};
use std::fmt;
use wirebase::{Error, Octets, Result};

// What follows the name of a question and of a record; the picture is in specs/Record.antt.
mod field {
    use wirebase::Field;

    pub const TYPE: Field = 0..2;

    pub const CLASS: Field = 2..4;

    pub const QUESTION_END: usize = 4;

    pub const TTL: Field = 4..8;

    pub const LENGTH: Field = 8..10;

    pub const RECORD_END: usize = 10;
}

/// A question: the records of one type and class at a name (RFC 1035 section 4.1.2).
///
/// ```
/// use record_wire::Question;
/// use control_wire::dns::Type;
///
/// let (rest, question) = Question::parse(b"\x03www\0\0\x1c\0\x01rest")?;
/// assert_eq!((question.type_, question.class), (Type::Aaaa, 1));
/// assert_eq!(rest, b"rest");
/// # Ok::<(), control_wire::Error>(())
/// ```
#[derive(Debug, PartialEq, Eq, Clone, Copy)]
pub struct Question<'a> {
    /// The name as it is written: labels of 1 to 63 bytes, each after its length, and then byte 0 or a pointer.
    pub name: &'a [u8],
    /// The type of the records.
    pub type_: Type,
    /// The class of the records: 1 is the internet, 255 any. In multicast DNS its top bit is a flag:
    /// [`Question::multicast_class`] is the class, [`Question::wants_unicast`] the flag.
    pub class: u16,
}

impl<'a> Question<'a> {
    /// Parses the question at the start of the octets; returns the rest and the question. Refused where they do not
    /// begin with a name of one part, a type and a class.
    #[inline]
    pub fn parse(octets: &'a [u8]) -> Result<(&'a [u8], Question<'a>)>
        ensures sound { IfOk result (λ read. IsQuestion octets.now (question_of read.1) read.0.now) }
        ensures complete { (value : QuestionValue) (rest : List ℕ) → IsQuestion octets.now value rest
            → IsOkAnd result (λ read. (question_of read.1 ≡ value) × (read.0.now ≡ rest)) }
    {
        let (name, after) = split_name(octets)?;
        if after.len() < field::QUESTION_END {
            return Err(Error);
        }
        let question = Question {
            name,
            type_: Type::from(after.u16_at(field::TYPE)),
            class: after.u16_at(field::CLASS),
        };
        Ok((&after[field::QUESTION_END..], question))
    }

    /// Why [`Question::parse`] refuses these octets, by the check that fails first; None where it reads them.
    pub fn refusal(octets: &[u8]) -> Option<Refusal>
        ensures told { IfSome result (λ refusal. RefusesQuestion octets.now refusal) }
        ensures exact { IsNone result ↔ HasQuestion octets.now }
    {
        let (_, after) = match split_name(octets) {
            Ok(split) => split,
            Err(_) => return Some(Refusal::Name(why_no_part(octets))),
        };
        if after.len() < field::QUESTION_END {
            return Some(Refusal::Fields);
        }
        None
    }

    /// Whether a question of multicast DNS wants its answer sent to the asker alone: the top bit of its class (RFC 6762
    /// section 5.4).
    pub fn wants_unicast(&self) -> bool
        ensures { result ≡ has_top_bit self.now.class }
    {
        multicast::has_top_bit(self.class)
    }

    /// The class of a question of multicast DNS, without the top bit (RFC 6762 section 5.4): 1 is the internet.
    pub fn multicast_class(&self) -> u16
        ensures { result ≡ class_of self.now.class }
    {
        multicast::class_of(self.class)
    }
}

/// The length of the name, the type and the class.
impl fmt::Display for Question<'_> {
    ghost use Rattle.std.specs.Prelude.{Some};
    ghost use Rattle.record_wire.specs.RecordDisplay.{question_display};

    ghost output = { λ question. Some (question_display (question_of question)) };

    fn fmt<W: fmt::Write>(&self, f: &mut fmt::Formatter<W>) -> fmt::Result {
        let name_len = self.name.len();
        let type_ = self.type_;
        let class = ClassName(self.class);
        write!(f, "question name_len={name_len} type={type_} class={class}")
    }
}

/// A resource record of any type and class, also of one that belongs to the message and to no name, as OPT (RFC 6891
/// section 6.1).
///
/// ```
/// use record_wire::Record;
/// use control_wire::dns::Type;
///
/// let octets = b"\x03www\0\0\x01\0\x01\0\0\0\x3c\0\x04\xc0\0\x02\x01";
/// let (rest, record) = Record::parse(octets)?;
/// assert_eq!((record.type_, record.ttl), (Type::A, 60));
/// assert_eq!(record.data, [192, 0, 2, 1]);
/// assert!(rest.is_empty());
/// # Ok::<(), control_wire::Error>(())
/// ```
#[derive(Debug, PartialEq, Eq, Clone, Copy)]
pub struct Record<'a> {
    /// The name as it is written: labels of 1 to 63 bytes, each after its length, and then byte 0 or a pointer.
    pub name: &'a [u8],
    /// The type of the data.
    pub type_: Type,
    /// The class: 1 is the internet. An OPT record has the sender's payload size here. In multicast DNS its top bit is
    /// a flag: [`Record::multicast_class`] is the class, [`Record::flushes_cache`] the flag.
    pub class: u16,
    /// The time for which the record may be kept, in seconds. An OPT record has flags here.
    pub ttl: u32,
    /// The bytes of the data.
    pub data: &'a [u8],
}

impl<'a> Record<'a> {
    /// Parses the record at the start of the octets; returns the rest and the record. Refused where they do not begin
    /// with a name of one part, a type, a class, a time to live, a length and that many bytes of data.
    #[inline]
    pub fn parse(octets: &'a [u8]) -> Result<(&'a [u8], Record<'a>)>
        ensures sound { IfOk result (λ read. IsRecord octets.now (record_of read.1) read.0.now) }
        ensures complete { (value : RecordValue) (rest : List ℕ) → IsRecord octets.now value rest
            → IsOkAnd result (λ read. (record_of read.1 ≡ value) × (read.0.now ≡ rest)) }
    {
        let (name, after) = split_name(octets)?;
        Record::read_behind(name, after)
    }

    /// Why [`Record::parse`] refuses these octets, by the check that fails first; None where it reads them.
    pub fn refusal(octets: &[u8]) -> Option<Refusal>
        ensures told { IfSome result (λ refusal. RefusesRecord octets.now refusal) }
        ensures exact { IsNone result ↔ HasRecord octets.now }
    {
        let (_, after) = match split_name(octets) {
            Ok(split) => split,
            Err(_) => return Some(Refusal::Name(why_no_part(octets))),
        };
        if after.len() < field::RECORD_END {
            return Some(Refusal::Fields);
        }
        let len = after.u16_at(field::LENGTH) as usize;
        if after[field::RECORD_END..].len() < len {
            return Some(Refusal::Data);
        }
        None
    }

    /// The data by the record's type and class. Refused where the bytes are not laid out as the type has it. For a
    /// record of multicast DNS, [`Record::multicast_rdata`] gives it.
    pub fn rdata(&self) -> Result<RData<'a>>
        ensures sound { IfOk result (λ read.
            IsRData self.now.type_ self.now.class self.now.«data».now (rdata_of read)) }
        ensures complete { (value : RDataValue)
            → IsRData self.now.type_ self.now.class self.now.«data».now value
            → IsOkAnd result (λ read. rdata_of read ≡ value) }
    {
        RData::parse(self.type_, self.class, self.data)
    }

    /// The data of a record of multicast DNS, by its type and its class without the top bit. Refused where the bytes
    /// are not laid out as the type has it.
    pub fn multicast_rdata(&self) -> Result<RData<'a>>
        ensures sound { IfOk result (λ read.
            IsRData self.now.type_ (class_of self.now.class) self.now.«data».now (rdata_of read)) }
        ensures complete { (value : RDataValue)
            → IsRData self.now.type_ (class_of self.now.class) self.now.«data».now value
            → IsOkAnd result (λ read. rdata_of read ≡ value) }
    {
        RData::parse_multicast(self.type_, self.class, self.data)
    }

    /// Whether a record of multicast DNS tells caches to drop the older records of its name, type and class: the top
    /// bit of its class (RFC 6762 section 10.2). An OPT record has no such bit, and does not.
    pub fn flushes_cache(&self) -> bool
        ensures { result ≡ flushes self.now.type_ self.now.class }
    {
        !multicast::is_opt(self.type_) && multicast::has_top_bit(self.class)
    }

    /// The class of a record of multicast DNS, without the top bit (RFC 6762 section 10.2): 1 is the internet. The
    /// payload size of an OPT record is left as it is.
    pub fn multicast_class(&self) -> u16
        ensures { result ≡ record_class_of self.now.type_ self.now.class }
    {
        if multicast::is_opt(self.type_) {
            return self.class;
        }
        multicast::class_of(self.class)
    }

    // Parses what follows a record's name; returns the rest and the record.
    fn read_behind(name: &'a [u8], after: &'a [u8]) -> Result<(&'a [u8], Record<'a>)>
        ensures sound { IfOk result (λ read.
            IsBehindName after.now (record_of read.1) read.0.now) }
        ensures name { IfOk result (λ read. read.1.name.now ≡ name.now) }
        ensures complete { (value : RecordValue) (rest : List ℕ)
            → IsBehindName after.now value rest → value.name ≡ name.now
            → IsOkAnd result (λ read. (record_of read.1 ≡ value) × (read.0.now ≡ rest)) }
    {
        if after.len() < field::RECORD_END {
            return Err(Error);
        }
        let len = after.u16_at(field::LENGTH) as usize;
        let behind = &after[field::RECORD_END..];
        if behind.len() < len {
            return Err(Error);
        }
        let record = Record {
            name,
            type_: Type::from(after.u16_at(field::TYPE)),
            class: after.u16_at(field::CLASS),
            ttl: after.u32_at(field::TTL),
            data: &behind[..len],
        };
        Ok((&behind[len..], record))
    }
}

/// The length of the name, the type, the class, the time to live and the length of the data.
impl fmt::Display for Record<'_> {
    ghost use Rattle.std.specs.Prelude.{Some};
    ghost use Rattle.record_wire.specs.RecordDisplay.{record_display};

    ghost output = { λ r. Some (record_display (record_of r)) };

    fn fmt<W: fmt::Write>(&self, f: &mut fmt::Formatter<W>) -> fmt::Result {
        let name_len = self.name.len();
        let type_ = self.type_;
        let class = ClassName(self.class);
        let len = self.data.len();
        write!(
            f,
            "record name_len={name_len} type={type_} class={class} ttl={} len={len}",
            self.ttl
        )
    }
}
