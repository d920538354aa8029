//! The questions and records after a message's header, in order (RFC 1035 section 4.1).

ghost use Rattle.std.specs.Prelude.{◌≡◌, ◌↔◌, true, ℕ, List, IfOk, IsOkAnd, IfSome, IsSome, IsNone};
ghost use Rattle.dns_wire.specs.DnsPacket.{view_octets, header};
ghost use Rattle.wirebase.specs.Bytes.{Reaches};
ghost use Rattle.record_wire.specs.Entries.{EntryValue, entry_of, IsEntry, section_at, RefusesEntry};
ghost use Rattle.record_wire.specs.private.Entries.{HasEntry};

use crate::record::{Question, Record};
use crate::refusal::Refusal;
use dns_wire::dns::Packet;
use std::fmt;
use std::marker::Model;
use wirebase::Result;

/// A section of a message.
#[derive(Debug, PartialEq, Eq, Hash, Clone, Copy)]
pub enum Section {
    /// The questions.
    Question,
    /// The records that answer.
    Answer,
    /// The records that name an authority.
    Authority,
    /// The records that add to the others, and OPT.
    Additional,
}

/// The section's name.
impl fmt::Display for Section {
    ghost use Rattle.std.specs.Prelude.{Some};
    ghost use Rattle.record_wire.specs.RecordDisplay.{section_display};

    ghost output = { λ section. Some (section_display section) };

    fn fmt<W: fmt::Write>(&self, f: &mut fmt::Formatter<W>) -> fmt::Result {
        f.write_str(match self {
            Section::Question => "question",
            Section::Answer => "answer",
            Section::Authority => "authority",
            Section::Additional => "additional",
        })
    }
}

/// A question or a record of a message.
#[derive(Debug, PartialEq, Eq, Clone, Copy)]
pub enum Entry<'a> {
    /// A question.
    Question(Question<'a>),
    /// A record, and the section that it is in.
    Record(Section, Record<'a>),
}

/// The question, or the section and the record.
impl fmt::Display for Entry<'_> {
    ghost use Rattle.std.specs.Prelude.{Some};
    ghost use Rattle.record_wire.specs.RecordDisplay.{entry_display};

    ghost output = { λ entry. Some (entry_display (entry_of entry)) };

    fn fmt<W: fmt::Write>(&self, f: &mut fmt::Formatter<W>) -> fmt::Result {
        match self {
            Entry::Question(question) => write!(f, "{question}"),
            Entry::Record(section, record) => write!(f, "{section} {record}"),
        }
    }
}

/// The questions and the records of a message in turn, as many as its header counts. At octets that do not begin with
/// the next entry it returns one refusal, and then always None. After a refusal, [`Entries::refusal`] gives the reason,
/// and [`Entries::rest`] the bytes that were refused.
///
/// ```
/// use record_wire::{Entries, Entry};
/// use control_wire::dns::Packet;
///
/// // A buffer of the caller's own: a view of a slice of it is what is read.
/// let message: Vec<u8> = b"\0\x01\0\0\0\x01\0\0\0\0\0\0\x03www\0\0\x01\0\x01".to_vec();
/// let packet = Packet::new_checked(&message[..])?;
/// let mut entries = Entries::new(&packet);
/// assert!(matches!(entries.next(), Some(Ok(Entry::Question(_)))));
/// assert!(entries.next().is_none());
/// # Ok::<(), control_wire::Error>(())
/// ```
#[derive(Debug, Clone, Drop)]
pub struct Entries<'a> {
    // The number of entries up to the end of each section.
    questions: u32,
    answers: u32,
    authorities: u32,
    all: u32,
    // The number of entries that were returned.
    taken: u32,
    // Whether the next one was refused.
    is_refused: bool,
    // The bytes after the entries that were returned.
    bytes: &'a [u8],
}

impl<'a> Model for Entries<'a> {
    ghost use Rattle.record_wire.specs.Entries.{Left};
    ghost use Rattle.record_wire.specs.private.Entries.{IsSettled};

    ghost Value = { Left };

    ghost view = { λ it. record {
      ends = record {
        questions = it.questions;
        answers = it.answers;
        authorities = it.authorities;
        all = it.all;
      };
      taken = it.taken;
      refused = it.is_refused;
      bytes = it.bytes.now;
    } };

    ghost invariant = { λ it. IsSettled (record {
      ends = record {
        questions = it.questions;
        answers = it.answers;
        authorities = it.authorities;
        all = it.all;
      };
      taken = it.taken;
      refused = it.is_refused;
      bytes = it.bytes.now;
    }) };
}

impl<'a> Entries<'a> {
    ghost use Rattle.record_wire.specs.Entries.{all_of};
    ghost use Rattle.record_wire.specs.private.Entries.{is_left};

    /// The questions and the records of this message. Requires at least 12 bytes, which `Packet::new_checked` verifies.
    /// The entries borrow the octets, so the view must be of a slice: for a `Vec<u8>` or an array,
    /// `Packet::new_checked(&buffer[..])`.
    pub fn new(packet: &Packet<&'a [u8]>) -> Entries<'a>
        requires { Reaches header (view_octets packet.now) }
        ensures { result ≡ all_of (view_octets packet.entry.now) }
    {
        let questions = packet.question_count() as u32;
        let answers = questions + packet.answer_record_count() as u32;
        let authorities = answers + packet.authority_record_count() as u32;
        Entries {
            questions,
            answers,
            authorities,
            all: authorities + packet.additional_record_count() as u32,
            taken: 0,
            is_refused: false,
            bytes: packet.payload(),
        }
    }

    /// The refused entry: its section, and why none begins there, by the check that fails first. None before a refusal.
    pub fn refusal(&self) -> Option<(Section, Refusal)>
        ensures place { IfSome result (λ why. why.0 ≡ section_at self.now.ends self.now.taken) }
        ensures told { IfSome result (λ why. RefusesEntry why.0 self.now.bytes why.1) }
        ensures exact { IsSome result ↔ (self.now.refused ≡ true) }
    {
        if !self.is_refused {
            return None;
        }
        let section = self.section();
        let refusal = why_no_entry(section, self.bytes)?;
        Some((section, refusal))
    }

    /// The bytes after the entries that were returned: where the next one begins, or the one that was refused. After
    /// the last entry, the bytes after the message's records.
    pub fn rest(&self) -> &'a [u8]
        ensures { result.now ≡ self.now.bytes }
    {
        self.bytes
    }

    // Whether an entry is left.
    fn is_left(&self) -> bool
        ensures { result ≡ is_left self.now }
    {
        !self.is_refused && self.taken < self.all
    }

    // The section of the next entry.
    fn section(&self) -> Section
        ensures { result ≡ section_at self.now.ends self.now.taken }
    {
        if self.taken < self.questions {
            return Section::Question;
        }
        if self.taken < self.answers {
            return Section::Answer;
        }
        if self.taken < self.authorities {
            return Section::Authority;
        }
        Section::Additional
    }
}

impl<'a> Iterator for Entries<'a> {
    ghost use Rattle.std.specs.Iterator.{at_most};
    ghost use Rattle.record_wire.specs.Entries.{GivesEntry};
    ghost use Rattle.record_wire.specs.private.Entries.{are_left};

    type Item = Result<Entry<'a>>;

    ghost next_gives = { GivesEntry };

    ghost remaining = { λ left. at_most (are_left left) };

    fn next(&mut self) -> Option<Result<Entry<'a>>> {
        if !self.is_left() {
            return None;
        }
        match read_entry(self.section(), self.bytes) {
            Ok((rest, entry)) => {
                self.taken += 1;
                self.bytes = rest;
                Some(Ok(entry))
            }
            Err(error) => {
                self.is_refused = true;
                Some(Err(error))
            }
        }
    }
}

// Parses the entry of a section; returns the rest and the entry.
fn read_entry(section: Section, bytes: &[u8]) -> Result<(&[u8], Entry<'_>)>
    ensures sound { IfOk result (λ read. IsEntry section bytes.now (entry_of read.1) read.0.now) }
    ensures complete { (value : EntryValue) (rest : List ℕ) → IsEntry section bytes.now value rest
        → IsOkAnd result (λ read. (entry_of read.1 ≡ value) × (read.0.now ≡ rest)) }
{
    if section == Section::Question {
        let (rest, question) = Question::parse(bytes)?;
        return Ok((rest, Entry::Question(question)));
    }
    let (rest, record) = Record::parse(bytes)?;
    Ok((rest, Entry::Record(section, record)))
}

// Why octets begin with no entry of a section; None where one begins there.
fn why_no_entry(section: Section, bytes: &[u8]) -> Option<Refusal>
    ensures told { IfSome result (λ refusal. RefusesEntry section bytes.now refusal) }
    ensures exact { IsNone result ↔ HasEntry section bytes.now }
{
    if section == Section::Question {
        return Question::refusal(bytes);
    }
    Record::refusal(bytes)
}
