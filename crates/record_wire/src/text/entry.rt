//! Entries of a message with their names read, a line each.

ghost use Rattle.std.specs.Prelude.{◌≡◌, IfOk, IsOkAnd, IfErr};
ghost use Rattle.dns_wire.specs.DnsPacket.{view_octets};
ghost use Rattle.record_wire.specs.Entries as entries;
ghost use Rattle.record_wire.specs.Entries.{entry_of};
ghost use Rattle.record_wire.specs.EntryText.{EntryTextValue, entry_text_of, IsEntryText, RefusesEntryText};
ghost use Rattle.record_wire.specs.Record.{question_of, record_of};

use crate::entries::{Entry, Section};
use crate::multicast;
use crate::record::{Question, Record};
use crate::text::RecordText;
use crate::text::question::QuestionText;
use crate::text::refusal::TextRefusal;
use dns_wire::dns::Packet;
use std::{fmt, result};

/// A question or a record whose names are read, which prints its line: the section, the question or the record as a
/// zone file has it, or a comment for an OPT record, and a mark where its flag of multicast DNS is set. [`Entry::text`]
/// reads it. In entries that are equal names are compared without regard to the case of ASCII letters.
#[derive(PartialEq, Eq, Clone, Drop)]
pub enum EntryText<'a> {
    /// A question.
    Question {
        /// The question, with its name read.
        text: QuestionText,
        /// Whether its answer is wanted by the asker alone (RFC 6762 section 5.4); false where the message is not one
        /// of multicast DNS.
        wants_unicast: bool,
    },
    /// A record.
    Record {
        /// The section that the record is in.
        section: Section,
        /// The record, with its names read.
        text: RecordText<'a>,
        /// Whether caches are to drop the older records of its name, type and class (RFC 6762 section 10.2); false
        /// where the message is not one of multicast DNS.
        flushes_cache: bool,
    },
}

impl<'a> Entry<'a> {
    /// The entry with its names read, which prints its line. A message is one of multicast DNS where it came from or
    /// goes to port 5353 of UDP (RFC 6762 section 3), which its octets do not tell: the top bit of a class is a flag
    /// there (RFC 6762 sections 5.4 and 10.2), and a part of the class elsewhere. Refused where a name can't be read,
    /// that of a question as [`TextRefusal::Owner`], and where the data of a record is not laid out as its type has it.
    ///
    /// ```
    /// use record_wire::Entries;
    /// use control_wire::dns::Packet;
    ///
    /// // What a printer answers to a query of multicast DNS that asks for an answer to the asker alone.
    /// let octets = b"\0\0\x84\0\0\x01\0\x01\0\0\0\0\x07printer\x05local\0\0\x01\x80\x01\
    ///     \xc0\x0c\0\x01\x80\x01\0\0\0\x78\0\x04\xc0\0\x02\x07";
    /// let packet = Packet::new_checked(&octets[..])?;
    /// let mut lines = String::new();
    /// for entry in Entries::new(&packet) {
    ///     let text = entry?.text(&packet, true)?;
    ///     lines += &format!("{text}\n");
    /// }
    /// assert_eq!(
    ///     lines,
    ///     "question printer.local. IN A ; unicast-response\n\
    ///      answer printer.local. 120 IN A 192.0.2.7 ; cache-flush\n",
    /// );
    /// # Ok::<(), Box<dyn std::error::Error>>(())
    /// ```
    pub fn text(
        &self,
        packet: &Packet<&'a [u8]>,
        is_multicast: bool,
    ) -> result::Result<EntryText<'a>, TextRefusal>
        ensures sound { IfOk result (λ text. IsEntryText is_multicast (view_octets packet.now)
            (entry_of self.now) (entry_text_of text)) }
        ensures complete { (value : EntryTextValue)
            → IsEntryText is_multicast (view_octets packet.now) (entry_of self.now) value
            → IsOkAnd result (λ text. entry_text_of text ≡ value) }
        ensures told { IfErr result (λ refusal. RefusesEntryText is_multicast (view_octets packet.now)
            (entry_of self.now) refusal) }
    {
        match self {
            Entry::Question(question) => read_question(packet, question, is_multicast),
            Entry::Record(section, record) => read_record(packet, *section, record, is_multicast),
        }
    }
}

// A question with its name read, and its flag.
fn read_question<'a>(
    packet: &Packet<&'a [u8]>,
    question: &Question<'a>,
    is_multicast: bool,
) -> result::Result<EntryText<'a>, TextRefusal>
    ensures sound { IfOk result (λ text. IsEntryText is_multicast (view_octets packet.now)
        (entries.question (question_of question.now)) (entry_text_of text)) }
    ensures complete { (value : EntryTextValue)
        → IsEntryText is_multicast (view_octets packet.now) (entries.question (question_of question.now)) value
        → IsOkAnd result (λ text. entry_text_of text ≡ value) }
    ensures told { IfErr result (λ refusal. RefusesEntryText is_multicast (view_octets packet.now)
        (entries.question (question_of question.now)) refusal) }
{
    let wants_unicast = multicast::wants_unicast(is_multicast, question);
    match question.text_of_class(packet, multicast::question_class(is_multicast, question)) {
        Ok(text) => Ok(EntryText::Question {
            text,
            wants_unicast,
        }),
        Err(refusal) => Err(TextRefusal::Owner(refusal)),
    }
}

// A record with its names read, and its flag.
fn read_record<'a>(
    packet: &Packet<&'a [u8]>,
    section: Section,
    record: &Record<'a>,
    is_multicast: bool,
) -> result::Result<EntryText<'a>, TextRefusal>
    ensures sound { IfOk result (λ text. IsEntryText is_multicast (view_octets packet.now)
        (entries.record_in section (record_of «record».now)) (entry_text_of text)) }
    ensures complete { (value : EntryTextValue)
        → IsEntryText is_multicast (view_octets packet.now) (entries.record_in section (record_of «record».now)) value
        → IsOkAnd result (λ text. entry_text_of text ≡ value) }
    ensures told { IfErr result (λ refusal. RefusesEntryText is_multicast (view_octets packet.now)
        (entries.record_in section (record_of «record».now)) refusal) }
{
    let flushes_cache = multicast::flushes_cache(is_multicast, record);
    match record.text_of_class(packet, multicast::record_class(is_multicast, record)) {
        Ok(text) => Ok(EntryText::Record {
            section,
            text,
            flushes_cache,
        }),
        Err(refusal) => Err(refusal),
    }
}

/// The section, the question or the record as a zone file has it, and after it ` ; unicast-response` or ` ;
/// cache-flush` where its flag is set.
impl fmt::Display for EntryText<'_> {
    ghost use Rattle.std.specs.Prelude.{Some};
    ghost use Rattle.record_wire.specs.EntryText.{entry_text};

    ghost output = { λ entry. Some (entry_text (entry_text_of entry)) };

    fn fmt<W: fmt::Write>(&self, f: &mut fmt::Formatter<W>) -> fmt::Result {
        match self {
            EntryText::Question {
                text,
                wants_unicast,
            } => {
                if *wants_unicast {
                    return write!(f, "question {text} ; unicast-response");
                }
                write!(f, "question {text}")
            }
            EntryText::Record {
                section,
                text,
                flushes_cache,
            } => {
                if *flushes_cache {
                    return write!(f, "{section} {text} ; cache-flush");
                }
                write!(f, "{section} {text}")
            }
        }
    }
}
