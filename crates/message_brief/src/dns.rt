//! Brief lines of DNS (RFC 1035 section 4.1), multicast DNS (RFC 6762), LLMNR (RFC 4795) and the NetBIOS name service
//! (RFC 1002 section 4.2): the transaction, what is asked, and the first answer.

#![tactic(auto, using(wirebase::proofs::Sinks::puts, wirebase::proofs::Sinks::put_none))]

ghost use Rattle.std.specs.Prelude.{◌≡◌, ◌==◌, ◌&&◌, ◌-◌, IfOk, codes};
ghost use Rattle.std.specs.Option.{option_map};
ghost use Rattle.wirebase.specs.Bytes.{Reaches};
ghost use Rattle.wirebase.specs.Sink.{PutsText};
ghost use Rattle.dns_wire.specs.DnsPacket.{header as header_field, opcode_in, rcode_in};
ghost use Rattle.dns_wire.specs.DnsTables.{type_number};
ghost use Rattle.record_wire.specs.Name.{labels_of};
ghost use Rattle.record_wire.specs.RecordText.{data_text, data_text_of};
ghost use Rattle.packet_fields.specs.Labels.{label_text};
ghost use Rattle.packet_fields.specs.Names.{name_in};
ghost use Rattle.packet_fields.specs.Output.{GainsSome};
ghost use Rattle.dns_fields.specs.Header.{opcode_rows, rcode_rows};
ghost use Rattle.message_brief.specs.Dns.{DnsIs, answer_text, answers_in_full, asked_text, asks_in_full, brief_data};
ghost use Rattle.message_brief.specs.Dns.{front_text, id_text, is_query, lead_text, long_or, opcode_text, other_type};
ghost use Rattle.message_brief.specs.Dns.{query_text, rcode_text, response_text, truncated_text, word_text};
ghost use Rattle.message_brief.specs.private.DnsValues.{answered_of, asked_of};

mod found;

use crate::words::{Number, put_more, put_word};
use dns_fields::header::{opcode_name, opcode_of, rcode_name, rcode_of, word_of};
use dns_fields::kind::{Kind, NameOf, TypeOf};
use dns_wire::dns::{Packet, Type};
use found::{Answer, Question, answer_in, question_in};
use packet_fields::label::Label;
use packet_fields::output::ToWriter;
use packet_fields::value::Text;
use record_wire::{DataText, Name};
use std::io;
use std::io::Write;
use wirebase::Octets;
use wirebase::text::{Sink, put_number};

// The fields of the header; their picture is in specs/DnsPacket.antt of dns_wire.
mod field {
    use wirebase::Field;

    pub const ID: Field = 0..2;

    pub const QUESTIONS: Field = 4..6;

    pub const ANSWERS: Field = 6..8;
}

// The flags QR, which is clear in a query, and TC.
const RESPONSE: u16 = 0x8000;

const TRUNCATED: u16 = 0x0200;

// The most octets of strings that are put, and of data that are not told apart.
const MOST_STRINGS: usize = 64;

const MOST_OCTETS: usize = 32;

/// Prints what a message says, and returns whether all of that reads.
pub(crate) fn put_dns<W: Write>(output: &mut W, kind: Kind, octets: &[u8]) -> io::Result<bool>
    ensures { IfOk result (λ whole. GainsSome (W.contents output.old) (W.contents output.new)
        (λ text. DnsIs kind octets.now text whole)) }
{
    let Ok(packet) = Packet::new_checked(octets) else {
        return Ok(false);
    };
    let asked = question_in(&packet);
    put_front::<W, ToWriter>(output, kind, octets)?;
    if is_query(word_of(octets)) {
        put_query::<W, ToWriter>(output, kind, &asked, octets.u16_at(field::QUESTIONS))?;
        return Ok(asked.is_read());
    }
    let answer = answer_in(kind, &packet);
    put_response::<W, ToWriter>(output, kind, &asked, &answer, octets.u16_at(field::ANSWERS))?;
    Ok(are_read(&asked, &answer))
}

fn are_read(asked: &Question, answer: &Answer<'_>) -> bool
    ensures { result ≡ (asks_in_full (asked_of asked.now) && answers_in_full (answered_of answer.now)) }
{
    asked.is_read() && answer.is_read()
}

fn is_query(word: u16) -> bool
    ensures { result ≡ is_query word }
{
    word < RESPONSE
}

// Puts the transaction, and what the flags say.
fn put_front<O, S: Sink<O>>(output: &mut O, kind: Kind, octets: &[u8]) -> Result<(), S::Error>
    requires { Reaches header_field octets.now }
    ensures { PutsText S.took output.old (front_text kind octets.now) result output.new }
{
    let word = word_of(octets);
    put_id::<O, S>(output, octets.u16_at(field::ID), is_query(word))?;
    put_flags::<O, S>(output, kind, word)
}

fn put_id<O, S: Sink<O>>(output: &mut O, id: u16, asks: bool) -> Result<(), S::Error>
    ensures { PutsText S.took output.old (id_text id asks) result output.new }
{
    put_word::<O, S, Number>(output, Number(id as u64))?;
    S::put_str(output, if asks { "?" } else { "" })
}

fn put_flags<O, S: Sink<O>>(output: &mut O, kind: Kind, word: u16) -> Result<(), S::Error>
    ensures { PutsText S.took output.old (word_text kind word) result output.new }
{
    put_opcode::<O, S>(output, kind, word)?;
    put_rcode::<O, S>(output, kind, word)?;
    put_truncated::<O, S>(output, word)
}

// Puts the kind of query, but for the usual one.
fn put_opcode<O, S: Sink<O>>(output: &mut O, kind: Kind, word: u16) -> Result<(), S::Error>
    ensures { PutsText S.took output.old (opcode_text kind word) result output.new }
{
    if opcode_of(word) == 0 {
        return Ok(());
    }
    put_word::<O, S, Label<'_>>(output, opcode_label(kind, word))
}

fn opcode_label(kind: Kind, word: u16) -> Label<'static>
    ensures { label_text (option_map (λ name. name.now) result.name) result.kind.now result.number
        ≡ label_text (name_in (opcode_rows kind) (opcode_in word)) (codes "opcode") (opcode_in word) }
{
    Label {
        name: opcode_name(kind, word),
        kind: "opcode",
        number: opcode_of(word) as u8,
    }
}

// Puts the outcome, which a query does not have.
fn put_rcode<O, S: Sink<O>>(output: &mut O, kind: Kind, word: u16) -> Result<(), S::Error>
    ensures { PutsText S.took output.old (rcode_text kind word) result output.new }
{
    if is_query(word) {
        return Ok(());
    }
    put_word::<O, S, Label<'_>>(output, rcode_label(kind, word))
}

fn rcode_label(kind: Kind, word: u16) -> Label<'static>
    ensures { label_text (option_map (λ name. name.now) result.name) result.kind.now result.number
        ≡ label_text (name_in (rcode_rows kind) (rcode_in word)) (codes "rcode") (rcode_in word) }
{
    Label {
        name: rcode_name(kind, word),
        kind: "rcode",
        number: rcode_of(word) as u8,
    }
}

// Puts that a message was truncated, where it was.
fn put_truncated<O, S: Sink<O>>(output: &mut O, word: u16) -> Result<(), S::Error>
    ensures { PutsText S.took output.old (truncated_text word) result output.new }
{
    if word & TRUNCATED == 0 {
        return Ok(());
    }
    put_word::<O, S, &str>(output, "tc")
}

// Puts the first of so many questions.
fn put_query<O, S: Sink<O>>(
    output: &mut O,
    kind: Kind,
    asked: &Question,
    count: u16,
) -> Result<(), S::Error>
    ensures { PutsText S.took output.old (query_text kind (asked_of asked.now) count) result output.new }
{
    put_asked::<O, S>(output, kind, asked)?;
    if !asked.is_read() {
        return Ok(());
    }
    put_more::<O, S>(output, others(count))
}

// How many others there are beside the first of so many.
fn others(count: u16) -> u64
    ensures { result ≡ count - 1 }
{
    count.saturating_sub(1) as u64
}

// Puts what is asked, as far as it reads.
fn put_asked<O, S: Sink<O>>(output: &mut O, kind: Kind, asked: &Question) -> Result<(), S::Error>
    ensures { PutsText S.took output.old (asked_text kind (asked_of asked.now)) result output.new }
{
    match asked {
        Question::Named(type_, name) => {
            put_word::<O, S, TypeOf>(output, TypeOf(kind, *type_))?;
            put_word::<O, S, NameOf<'_>>(output, NameOf(kind, name))
        }
        Question::Unnamed(type_) => put_word::<O, S, TypeOf>(output, TypeOf(kind, *type_)),
        Question::Nothing | Question::Unread => Ok(()),
    }
}

// Puts what is asked, and the first of so many answers.
fn put_response<O, S: Sink<O>>(
    output: &mut O,
    kind: Kind,
    asked: &Question,
    answer: &Answer<'_>,
    count: u16,
) -> Result<(), S::Error>
    ensures { PutsText S.took output.old
        (response_text kind (asked_of asked.now) (answered_of answer.now) count) result output.new }
{
    put_asked::<O, S>(output, kind, asked)?;
    if !asked.is_read() {
        return Ok(());
    }
    put_answer::<O, S>(output, kind, asked, answer, count)
}

fn put_answer<O, S: Sink<O>>(
    output: &mut O,
    kind: Kind,
    asked: &Question,
    answer: &Answer<'_>,
    count: u16,
) -> Result<(), S::Error>
    ensures { PutsText S.took output.old
        (answer_text kind (asked_of asked.now) (answered_of answer.now) count) result output.new }
{
    match answer {
        Answer::Zone(text) => {
            put_lead::<O, S>(output, kind, asked, &text.name, text.type_)?;
            put_data::<O, S>(output, &text.data)?;
            put_more::<O, S>(output, others(count))
        }
        Answer::Empty(name, type_) => {
            put_lead::<O, S>(output, kind, asked, name, *type_)?;
            S::put_str(output, "-")?;
            put_more::<O, S>(output, others(count))
        }
        Answer::Node(name, type_, part) => {
            put_lead::<O, S>(output, kind, asked, name, *type_)?;
            part.put_into::<O, S>(output)?;
            put_more::<O, S>(output, others(count))
        }
        Answer::Nothing | Answer::Unread => Ok(()),
    }
}

// Puts what stands before the data of an answer: its type where another is asked for, or where nothing is asked for its
// type and its name.
fn put_lead<O, S: Sink<O>>(
    output: &mut O,
    kind: Kind,
    asked: &Question,
    name: &Name,
    type_: Type,
) -> Result<(), S::Error>
    ensures { PutsText S.took output.old
        (lead_text kind (asked_of asked.now) (labels_of name.now) type_) result output.new }
{
    match asked {
        Question::Named(asked, _) => {
            S::put_str(output, " = ")?;
            put_other_type::<O, S>(output, kind, *asked, type_)
        }
        Question::Nothing | Question::Unread | Question::Unnamed(_) => {
            put_word::<O, S, TypeOf>(output, TypeOf(kind, type_))?;
            put_word::<O, S, NameOf<'_>>(output, NameOf(kind, name))?;
            S::put_str(output, " = ")
        }
    }
}

fn put_other_type<O, S: Sink<O>>(
    output: &mut O,
    kind: Kind,
    asked: Type,
    type_: Type,
) -> Result<(), S::Error>
    ensures { PutsText S.took output.old (other_type kind asked type_) result output.new }
{
    if is_same(asked, type_) {
        return Ok(());
    }
    TypeOf(kind, type_).put_into::<O, S>(output)?;
    S::put_str(output, " ")
}

fn is_same(asked: Type, type_: Type) -> bool
    ensures { result ≡ (type_number asked == type_number type_) }
{
    u16::from(asked) == u16::from(type_)
}

// Puts data, or how many octets they are.
fn put_data<O, S: Sink<O>>(output: &mut O, data: &DataText<'_>) -> Result<(), S::Error>
    ensures { PutsText S.took output.old (brief_data (data_text_of «data».now)) result output.new }
{
    match data {
        DataText::Txt(octets) => put_long_or::<O, S>(output, MOST_STRINGS, octets, data),
        DataText::Other(octets) => put_long_or::<O, S>(output, MOST_OCTETS, octets, data),
        _ => data.put::<O, S>(output),
    }
}

// Puts data of these octets, or where they are more than the most how many they are.
fn put_long_or<O, S: Sink<O>>(
    output: &mut O,
    most: usize,
    octets: &[u8],
    data: &DataText<'_>,
) -> Result<(), S::Error>
    ensures { PutsText S.took output.old
        (long_or most octets.now (data_text (data_text_of «data».now))) result output.new }
{
    if octets.len() > most {
        put_number::<O, S>(output, octets.len() as u64)?;
        return S::put_str(output, " bytes");
    }
    data.put::<O, S>(output)
}
