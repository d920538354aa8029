//! Questions and records, an entry each.

#![tactic(auto, using(packet_fields::proofs::Fields::cells_both, packet_fields::proofs::Fields::cells_none))]

ghost use Rattle.std.specs.Prelude.{◌≡◌, IfErr, IfOk, IsOkAnd, OnOk, codes};
ghost use Rattle.dns_wire.specs.DnsPacket.{view_octets};
ghost use Rattle.dns_wire.specs.DnsPacket.{header as header_field};
ghost use Rattle.wirebase.specs.Bytes.{Reaches};
ghost use Rattle.record_wire.specs.Multicast.{record_class};
ghost use Rattle.record_wire.specs.Name.{labels_of};
ghost use Rattle.record_wire.specs.Record.{question_of, record_of};
ghost use Rattle.record_wire.specs.RecordDisplay.{section_display};
ghost use Rattle.record_wire.specs.RecordText.{IsRecordText, RecordTextValue, RefusesText, record_text_of};
ghost use Rattle.packet_fields.specs.Fields.{first_text, missing};
ghost use Rattle.packet_fields.specs.Output.{Gains};
ghost use Rattle.packet_fields.specs.Prints.{PrintsCells};
ghost use Rattle.packet_fields.specs.Entries.{PrintsEntry};
ghost use Rattle.packet_fields.specs.private.Entries.{PrintsSomeEntry};
ghost use Rattle.dns_fields.specs.Record.{BlankIs, IsRefusedRecord, OwnerIs, QuestionIs, RecordIs, known_cells, mark};
ghost use Rattle.dns_fields.specs.Record.{blank_text, is_blank, is_inverse_query, question_entry, record_entry};
ghost use Rattle.dns_fields.specs.Record.{refused_cells, refused_question};
ghost use Rattle.dns_fields.specs.Kind.{is_multicast};
ghost use Rattle.dns_fields.specs.private.Parts.{PrintsSomeFront};

use crate::header::{opcode_of, word_of};
use crate::kind::{Kind, NameOf, TypeOf};
use crate::unread::Unread;
use crate::words::{Class, Data, Why, Word};
use dns_wire::dns::Packet;
use dns_wire::octets::octets_of;
use packet_fields::Form;
use packet_fields::entry::{cell, close_entry, first_cell, keyed_cell, open_entry};
use record_wire::{DataText, Name, Question, Record, RecordText, Section, TextRefusal};
use std::io;
use std::io::Write;

// The flag QR of a word of flags, the highest, which is clear in a query; and the kind of query that is inverse (RFC
// 1035 section 4.1.1).
const RESPONSE: u16 = 0x8000;

const IQUERY: u16 = 1;

/// Prints a question.
pub(crate) fn show_question<'a, W: Write>(
    output: &mut W,
    form: Form,
    is_first: bool,
    kind: Kind,
    packet: &Packet<&'a [u8]>,
    question: &Question<'a>,
) -> io::Result<Option<Unread>>
    ensures { IfOk result (λ unread. PrintsSomeEntry form is_first (W.contents output.old) (W.contents output.new)
        (λ e. QuestionIs kind (view_octets packet.now) (question_of question.now) e unread)) }
{
    // By reference, since the name is large.
    let read = Name::read_or_refusal(packet, question.name);
    match &read {
        Ok(name) => {
            show_asked(output, form, is_first, kind, question, name)?;
            Ok(None)
        }
        Err(refusal) => {
            let unread = Unread::Question(*refusal);
            show_refused_question(output, form, is_first, kind, question, unread)?;
            Ok(Some(unread))
        }
    }
}

// Prints a question whose name is read.
fn show_asked<W: Write>(
    output: &mut W,
    form: Form,
    is_first: bool,
    kind: Kind,
    question: &Question<'_>,
    name: &Name,
) -> io::Result<()>
    ensures { OnOk result (PrintsEntry form is_first (W.contents output.old) (W.contents output.new)
        (question_entry kind (question_of question.now) (labels_of name.now))) }
{
    open_entry(output, form, is_first, "section", "question")?;
    first_cell(output, form, "name", Word(NameOf(kind, name)))?;
    let class = kind.question_class(question);
    cell(output, form, "class", Word(Class(class)))?;
    cell(output, form, "type", Word(TypeOf(kind, question.type_)))?;
    let is_marked = kind.wants_unicast(question);
    show_mark(output, form, is_marked, "unicast_response")?;
    close_entry(output, form)
}

// Prints a question whose name can't be read.
fn show_refused_question<W: Write>(
    output: &mut W,
    form: Form,
    is_first: bool,
    kind: Kind,
    question: &Question<'_>,
    unread: Unread,
) -> io::Result<()>
    ensures { OnOk result (PrintsEntry form is_first (W.contents output.old) (W.contents output.new)
        (refused_question kind (question_of question.now) unread)) }
{
    open_entry(output, form, is_first, "section", "question")?;
    show_no_name(output, form)?;
    keyed_cell(output, form, "name_octets", question.name)?;
    let class = kind.question_class(question);
    keyed_cell(output, form, "class", Word(Class(class)))?;
    keyed_cell(output, form, "type", Word(TypeOf(kind, question.type_)))?;
    let is_marked = kind.wants_unicast(question);
    show_mark(output, form, is_marked, "unicast_response")?;
    show_why(output, form, unread)?;
    close_entry(output, form)
}

/// Prints none as the name of an entry.
pub(crate) fn show_no_name<W: Write>(output: &mut W, form: Form) -> io::Result<()>
    ensures { OnOk result (Gains (W.contents output.old) (W.contents output.new)
        (first_text form (codes "name") missing)) }
{
    let none: Option<&str> = None;
    first_cell(output, form, "name", none)
}

/// Prints why an entry can't be read, or not to its end.
pub(crate) fn show_why<W: Write>(output: &mut W, form: Form, unread: Unread) -> io::Result<()>
    ensures { OnOk result (PrintsCells form (W.contents output.old) (W.contents output.new)
        (refused_cells unread)) }
{
    keyed_cell(output, form, "refused", Word(Why(unread)))
}

// Prints that a flag is set, where it is.
fn show_mark<W: Write>(output: &mut W, form: Form, is_set: bool, key: &str) -> io::Result<()>
    ensures { OnOk result (PrintsCells form (W.contents output.old) (W.contents output.new) (mark is_set key.now)) }
{
    if !is_set {
        return Ok(());
    }
    keyed_cell(output, form, key, true)
}

/// Whether a record has no data and stands for the answer to an inverse query, which asks for its name (RFC 1035
/// section 6.4). Requires at least 12 bytes.
pub(crate) fn is_blank(packet: &Packet<&[u8]>, section: Section, record: &Record<'_>) -> bool
    requires { Reaches header_field (view_octets packet.now) }
    ensures { result ≡ is_blank (view_octets packet.now) section (record_of «record».now) }
{
    let word = word_of(octets_of(packet));
    is_inverse_query(word) && matches!(section, Section::Answer) && record.data.is_empty()
}

fn is_inverse_query(word: u16) -> bool
    ensures { result ≡ is_inverse_query word }
{
    word < RESPONSE && opcode_of(word) == IQUERY
}

/// Prints such a record, of another type than OPT.
pub(crate) fn show_blank<'a, W: Write>(
    output: &mut W,
    form: Form,
    is_first: bool,
    kind: Kind,
    packet: &Packet<&'a [u8]>,
    section: Section,
    record: &Record<'a>,
) -> io::Result<Option<Unread>>
    ensures { IfOk result (λ unread. PrintsSomeEntry form is_first (W.contents output.old) (W.contents output.new)
        (λ e. BlankIs kind (view_octets packet.now) section (record_of «record».now) e unread)) }
{
    match Name::read_or_refusal(packet, record.name) {
        Ok(name) => {
            let text = blank_text(kind, record, name);
            let is_marked = kind.flushes_cache(record);
            show_read(output, form, is_first, kind, section, &text, is_marked)?;
            Ok(None)
        }
        Err(refusal) => {
            let unread = Unread::Record(TextRefusal::Owner(refusal));
            show_refused_record(
                output, form, is_first, kind, packet, section, record, unread,
            )?;
            Ok(Some(unread))
        }
    }
}

// Such a record with its name read.
fn blank_text(kind: Kind, record: &Record<'_>, name: Name) -> RecordText<'static>
    ensures { record_text_of result ≡ blank_text kind (record_of «record».now) (labels_of name) }
{
    RecordText {
        name,
        ttl: record.ttl,
        class: kind.record_class(record),
        type_: record.type_,
        data: DataText::Other(&[]),
    }
}

/// Prints a record of another type than OPT.
pub(crate) fn show_record<'a, W: Write>(
    output: &mut W,
    form: Form,
    is_first: bool,
    kind: Kind,
    packet: &Packet<&'a [u8]>,
    section: Section,
    record: &Record<'a>,
) -> io::Result<Option<Unread>>
    ensures { IfOk result (λ unread. PrintsSomeEntry form is_first (W.contents output.old) (W.contents output.new)
        (λ e. RecordIs kind (view_octets packet.now) section (record_of «record».now) e unread)) }
{
    // By reference, since the record is large.
    let read = read_text(kind, packet, record);
    match &read {
        Ok(text) => {
            let is_marked = kind.flushes_cache(record);
            show_read(output, form, is_first, kind, section, text, is_marked)?;
            Ok(None)
        }
        Err(refusal) => {
            let unread = Unread::Record(*refusal);
            show_refused_record(
                output, form, is_first, kind, packet, section, record, unread,
            )?;
            Ok(Some(unread))
        }
    }
}

/// The record with its names read; in multicast DNS its class is without the top bit.
pub fn read_text<'a>(
    kind: Kind,
    packet: &Packet<&'a [u8]>,
    record: &Record<'a>,
) -> Result<RecordText<'a>, TextRefusal>
    ensures sound { IfOk result (λ text. IsRecordText (view_octets packet.now)
        (record_class (is_multicast kind) «record».now.type_ «record».now.class) (record_of «record».now)
        (record_text_of text)) }
    ensures complete { (value : RecordTextValue)
        → IsRecordText (view_octets packet.now)
        (record_class (is_multicast kind) «record».now.type_ «record».now.class) (record_of «record».now) value
        → IsOkAnd result (λ text. record_text_of text ≡ value) }
    ensures told { IfErr result (λ refusal. RefusesText (view_octets packet.now)
        (record_class (is_multicast kind) «record».now.type_ «record».now.class) (record_of «record».now) refusal) }
{
    if kind.is_multicast() {
        return record.multicast_text(packet);
    }
    record.text(packet)
}

// Prints a record whose names are read.
fn show_read<W: Write>(
    output: &mut W,
    form: Form,
    is_first: bool,
    kind: Kind,
    section: Section,
    text: &RecordText<'_>,
    is_marked: bool,
) -> io::Result<()>
    ensures { OnOk result (PrintsEntry form is_first (W.contents output.old) (W.contents output.new)
        (record_entry kind section (record_text_of text.now) is_marked)) }
{
    open_entry(output, form, is_first, "section", label_of(section))?;
    first_cell(output, form, "name", Word(NameOf(kind, &text.name)))?;
    cell(output, form, "ttl", text.ttl)?;
    cell(output, form, "class", Word(Class(text.class)))?;
    cell(output, form, "type", Word(TypeOf(kind, text.type_)))?;
    cell(output, form, "data", Word(Data(&text.data)))?;
    show_mark(output, form, is_marked, "cache_flush")?;
    close_entry(output, form)
}

/// Prints a record that can't be read, with what is known of it.
pub(crate) fn show_refused_record<'a, W: Write>(
    output: &mut W,
    form: Form,
    is_first: bool,
    kind: Kind,
    packet: &Packet<&'a [u8]>,
    section: Section,
    record: &Record<'a>,
    unread: Unread,
) -> io::Result<()>
    ensures { OnOk result (PrintsSomeEntry form is_first (W.contents output.old) (W.contents output.new)
        (IsRefusedRecord kind (view_octets packet.now) section (record_of «record».now) unread)) }
{
    open_entry(output, form, is_first, "section", label_of(section))?;
    show_owner(output, form, kind, packet, record.name)?;
    show_known(output, form, kind, record)?;
    show_why(output, form, unread)?;
    close_entry(output, form)
}

// Prints the name of a record; where it can't be read none, and its octets.
fn show_owner<'a, W: Write>(
    output: &mut W,
    form: Form,
    kind: Kind,
    packet: &Packet<&'a [u8]>,
    name: &'a [u8],
) -> io::Result<()>
    ensures { OnOk result (PrintsSomeFront form (W.contents output.old) (W.contents output.new) (codes "name")
        (OwnerIs kind (view_octets packet.now) name.now)) }
{
    match Name::read_or_refusal(packet, name) {
        Ok(read) => first_cell(output, form, "name", Word(NameOf(kind, &read))),
        Err(_) => {
            show_no_name(output, form)?;
            keyed_cell(output, form, "name_octets", name)
        }
    }
}

// Prints the fields behind the name of a record, and its data by their octets.
fn show_known<W: Write>(
    output: &mut W,
    form: Form,
    kind: Kind,
    record: &Record<'_>,
) -> io::Result<()>
    ensures { OnOk result (PrintsCells form (W.contents output.old) (W.contents output.new)
        (known_cells kind (record_of «record».now))) }
{
    keyed_cell(output, form, "ttl", record.ttl)?;
    let class = kind.record_class(record);
    keyed_cell(output, form, "class", Word(Class(class)))?;
    keyed_cell(output, form, "type", Word(TypeOf(kind, record.type_)))?;
    keyed_cell(output, form, "octets", record.data)?;
    let is_marked = kind.flushes_cache(record);
    show_mark(output, form, is_marked, "cache_flush")
}

/// The name of a section.
pub(crate) fn label_of(section: Section) -> &'static str
    ensures { result.now ≡ section_display section }
{
    match section {
        Section::Question => "question",
        Section::Answer => "answer",
        Section::Authority => "authority",
        Section::Additional => "additional",
    }
}
