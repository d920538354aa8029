//! Lines of questions and records as a zone file has them (RFC 1035 section 5.1), put into a formatter or into another
//! output.

#![tactic(auto, using(wirebase::proofs::Sinks::puts), unfolding(crate::specs::ZoneText::word))]

ghost use Rattle.std.specs.Prelude.{◌++◌, IfOk, decimal};
ghost use Rattle.wirebase.specs.Sink.{PutsText};
ghost use Rattle.dns_wire.specs.DnsDisplay.{type_display};
ghost use Rattle.record_wire.specs.private.Lines.{DataPuts, NamedPuts, PutsSome, asked_line, front_of, line_front};
ghost use Rattle.record_wire.specs.private.Lines.{numbers_text};
ghost use Rattle.record_wire.specs.Mnemonics.{class_text};
ghost use Rattle.record_wire.specs.private.NameReads.{text_of};
ghost use Rattle.record_wire.specs.Fields.{fields_of};
ghost use Rattle.record_wire.specs.RData.{rdata_of, authority, authority_of, fields};
ghost use Rattle.record_wire.specs.ZoneText.{word};

use crate::classes::put_class;
use crate::name::name_text::NameText;
use crate::name::refusal::NameRefusal;
use crate::rdata::fields::Fields;
use crate::rdata::{Authority, RData};
use crate::text::words::{put_generic, put_strings};
use crate::types::put_type;
use dns_wire::dns::{Packet, Type};
use std::result;
use wirebase::text::{Sink, put_number, put_v4, put_v6};

/// Puts the line of a question.
pub(crate) fn put_asked<O, S: Sink<O>>(
    output: &mut O,
    name: &NameText,
    class: u16,
    type_: Type,
) -> result::Result<(), S::Error>
    ensures { PutsText S.took output.old (asked_line (text_of name.now) class type_) result output.new }
{
    name.put::<O, S>(output)?;
    put_class_and_type::<O, S>(output, class, type_)
}

// Puts a class and a type, each after a space.
#[inline(never)]
fn put_class_and_type<O, S: Sink<O>>(
    output: &mut O,
    class: u16,
    type_: Type,
) -> result::Result<(), S::Error>
    ensures { PutsText S.took output.old
        (word (class_text class) ++ word (type_display type_)) result output.new }
{
    S::put_str(output, " ")?;
    put_class::<O, S>(output, class)?;
    S::put_str(output, " ")?;
    put_type::<O, S>(output, type_)
}

/// The line of a record up to its data.
#[derive(Clone, Copy)]
pub(crate) struct Line<'a> {
    pub(crate) owner: &'a NameText,
    pub(crate) ttl: u32,
    pub(crate) class: u16,
    pub(crate) type_: Type,
}

// Puts the line of a record up to its data, where there is one.
fn put_front<O, S: Sink<O>>(output: &mut O, line: Option<&Line<'_>>) -> result::Result<(), S::Error>
    ensures { PutsText S.took output.old (front_of line.entry) result output.new }
{
    match line {
        Some(line) => put_line::<O, S>(output, line),
        None => Ok(()),
    }
}

#[tactic(auto, using(wirebase::proofs::Sinks::puts, std::proofs::lemmas::List::append_assoc))]
fn put_line<O, S: Sink<O>>(output: &mut O, line: &Line<'_>) -> result::Result<(), S::Error>
    ensures { PutsText S.took output.old (line_front line.now) result output.new }
{
    line.owner.put::<O, S>(output)?;
    put_word::<O, S>(output, line.ttl)?;
    put_class_and_type::<O, S>(output, line.class, line.type_)?;
    S::put_str(output, " ")
}

/// Puts the line of a record up to its data, where there is one, and the data; where a name in the data can't be read
/// it puts nothing, and returns why the first such is refused.
pub(crate) fn put_data<'a, O, S: Sink<O>>(
    output: &mut O,
    message: &'a [u8],
    line: Option<&Line<'_>>,
    data: &RData<'a>,
) -> result::Result<Option<NameRefusal>, S::Error>
    ensures { IfOk result (λ refusal. PutsSome S.took output.old output.new
        (λ text. DataPuts (front_of line.entry) message.now (rdata_of «data».now) text refusal)) }
{
    match *data {
        RData::Name(name) => put_named::<O, S>(output, message, line, &[], name),
        RData::Mx {
            preference,
            exchange,
        } => put_named::<O, S>(output, message, line, &[preference], exchange),
        RData::Srv {
            priority,
            weight,
            port,
            target,
        } => put_named::<O, S>(output, message, line, &[priority, weight, port], target),
        RData::Soa(soa) => put_authority::<O, S>(output, message, line, &soa),
        RData::Fields(read) => put_fields::<O, S>(output, message, line, &read),
        RData::A(address) => {
            put_front::<O, S>(output, line)?;
            put_v4::<O, S>(output, address, None)?;
            Ok(None)
        }
        RData::Aaaa(address) => {
            put_front::<O, S>(output, line)?;
            put_v6::<O, S>(output, address, None)?;
            Ok(None)
        }
        RData::Txt(octets) => {
            put_front::<O, S>(output, line)?;
            put_strings::<O, S>(output, octets)?;
            Ok(None)
        }
        RData::Other(octets) => {
            put_front::<O, S>(output, line)?;
            put_generic::<O, S>(output, octets)?;
            Ok(None)
        }
    }
}

// Puts data of numbers and then a name.
fn put_named<'a, O, S: Sink<O>>(
    output: &mut O,
    message: &'a [u8],
    line: Option<&Line<'_>>,
    numbers: &[u16],
    octets: &'a [u8],
) -> result::Result<Option<NameRefusal>, S::Error>
    ensures { IfOk result (λ refusal. PutsSome S.took output.old output.new
        (λ text. NamedPuts (front_of line.entry ++ numbers_text numbers.now) message.now octets.now
        text refusal)) }
{
    let mut name = NameText::new();
    if let Err(refusal) = name.read(message, octets) {
        return Ok(Some(refusal));
    }
    put_front::<O, S>(output, line)?;
    put_numbers::<O, S>(output, numbers)?;
    name.put::<O, S>(output)?;
    Ok(None)
}

// Puts numbers, each before a space.
fn put_numbers<O, S: Sink<O>>(output: &mut O, numbers: &[u16]) -> result::Result<(), S::Error>
    ensures { PutsText S.took output.old (numbers_text numbers.now) result output.new }
{
    for number in numbers {
        put_number::<O, S>(output, u64::from(*number))?;
        S::put_str(output, " ")?;
    }
    Ok(())
}

/// Puts the line of a record up to its data, where there is one, and two names and five numbers, as [`put_data`] does.
pub(crate) fn put_authority<'a, O, S: Sink<O>>(
    output: &mut O,
    message: &'a [u8],
    line: Option<&Line<'_>>,
    soa: &Authority<'a>,
) -> result::Result<Option<NameRefusal>, S::Error>
    ensures { IfOk result (λ refusal. PutsSome S.took output.old output.new
        (λ text. DataPuts (front_of line.entry) message.now (authority (authority_of soa.now)) text refusal)) }
{
    let mut primary = NameText::new();
    if let Err(refusal) = primary.read(message, soa.primary) {
        return Ok(Some(refusal));
    }
    let mut mailbox = NameText::new();
    if let Err(refusal) = mailbox.read(message, soa.mailbox) {
        return Ok(Some(refusal));
    }
    put_front::<O, S>(output, line)?;
    primary.put::<O, S>(output)?;
    S::put_str(output, " ")?;
    mailbox.put::<O, S>(output)?;
    put_word::<O, S>(output, soa.serial)?;
    put_word::<O, S>(output, soa.refresh)?;
    put_word::<O, S>(output, soa.retry)?;
    put_word::<O, S>(output, soa.expire)?;
    put_word::<O, S>(output, soa.minimum)?;
    Ok(None)
}

// Puts a number after a space.
#[inline(never)]
fn put_word<O, S: Sink<O>>(output: &mut O, number: u32) -> result::Result<(), S::Error>
    ensures { PutsText S.took output.old (word (decimal number)) result output.new }
{
    S::put_str(output, " ")?;
    put_number::<O, S>(output, u64::from(number))
}

// Puts fields, which are read as a value first: these types are rare.
fn put_fields<'a, O, S: Sink<O>>(
    output: &mut O,
    message: &'a [u8],
    line: Option<&Line<'_>>,
    read: &Fields<'a>,
) -> result::Result<Option<NameRefusal>, S::Error>
    ensures { IfOk result (λ refusal. PutsSome S.took output.old output.new
        (λ text. DataPuts (front_of line.entry) message.now (fields (fields_of read.now)) text refusal)) }
{
    match read.text(&Packet::new_unchecked(message)) {
        Ok(text) => {
            put_front::<O, S>(output, line)?;
            text.put::<O, S>(output)?;
            Ok(None)
        }
        Err(refusal) => Ok(Some(refusal)),
    }
}
