//! What stands in entries, by its text.

#![tactic(auto, using(wirebase::proofs::Sinks::puts))]

ghost use Rattle.dns_wire.specs.DnsDisplay.{name_in, name_or};
ghost use Rattle.wirebase.specs.Sink.{PutsText};
ghost use Rattle.record_wire.specs.Edns.{option_of};
ghost use Rattle.record_wire.specs.Mnemonics.{class_text};
ghost use Rattle.record_wire.specs.RecordDisplay.{option_names};
ghost use Rattle.record_wire.specs.RecordText.{data_text, data_text_of};
ghost use Rattle.packet_fields.specs.Fields.{text};
ghost use Rattle.dns_fields.specs.Edns.{option_text};
ghost use Rattle.dns_fields.specs.Unread.{why_text};
ghost use Rattle.std.specs.Prelude.{[]};

use crate::unread::{Unread, put_why};
use packet_fields::Form;
use packet_fields::value::{Text, Value, put_text};
use record_wire::classes::put_class;
use record_wire::{DataText, EdnsOption};
use std::io;
use std::io::Write;
use wirebase::text::{Sink, put_hex, put_number};

// A text as the value of a field.
#[derive(Clone, Copy)]
pub(crate) struct Word<T>(pub(crate) T);

impl<T: Text> Value for Word<T> {
    ghost leaf = { λ word. text (T.text_of word.0) };

    fn put<W: Write>(self, output: &mut W, form: Form) -> io::Result<()> {
        put_text(output, form, self.0)
    }
}

// The data of a record.
#[derive(Clone, Copy)]
pub(crate) struct Data<'a>(pub(crate) &'a DataText<'a>);

impl Text for Data<'_> {
    ghost text_of = { λ those. data_text (data_text_of those.0.now) };

    fn put_into<O, S: Sink<O>>(self, output: &mut O) -> Result<(), S::Error> {
        self.0.put::<O, S>(output)
    }
}

// A class.
#[derive(Clone, Copy)]
pub(crate) struct Class(pub(crate) u16);

impl Text for Class {
    ghost text_of = { λ class. class_text class.0 };

    fn put_into<O, S: Sink<O>>(self, output: &mut O) -> Result<(), S::Error> {
        put_class::<O, S>(output, self.0)
    }
}

// What is wrong.
#[derive(Clone, Copy)]
pub(crate) struct Why(pub(crate) Unread);

impl Text for Why {
    ghost text_of = { λ why. why_text why.0 };

    fn put_into<O, S: Sink<O>>(self, output: &mut O) -> Result<(), S::Error> {
        put_why::<O, S>(output, self.0)
    }
}

// An option: its name or its number, and its data.
#[derive(Clone, Copy)]
pub(crate) struct OptionWord<'a>(pub(crate) EdnsOption<'a>);

impl Text for OptionWord<'_> {
    ghost text_of = { λ option. option_text (option_of option.0) };

    fn put_into<O, S: Sink<O>>(self, output: &mut O) -> Result<(), S::Error> {
        put_option_name::<O, S>(output, &self.0)?;
        S::put_str(output, ":")?;
        put_hex::<O, S>(output, self.0.data)
    }
}

#[tactic(auto, using(wirebase::proofs::Sinks::puts, // what is put in several calls
record_wire::proofs::MnemonicTexts::name_some, record_wire::proofs::MnemonicTexts::name_none))]
fn put_option_name<O, S: Sink<O>>(output: &mut O, option: &EdnsOption<'_>) -> Result<(), S::Error>
    ensures { PutsText S.took output.old
        (name_or [] (name_in option_names option.now.code) option.now.code) result output.new }
{
    match option.name() {
        Some(name) => S::put_str(output, name),
        None => put_number::<O, S>(output, u64::from(option.code)),
    }
}
