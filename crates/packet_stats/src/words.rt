//! Names, types of records and outcomes as the values of fields.

#![tactic(auto, using(wirebase::proofs::Sinks::puts))]

ghost use Rattle.std.specs.Prelude.{◌≡◌};
ghost use Rattle.std.specs.Option.{option_map};
ghost use Rattle.dns_wire.specs.DnsDisplay.{type_display};
ghost use Rattle.record_wire.specs.Name.{labels_of};
ghost use Rattle.record_wire.specs.ZoneText.{whole_name};
ghost use Rattle.packet_fields.specs.Fields.{text};
ghost use Rattle.packet_fields.specs.Labels.{label_text};
ghost use Rattle.packet_stats.specs.Shown.{rcode_text};

use dns_fields::header::{rcode_name, rcode_of};
use dns_fields::kind::Kind;
use dns_wire::dns::Type;
use packet_fields::Form;
use packet_fields::label::Label;
use packet_fields::value::{Text, Value, put_text};
use record_wire::Name;
use record_wire::types::put_type;
use std::io;
use std::io::Write;
use wirebase::text::Sink;

// A name as the value of a field.
#[derive(Clone, Copy)]
pub(crate) struct NameWord<'a>(pub(crate) &'a Name);

impl Text for NameWord<'_> {
    ghost text_of = { λ word. whole_name (labels_of word.0.now) };

    fn put_into<O, S: Sink<O>>(self, output: &mut O) -> Result<(), S::Error> {
        self.0.put_whole::<O, S>(output)
    }
}

impl Value for NameWord<'_> {
    ghost leaf = { λ word. text (whole_name (labels_of word.0.now)) };

    fn put<W: Write>(self, output: &mut W, form: Form) -> io::Result<()> {
        put_text(output, form, self)
    }
}

// A type of records as the value of a field.
#[derive(Debug, PartialEq, Eq, Clone, Copy)]
pub(crate) struct TypeWord(pub(crate) Type);

impl Text for TypeWord {
    ghost text_of = { λ word. type_display word.0 };

    fn put_into<O, S: Sink<O>>(self, output: &mut O) -> Result<(), S::Error> {
        put_type::<O, S>(output, self.0)
    }
}

impl Value for TypeWord {
    ghost leaf = { λ word. text (type_display word.0) };

    fn put<W: Write>(self, output: &mut W, form: Form) -> io::Result<()> {
        put_text(output, form, self)
    }
}

// An outcome of DNS as the value of a field.
#[derive(Debug, PartialEq, Eq, Clone, Copy)]
pub(crate) struct RcodeWord(pub(crate) u16);

impl Text for RcodeWord {
    ghost text_of = { λ word. rcode_text word.0 };

    fn put_into<O, S: Sink<O>>(self, output: &mut O) -> Result<(), S::Error> {
        rcode_label(self.0).put_into::<O, S>(output)
    }
}

impl Value for RcodeWord {
    ghost leaf = { λ word. text (rcode_text word.0) };

    fn put<W: Write>(self, output: &mut W, form: Form) -> io::Result<()> {
        put_text(output, form, self)
    }
}

// The name of an outcome, or where it has none its number.
fn rcode_label(rcode: u16) -> Label<'static>
    ensures { label_text (option_map (λ name. name.now) result.name) result.kind.now result.number
        ≡ rcode_text rcode }
{
    Label {
        name: rcode_name(Kind::Dns, rcode),
        kind: "rcode",
        number: rcode_of(rcode) as u8,
    }
}
