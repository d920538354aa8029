//! What entries are called.

#![tactic(auto, using(wirebase::proofs::Sinks::puts))]

ghost use Rattle.std.specs.Prelude.{None};
ghost use Rattle.std.specs.Option.{option_map};
ghost use Rattle.wirebase.specs.Sink.{PutsText};
ghost use Rattle.packet_fields.specs.Labels.{label_text};

use crate::value::Text;
use wirebase::text::{Sink, put_number};

/// What an entry is called: its name, or where it has none the kind of entry and its number, as `option_24`.
#[derive(Debug, Clone, Copy)]
pub struct Label<'a> {
    /// The name.
    pub name: Option<&'a str>,
    /// The kind of entry.
    pub kind: &'a str,
    /// The number.
    pub number: u8,
}

impl Text for Label<'_> {
    ghost text_of = { λ label. label_text (option_map (λ name. name.now) label.name) label.kind.now label.number };

    fn put_into<O, S: Sink<O>>(self, output: &mut O) -> Result<(), S::Error> {
        match self.name {
            Some(name) => S::put_str(output, name),
            None => put_numbered::<O, S>(output, self.kind, self.number),
        }
    }
}

// Puts a kind and a number behind it.
fn put_numbered<O, S: Sink<O>>(output: &mut O, kind: &str, number: u8) -> Result<(), S::Error>
    ensures { PutsText S.took output.old (label_text None kind.now number) result output.new }
{
    S::put_str(output, kind)?;
    S::put_str(output, "_")?;
    put_number::<O, S>(output, number as u64)
}
