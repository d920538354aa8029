//! Why a record has no text: the check that fails first.

ghost use Rattle.wirebase.specs.Sink.{PutsText};
ghost use Rattle.record_wire.specs.RecordText.{text_refusal_display};

use crate::name::refusal::NameRefusal;
use crate::rdata::refusal::DataRefusal;
use std::{fmt, result};
use wirebase::text::{Sink, ToFormatter};

/// Why [`crate::Record::text`] refuses a record: the check that fails first.
#[derive(Debug, PartialEq, Eq, Clone, Copy)]
pub enum TextRefusal {
    /// The record's name can't be read.
    Owner(NameRefusal),
    /// The data is not laid out as the record's type and class have it.
    Data(DataRefusal),
    /// A name in the data can't be read: of two, the first such.
    DataName(NameRefusal),
}

/// What is wrong with the record.
impl fmt::Display for TextRefusal {
    ghost use Rattle.std.specs.Prelude.{Some};
    ghost use Rattle.record_wire.specs.RecordText.{text_refusal_display};

    ghost output = { λ refusal. Some (text_refusal_display refusal) };

    #[tactic(auto, using(wirebase::proofs::Sinks::displayed))]
    fn fmt<W: fmt::Write>(&self, f: &mut fmt::Formatter<W>) -> fmt::Result {
        self.put::<_, ToFormatter>(f)
    }
}

impl TextRefusal {
    /// Puts what is wrong with the record.
    #[tactic(auto, using(wirebase::proofs::Sinks::puts))]
    pub fn put<O, S: Sink<O>>(&self, output: &mut O) -> result::Result<(), S::Error>
        ensures { PutsText S.took output.old (text_refusal_display self.now) result output.new }
    {
        match self {
            TextRefusal::Owner(refusal) => {
                S::put_str(output, "the owner: ")?;
                refusal.put::<O, S>(output)
            }
            TextRefusal::Data(refusal) => {
                S::put_str(output, "the data: ")?;
                refusal.put::<O, S>(output)
            }
            TextRefusal::DataName(refusal) => {
                S::put_str(output, "a name in the data: ")?;
                refusal.put::<O, S>(output)
            }
        }
    }
}
