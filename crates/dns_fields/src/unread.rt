//! Why something of a DNS message can't be read.

ghost use Rattle.std.specs.Prelude.{Some};
ghost use Rattle.wirebase.specs.Sink.{PutsText};
ghost use Rattle.dns_fields.specs.Unread.{unread_display, where_text, why_text};

use crate::record::label_of;
use record_wire::{NameRefusal, OptionRefusal, Refusal, Section, TextRefusal};
use std::fmt;
use wirebase::text::{Sink, ToFormatter};

/// What of a message can't be read, and the check that it fails.
#[derive(Debug, PartialEq, Eq, Clone, Copy)]
pub enum Unread {
    /// There are fewer bytes than the 12 of a header.
    Header,
    /// The next question or record of this section does not begin.
    Entry(Section, Refusal),
    /// The name of a question can't be read.
    Question(NameRefusal),
    /// The name of a record, its data, or a name in its data can't be read.
    Record(TextRefusal),
    /// The next option of an OPT record does not begin.
    Option(OptionRefusal),
    /// An address of the NetBIOS name service is cut.
    Addresses,
    /// The names of a node of the NetBIOS name service are cut.
    Names,
}

/// What is wrong with the message.
impl fmt::Display for Unread {
    ghost output = { λ unread. Some (unread_display unread) };

    #[tactic(auto, using(wirebase::proofs::Sinks::displayed))]
    fn fmt<W: fmt::Write>(&self, f: &mut fmt::Formatter<W>) -> fmt::Result {
        put_unread::<_, ToFormatter>(f, *self)
    }
}

// Puts what is wrong, and with what.
#[tactic(auto, using(wirebase::proofs::Sinks::puts))]
fn put_unread<O, S: Sink<O>>(output: &mut O, unread: Unread) -> Result<(), S::Error>
    ensures { PutsText S.took output.old (unread_display unread) result output.new }
{
    put_where::<O, S>(output, unread)?;
    put_why::<O, S>(output, unread)
}

#[tactic(auto, using(wirebase::proofs::Sinks::puts, wirebase::proofs::Sinks::put_none))]
fn put_where<O, S: Sink<O>>(output: &mut O, unread: Unread) -> Result<(), S::Error>
    ensures { PutsText S.took output.old (where_text unread) result output.new }
{
    match unread {
        Unread::Entry(section, _) => {
            S::put_str(output, label_of(section))?;
            S::put_str(output, ": ")
        }
        Unread::Question(_) => S::put_str(output, "question: "),
        Unread::Header
        | Unread::Record(_)
        | Unread::Option(_)
        | Unread::Addresses
        | Unread::Names => S::put_str(output, ""),
    }
}

/// Puts what is wrong.
#[tactic(auto, using(wirebase::proofs::Sinks::puts))]
pub(crate) fn put_why<O, S: Sink<O>>(output: &mut O, unread: Unread) -> Result<(), S::Error>
    ensures { PutsText S.took output.old (why_text unread) result output.new }
{
    match unread {
        Unread::Header => S::put_str(output, "fewer than 12 bytes"),
        Unread::Entry(_, refusal) => refusal.put::<O, S>(output),
        Unread::Question(refusal) => refusal.put::<O, S>(output),
        Unread::Record(refusal) => refusal.put::<O, S>(output),
        Unread::Option(refusal) => {
            S::put_str(output, "the options: ")?;
            refusal.put::<O, S>(output)
        }
        Unread::Addresses => S::put_str(output, "an address is cut"),
        Unread::Names => S::put_str(output, "the names are cut"),
    }
}
