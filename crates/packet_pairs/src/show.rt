//! What is printed of an answer.

#![tactic(auto, using(packet_fields::proofs::Fields::prints_both, packet_fields::proofs::Fields::prints_none))]

ghost use Rattle.std.specs.Prelude.{OnOk};
ghost use Rattle.wirebase.specs.Sink.{PutsText};
ghost use Rattle.wirebase.specs.Duration.{three_digits};
ghost use Rattle.packet_fields.specs.Fields.{text};
ghost use Rattle.packet_fields.specs.Prints.{Prints};
ghost use Rattle.packet_pairs.specs.Shown.{after_items, answered_items, milliseconds_text};

use crate::pairs::Answered;
use packet_fields::Form;
use packet_fields::field::field;
use packet_fields::value::{Text, Value, put_text};
use std::io;
use std::io::Write;
use wirebase::text::{Sink, put_number};

/// Prints what an answer is to: `answers`, the number of the packet that its question came in, and where it is known
/// `after`, the time from then on, in lines in milliseconds, as `46.200ms`; in JSON that is `after_ns`, nanoseconds.
pub fn show_answered<W: Write>(output: &mut W, form: Form, answered: &Answered) -> io::Result<()>
    ensures { OnOk result (Prints form (W.contents output.old) (W.contents output.new)
        (answered_items form answered.now)) }
{
    field(output, form, "answers", answered.number)?;
    show_after(output, form, answered.after)
}

// Prints the time from a question to its answer, in nanoseconds.
fn show_after<W: Write>(output: &mut W, form: Form, after: Option<u64>) -> io::Result<()>
    ensures { OnOk result (Prints form (W.contents output.old) (W.contents output.new) (after_items form after)) }
{
    match (form, after) {
        (_, None) => Ok(()),
        (Form::Lines, Some(nanoseconds)) => field(output, form, "after", Nanoseconds(nanoseconds)),
        (Form::Json, Some(nanoseconds)) => field(output, form, "after_ns", nanoseconds),
    }
}

/// A time in nanoseconds, which prints in milliseconds with three digits behind the point, as `46.200ms`.
#[derive(Debug, PartialEq, Eq, Clone, Copy)]
pub struct Nanoseconds(pub u64);

impl Text for Nanoseconds {
    ghost text_of = { λ time. milliseconds_text time.0 };

    #[tactic(auto, using(wirebase::proofs::Sinks::puts))]
    fn put_into<O, S: Sink<O>>(self, output: &mut O) -> Result<(), S::Error> {
        let Nanoseconds(nanoseconds) = self;
        put_number::<O, S>(output, nanoseconds / 1_000_000)?;
        S::put_str(output, ".")?;
        put_three_digits::<O, S>(output, nanoseconds / 1_000 % 1_000)?;
        S::put_str(output, "ms")
    }
}

impl Value for Nanoseconds {
    ghost leaf = { λ time. text (milliseconds_text time.0) };

    fn put<W: Write>(self, output: &mut W, form: Form) -> io::Result<()> {
        put_text(output, form, self)
    }
}

// Puts a number below 1000 in three digits.
#[tactic(auto, using(wirebase::proofs::Sinks::puts))]
fn put_three_digits<O, S: Sink<O>>(output: &mut O, number: u64) -> Result<(), S::Error>
    ensures { PutsText S.took output.old (three_digits number) result output.new }
{
    put_number::<O, S>(output, number / 100)?;
    put_number::<O, S>(output, number / 10 % 10)?;
    put_number::<O, S>(output, number % 10)
}
