//! The domain names of a search list, printed as a list of texts.

#![tactic(auto, using(packet_fields::proofs::Printing::gained, // what one write appends
packet_fields::proofs::Printing::gains_both, packet_fields::proofs::Printing::gains_none), // texts in a row
unfolding(packet_fields::specs::private::TextRuns::texts_before, // what stands around them
packet_fields::specs::private::TextRuns::text_among, packet_fields::specs::private::TextRuns::texts_after))]

ghost use Rattle.std.specs.Prelude.{◌≡◌, IfOk, OnOk, true};
ghost use Rattle.packet_fields.specs.Fields.{comma_unless, texts};
ghost use Rattle.packet_fields.specs.Output.{Gains};
ghost use Rattle.packet_fields.specs.private.TextRuns.{run_from, still_first, text_among, texts_after, texts_before};
ghost use Rattle.neighbor_fields.specs.NdiscTexts.{names_in};

use super::texts::{Name, name_len};
use packet_fields::Form;
use packet_fields::value::{Text, Value, put_text};
use std::io;
use std::io::Write;

// Domain names, one after another up to the end or to a zero in the place of a name, which is padding.
#[derive(Clone, Copy)]
pub(super) struct Names<'a>(pub(super) &'a [u8]);

impl Value for Names<'_> {
    ghost leaf = { λ names. texts (names_in names.0.now) };

    fn put<W: Write>(self, output: &mut W, form: Form) -> io::Result<()> {
        open_texts(output, form)?;
        let is_none = put_names(output, form, self.0)?;
        close_texts(output, form, is_none)
    }
}

// Prints the names, and returns whether there are none.
fn put_names<W: Write>(output: &mut W, form: Form, octets: &[u8]) -> io::Result<bool>
    ensures { IfOk result (λ none. (none ≡ still_first true (names_in octets.now))
        × Gains (W.contents output.old) (W.contents output.new) (run_from form true (names_in octets.now))) }
{
    let mut rest = octets;
    let mut is_first = true;
    while !rest.is_empty() && rest[0] != 0 {
        let (name, others) = rest.split_at(name_len(rest));
        put_among(output, form, is_first, Name(name))?;
        rest = others;
        is_first = false;
    }
    Ok(is_first)
}

// Prints what precedes texts.
fn open_texts<W: Write>(output: &mut W, form: Form) -> io::Result<()>
    ensures { OnOk result (Gains (W.contents output.old) (W.contents output.new) (texts_before form)) }
{
    match form {
        Form::Lines => Ok(()),
        Form::Json => output.write_all(b"["),
    }
}

// Prints a text among others.
fn put_among<T: Text, W: Write>(
    output: &mut W,
    form: Form,
    is_first: bool,
    value: T,
) -> io::Result<()>
    ensures { OnOk result (Gains (W.contents output.old) (W.contents output.new)
        (text_among form is_first (T.text_of value))) }
{
    put_comma(output, is_first)?;
    put_text(output, form, value)
}

fn put_comma<W: Write>(output: &mut W, is_first: bool) -> io::Result<()>
    ensures { OnOk result (Gains (W.contents output.old) (W.contents output.new) (comma_unless is_first)) }
{
    if is_first {
        return Ok(());
    }
    output.write_all(b",")
}

// Prints what follows texts.
fn close_texts<W: Write>(output: &mut W, form: Form, is_none: bool) -> io::Result<()>
    ensures { OnOk result (Gains (W.contents output.old) (W.contents output.new) (texts_after form is_none)) }
{
    match form {
        Form::Lines if is_none => output.write_all(b"-"),
        Form::Lines => Ok(()),
        Form::Json => output.write_all(b"]"),
    }
}
