//! Numbers with commas between them.

#![tactic(auto, using(packet_fields::proofs::Printing::gained, packet_fields::proofs::Printing::gains_both))]

ghost use Rattle.std.specs.Prelude.{◌<◌, ◌^◌, ◌++◌, ℕ, slice_index, OnOk, codes, decimal, map};
ghost use Rattle.packet_fields.specs.Fields.{AllFit, numbers, numbers_text, with_commas};
ghost use Rattle.packet_fields.specs.Output.{Gains};

use packet_fields::Form;
use packet_fields::value::Value;
use std::io;
use std::io::Write;

/// Numbers, in lines with commas between them, and in JSON an array.
#[derive(Clone, Copy)]
pub struct Numbers<'a>(pub &'a [u64]);

impl Value for Numbers<'_> {
    ghost leaf = { λ list. numbers list.0.now };

    fn put<W: Write>(self, output: &mut W, form: Form) -> io::Result<()> {
        all_fit(self.0);
        match form {
            Form::Lines => put_words(output, self.0),
            Form::Json => put_array(output, self.0),
        }
    }
}

// They have at most 64 bits. For proofs alone.
fn all_fit(list: &[u64])
    ensures { AllFit list.now }
{
    are_words(list);
}

fn are_words(list: &[u64])
    ensures { (i : ℕ) → slice_index list.now i < 2 ^ 64 }
{}

// Prints them with commas between them, or a dash for none.
fn put_words<W: Write>(output: &mut W, list: &[u64]) -> io::Result<()>
    ensures { OnOk result (Gains (W.contents output.old) (W.contents output.new) (with_commas (map decimal list.now))) }
{
    let [first, rest @ ..] = list else {
        return output.write_all(b"-");
    };
    first.put(output, Form::Lines)?;
    for next in rest {
        put_next(output, *next)?;
    }
    Ok(())
}

// Prints them as an array.
fn put_array<W: Write>(output: &mut W, list: &[u64]) -> io::Result<()>
    ensures { OnOk result (Gains (W.contents output.old) (W.contents output.new) (numbers_text list.now)) }
{
    let [first, rest @ ..] = list else {
        return output.write_all(b"[]");
    };
    output.write_all(b"[")?;
    first.put(output, Form::Json)?;
    for next in rest {
        put_next(output, *next)?;
    }
    output.write_all(b"]")
}

fn put_next<W: Write>(output: &mut W, number: u64) -> io::Result<()>
    ensures { OnOk result (Gains (W.contents output.old) (W.contents output.new) (codes "," ++ decimal number)) }
{
    output.write_all(b",")?;
    number.put(output, Form::Lines)
}
