//! What stands around texts in a list.

#![tactic(auto, using(packet_fields::proofs::Printing::gained, packet_fields::proofs::Printing::gains_none))]

ghost use Rattle.std.specs.Prelude.{[], OnOk, codes};
ghost use Rattle.packet_fields.specs.Fields.{by_form, leaf_text, texts};
ghost use Rattle.packet_fields.specs.Output.{Gains};

use packet_fields::Form;
use std::io;
use std::io::Write;

/// Prints that there are no texts.
pub(crate) fn put_none<W: Write>(output: &mut W, form: Form) -> io::Result<()>
    ensures { OnOk result (Gains (W.contents output.old) (W.contents output.new) (leaf_text form (texts []))) }
{
    match form {
        Form::Lines => output.write_all(b"-"),
        Form::Json => output.write_all(b"[]"),
    }
}

/// Prints what precedes some.
pub(crate) fn put_opening<W: Write>(output: &mut W, form: Form) -> io::Result<()>
    ensures { OnOk result (Gains (W.contents output.old) (W.contents output.new) (by_form form [] (codes "["))) }
{
    match form {
        Form::Lines => Ok(()),
        Form::Json => output.write_all(b"["),
    }
}

/// Prints what follows them.
pub(crate) fn put_closing<W: Write>(output: &mut W, form: Form) -> io::Result<()>
    ensures { OnOk result (Gains (W.contents output.old) (W.contents output.new) (by_form form [] (codes "]"))) }
{
    match form {
        Form::Lines => Ok(()),
        Form::Json => output.write_all(b"]"),
    }
}
