//! Objects of JSON on a line each.

#![tactic(auto, using(packet_fields::proofs::Printing::gained, packet_fields::proofs::Printing::gains_both))]

ghost use Rattle.std.specs.Prelude.{OnOk, codes};
ghost use Rattle.packet_fields.specs.Output.{Gains};
ghost use Rattle.std.specs.Option.{option_map};
ghost use Rattle.dump_captures.specs.private.Objects.{object_front, summary_front};

use crate::members::show_file;
use packet_fields::Form;
use packet_fields::value::{Value, put_string};
use std::io;
use std::io::Write;

/// Prints the front of an object, up to its first member.
pub(crate) fn open_object<V: Value, W: Write>(output: &mut W, key: &str, value: V) -> io::Result<()>
    ensures { OnOk result (Gains (W.contents output.old) (W.contents output.new)
        (object_front key.now (V.leaf value))) }
{
    output.write_all(b"{")?;
    put_string(output, key)?;
    output.write_all(b":")?;
    value.put(output, Form::Json)
}

/// Prints the front of an object that stands behind those of packets, up to the name of the file where it is to be
/// told.
pub(crate) fn open_summary<W: Write>(
    output: &mut W,
    word: &str,
    file: Option<&str>,
) -> io::Result<()>
    ensures { OnOk result (Gains (W.contents output.old) (W.contents output.new)
        (summary_front word.now (option_map (λ name. name.now) file.entry))) }
{
    open_object(output, "summary", word)?;
    show_file(output, file)
}

/// Prints the end of an object, behind its last member.
pub(crate) fn close_object<W: Write>(output: &mut W) -> io::Result<()>
    ensures { OnOk result (Gains (W.contents output.old) (W.contents output.new) (codes "}\n")) }
{
    output.write_all(b"}\n")
}
