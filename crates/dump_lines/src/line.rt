//! What a line prints.

ghost use Rattle.std.specs.Prelude.{◌≡◌, ◌⊎◌, [], OnOk, IfOk, IfErr};
ghost use Rattle.packet_fields.specs.Output.{GainsSome};
ghost use Rattle.dump_lines.specs.Listing.{LinePrints, is_known};
ghost use Rattle.dump_lines.specs.PartialLines.{shape_from};
ghost use Rattle.dump_lines.specs.Shapes.{seen};

use crate::Fault;
use crate::partial_line::Line;
use crate::shape::Shape;
use listing::printer;
use std::alloc::Global;
use std::io::Write;

/// Prints what a line holds, and returns whether its shape is known.
///
/// A line is a command, the command's further words, and a packet. A line without a word prints nothing.
#[inline]
pub fn show_line<W: Write>(
    alloc: Global,
    packet_buffer: &mut Vec<u8>,
    output: &mut W,
    line: &Line,
) -> Result<bool, Fault>
    ensures known { IfOk result (λ known. known ≡ is_known (shape_from line.now [])) }
    ensures prints { OnOk result (GainsSome (W.contents output.old) (W.contents output.new)
        (LinePrints (shape_from line.now []))) }
    ensures fault { IfErr result (λ fault. (fault ≡ Fault.Memory) ⊎ (fault ≡ Fault.Write)) }
{
    show_shape(output, line.shape(alloc, packet_buffer)?)
}

/// Prints the output of a line of this shape.
#[inline]
pub fn show_shape<W: Write>(output: &mut W, shape: Shape<'_>) -> Result<bool, Fault>
    ensures known { IfOk result (λ known. known ≡ is_known (seen shape.entry)) }
    ensures prints { OnOk result (GainsSome (W.contents output.old) (W.contents output.new)
        (LinePrints (seen shape.entry))) }
    ensures fault { IfErr result (λ fault. fault ≡ Fault.Write) }
{
    let (shown, known) = match shape {
        Shape::Blank => (Ok(()), true),
        Shape::Packet(command, packet) => (command.show(output, packet), true),
        Shape::Bad => (printer::line(output, "bad line"), false),
    };
    match shown {
        Ok(()) => Ok(known),
        Err(_) => Err(Fault::Write),
    }
}
