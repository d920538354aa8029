//! The lines of an input, in one pass.

ghost use Rattle.std.specs.Prelude.{◌≡◌, [], IfOk, OnOk, IfSome};
ghost use Rattle.std.specs.Io.Buffered.{reader_remaining};
ghost use Rattle.packet_fields.specs.Output.{Gains, GainsSome};
ghost use Rattle.dump_lines.specs.private.Parts.{ShowsFirst};
ghost use Rattle.dump_lines.specs.Listing.{LinesPrint, are_known, shapes_of};
ghost use Rattle.dump_lines.specs.Status.{status_of};

use crate::Fault;
use crate::buffered_line::{BufferedLine, look};
use crate::line::{show_line, show_shape};
use crate::partial_line::{Line, read_line};
use std::alloc::Global;
use std::io::{BufReader, BufWriter, Read, Write};

/// Prints what each line of the input holds; returns true where each line had a known shape.
///
/// Output is written out before more of the input is waited for, and before a fault is returned, as far as the output
/// takes it.
pub fn run<R: Read + Drop, W: Write + Drop>(
    alloc: Global,
    input: R,
    output: W,
) -> Result<bool, Fault>
    ensures { IfOk result (λ known. IfSome (R.remaining input) (λ octets.
        known ≡ are_known (shapes_of octets))) }
{
    let (all_known, _) = run_onto(alloc, input, output)?;
    Ok(all_known)
}

/// Prints what each line of the input holds, and returns the output with all that was printed written out.
pub fn run_onto<R: Read + Drop, W: Write + Drop>(
    alloc: Global,
    input: R,
    output: W,
) -> Result<(bool, W), Fault>
    ensures known { IfOk result (λ answer. IfSome (R.remaining input) (λ octets.
        answer.0 ≡ are_known (shapes_of octets))) }
    ensures prints { IfOk result (λ answer. IfSome (R.remaining input) (λ octets.
        GainsSome (W.contents output) (W.contents answer.1) (LinesPrint (shapes_of octets)))) }
{
    let Ok(mut input) = BufReader::new(alloc, input) else {
        return Err(Fault::Memory);
    };
    let Ok(mut output) = BufWriter::new(alloc, output) else {
        return Err(Fault::Memory);
    };
    let all_known = show_flushed(alloc, &mut input, &mut output)?;
    match output.into_inner() {
        Ok(output) => Ok((all_known, output)),
        Err(_) => Err(Fault::Write),
    }
}

// Prints what each line holds, and then writes out the output, also after a fault.
fn show_flushed<R: Read, W: Write>(
    alloc: Global,
    input: &mut BufReader<R>,
    output: &mut W,
) -> Result<bool, Fault>
    ensures known { IfOk result (λ known. IfSome (reader_remaining R.remaining input.old) (λ octets.
        known ≡ are_known (shapes_of octets))) }
    ensures prints { OnOk result (IfSome (reader_remaining R.remaining input.old) (λ octets.
        GainsSome (W.contents output.old) (W.contents output.new) (LinesPrint (shapes_of octets)))) }
{
    let answer = show_lines(alloc, input, output);
    let flushed = output.flush();
    let all_known = answer?;
    match flushed {
        Ok(()) => Ok(all_known),
        Err(_) => Err(Fault::Write),
    }
}

// Prints what each line holds; returns true where each line had a known shape.
fn show_lines<R: Read, W: Write>(
    alloc: Global,
    input: &mut BufReader<R>,
    output: &mut W,
) -> Result<bool, Fault>
    ensures known { IfOk result (λ known. IfSome (reader_remaining R.remaining input.old) (λ octets.
        known ≡ are_known (shapes_of octets))) }
    ensures prints { OnOk result (IfSome (reader_remaining R.remaining input.old) (λ octets.
        GainsSome (W.contents output.old) (W.contents output.new) (LinesPrint (shapes_of octets)))) }
{
    let mut line = Line::new(alloc);
    let mut packet_buffer = Vec::new(alloc);
    let mut all_known = true;
    'lines: for _ in 0..u64::MAX {
        match show_next(alloc, input, output, &mut line, &mut packet_buffer)? {
            Some(known) => {
                all_known &= known;
            }
            None => return Ok(all_known),
        }
    }
    Err(Fault::Read)
}

// Prints what the next line holds, and returns whether its shape is known, or None where there is no line. `line` keeps
// a line that is not buffered as a whole, and `packet_buffer` the packet of one that is.
#[tactic(auto, using(crate::proofs::Running::gains_behind))]
fn show_next<R: Read, W: Write>(
    alloc: Global,
    input: &mut BufReader<R>,
    output: &mut W,
    line: &mut Line,
    packet_buffer: &mut Vec<u8>,
) -> Result<Option<bool>, Fault>
    ensures { IfOk result (λ known. IfSome (reader_remaining R.remaining input.old) (λ octets.
        ShowsFirst octets (reader_remaining R.remaining input.new)
        (W.contents output.old) (W.contents output.new) known)) }
{
    write_out_before_wait(input, output)?;
    let glance = look(alloc, packet_buffer, input)?;
    match glance {
        BufferedLine::Line(shape) => {
            let known = show_shape(output, shape)?;
            Ok(Some(known))
        }
        BufferedLine::Part => show_part(alloc, input, output, line),
        BufferedLine::End => Ok(None),
    }
}

// Shows a line that is not buffered as a whole. Its packet may be long, and is not kept for the lines after it.
#[tactic(auto, using(crate::proofs::Running::gains_behind))]
fn show_part<R: Read, W: Write>(
    alloc: Global,
    input: &mut BufReader<R>,
    output: &mut W,
    line: &mut Line,
) -> Result<Option<bool>, Fault>
    ensures { IfOk result (λ known. IfSome (reader_remaining R.remaining input.old) (λ octets.
        ShowsFirst octets (reader_remaining R.remaining input.new)
        (W.contents output.old) (W.contents output.new) known)) }
{
    // The rest of the line is waited for.
    write_out(output)?;
    let more = read_line(input, line)?;
    if !more {
        return Ok(None);
    }
    let known = show_line(alloc, &mut Vec::new(alloc), output, line)?;
    Ok(Some(known))
}

// Writes out the output, where the next look at an input has to wait for more of it.
#[tactic(auto, using(packet_fields::proofs::Printing::gains_none))]
fn write_out_before_wait<R: Read, W: Write>(
    input: &BufReader<R>,
    output: &mut W,
) -> Result<(), Fault>
    ensures { OnOk result (Gains (W.contents output.old) (W.contents output.new) []) }
{
    if input.buffer().is_empty() {
        return write_out(output);
    }
    Ok(())
}

#[tactic(auto, using(crate::proofs::Running::gains_kept))]
fn write_out<W: Write>(output: &mut W) -> Result<(), Fault>
    ensures { OnOk result (Gains (W.contents output.old) (W.contents output.new) []) }
{
    match output.flush() {
        Ok(()) => Ok(()),
        Err(_) => Err(Fault::Write),
    }
}

/// The exit status for the result of a run.
pub fn status(answer: &Result<bool, Fault>) -> u8
    ensures { result ≡ status_of answer.now }
{
    match answer {
        Ok(true) => 0,
        Ok(false) => 2,
        Err(_) => 3,
    }
}
