//! One look at an input for its next line, which is read in the input's buffer if it is there as a whole.

ghost use Rattle.std.specs.Prelude.{◌≡◌, ◌≤◌, ◌⊎◌, ℕ, IfOk, IfErr, IfSome, OnSome, List, Option, length, take};
ghost use Rattle.std.specs.Io.KnownBytes.{Consumes, IsAtEnd};
ghost use Rattle.dump_lines.specs.BufferedLines.{Sees};

use crate::Fault;
use crate::partial_line::try_again;
use crate::search::len_before;
use crate::shape::Shape;
use std::alloc::Global;
use std::io::BufRead;

/// What a look at an input finds of its next line.
#[derive(Clone, Copy)]
pub enum BufferedLine<'a> {
    /// The line was buffered as a whole, has this shape, and is taken.
    Line(Shape<'a>),
    /// Not all of it is buffered, and nothing is taken.
    Part,
    /// There is no line.
    End,
}

/// Looks for the next line, whose packet goes to the buffer.
#[inline]
pub fn look<'a, R: BufRead>(
    alloc: Global,
    packet_buffer: &'a mut Vec<u8>,
    input: &mut R,
) -> Result<BufferedLine<'a>, Fault>
    ensures sees { IfOk result (λ glance. IfSome (R.remaining input.old) (λ octets.
        Sees octets (R.remaining input.new) glance)) }
    ensures fault { IfErr result (λ fault. (fault ≡ Fault.Read) ⊎ (fault ≡ Fault.Memory)) }
{
    let available = match input.fill_buf() {
        Ok(available) => available,
        Err(error) => {
            try_again(&error)?;
            return Ok(BufferedLine::Part);
        }
    };
    let (count, glance) = look_at(alloc, packet_buffer, available)?;
    input.consume(count);
    Ok(glance)
}

// `look` over the buffered octets, which are empty only at the input's end; also returns the number of octets that are
// taken.
#[inline]
fn look_at<'a>(
    alloc: Global,
    packet_buffer: &'a mut Vec<u8>,
    shown: &[u8],
) -> Result<(usize, BufferedLine<'a>), Fault>
    ensures bound { IfOk result (λ taken. taken.0 ≤ length shown.now) }
    ensures sees { IfOk result (λ taken. (old new : Option (List ℕ)) → Consumes old new (take taken.0 shown.now)
        → (length shown.now ≡ 0 → OnSome old (IsAtEnd new))
        → IfSome old (λ octets. Sees octets new taken.1)) }
    ensures fault { IfErr result (λ fault. fault ≡ Fault.Memory) }
{
    if shown.is_empty() {
        return Ok((0, BufferedLine::End));
    }
    let end = len_before(shown, b'\n');
    if end == shown.len() {
        return Ok((0, BufferedLine::Part));
    }
    let shape = Shape::of_line(alloc, packet_buffer, &shown[..end])?;
    Ok((end + 1, BufferedLine::Line(shape)))
}
