//! Lines of an input, read in bounded memory.
//!
//! Of a line its words are kept, each with one space after it but the last. A line with a word too long or too many
//! words is bad whatever follows, so that nothing more of it is kept.

ghost use Rattle.std.specs.Prelude.{◌≡◌, ◌≢◌, ◌≤◌, ◌⊎◌, ℕ, All, IfOk, IfErr, IfSome, OnSome, List, [], length, take};
ghost use Rattle.std.specs.Prelude.{◌↔◌, IsOk, Option};
ghost use Rattle.std.specs.IoError.{error_kind};
ghost use Rattle.std.specs.Io.KnownBytes.{Consumes, IsAtEnd};
ghost use Rattle.dump_lines.specs.PartialLines.{IsFresh, IsKept, NextLine, shape_from};
ghost use Rattle.dump_lines.specs.private.Parts.{Takes, TakesPart};
ghost use Rattle.dump_lines.specs.Shapes.{seen};

use crate::Fault;
use crate::search::{len_before, len_before_either, spaces_len};
use crate::shape::Shape;
use crate::words::{MOST_OCTETS, MOST_WORDS};
use std::alloc::Global;
use std::io;
use std::io::{BufRead, ErrorKind};

/// A line as far as it is read.
#[derive(Drop)]
pub struct Line {
    // Its words, each with one space after it but the last.
    octets: Vec<u8>,
    // The offset of the last word.
    start: usize,
    // The number of octets before that one.
    words: usize,
    // Whether the line is bad, whatever follows.
    is_bad: bool,
}

impl Line {
    /// A line of which nothing is read.
    #[inline]
    pub fn new(alloc: Global) -> Line
        ensures kept { IsKept result }
        ensures fresh { IsFresh result }
    {
        Line {
            octets: Vec::new(alloc),
            start: 0,
            words: 0,
            is_bad: false,
        }
    }

    fn clear(&mut self)
        ensures kept { IsKept self.new }
        ensures fresh { IsFresh self.new }
    {
        self.octets.clear();
        self.start = 0;
        self.words = 0;
        self.is_bad = false;
    }

    /// The line's shape, once it is read. The packet is in the buffer.
    #[inline]
    pub fn shape<'a>(
        &self,
        alloc: Global,
        packet_buffer: &'a mut Vec<u8>,
    ) -> Result<Shape<'a>, Fault>
        ensures shape { IfOk result (λ shape. seen shape ≡ shape_from self.now []) }
        ensures fault { IfErr result (λ fault. fault ≡ Fault.Memory) }
    {
        if self.is_bad {
            return Ok(Shape::Bad);
        }
        Shape::of_line(alloc, packet_buffer, self.octets.as_slice())
    }

    // Takes spaces, of which one is kept after a word.
    fn take_spaces(&mut self, spaces: &[u8]) -> Result<(), Fault>
        requires kept { IsKept self.old }
        requires spaces { All (λ octet. octet ≡ 32) spaces.now }
        ensures kept { IfOk result (λ _. IsKept self.new) }
        ensures takes { IfOk result (λ _. Takes self.old self.new spaces.now) }
        ensures fault { IfErr result (λ fault. fault ≡ Fault.Memory) }
    {
        if spaces.is_empty() || self.is_bad || self.start == self.octets.as_slice().len() {
            return Ok(());
        }
        if self.words == MOST_WORDS {
            self.is_bad = true;
            return Ok(());
        }
        let Ok(()) = self.octets.extend_from_slice(b" ") else {
            return Err(Fault::Memory);
        };
        self.words += 1;
        self.start = self.octets.as_slice().len();
        Ok(())
    }

    // Takes a part of a word.
    fn take_word(&mut self, part: &[u8]) -> Result<(), Fault>
        requires kept { IsKept self.old }
        requires word { All (λ octet. octet ≢ 32) part.now }
        ensures kept { IfOk result (λ _. IsKept self.new) }
        ensures takes { IfOk result (λ _. Takes self.old self.new part.now) }
        ensures fault { IfErr result (λ fault. fault ≡ Fault.Memory) }
    {
        if self.is_bad {
            return Ok(());
        }
        // A CR may still be the line's end.
        if part.len() > MOST_OCTETS + 1 - (self.octets.as_slice().len() - self.start) {
            self.is_bad = true;
            return Ok(());
        }
        match self.octets.extend_from_slice(part) {
            Ok(()) => Ok(()),
            Err(_) => Err(Fault::Memory),
        }
    }
}

/// Reads the next line, and returns whether there was one.
#[inline]
pub fn read_line<R: BufRead>(input: &mut R, line: &mut Line) -> Result<bool, Fault>
    ensures next { IfOk result (λ more. IfSome (R.remaining input.old) (λ octets.
        NextLine octets (R.remaining input.new) line.new more)) }
    ensures kept { IfOk result (λ _. IsKept line.new) }
    ensures fault { IfErr result (λ fault. (fault ≡ Fault.Read) ⊎ (fault ≡ Fault.Memory)) }
{
    line.clear();
    let mut begun = false;
    'parts: for _ in 0..u64::MAX {
        let (count, ended) = take_part(input, line)?;
        begun |= count > 0;
        if ended {
            return Ok(begun);
        }
    }
    Err(Fault::Read)
}

/// A read that was interrupted is tried again; any other failure is a fault.
pub fn try_again(error: &io::Error) -> Result<(), Fault>
    ensures again { IsOk result ↔ (error_kind error.now ≡ ErrorKind.Interrupted) }
    ensures fault { IfErr result (λ fault. fault ≡ Fault.Read) }
{
    if error.kind() == ErrorKind::Interrupted {
        Ok(())
    } else {
        Err(Fault::Read)
    }
}

// Takes spaces and what is buffered of a word after them; returns the number of octets taken, and whether the line or
// the input has ended.
fn take_part<R: BufRead>(input: &mut R, line: &mut Line) -> Result<(usize, bool), Fault>
    requires { IsKept line.old }
    ensures kept { IfOk result (λ _. IsKept line.new) }
    ensures takes { IfOk result (λ taken.
        TakesPart (R.remaining input.old) (R.remaining input.new) line.old line.new taken.0 taken.1) }
    ensures fault { IfErr result (λ fault. (fault ≡ Fault.Read) ⊎ (fault ≡ Fault.Memory)) }
{
    let available = match input.fill_buf() {
        Ok(available) => available,
        Err(error) => {
            try_again(&error)?;
            return Ok((0, false));
        }
    };
    let (count, ended) = take_line(line, available)?;
    input.consume(count);
    Ok((count, ended))
}

// `take_part` of the buffered octets, which are empty only at the input's end.
fn take_line(line: &mut Line, shown: &[u8]) -> Result<(usize, bool), Fault>
    requires { IsKept line.old }
    ensures kept { IfOk result (λ _. IsKept line.new) }
    ensures bound { IfOk result (λ taken. taken.0 ≤ length shown.now) }
    ensures takes { IfOk result (λ taken. (old new : Option (List ℕ)) → Consumes old new (take taken.0 shown.now)
        → (length shown.now ≡ 0 → OnSome old (IsAtEnd new))
        → TakesPart old new line.old line.new taken.0 taken.1) }
    ensures fault { IfErr result (λ fault. fault ≡ Fault.Memory) }
{
    let end = take_front(line, shown)?;
    if end < shown.len() && shown[end] == b'\n' {
        return Ok((end + 1, true));
    }
    Ok((end, shown.is_empty()))
}

// Takes the spaces in front and the word after them, or all that is buffered of a bad line, and returns the number of
// octets.
fn take_front(line: &mut Line, shown: &[u8]) -> Result<usize, Fault>
    requires { IsKept line.old }
    ensures kept { IfOk result (λ _. IsKept line.new) }
    ensures bound { IfOk result (λ end. end ≤ length shown.now) }
    ensures takes { IfOk result (λ end. Takes line.old line.new (take end shown.now)) }
    ensures no_end { IfOk result (λ end. All (λ octet. octet ≢ 10) (take end shown.now)) }
    ensures fault { IfErr result (λ fault. fault ≡ Fault.Memory) }
{
    if line.is_bad {
        // The line is as it was, whatever follows.
        return Ok(len_before(shown, b'\n'));
    }
    let spaces = spaces_len(shown);
    let end = spaces + word_len(&shown[spaces..]);
    line.take_spaces(&shown[..spaces])?;
    line.take_word(&shown[spaces..end])?;
    Ok(end)
}

// The number of octets before the first space or LF.
fn word_len(octets: &[u8]) -> usize
    ensures bound { result ≤ length octets.now }
    ensures no_space { All (λ octet. octet ≢ 32) (take result octets.now) }
    ensures no_end { All (λ octet. octet ≢ 10) (take result octets.now) }
{
    len_before_either(octets, b' ', b'\n')
}
