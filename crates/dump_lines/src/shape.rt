//! The shape of a line: a command and a packet, nothing, or no known shape.

ghost use Rattle.std.specs.Prelude.{◌≡◌, IfOk, IfErr, map, true};
ghost use Rattle.std.specs.Io.BufRead.{strip_last};
ghost use Rattle.dump_lines.specs.Lines.{are_short, words_in};
ghost use Rattle.dump_lines.specs.Listing.{line_shape, shape_of};
ghost use Rattle.dump_lines.specs.Shapes.{seen};

use crate::Fault;
use crate::command::Command;
use crate::words::{MOST_OCTETS, MOST_WORDS, next_word, read_word};
use arrayvec::ArrayVec;
use std::alloc::Global;

/// The shape of a line.
#[derive(Clone, Copy)]
pub enum Shape<'a> {
    /// No word.
    Blank,
    /// A command and a packet.
    Packet(Command, &'a [u8]),
    /// No known shape.
    Bad,
}

impl<'a> Shape<'a> {
    /// The shape of a line without its LF. The packet goes to the buffer.
    pub fn of_line(
        alloc: Global,
        packet_buffer: &'a mut Vec<u8>,
        line: &[u8],
    ) -> Result<Shape<'a>, Fault>
        ensures shape { IfOk result (λ shape. seen shape ≡ line_shape line.now) }
        ensures fault { IfErr result (λ fault. fault ≡ Fault.Memory) }
    {
        Shape::of_text(alloc, packet_buffer, without_cr(line))
    }

    // The shape of a line without its end.
    fn of_text(
        alloc: Global,
        packet_buffer: &'a mut Vec<u8>,
        text: &[u8],
    ) -> Result<Shape<'a>, Fault>
        ensures shape { IfOk result (λ shape. seen shape ≡ shape_of (words_in text.now)) }
        ensures fault { IfErr result (λ fault. fault ≡ Fault.Memory) }
    {
        let mut words = ArrayVec::<&[u8], MOST_WORDS>::new();
        let mut rest = text;
        loop {
            let (word, behind) = next_word(rest);
            if word.is_empty() {
                return Shape::of_words(alloc, packet_buffer, words.as_slice());
            }
            if word.len() > MOST_OCTETS || words.try_push(word).is_err() {
                return Ok(Shape::Bad);
            }
            rest = behind;
        }
    }

    // The shape of a line of these words.
    fn of_words(
        alloc: Global,
        packet_buffer: &'a mut Vec<u8>,
        words: &[&[u8]],
    ) -> Result<Shape<'a>, Fault>
        requires { are_short (map (λ word. word.now) words.now) ≡ true }
        ensures shape { IfOk result (λ shape.
            seen shape ≡ shape_of (map (λ word. word.now) words.now)) }
        ensures fault { IfErr result (λ fault. fault ≡ Fault.Memory) }
    {
        match words {
            [] => Ok(Shape::Blank),
            [word, arguments @ .., packet] => {
                let Some(command) = Command::of(word, arguments) else {
                    return Ok(Shape::Bad);
                };
                match read_word(alloc, packet_buffer, packet)? {
                    Some(packet) if command.reads(packet) => Ok(Shape::Packet(command, packet)),
                    _ => Ok(Shape::Bad),
                }
            }
            [_] => Ok(Shape::Bad),
        }
    }
}

/// A line without the CR at its end.
pub fn without_cr(line: &[u8]) -> &[u8]
    ensures { result.now ≡ strip_last 13 line.now }
{
    match line {
        [front @ .., b'\r'] => front,
        _ => line,
    }
}
