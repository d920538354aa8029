//! What a packet answers, and what got no answer.

#![tactic(auto, using(crate::proofs::Rows::fields, crate::proofs::SummaryObjects::objects))]

ghost use Rattle.std.specs.Prelude.{◌≡◌, ◌==◌, ◌&&◌, OnOk, flat_map, true};
ghost use Rattle.std.specs.Option.{option_map};
ghost use Rattle.packet_fields.specs.Output.{Gains, GainsSome};
ghost use Rattle.packet_fields.specs.Prints.{Prints};
ghost use Rattle.packet_pairs.specs.Pairs.{state_of};
ghost use Rattle.packet_pairs.specs.Shown.{asked_items};
ghost use Rattle.dump_captures.specs.End.{UnansweredIf};
ghost use Rattle.dump_captures.specs.Pairing.{Unanswered, answer_items, as_words, dropped_items, dropped_text};
ghost use Rattle.dump_captures.specs.Pairing.{question_text, unanswered_lines, unanswered_text};
ghost use Rattle.dump_captures.specs.private.Objects.{line_of, octet_unless};

use crate::objects::{close_object, open_summary};
use crate::options::Options;
use packet_fields::Form;
use packet_fields::field::field;
use packet_pairs::{Answered, Asked, Pairs, show_answered, show_asked};
use std::alloc::Global;
use std::io;
use std::io::Write;

/// Prints what a packet answers.
#[inline]
pub fn show_answer<W: Write>(output: &mut W, form: Form, answer: Option<Answered>) -> io::Result<()>
    ensures { OnOk result (Prints form (W.contents output.old) (W.contents output.new) (answer_items form answer)) }
{
    match answer {
        Some(answered) => show_answered(output, form, &answered),
        None => Ok(()),
    }
}

/// Prints the questions that got no answer, where answers are looked for.
pub(crate) fn show_unanswered<W: Write>(
    output: &mut W,
    alloc: Global,
    options: &Options,
    file: Option<&str>,
    pairs: &Pairs,
) -> io::Result<()>
    ensures { OnOk result (GainsSome (W.contents output.old) (W.contents output.new)
        (UnansweredIf (options.now.pairs && options.now.prints) options.now
        (option_map (λ name. name.now) file.entry) (state_of pairs.now))) }
{
    if options.pairs && options.prints {
        return show_waiting(output, alloc, options, file, pairs);
    }
    Ok(())
}

// Prints the questions that wait, and how many were dropped.
fn show_waiting<W: Write>(
    output: &mut W,
    alloc: Global,
    options: &Options,
    file: Option<&str>,
    pairs: &Pairs,
) -> io::Result<()>
    ensures { OnOk result (GainsSome (W.contents output.old) (W.contents output.new)
        (Unanswered options.now (option_map (λ name. name.now) file.entry) (state_of pairs.now))) }
{
    let (earlier, later) = pairs.waiting();
    show_questions(output, alloc, options, file, earlier)?;
    show_questions(output, alloc, options, file, later)?;
    show_dropped(output, alloc, options, file, pairs.dropped())
}

// Prints these questions.
fn show_questions<W: Write>(
    output: &mut W,
    alloc: Global,
    options: &Options,
    file: Option<&str>,
    questions: &[Asked],
) -> io::Result<()>
    ensures { OnOk result (Gains (W.contents output.old) (W.contents output.new)
        (flat_map (question_text options.now (option_map (λ name. name.now) file.entry)) questions.now)) }
{
    for question in questions {
        show_question(output, alloc, options, file, question)?;
    }
    Ok(())
}

fn show_question<W: Write>(
    output: &mut W,
    alloc: Global,
    options: &Options,
    file: Option<&str>,
    question: &Asked,
) -> io::Result<()>
    ensures { OnOk result (Gains (W.contents output.old) (W.contents output.new)
        (question_text options.now (option_map (λ name. name.now) file.entry) question.now)) }
{
    match options.form {
        Form::Json => {
            open_summary(output, "unanswered", file)?;
            show_asked(output, Form::Json, question)?;
            close_object(output)
        }
        Form::Lines => show_in_lines(output, alloc, options.is_brief, question),
    }
}

// Prints a question in lines, or on one.
fn show_in_lines<W: Write>(
    output: &mut W,
    alloc: Global,
    is_brief: bool,
    question: &Asked,
) -> io::Result<()>
    ensures { OnOk result (Gains (W.contents output.old) (W.contents output.new)
        (unanswered_lines is_brief (asked_items question.now))) }
{
    if is_brief {
        let mut lines = Vec::new(alloc);
        show_asked(&mut lines, Form::Lines, question)?;
        return show_on_a_line(output, lines.as_slice());
    }
    output.write_all(b"unanswered\n")?;
    show_asked(output, Form::Lines, question)
}

// Prints how many questions were dropped, where there are any.
fn show_dropped<W: Write>(
    output: &mut W,
    alloc: Global,
    options: &Options,
    file: Option<&str>,
    dropped: u64,
) -> io::Result<()>
    ensures { OnOk result (Gains (W.contents output.old) (W.contents output.new)
        (dropped_text options.now (option_map (λ name. name.now) file.entry) dropped)) }
{
    if dropped == 0 {
        return Ok(());
    }
    show_count(output, alloc, options, file, dropped)
}

fn show_count<W: Write>(
    output: &mut W,
    alloc: Global,
    options: &Options,
    file: Option<&str>,
    dropped: u64,
) -> io::Result<()>
    ensures { OnOk result (Gains (W.contents output.old) (W.contents output.new)
        (unanswered_text options.now.form options.now.is_brief (option_map (λ name. name.now) file.entry)
        (dropped_items dropped))) }
{
    match options.form {
        Form::Json => {
            open_summary(output, "unanswered", file)?;
            field(output, Form::Json, "dropped", dropped)?;
            close_object(output)
        }
        Form::Lines => show_dropped_in_lines(output, alloc, options.is_brief, dropped),
    }
}

// Prints the same in lines, or on one.
fn show_dropped_in_lines<W: Write>(
    output: &mut W,
    alloc: Global,
    is_brief: bool,
    dropped: u64,
) -> io::Result<()>
    ensures { OnOk result (Gains (W.contents output.old) (W.contents output.new)
        (unanswered_lines is_brief (dropped_items dropped))) }
{
    if is_brief {
        let mut lines = Vec::new(alloc);
        field(&mut lines, Form::Lines, "dropped", dropped)?;
        return show_on_a_line(output, lines.as_slice());
    }
    output.write_all(b"unanswered\n")?;
    field(output, Form::Lines, "dropped", dropped)
}

// Prints these lines on one that begins with what they are.
fn show_on_a_line<W: Write>(output: &mut W, lines: &[u8]) -> io::Result<()>
    ensures { OnOk result (Gains (W.contents output.old) (W.contents output.new) (line_of lines.now)) }
{
    output.write_all(b"unanswered")?;
    put_as_words(output, lines)?;
    output.write_all(b"\n")
}

// Prints lines as words of one: each loses its end and the first of the spaces before it.
fn put_as_words<W: Write>(output: &mut W, lines: &[u8]) -> io::Result<()>
    ensures { OnOk result (Gains (W.contents output.old) (W.contents output.new) (as_words true lines.now)) }
{
    let mut begins = true;
    for octet in lines {
        let ends = is_end(*octet);
        put_unless(output, *octet, begins | ends)?;
        begins = !begins & ends;
    }
    Ok(())
}

// Whether an octet is the end of a line.
fn is_end(octet: u8) -> bool
    ensures { result ≡ (octet == 10) }
{
    octet == b'\n'
}

// Prints an octet, or nothing.
fn put_unless<W: Write>(output: &mut W, octet: u8, is_left_out: bool) -> io::Result<()>
    ensures { OnOk result (Gains (W.contents output.old) (W.contents output.new) (octet_unless octet is_left_out)) }
{
    if is_left_out {
        return Ok(());
    }
    output.write_all(&[octet])
}
