//! OPT records, a line each.

ghost use Rattle.std.specs.Prelude.{Some};
ghost use Rattle.std.specs.Fmt.{WritesOnOk};
ghost use Rattle.wirebase.specs.Answers.{seen};
ghost use Rattle.record_wire.specs.Edns.{edns_of, option_of, answers_in};
ghost use Rattle.record_wire.specs.OptText.{opt_text, edns_flags_text, answer_text, options_text};

use crate::edns::{Edns, EdnsOption, EdnsOptions, OptionRefusal};
use std::{fmt, result};

/// An OPT record as a comment of a zone file, in the manner of dig.
#[derive(Clone, Copy)]
pub(super) struct Comment<'a>(pub(super) Edns<'a>);

impl fmt::Display for Comment<'_> {
    ghost output = { λ comment. Some (opt_text (edns_of comment.0)) };

    fn fmt<W: fmt::Write>(&self, f: &mut fmt::Formatter<W>) -> fmt::Result {
        let edns = self.0;
        let flags = FlagsWord(edns.flags);
        let size = edns.payload_size;
        let rcode = edns.extended_rcode;
        let options = Options(edns.options);
        write!(
            f,
            "; EDNS: version: {}, flags: {flags}; udp: {size}; extended_rcode: {rcode}{options}",
            edns.version
        )
    }
}

// The flags: DO alone by its name, others as a number.
#[derive(Clone, Copy)]
struct FlagsWord(u16);

impl fmt::Display for FlagsWord {
    ghost output = { λ flags. Some (edns_flags_text flags.0) };

    fn fmt<W: fmt::Write>(&self, f: &mut fmt::Formatter<W>) -> fmt::Result {
        if self.0 == 0x8000 {
            return f.write_str("do");
        }
        write!(f, "{}", self.0)
    }
}

// Options, each after a semicolon, up to one that is cut.
#[derive(Clone, Copy)]
struct Options<'a>(&'a [u8]);

impl fmt::Display for Options<'_> {
    ghost output = { λ octets. Some (options_text (answers_in octets.0.now)) };

    fn fmt<W: fmt::Write>(&self, f: &mut fmt::Formatter<W>) -> fmt::Result {
        fmt_options(f, EdnsOptions::new(self.0))
    }
}

// An option, or why the octets do not begin with one.
#[derive(Clone, Copy)]
struct Answer<'a>(result::Result<EdnsOption<'a>, OptionRefusal>);

impl fmt::Display for Answer<'_> {
    ghost output = { λ answer. Some (answer_text (seen option_of answer.0)) };

    fn fmt<W: fmt::Write>(&self, f: &mut fmt::Formatter<W>) -> fmt::Result {
        match self.0 {
            Ok(option) => write!(f, "{option}"),
            Err(refusal) => write!(f, "{refusal}"),
        }
    }
}

// Writes each option that is left.
fn fmt_options<W: fmt::Write>(
    f: &mut fmt::Formatter<W>,
    mut options: EdnsOptions<'_>,
) -> fmt::Result
    ensures { WritesOnOk W.write_str_gives f.old result (options_text options.entry) f.new }
{
    while let Some(answer) = options.next() {
        write!(f, "; {}", Answer(answer))?;
    }
    Ok(())
}
