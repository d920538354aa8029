//! What is printed behind the packets of a capture.

ghost use Rattle.std.specs.Prelude.{OnOk};
ghost use Rattle.std.specs.Option.{option_map};
ghost use Rattle.packet_fields.specs.Output.{GainsSome};
ghost use Rattle.dump_captures.specs.End.{EndPrints};
ghost use Rattle.dump_captures.specs.private.Kept.{session_of};

use crate::options::Options;
use crate::pairing::show_unanswered;
use crate::session::Session;
use crate::statistics::show_statistics;
use std::alloc::Global;
use std::io;
use std::io::Write;

/// Prints what got no answer, and the page of statistics, where they are asked for.
pub(crate) fn show_end<W: Write>(
    output: &mut W,
    alloc: Global,
    options: &Options,
    file: Option<&str>,
    session: &mut Session,
) -> io::Result<()>
    ensures { OnOk result (GainsSome (W.contents output.old) (W.contents output.new)
        (EndPrints options.now (option_map (λ name. name.now) file.entry) (session_of session.old))) }
{
    show_unanswered(output, alloc, options, file, &session.pairs)?;
    show_statistics(output, options, file, &mut session.stats)
}
