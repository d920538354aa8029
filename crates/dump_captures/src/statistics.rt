//! The page of what the messages of a capture say.

#![tactic(auto, using(packet_fields::proofs::Fields::prints_both, crate::proofs::SummaryObjects::objects))]

ghost use Rattle.std.specs.Prelude.{◌&&◌, OnOk};
ghost use Rattle.std.specs.Option.{option_map};
ghost use Rattle.packet_fields.specs.Output.{GainsSome};
ghost use Rattle.packet_stats.specs.Stats.{state_of};
ghost use Rattle.dump_captures.specs.Statistics.{Page, PageIf};

use crate::objects::{close_object, open_summary};
use crate::options::Options;
use packet_fields::Form;
use packet_stats::{Stats, show_stats};
use std::io;
use std::io::Write;

/// Prints the page, where it is asked for.
pub(crate) fn show_statistics<W: Write>(
    output: &mut W,
    options: &Options,
    file: Option<&str>,
    stats: &mut Stats,
) -> io::Result<()>
    ensures { OnOk result (GainsSome (W.contents output.old) (W.contents output.new)
        (PageIf (options.now.stats && options.now.prints) options.now (option_map (λ name. name.now) file.entry)
        (state_of stats.old))) }
{
    if options.stats && options.prints {
        return show_page(output, options, file, stats);
    }
    Ok(())
}

fn show_page<W: Write>(
    output: &mut W,
    options: &Options,
    file: Option<&str>,
    stats: &mut Stats,
) -> io::Result<()>
    ensures { OnOk result (GainsSome (W.contents output.old) (W.contents output.new)
        (Page options.now (option_map (λ name. name.now) file.entry) (state_of stats.old))) }
{
    match options.form {
        Form::Json => {
            open_summary(output, "statistics", file)?;
            show_stats(output, Form::Json, stats)?;
            close_object(output)
        }
        Form::Lines => {
            output.write_all(b"statistics\n")?;
            show_stats(output, Form::Lines, stats)
        }
    }
}
