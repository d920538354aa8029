//! Entries of lists whose octets are not told apart.

#![tactic(auto, using(crate::proofs::Fields::cells_both, crate::proofs::Fields::cells_none))]

ghost use Rattle.std.specs.Prelude.{OnOk};
ghost use Rattle.std.specs.Option.{option_map};
ghost use Rattle.packet_fields.specs.Prints.{PrintsCells};
ghost use Rattle.packet_fields.specs.Entries.{PrintsEntry, octets_entry, refused_cells};
ghost use Rattle.packet_fields.specs.Labels.{label_text};

use crate::entry::{close_entry, first_cell, hidden_number, keyed_cell, open_entry};
use crate::form::Form;
use crate::label::Label;
use std::io;
use std::io::Write;

/// Prints an entry by its octets, with why it is refused where it is; its number is the label's.
pub fn show_octets<W: Write>(
    output: &mut W,
    form: Form,
    is_first: bool,
    label_key: &str,
    label: Label<'_>,
    data: &[u8],
    refused: Option<&str>,
) -> io::Result<()>
    ensures { OnOk result (PrintsEntry form is_first (W.contents output.old) (W.contents output.new)
        (octets_entry label_key.now
        (label_text (option_map (λ name. name.now) label.entry.name) label.entry.kind.now label.entry.number)
        «data».now (option_map (λ why. why.now) refused.entry) label.entry.number)) }
{
    open_entry(output, form, is_first, label_key, label)?;
    first_cell(output, form, "data", data)?;
    show_refused(output, form, refused)?;
    hidden_number(output, form, "type", label.number as u64)?;
    close_entry(output, form)
}

// Prints why an entry is refused, where it is.
fn show_refused<W: Write>(output: &mut W, form: Form, refused: Option<&str>) -> io::Result<()>
    ensures { OnOk result (PrintsCells form (W.contents output.old) (W.contents output.new)
        (refused_cells (option_map (λ why. why.now) refused.entry))) }
{
    match refused {
        Some(why) => keyed_cell(output, form, "refused", why),
        None => Ok(()),
    }
}
