//! The table of counts.

#![tactic(auto, using(packet_fields::proofs::Printing::gained, packet_fields::proofs::Printing::gains_both))]

ghost use Rattle.std.specs.Prelude.{OnOk};
ghost use Rattle.packet_fields.specs.Output.{Gains};
ghost use Rattle.dump_captures.specs.Table.{table_text, head_text, reason_names, rows_text, chosen_text, row_text};
ghost use Rattle.dump_captures.specs.Table.{with_tabs};
ghost use Rattle.dump_captures.specs.Tally.{tally_of};

use crate::kind::{Kind, Reason};
use crate::options::Only;
use crate::tally::{Row, Tally};
use packet_fields::Form;
use packet_fields::value::Value;
use std::io;
use std::io::Write;

/// Prints the table of counts: a row for each kind of packets that may be chosen.
pub fn show_table<W: Write>(output: &mut W, only: &Only, tally: &Tally) -> io::Result<()>
    ensures { OnOk result (Gains (W.contents output.old) (W.contents output.new)
        (table_text only.now (tally_of tally.now))) }
{
    show_head(output)?;
    show_rows(output, only, tally)
}

// Prints the names of the columns.
fn show_head<W: Write>(output: &mut W) -> io::Result<()>
    ensures { OnOk result (Gains (W.contents output.old) (W.contents output.new) head_text) }
{
    output.write_all(b"kind\tlisted")?;
    show_reasons(output)?;
    output.write_all(b"\toctets\n")
}

// Prints the names of the reasons, each after a tab.
fn show_reasons<W: Write>(output: &mut W) -> io::Result<()>
    ensures { OnOk result (Gains (W.contents output.old) (W.contents output.new) reason_names) }
{
    for reason in &Reason::ALL {
        output.write_all(b"\t")?;
        reason.name().put(output, Form::Lines)?;
    }
    Ok(())
}

// Prints the rows of all kinds.
fn show_rows<W: Write>(output: &mut W, only: &Only, tally: &Tally) -> io::Result<()>
    ensures { OnOk result (Gains (W.contents output.old) (W.contents output.new)
        (rows_text only.now (tally_of tally.now))) }
{
    for kind in &Kind::ALL {
        show_chosen(output, only, tally, *kind)?;
    }
    Ok(())
}

// Prints the row of a kind, where packets of it may be chosen.
fn show_chosen<W: Write>(output: &mut W, only: &Only, tally: &Tally, kind: Kind) -> io::Result<()>
    ensures { OnOk result (Gains (W.contents output.old) (W.contents output.new)
        (chosen_text only.now tally.now.rows kind)) }
{
    if !only.kinds[kind.place()] && !only.hop_by_hop {
        return Ok(());
    }
    show_row(output, kind, &tally.rows[kind.place()])
}

fn show_row<W: Write>(output: &mut W, kind: Kind, row: &Row) -> io::Result<()>
    ensures { OnOk result (Gains (W.contents output.old) (W.contents output.new)
        (row_text kind row.now)) }
{
    kind.name().put(output, Form::Lines)?;
    output.write_all(b"\t")?;
    row.listed.put(output, Form::Lines)?;
    show_numbers(output, &row.refused)?;
    output.write_all(b"\t")?;
    row.octets.put(output, Form::Lines)?;
    output.write_all(b"\n")
}

// Prints numbers, each after a tab.
fn show_numbers<W: Write>(output: &mut W, numbers: &[u64]) -> io::Result<()>
    ensures { OnOk result (Gains (W.contents output.old) (W.contents output.new)
        (with_tabs numbers.now)) }
{
    for number in numbers {
        output.write_all(b"\t")?;
        number.put(output, Form::Lines)?;
    }
    Ok(())
}
