//! The line that sums up a capture.

#![tactic(auto, using(packet_fields::proofs::Printing::gained, packet_fields::proofs::Printing::gains_both))]

ghost use Rattle.std.specs.Prelude.{◌≡◌, ◌==◌, ◌&&◌, [], ◌++◌, IfOk, OnOk, codes, decimal, if◌then◌else◌};
ghost use Rattle.packet_fields.specs.Output.{Gains};
ghost use Rattle.dump_captures.specs.Counts.{counts_of, counts_text, further_parts, row_part};
ghost use Rattle.dump_captures.specs.Kinds.{reason_text};
ghost use Rattle.dump_captures.specs.Summary.{listed_in, refused_for, refused_in};
ghost use Rattle.dump_captures.specs.Summary.{summary_text, reasons_text, fragments_text, link_text, links_text};
ghost use Rattle.dump_captures.specs.Summary.{further_text};
ghost use Rattle.dump_captures.specs.private.Brackets.{appended, before, is_none, opened, row_parts};
ghost use Rattle.dump_captures.specs.Tally.{tally_of};

use crate::counts::{Count, Counts};
use crate::kind::Reason;
use crate::tally::Tally;
use packet_fields::Form;
use packet_fields::value::Value;
use std::io;
use std::io::Write;

/// Writes the line, without a line's end, as
/// `5 packets, 2 listed, 1 refused (1 cut), 1 of other protocols, 3 of link 147`.
pub fn write_summary<W: Write>(output: &mut W, tally: &Tally) -> io::Result<()>
    ensures { OnOk result (Gains (W.contents output.old) (W.contents output.new)
        (summary_text (tally_of tally.now))) }
{
    tally.packets.put(output, Form::Lines)?;
    output.write_all(b" packets, ")?;
    listed(tally).put(output, Form::Lines)?;
    output.write_all(b" listed, ")?;
    all_refused(tally).put(output, Form::Lines)?;
    output.write_all(b" refused")?;
    write_reasons(output, tally)?;
    output.write_all(b", ")?;
    tally.others.all.put(output, Form::Lines)?;
    output.write_all(b" of other protocols")?;
    write_counts(output, &tally.others)?;
    write_further(output, tally.passed, " not chosen")?;
    write_fragments(output, tally)?;
    write_links(output, tally.links.rows.as_slice())?;
    write_further(output, tally.links.further, " of other links")
}

// The number of listed packets.
fn listed(tally: &Tally) -> u64
    ensures { result ≡ listed_in (tally_of tally.now) }
{
    let mut count: u64 = 0;
    for row in &tally.rows {
        count = count.saturating_add(row.listed);
    }
    count
}

// The number of packets refused for a reason.
fn refused(tally: &Tally, reason: Reason) -> u64
    ensures { result ≡ refused_for (tally_of tally.now) reason }
{
    let mut count: u64 = 0;
    for row in &tally.rows {
        count = count.saturating_add(row.refused[reason.place()]);
    }
    count
}

// The number of packets refused for any reason.
fn all_refused(tally: &Tally) -> u64
    ensures { result ≡ refused_in (tally_of tally.now) }
{
    let mut count: u64 = 0;
    for reason in &Reason::ALL {
        count = count.saturating_add(refused(tally, *reason));
    }
    count
}

// The reasons for which packets were refused, in brackets.
fn write_reasons<W: Write>(output: &mut W, tally: &Tally) -> io::Result<()>
    ensures { OnOk result (Gains (W.contents output.old) (W.contents output.new)
        (reasons_text (tally_of tally.now))) }
{
    let mut is_first = true;
    for reason in &Reason::ALL {
        let count = refused(tally, *reason);
        if count == 0 {
            continue;
        }
        write_reason(output, is_first, count, *reason)?;
        is_first = false;
    }
    if is_first {
        return Ok(());
    }
    output.write_all(b")")
}

// A reason with its number, after the text that precedes the first or a further one.
fn write_reason<W: Write>(
    output: &mut W,
    is_first: bool,
    count: u64,
    reason: Reason,
) -> io::Result<()>
    ensures { OnOk result (Gains (W.contents output.old) (W.contents output.new)
        (before is_first ++ (decimal count ++ codes " " ++ reason_text reason))) }
{
    write_before(output, is_first)?;
    write_count(output, count, reason)
}

fn write_before<W: Write>(output: &mut W, is_first: bool) -> io::Result<()>
    ensures { OnOk result (Gains (W.contents output.old) (W.contents output.new)
        (before is_first)) }
{
    if is_first {
        return output.write_all(b" (");
    }
    output.write_all(b", ")
}

fn write_count<W: Write>(output: &mut W, count: u64, reason: Reason) -> io::Result<()>
    ensures { OnOk result (Gains (W.contents output.old) (W.contents output.new)
        (decimal count ++ codes " " ++ reason_text reason)) }
{
    count.put(output, Form::Lines)?;
    output.write_all(b" ")?;
    reason.name().put(output, Form::Lines)
}

// The packets of each category, in brackets.
fn write_counts<W: Write>(output: &mut W, counts: &Counts) -> io::Result<()>
    ensures { OnOk result (Gains (W.contents output.old) (W.contents output.new) (counts_text (counts_of counts.now))) }
{
    let is_first = write_rows(output, counts.rows.as_slice())?;
    write_others(output, is_first, counts.further)?;
    write_end(output, is_first, counts.further)
}

// The packets of each of these rows, without the bracket at the end; returns whether there are none.
fn write_rows<W: Write>(output: &mut W, rows: &[Count]) -> io::Result<bool>
    ensures { IfOk result (λ is_first. (is_first ≡ is_none (row_parts rows.now))
        × Gains (W.contents output.old) (W.contents output.new) (opened (row_parts rows.now))) }
{
    let mut is_first = true;
    for row in rows {
        write_row(output, is_first, row)?;
        is_first = false;
    }
    Ok(is_first)
}

fn write_row<W: Write>(output: &mut W, is_first: bool, row: &Count) -> io::Result<()>
    ensures { OnOk result (Gains (W.contents output.old) (W.contents output.new) (before is_first ++ row_part
        row.now)) }
{
    write_before(output, is_first)?;
    row.packets.put(output, Form::Lines)?;
    output.write_all(b" ")?;
    row.category.write_name(output)
}

// The packets of further categories, where there are any.
fn write_others<W: Write>(output: &mut W, is_first: bool, further: u64) -> io::Result<()>
    ensures { OnOk result (Gains (W.contents output.old) (W.contents output.new) (appended is_first (further_parts
        further))) }
{
    if further == 0 {
        return Ok(());
    }
    write_before(output, is_first)?;
    further.put(output, Form::Lines)?;
    output.write_all(b" further")
}

// The bracket at the end, where something precedes it.
fn write_end<W: Write>(output: &mut W, is_first: bool, further: u64) -> io::Result<()>
    ensures { OnOk result (Gains (W.contents output.old) (W.contents output.new)
        (if is_first && (further == 0) then [] else codes ")")) }
{
    if is_first && further == 0 {
        return Ok(());
    }
    output.write_all(b")")
}

// The fragments that were kept, where there are any.
fn write_fragments<W: Write>(output: &mut W, tally: &Tally) -> io::Result<()>
    ensures { OnOk result (Gains (W.contents output.old) (W.contents output.new) (fragments_text (tally_of
        tally.now))) }
{
    if tally.fragments.all == 0 {
        return Ok(());
    }
    output.write_all(b", ")?;
    tally.fragments.all.put(output, Form::Lines)?;
    output.write_all(b" fragments")?;
    write_counts(output, &tally.fragments)?;
    write_further(output, tally.joined, " of them put together")
}

// The number of frames of each unsupported link.
fn write_links<W: Write>(output: &mut W, links: &[Count]) -> io::Result<()>
    ensures { OnOk result (Gains (W.contents output.old) (W.contents output.new)
        (links_text links.now)) }
{
    for link in links {
        write_link(output, link)?;
    }
    Ok(())
}

fn write_link<W: Write>(output: &mut W, link: &Count) -> io::Result<()>
    ensures { OnOk result (Gains (W.contents output.old) (W.contents output.new)
        (link_text link.now)) }
{
    output.write_all(b", ")?;
    link.packets.put(output, Form::Lines)?;
    output.write_all(b" of link ")?;
    link.category.write_name(output)
}

// A further number and what it counts, where it is not 0.
fn write_further<W: Write>(output: &mut W, count: u64, what: &str) -> io::Result<()>
    ensures { OnOk result (Gains (W.contents output.old) (W.contents output.new)
        (further_text count what.now)) }
{
    if count == 0 {
        return Ok(());
    }
    output.write_all(b", ")?;
    count.put(output, Form::Lines)?;
    output.write_all(what.as_bytes())
}
