//! A page of what was counted.

#![tactic(auto, using(packet_fields::proofs::Fields::prints_both, packet_fields::proofs::Fields::prints_none))]

ghost use Rattle.std.specs.Prelude.{[], ◌∷◌, OnOk, map};
ghost use Rattle.packet_fields.specs.private.Entries.{PrintsEntries};
ghost use Rattle.packet_fields.specs.Fields.{entries as entries_item};
ghost use Rattle.packet_fields.specs.Prints.{Prints};
ghost use Rattle.packet_stats.specs.Row.{row_of};
ghost use Rattle.packet_stats.specs.Shown.{dhcp_items, dns_items, group_items, neighbor_items, overlooked_items};
ghost use Rattle.packet_stats.specs.Shown.{page_items, row_entry, table_items};
ghost use Rattle.packet_stats.specs.Stats.{SortsAll, state_of};
ghost use Rattle.packet_stats.specs.Table.{table_of};

use crate::entries::show_row;
use crate::row::Row;
use crate::stats::Stats;
use crate::table::Table;
use packet_fields::Form;
use packet_fields::entry::{close_list, open_list};
use packet_fields::field::field;
use std::io;
use std::io::Write;

/// Prints a page of what was counted: a list for each kind of subjects. Names, outcomes and servers of DNS stand with
/// the most frequent first, and of those that are equally frequent the first by its octets; the others stand in the
/// order of their octets, so that the neighbors of one address stand together. Behind a list of which the table was
/// full stands how many messages spoke of what has no row. Of a server's answers the median and the 99th percentile of
/// their times are printed, by the nearest rank: the time in that place of the ascending order where the place is that
/// part of their number, rounded up.
pub fn show_stats<W: Write>(output: &mut W, form: Form, stats: &mut Stats) -> io::Result<()>
    ensures sorts { SortsAll (state_of stats.old) (state_of stats.new) }
    ensures prints { OnOk result (Prints form (W.contents output.old) (W.contents output.new)
        (page_items form (state_of stats.new))) }
{
    stats.sort();
    show_page(output, form, stats)
}

// Prints a list for each table, in the order of its rows.
fn show_page<W: Write>(output: &mut W, form: Form, stats: &Stats) -> io::Result<()>
    ensures { OnOk result (Prints form (W.contents output.old) (W.contents output.new)
        (page_items form (state_of stats.now))) }
{
    show_dns(output, form, stats)?;
    show_dhcp(output, form, stats)?;
    show_groups(output, form, stats)?;
    show_neighbors(output, form, stats)
}

// Prints clients of DHCP, and their leases.
fn show_dhcp<W: Write>(output: &mut W, form: Form, stats: &Stats) -> io::Result<()>
    ensures { OnOk result (Prints form (W.contents output.old) (W.contents output.new)
        (dhcp_items form (state_of stats.now))) }
{
    show_table(
        output,
        form,
        "clients",
        "clients_not_counted",
        &stats.clients,
    )?;
    show_table(output, form, "leases", "leases_not_counted", &stats.leases)
}

// Prints members of groups, and the sources that they want or exclude.
fn show_groups<W: Write>(output: &mut W, form: Form, stats: &Stats) -> io::Result<()>
    ensures { OnOk result (Prints form (W.contents output.old) (W.contents output.new)
        (group_items form (state_of stats.now))) }
{
    show_table(
        output,
        form,
        "members",
        "members_not_counted",
        &stats.members,
    )?;
    show_table(
        output,
        form,
        "sources",
        "sources_not_counted",
        &stats.sources,
    )
}

// Prints neighbors, and routers with their prefixes.
fn show_neighbors<W: Write>(output: &mut W, form: Form, stats: &Stats) -> io::Result<()>
    ensures { OnOk result (Prints form (W.contents output.old) (W.contents output.new)
        (neighbor_items form (state_of stats.now))) }
{
    show_table(
        output,
        form,
        "neighbors",
        "neighbors_not_counted",
        &stats.neighbors,
    )?;
    show_table(
        output,
        form,
        "routers",
        "routers_not_counted",
        &stats.routers,
    )?;
    show_table(
        output,
        form,
        "prefixes",
        "prefixes_not_counted",
        &stats.prefixes,
    )
}

// Prints names, outcomes and servers of DNS.
fn show_dns<W: Write>(output: &mut W, form: Form, stats: &Stats) -> io::Result<()>
    ensures { OnOk result (Prints form (W.contents output.old) (W.contents output.new)
        (dns_items form (state_of stats.now))) }
{
    show_table(
        output,
        form,
        "questions",
        "questions_not_counted",
        &stats.questions,
    )?;
    show_table(output, form, "rcodes", "rcodes_not_counted", &stats.rcodes)?;
    show_table(
        output,
        form,
        "servers",
        "servers_not_counted",
        &stats.servers,
    )
}

fn show_table<W: Write>(
    output: &mut W,
    form: Form,
    key: &str,
    overlooked_key: &str,
    table: &Table,
) -> io::Result<()>
    ensures { OnOk result (Prints form (W.contents output.old) (W.contents output.new)
        (table_items form key.now overlooked_key.now (table_of table.now))) }
{
    show_list(output, form, key, &table.rows)?;
    show_overlooked(output, form, overlooked_key, table.overlooked)
}

fn show_overlooked<W: Write>(
    output: &mut W,
    form: Form,
    key: &str,
    overlooked: u64,
) -> io::Result<()>
    ensures { OnOk result (Prints form (W.contents output.old) (W.contents output.new)
        (overlooked_items key.now overlooked)) }
{
    if overlooked == 0 {
        return Ok(());
    }
    field(output, form, key, overlooked)
}

fn show_list<W: Write>(output: &mut W, form: Form, key: &str, rows: &[Row]) -> io::Result<()>
    ensures { OnOk result (Prints form (W.contents output.old) (W.contents output.new)
        (entries_item key.now (map (row_entry form) (map row_of rows.now)) ∷ [])) }
{
    open_list(output, form, key)?;
    show_rows(output, form, rows)?;
    close_list(output, form)
}

fn show_rows<W: Write>(output: &mut W, form: Form, rows: &[Row]) -> io::Result<()>
    ensures { OnOk result (PrintsEntries form (W.contents output.old) (W.contents output.new)
        (map (row_entry form) (map row_of rows.now))) }
{
    for place in 0..rows.len() {
        show_row(output, form, place == 0, &rows[place])?;
    }
    Ok(())
}
