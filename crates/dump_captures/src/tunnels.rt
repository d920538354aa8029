//! The tunnels that a datagram is in, as a heading and as JSON have them.

#![tactic(auto, using(crate::proofs::Rows::texts, packet_fields::proofs::Fields::prints_none))]

ghost use Rattle.std.specs.Prelude.{◌≡◌, [], ◌∷◌, OnOk, codes, map};
ghost use Rattle.packet_fields.specs.Fields.{entries as entries_item, entries_text, entry_text};
ghost use Rattle.packet_fields.specs.Output.{Gains};
ghost use Rattle.packet_fields.specs.Prints.{Prints};
ghost use Rattle.dump_captures.specs.Heading.{ends_text, entry_between, tunnel_entry, tunnel_items, tunnel_name};
ghost use Rattle.dump_captures.specs.Heading.{tunnel_text};
ghost use Rattle.dump_captures.specs.Heading.{tunnels_text};
ghost use Rattle.dump_captures.specs.Path.{tunnels_of};

use crate::path::{Passage, Tunnels};
use frame_wire::{Addresses, Tunnel};
use packet_fields::Form;
use packet_fields::entry::{
    close_entry, close_list, first_cell, keyed_cell, open_entry, open_list,
};
use packet_fields::value::Value;
use std::io;
use std::io::Write;

// The name of a tunnel.
fn name_of(tunnel: Tunnel) -> &'static str
    ensures { result.now ≡ tunnel_name tunnel }
{
    match tunnel {
        Tunnel::Ipv4 => "ipv4",
        Tunnel::Ipv6 => "ipv6",
        Tunnel::Gre => "gre",
    }
}

/// Prints a word for each tunnel, as ` in=gre,192.0.2.1,198.51.100.2`.
pub fn show_tunnels<W: Write>(output: &mut W, tunnels: &Tunnels) -> io::Result<()>
    ensures { OnOk result (Gains (W.contents output.old) (W.contents output.new) (tunnels_text (tunnels_of
        tunnels.now))) }
{
    match tunnels {
        Tunnels::Zero => Ok(()),
        Tunnels::One(a) => show_tunnel(output, a),
        Tunnels::Two(a, b) => show_two(output, a, b),
        Tunnels::Three(a, b, c) => show_three(output, a, b, c),
        Tunnels::Four(a, b, c, d) => {
            show_tunnel(output, a)?;
            show_three(output, b, c, d)
        }
    }
}

fn show_three<W: Write>(
    output: &mut W,
    first: &Passage,
    second: &Passage,
    third: &Passage,
) -> io::Result<()>
    ensures { OnOk result (Gains (W.contents output.old) (W.contents output.new)
        (tunnels_text (first.now ∷ second.now ∷ third.now ∷ []))) }
{
    show_tunnel(output, first)?;
    show_two(output, second, third)
}

fn show_two<W: Write>(output: &mut W, first: &Passage, second: &Passage) -> io::Result<()>
    ensures { OnOk result (Gains (W.contents output.old) (W.contents output.new)
        (tunnels_text (first.now ∷ second.now ∷ []))) }
{
    show_tunnel(output, first)?;
    show_tunnel(output, second)
}

fn show_tunnel<W: Write>(output: &mut W, passage: &Passage) -> io::Result<()>
    ensures { OnOk result (Gains (W.contents output.old) (W.contents output.new) (tunnel_text passage.now)) }
{
    output.write_all(b" in=")?;
    name_of(passage.tunnel).put(output, Form::Lines)?;
    match passage.addresses {
        Addresses::V4(source, destination) => show_ends(output, source, destination),
        Addresses::V6(source, destination) => show_ends(output, source, destination),
    }
}

// Prints the source and the destination, each after a comma.
fn show_ends<V: Value, W: Write>(output: &mut W, source: V, destination: V) -> io::Result<()>
    ensures { OnOk result (Gains (W.contents output.old) (W.contents output.new)
        (ends_text (V.leaf source) (V.leaf destination))) }
{
    output.write_all(b",")?;
    source.put(output, Form::Lines)?;
    output.write_all(b",")?;
    destination.put(output, Form::Lines)
}

/// Prints the tunnels as a member of an object, where there are any.
pub fn show_tunnel_members<W: Write>(output: &mut W, tunnels: &Tunnels) -> io::Result<()>
    ensures { OnOk result (Prints Form.Json (W.contents output.old) (W.contents output.new)
        (tunnel_items (tunnels_of tunnels.now))) }
{
    match tunnels {
        Tunnels::Zero => Ok(()),
        _ => show_list(output, tunnels),
    }
}

fn show_list<W: Write>(output: &mut W, tunnels: &Tunnels) -> io::Result<()>
    ensures { OnOk result (Prints Form.Json (W.contents output.old) (W.contents output.new)
        (entries_item (codes "tunnels") (map tunnel_entry (tunnels_of tunnels.now)) ∷ [])) }
{
    open_list(output, Form::Json, "tunnels")?;
    show_entries(output, tunnels)?;
    close_list(output, Form::Json)
}

fn show_entries<W: Write>(output: &mut W, tunnels: &Tunnels) -> io::Result<()>
    ensures { OnOk result (Gains (W.contents output.old) (W.contents output.new)
        (entries_text Form.Json (map tunnel_entry (tunnels_of tunnels.now)))) }
{
    match tunnels {
        Tunnels::Zero => Ok(()),
        Tunnels::One(a) => show_entry(output, true, a),
        Tunnels::Two(a, b) => {
            show_entry(output, true, a)?;
            show_entry(output, false, b)
        }
        Tunnels::Three(a, b, c) => {
            show_entry(output, true, a)?;
            show_entry(output, false, b)?;
            show_entry(output, false, c)
        }
        Tunnels::Four(a, b, c, d) => {
            show_entry(output, true, a)?;
            show_entry(output, false, b)?;
            show_entry(output, false, c)?;
            show_entry(output, false, d)
        }
    }
}

// Prints a tunnel as an object.
fn show_entry<W: Write>(output: &mut W, is_first: bool, passage: &Passage) -> io::Result<()>
    ensures { OnOk result (Gains (W.contents output.old) (W.contents output.new)
        (entry_text Form.Json is_first (tunnel_entry passage.now))) }
{
    let name = name_of(passage.tunnel);
    match passage.addresses {
        Addresses::V4(source, destination) => {
            show_between(output, is_first, name, source, destination)
        }
        Addresses::V6(source, destination) => {
            show_between(output, is_first, name, source, destination)
        }
    }
}

fn show_between<V: Value, W: Write>(
    output: &mut W,
    is_first: bool,
    name: &str,
    source: V,
    destination: V,
) -> io::Result<()>
    ensures { OnOk result (Gains (W.contents output.old) (W.contents output.new)
        (entry_text Form.Json is_first (entry_between name.now (V.leaf source) (V.leaf destination)))) }
{
    open_entry(output, Form::Json, is_first, "tunnel", name)?;
    first_cell(output, Form::Json, "src_addr", source)?;
    keyed_cell(output, Form::Json, "dst_addr", destination)?;
    close_entry(output, Form::Json)
}
