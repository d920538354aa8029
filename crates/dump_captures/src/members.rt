//! The members of a control packet's object in JSON that its heading has in lines.

#![tactic(auto, using(crate::proofs::Rows::fields, crate::proofs::Rows::texts))]

ghost use Rattle.std.specs.Prelude.{◌≤◌, OnOk, length, true};
ghost use Rattle.std.specs.Option.{option_map};
ghost use Rattle.dump_captures.specs.Arrival.{arrival_of};
ghost use Rattle.packet_fields.specs.Fields.{AllFit, comma_unless, leaf_text, numbers};
ghost use Rattle.packet_fields.specs.Output.{Gains};
ghost use Rattle.packet_fields.specs.Prints.{Prints};
ghost use Rattle.dump_captures.specs.Heading.{addresses_items, ends_items, file_items, frame_items, head_items};
ghost use Rattle.dump_captures.specs.Heading.{length_items};
ghost use Rattle.dump_captures.specs.Heading.{link_items, path_items, port_items, time_items, transport_items};
ghost use Rattle.dump_captures.specs.Heading.{vlans_of};
ghost use Rattle.dump_captures.specs.Moments.{when_text};
ghost use Rattle.dump_captures.specs.private.Vlans.{one_of, run_from};
ghost use Rattle.dump_captures.specs.Sight.{headers_of};

use crate::arrival::Arrival;
use crate::heading::{TAG_LEN, destination_port, show_vlan, source_port};
use crate::numbers::Numbers;
use crate::sight::Headers;
use crate::time::Clock;
use crate::tunnels::show_tunnel_members;
use crate::when::When;
use frame_wire::Addresses;
use frame_wire::names::link_name;
use packet_fields::Form;
use packet_fields::field::{field, named};
use packet_fields::value::Value;
use std::io;
use std::io::Write;

/// Prints the members.
pub fn show_members<W: Write>(
    output: &mut W,
    clock: &mut Clock,
    arrival: &Arrival<'_>,
    headers: &Headers<'_>,
) -> io::Result<()>
    ensures { OnOk result (Prints Form.Json (W.contents output.old) (W.contents output.new)
        (head_items (arrival_of arrival.now) (headers_of headers.now))) }
{
    show_file(output, arrival.file)?;
    show_time(output, clock, arrival.when)?;
    show_link(output, arrival.record.link_type)?;
    show_lengths(
        output,
        arrival.octets.len() as u64,
        arrival.record.original_len,
    )?;
    show_path(output, headers)?;
    field(output, Form::Json, "kind", headers.content.kind().name())
}

/// Prints the name of the file, where it is to be told.
pub(crate) fn show_file<W: Write>(output: &mut W, file: Option<&str>) -> io::Result<()>
    ensures { OnOk result (Prints Form.Json (W.contents output.old) (W.contents output.new)
        (file_items (option_map (λ name. name.now) file.entry))) }
{
    match file {
        Some(name) => field(output, Form::Json, "file", name),
        None => Ok(()),
    }
}

// Prints the time at which the packet was captured.
fn show_time<W: Write>(output: &mut W, clock: &mut Clock, when: Option<When>) -> io::Result<()>
    ensures { OnOk result (Prints Form.Json (W.contents output.old) (W.contents output.new)
        (time_items (option_map when_text when))) }
{
    match when {
        Some(when) => field(output, Form::Json, "time", when.word(clock)),
        None => field(output, Form::Json, "time", None::<&str>),
    }
}

// Prints the type of the link.
fn show_link<W: Write>(output: &mut W, link_type: u16) -> io::Result<()>
    ensures { OnOk result (Prints Form.Json (W.contents output.old) (W.contents output.new)
        (link_items link_type)) }
{
    let name = link_name(link_type);
    named(output, Form::Json, "link", link_type as u64, name)
}

// Prints how many bytes of the packet were captured, and how many it had.
fn show_lengths<W: Write>(output: &mut W, len: u64, original_len: u32) -> io::Result<()>
    ensures { OnOk result (Prints Form.Json (W.contents output.old) (W.contents output.new)
        (length_items len original_len)) }
{
    field(output, Form::Json, "length", len)?;
    field(output, Form::Json, "original_length", original_len)
}

// Prints the way to the datagram, the addresses and the ports.
fn show_path<W: Write>(output: &mut W, headers: &Headers<'_>) -> io::Result<()>
    ensures { OnOk result (Prints Form.Json (W.contents output.old) (W.contents output.new)
        (path_items (headers_of headers.now))) }
{
    field(output, Form::Json, "vlans", Vlans(headers.path.tags))?;
    show_tunnel_members(output, &headers.path.tunnels)?;
    show_addresses(output, headers.addresses)?;
    show_ports(output, headers.ports)?;
    show_frames(output, headers.path.frames)?;
    show_transport(output, headers.content.is_over_tcp())
}

// Prints that a message came over TCP.
fn show_transport<W: Write>(output: &mut W, is_over_tcp: bool) -> io::Result<()>
    ensures { OnOk result (Prints Form.Json (W.contents output.old) (W.contents output.new) (transport_items
        is_over_tcp)) }
{
    if !is_over_tcp {
        return Ok(());
    }
    field(output, Form::Json, "transport", "tcp")
}

// Prints the numbers of the packets that the fragments of a datagram came in.
fn show_frames<W: Write>(output: &mut W, frames: &[u64]) -> io::Result<()>
    ensures { OnOk result (Prints Form.Json (W.contents output.old) (W.contents output.new) (frame_items frames.now)) }
{
    if frames.is_empty() {
        return Ok(());
    }
    field(output, Form::Json, "frames", Numbers(frames))
}

fn show_ports<W: Write>(output: &mut W, ports: Option<(u16, u16)>) -> io::Result<()>
    ensures { OnOk result (Prints Form.Json (W.contents output.old) (W.contents output.new)
        (port_items ports)) }
{
    field(output, Form::Json, "src_port", source_port(ports))?;
    field(output, Form::Json, "dst_port", destination_port(ports))
}

fn show_addresses<W: Write>(output: &mut W, addresses: Option<Addresses>) -> io::Result<()>
    ensures { OnOk result (Prints Form.Json (W.contents output.old) (W.contents output.new)
        (addresses_items addresses)) }
{
    match addresses {
        Some(Addresses::V4(source, destination)) => show_ends(output, source, destination),
        Some(Addresses::V6(source, destination)) => show_ends(output, source, destination),
        None => show_ends(output, None::<&str>, None::<&str>),
    }
}

// Prints the source and the destination.
fn show_ends<V: Value, W: Write>(output: &mut W, source: V, destination: V) -> io::Result<()>
    ensures { OnOk result (Prints Form.Json (W.contents output.old) (W.contents output.new)
        (ends_items (V.leaf source) (V.leaf destination))) }
{
    field(output, Form::Json, "src_addr", source)?;
    field(output, Form::Json, "dst_addr", destination)
}

// The numbers of the VLANs of tags of four bytes each.
#[derive(Clone, Copy)]
struct Vlans<'a>(&'a [u8]);

impl Value for Vlans<'_> {
    ghost leaf = { λ vlans. numbers (vlans_of vlans.0.now) };

    fn put<W: Write>(self, output: &mut W, form: Form) -> io::Result<()> {
        are_small(self.0);
        match form {
            Form::Lines => put_words(output, self.0),
            Form::Json => put_array(output, self.0),
        }
    }
}

// VLANs have numbers below 4096. For proofs alone.
fn are_small(tags: &[u8])
    ensures { AllFit (vlans_of tags.now) }
{}

// Prints the numbers as lines have them.
fn put_words<W: Write>(output: &mut W, tags: &[u8]) -> io::Result<()>
    ensures { OnOk result (Gains (W.contents output.old) (W.contents output.new)
        (leaf_text Form.Lines (numbers (vlans_of tags.now)))) }
{
    if tags.len() < TAG_LEN {
        return output.write_all(b"-");
    }
    put_numbers(output, tags)
}

// Prints the numbers as an array.
fn put_array<W: Write>(output: &mut W, tags: &[u8]) -> io::Result<()>
    ensures { OnOk result (Gains (W.contents output.old) (W.contents output.new)
        (leaf_text Form.Json (numbers (vlans_of tags.now)))) }
{
    output.write_all(b"[")?;
    put_numbers(output, tags)?;
    output.write_all(b"]")
}

// Prints the numbers with commas between them.
fn put_numbers<W: Write>(output: &mut W, tags: &[u8]) -> io::Result<()>
    ensures { OnOk result (Gains (W.contents output.old) (W.contents output.new) (run_from true tags.now)) }
{
    let mut left = tags;
    let mut is_first = true;
    while left.len() >= TAG_LEN {
        let (tag, rest) = left.split_at(TAG_LEN);
        put_number_of(output, is_first, tag)?;
        left = rest;
        is_first = false;
    }
    Ok(())
}

// Prints the number of a tag, after a comma where it is not the first.
fn put_number_of<W: Write>(output: &mut W, is_first: bool, tag: &[u8]) -> io::Result<()>
    requires { 4 ≤ length tag.now }
    ensures { OnOk result (Gains (W.contents output.old) (W.contents output.new) (one_of is_first tag.now)) }
{
    put_comma(output, is_first)?;
    show_vlan(output, tag)
}

fn put_comma<W: Write>(output: &mut W, is_first: bool) -> io::Result<()>
    ensures { OnOk result (Gains (W.contents output.old) (W.contents output.new) (comma_unless is_first)) }
{
    if is_first {
        return Ok(());
    }
    output.write_all(b",")
}
