//! Words of a heading that are asked for: link addresses, the length, and the hops that are left.

#![tactic(auto, using(crate::proofs::Rows::texts))]

ghost use Rattle.std.specs.Prelude.{◌≡◌, OnOk};
ghost use Rattle.packet_fields.specs.Output.{Gains};
ghost use Rattle.dump_captures.specs.Arrival.{arrival_of};
ghost use Rattle.dump_captures.specs.Heading.{ends_words, ethernet_words, hops_key, hops_word, link_words};
ghost use Rattle.dump_captures.specs.Heading.{more_words, verbose_words};
ghost use Rattle.dump_captures.specs.Sight.{headers_of};

use crate::arrival::Arrival;
use crate::sight::Headers;
use frame_wire::Addresses;
use packet_fields::Form;
use packet_fields::value::{Colons, Value};
use std::io;
use std::io::Write;

// The type of a link of Ethernet.
const ETHERNET: u16 = 1;

// The bytes of an address in the header of Ethernet, which begins with two.
const ADDRESS_LEN: usize = 6;

const ADDRESSES_LEN: usize = 12;

/// Prints the words, where they are asked for.
#[inline]
pub(crate) fn show_more<W: Write>(
    output: &mut W,
    is_verbose: bool,
    arrival: &Arrival<'_>,
    headers: &Headers<'_>,
) -> io::Result<()>
    ensures { OnOk result (Gains (W.contents output.old) (W.contents output.new)
        (verbose_words is_verbose (arrival_of arrival.now).packet (headers_of headers.now))) }
{
    if is_verbose {
        return show_words(output, arrival, headers);
    }
    Ok(())
}

#[inline(never)]
fn show_words<W: Write>(
    output: &mut W,
    arrival: &Arrival<'_>,
    headers: &Headers<'_>,
) -> io::Result<()>
    ensures { OnOk result (Gains (W.contents output.old) (W.contents output.new)
        (more_words (arrival_of arrival.now).packet (headers_of headers.now))) }
{
    show_link(output, arrival)?;
    output.write_all(b" length=")?;
    arrival.record.original_len.put(output, Form::Lines)?;
    show_hops(output, headers.addresses, headers.hop_limit)
}

// Prints the addresses in the header of an Ethernet frame.
fn show_link<W: Write>(output: &mut W, arrival: &Arrival<'_>) -> io::Result<()>
    ensures { OnOk result (Gains (W.contents output.old) (W.contents output.new)
        (link_words (arrival_of arrival.now).packet)) }
{
    if arrival.record.link_type == ETHERNET {
        return show_ethernet(output, arrival.octets);
    }
    Ok(())
}

fn show_ethernet<W: Write>(output: &mut W, octets: &[u8]) -> io::Result<()>
    ensures { OnOk result (Gains (W.contents output.old) (W.contents output.new) (ethernet_words octets.now)) }
{
    if octets.len() < ADDRESSES_LEN {
        return Ok(());
    }
    let (destination, behind) = octets.split_at(ADDRESS_LEN);
    let (source, _) = behind.split_at(ADDRESS_LEN);
    show_ends(output, source, destination)
}

fn show_ends<W: Write>(output: &mut W, source: &[u8], destination: &[u8]) -> io::Result<()>
    ensures { OnOk result (Gains (W.contents output.old) (W.contents output.new)
        (ends_words source.now destination.now)) }
{
    output.write_all(b" link=")?;
    Colons(source).put(output, Form::Lines)?;
    output.write_all(b">")?;
    Colons(destination).put(output, Form::Lines)
}

// Prints how many hops are left, by the name that the field has.
fn show_hops<W: Write>(
    output: &mut W,
    addresses: Option<Addresses>,
    hop_limit: Option<u8>,
) -> io::Result<()>
    ensures { OnOk result (Gains (W.contents output.old) (W.contents output.new) (hops_word addresses hop_limit)) }
{
    match (addresses, hop_limit) {
        (Some(addresses), Some(hops)) => {
            output.write_all(hops_key(addresses).as_bytes())?;
            hops.put(output, Form::Lines)
        }
        _ => Ok(()),
    }
}

fn hops_key(addresses: Addresses) -> &'static str
    ensures { result.now ≡ hops_key addresses }
{
    match addresses {
        Addresses::V4(_, _) => " ttl=",
        Addresses::V6(_, _) => " hop_limit=",
    }
}
