//! Whole messages of DNS (RFC 1035 section 4.1), multicast DNS (RFC 6762 section 18), LLMNR (RFC 4795 section 2.1)
//! and the NetBIOS name service (RFC 1002 section 4.2).

#![tactic(auto, using(packet_fields::proofs::Fields::prints_both))]

ghost use Rattle.std.specs.Prelude.{◌≡◌, IfOk, OnOk, true};
ghost use Rattle.dns_wire.specs.DnsPacket.{view_octets, header as header_field};
ghost use Rattle.wirebase.specs.Bytes.{Reaches};
ghost use Rattle.record_wire.specs.Entries.{all_of, entry_of};
ghost use Rattle.record_wire.specs.Record.{record_of};
ghost use Rattle.packet_fields.specs.Prints.{Prints, PrintsSome};
ghost use Rattle.packet_fields.specs.Entries.{PrintsEntry};
ghost use Rattle.packet_fields.specs.private.Entries.{PrintsSomeEntries, PrintsSomeEntry};
ghost use Rattle.dns_fields.specs.Message.{EntriesAre, EntryIs, MessageIs, RecordInIs, broken_entry, no_header_items};
ghost use Rattle.dns_fields.specs.Unread.{first_of as first_of_two};
ghost use Rattle.dns_fields.specs.private.Parts.{ListIs, PrintsBroken};

use crate::edns::show_opt;
use crate::header::show_header;
use crate::kind::Kind;
use crate::nbns;
use crate::record::{
    is_blank, label_of, show_blank, show_no_name, show_question, show_record, show_why,
};
use crate::unread::Unread;
use crate::words::{Why, Word};
use dns_wire::dns::Packet;
use packet_fields::Form;
use packet_fields::entry::{close_entry, close_list, keyed_cell, open_entry, open_list};
use packet_fields::field::field;
use record_wire::{Entries, Entry, Record, Refusal, Section};
use std::io;
use std::io::Write;

/// Prints a message of this kind: the fields of its header, and a list of its questions and records; of octets that are
/// fewer than 12 why they are no message, and the octets. A question or a record that can't be read is an entry that
/// says why, with what is known of it, and those behind it are read wherever the length of its data tells where they
/// begin. Returns the first refusal.
pub fn show_message<W: Write>(
    output: &mut W,
    form: Form,
    kind: Kind,
    octets: &[u8],
) -> io::Result<Option<Unread>>
    ensures { IfOk result (λ unread. PrintsSome form (W.contents output.old) (W.contents output.new)
        (λ items. MessageIs kind octets.now items unread)) }
{
    let Ok(packet) = Packet::new_checked(octets) else {
        show_no_header(output, form, octets)?;
        return Ok(Some(Unread::Header));
    };
    show_header(output, form, kind, octets)?;
    show_list(output, form, kind, &packet)
}

// Prints octets that are too few for a header.
fn show_no_header<W: Write>(output: &mut W, form: Form, octets: &[u8]) -> io::Result<()>
    ensures { OnOk result (Prints form (W.contents output.old) (W.contents output.new) (no_header_items octets.now)) }
{
    field(output, form, "refused", Word(Why(Unread::Header)))?;
    field(output, form, "octets", octets)
}

// Prints the list of the questions and records.
fn show_list<W: Write>(
    output: &mut W,
    form: Form,
    kind: Kind,
    packet: &Packet<&[u8]>,
) -> io::Result<Option<Unread>>
    requires { Reaches header_field (view_octets packet.now) }
    ensures { IfOk result (λ unread. PrintsSome form (W.contents output.old) (W.contents output.new)
        (λ items. ListIs kind (view_octets packet.now) items unread)) }
{
    open_list(output, form, "entries")?;
    let unread = show_entries(output, form, kind, packet)?;
    close_list(output, form)?;
    Ok(unread)
}

// Prints the questions and records, and returns the first refusal.
fn show_entries<W: Write>(
    output: &mut W,
    form: Form,
    kind: Kind,
    packet: &Packet<&[u8]>,
) -> io::Result<Option<Unread>>
    requires { Reaches header_field (view_octets packet.now) }
    ensures { IfOk result (λ unread. PrintsSomeEntries form (W.contents output.old) (W.contents output.new)
        (λ es. EntriesAre kind (view_octets packet.now) (all_of (view_octets packet.now)) es unread)) }
{
    let mut entries = Entries::new(packet);
    let mut unread = None;
    let mut is_first = true;
    loop {
        let entry = match entries.next() {
            Some(Ok(entry)) => entry,
            Some(Err(_)) => {
                let refusal = show_broken(output, form, is_first, &entries)?;
                return Ok(first_of(unread, refusal));
            }
            None => return Ok(unread),
        };
        let refusal = show_entry(output, form, is_first, kind, packet, &entry)?;
        unread = first_of(unread, refusal);
        is_first = false;
    }
}

// Of two refusals, the first.
fn first_of(first: Option<Unread>, later: Option<Unread>) -> Option<Unread>
    ensures { result ≡ first_of_two first later }
{
    match first {
        Some(refusal) => Some(refusal),
        None => later,
    }
}

// Prints that the next question or record does not begin, and why.
fn show_broken<W: Write>(
    output: &mut W,
    form: Form,
    is_first: bool,
    entries: &Entries<'_>,
) -> io::Result<Option<Unread>>
    requires { entries.now.refused ≡ true }
    ensures { IfOk result (λ unread. PrintsBroken form is_first entries.now (W.contents output.old)
        (W.contents output.new) unread) }
{
    let Some((section, refusal)) = entries.refusal() else {
        return Ok(None);
    };
    show_broken_at(output, form, is_first, section, refusal, entries.rest())?;
    Ok(Some(Unread::Entry(section, refusal)))
}

fn show_broken_at<W: Write>(
    output: &mut W,
    form: Form,
    is_first: bool,
    section: Section,
    refusal: Refusal,
    octets: &[u8],
) -> io::Result<()>
    ensures { OnOk result (PrintsEntry form is_first (W.contents output.old) (W.contents output.new)
        (broken_entry section refusal octets.now)) }
{
    open_entry(output, form, is_first, "section", label_of(section))?;
    show_no_name(output, form)?;
    keyed_cell(output, form, "octets", octets)?;
    show_why(output, form, Unread::Entry(section, refusal))?;
    close_entry(output, form)
}

fn show_entry<'a, W: Write>(
    output: &mut W,
    form: Form,
    is_first: bool,
    kind: Kind,
    packet: &Packet<&'a [u8]>,
    entry: &Entry<'a>,
) -> io::Result<Option<Unread>>
    requires { Reaches header_field (view_octets packet.now) }
    ensures { IfOk result (λ unread. PrintsSomeEntry form is_first (W.contents output.old) (W.contents output.new)
        (λ e. EntryIs kind (view_octets packet.now) (entry_of entry.now) e unread)) }
{
    match entry {
        Entry::Question(question) => {
            show_question(output, form, is_first, kind, packet, question)
        }
        Entry::Record(section, record) => {
            show_any_record(output, form, is_first, kind, packet, *section, record)
        }
    }
}

fn show_any_record<'a, W: Write>(
    output: &mut W,
    form: Form,
    is_first: bool,
    kind: Kind,
    packet: &Packet<&'a [u8]>,
    section: Section,
    record: &Record<'a>,
) -> io::Result<Option<Unread>>
    requires { Reaches header_field (view_octets packet.now) }
    ensures { IfOk result (λ unread. PrintsSomeEntry form is_first (W.contents output.old) (W.contents output.new)
        (λ e. RecordInIs kind (view_octets packet.now) section (record_of «record».now) e unread)) }
{
    if kind.is_netbios() {
        return nbns::show_record(output, form, is_first, packet, section, record);
    }
    if let Some(edns) = record.edns() {
        return show_opt(output, form, is_first, kind, packet, section, record, &edns);
    }
    if is_blank(packet, section, record) {
        return show_blank(output, form, is_first, kind, packet, section, record);
    }
    show_record(output, form, is_first, kind, packet, section, record)
}
