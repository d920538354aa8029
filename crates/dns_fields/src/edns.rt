//! OPT records (RFC 6891 section 6.1), an entry each.

#![tactic(auto, using(packet_fields::proofs::Fields::cells_both, packet_fields::proofs::Fields::cells_none, // cells
packet_fields::proofs::Printing::gained, packet_fields::proofs::Printing::gains_none, // and their texts
packet_fields::proofs::Printing::gains_both))]

ghost use Rattle.std.specs.Prelude.{◌≡◌, IfOk, OnOk, map};
ghost use Rattle.dns_wire.specs.DnsPacket.{view_octets};
ghost use Rattle.record_wire.specs.Edns.{IsEdns, answers_in, edns_of};
ghost use Rattle.record_wire.specs.Name.{labels_of};
ghost use Rattle.record_wire.specs.Record.{record_of};
ghost use Rattle.packet_fields.specs.Fields.{leaf_text, texts};
ghost use Rattle.packet_fields.specs.Output.{Gains};
ghost use Rattle.packet_fields.specs.Prints.{PrintsCells};
ghost use Rattle.dns_fields.specs.Edns.{OptIs, cut_cells, edns_flags, opt_entry, option_texts, reserved_flags};
ghost use Rattle.dns_fields.specs.Edns.{sender_cells, unread_option};
ghost use Rattle.packet_fields.specs.Entries.{PrintsEntry};
ghost use Rattle.packet_fields.specs.private.Entries.{PrintsSomeEntry};
ghost use Rattle.dns_fields.specs.private.Parts.{behind_commas};

use crate::kind::{Kind, NameOf, TypeOf};
use crate::lists::{put_closing, put_none, put_opening};
use crate::record::{label_of, show_refused_record, show_why};
use crate::unread::Unread;
use crate::words::{OptionWord, Word};
use dns_wire::dns::Packet;
use packet_fields::Form;
use packet_fields::entry::{cell, close_entry, first_cell, keyed_cell, open_entry};
use packet_fields::value::{Texts, Value, put_text};
use record_wire::{Edns, EdnsOptions, Name, Record, Section, TextRefusal};
use std::io;
use std::io::Write;

// The flag DO, the highest (RFC 3225 section 3).
const DNSSEC_OK: u16 = 0x8000;

/// Prints an OPT record with these fields, and with its options up to one that is cut.
pub(crate) fn show_opt<'a, W: Write>(
    output: &mut W,
    form: Form,
    is_first: bool,
    kind: Kind,
    packet: &Packet<&'a [u8]>,
    section: Section,
    record: &Record<'a>,
    edns: &Edns<'a>,
) -> io::Result<Option<Unread>>
    requires { IsEdns (record_of «record».now) (edns_of edns.now) }
    ensures { IfOk result (λ unread. PrintsSomeEntry form is_first (W.contents output.old) (W.contents output.new)
        (λ e. OptIs kind (view_octets packet.now) section (record_of «record».now) e unread)) }
{
    match Name::read_or_refusal(packet, record.name) {
        Ok(name) => {
            show_says(output, form, is_first, kind, section, record, edns, &name)?;
            Ok(why_cut(edns.options()))
        }
        Err(refusal) => {
            let unread = Unread::Record(TextRefusal::Owner(refusal));
            show_refused_record(
                output, form, is_first, kind, packet, section, record, unread,
            )?;
            Ok(Some(unread))
        }
    }
}

// Prints an OPT record whose name is read.
fn show_says<W: Write>(
    output: &mut W,
    form: Form,
    is_first: bool,
    kind: Kind,
    section: Section,
    record: &Record<'_>,
    edns: &Edns<'_>,
    name: &Name,
) -> io::Result<()>
    ensures { OnOk result (PrintsEntry form is_first (W.contents output.old) (W.contents output.new)
        (opt_entry kind section (record_of «record».now) (labels_of name.now) (edns_of edns.now)
        (answers_in edns.now.options.now))) }
{
    open_entry(output, form, is_first, "section", label_of(section))?;
    first_cell(output, form, "name", Word(NameOf(kind, name)))?;
    cell(output, form, "type", Word(TypeOf(kind, record.type_)))?;
    show_sender(output, form, edns)?;
    keyed_cell(output, form, "options", Options(edns.options))?;
    show_reserved(output, form, edns.flags % DNSSEC_OK)?;
    show_cut(
        output,
        form,
        why_cut(EdnsOptions::new(edns.options)),
        record.data,
    )?;
    close_entry(output, form)
}

// Prints the fields about the sender.
fn show_sender<W: Write>(output: &mut W, form: Form, edns: &Edns<'_>) -> io::Result<()>
    ensures { OnOk result (PrintsCells form (W.contents output.old) (W.contents output.new)
        (sender_cells (edns_of edns.now))) }
{
    keyed_cell(output, form, "udp_size", edns.payload_size)?;
    keyed_cell(output, form, "extended_rcode", edns.extended_rcode)?;
    keyed_cell(output, form, "version", edns.version)?;
    keyed_cell(output, form, "flags", Texts(flag_names(edns.dnssec_ok)))
}

// The name of the flag of DNSSEC, where it is set.
fn flag_names(dnssec_ok: bool) -> &'static [&'static str]
    ensures { map (λ name. name.now) result.now ≡ edns_flags dnssec_ok }
{
    if dnssec_ok {
        return &["do"];
    }
    &[]
}

// Prints the flags that are reserved, where some are set.
fn show_reserved<W: Write>(output: &mut W, form: Form, bits: u16) -> io::Result<()>
    ensures { OnOk result (PrintsCells form (W.contents output.old) (W.contents output.new) (reserved_flags bits)) }
{
    if bits == 0 {
        return Ok(());
    }
    keyed_cell(output, form, "reserved_flags", bits)
}

/// Prints all octets of data that is cut, and why.
pub(crate) fn show_cut<W: Write>(
    output: &mut W,
    form: Form,
    unread: Option<Unread>,
    data: &[u8],
) -> io::Result<()>
    ensures { OnOk result (PrintsCells form (W.contents output.old) (W.contents output.new)
        (cut_cells unread «data».now)) }
{
    let Some(unread) = unread else {
        return Ok(());
    };
    keyed_cell(output, form, "octets", data)?;
    show_why(output, form, unread)
}

// Why an option is cut; None where all are whole.
fn why_cut(mut options: EdnsOptions<'_>) -> Option<Unread>
    ensures { result ≡ unread_option options.entry }
{
    while let Some(answer) = options.next() {
        if let Err(refusal) = answer {
            return Some(Unread::Option(refusal));
        }
    }
    None
}

// Options by their octets, up to one that is cut.
#[derive(Clone, Copy)]
struct Options<'a>(&'a [u8]);

impl Value for Options<'_> {
    ghost leaf = { λ options. texts (option_texts (answers_in options.0.now)) };

    fn put<W: Write>(self, output: &mut W, form: Form) -> io::Result<()> {
        put_options(output, form, EdnsOptions::new(self.0))
    }
}

// Prints options with commas between them.
fn put_options<W: Write>(output: &mut W, form: Form, mut options: EdnsOptions<'_>) -> io::Result<()>
    ensures { OnOk result (Gains (W.contents output.old) (W.contents output.new)
        (leaf_text form (texts (option_texts options.entry)))) }
{
    let Some(Ok(first)) = options.next() else {
        return put_none(output, form);
    };
    put_opening(output, form)?;
    put_text(output, form, OptionWord(first))?;
    put_others(output, form, options)?;
    put_closing(output, form)
}

// Prints each option that is left after a comma.
fn put_others<W: Write>(output: &mut W, form: Form, mut options: EdnsOptions<'_>) -> io::Result<()>
    ensures { OnOk result (Gains (W.contents output.old) (W.contents output.new)
        (behind_commas form (option_texts options.entry))) }
{
    while let Some(Ok(option)) = options.next() {
        output.write_all(b",")?;
        put_text(output, form, OptionWord(option))?;
    }
    Ok(())
}
