//! What is printed of a question that has no answer.

#![tactic(auto, using(packet_fields::proofs::Fields::prints_both, packet_fields::proofs::Fields::prints_none))]

ghost use Rattle.std.specs.Prelude.{OnOk};
ghost use Rattle.dns_wire.specs.DnsDisplay.{type_display};
ghost use Rattle.record_wire.specs.Name.{labels_of};
ghost use Rattle.record_wire.specs.ZoneText.{whole_name};
ghost use Rattle.packet_fields.specs.Fields.{text};
ghost use Rattle.packet_fields.specs.Prints.{Prints};
ghost use Rattle.packet_pairs.specs.Shown.{answerer_items, asked_items, asker_items, client_items, echo_items};
ghost use Rattle.packet_pairs.specs.Shown.{key_items};
ghost use Rattle.packet_pairs.specs.Shown.{lease_items, name_items, neighbor_items, netbios_items, reply_items};
ghost use Rattle.packet_pairs.specs.Shown.{service_items, unless_many};

use crate::key::{EchoKey, Key, LeaseKey, NameKey, NeighborKey, NetbiosKey, Reply};
use crate::pairs::Asked;
use dns_wire::dns::Type;
use frame_wire::Addresses;
use message_fields::Service;
use packet_fields::Form;
use packet_fields::field::field;
use packet_fields::value::{Colons, Text, Value, put_text};
use record_wire::Name;
use record_wire::types::put_type;
use std::io;
use std::io::Write;
use wirebase::EthernetAddress;
use wirebase::text::Sink;

/// Prints a question: `question`, the number of the packet that it came in; its `kind`, and who asks whom for what; and
/// `tries`, how often it was asked.
pub fn show_asked<W: Write>(output: &mut W, form: Form, asked: &Asked) -> io::Result<()>
    ensures { OnOk result (Prints form (W.contents output.old) (W.contents output.new) (asked_items asked.now)) }
{
    field(output, form, "question", asked.number)?;
    show_key(output, form, &asked.key)?;
    field(output, form, "tries", asked.tries)
}

fn show_key<W: Write>(output: &mut W, form: Form, key: &Key) -> io::Result<()>
    ensures { OnOk result (Prints form (W.contents output.old) (W.contents output.new) (key_items key.now)) }
{
    match key {
        Key::Name(key) => show_name(output, form, key),
        Key::Netbios(key) => show_netbios(output, form, key),
        Key::Echo(key) => show_echo(output, form, key),
        Key::Neighbor(key) => show_neighbor(output, form, key),
        Key::Lease(key) => show_lease(output, form, key),
    }
}

fn show_name<W: Write>(output: &mut W, form: Form, key: &NameKey) -> io::Result<()>
    ensures { OnOk result (Prints form (W.contents output.old) (W.contents output.new) (name_items key.now)) }
{
    show_service(output, form, key.service)?;
    show_asker(output, form, &key.way.addresses)?;
    show_unless_many(output, form, key.service, &key.way.addresses)?;
    field(output, form, "name", NameWord(&key.name))?;
    field(output, form, "type", TypeWord(key.type_))
}

fn show_netbios<W: Write>(output: &mut W, form: Form, key: &NetbiosKey) -> io::Result<()>
    ensures { OnOk result (Prints form (W.contents output.old) (W.contents output.new) (netbios_items key.now)) }
{
    field(output, form, "kind", "nbns")?;
    show_asker(output, form, &key.way.addresses)?;
    field(output, form, "transaction_id", key.transaction_id)
}

fn show_echo<W: Write>(output: &mut W, form: Form, key: &EchoKey) -> io::Result<()>
    ensures { OnOk result (Prints form (W.contents output.old) (W.contents output.new) (echo_items key.now)) }
{
    field(output, form, "kind", "echo")?;
    show_asker(output, form, &key.addresses)?;
    show_answerer(output, form, &key.addresses)?;
    field(output, form, "ident", key.ident)?;
    field(output, form, "seq_no", key.seq_no)
}

fn show_neighbor<W: Write>(output: &mut W, form: Form, key: &NeighborKey) -> io::Result<()>
    ensures { OnOk result (Prints form (W.contents output.old) (W.contents output.new) (neighbor_items key.now)) }
{
    field(output, form, "kind", "neighbor")?;
    field(output, form, "src_addr", key.asker)?;
    field(output, form, "target_addr", key.target)
}

fn show_lease<W: Write>(output: &mut W, form: Form, key: &LeaseKey) -> io::Result<()>
    ensures { OnOk result (Prints form (W.contents output.old) (W.contents output.new) (lease_items key.now)) }
{
    field(output, form, "kind", "dhcp")?;
    show_client(output, form, &key.client)?;
    field(output, form, "transaction_id", key.transaction_id)?;
    show_reply(output, form, key.reply)
}

fn show_client<W: Write>(output: &mut W, form: Form, client: &EthernetAddress) -> io::Result<()>
    ensures { OnOk result (Prints form (W.contents output.old) (W.contents output.new) (client_items client.now)) }
{
    field(
        output,
        form,
        "client_hardware_address",
        Colons(client.as_bytes()),
    )
}

fn show_reply<W: Write>(output: &mut W, form: Form, reply: Reply) -> io::Result<()>
    ensures { OnOk result (Prints form (W.contents output.old) (W.contents output.new) (reply_items reply)) }
{
    match reply {
        Reply::Offer => field(output, form, "awaits", "offer"),
        Reply::Decision => field(output, form, "awaits", "ack"),
    }
}

// Prints who asks.
fn show_asker<W: Write>(output: &mut W, form: Form, addresses: &Addresses) -> io::Result<()>
    ensures { OnOk result (Prints form (W.contents output.old) (W.contents output.new) (asker_items addresses.now)) }
{
    match addresses {
        Addresses::V4(asker, _) => field(output, form, "src_addr", *asker),
        Addresses::V6(asker, _) => field(output, form, "src_addr", *asker),
    }
}

// Prints who is asked.
fn show_answerer<W: Write>(output: &mut W, form: Form, addresses: &Addresses) -> io::Result<()>
    ensures { OnOk result (Prints form (W.contents output.old) (W.contents output.new) (answerer_items addresses.now)) }
{
    match addresses {
        Addresses::V4(_, answerer) => field(output, form, "dst_addr", *answerer),
        Addresses::V6(_, answerer) => field(output, form, "dst_addr", *answerer),
    }
}

// Prints who is asked, where a question of this service goes to one host.
fn show_unless_many<W: Write>(
    output: &mut W,
    form: Form,
    service: Service,
    addresses: &Addresses,
) -> io::Result<()>
    ensures { OnOk result (Prints form (W.contents output.old) (W.contents output.new)
        (unless_many service addresses.now)) }
{
    match service {
        Service::Dns => show_answerer(output, form, addresses),
        _ => Ok(()),
    }
}

fn show_service<W: Write>(output: &mut W, form: Form, service: Service) -> io::Result<()>
    ensures { OnOk result (Prints form (W.contents output.old) (W.contents output.new) (service_items service)) }
{
    match service {
        Service::Dns => field(output, form, "kind", "dns"),
        Service::Mdns => field(output, form, "kind", "mdns"),
        Service::Llmnr => field(output, form, "kind", "llmnr"),
        Service::Nbns => field(output, form, "kind", "nbns"),
        Service::Dhcp => field(output, form, "kind", "dhcp"),
    }
}

// A name as the value of a field.
#[derive(Clone, Copy)]
struct NameWord<'a>(&'a Name);

impl Text for NameWord<'_> {
    ghost text_of = { λ word. whole_name (labels_of word.0.now) };

    fn put_into<O, S: Sink<O>>(self, output: &mut O) -> Result<(), S::Error> {
        self.0.put_whole::<O, S>(output)
    }
}

impl Value for NameWord<'_> {
    ghost leaf = { λ word. text (whole_name (labels_of word.0.now)) };

    fn put<W: Write>(self, output: &mut W, form: Form) -> io::Result<()> {
        put_text(output, form, self)
    }
}

// A type of records as the value of a field.
#[derive(Debug, PartialEq, Eq, Clone, Copy)]
struct TypeWord(Type);

impl Text for TypeWord {
    ghost text_of = { λ word. type_display word.0 };

    fn put_into<O, S: Sink<O>>(self, output: &mut O) -> Result<(), S::Error> {
        put_type::<O, S>(output, self.0)
    }
}

impl Value for TypeWord {
    ghost leaf = { λ word. text (type_display word.0) };

    fn put<W: Write>(self, output: &mut W, form: Form) -> io::Result<()> {
        put_text(output, form, self)
    }
}
