//! Kinds of messages, and what they differ in.

#![tactic(auto, using(wirebase::proofs::Sinks::puts))]

ghost use Rattle.std.specs.Prelude.{◌≡◌, ◌&&◌};
ghost use Rattle.record_wire.specs.Multicast as multicast;
ghost use Rattle.record_wire.specs.Name.{labels_of};
ghost use Rattle.wirebase.specs.Sink.{PutsText};
ghost use Rattle.dns_fields.specs.Kind.{is_multicast, is_netbios, name_text, netbios_type, type_text};

use crate::netbios;
use dns_wire::dns::Type;
use packet_fields::value::Text;
use record_wire::types::put_type;
use record_wire::{Name, Question, Record, multicast};
use wirebase::text::Sink;

/// A kind of messages: they have the same form, and differ in flags, and some in more.
#[derive(Debug, PartialEq, Eq, Clone, Copy)]
pub enum Kind {
    /// DNS (RFC 1035 section 4.1).
    Dns,
    /// Multicast DNS, in which the top bit of a class is a flag (RFC 6762 sections 5.4 and 10.2).
    Mdns,
    /// Link-local multicast name resolution, in whose header other flags have the places of `aa` and `rd` (RFC 4795
    /// section 2.1.1).
    Llmnr,
    /// The NetBIOS name service, whose names, kinds of query, outcomes and records are others (RFC 1002 section 4.2).
    Nbns,
}

impl Kind {
    /// Whether messages are of multicast DNS.
    pub(crate) fn is_multicast(self) -> bool
        ensures { result ≡ is_multicast self }
    {
        self == Kind::Mdns
    }

    /// Whether messages are of the NetBIOS name service.
    pub(crate) fn is_netbios(self) -> bool
        ensures { result ≡ is_netbios self }
    {
        self == Kind::Nbns
    }

    /// The class of a question, which in multicast DNS is without its top bit (RFC 6762 section 5.4).
    pub(crate) fn question_class(self, question: &Question<'_>) -> u16
        ensures { result ≡ multicast.question_class (is_multicast self) question.now.class }
    {
        multicast::question_class(self.is_multicast(), question)
    }

    /// The class of a record, which in multicast DNS is without its top bit (RFC 6762 section 10.2).
    pub(crate) fn record_class(self, record: &Record<'_>) -> u16
        ensures { result ≡ multicast.record_class (is_multicast self) «record».now.type_ «record».now.class }
    {
        multicast::record_class(self.is_multicast(), record)
    }

    /// Whether a question of multicast DNS wants its answer sent to the asker alone.
    pub(crate) fn wants_unicast(self, question: &Question<'_>) -> bool
        ensures { result ≡ (is_multicast self && multicast.has_top_bit question.now.class) }
    {
        multicast::wants_unicast(self.is_multicast(), question)
    }

    /// Whether a record of multicast DNS tells caches to drop what they have.
    pub(crate) fn flushes_cache(self, record: &Record<'_>) -> bool
        ensures { result ≡ (is_multicast self && multicast.flushes «record».now.type_ «record».now.class) }
    {
        multicast::flushes_cache(self.is_multicast(), record)
    }
}

/// A name in a message of a kind.
#[derive(Clone, Copy)]
pub struct NameOf<'a>(pub Kind, pub &'a Name);

impl Text for NameOf<'_> {
    ghost text_of = { λ name. name_text name.0 (labels_of name.1.now) };

    fn put_into<O, S: Sink<O>>(self, output: &mut O) -> Result<(), S::Error> {
        match self.0 {
            Kind::Nbns => netbios::put_name::<O, S>(output, self.1),
            Kind::Dns | Kind::Mdns | Kind::Llmnr => self.1.put_whole::<O, S>(output),
        }
    }
}

/// A type of records in a message of a kind.
#[derive(Clone, Copy)]
pub struct TypeOf(pub Kind, pub Type);

impl Text for TypeOf {
    ghost text_of = { λ it. type_text it.0 it.1 };

    fn put_into<O, S: Sink<O>>(self, output: &mut O) -> Result<(), S::Error> {
        match self.0 {
            Kind::Nbns => put_netbios_type::<O, S>(output, self.1),
            Kind::Dns | Kind::Mdns | Kind::Llmnr => put_type::<O, S>(output, self.1),
        }
    }
}

// Puts a type of the NetBIOS name service, which has other names for some than DNS (RFC 1002 section 4.2.1.3).
fn put_netbios_type<O, S: Sink<O>>(output: &mut O, type_: Type) -> Result<(), S::Error>
    ensures { PutsText S.took output.old (netbios_type type_) result output.new }
{
    match u16::from(type_) {
        10 => S::put_str(output, "NULL"),
        32 => S::put_str(output, "NB"),
        33 => S::put_str(output, "NBSTAT"),
        _ => put_type::<O, S>(output, type_),
    }
}
