//! Words about extensions: why they are refused, and the roles of interfaces.

#![tactic(auto, using(wirebase::proofs::Sinks::puts))]

ghost use Rattle.std.specs.Prelude.{◌≡◌, ◌∷◌, [], decimal};
ghost use Rattle.wirebase.specs.Display.{pieces};
ghost use Rattle.wirebase.specs.Sink.{PutsText};
ghost use Rattle.extension_wire.specs.ExtensionDisplay.{interface_refusal_display};
ghost use Rattle.packet_fields.specs.Fields.{text};
ghost use Rattle.icmp_fields.specs.ExtensionWords.{role_name};
ghost use Rattle.icmp_fields.specs.private.Reasons.{why_text};

use extension_wire::{
    InterfaceRefusal, LabelRefusal, ObjectRefusal, Role, SplitRefusal, StructureRefusal,
};
use packet_fields::Form;
use packet_fields::value::{Text, Value, put_text};
use std::io;
use std::io::Write;
use wirebase::text::{Sink, put_number};

/// Why extensions are not read, or one of them.
#[derive(Debug, PartialEq, Eq, Clone, Copy)]
pub enum Why {
    /// They are not told apart from what is quoted.
    Split(SplitRefusal),
    /// The structure is refused.
    Structure(StructureRefusal),
    /// The structure has no object.
    NoObject,
    /// No object begins.
    Object(ObjectRefusal),
    /// An object has no stack of labels.
    Labels(LabelRefusal),
    /// An object says nothing of an interface.
    Interface(InterfaceRefusal),
}

impl Text for Why {
    ghost text_of = { why_text };

    fn put_into<O, S: Sink<O>>(self, output: &mut O) -> Result<(), S::Error> {
        match self {
            Why::Split(SplitRefusal::Short) => S::put_str(
                output,
                "the original datagram has fewer than 128 bytes by its length",
            ),
            Why::Split(SplitRefusal::Cut) => S::put_str(output, "the original datagram is cut"),
            Why::Structure(StructureRefusal::Short) => {
                S::put_str(output, "the header of the extensions is cut")
            }
            Why::Structure(StructureRefusal::Version(version)) => {
                put_with::<O, S>(output, "the extensions are of version ", version as u64)
            }
            Why::Structure(StructureRefusal::Checksum) => {
                S::put_str(output, "the checksum of the extensions is wrong")
            }
            Why::NoObject => S::put_str(output, "the extensions have no object"),
            Why::Object(ObjectRefusal::Short) => {
                S::put_str(output, "the header of the object is cut")
            }
            Why::Object(ObjectRefusal::Length) => S::put_str(
                output,
                "the object has fewer than 4 bytes by its length",
            ),
            Why::Object(ObjectRefusal::Cut) => S::put_str(output, "the object is cut"),
            Why::Labels(LabelRefusal) => {
                S::put_str(output, "the stack of labels ends within an entry")
            }
            Why::Interface(refusal) => put_interface::<O, S>(output, refusal),
        }
    }
}

// Puts why an object says nothing of an interface.
fn put_interface<O, S: Sink<O>>(output: &mut O, refusal: InterfaceRefusal) -> Result<(), S::Error>
    ensures { PutsText S.took output.old (interface_refusal_display refusal) result output.new }
{
    match refusal {
        InterfaceRefusal::Cut => S::put_str(output, "the object about the interface is cut"),
        InterfaceRefusal::AddressFamily(family) => put_with::<O, S>(
            output,
            "the interface has an address of family ",
            family as u64,
        ),
        InterfaceRefusal::NameLength(len) => put_with::<O, S>(
            output,
            "the name of the interface has a length of ",
            len as u64,
        ),
    }
}

// Puts a phrase, and a number behind it.
fn put_with<O, S: Sink<O>>(output: &mut O, phrase: &str, number: u64) -> Result<(), S::Error>
    ensures { PutsText S.took output.old (pieces (phrase.now ∷ decimal number ∷ [])) result output.new }
{
    S::put_str(output, phrase)?;
    put_number::<O, S>(output, number)
}

// A text as a value.
#[derive(Clone, Copy)]
pub(crate) struct Word<T>(pub(crate) T);

impl<T: Text> Value for Word<T> {
    ghost leaf = { λ word. text (T.text_of word.0) };

    fn put<W: Write>(self, output: &mut W, form: Form) -> io::Result<()> {
        put_text(output, form, self.0)
    }
}

/// The name of a role.
pub(crate) fn role_name(role: Role) -> &'static str
    ensures { result.now ≡ role_name role }
{
    match role {
        Role::Incoming => "incoming",
        Role::SubIp => "sub_ip",
        Role::Outgoing => "outgoing",
        Role::NextHop => "next_hop",
    }
}
