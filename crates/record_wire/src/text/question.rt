//! Questions with their names read, a line each.

ghost use Rattle.std.specs.Prelude.{◌≡◌, ℕ, List, Some, IfOk, IsOkAnd, IfErr};
ghost use Rattle.dns_wire.specs.DnsPacket.{view_octets};
ghost use Rattle.record_wire.specs.Multicast.{class_of};
ghost use Rattle.record_wire.specs.Name.{labels_of};
ghost use Rattle.record_wire.specs.NameRefusal.{RefusesName};
ghost use Rattle.record_wire.specs.Record.{question_of};
ghost use Rattle.record_wire.specs.Names.{Names};
ghost use Rattle.record_wire.specs.RecordText.{IsQuestionText, question_text};

use crate::line::put_asked;
use crate::name::Name;
use crate::name::name_text::NameText;
use crate::name::refusal::NameRefusal;
use crate::record::Question;
use dns_wire::dns::{Packet, Type};
use std::{fmt, result};
use wirebase::text::ToFormatter;

/// A question whose name is read, which prints as a record of a zone file without its time to live and its data.
///
/// ```
/// use record_wire::{Name, QuestionText, types};
///
/// let question = QuestionText { name: Name::from_text(b"example.com")?, class: 1, type_: types::MX };
/// assert_eq!(question.to_string(), "example.com. IN MX");
/// # Ok::<(), control_wire::Error>(())
/// ```
#[derive(PartialEq, Eq, Clone, Drop)]
pub struct QuestionText {
    /// The name.
    pub name: Name,
    /// The class of the records: 1 is the internet, 255 any.
    pub class: u16,
    /// The type of the records.
    pub type_: Type,
}

impl<'a> Question<'a> {
    /// The question with its name read. Refused where the name can't be read.
    pub fn text(&self, packet: &Packet<&'a [u8]>) -> result::Result<QuestionText, NameRefusal>
        ensures sound { IfOk result (IsQuestionText (view_octets packet.now) self.now.class (question_of self.now)) }
        ensures complete { (labels : List (List ℕ)) → Names (view_octets packet.now) self.now.name.now labels
            → IsOkAnd result (λ text. labels_of text.name ≡ labels) }
        ensures told { IfErr result (λ refusal. RefusesName self.now.name.now (view_octets packet.now) refusal) }
    {
        self.text_of_class(packet, self.class)
    }

    /// The text of a question of multicast DNS: its class is without the top bit, which is a flag there (RFC 6762
    /// section 5.4). [`crate::Entry::text`] reads the entries of either kind of message.
    pub fn multicast_text(
        &self,
        packet: &Packet<&'a [u8]>,
    ) -> result::Result<QuestionText, NameRefusal>
        ensures sound { IfOk result (IsQuestionText (view_octets packet.now) (class_of self.now.class)
            (question_of self.now)) }
        ensures complete { (labels : List (List ℕ)) → Names (view_octets packet.now) self.now.name.now labels
            → IsOkAnd result (λ text. labels_of text.name ≡ labels) }
        ensures told { IfErr result (λ refusal. RefusesName self.now.name.now (view_octets packet.now) refusal) }
    {
        self.text_of_class(packet, self.multicast_class())
    }

    // The text of a question whose class is taken as this one.
    pub(crate) fn text_of_class(
        &self,
        packet: &Packet<&'a [u8]>,
        class: u16,
    ) -> result::Result<QuestionText, NameRefusal>
        ensures sound { IfOk result (IsQuestionText (view_octets packet.now) class (question_of self.now)) }
        ensures complete { (labels : List (List ℕ)) → Names (view_octets packet.now) self.now.name.now labels
            → IsOkAnd result (λ text. labels_of text.name ≡ labels) }
        ensures told { IfErr result (λ refusal. RefusesName self.now.name.now (view_octets packet.now) refusal) }
    {
        match Name::read_or_refusal(packet, self.name) {
            Ok(name) => Ok(QuestionText {
                name,
                class,
                type_: self.type_,
            }),
            Err(refusal) => Err(refusal),
        }
    }
}

/// The name with its last dot, the class and the type by their mnemonics.
impl fmt::Display for QuestionText {
    ghost output = { λ question. Some (question_text (labels_of question.name) question.class question.type_) };

    fn fmt<W: fmt::Write>(&self, f: &mut fmt::Formatter<W>) -> fmt::Result {
        let name = NameText::of(&self.name);
        put_asked::<_, ToFormatter>(f, &name, self.class, self.type_)
    }
}
