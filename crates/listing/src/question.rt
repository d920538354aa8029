//! Questions of DNS.

#![tactic(auto, using(packet_fields::proofs::Printing::gains_both))]

ghost use Rattle.std.specs.Prelude.{OnOk};
ghost use Rattle.dns_wire.specs.DnsQuestion.{value_of};
ghost use Rattle.listing.specs.ListingDns.{QuestionPrints, question_listing};
ghost use Rattle.packet_fields.specs.Output.{Gains, GainsSome};

use crate::printer::{field, line};
use dns_wire::dns::Question;
use std::io;
use std::io::Write;

/// Prints the question at the start of the octets, and returns the number of octets after it.
pub fn show_question<W: Write>(output: &mut W, packet: &[u8]) -> io::Result<()>
    ensures { OnOk result (GainsSome (W.contents output.old) (W.contents output.new)
        (QuestionPrints packet.now)) }
{
    let Ok((rest, question)) = Question::parse(packet) else {
        return line(output, "refused");
    };
    show_fields(output, &question, rest)
}

fn show_fields<W: Write>(output: &mut W, question: &Question<'_>, rest: &[u8]) -> io::Result<()>
    ensures { OnOk result (Gains (W.contents output.old) (W.contents output.new)
        (question_listing (value_of question.now, rest.now))) }
{
    field(output, "name", question.name)?;
    field(output, "type_", u16::from(question.type_))?;
    field(output, "rest", rest.len())
}
