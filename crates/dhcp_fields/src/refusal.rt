//! Why packets can't be read whole.

#![tactic(auto, using(wirebase::proofs::Sinks::puts))]

ghost use Rattle.std.specs.Prelude.{◌≡◌, OnOk};
ghost use Rattle.dhcp_options.specs.PartsDisplay.{area_display, refusal_display};
ghost use Rattle.dhcp_fields.specs.Refusal.{first_cut, refusal_text, refused_items};
ghost use Rattle.wirebase.specs.Sink.{PutsText};
ghost use Rattle.packet_fields.specs.Fields.{text};
ghost use Rattle.packet_fields.specs.Prints.{Prints};

use dhcp_options::{Area, Parts};
use packet_fields::Form;
use packet_fields::field::field;
use packet_fields::value::{Text, Value, put_text};
use std::io::Write;
use std::{fmt, io};
use wirebase::text::{Sink, ToFormatter, put_number};

/// Why a packet can't be read whole: the first reason.
#[derive(Debug, PartialEq, Eq, Clone, Copy)]
pub enum Refusal {
    /// Fewer than 240 bytes.
    Short,
    /// The number before the options is not the magic cookie of DHCP (RFC 2131 section 3).
    MagicCookie,
    /// An option is cut.
    OptionCut(dhcp_options::Refusal),
}

/// What is wrong with the packet, in the words of the crates that read it.
impl fmt::Display for Refusal {
    ghost use Rattle.std.specs.Prelude.{Some};
    ghost use Rattle.dhcp_fields.specs.Refusal.{refusal_text};

    ghost output = { λ refusal. Some (refusal_text refusal) };

    #[tactic(auto, using(wirebase::proofs::Sinks::displayed))]
    fn fmt<W: fmt::Write>(&self, f: &mut fmt::Formatter<W>) -> fmt::Result {
        self.put_into::<_, ToFormatter>(f)
    }
}

impl Value for Refusal {
    ghost leaf = { λ refusal. text (refusal_text refusal) };

    fn put<W: Write>(self, output: &mut W, form: Form) -> io::Result<()> {
        put_text(output, form, self)
    }
}

impl Text for Refusal {
    ghost text_of = { refusal_text };

    fn put_into<O, S: Sink<O>>(self, output: &mut O) -> Result<(), S::Error> {
        match self {
            Refusal::Short => S::put_str(output, "fewer than 240 bytes"),
            Refusal::MagicCookie => S::put_str(output, "the magic cookie is missing"),
            Refusal::OptionCut(cut) => put_cut::<O, S>(output, cut),
        }
    }
}

fn put_cut<O, S: Sink<O>>(output: &mut O, cut: dhcp_options::Refusal) -> Result<(), S::Error>
    ensures { PutsText S.took output.old (refusal_display cut) result output.new }
{
    S::put_str(output, "option ")?;
    put_number::<O, S>(output, cut.kind as u64)?;
    S::put_str(output, " is cut at the end of ")?;
    S::put_str(output, area_name(cut.area))
}

fn area_name(area: Area) -> &'static str
    ensures { result.now ≡ area_display area }
{
    match area {
        Area::Options => "options",
        Area::File => "file",
        Area::Sname => "sname",
    }
}

/// The refusal of the first option that is cut.
pub fn first_cut(parts: Parts<'_>) -> Option<Refusal>
    ensures { result ≡ first_cut parts.entry }
{
    let mut left = parts;
    while let Some(answer) = left.next() {
        if let Err(cut) = answer {
            return Some(Refusal::OptionCut(cut));
        }
    }
    None
}

/// Prints why a packet can't be read whole, where it can't.
#[tactic(auto, using(packet_fields::proofs::Fields::prints_none))]
pub(crate) fn show_refused<W: Write>(
    output: &mut W,
    form: Form,
    refused: Option<Refusal>,
) -> io::Result<()>
    ensures { OnOk result (Prints form (W.contents output.old) (W.contents output.new)
        (refused_items refused)) }
{
    match refused {
        Some(why) => field(output, form, "refused", why),
        None => Ok(()),
    }
}
