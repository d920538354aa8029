//! Kinds of options, as numbers.

#![tactic(auto, using(packet_fields::proofs::Printing::gained))]

ghost use Rattle.std.specs.Prelude.{◌++◌, OnOk, codes, decimal, flat_map, map};
ghost use Rattle.dhcp_wire.specs.Dhcpv4Display.{commas};
ghost use Rattle.packet_fields.specs.Fields.{AllFit, numbers, numbers_text, with_commas};
ghost use Rattle.packet_fields.specs.Output.{Gains};

use packet_fields::Form;
use packet_fields::output::ToWriter;
use packet_fields::value::Value;
use std::io;
use std::io::Write;
use wirebase::text::put_number;

// Kinds of options, of one byte each.
#[derive(Clone, Copy)]
pub(crate) struct Kinds<'a>(pub(crate) &'a [u8]);

impl Value for Kinds<'_> {
    ghost leaf = { λ kinds. numbers kinds.0.now };

    fn put<W: Write>(self, output: &mut W, form: Form) -> io::Result<()> {
        numbers_fit(self.0);
        match form {
            Form::Lines => put_line(output, self.0),
            Form::Json => put_array(output, self.0),
        }
    }
}

/// Does nothing; its contract states that kinds have at most 64 bits each.
pub(crate) fn numbers_fit(kinds: &[u8])
    ensures { AllFit kinds.now }
{
    wirebase::are_bytes(kinds);
}

// Prints kinds with commas between them, or a dash for none.
fn put_line<W: Write>(output: &mut W, kinds: &[u8]) -> io::Result<()>
    ensures { OnOk result (Gains (W.contents output.old) (W.contents output.new)
        (with_commas (map decimal kinds.now))) }
{
    if kinds.is_empty() {
        return output.write_all(b"-");
    }
    put_numbers(output, kinds)
}

// Prints kinds as an array.
fn put_array<W: Write>(output: &mut W, kinds: &[u8]) -> io::Result<()>
    ensures { OnOk result (Gains (W.contents output.old) (W.contents output.new) (numbers_text kinds.now)) }
{
    output.write_all(b"[")?;
    put_numbers(output, kinds)?;
    output.write_all(b"]")
}

fn put_numbers<W: Write>(output: &mut W, kinds: &[u8]) -> io::Result<()>
    ensures { OnOk result (Gains (W.contents output.old) (W.contents output.new) (commas decimal kinds.now)) }
{
    let Some((first, rest)) = kinds.split_first() else {
        return Ok(());
    };
    put_number::<_, ToWriter>(output, *first as u64)?;
    put_behind_commas(output, rest)
}

fn put_behind_commas<W: Write>(output: &mut W, kinds: &[u8]) -> io::Result<()>
    ensures { OnOk result (Gains (W.contents output.old) (W.contents output.new)
        (flat_map (λ next. codes "," ++ decimal next) kinds.now)) }
{
    for kind in kinds {
        put_behind_comma(output, *kind)?;
    }
    Ok(())
}

fn put_behind_comma<W: Write>(output: &mut W, kind: u8) -> io::Result<()>
    ensures { OnOk result (Gains (W.contents output.old) (W.contents output.new) (codes "," ++ decimal kind)) }
{
    output.write_all(b",")?;
    put_number::<_, ToWriter>(output, kind as u64)
}
