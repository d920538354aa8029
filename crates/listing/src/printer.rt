//! Printing of values: names and fields, one a line.

#![tactic(auto, using(packet_fields::proofs::Printing::gained, // what one write appends
packet_fields::proofs::Printing::gains_both, packet_fields::proofs::Printing::put_on_ok))]

ghost use Rattle.std.specs.Prelude.{ℕ, List, OnOk, decimal};
ghost use Rattle.wirebase.specs.Ipv4.{address_text};
ghost use Rattle.listing.specs.Layout.{line as line_text, field as field_text, part_field as part_field_text};
ghost use Rattle.wirebase.specs.Hexadecimal.{octets_text};
ghost use Rattle.wirebase.specs.Display.{truth_text};
ghost use Rattle.listing.specs.Layout.{millis_text, text_or_none};
ghost use Rattle.packet_fields.specs.Output.{Gains};

use packet_fields::output::ToWriter;
use std::io;
use std::io::Write;
use wirebase::text::{put_number, put_octets, put_v4};
use wirebase::{Duration, Ipv4Address};

/// The value after a field's name: a number, truth value, text or octets, or no value.
pub trait Value: Drop {
    /// What the value is printed as.
    ghost text: { Self → List ℕ };

    /// Writes the value as it is printed, without a newline.
    fn write_to<W: Write>(self, output: &mut W) -> io::Result<()>
        ensures { OnOk result (Gains (W.contents output.old) (W.contents output.new) (text self)) };
}

impl Value for u8 {
    ghost text = { decimal };

    fn write_to<W: Write>(self, output: &mut W) -> io::Result<()> {
        put_number::<_, ToWriter>(output, u64::from(self))
    }
}

impl Value for u16 {
    ghost text = { decimal };

    fn write_to<W: Write>(self, output: &mut W) -> io::Result<()> {
        put_number::<_, ToWriter>(output, u64::from(self))
    }
}

impl Value for u32 {
    ghost text = { decimal };

    fn write_to<W: Write>(self, output: &mut W) -> io::Result<()> {
        put_number::<_, ToWriter>(output, u64::from(self))
    }
}

impl Value for u64 {
    ghost text = { decimal };

    fn write_to<W: Write>(self, output: &mut W) -> io::Result<()> {
        put_number::<_, ToWriter>(output, self)
    }
}

impl Value for usize {
    ghost text = { decimal };

    fn write_to<W: Write>(self, output: &mut W) -> io::Result<()> {
        put_number::<_, ToWriter>(output, self as u64)
    }
}

impl Value for bool {
    ghost text = { truth_text };

    fn write_to<W: Write>(self, output: &mut W) -> io::Result<()> {
        output.write_all(if self { b"true" } else { b"false" })
    }
}

impl Value for &str {
    ghost text = { λ name. name.now };

    fn write_to<W: Write>(self, output: &mut W) -> io::Result<()> {
        output.write_all(self.as_bytes())
    }
}

// An address with dots.
impl Value for Ipv4Address {
    ghost text = { address_text };

    fn write_to<W: Write>(self, output: &mut W) -> io::Result<()> {
        put_v4::<_, ToWriter>(output, self, None)
    }
}

// A span of time in whole milliseconds.
impl Value for Duration {
    ghost text = { millis_text };

    fn write_to<W: Write>(self, output: &mut W) -> io::Result<()> {
        self.total_millis().write_to(output)
    }
}

impl<V: Value> Value for Option<V> {
    ghost text = { text_or_none V.text };

    fn write_to<W: Write>(self, output: &mut W) -> io::Result<()> {
        match self {
            Some(value) => value.write_to(output),
            None => output.write_all(b"none"),
        }
    }
}

// Octets in lower-case hexadecimal digits, or `-` for none.
impl Value for &[u8] {
    ghost text = { λ octets. octets_text octets.now };

    fn write_to<W: Write>(self, output: &mut W) -> io::Result<()> {
        put_octets::<_, ToWriter>(output, self)
    }
}

/// Prints a line of its own: a variant's name, a value without a name, or a result that is no value.
pub fn line<V: Value, W: Write>(output: &mut W, value: V) -> io::Result<()>
    ensures { OnOk result (Gains (W.contents output.old) (W.contents output.new)
        (line_text (V.text value))) }
{
    value.write_to(output)?;
    output.write_all(b"\n")
}

/// Prints a field, or a variant with one unnamed value, as `name=value`. Inlined: most callers know the name, and copy
/// it without a call.
#[inline(always)]
pub fn field<V: Value, W: Write>(output: &mut W, name: &str, value: V) -> io::Result<()>
    ensures { OnOk result (Gains (W.contents output.old) (W.contents output.new)
        (field_text name.now (V.text value))) }
{
    output.write_all(name.as_bytes())?;
    output.write_all(b"=")?;
    line(output, value)
}

/// Prints a field of a part, after `part`: the part's name and a dot, which precede the field's name.
#[inline(always)]
pub fn part_field<V: Value, W: Write>(
    output: &mut W,
    part: &str,
    name: &str,
    value: V,
) -> io::Result<()>
    ensures { OnOk result (Gains (W.contents output.old) (W.contents output.new)
        (part_field_text part.now name.now (V.text value))) }
{
    output.write_all(part.as_bytes())?;
    field(output, name, value)
}
