//! The values of fields.

#![tactic(auto, using(crate::proofs::Puts::put_escaped, // what is put into a string
crate::proofs::Printing::put, crate::proofs::Printing::put_on_ok, // and as it is
crate::proofs::Printing::gained, crate::proofs::Printing::gains_both))]

ghost use Rattle.std.specs.Prelude.{◌*◌, ◌++◌, ℕ, List, OnOk, codes, flat_map, map};
ghost use Rattle.wirebase.specs.Duration.{millis_of, three_digits};
ghost use Rattle.wirebase.specs.Hexadecimal.{hex_colons};
ghost use Rattle.packet_fields.specs.private.Colons.{behind_colon};
ghost use Rattle.hex.specs.Hex.{encode_lower};
ghost use Rattle.wirebase.specs.Sink.{PutsText};
ghost use Rattle.wirebase.specs.Ipv4.{address_text};
ghost use Rattle.wirebase.specs.Ipv6Address as ipv6;
ghost use Rattle.packet_fields.specs.Output.{Gains};
ghost use Rattle.packet_fields.specs.Fields.{Leaf, Fits, number, truth, text, texts, octets, time, missing};
ghost use Rattle.packet_fields.specs.Fields.{leaf_text, leaf_or_missing, fraction_text, seconds_text, strings_text, with_commas};
ghost use Rattle.json.specs.Print.{quoted};

use crate::escapes::ToString;
use crate::form::Form;
use crate::output::ToWriter;
use std::io;
use std::io::Write;
use wirebase::text::{Sink, put_hex, put_number, put_octets, put_v4, put_v6};
use wirebase::{Duration, Ipv4Address, Ipv6Address};

/// The value of a field.
pub trait Value: Drop {
    /// What is printed.
    ghost leaf: { Self → Leaf };

    /// Prints the value alone.
    fn put<W: Write>(self, output: &mut W, form: Form) -> io::Result<()>
        ensures text { OnOk result (Gains (W.contents output.old) (W.contents output.new)
            (leaf_text form (leaf self))) }
        ensures fits { Fits (leaf self) };
}

impl Value for u8 {
    ghost leaf = { number };

    fn put<W: Write>(self, output: &mut W, form: Form) -> io::Result<()> {
        u64::from(self).put(output, form)
    }
}

impl Value for u16 {
    ghost leaf = { number };

    fn put<W: Write>(self, output: &mut W, form: Form) -> io::Result<()> {
        u64::from(self).put(output, form)
    }
}

impl Value for u32 {
    ghost leaf = { number };

    fn put<W: Write>(self, output: &mut W, form: Form) -> io::Result<()> {
        u64::from(self).put(output, form)
    }
}

impl Value for u64 {
    ghost leaf = { number };

    fn put<W: Write>(self, output: &mut W, _form: Form) -> io::Result<()> {
        put_number::<_, ToWriter>(output, self)
    }
}

impl Value for bool {
    ghost leaf = { truth };

    fn put<W: Write>(self, output: &mut W, _form: Form) -> io::Result<()> {
        output.write_all(if self { b"true" } else { b"false" })
    }
}

impl Value for &str {
    ghost leaf = { λ name. text name.now };

    fn put<W: Write>(self, output: &mut W, form: Form) -> io::Result<()> {
        put_text(output, form, self)
    }
}

impl Value for Ipv4Address {
    ghost leaf = { λ address. text (address_text address) };

    fn put<W: Write>(self, output: &mut W, form: Form) -> io::Result<()> {
        put_text(output, form, self)
    }
}

impl Value for Ipv6Address {
    ghost leaf = { λ address. text (ipv6.address_text address) };

    fn put<W: Write>(self, output: &mut W, form: Form) -> io::Result<()> {
        put_text(output, form, self)
    }
}

impl Value for &[u8] {
    ghost leaf = { λ bytes. octets bytes.now };

    fn put<W: Write>(self, output: &mut W, form: Form) -> io::Result<()> {
        match form {
            Form::Lines => put_octets::<_, ToWriter>(output, self),
            Form::Json => put_string(output, Digits(self)),
        }
    }
}

impl<V: Value> Value for Option<V> {
    ghost leaf = { leaf_or_missing V.leaf };

    fn put<W: Write>(self, output: &mut W, form: Form) -> io::Result<()> {
        match self {
            Some(value) => value.put(output, form),
            None => put_missing(output, form),
        }
    }
}

// Whole milliseconds; lines have seconds.
impl Value for Duration {
    ghost leaf = { λ duration. time (millis_of duration) };

    fn put<W: Write>(self, output: &mut W, form: Form) -> io::Result<()> {
        put_time(output, form, self.total_millis())
    }
}

// Prints a time of so many milliseconds.
fn put_time<W: Write>(output: &mut W, form: Form, millis: u64) -> io::Result<()>
    ensures { OnOk result (Gains (W.contents output.old) (W.contents output.new) (leaf_text form (time millis))) }
{
    match form {
        Form::Lines => put_seconds(output, millis),
        Form::Json => put_number::<_, ToWriter>(output, millis),
    }
}

fn put_seconds<W: Write>(output: &mut W, millis: u64) -> io::Result<()>
    ensures { OnOk result (Gains (W.contents output.old) (W.contents output.new) (seconds_text millis)) }
{
    put_number::<_, ToWriter>(output, millis / 1000)?;
    put_fraction(output, millis % 1000)?;
    output.write_all(b"s")
}

// Prints what follows the seconds.
fn put_fraction<W: Write>(output: &mut W, millis: u64) -> io::Result<()>
    ensures { OnOk result (Gains (W.contents output.old) (W.contents output.new) (fraction_text millis)) }
{
    if millis == 0 {
        return Ok(());
    }
    put_millis(output, millis)
}

// Prints a dot and three digits.
fn put_millis<W: Write>(output: &mut W, millis: u64) -> io::Result<()>
    ensures { OnOk result (Gains (W.contents output.old) (W.contents output.new) (codes "." ++ three_digits millis)) }
{
    output.write_all(b".")?;
    put_number::<_, ToWriter>(output, millis / 100)?;
    put_number::<_, ToWriter>(output, millis / 10 % 10)?;
    put_number::<_, ToWriter>(output, millis % 10)
}

/// Seconds, as a time.
#[derive(Debug, PartialEq, Eq, Clone, Copy)]
pub struct Seconds(pub u32);

impl Value for Seconds {
    ghost leaf = { λ seconds. time (1000 * seconds.0) };

    fn put<W: Write>(self, output: &mut W, form: Form) -> io::Result<()> {
        put_time(output, form, 1_000 * u64::from(self.0))
    }
}

/// Texts, in lines with commas between them.
#[derive(Debug, Clone, Copy)]
pub struct Texts<'a, T>(pub &'a [T]);

impl<T: Text + Copy> Value for Texts<'_, T> {
    ghost leaf = { λ list. texts (map T.text_of list.0.now) };

    fn put<W: Write>(self, output: &mut W, form: Form) -> io::Result<()> {
        match form {
            Form::Lines => put_commas(output, self.0),
            Form::Json => put_strings(output, self.0),
        }
    }
}

// Prints texts with commas between them.
fn put_commas<T: Text + Copy, W: Write>(output: &mut W, list: &[T]) -> io::Result<()>
    ensures { OnOk result (Gains (W.contents output.old) (W.contents output.new)
        (with_commas (map T.text_of list.now))) }
{
    let [first, rest @ ..] = list else {
        return output.write_all(b"-");
    };
    first.put_into::<W, ToWriter>(output)?;
    for next in rest {
        output.write_all(b",")?;
        next.put_into::<W, ToWriter>(output)?;
    }
    Ok(())
}

// Prints texts as an array of strings.
fn put_strings<T: Text + Copy, W: Write>(output: &mut W, list: &[T]) -> io::Result<()>
    ensures { OnOk result (Gains (W.contents output.old) (W.contents output.new)
        (strings_text (map T.text_of list.now))) }
{
    let [first, rest @ ..] = list else {
        return output.write_all(b"[]");
    };
    output.write_all(b"[")?;
    put_string(output, *first)?;
    for next in rest {
        output.write_all(b",")?;
        put_string(output, *next)?;
    }
    output.write_all(b"]")
}

fn put_missing<W: Write>(output: &mut W, form: Form) -> io::Result<()>
    ensures { OnOk result (Gains (W.contents output.old) (W.contents output.new) (leaf_text form missing)) }
{
    match form {
        Form::Lines => output.write_all(b"none"),
        Form::Json => output.write_all(b"null"),
    }
}

/// A text that is put as it is, or as a string of JSON.
pub trait Text: Drop {
    /// The text.
    ghost text_of: { Self → List ℕ };

    /// Puts the text.
    fn put_into<O, S: Sink<O>>(self, output: &mut O) -> Result<(), S::Error>
        ensures { PutsText S.took output.old (text_of self) result output.new };
}

impl Text for &str {
    ghost text_of = { λ name. name.now };

    fn put_into<O, S: Sink<O>>(self, output: &mut O) -> Result<(), S::Error> {
        S::put_str(output, self)
    }
}

impl Text for Ipv4Address {
    ghost text_of = { address_text };

    fn put_into<O, S: Sink<O>>(self, output: &mut O) -> Result<(), S::Error> {
        put_v4::<O, S>(output, self, None)
    }
}

impl Text for Ipv6Address {
    ghost text_of = { ipv6.address_text };

    fn put_into<O, S: Sink<O>>(self, output: &mut O) -> Result<(), S::Error> {
        put_v6::<O, S>(output, self, None)
    }
}

/// Octets in hexadecimal digits, with colons between them: a link-layer address.
#[derive(Debug, PartialEq, Eq, Clone, Copy)]
pub struct Colons<'a>(pub &'a [u8]);

impl Value for Colons<'_> {
    ghost leaf = { λ octets. text (hex_colons octets.0.now) };

    fn put<W: Write>(self, output: &mut W, form: Form) -> io::Result<()> {
        put_text(output, form, self)
    }
}

impl Text for Colons<'_> {
    ghost text_of = { λ octets. hex_colons octets.0.now };

    fn put_into<O, S: Sink<O>>(self, output: &mut O) -> Result<(), S::Error> {
        let [first, rest @ ..] = self.0 else {
            return Ok(());
        };
        put_hex::<O, S>(output, &[*first])?;
        put_behind_colons::<O, S>(output, rest)
    }
}

// Puts each octet after a colon.
fn put_behind_colons<O, S: Sink<O>>(output: &mut O, octets: &[u8]) -> Result<(), S::Error>
    ensures { PutsText S.took output.old (flat_map behind_colon octets.now) result output.new }
{
    for octet in octets {
        put_behind_colon::<O, S>(output, *octet)?;
    }
    Ok(())
}

#[tactic(auto, using(wirebase::proofs::Sinks::puts))]
fn put_behind_colon<O, S: Sink<O>>(output: &mut O, octet: u8) -> Result<(), S::Error>
    ensures { PutsText S.took output.old (behind_colon octet) result output.new }
{
    S::put_str(output, ":")?;
    put_hex::<O, S>(output, &[octet])
}

// Octets by their hexadecimal digits alone.
#[derive(Clone, Copy)]
struct Digits<'a>(&'a [u8]);

impl Text for Digits<'_> {
    ghost text_of = { λ digits. encode_lower digits.0.now };

    fn put_into<O, S: Sink<O>>(self, output: &mut O) -> Result<(), S::Error> {
        put_hex::<O, S>(output, self.0)
    }
}

/// Prints a text.
pub fn put_text<T: Text, W: Write>(output: &mut W, form: Form, value: T) -> io::Result<()>
    ensures { OnOk result (Gains (W.contents output.old) (W.contents output.new)
        (leaf_text form (text (T.text_of value)))) }
{
    match form {
        Form::Lines => value.put_into::<W, ToWriter>(output),
        Form::Json => put_string(output, value),
    }
}

/// Prints a text as a string of JSON.
pub fn put_string<T: Text, W: Write>(output: &mut W, value: T) -> io::Result<()>
    ensures { OnOk result (Gains (W.contents output.old) (W.contents output.new) (quoted (T.text_of value))) }
{
    output.write_all(b"\"")?;
    value.put_into::<W, ToString>(output)?;
    output.write_all(b"\"")
}
