//! Texts in lists: addresses, and the names of flags.

#![tactic(auto, using(crate::proofs::Printing::gained, // what one write appends
crate::proofs::Printing::gains_both, crate::proofs::Printing::gains_none), // texts in a row
unfolding(crate::specs::private::TextRuns::texts_before, // what stands around them
crate::specs::private::TextRuns::text_among, crate::specs::private::TextRuns::texts_after))]

ghost use Rattle.std.specs.Prelude.{◌≡◌, ◌≤◌, IfOk, OnOk, drop, length, take, true};
ghost use Rattle.packet_fields.specs.Output.{Gains};
ghost use Rattle.packet_fields.specs.Fields.{comma_unless, text, texts};
ghost use Rattle.wirebase.specs.Ipv4 as ipv4;
ghost use Rattle.wirebase.specs.Ipv6Address as ipv6;
ghost use Rattle.wirebase.specs.Ipv6Address.{octets_of};
ghost use Rattle.packet_fields.specs.Texts.{address_len, address_text, addresses, flag_names, v4_text, v6_text};
ghost use Rattle.packet_fields.specs.Names.{rows_of};
ghost use Rattle.packet_fields.specs.private.TextRuns.{run_from, still_first, text_among, texts_after, texts_before};

use crate::form::Form;
use crate::names::Row;
use crate::value::{Text, Value, put_text};
use std::io;
use std::io::Write;
use wirebase::text::{Sink, put_hex, put_v4, put_v6};
use wirebase::{Ipv4Address, Ipv6Address};

/// An IPv6 address by its 16 octets, or an IPv4 address by its 4; of another number of octets their hexadecimal digits.
#[derive(Clone, Copy)]
pub struct Address<'a>(pub &'a [u8]);

impl Text for Address<'_> {
    ghost text_of = { λ address. address_text address.0.now };

    fn put_into<O, S: Sink<O>>(self, output: &mut O) -> Result<(), S::Error> {
        if self.0.len() == 16 {
            return put_v6::<O, S>(output, v6_of(self.0), None);
        }
        if self.0.len() == 4 {
            return put_v4::<O, S>(output, v4_of(self.0), None);
        }
        put_hex::<O, S>(output, self.0)
    }
}

impl Value for Address<'_> {
    ghost leaf = { λ address. text (address_text address.0.now) };

    fn put<W: Write>(self, output: &mut W, form: Form) -> io::Result<()> {
        put_text(output, form, self)
    }
}

/// The IPv6 address of 16 octets. Requires that many.
#[tactic(auto, unfolding(crate::specs::Texts::v6_text))]
pub fn v6_of(octets: &[u8]) -> Ipv6Address
    requires { length octets.now ≡ 16 }
    ensures octets { octets_of result ≡ octets.now }
    ensures text { ipv6.address_text result ≡ v6_text octets.now }
{
    Ipv6Address::from_octets(octets.try_into().unwrap())
}

/// The IPv4 address of 4 octets. Requires that many.
#[tactic(auto, unfolding(crate::specs::Texts::v4_text))]
pub fn v4_of(octets: &[u8]) -> Ipv4Address
    requires { length octets.now ≡ 4 }
    ensures { ipv4.address_text result ≡ v4_text octets.now }
{
    Ipv4Address::new(octets[0], octets[1], octets[2], octets[3])
}

/// Addresses of so many octets each, in a row; the last may be cut.
#[derive(Clone, Copy)]
pub struct Addresses<'a> {
    /// The octets of an address, 1 or more.
    pub width: usize,
    /// The octets of all.
    pub octets: &'a [u8],
    ghost some: { 1 ≤ width },
}

impl Value for Addresses<'_> {
    ghost leaf = { λ list. texts (addresses list.width list.octets.now) };

    fn put<W: Write>(self, output: &mut W, form: Form) -> io::Result<()> {
        open_texts(output, form)?;
        let is_none = put_addresses(output, form, self)?;
        close_texts(output, form, is_none)
    }
}

// Prints the addresses, and returns whether there are none.
fn put_addresses<W: Write>(output: &mut W, form: Form, list: Addresses<'_>) -> io::Result<bool>
    ensures { IfOk result (λ none. (none ≡ still_first true (addresses list.entry.width list.entry.octets.now))
        × Gains (W.contents output.old) (W.contents output.new)
        (run_from form true (addresses list.entry.width list.entry.octets.now))) }
{
    let mut rest = list.octets;
    let mut is_first = true;
    while !rest.is_empty() {
        let (address, others) = rest.split_at(address_len(list.width, rest));
        put_among(output, form, is_first, Address(address))?;
        rest = others;
        is_first = false;
    }
    Ok(is_first)
}

// The octets of the first address.
fn address_len(width: usize, octets: &[u8]) -> usize
    requires wide { 1 ≤ width }
    requires any { 1 ≤ length octets.now }
    ensures value { result ≡ address_len width octets.now }
    ensures within { result ≤ length octets.now }
    ensures some { 1 ≤ result }
{
    if octets.len() < width {
        return octets.len();
    }
    width
}

/// Flags by the names of those that are set.
#[derive(Clone, Copy)]
pub struct Flags {
    /// The bit of each flag, and its name.
    pub rows: &'static [Row],
    /// The flags.
    pub bits: u16,
}

impl Value for Flags {
    ghost leaf = { λ flags. texts (flag_names (rows_of flags.rows.now) flags.bits) };

    fn put<W: Write>(self, output: &mut W, form: Form) -> io::Result<()> {
        open_texts(output, form)?;
        let is_none = put_flags(output, form, self.rows, self.bits)?;
        close_texts(output, form, is_none)
    }
}

// Prints the names of flags, and returns whether there are none.
fn put_flags<W: Write>(output: &mut W, form: Form, rows: &[Row], bits: u16) -> io::Result<bool>
    ensures { IfOk result (λ none. (none ≡ still_first true (flag_names (rows_of rows.now) bits))
        × Gains (W.contents output.old) (W.contents output.new)
        (run_from form true (flag_names (rows_of rows.now) bits))) }
{
    let mut is_first = true;
    let mut place = 0;
    while place < rows.len() {
        is_first = put_flag(output, form, is_first, rows, place, bits)?;
        place += 1;
    }
    Ok(is_first)
}

// Prints the name of the flag at this place where it is set, and returns whether the next one is the first.
fn put_flag<W: Write>(
    output: &mut W,
    form: Form,
    is_first: bool,
    rows: &[Row],
    place: usize,
    bits: u16,
) -> io::Result<bool>
    requires { place ≤ length rows.now }
    ensures { IfOk result (λ still.
        (still ≡ still_first is_first (flag_names (rows_of (take 1 (drop place rows.now))) bits))
        × Gains (W.contents output.old) (W.contents output.new)
        (run_from form is_first (flag_names (rows_of (take 1 (drop place rows.now))) bits))) }
{
    let [(bit, name), ..] = &rows[place..] else {
        return Ok(is_first);
    };
    if bits & *bit == 0 {
        return Ok(is_first);
    }
    put_among(output, form, is_first, *name)?;
    Ok(false)
}

// Prints what precedes texts.
fn open_texts<W: Write>(output: &mut W, form: Form) -> io::Result<()>
    ensures { OnOk result (Gains (W.contents output.old) (W.contents output.new) (texts_before form)) }
{
    match form {
        Form::Lines => Ok(()),
        Form::Json => output.write_all(b"["),
    }
}

// Prints a text among others.
fn put_among<T: Text, W: Write>(
    output: &mut W,
    form: Form,
    is_first: bool,
    value: T,
) -> io::Result<()>
    ensures { OnOk result (Gains (W.contents output.old) (W.contents output.new)
        (text_among form is_first (T.text_of value))) }
{
    put_comma(output, is_first)?;
    put_text(output, form, value)
}

fn put_comma<W: Write>(output: &mut W, is_first: bool) -> io::Result<()>
    ensures { OnOk result (Gains (W.contents output.old) (W.contents output.new) (comma_unless is_first)) }
{
    if is_first {
        return Ok(());
    }
    output.write_all(b",")
}

// Prints what follows texts.
fn close_texts<W: Write>(output: &mut W, form: Form, is_none: bool) -> io::Result<()>
    ensures { OnOk result (Gains (W.contents output.old) (W.contents output.new) (texts_after form is_none)) }
{
    match form {
        Form::Lines if is_none => output.write_all(b"-"),
        Form::Lines => Ok(()),
        Form::Json => output.write_all(b"]"),
    }
}
