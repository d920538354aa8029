//! Data with fields before one name or two and after them, as a zone file has it (RFC 1035 section 5.1, RFC 1183, RFC
//! 2163, RFC 2230, RFC 2535 section 7.2, RFC 3403 section 4.1, RFC 4034 sections 3.2 and 4.2).

#![tactic(auto, using(wirebase::proofs::Sinks::puts), unfolding(crate::specs::ZoneText::word))]

ghost use Rattle.std.specs.Prelude.{◌≡◌, ◌++◌, [], Some, List, ℕ, Option, IfOk, IsOkAnd, IfErr, codes, decimal};
ghost use Rattle.wirebase.specs.Sink.{PutsText};
ghost use Rattle.dns_wire.specs.DnsPacket.{view_octets};
ghost use Rattle.record_wire.specs.Fields.{front_of, rest_of, name_of, fields_of};
ghost use Rattle.record_wire.specs.FieldsText.{FieldsTextValue, fields_text_of, labels_in, IsFieldsText, IsSecondText};
ghost use Rattle.record_wire.specs.FieldsText.{RefusesNamesIn, RefusesSecondIn};
ghost use Rattle.record_wire.specs.FieldsText.{fields_display, fields_text, front_text, signature_text, rest_text};
ghost use Rattle.record_wire.specs.FieldsText.{second_text, bit_text, byte_text, map_text, maps_text};

use crate::name::Name;
use crate::name::name_text::NameText;
use crate::name::refusal::NameRefusal;
use crate::rdata::fields::{Fields, Front, Rest, Signed, split_map};
use crate::text::words::{put_base64, put_strings, split_byte};
use crate::types::put_type;
use dns_wire::dns::{Packet, Type};
use std::{fmt, result};
use wirebase::text::{Sink, ToFormatter, put_number};

/// The fields of data with one name or two, with each name read.
#[derive(PartialEq, Eq, Clone, Drop)]
pub struct FieldsText<'a> {
    /// The fields before the names.
    pub front: Front<'a>,
    /// The name, or the first of two: the mailbox that is responsible, of MINFO (RMAILBX) and RP (mbox-dname); the
    /// domain of RFC 822, of PX (MAP822); the host, of AFSDB, RT and KX; the replacement, of NAPTR; the signer, of SIG;
    /// the next name, of NXT and NSEC.
    pub first: Name,
    /// The second name: of MINFO the mailbox for errors (EMAILBX), of RP the name that has the TXT records (txt-dname),
    /// of PX the domain of X.400 (MAPX400).
    pub second: Option<Name>,
    /// The fields after the names.
    pub rest: Rest<'a>,
}

/// The fields in their order with spaces between them, names with their last dot.
impl fmt::Display for FieldsText<'_> {
    ghost output = { λ read. Some (fields_text (fields_text_of read)) };

    fn fmt<W: fmt::Write>(&self, f: &mut fmt::Formatter<W>) -> fmt::Result {
        self.put::<_, ToFormatter>(f)
    }
}

impl<'a> FieldsText<'a> {
    /// Puts the fields.
    pub(crate) fn put<O, S: Sink<O>>(&self, output: &mut O) -> result::Result<(), S::Error>
        ensures { PutsText S.took output.old (fields_text (fields_text_of self.now)) result output.new }
    {
        put_front::<O, S>(output, &self.front)?;
        NameText::of(&self.first).put::<O, S>(output)?;
        put_second::<O, S>(output, &self.second)?;
        put_rest::<O, S>(output, &self.rest)
    }

    /// The fields with the octets of their names, which are whole.
    pub(crate) fn octets(&self) -> Fields<'_>
        ensures { IsFieldsText [] (fields_of result) (fields_text_of self.now) }
    {
        Fields {
            front: self.front,
            first: self.first.octets(),
            second: second_octets(&self.second),
            rest: self.rest,
        }
    }
}

// The octets of a second name, where there is one.
fn second_octets(second: &Option<Name>) -> Option<&[u8]>
    ensures { IsSecondText [] (name_of result) (labels_in second.now) }
{
    match second {
        Some(name) => Some(name.octets()),
        None => None,
    }
}

/// The fields in their order, names by their length.
impl fmt::Display for Fields<'_> {
    ghost output = { λ fields. Some (fields_display (fields_of fields)) };

    fn fmt<W: fmt::Write>(&self, f: &mut fmt::Formatter<W>) -> fmt::Result {
        let first = self.first.len();
        match self.second {
            Some(name) => {
                let second = name.len();
                write!(
                    f,
                    "{}first_len={first} second_len={second}{}",
                    self.front, self.rest
                )
            }
            None => write!(f, "{}name_len={first}{}", self.front, self.rest),
        }
    }
}

/// Each field, and a space after it.
impl fmt::Display for Front<'_> {
    ghost output = { λ front. Some (front_text (front_of front)) };

    fn fmt<W: fmt::Write>(&self, f: &mut fmt::Formatter<W>) -> fmt::Result {
        put_front::<_, ToFormatter>(f, self)
    }
}

#[tactic(auto, using(wirebase::proofs::Sinks::puts, std::proofs::lemmas::List::append_assoc))]
fn put_front<O, S: Sink<O>>(output: &mut O, front: &Front<'_>) -> result::Result<(), S::Error>
    ensures { PutsText S.took output.old (front_text (front_of front.now)) result output.new }
{
    match front {
        Front::Nothing => Ok(()),
        Front::Number(number) => put_before::<O, S>(output, u32::from(*number)),
        Front::Rule {
            order,
            preference,
            strings,
        } => {
            put_before::<O, S>(output, u32::from(*order))?;
            put_before::<O, S>(output, u32::from(*preference))?;
            put_strings::<O, S>(output, strings)?;
            S::put_str(output, " ")
        }
        Front::Signed(signature) => {
            put_signed::<O, S>(output, signature)?;
            S::put_str(output, " ")
        }
    }
}

// Puts a number before a space.
fn put_before<O, S: Sink<O>>(output: &mut O, number: u32) -> result::Result<(), S::Error>
    ensures { PutsText S.took output.old (decimal number ++ codes " ") result output.new }
{
    put_number::<O, S>(output, u64::from(number))?;
    S::put_str(output, " ")
}

/// The fields in their order, the times in seconds since 1970 began (RFC 4034 section 3.2).
impl fmt::Display for Signed {
    ghost output = { λ signature. Some (signature_text signature) };

    fn fmt<W: fmt::Write>(&self, f: &mut fmt::Formatter<W>) -> fmt::Result {
        put_signed::<_, ToFormatter>(f, self)
    }
}

fn put_signed<O, S: Sink<O>>(output: &mut O, signature: &Signed) -> result::Result<(), S::Error>
    ensures { PutsText S.took output.old (signature_text signature.now) result output.new }
{
    put_type::<O, S>(output, signature.covered)?;
    S::put_str(output, " ")?;
    put_before::<O, S>(output, u32::from(signature.algorithm))?;
    put_before::<O, S>(output, u32::from(signature.labels))?;
    put_before::<O, S>(output, signature.original_ttl)?;
    put_before::<O, S>(output, signature.expiration)?;
    put_before::<O, S>(output, signature.inception)?;
    put_number::<O, S>(output, u64::from(signature.key_tag))
}

/// A space, and the signature in base64; or each type after a space.
impl fmt::Display for Rest<'_> {
    ghost output = { λ behind. Some (rest_text (rest_of behind)) };

    fn fmt<W: fmt::Write>(&self, f: &mut fmt::Formatter<W>) -> fmt::Result {
        put_rest::<_, ToFormatter>(f, self)
    }
}

fn put_rest<O, S: Sink<O>>(output: &mut O, behind: &Rest<'_>) -> result::Result<(), S::Error>
    ensures { PutsText S.took output.old (rest_text (rest_of behind.now)) result output.new }
{
    match behind {
        Rest::Nothing => Ok(()),
        Rest::Signature(octets) => {
            S::put_str(output, " ")?;
            put_base64::<O, S>(output, octets)
        }
        Rest::Bits(octets) => put_map::<O, S>(output, 0, octets),
        Rest::Types(octets) => put_maps::<O, S>(output, octets),
    }
}

// Puts a second name after a space, where there is one.
fn put_second<O, S: Sink<O>>(output: &mut O, second: &Option<Name>) -> result::Result<(), S::Error>
    ensures { PutsText S.took output.old (second_text (labels_in second.now)) result output.new }
{
    match second {
        Some(name) => {
            S::put_str(output, " ")?;
            NameText::of(name).put::<O, S>(output)
        }
        None => Ok(()),
    }
}

// Puts each type of the maps after a space, up to where there is no whole map.
fn put_maps<O, S: Sink<O>>(output: &mut O, octets: &[u8]) -> result::Result<(), S::Error>
    ensures { PutsText S.took output.old (maps_text octets.now) result output.new }
{
    let mut left = octets;
    while let Some((upper, map, rest)) = split_map(left) {
        put_map::<O, S>(output, u16::from(upper) * 256, map)?;
        left = rest;
    }
    Ok(())
}

// Puts each type of a map after a space. The first bit is of this type.
fn put_map<O, S: Sink<O>>(output: &mut O, first: u16, map: &[u8]) -> result::Result<(), S::Error>
    ensures { PutsText S.took output.old (map_text first map.now) result output.new }
{
    let mut number = first;
    let mut left = map;
    while let Some((byte, rest)) = split_byte(left) {
        put_byte::<O, S>(output, number, byte)?;
        number = number.wrapping_add(8);
        left = rest;
    }
    Ok(())
}

// Puts the types of a byte of a map. Its most significant bit is of this type.
fn put_byte<O, S: Sink<O>>(output: &mut O, first: u16, byte: u8) -> result::Result<(), S::Error>
    ensures { PutsText S.took output.old (byte_text first byte) result output.new }
{
    put_bit::<O, S>(output, byte / 128, first)?;
    put_bit::<O, S>(output, byte / 64, first.wrapping_add(1))?;
    put_bit::<O, S>(output, byte / 32, first.wrapping_add(2))?;
    put_bit::<O, S>(output, byte / 16, first.wrapping_add(3))?;
    put_bit::<O, S>(output, byte / 8, first.wrapping_add(4))?;
    put_bit::<O, S>(output, byte / 4, first.wrapping_add(5))?;
    put_bit::<O, S>(output, byte / 2, first.wrapping_add(6))?;
    put_bit::<O, S>(output, byte, first.wrapping_add(7))
}

// Puts a type after a space, where the least significant bit is set.
fn put_bit<O, S: Sink<O>>(output: &mut O, bits: u8, number: u16) -> result::Result<(), S::Error>
    ensures { PutsText S.took output.old (bit_text bits number) result output.new }
{
    if bits % 2 == 0 {
        return Ok(());
    }
    S::put_str(output, " ")?;
    put_type::<O, S>(output, Type::from(number))
}

impl<'a> Fields<'a> {
    /// The fields with each name read. Refused where one can't be read.
    pub fn text(&self, packet: &Packet<&'a [u8]>) -> result::Result<FieldsText<'a>, NameRefusal>
        ensures sound { IfOk result (λ text. IsFieldsText (view_octets packet.now) (fields_of self.now)
            (fields_text_of text)) }
        ensures complete { (value : FieldsTextValue)
            → IsFieldsText (view_octets packet.now) (fields_of self.now) value
            → IsOkAnd result (λ text. fields_text_of text ≡ value) }
        ensures told { IfErr result (λ refusal. RefusesNamesIn (view_octets packet.now) (fields_of self.now)
            refusal) }
    {
        let first = Name::read_or_refusal(packet, self.first)?;
        let second = read_second(packet, self.second)?;
        Ok(FieldsText {
            front: self.front,
            first,
            second,
            rest: self.rest,
        })
    }
}

// The second name, where there is one.
fn read_second<'a>(
    packet: &Packet<&'a [u8]>,
    octets: Option<&'a [u8]>,
) -> result::Result<Option<Name>, NameRefusal>
    ensures sound { IfOk result (λ second. IsSecondText (view_octets packet.now) (name_of octets.entry)
        (labels_in second)) }
    ensures complete { (value : Option (List (List ℕ)))
        → IsSecondText (view_octets packet.now) (name_of octets.entry) value
        → IsOkAnd result (λ second. labels_in second ≡ value) }
    ensures told { IfErr result (λ refusal. RefusesSecondIn (view_octets packet.now) (name_of octets.entry) refusal) }
{
    match octets {
        Some(octets) => Ok(Some(Name::read_or_refusal(packet, octets)?)),
        None => Ok(None),
    }
}
