//! Data with fields before one or two names and after them: of mailboxes, of hosts with a number, of rules for naming,
//! of signatures and of the types that a name has (RFC 1035 section 3.3.7, RFC 1183, RFC 2163, RFC 2230, RFC 2535, RFC
//! 3403, RFC 4034 section 4).

ghost use Rattle.std.specs.Prelude.{◌≡◌, ◌↔◌, List, ℕ, Option, IfOk, IsOkAnd, IsTrue};
ghost use Rattle.record_wire.specs.Fields.{FrontValue, RestValue, FieldsValue, front_of, rest_of, name_of, fields_of};
ghost use Rattle.record_wire.specs.Fields.{IsFront, AreThree, IsSecond, IsRest, IsFields, IsMap, AreMaps, first_map};
ghost use Rattle.record_wire.specs.private.Parts.{seen_map};
ghost use Rattle.record_wire.specs.declared.rdata.fields.FrontForm.TheVariants as front;

use crate::rdata::behind_string;
use dns_wire::dns::{Type, split_name};
use wirebase::{Error, Octets, Result};

// The fields before a name: the number of AFSDB, RT, KX and PX, those of NAPTR, and those of SIG.
pub(super) mod field {
    use wirebase::Field;

    pub const NUMBER: Field = 0..2;

    pub const NUMBER_END: usize = 2;

    pub const ORDER: Field = 0..2;

    pub const PREFERENCE: Field = 2..4;

    pub const STRINGS: usize = 4;

    pub const COVERED: Field = 0..2;

    pub const ALGORITHM: Field = 2..3;

    pub const LABELS: Field = 3..4;

    pub const ORIGINAL_TTL: Field = 4..8;

    pub const EXPIRATION: Field = 8..12;

    pub const INCEPTION: Field = 12..16;

    pub const KEY_TAG: Field = 16..18;

    pub const SIGNATURE_END: usize = 18;
}

/// The fields of data with one name or two. Names are as they are written: labels of 1 to 63 bytes, each after its
/// length, and then byte 0 or a pointer into the message.
#[derive(Debug, PartialEq, Eq, Clone, Copy)]
pub struct Fields<'a> {
    /// The fields before the names.
    pub front: Front<'a>,
    /// The name, or the first of two: the mailbox that is responsible, of MINFO (RMAILBX) and RP (mbox-dname); the
    /// domain of RFC 822, of PX (MAP822); the host, of AFSDB, RT and KX; the replacement, of NAPTR; the signer, of SIG;
    /// the next name, of NXT and NSEC.
    pub first: &'a [u8],
    /// The second name: of MINFO the mailbox for errors (EMAILBX), of RP the name that has the TXT records (txt-dname),
    /// of PX the domain of X.400 (MAPX400).
    pub second: Option<&'a [u8]>,
    /// The fields after the names.
    pub rest: Rest<'a>,
}

/// The fields before a name.
#[derive(Debug, PartialEq, Eq, Clone, Copy)]
pub enum Front<'a> {
    /// None, of MINFO (RFC 1035 section 3.3.7), RP (RFC 1183 section 2.2), NXT (RFC 2535 section 5.2) and NSEC (RFC
    /// 4034 section 4.1).
    Nothing,
    /// The subtype of AFSDB (RFC 1183 section 1), or the preference, the lower the better, of RT (RFC 1183 section
    /// 3.3), PX (RFC 2163 section 4) and KX (RFC 2230 section 3).
    Number(u16),
    /// A rule for naming, of NAPTR (RFC 3403 section 4.1).
    Rule {
        /// The rule of the lowest order is taken first.
        order: u16,
        /// Among rules of one order, the lower, the better.
        preference: u16,
        /// The flags, the services and the regular expression, which may each be empty, each after its length:
        /// `TxtStrings` gives them in turn.
        strings: &'a [u8],
    },
    /// What a signature covers and how, of SIG (RFC 2535 section 4.1).
    Signed(Signed),
}

/// What a signature covers and how, and how long it is valid (RFC 2535 section 4.1).
#[derive(Debug, PartialEq, Eq, Clone, Copy)]
pub struct Signed {
    /// The type of the records that are signed; 0 of a message (RFC 2931 section 3).
    pub covered: Type,
    /// The algorithm of the key.
    pub algorithm: u8,
    /// The number of labels of the owner's name, without the root and without a leading `*` (RFC 2535 section 4.1.3).
    pub labels: u8,
    /// The time to live of the records that are signed, in seconds.
    pub original_ttl: u32,
    /// The end of its validity: the lower 32 bits of the seconds since 1970 began, which are compared by serial number
    /// arithmetic (RFC 1982).
    pub expiration: u32,
    /// The start of its validity, in the same form.
    pub inception: u32,
    /// The key tag of the signer's key.
    pub key_tag: u16,
}

/// The fields after the names.
#[derive(Debug, PartialEq, Eq, Clone, Copy)]
pub enum Rest<'a> {
    /// None.
    Nothing,
    /// The signature, of SIG (RFC 2535 section 4.1.8).
    Signature(&'a [u8]),
    /// The types that the name has, of NXT: a bit for each from type 0 on, the most significant bit of a byte first
    /// (RFC 2535 section 5.2).
    Bits(&'a [u8]),
    /// The types that the name has, of NSEC: maps of up to 256 types, each after the upper byte of their numbers and
    /// its length of 1 to 32 bytes, with a bit for each type, the most significant bit of a byte first (RFC 4034
    /// section 4.1.2).
    Types(&'a [u8]),
}

/// The layout of such a type's data: for contracts only, no call takes or returns it.
#[derive(Debug, PartialEq, Eq, Clone, Copy)]
pub struct Form {
    /// The fields before the names.
    pub front: FrontForm,
    /// Whether there are two names.
    pub has_two: bool,
    /// The fields after the names.
    pub rest: RestForm,
}

/// The layout of the fields before a name.
#[derive(Debug, PartialEq, Eq, Clone, Copy)]
pub enum FrontForm {
    /// None.
    Nothing,
    /// A number of 16 bits.
    Number,
    /// Two numbers of 16 bits and three strings.
    Rule,
    /// 18 bytes.
    Signed,
}

/// The layout of the fields after the names.
#[derive(Debug, PartialEq, Eq, Clone, Copy)]
pub enum RestForm {
    /// None.
    Nothing,
    /// Any bytes.
    Signature,
    /// A map of bits.
    Bits,
    /// Maps of bits.
    Types,
}

// The data of this form.
pub(super) fn read(form: Form, octets: &[u8]) -> Result<Fields<'_>>
    ensures sound { IfOk result (λ read. IsFields form octets.now (fields_of read)) }
    ensures complete { (value : FieldsValue) → IsFields form octets.now value
        → IsOkAnd result (λ read. fields_of read ≡ value) }
{
    let (front, behind) = split_front(form.front, octets)?;
    let (first, behind) = split_name(behind)?;
    let (second, after) = split_second(form.has_two, behind)?;
    let rest = read_rest(form.rest, after)?;
    Ok(Fields {
        front,
        first,
        second,
        rest,
    })
}

// The fields before a name, and what follows them.
pub(super) fn split_front(form: FrontForm, octets: &[u8]) -> Result<(Front<'_>, &[u8])>
    ensures sound { IfOk result (λ split. IsFront form octets.now (front_of split.0) split.1.now) }
    ensures complete { (value : FrontValue) (rest : List ℕ) → IsFront form octets.now value rest
        → IsOkAnd result (λ split. (front_of split.0 ≡ value) × (split.1.now ≡ rest)) }
{
    match form {
        FrontForm::Nothing => Ok((Front::Nothing, octets)),
        FrontForm::Number => split_number(octets),
        FrontForm::Rule => split_rule(octets),
        FrontForm::Signed => split_signature(octets),
    }
}

fn split_number(octets: &[u8]) -> Result<(Front<'_>, &[u8])>
    ensures sound { IfOk result (λ split. IsFront front.Number octets.now (front_of split.0) split.1.now) }
    ensures complete { (value : FrontValue) (rest : List ℕ) → IsFront front.Number octets.now value rest
        → IsOkAnd result (λ split. (front_of split.0 ≡ value) × (split.1.now ≡ rest)) }
{
    if octets.len() < field::NUMBER_END {
        return Err(Error);
    }
    let number = octets.u16_at(field::NUMBER);
    Ok((Front::Number(number), &octets[field::NUMBER_END..]))
}

fn split_rule(octets: &[u8]) -> Result<(Front<'_>, &[u8])>
    ensures sound { IfOk result (λ split. IsFront front.Rule octets.now (front_of split.0) split.1.now) }
    ensures complete { (value : FrontValue) (rest : List ℕ) → IsFront front.Rule octets.now value rest
        → IsOkAnd result (λ split. (front_of split.0 ≡ value) × (split.1.now ≡ rest)) }
{
    if octets.len() < field::STRINGS {
        return Err(Error);
    }
    let (strings, rest) = split_strings(&octets[field::STRINGS..])?;
    let front = Front::Rule {
        order: octets.u16_at(field::ORDER),
        preference: octets.u16_at(field::PREFERENCE),
        strings,
    };
    Ok((front, rest))
}

// Three strings, and what follows them.
fn split_strings(octets: &[u8]) -> Result<(&[u8], &[u8])>
    ensures sound { IfOk result (λ split. AreThree octets.now split.0.now split.1.now) }
    ensures complete { (strings rest : List ℕ) → AreThree octets.now strings rest
        → IsOkAnd result (λ split. (split.0.now ≡ strings) × (split.1.now ≡ rest)) }
{
    let Some(behind) = behind_string(octets) else {
        return Err(Error);
    };
    let Some(behind) = behind_string(behind) else {
        return Err(Error);
    };
    let Some(rest) = behind_string(behind) else {
        return Err(Error);
    };
    Ok((&octets[..octets.len() - rest.len()], rest))
}

fn split_signature(octets: &[u8]) -> Result<(Front<'_>, &[u8])>
    ensures sound { IfOk result (λ split. IsFront front.Signed octets.now (front_of split.0) split.1.now) }
    ensures complete { (value : FrontValue) (rest : List ℕ) → IsFront front.Signed octets.now value rest
        → IsOkAnd result (λ split. (front_of split.0 ≡ value) × (split.1.now ≡ rest)) }
{
    if octets.len() < field::SIGNATURE_END {
        return Err(Error);
    }
    let front = Front::Signed(Signed {
        covered: Type::from(octets.u16_at(field::COVERED)),
        algorithm: octets.u8_at(field::ALGORITHM),
        labels: octets.u8_at(field::LABELS),
        original_ttl: octets.u32_at(field::ORIGINAL_TTL),
        expiration: octets.u32_at(field::EXPIRATION),
        inception: octets.u32_at(field::INCEPTION),
        key_tag: octets.u16_at(field::KEY_TAG),
    });
    Ok((front, &octets[field::SIGNATURE_END..]))
}

// The second name, where there are two, and what follows it.
pub(super) fn split_second(has_two: bool, octets: &[u8]) -> Result<(Option<&[u8]>, &[u8])>
    ensures sound { IfOk result (λ split. IsSecond has_two octets.now (name_of split.0) split.1.now) }
    ensures complete { (value : Option (List ℕ)) (rest : List ℕ) → IsSecond has_two octets.now value rest
        → IsOkAnd result (λ split. (name_of split.0 ≡ value) × (split.1.now ≡ rest)) }
{
    if !has_two {
        return Ok((None, octets));
    }
    let (name, rest) = split_name(octets)?;
    Ok((Some(name), rest))
}

// The fields after the names, which take all the octets.
fn read_rest(form: RestForm, octets: &[u8]) -> Result<Rest<'_>>
    ensures sound { IfOk result (λ read. IsRest form octets.now (rest_of read)) }
    ensures complete { (value : RestValue) → IsRest form octets.now value
        → IsOkAnd result (λ read. rest_of read ≡ value) }
{
    match form {
        RestForm::Nothing if octets.is_empty() => Ok(Rest::Nothing),
        RestForm::Signature => Ok(Rest::Signature(octets)),
        RestForm::Bits if is_map(octets) => Ok(Rest::Bits(octets)),
        RestForm::Types if are_maps(octets) => Ok(Rest::Types(octets)),
        _ => Err(Error),
    }
}

// Whether octets are a map of bits as NXT has it: of types below 128. A map with the bit of type 0 has another form.
fn is_map(octets: &[u8]) -> bool
    ensures { IsTrue result ↔ IsMap octets.now }
{
    octets.len() <= 16 && !matches!(octets, [128..=255, ..])
}

// Whether octets are maps of bits, each after the upper byte of its types and its length.
fn are_maps(octets: &[u8]) -> bool
    ensures { IsTrue result ↔ AreMaps octets.now }
{
    let mut left = octets;
    while !left.is_empty() {
        match split_map(left) {
            Some((_, _, rest)) => left = rest,
            None => return false,
        }
    }
    true
}

// The upper byte of the types of the first map, the map, and what follows it. None where there is no whole map.
pub(crate) fn split_map(octets: &[u8]) -> Option<(u8, &[u8], &[u8])>
    ensures { seen_map result ≡ first_map octets.now }
{
    match octets {
        [upper, len @ 1..=32, rest @ ..] if *len as usize <= rest.len() => {
            let len = *len as usize;
            Some((*upper, &rest[..len], &rest[len..]))
        }
        _ => None,
    }
}
