//! The data of resource records by their type (RFC 1035 sections 3.3 and 3.4, RFC 2782, RFC 3596), and of all types in
//! which a receiver expects compressed names (RFC 3597 section 4, RFC 6762 section 18.14).

pub mod fields;
pub mod refusal;

ghost use Rattle.std.specs.Prelude.{◌≡◌, ◌↔◌, IfOk, IsOkAnd, IsTrue};
ghost use Rattle.dns_wire.specs.DnsName.{IsOnePart};
ghost use Rattle.record_wire.specs.RData.{layout_of, RDataValue, rdata_of, IsRData, IsLaidOut, IsAddress4, IsAddress6};
ghost use Rattle.record_wire.specs.RData.{IsNameData, IsMail, IsService, IsAuthority, IsStrings, AreStrings};
ghost use Rattle.record_wire.specs.RData.{IsFieldsData, form};
ghost use Rattle.record_wire.specs.private.Parts.{string_rest, seen_rest};
ghost use Rattle.record_wire.specs.Multicast.{class_of};

use crate::rdata::fields::{Fields, Form, FrontForm, RestForm};
use crate::{classes, multicast, types};
use dns_wire::dns::{Type, split_name};
use std::fmt;
use wirebase::{Error, Ipv4Address, Ipv6Address, Octets, Result};

// The data of MX and SRV before a name, and of SOA after two names.
mod field {
    use wirebase::Field;

    pub const PREFERENCE: Field = 0..2;

    pub const MX_NAME: usize = 2;

    pub const PRIORITY: Field = 0..2;

    pub const WEIGHT: Field = 2..4;

    pub const PORT: Field = 4..6;

    pub const SRV_NAME: usize = 6;

    pub const SERIAL: Field = 0..4;

    pub const REFRESH: Field = 4..8;

    pub const RETRY: Field = 8..12;

    pub const EXPIRE: Field = 12..16;

    pub const MINIMUM: Field = 16..20;

    pub const SOA_END: usize = 20;
}

/// The data of a record. Names are as they are written: labels of 1 to 63 bytes, each after its length, and then byte 0
/// or a pointer into the message.
///
/// ```
/// use record_wire::rdata::RData;
/// use control_wire::Ipv4Address;
/// use control_wire::dns::Type;
///
/// let data = RData::parse(Type::A, 1, &[192, 0, 2, 1])?;
/// assert_eq!(data, RData::A(Ipv4Address::new(192, 0, 2, 1)));
/// assert!(RData::parse(Type::A, 1, &[192, 0, 2]).is_err());
/// # Ok::<(), control_wire::Error>(())
/// ```
#[derive(Debug, PartialEq, Eq, Clone, Copy)]
pub enum RData<'a> {
    /// An IPv4 address (RFC 1035 section 3.4.1), of type A and class 1.
    A(Ipv4Address),
    /// An IPv6 address (RFC 3596 section 2.2), of type AAAA and class 1.
    Aaaa(Ipv6Address),
    /// A name, of type CNAME, NS or PTR (RFC 1035 sections 3.3.1, 3.3.11 and 3.3.12), MB, MD, MF, MG or MR (sections
    /// 3.3.3 to 3.3.6 and 3.3.8), or DNAME (RFC 6672 section 2.1).
    Name(&'a [u8]),
    /// A host that takes mail (RFC 1035 section 3.3.9).
    Mx {
        /// The lower, the better.
        preference: u16,
        /// The host's name.
        exchange: &'a [u8],
    },
    /// A host that has a service (RFC 2782).
    Srv {
        /// The lower, the earlier it is tried.
        priority: u16,
        /// The greater, the more often it is tried among hosts of its priority.
        weight: u16,
        /// The port of the service.
        port: u16,
        /// The host's name.
        target: &'a [u8],
    },
    /// Who is responsible for a zone (RFC 1035 section 3.3.13).
    Soa(Authority<'a>),
    /// Strings of up to 255 bytes, each after its length, one at least (RFC 1035 section 3.3.14): `TxtStrings` gives
    /// them in turn.
    Txt(&'a [u8]),
    /// Fields and one name or two, of type MINFO, RP, AFSDB, RT, SIG, PX, NXT, NAPTR, KX or NSEC.
    Fields(Fields<'a>),
    /// Data of any other type or class. `EdnsOptions` gives the options of an OPT record in turn.
    Other(&'a [u8]),
}

/// Who is responsible for a zone, and how copies of it are kept (RFC 1035 section 3.3.13). Times are in seconds.
#[derive(Debug, PartialEq, Eq, Clone, Copy)]
pub struct Authority<'a> {
    /// The name of the server that the zone comes from.
    pub primary: &'a [u8],
    /// The mailbox of who is responsible, with a dot for its at sign.
    pub mailbox: &'a [u8],
    /// The zone's version.
    pub serial: u32,
    /// The time after which a copy is refreshed.
    pub refresh: u32,
    /// The time after which a failed refresh is tried again.
    pub retry: u32,
    /// The time for which a copy is valid at most.
    pub expire: u32,
    /// The least time to live of the zone's records; for negative answers (RFC 2308 section 4).
    pub minimum: u32,
}

/// Addresses print as addresses, numbers by their names, names and strings by their length; of fields around names all
/// but the names print as in a zone file.
impl fmt::Display for RData<'_> {
    ghost use Rattle.std.specs.Prelude.{Some};
    ghost use Rattle.record_wire.specs.RecordDisplay.{rdata_display};

    ghost output = { λ read. Some (rdata_display (rdata_of read)) };

    fn fmt<W: fmt::Write>(&self, f: &mut fmt::Formatter<W>) -> fmt::Result {
        match self {
            RData::A(address) => write!(f, "{address}"),
            RData::Aaaa(address) => write!(f, "{address}"),
            RData::Name(name) => write!(f, "name len={}", name.len()),
            RData::Mx {
                preference,
                exchange,
            } => {
                let len = exchange.len();
                write!(f, "MX preference={preference} exchange_len={len}")
            }
            RData::Srv {
                priority,
                weight,
                port,
                target,
            } => {
                let len = target.len();
                write!(
                    f,
                    "SRV priority={priority} weight={weight} port={port} target_len={len}"
                )
            }
            RData::Soa(authority) => write!(f, "{authority}"),
            RData::Txt(octets) => write!(f, "TXT len={}", octets.len()),
            RData::Fields(fields) => write!(f, "{fields}"),
            RData::Other(octets) => write!(f, "data len={}", octets.len()),
        }
    }
}

/// The lengths of the names, and the numbers.
impl fmt::Display for Authority<'_> {
    ghost use Rattle.std.specs.Prelude.{Some};
    ghost use Rattle.record_wire.specs.RData.{authority_of};
    ghost use Rattle.record_wire.specs.RecordDisplay.{authority_display};

    ghost output = { λ soa. Some (authority_display (authority_of soa)) };

    fn fmt<W: fmt::Write>(&self, f: &mut fmt::Formatter<W>) -> fmt::Result {
        let primary = self.primary.len();
        let mailbox = self.mailbox.len();
        write!(
            f,
            "SOA primary_len={primary} mailbox_len={mailbox} serial={} refresh={} retry={} expire={} minimum={}",
            self.serial, self.refresh, self.retry, self.expire, self.minimum
        )
    }
}

/// The layout of a type's data: for contracts only, no call takes or returns it.
#[derive(Debug, PartialEq, Eq, Clone, Copy)]
pub enum Layout {
    /// An IPv4 address.
    Ipv4,
    /// An IPv6 address.
    Ipv6,
    /// A name.
    Name,
    /// A preference and a name.
    Mail,
    /// A priority, a weight, a port and a name.
    Service,
    /// Two names and five numbers.
    Authority,
    /// Strings.
    Strings,
    /// Fields and one name or two.
    Fields(Form),
    /// Any bytes.
    Opaque,
}

impl<'a> RData<'a> {
    /// The data of a record of this type and class. Refused where the bytes are not laid out as the type has it:
    /// [`RData::refusal`] says why. For a record of multicast DNS, [`RData::parse_multicast`] reads it.
    pub fn parse(type_: Type, class: u16, octets: &'a [u8]) -> Result<RData<'a>>
        ensures sound { IfOk result (λ read. IsRData type_ class octets.now (rdata_of read)) }
        ensures complete { (value : RDataValue) → IsRData type_ class octets.now value
            → IsOkAnd result (λ read. rdata_of read ≡ value) }
    {
        read(find_layout(type_, class), octets)
    }

    /// The data of a record of multicast DNS: by its type and its class without the top bit, which is a flag there (RFC
    /// 6762 section 10.2). Refused where the bytes are not laid out as the type has it.
    pub fn parse_multicast(type_: Type, class: u16, octets: &'a [u8]) -> Result<RData<'a>>
        ensures sound { IfOk result (λ read. IsRData type_ (class_of class) octets.now (rdata_of read)) }
        ensures complete { (value : RDataValue) → IsRData type_ (class_of class) octets.now value
            → IsOkAnd result (λ read. rdata_of read ≡ value) }
    {
        RData::parse(type_, multicast::class_of(class), octets)
    }
}

// The layout of the data of this type and class. Inlined: a caller that branches on the layout at once needs one jump
// for both.
#[inline(always)]
fn find_layout(type_: Type, class: u16) -> Layout
    ensures { result ≡ layout_of type_ class }
{
    match type_ {
        types::A if class == classes::IN => Layout::Ipv4,
        types::AAAA if class == classes::IN => Layout::Ipv6,
        types::CNAME | types::NS | types::PTR | types::DNAME => Layout::Name,
        types::MB | types::MD | types::MF | types::MG | types::MR => Layout::Name,
        types::SOA => Layout::Authority,
        types::MX => Layout::Mail,
        types::TXT => Layout::Strings,
        types::SRV => Layout::Service,
        types::MINFO | types::RP => form(FrontForm::Nothing, true, RestForm::Nothing),
        types::AFSDB | types::RT | types::KX => form(FrontForm::Number, false, RestForm::Nothing),
        types::PX => form(FrontForm::Number, true, RestForm::Nothing),
        types::NAPTR => form(FrontForm::Rule, false, RestForm::Nothing),
        types::SIG => form(FrontForm::Signed, false, RestForm::Signature),
        types::NXT => form(FrontForm::Nothing, false, RestForm::Bits),
        types::NSEC => form(FrontForm::Nothing, false, RestForm::Types),
        _ => Layout::Opaque,
    }
}

// The layout of fields before one name or two and after them.
fn form(front: FrontForm, has_two: bool, rest: RestForm) -> Layout
    ensures { result ≡ form front has_two rest }
{
    Layout::Fields(Form {
        front,
        has_two,
        rest,
    })
}

// The data of this layout.
fn read(layout: Layout, octets: &[u8]) -> Result<RData<'_>>
    ensures sound { IfOk result (λ read. IsLaidOut layout octets.now (rdata_of read)) }
    ensures complete { (value : RDataValue) → IsLaidOut layout octets.now value
        → IsOkAnd result (λ read. rdata_of read ≡ value) }
{
    match layout {
        Layout::Ipv4 => read_ipv4(octets),
        Layout::Ipv6 => read_ipv6(octets),
        Layout::Name => read_name(octets),
        Layout::Mail => read_mail(octets),
        Layout::Service => read_service(octets),
        Layout::Authority => read_authority(octets),
        Layout::Strings => read_strings(octets),
        Layout::Fields(form) => read_fields(form, octets),
        Layout::Opaque => Ok(RData::Other(octets)),
    }
}

fn read_ipv4(octets: &[u8]) -> Result<RData<'_>>
    ensures sound { IfOk result (λ read. IsAddress4 octets.now (rdata_of read)) }
    ensures complete { (value : RDataValue) → IsAddress4 octets.now value
        → IsOkAnd result (λ read. rdata_of read ≡ value) }
{
    if octets.len() != 4 {
        return Err(Error);
    }
    Ok(RData::A(Ipv4Address::from_octets(octets.try_into().unwrap())))
}

fn read_ipv6(octets: &[u8]) -> Result<RData<'_>>
    ensures sound { IfOk result (λ read. IsAddress6 octets.now (rdata_of read)) }
    ensures complete { (value : RDataValue) → IsAddress6 octets.now value
        → IsOkAnd result (λ read. rdata_of read ≡ value) }
{
    if octets.len() != 16 {
        return Err(Error);
    }
    Ok(RData::Aaaa(Ipv6Address::from_octets(octets.try_into().unwrap())))
}

fn read_name(octets: &[u8]) -> Result<RData<'_>>
    ensures sound { IfOk result (λ read. IsNameData octets.now (rdata_of read)) }
    ensures complete { (value : RDataValue) → IsNameData octets.now value
        → IsOkAnd result (λ read. rdata_of read ≡ value) }
{
    if !is_name(octets) {
        return Err(Error);
    }
    Ok(RData::Name(octets))
}

fn read_mail(octets: &[u8]) -> Result<RData<'_>>
    ensures sound { IfOk result (λ read. IsMail octets.now (rdata_of read)) }
    ensures complete { (value : RDataValue) → IsMail octets.now value
        → IsOkAnd result (λ read. rdata_of read ≡ value) }
{
    if octets.len() < field::MX_NAME {
        return Err(Error);
    }
    let exchange = &octets[field::MX_NAME..];
    if !is_name(exchange) {
        return Err(Error);
    }
    let preference = octets.u16_at(field::PREFERENCE);
    Ok(RData::Mx {
        preference,
        exchange,
    })
}

fn read_service(octets: &[u8]) -> Result<RData<'_>>
    ensures sound { IfOk result (λ read. IsService octets.now (rdata_of read)) }
    ensures complete { (value : RDataValue) → IsService octets.now value
        → IsOkAnd result (λ read. rdata_of read ≡ value) }
{
    if octets.len() < field::SRV_NAME {
        return Err(Error);
    }
    let target = &octets[field::SRV_NAME..];
    if !is_name(target) {
        return Err(Error);
    }
    Ok(RData::Srv {
        priority: octets.u16_at(field::PRIORITY),
        weight: octets.u16_at(field::WEIGHT),
        port: octets.u16_at(field::PORT),
        target,
    })
}

fn read_authority(octets: &[u8]) -> Result<RData<'_>>
    ensures sound { IfOk result (λ read. IsAuthority octets.now (rdata_of read)) }
    ensures complete { (value : RDataValue) → IsAuthority octets.now value
        → IsOkAnd result (λ read. rdata_of read ≡ value) }
{
    let (primary, behind) = split_name(octets)?;
    let (mailbox, after) = split_name(behind)?;
    if after.len() != field::SOA_END {
        return Err(Error);
    }
    Ok(RData::Soa(Authority {
        primary,
        mailbox,
        serial: after.u32_at(field::SERIAL),
        refresh: after.u32_at(field::REFRESH),
        retry: after.u32_at(field::RETRY),
        expire: after.u32_at(field::EXPIRE),
        minimum: after.u32_at(field::MINIMUM),
    }))
}

fn read_strings(octets: &[u8]) -> Result<RData<'_>>
    ensures sound { IfOk result (λ read. IsStrings octets.now (rdata_of read)) }
    ensures complete { (value : RDataValue) → IsStrings octets.now value
        → IsOkAnd result (λ read. rdata_of read ≡ value) }
{
    if octets.is_empty() || !are_strings(octets) {
        return Err(Error);
    }
    Ok(RData::Txt(octets))
}

// These types are rare: in a function of their own, their fields cost the others nothing.
#[inline(never)]
fn read_fields(form: Form, octets: &[u8]) -> Result<RData<'_>>
    ensures sound { IfOk result (λ read. IsFieldsData form octets.now (rdata_of read)) }
    ensures complete { (value : RDataValue) → IsFieldsData form octets.now value
        → IsOkAnd result (λ read. rdata_of read ≡ value) }
{
    Ok(RData::Fields(fields::read(form, octets)?))
}

// Whether these bytes are one part of a name, and nothing more.
fn is_name(octets: &[u8]) -> bool
    ensures { IsTrue result ↔ IsOnePart octets.now }
{
    match split_name(octets) {
        Ok((_, rest)) => rest.is_empty(),
        Err(_) => false,
    }
}

// Whether these bytes are strings, each after its length.
fn are_strings(octets: &[u8]) -> bool
    ensures { IsTrue result ↔ AreStrings octets.now }
{
    let mut left = octets;
    while !left.is_empty() {
        match behind_string(left) {
            Some(rest) => left = rest,
            None => return false,
        }
    }
    true
}

// What follows the string at the start of octets. None where there is no whole string.
fn behind_string(octets: &[u8]) -> Option<&[u8]>
    ensures { seen_rest result ≡ string_rest octets.now }
{
    match octets {
        [len, rest @ ..] if *len as usize <= rest.len() => Some(&rest[*len as usize..]),
        _ => None,
    }
}
