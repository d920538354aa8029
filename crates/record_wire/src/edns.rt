//! OPT records: their fields, and their options in turn (RFC 6891 section 6.1).

ghost use Rattle.std.specs.Prelude.{◌≡◌, ◌↔◌, List, ℕ, true, length, IfSome, IsSome, IsNone, IfOk, IsOkAnd};
ghost use Rattle.std.specs.Option.{option_map};
ghost use Rattle.wirebase.specs.Answers.{GivesFirst};
ghost use Rattle.record_wire.specs.Multicast.{is_opt};
ghost use Rattle.record_wire.specs.Record.{record_of};
ghost use Rattle.record_wire.specs.Edns.{edns_of, IsEdns, rcode_with, OptionValue, option_of, IsOption, RefusesOption};
ghost use Rattle.record_wire.specs.Edns.{HasOption, Answer, Tile};
ghost use Rattle.record_wire.specs.OptText.{edns_by};
ghost use Rattle.record_wire.specs.RecordDisplay.{option_refusal_display};
ghost use Rattle.wirebase.specs.Sink.{PutsText};

use crate::multicast;
use crate::record::Record;
use std::marker::Model;
use std::{fmt, result};
use wirebase::text::{Hex, Sink, ToFormatter};
use wirebase::{Error, Octets, Result};

// The fields of an option; their picture is in specs/Edns.antt.
mod field {
    use wirebase::Field;

    pub const CODE: Field = 0..2;

    pub const LENGTH: Field = 2..4;

    pub const DATA: usize = 4;
}

// The highest of the flags.
const DNSSEC_OK: u16 = 0x8000;

/// The fields of an OPT record (RFC 6891 sections 6.1.2 and 6.1.3), as read by [`Record::edns`]. The sender of a
/// message without an OPT record accepts UDP payloads of 512 bytes.
///
/// ```
/// use record_wire::Record;
///
/// // A query of a client that takes payloads of 1,232 bytes and signatures of DNSSEC, and has a cookie.
/// let octets = b"\0\0\x29\x04\xd0\0\0\x80\0\0\x0c\0\x0a\0\x08cookie!!";
/// let (_, record) = Record::parse(octets)?;
/// let edns = record.edns().unwrap();
/// assert_eq!((edns.payload_size, edns.version, edns.dnssec_ok), (1232, 0, true));
/// for option in edns.options() {
///     assert_eq!(option?.code, 10);
/// }
/// # Ok::<(), Box<dyn std::error::Error>>(())
/// ```
#[derive(Debug, PartialEq, Eq, Clone, Copy)]
pub struct Edns<'a> {
    /// The largest UDP payload that the sender accepts, in bytes; a value below 512 means 512 (RFC 6891 section 6.2.3).
    pub payload_size: u16,
    /// The upper eight bits of the response code, of which the header has the lower four: [`Edns::rcode`] puts them
    /// together.
    pub extended_rcode: u8,
    /// The version of EDNS: 0 for RFC 6891.
    pub version: u8,
    /// Whether the sender accepts the records of DNSSEC: the flag DO, the highest of the flags (RFC 3225 section 3).
    pub dnssec_ok: bool,
    /// All sixteen flags as they are sent, DO among them; the others are reserved (RFC 6891 section 6.1.4).
    pub flags: u16,
    /// The bytes of the options: [`Edns::options`] gives them in turn.
    pub options: &'a [u8],
}

impl<'a> Record<'a> {
    /// The fields of the record where it is an OPT record, of type 41; None for any other type. Its name, which should
    /// be the root (RFC 6891 section 6.1.2), is not looked at.
    pub fn edns(&self) -> Option<Edns<'a>>
        ensures is { IfSome result (λ edns. IsEdns (record_of self.now) (edns_of edns)) }
        ensures exact { IsSome result ↔ (is_opt self.now.type_ ≡ true) }
    {
        if !multicast::is_opt(self.type_) {
            return None;
        }
        Some(Edns::of(self.class, self.ttl, self.data))
    }
}

impl<'a> Edns<'a> {
    // The fields of an OPT record with this class, time to live and data.
    pub(crate) fn of(class: u16, ttl: u32, options: &'a [u8]) -> Edns<'a>
        ensures { edns_of result ≡ edns_by class ttl options.now }
    {
        let flags = (ttl % 0x1_0000) as u16;
        Edns {
            payload_size: class,
            extended_rcode: (ttl / 0x100_0000) as u8,
            version: (ttl / 0x1_0000 % 0x100) as u8,
            dnssec_ok: flags >= DNSSEC_OK,
            flags,
            options,
        }
    }

    /// The response code of twelve bits (RFC 6891 section 6.1.3): the upper eight are in the OPT record, the lower four
    /// in the message's header. Of the given header bits only the lowest four count.
    pub fn rcode(&self, header_rcode: u8) -> u16
        ensures { result ≡ rcode_with self.now.extended_rcode header_rcode }
    {
        self.extended_rcode as u16 * 16 + (header_rcode % 16) as u16
    }

    /// The options in turn.
    pub fn options(&self) -> EdnsOptions<'a>
        ensures tile { Tile self.now.options.now result }
        ensures unique { (answers : List Answer) → Tile self.now.options.now answers → answers ≡ result }
    {
        EdnsOptions::new(self.options)
    }
}

/// The numbers, whether DNSSEC is taken, and the length of the options.
impl fmt::Display for Edns<'_> {
    ghost use Rattle.std.specs.Prelude.{Some};
    ghost use Rattle.record_wire.specs.RecordDisplay.{edns_display};

    ghost output = { λ edns. Some (edns_display (edns_of edns)) };

    fn fmt<W: fmt::Write>(&self, f: &mut fmt::Formatter<W>) -> fmt::Result {
        let size = self.payload_size;
        let rcode = self.extended_rcode;
        let dnssec_ok = self.dnssec_ok;
        let len = self.options.len();
        write!(
            f,
            "EDNS payload_size={size} extended_rcode={rcode} version={} dnssec_ok={dnssec_ok} flags={} len={len}",
            self.version, self.flags
        )
    }
}

/// An option of an OPT record (RFC 6891 section 6.1.2).
#[derive(Debug, PartialEq, Eq, Clone, Copy)]
pub struct EdnsOption<'a> {
    /// The option's code, by IANA's registry of EDNS option codes: 8 is a client's subnet, 10 a cookie.
    pub code: u16,
    /// The data, without the code and the length before it.
    pub data: &'a [u8],
}

impl<'a> EdnsOption<'a> {
    /// Parses the option at the start of the octets; returns the rest and the option. Refused where they do not begin
    /// with a code, a length and that many bytes.
    pub fn parse(octets: &'a [u8]) -> Result<(&'a [u8], EdnsOption<'a>)>
        ensures sound { IfOk result (λ read. IsOption octets.now (option_of read.1) read.0.now) }
        ensures complete { (option : OptionValue) (rest : List ℕ) → IsOption octets.now option rest
            → IsOkAnd result (λ read. (option_of read.1 ≡ option) × (read.0.now ≡ rest)) }
    {
        if octets.len() < field::DATA {
            return Err(Error);
        }
        let len = octets.u16_at(field::LENGTH) as usize;
        let behind = &octets[field::DATA..];
        if behind.len() < len {
            return Err(Error);
        }
        let option = EdnsOption {
            code: octets.u16_at(field::CODE),
            data: &behind[..len],
        };
        Ok((&behind[len..], option))
    }

    /// Why [`EdnsOption::parse`] refuses these octets, by the check that fails first; None where it reads them.
    pub fn refusal(octets: &[u8]) -> Option<OptionRefusal>
        ensures told { IfSome result (λ refusal. RefusesOption octets.now refusal) }
        ensures exact { IsNone result ↔ HasOption octets.now }
    {
        if octets.len() < field::DATA {
            return Some(OptionRefusal::Fields);
        }
        let len = octets.u16_at(field::LENGTH) as usize;
        if octets[field::DATA..].len() < len {
            return Some(OptionRefusal::Data);
        }
        None
    }
}

impl EdnsOption<'_> {
    ghost use Rattle.dns_wire.specs.DnsDisplay.{name_in};
    ghost use Rattle.record_wire.specs.RecordDisplay.{option_names};

    /// The option's name, by IANA's registry of EDNS option codes in lower case and with hyphens, such as
    /// `client-subnet`; None where this library has none.
    pub fn name(&self) -> Option<&'static str>
        ensures { option_map (λ name. name.now) result ≡ name_in option_names self.now.code }
    {
        match self.code {
            3 => Some("nsid"),
            5 => Some("dau"),
            6 => Some("dhu"),
            7 => Some("n3u"),
            8 => Some("client-subnet"),
            9 => Some("expire"),
            10 => Some("cookie"),
            11 => Some("tcp-keepalive"),
            12 => Some("padding"),
            13 => Some("chain"),
            14 => Some("key-tag"),
            15 => Some("extended-error"),
            18 => Some("report-channel"),
            19 => Some("zone-version"),
            _ => None,
        }
    }
}

/// The name, or `option-` and the code where there is no name, and the data in hexadecimal, as
/// `cookie=0102030405060708`.
impl fmt::Display for EdnsOption<'_> {
    ghost use Rattle.std.specs.Prelude.{Some};
    ghost use Rattle.record_wire.specs.RecordDisplay.{option_display};

    ghost output = { λ option. Some (option_display (option_of option)) };

    fn fmt<W: fmt::Write>(&self, f: &mut fmt::Formatter<W>) -> fmt::Result {
        let code = self.code;
        let digits = Hex(self.data);
        match self.name() {
            Some(name) => write!(f, "{name}={digits}"),
            None => write!(f, "option-{code}={digits}"),
        }
    }
}

/// Why [`EdnsOption::parse`] refuses octets: the check that fails first.
#[derive(Debug, PartialEq, Eq, Clone, Copy)]
pub enum OptionRefusal {
    /// Fewer bytes than the 4 of a code and a length.
    Fields,
    /// Fewer bytes of data than the length says.
    Data,
}

/// What is wrong with the option.
impl fmt::Display for OptionRefusal {
    ghost use Rattle.std.specs.Prelude.{Some};
    ghost use Rattle.record_wire.specs.RecordDisplay.{option_refusal_display};

    ghost output = { λ refusal. Some (option_refusal_display refusal) };

    #[tactic(auto, using(wirebase::proofs::Sinks::displayed))]
    fn fmt<W: fmt::Write>(&self, f: &mut fmt::Formatter<W>) -> fmt::Result {
        self.put::<_, ToFormatter>(f)
    }
}

impl OptionRefusal {
    /// Puts what is wrong with the option.
    pub fn put<O, S: Sink<O>>(&self, output: &mut O) -> result::Result<(), S::Error>
        ensures { PutsText S.took output.old (option_refusal_display self.now) result output.new }
    {
        match self {
            OptionRefusal::Fields => S::put_str(output, "the code and the length are cut"),
            OptionRefusal::Data => S::put_str(output, "the data of the option is cut"),
        }
    }
}

/// The options in the data of an OPT record in turn. At octets that do not begin with a whole option it returns one
/// refusal, the one that [`EdnsOption::refusal`] gives, and then always None.
///
/// ```
/// use record_wire::{EdnsOptions, OptionRefusal};
///
/// // A cookie of a client (RFC 7873 section 4).
/// let mut options = EdnsOptions::new(b"\0\x0a\0\x08cookie!!");
/// let cookie = options.next().unwrap()?;
/// assert_eq!((cookie.code, cookie.data), (10, &b"cookie!!"[..]));
/// assert_eq!(cookie.to_string(), "cookie=636f6f6b69652121");
/// assert!(options.next().is_none());
/// let mut cut = EdnsOptions::new(b"\0\x0a\0\x08cookie!");
/// assert_eq!(cut.next(), Some(Err(OptionRefusal::Data)));
/// assert!(cut.next().is_none());
/// # Ok::<(), OptionRefusal>(())
/// ```
#[derive(Debug, Clone, Drop)]
pub struct EdnsOptions<'a> {
    // The octets after the options that were returned; empty after a refusal.
    left: &'a [u8],
}

impl<'a> Model for EdnsOptions<'a> {
    ghost use Rattle.std.specs.Prelude.{List};
    ghost use Rattle.record_wire.specs.Edns.{Answer, answers_in};

    ghost Value = { List Answer };

    ghost view = { λ it. answers_in it.left.now };
}

impl<'a> EdnsOptions<'a> {
    /// The options in these octets, the data of an OPT record.
    pub fn new(octets: &'a [u8]) -> EdnsOptions<'a>
        ensures tile { Tile octets.entry.now result }
        ensures unique { (answers : List Answer) → Tile octets.entry.now answers → answers ≡ result }
    {
        EdnsOptions { left: octets }
    }
}

impl<'a> Iterator for EdnsOptions<'a> {
    ghost use Rattle.std.specs.Iterator.{at_most};

    type Item = result::Result<EdnsOption<'a>, OptionRefusal>;

    ghost next_gives = { GivesFirst option_of };

    ghost remaining = { λ answers. at_most (length answers) };

    fn next(&mut self) -> Option<result::Result<EdnsOption<'a>, OptionRefusal>> {
        if self.left.is_empty() {
            return None;
        }
        match EdnsOption::parse(self.left) {
            Ok((rest, option)) => {
                self.left = rest;
                Some(Ok(option))
            }
            Err(_) => {
                let refusal = why_no_option(self.left);
                self.left = &[];
                Some(Err(refusal))
            }
        }
    }
}

// Why octets that begin with no option do not.
fn why_no_option(octets: &[u8]) -> OptionRefusal
    requires { HasOption octets.now → ⊥ }
    ensures { RefusesOption octets.now result }
{
    if octets.len() < field::DATA {
        return OptionRefusal::Fields;
    }
    OptionRefusal::Data
}
