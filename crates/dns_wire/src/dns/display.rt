//! Prints messages and their parts, by the names of IANA's registry of DNS parameters.

ghost use Rattle.std.specs.Prelude.{◌≡◌, [], Some, None, codes, map};
ghost use Rattle.std.specs.Fmt.{WritesOnOk};
ghost use Rattle.std.specs.Option.{option_map};
ghost use Rattle.wirebase.specs.Bytes.{Reaches};
ghost use Rattle.dns_wire.specs.DnsTables.{flag_bits, type_number};
ghost use Rattle.dns_wire.specs.DnsPacket.{inner, header};
ghost use Rattle.dns_wire.specs.DnsQuestion.{value_of as question_value};
ghost use Rattle.dns_wire.specs.DnsRecord.{data_value, value_of as record_value};
ghost use Rattle.dns_wire.specs.DnsRepr.{value_of as query_value};
ghost use Rattle.dns_wire.specs.DnsDisplay.{type_names, name_in, type_display, opcode_display, rcode_display};
ghost use Rattle.dns_wire.specs.DnsDisplay.{flags_display, names_set, question_display, data_display, record_display};
ghost use Rattle.dns_wire.specs.DnsDisplay.{query_display, header_in, counts_display, header_display, view_display};
ghost use Rattle.dns_wire.specs.private.Parts.{counts_value, header_value};

use super::{Flags, Opcode, Packet, Question, Rcode, Record, RecordData, Repr, Type};
use bitflags::Flags as _;
use std::fmt;
use wirebase::Octets;

impl Type {
    /// The mnemonic of the type in IANA's registry, as `MX`, also of a number that is kept as [`Type::Unknown`]; None
    /// where it has none here.
    pub fn mnemonic(self) -> Option<&'static str>
        ensures { option_map (λ mnemonic. mnemonic.now) result ≡ name_in type_names (type_number self) }
    {
        match u16::from(self) {
            1 => Some("A"),
            2 => Some("NS"),
            3 => Some("MD"),
            4 => Some("MF"),
            5 => Some("CNAME"),
            6 => Some("SOA"),
            7 => Some("MB"),
            8 => Some("MG"),
            9 => Some("MR"),
            12 => Some("PTR"),
            13 => Some("HINFO"),
            14 => Some("MINFO"),
            15 => Some("MX"),
            16 => Some("TXT"),
            17 => Some("RP"),
            18 => Some("AFSDB"),
            21 => Some("RT"),
            24 => Some("SIG"),
            26 => Some("PX"),
            28 => Some("AAAA"),
            30 => Some("NXT"),
            33 => Some("SRV"),
            35 => Some("NAPTR"),
            36 => Some("KX"),
            39 => Some("DNAME"),
            41 => Some("OPT"),
            43 => Some("DS"),
            44 => Some("SSHFP"),
            46 => Some("RRSIG"),
            47 => Some("NSEC"),
            48 => Some("DNSKEY"),
            50 => Some("NSEC3"),
            52 => Some("TLSA"),
            64 => Some("SVCB"),
            65 => Some("HTTPS"),
            99 => Some("SPF"),
            251 => Some("IXFR"),
            252 => Some("AXFR"),
            255 => Some("ANY"),
            257 => Some("CAA"),
            _ => None,
        }
    }
}

/// The mnemonic of the type, as `AAAA`, or its number where it has none here, as `TYPE34` (RFC 3597 section 5). A
/// number that is kept as [`Type::Unknown`] has its mnemonic too, as `MX`.
impl fmt::Display for Type {
    ghost output = { λ kind. Some (type_display kind) };

    fn fmt<W: fmt::Write>(&self, f: &mut fmt::Formatter<W>) -> fmt::Result {
        match self.mnemonic() {
            Some(mnemonic) => f.write_str(mnemonic),
            None => write!(f, "TYPE{}", u16::from(*self)),
        }
    }
}

/// The name of the kind of query, or its number where it has none, as `OPCODE7`. The name is that of the number:
/// [`Opcode::Status`], which is 1, prints as `IQUERY`, and `Opcode::Unknown(2)` as `STATUS` (RFC 1035 section 4.1.1); 4
/// is `NOTIFY` (RFC 1996), 5 `UPDATE` (RFC 2136) and 6 `DSO` (RFC 8490).
impl fmt::Display for Opcode {
    ghost output = { λ opcode. Some (opcode_display opcode) };

    fn fmt<W: fmt::Write>(&self, f: &mut fmt::Formatter<W>) -> fmt::Result {
        let name = match u8::from(*self) {
            0 => "QUERY",
            1 => "IQUERY",
            2 => "STATUS",
            4 => "NOTIFY",
            5 => "UPDATE",
            6 => "DSO",
            number => return write!(f, "OPCODE{number}"),
        };
        f.write_str(name)
    }
}

/// The name of the outcome, as `NXDOMAIN`, or its number where it has none, as `RCODE15`.
impl fmt::Display for Rcode {
    ghost output = { λ rcode. Some (rcode_display rcode) };

    fn fmt<W: fmt::Write>(&self, f: &mut fmt::Formatter<W>) -> fmt::Result {
        let name = match u8::from(*self) {
            0 => "NOERROR",
            1 => "FORMERR",
            2 => "SERVFAIL",
            3 => "NXDOMAIN",
            4 => "NOTIMP",
            5 => "REFUSED",
            6 => "YXDOMAIN",
            7 => "YXRRSET",
            8 => "NXRRSET",
            9 => "NOTAUTH",
            10 => "NOTZONE",
            number => return write!(f, "RCODE{number}"),
        };
        f.write_str(name)
    }
}

/// Prints the question, as `DNS question name_len=12 type=A`, where `name_len` is the number of bytes that its name
/// takes in the message.
impl fmt::Display for Question<'_> {
    ghost output = { λ it. Some (question_display (question_value it)) };

    fn fmt<W: fmt::Write>(&self, f: &mut fmt::Formatter<W>) -> fmt::Result {
        let name_len = self.name.len();
        let type_ = self.type_;
        write!(f, "DNS question name_len={name_len} type={type_}")
    }
}

/// Prints the type of the record, and its address or the bytes that its data take, as `A addr=192.0.2.1` or `SOA
/// len=38`.
impl fmt::Display for RecordData<'_> {
    ghost output = { λ it. Some (data_display (data_value it)) };

    fn fmt<W: fmt::Write>(&self, f: &mut fmt::Formatter<W>) -> fmt::Result {
        match self {
            RecordData::A(address) => write!(f, "A addr={address}"),
            RecordData::Aaaa(address) => write!(f, "AAAA addr={address}"),
            RecordData::Cname(name) => {
                let name_len = name.len();
                write!(f, "CNAME name_len={name_len}")
            }
            RecordData::Other(type_, data) => {
                let len = data.len();
                write!(f, "{type_} len={len}")
            }
        }
    }
}

/// Prints the record, as `DNS record name_len=2 ttl=202 A addr=192.0.2.1`, where `name_len` is the number of bytes that
/// its name takes in the message, and `ttl` is in seconds.
impl fmt::Display for Record<'_> {
    ghost output = { λ it. Some (record_display (record_value it)) };

    fn fmt<W: fmt::Write>(&self, f: &mut fmt::Formatter<W>) -> fmt::Result {
        let name_len = self.name.len();
        let ttl = self.ttl;
        let data = self.data;
        write!(f, "DNS record name_len={name_len} ttl={ttl} {data}")
    }
}

/// The names of the flags that are set, with commas between them, as `rd,ad`; `-` where none is set. Bits that have no
/// name are not printed.
impl fmt::Display for Flags {
    ghost output = { λ flags. Some (flags_display (flag_bits flags)) };

    fn fmt<W: fmt::Write>(&self, f: &mut fmt::Formatter<W>) -> fmt::Result {
        fmt_flags(f, FLAG_NAMES, self.bits())
    }
}

// Each flag's short name and bit.
const FLAG_NAMES: &[(&str, u16)] = &[
    ("qr", 0x8000),
    ("aa", 0x0400),
    ("tc", 0x0200),
    ("rd", 0x0100),
    ("ra", 0x0080),
    ("ad", 0x0020),
    ("cd", 0x0010),
];

// Prints the names of the flags that are set, with commas between them, or `-` where none is set.
fn fmt_flags<W: fmt::Write>(
    f: &mut fmt::Formatter<W>,
    names: &[(&str, u16)],
    bits: u16,
) -> fmt::Result
    ensures { WritesOnOk W.write_str_gives f.old result (names_set [] (codes "-")
        (map (λ row. (row.0.now, row.1)) names.now) bits) f.new }
{
    let mut front = "";
    // Printed at the end, where no flag is set.
    let mut none = "-";
    let mut left = names;
    while let [(name, bit), rest @ ..] = left {
        if bits & *bit != 0 {
            write!(f, "{front}{name}")?;
            front = ",";
            none = "";
        }
        left = rest;
    }
    f.write_str(none)
}

/// Prints the query, as `DNS query id=4660 opcode=QUERY flags=rd name_len=12 type=A`, where `name_len` is the number of
/// bytes that the name of its question takes.
impl fmt::Display for Repr<'_> {
    ghost output = { λ it. Some (query_display (query_value it)) };

    fn fmt<W: fmt::Write>(&self, f: &mut fmt::Formatter<W>) -> fmt::Result {
        let Repr {
            transaction_id,
            opcode,
            flags,
            question,
        } = self;
        let name_len = question.name.len();
        let type_ = question.type_;
        write!(
            f,
            "DNS query id={transaction_id} opcode={opcode} flags={flags} name_len={name_len} type={type_}"
        )
    }
}

/// Prints the header of the message (RFC 1035 section 4.1.1), as `DNS id=4660 opcode=QUERY flags=rd rcode=NOERROR
/// questions=1 answers=0 authorities=0 additionals=0`, or `DNS (wire::Error)` where there are fewer than 12 octets. Of
/// questions and records only the numbers are printed.
impl<T: Octets> fmt::Display for Packet<T> {
    ghost output = { λ view. Some (view_display (T.bytes (inner view))) };

    fn fmt<W: fmt::Write>(&self, f: &mut fmt::Formatter<W>) -> fmt::Result {
        if let Err(error) = self.check_len() {
            return write!(f, "DNS ({error})");
        }
        let header = read_header(self);
        write!(f, "{header}")
    }
}

// The header, to be printed.
#[derive(Drop)]
struct Header {
    id: u16,
    opcode: Opcode,
    flags: Flags,
    rcode: Rcode,
    counts: Counts,
}

impl fmt::Display for Header {
    ghost output = { λ header. Some (header_display (header_value header)) };

    fn fmt<W: fmt::Write>(&self, f: &mut fmt::Formatter<W>) -> fmt::Result {
        let Header {
            id,
            opcode,
            flags,
            rcode,
            counts,
        } = self;
        write!(
            f,
            "DNS id={id} opcode={opcode} flags={flags} rcode={rcode} {counts}"
        )
    }
}

// The numbers of questions and records in a header, to be printed.
#[derive(Drop)]
struct Counts {
    questions: u16,
    answers: u16,
    authorities: u16,
    additionals: u16,
}

impl fmt::Display for Counts {
    ghost output = { λ counts. Some (counts_display (counts_value counts)) };

    fn fmt<W: fmt::Write>(&self, f: &mut fmt::Formatter<W>) -> fmt::Result {
        let Counts {
            questions,
            answers,
            authorities,
            additionals,
        } = self;
        write!(
            f,
            "questions={questions} answers={answers} authorities={authorities} additionals={additionals}"
        )
    }
}

// The header of the message.
fn read_header<T: Octets>(packet: &Packet<T>) -> Header
    requires { Reaches header (T.bytes (inner packet.now)) }
    ensures { header_value result ≡ header_in (T.bytes (inner packet.now)) }
{
    Header {
        id: packet.transaction_id(),
        opcode: packet.opcode(),
        flags: packet.flags(),
        rcode: packet.rcode(),
        counts: Counts {
            questions: packet.question_count(),
            answers: packet.answer_record_count(),
            authorities: packet.authority_record_count(),
            additionals: packet.additional_record_count(),
        },
    }
}
