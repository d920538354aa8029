//! What the errors of both protocols have in common: why octets are refused, and how an error is written.

ghost use Rattle.std.specs.Prelude.{◌≡◌, ◌≤◌, length, Some};
ghost use Rattle.wirebase.specs.Bytes.{over};
ghost use Rattle.wirebase.specs.ByteWriter.{free, Puts, the_slice, fields};
ghost use Rattle.quote_wire.specs.Error.{error_fields, refusal_display};

use crate::quote;
use std::fmt;
use wirebase::{ByteWriter, icmp};

/// Why `Repr::parse` refuses octets as an error: the check that fails first.
#[derive(Debug, PartialEq, Eq, Clone, Copy)]
pub enum Refusal {
    /// Fewer than 8 bytes.
    Short,
    /// The checksum is to be verified, and is wrong.
    Checksum,
    /// The type is not that of an error; this is its number.
    UnknownType(u8),
    /// What follows the header is not the start of an IPv4 datagram, or in ICMPv6 does not begin with an IPv6 header,
    /// for this reason.
    Quote(quote::Refusal),
}

/// The reason as a phrase.
impl fmt::Display for Refusal {
    ghost output = { λ refusal. Some (refusal_display refusal) };

    fn fmt<W: fmt::Write>(&self, f: &mut fmt::Formatter<W>) -> fmt::Result {
        match self {
            Refusal::Short => f.write_str("fewer than 8 bytes"),
            Refusal::Checksum => f.write_str("the checksum does not hold"),
            Refusal::UnknownType(number) => write!(f, "type {number} is not that of an error"),
            Refusal::Quote(why) => write!(f, "{why}"),
        }
    }
}

// Writes an error of this type at the start of the octets, cut at their end, with a checksum of zero. The callers cut
// what is quoted: with a parameter for the most bytes there are 26 bytes of code more at opt-level "z".
#[tactic(auto, using(wirebase::proofs::Chains::chain))]
pub(crate) fn write_error(octets: &mut [u8], number: u8, code: u8, rest: u32, quoted: &[u8])
    requires { 8 ≤ length octets.old }
    ensures { octets.new ≡ over octets.old (fields (error_fields number code rest quoted.now)) }
{
    put_error(&mut ByteWriter::new(octets), number, code, rest, quoted);
}

// Writes the error through a writer.
#[tactic(auto, unfolding(wirebase::specs::ByteWriter::be32))]
fn put_error(w: &mut ByteWriter<'_>, number: u8, code: u8, rest: u32, quoted: &[u8])
    requires { 8 ≤ length (free w.old) }
    ensures puts { Puts w.old w.new (error_fields number code rest quoted.now) }
    ensures same_slice { the_slice w.new ≡ the_slice w.old }
{
    icmp::put_header(w, number, code, rest.to_be_bytes());
    w.put_front(quoted);
}
