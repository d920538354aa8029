//! Why octets are refused as a header.

ghost use Rattle.std.specs.Prelude.{◌↔◌, IfSome, IsNone, Some};
ghost use Rattle.opt_wire.specs.Ipv6ExtHeader.{view_octets, value_of};
ghost use Rattle.opt_wire.specs.Ipv6ExtHeaderRefusal.{IsRead, Refuses, refusal_text, header_display};

use super::{Header, Repr, end_of, field};
use std::fmt;

/// Why [`Repr::parse`] refuses octets as a header (RFC 8200 section 4.3): the first check that fails.
#[derive(Debug, PartialEq, Eq, Clone, Copy)]
pub enum Refusal {
    /// Fewer than 8 bytes.
    Short,
    /// Fewer bytes than the length counts, which is this number of bytes, with the first 8.
    Cut(usize),
}

impl<'a> Repr<'a> {
    /// Why [`Repr::parse`] refuses these octets, by the first check that fails; None exactly where it reads them.
    pub fn refusal(header: &Header<&'a [u8]>) -> Option<Refusal>
        ensures told { IfSome result (λ refusal. Refuses (view_octets header.now) refusal) }
        ensures exact { IsNone result ↔ IsRead (view_octets header.now) }
    {
        let len = header.buffer.len();
        if len < field::MIN_END {
            return Some(Refusal::Short);
        }
        let end = end_of(header.header_len());
        if len < end {
            return Some(Refusal::Cut(end));
        }
        None
    }
}

/// A short phrase, as `fewer than 8 bytes`.
impl fmt::Display for Refusal {
    ghost output = { λ refusal. Some (refusal_text refusal) };

    fn fmt<W: fmt::Write>(&self, f: &mut fmt::Formatter<W>) -> fmt::Result {
        match *self {
            Refusal::Short => f.write_str("fewer than 8 bytes"),
            Refusal::Cut(len) => write!(f, "fewer than the {len} bytes that the header counts"),
        }
    }
}

/// The fields, and the bytes of the payload, as `IPv6 Extension Header next_header=58 length=0 len=6`.
impl fmt::Display for Repr<'_> {
    ghost output = { λ repr. Some (header_display (value_of repr)) };

    fn fmt<W: fmt::Write>(&self, f: &mut fmt::Formatter<W>) -> fmt::Result {
        let number = u8::from(self.next_header);
        let len = self.data.len();
        write!(
            f,
            "IPv6 Extension Header next_header={number} length={} len={len}",
            self.length
        )
    }
}
