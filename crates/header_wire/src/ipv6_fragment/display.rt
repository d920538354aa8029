//! What fragment headers and their refusals print.

ghost use Rattle.std.specs.Prelude.{Some};
ghost use Rattle.header_wire.specs.Ipv6FragmentDisplay.{header_display, refusal_display};

use super::{Header, Refusal};
use std::fmt;

/// The fields by their names.
impl fmt::Display for Header {
    ghost output = { λ header. Some (header_display header) };

    fn fmt<W: fmt::Write>(&self, f: &mut fmt::Formatter<W>) -> fmt::Result {
        let next_header = self.next_header;
        let ident = self.ident;
        let more_frags = self.more_frags;
        let offset = self.frag_offset;
        write!(
            f,
            "next_header={next_header} ident={ident} more_frags={more_frags} offset={offset}"
        )
    }
}

/// The reason, as a phrase.
impl fmt::Display for Refusal {
    ghost output = { λ refusal. Some (refusal_display refusal) };

    fn fmt<W: fmt::Write>(&self, f: &mut fmt::Formatter<W>) -> fmt::Result {
        match self {
            Refusal::Short => write!(f, "fewer than 8 bytes"),
        }
    }
}
