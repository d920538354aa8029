//! Why octets are refused as options of a hop-by-hop header (RFC 8200 section 4.3).

ghost use Rattle.std.specs.Prelude.{◌≢◌, ◌↔◌, [], map, IfSome, IsNone, Some};
ghost use Rattle.std.specs.Fmt.{WritesOnOk};
ghost use Rattle.opt_wire.specs.Ipv6Option.{value_of as option_value};
ghost use Rattle.opt_wire.specs.Ipv6Hbh.{view_octets, value_of};
ghost use Rattle.opt_wire.specs.Ipv6HbhRefusal.{IsRead, Refuses, refusal_text, options_display, header_display};

use super::{Header, Repr};
use crate::ipv6option;
use crate::ipv6option::refusal::behind_first;
use std::fmt;
use wirebase::IPV6_HBH_MAX_OPTIONS;

/// Why [`Repr::parse`] refuses octets: the first check that fails.
#[derive(Debug, PartialEq, Eq, Clone, Copy)]
pub enum Refusal {
    /// No bytes.
    Empty,
    /// An option that is refused, among those that a header keeps and the one after them.
    Option {
        /// The number of options before it.
        index: usize,
        /// Why it is refused.
        refusal: ipv6option::Refusal,
    },
}

impl<'a> Repr<'a> {
    /// Why [`Repr::parse`] refuses these octets, by the first check that fails; None exactly where it reads them.
    pub fn refusal(header: &Header<&'a [u8]>) -> Option<Refusal>
        ensures told { IfSome result (λ refusal.
            Refuses IPV6_HBH_MAX_OPTIONS (view_octets header.now) refusal) }
        ensures exact { IsNone result ↔ IsRead IPV6_HBH_MAX_OPTIONS (view_octets header.now) }
    {
        let octets = header.options();
        if octets.is_empty() {
            return Some(Refusal::Empty);
        }
        first_bad(octets)
    }
}

// The first option that is refused, among those that a header keeps and the one after them.
fn first_bad(octets: &[u8]) -> Option<Refusal>
    requires some { octets.now ≢ [] }
    ensures told { IfSome result (λ refusal. Refuses IPV6_HBH_MAX_OPTIONS octets.now refusal) }
    ensures exact { IsNone result ↔ IsRead IPV6_HBH_MAX_OPTIONS octets.now }
{
    let mut rest = octets;
    for index in 0..IPV6_HBH_MAX_OPTIONS + 1 {
        if rest.is_empty() {
            return None;
        }
        match behind_first(rest) {
            Ok(behind) => rest = behind,
            Err(refusal) => return Some(Refusal::Option { index, refusal }),
        }
    }
    None
}

/// A short phrase with the number of options before the refused one, as `option 0: a length of 3 is not allowed for
/// RouterAlert`.
impl fmt::Display for Refusal {
    ghost output = { λ refusal. Some (refusal_text refusal) };

    fn fmt<W: fmt::Write>(&self, f: &mut fmt::Formatter<W>) -> fmt::Result {
        match *self {
            Refusal::Empty => f.write_str("no options"),
            Refusal::Option { index, refusal } => write!(f, "option {index}: {refusal}"),
        }
    }
}

/// The number of options, and each option in parentheses.
impl fmt::Display for Repr<'_> {
    ghost output = { λ repr. Some (header_display (value_of repr)) };

    fn fmt<W: fmt::Write>(&self, f: &mut fmt::Formatter<W>) -> fmt::Result {
        let options = self.options.as_slice();
        let count = options.len();
        write!(f, "IPv6 Hop-by-Hop Options count={count}")?;
        fmt_options(f, options)
    }
}

// Prints each option in parentheses after a space.
fn fmt_options<W: fmt::Write>(
    f: &mut fmt::Formatter<W>,
    options: &[ipv6option::Repr<'_>],
) -> fmt::Result
    ensures { WritesOnOk W.write_str_gives f.old result
        (options_display (map option_value options.now)) f.new }
{
    for option in options {
        write!(f, " ({option})")?;
    }
    Ok(())
}
