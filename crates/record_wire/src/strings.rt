//! The strings of TXT and NAPTR data in turn (RFC 1035 sections 3.3 and 3.3.14, RFC 3403 section 4.1).

ghost use Rattle.std.specs.Prelude.{◌≡◌, List, ℕ, length};
ghost use Rattle.record_wire.specs.Ahead.{GivesBytes};
ghost use Rattle.record_wire.specs.Strings.{AreStringsAhead, first_string};
ghost use Rattle.record_wire.specs.private.NameReading.{seen_label};

use std::marker::Model;

/// The strings of TXT and NAPTR data in turn, each without the byte of its length. They end where there is no whole
/// string; in the data of `RData::Txt` and in the strings of a rule they take up all the octets.
///
/// ```
/// use record_wire::TxtStrings;
///
/// let strings: Vec<&[u8]> = TxtStrings::new(b"\x06path=/\x01x").collect();
/// assert_eq!(strings, [&b"path=/"[..], b"x"]);
/// ```
#[derive(Debug, Clone, Drop)]
pub struct TxtStrings<'a> {
    // The octets after the strings that were given.
    left: &'a [u8],
}

impl<'a> Model for TxtStrings<'a> {
    ghost use Rattle.std.specs.Prelude.{List, ℕ};
    ghost use Rattle.record_wire.specs.Strings.{strings_in};

    ghost Value = { List (List ℕ) };

    ghost view = { λ it. strings_in it.left.now };
}

impl<'a> TxtStrings<'a> {
    /// The strings in these octets, from their start on.
    pub fn new(octets: &'a [u8]) -> TxtStrings<'a>
        ensures strings { AreStringsAhead octets.entry.now result }
        ensures unique { (others : List (List ℕ)) → AreStringsAhead octets.entry.now others
            → others ≡ result }
    {
        TxtStrings { left: octets }
    }
}

impl<'a> Iterator for TxtStrings<'a> {
    ghost use Rattle.std.specs.Iterator.{at_most};

    type Item = &'a [u8];

    ghost next_gives = { GivesBytes };

    ghost remaining = { λ strings. at_most (length strings) };

    fn next(&mut self) -> Option<&'a [u8]> {
        match split_string(self.left) {
            Some((string, rest)) => {
                self.left = rest;
                Some(string)
            }
            None => None,
        }
    }
}

// The string at the start of octets, and what follows it. None where there is no whole string.
fn split_string(octets: &[u8]) -> Option<(&[u8], &[u8])>
    ensures { seen_label result ≡ first_string octets.now }
{
    match octets {
        [len, rest @ ..] if *len as usize <= rest.len() => {
            let len = *len as usize;
            Some((&rest[..len], &rest[len..]))
        }
        _ => None,
    }
}
