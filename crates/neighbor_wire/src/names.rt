//! The domain names of a search list, in turn (RFC 8106 section 5.2).

ghost use Rattle.std.specs.Prelude.{◌≡◌, ◌≤◌, ◌↔◌, length, IsTrue, IfOk};
ghost use Rattle.neighbor_wire.specs.Names.{Stops};
ghost use Rattle.neighbor_wire.specs.private.Names.{walk};

use std::fmt;
use std::marker::Model;

// The most bytes of a label (RFC 1035 section 3.1).
const MOST_LABEL: usize = 63;

/// Why octets don't begin with a domain name.
#[derive(Debug, PartialEq, Eq, Clone, Copy)]
pub enum NameRefusal {
    /// The octets end before the name does.
    Cut,
    /// A label whose length is this number, more than 63: no compression is allowed (RFC 8106 section 5.2).
    Label(u8),
}

/// A short phrase, as `a label of length 64`.
impl fmt::Display for NameRefusal {
    ghost use Rattle.std.specs.Prelude.{Some};
    ghost use Rattle.neighbor_wire.specs.NameRefusal.{refusal_display};

    ghost output = { λ refusal. Some (refusal_display refusal) };

    fn fmt<W: fmt::Write>(&self, f: &mut fmt::Formatter<W>) -> fmt::Result {
        match *self {
            NameRefusal::Cut => f.write_str("the octets end before the name does"),
            NameRefusal::Label(len) => write!(f, "a label of length {len}"),
        }
    }
}

/// Domain names, one after another, and zeros behind them.
#[derive(Debug, PartialEq, Eq, Clone, Copy)]
pub struct Names<'a> {
    pub(crate) octets: &'a [u8],
}

impl<'a> Names<'a> {
    ghost use Rattle.std.specs.Prelude.{List};
    ghost use Rattle.neighbor_wire.specs.Names.{octets_in, Answer, AreNames};

    /// The names in these octets.
    pub const fn new(octets: &'a [u8]) -> Names<'a>
        ensures { octets_in result ≡ octets.now }
    {
        Names { octets }
    }

    /// The octets, with the zeros behind the names.
    pub const fn octets(&self) -> &'a [u8]
        ensures { result.now ≡ octets_in self.now }
    {
        self.octets
    }

    /// The names in turn, each as labels behind their lengths and an empty one at its end (RFC 1035 section 3.1), up to
    /// the end of the octets or to a zero in the place of a name. Where the octets don't go on with a whole name, the
    /// reason is given once, and then the end. That a name has 255 octets at most is not checked.
    pub fn iter(&self) -> NamesIterator<'a>
        ensures names { AreNames (octets_in self.now) result }
        ensures unique { (answers : List Answer) → AreNames (octets_in self.now) answers → answers ≡ result }
    {
        NamesIterator { rest: self.octets }
    }
}

/// The domain names of a search list in turn.
#[derive(Debug, Clone, Drop)]
pub struct NamesIterator<'a> {
    // The octets after the names that were given already.
    rest: &'a [u8],
}

impl<'a> Model for NamesIterator<'a> {
    ghost use Rattle.std.specs.Prelude.{List};
    ghost use Rattle.neighbor_wire.specs.Names.{Answer};
    ghost use Rattle.neighbor_wire.specs.private.Names.{names_of};

    ghost Value = { List Answer };

    ghost view = { λ it. names_of it.rest.now };
}

impl<'a> Iterator for NamesIterator<'a> {
    ghost use Rattle.std.specs.Iterator.{at_most};
    ghost use Rattle.neighbor_wire.specs.Names.{GivesName};

    type Item = Result<&'a [u8], NameRefusal>;

    ghost next_gives = { GivesName };

    ghost remaining = { λ answers. at_most (length answers) };

    fn next(&mut self) -> Option<Result<&'a [u8], NameRefusal>> {
        if stops(self.rest) {
            return None;
        }
        match name_len(self.rest) {
            Ok(len) => {
                let (name, behind) = self.rest.split_at(len);
                self.rest = behind;
                Some(Ok(name))
            }
            Err(refusal) => {
                self.rest = &[];
                Some(Err(refusal))
            }
        }
    }
}

// Whether no name follows: the octets end, or there is a zero, which is padding.
fn stops(octets: &[u8]) -> bool
    ensures { IsTrue result ↔ Stops octets.now }
{
    octets.is_empty() || octets[0] == 0
}

// The bytes of the name at the front of the octets.
fn name_len(octets: &[u8]) -> Result<usize, NameRefusal>
    ensures value { result ≡ walk 0 octets.now }
    ensures whole { IfOk result (λ len. len ≤ length octets.now) }
{
    let mut rest = octets;
    while !rest.is_empty() {
        let len = rest[0] as usize;
        if len == 0 {
            return Ok(octets.len() - rest.len() + 1);
        }
        if len > MOST_LABEL {
            return Err(NameRefusal::Label(rest[0]));
        }
        if rest.len() <= len {
            return Err(NameRefusal::Cut);
        }
        rest = &rest[len + 1..];
    }
    Err(NameRefusal::Cut)
}
