//! Of what a message has less than it takes or counts.

ghost use Rattle.std.specs.Prelude.{◌≡◌, Some};
ghost use Rattle.neighbor_fields.specs.Lack.{lack_text};

use std::fmt;

/// Of what a message that ends early has less than it takes or counts.
#[derive(Debug, PartialEq, Eq, Clone, Copy)]
pub enum Lack {
    /// The bytes of its fields.
    Fields,
    /// Whole records of a report.
    Records,
    /// Whole sources of a query.
    Sources,
}

impl Lack {
    /// That it is so, in words.
    pub fn phrase(self) -> &'static str
        ensures { result.now ≡ lack_text self }
    {
        match self {
            Lack::Fields => "fewer bytes than the fields take",
            Lack::Records => "fewer records than the report counts",
            Lack::Sources => "fewer sources than the query counts",
        }
    }
}

/// That it is so, in words.
impl fmt::Display for Lack {
    ghost output = { λ lack. Some (lack_text lack) };

    fn fmt<W: fmt::Write>(&self, f: &mut fmt::Formatter<W>) -> fmt::Result {
        f.write_str(self.phrase())
    }
}
