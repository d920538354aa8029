//! The options of a header in turn (RFC 8200 section 4.2).

ghost use Rattle.std.specs.Prelude.{◌≡◌, length};
ghost use Rattle.opt_wire.specs.Ipv6Option.{OptionValue, value_of, text_len};

use super::{Ipv6Option, Repr};
use std::marker::Model;
use wirebase::Result;

/// The options of a hop-by-hop or destination options header in turn, each as [`Repr::parse`] reads it, from the front
/// of the octets to their end. At the first place where it reads none, one refusal is given, and then the end.
#[derive(Debug, Clone, Drop)]
pub struct Ipv6OptionsIterator<'a> {
    // The octets after the options that were given already.
    data: &'a [u8],
    hit_error: bool,
}

impl<'a> Model for Ipv6OptionsIterator<'a> {
    ghost use Rattle.std.specs.Prelude.{List};
    ghost use Rattle.opt_wire.specs.Ipv6OptionAnswers.{Answer};
    ghost use Rattle.opt_wire.specs.private.Ipv6OptionModel.{answers_to_come};

    ghost Value = { List Answer };

    ghost view = { λ it. answers_to_come it.hit_error it.data.now };
}

impl<'a> Ipv6OptionsIterator<'a> {
    ghost use Rattle.std.specs.Prelude.{List, Ok, map, sum_by};
    ghost use Rattle.opt_wire.specs.Ipv6OptionAnswers.{Answer, Tile};

    /// The options in `octets`, which are those after the first two bytes of the header. The first option begins at the
    /// front, and each other one where the one before it ends. At the first place where [`Repr::parse`] reads none,
    /// because no whole option begins there or a router alert has other than 2 bytes of data, one refusal is given, and
    /// then the end. Where no refusal is given, the options take up all the octets.
    pub fn new(octets: &'a [u8]) -> Ipv6OptionsIterator<'a>
        ensures tile { Tile octets.entry.now result }
        ensures unique { (answers : List Answer)
            → Tile octets.entry.now answers → answers ≡ result }
        ensures lengths { (options : List OptionValue) → result ≡ map Ok options
            → sum_by text_len options ≡ length octets.entry.now }
    {
        Ipv6OptionsIterator {
            data: octets,
            hit_error: false,
        }
    }
}

impl<'a> Iterator for Ipv6OptionsIterator<'a> {
    ghost use Rattle.std.specs.Iterator.{at_most};
    ghost use Rattle.wirebase.specs.Answers.{GivesFirst};

    type Item = Result<Repr<'a>>;

    ghost next_gives = { GivesFirst value_of };

    ghost remaining = { λ answers. at_most (length answers) };

    #[inline]
    fn next(&mut self) -> Option<Result<Repr<'a>>> {
        if self.hit_error || self.data.is_empty() {
            return None;
        }
        match Repr::parse(&Ipv6Option::new_unchecked(self.data)) {
            Ok(repr) => {
                self.data = &self.data[repr.buffer_len()..];
                Some(Ok(repr))
            }
            Err(error) => {
                self.hit_error = true;
                Some(Err(error))
            }
        }
    }
}
