//! The options of a message in turn (RFC 4861 section 4.6).

ghost use Rattle.std.specs.Prelude.{◌≡◌, ◌*◌, length, take, drop, IfOk, IfErr};
ghost use Rattle.wirebase.specs.Checks.{Passes, Fails};
ghost use Rattle.neighbor_wire.specs.Option.{units_in};
ghost use Rattle.neighbor_wire.specs.Options.{block_checks};

use crate::option::{NeighborOption, UNIT, UNITS};
use crate::refusal::Refusal;
use std::marker::Model;
use wirebase::Octets;

/// The options of a message of neighbor discovery in turn, also those of unknown types.
///
/// For a whole option that [`NeighborOption::parse`] refuses, the reason is given, and then the option behind it. Where
/// the octets end before an option does, or an option has a length of 0, the reason is given once, and then the end:
/// hosts discard such a message (RFC 4861 section 6.1).
#[derive(Debug, Clone, Drop)]
pub struct NeighborOptions<'a> {
    // The octets after the options that were given already.
    rest: &'a [u8],
}

impl<'a> Model for NeighborOptions<'a> {
    ghost use Rattle.std.specs.Prelude.{List};
    ghost use Rattle.neighbor_wire.specs.Options.{Answer};
    ghost use Rattle.neighbor_wire.specs.private.Options.{blocks_of};

    ghost Value = { List Answer };

    ghost view = { λ it. blocks_of it.rest.now };
}

impl<'a> NeighborOptions<'a> {
    ghost use Rattle.std.specs.Prelude.{List};
    ghost use Rattle.neighbor_wire.specs.Options.{Answer, Tile};

    /// The options in `octets`, which are those after the fields of a message.
    pub fn new(octets: &'a [u8]) -> NeighborOptions<'a>
        ensures tile { Tile octets.entry.now result }
        ensures unique { (answers : List Answer)
            → Tile octets.entry.now answers → answers ≡ result }
    {
        NeighborOptions { rest: octets }
    }
}

impl<'a> Iterator for NeighborOptions<'a> {
    ghost use Rattle.std.specs.Iterator.{at_most};
    ghost use Rattle.neighbor_wire.specs.Options.{GivesOption};

    type Item = Result<NeighborOption<'a>, Refusal>;

    ghost next_gives = { GivesOption };

    ghost remaining = { λ answers. at_most (length answers) };

    fn next(&mut self) -> Option<Result<NeighborOption<'a>, Refusal>> {
        if self.rest.is_empty() {
            return None;
        }
        match split_block(self.rest) {
            Ok((block, behind)) => {
                self.rest = behind;
                Some(NeighborOption::parse(block))
            }
            Err(refusal) => {
                self.rest = &[];
                Some(Err(refusal))
            }
        }
    }
}

// The whole units of an option at the front and the octets after them, or why the octets don't begin with an option.
fn split_block(octets: &[u8]) -> Result<(&[u8], &[u8]), Refusal>
    ensures begins { IfOk result (λ parts. Passes (block_checks octets.now)) }
    ensures block { IfOk result (λ parts. parts.0.now ≡ take (8 * units_in octets.now) octets.now) }
    ensures behind { IfOk result (λ parts. parts.1.now ≡ drop (8 * units_in octets.now) octets.now) }
    ensures told { IfErr result (Fails (block_checks octets.now)) }
{
    if octets.len() < UNIT {
        return Err(Refusal::Short);
    }
    let units = octets.u8_at(UNITS);
    if units == 0 {
        return Err(Refusal::Zero);
    }
    let len = UNIT * units as usize;
    if octets.len() < len {
        return Err(Refusal::Counted(len));
    }
    Ok(octets.split_at(len))
}
