//! The options of a message of neighbor discovery in turn (RFC 4861 section 4.6).

ghost use Rattle.std.specs.Prelude.{◌≡◌, ◌*◌, length, take, drop, IfOk, IfErr, IsErr};
ghost use Rattle.opt_wire.specs.NdiscOption.{units_in, BeginsWithBlock};
ghost use Rattle.opt_wire.specs.NdiscOptionBlocks.{IsUnread};
ghost use Rattle.opt_wire.specs.NdiscOptionRefusal.{Refuses};
ghost use Rattle.opt_wire.specs.NdiscOptionRepr.{value_of, BeginsWith};

use super::refusal::why_none;
use super::{NdiscOption, Refusal, Repr};
use crate::writing::UNIT;
use std::marker::Model;

/// The options of a message of neighbor discovery in turn, also those of unknown types.
///
/// For a whole option that [`Repr::parse`] refuses, the reason is given, and then the next option: a prefix of more
/// than 4 units, an MTU of other than 1, or a redirected header that holds no whole packet of version 6. Where the
/// octets end before an option does, or an option has fewer units than its type requires, or none, the reason is given
/// once, and then the end. Hosts discard such a message (RFC 4861 section 6.1). The reason is the first check that
/// fails, as in [`Repr::refusal`].
///
/// ```
/// use control_wire::ndiscoption::{NdiscOptions, Refusal, Repr, Type};
///
/// // An MTU of 1500 bytes, and a nonce (RFC 3971 section 5.3.2).
/// let octets = [5, 1, 0, 0, 0, 0, 0x05, 0xdc, 14, 1, 1, 2, 3, 4, 5, 6];
/// let options: Vec<Repr> = NdiscOptions::new(&octets).collect::<Result<_, _>>()?;
/// let nonce = Repr::Unknown { type_: 14, length: 1, data: &[1, 2, 3, 4, 5, 6] };
/// assert_eq!(options, [Repr::Mtu(1500), nonce]);
///
/// // A prefix of one unit.
/// let mut options = NdiscOptions::new(&[3, 1, 64, 0, 0, 0, 0, 0]);
/// assert_eq!(options.next(), Some(Err(Refusal::Length(Type::PrefixInformation, 1))));
/// # Ok::<(), Refusal>(())
/// ```
#[derive(Debug, Clone, Drop)]
pub struct NdiscOptions<'a> {
    // The octets after the options that were given already.
    rest: &'a [u8],
}

impl<'a> Model for NdiscOptions<'a> {
    ghost use Rattle.std.specs.Prelude.{List};
    ghost use Rattle.opt_wire.specs.NdiscOptionBlocks.{Answer};
    ghost use Rattle.opt_wire.specs.private.NdiscOptionBlocks.{blocks_of};

    ghost Value = { List Answer };

    ghost view = { λ it. blocks_of it.rest.now };
}

impl<'a> NdiscOptions<'a> {
    ghost use Rattle.std.specs.Prelude.{List};
    ghost use Rattle.opt_wire.specs.NdiscOptionBlocks.{Answer, Tile};

    /// The options in `octets`, which are those after the fields of a message: `icmpv6::Packet::payload`.
    pub fn new(octets: &'a [u8]) -> NdiscOptions<'a>
        ensures tile { Tile octets.entry.now result }
        ensures unique { (answers : List Answer)
            → Tile octets.entry.now answers → answers ≡ result }
    {
        NdiscOptions { rest: octets }
    }
}

impl<'a> Iterator for NdiscOptions<'a> {
    ghost use Rattle.std.specs.Iterator.{at_most};
    ghost use Rattle.opt_wire.specs.NdiscOptionBlocks.{GivesOption};

    type Item = Result<Repr<'a>, Refusal>;

    ghost next_gives = { GivesOption };

    ghost remaining = { λ answers. at_most (length answers) };

    fn next(&mut self) -> Option<Result<Repr<'a>, Refusal>> {
        if self.rest.is_empty() {
            return None;
        }
        match split_block(self.rest) {
            Ok((block, behind)) => {
                self.rest = behind;
                Some(read_block(block))
            }
            Err(refusal) => {
                self.rest = &[];
                Some(Err(refusal))
            }
        }
    }
}

// The option in a block, or why the block is refused.
#[inline(always)]
fn read_block(block: &[u8]) -> Result<Repr<'_>, Refusal>
    ensures sound { IfOk result (λ repr. BeginsWith block.now (value_of repr)) }
    ensures unread { IsErr result → IsUnread block.now }
    ensures told { IfErr result (λ refusal. Refuses block.now refusal) }
{
    let option = NdiscOption::new_unchecked(block);
    match Repr::parse(&option) {
        Ok(repr) => Ok(repr),
        Err(_) => Err(why_none(&option)),
    }
}

// The block at the front and the octets after it, or why they don't begin with a block.
fn split_block(octets: &[u8]) -> Result<(&[u8], &[u8]), Refusal>
    ensures begins { IfOk result (λ parts. BeginsWithBlock octets.now) }
    ensures block { IfOk result (λ parts. parts.0.now ≡ take (8 * units_in octets.now) octets.now) }
    ensures behind { IfOk result (λ parts. parts.1.now ≡ drop (8 * units_in octets.now) octets.now) }
    ensures refuses { IsErr result → BeginsWithBlock octets.now → ⊥ }
    ensures told { IfErr result (λ refusal. Refuses octets.now refusal) }
{
    let Ok(option) = NdiscOption::new_checked(octets) else {
        return Err(why_none(&NdiscOption::new_unchecked(octets)));
    };
    Ok(octets.split_at(UNIT * option.data_len() as usize))
}
