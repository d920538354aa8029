//! What the octets of an area begin with.

ghost use Rattle.std.specs.Prelude.{◌≡◌, ◌≤◌, length};
ghost use Rattle.wirebase.specs.Answers.{GivesFirst};
ghost use Rattle.dhcp_options.specs.private.Ahead.{HasNoPadding, ahead_of};
ghost use Rattle.dhcp_options.specs.private.Fronts.{IsFront, answers_in, placed_of};

use crate::parts::{Area, Refusal};
use dhcp_wire::dhcpv4::{DhcpOption, OPT_END, OPT_PAD};
use std::result;

// An option, and the area in which it stands.
#[derive(Clone, Copy)]
pub(crate) struct Placed<'a> {
    pub(crate) area: Area,
    pub(crate) option: DhcpOption<'a>,
}

// What stands behind the padding that octets begin with.
#[derive(Clone, Copy)]
enum Front<'a> {
    // An option, and the octets after it.
    Whole(DhcpOption<'a>, &'a [u8]),
    // An option of this kind that is cut: the octets end before its length or within its data.
    Cut(u8),
    // The end mark, or the end of the octets.
    End,
}

// What the octets of an area give first, and the octets after that.
pub(crate) fn next_in(
    area: Area,
    octets: &[u8],
) -> (Option<result::Result<Placed<'_>, Refusal>>, &[u8])
    ensures steps { GivesFirst placed_of (answers_in area octets.now) result.0
        (answers_in area result.1.now) }
    ensures fewer { length result.1.now ≤ length octets.now }
{
    match read_front(octets) {
        Front::Whole(option, rest) => (Some(Ok(Placed { area, option })), rest),
        Front::Cut(kind) => (Some(Err(Refusal { area, kind })), &[]),
        Front::End => (None, &[]),
    }
}

// What octets begin with.
fn read_front(octets: &[u8]) -> Front<'_>
    ensures { IsFront octets.now result }
{
    let Some((kind, behind)) = past_padding(octets).split_first() else {
        return Front::End;
    };
    if *kind == OPT_END {
        return Front::End;
    }
    let Some((count, body)) = behind.split_first() else {
        return Front::Cut(*kind);
    };
    let Some((data, rest)) = body.split_at_checked(*count as usize) else {
        return Front::Cut(*kind);
    };
    Front::Whole(DhcpOption { kind: *kind, data }, rest)
}

// The octets from the first one on that isn't padding.
fn past_padding(octets: &[u8]) -> &[u8]
    ensures same { ahead_of result.now ≡ ahead_of octets.now }
    ensures none { HasNoPadding result.now }
    ensures fewer { length result.now ≤ length octets.now }
{
    for (i, kind) in octets.iter().enumerate() {
        if *kind != OPT_PAD {
            return &octets[i..];
        }
    }
    &[]
}
