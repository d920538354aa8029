//! The areas of a packet, with the octets that are still to be read.

ghost use Rattle.std.specs.Prelude.{◌+◌, ◌<◌, ◌≡◌, ◌≤◌, ◌^◌, length};
ghost use Rattle.wirebase.specs.Bytes.{Reaches};
ghost use Rattle.dhcp_wire.specs.Dhcpv4Packet.{magic_field};
ghost use Rattle.dhcp_options.specs.private.Fields.{file_if, sname_if};

use crate::front::{Placed, next_in};
use crate::overload::Overload;
use crate::parts::{Area, Refusal};
use std::result;

// The fields that hold options (RFC 2131 section 2); their table is in specs/Areas.antt.
mod field {
    pub const SNAME: usize = 44;

    pub const FILE: usize = 108;

    pub const MAGIC_NUMBER: usize = 236;

    pub const OPTIONS: usize = 240;
}

// The octets that are still to be read in each area; none in an area that holds no options.
#[derive(Debug, Clone, Copy)]
pub(crate) struct Areas<'a> {
    pub(crate) options: &'a [u8],
    pub(crate) file: &'a [u8],
    pub(crate) sname: &'a [u8],
    ghost short: { length options.now + length file.now + length sname.now < 2 ^ 64 },
}

impl<'a> Areas<'a> {
    ghost use Rattle.wirebase.specs.Answers.{GivesFirst};
    ghost use Rattle.wirebase.specs.Bytes.{IsBytes, Reaches};
    ghost use Rattle.dhcp_wire.specs.Dhcpv4Packet.{magic_field};
    ghost use Rattle.dhcp_options.specs.private.Areas.{HasAreas, answers_left};
    ghost use Rattle.dhcp_options.specs.private.Fronts.{placed_of};

    // The areas of a packet with this overload.
    pub(crate) fn new(octets: &'a [u8], overload: Option<Overload>) -> Areas<'a>
        requires { Reaches magic_field octets.now }
        ensures areas { HasAreas overload octets.entry.now result }
        ensures bytes { IsBytes octets.entry.now }
    {
        Areas {
            options: &octets[field::OPTIONS..],
            file: file_of(octets, overload),
            sname: sname_of(octets, overload),
        }
    }

    // The next option, or the refusal of an option that is cut, which ends its area.
    pub(crate) fn next_answer(&mut self) -> Option<result::Result<Placed<'a>, Refusal>>
        ensures { GivesFirst placed_of (answers_left self.old) result (answers_left self.new) }
    {
        let (answer, rest) = next_in(Area::Options, self.options);
        self.options = rest;
        if let Some(answer) = answer {
            return Some(answer);
        }
        let (answer, rest) = next_in(Area::File, self.file);
        self.file = rest;
        if let Some(answer) = answer {
            return Some(answer);
        }
        let (answer, rest) = next_in(Area::Sname, self.sname);
        self.sname = rest;
        answer
    }
}

// The octets of `file`; none where it holds no options.
#[tactic(auto, unfolding(wirebase::specs::Bytes::part))]
fn file_of(octets: &[u8], overload: Option<Overload>) -> &[u8]
    requires { Reaches magic_field octets.now }
    ensures value { result.now ≡ file_if overload octets.now }
    ensures len { length result.now ≤ 128 }
{
    match overload {
        Some(Overload::File | Overload::FileAndSname) => &octets[field::FILE..field::MAGIC_NUMBER],
        Some(Overload::Sname) | None => &[],
    }
}

// The octets of `sname`; none where it holds no options.
#[tactic(auto, unfolding(wirebase::specs::Bytes::part))]
fn sname_of(octets: &[u8], overload: Option<Overload>) -> &[u8]
    requires { Reaches magic_field octets.now }
    ensures value { result.now ≡ sname_if overload octets.now }
    ensures len { length result.now ≤ 64 }
{
    match overload {
        Some(Overload::Sname | Overload::FileAndSname) => &octets[field::SNAME..field::FILE],
        Some(Overload::File) | None => &[],
    }
}
