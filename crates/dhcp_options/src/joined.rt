//! The options that stand in several parts, joined.

ghost use Rattle.std.specs.Prelude.{◌≡◌, ◌≤◌, ◌<◌, ◌^◌, ◌↔◌, IfOk, IsOk, OnErr, OnOk, length};
ghost use Rattle.std.specs.Option.{option_map};
ghost use Rattle.wirebase.specs.Bytes.{over};
ghost use Rattle.dhcp_wire.specs.Dhcpv4Options.{option, value_of_option};
ghost use Rattle.dhcp_options.specs.Joined.{GivesOctets, copied, joined, octets_of, only, together};
ghost use Rattle.dhcp_options.specs.private.Areas.{answers_left};
ghost use Rattle.dhcp_options.specs.private.Marks.{octets_among};

use crate::areas::Areas;
use crate::parts::Parts;
use dhcp_wire::dhcpv4::DhcpOption;
use std::marker::Model;
use wirebase::{ByteWriter, Error, Result};

/// The octets of the parts of one kind in turn.
#[derive(Debug, Clone, Drop)]
pub struct KindParts<'a> {
    areas: Areas<'a>,
    kind: u8,
}

impl<'a> Model for KindParts<'a> {
    ghost use Rattle.std.specs.Prelude.{List, ℕ};
    ghost use Rattle.dhcp_options.specs.private.Areas.{answers_left};
    ghost use Rattle.dhcp_options.specs.private.Marks.{octets_among};

    ghost Value = { List (List ℕ) };

    ghost view = { λ it. octets_among it.kind (answers_left it.areas) };
}

impl<'a> Iterator for KindParts<'a> {
    ghost use Rattle.std.specs.Iterator.{at_most};

    type Item = &'a [u8];

    ghost next_gives = { GivesOctets };

    ghost remaining = { λ parts. at_most (length parts) };

    fn next(&mut self) -> Option<&'a [u8]> {
        while let Some(answer) = self.areas.next_answer() {
            match answer {
                Ok(placed) if placed.option.kind == self.kind => return Some(placed.option.data),
                _ => {}
            }
        }
        None
    }
}

impl<'a> Parts<'a> {
    /// The octets of the parts of this kind that are still to come, in turn.
    pub fn of_kind(&self, kind: u8) -> KindParts<'a>
        ensures { result ≡ octets_of kind self.now }
    {
        parts_in(self.areas, kind)
    }

    /// The bytes of the parts of this kind that are still to come, joined; 0 where there is none.
    pub fn joined_len(&self, kind: u8) -> usize
        ensures { result ≡ length (joined kind self.now) }
    {
        let mut len = 0;
        for octets in parts_in(self.areas, kind) {
            len += octets.len();
        }
        len
    }

    /// Writes the octets of the parts of this kind that are still to come, one after another, over the front of the
    /// buffer, and returns how many they are (RFC 3396). Refused where the buffer has fewer bytes than
    /// `joined_len`; then nothing changes.
    pub fn join(&self, kind: u8, buffer: &mut [u8]) -> Result<usize>
        ensures accepts { IsOk result ↔ (length (joined kind self.now) ≤ length buffer.old) }
        ensures len { IfOk result (λ len. len ≡ length (joined kind self.now)) }
        ensures joins { OnOk result (buffer.new ≡ over buffer.old (joined kind self.now)) }
        ensures refused { OnErr result (buffer.new ≡ buffer.old) }
    {
        let len = self.joined_len(kind);
        if buffer.len() < len {
            return Err(Error);
        }
        self.write_joined(kind, buffer);
        Ok(len)
    }

    // Writes the octets of the parts of a kind over the front of a buffer that has room for them.
    fn write_joined(&self, kind: u8, buffer: &mut [u8])
        requires { length (joined kind self.now) ≤ length buffer.old }
        ensures { buffer.new ≡ over buffer.old (joined kind self.now) }
    {
        let mut w = ByteWriter::new(buffer);
        for octets in self.of_kind(kind) {
            w.put_bytes(octets);
        }
    }

    /// The option of this kind, joined from its parts that are still to come. Where it has one part, the data is lent
    /// from the packet; else it is joined in the buffer. Refused where several parts have more bytes, joined, than the
    /// buffer; one with as many bytes as the packet is always enough. Where there is no part, the data is empty.
    pub fn option(&self, kind: u8, buffer: &'a mut [u8]) -> Result<DhcpOption<'a>>
        ensures accepts { IsOk result ↔ (copied kind self.now ≤ length buffer.old) }
        ensures value { IfOk result (λ made. value_of_option made ≡ option kind (joined kind self.now)) }
    {
        if let Some(data) = self.only_part(kind) {
            return Ok(DhcpOption { kind, data });
        }
        let len = self.join(kind, buffer)?;
        Ok(DhcpOption {
            kind,
            data: &buffer[..len],
        })
    }

    // The octets of the one part of a kind. None where there is no part, or more than one.
    fn only_part(&self, kind: u8) -> Option<&'a [u8]>
        ensures { option_map (λ octets. octets.now) result ≡ only (octets_of kind self.now) }
    {
        let mut parts = self.of_kind(kind);
        let first = parts.next()?;
        match parts.next() {
            Some(_) => None,
            None => Some(first),
        }
    }
}

// The parts of a kind in areas.
fn parts_in<'a>(areas: Areas<'a>, kind: u8) -> KindParts<'a>
    ensures parts { result ≡ octets_among kind (answers_left areas.entry) }
    ensures fits { length (together result) < 2 ^ 64 }
{
    KindParts { areas, kind }
}
