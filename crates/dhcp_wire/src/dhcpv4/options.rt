//! Options, read in turn and written in turn (RFC 2132 section 2).

ghost use Rattle.std.specs.Prelude.{◌≡◌, ◌≤◌, ◌<◌, ◌+◌, ◌++◌, ◌∷◌, [], ◌↔◌, List, length, drop, IsOk, IsTrue, OnOk};
ghost use Rattle.std.specs.Prelude.{OnErr};
ghost use Rattle.dhcp_wire.specs.Dhcpv4Options.{OptionValue, value_of_option, option, option_text, Options, GivesFirst};
ghost use Rattle.dhcp_wire.specs.private.Dhcpv4OptionsAhead.{list_of};
ghost use Rattle.std.specs.Option.{option_map};
ghost use Rattle.dhcp_wire.specs.Dhcpv4.{slot};
ghost use Rattle.dhcp_wire.specs.private.Parts.{HasNoPadding};

use super::option_data::Data;
use super::option_kinds::{OPT_END, OPT_PAD};
use byteorder::{ByteOrder, LittleEndian};
use std::marker::Model;
use wirebase::{ByteWriter, Error, Result, are_bytes};

// The greatest number of bytes of data: an option counts them in one byte.
const MAX_DATA_LEN: usize = 255;

/// An option: a kind, and at most 255 bytes of data where it is to be written.
///
/// ```
/// use control_wire::dhcpv4::{DhcpOption, OPT_IP_LEASE_TIME, OptionValue};
///
/// let lease = DhcpOption { kind: OPT_IP_LEASE_TIME, data: &[0, 0, 0x0e, 0x10] };
/// assert_eq!(lease.name(), Some("lease-time"));
/// assert_eq!(lease.value(), OptionValue::Seconds(3_600));
/// assert_eq!(lease.to_string(), "lease-time=3600");
/// ```
#[derive(Debug, PartialEq, Eq, Clone, Copy)]
pub struct DhcpOption<'a> {
    /// The kind: one of the `OPT_` constants, or any other number.
    pub kind: u8,
    /// The data, without the kind and the length before them.
    pub data: &'a [u8],
}

/// The options of a packet in turn. Padding is skipped; the end mark, and an option that is cut off, are the end.
#[derive(Debug, Clone, Drop)]
pub struct OptionsIter<'a> {
    // The octets after the options that were given already.
    rest: &'a [u8],
}

impl<'a> Model for OptionsIter<'a> {
    ghost use Rattle.std.specs.Prelude.{List};
    ghost use Rattle.dhcp_wire.specs.Dhcpv4Options.{OptionValue};
    ghost use Rattle.dhcp_wire.specs.private.Dhcpv4OptionsAhead.{list_of};

    ghost Value = { List OptionValue };

    ghost view = { λ it. list_of it.rest.now };
}

impl<'a> OptionsIter<'a> {
    // The options in these octets.
    pub(super) fn new(octets: &'a [u8]) -> OptionsIter<'a>
        ensures options { Options octets.entry.now result }
        ensures unique { (others : List OptionValue) → Options octets.entry.now others
            → others ≡ result }
    {
        OptionsIter { rest: octets }
    }
}

impl<'a> Iterator for OptionsIter<'a> {
    ghost use Rattle.std.specs.Iterator.{at_most};

    type Item = DhcpOption<'a>;

    ghost next_gives = { GivesFirst };

    ghost remaining = { λ options. at_most (length options) };

    #[inline]
    fn next(&mut self) -> Option<DhcpOption<'a>> {
        let [kind, count, rest @ ..] = after_padding(self.rest) else {
            return None;
        };
        if *kind == OPT_END || rest.len() < *count as usize {
            return None;
        }
        let (data, rest) = rest.split_at(*count as usize);
        self.rest = rest;
        Some(DhcpOption { kind: *kind, data })
    }
}

// The octets from the first one on that isn't padding. Most options have no padding before them.
#[inline]
fn after_padding(octets: &[u8]) -> &[u8]
    ensures same { list_of result.now ≡ list_of octets.now }
    ensures none { HasNoPadding result.now }
{
    if octets.is_empty() || octets[0] != OPT_PAD {
        return octets;
    }
    past_words(octets)
}

// `after_padding`, eight octets at a time: the lowest set bit of the little-endian word is in the first octet that
// isn't padding. Never inlined, to keep the option loop small.
#[inline(never)]
fn past_words(octets: &[u8]) -> &[u8]
    ensures same { list_of result.now ≡ list_of octets.now }
    ensures none { HasNoPadding result.now }
{
    let mut rest = octets;
    while rest.len() >= 8 {
        let word = LittleEndian::read_u64(rest);
        if word != 0 {
            are_bytes(rest);
            return &rest[(word.trailing_zeros() / 8) as usize..];
        }
        rest = &rest[8..];
    }
    past_octets(rest)
}

// `after_padding`, octet by octet.
fn past_octets(octets: &[u8]) -> &[u8]
    ensures same { list_of result.now ≡ list_of octets.now }
    ensures none { HasNoPadding result.now }
{
    for (i, kind) in octets.iter().enumerate() {
        if *kind != OPT_PAD {
            return &octets[i..];
        }
    }
    &[]
}

/// Writes options over a slice, one after another from its front on, and then the end mark.
#[derive(Debug, Drop)]
pub struct DhcpOptionWriter<'a> {
    buffer: &'a mut [u8],
    position: usize,
    ghost within: { position ≤ length buffer.now },
}

impl<'a> DhcpOptionWriter<'a> {
    ghost use Rattle.dhcp_wire.specs.Dhcpv4Writer.{settled, free, the_slice, Fits, IsUnchanged};
    ghost use Rattle.dhcp_wire.specs.private.Dhcpv4Writing.{progress, step_slot};

    /// A writer over this slice, all of whose bytes are free.
    pub fn new(buffer: &'a mut [u8]) -> DhcpOptionWriter<'a>
        ensures settled { settled result ≡ [] }
        ensures free { free result ≡ buffer.old }
        ensures same_slice { the_slice result ≡ buffer.entry.ghost_name }
    {
        DhcpOptionWriter {
            buffer,
            position: 0,
        }
    }

    /// The bytes that are written so far: those of the options, and after the end mark those of the whole slice.
    pub fn len(&self) -> usize
        ensures { result ≡ length (settled self.now) }
    {
        self.position
    }

    /// Whether nothing is written so far.
    pub fn is_empty(&self) -> bool
        ensures { IsTrue result ↔ (settled self.now ≡ []) }
    {
        self.position == 0
    }

    /// Writes an option: its kind, the number of bytes of its data, and the data. Refused where the data has more than
    /// 255 bytes, and where fewer bytes are free than the option takes; then nothing changes.
    pub fn emit(&mut self, option: DhcpOption<'_>) -> Result<()>
        ensures accepts { IsOk result
            ↔ Fits (length (free self.old)) (value_of_option option.entry) }
        ensures settled { OnOk result
            (settled self.new ≡ settled self.old ++ option_text (value_of_option option.entry)) }
        ensures free { OnOk result
            (free self.new ≡ drop (2 + length option.entry.data.now) (free self.old)) }
        ensures refused { OnErr result (IsUnchanged self.old self.new) }
        ensures same_slice { the_slice self.new ≡ the_slice self.old }
    {
        self.emit_data(option.kind, option.data)
    }

    /// Writes the end mark. After that no byte is free. Refused where none is; then nothing changes.
    pub fn end(&mut self) -> Result<()>
        ensures accepts { IsOk result ↔ (0 < length (free self.old)) }
        ensures settled { OnOk result
            (settled self.new ≡ settled self.old ++ 255 ∷ drop 1 (free self.old)) }
        ensures free { OnOk result (free self.new ≡ []) }
        ensures refused { OnErr result (IsUnchanged self.old self.new) }
        ensures same_slice { the_slice self.new ≡ the_slice self.old }
    {
        let start = self.position;
        if start == self.buffer.len() {
            return Err(Error);
        }
        write_end(&mut self.buffer[start..]);
        self.position = self.buffer.len();
        Ok(())
    }

    // Writes an option of this kind whose data is a field of a value, where the field is there.
    pub(super) fn put<D: Data>(&mut self, kind: u8, field: Option<D>) -> Result<()>
        ensures step { progress self.new result
            ≡ step_slot (progress self.old (Ok tt)) (slot kind (option_map D.bytes field)) }
        ensures same_slice { the_slice self.new ≡ the_slice self.old }
    {
        match field {
            Some(data) => self.emit_data(kind, data),
            None => Ok(()),
        }
    }

    // Writes an option of this kind with this data; refused as by `emit`.
    fn emit_data<D: Data>(&mut self, kind: u8, body: D) -> Result<()>
        ensures accepts { IsOk result
            ↔ Fits (length (free self.old)) (option kind (D.bytes body)) }
        ensures settled { OnOk result
            (settled self.new ≡ settled self.old ++ option_text (option kind (D.bytes body))) }
        ensures free { OnOk result
            (free self.new ≡ drop (2 + length (D.bytes body)) (free self.old)) }
        ensures refused { OnErr result (IsUnchanged self.old self.new) }
        ensures same_slice { the_slice self.new ≡ the_slice self.old }
    {
        let start = self.position;
        let len = body.len();
        if len > MAX_DATA_LEN || self.buffer.len() - start < 2 + len {
            return Err(Error);
        }
        let end = start + 2 + len;
        write_option(&mut self.buffer[start..end], kind, len as u8, body);
        self.position = end;
        Ok(())
    }
}

// Writes an option over octets of its length.
fn write_option<D: Data>(octets: &mut [u8], kind: u8, len: u8, body: D)
    requires counted { len ≡ length (D.bytes body) }
    requires room { length octets.old ≡ 2 + length (D.bytes body) }
    ensures { octets.new ≡ option_text (option kind (D.bytes body)) }
{
    let mut w = ByteWriter::new(octets);
    w.put_u8(kind);
    w.put_u8(len);
    body.put(&mut w);
}

// Writes the end mark over the first octet.
fn write_end(octets: &mut [u8])
    requires { 1 ≤ length octets.old }
    ensures { octets.new ≡ 255 ∷ drop 1 octets.old }
{
    ByteWriter::new(octets).put_u8(OPT_END);
}
