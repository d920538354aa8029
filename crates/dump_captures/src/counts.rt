//! Packets counted by the number that a registry gives what they are of.

#![tactic(auto, using(packet_fields::proofs::Printing::gained, packet_fields::proofs::Printing::gains_both))]

ghost use Rattle.std.specs.Prelude.{◌≡◌, ◌<◌, ◌++◌, IfSome, IsNone, OnOk, codes, decimal, length, false, true, take};
ghost use Rattle.std.specs.Prelude.{get_or};
ghost use Rattle.std.specs.Option.{option_map};
ghost use Rattle.packet_fields.specs.Output.{Gains};
ghost use Rattle.wirebase.specs.ByteWriter.{be16};
ghost use Rattle.wirebase.specs.Hexadecimal.{octets_text};
ghost use Rattle.dump_captures.specs.Counts.{category_text, name_or, number_of, registry_place};
ghost use Rattle.dump_captures.specs.Counts.{counts_of, has_category, is_of, no_counts, one_more_in, with_one_more};
ghost use Rattle.dump_captures.specs.Numbers.{changed_at};
ghost use Rattle.dump_captures.specs.private.Parts.{no_count};

use arrayvec::ArrayVec;
use frame_wire::names::{ether_type_name, link_name, protocol_name};
use packet_fields::Form;
use packet_fields::output::ToWriter;
use packet_fields::value::Value;
use std::io;
use std::io::Write;
use wirebase::text::put_octets;

/// The number of categories that are counted each by itself.
pub const MOST_CATEGORIES: usize = 16;

/// What packets are of, by the number that a registry gives it.
#[derive(Debug, PartialEq, Eq, Clone, Copy)]
pub enum Category {
    /// A link, by its type in pcap and pcapng.
    Link(u16),
    /// A protocol over IP.
    Protocol(u8),
    /// A protocol over Ethernet, by its EtherType.
    EtherType(u16),
    /// A protocol over another link, by the number that it has there.
    Network(u16),
}

impl Default for Category {
    fn default() -> Category {
        Category::Link(0)
    }
}

impl Category {
    /// Writes the name that the registry gives it, or its number.
    pub fn write_name<W: Write>(self, output: &mut W) -> io::Result<()>
        ensures { OnOk result (Gains (W.contents output.old) (W.contents output.new) (category_text self)) }
    {
        match self {
            Category::Link(number) => write_or(output, link_name(number), "", number),
            Category::Protocol(number) => {
                write_or(output, protocol_name(number), "protocol ", number as u16)
            }
            Category::EtherType(number) => match ether_type_name(number) {
                Some(name) => output.write_all(name.as_bytes()),
                None => write_ether_type(output, number),
            },
            Category::Network(number) => write_or(output, None, "network ", number),
        }
    }

    // Whether it is that one.
    fn is(self, other: Category) -> bool
        ensures { result ≡ is_of self other }
    {
        self.place() == other.place() && self.number() == other.number()
    }

    // The place of its registry among them.
    fn place(self) -> u8
        ensures { result ≡ registry_place self }
    {
        match self {
            Category::Link(_) => 0,
            Category::Protocol(_) => 1,
            Category::EtherType(_) => 2,
            Category::Network(_) => 3,
        }
    }

    // Its number there.
    fn number(self) -> u16
        ensures { result ≡ number_of self }
    {
        match self {
            Category::Link(number) | Category::EtherType(number) | Category::Network(number) =>
                number,
            Category::Protocol(number) => number as u16,
        }
    }
}

/// The packets of one category.
#[derive(Debug, PartialEq, Eq, Clone, Copy, Default)]
pub struct Count {
    /// What they are of.
    pub category: Category,
    /// Their number.
    pub packets: u64,
}

/// Packets by their categories. Each number stops at the greatest of 64 bits.
#[derive(Drop)]
pub struct Counts {
    /// All packets.
    pub all: u64,
    /// Those of the first 16 categories, in the order in which these came.
    pub rows: ArrayVec<Count, MOST_CATEGORIES>,
    /// Those of further categories.
    pub further: u64,
}

// Writes a name, or where there is none a number after a word.
fn write_or<W: Write>(output: &mut W, name: Option<&str>, word: &str, number: u16) -> io::Result<()>
    ensures { OnOk result (Gains (W.contents output.old) (W.contents output.new)
        (name_or (word.now ++ decimal number) (option_map (λ name. name.now) name.entry))) }
{
    match name {
        Some(name) => output.write_all(name.as_bytes()),
        None => {
            output.write_all(word.as_bytes())?;
            number.put(output, Form::Lines)
        }
    }
}

// Writes an EtherType by its four digits.
fn write_ether_type<W: Write>(output: &mut W, number: u16) -> io::Result<()>
    ensures { OnOk result (Gains (W.contents output.old) (W.contents output.new)
        (codes "ethertype 0x" ++ octets_text (be16 number))) }
{
    output.write_all(b"ethertype 0x")?;
    put_octets::<_, ToWriter>(output, &number.to_be_bytes())
}

impl Counts {
    /// No packets.
    pub fn new() -> Counts
        ensures { counts_of result ≡ no_counts }
    {
        Counts {
            all: 0,
            rows: ArrayVec::new(),
            further: 0,
        }
    }

    /// Counts one packet more.
    pub fn add(&mut self, category: Category)
        ensures { counts_of self.new ≡ with_one_more category (counts_of self.old) }
    {
        self.all = self.all.saturating_add(1);
        if let Some(place) = place_of(self.rows.as_slice(), category) {
            add_at(self.rows.as_mut_slice(), place);
            return;
        }
        if self.rows.is_full() {
            self.further = self.further.saturating_add(1);
            return;
        }
        self.rows.push(Count {
            category,
            packets: 1,
        });
    }
}

// Counts a packet more in the row at an index.
fn add_at(rows: &mut [Count], place: usize)
    requires { place < length rows.old }
    ensures { rows.new ≡ changed_at place one_more_in rows.old }
{
    rows[place].packets = rows[place].packets.saturating_add(1);
}

// The index of the first of these rows that is of this category.
fn place_of(rows: &[Count], category: Category) -> Option<usize>
    ensures found { IfSome result (λ place. (place < length rows.now)
        × (is_of (get_or rows.now place no_count).category category ≡ true)
        × (has_category category (take place rows.now) ≡ false)) }
    ensures missing { IsNone result → has_category category rows.now ≡ false }
{
    for (place, row) in rows.iter().enumerate() {
        if row.category.is(category) {
            return Some(place);
        }
    }
    None
}
