//! Brief lines of IGMP (RFC 2236, RFC 3376) and of multicast listener discovery (RFC 2710, RFC 3810).

#![tactic(auto, using(wirebase::proofs::Sinks::puts, wirebase::proofs::Sinks::put_none), // texts in turn, or none
unfolding(crate::specs::Words::keyed, crate::specs::Groups::named_text, // what they say
crate::specs::Groups::type_word, crate::specs::Groups::version_text))]

ghost use Rattle.std.specs.Prelude.{◌≡◌, ◌≤◌, ◌++◌, flat_map, length};
ghost use Rattle.wirebase.specs.Sink.{PutsText};
ghost use Rattle.packet_fields.specs.Parts.{parts};
ghost use Rattle.packet_fields.specs.Texts.{address_text};
ghost use Rattle.neighbor_fields.specs.Records.{record_len};
ghost use Rattle.message_brief.specs.Groups.{are_whole, body4_text, body6_text, group4_text, group6_text, group_text};
ghost use Rattle.message_brief.specs.Groups.{igmp_text, is_whole4, is_whole6, is_whole_body4, is_whole_body6};
ghost use Rattle.message_brief.specs.Groups.{is_whole_query4, is_whole_query6, is_whole_record, is_whole_report, mld_text};
ghost use Rattle.message_brief.specs.Groups.{named_text, old6_text, plain_text, query4_text, query6_text, record_text};
ghost use Rattle.message_brief.specs.Groups.{report6_text, report_text, type_word, version_text};

use crate::icmp::put_type6;
use crate::words::{put_more, put_word};
use neighbor_fields::igmp::type_name;
use neighbor_fields::records::{counted_len, label_of, record_len};
use packet_fields::label::Label;
use packet_fields::texts::Address;
use packet_fields::value::Text;
use wirebase::Octets;
use wirebase::text::{Sink, put_number};

// The types of IGMP messages.
const QUERY4: u8 = 0x11;

const REPORT4: u8 = 0x22;

// The types of messages of multicast listeners.
const QUERY6: u8 = 130;

const REPORT6: u8 = 143;

// The most records that are told.
const MOST_RECORDS: usize = 3;

// The fields of messages and of records (RFC 2236 section 2, RFC 3376 section 4, RFC 3810 section 5).
mod place {
    use wirebase::Field;

    pub const TYPE: usize = 0;

    pub const CODE: usize = 1;

    pub const HEAD_LEN: usize = 4;

    pub const NUM_RECORDS: Field = 6..8;

    pub const RECORDS: usize = 8;

    pub const GROUP4: Field = 4..8;

    pub const GROUP4_END: usize = 8;

    pub const NUM_SRCS4: Field = 10..12;

    pub const SOURCES4: usize = 12;

    pub const GROUP6: Field = 8..24;

    pub const GROUP6_END: usize = 24;

    pub const NUM_SRCS6: Field = 26..28;

    pub const SOURCES6: usize = 28;

    pub const RECORD_SRCS: Field = 2..4;

    pub const RECORD_GROUP: usize = 4;
}

/// Puts what an IGMP message says.
pub(crate) fn put_igmp<O, S: Sink<O>>(output: &mut O, octets: &[u8]) -> Result<(), S::Error>
    ensures { PutsText S.took output.old (igmp_text octets.now) result output.new }
{
    if octets.len() < place::GROUP4_END {
        return Ok(());
    }
    put_type::<O, S>(output, octets[place::TYPE])?;
    put_body4::<O, S>(output, octets)
}

fn put_type<O, S: Sink<O>>(output: &mut O, type_: u8) -> Result<(), S::Error>
    ensures { PutsText S.took output.old (type_word type_) result output.new }
{
    let label = Label {
        name: type_name(type_),
        kind: "type",
        number: type_,
    };
    put_word::<O, S, Label<'_>>(output, label)
}

fn put_body4<O, S: Sink<O>>(output: &mut O, octets: &[u8]) -> Result<(), S::Error>
    requires { 8 ≤ length octets.now }
    ensures { PutsText S.took output.old (body4_text octets.now) result output.new }
{
    match octets[place::TYPE] {
        QUERY4 => put_query4::<O, S>(output, octets),
        0x12 | 0x16 | 0x17 => put_group4::<O, S>(output, octets),
        REPORT4 => put_report::<O, S>(output, 4, octets),
        _ => Ok(()),
    }
}

// Puts the version of a query, and its group.
fn put_query4<O, S: Sink<O>>(output: &mut O, octets: &[u8]) -> Result<(), S::Error>
    requires { 8 ≤ length octets.now }
    ensures { PutsText S.took output.old (query4_text octets.now) result output.new }
{
    if octets.len() == place::GROUP4_END {
        let version = if octets[place::CODE] == 0 { 1 } else { 2 };
        put_version::<O, S>(output, version)?;
        return put_group4::<O, S>(output, octets);
    }
    if octets.len() < place::SOURCES4 {
        return Ok(());
    }
    put_version::<O, S>(output, 3)?;
    put_group4::<O, S>(output, octets)
}

fn put_version<O, S: Sink<O>>(output: &mut O, version: u64) -> Result<(), S::Error>
    ensures { PutsText S.took output.old (version_text version) result output.new }
{
    S::put_str(output, "_v")?;
    put_number::<O, S>(output, version)
}

fn put_group4<O, S: Sink<O>>(output: &mut O, octets: &[u8]) -> Result<(), S::Error>
    requires { 8 ≤ length octets.now }
    ensures { PutsText S.took output.old (group4_text octets.now) result output.new }
{
    put_word::<O, S, Address<'_>>(output, Address(octets.field(place::GROUP4)))
}

/// Whether all is there that such a line tells of an IGMP message.
pub(crate) fn is_whole4(octets: &[u8]) -> bool
    ensures { result ≡ is_whole4 octets.now }
{
    octets.len() >= place::GROUP4_END && is_whole_body4(octets)
}

fn is_whole_body4(octets: &[u8]) -> bool
    requires { 8 ≤ length octets.now }
    ensures { result ≡ is_whole_body4 octets.now }
{
    match octets[place::TYPE] {
        QUERY4 => is_whole_query4(octets),
        REPORT4 => is_whole_report(4, octets),
        _ => true,
    }
}

fn is_whole_query4(octets: &[u8]) -> bool
    requires { 8 ≤ length octets.now }
    ensures { result ≡ is_whole_query4 octets.now }
{
    if octets.len() == place::GROUP4_END {
        return true;
    }
    octets.len() >= place::SOURCES4
        && octets.len() >= place::SOURCES4 + 4 * octets.u16_at(place::NUM_SRCS4) as usize
}

/// Puts what a message of multicast listener discovery says.
pub(crate) fn put_mld<O, S: Sink<O>>(output: &mut O, octets: &[u8]) -> Result<(), S::Error>
    ensures { PutsText S.took output.old (mld_text octets.now) result output.new }
{
    if octets.len() < place::HEAD_LEN {
        return Ok(());
    }
    put_type6::<O, S>(output, octets[place::TYPE])?;
    put_body6::<O, S>(output, octets)
}

fn put_body6<O, S: Sink<O>>(output: &mut O, octets: &[u8]) -> Result<(), S::Error>
    requires { 4 ≤ length octets.now }
    ensures { PutsText S.took output.old (body6_text octets.now) result output.new }
{
    match octets[place::TYPE] {
        QUERY6 => put_query6::<O, S>(output, octets),
        REPORT6 => put_report6::<O, S>(output, octets),
        _ => put_old6::<O, S>(output, octets),
    }
}

fn put_query6<O, S: Sink<O>>(output: &mut O, octets: &[u8]) -> Result<(), S::Error>
    ensures { PutsText S.took output.old (query6_text octets.now) result output.new }
{
    if octets.len() == place::GROUP6_END {
        put_version::<O, S>(output, 1)?;
        return put_group6::<O, S>(output, octets);
    }
    if octets.len() < place::SOURCES6 {
        return Ok(());
    }
    put_version::<O, S>(output, 2)?;
    put_group6::<O, S>(output, octets)
}

// Puts the group of a report or done of version 1.
fn put_old6<O, S: Sink<O>>(output: &mut O, octets: &[u8]) -> Result<(), S::Error>
    ensures { PutsText S.took output.old (old6_text octets.now) result output.new }
{
    if octets.len() < place::GROUP6_END {
        return Ok(());
    }
    put_group6::<O, S>(output, octets)
}

fn put_group6<O, S: Sink<O>>(output: &mut O, octets: &[u8]) -> Result<(), S::Error>
    requires { 24 ≤ length octets.now }
    ensures { PutsText S.took output.old (group6_text octets.now) result output.new }
{
    put_word::<O, S, Address<'_>>(output, Address(octets.field(place::GROUP6)))
}

fn put_report6<O, S: Sink<O>>(output: &mut O, octets: &[u8]) -> Result<(), S::Error>
    ensures { PutsText S.took output.old (report6_text octets.now) result output.new }
{
    if octets.len() < place::RECORDS {
        return Ok(());
    }
    put_report::<O, S>(output, 16, octets)
}

/// Whether all is there that such a line tells of a message of multicast listener discovery.
pub(crate) fn is_whole6(octets: &[u8]) -> bool
    ensures { result ≡ is_whole6 octets.now }
{
    octets.len() >= place::HEAD_LEN && is_whole_body6(octets)
}

fn is_whole_body6(octets: &[u8]) -> bool
    requires { 4 ≤ length octets.now }
    ensures { result ≡ is_whole_body6 octets.now }
{
    match octets[place::TYPE] {
        QUERY6 => is_whole_query6(octets),
        REPORT6 => octets.len() >= place::RECORDS && is_whole_report(16, octets),
        _ => octets.len() >= place::GROUP6_END,
    }
}

fn is_whole_query6(octets: &[u8]) -> bool
    ensures { result ≡ is_whole_query6 octets.now }
{
    if octets.len() == place::GROUP6_END {
        return true;
    }
    octets.len() >= place::SOURCES6
        && octets.len() >= place::SOURCES6 + 16 * octets.u16_at(place::NUM_SRCS6) as usize
}

// Puts the first records of a report, and how many others it counts.
#[tactic(auto, using(wirebase::proofs::Sinks::puts), unfolding(crate::specs::Groups::report_text))]
fn put_report<O, S: Sink<O>>(output: &mut O, width: usize, octets: &[u8]) -> Result<(), S::Error>
    requires room { 8 ≤ length octets.now }
    requires small { width ≤ 16 }
    ensures { PutsText S.took output.old (report_text width octets.now) result output.new }
{
    let count = octets.u16_at(place::NUM_RECORDS) as usize;
    let (_, records) = octets.split_at(place::RECORDS);
    put_records::<O, S>(output, width, count.min(MOST_RECORDS), records)?;
    put_more::<O, S>(output, count.saturating_sub(MOST_RECORDS) as u64)
}

#[tactic(auto, unfolding(crate::specs::Groups::is_whole_report))]
fn is_whole_report(width: usize, octets: &[u8]) -> bool
    requires room { 8 ≤ length octets.now }
    requires small { width ≤ 16 }
    ensures { result ≡ is_whole_report width octets.now }
{
    let count = octets.u16_at(place::NUM_RECORDS) as usize;
    let (_, records) = octets.split_at(place::RECORDS);
    are_whole(width, count.min(MOST_RECORDS), records)
}

// Puts so many records, or as many as there are.
fn put_records<O, S: Sink<O>>(
    output: &mut O,
    width: usize,
    count: usize,
    octets: &[u8],
) -> Result<(), S::Error>
    requires { width ≤ 16 }
    ensures { PutsText S.took output.old
        (flat_map (record_text width) (parts (record_len width) count octets.now)) result output.new }
{
    let mut left = octets;
    let mut more = count;
    while more > 0 && !left.is_empty() {
        let (record, others) = left.split_at(record_len(width, left));
        put_record::<O, S>(output, width, record)?;
        left = others;
        more -= 1;
    }
    Ok(())
}

// Whether so many records are there, none of them cut.
fn are_whole(width: usize, count: usize, octets: &[u8]) -> bool
    requires { width ≤ 16 }
    ensures { result ≡ are_whole width count octets.now }
{
    let mut left = octets;
    let mut more = count;
    while more > 0 && !left.is_empty() {
        let (record, others) = left.split_at(record_len(width, left));
        if !is_whole_record(width, record) {
            return false;
        }
        left = others;
        more -= 1;
    }
    more == 0
}

// Puts a record, where it is not cut.
fn put_record<O, S: Sink<O>>(output: &mut O, width: usize, record: &[u8]) -> Result<(), S::Error>
    requires some { 1 ≤ length «record».now }
    requires small { width ≤ 16 }
    ensures { PutsText S.took output.old (record_text width «record».now) result output.new }
{
    if !is_whole_record(width, record) {
        return Ok(());
    }
    let sources = record.u16_at(place::RECORD_SRCS);
    let group = record.range(place::RECORD_GROUP, place::RECORD_GROUP + width);
    put_group::<O, S>(output, record[place::TYPE], sources, group)
}

fn is_whole_record(width: usize, record: &[u8]) -> bool
    requires { width ≤ 16 }
    ensures { result ≡ is_whole_record width «record».now }
{
    record.len() >= place::RECORD_GROUP && record.len() == counted_len(width, record)
}

// Puts a group, with what is said of it.
fn put_group<O, S: Sink<O>>(
    output: &mut O,
    type_: u8,
    sources: u16,
    group: &[u8],
) -> Result<(), S::Error>
    ensures { PutsText S.took output.old (group_text type_ sources group.now) result output.new }
{
    if sources == 0 {
        return put_plain::<O, S>(output, type_, group);
    }
    put_named::<O, S>(output, type_, group)
}

// Puts a group without sources: whether it is joined or left, or else what is said of it.
fn put_plain<O, S: Sink<O>>(output: &mut O, type_: u8, group: &[u8]) -> Result<(), S::Error>
    ensures { PutsText S.took output.old (plain_text type_ group.now) result output.new }
{
    match type_ {
        2 | 4 => put_signed::<O, S>(output, " +", group),
        1 | 3 => put_signed::<O, S>(output, " -", group),
        _ => put_named::<O, S>(output, type_, group),
    }
}

fn put_signed<O, S: Sink<O>>(output: &mut O, sign: &str, group: &[u8]) -> Result<(), S::Error>
    ensures { PutsText S.took output.old (sign.now ++ address_text group.now) result output.new }
{
    S::put_str(output, sign)?;
    Address(group).put_into::<O, S>(output)
}

// Puts the name of a type of record, and a group.
fn put_named<O, S: Sink<O>>(output: &mut O, type_: u8, group: &[u8]) -> Result<(), S::Error>
    ensures { PutsText S.took output.old (named_text type_ group.now) result output.new }
{
    S::put_str(output, " ")?;
    label_of(type_).put_into::<O, S>(output)?;
    S::put_str(output, "=")?;
    Address(group).put_into::<O, S>(output)
}
