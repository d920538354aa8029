//! Messages about groups printed, each in one line.

ghost use Rattle.std.specs.Prelude.{◌++◌, Some, codes, flat_map};
ghost use Rattle.std.specs.Fmt.{WritesOnOk};
ghost use Rattle.group_wire.specs.Display.{family_display, sources_display, record_display, records_display};
ghost use Rattle.group_wire.specs.Display.{content_display, message_display, refusal_display};
ghost use Rattle.group_wire.specs.Family.{width};
ghost use Rattle.group_wire.specs.Membership.{value_of, query_value};
ghost use Rattle.group_wire.specs.Record.{value_of as record_value};
ghost use Rattle.group_wire.specs.Sources.{octets_in};

use crate::address::Address;
use crate::family::Family;
use crate::membership::{Membership, Message};
use crate::query::Query;
use crate::record::Record;
use crate::records::{Records, RecordsIterator};
use crate::refusal::Refusal;
use crate::sources::{Sources, SourcesIterator};
use crate::writer::Full;
use std::fmt;
use wirebase::text::HexOrDash;

/// The name of the protocol.
impl fmt::Display for Family {
    ghost output = { λ family. Some (family_display family) };

    fn fmt<W: fmt::Write>(&self, f: &mut fmt::Formatter<W>) -> fmt::Result {
        let name = match self {
            Family::Igmp => "IGMP",
            Family::Mld => "MLD",
        };
        f.write_str(name)
    }
}

/// The reason as a phrase.
impl fmt::Display for Refusal {
    ghost output = { λ refusal. Some (refusal_display refusal) };

    fn fmt<W: fmt::Write>(&self, f: &mut fmt::Formatter<W>) -> fmt::Result {
        match self {
            Refusal::Short => f.write_str("fewer than 8 bytes"),
            Refusal::Checksum => f.write_str("wrong checksum"),
            Refusal::UnknownType(number) => write!(f, "type {number} is not read"),
            Refusal::Length => f.write_str("a length that no message of this type has"),
            Refusal::Cut => f.write_str("more sources or records counted than there are"),
        }
    }
}

/// The reason as a phrase.
impl fmt::Display for Full {
    ghost output = { λ it. Some (codes "no room for the record") };

    fn fmt<W: fmt::Write>(&self, f: &mut fmt::Formatter<W>) -> fmt::Result {
        f.write_str("no room for the record")
    }
}

/// The sources with commas between them, and a dash in the place of none.
impl<A: Address> fmt::Display for Sources<'_, A> {
    ghost output = { λ sources. Some (sources_display A.display (width A.family) (octets_in sources)) };

    fn fmt<W: fmt::Write>(&self, f: &mut fmt::Formatter<W>) -> fmt::Result {
        let mut sources = self.iter();
        match sources.next() {
            Some(first) => first.show(f)?,
            None => return f.write_str("-"),
        }
        fmt_more_sources(f, sources)
    }
}

// Prints each source after a comma.
fn fmt_more_sources<A: Address, W: fmt::Write>(
    f: &mut fmt::Formatter<W>,
    sources: SourcesIterator<'_, A>,
) -> fmt::Result
    ensures { WritesOnOk W.write_str_gives f.old result
        (flat_map (λ one. codes "," ++ A.display one) sources.entry) f.new }
{
    for source in sources {
        fmt_next_source(f, source)?;
    }
    Ok(())
}

// Prints a source after a comma.
fn fmt_next_source<A: Address, W: fmt::Write>(f: &mut fmt::Formatter<W>, source: A) -> fmt::Result
    ensures { WritesOnOk W.write_str_gives f.old result
        (codes "," ++ A.display (A.bytes source)) f.new }
{
    f.write_str(",")?;
    source.show(f)
}

/// The record with its fields, as `MODE_IS_EXCLUDE group=224.0.0.251 sources=- auxiliary=-`.
impl<A: Address> fmt::Display for Record<'_, A> {
    ghost output = { λ it. Some (record_display A.display (width A.family) (record_value A.bytes it)) };

    fn fmt<W: fmt::Write>(&self, f: &mut fmt::Formatter<W>) -> fmt::Result {
        let record_type = self.record_type;
        write!(f, "{record_type} group=")?;
        self.group.show(f)?;
        let sources = self.sources;
        let auxiliary = HexOrDash(self.auxiliary);
        write!(f, " sources={sources} auxiliary={auxiliary}")
    }
}

// Prints each record in parentheses after a space.
fn fmt_records<A: Address, W: fmt::Write>(
    f: &mut fmt::Formatter<W>,
    records: RecordsIterator<'_, A>,
) -> fmt::Result
    ensures { WritesOnOk W.write_str_gives f.old result
        (records_display A.display (width A.family) records.entry) f.new }
{
    for record in records {
        write!(f, " ({record})")?;
    }
    Ok(())
}

/// The message with its protocol, its version and its fields, as `IGMPv2 leave group=224.0.0.251`.
impl<'a, A: Address> fmt::Display for Message<A, Query<'a, A>, Records<'a, A>> {
    ghost output = { λ message. Some
        (message_display A.display A.family (value_of A.bytes message)) };

    fn fmt<W: fmt::Write>(&self, f: &mut fmt::Formatter<W>) -> fmt::Result {
        let family = A::family();
        let version = self.version();
        write!(f, "{family}v{version}")?;
        fmt_content(f, self)
    }
}

// Prints what the message is, and its fields.
fn fmt_content<A: Address, W: fmt::Write>(
    f: &mut fmt::Formatter<W>,
    message: &Membership<'_, A>,
) -> fmt::Result
    ensures { WritesOnOk W.write_str_gives f.old result
        (content_display A.display A.family (value_of A.bytes message.now)) f.new }
{
    match message {
        Message::OlderQuery {
            max_resp_code,
            group,
        } => {
            write!(f, " query max_resp_code={max_resp_code} group=")?;
            group.show(f)
        }
        Message::Query(query) => fmt_query(f, query),
        Message::OldestReport { group } | Message::OlderReport { group } => {
            f.write_str(" report group=")?;
            group.show(f)
        }
        Message::Leave { group } => {
            f.write_str(" leave group=")?;
            group.show(f)
        }
        Message::Report { records } => {
            let count = records.len();
            write!(f, " report records={count}")?;
            fmt_records(f, records.iter())
        }
    }
}

// Prints the fields of a query.
fn fmt_query<A: Address, W: fmt::Write>(
    f: &mut fmt::Formatter<W>,
    query: &Query<'_, A>,
) -> fmt::Result
    ensures { WritesOnOk W.write_str_gives f.old result
        (content_display A.display A.family (query_value A.bytes query.now)) f.new }
{
    let Query {
        max_resp_code,
        group,
        s_flag,
        qrv,
        qqic,
        sources,
    } = *query;
    write!(f, " query max_resp_code={max_resp_code} group=")?;
    group.show(f)?;
    write!(
        f,
        " s_flag={s_flag} qrv={qrv} qqic={qqic} sources={sources}"
    )
}
