//! What messages change of the list of a querier.

ghost use Rattle.std.specs.Prelude.{◌≡◌};
ghost use Rattle.group_wire.specs.Records.{count_in, octets_in as octets_of_records};
ghost use Rattle.group_wire.specs.Sources.{octets_in};
ghost use Rattle.examples.specs.QuerierReports.{after_leave, with_heard, with_lowered, with_reception};
ghost use Rattle.examples.specs.QuerierReports.{HearsRecord, HearsReport, HearsSources};

use super::reception::{Meant, Reception, ReceptionKey, RouterAddress, received};
use super::variables::Times;
use crate::timed_list::{look_up, renew};
use arrayvec::ArrayVec;
use group_wire::{Record, RecordType, Records, Sources};

// What a message says of a source of a group: a host wants it, or one leaves it, and so many queries ask whether others
// want it, or nobody asks.
#[derive(Debug, PartialEq, Eq, Clone, Copy)]
pub(crate) enum Change {
    Wants,
    Leaves(Option<u8>),
}

// A host wants a group, from this source or from all, which counts for a time.
pub(crate) fn receive<A: RouterAddress, const N: usize>(
    receptions: &mut ArrayVec<Reception<A>, N>,
    key: &ReceptionKey<A>,
    time: u64,
    oldest: u64,
)
    ensures { receptions.new.items ≡ with_reception A.eq N key.now time oldest receptions.old.items }
{
    let before = look_up(receptions.as_slice(), key);
    let reception = received(key, time, oldest, before);
    let _kept = renew(receptions, key, reception);
}

// What is meant counts for no longer than this, and so many queries ask about it.
fn lower<A: RouterAddress, const N: usize>(
    receptions: &mut ArrayVec<Reception<A>, N>,
    meant: &Meant<A>,
    limit: u64,
    queries: u8,
)
    ensures { receptions.new.items ≡ with_lowered A.eq meant.now limit queries receptions.old.items }
{
    let mut kept = ArrayVec::new();
    for reception in receptions.as_slice() {
        kept.push(reception.lowered(meant, limit, queries));
    }
    *receptions = kept;
}

// A host leaves what is meant. Where nobody asks, nothing changes.
pub(crate) fn leave<A: RouterAddress, const N: usize>(
    receptions: &mut ArrayVec<Reception<A>, N>,
    meant: &Meant<A>,
    limit: u64,
    asks: Option<u8>,
)
    ensures { receptions.new.items ≡ after_leave A.eq meant.now limit asks receptions.old.items }
{
    if let Some(queries) = asks {
        lower(receptions, meant, limit, queries);
    }
}

// What a message says of a source.
fn hear_source<A: RouterAddress, const N: usize>(
    receptions: &mut ArrayVec<Reception<A>, N>,
    key: &ReceptionKey<A>,
    times: &Times,
    change: Change,
)
    ensures { receptions.new.items ≡ with_heard A.eq N times.now change key.now receptions.old.items }
{
    match change {
        Change::Wants => receive(receptions, key, times.membership, 0),
        Change::Leaves(asks) => {
            leave(receptions, &Meant::One(*key), times.last_member_time, asks);
        }
    }
}

// What a message says of each of some sources of a group.
pub(crate) fn hear_sources<A: RouterAddress, const N: usize>(
    receptions: &mut ArrayVec<Reception<A>, N>,
    group: A,
    sources: Sources<'_, A>,
    times: &Times,
    change: Change,
)
    ensures { HearsSources A.eq A.bytes A.family N times.now change group (octets_in sources.entry)
        receptions.old.items receptions.new.items }
{
    for source in sources.iter() {
        let key = ReceptionKey {
            group,
            source: Some(source),
        };
        hear_source(receptions, &key, times, change);
    }
}

// What a record of a report says (RFC 3376 section 6.4, RFC 3810 section 7.4); one of an unknown type says nothing.
fn hear_record<A: RouterAddress, const N: usize>(
    receptions: &mut ArrayVec<Reception<A>, N>,
    record: &Record<'_, A>,
    times: &Times,
    asks: Option<u8>,
)
    ensures { HearsRecord A.eq A.bytes A.family N times.now asks «record».now
        receptions.old.items receptions.new.items }
{
    let (group, sources) = (record.group, record.sources);
    match record.record_type {
        RecordType::ModeIsExclude | RecordType::ChangeToExclude => {
            let source = None;
            receive(
                receptions,
                &ReceptionKey { group, source },
                times.membership,
                0,
            );
        }
        RecordType::ModeIsInclude | RecordType::AllowNewSources => {
            hear_sources(receptions, group, sources, times, Change::Wants);
        }
        RecordType::ChangeToInclude => {
            leave(
                receptions,
                &Meant::Group(group),
                times.last_member_time,
                asks,
            );
            hear_sources(receptions, group, sources, times, Change::Wants);
        }
        RecordType::BlockOldSources => {
            hear_sources(receptions, group, sources, times, Change::Leaves(asks));
        }
        RecordType::Unknown(_) => {}
    }
}

// What the records of a report say, in turn.
pub(crate) fn hear_report<A: RouterAddress, const N: usize>(
    receptions: &mut ArrayVec<Reception<A>, N>,
    records: &Records<'_, A>,
    times: &Times,
    asks: Option<u8>,
)
    ensures { HearsReport A.eq A.bytes A.family N times.now asks (count_in records.now)
        (octets_of_records records.now) receptions.old.items receptions.new.items }
{
    for record in records.iter() {
        hear_record(receptions, &record, times, asks);
    }
}
