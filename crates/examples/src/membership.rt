//! A host that is a member of groups, from all sources or from some: what it reports by IGMPv3 (RFC 3376) over IPv4,
//! and by MLDv2 (RFC 3810) over IPv6. The caller keeps the state of each group and the sources that queries ask about,
//! and sends the records in reports, to 224.0.0.22 or `ff02::16`.

ghost use Rattle.std.specs.Prelude.{◌≡◌, ◌≤◌, ◌*◌, ◌++◌, ◌↔◌, [], length, take, drop, map, OnOk, OnErr, IfSome, IsSome};
ghost use Rattle.std.specs.Prelude.{option_map};
ghost use Rattle.control_wire.specs.Duration.{micros_of};
ghost use Rattle.group_wire.specs.Family.{width};
ghost use Rattle.group_wire.specs.Membership.{value_of};
ghost use Rattle.group_wire.specs.Sources.{octets_in, sources_in};
ghost use Rattle.group_wire.specs.Writer.{the_slice};
ghost use Rattle.examples.specs.Membership.{state_of, both, without, said_of_some, changes, current, responses};
ghost use Rattle.examples.specs.Membership.{Adds, IsFull, older_querier_millis, Speaks};

use control_wire::Duration;
use group_wire::{Address, Family, Full, Membership, Message, RecordType, RecordsWriter, Sources};

// The robustness variable of a query that states none (RFC 3376 sections 4.1.6 and 8.1).
const DEFAULT_ROBUSTNESS: u8 = 2;

/// Whether a host listens to the sources that it names, or to all others (RFC 3376 section 3.2).
#[derive(Debug, PartialEq, Eq, Clone, Copy)]
pub enum FilterMode {
    /// To these sources alone.
    Include,
    /// To all sources but these.
    Exclude,
}

/// The state of a group: what a host listens to (RFC 3376 section 3.2, RFC 3810 section 4.2). The caller keeps the
/// sources, each once. A host is no member of a group whose filter includes no source.
#[derive(Debug, PartialEq, Eq, Clone, Copy)]
pub struct Filter<'a, A> {
    /// Whether it listens to the sources or to all others.
    pub mode: FilterMode,
    /// The sources.
    pub sources: &'a [A],
}

impl<'a, A> Filter<'a, A> {
    /// The state of a group of which the host is no member.
    pub const fn none() -> Filter<'a, A>
        ensures mode { result.mode ≡ FilterMode.Include }
        ensures sources { result.sources.now ≡ [] }
    {
        Filter {
            mode: FilterMode::Include,
            sources: &[],
        }
    }
}

/// Writes the records that tell of a group's new state after its old one (RFC 3376 section 5.1, RFC 3810 section 6.1):
/// where the mode stays, the sources that the host listens to from now on, and those that it does not any more, each
/// where there are any; where it changes, the new mode with its sources. Refused where a record has no room, or more
/// than 65,535 sources; a record before it stays. Requires room for as many addresses as either state has, which is
/// written over.
pub fn report_change<A: Address + PartialEq>(
    records: &mut RecordsWriter<'_, A>,
    group: A,
    old: &Filter<'_, A>,
    new: &Filter<'_, A>,
    room: &mut [A],
) -> Result<(), Full>
    requires old { length old.now.sources.now ≤ length room.old }
    requires new { length new.now.sources.now ≤ length room.old }
    ensures added { OnOk result (Adds A.bytes (width A.family) group
        (changes A.eq (state_of old.now) (state_of new.now)) records.old records.new) }
    ensures full { OnErr result (IsFull A.bytes (width A.family) group
        (changes A.eq (state_of old.now) (state_of new.now)) records.old records.new) }
    ensures same_slice { the_slice records.new ≡ the_slice records.old }
{
    match (old.mode, new.mode) {
        (FilterMode::Include, FilterMode::Include) => {
            report_differences(records, group, new.sources, old.sources, room)
        }
        (FilterMode::Exclude, FilterMode::Exclude) => {
            report_differences(records, group, old.sources, new.sources, room)
        }
        (FilterMode::Include, FilterMode::Exclude) => {
            records.push(RecordType::ChangeToExclude, group, new.sources)
        }
        (FilterMode::Exclude, FilterMode::Include) => {
            records.push(RecordType::ChangeToInclude, group, new.sources)
        }
    }
}

/// Writes the record of a group's state, by which a host answers a query of all groups or of this one (RFC 3376 section
/// 5.2, RFC 3810 section 6.3); none where it is no member of the group. Refused where the record has no room, or more
/// than 65,535 sources; then nothing changes.
pub fn report_state<A: Address>(
    records: &mut RecordsWriter<'_, A>,
    group: A,
    state: &Filter<'_, A>,
) -> Result<(), Full>
    ensures added { OnOk result (Adds A.bytes (width A.family) group (current (state_of state.now))
        records.old records.new) }
    ensures full { OnErr result (IsFull A.bytes (width A.family) group (current (state_of state.now))
        records.old records.new) }
    ensures same_slice { the_slice records.new ≡ the_slice records.old }
{
    match state.mode {
        FilterMode::Include => push_some(records, RecordType::ModeIsInclude, group, state.sources),
        FilterMode::Exclude => records.push(RecordType::ModeIsExclude, group, state.sources),
    }
}

/// Writes the record by which a host answers queries of a group that asked about these sources: those of them that it
/// listens to; none where it listens to none of them (RFC 3376 section 5.2, RFC 3810 section 6.3). Where they asked
/// about no source, it is the record of the state. Refused where the record has no room, or more than 65,535 sources;
/// then nothing changes. Requires room for as many addresses as the state has, and as are asked about, which is written
/// over.
pub fn report_response<A: Address + PartialEq>(
    records: &mut RecordsWriter<'_, A>,
    group: A,
    state: &Filter<'_, A>,
    asked: &[A],
    room: &mut [A],
) -> Result<(), Full>
    requires state { length state.now.sources.now ≤ length room.old }
    requires asked { length asked.now ≤ length room.old }
    ensures added { OnOk result (Adds A.bytes (width A.family) group
        (responses A.eq (state_of state.now) asked.now) records.old records.new) }
    ensures full { OnErr result (IsFull A.bytes (width A.family) group
        (responses A.eq (state_of state.now) asked.now) records.old records.new) }
    ensures same_slice { the_slice records.new ≡ the_slice records.old }
{
    if asked.is_empty() {
        return report_state(records, group, state);
    }
    let count = match state.mode {
        FilterMode::Include => gather_both(state.sources, asked, room),
        FilterMode::Exclude => gather_without(asked, state.sources, room),
    };
    push_some(records, RecordType::ModeIsInclude, group, &room[..count])
}

// Writes a record of the sources that only the first list has, as allowed, and one of those that only the second has,
// as blocked.
fn report_differences<A: Address + PartialEq>(
    records: &mut RecordsWriter<'_, A>,
    group: A,
    allowed: &[A],
    blocked: &[A],
    room: &mut [A],
) -> Result<(), Full>
    requires allowed { length allowed.now ≤ length room.old }
    requires blocked { length blocked.now ≤ length room.old }
    ensures added { OnOk result (Adds A.bytes (width A.family) group
        (said_of_some RecordType.AllowNewSources (without A.eq allowed.now blocked.now)
        ++ said_of_some RecordType.BlockOldSources (without A.eq blocked.now allowed.now))
        records.old records.new) }
    ensures full { OnErr result (IsFull A.bytes (width A.family) group
        (said_of_some RecordType.AllowNewSources (without A.eq allowed.now blocked.now)
        ++ said_of_some RecordType.BlockOldSources (without A.eq blocked.now allowed.now))
        records.old records.new) }
    ensures same_slice { the_slice records.new ≡ the_slice records.old }
{
    let count = gather_without(allowed, blocked, room);
    push_some(records, RecordType::AllowNewSources, group, &room[..count])?;
    let count = gather_without(blocked, allowed, room);
    push_some(records, RecordType::BlockOldSources, group, &room[..count])
}

// Writes a record of these sources, where there are any.
fn push_some<A: Address>(
    records: &mut RecordsWriter<'_, A>,
    record_type: RecordType,
    group: A,
    sources: &[A],
) -> Result<(), Full>
    ensures added { OnOk result (Adds A.bytes (width A.family) group (said_of_some record_type sources.now)
        records.old records.new) }
    ensures full { OnErr result (IsFull A.bytes (width A.family) group (said_of_some record_type sources.now)
        records.old records.new) }
    ensures same_slice { the_slice records.new ≡ the_slice records.old }
{
    if sources.is_empty() {
        return Ok(());
    }
    records.push(record_type, group, sources)
}

// Gathers the sources of the first list that the second one has at the front of the room, and returns how many they
// are.
fn gather_both<A: Address + PartialEq>(first: &[A], second: &[A], room: &mut [A]) -> usize
    requires { length first.now ≤ length room.old }
    ensures gathered { take result room.new ≡ both A.eq first.now second.now }
    ensures fits { result ≤ length room.new }
{
    let mut count = 0;
    for source in first {
        if second.contains(source) {
            room[count] = *source;
            count += 1;
        }
    }
    count
}

// Gathers the sources of the first list that the second one has not.
fn gather_without<A: Address + PartialEq>(first: &[A], second: &[A], room: &mut [A]) -> usize
    requires { length first.now ≤ length room.old }
    ensures gathered { take result room.new ≡ without A.eq first.now second.now }
    ensures fits { result ≤ length room.new }
{
    let mut count = 0;
    for source in first {
        if !second.contains(source) {
            room[count] = *source;
            count += 1;
        }
    }
    count
}

/// Writes the sources of a query over the front of the slice, in which a host keeps them until it answers (RFC 3376
/// section 5.2, RFC 3810 section 6.2), and returns how many they are. None where they are more than it has places; then
/// nothing changes.
pub fn keep_sources<A: Address>(sources: &Sources<'_, A>, kept: &mut [A]) -> Option<usize>
    ensures accepts { IsSome result
        ↔ (length (sources_in (width A.family) (octets_in sources.now)) ≤ length kept.old) }
    ensures number { IfSome result (λ n.
        n ≡ length (sources_in (width A.family) (octets_in sources.now))) }
    ensures kept { IfSome result (λ n. map A.bytes (take n kept.new)
        ≡ sources_in (width A.family) (octets_in sources.now)) }
    ensures rest { IfSome result (λ n. drop n kept.new ≡ drop n kept.old) }
    ensures unkept { result ≡ None → kept.new ≡ kept.old }
{
    if sources.len() > kept.len() {
        return None;
    }
    let mut count = 0;
    for source in sources.iter() {
        kept[count] = source;
        count += 1;
    }
    Some(count)
}

/// How long a host speaks an older version after a query of that version, by the last query of the newest one: the
/// robustness variable times the querier's interval, and the time for responses (RFC 3376 section 8.12, RFC 3810
/// section 9.12). A query that states no robustness variable leaves it at its default, 2. None of other messages.
pub fn older_querier_time<A: Address>(message: &Membership<'_, A>) -> Option<Duration>
    ensures { option_map micros_of result
        ≡ option_map (λ millis. 1000 * millis) (older_querier_millis A.family (value_of A.bytes message.now)) }
{
    let response = message.max_resp_time()?;
    match message {
        Message::Query(query) => {
            let robustness = if query.qrv == 0 {
                DEFAULT_ROBUSTNESS
            } else {
                query.qrv
            };
            let intervals = robustness as u64 * query.interval().secs();
            Some(Duration::from_micros(1_000_000 * intervals + response.total_micros()))
        }
        _ => None,
    }
}

/// How long a host goes on speaking each older version; zero where it heard no query of it, or not for so long. MLD has
/// one older version, version 1.
#[derive(Debug, PartialEq, Eq, Clone, Copy)]
pub struct OlderQueriers {
    /// Version 1.
    pub version1: Duration,
    /// Version 2, of IGMP.
    pub version2: Duration,
}

/// The version that a host speaks: the lowest of those whose time is not over, or the newest (RFC 3376 section 7.2.1,
/// RFC 3810 section 8.2.1).
pub fn spoken_version<A: Address>(timers: &OlderQueriers) -> u8
    ensures { Speaks A.family timers.now result }
{
    if timers.version1.total_micros() > 0 {
        1
    } else if timers.version2.total_micros() > 0 {
        2
    } else {
        match A::family() {
            Family::Igmp => 3,
            Family::Mld => 2,
        }
    }
}
