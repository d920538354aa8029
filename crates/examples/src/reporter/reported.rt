//! What a host keeps of a group that it reports, and of the sources of it that queries ask about.

ghost use Rattle.std.specs.Prelude.{◌≡◌, map};
ghost use Rattle.std.specs.List.{find};
ghost use Rattle.control_wire.specs.Duration.{millis_of};
ghost use Rattle.examples.specs.Reported.{after_report, answered, by_chance, changed, earliest, group_key};
ghost use Rattle.examples.specs.Reported.{is_change_due, is_due, is_meant, is_over, joined, left, names, silenced};
ghost use Rattle.examples.specs.Reported.{source_key, time_left};

use crate::querier::reception::RouterAddress;
use crate::timed_list::Entry;
use arrayvec::ArrayVec;
use control_wire::Duration;

// How often a change is reported (RFC 3376 section 8.1, RFC 3810 section 9.1).
const ROBUSTNESS: u8 = 2;

/// A group that a host reports. Times are in milliseconds.
#[derive(Debug, PartialEq, Eq, Clone, Copy)]
pub struct Reported<A> {
    /// The group.
    pub group: A,
    /// Whether the host is a member of it; one that it has left is kept until time passes after its last report.
    pub is_member: bool,
    /// How many reports of this are left.
    pub changes: u8,
    /// The time until the next of them.
    pub next: u32,
    /// The time until a query is answered. None where none is to be.
    pub answer: Option<u32>,
}

/// A source of a group that a query asked about, and that is still to be answered.
#[derive(Debug, PartialEq, Eq, Clone, Copy)]
pub struct AskedSource<A> {
    /// The group.
    pub group: A,
    /// The source.
    pub source: A,
}

/// What tells such sources apart.
#[derive(Debug, PartialEq, Eq, Clone, Copy)]
pub struct AskedKey<A> {
    /// The group.
    pub group: A,
    /// The source. None for all sources.
    pub source: Option<A>,
}

impl<A: RouterAddress> Default for Reported<A> {
    fn default() -> Reported<A> {
        changed(&A::unspecified(), false)
    }
}

impl<A: RouterAddress> Entry for Reported<A> {
    ghost use Rattle.examples.specs.Reported.{is_group, reported_after};

    type Key = A;

    ghost is_of = { is_group A.eq };

    ghost after = { reported_after };

    fn is_of(&self, group: &A) -> bool {
        self.group == *group
    }

    fn after(&self, passed: u32) -> Option<Reported<A>> {
        if !self.is_member && self.changes == 0 {
            return None;
        }
        Some(Reported {
            next: self.next.saturating_sub(passed),
            answer: time_left(self.answer, passed),
            ..*self
        })
    }
}

impl<A: RouterAddress> Default for AskedSource<A> {
    fn default() -> AskedSource<A> {
        AskedSource {
            group: A::unspecified(),
            source: A::unspecified(),
        }
    }
}

impl<A: RouterAddress> Entry for AskedSource<A> {
    ghost use Rattle.examples.specs.Reported.{asked_after, is_asked};

    type Key = AskedKey<A>;

    ghost is_of = { is_asked A.eq };

    ghost after = { asked_after };

    fn is_of(&self, key: &AskedKey<A>) -> bool {
        self.group == key.group && names(&key.source, &self.source)
    }

    fn after(&self, _passed: u32) -> Option<AskedSource<A>> {
        Some(*self)
    }
}

impl<A: Copy> AskedKey<A> {
    // A source of a group.
    pub(crate) fn of_source(group: &A, source: A) -> AskedKey<A>
        ensures { result ≡ source_key group.now source }
    {
        AskedKey {
            group: *group,
            source: Some(source),
        }
    }

    // All sources of a group.
    pub(crate) fn of_group(group: &A) -> AskedKey<A>
        ensures { result ≡ group_key group.now }
    {
        AskedKey {
            group: *group,
            source: None,
        }
    }
}

// What is left of a time.
fn time_left(time: Option<u32>, passed: u32) -> Option<u32>
    ensures { result ≡ time_left passed time }
{
    match time {
        Some(time) => Some(time.saturating_sub(passed)),
        None => None,
    }
}

// Whether a source is meant, or all sources.
fn names<A: PartialEq>(named: &Option<A>, source: &A) -> bool
    ensures { result ≡ names A.eq named.now source.now }
{
    match named {
        Some(named) => source == named,
        None => true,
    }
}

// A group whose change is to be reported.
fn changed<A: Copy>(group: &A, is_member: bool) -> Reported<A>
    ensures { result ≡ changed group.now is_member }
{
    Reported {
        group: *group,
        is_member,
        changes: ROBUSTNESS,
        next: 0,
        answer: None,
    }
}

// A group that the host joins, with what it reported of it so far.
pub(crate) fn joined<A: Copy>(group: &A, before: Option<Reported<A>>) -> Reported<A>
    ensures { result ≡ joined group.now before }
{
    match before {
        Some(entry) if entry.is_member => entry,
        _ => changed(group, true),
    }
}

// A group that the host leaves.
pub(crate) fn left<A: Copy>(entry: &Reported<A>) -> Reported<A>
    ensures { result ≡ left entry.now }
{
    if entry.is_member {
        changed(&entry.group, false)
    } else {
        *entry
    }
}

// A group that another host reports.
pub(crate) fn silenced<A: Copy>(entry: &Reported<A>) -> Reported<A>
    ensures { result ≡ silenced entry.now }
{
    Reported {
        answer: None,
        ..*entry
    }
}

impl<A: RouterAddress> Reported<A> {
    // Whether a query of this group, or of all, asks about it.
    fn is_meant(&self, meant: &Option<A>) -> bool
        ensures { result ≡ is_meant A.eq meant.now self.now }
    {
        match meant {
            Some(group) => self.is_member && self.group == *group,
            None => self.is_member,
        }
    }

    // The group where a query of this group, or of all, is to be answered in this time.
    pub(crate) fn answered(&self, meant: &Option<A>, delay: u32) -> Reported<A>
        ensures { result ≡ answered A.eq meant.now delay self.now }
    {
        if !self.is_meant(meant) {
            return *self;
        }
        Reported {
            answer: Some(earliest(self.answer, delay)),
            ..*self
        }
    }
}

// A query of this group, or of all, is to be answered in this time.
pub(crate) fn answer<A: RouterAddress, const N: usize>(
    groups: &mut ArrayVec<Reported<A>, N>,
    meant: &Option<A>,
    delay: u32,
)
    ensures { groups.new.items ≡ map (answered A.eq meant.now delay) groups.old.items }
{
    let mut later = ArrayVec::new();
    for entry in groups.as_slice() {
        later.push(entry.answered(meant, delay));
    }
    *groups = later;
}

// The earlier of two times.
fn earliest(time: Option<u32>, delay: u32) -> u32
    ensures { result ≡ earliest time delay }
{
    match time {
        Some(time) => time.min(delay),
        None => delay,
    }
}

// Whether its change is to be reported now.
pub(crate) fn is_change_due<A: Copy>(entry: &Reported<A>) -> bool
    ensures { result ≡ is_change_due entry.now }
{
    entry.changes > 0 && entry.next == 0
}

// Whether a query is to be answered now.
fn is_over(answer: Option<u32>) -> bool
    ensures { result ≡ is_over answer }
{
    match answer {
        Some(time) => time == 0,
        None => false,
    }
}

// The first of these that is to be reported now.
pub(crate) fn next_due<A: Copy>(entries: &[Reported<A>]) -> Option<Reported<A>>
    ensures { result ≡ find is_due entries.now }
{
    for entry in entries {
        if is_change_due(entry) || is_over(entry.answer) {
            return Some(*entry);
        }
    }
    None
}

// The group that was reported, and whose change may be so again in this time.
pub(crate) fn after_report<A: Copy>(entry: &Reported<A>, again: u32) -> Reported<A>
    ensures { result ≡ after_report again entry.now }
{
    if is_change_due(entry) {
        Reported {
            changes: entry.changes.saturating_sub(1),
            next: again,
            ..*entry
        }
    } else {
        Reported {
            answer: None,
            ..*entry
        }
    }
}

// A time in milliseconds, up to the most, by chance.
pub(crate) fn by_chance(chance: u32, most: Duration) -> u32
    ensures { result ≡ by_chance chance (millis_of most) }
{
    (chance as u64 % (most.total_millis() + 1)) as u32
}
