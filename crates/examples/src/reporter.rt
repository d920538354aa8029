//! A host that reports which multicast groups it is a member of, from all sources: when it reports a group, and by
//! which message: by IGMP, versions 1 to 3 (RFC 1112 appendix I, RFC 2236 section 3, RFC 3376 section 5), over IPv4,
//! and by MLD, versions 1 and 2 (RFC 2710 section 4, RFC 3810 section 6), over IPv6.
//!
//! The caller brings the queries that came from the link, the time, and numbers by chance, and sends the reports.

ghost use Rattle.std.specs.Prelude.{◌≡◌, ◌↔◌, IsTrue, option_map};
ghost use Rattle.std.specs.List.{find};
ghost use Rattle.group_wire.specs.Membership.{value_of};
ghost use Rattle.group_wire.specs.Sources.{octets_in};
ghost use Rattle.group_wire.specs.Times.{max_resp_millis};
ghost use Rattle.examples.specs.Membership.{Speaks};
ghost use Rattle.examples.specs.Reported.{by_chance, is_due, is_group};
ghost use Rattle.examples.specs.Reporter.{after_older, found, initial, is_member_of, later};
ghost use Rattle.examples.specs.Reporter.{state_of, time_after, told_of, unanswered, with_joined, with_left};
ghost use Rattle.examples.specs.Reporter.{with_silenced, with_time, with_told};
ghost use Rattle.examples.specs.Reporter.{Hears, HearsQuery};
ghost use Rattle.examples.specs.ReportMessages.{told_in};
ghost use Rattle.examples.specs.TimedList.{IsKept};
ghost use Rattle.examples.specs.private.Delays.{delay_in};

pub mod report;
pub mod reported;
mod sources;

use crate::membership::{OlderQueriers, older_querier_time, spoken_version};
use crate::querier::reception::RouterAddress;
use crate::timed_list::{look_up, pass, remove, renew};
use arrayvec::ArrayVec;
use control_wire::Duration;
use group_wire::{Membership, Message, Sources};
use report::Report;
use reported::{
    AskedKey, AskedSource, Reported, after_report, answer, by_chance, is_change_due, joined, left,
    next_due, silenced,
};
use sources::{ask, take_asked};

/// The most groups that are kept.
pub const MOST_GROUPS: usize = 32;

/// The most sources that are kept, of all groups together. Where queries ask about more of a group than there is room
/// for, the whole group is reported.
pub const MOST_SOURCES: usize = 89;

// A change is reported again within a second (RFC 3376 section 8.11, RFC 3810 section 9.11).
const UNSOLICITED_REPORT_INTERVAL: u64 = 1_000;

// How many milliseconds a host speaks an older version after a query of it, where no query says it: by the defaults of
// RFC 3376 section 8.12.
const OLDER_QUERIER_TIME: u64 = 260_000;

/// The groups that a host is a member of on a link, and the reports that it owes. Groups that nobody reports are not to
/// be among them: that of all hosts (RFC 3376 section 5), and those of IPv6 whose scope is 0 or 1 (RFC 3810 section 6).
#[derive(Drop)]
pub struct Reporter<A> {
    older: OlderQueriers,
    older_time: Duration,
    groups: ArrayVec<Reported<A>, MOST_GROUPS>,
    asked: ArrayVec<AskedSource<A>, MOST_SOURCES>,
}

impl<A: RouterAddress> Reporter<A> {
    /// A host that is a member of no group.
    pub fn new() -> Reporter<A>
        ensures { state_of result ≡ initial }
    {
        Reporter {
            older: OlderQueriers {
                version1: Duration::from_micros(0),
                version2: Duration::from_micros(0),
            },
            older_time: Duration::from_millis(OLDER_QUERIER_TIME),
            groups: ArrayVec::new(),
            asked: ArrayVec::new(),
        }
    }

    /// The groups, in the order in which they were joined.
    pub fn groups(&self) -> &[Reported<A>]
        ensures { result.now ≡ (state_of self.now).groups }
    {
        self.groups.as_slice()
    }

    /// Whether it is a member of a group.
    pub fn is_member(&self, group: &A) -> bool
        ensures { result ≡ is_member_of (found A.eq group.now (state_of self.now).groups) }
    {
        match look_up(self.groups.as_slice(), group) {
            Some(entry) => entry.is_member,
            None => false,
        }
    }

    /// The version that is spoken now: the lowest whose time after a query is not over, or else the newest
    /// (RFC 3376 section 7.2.1, RFC 3810 section 8.2.1).
    pub fn version(&self) -> u8
        ensures { Speaks A.family (state_of self.now).older result }
    {
        spoken_version::<A>(&self.older)
    }

    /// Is a member of a group from now on, which is reported twice if it was none (RFC 3376 section 5.1,
    /// RFC 3810 section 6.1). False exactly where the group is new and as many are kept as can be: nothing changes.
    pub fn join(&mut self, group: &A) -> bool
        ensures told { IsTrue result ↔ IsKept MOST_GROUPS (is_group A.eq group.now) (state_of self.old).groups }
        ensures value { state_of self.new ≡ with_joined A.eq group.now (state_of self.old) }
    {
        let before = look_up(self.groups.as_slice(), group);
        let entry = joined(group, before);
        renew(&mut self.groups, group, entry)
    }

    /// Is no member of a group from now on, which is reported twice if it was one; queries of it are answered no more.
    pub fn leave(&mut self, group: &A)
        ensures { state_of self.new ≡ with_left A.eq group.now (state_of self.old) }
    {
        if let Some(entry) = look_up(self.groups.as_slice(), group) {
            self.keep_unanswered(group, left(&entry));
        }
    }

    // Keeps this of a group of which no query is to be answered any more.
    fn keep_unanswered(&mut self, group: &A, entry: Reported<A>)
        ensures { state_of self.new ≡ unanswered A.eq group.now entry (state_of self.old) }
    {
        let _kept = renew(&mut self.groups, group, entry);
        remove(&mut self.asked, &AskedKey::of_group(group));
    }

    /// Lets so many milliseconds pass. A group that was left is dropped by the first call after its last report.
    pub fn pass(&mut self, milliseconds: u32)
        ensures { state_of self.new ≡ later milliseconds (state_of self.old) }
    {
        self.older = OlderQueriers {
            version1: time_after(self.older.version1, milliseconds),
            version2: time_after(self.older.version2, milliseconds),
        };
        pass(&mut self.groups, milliseconds);
    }

    /// Takes a message that came from the link. A query is answered after a time by chance, up to the one that it says,
    /// or with an earlier one (RFC 3376 section 5.2, RFC 3810 section 6.2); a number by chance is to be given. One of
    /// an older version has the host speak that one for a while. A group that another host reports by an older version
    /// is not to be reported in answer (RFC 2236 section 3, RFC 2710 section 4). Other messages change nothing.
    pub fn hear(&mut self, message: &Membership<'_, A>, chance: u32)
        ensures { Hears A.eq A.bytes A.family chance message.now (state_of self.old) (state_of self.new) }
    {
        let delay = delay_in(message, chance);
        match message {
            Message::OlderQuery { group, .. } => {
                self.hear_older(message.version());
                self.hear_query(group, Sources::none(), delay);
            }
            Message::Query(query) => {
                self.hear_time(older_querier_time(message));
                self.hear_query(&query.group, query.sources, delay);
            }
            Message::OldestReport { group } | Message::OlderReport { group } => {
                self.hear_report(group);
            }
            Message::Leave { .. } | Message::Report { .. } => {}
        }
    }

    // Takes a report of a group by another host.
    fn hear_report(&mut self, group: &A)
        ensures { state_of self.new ≡ with_silenced A.eq group.now (state_of self.old) }
    {
        if let Some(entry) = look_up(self.groups.as_slice(), group) {
            self.keep_unanswered(group, silenced(&entry));
        }
    }

    // Speaks this older version for a time.
    fn hear_older(&mut self, version: u8)
        ensures { state_of self.new ≡ after_older version (state_of self.old) }
    {
        if version == 1 {
            self.older.version1 = self.older_time;
        } else {
            self.older.version2 = self.older_time;
        }
    }

    // Speaks an older version for this time from now on.
    fn hear_time(&mut self, time: Option<Duration>)
        ensures { state_of self.new ≡ with_time time (state_of self.old) }
    {
        if let Some(time) = time {
            self.older_time = time;
        }
    }

    // Takes a query of a group or of all, and of these sources.
    fn hear_query(&mut self, group: &A, sources: Sources<'_, A>, delay: u32)
        ensures { HearsQuery A.eq A.bytes A.family group.now (octets_in sources.entry) delay
            (state_of self.old) (state_of self.new) }
    {
        if group.is_unspecified() {
            self.asked = ArrayVec::new();
            answer(&mut self.groups, &None, delay);
        } else {
            let entry = look_up(self.groups.as_slice(), group);
            ask(&mut self.asked, group, sources, entry);
            answer(&mut self.groups, &Some(*group), delay);
        }
    }

    /// What is to be reported now, and counts as reported: a change twice, at once and after a time by chance, up to a
    /// second. A number by chance is to be given. None where nothing is to be.
    pub fn next_report(&mut self, chance: u32) -> Option<Report<A>>
        ensures value { option_map told_in result
            ≡ option_map (told_of A.eq (state_of self.old).asked) (find is_due (state_of self.old).groups) }
        ensures state { state_of self.new ≡ with_told A.eq (by_chance chance 1000) (state_of self.old) }
    {
        let entry = next_due(self.groups.as_slice())?;
        let entry_after = after_report(&entry, again(chance));
        let _kept = renew(&mut self.groups, &entry.group, entry_after);
        Some(Report {
            group: entry.group,
            is_member: entry.is_member,
            is_change: is_change_due(&entry),
            asked: take_asked(&mut self.asked, &entry),
        })
    }
}

// The time until a message is answered; 0 where it is no query.
fn delay_in<A: RouterAddress>(message: &Membership<'_, A>, chance: u32) -> u32
    ensures { result ≡ delay_in chance (max_resp_millis A.family (value_of A.bytes message.now)) }
{
    match message.max_resp_time() {
        Some(most) => by_chance(chance, most),
        None => 0,
    }
}

// The time until a change is reported again.
fn again(chance: u32) -> u32
    ensures { result ≡ by_chance chance 1000 }
{
    by_chance(chance, Duration::from_millis(UNSOLICITED_REPORT_INTERVAL))
}

// What is left of a time.
fn time_after(time: Duration, milliseconds: u32) -> Duration
    ensures { result ≡ time_after milliseconds time }
{
    let passed = 1_000 * milliseconds as u64;
    Duration::from_micros(time.total_micros().saturating_sub(passed))
}
