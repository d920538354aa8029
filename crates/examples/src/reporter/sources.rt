//! The sources of groups that queries ask about, until they are answered.

ghost use Rattle.std.specs.Prelude.{◌≡◌, [], if◌then◌else◌};
ghost use Rattle.std.specs.List.{filter};
ghost use Rattle.group_wire.specs.Sources.{octets_in};
ghost use Rattle.examples.specs.Reported.{group_key, is_asked, is_change_due};
ghost use Rattle.examples.specs.Reporter.{adds, is_whole_due, with_source, without_sources, AddsSources, AsksSources};
ghost use Rattle.examples.specs.Reporter.{KeepsSources};
ghost use Rattle.examples.specs.TimedList.{has};

use super::MOST_SOURCES;
use super::reported::{AskedKey, AskedSource, Reported, is_change_due};
use crate::querier::reception::RouterAddress;
use crate::timed_list::{entries_of, look_up, remove, renew};
use arrayvec::ArrayVec;
use group_wire::Sources;

type Asked<A> = ArrayVec<AskedSource<A>, MOST_SOURCES>;

// Takes what a query of a group asks about, of which this is known.
pub(crate) fn ask<A: RouterAddress>(
    asked: &mut Asked<A>,
    group: &A,
    sources: Sources<'_, A>,
    entry: Option<Reported<A>>,
)
    ensures { AsksSources A.eq A.bytes A.family group.now (octets_in sources.entry) entry
        asked.old.items asked.new.items }
{
    if sources.is_empty() {
        remove(asked, &AskedKey::of_group(group));
    } else if adds(asked, group, entry) {
        add_sources(asked, group, sources);
    }
}

// Whether the sources of a query of the group are to be answered, and not with the whole group.
fn adds<A: RouterAddress>(asked: &Asked<A>, group: &A, entry: Option<Reported<A>>) -> bool
    ensures { result ≡ adds A.eq group.now asked.now.items entry }
{
    match entry {
        Some(entry) => entry.is_member && !is_whole_due(asked, group, entry.answer),
        None => false,
    }
}

// Whether the whole group is to be reported.
fn is_whole_due<A: RouterAddress>(asked: &Asked<A>, group: &A, answer: Option<u32>) -> bool
    ensures { result ≡ is_whole_due A.eq group.now asked.now.items answer }
{
    answer.is_some() && !is_asked(asked, group)
}

// Whether sources of the group are asked about.
#[tactic(auto, using(crate::proofs::TimedLists::found_has))]
fn is_asked<A: RouterAddress>(asked: &Asked<A>, group: &A) -> bool
    ensures { result ≡ has (is_asked A.eq (group_key group.now)) asked.now.items }
{
    look_up(asked.as_slice(), &AskedKey::of_group(group)).is_some()
}

// Keeps these sources, or where there is no room none of the group.
fn add_sources<A: RouterAddress>(asked: &mut Asked<A>, group: &A, sources: Sources<'_, A>)
    ensures { AddsSources A.eq A.bytes A.family group.now (octets_in sources.entry)
        asked.old.items asked.new.items }
{
    if sources.len() > MOST_SOURCES - asked.len() {
        remove(asked, &AskedKey::of_group(group));
    } else {
        keep_sources(asked, group, sources);
    }
}

// Keeps these sources.
fn keep_sources<A: RouterAddress>(asked: &mut Asked<A>, group: &A, sources: Sources<'_, A>)
    ensures { KeepsSources A.eq A.bytes A.family group.now (octets_in sources.entry)
        asked.old.items asked.new.items }
{
    for source in sources.iter() {
        keep_source(asked, group, source);
    }
}

// Keeps a source.
fn keep_source<A: RouterAddress>(asked: &mut Asked<A>, group: &A, source: A)
    ensures { asked.new.items ≡ with_source A.eq group.now source asked.old.items }
{
    let key = AskedKey::of_source(group, source);
    let entry = AskedSource {
        group: *group,
        source,
    };
    let _kept = renew(asked, &key, entry);
}

// The sources that an answer is about, which are asked about no longer; a change is about none.
pub(crate) fn take_asked<A: RouterAddress>(asked: &mut Asked<A>, entry: &Reported<A>) -> Asked<A>
    ensures value { result.items
        ≡ (if is_change_due entry.now then [] else filter (is_asked A.eq (group_key entry.now.group)) asked.old.items) }
    ensures rest { asked.new.items
        ≡ (if is_change_due entry.now then asked.old.items else without_sources A.eq entry.now.group asked.old.items) }
{
    if is_change_due(entry) {
        return ArrayVec::new();
    }
    let key = AskedKey::of_group(&entry.group);
    let about = entries_of(asked, &key);
    remove(asked, &key);
    about
}
