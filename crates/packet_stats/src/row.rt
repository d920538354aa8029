//! Rows of tables.

ghost use Rattle.std.specs.Prelude.{◌≤◌, length};

use crate::subject::Subject;
use crate::table::Fault;
use crate::times::place_in;
use std::alloc::Global;
use std::cmp::Ordering;

/// The most times that are kept in a row.
pub const MOST_TIMES: usize = 4_096;

// A subject that a message speaks of, and where the message answers, the nanoseconds from the question on.
#[derive(Drop)]
pub(crate) struct Mention {
    pub(crate) subject: Subject,
    pub(crate) after: Option<u64>,
}

/// A row: a subject, how many messages speak of it, and of a server the times that its answers took.
#[derive(Drop)]
pub struct Row {
    pub(crate) subject: Subject,
    pub(crate) count: u64,
    // In ascending order.
    times: Vec<u64>,
    pub(crate) unkept: u64,
    pub ghost few: { length times.items ≤ 4096 },
}

impl Row {
    ghost use Rattle.std.specs.Prelude.{◌≡◌, ◌<◌, IfOk, OnErr, OnOk};
    ghost use Rattle.packet_stats.specs.Row.{counted, first_row, percentile, row_cmp, row_of, timed};
    ghost use Rattle.packet_stats.specs.Row.{with_time};
    ghost use Rattle.packet_stats.specs.Subject.{rank_of};
    ghost use Rattle.packet_stats.specs.private.Mentions.{mention_of};

    // The row of the first message.
    pub(crate) fn begin(alloc: Global, mention: Mention) -> Result<Row, Fault>
        ensures { IfOk result (λ row. row_of row ≡ first_row (mention_of mention)) }
    {
        let mut row = Row {
            subject: mention.subject,
            count: 0,
            times: Vec::new(alloc),
            unkept: 0,
        };
        row.count_one(mention.after)?;
        Ok(row)
    }

    // Counts one message more.
    pub(crate) fn count_one(&mut self, after: Option<u64>) -> Result<(), Fault>
        ensures counts { OnOk result (row_of self.new ≡ counted after (row_of self.old)) }
        ensures fault { OnErr result (row_of self.new ≡ row_of self.old) }
    {
        self.keep(after)?;
        self.count = self.count.saturating_add(1);
        Ok(())
    }

    // Keeps a time, where there is room for it.
    fn keep(&mut self, after: Option<u64>) -> Result<(), Fault>
        ensures keeps { OnOk result (row_of self.new ≡ timed after (row_of self.old)) }
        ensures fault { OnErr result (row_of self.new ≡ row_of self.old) }
    {
        let Some(time) = after else {
            return Ok(());
        };
        if self.times.len() < MOST_TIMES {
            return self.insert(time);
        }
        self.unkept = self.unkept.saturating_add(1);
        Ok(())
    }

    // Keeps a time among the others.
    fn insert(&mut self, time: u64) -> Result<(), Fault>
        requires { length self.old.times.items < 4096 }
        ensures keeps { OnOk result (row_of self.new
            ≡ record (row_of self.old) { times = with_time time self.old.times.items }) }
        ensures fault { OnErr result (row_of self.new ≡ row_of self.old) }
    {
        let place = place_in(&self.times, time);
        match self.times.insert(place, time) {
            Ok(()) => Ok(()),
            Err(_) => Err(Fault::Memory),
        }
    }

    // How many times are kept.
    pub(crate) fn times(&self) -> usize
        ensures { result ≡ length (row_of self.now).times }
    {
        self.times.len()
    }

    // The time that this percentage of the kept times are not above, by the nearest rank.
    pub(crate) fn percentile(&self, percent: usize) -> Option<u64>
        requires some { 1 ≤ percent }
        requires within { percent ≤ 100 }
        ensures { result ≡ percentile percent (row_of self.now).times }
    {
        let count = self.times.len();
        if count == 0 {
            return None;
        }
        Some(self.times[(percent * count + 99) / 100 - 1])
    }

    // How many messages there were, where that is the order of a page.
    fn rank(&self) -> u64
        ensures { result ≡ rank_of (row_of self.now).subject (row_of self.now).count }
    {
        self.subject.rank(self.count)
    }

    // The order of rows on a page.
    pub(crate) fn order(&self, other: &Row) -> Ordering
        ensures { result ≡ row_cmp (row_of self.now) (row_of other.now) }
    {
        let by_count = other.rank().cmp(&self.rank());
        by_count.then_with(|| {
            self.subject
                .place()
                .as_slice()
                .cmp(&other.subject.place().as_slice())
        })
    }
}
