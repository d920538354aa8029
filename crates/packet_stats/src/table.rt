//! Tables of rows.

ghost use Rattle.std.specs.Prelude.{◌≡◌, map};
ghost use Rattle.packet_stats.specs.private.Sums.{sum_in};

use crate::row::{Mention, Row};
use crate::subject::Subject;
use crate::sum::sum_again;
use std::alloc::Global;

/// The most rows of a table, but of that of servers.
pub const MOST_ROWS: usize = 1_024;

/// The most servers, each of which has up to `MOST_TIMES` times.
pub const MOST_SERVERS: usize = 256;

/// What keeps a message from being counted.
#[derive(Debug, PartialEq, Eq, Clone, Copy)]
pub enum Fault {
    /// There was no memory.
    Memory,
}

// A table.
#[derive(Drop)]
pub(crate) struct Table {
    pub(crate) rows: Vec<Row>,
    // The sums of their subjects, in the same order: a subject is compared only where the sum is the same.
    sums: Vec<u32>,
    pub(crate) overlooked: u64,
    ghost summed: { sums.items ≡ map sum_in rows.items },
}

impl Table {
    ghost use Rattle.std.specs.Prelude.{◌≤◌, ◌∷◌, ◌++◌, [], IfSome, IsNone, OnErr, OnOk, length};
    ghost use Rattle.packet_stats.specs.Row.{row_of};
    ghost use Rattle.packet_stats.specs.Subject.{subject_of};
    ghost use Rattle.packet_stats.specs.Table.{Counts, IsUnknown, Sorts, table_of};
    ghost use Rattle.packet_stats.specs.private.Mentions.{mention_of};
    ghost use Rattle.packet_stats.specs.private.Places.{IsFoundAt};

    // Nothing was counted yet.
    pub(crate) fn new(alloc: Global) -> Table
        ensures { table_of result ≡ record { rows = []; overlooked = 0 } }
    {
        Table {
            rows: Vec::new(alloc),
            sums: Vec::new(alloc),
            overlooked: 0,
        }
    }

    // Counts a message, where there is a row for it or room for one, of which there are so many at most.
    pub(crate) fn count(
        &mut self,
        alloc: Global,
        most: usize,
        mention: Mention,
    ) -> Result<(), Fault>
        ensures counts { OnOk result (Counts most (table_of self.old) (mention_of mention) (table_of self.new)) }
        ensures fault { OnErr result (table_of self.new ≡ table_of self.old) }
        ensures few { length self.old.rows.items ≤ most → length self.new.rows.items ≤ most }
    {
        match self.find(&mention.subject) {
            Some(place) => self.rows[place].count_one(mention.after),
            None => self.begin(alloc, most, mention),
        }
    }

    // The place of the row of this subject. In a table that is full there is most often none, which `contains` says
    // several times faster than the loop.
    fn find(&self, subject: &Subject) -> Option<usize>
        ensures some { IfSome result (IsFoundAt (subject_of subject.now) (table_of self.now).rows) }
        ensures none { IsNone result → IsUnknown (subject_of subject.now) (table_of self.now).rows }
    {
        let sum = subject.sum();
        if !self.sums.contains(&sum) {
            return None;
        }
        for (place, other) in self.sums.iter().enumerate() {
            if *other == sum && self.rows[place].subject.is(subject) {
                return Some(place);
            }
        }
        None
    }

    // Counts the first message of its subject.
    fn begin(&mut self, alloc: Global, most: usize, mention: Mention) -> Result<(), Fault>
        requires { IsUnknown (subject_of mention.subject) (table_of self.old).rows }
        ensures counts { OnOk result (Counts most (table_of self.old) (mention_of mention) (table_of self.new)) }
        ensures fault { OnErr result (table_of self.new ≡ table_of self.old) }
    {
        if self.rows.len() < most {
            return self.append(Row::begin(alloc, mention)?);
        }
        self.overlooked = self.overlooked.saturating_add(1);
        Ok(())
    }

    // Keeps a row behind the others.
    fn append(&mut self, row: Row) -> Result<(), Fault>
        ensures appends { OnOk result (table_of self.new ≡ record (table_of self.old) {
          rows = (table_of self.old).rows ++ (row_of row ∷ []);
        }) }
        ensures fault { OnErr result (table_of self.new ≡ table_of self.old) }
    {
        let sum = row.subject.sum();
        if self.sums.try_reserve(1).is_err() {
            return Err(Fault::Memory);
        }
        if self.rows.push(row).is_err() {
            return Err(Fault::Memory);
        }
        let _pushed = self.sums.push(sum);
        Ok(())
    }

    // Puts the rows into the order of a page.
    pub(crate) fn sort(&mut self)
        ensures sorts { Sorts (table_of self.old) (table_of self.new) }
        ensures len { length self.new.rows.items ≡ length self.old.rows.items }
    {
        self.rows.sort_unstable_by(|row, other| row.order(other));
        sum_again(&self.rows, &mut self.sums);
    }
}
