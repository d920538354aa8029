//! What is counted of all messages.

ghost use Rattle.std.specs.Prelude.{◌≤◌, length};

use crate::row::Mention;
use crate::subject::Subject;
use crate::table::{Fault, MOST_ROWS, MOST_SERVERS, Table};
use std::alloc::Global;

/// What the control packets of a capture say, counted in tables of at most `MOST_ROWS` rows, and of `MOST_SERVERS`
/// servers: less than 20 MB. A table that is full takes no new row, and counts what it did not take.
#[derive(Drop)]
pub struct Stats {
    pub(crate) questions: Table,
    pub(crate) rcodes: Table,
    pub(crate) servers: Table,
    pub(crate) clients: Table,
    pub(crate) leases: Table,
    pub(crate) members: Table,
    pub(crate) sources: Table,
    pub(crate) neighbors: Table,
    pub(crate) routers: Table,
    pub(crate) prefixes: Table,
    pub ghost few_questions: { length questions.rows.items ≤ 1024 },
    pub ghost few_rcodes: { length rcodes.rows.items ≤ 1024 },
    pub ghost few_servers: { length servers.rows.items ≤ 256 },
    pub ghost few_clients: { length clients.rows.items ≤ 1024 },
    pub ghost few_leases: { length leases.rows.items ≤ 1024 },
    pub ghost few_members: { length members.rows.items ≤ 1024 },
    pub ghost few_sources: { length sources.rows.items ≤ 1024 },
    pub ghost few_neighbors: { length neighbors.rows.items ≤ 1024 },
    pub ghost few_routers: { length routers.rows.items ≤ 1024 },
    pub ghost few_prefixes: { length prefixes.rows.items ≤ 1024 },
}

impl Stats {
    ghost use Rattle.std.specs.Prelude.{◌≡◌, [], ◌∷◌, OnErr, OnOk};
    ghost use Rattle.packet_stats.specs.Bounds.{IsWithinBounds};
    ghost use Rattle.packet_stats.specs.Row.{said_of};
    ghost use Rattle.packet_stats.specs.Stats.{CountsAll, CountsOne, CountsSome, SortsAll, no_messages, state_of};
    ghost use Rattle.packet_stats.specs.Subject.{subject_of};
    ghost use Rattle.packet_stats.specs.private.Mentions.{mention_of};

    /// No message was counted yet.
    #[tactic(auto, using(crate::proofs::Bounds::bounds_of))]
    pub fn new(alloc: Global) -> Stats
        ensures state { state_of result ≡ no_messages }
        ensures bounds { IsWithinBounds (state_of result) }
    {
        Stats {
            questions: Table::new(alloc),
            rcodes: Table::new(alloc),
            servers: Table::new(alloc),
            clients: Table::new(alloc),
            leases: Table::new(alloc),
            members: Table::new(alloc),
            sources: Table::new(alloc),
            neighbors: Table::new(alloc),
            routers: Table::new(alloc),
            prefixes: Table::new(alloc),
        }
    }

    // Counts what a message says of a subject.
    pub(crate) fn mention(&mut self, alloc: Global, mention: Mention) -> Result<(), Fault>
        ensures counts { OnOk result (CountsOne (state_of self.old) (mention_of mention) (state_of self.new)) }
        ensures fault { OnErr result (state_of self.new ≡ state_of self.old) }
    {
        match &mention.subject {
            Subject::Question(..) => self.questions.count(alloc, MOST_ROWS, mention),
            Subject::Rcode(_) => self.rcodes.count(alloc, MOST_ROWS, mention),
            Subject::Server(_) => self.servers.count(alloc, MOST_SERVERS, mention),
            Subject::Client(_) => self.clients.count(alloc, MOST_ROWS, mention),
            Subject::Lease(..) => self.leases.count(alloc, MOST_ROWS, mention),
            Subject::Member(..) => self.members.count(alloc, MOST_ROWS, mention),
            Subject::Source(_) => self.sources.count(alloc, MOST_ROWS, mention),
            Subject::Neighbor(..) => self.neighbors.count(alloc, MOST_ROWS, mention),
            Subject::Router(_) => self.routers.count(alloc, MOST_ROWS, mention),
            Subject::Prefix(..) => self.prefixes.count(alloc, MOST_ROWS, mention),
        }
    }

    // Counts a subject that a message speaks of.
    pub(crate) fn count_subject(&mut self, alloc: Global, subject: Subject) -> Result<(), Fault>
        ensures counts { OnOk result (CountsAll (state_of self.old) (said_of (subject_of subject) ∷ [])
            (state_of self.new)) }
        ensures fault { OnErr result (CountsSome (state_of self.old) (said_of (subject_of subject) ∷ [])
            (state_of self.new)) }
    {
        self.mention(
            alloc,
            Mention {
                subject,
                after: None,
            },
        )
    }

    // Puts each table into the order of a page.
    pub(crate) fn sort(&mut self)
        ensures { SortsAll (state_of self.old) (state_of self.new) }
    {
        self.questions.sort();
        self.rcodes.sort();
        self.servers.sort();
        self.clients.sort();
        self.leases.sort();
        self.members.sort();
        self.sources.sort();
        self.neighbors.sort();
        self.routers.sort();
        self.prefixes.sort();
    }
}
