//! The number of packets of each kind in a capture, and their outcomes.

ghost use Rattle.std.specs.Prelude.{◌≡◌};
ghost use Rattle.dump_captures.specs.Tally.{tally_of, alone, counted as counted_in, empty, no_row, with_listed};
ghost use Rattle.dump_captures.specs.Tally.{with_refused};

use crate::counts::{Category, Counts};
use crate::kind::{KINDS, Kind, REASONS, Reason};

/// The outcome for a packet.
#[derive(Debug, PartialEq, Eq, Clone, Copy)]
pub enum Outcome {
    /// Its frame is of an unsupported link.
    Unread,
    /// It is of another protocol.
    Other(Category),
    /// It is a fragment that was kept, or is there already; its datagram, of this protocol, lacks others.
    Kept(Category),
    /// It is a control packet that is not chosen.
    Passed,
    /// It is a control packet of this kind, and was listed.
    Listed(Kind),
    /// It is a control packet of this kind, and was refused for this reason.
    Refused(Kind, Reason),
}

/// The control packets of one kind.
#[derive(Debug, PartialEq, Eq, Clone, Copy)]
pub struct Row {
    /// The number of listed packets.
    pub listed: u64,
    /// The number of refused packets, for each reason, by its index.
    pub refused: [u64; REASONS],
    /// The number of their bytes that were captured.
    pub octets: u64,
}

impl Row {
    // No packets.
    fn new() -> Row
        ensures { result ≡ no_row }
    {
        Row {
            listed: 0,
            refused: [0; REASONS],
            octets: 0,
        }
    }

    // The numbers with one more that was listed, of this many captured bytes.
    fn with_listed(self, octets: u64) -> Row
        ensures { result ≡ with_listed octets self }
    {
        let refused = self.refused;
        Row {
            listed: self.listed.saturating_add(1),
            refused,
            octets: self.octets.saturating_add(octets),
        }
    }

    // The numbers with one more that was refused.
    fn with_refused(self, reason: Reason, octets: u64) -> Row
        ensures { result ≡ with_refused reason octets self }
    {
        let place = reason.place();
        let mut refused = self.refused;
        refused[place] = refused[place].saturating_add(1);
        Row {
            listed: self.listed,
            refused,
            octets: self.octets.saturating_add(octets),
        }
    }
}

/// What is counted of a packet.
#[derive(Debug, PartialEq, Eq, Clone, Copy)]
pub struct Counted {
    /// Its outcome.
    pub outcome: Outcome,
    /// The number of packets before it whose fragments it was put together with.
    pub joined: u64,
}

impl Counted {
    /// A packet that no fragment was put together with.
    pub fn alone(outcome: Outcome) -> Counted
        ensures { result ≡ alone outcome }
    {
        Counted { outcome, joined: 0 }
    }
}

/// The numbers of packets. Each number stops at the greatest of 64 bits.
#[derive(Drop)]
pub struct Tally {
    /// All packets.
    pub packets: u64,
    /// The control packets that are not chosen.
    pub passed: u64,
    /// The control packets of each kind, by its index.
    pub rows: [Row; KINDS],
    /// Packets of other protocols.
    pub others: Counts,
    /// Fragments that were kept, by the protocols that they name.
    pub fragments: Counts,
    /// Those of them that were put together with a later packet.
    pub joined: u64,
    /// The frames of unsupported links.
    pub links: Counts,
}

impl Tally {
    /// No packets.
    #[inline]
    pub fn new() -> Tally
        ensures { tally_of result ≡ empty }
    {
        Tally {
            packets: 0,
            passed: 0,
            rows: [Row::new(); KINDS],
            others: Counts::new(),
            fragments: Counts::new(),
            joined: 0,
            links: Counts::new(),
        }
    }

    /// Counts a packet of this link, of which this many bytes were captured.
    #[inline]
    pub fn count(&mut self, counted: Counted, link_type: u16, octets: u64)
        ensures { tally_of self.new ≡ counted_in counted link_type octets (tally_of self.old) }
    {
        self.packets = self.packets.saturating_add(1);
        self.joined = self.joined.saturating_add(counted.joined);
        match counted.outcome {
            Outcome::Unread => self.links.add(Category::Link(link_type)),
            Outcome::Other(category) => self.others.add(category),
            Outcome::Kept(category) => self.fragments.add(category),
            Outcome::Passed => self.passed = self.passed.saturating_add(1),
            Outcome::Listed(kind) => {
                let place = kind.place();
                self.rows[place] = self.rows[place].with_listed(octets);
            }
            Outcome::Refused(kind, reason) => {
                let place = kind.place();
                self.rows[place] = self.rows[place].with_refused(reason, octets);
            }
        }
    }
}
