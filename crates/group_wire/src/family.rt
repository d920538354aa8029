//! The two protocols, and what differs between their messages.

ghost use Rattle.std.specs.Prelude.{◌≡◌};
ghost use Rattle.group_wire.specs.Family.{width, group_at, older_len, kind_number, kind_of};

/// The protocol of a message about groups.
#[derive(Debug, PartialEq, Eq, Clone, Copy)]
pub enum Family {
    /// Over IPv4: version 1 (RFC 1112 appendix I), 2 (RFC 2236) and 3 (RFC 3376).
    Igmp,
    /// Over IPv6, as messages of ICMPv6: version 1 (RFC 2710) and 2 (RFC 3810).
    Mld,
}

// The kinds of message that both protocols have, but for the oldest report, which only IGMP has.
#[derive(Debug, PartialEq, Eq, Clone, Copy)]
pub(crate) enum Kind {
    Query,
    OldestReport,
    OlderReport,
    Leave,
    Report,
}

impl Family {
    /// The bytes of an address: 4 or 16.
    pub fn width(self) -> usize
        ensures { result ≡ width self }
    {
        match self {
            Family::Igmp => 4,
            Family::Mld => 16,
        }
    }

    // Where the group of a message with one group begins.
    pub(crate) fn group_at(self) -> usize
        ensures { result ≡ group_at self }
    {
        match self {
            Family::Igmp => 4,
            Family::Mld => 8,
        }
    }

    // The bytes of a message of an older version.
    pub(crate) fn older_len(self) -> usize
        ensures { result ≡ older_len self }
    {
        self.group_at() + self.width()
    }

    // The type of a message of this kind.
    pub(crate) fn number(self, kind: Kind) -> u8
        ensures { result ≡ kind_number self kind }
    {
        match self {
            Family::Igmp => match kind {
                Kind::Query => 0x11,
                Kind::OldestReport => 0x12,
                Kind::OlderReport => 0x16,
                Kind::Leave => 0x17,
                Kind::Report => 0x22,
            },
            Family::Mld => match kind {
                Kind::Query => 130,
                Kind::OldestReport | Kind::OlderReport => 131,
                Kind::Leave => 132,
                Kind::Report => 143,
            },
        }
    }

    // The kind of message that has this type.
    pub(crate) fn kind(self, number: u8) -> Option<Kind>
        ensures { result ≡ kind_of self number }
    {
        match self {
            Family::Igmp => match number {
                0x11 => Some(Kind::Query),
                0x12 => Some(Kind::OldestReport),
                0x16 => Some(Kind::OlderReport),
                0x17 => Some(Kind::Leave),
                0x22 => Some(Kind::Report),
                _ => None,
            },
            Family::Mld => match number {
                130 => Some(Kind::Query),
                131 => Some(Kind::OlderReport),
                132 => Some(Kind::Leave),
                143 => Some(Kind::Report),
                _ => None,
            },
        }
    }
}
