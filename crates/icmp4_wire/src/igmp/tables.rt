//! The numbers of messages (RFC 2236 section 2.1).

ghost use Rattle.std.specs.Prelude.{◌≡◌, Some};
ghost use Rattle.wirebase.specs.Numbered.{IsProper, IsTable};
ghost use Rattle.icmp4_wire.specs.Igmp.{message_number, message_rows, message_of};
ghost use Rattle.icmp4_wire.specs.IgmpDisplay.{message_display};

use std::fmt;

/// The type of a message, one byte (RFC 2236 section 2.1).
#[derive(Debug, PartialEq, Eq, PartialOrd, Ord, Clone, Copy)]
pub enum Message {
    /// A router asks which groups have members.
    MembershipQuery,
    /// A host is a member of a group, in version 2.
    MembershipReportV2,
    /// A host leaves a group.
    LeaveGroup,
    /// A host is a member of a group, in version 1.
    MembershipReportV1,
    /// Any other type, by its number.
    Unknown(u8),
}

impl From<u8> for Message {
    ghost from_gives = { λ number message. message ≡ message_of number };

    fn from(number: u8) -> Message
        ensures value { result ≡ message_of number }
        ensures back { message_number result ≡ number }
        ensures table { IsTable ⟦<Message as Ord>⟧.cmp Message.Unknown message_rows }
    {
        match number {
            0x11 => Message::MembershipQuery,
            0x16 => Message::MembershipReportV2,
            0x17 => Message::LeaveGroup,
            0x12 => Message::MembershipReportV1,
            other => Message::Unknown(other),
        }
    }
}

impl From<Message> for u8 {
    ghost from_gives = { λ message number. number ≡ message_number message };

    fn from(message: Message) -> u8
        ensures value { result ≡ message_number message }
        ensures back { IsProper Message.Unknown message_rows message → message_of result ≡ message }
    {
        match message {
            Message::MembershipQuery => 0x11,
            Message::MembershipReportV2 => 0x16,
            Message::LeaveGroup => 0x17,
            Message::MembershipReportV1 => 0x12,
            Message::Unknown(other) => other,
        }
    }
}

/// The type in words, or its number.
impl fmt::Display for Message {
    ghost output = { λ message. Some (message_display message) };

    fn fmt<W: fmt::Write>(&self, f: &mut fmt::Formatter<W>) -> fmt::Result {
        let words = match self {
            Message::MembershipQuery => "membership query",
            Message::MembershipReportV2 => "version 2 membership report",
            Message::LeaveGroup => "leave group",
            Message::MembershipReportV1 => "version 1 membership report",
            Message::Unknown(number) => return write!(f, "{number}"),
        };
        f.write_str(words)
    }
}
