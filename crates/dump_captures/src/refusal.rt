//! Why a control packet is refused.

ghost use Rattle.std.specs.Prelude.{◌≡◌, Some};
ghost use Rattle.dump_captures.specs.Refusals.{early, frame_reason, datagram_reason, udp_reason, icmp4_reason};
ghost use Rattle.dump_captures.specs.Refusals.{dhcp_reason, dns_reason, igmp_reason, icmp6_reason, message_reason};
ghost use Rattle.dump_captures.specs.Refusals.{refusal_display, reason_of, query_reason};

use crate::kind::Reason;
use dns_fields::unread::Unread;
use frame_wire::{link, udp};
use icmp_fields::refusal::Refusal as QueryRefusal;
use icmp4_wire::{icmpv4, igmp};
use icmp6_wire::icmpv6;
use quote_wire::message::{Icmpv4Refusal, Icmpv6Refusal};
use quote_wire::{icmpv4_error, icmpv6_error};
use record_wire::TextRefusal;
use std::fmt;

/// Why a control packet is refused, as the library that reads it tells.
#[derive(Debug, PartialEq, Eq, Clone, Copy)]
pub enum Refusal {
    /// The frame of the link is refused.
    Frame(link::Refusal),
    /// The IP datagram is refused.
    Datagram(frame_wire::Refusal),
    /// The checksum of the IPv4 header does not hold.
    Header,
    /// A fragment is not taken.
    Fragment(reassembly::Refusal),
    /// It is a fragment in a datagram that was put together from fragments.
    Nested,
    /// The message is refused, or read in part.
    Message(message_fields::Refusal),
}

impl Refusal {
    /// The reason under which the packet is counted. A packet that ends too early counts as cut where the capture kept
    /// only a part of it.
    #[inline]
    pub fn reason(self, is_cut: bool) -> Reason
        ensures { result ≡ reason_of is_cut self }
    {
        match self {
            Refusal::Frame(refusal) => frame_reason(is_cut, refusal),
            Refusal::Datagram(refusal) => datagram_reason(is_cut, refusal),
            Refusal::Header => Reason::Checksum,
            Refusal::Fragment(_) | Refusal::Nested => Reason::Fragment,
            Refusal::Message(refusal) => message_reason(refusal),
        }
    }
}

// The reason for a packet that ends too early.
fn early(is_cut: bool) -> Reason
    ensures { result ≡ early is_cut }
{
    if is_cut { Reason::Cut } else { Reason::Short }
}

fn frame_reason(is_cut: bool, refusal: link::Refusal) -> Reason
    ensures { result ≡ frame_reason is_cut refusal }
{
    match refusal {
        link::Refusal::Short | link::Refusal::Tag | link::Refusal::Protocol => early(is_cut),
        link::Refusal::SessionVersion(_)
        | link::Refusal::SessionType(_)
        | link::Refusal::SessionCode(_)
        | link::Refusal::FrameRelayAddress
        | link::Refusal::FrameRelayControl(_)
        | link::Refusal::NflogVersion(_)
        | link::Refusal::NflogLen(_) => Reason::Malformed,
    }
}

fn datagram_reason(is_cut: bool, refusal: frame_wire::Refusal) -> Reason
    ensures { result ≡ datagram_reason is_cut refusal }
{
    match refusal {
        frame_wire::Refusal::Short | frame_wire::Refusal::Cut(_) => early(is_cut),
        frame_wire::Refusal::Fragment(_) => Reason::Fragment,
        frame_wire::Refusal::Version(_)
        | frame_wire::Refusal::HeaderLen(_)
        | frame_wire::Refusal::TotalLen(_)
        | frame_wire::Refusal::Jumbogram
        | frame_wire::Refusal::Extension(_) => Reason::Malformed,
    }
}

fn message_reason(refusal: message_fields::Refusal) -> Reason
    ensures { result ≡ message_reason refusal }
{
    match refusal {
        message_fields::Refusal::Checksum => Reason::Checksum,
        message_fields::Refusal::Udp(refusal) => udp_reason(refusal),
        message_fields::Refusal::Cut => Reason::Short,
        message_fields::Refusal::Icmp4(refusal) => icmp4_reason(refusal),
        message_fields::Refusal::Igmp(refusal) => igmp_reason(refusal),
        message_fields::Refusal::Icmp6(refusal) => icmp6_reason(refusal),
        message_fields::Refusal::Query(refusal) => query_reason(refusal),
        message_fields::Refusal::Lack(_) => Reason::Short,
        message_fields::Refusal::Dhcp(refusal) => dhcp_reason(refusal),
        message_fields::Refusal::Dns(unread) => dns_reason(unread),
    }
}

fn query_reason(refusal: QueryRefusal) -> Reason
    ensures { result ≡ query_reason refusal }
{
    match refusal {
        QueryRefusal::Length | QueryRefusal::Cut => Reason::Short,
        QueryRefusal::Code(_) | QueryRefusal::NoRouters | QueryRefusal::EntrySize(_) => {
            Reason::Malformed
        }
    }
}

fn dhcp_reason(refusal: dhcp_fields::Refusal) -> Reason
    ensures { result ≡ dhcp_reason refusal }
{
    match refusal {
        dhcp_fields::Refusal::Short => Reason::Short,
        dhcp_fields::Refusal::MagicCookie | dhcp_fields::Refusal::OptionCut(_) => Reason::Malformed,
    }
}

fn dns_reason(unread: Unread) -> Reason
    ensures { result ≡ dns_reason unread }
{
    match unread {
        Unread::Header => Reason::Short,
        Unread::Question(_)
        | Unread::Record(TextRefusal::Owner(_))
        | Unread::Record(TextRefusal::DataName(_)) => Reason::Name,
        Unread::Entry(..)
        | Unread::Record(TextRefusal::Data(_))
        | Unread::Option(_)
        | Unread::Addresses
        | Unread::Names => Reason::Malformed,
    }
}

fn udp_reason(refusal: udp::Refusal) -> Reason
    ensures { result ≡ udp_reason refusal }
{
    match refusal {
        udp::Refusal::Short | udp::Refusal::Length(_) | udp::Refusal::Cut(_) => Reason::Short,
        udp::Refusal::NoChecksum | udp::Refusal::Checksum => Reason::Checksum,
        udp::Refusal::Port => Reason::Malformed,
    }
}

fn icmp4_reason(refusal: Icmpv4Refusal) -> Reason
    ensures { result ≡ icmp4_reason refusal }
{
    match refusal {
        Icmpv4Refusal::Error(icmpv4_error::Refusal::Short)
        | Icmpv4Refusal::Message(icmpv4::Refusal::Short) => Reason::Short,
        Icmpv4Refusal::Error(icmpv4_error::Refusal::Checksum)
        | Icmpv4Refusal::Message(icmpv4::Refusal::Checksum) => Reason::Checksum,
        Icmpv4Refusal::Error(icmpv4_error::Refusal::UnknownType(_))
        | Icmpv4Refusal::Message(icmpv4::Refusal::UnknownType(_)) => Reason::UnknownType,
        Icmpv4Refusal::Error(icmpv4_error::Refusal::Quote(_)) => Reason::Quote,
        Icmpv4Refusal::Message(_) => Reason::Malformed,
    }
}

fn igmp_reason(refusal: igmp::Refusal) -> Reason
    ensures { result ≡ igmp_reason refusal }
{
    match refusal {
        igmp::Refusal::Short => Reason::Short,
        igmp::Refusal::UnknownType(_) => Reason::UnknownType,
        igmp::Refusal::Group(_) => Reason::Malformed,
    }
}

fn icmp6_reason(refusal: Icmpv6Refusal) -> Reason
    ensures { result ≡ icmp6_reason refusal }
{
    match refusal {
        Icmpv6Refusal::Error(icmpv6_error::Refusal::Short)
        | Icmpv6Refusal::Message(icmpv6::Refusal::Short)
        | Icmpv6Refusal::Message(icmpv6::Refusal::Length) => Reason::Short,
        Icmpv6Refusal::Error(icmpv6_error::Refusal::Checksum)
        | Icmpv6Refusal::Message(icmpv6::Refusal::Checksum) => Reason::Checksum,
        Icmpv6Refusal::Error(icmpv6_error::Refusal::UnknownType(_))
        | Icmpv6Refusal::Message(icmpv6::Refusal::UnknownType(_)) => Reason::UnknownType,
        Icmpv6Refusal::Error(icmpv6_error::Refusal::Quote(_)) => Reason::Quote,
        Icmpv6Refusal::Message(_) => Reason::Malformed,
    }
}

/// The reason as a phrase.
impl fmt::Display for Refusal {
    ghost output = { λ refusal. Some (refusal_display refusal) };

    fn fmt<W: fmt::Write>(&self, f: &mut fmt::Formatter<W>) -> fmt::Result {
        match self {
            Refusal::Frame(refusal) => write!(f, "{refusal}"),
            Refusal::Datagram(refusal) => write!(f, "{refusal}"),
            Refusal::Header => write!(f, "the checksum of the IPv4 header does not hold"),
            Refusal::Fragment(refusal) => write!(f, "a fragment: {refusal}"),
            Refusal::Nested => write!(f, "a fragment in a datagram that was put together"),
            Refusal::Message(refusal) => write!(f, "{refusal}"),
        }
    }
}
