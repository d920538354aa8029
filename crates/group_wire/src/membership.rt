//! Messages about groups as values.

ghost use Rattle.std.specs.Prelude.{◌≡◌, ◌≤◌, ℕ, length, IfOk, IfErr, IsOkAnd};
ghost use Rattle.wirebase.specs.Format.{Rewrites, SameText};
ghost use Rattle.group_wire.specs.Membership.{Value, IsMessage, Refuses, Emits, text_len, pseudo_sum, format};
ghost use Rattle.group_wire.specs.Membership.{value_of};
ghost use Rattle.group_wire.specs.declared.family.Family.{Family};

mod reading;
mod writing;

use crate::address::Address;
use crate::query::Query;
use crate::records::Records;
use crate::refusal::Refusal;
use wirebase::{IpProtocol, Ipv4Address, Ipv6Address, are_bytes, checksum};

mod field {
    use wirebase::Field;

    pub const CHECKSUM: Field = 2..4;

    pub const RECORD_COUNT: Field = 6..8;

    pub const HEADER_END: usize = 8;
}

/// A message about groups: of IGMP where `A` is [`Ipv4Address`], and of MLD where it is [`Ipv6Address`].
pub type Membership<'a, A> = Message<A, Query<'a, A>, Records<'a, A>>;

/// What [`Membership`] is, with the types of what it holds as parameters.
// The borrow checker takes an enum with references and addresses of IPv6 only where its parameters bring them.
#[derive(Debug, PartialEq, Eq, Clone, Copy)]
pub enum Message<A, Q, R> {
    /// A router that speaks an older version asks which groups have members, or whether this one has: version 1 or 2 of
    /// IGMP (RFC 1112 appendix I, RFC 2236), or version 1 of MLD (RFC 2710).
    OlderQuery {
        /// The maximum response time: tenths of a second in IGMP, where 0 says that the query is of version 1, and
        /// below 256; milliseconds in MLD.
        max_resp_code: u16,
        /// The group, or the unspecified address for all.
        group: A,
    },
    /// A router asks: version 3 of IGMP (RFC 3376), or version 2 of MLD (RFC 3810).
    Query(Q),
    /// A host is a member of a group, by version 1 of IGMP (RFC 1112 appendix I). MLD has no such report; it is written
    /// as `OlderReport`.
    OldestReport {
        /// The group.
        group: A,
    },
    /// A host is a member of a group, by version 2 of IGMP (RFC 2236) or version 1 of MLD (RFC 2710).
    OlderReport {
        /// The group.
        group: A,
    },
    /// A host leaves a group, by version 2 of IGMP (RFC 2236) or version 1 of MLD (RFC 2710).
    Leave {
        /// The group.
        group: A,
    },
    /// A host says what it listens to: version 3 of IGMP (RFC 3376), or version 2 of MLD (RFC 3810).
    Report {
        /// What it says of each group.
        records: R,
    },
}

impl<'a> Message<Ipv4Address, Query<'a, Ipv4Address>, Records<'a, Ipv4Address>> {
    ghost use Rattle.wirebase.specs.Ipv4.{octets_of};

    /// The message of IGMP that these octets are; what follows it is ignored. Its checksum is verified.
    pub fn parse_igmp(octets: &'a [u8]) -> Result<Membership<'a, Ipv4Address>, Refusal>
        ensures sound { IfOk result (λ message.
            IsMessage Family.Igmp 0 octets.now (value_of octets_of message)) }
        ensures complete { (value : Value) → IsMessage Family.Igmp 0 octets.now value
            → IsOkAnd result (λ message. value_of octets_of message ≡ value) }
        ensures told { IfErr result (Refuses Family.Igmp 0 octets.now) }
        ensures rewrites { length octets.now ≤ 65515
            → IfOk result (λ message. Rewrites (format Family.Igmp (λ len. 0)) (value_of octets_of message)) }
    {
        reading::read(octets, 0)
    }

    /// Writes the message over the front of the octets, with the checksum of all of them; the other octets are
    /// unchanged. Requires at least `buffer_len` bytes; give exactly as many: in a longer buffer the checksum covers
    /// what follows, and a query of an older version is told by its length. Of a response code the lower 8 bits are
    /// written, and a robustness variable above 7 is written as 0 (RFC 3376 section 4.1.6).
    pub fn emit_igmp(&self, octets: &mut [u8])
        requires { text_len Family.Igmp (value_of octets_of self.now) ≤ length octets.old }
        ensures { Emits Family.Igmp (λ len. 0) (value_of octets_of self.now) octets.old octets.new }
    {
        writing::emit(self, octets, 0);
    }
}

impl<'a> Message<Ipv6Address, Query<'a, Ipv6Address>, Records<'a, Ipv6Address>> {
    ghost use Rattle.wirebase.specs.Ipv6Address.{octets_of};

    /// The message of MLD that these octets of ICMPv6 are, from their type on; what follows it is ignored. Its checksum
    /// is verified, with the addresses of the packet.
    pub fn parse_mld(
        octets: &'a [u8],
        src_addr: &Ipv6Address,
        dst_addr: &Ipv6Address,
    ) -> Result<Membership<'a, Ipv6Address>, Refusal>
        ensures sound { IfOk result (λ message. IsMessage Family.Mld
            (pseudo_sum src_addr.now dst_addr.now (length octets.now)) octets.now (value_of octets_of message)) }
        ensures complete { (value : Value)
            → IsMessage Family.Mld (pseudo_sum src_addr.now dst_addr.now (length octets.now)) octets.now value
            → IsOkAnd result (λ message. value_of octets_of message ≡ value) }
        ensures told { IfErr result
            (Refuses Family.Mld (pseudo_sum src_addr.now dst_addr.now (length octets.now)) octets.now) }
        ensures rewrites { length octets.now ≤ 65515
            → IfOk result (λ message. Rewrites
            (format Family.Mld (λ len. pseudo_sum src_addr.now dst_addr.now len)) (value_of octets_of message)) }
    {
        reading::read(octets, pseudo_sum(octets, src_addr, dst_addr))
    }

    /// Writes the message over the front of the octets, as one of ICMPv6, with the checksum of all of them; the other
    /// octets are unchanged. Requires at least `buffer_len` bytes; give exactly as many: in a longer buffer the
    /// checksum covers what follows, and a query of version 1 is told by its length. A robustness variable above 7 is
    /// written as 0 (RFC 3810 section 5.1.8).
    pub fn emit_mld(&self, octets: &mut [u8], src_addr: &Ipv6Address, dst_addr: &Ipv6Address)
        requires { text_len Family.Mld (value_of octets_of self.now) ≤ length octets.old }
        ensures { Emits Family.Mld (λ len. pseudo_sum src_addr.now dst_addr.now len)
            (value_of octets_of self.now) octets.old octets.new }
    {
        let extra = pseudo_sum(octets, src_addr, dst_addr);
        writing::emit(self, octets, extra);
    }
}

// The sum of the pseudo header of these octets of ICMPv6, of which the lower 32 bits of their number count.
#[tactic(auto, unfolding(icmp6_wire::specs::Icmpv6Packet::message_sum))]
fn pseudo_sum(octets: &[u8], src_addr: &Ipv6Address, dst_addr: &Ipv6Address) -> u16
    ensures { result ≡ pseudo_sum src_addr.now dst_addr.now (length octets.now) }
{
    let len = octets.len() as u64 % (1 << 32);
    checksum::pseudo_header_v6(src_addr, dst_addr, IpProtocol::Icmpv6, len as u32)
}

impl<'a, A: Address> Message<A, Query<'a, A>, Records<'a, A>> {
    /// The bytes that the message takes.
    pub fn buffer_len(&self) -> usize
        ensures { result ≡ text_len A.family (value_of A.bytes self.now) }
    {
        let family = A::family();
        match self {
            Message::Query(query) => family.older_len() + 4 + query.sources.octets.len(),
            Message::Report { records } => field::HEADER_END + records.octets.len(),
            _ => family.older_len(),
        }
    }
}

/// Does nothing; its contract states, of two messages that a packet can hold, that equal texts mean equal normal forms,
/// and conversely, whatever their pseudo headers sum to.
pub fn same_text<A: Address>(a: &Membership<'_, A>, b: &Membership<'_, A>)
    ensures { (sum : ℕ → ℕ) → SameText (format A.family sum) (value_of A.bytes a.now)
        (value_of A.bytes b.now) }
{}
