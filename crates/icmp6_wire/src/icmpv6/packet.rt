//! The view of a message (RFC 4443 section 2.1).

ghost use Rattle.std.specs.Prelude.{◌≡◌, ◌↔◌, ◌≤◌, ◌-◌, [], ◌∷◌, length, IsTrue, IsOk, IfOk};
ghost use Rattle.std.specs.Borrow.{sem, Lends, Array, u8 as byte};
ghost use Rattle.byteorder.specs.Endian.{big_bytes};
ghost use Rattle.wirebase.specs.Bytes.{splice, Reaches, byte_of, number_of};
ghost use Rattle.wirebase.specs.Checksum.{fold, IsGood, sealed};
ghost use Rattle.wirebase.specs.Icmp.{type_field, code_field, checksum_field, ident_field, seq_no_field};
ghost use Rattle.wirebase.specs.View.{Sets, KeepsLen};
ghost use Rattle.icmp6_wire.specs.Icmpv6Tables.{message_number};
ghost use Rattle.icmp6_wire.specs.Icmpv6Packet.{inner, with_inner, view_octets, word_field, message_in, header_len_of};
ghost use Rattle.icmp6_wire.specs.Icmpv6Packet.{header_len_in, payload_in, BeginsWhole, cleared, CanClear, message_sum};
ghost use Rattle.icmp6_wire.specs.contracts.icmpv6.packet.Packet.{the_row};

use super::field;
use super::tables::Message;
use wirebase::{Error, IpProtocol, Ipv6Address, Octets, OctetsMut, Result, checksum};

/// A view of the octets of a message.
#[derive(Debug, Clone, Drop)]
pub struct Packet<T: Octets> {
    pub(crate) buffer: T,
}

impl<T: Octets> Packet<T> {
    /// Makes a view of `buffer`; its length is not checked.
    pub const fn new_unchecked(buffer: T) -> Packet<T>
        ensures { inner result ≡ buffer }
    {
        Packet { buffer }
    }

    /// Makes a view of `buffer`. Refused where it doesn't begin with a header of a type that is read here. On refusal
    /// the buffer is dropped: to keep a `&mut [u8]`, call `new_unchecked` and then `check_len`.
    pub fn new_checked(buffer: T) -> Result<Packet<T>>
        ensures accepts { IsOk result ↔ BeginsWhole (T.bytes buffer) }
        ensures buffer { IfOk result (λ view. inner view ≡ buffer) }
    {
        let packet = Packet::new_unchecked(buffer);
        packet.check_len()?;
        Ok(packet)
    }

    /// Accepts octets that begin with a header of a type that is read here: every named type but that of RPL. Then each
    /// accessor of the type may be called.
    pub fn check_len(&self) -> Result<()>
        ensures accepts { IsOk result ↔ BeginsWhole (T.bytes (inner self.now)) }
    {
        let _kind = self.checked_type()?;
        Ok(())
    }

    // The type, looked up once. Refused where the octets don't begin with a header of a type that is read here.
    pub(crate) fn checked_type(&self) -> Result<Message>
        ensures accepts { IsOk result ↔ BeginsWhole (T.bytes (inner self.now)) }
        ensures value { IfOk result (λ kind. kind ≡ message_in (T.bytes (inner self.now))) }
    {
        let len = self.buffer.octets().len();
        if len < field::HEADER_END {
            return Err(Error);
        }
        let kind = self.msg_type();
        // Before the check of the length: after it, the compiler computes the length of a query before it looks up the
        // type, for messages of all types.
        if let Message::RplControl | Message::Unknown(_) = kind {
            return Err(Error);
        }
        if len < header_len_of(kind) {
            return Err(Error);
        }
        Ok(kind)
    }

    /// Returns the buffer of the view.
    pub fn into_inner(self) -> T
        ensures { result ≡ inner self }
    {
        self.buffer
    }

    /// All the octets.
    pub fn as_ref(&self) -> &[u8]
        ensures { result.now ≡ T.bytes (inner self.now) }
    {
        self.buffer.octets()
    }

    /// The type. Requires at least 1 byte.
    #[inline]
    pub fn msg_type(&self) -> Message
        requires { Reaches type_field (T.bytes (inner self.now)) }
        ensures { result ≡ message_in (T.bytes (inner self.now)) }
    {
        Message::from(self.buffer.u8_at(field::TYPE))
    }

    /// The code. Requires at least 2 bytes.
    pub fn msg_code(&self) -> u8
        requires { Reaches code_field (T.bytes (inner self.now)) }
        ensures { result ≡ byte_of code_field (T.bytes (inner self.now)) }
    {
        self.buffer.u8_at(field::CODE)
    }

    /// The checksum that the message carries. Requires at least 4 bytes.
    pub fn checksum(&self) -> u16
        requires { Reaches checksum_field (T.bytes (inner self.now)) }
        ensures { result ≡ number_of checksum_field (T.bytes (inner self.now)) }
    {
        self.buffer.u16_at(field::CHECKSUM)
    }

    /// The identifier of an echo. Requires at least 6 bytes.
    pub fn echo_ident(&self) -> u16
        requires { Reaches ident_field (T.bytes (inner self.now)) }
        ensures { result ≡ number_of ident_field (T.bytes (inner self.now)) }
    {
        self.buffer.u16_at(field::ECHO_IDENT)
    }

    /// The sequence number of an echo. Requires at least 8 bytes.
    pub fn echo_seq_no(&self) -> u16
        requires { Reaches seq_no_field (T.bytes (inner self.now)) }
        ensures { result ≡ number_of seq_no_field (T.bytes (inner self.now)) }
    {
        self.buffer.u16_at(field::ECHO_SEQNO)
    }

    /// The bytes of the largest packet that the next link can carry, of a packet that is too big (RFC 4443 section
    /// 3.2). Requires at least 8 bytes.
    pub fn pkt_too_big_mtu(&self) -> u32
        requires { Reaches word_field (T.bytes (inner self.now)) }
        ensures { result ≡ number_of word_field (T.bytes (inner self.now)) }
    {
        self.buffer.u32_at(field::MTU)
    }

    /// The place of a parameter problem in the quoted packet, counted from its first byte (RFC 4443 section 3.4).
    /// Requires at least 8 bytes.
    pub fn param_problem_ptr(&self) -> u32
        requires { Reaches word_field (T.bytes (inner self.now)) }
        ensures { result ≡ number_of word_field (T.bytes (inner self.now)) }
    {
        self.buffer.u32_at(field::POINTER)
    }

    /// The bytes of the header, by the type; 4 of a type that is not read here. Requires at least 1 byte.
    pub fn header_len(&self) -> usize
        requires { Reaches type_field (T.bytes (inner self.now)) }
        ensures { result ≡ header_len_in (T.bytes (inner self.now)) }
    {
        header_len_of(self.msg_type())
    }

    /// Whether all the octets together carry the checksum of a message from `src_addr` to `dst_addr` (RFC 4443 section
    /// 2.3).
    #[tactic(auto, using(wirebase::proofs::PseudoSeals::pseudo_seals))]
    pub fn verify_checksum(&self, src_addr: &Ipv6Address, dst_addr: &Ipv6Address) -> bool
        ensures { IsTrue result ↔ IsGood (T.bytes (inner self.now))
            (message_sum src_addr.now dst_addr.now (length (T.bytes (inner self.now)))) }
    {
        let octets = self.buffer.octets();
        checksum::is_good(octets, sum_before(octets, src_addr, dst_addr))
    }
}

impl<'a> Packet<&'a [u8]> {
    /// What follows the header, for as long as the octets live. Requires the header of the type.
    pub fn payload(&self) -> &'a [u8]
        requires kind { Reaches type_field (view_octets self.now) }
        requires whole { header_len_in (view_octets self.now) ≤ length (view_octets self.now) }
        ensures { result.now ≡ payload_in (view_octets self.now) }
    {
        self.behind(self.msg_type())
    }

    // `payload` where the type is known.
    pub(crate) fn behind(&self, kind: Message) -> &'a [u8]
        requires kind { kind ≡ message_in (view_octets self.now) }
        requires whole { header_len_in (view_octets self.now) ≤ length (view_octets self.now) }
        ensures { result.now ≡ payload_in (view_octets self.now) }
    {
        &self.buffer[header_len_of(kind)..]
    }
}

impl<T: OctetsMut> Packet<T> {
    /// Writes the type. Requires at least 1 byte.
    pub fn set_msg_type(&mut self, value: Message)
        requires { Reaches type_field (T.bytes (inner self.old)) }
        ensures writes { Sets inner T.bytes T.put self.old self.new type_field
            (message_number value ∷ []) }
        ensures len { KeepsLen inner T.bytes self.old self.new }
    {
        self.buffer.set_u8(field::TYPE, value.into());
    }

    /// Writes the code. Requires at least 2 bytes.
    pub fn set_msg_code(&mut self, value: u8)
        requires { Reaches code_field (T.bytes (inner self.old)) }
        ensures writes { Sets inner T.bytes T.put self.old self.new code_field (value ∷ []) }
        ensures len { KeepsLen inner T.bytes self.old self.new }
    {
        self.buffer.set_u8(field::CODE, value);
    }

    /// Writes zeros into the reserved fields of a message, by its type: of router and neighbor solicitations, neighbor
    /// advertisements and redirects the word after the checksum; of a query for listeners two bytes, and the upper half
    /// of the byte with the flag; of a report two bytes. Requires one of these types, and the bytes up to the end of
    /// these fields: 8, 25 of a query, 6 of a report.
    pub fn clear_reserved(&mut self)
        requires kind { Reaches type_field (T.bytes (inner self.old)) }
        requires known { CanClear (message_in (T.bytes (inner self.old)))
            (T.bytes (inner self.old)) }
        ensures clears { inner self.new ≡ T.put (inner self.old)
            (cleared (message_in (T.bytes (inner self.old))) (T.bytes (inner self.old))) }
        ensures len { KeepsLen inner T.bytes self.old self.new }
    {
        match self.msg_type() {
            Message::MldQuery => {
                let kept = self.buffer.u8_at(field::SQRV) % 16;
                self.buffer.set_u16(field::QUERY_RESERVED, 0);
                self.buffer.set_u8(field::SQRV, kept);
            }
            Message::MldReport => self.buffer.set_u16(field::REPORT_RESERVED, 0),
            _ => self.buffer.set_u32(field::UNUSED, 0),
        }
    }

    /// Writes the checksum. Requires at least 4 bytes.
    pub fn set_checksum(&mut self, value: u16)
        requires { Reaches checksum_field (T.bytes (inner self.old)) }
        ensures writes { Sets inner T.bytes T.put self.old self.new checksum_field (big_bytes 2 value) }
        ensures len { KeepsLen inner T.bytes self.old self.new }
    {
        self.buffer.set_u16(field::CHECKSUM, value);
    }

    /// Writes the identifier of an echo. Requires at least 6 bytes.
    pub fn set_echo_ident(&mut self, value: u16)
        requires { Reaches ident_field (T.bytes (inner self.old)) }
        ensures writes { Sets inner T.bytes T.put self.old self.new ident_field (big_bytes 2 value) }
        ensures len { KeepsLen inner T.bytes self.old self.new }
    {
        self.buffer.set_u16(field::ECHO_IDENT, value);
    }

    /// Writes the sequence number of an echo. Requires at least 8 bytes.
    pub fn set_echo_seq_no(&mut self, value: u16)
        requires { Reaches seq_no_field (T.bytes (inner self.old)) }
        ensures writes { Sets inner T.bytes T.put self.old self.new seq_no_field (big_bytes 2 value) }
        ensures len { KeepsLen inner T.bytes self.old self.new }
    {
        self.buffer.set_u16(field::ECHO_SEQNO, value);
    }

    /// Writes the bytes of the largest packet that the next link can carry (RFC 4443 section 3.2). Requires at least 8
    /// bytes.
    pub fn set_pkt_too_big_mtu(&mut self, value: u32)
        requires { Reaches word_field (T.bytes (inner self.old)) }
        ensures writes { Sets inner T.bytes T.put self.old self.new word_field (big_bytes 4 value) }
        ensures len { KeepsLen inner T.bytes self.old self.new }
    {
        self.buffer.set_u32(field::MTU, value);
    }

    /// Writes the place of a parameter problem in the quoted packet (RFC 4443 section 3.4). Requires at least 8 bytes.
    pub fn set_param_problem_ptr(&mut self, value: u32)
        requires { Reaches word_field (T.bytes (inner self.old)) }
        ensures writes { Sets inner T.bytes T.put self.old self.new word_field (big_bytes 4 value) }
        ensures len { KeepsLen inner T.bytes self.old self.new }
    {
        self.buffer.set_u32(field::POINTER, value);
    }

    /// Writes the checksum of all the octets as a message from `src_addr` to `dst_addr`, in which its field counts as
    /// zero (RFC 4443 section 2.3). Requires at least 4 bytes.
    pub fn fill_checksum(&mut self, src_addr: &Ipv6Address, dst_addr: &Ipv6Address)
        requires { Reaches checksum_field (T.bytes (inner self.old)) }
        ensures sealed { inner self.new ≡ T.put (inner self.old)
            (sealed checksum_field (T.bytes (inner self.old))
            (message_sum src_addr.now dst_addr.now (length (T.bytes (inner self.old))))) }
        ensures len { KeepsLen inner T.bytes self.old self.new }
        ensures good { IsGood (T.bytes (inner self.new))
            (message_sum src_addr.now dst_addr.now (length (T.bytes (inner self.old)))) }
    {
        fill(self.buffer.octets_mut(), src_addr, dst_addr);
    }

    /// Lends what follows the header for writing; the header is unchanged. Requires the header of the type.
    #[tactic(auto, using(wirebase::proofs::Pieces::pieces))]
    pub fn payload_mut(&mut self) -> &mut [u8]
        requires kind { Reaches type_field (T.bytes (inner self.old)) }
        requires whole { header_len_in (T.bytes (inner self.old)) ≤ length
            (T.bytes (inner self.old)) }
        ensures* lends { sem 𝓛 (Lends (the_row T.row) (Array byte 0) self.entry result
            (λ w. with_inner self.old (T.put (inner self.old) (splice (T.bytes (inner self.old))
            (header_len_in (T.bytes (inner self.old))) (length (T.bytes (inner self.old))) w)))) }
        ensures value { result.now ≡ payload_in (T.bytes (inner self.old)) }
        ensures len { length result.now
            ≡ length (T.bytes (inner self.old)) - header_len_in (T.bytes (inner self.old)) }
    {
        let start = self.header_len();
        let len = self.buffer.octets().len();
        self.buffer.range_mut(start, len)
    }
}

/// Views are equal where their octets are equal.
impl<T: Octets> PartialEq for Packet<T> {
    ghost use Rattle.std.specs.Prelude.{◌==◌};
    ghost use Rattle.std.proofs.Common.{rules};
    ghost use Rattle.std.specs.Cmp.Lexicographic.{pointwise};
    ghost use Rattle.std.specs.Cmp.Rules.{comparing};
    ghost use Rattle.std.specs.Ordering.{on};

    ghost eq = { on (λ view. T.bytes (inner view)) (pointwise ◌==◌) };

    ghost laws = { Prim.search (comparing, rules) };

    fn eq(&self, other: &Packet<T>) -> bool
        ensures { IsTrue result ↔ (T.bytes (inner self.now) ≡ T.bytes (inner other.now)) }
    {
        self.buffer.octets() == other.buffer.octets()
    }
}

impl<T: Octets> Eq for Packet<T> {
    ghost use Rattle.std.proofs.Common.{rules};
    ghost use Rattle.std.specs.Cmp.Rules.{comparing};

    ghost laws = { Prim.search (comparing, rules) };
}

// The bytes of the header of a type; 4 of one that is not read here.
fn header_len_of(kind: Message) -> usize
    ensures { result ≡ header_len_of kind }
{
    match kind {
        Message::DstUnreachable | Message::TimeExceeded => field::UNUSED.end,
        Message::PktTooBig => field::MTU.end,
        Message::ParamProblem => field::POINTER.end,
        Message::EchoRequest | Message::EchoReply => field::ECHO_SEQNO.end,
        Message::MldQuery => field::QUERY_NUM_SRCS.end,
        Message::MldReport => field::NR_MCAST_RCRDS.end,
        Message::RouterSolicit => field::UNUSED.end,
        Message::RouterAdvert => field::RETRANS_TM.end,
        Message::NeighborSolicit | Message::NeighborAdvert => field::TARGET_ADDR.end,
        Message::Redirect => field::DEST_ADDR.end,
        Message::RplControl | Message::Unknown(_) => field::CHECKSUM.end,
    }
}

/// Writes the checksum of all the octets as a message from `src_addr` to `dst_addr`. Requires at least 4 bytes.
#[tactic(auto, using(wirebase::proofs::PseudoSeals::pseudo_seals, crate::proofs::Icmpv6Seals::lengths))]
pub(crate) fn fill(octets: &mut [u8], src_addr: &Ipv6Address, dst_addr: &Ipv6Address)
    requires { Reaches checksum_field octets.old }
    ensures sealed { octets.new ≡ sealed checksum_field octets.old
        (message_sum src_addr.now dst_addr.now (length octets.old)) }
    ensures len { length octets.new ≡ length octets.old }
    ensures good { IsGood octets.new (message_sum src_addr.now dst_addr.now (length octets.old)) }
{
    let sum = sum_before(octets, src_addr, dst_addr);
    checksum::fill(octets, field::CHECKSUM, sum);
}

// The sum of the pseudo header of these octets.
#[tactic(auto, unfolding(crate::specs::Icmpv6Packet::message_sum))]
fn sum_before(octets: &[u8], src_addr: &Ipv6Address, dst_addr: &Ipv6Address) -> u16
    ensures { result ≡ fold (message_sum src_addr.now dst_addr.now (length octets.now)) }
{
    let len = octets.len() as u64 % (1 << 32);
    checksum::pseudo_header_v6(src_addr, dst_addr, IpProtocol::Icmpv6, len as u32)
}
