//! Messages as values (RFC 792).

ghost use Rattle.std.specs.Prelude.{◌≡◌, ◌≤◌, ◌<◌, ◌+◌, ◌^◌, ◌⊎◌, length, IfOk, IfErr, IsOkAnd, Some};
ghost use Rattle.wirebase.specs.Bytes.{over, Reaches};
ghost use Rattle.wirebase.specs.ByteWriter.{free, Puts};
ghost use Rattle.wirebase.specs.Checks.{Passes};
ghost use Rattle.wirebase.specs.Format.{Rewrites, SameText};
ghost use Rattle.wirebase.specs.Icmp.{checksum_field, header, data_in};
ghost use Rattle.wirebase.specs.declared.capabilities.ChecksumCapabilities.{ChecksumCapabilities};
ghost use Rattle.icmp4_wire.specs.Icmpv4Tables.{message_number};
ghost use Rattle.icmp4_wire.specs.Icmpv4.{inner, view_octets, MessageValue, value_of, error_fields, message_fields};
ghost use Rattle.icmp4_wire.specs.Icmpv4.{text, text_len, packet_text, CanEmit, type_in, behind_in, quoted_in};
ghost use Rattle.icmp4_wire.specs.Icmpv4.{quote_checks, Says, IsMessage, seal as sealed_octets, format, Emits};
ghost use Rattle.icmp4_wire.specs.Icmpv4Display.{repr_display};
ghost use Rattle.icmp4_wire.specs.declared.icmpv4.tables.Message.{Message as AnyMessage};

use super::field;
use super::packet::Packet;
use super::tables::{DstUnreachable, Message, TimeExceeded};
use std::fmt;
use wirebase::{
    ByteWriter, ChecksumCapabilities, Error, Ipv4Packet, Ipv4Repr, OctetsMut, Result, are_bytes,
    checksum, icmp,
};

// The bytes of a quoted header without options.
pub(super) const QUOTED_HEADER_LEN: usize = 20;

// The least number of bytes that an error quotes after the header.
const MIN_QUOTED_DATA: usize = 8;

/// A message (RFC 792).
///
/// ```
/// use control_wire::ChecksumCapabilities;
/// use control_wire::icmpv4::{Packet, Repr};
///
/// let checksums = ChecksumCapabilities::default();
/// let message = Repr::EchoRequest { ident: 1, seq_no: 2, data: b"ping" };
/// let mut octets = [0; 64];
/// let octets = &mut octets[..message.buffer_len()];
/// message.emit_into(octets, &checksums);
/// assert_eq!(*octets, [8, 0, 0x19, 0x2c, 0, 1, 0, 2, b'p', b'i', b'n', b'g']);
/// assert_eq!(Repr::parse(&Packet::new_unchecked(&*octets), &checksums), Ok(message));
/// ```
#[derive(Debug, PartialEq, Eq, Clone, Copy)]
pub enum Repr<'a> {
    /// An echo request.
    EchoRequest {
        /// The identifier, which the reply has too.
        ident: u16,
        /// The sequence number, which the reply has too.
        seq_no: u16,
        /// The data, which the reply has too.
        data: &'a [u8],
    },
    /// An echo reply.
    EchoReply {
        /// The identifier of the request.
        ident: u16,
        /// The sequence number of the request.
        seq_no: u16,
        /// The data of the request.
        data: &'a [u8],
    },
    /// An error: the destination of the quoted packet is unreachable.
    DstUnreachable {
        /// Why, by the code.
        reason: DstUnreachable,
        /// The header of the packet that the error is about.
        header: Ipv4Repr,
        /// What follows the quoted header.
        data: &'a [u8],
    },
    /// An error: a time of the quoted packet was exceeded.
    TimeExceeded {
        /// Why, by the code.
        reason: TimeExceeded,
        /// The header of the packet that the error is about.
        header: Ipv4Repr,
        /// What follows the quoted header.
        data: &'a [u8],
    },
}

impl<'a> Repr<'a> {
    /// The message in the octets. Refused where they are fewer than 8, where their checksum is to be verified and isn't
    /// good, and where they are none of these messages: an echo has code 0, and an error quotes a packet that is whole
    /// by its own lengths, with 8 bytes or more after its header. The data is all that follows that header, and
    /// `payload_len` is its length.
    // Always inlined, so that a caller matches on the fields where they were read: a returned value is written and
    // copied. A responder that drops errors then has no code that reads them.
    #[inline(always)]
    #[tactic(auto, using(crate::proofs::Icmpv4Grammar::grammar))]
    pub fn parse(
        packet: &Packet<&'a [u8]>,
        checksum_caps: &ChecksumCapabilities,
    ) -> Result<Repr<'a>>
        ensures sound { IfOk result (λ repr.
            IsMessage checksum_caps.now (view_octets packet.now) (value_of repr)) }
        ensures complete { (value : MessageValue)
            → IsMessage checksum_caps.now (view_octets packet.now) value
            → IsOkAnd result (λ repr. value_of repr ≡ value) }
        ensures rewrites { length (view_octets packet.now) ≤ 65515
            → IfOk result (λ repr. Rewrites (format checksum_caps.now) (value_of repr)) }
    {
        are_bytes(packet.buffer);
        packet.check_len()?;
        if checksum_caps.icmpv4.rx() && !packet.verify_checksum() {
            return Err(Error);
        }
        match (packet.msg_type(), packet.msg_code()) {
            (Message::EchoRequest, 0) => Ok(Repr::EchoRequest {
                ident: packet.echo_ident(),
                seq_no: packet.echo_seq_no(),
                data: packet.data(),
            }),
            (Message::EchoReply, 0) => Ok(Repr::EchoReply {
                ident: packet.echo_ident(),
                seq_no: packet.echo_seq_no(),
                data: packet.data(),
            }),
            (Message::DstUnreachable | Message::TimeExceeded, _) => Repr::read_error(packet),
            _ => Err(Error),
        }
    }

    // The error in octets of such a type, whatever their checksum.
    fn read_error(packet: &Packet<&'a [u8]>) -> Result<Repr<'a>>
        requires whole { Reaches header (view_octets packet.now) }
        requires error { (type_in (view_octets packet.now) ≡ AnyMessage.DstUnreachable)
            ⊎ (type_in (view_octets packet.now) ≡ AnyMessage.TimeExceeded) }
        ensures sound { IfOk result (λ repr.
            Passes (quote_checks (data_in (view_octets packet.now))) × Says (view_octets packet.now) (value_of repr)) }
        ensures refused { IfErr result (λ error. Passes (quote_checks (data_in (view_octets packet.now))) → ⊥) }
    {
        let (header, data) = read_quote(packet.data())?;
        let code = packet.msg_code();
        match packet.msg_type() {
            Message::DstUnreachable => Ok(Repr::DstUnreachable {
                reason: code.into(),
                header,
                data,
            }),
            _ => Ok(Repr::TimeExceeded {
                reason: code.into(),
                header,
                data,
            }),
        }
    }

    /// The bytes that the message takes. Requires that their number fits a `usize`.
    #[tactic(auto, using(crate::proofs::Icmpv4Texts::texts))]
    pub const fn buffer_len(&self) -> usize
        requires { text_len (value_of self.now) < 2 ^ 64 }
        ensures value { result ≡ text_len (value_of self.now) }
        ensures exact { (capabilities : ChecksumCapabilities)
            → result ≡ length (packet_text capabilities (value_of self.now)) }
    {
        match self {
            Repr::EchoRequest { data, .. } => field::HEADER_END + data.len(),
            Repr::EchoReply { data, .. } => field::HEADER_END + data.len(),
            Repr::DstUnreachable { data, .. } => {
                field::HEADER_END + QUOTED_HEADER_LEN + data.len()
            }
            Repr::TimeExceeded { data, .. } => {
                field::HEADER_END + QUOTED_HEADER_LEN + data.len()
            }
        }
    }

    /// Writes the message over the front of the octets, as far as they go, and then, where the capabilities have it
    /// computed, the checksum of all of them. Give exactly `buffer_len()` bytes: in a longer buffer the checksum covers
    /// what follows the message, in a shorter one an echo is cut. An echo requires at least 8 bytes; an error requires
    /// exactly `buffer_len()`, and that the quoted `payload_len` is at most 65,515.
    pub fn emit<T: OctetsMut>(&self, packet: &mut Packet<T>, checksum_caps: &ChecksumCapabilities)
        requires { CanEmit (value_of self.now) (T.bytes (inner packet.old)) }
        ensures place { inner packet.new ≡ T.put (inner packet.old) (T.bytes (inner packet.new)) }
        ensures emits { Emits checksum_caps.now (value_of self.now) (T.bytes (inner packet.old))
            (T.bytes (inner packet.new)) }
    {
        self.emit_into(packet.buffer.octets_mut(), checksum_caps);
    }

    /// Like `emit`, but writes into a slice. Give exactly `buffer_len()` bytes: in a longer one the checksum covers
    /// what follows the message, in a shorter one an echo is cut.
    pub fn emit_into(&self, octets: &mut [u8], checksum_caps: &ChecksumCapabilities)
        requires { CanEmit (value_of self.now) octets.old }
        ensures { Emits checksum_caps.now (value_of self.now) octets.old octets.new }
    {
        self.write(octets, checksum_caps);
        seal(octets, checksum_caps);
    }

    /// Does nothing; its contract states, of two messages that a packet can hold, that equal texts mean equal normal
    /// forms, and conversely where neither is an error whose quoted `payload_len` is below its data's length.
    pub fn same_text(a: &Self, b: &Self, checksum_caps: &ChecksumCapabilities)
        ensures { SameText (format checksum_caps.now) (value_of a.now) (value_of b.now) }
    {}

    // Writes the message, with the checksum zero.
    #[tactic(auto, using(wirebase::proofs::Chains::chain))]
    fn write(&self, octets: &mut [u8], checksum_caps: &ChecksumCapabilities)
        requires { CanEmit (value_of self.now) octets.old }
        ensures { octets.new ≡ over octets.old (text checksum_caps.now (value_of self.now)) }
    {
        let mut w = ByteWriter::new(octets);
        self.put(&mut w, checksum_caps);
    }

    // Writes the message with this writer, with the checksum zero.
    fn put(&self, w: &mut ByteWriter<'_>, checksum_caps: &ChecksumCapabilities)
        requires { CanEmit (value_of self.now) (free w.old) }
        ensures { Puts w.old w.new (message_fields checksum_caps.now (value_of self.now)) }
    {
        match *self {
            Repr::EchoRequest {
                ident,
                seq_no,
                data,
            } => icmp::put_echo(w, Message::EchoRequest.into(), ident, seq_no, data),
            Repr::EchoReply {
                ident,
                seq_no,
                data,
            } => icmp::put_echo(w, Message::EchoReply.into(), ident, seq_no, data),
            Repr::DstUnreachable {
                reason,
                header,
                data,
            } => {
                let code = reason.into();
                put_error(
                    w,
                    Message::DstUnreachable,
                    code,
                    &header,
                    data,
                    checksum_caps,
                );
            }
            Repr::TimeExceeded {
                reason,
                header,
                data,
            } => {
                let code = reason.into();
                put_error(w, Message::TimeExceeded, code, &header, data, checksum_caps);
            }
        }
    }
}

/// Prints the message: an echo by its numbers and the length of its data, an error by its reason.
impl fmt::Display for Repr<'_> {
    ghost output = { λ repr. Some (repr_display (value_of repr)) };

    fn fmt<W: fmt::Write>(&self, f: &mut fmt::Formatter<W>) -> fmt::Result {
        match self {
            Repr::EchoRequest {
                ident,
                seq_no,
                data,
            } => {
                let len = data.len();
                write!(f, "ICMPv4 echo request id={ident} seq={seq_no} len={len}")
            }
            Repr::EchoReply {
                ident,
                seq_no,
                data,
            } => {
                let len = data.len();
                write!(f, "ICMPv4 echo reply id={ident} seq={seq_no} len={len}")
            }
            Repr::DstUnreachable { reason, .. } => {
                write!(f, "ICMPv4 destination unreachable ({reason})")
            }
            Repr::TimeExceeded { reason, .. } => { write!(f, "ICMPv4 time exceeded ({reason})") }
        }
    }
}

// The header that an error quotes, and all that follows it (RFC 792).
#[tactic(auto, using(crate::proofs::Icmpv4Grammar::quotes))]
fn read_quote(octets: &[u8]) -> Result<(Ipv4Repr, &[u8])>
    ensures sound { IfOk result (λ read. Passes (quote_checks octets.now)
        × (read.0 ≡ quoted_in octets.now) × (read.1.now ≡ behind_in octets.now)) }
    ensures refused { IfErr result (λ error. Passes (quote_checks octets.now) → ⊥) }
{
    let packet = Ipv4Packet::new_checked(octets)?;
    let header_len = packet.header_len() as usize;
    if octets.len() < header_len + MIN_QUOTED_DATA {
        return Err(Error);
    }
    let data = &octets[header_len..];
    let header = Ipv4Repr {
        src_addr: packet.src_addr(),
        dst_addr: packet.dst_addr(),
        next_header: packet.next_header(),
        payload_len: data.len(),
        hop_limit: packet.hop_limit(),
    };
    Ok((header, data))
}

// Writes the checksum, where it is computed.
fn seal(octets: &mut [u8], checksum_caps: &ChecksumCapabilities)
    requires { Reaches checksum_field octets.old }
    ensures { octets.new ≡ sealed_octets checksum_caps.now octets.old }
{
    if checksum_caps.icmpv4.tx() {
        checksum::fill(octets, field::CHECKSUM, 0);
    }
}

// Writes an error of this type.
#[tactic(auto, using(wirebase::proofs::Ipv4Header::header_texts), unfolding(wirebase::specs::ByteWriter::be32))]
fn put_error(
    w: &mut ByteWriter<'_>,
    kind: Message,
    code: u8,
    quoted: &Ipv4Repr,
    data: &[u8],
    checksum_caps: &ChecksumCapabilities,
)
    requires room { length (free w.old) ≡ 28 + length «data».now }
    requires count { quoted.now.payload_len ≤ 65515 }
    ensures { Puts w.old w.new
        (error_fields checksum_caps.now (message_number kind) code quoted.now «data».now) }
{
    icmp::put_header(w, kind.into(), code, [0; 4]);
    quoted.emit_into(w.part(quoted.buffer_len()), checksum_caps);
    w.put_bytes(data);
}
