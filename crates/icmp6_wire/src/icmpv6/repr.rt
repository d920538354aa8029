//! Messages as values (RFC 4443).

ghost use Rattle.std.specs.Prelude.{◌≡◌, ◌≢◌, ◌⊎◌, ◌≤◌, ◌<◌, ◌+◌, ◌^◌, length, IsOk, IfOk, IsOkAnd};
ghost use Rattle.wirebase.specs.Bytes.{Reaches, byte_of, over};
ghost use Rattle.wirebase.specs.ByteWriter.{fields};
ghost use Rattle.wirebase.specs.Format.{Rewrites, SameText};
ghost use Rattle.wirebase.specs.Icmp.{type_field, header, checksum_field, echo_fields};
ghost use Rattle.wirebase.specs.declared.capabilities.ChecksumCapabilities.{ChecksumCapabilities};
ghost use Rattle.wirebase.specs.declared.ipv6.address.Ipv6Address.{Ipv6Address};
ghost use Rattle.wirebase.specs.declared.ipv6.Ipv6Repr.{Ipv6Repr};
ghost use Rattle.icmp6_wire.specs.Icmpv6Tables.{message_number};
ghost use Rattle.icmp6_wire.specs.Icmpv6Packet.{inner, view_octets};
ghost use Rattle.icmp6_wire.specs.Icmpv6.{MessageValue, value_of, text, text_len, told_len, IsErrorValue, seal};
ghost use Rattle.icmp6_wire.specs.Icmpv6.{packet_text, CanEmit, IsMessage, format, Emits};

use super::packet::{Packet, fill};
use super::quote::{error_len, write_error};
use super::reading::{read_echo_reply, read_echo_request, read_error};
use super::tables::{DstUnreachable, Message, ParamProblem, TimeExceeded};
use super::{ECHO_REPLY, ECHO_REQUEST, field};
use crate::mld::{read_query, read_report};
use crate::ndisc::{
    OptionsSeen, neighbor_advert, neighbor_solicit, redirect, router_advert, router_solicit,
};
use crate::{mld, ndisc};
use wirebase::{
    ByteWriter, ChecksumCapabilities, Error, Ipv6Address, Ipv6Repr, OctetsMut, Result, are_bytes,
    icmp,
};

/// A message (RFC 4443).
///
/// ```
/// use control_wire::icmpv6::{Packet, Repr};
/// use control_wire::ndisc::{self, NeighborFlags};
/// use control_wire::{ChecksumCapabilities, Ipv6Address};
///
/// /// What a neighbor advertisement says of its sender.
/// fn neighbor(src: &Ipv6Address, dst: &Ipv6Address, octets: &[u8]) -> Option<(Ipv6Address, bool)> {
///     let checksums = ChecksumCapabilities::default();
///     let packet = Packet::new_checked(octets).ok()?;
///     match Repr::parse(src, dst, &packet, &checksums).ok()? {
///         Repr::Ndisc(ndisc::Repr::NeighborAdvert { flags, target_addr, .. }) => {
///             Some((target_addr, flags.contains(NeighborFlags::ROUTER)))
///         }
///         _ => None,
///     }
/// }
/// # assert_eq!(neighbor(&Ipv6Address::UNSPECIFIED, &Ipv6Address::UNSPECIFIED, &[]), None);
/// ```
#[derive(Debug, PartialEq, Eq, Clone, Copy)]
pub enum Repr<'a> {
    /// An error: the destination of the quoted packet is unreachable.
    DstUnreachable {
        /// Why, by the code.
        reason: DstUnreachable,
        /// The header of the packet that the error is about.
        header: Ipv6Repr,
        /// What follows the quoted header.
        data: &'a [u8],
    },
    /// An error: the quoted packet is longer than the next link can carry.
    PktTooBig {
        /// The bytes of the largest packet that the link can carry.
        mtu: u32,
        /// The header of the packet that the error is about.
        header: Ipv6Repr,
        /// What follows the quoted header.
        data: &'a [u8],
    },
    /// An error: a time of the quoted packet was exceeded.
    TimeExceeded {
        /// Why, by the code.
        reason: TimeExceeded,
        /// The header of the packet that the error is about.
        header: Ipv6Repr,
        /// What follows the quoted header.
        data: &'a [u8],
    },
    /// An error: a field of the quoted packet makes no sense.
    ParamProblem {
        /// Why, by the code.
        reason: ParamProblem,
        /// The place of the field, counted from the quoted packet's first byte.
        pointer: u32,
        /// The header of the packet that the error is about.
        header: Ipv6Repr,
        /// What follows the quoted header.
        data: &'a [u8],
    },
    /// An echo request.
    EchoRequest {
        /// The identifier, which the reply has too.
        ident: u16,
        /// The sequence number, which the reply has too.
        seq_no: u16,
        /// The data, which the reply has too.
        data: &'a [u8],
    },
    /// An echo reply.
    EchoReply {
        /// The identifier of the request.
        ident: u16,
        /// The sequence number of the request.
        seq_no: u16,
        /// The data of the request.
        data: &'a [u8],
    },
    /// A message of neighbor discovery (RFC 4861).
    Ndisc(ndisc::Repr<'a>),
    /// A message of multicast listener discovery (RFC 3810).
    Mld(mld::Repr<'a>),
}

impl<'a> Repr<'a> {
    /// The message in the octets, from `src_addr` to `dst_addr`. Refused where they don't begin with the header of a
    /// type that is read here, where their checksum is to be verified and isn't good, and where they are none of these
    /// messages. The code is 0 in all but three errors: an unreachable destination, an exceeded time and a parameter
    /// problem. An error quotes a whole header, whose version and payload length are not checked, and its data is all
    /// that follows that header. A message of neighbor discovery is read by `ndisc::Repr::parse`, a query and a report
    /// by `mld::Repr::parse`.
    #[inline]
    pub fn parse(
        src_addr: &Ipv6Address,
        dst_addr: &Ipv6Address,
        packet: &Packet<&'a [u8]>,
        checksum_caps: &ChecksumCapabilities,
    ) -> Result<Repr<'a>>
        ensures sound { IfOk result (λ repr. IsMessage checksum_caps.now src_addr.now dst_addr.now
            (view_octets packet.now) (value_of repr)) }
        ensures complete { (value : MessageValue)
            → IsMessage checksum_caps.now src_addr.now dst_addr.now (view_octets packet.now) value
            → IsOkAnd result (λ repr. value_of repr ≡ value) }
        ensures rewrites { length (view_octets packet.now) ≤ 65515
            → IfOk result
            (λ repr. Rewrites (format checksum_caps.now src_addr.now dst_addr.now) (value_of repr)) }
    {
        are_bytes(packet.buffer);
        // Checked first, so that too few octets cost next to nothing.
        if packet.buffer.len() < field::HEADER_END {
            return Err(Error);
        }
        // Echoes are read apart, since they are the most frequent: the function for the others clears room for their
        // values.
        let kind = packet.buffer[field::TYPE.start];
        if kind == ECHO_REQUEST || kind == ECHO_REPLY {
            return Repr::read_echo(src_addr, dst_addr, packet, checksum_caps);
        }
        Repr::read(src_addr, dst_addr, packet.buffer, checksum_caps)
    }

    // The echo in octets of either type.
    #[inline]
    fn read_echo(
        src_addr: &Ipv6Address,
        dst_addr: &Ipv6Address,
        packet: &Packet<&'a [u8]>,
        checksum_caps: &ChecksumCapabilities,
    ) -> Result<Repr<'a>>
        requires some { 8 ≤ length (view_octets packet.now) }
        requires echo { (byte_of type_field (view_octets packet.now) ≡ 0x80)
            ⊎ (byte_of type_field (view_octets packet.now) ≡ 0x81) }
        ensures sound { IfOk result (λ repr. IsMessage checksum_caps.now src_addr.now dst_addr.now
            (view_octets packet.now) (value_of repr)) }
        ensures reads { (value : MessageValue)
            → IsMessage checksum_caps.now src_addr.now dst_addr.now (view_octets packet.now) value
            → IsOk result }
    {
        if packet.msg_code() != 0
            || checksum_caps.icmpv6.rx() && !packet.verify_checksum(src_addr, dst_addr)
        {
            return Err(Error);
        }
        if packet.buffer[field::TYPE.start] == ECHO_REQUEST {
            return Ok(read_echo_request(packet));
        }
        Ok(read_echo_reply(packet))
    }

    // The message in the octets, of a type other than an echo. It takes the octets and not the view, whose type is
    // generic in Rust, so that it is not compiled into `parse`, which is inlined where echoes are read.
    fn read(
        src_addr: &Ipv6Address,
        dst_addr: &Ipv6Address,
        octets: &'a [u8],
        checksum_caps: &ChecksumCapabilities,
    ) -> Result<Repr<'a>>
        requires no_request { byte_of type_field octets.now ≢ 0x80 }
        requires no_reply { byte_of type_field octets.now ≢ 0x81 }
        ensures sound { IfOk result (λ repr. IsMessage checksum_caps.now src_addr.now dst_addr.now
            octets.now (value_of repr)) }
        ensures reads { (value : MessageValue)
            → IsMessage checksum_caps.now src_addr.now dst_addr.now octets.now value
            → IsOk result }
    {
        let packet = &Packet::new_unchecked(octets);
        let kind = packet.checked_type()?;
        if checksum_caps.icmpv6.rx() && !packet.verify_checksum(src_addr, dst_addr) {
            return Err(Error);
        }
        if kind.is_error() {
            return read_error(packet, kind);
        }
        if packet.msg_code() != 0 {
            return Err(Error);
        }
        // Each arm returns the result of a call that has one way out, so that the value is written once, in the
        // caller's slot. The parsers of both protocols repeat these arms, since a value that one function made for both
        // would be copied.
        if !kind.is_ndisc() {
            match kind {
                Message::MldQuery => return Ok(Repr::Mld(read_query(packet))),
                Message::MldReport => return Ok(Repr::Mld(read_report(packet))),
                _ => return Err(Error),
            }
        }
        let mut found = OptionsSeen::nothing();
        found.add_all(packet.behind(kind))?;
        match kind {
            Message::RouterSolicit => return Ok(Repr::Ndisc(router_solicit(packet, &found))),
            Message::RouterAdvert => return Ok(Repr::Ndisc(router_advert(packet, &found))),
            Message::NeighborSolicit => return Ok(Repr::Ndisc(neighbor_solicit(packet, &found))),
            Message::NeighborAdvert => return Ok(Repr::Ndisc(neighbor_advert(packet, &found))),
            Message::Redirect => return Ok(Repr::Ndisc(redirect(packet, &found))),
            _ => return Err(Error),
        }
    }

    /// The bytes that the message takes, at most 1,240 of an error; of a report given by its records the 8 bytes before
    /// them. Requires that their number fits a `usize`.
    pub fn buffer_len(&self) -> usize
        requires { told_len (value_of self.now) < 2 ^ 64 }
        ensures value { result ≡ told_len (value_of self.now) }
        ensures bound { IsErrorValue (value_of self.now) → result ≤ 1240 }
    {
        match self {
            Repr::Mld(message) => message.buffer_len(),
            _ => self.packet_len(),
        }
    }

    /// The bytes of the packet of the message, at most 1,240 of an error. Requires that their number fits a `usize`.
    #[tactic(auto, using(crate::proofs::Icmpv6Texts::texts))]
    pub fn packet_len(&self) -> usize
        requires { text_len (value_of self.now) < 2 ^ 64 }
        ensures value { result ≡ text_len (value_of self.now) }
        ensures exact { (capabilities : ChecksumCapabilities) (source destination : Ipv6Address)
            → result ≡ length (packet_text capabilities source destination (value_of self.now)) }
        ensures bound { IsErrorValue (value_of self.now) → result ≤ 1240 }
    {
        match self {
            Repr::DstUnreachable { header, data, .. }
            | Repr::PktTooBig { header, data, .. }
            | Repr::TimeExceeded { header, data, .. }
            | Repr::ParamProblem { header, data, .. } => error_len(header, data),
            Repr::EchoRequest { data, .. } | Repr::EchoReply { data, .. } => {
                field::HEADER_END + data.len()
            }
            Repr::Ndisc(message) => message.buffer_len(),
            Repr::Mld(message) => message.packet_len(),
        }
    }

    /// Writes the message over the front of the octets, as far as they go, and then, where the capabilities have it
    /// computed, the checksum of all of them as a message from `src_addr` to `dst_addr`. Give exactly `packet_len()`
    /// bytes: in a longer buffer the checksum covers what follows the message, in a shorter one an echo is cut. An echo
    /// requires at least 8 bytes; an error requires at least `packet_len()`, and that the quoted `payload_len` is at
    /// most 65,535; a message of multicast listener discovery requires what `mld::Repr::emit` does, and one of neighbor
    /// discovery what `ndisc::Repr::emit` does.
    pub fn emit<T: OctetsMut>(
        &self,
        src_addr: &Ipv6Address,
        dst_addr: &Ipv6Address,
        packet: &mut Packet<T>,
        checksum_caps: &ChecksumCapabilities,
    )
        requires { CanEmit (value_of self.now) (T.bytes (inner packet.old)) }
        ensures place { inner packet.new ≡ T.put (inner packet.old) (T.bytes (inner packet.new)) }
        ensures emits { Emits checksum_caps.now src_addr.now dst_addr.now (value_of self.now)
            (T.bytes (inner packet.old)) (T.bytes (inner packet.new)) }
    {
        self.emit_into(
            src_addr,
            dst_addr,
            packet.buffer.octets_mut(),
            checksum_caps,
        );
    }

    /// Like `emit`, but writes into a slice. Give exactly `packet_len()` bytes: in a longer one the checksum covers
    /// what follows the message, in a shorter one an echo is cut.
    pub fn emit_into(
        &self,
        src_addr: &Ipv6Address,
        dst_addr: &Ipv6Address,
        octets: &mut [u8],
        checksum_caps: &ChecksumCapabilities,
    )
        requires { CanEmit (value_of self.now) octets.old }
        ensures { Emits checksum_caps.now src_addr.now dst_addr.now
            (value_of self.now) octets.old octets.new }
    {
        self.write(octets);
        seal(octets, src_addr, dst_addr, checksum_caps);
    }

    /// Does nothing; its contract states, of two messages that a packet can hold, that equal texts mean equal normal
    /// forms, and conversely.
    #[tactic(auto, using(crate::proofs::Icmpv6Format::icmpv6_same_text))]
    pub fn same_text(
        a: &Self,
        b: &Self,
        src_addr: &Ipv6Address,
        dst_addr: &Ipv6Address,
        checksum_caps: &ChecksumCapabilities,
    )
        ensures { SameText (format checksum_caps.now src_addr.now dst_addr.now) (value_of a.now)
            (value_of b.now) }
    {}

    // Writes the message, with the checksum zero.
    fn write(&self, octets: &mut [u8])
        requires { CanEmit (value_of self.now) octets.old }
        ensures { octets.new ≡ over octets.old (text (value_of self.now)) }
    {
        match self {
            Repr::DstUnreachable {
                reason,
                header,
                data,
            } => {
                let code = (*reason).into();
                write_error(octets, Message::DstUnreachable, code, 0, header, data);
            }
            Repr::PktTooBig { mtu, header, data } => {
                write_error(octets, Message::PktTooBig, 0, *mtu, header, data);
            }
            Repr::TimeExceeded {
                reason,
                header,
                data,
            } => {
                let code = (*reason).into();
                write_error(octets, Message::TimeExceeded, code, 0, header, data);
            }
            Repr::ParamProblem {
                reason,
                pointer,
                header,
                data,
            } => {
                let code = (*reason).into();
                write_error(octets, Message::ParamProblem, code, *pointer, header, data);
            }
            Repr::EchoRequest {
                ident,
                seq_no,
                data,
            } => write_echo(octets, Message::EchoRequest, *ident, *seq_no, data),
            Repr::EchoReply {
                ident,
                seq_no,
                data,
            } => write_echo(octets, Message::EchoReply, *ident, *seq_no, data),
            Repr::Ndisc(message) => message.emit_into(octets),
            Repr::Mld(message) => message.emit_into(octets),
        }
    }
}

// Writes an echo of this type over the front of the octets.
#[tactic(auto, using(wirebase::proofs::Chains::chain))]
fn write_echo(octets: &mut [u8], kind: Message, ident: u16, seq_no: u16, data: &[u8])
    requires { Reaches header octets.old }
    ensures { octets.new ≡ over octets.old
        (fields (echo_fields (message_number kind) ident seq_no «data».now)) }
{
    let mut w = ByteWriter::new(octets);
    icmp::put_echo(&mut w, kind.into(), ident, seq_no, data);
}

// Writes the checksum, where it is computed.
fn seal(
    octets: &mut [u8],
    src_addr: &Ipv6Address,
    dst_addr: &Ipv6Address,
    checksum_caps: &ChecksumCapabilities,
)
    requires { Reaches checksum_field octets.old }
    ensures { octets.new ≡ seal checksum_caps.now src_addr.now dst_addr.now octets.old }
{
    if checksum_caps.icmpv6.tx() {
        fill(octets, src_addr, dst_addr);
    }
}
