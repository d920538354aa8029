//! UDP datagrams (RFC 768).

ghost use Rattle.std.specs.Prelude.{◌≡◌, ◌<◌, ◌^◌, ◌↔◌, length, IsTrue, IsOk, IfOk, IfSome, IsNone};
ghost use Rattle.std.specs.Borrow.{sem, Lends, Array, u8 as byte};
ghost use Rattle.byteorder.specs.Endian.{big_bytes};
ghost use Rattle.wirebase.specs.Bytes.{Reaches, bytes_of, number_of, splice};
ghost use Rattle.wirebase.specs.View.{Sets, KeepsLen};
ghost use Rattle.frame_wire.specs.Udp.{inner, with_inner, view_octets, src_port_field, dst_port_field, len_field};
ghost use Rattle.frame_wire.specs.Udp.{checksum_field, len_in, is_jumbo, payload_field, BeginsWhole, IsVerified};
ghost use Rattle.frame_wire.specs.Udp.{end_in};
ghost use Rattle.frame_wire.specs.UdpRefusal.{RefusesLen};
ghost use Rattle.frame_wire.specs.contracts.udp.UdpPacket.{the_row};

use crate::datagram::Addresses;
use wirebase::{Error, IpProtocol, Octets, OctetsMut, Result, checksum};

mod captured;
mod display;
mod repr;

pub use captured::CapturedUdp;
pub use repr::UdpRepr;

// The fields; their picture is in specs/Udp.antt.
mod field {
    use wirebase::Field;

    pub const SRC_PORT: Field = 0..2;

    pub const DST_PORT: Field = 2..4;

    pub const LENGTH: Field = 4..6;

    pub const CHECKSUM: Field = 6..8;

    pub const PAYLOAD: usize = 8;
}

/// The length of the header in bytes.
pub const HEADER_LEN: usize = field::PAYLOAD;

/// A view of the octets of a UDP datagram.
///
/// ```
/// use frame_wire::UdpPacket;
///
/// // A header before one byte; over IPv4 its checksum may be left out.
/// let mut octets = [0, 0, 0, 0, 0, 0, 0, 0, b'x'];
/// let mut packet = UdpPacket::new_unchecked(&mut octets);
/// packet.set_src_port(68);
/// packet.set_dst_port(67);
/// packet.set_len(9);
/// assert_eq!(UdpPacket::new_checked(&octets)?.payload(), b"x");
/// # Ok::<(), control_wire::Error>(())
/// ```
#[derive(Debug, Clone, Drop)]
pub struct UdpPacket<T: Octets> {
    buffer: T,
}

impl<T: Octets> UdpPacket<T> {
    /// The view of these octets, whatever they are.
    pub fn new_unchecked(buffer: T) -> UdpPacket<T>
        ensures { inner result ≡ buffer }
    {
        UdpPacket { buffer }
    }

    /// The view of these octets. Refused where they don't begin with a whole datagram. On refusal the buffer is
    /// dropped: to keep a `&mut [u8]`, call `new_unchecked` and then `check_len`.
    pub fn new_checked(buffer: T) -> Result<UdpPacket<T>>
        ensures accepts { IsOk result ↔ BeginsWhole (T.bytes buffer) }
        ensures buffer { IfOk result (λ view. inner view ≡ buffer) }
    {
        let packet = UdpPacket::new_unchecked(buffer);
        packet.check_len()?;
        Ok(packet)
    }

    /// Accepts 8 or more octets that hold the whole datagram by its length field, which counts the header too. A length
    /// of 0 among 65,536 octets or more (and fewer than 2^32) is that of a jumbogram, which ends with the octets (RFC
    /// 2675 section 4). Then each accessor may be called.
    pub fn check_len(&self) -> Result<()>
        ensures accepts { IsOk result ↔ BeginsWhole (T.bytes (inner self.now)) }
    {
        let len = self.buffer.octets().len();
        if len < HEADER_LEN {
            return Err(Error);
        }
        let end = self.end();
        if end < HEADER_LEN || len < end {
            return Err(Error);
        }
        Ok(())
    }

    /// Why [`UdpPacket::check_len`] refuses these octets, by the check that fails first; None where it accepts them.
    pub fn refusal(&self) -> Option<Refusal>
        ensures told { IfSome result (λ refusal. RefusesLen (T.bytes (inner self.now)) refusal) }
        ensures exact { IsNone result ↔ BeginsWhole (T.bytes (inner self.now)) }
    {
        let len = self.buffer.octets().len();
        if len < HEADER_LEN {
            return Some(Refusal::Short);
        }
        let end = self.end();
        if end < HEADER_LEN {
            return Some(Refusal::Length(end as u16));
        }
        if len < end {
            return Some(Refusal::Cut(end as u16));
        }
        None
    }

    // The bytes of header and data. Requires at least 6 bytes.
    #[inline(always)]
    #[tactic(auto, unfolding(crate::specs::Udp::end_in))]
    fn end(&self) -> usize
        requires { Reaches len_field (T.bytes (inner self.now)) }
        ensures value { result ≡ end_in (T.bytes (inner self.now)) }
        ensures small { result < 2 ^ 32 }
        ensures counted { length (T.bytes (inner self.now)) < result → result < 2 ^ 16 }
    {
        let len = self.len();
        let octets = self.buffer.octets().len();
        if len == 0 && is_jumbo(octets) {
            return octets;
        }
        len as usize
    }

    /// The buffer that the view was made from, in its present state.
    pub fn into_inner(self) -> T
        ensures { result ≡ inner self }
    {
        self.buffer
    }

    /// The source port, or 0 for none. Requires at least 2 bytes.
    pub fn src_port(&self) -> u16
        requires { Reaches src_port_field (T.bytes (inner self.now)) }
        ensures { result ≡ number_of src_port_field (T.bytes (inner self.now)) }
    {
        self.buffer.u16_at(field::SRC_PORT)
    }

    /// The destination port. Requires at least 4 bytes.
    pub fn dst_port(&self) -> u16
        requires { Reaches dst_port_field (T.bytes (inner self.now)) }
        ensures { result ≡ number_of dst_port_field (T.bytes (inner self.now)) }
    {
        self.buffer.u16_at(field::DST_PORT)
    }

    /// The length of header and data in bytes, or 0 in a jumbogram where that is more than 65,535. Requires at least 6
    /// bytes.
    pub fn len(&self) -> u16
        requires { Reaches len_field (T.bytes (inner self.now)) }
        ensures { result ≡ len_in (T.bytes (inner self.now)) }
    {
        self.buffer.u16_at(field::LENGTH)
    }

    /// The checksum, or 0 where there is none. Requires at least 8 bytes.
    pub fn checksum(&self) -> u16
        requires { Reaches checksum_field (T.bytes (inner self.now)) }
        ensures { result ≡ number_of checksum_field (T.bytes (inner self.now)) }
    {
        self.buffer.u16_at(field::CHECKSUM)
    }

    /// Whether the checksum is that of the datagram with the pseudo header of these addresses. A checksum of 0 means
    /// that there is none (RFC 768), but is not excepted here: the answer is then almost always false. Requires a whole
    /// datagram.
    #[tactic(auto, using(wirebase::proofs::PseudoSeals::pseudo_seals))]
    pub fn verify_checksum(&self, addresses: &Addresses) -> bool
        requires { BeginsWhole (T.bytes (inner self.now)) }
        ensures { IsTrue result ↔ IsVerified addresses.now (T.bytes (inner self.now)) }
    {
        let end = self.end();
        let sum = addresses.sum_before(IpProtocol::Udp, end as u32);
        checksum::is_good(self.buffer.range(0, end), sum)
    }
}

impl<'a> UdpPacket<&'a [u8]> {
    /// The data, borrowed for as long as the octets are. Requires a whole datagram.
    #[tactic(auto, using(wirebase::proofs::Pieces::pieces), unfolding(wirebase::specs::Bytes::part))]
    pub fn payload(&self) -> &'a [u8]
        requires { BeginsWhole (view_octets self.now) }
        ensures { result.now ≡ bytes_of (payload_field (view_octets self.now))
            (view_octets self.now) }
    {
        let octets: &'a [u8] = self.buffer;
        &octets[field::PAYLOAD..self.end()]
    }
}

impl<T: OctetsMut> UdpPacket<T> {
    /// Writes the source port. Requires at least 2 bytes.
    pub fn set_src_port(&mut self, value: u16)
        requires { Reaches src_port_field (T.bytes (inner self.old)) }
        ensures writes { Sets inner T.bytes T.put self.old self.new src_port_field (big_bytes 2 value) }
        ensures len { KeepsLen inner T.bytes self.old self.new }
    {
        self.buffer.set_u16(field::SRC_PORT, value);
    }

    /// Writes the destination port. Requires at least 4 bytes.
    pub fn set_dst_port(&mut self, value: u16)
        requires { Reaches dst_port_field (T.bytes (inner self.old)) }
        ensures writes { Sets inner T.bytes T.put self.old self.new dst_port_field (big_bytes 2 value) }
        ensures len { KeepsLen inner T.bytes self.old self.new }
    {
        self.buffer.set_u16(field::DST_PORT, value);
    }

    /// Writes the length of header and data in bytes. Requires at least 6 bytes.
    pub fn set_len(&mut self, value: u16)
        requires { Reaches len_field (T.bytes (inner self.old)) }
        ensures writes { Sets inner T.bytes T.put self.old self.new len_field (big_bytes 2 value) }
        ensures len { KeepsLen inner T.bytes self.old self.new }
    {
        self.buffer.set_u16(field::LENGTH, value);
    }

    /// Writes the checksum. Requires at least 8 bytes.
    pub fn set_checksum(&mut self, value: u16)
        requires { Reaches checksum_field (T.bytes (inner self.old)) }
        ensures writes { Sets inner T.bytes T.put self.old self.new checksum_field (big_bytes 2 value) }
        ensures len { KeepsLen inner T.bytes self.old self.new }
    {
        self.buffer.set_u16(field::CHECKSUM, value);
    }

    /// The data, for writing; the header is not changed. Requires a whole datagram.
    pub fn payload_mut(&mut self) -> &mut [u8]
        requires { BeginsWhole (T.bytes (inner self.old)) }
        ensures* lends { sem 𝓛 (Lends (the_row T.row) (Array byte 0) self.entry result
            (λ w. with_inner self.old (T.put (inner self.old)
            (splice (T.bytes (inner self.old)) 8 (end_in (T.bytes (inner self.old))) w)))) }
        ensures value { result.now
            ≡ bytes_of (payload_field (T.bytes (inner self.old))) (T.bytes (inner self.old)) }
    {
        let end = self.end();
        self.buffer.range_mut(field::PAYLOAD, end)
    }
}

/// Views are equal where their octets are.
impl<T: Octets> PartialEq for UdpPacket<T> {
    ghost use Rattle.std.specs.Prelude.{◌==◌};
    ghost use Rattle.std.proofs.Common.{rules};
    ghost use Rattle.std.specs.Cmp.Lexicographic.{pointwise};
    ghost use Rattle.std.specs.Cmp.Rules.{comparing};
    ghost use Rattle.std.specs.Ordering.{on};

    ghost eq = { on (λ view. T.bytes (inner view)) (pointwise ◌==◌) };

    ghost laws = { Prim.search (comparing, rules) };

    fn eq(&self, other: &UdpPacket<T>) -> bool
        ensures { IsTrue result ↔ (T.bytes (inner self.now) ≡ T.bytes (inner other.now)) }
    {
        self.buffer.octets() == other.buffer.octets()
    }
}

impl<T: Octets> Eq for UdpPacket<T> {
    ghost use Rattle.std.proofs.Common.{rules};
    ghost use Rattle.std.specs.Cmp.Rules.{comparing};

    ghost laws = { Prim.search (comparing, rules) };
}

/// Why octets are refused as a UDP datagram: the check that fails first.
#[derive(Debug, PartialEq, Eq, Clone, Copy)]
pub enum Refusal {
    /// Fewer than 8 bytes.
    Short,
    /// The length field is below 8, the length of the header; this is its value.
    Length(u16),
    /// Fewer bytes than the length field says; this is its value.
    Cut(u16),
    /// The destination port is 0.
    Port,
    /// There is no checksum over IPv6, which requires one (RFC 8200 section 8.1).
    NoChecksum,
    /// The checksum is wrong.
    Checksum,
}

// Whether a datagram of so many bytes may have a length of 0.
#[inline(always)]
fn is_jumbo(len: usize) -> bool
    ensures { result ≡ is_jumbo len }
{
    len > 65_535 && u32::try_from(len).is_ok()
}
