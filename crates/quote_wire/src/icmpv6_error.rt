//! ICMPv6 errors with the bytes that they quote (RFC 4443 section 3), and the error about a packet.

ghost use Rattle.std.specs.Prelude.{◌≡◌, ◌≤◌, ◌↔◌, length, IfOk, IfErr, IsOkAnd, IfSome, IsNone, IsTrue, Some};
ghost use Rattle.extension_wire.specs.Split as split;
ghost use Rattle.extension_wire.specs.Split.{PartsValue, IsSplit};
ghost use Rattle.extension_wire.specs.declared.family.Family.{Family as AnyFamily};
ghost use Rattle.wirebase.specs.Bytes.{Reaches};
ghost use Rattle.wirebase.specs.Checksum.{fold, IsGood};
ghost use Rattle.wirebase.specs.Format.{Rewrites, SameText};
ghost use Rattle.wirebase.specs.Icmp.{checksum_field, header};
ghost use Rattle.wirebase.specs.declared.capabilities.ChecksumCapabilities.{ChecksumCapabilities as AnyCapabilities};
ghost use Rattle.wirebase.specs.declared.ipv6.address.Ipv6Address.{Ipv6Address as AnyAddress};
ghost use Rattle.quote_wire.specs.Error.{ErrorValue, IsError, IsRead, Refuses, text_len, packet_text};
ghost use Rattle.quote_wire.specs.Error.{seal as sealed_octets, format, Emits};
ghost use Rattle.quote_wire.specs.Icmpv6Error.{kind_number, IsPacketFront, protocol, extra_sum, value_of, mtu_in};
ghost use Rattle.quote_wire.specs.Icmpv6Error.{pointer_in, length_in};
ghost use Rattle.quote_wire.specs.declared.icmpv6_error.Kind.{Kind as AnyKind};

mod display;
mod reason;

pub use crate::error::Refusal;
use crate::error::write_error;
use crate::field;
use crate::quote::why_no_packet;
use extension_wire::{Family, Parts, SplitRefusal};
use wirebase::{
    ChecksumCapabilities, Error, IPV6_HEADER_LEN, IpProtocol, Ipv6Address, Octets, Result,
    are_bytes, checksum,
};

/// The most bytes of a packet that an error quotes: with the error's own headers they make 1,280, which every link
/// carries (RFC 4443 section 2.4(c)).
pub const MAX_QUOTED: usize = 1232;

/// The types of error (RFC 4443 section 2.1).
#[derive(Debug, PartialEq, Eq, Clone, Copy)]
pub enum Kind {
    /// Type 1: the packet could not be delivered; the code says why (`icmpv6::DstUnreachable`).
    DstUnreachable,
    /// Type 2: the packet is larger than the next link carries.
    PktTooBig,
    /// Type 3: the packet lived too long, or its fragments did; the code says which (`icmpv6::TimeExceeded`).
    TimeExceeded,
    /// Type 4: a field of a header is wrong; the code says how (`icmpv6::ParamProblem`).
    ParamProblem,
}

impl Kind {
    /// The number of the type.
    pub fn number(self) -> u8
        ensures { result ≡ kind_number self }
    {
        match self {
            Kind::DstUnreachable => 1,
            Kind::PktTooBig => 2,
            Kind::TimeExceeded => 3,
            Kind::ParamProblem => 4,
        }
    }

    /// The type of this number; None exactly where it is not that of an error.
    pub fn from_number(number: u8) -> Option<Kind>
        ensures sound { IfSome result (λ kind. number ≡ kind_number kind) }
        ensures complete { (kind : AnyKind) → number ≡ kind_number kind → result ≡ Some kind }
    {
        match number {
            1 => Some(Kind::DstUnreachable),
            2 => Some(Kind::PktTooBig),
            3 => Some(Kind::TimeExceeded),
            4 => Some(Kind::ParamProblem),
            _ => None,
        }
    }
}

/// An error about a packet (RFC 4443 section 3).
///
/// ```
/// use quote_wire::icmpv6_error::{Kind, Repr};
/// use control_wire::{ChecksumCapabilities, Ipv6Address};
///
/// // A packet was too big for the next link, which takes 1280 bytes.
/// let (router, host) = (
///     Ipv6Address::new(0x2001, 0xdb8, 0, 0, 0, 0, 0, 1),
///     Ipv6Address::new(0x2001, 0xdb8, 0, 0, 0, 0, 0, 2),
/// );
/// let mut packet = [0; 40];
/// packet[0] = 0x60;
/// let error = Repr { kind: Kind::PktTooBig, code: 0, rest: 1280, quoted: &packet };
/// let checksums = ChecksumCapabilities::default();
/// let mut octets = [0; 64];
/// let octets = &mut octets[..error.buffer_len()];
/// error.emit_into(&router, &host, octets, &checksums);
/// let read = Repr::parse(&router, &host, octets, &checksums)?;
/// assert_eq!(read.mtu(), Some(1280));
/// assert_eq!(read.to_string(), "ICMPv6 packet too big code=0 mtu=1280 quoted=40");
/// # Ok::<(), control_wire::Error>(())
/// ```
#[derive(Debug, PartialEq, Eq, Clone, Copy)]
pub struct Repr<'a> {
    /// The type.
    pub kind: Kind,
    /// The code, by the type.
    pub code: u8,
    /// The four bytes after the checksum: of packet too big the next link's MTU, of a parameter problem the offset of
    /// the field, in bytes from the start of the packet. In an error with extensions the first byte is the length of
    /// the quoted packet, in units of 8 bytes (RFC 4884 section 4). Else unused.
    pub rest: u32,
    /// All that follows the header: the packet that is quoted, of version 6, from its header on. A router may append
    /// zeros and extensions to destination unreachable and time exceeded; these are part of `quoted` too (RFC 4884
    /// sections 4 and 7), and [`Repr::parts`] tells them apart. An error that is written has at most the first 1,232
    /// bytes.
    pub quoted: &'a [u8],
}

impl<'a> Repr<'a> {
    /// The error in the octets of a message from `src_addr` to `dst_addr`. Refused where they are fewer than 8, where
    /// their checksum is to be verified and is wrong, where the type is not that of an error, and where what follows
    /// the header does not begin with a header of version 6, 40 bytes. Its payload length is not looked at.
    pub fn parse(
        src_addr: &Ipv6Address,
        dst_addr: &Ipv6Address,
        octets: &'a [u8],
        checksum_caps: &ChecksumCapabilities,
    ) -> Result<Repr<'a>>
        ensures sound { IfOk result (λ repr.
            IsError (protocol src_addr.now dst_addr.now checksum_caps.now) octets.now (value_of repr)) }
        ensures complete { (value : ErrorValue AnyKind)
            → IsError (protocol src_addr.now dst_addr.now checksum_caps.now) octets.now value
            → IsOkAnd result (λ repr. value_of repr ≡ value) }
        ensures rewrites { length octets.now ≤ 65515 → IfOk result (λ repr.
            Rewrites (format (protocol src_addr.now dst_addr.now checksum_caps.now)) (value_of repr)) }
    {
        are_bytes(octets);
        Repr::read(src_addr, dst_addr, octets, checksum_caps)
    }

    // The error in the octets. Apart from `parse_or_refusal`: room for a reason in its result takes 33 bytes of code
    // more at opt-level "z".
    fn read(
        src_addr: &Ipv6Address,
        dst_addr: &Ipv6Address,
        octets: &'a [u8],
        checksum_caps: &ChecksumCapabilities,
    ) -> Result<Repr<'a>>
        ensures sound { IfOk result (λ repr.
            IsError (protocol src_addr.now dst_addr.now checksum_caps.now) octets.now (value_of repr)) }
        ensures complete { (value : ErrorValue AnyKind)
            → IsError (protocol src_addr.now dst_addr.now checksum_caps.now) octets.now value
            → IsOkAnd result (λ repr. value_of repr ≡ value) }
    {
        if octets.len() < field::HEADER_END {
            return Err(Error);
        }
        if checksum_caps.icmpv6.rx() && !is_good(octets, src_addr, dst_addr) {
            return Err(Error);
        }
        let quoted = &octets[field::HEADER_END..];
        if !is_packet_front(quoted) {
            return Err(Error);
        }
        match Kind::from_number(octets.u8_at(field::TYPE)) {
            Some(kind) => Ok(Repr {
                kind,
                code: octets.u8_at(field::CODE),
                rest: octets.u32_at(field::REST),
                quoted,
            }),
            None => Err(Error),
        }
    }

    /// The error in the octets of a message from `src_addr` to `dst_addr`, or why [`Repr::parse`] refuses them, by the
    /// check that fails first.
    #[inline]
    pub fn parse_or_refusal(
        src_addr: &Ipv6Address,
        dst_addr: &Ipv6Address,
        octets: &'a [u8],
        checksum_caps: &ChecksumCapabilities,
    ) -> std::result::Result<Repr<'a>, Refusal>
        ensures sound { IfOk result (λ repr.
            IsError (protocol src_addr.now dst_addr.now checksum_caps.now) octets.now (value_of repr)) }
        ensures complete { (value : ErrorValue AnyKind)
            → IsError (protocol src_addr.now dst_addr.now checksum_caps.now) octets.now value
            → IsOkAnd result (λ repr. value_of repr ≡ value) }
        ensures told { IfErr result
            (Refuses (protocol src_addr.now dst_addr.now checksum_caps.now) octets.now) }
    {
        if octets.len() < field::HEADER_END {
            return Err(Refusal::Short);
        }
        if checksum_caps.icmpv6.rx() && !is_good(octets, src_addr, dst_addr) {
            return Err(Refusal::Checksum);
        }
        let number = octets.u8_at(field::TYPE);
        let Some(kind) = Kind::from_number(number) else {
            return Err(Refusal::UnknownType(number));
        };
        let quoted = &octets[field::HEADER_END..];
        if !is_packet_front(quoted) {
            return Err(Refusal::Quote(why_no_packet(quoted)));
        }
        Ok(Repr {
            kind,
            code: octets.u8_at(field::CODE),
            rest: octets.u32_at(field::REST),
            quoted,
        })
    }

    /// Why [`Repr::parse`] refuses these octets, by the check that fails first; None exactly where it reads them.
    pub fn refusal(
        src_addr: &Ipv6Address,
        dst_addr: &Ipv6Address,
        octets: &[u8],
        checksum_caps: &ChecksumCapabilities,
    ) -> Option<Refusal>
        ensures told { IfSome result
            (Refuses (protocol src_addr.now dst_addr.now checksum_caps.now) octets.now) }
        ensures exact { IsNone result
            ↔ IsRead (protocol src_addr.now dst_addr.now checksum_caps.now) octets.now }
    {
        Repr::parse_or_refusal(src_addr, dst_addr, octets, checksum_caps).err()
    }

    /// The MTU of the next link, in bytes, in packet too big (RFC 4443 section 3.2). None for every other error.
    pub fn mtu(&self) -> Option<u32>
        ensures { result ≡ mtu_in (value_of self.now) }
    {
        match self.kind {
            Kind::PktTooBig => Some(self.rest),
            _ => None,
        }
    }

    /// The offset of the byte that a parameter problem is about, from the start of the quoted packet; it may be past
    /// the end of the quote (RFC 4443 section 3.4). None for every other error.
    pub fn pointer(&self) -> Option<u32>
        ensures { result ≡ pointer_in (value_of self.now) }
    {
        match self.kind {
            Kind::ParamProblem => Some(self.rest),
            _ => None,
        }
    }

    /// The quoted packet and the extensions behind it (RFC 4884 section 4), told apart by the error's length: the first
    /// byte of `rest`, in words of 8 bytes, of destination unreachable and time exceeded. The other types have none,
    /// and where it is 0, all is quoted. Refused where the packet has fewer than 128 bytes by its length, or more than
    /// there are.
    ///
    /// ```
    /// use quote_wire::icmpv6_error::{Kind, Repr};
    ///
    /// // A quote of 128 bytes, which are 16 words, and the header of an extension structure behind it.
    /// let mut quoted = [0; 132];
    /// quoted[0] = 0x60;
    /// quoted[128] = 0x20;
    /// let error = Repr { kind: Kind::TimeExceeded, code: 0, rest: 16 << 24, quoted: &quoted };
    /// let parts = error.parts().unwrap();
    /// assert_eq!(parts.quoted, &quoted[..128]);
    /// assert_eq!(parts.extensions, Some(&quoted[128..]));
    /// ```
    pub fn parts(&self) -> std::result::Result<Parts<'a>, SplitRefusal>
        ensures sound { IfOk result (λ parts.
            IsSplit AnyFamily.V6 (length_in (value_of self.now)) self.now.quoted.now (split.value_of parts)) }
        ensures complete { (value : PartsValue)
            → IsSplit AnyFamily.V6 (length_in (value_of self.now)) self.now.quoted.now value
            → IsOkAnd result (λ parts. split.value_of parts ≡ value) }
        ensures told { IfErr result
            (split.Refuses AnyFamily.V6 (length_in (value_of self.now)) self.now.quoted.now) }
    {
        Parts::split(self.quoted, self.length(), Family::V6)
    }

    // The length of the quoted packet in words; 0 where none is told.
    fn length(&self) -> u8
        ensures { result ≡ length_in (value_of self.now) }
    {
        match self.kind {
            Kind::DstUnreachable | Kind::TimeExceeded => (self.rest >> 24) as u8,
            Kind::PktTooBig | Kind::ParamProblem => 0,
        }
    }

    /// The length of the error in bytes, at most 1,240.
    pub fn buffer_len(&self) -> usize
        ensures value { (source destination : AnyAddress) (capabilities : AnyCapabilities)
            → result ≡ text_len (protocol source destination capabilities) (value_of self.now) }
        ensures exact { (source destination : AnyAddress) (capabilities : AnyCapabilities)
            → result ≡ length (packet_text (protocol source destination capabilities) (value_of self.now)) }
        ensures most { result ≤ 1240 }
    {
        field::HEADER_END + self.quoted.len().min(MAX_QUOTED)
    }

    /// Writes the error at the start of the octets, cut at their end, and then, where the capabilities ask for it, the
    /// checksum of all octets as a message from `src_addr` to `dst_addr`. The others keep their values. Requires at
    /// least 8 bytes. Give exactly `buffer_len()`: in a longer buffer the checksum covers what follows the error. At
    /// most 1,232 bytes of `quoted` are written.
    #[tactic(auto, using(crate::proofs::ErrorFormat::take_counted))]
    pub fn emit_into(
        &self,
        src_addr: &Ipv6Address,
        dst_addr: &Ipv6Address,
        octets: &mut [u8],
        checksum_caps: &ChecksumCapabilities,
    )
        requires { Reaches header octets.old }
        ensures { Emits (protocol src_addr.now dst_addr.now checksum_caps.now) (value_of self.now)
            octets.old octets.new }
    {
        write_error(
            octets,
            self.kind.number(),
            self.code,
            self.rest,
            &self.quoted[..self.quoted.len().min(MAX_QUOTED)],
        );
        seal(octets, src_addr, dst_addr, checksum_caps);
    }

    /// Proof only: equal texts of two errors that a packet can hold mean equal normal forms, and conversely.
    pub fn same_text(
        a: &Self,
        b: &Self,
        src_addr: &Ipv6Address,
        dst_addr: &Ipv6Address,
        checksum_caps: &ChecksumCapabilities,
    )
        ensures { SameText (format (protocol src_addr.now dst_addr.now checksum_caps.now))
            (value_of a.now) (value_of b.now) }
    {}
}

// Whether the octets begin with a header of version 6.
pub(crate) fn is_packet_front(octets: &[u8]) -> bool
    ensures { IsTrue result ↔ IsPacketFront octets.now }
{
    octets.len() >= IPV6_HEADER_LEN && octets[0] / 16 == 6
}

// Whether the octets have a good checksum, as a message from the one address to the other.
#[tactic(auto, using(wirebase::proofs::PseudoSeals::pseudo_seals))]
fn is_good(octets: &[u8], src_addr: &Ipv6Address, dst_addr: &Ipv6Address) -> bool
    ensures { IsTrue result ↔ IsGood octets.now (extra_sum src_addr.now dst_addr.now (length octets.now)) }
{
    checksum::is_good(octets, sum_before(octets, src_addr, dst_addr))
}

// Writes the checksum, where it is computed.
#[tactic(auto, using(wirebase::proofs::PseudoSeals::pseudo_seals))]
fn seal(
    octets: &mut [u8],
    src_addr: &Ipv6Address,
    dst_addr: &Ipv6Address,
    checksum_caps: &ChecksumCapabilities,
)
    requires { Reaches checksum_field octets.old }
    ensures { octets.new
        ≡ sealed_octets (protocol src_addr.now dst_addr.now checksum_caps.now) octets.old }
{
    if checksum_caps.icmpv6.tx() {
        let sum = sum_before(octets, src_addr, dst_addr);
        checksum::fill(octets, field::CHECKSUM, sum);
    }
}

// The sum of the pseudo header for these octets.
fn sum_before(octets: &[u8], src_addr: &Ipv6Address, dst_addr: &Ipv6Address) -> u16
    ensures { result ≡ fold (extra_sum src_addr.now dst_addr.now (length octets.now)) }
{
    let len = octets.len() as u64 % (1 << 32);
    checksum::pseudo_header_v6(src_addr, dst_addr, IpProtocol::Icmpv6, len as u32)
}
