//! ICMPv4 errors with the bytes that they quote (RFC 792), and the error about a datagram.

ghost use Rattle.std.specs.Prelude.{◌≡◌, ◌≤◌, ◌↔◌, length, IfOk, IfErr, IsOkAnd, IfSome, IsNone, IsTrue, Some};
ghost use Rattle.std.specs.Option.{option_map};
ghost use Rattle.extension_wire.specs.Split as split;
ghost use Rattle.extension_wire.specs.Split.{PartsValue, IsSplit};
ghost use Rattle.extension_wire.specs.declared.family.Family.{Family as AnyFamily};
ghost use Rattle.wirebase.specs.Bytes.{Reaches};
ghost use Rattle.wirebase.specs.Format.{Rewrites, SameText};
ghost use Rattle.wirebase.specs.Icmp.{checksum_field, header};
ghost use Rattle.wirebase.specs.Ipv4.{octets_of};
ghost use Rattle.quote_wire.specs.Error.{ErrorValue, IsError, IsRead, Refuses, text_len, packet_text};
ghost use Rattle.quote_wire.specs.Error.{seal as sealed_octets, format, Emits};
ghost use Rattle.quote_wire.specs.Icmpv4Error.{kind_number, IsDatagram, protocol, value_of};
ghost use Rattle.quote_wire.specs.Icmpv4Error.{next_hop_mtu_in, gateway_in, pointer_in, length_in};
ghost use Rattle.quote_wire.specs.declared.icmpv4_error.Kind.{Kind as AnyKind};
ghost use Rattle.wirebase.specs.declared.capabilities.ChecksumCapabilities.{ChecksumCapabilities as AnyCapabilities};

mod display;
mod reason;

pub use crate::error::Refusal;
use crate::error::write_error;
use crate::field;
use crate::quote::why_no_datagram;
use extension_wire::{Family, Parts, SplitRefusal};
use wirebase::{ChecksumCapabilities, Error, Ipv4Address, Octets, Result, are_bytes, checksum};

/// The most bytes of a datagram that an error quotes: with the error's own headers they make 576, which every host
/// accepts (RFC 1812 section 4.3.2.3).
pub const MAX_QUOTED: usize = 548;

// The bytes of an IPv4 header without options.
const IPV4_HEADER_LEN: usize = 20;

// The fewest bytes that follow the quoted header (RFC 792).
const MIN_QUOTED_DATA: usize = 8;

/// The types of error (RFC 792).
#[derive(Debug, PartialEq, Eq, Clone, Copy)]
pub enum Kind {
    /// Type 3: the datagram could not be delivered; the code says why (`icmpv4::DstUnreachable`).
    DstUnreachable,
    /// Type 4: the source is to send less. Obsolete (RFC 6633).
    SourceQuench,
    /// Type 5: another gateway is better; the code says for which datagrams (`icmpv4::Redirect`).
    Redirect,
    /// Type 11: the datagram lived too long, or its fragments did; the code says which (`icmpv4::TimeExceeded`).
    TimeExceeded,
    /// Type 12: a parameter of the header is wrong (`icmpv4::ParamProblem`).
    ParamProblem,
}

impl Kind {
    /// The number of the type.
    pub fn number(self) -> u8
        ensures { result ≡ kind_number self }
    {
        match self {
            Kind::DstUnreachable => 3,
            Kind::SourceQuench => 4,
            Kind::Redirect => 5,
            Kind::TimeExceeded => 11,
            Kind::ParamProblem => 12,
        }
    }

    /// The type of this number; None exactly where it is not that of an error.
    pub fn from_number(number: u8) -> Option<Kind>
        ensures sound { IfSome result (λ kind. number ≡ kind_number kind) }
        ensures complete { (kind : AnyKind) → number ≡ kind_number kind → result ≡ Some kind }
    {
        match number {
            3 => Some(Kind::DstUnreachable),
            4 => Some(Kind::SourceQuench),
            5 => Some(Kind::Redirect),
            11 => Some(Kind::TimeExceeded),
            12 => Some(Kind::ParamProblem),
            _ => None,
        }
    }
}

/// An error about a datagram (RFC 792).
///
/// ```
/// use quote_wire::icmpv4_error::{Kind, Repr};
/// use control_wire::ChecksumCapabilities;
///
/// // A datagram that must not be fragmented was too big for the next link, which takes 1400 bytes.
/// let mut datagram = [0; 28];
/// datagram[0] = 0x45;
/// let error = Repr { kind: Kind::DstUnreachable, code: 4, rest: 1400, quoted: &datagram };
/// let checksums = ChecksumCapabilities::default();
/// let mut octets = [0; 64];
/// let octets = &mut octets[..error.buffer_len()];
/// error.emit_into(octets, &checksums);
/// let read = Repr::parse(octets, &checksums)?;
/// assert_eq!(read.next_hop_mtu(), Some(1400));
/// let text = "ICMPv4 destination unreachable code=4 (fragmentation required, and DF flag set) mtu=1400 quoted=28";
/// assert_eq!(read.to_string(), text);
/// # Ok::<(), control_wire::Error>(())
/// ```
#[derive(Debug, PartialEq, Eq, Clone, Copy)]
pub struct Repr<'a> {
    /// The type.
    pub kind: Kind,
    /// The code, by the type.
    pub code: u8,
    /// The four bytes after the checksum: of a redirect the gateway's address, of a parameter problem the pointer in
    /// the first of them, and where fragmentation was needed the next hop's MTU in the last two. In an error with
    /// extensions the second byte is the length of the quoted datagram, in units of 4 bytes (RFC 4884 section 4). Else
    /// unused.
    pub rest: u32,
    /// All that follows the header: the datagram that is quoted, of version 4, from its header on, with at least 8
    /// bytes after it. A router may append zeros and extensions, such as MPLS labels; these are part of `quoted` too
    /// (RFC 4884 sections 4 and 7), and [`Repr::parts`] tells them apart. An error that is written has at most the
    /// first 548 bytes.
    pub quoted: &'a [u8],
}

impl<'a> Repr<'a> {
    /// The error in the octets. Refused where they are fewer than 8, where their checksum is to be verified and is
    /// wrong, where the type is not that of an error, and where what follows the header is not the start of an IPv4
    /// datagram: a header of version 4 and of 20 bytes or more by its own length, and 8 bytes or more after it. The
    /// datagram's total length is not looked at.
    pub fn parse(octets: &'a [u8], checksum_caps: &ChecksumCapabilities) -> Result<Repr<'a>>
        ensures sound { IfOk result (λ repr. IsError (protocol checksum_caps.now) octets.now (value_of repr)) }
        ensures complete { (value : ErrorValue AnyKind) → IsError (protocol checksum_caps.now) octets.now value
            → IsOkAnd result (λ repr. value_of repr ≡ value) }
        ensures rewrites { length octets.now ≤ 65515
            → IfOk result (λ repr. Rewrites (format (protocol checksum_caps.now)) (value_of repr)) }
    {
        are_bytes(octets);
        Repr::read(octets, checksum_caps)
    }

    // The error in the octets. Apart from `parse_or_refusal`: room for a reason in its result takes 81 bytes of code
    // more at opt-level "z".
    fn read(octets: &'a [u8], checksum_caps: &ChecksumCapabilities) -> Result<Repr<'a>>
        ensures sound { IfOk result (λ repr. IsError (protocol checksum_caps.now) octets.now (value_of repr)) }
        ensures complete { (value : ErrorValue AnyKind) → IsError (protocol checksum_caps.now) octets.now value
            → IsOkAnd result (λ repr. value_of repr ≡ value) }
    {
        if octets.len() < field::HEADER_END {
            return Err(Error);
        }
        if checksum_caps.icmpv4.rx() && !checksum::is_good(octets, 0) {
            return Err(Error);
        }
        let quoted = &octets[field::HEADER_END..];
        if !is_datagram(quoted) {
            return Err(Error);
        }
        match Kind::from_number(octets.u8_at(field::TYPE)) {
            Some(kind) => Ok(Repr {
                kind,
                code: octets.u8_at(field::CODE),
                rest: octets.u32_at(field::REST),
                quoted,
            }),
            None => Err(Error),
        }
    }

    /// The error in the octets, or why [`Repr::parse`] refuses them, by the check that fails first.
    #[inline]
    pub fn parse_or_refusal(
        octets: &'a [u8],
        checksum_caps: &ChecksumCapabilities,
    ) -> std::result::Result<Repr<'a>, Refusal>
        ensures sound { IfOk result (λ repr. IsError (protocol checksum_caps.now) octets.now (value_of repr)) }
        ensures complete { (value : ErrorValue AnyKind) → IsError (protocol checksum_caps.now) octets.now value
            → IsOkAnd result (λ repr. value_of repr ≡ value) }
        ensures told { IfErr result (Refuses (protocol checksum_caps.now) octets.now) }
    {
        if octets.len() < field::HEADER_END {
            return Err(Refusal::Short);
        }
        if checksum_caps.icmpv4.rx() && !checksum::is_good(octets, 0) {
            return Err(Refusal::Checksum);
        }
        let number = octets.u8_at(field::TYPE);
        let Some(kind) = Kind::from_number(number) else {
            return Err(Refusal::UnknownType(number));
        };
        let quoted = &octets[field::HEADER_END..];
        if !is_datagram(quoted) {
            return Err(Refusal::Quote(why_no_datagram(quoted)));
        }
        Ok(Repr {
            kind,
            code: octets.u8_at(field::CODE),
            rest: octets.u32_at(field::REST),
            quoted,
        })
    }

    /// Why [`Repr::parse`] refuses these octets, by the check that fails first; None exactly where it reads them.
    pub fn refusal(octets: &[u8], checksum_caps: &ChecksumCapabilities) -> Option<Refusal>
        ensures told { IfSome result (Refuses (protocol checksum_caps.now) octets.now) }
        ensures exact { IsNone result ↔ IsRead (protocol checksum_caps.now) octets.now }
    {
        Repr::parse_or_refusal(octets, checksum_caps).err()
    }

    /// The MTU of the next link, in bytes, where fragmentation was needed but not allowed (type 3, code 4; RFC 1191
    /// section 4). None for every other error, and where the router did not fill the field, which is then 0.
    pub fn next_hop_mtu(&self) -> Option<u16>
        ensures { result ≡ next_hop_mtu_in (value_of self.now) }
    {
        let mtu = (self.rest % (1 << 16)) as u16;
        match (self.kind, self.code) {
            (Kind::DstUnreachable, 4) if mtu != 0 => Some(mtu),
            _ => None,
        }
    }

    /// The address of the gateway in a redirect (RFC 792). None for every other error.
    pub fn gateway(&self) -> Option<Ipv4Address>
        ensures { option_map octets_of result ≡ gateway_in (value_of self.now) }
    {
        match self.kind {
            Kind::Redirect => Some(Ipv4Address::from_octets(self.rest.to_be_bytes())),
            _ => None,
        }
    }

    /// The offset of the byte that a parameter problem is about, from the start of the quoted header; RFC 792 defines
    /// it where the code is 0. None for every other error.
    pub fn pointer(&self) -> Option<u8>
        ensures { result ≡ pointer_in (value_of self.now) }
    {
        match self.kind {
            Kind::ParamProblem => Some((self.rest >> 24) as u8),
            _ => None,
        }
    }

    /// The quoted datagram and the extensions behind it (RFC 4884 section 4), told apart by the error's length: the
    /// second byte of `rest`, in words of 4 bytes, of destination unreachable, time exceeded and parameter problem. The
    /// other types have none, and where it is 0, all is quoted. Refused where the datagram has fewer than 128 bytes by
    /// its length, or more than there are.
    ///
    /// ```
    /// use quote_wire::icmpv4_error::{Kind, Repr};
    ///
    /// // A quote of 128 bytes, which are 32 words, and the header of an extension structure behind it.
    /// let mut quoted = [0; 132];
    /// quoted[0] = 0x45;
    /// quoted[128] = 0x20;
    /// let error = Repr { kind: Kind::TimeExceeded, code: 0, rest: 32 << 16, quoted: &quoted };
    /// let parts = error.parts().unwrap();
    /// assert_eq!(parts.quoted, &quoted[..128]);
    /// assert_eq!(parts.extensions, Some(&quoted[128..]));
    /// ```
    pub fn parts(&self) -> std::result::Result<Parts<'a>, SplitRefusal>
        ensures sound { IfOk result (λ parts.
            IsSplit AnyFamily.V4 (length_in (value_of self.now)) self.now.quoted.now (split.value_of parts)) }
        ensures complete { (value : PartsValue)
            → IsSplit AnyFamily.V4 (length_in (value_of self.now)) self.now.quoted.now value
            → IsOkAnd result (λ parts. split.value_of parts ≡ value) }
        ensures told { IfErr result
            (split.Refuses AnyFamily.V4 (length_in (value_of self.now)) self.now.quoted.now) }
    {
        Parts::split(self.quoted, self.length(), Family::V4)
    }

    // The length of the quoted datagram in words; 0 where none is told.
    fn length(&self) -> u8
        ensures { result ≡ length_in (value_of self.now) }
    {
        match self.kind {
            Kind::DstUnreachable | Kind::TimeExceeded | Kind::ParamProblem => {
                (self.rest / (1 << 16) % (1 << 8)) as u8
            }
            Kind::SourceQuench | Kind::Redirect => 0,
        }
    }

    /// The length of the error in bytes, at most 556.
    pub fn buffer_len(&self) -> usize
        ensures value { (capabilities : AnyCapabilities)
            → result ≡ text_len (protocol capabilities) (value_of self.now) }
        ensures exact { (capabilities : AnyCapabilities)
            → result ≡ length (packet_text (protocol capabilities) (value_of self.now)) }
        ensures most { result ≤ 556 }
    {
        field::HEADER_END + self.quoted.len().min(MAX_QUOTED)
    }

    /// Writes the error at the start of the octets, cut at their end, and then, where the capabilities ask for it, the
    /// checksum of all octets. The others keep their values. Requires at least 8 bytes. Give exactly `buffer_len()`: in
    /// a longer buffer the checksum covers what follows the error. At most 548 bytes of `quoted` are written.
    #[tactic(auto, using(crate::proofs::ErrorFormat::take_counted))]
    pub fn emit_into(&self, octets: &mut [u8], checksum_caps: &ChecksumCapabilities)
        requires { Reaches header octets.old }
        ensures { Emits (protocol checksum_caps.now) (value_of self.now) octets.old octets.new }
    {
        write_error(
            octets,
            self.kind.number(),
            self.code,
            self.rest,
            &self.quoted[..self.quoted.len().min(MAX_QUOTED)],
        );
        seal(octets, checksum_caps);
    }

    /// Proof only: equal texts of two errors that a packet can hold mean equal normal forms, and conversely.
    pub fn same_text(a: &Self, b: &Self, checksum_caps: &ChecksumCapabilities)
        ensures { SameText (format (protocol checksum_caps.now)) (value_of a.now) (value_of b.now) }
    {}
}

// Whether the octets begin with an IPv4 header of version 4 that at least 8 bytes follow.
pub(crate) fn is_datagram(octets: &[u8]) -> bool
    ensures { IsTrue result ↔ IsDatagram octets.now }
{
    let Some(first) = octets.first() else {
        return false;
    };
    let header_len = 4 * (*first % 16) as usize;
    *first / 16 == 4
        && header_len >= IPV4_HEADER_LEN
        && octets.len() >= header_len + MIN_QUOTED_DATA
}

// Writes the checksum, where it is computed.
fn seal(octets: &mut [u8], checksum_caps: &ChecksumCapabilities)
    requires { Reaches checksum_field octets.old }
    ensures { octets.new ≡ sealed_octets (protocol checksum_caps.now) octets.old }
{
    if checksum_caps.icmpv4.tx() {
        checksum::fill(octets, field::CHECKSUM, 0);
    }
}
