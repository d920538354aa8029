//! The header that the extension headers of IPv6 with options have in common (RFC 8200 sections 4.3 and 4.6).
//!
//! ```
//! use control_wire::IpProtocol;
//! use control_wire::ipv6ext_header::{Header, Repr};
//!
//! // A hop-by-hop header before a message of ICMPv6.
//! let header = Header::new_checked(&[58, 0, 5, 2, 0, 0, 1, 0])?;
//! let header = Repr::parse(&header)?;
//! assert_eq!(header.next_header, IpProtocol::Icmpv6);
//! assert_eq!(header.data, [5, 2, 0, 0, 1, 0]);
//! # Ok::<(), control_wire::Error>(())
//! ```

ghost use Rattle.std.specs.Prelude.{◌≡◌, ◌≤◌, ◌<◌, ◌-◌, ◌+◌, ◌*◌, ◌↔◌, [], ◌∷◌, length, IsTrue, IsOk, IfOk, IsOkAnd};
ghost use Rattle.std.specs.Borrow.{sem, Lends, Array, u8 as byte};
ghost use Rattle.wirebase.specs.Bytes.{splice, over, Reaches, byte_of, bytes_of};
ghost use Rattle.wirebase.specs.Ip.{protocol_number, protocol_of};
ghost use Rattle.wirebase.specs.View.{Sets, KeepsLen};
ghost use Rattle.opt_wire.specs.Ipv6ExtHeader.{inner, with_inner, view_octets, next_header_field};
ghost use Rattle.opt_wire.specs.Ipv6ExtHeader.{length_field, header_end, payload_field, IsWhole, HeaderValue, value_of};
ghost use Rattle.opt_wire.specs.Ipv6ExtHeader.{IsHeader, text, Emits, CarriesOptions};
ghost use Rattle.opt_wire.specs.contracts.ipv6ext_header.Header.{the_row};

use wirebase::{ByteWriter, Error, IPV6_HBH_MAX_OPTIONS, IpProtocol, Octets, OctetsMut, Result};

mod refusal;

pub use refusal::Refusal;

// The fields of a header; their picture is in specs/Ipv6ExtHeader.antt.
mod field {
    use wirebase::Field;

    pub const NEXT_HEADER: Field = 0..1;

    pub const LENGTH: Field = 1..2;

    pub const PAYLOAD: usize = 2;

    // The bytes of the shortest header.
    pub const MIN_END: usize = 8;
}

/// A view of the octets of a header.
#[derive(Debug, Drop)]
pub struct Header<T: Octets> {
    buffer: T,
}

impl<T: Octets> Header<T> {
    /// Makes a view of `buffer`; its length is not checked.
    pub const fn new_unchecked(buffer: T) -> Header<T>
        ensures { inner result ≡ buffer }
    {
        Header { buffer }
    }

    /// Makes a view of `buffer`. Refused where it has fewer than 8 octets, or fewer than the length field counts. On
    /// refusal the buffer is dropped: to keep a `&mut [u8]`, call `new_unchecked` and then `check_len`.
    pub fn new_checked(buffer: T) -> Result<Header<T>>
        ensures accepts { IsOk result ↔ IsWhole (T.bytes buffer) }
        ensures buffer { IfOk result (λ view. inner view ≡ buffer) }
    {
        let header = Header::new_unchecked(buffer);
        header.check_len()?;
        Ok(header)
    }

    /// Accepts 8 octets or more that hold all the bytes that the length field counts. Then each accessor may be called.
    pub fn check_len(&self) -> Result<()>
        ensures accepts { IsOk result ↔ IsWhole (T.bytes (inner self.now)) }
    {
        let len = self.buffer.octets().len();
        if len < field::MIN_END || len < end_of(self.header_len()) {
            return Err(Error);
        }
        Ok(())
    }

    /// Returns the buffer of the view.
    pub fn into_inner(self) -> T
        ensures { result ≡ inner self }
    {
        self.buffer
    }

    /// The protocol of what follows the header. Requires at least 1 byte.
    pub fn next_header(&self) -> IpProtocol
        requires { Reaches next_header_field (T.bytes (inner self.now)) }
        ensures { result ≡ protocol_of (byte_of next_header_field (T.bytes (inner self.now))) }
    {
        IpProtocol::from(self.buffer.u8_at(field::NEXT_HEADER))
    }

    /// The length of the header in units of eight bytes, without the first eight bytes. Requires at least 2 bytes.
    pub fn header_len(&self) -> u8
        requires { Reaches length_field (T.bytes (inner self.now)) }
        ensures { result ≡ byte_of length_field (T.bytes (inner self.now)) }
    {
        self.buffer.u8_at(field::LENGTH)
    }
}

// Where the payload of a header of this length ends.
fn end_of(length: u8) -> usize
    ensures { result ≡ 8 * length + 8 }
{
    8 * length as usize + field::MIN_END
}

impl<'a> Header<&'a [u8]> {
    /// The payload, for as long as the octets live. Requires the bytes that the length counts.
    #[tactic(auto, using(wirebase::proofs::Pieces::pieces), unfolding(wirebase::specs::Bytes::part))]
    pub fn payload(&self) -> &'a [u8]
        requires whole { Reaches (payload_field (view_octets self.now)) (view_octets self.now) }
        ensures value { result.now ≡ bytes_of (payload_field (view_octets self.now))
            (view_octets self.now) }
        ensures len { length result.now ≡ header_end (view_octets self.now) - 2 }
    {
        let octets: &'a [u8] = self.buffer;
        &octets[field::PAYLOAD..end_of(self.header_len())]
    }
}

impl<T: OctetsMut> Header<T> {
    /// Writes the protocol of what follows the header. Requires at least 1 byte.
    pub fn set_next_header(&mut self, value: IpProtocol)
        requires { Reaches next_header_field (T.bytes (inner self.old)) }
        ensures writes { Sets inner T.bytes T.put self.old self.new next_header_field
            (protocol_number value ∷ []) }
        ensures len { KeepsLen inner T.bytes self.old self.new }
    {
        self.buffer.set_u8(field::NEXT_HEADER, value.into());
    }

    /// Writes the length in units of eight bytes, without the first eight bytes. Requires at least 2 bytes.
    pub fn set_header_len(&mut self, value: u8)
        requires { Reaches length_field (T.bytes (inner self.old)) }
        ensures writes { Sets inner T.bytes T.put self.old self.new length_field (value ∷ []) }
        ensures len { KeepsLen inner T.bytes self.old self.new }
    {
        self.buffer.set_u8(field::LENGTH, value);
    }

    /// Lends the payload for writing; the other octets are unchanged. Requires the bytes that the length counts.
    pub fn payload_mut(&mut self) -> &mut [u8]
        requires whole { Reaches (payload_field (T.bytes (inner self.old)))
            (T.bytes (inner self.old)) }
        ensures* lends { sem 𝓛 (Lends (the_row T.row) (Array byte 0) self.entry result
            (λ w. with_inner self.old (T.put (inner self.old)
            (splice (T.bytes (inner self.old)) 2 (header_end (T.bytes (inner self.old))) w)))) }
        ensures value { result.now
            ≡ bytes_of (payload_field (T.bytes (inner self.old))) (T.bytes (inner self.old)) }
        ensures len { length result.now ≡ header_end (T.bytes (inner self.old)) - 2 }
    {
        let end = end_of(self.header_len());
        self.buffer.range_mut(field::PAYLOAD, end)
    }
}

/// Views are equal where their octets are equal.
impl<T: Octets> PartialEq for Header<T> {
    ghost use Rattle.std.specs.Prelude.{◌==◌};
    ghost use Rattle.std.proofs.Common.{rules};
    ghost use Rattle.std.specs.Cmp.Lexicographic.{pointwise};
    ghost use Rattle.std.specs.Cmp.Rules.{comparing};
    ghost use Rattle.std.specs.Ordering.{on};

    ghost eq = { on (λ view. T.bytes (inner view)) (pointwise ◌==◌) };

    ghost laws = { Prim.search (comparing, rules) };

    fn eq(&self, other: &Header<T>) -> bool
        ensures { IsTrue result ↔ (T.bytes (inner self.now) ≡ T.bytes (inner other.now)) }
    {
        self.buffer.octets() == other.buffer.octets()
    }
}

impl<T: Octets> Eq for Header<T> {
    ghost use Rattle.std.proofs.Common.{rules};
    ghost use Rattle.std.specs.Cmp.Rules.{comparing};

    ghost laws = { Prim.search (comparing, rules) };
}

/// The value of a header (RFC 8200 sections 4.3 and 4.6).
#[derive(Debug, PartialEq, Eq, Clone, Copy)]
pub struct Repr<'a> {
    /// The protocol of what follows the header.
    pub next_header: IpProtocol,
    /// The length of the header in units of eight bytes, without the first eight bytes.
    pub length: u8,
    /// The payload: the bytes of the header after its length field.
    pub data: &'a [u8],
}

impl<'a> Repr<'a> {
    /// The header at the front of the octets. Refused where there are fewer than 8 octets, or fewer than the length
    /// counts.
    pub fn parse(header: &Header<&'a [u8]>) -> Result<Repr<'a>>
        ensures sound { IfOk result (λ repr. IsHeader (view_octets header.now) (value_of repr)) }
        ensures complete { (value : HeaderValue) → IsHeader (view_octets header.now) value
            → IsOkAnd result (λ repr. value_of repr ≡ value) }
        ensures hop_by_hop { CarriesOptions IPV6_HBH_MAX_OPTIONS }
    {
        header.check_len()?;
        Ok(Repr {
            next_header: header.next_header(),
            length: header.header_len(),
            data: header.payload(),
        })
    }

    /// The bytes that are written: 2.
    pub const fn header_len(&self) -> usize
        ensures { result ≡ 2 }
    {
        field::PAYLOAD
    }

    /// Writes the next header and the length over the first two octets; the others, the payload too, are unchanged.
    /// Requires at least 2 bytes.
    pub fn emit<T: OctetsMut>(&self, header: &mut Header<T>)
        requires { 2 ≤ length (T.bytes (inner header.old)) }
        ensures place { inner header.new ≡ T.put (inner header.old) (T.bytes (inner header.new)) }
        ensures emits { Emits (value_of self.now) (T.bytes (inner header.old))
            (T.bytes (inner header.new)) }
    {
        self.emit_into(header.buffer.octets_mut());
    }

    /// Like `emit`, but writes into a slice.
    pub fn emit_into(&self, octets: &mut [u8])
        requires { 2 ≤ length octets.old }
        ensures { Emits (value_of self.now) octets.old octets.new }
    {
        self.write(octets);
    }

    // Writes the first two bytes.
    #[tactic(auto, using(wirebase::proofs::Chains::chain))]
    fn write(&self, octets: &mut [u8])
        requires { 2 ≤ length octets.old }
        ensures { octets.new ≡ over octets.old (text (value_of self.now)) }
    {
        let mut w = ByteWriter::new(octets);
        w.put_u8(self.next_header.into());
        w.put_u8(self.length);
    }
}
