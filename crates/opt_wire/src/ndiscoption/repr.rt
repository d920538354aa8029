//! The values of options of neighbor discovery (RFC 4861 section 4.6).

ghost use Rattle.std.specs.Prelude.{◌≡◌, ◌*◌, ◌≤◌, ◌<◌, ◌^◌, ◌↔◌, [], ◌∷◌, length, IsTrue, IfOk, IsErr, IsOkAnd, Some};
ghost use Rattle.std.specs.Fmt.{WritesOnOk};
ghost use Rattle.wirebase.specs.Bytes.{bytes_of};
ghost use Rattle.wirebase.specs.ByteWriter.{free, Puts};
ghost use Rattle.wirebase.specs.Format.{Rewrites, SameText};
ghost use Rattle.wirebase.specs.Ipv6.{IsPacket, payload_field};
ghost use Rattle.wirebase.specs.declared.ipv6.Ipv6Repr.{Ipv6Repr};
ghost use Rattle.opt_wire.specs.NdiscOption.{inner, view_octets, redirected_field};
ghost use Rattle.opt_wire.specs.NdiscOptionRepr.{OptionValue, prefix_information, unknown, value_of, text, text_len};
ghost use Rattle.opt_wire.specs.NdiscOptionRepr.{CanEmit, BeginsWith, IsValidPrefix, format, Emits, display};
ghost use Rattle.opt_wire.specs.NdiscOptionRepr.{prefix_display, redirected_display};
ghost use Rattle.opt_wire.specs.declared.ndiscoption.repr.PrefixInformation.{PrefixInformation};

use super::{NdiscOption, PrefixInfoFlags, Type, field};
use crate::writing;
use crate::writing::UNIT;
use bitflags::Flags as _;
use std::fmt;
use wirebase::text::HexOrDash;
use wirebase::{
    ByteWriter, Duration, Error, Ipv6Address, Ipv6Packet, Ipv6Repr, OctetsMut, RawHardwareAddress,
    Result, are_bytes,
};

/// A prefix of addresses (RFC 4861 section 4.6.2). Its times are written in whole seconds.
#[derive(Debug, PartialEq, Eq, Clone, Copy)]
pub struct PrefixInformation {
    /// The length of the prefix, in bits.
    pub prefix_len: u8,
    /// What the prefix is for.
    pub flags: PrefixInfoFlags,
    /// How long the prefix is on the link.
    pub valid_lifetime: Duration,
    /// How long addresses made of the prefix are preferred.
    pub preferred_lifetime: Duration,
    /// The prefix, as an address that begins with it.
    pub prefix: Ipv6Address,
}

impl PrefixInformation {
    /// Whether hosts may make addresses of the prefix (RFC 4862 section 5.5.3, a to c): its flag for that is set, it is
    /// not the link-local prefix, and it is not preferred for longer than it is valid.
    pub fn is_valid_prefix_info(&self) -> bool
        ensures { IsTrue result ↔ IsValidPrefix self.now }
    {
        self.flags.contains(PrefixInfoFlags::ADDRCONF)
            && !self.prefix.is_link_local()
            && self.preferred_lifetime <= self.valid_lifetime
    }
}

/// Prints all fields in their order, with times in seconds.
impl fmt::Display for PrefixInformation {
    ghost output = { λ info. Some (prefix_display info) };

    fn fmt<W: fmt::Write>(&self, f: &mut fmt::Formatter<W>) -> fmt::Result {
        let PrefixInformation {
            prefix_len,
            flags,
            valid_lifetime,
            preferred_lifetime,
            prefix,
        } = *self;
        write!(
            f,
            "PrefixInformation prefix_len={prefix_len} flags={flags} valid_lifetime={valid_lifetime} \
             preferred_lifetime={preferred_lifetime} prefix={prefix}"
        )
    }
}

/// The packet that a redirect quotes (RFC 4861 section 4.6.3).
#[derive(Debug, PartialEq, Eq, Clone, Copy)]
pub struct RedirectedHeader<'a> {
    /// The header of that packet.
    pub header: Ipv6Repr,
    /// The payload: all the bytes that the header counts.
    pub data: &'a [u8],
}

/// Prints the header, the length of its payload, and the payload in hexadecimal.
impl fmt::Display for RedirectedHeader<'_> {
    ghost output = { λ redirected. Some (redirected_display redirected.header redirected.«data».now) };

    fn fmt<W: fmt::Write>(&self, f: &mut fmt::Formatter<W>) -> fmt::Result {
        write!(
            f,
            "RedirectedHeader header={} payload_len={} data={}",
            self.header,
            self.header.payload_len,
            HexOrDash(self.data)
        )
    }
}

/// An option (RFC 4861 section 4.6).
#[derive(Debug, PartialEq, Eq, Clone, Copy)]
pub enum Repr<'a> {
    /// The link-layer address of the sender.
    SourceLinkLayerAddr(RawHardwareAddress),
    /// The link-layer address of the target.
    TargetLinkLayerAddr(RawHardwareAddress),
    /// A prefix of the link.
    PrefixInformation(PrefixInformation),
    /// The packet that a redirect quotes.
    RedirectedHeader(RedirectedHeader<'a>),
    /// The MTU of the link, in bytes.
    Mtu(u32),
    /// An option of any other type.
    Unknown {
        /// The type, a number without a name.
        type_: u8,
        /// The units of 8 bytes that the option counts.
        length: u8,
        /// The data after type and length: 8 * `length` - 2 bytes.
        data: &'a [u8],
    },
}

impl<'a> Repr<'a> {
    /// The option at the front of the octets. Refused where they don't begin with a whole option of one unit or more,
    /// where a prefix has other than 4 units or an MTU other than 1, and where a redirected header doesn't hold a whole
    /// packet of version 6. Flags without a name are dropped; reserved bytes and padding are not checked.
    #[inline(always)]
    pub fn parse(opt: &NdiscOption<&'a [u8]>) -> Result<Repr<'a>>
        ensures sound { IfOk result (λ repr. BeginsWith (view_octets opt.now) (value_of repr)) }
        ensures complete { (value : OptionValue) → BeginsWith (view_octets opt.now) value
            → IsOkAnd result (λ repr. value_of repr ≡ value) }
        ensures rewrites { length (view_octets opt.now) ≤ 65515
            → IfOk result (λ repr. Rewrites format (value_of repr)) }
    {
        are_bytes(opt.buffer);
        Repr::read(opt)
    }

    // The option at the front of the octets.
    #[inline(always)]
    fn read(opt: &NdiscOption<&'a [u8]>) -> Result<Repr<'a>>
        ensures sound { IfOk result (λ repr. BeginsWith (view_octets opt.now) (value_of repr)) }
        ensures refuses { IsErr result → (value : OptionValue)
            → BeginsWith (view_octets opt.now) value → ⊥ }
    {
        opt.check_len()?;
        let length = opt.data_len();
        if length == 0 {
            return Err(Error);
        }
        // Each arm returns, so that the value is written once, in the caller's slot.
        match opt.option_type() {
            Type::SourceLinkLayerAddr => {
                return Ok(Repr::SourceLinkLayerAddr(opt.link_layer_addr()));
            }
            Type::TargetLinkLayerAddr => {
                return Ok(Repr::TargetLinkLayerAddr(opt.link_layer_addr()));
            }
            Type::PrefixInformation => {
                if length != 4 {
                    return Err(Error);
                }
                return Ok(Repr::PrefixInformation(PrefixInformation {
                    prefix_len: opt.prefix_len(),
                    flags: opt.prefix_flags(),
                    valid_lifetime: opt.valid_lifetime(),
                    preferred_lifetime: opt.preferred_lifetime(),
                    prefix: opt.prefix(),
                }));
            }
            Type::RedirectedHeader => {
                let (header, data) = read_redirected(opt.redirected())?;
                return Ok(Repr::RedirectedHeader(RedirectedHeader { header, data }));
            }
            Type::Mtu => {
                if length != 1 {
                    return Err(Error);
                }
                return Ok(Repr::Mtu(opt.mtu()));
            }
            Type::Unknown(type_) => {
                return Ok(Repr::Unknown {
                    type_,
                    length,
                    data: opt.data(),
                });
            }
        }
    }

    /// The bytes that the option takes: whole units. Requires that their number fits a `usize`.
    #[tactic(auto, using(crate::proofs::NdiscOptionTexts::texts))]
    pub fn buffer_len(&self) -> usize
        requires { text_len (value_of self.now) < 2 ^ 64 }
        ensures value { result ≡ text_len (value_of self.now) }
        ensures exact { CanEmit (value_of self.now) → result ≡ length (text (value_of self.now)) }
    {
        match self {
            Repr::SourceLinkLayerAddr(addr) => writing::link_layer_addr_len(addr),
            Repr::TargetLinkLayerAddr(addr) => writing::link_layer_addr_len(addr),
            Repr::PrefixInformation(_) => writing::PREFIX_OPTION_LEN,
            Repr::RedirectedHeader(redirected) => writing::redirected_len(redirected),
            Repr::Mtu(_) => writing::MTU_LEN,
            Repr::Unknown { length, .. } => UNIT * *length as usize,
        }
    }

    /// Writes the option over the front of the octets, its reserved bytes and its padding zero; the other octets are
    /// unchanged. Requires the bytes that the option takes; times of 4,294,967,295 seconds at most; that a redirected
    /// header counts its data as the payload, 1,992 bytes at most; and that the data of an unknown option, which counts
    /// one unit or more, fills those units.
    pub fn emit<T: OctetsMut>(&self, opt: &mut NdiscOption<T>)
        requires sound { CanEmit (value_of self.now) }
        requires room { text_len (value_of self.now) ≤ length (T.bytes (inner opt.old)) }
        ensures place { inner opt.new ≡ T.put (inner opt.old) (T.bytes (inner opt.new)) }
        ensures emits { Emits (value_of self.now) (T.bytes (inner opt.old))
            (T.bytes (inner opt.new)) }
    {
        self.emit_into(opt.buffer.octets_mut());
    }

    /// Like `emit`, but writes into a slice.
    #[tactic(auto, using(wirebase::proofs::Chains::chain))]
    pub fn emit_into(&self, octets: &mut [u8])
        requires sound { CanEmit (value_of self.now) }
        requires room { text_len (value_of self.now) ≤ length octets.old }
        ensures { Emits (value_of self.now) octets.old octets.new }
    {
        let mut w = ByteWriter::new(octets);
        self.put(&mut w);
    }

    /// Does nothing; its contract states, of two options that a packet can hold, that equal texts mean equal normal
    /// forms, and conversely.
    #[tactic(auto, using(crate::proofs::NdiscOptionFormat::ndisc_option_same_text))]
    pub fn same_text(a: &Self, b: &Self)
        ensures { SameText format (value_of a.now) (value_of b.now) }
    {}

    // Writes the text of the option.
    #[tactic(auto, using(crate::proofs::FieldsAtOnce::at_once))]
    fn put(&self, w: &mut ByteWriter<'_>)
        requires sound { CanEmit (value_of self.now) }
        requires room { text_len (value_of self.now) ≤ length (free w.old) }
        ensures { Puts w.old w.new (text (value_of self.now) ∷ []) }
    {
        match self {
            Repr::SourceLinkLayerAddr(addr) => {
                writing::put_link_layer_addr(w, Type::SourceLinkLayerAddr, addr);
            }
            Repr::TargetLinkLayerAddr(addr) => {
                writing::put_link_layer_addr(w, Type::TargetLinkLayerAddr, addr);
            }
            Repr::PrefixInformation(info) => writing::put_prefix(w, info),
            Repr::RedirectedHeader(redirected) => writing::put_redirected(w, redirected),
            Repr::Mtu(mtu) => writing::put_mtu(w, *mtu),
            Repr::Unknown {
                type_,
                length,
                data,
            } => {
                w.put_bytes(&[*type_, *length]);
                w.put_bytes(data);
            }
        }
    }
}

impl<'a> NdiscOption<&'a [u8]> {
    ghost use Rattle.opt_wire.specs.NdiscOption.{units_in};
    ghost use Rattle.wirebase.specs.Bytes.{Reaches};

    // The octets of the redirected packet.
    #[tactic(auto, using(wirebase::proofs::Pieces::pieces), unfolding(wirebase::specs::Bytes::part))]
    pub(super) fn redirected(&self) -> &'a [u8]
        requires some { 1 ≤ units_in (view_octets self.now) }
        requires whole { Reaches (redirected_field (view_octets self.now)) (view_octets self.now) }
        ensures { result.now ≡ bytes_of (redirected_field (view_octets self.now))
            (view_octets self.now) }
    {
        let octets: &'a [u8] = self.buffer;
        &octets[field::redirected(self.data_len())]
    }
}

// The header of a packet, and its payload. A function of its own, so that a parser needs no registers and no stack for
// them when it reads one of the other options.
#[inline(never)]
fn read_redirected(octets: &[u8]) -> Result<(Ipv6Repr, &[u8])>
    ensures sound { IfOk result (λ packet. IsPacket octets.now packet.0
        × (packet.1.now ≡ bytes_of (payload_field octets.now) octets.now)) }
    ensures refuses { IsErr result → (header : Ipv6Repr) → IsPacket octets.now header → ⊥ }
{
    let packet = Ipv6Packet::new_checked(octets)?;
    let header = Ipv6Repr::parse(&packet)?;
    Ok((header, packet.payload()))
}

/// Prints the fields, as `NDISC Option: MTU mtu=1500`; the data of an option of unknown type in hexadecimal.
impl fmt::Display for Repr<'_> {
    ghost output = { λ repr. Some (display (value_of repr)) };

    fn fmt<W: fmt::Write>(&self, f: &mut fmt::Formatter<W>) -> fmt::Result {
        match self {
            Repr::SourceLinkLayerAddr(addr) => {
                write!(f, "NDISC Option: SourceLinkLayer addr={addr}")
            }
            Repr::TargetLinkLayerAddr(addr) => {
                write!(f, "NDISC Option: TargetLinkLayer addr={addr}")
            }
            Repr::PrefixInformation(info) => fmt_prefix(f, info),
            Repr::RedirectedHeader(redirected) => write!(f, "NDISC Option: {redirected}"),
            Repr::Mtu(mtu) => write!(f, "NDISC Option: MTU mtu={mtu}"),
            Repr::Unknown {
                type_,
                length,
                data,
            } => fmt_unknown(f, *type_, *length, data),
        }
    }
}

// Prints a prefix.
fn fmt_prefix<W: fmt::Write>(f: &mut fmt::Formatter<W>, info: &PrefixInformation) -> fmt::Result
    ensures { WritesOnOk W.write_str_gives f.old result (display (prefix_information info.now)) f.new }
{
    let PrefixInformation {
        prefix_len,
        flags,
        valid_lifetime,
        preferred_lifetime,
        prefix,
    } = *info;
    write!(
        f,
        "NDISC Option: PrefixInformation prefix={prefix}/{prefix_len} flags={flags} \
         valid_lifetime={valid_lifetime} preferred_lifetime={preferred_lifetime}"
    )
}

// Prints an option of unknown type.
fn fmt_unknown<W: fmt::Write>(
    f: &mut fmt::Formatter<W>,
    type_: u8,
    length: u8,
    data: &[u8],
) -> fmt::Result
    ensures { WritesOnOk W.write_str_gives f.old result (display (unknown type_ length «data».now)) f.new }
{
    write!(
        f,
        "NDISC Option: Unknown({type_}) length={length} data={}",
        HexOrDash(data)
    )
}
