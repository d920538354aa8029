//! Options of neighbor discovery (RFC 4861 section 4.6).
//!
//! ```
//! use control_wire::ndiscoption::{NdiscOption, Repr};
//! use control_wire::{EthernetAddress, RawHardwareAddress};
//!
//! let octets = [1, 1, 0x52, 0x54, 0, 0, 0, 1];
//! let option = NdiscOption::new_checked(&octets)?;
//! let address = EthernetAddress([0x52, 0x54, 0, 0, 0, 1]);
//! assert_eq!(
//!     Repr::parse(&option)?,
//!     Repr::SourceLinkLayerAddr(RawHardwareAddress::from(address)),
//! );
//! # Ok::<(), control_wire::Error>(())
//! ```

ghost use Rattle.std.specs.Prelude.{◌≡◌, ◌+◌, ◌*◌, ◌-◌, ◌≤◌, ◌↔◌, [], ◌∷◌, length, replicate, IsOk, IfOk};
ghost use Rattle.std.specs.Borrow.{sem, Lends, Array, u8 as byte};
ghost use Rattle.byteorder.specs.Endian.{big_bytes};
ghost use Rattle.wirebase.specs.Bytes.{Reaches, field as bytes_field, bytes_of, byte_of, number_of, with_field};
ghost use Rattle.wirebase.specs.Duration.{micros_of, seconds_of};
ghost use Rattle.wirebase.specs.HardwareAddress.{raw_bytes};
ghost use Rattle.wirebase.specs.Ipv6Address.{octets_of};
ghost use Rattle.wirebase.specs.View.{Sets, KeepsLen};
ghost use Rattle.opt_wire.specs.NdiscOption.{inner, with_inner, type_field, length_field, units_in};
ghost use Rattle.opt_wire.specs.NdiscOption.{data_field, link_addr_field, mtu_field, prefix_len_field};
ghost use Rattle.opt_wire.specs.NdiscOption.{prefix_flags_field, valid_lifetime_field, preferred_lifetime_field};
ghost use Rattle.opt_wire.specs.NdiscOption.{prefix_reserved_field, prefix_field, redirected_reserved_field};
ghost use Rattle.opt_wire.specs.NdiscOption.{BeginsWhole, BeginsWithBlock, view_octets};
ghost use Rattle.opt_wire.specs.NdiscOptionTables.{type_number, type_of, flag_bits, known};
ghost use Rattle.opt_wire.specs.contracts.ndiscoption.NdiscOption.{the_row};

use crate::writing::UNIT;
use bitflags::Flags as _;
use std::fmt;
use wirebase::{Duration, Error, Ipv6Address, Octets, OctetsMut, RawHardwareAddress, Result};

mod options;
mod refusal;
mod repr;
mod tables;

pub use options::NdiscOptions;
pub use refusal::Refusal;
pub use repr::{PrefixInformation, RedirectedHeader, Repr};
pub use tables::{PrefixInfoFlags, Type};

// The fields of an option (RFC 4861 section 4.6), of units of 8 bytes; their picture is in specs/NdiscOption.antt.
mod field {
    use crate::writing::UNIT;
    use wirebase::Field;

    pub const TYPE: Field = 0..1;

    pub const LENGTH: Field = 1..2;

    pub const PREFIX_OPTION_LEN: Field = 2..3;

    pub const PREFIX_FLAGS: Field = 3..4;

    pub const VALID_LIFETIME: Field = 4..8;

    pub const PREFERRED_LIFETIME: Field = 8..12;

    pub const PREFIX_RESERVED: Field = 12..16;

    pub const PREFIX: Field = 16..32;

    pub const REDIRECTED_RESERVED: Field = 2..8;

    pub const MTU: Field = 4..8;

    // The field of the data of an option of `units` units.
    pub fn data(units: u8) -> Field
        ensures start { result.start ≡ 2 }
        ensures end { result.end ≡ 8 * units }
    {
        2..UNIT * units as usize
    }

    // The field of the redirected packet in an option of `units` units.
    pub fn redirected(units: u8) -> Field
        ensures start { result.start ≡ 8 }
        ensures end { result.end ≡ 8 * units }
    {
        REDIRECTED_RESERVED.end..UNIT * units as usize
    }

    // The field of the link-layer address in an option of one unit, and in a longer one.
    pub const SHORT_ADDR: Field = 2..8;

    pub const LONG_ADDR: Field = 2..10;

    // The field of a link-layer address of `len` bytes.
    pub fn link_layer_addr(len: usize) -> Field
        requires { len ≤ 8 }
        ensures start { result.start ≡ 2 }
        ensures end { result.end ≡ 2 + len }
    {
        2..2 + len
    }
}

/// A view of the octets of one option.
#[derive(Debug, Drop)]
pub struct NdiscOption<T: Octets> {
    buffer: T,
}

impl<T: Octets> NdiscOption<T> {
    /// Makes a view of `buffer`; its length is not checked.
    pub const fn new_unchecked(buffer: T) -> NdiscOption<T>
        ensures { inner result ≡ buffer }
    {
        NdiscOption { buffer }
    }

    /// Makes a view of `buffer`. Refused where it doesn't begin with a whole option of one unit or more. On refusal the
    /// buffer is dropped: to keep a `&mut [u8]`, call `new_unchecked` and then `check_len`, which accepts an option
    /// that counts no units too.
    pub fn new_checked(buffer: T) -> Result<NdiscOption<T>>
        ensures accepts { IsOk result ↔ BeginsWithBlock (T.bytes buffer) }
        ensures buffer { IfOk result (λ view. inner view ≡ buffer) }
    {
        let option = NdiscOption::new_unchecked(buffer);
        option.check_len()?;
        if option.data_len() == 0 {
            return Err(Error);
        }
        Ok(option)
    }

    /// Accepts 8 octets or more that hold all the units that the option counts: 4 or more of a prefix, 6 or more of a
    /// redirected header. Then each accessor of its type may be called, except those of the data and the link-layer
    /// address where the option counts no units. Such an option is accepted here, and refused by `new_checked` and by
    /// [`Repr::parse`].
    pub fn check_len(&self) -> Result<()>
        ensures accepts { IsOk result ↔ BeginsWhole (T.bytes (inner self.now)) }
    {
        let len = self.buffer.octets().len();
        if len < UNIT {
            return Err(Error);
        }
        let units = self.data_len();
        let least = match self.option_type() {
            Type::PrefixInformation => 4,
            Type::RedirectedHeader => 6,
            _ => 0,
        };
        if len < UNIT * units as usize || units < least {
            return Err(Error);
        }
        Ok(())
    }

    /// Returns the buffer of the view.
    pub fn into_inner(self) -> T
        ensures { result ≡ inner self }
    {
        self.buffer
    }

    /// The type. Requires at least 1 byte.
    pub fn option_type(&self) -> Type
        requires { Reaches type_field (T.bytes (inner self.now)) }
        ensures { result ≡ type_of (byte_of type_field (T.bytes (inner self.now))) }
    {
        Type::from(self.buffer.u8_at(field::TYPE))
    }

    /// The units of 8 bytes that the option counts. Requires at least 2 bytes.
    pub fn data_len(&self) -> u8
        requires { Reaches length_field (T.bytes (inner self.now)) }
        ensures { result ≡ units_in (T.bytes (inner self.now)) }
    {
        self.buffer.u8_at(field::LENGTH)
    }

    /// The link-layer address of a source or target: the bytes that the option has room for, but at most 8. Requires
    /// those bytes, and that the option counts one unit or more.
    #[tactic(auto, using(wirebase::proofs::Pieces::pieces))]
    pub fn link_layer_addr(&self) -> RawHardwareAddress
        requires some { 1 ≤ units_in (T.bytes (inner self.now)) }
        requires whole { Reaches (link_addr_field (T.bytes (inner self.now)))
            (T.bytes (inner self.now)) }
        ensures { raw_bytes result ≡ bytes_of (link_addr_field (T.bytes (inner self.now)))
            (T.bytes (inner self.now)) }
    {
        let room = UNIT * self.data_len() as usize - field::LENGTH.end;
        // The number of bytes is a constant at each call, so that they are copied by moves.
        if room == field::SHORT_ADDR.end - field::SHORT_ADDR.start {
            RawHardwareAddress::from_bytes(self.buffer.field(field::SHORT_ADDR))
        } else {
            RawHardwareAddress::from_bytes(self.buffer.field(field::LONG_ADDR))
        }
    }

    /// The MTU of the link, in bytes. Requires at least 8 bytes.
    pub fn mtu(&self) -> u32
        requires { Reaches mtu_field (T.bytes (inner self.now)) }
        ensures { result ≡ number_of mtu_field (T.bytes (inner self.now)) }
    {
        self.buffer.u32_at(field::MTU)
    }

    /// The length of a prefix, in bits. Requires at least 3 bytes.
    pub fn prefix_len(&self) -> u8
        requires { Reaches prefix_len_field (T.bytes (inner self.now)) }
        ensures { result ≡ byte_of prefix_len_field (T.bytes (inner self.now)) }
    {
        self.buffer.u8_at(field::PREFIX_OPTION_LEN)
    }

    /// The flags of a prefix that have a name. Requires at least 4 bytes.
    #[tactic(auto, unfolding(bitflags::specs::Sets::known_from))]
    pub fn prefix_flags(&self) -> PrefixInfoFlags
        requires { Reaches prefix_flags_field (T.bytes (inner self.now)) }
        ensures { flag_bits result ≡ known (byte_of prefix_flags_field (T.bytes (inner self.now))) }
    {
        PrefixInfoFlags::from_bits_truncate(self.buffer.u8_at(field::PREFIX_FLAGS))
    }

    /// How long a prefix is on the link, in whole seconds. Requires at least 8 bytes.
    pub fn valid_lifetime(&self) -> Duration
        requires { Reaches valid_lifetime_field (T.bytes (inner self.now)) }
        ensures { micros_of result ≡ 1000000 * number_of valid_lifetime_field (T.bytes (inner self.now)) }
    {
        Duration::from_secs(self.buffer.u32_at(field::VALID_LIFETIME) as u64)
    }

    /// How long addresses made of a prefix are preferred, in whole seconds. Requires at least 12 bytes.
    pub fn preferred_lifetime(&self) -> Duration
        requires { Reaches preferred_lifetime_field (T.bytes (inner self.now)) }
        ensures { micros_of result ≡ 1000000 * number_of preferred_lifetime_field (T.bytes (inner self.now)) }
    {
        Duration::from_secs(self.buffer.u32_at(field::PREFERRED_LIFETIME) as u64)
    }

    /// The prefix. Requires at least 32 bytes.
    pub fn prefix(&self) -> Ipv6Address
        requires { Reaches prefix_field (T.bytes (inner self.now)) }
        ensures { octets_of result ≡ bytes_of prefix_field (T.bytes (inner self.now)) }
    {
        Ipv6Address::from_octets(self.buffer.field(field::PREFIX).try_into().unwrap())
    }
}

impl<'a> NdiscOption<&'a [u8]> {
    /// The data, for as long as the octets live. Requires the units that the option counts, one or more.
    #[tactic(auto, using(wirebase::proofs::Pieces::pieces), unfolding(wirebase::specs::Bytes::part))]
    pub fn data(&self) -> &'a [u8]
        requires some { 1 ≤ units_in (view_octets self.now) }
        requires whole { Reaches (data_field (view_octets self.now)) (view_octets self.now) }
        ensures value { result.now ≡ bytes_of (data_field (view_octets self.now))
            (view_octets self.now) }
        ensures len { length result.now ≡ 8 * units_in (view_octets self.now) - 2 }
    {
        let octets: &'a [u8] = self.buffer;
        &octets[field::data(self.data_len())]
    }
}

impl<T: OctetsMut> NdiscOption<T> {
    /// Writes the type. Requires at least 1 byte.
    pub fn set_option_type(&mut self, value: Type)
        requires { Reaches type_field (T.bytes (inner self.old)) }
        ensures writes { Sets inner T.bytes T.put self.old self.new type_field (type_number value ∷ []) }
        ensures len { KeepsLen inner T.bytes self.old self.new }
    {
        self.buffer.set_u8(field::TYPE, value.into());
    }

    /// Writes the units of 8 bytes that the option counts. Requires at least 2 bytes.
    pub fn set_data_len(&mut self, value: u8)
        requires { Reaches length_field (T.bytes (inner self.old)) }
        ensures writes { Sets inner T.bytes T.put self.old self.new length_field (value ∷ []) }
        ensures len { KeepsLen inner T.bytes self.old self.new }
    {
        self.buffer.set_u8(field::LENGTH, value);
    }

    /// Writes the link-layer address of a source or target. Requires at least 2 bytes and those of the address.
    pub fn set_link_layer_addr(&mut self, addr: RawHardwareAddress)
        requires { 2 + length (raw_bytes addr) ≤ length (T.bytes (inner self.old)) }
        ensures writes { Sets inner T.bytes T.put self.old self.new
            (bytes_field 2 (2 + length (raw_bytes addr))) (raw_bytes addr) }
        ensures len { KeepsLen inner T.bytes self.old self.new }
    {
        self.buffer
            .set_bytes(field::link_layer_addr(addr.len()), addr.as_bytes());
    }

    /// Writes the MTU of the link, in bytes. Requires at least 8 bytes.
    pub fn set_mtu(&mut self, value: u32)
        requires { Reaches mtu_field (T.bytes (inner self.old)) }
        ensures writes { Sets inner T.bytes T.put self.old self.new mtu_field (big_bytes 4 value) }
        ensures len { KeepsLen inner T.bytes self.old self.new }
    {
        self.buffer.set_u32(field::MTU, value);
    }

    /// Writes the length of a prefix, in bits. Requires at least 3 bytes.
    pub fn set_prefix_len(&mut self, value: u8)
        requires { Reaches prefix_len_field (T.bytes (inner self.old)) }
        ensures writes { Sets inner T.bytes T.put self.old self.new prefix_len_field (value ∷ []) }
        ensures len { KeepsLen inner T.bytes self.old self.new }
    {
        self.buffer.set_u8(field::PREFIX_OPTION_LEN, value);
    }

    /// Writes the flags of a prefix, all their bits. Requires at least 4 bytes.
    pub fn set_prefix_flags(&mut self, flags: PrefixInfoFlags)
        requires { Reaches prefix_flags_field (T.bytes (inner self.old)) }
        ensures writes { Sets inner T.bytes T.put self.old self.new prefix_flags_field
            (flag_bits flags ∷ []) }
        ensures len { KeepsLen inner T.bytes self.old self.new }
    {
        self.buffer.set_u8(field::PREFIX_FLAGS, flags.bits());
    }

    /// Writes how long a prefix is on the link, in whole seconds; a fraction is dropped. Requires at least 8 bytes, and
    /// 4,294,967,295 seconds at most.
    pub fn set_valid_lifetime(&mut self, time: Duration)
        requires room { Reaches valid_lifetime_field (T.bytes (inner self.old)) }
        requires fits { seconds_of time ≤ 4294967295 }
        ensures writes { Sets inner T.bytes T.put self.old self.new valid_lifetime_field
            (big_bytes 4 (seconds_of time)) }
        ensures len { KeepsLen inner T.bytes self.old self.new }
    {
        self.buffer
            .set_u32(field::VALID_LIFETIME, time.secs() as u32);
    }

    /// Writes how long addresses made of a prefix are preferred, in whole seconds; a fraction is dropped. Requires at
    /// least 12 bytes, and 4,294,967,295 seconds at most.
    pub fn set_preferred_lifetime(&mut self, time: Duration)
        requires room { Reaches preferred_lifetime_field (T.bytes (inner self.old)) }
        requires fits { seconds_of time ≤ 4294967295 }
        ensures writes { Sets inner T.bytes T.put self.old self.new preferred_lifetime_field
            (big_bytes 4 (seconds_of time)) }
        ensures len { KeepsLen inner T.bytes self.old self.new }
    {
        self.buffer
            .set_u32(field::PREFERRED_LIFETIME, time.secs() as u32);
    }

    /// Writes zeros into the reserved bytes of a prefix. Requires at least 16 bytes.
    pub fn clear_prefix_reserved(&mut self)
        requires { Reaches prefix_reserved_field (T.bytes (inner self.old)) }
        ensures writes { Sets inner T.bytes T.put self.old self.new prefix_reserved_field
            (replicate 4 0) }
        ensures len { KeepsLen inner T.bytes self.old self.new }
    {
        self.buffer.set_u32(field::PREFIX_RESERVED, 0);
    }

    /// Writes the prefix. Requires at least 32 bytes.
    pub fn set_prefix(&mut self, addr: Ipv6Address)
        requires { Reaches prefix_field (T.bytes (inner self.old)) }
        ensures writes { Sets inner T.bytes T.put self.old self.new prefix_field (octets_of addr) }
        ensures len { KeepsLen inner T.bytes self.old self.new }
    {
        self.buffer.set_bytes(field::PREFIX, &addr.octets());
    }

    /// Writes zeros into the reserved bytes of a redirected header. Requires at least 8 bytes.
    pub fn clear_redirected_reserved(&mut self)
        requires { Reaches redirected_reserved_field (T.bytes (inner self.old)) }
        ensures writes { Sets inner T.bytes T.put self.old self.new redirected_reserved_field
            (replicate 6 0) }
        ensures len { KeepsLen inner T.bytes self.old self.new }
    {
        self.buffer.set_bytes(field::REDIRECTED_RESERVED, &[0; 6]);
    }

    /// Lends the data for writing; the other octets are unchanged. Requires the units that the option counts, one or
    /// more.
    pub fn data_mut(&mut self) -> &mut [u8]
        requires some { 1 ≤ units_in (T.bytes (inner self.old)) }
        requires whole { Reaches (data_field (T.bytes (inner self.old)))
            (T.bytes (inner self.old)) }
        ensures* lends { sem 𝓛 (Lends (the_row T.row) (Array byte 0) self.entry result
            (λ w. with_inner self.old (T.put (inner self.old)
            (with_field (data_field (T.bytes (inner self.old))) w (T.bytes (inner self.old)))))) }
        ensures value { result.now
            ≡ bytes_of (data_field (T.bytes (inner self.old))) (T.bytes (inner self.old)) }
        ensures len { length result.now ≡ 8 * units_in (T.bytes (inner self.old)) - 2 }
    {
        let data = field::data(self.data_len());
        self.buffer.field_mut(data)
    }
}

/// Views are equal where their octets are equal.
impl<T: Octets> PartialEq for NdiscOption<T> {
    ghost use Rattle.std.specs.Prelude.{◌==◌, IsTrue};
    ghost use Rattle.std.proofs.Common.{rules};
    ghost use Rattle.std.specs.Cmp.Lexicographic.{pointwise};
    ghost use Rattle.std.specs.Cmp.Rules.{comparing};
    ghost use Rattle.std.specs.Ordering.{on};

    ghost eq = { on (λ view. T.bytes (inner view)) (pointwise ◌==◌) };

    ghost laws = { Prim.search (comparing, rules) };

    fn eq(&self, other: &NdiscOption<T>) -> bool
        ensures { IsTrue result ↔ (T.bytes (inner self.now) ≡ T.bytes (inner other.now)) }
    {
        self.buffer.octets() == other.buffer.octets()
    }
}

impl<T: Octets> Eq for NdiscOption<T> {
    ghost use Rattle.std.proofs.Common.{rules};
    ghost use Rattle.std.specs.Cmp.Rules.{comparing};

    ghost laws = { Prim.search (comparing, rules) };
}

/// Prints the option at the front of the octets, or `NDISC Option (wire::Error)` where they are refused.
impl<T: Octets> fmt::Display for NdiscOption<T> {
    ghost use Rattle.std.specs.Prelude.{None};
    ghost use Rattle.std.specs.Fmt.{WritesOnOk};
    ghost use Rattle.wirebase.specs.Display.{Shows};
    ghost use Rattle.opt_wire.specs.NdiscOptionRepr.{BeginsWith, display, refusal_display};

    ghost output = { λ view. None };

    fn fmt<W: fmt::Write>(&self, f: &mut fmt::Formatter<W>) -> fmt::Result
        ensures shows { Shows (BeginsWith (T.bytes (inner self.now))) display refusal_display
            (λ text. WritesOnOk W.write_str_gives f.old result text f.new) }
    {
        let option = NdiscOption::new_unchecked(self.buffer.octets());
        match Repr::parse(&option) {
            Ok(repr) => write!(f, "{repr}"),
            Err(error) => write!(f, "NDISC Option ({error})"),
        }
    }
}
