//! Options of IPv6 extension headers (RFC 8200 section 4.2).
//!
//! ```
//! use control_wire::ipv6option::{Ipv6OptionsIterator, Repr, RouterAlert};
//!
//! // A router alert, and two bytes of padding.
//! let options = [5, 2, 0, 0, 1, 0];
//! let options: Vec<Repr> = Ipv6OptionsIterator::new(&options).collect::<Result<_, _>>()?;
//! let alert = Repr::RouterAlert(RouterAlert::MulticastListenerDiscovery);
//! assert_eq!(options, [alert, Repr::PadN(0)]);
//! # Ok::<(), control_wire::Error>(())
//! ```

ghost use Rattle.std.specs.Prelude.{◌≡◌, ◌≤◌, ◌-◌, ◌*◌, ◌+◌, ◌↔◌, [], ◌∷◌, length, IsTrue, IsOk, IfOk, IsErr, IsOkAnd};
ghost use Rattle.std.specs.Borrow.{sem, Lends, Array, u8 as byte};
ghost use Rattle.std.specs.Fmt.{WritesOnOk};
ghost use Rattle.wirebase.specs.Bytes.{Reaches, bytes_of, byte_of, with_field};
ghost use Rattle.wirebase.specs.ByteWriter.{be8, free, Puts};
ghost use Rattle.wirebase.specs.Format.{Rewrites, SameText};
ghost use Rattle.wirebase.specs.View.{Sets, KeepsLen};
ghost use Rattle.opt_wire.specs.Ipv6Option.{inner, with_inner, view_octets, option_type_field, opt_data_len_field};
ghost use Rattle.opt_wire.specs.Ipv6Option.{option_data_field, BeginsWhole, OptionValue, value_of, pad_n, router_alert};
ghost use Rattle.opt_wire.specs.Ipv6Option.{unknown, text, text_len, HasData, BeginsWith, format, Emits};
ghost use Rattle.opt_wire.specs.Ipv6OptionDisplay.{option_display};
ghost use Rattle.opt_wire.specs.contracts.ipv6option.Ipv6Option.{the_row};
ghost use Rattle.opt_wire.specs.Ipv6OptionTables.{type_number, type_of};

use byteorder::{BigEndian, ByteOrder};
use std::fmt;
use wirebase::{ByteWriter, Error, Octets, OctetsMut, Result, are_bytes};

mod options;
pub(crate) mod refusal;
mod tables;

pub use options::Ipv6OptionsIterator;
pub use refusal::Refusal;
use tables::AlertName;
pub use tables::{FailureType, RouterAlert, Type};

// The fields of an option; their picture is in specs/Ipv6Option.antt.
mod field {
    use wirebase::Field;

    pub const TYPE: Field = 0..1;

    pub const LENGTH: Field = 1..2;

    // The field of the data of an option, by its length.
    pub const fn data(length: u8) -> Field
        ensures start { result.start ≡ 2 }
        ensures end { result.end ≡ 2 + length }
    {
        2..2 + length as usize
    }
}

/// A view of the octets of one option.
#[derive(Debug, Drop)]
pub struct Ipv6Option<T: Octets> {
    buffer: T,
}

impl<T: Octets> Ipv6Option<T> {
    /// Makes a view of `buffer`; its length is not checked.
    pub const fn new_unchecked(buffer: T) -> Ipv6Option<T>
        ensures { inner result ≡ buffer }
    {
        Ipv6Option { buffer }
    }

    /// Makes a view of `buffer`. Refused where it doesn't begin with a whole option. On refusal the buffer is dropped:
    /// to keep a `&mut [u8]`, call `new_unchecked` and then `check_len`.
    pub fn new_checked(buffer: T) -> Result<Ipv6Option<T>>
        ensures accepts { IsOk result ↔ BeginsWhole (T.bytes buffer) }
        ensures buffer { IfOk result (λ view. inner view ≡ buffer) }
    {
        let option = Ipv6Option::new_unchecked(buffer);
        option.check_len()?;
        Ok(option)
    }

    /// Accepts octets that begin with a Pad1, or with a type, a length and as many bytes of data. Then each accessor
    /// may be called, except those of the length and the data where the option is a Pad1.
    pub fn check_len(&self) -> Result<()>
        ensures accepts { IsOk result ↔ BeginsWhole (T.bytes (inner self.now)) }
    {
        let len = self.buffer.octets().len();
        if len < field::TYPE.end {
            return Err(Error);
        }
        if self.option_type() == Type::Pad1 {
            return Ok(());
        }
        if len < field::LENGTH.end {
            return Err(Error);
        }
        if len < field::data(self.data_len()).end {
            return Err(Error);
        }
        Ok(())
    }

    /// Returns the buffer of the view.
    pub fn into_inner(self) -> T
        ensures { result ≡ inner self }
    {
        self.buffer
    }

    /// The type. Requires at least 1 byte.
    pub fn option_type(&self) -> Type
        requires { Reaches option_type_field (T.bytes (inner self.now)) }
        ensures { result ≡ type_of (byte_of option_type_field (T.bytes (inner self.now))) }
    {
        Type::from(self.buffer.u8_at(field::TYPE))
    }

    /// The length field: the number of bytes of data. Requires at least 2 bytes.
    pub fn data_len(&self) -> u8
        requires { Reaches opt_data_len_field (T.bytes (inner self.now)) }
        ensures { result ≡ byte_of opt_data_len_field (T.bytes (inner self.now)) }
    {
        self.buffer.u8_at(field::LENGTH)
    }
}

impl<'a> Ipv6Option<&'a [u8]> {
    /// The data, for as long as the octets live. Requires the bytes that the option counts.
    #[tactic(auto, using(wirebase::proofs::Pieces::pieces), unfolding(wirebase::specs::Bytes::part))]
    pub fn data(&self) -> &'a [u8]
        requires whole { Reaches (option_data_field (view_octets self.now)) (view_octets self.now) }
        ensures value { result.now
            ≡ bytes_of (option_data_field (view_octets self.now)) (view_octets self.now) }
        ensures len { length result.now ≡ byte_of opt_data_len_field (view_octets self.now) }
    {
        let octets: &'a [u8] = self.buffer;
        &octets[field::data(self.data_len())]
    }
}

impl<T: OctetsMut> Ipv6Option<T> {
    /// Writes the type. Requires at least 1 byte.
    pub fn set_option_type(&mut self, value: Type)
        requires { Reaches option_type_field (T.bytes (inner self.old)) }
        ensures writes { Sets inner T.bytes T.put self.old self.new option_type_field
            (type_number value ∷ []) }
        ensures len { KeepsLen inner T.bytes self.old self.new }
    {
        self.buffer.set_u8(field::TYPE, value.into());
    }

    /// Writes the length field: the number of bytes of data. Requires at least 2 bytes.
    pub fn set_data_len(&mut self, value: u8)
        requires { Reaches opt_data_len_field (T.bytes (inner self.old)) }
        ensures writes { Sets inner T.bytes T.put self.old self.new opt_data_len_field (value ∷ []) }
        ensures len { KeepsLen inner T.bytes self.old self.new }
    {
        self.buffer.set_u8(field::LENGTH, value);
    }

    /// Lends the data for writing; the other octets are unchanged. Requires the bytes that the option counts.
    pub fn data_mut(&mut self) -> &mut [u8]
        requires whole { Reaches (option_data_field (T.bytes (inner self.old)))
            (T.bytes (inner self.old)) }
        ensures* lends { sem 𝓛 (Lends (the_row T.row) (Array byte 0) self.entry result
            (λ w. with_inner self.old (T.put (inner self.old)
            (with_field (option_data_field (T.bytes (inner self.old))) w
            (T.bytes (inner self.old)))))) }
        ensures value { result.now
            ≡ bytes_of (option_data_field (T.bytes (inner self.old))) (T.bytes (inner self.old)) }
        ensures len { length result.now ≡ byte_of opt_data_len_field (T.bytes (inner self.old)) }
    {
        let data = field::data(self.data_len());
        self.buffer.field_mut(data)
    }
}

/// Views are equal where their octets are equal.
impl<T: Octets> PartialEq for Ipv6Option<T> {
    ghost use Rattle.std.specs.Prelude.{◌==◌};
    ghost use Rattle.std.proofs.Common.{rules};
    ghost use Rattle.std.specs.Cmp.Lexicographic.{pointwise};
    ghost use Rattle.std.specs.Cmp.Rules.{comparing};
    ghost use Rattle.std.specs.Ordering.{on};

    ghost eq = { on (λ view. T.bytes (inner view)) (pointwise ◌==◌) };

    ghost laws = { Prim.search (comparing, rules) };

    fn eq(&self, other: &Ipv6Option<T>) -> bool
        ensures { IsTrue result ↔ (T.bytes (inner self.now) ≡ T.bytes (inner other.now)) }
    {
        self.buffer.octets() == other.buffer.octets()
    }
}

impl<T: Octets> Eq for Ipv6Option<T> {
    ghost use Rattle.std.proofs.Common.{rules};
    ghost use Rattle.std.specs.Cmp.Rules.{comparing};

    ghost laws = { Prim.search (comparing, rules) };
}

/// Prints the option at the front of the octets, or `IPv6 Extension Option (wire::Error)` where they are refused.
impl<T: Octets> fmt::Display for Ipv6Option<T> {
    ghost use Rattle.std.specs.Prelude.{Some};
    ghost use Rattle.wirebase.specs.Display.{Shows};
    ghost use Rattle.opt_wire.specs.Ipv6OptionDisplay.{refusal_display, view_display};
    ghost use Rattle.opt_wire.specs.Ipv6OptionModel.{front_of};

    ghost output = { λ view. Some (view_display (front_of (T.bytes (inner view)))) };

    fn fmt<W: fmt::Write>(&self, f: &mut fmt::Formatter<W>) -> fmt::Result
        ensures shows { Shows (BeginsWith (T.bytes (inner self.now))) option_display refusal_display
            (λ text. WritesOnOk W.write_str_gives f.old result text f.new) }
        ensures writes { WritesOnOk W.write_str_gives f.old result
            (view_display (front_of (T.bytes (inner self.now)))) f.new }
    {
        let option = Ipv6Option::new_unchecked(self.buffer.octets());
        match Repr::parse(&option) {
            Ok(repr) => write!(f, "{repr}"),
            Err(error) => write!(f, "IPv6 Extension Option ({error})"),
        }
    }
}

/// An option of an IPv6 extension header (RFC 8200 section 4.2).
#[derive(Debug, PartialEq, Eq, Clone, Copy)]
pub enum Repr<'a> {
    /// One byte of padding.
    Pad1,
    /// Padding: a type, a length and this many bytes.
    PadN(u8),
    /// A router alert (RFC 2711).
    RouterAlert(RouterAlert),
    /// An option of any other type.
    Unknown {
        /// The type: `Rpl`, or one without a name.
        type_: Type,
        /// The length field: the number of bytes of data.
        length: u8,
        /// The data; bytes past `length` are not written.
        data: &'a [u8],
    },
}

impl Default for Repr<'_> {
    ghost use Rattle.opt_wire.specs.Ipv6Option.{pad1};

    ghost is_default = { λ repr. value_of repr ≡ pad1 };

    fn default() -> Self {
        Repr::Pad1
    }
}

impl<'a> Repr<'a> {
    /// The option at the front of the octets. Refused where they don't begin with a whole option, and where a router
    /// alert has other than 2 bytes of data. The contents of padding are not checked.
    #[inline]
    pub fn parse(opt: &Ipv6Option<&'a [u8]>) -> Result<Repr<'a>>
        ensures sound { IfOk result (λ repr. BeginsWith (view_octets opt.now) (value_of repr)) }
        ensures complete { (value : OptionValue) → BeginsWith (view_octets opt.now) value
            → IsOkAnd result (λ repr. value_of repr ≡ value) }
        ensures rewrites { length (view_octets opt.now) ≤ 65515
            → IfOk result (λ repr. Rewrites format (value_of repr)) }
    {
        are_bytes(opt.buffer);
        Repr::read(opt)
    }

    // The option at the front of the octets.
    #[inline]
    fn read(opt: &Ipv6Option<&'a [u8]>) -> Result<Repr<'a>>
        ensures sound { IfOk result (λ repr. BeginsWith (view_octets opt.now) (value_of repr)) }
        ensures refuses { IsErr result → (value : OptionValue)
            → BeginsWith (view_octets opt.now) value → ⊥ }
    {
        opt.check_len()?;
        match opt.option_type() {
            Type::Pad1 => Ok(Repr::Pad1),
            Type::PadN => Ok(Repr::PadN(opt.data_len())),
            Type::RouterAlert => {
                if opt.data_len() != RouterAlert::DATA_LEN {
                    return Err(Error);
                }
                Ok(Repr::RouterAlert(BigEndian::read_u16(opt.data()).into()))
            }
            type_ => Ok(Repr::Unknown {
                type_,
                length: opt.data_len(),
                data: opt.data(),
            }),
        }
    }

    /// The bytes that the option takes, by its length field.
    #[tactic(auto, using(crate::proofs::Ipv6OptionText::texts))]
    pub const fn buffer_len(&self) -> usize
        ensures value { result ≡ text_len (value_of self.now) }
        ensures exact { HasData (value_of self.now) → result ≡ length (text (value_of self.now)) }
        ensures small { result ≤ 257 }
    {
        match *self {
            Repr::Pad1 => field::TYPE.end,
            Repr::PadN(length) => field::data(length).end,
            Repr::RouterAlert(_) => field::data(RouterAlert::DATA_LEN).end,
            Repr::Unknown { length, .. } => field::data(length).end,
        }
    }

    /// Writes the option over the front of the octets; the other octets are unchanged. Requires the bytes that the
    /// option takes, and that it holds as much data as its length counts.
    pub fn emit<T: OctetsMut>(&self, opt: &mut Ipv6Option<T>)
        requires enough { HasData (value_of self.now) }
        requires room { text_len (value_of self.now) ≤ length (T.bytes (inner opt.old)) }
        ensures place { inner opt.new ≡ T.put (inner opt.old) (T.bytes (inner opt.new)) }
        ensures emits { Emits (value_of self.now)
            (T.bytes (inner opt.old)) (T.bytes (inner opt.new)) }
    {
        self.emit_into(opt.buffer.octets_mut());
    }

    /// Like `emit`, but writes into a slice.
    #[tactic(auto, using(wirebase::proofs::Chains::chain))]
    pub fn emit_into(&self, octets: &mut [u8])
        requires enough { HasData (value_of self.now) }
        requires room { text_len (value_of self.now) ≤ length octets.old }
        ensures { Emits (value_of self.now) octets.old octets.new }
    {
        let mut w = ByteWriter::new(octets);
        self.put(&mut w);
    }

    /// Does nothing; its contract states, of two options that bytes can hold, that equal texts mean equal normal forms,
    /// and conversely.
    #[tactic(auto, using(crate::proofs::Ipv6OptionFormat::option_same_text))]
    pub fn same_text(a: &Self, b: &Self)
        ensures { SameText format (value_of a.now) (value_of b.now) }
    {}

    // Writes the text of the option.
    #[tactic(auto, using(crate::proofs::FieldsAtOnce::at_once))]
    pub(super) fn put(&self, w: &mut ByteWriter<'_>)
        requires enough { HasData (value_of self.now) }
        requires room { text_len (value_of self.now) ≤ length (free w.old) }
        ensures puts { Puts w.old w.new (text (value_of self.now) ∷ []) }
        ensures room { length (free w.old) ≡ text_len (value_of self.now) + length (free w.new) }
    {
        match *self {
            Repr::Pad1 => w.put_u8(Type::Pad1.into()),
            Repr::PadN(length) => {
                put_counted(w, Type::PadN, length);
                w.put_zeros(length as usize);
            }
            Repr::RouterAlert(alert) => {
                let [high, low] = u16::from(alert).to_be_bytes();
                w.put_bytes(&[Type::RouterAlert.into(), RouterAlert::DATA_LEN, high, low]);
            }
            Repr::Unknown {
                type_,
                length,
                data,
            } => {
                put_counted(w, type_, length);
                w.put_bytes(&data[..length as usize]);
            }
        }
    }
}

// Writes the type of an option and the length of its data.
#[tactic(auto, using(crate::proofs::FieldsAtOnce::at_once))]
fn put_counted(w: &mut ByteWriter<'_>, kind: Type, data_len: u8)
    requires { 2 ≤ length (free w.old) }
    ensures puts { Puts w.old w.new (be8 (type_number kind) ∷ be8 data_len ∷ []) }
    ensures room { length (free w.old) ≡ 2 + length (free w.new) }
{
    w.put_bytes(&[kind.into(), data_len]);
}

impl fmt::Display for Repr<'_> {
    ghost use Rattle.std.specs.Prelude.{Some};

    ghost output = { λ repr. Some (option_display (value_of repr)) };

    fn fmt<W: fmt::Write>(&self, f: &mut fmt::Formatter<W>) -> fmt::Result {
        match *self {
            Repr::Pad1 => f.write_str("IPv6 Option Pad1 "),
            Repr::PadN(length) => fmt_pad_n(f, length),
            Repr::RouterAlert(alert) => fmt_router_alert(f, alert),
            Repr::Unknown { type_, length, .. } => fmt_unknown(f, type_, length),
        }
    }
}

// Prints padding.
fn fmt_pad_n<W: fmt::Write>(f: &mut fmt::Formatter<W>, length: u8) -> fmt::Result
    ensures { WritesOnOk W.write_str_gives f.old result (option_display (pad_n length)) f.new }
{
    write!(f, "IPv6 Option PadN length={length} ")
}

// Prints a router alert.
fn fmt_router_alert<W: fmt::Write>(f: &mut fmt::Formatter<W>, alert: RouterAlert) -> fmt::Result
    ensures { WritesOnOk W.write_str_gives f.old result (option_display (router_alert alert)) f.new }
{
    write!(f, "IPv6 Option RouterAlert value={}", AlertName(alert))
}

// Prints an option of any other type, without its data.
fn fmt_unknown<W: fmt::Write>(f: &mut fmt::Formatter<W>, type_: Type, length: u8) -> fmt::Result
    ensures { WritesOnOk W.write_str_gives f.old result (option_display (unknown type_ length [])) f.new }
{
    write!(f, "IPv6 Option {type_} length={length} ")
}
