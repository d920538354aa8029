//! Hop-by-hop options headers (RFC 8200 section 4.3), without their first two bytes.
//!
//! ```
//! use control_wire::ipv6hbh::{Header, Repr};
//! use control_wire::ipv6option;
//!
//! // The options of the header before a report of multicast listener discovery: a router alert, and padding.
//! let header = Header::new_checked(&[5, 2, 0, 0, 1, 0])?;
//! let options = Repr::parse(&header)?.options;
//! assert!(matches!(options[0], ipv6option::Repr::RouterAlert(_)));
//! # Ok::<(), control_wire::Error>(())
//! ```

ghost use Rattle.std.specs.Prelude.{◌≡◌, ◌≢◌, ◌+◌, ◌≤◌, ◌<◌, ◌↔◌, ◌++◌, [], ◌∷◌, List, length, map, IsOk, IfOk};
ghost use Rattle.std.specs.Prelude.{⊤, IsOkAnd};
ghost use Rattle.std.specs.Borrow.{sem, Lends, Array, u8 as byte};
ghost use Rattle.wirebase.specs.ByteWriter.{free, Puts};
ghost use Rattle.wirebase.specs.Format.{Rewrites, SameText};
ghost use Rattle.opt_wire.specs.Ipv6Option.{OptionValue, value_of as option_value, pad_n, router_alert};
ghost use Rattle.opt_wire.specs.Ipv6Hbh.{inner, with_inner, view_octets, value_of, header_fields, text, text_len};
ghost use Rattle.opt_wire.specs.Ipv6Hbh.{HaveData, IsHeader, format, Emits};
ghost use Rattle.opt_wire.specs.declared.ipv6option.tables.RouterAlert.TheVariants.{MulticastListenerDiscovery};
ghost use Rattle.opt_wire.specs.contracts.ipv6hbh.Header.{the_row};

use crate::ipv6option;
use crate::ipv6option::{Ipv6OptionsIterator, RouterAlert};
use arrayvec::ArrayVec;
use std::alloc::AllocError;
use wirebase::{ByteWriter, Error, IPV6_HBH_MAX_OPTIONS, Octets, OctetsMut, Result, are_bytes};

mod refusal;

pub use refusal::Refusal;

/// A view of the options of a hop-by-hop header: all its bytes after the first two.
#[derive(Debug, Drop)]
pub struct Header<T: Octets> {
    buffer: T,
}

impl<T: Octets> Header<T> {
    /// Makes a view of `buffer`; its length is not checked.
    pub const fn new_unchecked(buffer: T) -> Header<T>
        ensures { inner result ≡ buffer }
    {
        Header { buffer }
    }

    /// Makes a view of `buffer`. Refused where it is empty. On refusal the buffer is dropped: to keep a `&mut [u8]`,
    /// call `new_unchecked` and then `check_len`.
    pub fn new_checked(buffer: T) -> Result<Header<T>>
        ensures accepts { IsOk result ↔ (T.bytes buffer ≢ []) }
        ensures buffer { IfOk result (λ view. inner view ≡ buffer) }
    {
        let header = Header::new_unchecked(buffer);
        header.check_len()?;
        Ok(header)
    }

    /// Accepts one octet or more.
    pub fn check_len(&self) -> Result<()>
        ensures accepts { IsOk result ↔ (T.bytes (inner self.now) ≢ []) }
    {
        if self.buffer.octets().is_empty() {
            return Err(Error);
        }
        Ok(())
    }

    /// Returns the buffer of the view.
    pub fn into_inner(self) -> T
        ensures { result ≡ inner self }
    {
        self.buffer
    }
}

impl<'a> Header<&'a [u8]> {
    /// The octets of all options, for as long as the octets live.
    pub fn options(&self) -> &'a [u8]
        ensures { result ≡ inner self.now }
    {
        let octets: &'a [u8] = self.buffer;
        octets
    }
}

impl<T: OctetsMut> Header<T> {
    /// Lends all octets for writing.
    pub fn options_mut(&mut self) -> &mut [u8]
        ensures* lends { sem 𝓛 (Lends (the_row T.row) (Array byte 0) self.entry result
            (λ w. with_inner self.old (T.put (inner self.old) w))) }
        ensures value { result.now ≡ T.bytes (inner self.old) }
        ensures len { length result.now ≡ length (T.bytes (inner self.old)) }
    {
        self.buffer.octets_mut()
    }
}

/// The options of a hop-by-hop header, at most `IPV6_HBH_MAX_OPTIONS`.
#[derive(Debug, PartialEq, Eq, Drop)]
pub struct Repr<'a> {
    /// The options, in the order of the header.
    pub options: ArrayVec<ipv6option::Repr<'a>, IPV6_HBH_MAX_OPTIONS>,
}

impl Clone for Repr<'_> {
    ghost is_clone = { λ header copy. value_of copy ≡ value_of header };

    ghost is_infallible = { λ _. ⊤ };

    fn clone(&self) -> std::result::Result<Self, AllocError> {
        Ok(Repr {
            options: self.options.clone()?,
        })
    }
}

impl<'a> Repr<'a> {
    /// The first `IPV6_HBH_MAX_OPTIONS` options of a header. Refused where there are no octets, and where one of these
    /// options, or the one after them, can't be read; what follows is not checked.
    pub fn parse(header: &Header<&'a [u8]>) -> Result<Repr<'a>>
        ensures sound { IfOk result (λ repr.
            IsHeader IPV6_HBH_MAX_OPTIONS (view_octets header.now) (value_of repr)) }
        ensures complete { (options : List OptionValue)
            → IsHeader IPV6_HBH_MAX_OPTIONS (view_octets header.now) options
            → IsOkAnd result (λ repr. value_of repr ≡ options) }
        ensures rewrites { length (view_octets header.now) ≤ 65515
            → IfOk result (λ repr. Rewrites (format IPV6_HBH_MAX_OPTIONS) (value_of repr)) }
    {
        are_bytes(header.buffer);
        Repr::read(header)
    }

    // The options of a header.
    fn read(header: &Header<&'a [u8]>) -> Result<Repr<'a>>
        ensures sound { IfOk result (λ repr.
            IsHeader IPV6_HBH_MAX_OPTIONS (view_octets header.now) (value_of repr)) }
        ensures complete { (options : List OptionValue)
            → IsHeader IPV6_HBH_MAX_OPTIONS (view_octets header.now) options
            → IsOkAnd result (λ repr. value_of repr ≡ options) }
    {
        header.check_len()?;
        let mut options = ArrayVec::new();
        read_options(header.options(), &mut options)?;
        Ok(Repr { options })
    }

    /// The bytes that the options take, by their length fields.
    pub fn buffer_len(&self) -> usize
        ensures value { result ≡ text_len (value_of self.now) }
        ensures exact { HaveData (value_of self.now)
            → result ≡ length (text (value_of self.now)) }
    {
        let options = self.options.as_slice();
        let mut len = 0;
        for option in options {
            len += option.buffer_len();
        }
        len
    }

    /// The header of the multicast listener reports of version 2: one router alert (RFC 3810 section 5).
    #[inline]
    pub fn mldv2_router_alert() -> Repr<'a>
        ensures { value_of result ≡ router_alert MulticastListenerDiscovery ∷ [] }
    {
        let mut options = ArrayVec::new();
        options.push(ipv6option::Repr::RouterAlert(RouterAlert::MulticastListenerDiscovery));
        Repr { options }
    }

    /// Adds padding, a PadN of `n` bytes of data, last. Requires that the list has room.
    #[inline]
    pub fn push_padn_option(&mut self, n: u8)
        requires { length (value_of self.old) < IPV6_HBH_MAX_OPTIONS }
        ensures { value_of self.new ≡ value_of self.old ++ pad_n n ∷ [] }
    {
        self.options.push(ipv6option::Repr::PadN(n));
    }

    /// Writes the options over the front of the octets; the other octets are unchanged. Requires the bytes that the
    /// options take, and that each option holds as much data as its length counts.
    pub fn emit<T: OctetsMut>(&self, header: &mut Header<T>)
        requires enough { HaveData (value_of self.now) }
        requires room { text_len (value_of self.now) ≤ length (T.bytes (inner header.old)) }
        ensures place { inner header.new ≡ T.put (inner header.old) (T.bytes (inner header.new)) }
        ensures emits { Emits IPV6_HBH_MAX_OPTIONS (value_of self.now)
            (T.bytes (inner header.old)) (T.bytes (inner header.new)) }
    {
        self.emit_into(header.options_mut());
    }

    /// Like `emit`, but writes into a slice.
    #[tactic(auto, using(wirebase::proofs::Chains::chain))]
    pub fn emit_into(&self, octets: &mut [u8])
        requires enough { HaveData (value_of self.now) }
        requires room { text_len (value_of self.now) ≤ length octets.old }
        ensures { Emits IPV6_HBH_MAX_OPTIONS (value_of self.now) octets.old octets.new }
    {
        let mut w = ByteWriter::new(octets);
        put_options(&mut w, self.options.as_slice());
    }

    /// Does nothing; its contract states, of two lists of options that a header can hold, that equal texts mean equal
    /// normal forms, and conversely.
    #[tactic(auto, using(crate::proofs::Ipv6HbhFormat::header_same_text))]
    pub fn same_text(a: &Self, b: &Self)
        ensures { SameText (format IPV6_HBH_MAX_OPTIONS) (value_of a.now) (value_of b.now) }
    {}
}

// Reads the options of a header into an empty list, up to one more than it has room for. The list is the caller's, so
// that it is not copied at each turn.
#[inline(never)]
fn read_options<'a>(
    octets: &'a [u8],
    options: &mut ArrayVec<ipv6option::Repr<'a>, IPV6_HBH_MAX_OPTIONS>,
) -> Result<()>
    requires some { octets.now ≢ [] }
    requires fresh { options.old.items ≡ [] }
    ensures sound { IsOk result
        → IsHeader IPV6_HBH_MAX_OPTIONS octets.now (map option_value options.new.items) }
    ensures reads { (other : List OptionValue) → IsHeader IPV6_HBH_MAX_OPTIONS octets.now other
        → IsOk result }
{
    for option in Ipv6OptionsIterator::new(octets) {
        let option = option?;
        if options.is_full() {
            break;
        }
        options.push(option);
    }
    Ok(())
}

// Writes options one after another.
#[tactic(auto, using(std::proofs::lemmas::List::drop_all))]
fn put_options(w: &mut ByteWriter<'_>, options: &[ipv6option::Repr<'_>])
    requires enough { HaveData (map option_value options.now) }
    requires room { text_len (map option_value options.now) ≤ length (free w.old) }
    ensures { Puts w.old w.new (header_fields (map option_value options.now)) }
{
    for option in options {
        option.put(w);
    }
}
