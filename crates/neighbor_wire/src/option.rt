//! Options as values.

ghost use Rattle.std.specs.Prelude.{◌≡◌, IfOk, IfErr, IsOkAnd};
ghost use Rattle.wirebase.specs.Format.{Rewrites, SameText};
ghost use Rattle.neighbor_wire.specs.Option.{Value, value_of, text_len, IsOption, Refuses};
ghost use Rattle.neighbor_wire.specs.OptionFormat.{CanEmit, Emits, format};

pub(crate) mod reading;
pub(crate) mod writing;

use crate::names::Names;
use crate::nat64::Nat64Prefix;
use crate::prefix::Prefix;
use crate::refusal::Refusal;
use crate::route::Route;
use crate::servers::Servers;
use wirebase::{Field, are_bytes};

// The bytes of a unit, and the field that counts the units of an option.
pub(crate) const UNIT: usize = 8;

pub(crate) const UNITS: Field = 1..2;

// The other fields of options; their pictures are in specs/Option.antt.
mod field {
    use wirebase::Field;

    pub const KIND: Field = 0..1;

    pub const DATA: usize = 2;

    pub const PREFIX_LEN: Field = 2..3;

    pub const FLAGS: Field = 3..4;

    pub const LIFETIME: Field = 4..8;

    pub const BEHIND_LIFETIME: usize = 8;

    pub const PREFERRED_LIFETIME: Field = 8..12;

    pub const PREFIX: Field = 16..32;

    pub const MTU: Field = 4..8;

    pub const SCALED_LIFETIME: Field = 2..4;

    pub const NAT64_PREFIX: usize = 4;
}

/// An option of a message of neighbor discovery.
#[derive(Debug, PartialEq, Eq, Clone, Copy)]
pub enum NeighborOption<'a> {
    /// The link-layer address of the sender, with the padding behind it: type 1 (RFC 4861 section 4.6.1).
    SourceLinkLayerAddress(&'a [u8]),
    /// The link-layer address of the target, with the padding behind it: type 2 (RFC 4861 section 4.6.1).
    TargetLinkLayerAddress(&'a [u8]),
    /// A prefix: type 3 (RFC 4861 section 4.6.2).
    Prefix(Prefix),
    /// The MTU of the link, in bytes: type 5 (RFC 4861 section 4.6.4).
    Mtu(u32),
    /// A random number, which an answer repeats: type 14 (RFC 3971 section 5.3.2).
    Nonce(&'a [u8]),
    /// A route: type 24 (RFC 4191 section 2.3).
    Route(Route<'a>),
    /// The addresses of recursive DNS servers: type 25 (RFC 8106 section 5.1).
    DnsServers {
        /// How long they may be asked, in seconds; 0xffffffff is for ever.
        lifetime: u32,
        /// Their addresses.
        servers: Servers<'a>,
    },
    /// The names that a resolver appends: type 31 (RFC 8106 section 5.2).
    SearchList {
        /// How long they may be used, in seconds; 0xffffffff is for ever.
        lifetime: u32,
        /// The names, and the zeros behind them.
        names: Names<'a>,
    },
    /// The URI of the captive portal, or of its API, without the zeros behind it: type 37 (RFC 8910 section 2.3).
    CaptivePortal(&'a [u8]),
    /// The prefix of a NAT64: type 38 (RFC 8781 section 4).
    Nat64Prefix(Nat64Prefix<'a>),
    /// An option of any other type, also a redirected header: type 4 (RFC 4861 section 4.6.3).
    Other {
        /// The type.
        kind: u8,
        /// The octets behind the length, with the padding.
        data: &'a [u8],
    },
}

impl<'a> NeighborOption<'a> {
    /// The option that these octets are, all of them: as many as its length counts. Fields that are reserved are not
    /// looked at.
    pub fn parse(octets: &'a [u8]) -> Result<NeighborOption<'a>, Refusal>
        ensures sound { IfOk result (λ option. IsOption octets.now (value_of option)) }
        ensures complete { (value : Value) → IsOption octets.now value
            → IsOkAnd result (λ option. value_of option ≡ value) }
        ensures told { IfErr result (Refuses octets.now) }
        ensures rewrites { IfOk result (λ option. Rewrites format (value_of option)) }
    {
        are_bytes(octets);
        reading::read(octets)
    }

    /// The bytes that the option takes: whole units of 8.
    pub fn buffer_len(&self) -> usize
        ensures { result ≡ text_len (value_of self.now) }
    {
        writing::whole_len(writing::body_len(self))
    }

    /// Writes the option over the front of the octets, with zeros behind it up to a whole unit of 8 bytes, and zeros
    /// in its reserved fields; the other octets are unchanged. Requires at least `buffer_len` bytes, that those are no
    /// more than 255 units, and a scaled lifetime below 8192. An option that the other checks of
    /// [`crate::OptionsWriter::push`] refuse is written too, but its octets are not read back as it is.
    pub fn emit_into(&self, octets: &mut [u8])
        requires { CanEmit (value_of self.now) octets.old }
        ensures { Emits (value_of self.now) octets.old octets.new }
    {
        writing::write(self, octets);
    }

    /// Does nothing; its contract states, of two options that a message can hold, that equal texts mean equal normal
    /// forms, and conversely.
    #[tactic(auto, using(crate::proofs::OptionFormat::option_same_text))]
    pub fn same_text(a: &Self, b: &Self)
        ensures { SameText format (value_of a.now) (value_of b.now) }
    {}
}
