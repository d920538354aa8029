//! Classes of records, by IANA's registry of DNS parameters, and the text of a class.

ghost use Rattle.std.specs.Prelude.{◌≡◌, Some};
ghost use Rattle.std.specs.Option.{option_map};
ghost use Rattle.wirebase.specs.Sink.{PutsText};
ghost use Rattle.dns_wire.specs.DnsDisplay.{name_in};
ghost use Rattle.record_wire.specs.Mnemonics.{class_names, class_text};

use std::{fmt, result};
use wirebase::text::{Sink, ToFormatter, put_number};

/// The internet (RFC 1035 section 3.2.4).
pub const IN: u16 = 1;

/// The Chaos network, today for questions about servers (RFC 1035 section 3.2.4).
pub const CH: u16 = 3;

/// Hesiod (RFC 1035 section 3.2.4).
pub const HS: u16 = 4;

/// No class, in updates (RFC 2136 section 2.4).
pub const NONE: u16 = 254;

/// Any class, in a question alone (RFC 1035 section 3.2.5).
pub const ANY: u16 = 255;

/// A class, which prints as its mnemonic, such as `IN`, or as `CLASS` and its number where this library has no mnemonic
/// for it (RFC 3597 section 5).
#[derive(Debug, PartialEq, Eq, Hash, Clone, Copy)]
pub struct ClassName(pub u16);

impl fmt::Display for ClassName {
    ghost output = { λ name. Some (class_text name.0) };

    #[tactic(auto, using(wirebase::proofs::Sinks::displayed))]
    fn fmt<W: fmt::Write>(&self, f: &mut fmt::Formatter<W>) -> fmt::Result {
        put_class::<_, ToFormatter>(f, self.0)
    }
}

/// Puts the text of a class, as [`ClassName`] prints it.
#[inline(always)]
#[tactic(auto, using(wirebase::proofs::Sinks::puts, // what is put in several calls
crate::proofs::MnemonicTexts::name_some, crate::proofs::MnemonicTexts::name_none), // a mnemonic, or none
unfolding(crate::specs::Mnemonics::class_text))]
pub fn put_class<O, S: Sink<O>>(output: &mut O, number: u16) -> result::Result<(), S::Error>
    ensures { PutsText S.took output.old (class_text number) result output.new }
{
    match mnemonic(number) {
        Some(mnemonic) => S::put_str(output, mnemonic),
        None => {
            S::put_str(output, "CLASS")?;
            put_number::<O, S>(output, u64::from(number))
        }
    }
}

/// The mnemonic of the class of this number, such as `IN` for 1; None where this library has none.
#[inline]
pub fn mnemonic(number: u16) -> Option<&'static str>
    ensures { option_map (λ mnemonic. mnemonic.now) result ≡ name_in class_names number }
{
    match number {
        IN => Some("IN"),
        CH => Some("CH"),
        HS => Some("HS"),
        NONE => Some("NONE"),
        ANY => Some("ANY"),
        _ => None,
    }
}
