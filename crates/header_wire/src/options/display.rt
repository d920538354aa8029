//! What options and their refusals print.

ghost use Rattle.std.specs.Prelude.{Some};
ghost use Rattle.header_wire.specs.Options.{value_of};
ghost use Rattle.header_wire.specs.OptionsDisplay.{option_display, refusal_display};

use super::{Ipv4Option, OptionRefusal};
use std::fmt;

/// The option by its name, or by its kind and the number of bytes of its data.
impl fmt::Display for Ipv4Option<'_> {
    ghost output = { λ option. Some (option_display (value_of option)) };

    fn fmt<W: fmt::Write>(&self, f: &mut fmt::Formatter<W>) -> fmt::Result {
        match self {
            Ipv4Option::NoOperation => write!(f, "no operation"),
            Ipv4Option::RouterAlert(value) => write!(f, "router alert value={value}"),
            Ipv4Option::Other { kind, data } => {
                let len = data.len();
                write!(f, "option kind={kind} len={len}")
            }
        }
    }
}

/// The reason, as a phrase.
impl fmt::Display for OptionRefusal {
    ghost output = { λ refusal. Some (refusal_display refusal) };

    fn fmt<W: fmt::Write>(&self, f: &mut fmt::Formatter<W>) -> fmt::Result {
        match self {
            OptionRefusal::NoLength => write!(f, "an option ends before its length"),
            OptionRefusal::Length(len) => write!(f, "a length of {len} is below 2"),
            OptionRefusal::Cut(len) => write!(f, "fewer than the {len} bytes of an option"),
        }
    }
}
